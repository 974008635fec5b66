// Lists the records of a message on standard input, and what the request reader answers for it.
#![tactic(auto)]

ghost use Rattle.std.specs.Prelude.{◌≤◌, length};
ghost use Rattle.wire.specs.Over.{Put};
ghost use Rattle.kelist.specs.Kelist.{kelist_text};

use record::ByteCount;
use std::io::{ErrorKind, Read};
use std::process::ExitCode;

// The longest message that is read; what follows is cut off.
const LIMIT: u16 = 65535;

// For how many denied names there is room.
const NAMES: usize = 1024;

// The text that is printed for a message, at the front of the output: how many bytes it has. There is room for every text, so `list` refuses none.
fn make_text(message: &[u8], out: &mut [u8; 262272]) -> usize
    ensures { Put (length (kelist_text message.now)) (kelist_text message.now) out.old result out.new }
{
    let count = listing::list(message, LIMIT, NAMES, out);
    let ByteCount::Bytes(end) = count else {
        return 0;
    };
    end
}

// Reads until the buffer is full, the input ends or a read fails: how many bytes it put at the front of the buffer. A read that a signal interrupts is made again.
fn read_full(input: &mut impl Read, buf: &mut [u8]) -> usize
    ensures { result ≤ length buf.new }
{
    let mut done = 0;
    for _ in 0..u64::MAX {
        if done >= buf.len() {
            break;
        }
        match input.read(&mut buf[done..]) {
            Ok(0) => break,
            Ok(n) => done += n,
            Err(error) => {
                if error.kind() != ErrorKind::Interrupted {
                    break;
                }
            }
        }
    }
    done
}

fn main(rt: HostRuntime) -> ExitCode {
    let mut message = [0u8; 65535];
    let mut out = [0u8; 262272];
    let n = read_full(&mut rt.stdin(), &mut message);
    let end = make_text(&message[0..n], &mut out);
    if rt.write_all(&out[0..end]).is_err() {
        let _ = rt.eprintln("kelist: standard output did not take the listing");
        return ExitCode::FAILURE;
    }
    ExitCode::SUCCESS
}
