// The writers of the other whole messages and of one record, their lengths, and a request's tray of denied names, for a host in C or Rust. Each answers a length into
// one cell; a refusal changes neither it nor the output nor the tray.
#![tactic(auto)]

ghost use Rattle.std.specs.Prelude.{◌≡◌, length};
ghost use Rattle.layout.specs.Write.{bytes, fitted};
ghost use Rattle.plan.specs.Tray.{names_in};
ghost use Rattle.messages.specs.Messages.{message_of, bodies_of, no_protocol_records, no_algorithm_records, error_records, support_records, request_records, request_checked};
ghost use Rattle.cells.specs.Cells.{counted, Gives, Writes};
ghost use Rattle.writing.specs.Given.{record_in, item_of, held_length, held_bytes, asked_of, support_count, DeniesTo};
ghost use Rattle.writing.specs.Code.{told_given};

use messages::Asked;
use nts::{ErrorCode, NextProtocol, NtsError, WarningCode};
use record::{NtsRecord, Part};

// The record that cells hold.
#[derive(Clone, Copy)]
enum Given {
    Item(NtsRecord),
    None,
}

// Writes the reply that no protocol is agreed on: 10.
pub fn ntske_write_no_protocol(out: &mut [u8], written: &mut [usize; 1]) -> u64
    ensures { Writes (fitted (length out.old) (bytes 8)) (message_of no_protocol_records) out.old written.old result out.new written.new }
{
    let answer = declining::write_no_protocol(out);
    cells::give_count(answer, written)
}

// Writes the reply that no algorithm is agreed on, with the protocol: 10.
pub fn ntske_write_no_algorithm(protocol: u16, out: &mut [u8], written: &mut [usize; 1]) -> u64
    ensures { Writes (fitted (length out.old) (bytes 14)) (message_of (no_algorithm_records protocol)) out.old written.old result out.new written.new }
{
    let answer = declining::write_no_algorithm(NextProtocol(protocol), out);
    cells::give_count(answer, written)
}

// Writes the reply that tells an error: 10.
pub fn ntske_write_error(code: u16, out: &mut [u8], written: &mut [usize; 1]) -> u64
    ensures { Writes (fitted (length out.old) (bytes 10)) (message_of (error_records code)) out.old written.old result out.new written.new }
{
    let answer = declining::write_error(ErrorCode(code), out);
    cells::give_count(answer, written)
}

// Writes a support reply: 1 for algorithms, 2 for protocols, 4 for keep-alive, and their sums. 9 for another number or an odd number of cells of
// pairs, then 8 for a list that is to be written, then 10.
pub fn ntske_write_support_reply(
    asked: u8,
    pairs: &[u16],
    protocols: &[u16],
    out: &mut [u8],
    written: &mut [usize; 1],
) -> u64
    ensures { Writes (fitted (length out.old) (support_count asked pairs.now protocols.now))
        (message_of (support_records (asked_of asked) pairs.now protocols.now)) out.old written.old result out.new written.new }
{
    if 7 < asked {
        return cells::refused(NtsError::InvalidValue);
    }
    let answer = supporting::write_support_reply(asked_of(asked), pairs, protocols, out);
    cells::give_count(answer, written)
}

// Its exact length, with the writer's 9 and 8.
pub fn ntske_support_reply_length(
    asked: u8,
    pairs: &[u16],
    protocols: &[u16],
    length: &mut [usize; 1],
) -> u64
    ensures { Gives (counted (support_count asked pairs.now protocols.now)) length.old result length.new }
{
    if 7 < asked {
        return cells::refused(NtsError::InvalidValue);
    }
    let answer = supporting::support_reply_length(asked_of(asked), pairs, protocols);
    cells::give_count(answer, length)
}

// Writes a key-exchange request with the names of a tray: 9 for a broken tray or a name that is not UTF-8, then 8, then 10.
pub fn ntske_write_request(
    protocols: &[u16],
    algorithms: &[u16],
    tray: &[u8],
    used: usize,
    out: &mut [u8],
    written: &mut [usize; 1],
) -> u64
    ensures { Writes (fitted (length out.old) (request_checked protocols.now algorithms.now (names_in used tray.now)))
        (message_of (request_records protocols.now algorithms.now (bodies_of (names_in used tray.now)))) out.old written.old result out.new written.new }
{
    let answer = outgoing::write_request(protocols, algorithms, tray, used, out);
    cells::give_count(answer, written)
}

// Its exact length, with the writer's 9 and 8.
pub fn ntske_request_length(
    protocols: &[u16],
    algorithms: &[u16],
    tray: &[u8],
    used: usize,
    length: &mut [usize; 1],
) -> u64
    ensures { Gives (counted (request_checked protocols.now algorithms.now (names_in used tray.now))) length.old result length.new }
{
    let answer = outgoing::request_length(protocols, algorithms, tray, used);
    cells::give_count(answer, length)
}

// Appends a denied name to a request's tray, of which one cell holds the used length: 9 for a broken tray and for a name that is not UTF-8, then 8, then 10 for no
// room. Only the bytes of the field that is added change.
pub fn ntske_append_denied(name: &[u8], tray: &mut [u8], used: &mut [usize; 1]) -> u64
    ensures { DeniesTo used.old name.now tray.old result used.new tray.new }
{
    let answer = plan::append_denied(name, tray, used[0]);
    cells::give_count(answer, used)
}

// Writes one record, told by seven cells as the reader of one record gives them; its parts lie in the source. 9 for cells that hold no record and for
// what is none by document 01, then 8, then 10.
pub fn ntske_write_record(
    item: &[usize; 7],
    source: &[u8],
    out: &mut [u8],
    written: &mut [usize; 1],
) -> u64
    ensures { Writes (fitted (length out.old) (held_length (record_in item.now) source.now))
        (held_bytes (record_in item.now) source.now) out.old written.old result out.new written.new }
{
    let given = record_in(item);
    let Given::Item(x) = given else {
        return cells::refused(NtsError::InvalidValue);
    };
    let answer = x.serialize(source, out);
    cells::give_count(answer, written)
}

// Its exact length, with the writer's 9 and 8.
pub fn ntske_record_length(item: &[usize; 7], source: &[u8], length: &mut [usize; 1]) -> u64
    ensures { Gives (counted (held_length (record_in item.now) source.now)) length.old result length.new }
{
    let given = record_in(item);
    let Given::Item(x) = given else {
        return cells::refused(NtsError::InvalidValue);
    };
    let answer = x.length(source);
    cells::give_count(answer, length)
}

fn asked_of(n: u8) -> Asked
    ensures { result ≡ asked_of n }
{
    Asked {
        algorithms: n % 2 == 1,
        protocols: n / 2 % 2 == 1,
        keep_alive: n / 4 == 1,
    }
}

// The record that cells hold: kind and number of sixteen bits, and a bit of 0 or 1.
fn record_in(c: &[usize; 7]) -> Given
    ensures { told_given result ≡ record_in c.now }
{
    if 65535 < c[0] {
        return Given::None;
    }
    if 1 < c[1] {
        return Given::None;
    }
    if 65535 < c[2] {
        return Given::None;
    }
    let first = Part {
        start: c[3],
        len: c[4],
    };
    let second = Part {
        start: c[5],
        len: c[6],
    };
    Given::Item(item_of(c[0] as u16, c[1] == 1, c[2] as u16, first, second))
}

fn item_of(kind: u16, bit: bool, n: u16, first: Part, second: Part) -> NtsRecord
    ensures { result ≡ item_of kind bit n first second }
{
    match kind {
        NtsRecord::END_OF_MESSAGE => NtsRecord::EndOfMessage,
        NtsRecord::NEXT_PROTOCOL => NtsRecord::NextProtocol(first),
        NtsRecord::ERROR => NtsRecord::Error(ErrorCode(n)),
        NtsRecord::WARNING => NtsRecord::Warning(WarningCode(n)),
        NtsRecord::AEAD_ALGORITHM => NtsRecord::AeadAlgorithm(first),
        NtsRecord::NEW_COOKIE => NtsRecord::NewCookie(first),
        NtsRecord::SERVER => NtsRecord::Server(first),
        NtsRecord::PORT => NtsRecord::Port(n),
        NtsRecord::KEEP_ALIVE => NtsRecord::KeepAlive,
        NtsRecord::SUPPORTED_NEXT_PROTOCOL_LIST => NtsRecord::SupportedNextProtocolList(first),
        NtsRecord::SUPPORTED_ALGORITHM_LIST => NtsRecord::SupportedAlgorithmList(first),
        NtsRecord::FIXED_KEY_REQUEST => NtsRecord::FixedKeyRequest {
            c2s: first,
            s2c: second,
        },
        NtsRecord::NTP_SERVER_DENY => NtsRecord::NtpServerDeny(first),
        NtsRecord::AUTHENTICATION => NtsRecord::Authentication(first),
        _ => NtsRecord::Unknown {
            record_type: kind,
            critical: bit,
            data: first,
        },
    }
}
