// Answers a corpus: cases are read from standard input until it ends, and each gets a line.
#![tactic(auto)]

mod case;
mod choosing;
mod feeding;
mod findings;
mod lent;
mod plans;
mod records;
mod replies;
mod requests;
mod sending;
mod text;
mod whole;
mod writing;

ghost use Rattle.std.specs.Prelude.{◌<◌, ◌≤◌, length};

use record::Profile;
use std::io;
use std::io::{ErrorKind, Read};

#[derive(Clone, Copy)]
struct Head {
    on: bool,
    op: u8,
    size: usize,
}

#[derive(Clone, Copy)]
struct Went {
    on: bool,
    used: usize,
}

// The line of one case; what a call writes to is lent by the caller, with twice the table's cells.
fn answer(
    op: u8,
    case: &[u8],
    dst: &mut [u8],
    table: &mut [u16],
    out: &mut [u8],
    at: usize,
) -> usize {
    let cells = table.len() / 2;
    match op {
        b'f' => feeding::of_request(Profile::Usual, case, dst, table, out, at),
        b't' => feeding::of_request(Profile::Strict, case, dst, table, out, at),
        b'F' => feeding::of_reply(Profile::Usual, case, dst, table, out, at),
        b'T' => feeding::of_reply(Profile::Strict, case, dst, table, out, at),
        b'q' | b'Q' | b'L' | b'V' | b'y' | b'l' | b's' | b'S' => {
            whole::answer(op, case, &mut table[0..cells], out, at)
        }
        b'w' | b'W' | b'X' => writing::answer(op, case, dst, out, at),
        b'n' | b'k' | b'a' | b'p' | b'P' => sent(op, case, dst, out, at),
        _ => read(op, case, out, at),
    }
}

// .. of a whole message that is written.
fn sent(op: u8, case: &[u8], dst: &mut [u8], out: &mut [u8], at: usize) -> usize {
    match op {
        b'n' => sending::reply(case, dst, out, at),
        b'k' => sending::request(case, dst, out, at),
        b'a' => plans::appended(case, dst, out, at),
        b'p' => plans::of_calls(case, dst, out, at),
        _ => plans::of_hand(case, dst, out, at),
    }
}

// .. of an op to which nothing is lent.
fn read(op: u8, case: &[u8], out: &mut [u8], at: usize) -> usize {
    match op {
        b'r' => records::at_front(case, out, at),
        b'R' => records::at_place(case, out, at),
        b'i' => records::part_of(case, out, at),
        b'j' => records::number_of(case, out, at),
        b'z' => writing::length_of(case, out, at),
        b'v' => findings::walked(case, out, at),
        b'g' => choosing::of_lists(case, out, at),
        _ => text::bad_case(out, at),
    }
}

// What is to print is written once there is as much of it as `least`.
fn flush(rt: &impl Print, out: &[u8], used: usize, least: usize) -> io::Result<usize> {
    if used < least {
        return Ok(used);
    }
    if used <= out.len() {
        rt.write_all(&out[0..used])?;
    }
    Ok(0)
}

// Reads until the buffer is full, the input ends or a read fails: how many bytes it put at the front of the buffer. A read that a signal interrupts is made again.
fn read_full(input: &mut impl Read, buf: &mut [u8]) -> usize
    ensures { result ≤ length buf.new }
{
    let mut done = 0;
    for _ in 0..u64::MAX {
        if done >= buf.len() {
            break;
        }
        match input.read(&mut buf[done..]) {
            Ok(0) => break,
            Ok(n) => done += n,
            Err(error) => {
                if error.kind() != ErrorKind::Interrupted {
                    break;
                }
            }
        }
    }
    done
}

// Reads past a payload that no case may have; false where the input ends inside it.
fn skip(input: &mut impl Read, buf: &mut [u8], size: usize) -> bool {
    let mut left = size;
    while buf.len() < left {
        let got = read_full(input, buf);
        if got < buf.len() {
            return false;
        }
        if got == 0 {
            return false;
        }
        left -= got;
    }
    read_full(input, &mut buf[0..left]) == left
}

// The op and the length of a case; off where the input ends inside them.
fn read_head(input: &mut impl Read) -> Head {
    let mut bytes = [0u8; 5];
    let got = read_full(input, &mut bytes);
    Head {
        on: got == 5,
        op: bytes[0],
        size: case::number32(&bytes, 1),
    }
}

// A line ends: all of it is behind what is to print.
fn ended(rt: &impl Print, out: &mut [u8], at: usize) -> io::Result<Went> {
    let end = text::put(out, at, 10);
    Ok(Went {
        on: true,
        used: flush(rt, out, end, out.len() / 2)?,
    })
}

// The line of a case that is too long.
fn too_long(
    rt: &impl Print,
    input: &mut impl Read,
    buf: &mut [u8],
    size: usize,
    out: &mut [u8],
    used: usize,
) -> io::Result<Went> {
    if skip(input, buf, size) {
        let to = text::bad_case(out, used);
        return ended(rt, out, to);
    }
    Ok(Went { on: false, used })
}

// One case: its op, its length and its payload are read, and its line is put behind what is to print.
fn turn(
    rt: &impl Print,
    input: &mut impl Read,
    buf: &mut [u8],
    dst: &mut [u8],
    table: &mut [u16],
    out: &mut [u8],
    used: usize,
) -> io::Result<Went> {
    let h = read_head(input);
    if h.on {
        return answered(rt, input, h.op, h.size, buf, dst, table, out, used);
    }
    Ok(Went { on: false, used })
}

fn answered(
    rt: &impl Print,
    input: &mut impl Read,
    op: u8,
    size: usize,
    buf: &mut [u8],
    dst: &mut [u8],
    table: &mut [u16],
    out: &mut [u8],
    used: usize,
) -> io::Result<Went> {
    if buf.len() < size {
        return too_long(rt, input, buf, size, out, used);
    }
    if read_full(input, &mut buf[0..size]) < size {
        return Ok(Went { on: false, used });
    }
    let to = answer(op, &buf[0..size], dst, table, out, used);
    ended(rt, out, to)
}

// How many turns are left: none once the input has ended.
fn left(turns: u64, on: bool) -> u64
    requires { 0 < turns }
    ensures { result < turns }
{
    if on {
        return turns - 1;
    }
    0
}

fn run(
    rt: &impl Print,
    input: &mut impl Read,
    buf: &mut [u8],
    dst: &mut [u8],
    table: &mut [u16],
    out: &mut [u8],
) -> io::Result<()> {
    let mut turns = u64::MAX;
    let mut used = 0;
    while turns > 0 {
        let t = turn(rt, input, buf, dst, table, out, used)?;
        used = t.used;
        turns = left(turns, t.on);
    }
    flush(rt, out, used, 0)?;
    Ok(())
}

fn main(rt: HostRuntime) -> io::Result<()> {
    let mut buf = [0u8; 66000];
    let mut dst = [0u8; 66000];
    let mut table = [0u16; 4096];
    let mut out = [0u8; 400000];
    run(
        &rt,
        &mut rt.stdin(),
        &mut buf,
        &mut dst,
        &mut table,
        &mut out,
    )
}
