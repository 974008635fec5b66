// The ops of writing: w and W for one record, X for a part of it, z for its exact length.
ghost use Rattle.std.specs.Prelude.{◌+◌, ◌≤◌, length};

use super::{case, lent, text};
use nts::{ErrorCode, WarningCode};
use record::{ByteCount, NtsRecord, Part};

// The record that a case gives; its parts lie in the case.
#[derive(Clone, Copy)]
pub enum Given {
    Item(NtsRecord),
    Bad,
}

// All of a case from a place on.
fn rest(case: &[u8], at: usize) -> Part
    ensures { result.start + result.len ≤ length case.now }
{
    if at <= case.len() {
        return Part {
            start: at,
            len: case.len() - at,
        };
    }
    Part { start: 0, len: 0 }
}

// A record with no body; bytes left over are none.
fn bare(case: &[u8], at: usize, item: NtsRecord) -> Given {
    if at == case.len() {
        return Given::Item(item);
    }
    Given::Bad
}

fn with_number(kind: u16, case: &[u8], at: usize) -> Given {
    let left = rest(case, at);
    if left.len != 2 {
        return Given::Bad;
    }
    let n = case::number16(case, at);
    match kind {
        NtsRecord::ERROR => Given::Item(NtsRecord::Error(ErrorCode(n))),
        NtsRecord::WARNING => Given::Item(NtsRecord::Warning(WarningCode(n))),
        _ => Given::Item(NtsRecord::Port(n)),
    }
}

// Four bytes of the first half's length, and both halves.
fn with_halves(case: &[u8], at: usize) -> Given {
    let left = rest(case, at);
    if left.len < 4 {
        return Given::Bad;
    }
    let first = case::number32(case, at);
    if left.len - 4 < first {
        return Given::Bad;
    }
    let start = left.start + 4;
    Given::Item(NtsRecord::FixedKeyRequest {
        c2s: Part { start, len: first },
        s2c: Part {
            start: start + first,
            len: left.len - 4 - first,
        },
    })
}

// Two bytes of number, one for the bit, and the body.
fn with_bit(case: &[u8], at: usize) -> Given {
    let left = rest(case, at);
    if left.len < 3 {
        return Given::Bad;
    }
    let bit = wire::byte_at(case, left.start + 2);
    if bit > 1 {
        return Given::Bad;
    }
    Given::Item(NtsRecord::Unknown {
        record_type: case::number16(case, at),
        critical: bit == 1,
        data: Part {
            start: left.start + 3,
            len: left.len - 3,
        },
    })
}

fn with_body(kind: u16, body: Part) -> Given {
    match kind {
        NtsRecord::NEXT_PROTOCOL => Given::Item(NtsRecord::NextProtocol(body)),
        NtsRecord::AEAD_ALGORITHM => Given::Item(NtsRecord::AeadAlgorithm(body)),
        NtsRecord::NEW_COOKIE => Given::Item(NtsRecord::NewCookie(body)),
        NtsRecord::SERVER => Given::Item(NtsRecord::Server(body)),
        NtsRecord::SUPPORTED_NEXT_PROTOCOL_LIST => Given::Item(NtsRecord::SupportedNextProtocolList(
            body,
        )),
        NtsRecord::SUPPORTED_ALGORITHM_LIST => Given::Item(NtsRecord::SupportedAlgorithmList(body)),
        NtsRecord::NTP_SERVER_DENY => Given::Item(NtsRecord::NtpServerDeny(body)),
        NtsRecord::AUTHENTICATION => Given::Item(NtsRecord::Authentication(body)),
        _ => Given::Bad,
    }
}

// A kind byte, and what belongs to it.
fn record_in(case: &[u8], from: usize) -> Given {
    if case.len() <= from {
        return Given::Bad;
    }
    let kind = wire::byte_at(case, from) as u16;
    let at = from + 1;
    match kind {
        NtsRecord::END_OF_MESSAGE => bare(case, at, NtsRecord::EndOfMessage),
        NtsRecord::ERROR | NtsRecord::WARNING | NtsRecord::PORT => with_number(kind, case, at),
        NtsRecord::KEEP_ALIVE => bare(case, at, NtsRecord::KeepAlive),
        NtsRecord::KIND_WITHOUT_NAME => with_bit(case, at),
        NtsRecord::FIXED_KEY_REQUEST => with_halves(case, at),
        _ => with_body(kind, rest(case, at)),
    }
}

// A record written into an output that is filled for it.
fn put_written(item: NtsRecord, source: &[u8], dst: &mut [u8], out: &mut [u8], at: usize) -> usize {
    lent::fill(dst);
    let answer = item.serialize(source, dst);
    lent::put_written(out, at, dst, answer)
}

pub(super) fn answer(op: u8, case: &[u8], dst: &mut [u8], out: &mut [u8], at: usize) -> usize {
    match op {
        b'w' => put_given(case, 0, dst, out, at),
        b'W' => in_room(case, dst, out, at),
        _ => part_in(case, dst, out, at),
    }
}

// Op w: a record from a place on, into an output of all the room.
fn put_given(case: &[u8], from: usize, dst: &mut [u8], out: &mut [u8], at: usize) -> usize {
    let record = record_in(case, from);
    match record {
        Given::Item(item) => put_written(item, case, dst, out, at),
        Given::Bad => text::bad_case(out, at),
    }
}

// Op W: the output's room, and a record.
fn in_room(case: &[u8], dst: &mut [u8], out: &mut [u8], at: usize) -> usize {
    let room = case::number32(case, 0);
    if room <= dst.len() {
        return put_given(case, 4, &mut dst[0..room], out, at);
    }
    text::bad_case(out, at)
}

// Op X: a cookie's start and length, and the bytes that it may lie in.
fn part_in(case: &[u8], dst: &mut [u8], out: &mut [u8], at: usize) -> usize {
    if case.len() < 16 {
        return text::bad_case(out, at);
    }
    let body = Part {
        start: case::number64(case, 0),
        len: case::number64(case, 8),
    };
    put_written(NtsRecord::NewCookie(body), &case[16..], dst, out, at)
}

// Op z: a record's exact length.
pub(super) fn length_of(case: &[u8], out: &mut [u8], at: usize) -> usize {
    let record = record_in(case, 0);
    match record {
        Given::Item(item) => put_length(out, at, item.length(case)),
        Given::Bad => text::bad_case(out, at),
    }
}

fn put_length(out: &mut [u8], at: usize, length: ByteCount) -> usize {
    match length {
        ByteCount::Bytes(n) => text::put_number(out, at, b"length ", n as u64),
        ByteCount::Refused(error) => text::put_refusal(out, at, error),
    }
}
