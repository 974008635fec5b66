// The ops of reading: r and R for one record, i for a part, j for a number of a list.
use super::{case, text};
use record::{AlgorithmAt, Cursor, DescriptionAt, NtsRecord, Parsed, Part, ProtocolAt, Reading};

// A number behind a comma, but for the first.
pub(super) fn put_entry(out: &mut [u8], at: usize, index: usize, n: u16) -> usize {
    if index == 0 {
        return text::put_decimal(out, at, n as u64);
    }
    let to = text::put(out, at, b',');
    text::put_decimal(out, to, n as u64)
}

fn put_protocol(out: &mut [u8], at: usize, message: &[u8], list: Part, index: usize) -> usize {
    let entry = record::protocol_at(message, list, index);
    match entry {
        ProtocolAt::Protocol(p) => put_entry(out, at, index, p.0),
        ProtocolAt::Nothing => at,
    }
}

fn put_algorithm(out: &mut [u8], at: usize, message: &[u8], list: Part, index: usize) -> usize {
    let entry = record::algorithm_at(message, list, index);
    match entry {
        AlgorithmAt::Algorithm(a) => put_entry(out, at, index, a.0),
        AlgorithmAt::Nothing => at,
    }
}

fn put_description(out: &mut [u8], at: usize, message: &[u8], list: Part, index: usize) -> usize {
    let entry = record::description_at(message, list, index);
    match entry {
        DescriptionAt::Description(d) => {
            let to = put_entry(out, at, index, d.id.0);
            put_entry(out, to, 1, d.keysize)
        }
        DescriptionAt::Nothing => at,
    }
}

// What stands at an index of the list of a kind.
fn put_at(kind: u16, out: &mut [u8], at: usize, message: &[u8], list: Part, index: usize) -> usize {
    match kind {
        NtsRecord::AEAD_ALGORITHM => put_algorithm(out, at, message, list, index),
        NtsRecord::SUPPORTED_ALGORITHM_LIST => put_description(out, at, message, list, index),
        _ => put_protocol(out, at, message, list, index),
    }
}

// The list of a kind, between brackets.
pub(super) fn put_list(kind: u16, out: &mut [u8], at: usize, message: &[u8], list: Part) -> usize {
    let mut to = text::put(out, at, b'[');
    let mut i = 0;
    let n = list.len / 2;
    while i < n {
        to = put_at(kind, out, to, message, list, i);
        i += 1;
    }
    text::put(out, to, b']')
}

fn put_kind(out: &mut [u8], at: usize, kind: u16) -> usize {
    let to = text::put_decimal(out, at, kind as u64);
    text::put(out, to, b' ')
}

fn put_numbers(out: &mut [u8], at: usize, message: &[u8], kind: u16, list: Part) -> usize {
    let to = put_kind(out, at, kind);
    put_list(kind, out, to, message, list)
}

fn put_number(out: &mut [u8], at: usize, kind: u16, n: u16) -> usize {
    let to = put_kind(out, at, kind);
    text::put_decimal(out, to, n as u64)
}

fn put_body(out: &mut [u8], at: usize, message: &[u8], kind: u16, body: Part) -> usize {
    let to = put_kind(out, at, kind);
    text::put_bytes(out, to, body.of(message))
}

fn put_keys(out: &mut [u8], at: usize, message: &[u8], c2s: Part, s2c: Part) -> usize {
    let to = put_body(out, at, message, NtsRecord::FIXED_KEY_REQUEST, c2s);
    text::put_bytes(out, to, s2c.of(message))
}

fn put_bit(out: &mut [u8], at: usize, bit: bool) -> usize {
    if bit {
        return text::put_text(out, at, b"c ");
    }
    text::put_text(out, at, b"- ")
}

fn put_unknown(
    out: &mut [u8],
    at: usize,
    message: &[u8],
    kind: u16,
    bit: bool,
    body: Part,
) -> usize {
    let word = text::put_text(out, at, b"unknown ");
    let number = put_kind(out, word, kind);
    let to = put_bit(out, number, bit);
    text::put_bytes(out, to, body.of(message))
}

fn kind_of(item: NtsRecord) -> u16 {
    match item {
        NtsRecord::EndOfMessage => NtsRecord::END_OF_MESSAGE,
        NtsRecord::NextProtocol(_) => NtsRecord::NEXT_PROTOCOL,
        NtsRecord::Error(_) => NtsRecord::ERROR,
        NtsRecord::Warning(_) => NtsRecord::WARNING,
        NtsRecord::AeadAlgorithm(_) => NtsRecord::AEAD_ALGORITHM,
        NtsRecord::NewCookie(_) => NtsRecord::NEW_COOKIE,
        NtsRecord::Server(_) => NtsRecord::SERVER,
        NtsRecord::Port(_) => NtsRecord::PORT,
        NtsRecord::KeepAlive => NtsRecord::KEEP_ALIVE,
        NtsRecord::SupportedNextProtocolList(_) => NtsRecord::SUPPORTED_NEXT_PROTOCOL_LIST,
        NtsRecord::SupportedAlgorithmList(_) => NtsRecord::SUPPORTED_ALGORITHM_LIST,
        NtsRecord::FixedKeyRequest { .. } => NtsRecord::FIXED_KEY_REQUEST,
        NtsRecord::NtpServerDeny(_) => NtsRecord::NTP_SERVER_DENY,
        NtsRecord::Authentication(_) => NtsRecord::AUTHENTICATION,
        NtsRecord::Unknown { record_type, .. } => record_type,
    }
}

// A record's kind and values.
fn put_record(out: &mut [u8], at: usize, m: &[u8], item: NtsRecord) -> usize {
    let kind = kind_of(item);
    match item {
        NtsRecord::NextProtocol(p)
        | NtsRecord::AeadAlgorithm(p)
        | NtsRecord::SupportedNextProtocolList(p)
        | NtsRecord::SupportedAlgorithmList(p) => put_numbers(out, at, m, kind, p),
        NtsRecord::NewCookie(p)
        | NtsRecord::Server(p)
        | NtsRecord::NtpServerDeny(p)
        | NtsRecord::Authentication(p) => put_body(out, at, m, kind, p),
        NtsRecord::FixedKeyRequest { c2s, s2c } => put_keys(out, at, m, c2s, s2c),
        NtsRecord::Unknown {
            record_type,
            critical,
            data,
        } => put_unknown(out, at, m, record_type, critical, data),
        _ => put_short(out, at, kind, item),
    }
}

// .. of a record that holds a number or nothing.
fn put_short(out: &mut [u8], at: usize, kind: u16, item: NtsRecord) -> usize {
    match item {
        NtsRecord::Error(c) => put_number(out, at, kind, c.0),
        NtsRecord::Warning(c) => put_number(out, at, kind, c.0),
        NtsRecord::Port(n) => put_number(out, at, kind, n),
        _ => text::put_decimal(out, at, kind as u64),
    }
}

// The place after a record, its bit as received, and the record.
fn put_read(out: &mut [u8], at: usize, message: &[u8], x: Reading) -> usize {
    let place = text::put_number(out, at, b"ok next ", x.next.at as u64);
    let bit = text::put(out, place, b' ');
    let to = put_bit(out, bit, x.critical);
    let item = x.item;
    put_record(out, to, message, item)
}

// Op r: the record at the front of the payload, read by a new cursor.
pub(super) fn at_front(case: &[u8], out: &mut [u8], at: usize) -> usize {
    let answer = Cursor::new().read(case);
    match answer {
        Parsed::Read(x) => put_read(out, at, case, x),
        Parsed::Refused(r) => {
            let error = r.error;
            text::put_refusal(out, at, error)
        }
    }
}

// Op R: a place, and the message.
pub(super) fn at_place(case: &[u8], out: &mut [u8], at: usize) -> usize {
    if case.len() < 8 {
        return text::bad_case(out, at);
    }
    let place = case::number64(case, 0);
    let message = &case[8..];
    let answer = NtsRecord::parse(message, place);
    match answer {
        Parsed::Read(x) => put_read(out, at, message, x),
        Parsed::Refused(r) => text::put_refusal_at(out, at, r),
    }
}

// Op i: a start, a length, and the message.
pub(super) fn part_of(case: &[u8], out: &mut [u8], at: usize) -> usize {
    if case.len() < 16 {
        return text::bad_case(out, at);
    }
    let part = Part {
        start: case::number64(case, 0),
        len: case::number64(case, 8),
    };
    text::put_bytes(out, at, part.of(&case[16..]))
}

// Op j: an index, and the list.
pub(super) fn number_of(case: &[u8], out: &mut [u8], at: usize) -> usize {
    if case.len() < 8 {
        return text::bad_case(out, at);
    }
    let index = case::number64(case, 0);
    let list = &case[8..];
    let all = Part {
        start: 0,
        len: list.len(),
    };
    let entry = record::protocol_at(list, all, index);
    match entry {
        ProtocolAt::Protocol(p) => text::put_decimal(out, at, p.0 as u64),
        ProtocolAt::Nothing => text::put_text(out, at, b"none"),
    }
}
