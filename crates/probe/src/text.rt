// Puts text behind what is to print. What the room cannot hold is dropped: the room is twice the longest line.
use itoa::Buffer;
use nts::{Code, NtsError, Refusal};
use record::{ByteCount, Part};

pub(super) fn put(out: &mut [u8], at: usize, b: u8) -> usize {
    if at < out.len() {
        out[at] = b;
        return at + 1;
    }
    at
}

pub(super) fn put_text(out: &mut [u8], at: usize, text: &[u8]) -> usize {
    let mut to = at;
    let mut i = 0;
    while i < text.len() {
        to = put(out, to, text[i]);
        i += 1;
    }
    to
}

pub(super) fn put_decimal(out: &mut [u8], at: usize, n: u64) -> usize {
    let mut digits = Buffer::new();
    let text = digits.format(n);
    put_text(out, at, text.as_bytes())
}

fn glyph(d: u8) -> u8 {
    if d < 10 {
        return b'0' + d;
    }
    if d < 16 {
        return b'a' - 10 + d;
    }
    b'?'
}

// The bytes in hexadecimal, between angle brackets.
pub(super) fn put_bytes(out: &mut [u8], at: usize, bytes: &[u8]) -> usize {
    let mut to = put(out, at, b'<');
    let mut i = 0;
    while i < bytes.len() {
        to = put(out, to, glyph(bytes[i] / 16));
        to = put(out, to, glyph(bytes[i] % 16));
        i += 1;
    }
    put(out, to, b'>')
}

// A word, and a number behind it.
pub(super) fn put_number(out: &mut [u8], at: usize, word: &[u8], n: u64) -> usize {
    let to = put_text(out, at, word);
    put_decimal(out, to, n)
}

// A word and a number, twice.
pub(super) fn put_two(
    out: &mut [u8],
    at: usize,
    word: &[u8],
    n: u16,
    second: &[u8],
    m: u16,
) -> usize {
    let to = put_number(out, at, word, n as u64);
    put_number(out, to, second, m as u64)
}

// A word, and 1 or 0 behind it.
pub(super) fn put_flag(out: &mut [u8], at: usize, word: &[u8], flag: bool) -> usize {
    let to = put_text(out, at, word);
    if flag {
        return put(out, to, b'1');
    }
    put(out, to, b'0')
}

// A word, and a part of the message behind it.
pub(super) fn put_part(
    out: &mut [u8],
    at: usize,
    word: &[u8],
    message: &[u8],
    part: Part,
) -> usize {
    let to = put_text(out, at, word);
    put_bytes(out, to, part.of(message))
}

pub(super) fn bad_case(out: &mut [u8], at: usize) -> usize {
    put_text(out, at, b"bad case")
}

// "refused N".
pub(super) fn put_refusal(out: &mut [u8], at: usize, error: NtsError) -> usize {
    put_number(out, at, b"refused ", error.number() as u64)
}

// "length N" or "length refused N", and a blank.
pub(super) fn put_length(out: &mut [u8], at: usize, length: ByteCount) -> usize {
    let word = put_text(out, at, b"length ");
    let to = put_count(out, word, length);
    put(out, to, b' ')
}

fn put_count(out: &mut [u8], at: usize, count: ByteCount) -> usize {
    match count {
        ByteCount::Bytes(n) => put_decimal(out, at, n as u64),
        ByteCount::Refused(error) => put_refusal(out, at, error),
    }
}

// "refused N at P", and " code C" where a code is returned.
pub(super) fn put_refusal_at(out: &mut [u8], at: usize, refusal: Refusal) -> usize {
    let error = refusal.error;
    let number = put_refusal(out, at, error);
    let place = put_number(out, number, b" at ", refusal.place as u64);
    let code = error.code();
    match code {
        Code::None => place,
        _ => put_number(out, place, b" code ", cells::beside(error) as u64),
    }
}
