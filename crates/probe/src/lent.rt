// What is lent to a call: filled before it, and looked at afterwards.
use super::text;
use nts::Refusal;
use record::ByteCount;

const BYTE: u8 = 0xA5;

const CELL: u16 = 0xA5A5;

pub(super) fn fill(dst: &mut [u8]) {
    let mut i = 0;
    while i < dst.len() {
        dst[i] = BYTE;
        i += 1;
    }
}

// Whether the bytes from a place on are as they were lent.
pub(super) fn is_filled(dst: &[u8], from: usize) -> bool {
    let mut i = from;
    while i < dst.len() {
        if dst[i] != BYTE {
            return false;
        }
        i += 1;
    }
    true
}

// Whether two buffers are the same from a place on, and up to another one.
pub(super) fn is_same(a: &[u8], b: &[u8], from: usize, to: usize) -> bool {
    let mut i = from;
    while i < to {
        if wire::byte_at(a, i) != wire::byte_at(b, i) {
            return false;
        }
        i += 1;
    }
    true
}

// Puts the bytes at the front of a buffer, as far as it reaches.
pub(super) fn copy(bytes: &[u8], dst: &mut [u8]) {
    let mut i = 0;
    while i < dst.len() {
        dst[i] = wire::byte_at(bytes, i);
        i += 1;
    }
}

pub(super) fn fill_cells(table: &mut [u16]) {
    let mut i = 0;
    while i < table.len() {
        table[i] = CELL;
        i += 1;
    }
}

pub(super) fn are_filled(table: &[u16], from: usize) -> bool {
    let mut i = from;
    while i < table.len() {
        if table[i] != CELL {
            return false;
        }
        i += 1;
    }
    true
}

// Puts the first half of a table into the second.
pub(super) fn keep(table: &mut [u16]) {
    let cells = table.len() / 2;
    let mut i = 0;
    while i < cells {
        table[cells + i] = table[i];
        i += 1;
    }
}

// Whether the halves of a table are the same.
pub(super) fn are_kept(table: &[u16]) -> bool {
    let cells = table.len() / 2;
    let mut i = 0;
    while i < cells {
        if table[cells + i] != table[i] {
            return false;
        }
        i += 1;
    }
    true
}

pub(super) fn put_changed(out: &mut [u8], at: usize, unchanged: bool) -> usize {
    if unchanged {
        return at;
    }
    text::put_text(out, at, b" CHANGED")
}

fn put_front(out: &mut [u8], at: usize, dst: &[u8], n: usize) -> usize {
    let to = text::put_text(out, at, b"wrote ");
    text::put_bytes(out, to, wire::part(dst, 0, n))
}

// What a writer answered and left in an output that was filled for the call; ` CHANGED` where a byte behind what it wrote, or any byte of a
// refused one, is not as it was lent.
pub(super) fn put_written(out: &mut [u8], at: usize, dst: &[u8], answer: ByteCount) -> usize {
    match answer {
        ByteCount::Bytes(n) => {
            let to = put_front(out, at, dst, n);
            put_changed(out, to, is_filled(dst, n))
        }
        ByteCount::Refused(error) => {
            let to = text::put_refusal(out, at, error);
            put_changed(out, to, is_filled(dst, 0))
        }
    }
}

// The first cell behind those of so many entries.
fn behind(entries: usize, cells: usize) -> usize {
    if entries <= cells / 2 {
        return 2 * entries;
    }
    cells
}

// Whether the cells behind those of so many entries are as they were lent.
pub(super) fn are_filled_behind(table: &[u16], entries: usize) -> bool {
    are_filled(table, behind(entries, table.len()))
}

// ` CHANGED` where one is not.
pub(super) fn put_changed_behind(
    out: &mut [u8],
    at: usize,
    table: &[u16],
    entries: usize,
) -> usize {
    put_changed(out, at, are_filled_behind(table, entries))
}

// The bodies that the table points to.
fn put_bodies(out: &mut [u8], at: usize, message: &[u8], table: &[u16], count: usize) -> usize {
    let mut to = at;
    let mut i = 0;
    while i < count {
        to = text::put_bytes(out, to, places::entry(message, table, i));
        i += 1;
    }
    to
}

// A word, how many entries an accepted message put into the table, and each.
pub(super) fn put_entries(
    out: &mut [u8],
    at: usize,
    word: &[u8],
    message: &[u8],
    table: &[u16],
    count: usize,
) -> usize {
    let number = text::put_number(out, at, word, count as u64);
    let blank = text::put(out, number, b' ');
    put_bodies(out, blank, message, table, count)
}

// The refusal of a message; ` CHANGED` where a cell is not as it was lent.
pub(super) fn put_refused(out: &mut [u8], at: usize, table: &[u16], refusal: Refusal) -> usize {
    let to = text::put_refusal_at(out, at, refusal);
    put_changed_behind(out, to, table, 0)
}
