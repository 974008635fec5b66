// What a request's walk finds, and the decision from a finding: ops v and V.
use super::{case, lent, records, requests, text};
use nts::NtsError;
use request::Request;
use walk::{Finding, Stop};

// The counts of a finding: kinds 0 to 10, 12, 13 and 14, and unknown ones together.
const COUNTS: usize = 15;

// Where a case of op V counts the bytes that are walked: behind the limit, the cells, which number is replaced, and the value.
const WALKED: usize = 15;

// Op v: a limit, and the bytes.
pub(super) fn walked(case: &[u8], out: &mut [u8], at: usize) -> usize {
    if case::is_limited(case, 4) {
        return put_finding(
            out,
            at,
            Request::walk(case::rest(case, 4), case::limit_of(case)),
        );
    }
    text::bad_case(out, at)
}

// Op V: a limit, a number of cells, which number is replaced, its value, the bytes that are walked behind their count, and the message.
pub(super) fn decided(case: &[u8], table: &mut [u16], out: &mut [u8], at: usize) -> usize {
    let cells = case::number16(case, 4) as usize;
    if case::is_limited(case, message_at(case)) & fits(which_of(case), value_of(case)) {
        if cells <= table.len() {
            return put_decided(case, &mut table[0..cells], out, at);
        }
    }
    text::bad_case(out, at)
}

// ---- what a case holds

// Which number of a finding is replaced: none, the limit, a count, the place or the reason.
fn which_of(case: &[u8]) -> u8 {
    wire::byte_at(case, 6)
}

fn value_of(case: &[u8]) -> usize {
    case::number64(case, 7)
}

// The value of a limit, a count or a reason, which fits sixteen bits.
fn number_of(case: &[u8]) -> u16 {
    case::number16(case, 13)
}

fn message_at(case: &[u8]) -> usize {
    case::behind_counted(case, WALKED)
}

// Whether there is such a number, and it may have the value.
fn fits(which: u8, value: usize) -> bool {
    match which {
        0 | 17 => true,
        18 => value <= 4,
        _ => (which < 17) & (value <= 65535),
    }
}

// ---- the line of a finding

fn put_finding(out: &mut [u8], at: usize, finding: Finding) -> usize {
    let cells = finding.cells;
    let stop = finding.stop;
    let limit = text::put_number(out, at, b"limit ", finding.limit as u64);
    let counts = put_counts(out, limit, &cells);
    let why = put_stop(out, counts, stop);
    text::put_number(out, why, b" at ", finding.place as u64)
}

fn put_counts(out: &mut [u8], at: usize, cells: &[u16]) -> usize {
    let mut to = text::put_text(out, at, b" [");
    let mut i = 0;
    while i < COUNTS {
        to = records::put_entry(out, to, i, cell_in(cells, cell_of(i)));
        i += 1;
    }
    text::put_text(out, to, b"] ")
}

fn put_stop(out: &mut [u8], at: usize, stop: Stop) -> usize {
    match stop {
        Stop::End => text::put_text(out, at, b"ended"),
        Stop::Refused(error) => text::put_refusal(out, at, error),
    }
}

// The cell of a count: each kind has three of them, and of kind 11 they are the unknown ones'.
fn cell_of(i: usize) -> usize {
    if i < 11 {
        return 3 * i;
    }
    if i < 14 {
        return 3 * i + 3;
    }
    33
}

fn cell_in(cells: &[u16], i: usize) -> u16 {
    if i < cells.len() {
        return cells[i];
    }
    0
}

// ---- the decision

fn put_decided(case: &[u8], table: &mut [u16], out: &mut [u8], at: usize) -> usize {
    let message = case::rest(case, message_at(case));
    lent::fill_cells(table);
    let answer = Request::decide(found(case), message, table);
    requests::put_told(out, at, message, table, answer)
}

// The finding of the bytes that are walked, with its number replaced.
fn found(case: &[u8]) -> Finding {
    let finding = Request::walk(case::counted(case, WALKED), case::limit_of(case));
    replaced(finding, case)
}

fn replaced(finding: Finding, case: &[u8]) -> Finding {
    let which = which_of(case);
    match which {
        0 => finding,
        1 => with_limit(finding, number_of(case)),
        17 => with_place(finding, value_of(case)),
        18 => with_stop(finding, stop_of(number_of(case))),
        _ => with_cell(finding, counted_by(which), number_of(case)),
    }
}

fn with_limit(finding: Finding, limit: u16) -> Finding {
    let cells = finding.cells;
    let place = finding.place;
    let stop = finding.stop;
    Finding {
        limit,
        cells,
        place,
        stop,
    }
}

fn with_place(finding: Finding, place: usize) -> Finding {
    let limit = finding.limit;
    let cells = finding.cells;
    let stop = finding.stop;
    Finding {
        limit,
        cells,
        place,
        stop,
    }
}

fn with_stop(finding: Finding, stop: Stop) -> Finding {
    let limit = finding.limit;
    let cells = finding.cells;
    let place = finding.place;
    Finding {
        limit,
        cells,
        place,
        stop,
    }
}

fn with_cell(finding: Finding, i: usize, value: u16) -> Finding {
    let limit = finding.limit;
    let mut cells = finding.cells;
    let place = finding.place;
    let stop = finding.stop;
    put_cell(&mut cells, i, value);
    Finding {
        limit,
        cells,
        place,
        stop,
    }
}

fn put_cell(cells: &mut [u16], i: usize, value: u16) {
    if i < cells.len() {
        cells[i] = value;
    }
}

// The cell of the count that is replaced.
fn counted_by(which: u8) -> usize {
    if which < 2 {
        return 0;
    }
    cell_of((which - 2) as usize)
}

// Why a walk stopped: the end record, or a refusal's number.
fn stop_of(reason: u16) -> Stop {
    match reason {
        0 => Stop::End,
        1 => Stop::Refused(NtsError::UnexpectedEof),
        2 => Stop::Refused(NtsError::InvalidData),
        3 => Stop::Refused(NtsError::UnrecognizedCriticalRecord),
        _ => Stop::Refused(NtsError::Invalid),
    }
}
