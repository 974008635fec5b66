// The ops of whole messages: q, Q and L for a request, V for one that is decided from a finding, y and l for a reply, s and S for either in the strict profile. Each lends
// the table in the same way.
use super::{case, findings, lent, replies, requests, text};
use record::Profile;

// Which reader a message is for.
#[derive(Clone, Copy)]
pub enum Sort {
    Request,
    Reply,
}

pub(super) fn answer(op: u8, case: &[u8], table: &mut [u16], out: &mut [u8], at: usize) -> usize {
    match op {
        b'L' | b'l' => limited(sort_of(op), case, table, out, at),
        b's' | b'S' => strict(sort_of(op), case, table, out, at),
        b'V' => findings::decided(case, table, out, at),
        b'Q' => under(Sort::Request, Profile::Usual, 65535, case, table, out, at),
        _ => under(sort_of(op), Profile::Usual, 4096, case, table, out, at),
    }
}

fn sort_of(op: u8) -> Sort {
    match op {
        b'y' | b'l' | b'S' => Sort::Reply,
        _ => Sort::Request,
    }
}

// Ops q, Q and y: a message, a reply behind the lists that were offered, in this profile with this limit and all of the table.
fn under(
    sort: Sort,
    profile: Profile,
    limit: u16,
    message: &[u8],
    table: &mut [u16],
    out: &mut [u8],
    at: usize,
) -> usize {
    lent::fill_cells(table);
    match sort {
        Sort::Request => requests::put_answer(profile, message, limit, table, out, at),
        Sort::Reply => replies::put_answer(profile, message, limit, table, out, at),
    }
}

// Ops L and l: a limit, a number of cells, and the same.
fn limited(sort: Sort, case: &[u8], table: &mut [u16], out: &mut [u8], at: usize) -> usize {
    let limit = case::number16(case, 0);
    let cells = case::number16(case, 2) as usize;
    if 4 <= case.len() {
        if cells <= table.len() {
            return under(
                sort,
                Profile::Usual,
                limit,
                &case[4..],
                &mut table[0..cells],
                out,
                at,
            );
        }
    }
    text::bad_case(out, at)
}

// Ops s and S: a limit of thirty-two bits, a number of cells, and the same in the strict profile.
fn strict(sort: Sort, case: &[u8], table: &mut [u16], out: &mut [u8], at: usize) -> usize {
    let limit = case::limit_of(case);
    let cells = case::number16(case, 4) as usize;
    if case::is_limited(case, 6) {
        if cells <= table.len() {
            return under(
                sort,
                Profile::Strict,
                limit,
                case::rest(case, 6),
                &mut table[0..cells],
                out,
                at,
            );
        }
    }
    text::bad_case(out, at)
}
