// The ops of whole messages that are written from lists: n for the replies other than to a key exchange, k for the request.
use super::{case, lent, text};
use messages::Asked;
use nts::{ErrorCode, NextProtocol};

// Op n: the output's room, the sort of reply, and what belongs to it.
pub(super) fn reply(case: &[u8], dst: &mut [u8], out: &mut [u8], at: usize) -> usize {
    let room = case::number32(case, 0);
    let sort = wire::byte_at(case, 4);
    if is_whole(sort, case.len()) {
        if room <= dst.len() {
            return of_sort(sort, case, &mut dst[0..room], out, at);
        }
    }
    text::bad_case(out, at)
}

// Whether a case of this length may be of a sort.
fn is_whole(sort: u8, size: usize) -> bool {
    match sort {
        0 => size == 5,
        1 | 2 => size == 7,
        _ => sort == 3,
    }
}

fn of_sort(sort: u8, case: &[u8], dst: &mut [u8], out: &mut [u8], at: usize) -> usize {
    match sort {
        0 => no_protocol(dst, out, at),
        1 => no_algorithm(case, dst, out, at),
        2 => error(case, dst, out, at),
        _ => support(case, dst, out, at),
    }
}

fn no_protocol(dst: &mut [u8], out: &mut [u8], at: usize) -> usize {
    lent::fill(dst);
    let answer = declining::write_no_protocol(dst);
    lent::put_written(out, at, dst, answer)
}

fn no_algorithm(case: &[u8], dst: &mut [u8], out: &mut [u8], at: usize) -> usize {
    lent::fill(dst);
    let answer = declining::write_no_algorithm(NextProtocol(case::number16(case, 5)), dst);
    lent::put_written(out, at, dst, answer)
}

fn error(case: &[u8], dst: &mut [u8], out: &mut [u8], at: usize) -> usize {
    lent::fill(dst);
    let answer = declining::write_error(ErrorCode(case::number16(case, 5)), dst);
    lent::put_written(out, at, dst, answer)
}

// Flags, and two lists of numbers.
fn support(case: &[u8], dst: &mut [u8], out: &mut [u8], at: usize) -> usize {
    let flags = wire::byte_at(case, 5);
    let second = case::behind_numbers(case, 6);
    if (case::behind_numbers(case, second) != case.len()) | (7 < flags) {
        return text::bad_case(out, at);
    }
    put_lists(flags, case, second, dst, out, at)
}

fn asked(flags: u8) -> Asked {
    Asked {
        algorithms: case::flag(flags, 1),
        protocols: case::flag(flags, 2),
        keep_alive: case::flag(flags, 4),
    }
}

fn put_lists(
    flags: u8,
    case: &[u8],
    second: usize,
    dst: &mut [u8],
    out: &mut [u8],
    at: usize,
) -> usize {
    let mut pairs = [0u16; 33000];
    let mut protocols = [0u16; 33000];
    let n = case::put_cells(case::numbers(case, 6), &mut pairs);
    let m = case::put_cells(case::numbers(case, second), &mut protocols);
    put_support(asked(flags), &pairs[0..n], &protocols[0..m], dst, out, at)
}

fn put_support(
    asked: Asked,
    pairs: &[u16],
    protocols: &[u16],
    dst: &mut [u8],
    out: &mut [u8],
    at: usize,
) -> usize {
    lent::fill(dst);
    let length = supporting::support_reply_length(asked, pairs, protocols);
    let to = text::put_length(out, at, length);
    let answer = supporting::write_support_reply(asked, pairs, protocols, dst);
    lent::put_written(out, to, dst, answer)
}

// Op k: two lists of numbers, the output's room, the tray's used length, and the tray.
pub(super) fn request(case: &[u8], dst: &mut [u8], out: &mut [u8], at: usize) -> usize {
    let second = case::behind_numbers(case, 0);
    let sizes = case::rest(case, case::behind_numbers(case, second));
    let room = case::number32(sizes, 0);
    if 8 <= sizes.len() {
        if room <= dst.len() {
            return put_asked(case, second, sizes, &mut dst[0..room], out, at);
        }
    }
    text::bad_case(out, at)
}

// The request of the lists at the front of a case and at a second place, with the tray behind the sizes.
fn put_asked(
    case: &[u8],
    second: usize,
    sizes: &[u8],
    dst: &mut [u8],
    out: &mut [u8],
    at: usize,
) -> usize {
    let mut protocols = [0u16; 33000];
    let mut algorithms = [0u16; 33000];
    let n = case::put_cells(case::numbers(case, 0), &mut protocols);
    let m = case::put_cells(case::numbers(case, second), &mut algorithms);
    put_request(
        &protocols[0..n],
        &algorithms[0..m],
        case::rest(sizes, 8),
        case::number32(sizes, 4),
        dst,
        out,
        at,
    )
}

fn put_request(
    protocols: &[u16],
    algorithms: &[u16],
    tray: &[u8],
    used: usize,
    dst: &mut [u8],
    out: &mut [u8],
    at: usize,
) -> usize {
    lent::fill(dst);
    let length = outgoing::request_length(protocols, algorithms, tray, used);
    let to = text::put_length(out, at, length);
    let answer = outgoing::write_request(protocols, algorithms, tray, used, dst);
    lent::put_written(out, to, dst, answer)
}
