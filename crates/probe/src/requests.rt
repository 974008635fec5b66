// The answer to a request: ops q, Q, L, s, f, t and V.
use super::{lent, records, text};
use nts::{AeadAlgorithm, NextProtocol};
use record::{NtsRecord, Part, Profile};
use request::{Answer, Request};

// A word, and a list of a kind.
fn put_list(
    out: &mut [u8],
    at: usize,
    word: &[u8],
    kind: u16,
    message: &[u8],
    list: Part,
) -> usize {
    let to = text::put_text(out, at, word);
    records::put_list(kind, out, to, message, list)
}

fn put_exchange(
    out: &mut [u8],
    at: usize,
    message: &[u8],
    table: &[u16],
    p: Part,
    a: Part,
    denied: usize,
) -> usize {
    let first = put_list(
        out,
        at,
        b"key-exchange protocols ",
        NtsRecord::NEXT_PROTOCOL,
        message,
        p,
    );
    let second = put_list(
        out,
        first,
        b" algorithms ",
        NtsRecord::AEAD_ALGORITHM,
        message,
        a,
    );
    lent::put_entries(out, second, b" denied ", message, table, denied)
}

fn put_fixed(
    out: &mut [u8],
    at: usize,
    m: &[u8],
    u: Part,
    c: Part,
    s: Part,
    a: AeadAlgorithm,
    p: NextProtocol,
    k: bool,
) -> usize {
    let numbers = text::put_two(out, at, b"fixed-key protocol ", p.0, b" algorithm ", a.0);
    let keys = put_keys(out, numbers, m, c, s);
    put_asking(out, keys, m, u, k)
}

fn put_keys(out: &mut [u8], at: usize, m: &[u8], c: Part, s: Part) -> usize {
    let to = text::put_part(out, at, b" c2s ", m, c);
    text::put_part(out, to, b" s2c ", m, s)
}

// Who asks, and whether the connection is to be kept.
fn put_asking(out: &mut [u8], at: usize, m: &[u8], u: Part, k: bool) -> usize {
    let to = text::put_part(out, at, b" authentication ", m, u);
    text::put_flag(out, to, b" keep-alive ", k)
}

fn put_support(out: &mut [u8], at: usize, m: &[u8], u: Part, p: bool, a: bool, k: bool) -> usize {
    let protocols = text::put_flag(out, at, b"support protocols ", p);
    let algorithms = text::put_flag(out, protocols, b" algorithms ", a);
    put_asking(out, algorithms, m, u, k)
}

// The line of an accepted request.
pub(super) fn put_request(
    out: &mut [u8],
    at: usize,
    message: &[u8],
    table: &[u16],
    request: Request,
) -> usize {
    match request {
        Request::KeyExchange {
            protocols,
            algorithms,
            denied,
        } => put_exchange(out, at, message, table, protocols, algorithms, denied),
        Request::FixedKey {
            authentication,
            c2s,
            s2c,
            algorithm,
            protocol,
            keep_alive,
        } => put_fixed(
            out,
            at,
            message,
            authentication,
            c2s,
            s2c,
            algorithm,
            protocol,
            keep_alive,
        ),
        Request::Support {
            authentication,
            wants_protocols,
            wants_algorithms,
            keep_alive,
        } => put_support(
            out,
            at,
            message,
            authentication,
            wants_protocols,
            wants_algorithms,
            keep_alive,
        ),
    }
}

// How many entries it put into the table.
pub(super) fn entries(request: Request) -> usize {
    match request {
        Request::KeyExchange { denied, .. } => denied,
        _ => 0,
    }
}

// A message in a profile under a limit, with a table that was filled for the call.
pub(super) fn put_answer(
    profile: Profile,
    message: &[u8],
    limit: u16,
    table: &mut [u16],
    out: &mut [u8],
    at: usize,
) -> usize {
    let answer = Request::parse(profile, message, limit, table);
    put_told(out, at, message, table, answer)
}

// What a call answered and left in that table.
pub(super) fn put_told(
    out: &mut [u8],
    at: usize,
    message: &[u8],
    table: &[u16],
    answer: Answer,
) -> usize {
    match answer {
        Answer::Accepted(request) => {
            let to = put_request(out, at, message, table, request);
            lent::put_changed_behind(out, to, table, entries(request))
        }
        Answer::Refused(refusal) => lent::put_refused(out, at, table, refusal),
    }
}
