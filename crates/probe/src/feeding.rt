// The ops of messages that are fed in pieces: f for a request, F for a reply, t and T for either in the strict profile. The table has twice the cells that are lent: the
// second half keeps what the first answer left in the first.
use super::{case, lent, replies, requests, text};
use nts::Refusal;
use pieces::{Answer, Connection, Expected, Handed, State};
use record::Profile;
use reply::KeyExchangeResponse;

// Where the first piece is, behind the number of pieces.
const PIECES: usize = 13;

// What the calls came to so far: the connection that the last one left, the first answer and the call that gave it, whether nothing else was seen, and where
// the next piece is.
#[derive(Clone, Copy)]
pub struct Fed {
    pub connection: Connection,
    pub answer: Answer,
    pub call: usize,
    pub intact: bool,
    pub next: usize,
}

// How far the pieces are compared with what a buffer holds: where the next one is, to which place of the buffer those before it reach, and whether they are the
// same.
#[derive(Clone, Copy)]
pub struct Compared {
    pub next: usize,
    pub to: usize,
    pub same: bool,
}

// Ops f and t: a limit, a number of cells, the buffer's length, whether the line is closed, and the pieces behind their number.
pub(super) fn of_request(
    profile: Profile,
    case: &[u8],
    dst: &mut [u8],
    table: &mut [u16],
    out: &mut [u8],
    at: usize,
) -> usize {
    let none = [0u16; 1];
    let list = &none[0..0];
    answer(
        profile,
        Expected::Request,
        list,
        list,
        case,
        dst,
        table,
        out,
        at,
    )
}

// Ops F and T: the two lists that were offered, and the same.
pub(super) fn of_reply(
    profile: Profile,
    case: &[u8],
    dst: &mut [u8],
    table: &mut [u16],
    out: &mut [u8],
    at: usize,
) -> usize {
    let mut protocols = [0u16; 255];
    let mut algorithms = [0u16; 255];
    let second = case::behind_offered(case, 0);
    let n = case::put_cells(case::offered(case, 0), &mut protocols);
    let m = case::put_cells(case::offered(case, second), &mut algorithms);
    let fed = case::rest(case, case::behind_offered(case, second));
    answer(
        profile,
        Expected::Reply,
        &protocols[0..n],
        &algorithms[0..m],
        fed,
        dst,
        table,
        out,
        at,
    )
}

fn answer(
    profile: Profile,
    expected: Expected,
    protocols: &[u16],
    algorithms: &[u16],
    case: &[u8],
    dst: &mut [u8],
    table: &mut [u16],
    out: &mut [u8],
    at: usize,
) -> usize {
    let cells = 2 * (case::number16(case, 4) as usize);
    let room = case::number32(case, 6);
    if is_whole(case) {
        if cells <= table.len() {
            if room <= dst.len() {
                return put_fed(
                    profile,
                    expected,
                    protocols,
                    algorithms,
                    case,
                    &mut dst[0..room],
                    &mut table[0..cells],
                    out,
                    at,
                );
            }
        }
    }
    text::bad_case(out, at)
}

// Whether a case has a limit of sixteen bits, closes the line or not, and has all of its pieces and no more.
fn is_whole(case: &[u8]) -> bool {
    case::is_limited(case, PIECES)
        & (wire::byte_at(case, 10) < 2)
        & case::are_counted(case::rest(case, PIECES), pieces_of(case))
}

fn pieces_of(case: &[u8]) -> u16 {
    case::number16(case, 11)
}

fn put_fed(
    profile: Profile,
    expected: Expected,
    protocols: &[u16],
    algorithms: &[u16],
    case: &[u8],
    buffer: &mut [u8],
    table: &mut [u16],
    out: &mut [u8],
    at: usize,
) -> usize {
    let fed = feed(
        profile, expected, protocols, algorithms, case, buffer, table,
    );
    put_line(case, fed, buffer, table, out, at)
}

// ---- the calls

fn feed(
    profile: Profile,
    expected: Expected,
    protocols: &[u16],
    algorithms: &[u16],
    case: &[u8],
    buffer: &mut [u8],
    table: &mut [u16],
) -> Fed {
    lent::fill(buffer);
    lent::fill_cells(table);
    feed_each(
        begun(profile, case),
        expected,
        protocols,
        algorithms,
        calls_of(case),
        case,
        buffer,
        table,
    )
}

// How many calls there are: the pieces, and the close.
fn calls_of(case: &[u8]) -> usize {
    pieces_of(case) as usize + wire::byte_at(case, 10) as usize
}

// Before the first call.
fn begun(profile: Profile, case: &[u8]) -> Fed {
    Fed {
        connection: Connection::start(profile, case::limit_of(case)),
        answer: Answer::Waiting,
        call: 0,
        intact: true,
        next: PIECES,
    }
}

// Every call, also those after an answer.
fn feed_each(
    begun: Fed,
    expected: Expected,
    protocols: &[u16],
    algorithms: &[u16],
    calls: usize,
    case: &[u8],
    buffer: &mut [u8],
    table: &mut [u16],
) -> Fed {
    let mut i = 0;
    let mut fed = begun;
    while i < calls {
        fed = feed_next(expected, protocols, algorithms, i, case, fed, buffer, table);
        i += 1;
    }
    fed
}

// The call of an index: it hands over the next piece, or closes the line behind the last one.
fn feed_next(
    expected: Expected,
    protocols: &[u16],
    algorithms: &[u16],
    i: usize,
    case: &[u8],
    fed: Fed,
    buffer: &mut [u8],
    table: &mut [u16],
) -> Fed {
    let cells = table.len() / 2;
    let connection = fed.connection;
    let answer = fed.answer;
    let handed = pieces::hand(
        connection,
        expected,
        i == pieces_of(case) as usize,
        case::counted(case, fed.next),
        protocols,
        algorithms,
        buffer,
        &mut table[0..cells],
    );
    if is_waiting(answer) {
        return first(i, case, fed.next, handed, buffer, table);
    }
    again(case, fed, handed)
}

// After a call before which there was no answer.
fn first(
    i: usize,
    case: &[u8],
    at: usize,
    handed: Handed,
    buffer: &[u8],
    table: &mut [u16],
) -> Fed {
    let connection = handed.connection;
    let answer = handed.answer;
    let n = connection.gathered;
    Fed {
        connection,
        answer,
        call: i,
        intact: kept(answer, case, n, buffer, table),
        next: case::behind_counted(case, at),
    }
}

// Where there is an answer now, the table is kept, and the buffer looked at.
fn kept(answer: Answer, case: &[u8], n: usize, buffer: &[u8], table: &mut [u16]) -> bool {
    if is_waiting(answer) {
        return true;
    }
    lent::keep(table);
    holds(case, n, buffer)
}

// After a later call, which gives the answer again and leaves the connection as it was.
fn again(case: &[u8], fed: Fed, handed: Handed) -> Fed {
    let before = fed.connection;
    let connection = handed.connection;
    let answer = fed.answer;
    let second = handed.answer;
    Fed {
        connection,
        answer,
        call: fed.call,
        intact: fed.intact & is_same(before, connection) & is_same_answer(answer, second),
        next: case::behind_counted(case, fed.next),
    }
}

// ---- what is compared

fn is_waiting(answer: Answer) -> bool {
    match answer {
        Answer::Waiting => true,
        _ => false,
    }
}

fn is_same(a: Connection, b: Connection) -> bool {
    let s = a.state;
    let t = b.state;
    let p = a.profile;
    let q = b.profile;
    (p.is_final() == q.is_final())
        & (a.limit == b.limit)
        & (a.gathered == b.gathered)
        & (a.begins == b.begins)
        & (a.met == b.met)
        & is_same_state(s, t)
}

fn is_same_state(a: State, b: State) -> bool {
    let before = cells_of_state(a);
    let after = cells_of_state(b);
    are_same(&before, &after)
}

fn is_same_answer(a: Answer, b: Answer) -> bool {
    let before = cells_of(a);
    let after = cells_of(b);
    are_same(&before, &after)
}

fn are_same(a: &[usize; 10], b: &[usize; 10]) -> bool {
    let mut i = 0;
    while i < 10 {
        if a[i] != b[i] {
            return false;
        }
        i += 1;
    }
    true
}

// All that an answer says, as cells: of which sort it is, and its numbers.
fn cells_of(answer: Answer) -> [usize; 10] {
    match answer {
        Answer::Waiting => [0; 10],
        Answer::Request(request) => reading::request_cells(request),
        Answer::Reply(reply) => cells_of_reply(reply),
        Answer::Refused(refusal) => cells_of_refusal(refusal),
    }
}

fn cells_of_reply(reply: KeyExchangeResponse) -> [usize; 10] {
    let c = reading::reply_cells(reply);
    [4, c[0], c[1], c[2], c[3], c[4], c[5], c[6], c[7], c[8]]
}

fn cells_of_refusal(refusal: Refusal) -> [usize; 10] {
    let error = refusal.error;
    let n = cells::mark(error) as usize;
    let c = cells::beside(error) as usize;
    [5, n, c, refusal.place, 0, 0, 0, 0, 0, 0]
}

fn cells_of_state(state: State) -> [usize; 10] {
    match state {
        State::Pending => [0; 10],
        State::Accepted => [1, 0, 0, 0, 0, 0, 0, 0, 0, 0],
        State::Refused(refusal) => cells_of_refusal(refusal),
    }
}

// Whether a buffer begins with the first of the bytes handed over, so many, and is otherwise as it was lent.
fn holds(case: &[u8], n: usize, buffer: &[u8]) -> bool {
    (n <= buffer.len())
        & lent::is_filled(buffer, n)
        & are_joined(pieces_of(case), case, wire::part(buffer, 0, n))
}

// Whether some bytes are the first of so many pieces.
fn are_joined(pieces: u16, case: &[u8], held: &[u8]) -> bool {
    let mut i: u16 = 0;
    let mut compared = Compared {
        next: PIECES,
        to: 0,
        same: true,
    };
    while i < pieces {
        compared = compare_next(case, held, compared);
        i += 1;
    }
    compared.same & (held.len() <= compared.to)
}

// One more piece, as far as bytes are held. Where they end inside it or before it, it reaches to a place that no buffer has.
fn compare_next(case: &[u8], held: &[u8], compared: Compared) -> Compared {
    let piece = case::counted(case, compared.next);
    let rest = case::rest(held, compared.to);
    Compared {
        next: case::behind_counted(case, compared.next),
        to: case::behind(held, compared.to, piece.len()),
        same: compared.same & lent::is_same(piece, rest, 0, smaller(piece.len(), rest.len())),
    }
}

fn smaller(a: usize, b: usize) -> usize {
    if b < a {
        return b;
    }
    a
}

// ---- the line

fn put_line(
    case: &[u8],
    fed: Fed,
    buffer: &[u8],
    table: &[u16],
    out: &mut [u8],
    at: usize,
) -> usize {
    let answer = fed.answer;
    let n = fed.connection.gathered;
    let told = put_answer(answer, wire::part(buffer, 0, n), table, out, at);
    let held = text::put_number(out, told, b" held ", n as u64);
    let to = put_call(answer, fed.call, out, held);
    lent::put_changed(
        out,
        to,
        fed.intact & holds(case, n, buffer) & is_kept(answer, table),
    )
}

fn put_answer(answer: Answer, message: &[u8], table: &[u16], out: &mut [u8], at: usize) -> usize {
    let cells = table.len() / 2;
    match answer {
        Answer::Waiting => text::put_text(out, at, b"waiting"),
        Answer::Request(x) => requests::put_request(out, at, message, &table[0..cells], x),
        Answer::Reply(x) => replies::put_reply(out, at, message, &table[0..cells], x),
        Answer::Refused(x) => text::put_refusal_at(out, at, x),
    }
}

// Which call gave the answer, where there is one.
fn put_call(answer: Answer, call: usize, out: &mut [u8], at: usize) -> usize {
    if is_waiting(answer) {
        return at;
    }
    text::put_number(out, at, b" call ", call as u64)
}

// Whether the table is as the first answer left it, and has no more in it than the answer's entries.
fn is_kept(answer: Answer, table: &[u16]) -> bool {
    let cells = table.len() / 2;
    lent::are_kept(table) & lent::are_filled_behind(&table[0..cells], entries(answer))
}

fn entries(answer: Answer) -> usize {
    match answer {
        Answer::Request(x) => requests::entries(x),
        Answer::Reply(x) => x.cookies,
        _ => 0,
    }
}
