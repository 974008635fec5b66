// The listing of a message: a line for each record that reads whole, and one for what the request reader answered.
#![tactic(auto)]

ghost use Rattle.std.specs.Prelude.{◌≡◌, [], ◌∷◌, ◌++◌, ◌+◌, ◌≤◌, length, leb};
ghost use Rattle.wire.specs.Over.{Put, Tried};
ghost use Rattle.nts.specs.Refusal.{told_code, told_refusal};
ghost use Rattle.layout.specs.Write.{bytes, fitted, Wrote};
ghost use Rattle.request.specs.Request.{refused_with, told_answer};
ghost use Rattle.listing.specs.Listing.{space, newline, digits, heading, mark, protocols_text, algorithms_text, denied_text, beside_text, answer_text, listing};
ghost use Rattle.listing.specs.Code.{PutMost, row_line, row_text, stop_from, lines_from, LineAt};

use nts::{Code, NtsError, Refusal};
use record::{ByteCount, Glance, Looked, NtsRecord, Profile};
use request::{Answer, Request};

// The line of the record at a place, if it has one, and the place of the next record that may have one.
#[derive(Clone, Copy)]
enum Line {
    None,
    Last(Glance),
    More(Glance, usize),
}

// The length of the heading, the longest line of a record, and more than the longest last line.
const HEADING: usize = 20;

const LINE: usize = 65;

const LAST_LINE: usize = 112;

// The whole listing of a message read as if it were cut after `limit` bytes, and of what the request reader answers for it with room for so many
// names, in the usual profile: how many bytes that is, or 10 and nothing written where there is no room. The lines are of the records that the reader's
// finding counts.
pub fn list(message: &[u8], limit: u16, room: usize, out: &mut [u8]) -> ByteCount
    ensures { Wrote (fitted (length out.old) (bytes (length (listing message.now limit room)))) (listing message.now limit room)
        out.old result out.new }
{
    let judged = Request::judge(Profile::Usual, message, limit, room);
    let answer = judged.answer;
    let place = judged.finding.place;
    let mut last = [0u8; LAST_LINE];
    let n = put_last(answer, &mut last);
    if out.len() < HEADING + n {
        return ByteCount::Refused(NtsError::OutputTooShort);
    }
    let cut = walk::cut_at(message, limit);
    if lines_fit(cut, place, out.len() - HEADING - n) {
        return ByteCount::Bytes(put_all(cut, place, &last[0..n], out));
    }
    ByteCount::Refused(NtsError::OutputTooShort)
}

// Heading, records and last line, into an output that has room for them.
fn put_all(cut: &[u8], place: usize, last: &[u8], out: &mut [u8]) -> usize
    requires { (place ≡ stop_from cut.now [] 0) × (20 + length (lines_from cut.now [] 0) + length last.now ≤ length out.old) }
    ensures { Put (20 + length (lines_from cut.now [] 0) + length last.now)
        ((heading ++ lines_from cut.now [] 0) ++ last.now) out.old result out.new }
{
    let a = wire::put_bytes(b"place type bit size\n", out);
    let b = a + put_lines(cut, place, &mut out[a..]);
    b + wire::put_bytes(last, &mut out[b..])
}

// Whether the lines of the records take no more than `room` bytes; nothing is summed up past that. The walk over these bytes stops at `place`.
fn lines_fit(cut: &[u8], place: usize, room: usize) -> bool
    requires { place ≡ stop_from cut.now [] 0 }
    ensures { result ≡ leb (length (lines_from cut.now [] 0)) room }
{
    let mut at: usize = 0;
    let mut left = room;
    loop {
        let line = line_at(cut, place, at);
        match line {
            Line::None => {
                return true;
            }
            Line::Last(x) => {
                return line_length(at, x) <= left;
            }
            Line::More(x, next) => {
                let n = line_length(at, x);
                if left < n {
                    return false;
                }
                left -= n;
                at = next;
            }
        }
    }
}

// The lines of the records, into an output that has room for them.
fn put_lines(cut: &[u8], place: usize, out: &mut [u8]) -> usize
    requires { (place ≡ stop_from cut.now [] 0) × (length (lines_from cut.now [] 0) ≤ length out.old) }
    ensures { Put (length (lines_from cut.now [] 0)) (lines_from cut.now [] 0) out.old result out.new }
{
    let mut at: usize = 0;
    let mut to: usize = 0;
    loop {
        let line = line_at(cut, place, at);
        match line {
            Line::None => {
                return to;
            }
            Line::Last(x) => {
                return to + put_line(at, x, &mut out[to..]);
            }
            Line::More(x, next) => {
                to += put_line(at, x, &mut out[to..]);
                at = next;
            }
        }
    }
}

// The record at a place has a line where it reads whole. None follows the one at which the walk stops.
fn line_at(cut: &[u8], place: usize, at: usize) -> Line
    ensures { LineAt cut.now place at result }
{
    let answer = record::look(Profile::Usual, cut, at);
    match answer {
        Looked::Whole(x) => {
            if at == place {
                return Line::Last(x);
            }
            Line::More(x, at + NtsRecord::HEADER + x.size as usize)
        }
        Looked::Refused(_) => Line::None,
    }
}

fn line_length(at: usize, row: Glance) -> usize
    ensures { result ≡ length (row_line at row) }
{
    let mut line = [0u8; LINE];
    make_line(at, row, &mut line)
}

fn put_line(at: usize, row: Glance, out: &mut [u8]) -> usize
    ensures { Tried (length (row_line at row)) (row_line at row) out.old result out.new }
{
    let mut line = [0u8; LINE];
    let n = make_line(at, row, &mut line);
    wire::put_bytes(&line[0..n], out)
}

// A record's line at the front of an output that has room for the longest.
fn make_line(at: usize, row: Glance, out: &mut [u8]) -> usize
    requires { 65 ≤ length out.old }
    ensures { PutMost 65 (row_line at row) out.old result out.new }
{
    let a = put_digits(at, out);
    a + put_row(row, &mut out[a..])
}

// What stands behind a line's place: kind, bit and size, and the newline.
fn put_row(row: Glance, out: &mut [u8]) -> usize
    requires { 45 ≤ length out.old }
    ensures { PutMost 45 (row_text row) out.old result out.new }
{
    let a = put_field(b" ", row.kind as usize, out);
    let b = a + put_size(row.critical, row.size as usize, &mut out[a..]);
    b + wire::put_bytes(b"\n", &mut out[b..])
}

// A record's bit and size.
fn put_size(critical: bool, size: usize, out: &mut [u8]) -> usize
    requires { 23 ≤ length out.old }
    ensures { PutMost 23 ((space ∷ mark critical ∷ space ∷ []) ++ digits size) out.old result out.new }
{
    if critical {
        return put_field(b" c ", size, out);
    }
    put_field(b" - ", size, out)
}

// The last line at the front of an output that has room for the longest.
fn put_last(answer: Answer, out: &mut [u8]) -> usize
    requires { 112 ≤ length out.old }
    ensures { PutMost 112 (answer_text (told_answer answer) ++ (newline ∷ [])) out.old result out.new }
{
    let a = put_answer(answer, out);
    a + wire::put_bytes(b"\n", &mut out[a..])
}

fn put_answer(answer: Answer, out: &mut [u8]) -> usize
    requires { 111 ≤ length out.old }
    ensures { PutMost 111 (answer_text (told_answer answer)) out.old result out.new }
{
    match answer {
        Answer::Accepted(request) => match request {
            Request::KeyExchange {
                protocols,
                algorithms,
                denied,
            } => put_exchange(protocols.len / 2, algorithms.len / 2, denied, out),
            Request::FixedKey {
                authentication: _,
                c2s: _,
                s2c: _,
                algorithm: _,
                protocol: _,
                keep_alive: _,
            } => wire::put_bytes(b"request fixed-key", out),
            Request::Support {
                authentication: _,
                wants_protocols: _,
                wants_algorithms: _,
                keep_alive: _,
            } => wire::put_bytes(b"request support", out),
        },
        Answer::Refused(refusal) => put_refusal(refusal, out),
    }
}

fn put_exchange(protocols: usize, algorithms: usize, denied: usize, out: &mut [u8]) -> usize
    requires { 111 ≤ length out.old }
    ensures { PutMost 111 (protocols_text ++ (digits protocols ++ (algorithms_text ++ (digits algorithms ++ (denied_text ++ digits denied)))))
        out.old result out.new }
{
    let a = put_field(b"request key-exchange protocols ", protocols, out);
    let b = a + put_field(b" algorithms ", algorithms, &mut out[a..]);
    b + put_field(b" denied ", denied, &mut out[b..])
}

fn put_refusal(refusal: Refusal, out: &mut [u8]) -> usize
    requires { 78 ≤ length out.old }
    ensures { PutMost 78 (answer_text (refused_with (told_refusal refusal))) out.old result out.new }
{
    let error = refusal.error;
    let a = put_field(b"refused ", error.number() as usize, out);
    let b = a + put_field(b" at ", refusal.place, &mut out[a..]);
    b + put_code(error.code(), &mut out[b..])
}

fn put_code(code: Code, out: &mut [u8]) -> usize
    requires { 26 ≤ length out.old }
    ensures { PutMost 26 (beside_text (told_code code)) out.old result out.new }
{
    match code {
        Code::None => 0,
        Code::Number(n) => put_field(b" code ", n as usize, out),
        Code::Protocol(protocol) => put_field(b" code ", protocol.0 as usize, out),
        Code::Algorithm(algorithm) => put_field(b" code ", algorithm.0 as usize, out),
    }
}

// A text and then a number.
fn put_field(text: &[u8], n: usize, out: &mut [u8]) -> usize
    requires { length text.now + 20 ≤ length out.old }
    ensures { PutMost (length text.now + 20) (text.now ++ digits n) out.old result out.new }
{
    let at = wire::put_bytes(text, out);
    at + put_digits(n, &mut out[at..])
}

// A number in decimal: the digits before its last, and then that.
fn put_digits(n: usize, out: &mut [u8]) -> usize
    requires { 20 ≤ length out.old }
    ensures { PutMost 20 (digits n) out.old result out.new }
{
    if n < 10 {
        out[0] = 48 + n as u8;
        return 1;
    }
    let i = put_digits(n / 10, out);
    out[i] = 48 + (n % 10) as u8;
    i + 1
}
