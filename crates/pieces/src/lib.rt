// A read that is fed as the line delivers: a message gathers in a lent buffer, and each record is judged when it stands whole, or when the limit or the
// close cuts it. The connection record is all that is kept between two calls; the answer is the whole-message reader's over the bytes gathered.
#![tactic(auto)]

ghost use Rattle.std.specs.Prelude.{◌≡◌, ◌++◌, false, cond, ℕ, ◌+◌, ◌≤◌, length, take, drop, ltb};
ghost use Rattle.wire.specs.Bytes.{byte_at};
ghost use Rattle.record.specs.Record as records;
ghost use Rattle.walk.specs.Rules.{Rules, reader_of};
ghost use Rattle.pieces.specs.Pieces.{started, broken, whole, going, how_after, after_end, again, held, says_of, told_connection};
ghost use Rattle.pieces.specs.Reads.{request_read, told_request, FeedsRequest, reply_read, told_reply, FeedsReply, of_request, of_reply, HandsOver};
ghost use Rattle.pieces.specs.Code.{counts, IsPending, how_of, told_how, told_came, told_scanned, lacks, smaller_of, Fits, JudgesRest, JudgesPart, TakesPiece, Gathers, Comes, carried_by, rules_of};

use nts::{NtsError, Refusal};
use record::{NtsRecord, Profile};
use reply::KeyExchangeResponse;
use request::Request;
use walk::Passed;

// Whether a read has come to an answer.
#[derive(Clone, Copy)]
pub enum State {
    Pending,
    Accepted,
    Refused(Refusal),
}

// What a host keeps for each line, as it got it, with the buffer: the profile, the limit, how many bytes are gathered, where the record that is being gathered begins,
// which kinds were met before it, a bit each, and the answer once there is one.
#[derive(Clone, Copy)]
pub struct Connection {
    pub profile: Profile,
    pub limit: u16,
    pub gathered: usize,
    pub begins: usize,
    pub met: u16,
    pub state: State,
}

impl Connection {
    // A read that has been handed nothing.
    pub fn start(profile: Profile, limit: u16) -> Connection
        ensures { told_connection result ≡ started profile limit }
    {
        Connection {
            profile,
            limit,
            gathered: 0,
            begins: 0,
            met: 0,
            state: State::Pending,
        }
    }
}

// Which message a line is to bring.
#[derive(Clone, Copy)]
pub enum Expected {
    Request,
    Reply,
}

#[derive(Clone, Copy)]
pub enum RequestAnswer {
    Waiting,
    Accepted(Request),
    Refused(Refusal),
}

// A request's connection after a call, and the answer.
#[derive(Clone, Copy)]
pub struct FedRequest {
    pub connection: Connection,
    pub answer: RequestAnswer,
}

#[derive(Clone, Copy)]
pub enum ReplyAnswer {
    Waiting,
    Accepted(KeyExchangeResponse),
    Refused(Refusal),
}

// A reply's connection after a call, and the answer.
#[derive(Clone, Copy)]
pub struct FedReply {
    pub connection: Connection,
    pub answer: ReplyAnswer,
}

// An answer of either read.
#[derive(Clone, Copy)]
pub enum Answer {
    Waiting,
    Request(Request),
    Reply(KeyExchangeResponse),
    Refused(Refusal),
}

// A connection after a call of either read, and the answer.
#[derive(Clone, Copy)]
pub struct Handed {
    pub connection: Connection,
    pub answer: Answer,
}

// What a walk over bytes came to: it waits for the record that begins at a place, or that record decides, and so many bytes reach through it.
#[derive(Clone, Copy)]
enum Scanned {
    Waits { at: usize, met: u16 },
    Decides { at: usize, met: u16, through: usize },
}

// How a read stands without an answer before: it waits, a byte that it needs has no room, a byte follows the end record where none may, or it is decided.
#[derive(Clone, Copy)]
enum How {
    Waiting,
    NoRoom,
    Followed,
    Decided,
}

// What a piece led to: how many bytes are gathered, where the last of their records begins, and which kinds were met before it.
#[derive(Clone, Copy)]
struct Came {
    gathered: usize,
    begins: usize,
    met: u16,
    how: How,
}

// What was gathered before a piece: so many bytes, and where the record that they end with begins.
#[derive(Clone, Copy)]
struct Front {
    held: usize,
    begins: usize,
    met: u16,
}

// ---- the calls

// Hands a piece of a request over, an empty one too, and says whether the line closed behind it. The names that an accepted key-exchange request denies go into
// the table, as from the whole-message reader; a refusal may change the buffer, which begins with the bytes gathered, and changes no cell. Once there is an
// answer it is given again, and nothing changes. Refusals: 9, for a connection that counts more bytes than the buffer or the limit, then those of the
// whole-message reader, and 16.
pub fn feed_request(
    connection: Connection,
    closed: bool,
    piece: &[u8],
    buffer: &mut [u8],
    table: &mut [u16],
) -> FedRequest
    ensures { FeedsRequest connection piece.now closed buffer.old table.old result buffer.new table.new }
{
    if is_broken(connection, buffer.len()) {
        return FedRequest {
            connection,
            answer: RequestAnswer::Refused(no_connection()),
        };
    }
    let state = connection.state;
    match state {
        State::Pending => pending_request(connection, closed, piece, buffer, table),
        State::Accepted => FedRequest {
            connection,
            answer: request_again(connection, buffer),
        },
        State::Refused(refusal) => FedRequest {
            connection,
            answer: RequestAnswer::Refused(refusal),
        },
    }
}

// The same of a reply, and of its cookies: what it names must be among what was offered, by the lists that are lent to the call which answers. An accepted
// one is given again whatever lists are lent then.
pub fn feed_reply(
    connection: Connection,
    closed: bool,
    piece: &[u8],
    protocols: &[u16],
    algorithms: &[u16],
    buffer: &mut [u8],
    table: &mut [u16],
) -> FedReply
    ensures { FeedsReply connection piece.now closed protocols.now algorithms.now buffer.old table.old result buffer.new table.new }
{
    if is_broken(connection, buffer.len()) {
        return FedReply {
            connection,
            answer: ReplyAnswer::Refused(no_connection()),
        };
    }
    let state = connection.state;
    match state {
        State::Pending => pending_reply(
            connection, closed, piece, protocols, algorithms, buffer, table,
        ),
        State::Accepted => FedReply {
            connection,
            answer: reply_again(connection, buffer),
        },
        State::Refused(refusal) => FedReply {
            connection,
            answer: ReplyAnswer::Refused(refusal),
        },
    }
}

// Either of the two, by which message is expected. A request is not asked what was offered.
pub fn hand(
    connection: Connection,
    expected: Expected,
    closed: bool,
    piece: &[u8],
    protocols: &[u16],
    algorithms: &[u16],
    buffer: &mut [u8],
    table: &mut [u16],
) -> Handed
    ensures { HandsOver connection expected piece.now closed protocols.now algorithms.now buffer.old table.old result buffer.new table.new }
{
    match expected {
        Expected::Request => {
            let fed = feed_request(connection, closed, piece, buffer, table);
            let after = fed.connection;
            let answer = fed.answer;
            Handed {
                connection: after,
                answer: of_request(answer),
            }
        }
        Expected::Reply => {
            let fed = feed_reply(
                connection, closed, piece, protocols, algorithms, buffer, table,
            );
            let after = fed.connection;
            let answer = fed.answer;
            Handed {
                connection: after,
                answer: of_reply(answer),
            }
        }
    }
}

fn of_request(answer: RequestAnswer) -> Answer
    ensures { result ≡ of_request answer }
{
    match answer {
        RequestAnswer::Waiting => Answer::Waiting,
        RequestAnswer::Accepted(x) => Answer::Request(x),
        RequestAnswer::Refused(x) => Answer::Refused(x),
    }
}

fn of_reply(answer: ReplyAnswer) -> Answer
    ensures { result ≡ of_reply answer }
{
    match answer {
        ReplyAnswer::Waiting => Answer::Waiting,
        ReplyAnswer::Accepted(x) => Answer::Reply(x),
        ReplyAnswer::Refused(x) => Answer::Refused(x),
    }
}

// ---- a read without an answer before

// More bytes are counted than the buffer has, or the limit allows.
fn is_broken(connection: Connection, room: usize) -> bool
    ensures { result ≡ counts connection room }
{
    if room < connection.gathered {
        return true;
    }
    (connection.limit as usize) < connection.gathered
}

fn no_connection() -> Refusal
    ensures { result ≡ record { error = NtsError.InvalidValue; place = 0 } }
{
    Refusal {
        error: NtsError::InvalidValue,
        place: 0,
    }
}

fn pending_request(
    connection: Connection,
    closed: bool,
    piece: &[u8],
    buffer: &mut [u8],
    table: &mut [u16],
) -> FedRequest
    requires { IsPending connection buffer.old }
    ensures { FeedsRequest connection piece.now closed buffer.old table.old result buffer.new table.new }
{
    let rules = request::RULES;
    let came = come(&rules, connection, closed, piece, buffer);
    let how = came.how;
    match how {
        How::Waiting => FedRequest {
            connection: carried(connection, came, State::Pending),
            answer: RequestAnswer::Waiting,
        },
        How::NoRoom => FedRequest {
            connection: carried(connection, came, State::Refused(no_room(came.gathered))),
            answer: RequestAnswer::Refused(no_room(came.gathered)),
        },
        How::Followed => FedRequest {
            connection: carried(connection, came, State::Refused(not_allowed(came.gathered))),
            answer: RequestAnswer::Refused(not_allowed(came.gathered)),
        },
        How::Decided => {
            let n = came.gathered;
            let profile = connection.profile;
            let answer = Request::parse(profile, &buffer[0..n], connection.limit, table);
            match answer {
                request::Answer::Accepted(x) => FedRequest {
                    connection: carried(connection, came, State::Accepted),
                    answer: RequestAnswer::Accepted(x),
                },
                request::Answer::Refused(x) => FedRequest {
                    connection: carried(connection, came, State::Refused(x)),
                    answer: RequestAnswer::Refused(x),
                },
            }
        }
    }
}

fn pending_reply(
    connection: Connection,
    closed: bool,
    piece: &[u8],
    protocols: &[u16],
    algorithms: &[u16],
    buffer: &mut [u8],
    table: &mut [u16],
) -> FedReply
    requires { IsPending connection buffer.old }
    ensures { FeedsReply connection piece.now closed protocols.now algorithms.now buffer.old table.old result buffer.new table.new }
{
    let rules = reply::RULES;
    let came = come(&rules, connection, closed, piece, buffer);
    let how = came.how;
    match how {
        How::Waiting => FedReply {
            connection: carried(connection, came, State::Pending),
            answer: ReplyAnswer::Waiting,
        },
        How::NoRoom => FedReply {
            connection: carried(connection, came, State::Refused(no_room(came.gathered))),
            answer: ReplyAnswer::Refused(no_room(came.gathered)),
        },
        How::Followed => FedReply {
            connection: carried(connection, came, State::Refused(not_allowed(came.gathered))),
            answer: ReplyAnswer::Refused(not_allowed(came.gathered)),
        },
        How::Decided => {
            let n = came.gathered;
            let limit = connection.limit;
            let profile = connection.profile;
            let answer = KeyExchangeResponse::parse(
                profile,
                &buffer[0..n],
                limit,
                protocols,
                algorithms,
                table,
            );
            match answer {
                reply::Answer::Accepted(x) => FedReply {
                    connection: carried(connection, came, State::Accepted),
                    answer: ReplyAnswer::Accepted(x),
                },
                reply::Answer::Refused(x) => FedReply {
                    connection: carried(connection, came, State::Refused(x)),
                    answer: ReplyAnswer::Refused(x),
                },
            }
        }
    }
}

// The connection after a piece.
fn carried(connection: Connection, came: Came, state: State) -> Connection
    ensures { result ≡ carried_by connection came state }
{
    let profile = connection.profile;
    Connection {
        profile,
        limit: connection.limit,
        gathered: came.gathered,
        begins: came.begins,
        met: came.met,
        state,
    }
}

fn no_room(place: usize) -> Refusal
    ensures { result ≡ record { error = NtsError.BufferFull; place = place } }
{
    Refusal {
        error: NtsError::BufferFull,
        place,
    }
}

// A byte that follows the end record, where none may.
fn not_allowed(place: usize) -> Refusal
    ensures { result ≡ record { error = NtsError.NotAllowed; place = place } }
{
    Refusal {
        error: NtsError::NotAllowed,
        place,
    }
}

// ---- an answer given again

// An accepted request again, from the bytes gathered: there is room for every name, since no message has more records than bytes.
fn request_again(connection: Connection, buffer: &[u8]) -> RequestAnswer
    requires { connection.gathered ≤ length buffer.now }
    ensures { told_request result ≡ says_of request_read (held (told_connection connection) buffer.now) (again request_read (told_connection connection) buffer.now) }
{
    let n = connection.gathered;
    let profile = connection.profile;
    let judged = Request::judge(profile, &buffer[0..n], connection.limit, n);
    let answer = judged.answer;
    match answer {
        request::Answer::Accepted(x) => RequestAnswer::Accepted(x),
        request::Answer::Refused(x) => RequestAnswer::Refused(x),
    }
}

// An accepted reply again: what it names was offered, so that it is read as to one who offered just that.
fn reply_again(connection: Connection, buffer: &[u8]) -> ReplyAnswer
    requires { connection.gathered ≤ length buffer.now }
    ensures { told_reply result ≡ says_of reply_read (held (told_connection connection) buffer.now) (again reply_read (told_connection connection) buffer.now) }
{
    let n = connection.gathered;
    let limit = connection.limit;
    let profile = connection.profile;
    let named = KeyExchangeResponse::named(profile, &buffer[0..n], limit);
    let protocols = [named.protocol.0];
    let algorithms = [named.algorithm.0];
    let judged = KeyExchangeResponse::judge(
        profile,
        &buffer[0..n],
        limit,
        &protocols[0..1],
        &algorithms[0..1],
        n,
    );
    let answer = judged.answer;
    match answer {
        reply::Answer::Accepted(x) => ReplyAnswer::Accepted(x),
        reply::Answer::Refused(x) => ReplyAnswer::Refused(x),
    }
}

// ---- gathering

// Takes from the piece what the read needs, and says what it comes to: an end record behind which nothing may follow decides with a byte that follows, the limit or the close.
fn come(
    rules: &[u8; 15],
    connection: Connection,
    closed: bool,
    piece: &[u8],
    buffer: &mut [u8],
) -> Came
    requires { broken (told_connection connection) buffer.old ≡ false }
    ensures { Comes (rules_of connection rules.now) connection piece.now closed buffer.old result buffer.new }
{
    let held = connection.gathered;
    let limit = connection.limit as usize;
    let long = held + smaller(piece.len(), limit - held);
    let came = gather(rules, connection, closed, piece, buffer);
    let n = came.gathered;
    let profile = connection.profile;
    after_end(
        profile,
        rules,
        connection.limit,
        long,
        closed,
        came,
        &buffer[0..n],
    )
}

// What was gathered, or where it goes through an end record behind which nothing may follow, what comes after that.
fn after_end(
    profile: Profile,
    rules: &[u8; 15],
    limit: u16,
    long: usize,
    closed: bool,
    came: Came,
    front: &[u8],
) -> Came
    ensures { told_came result ≡ after_end (reader_of (record { profile = profile; entries = rules.now })) limit long closed front.now (told_came came) }
{
    if !profile.is_final() {
        return came;
    }
    let how = came.how;
    match how {
        How::Waiting => came,
        How::NoRoom => came,
        How::Followed => came,
        How::Decided => {
            if !walk::is_end(profile, rules, front, came.begins) {
                return came;
            }
            Came {
                gathered: came.gathered,
                begins: came.begins,
                met: came.met,
                how: how_after(limit, long, closed, came.gathered),
            }
        }
    }
}

// How the read stands after its end record, through which there are `through` bytes.
fn how_after(limit: u16, long: usize, closed: bool, through: usize) -> How
    ensures { told_how result ≡ how_after limit long closed through }
{
    if through < long {
        return How::Followed;
    }
    if through == limit as usize {
        return How::Decided;
    }
    if closed {
        return How::Decided;
    }
    How::Waiting
}

// Takes from the piece what its records need: they are judged, one after the other, and stored through the one that decides.
fn gather(
    rules: &[u8; 15],
    connection: Connection,
    closed: bool,
    piece: &[u8],
    buffer: &mut [u8],
) -> Came
    requires { broken (told_connection connection) buffer.old ≡ false }
    ensures { Gathers (rules_of connection rules.now) connection piece.now closed buffer.old result buffer.new }
{
    let held = connection.gathered;
    let start = smaller(connection.begins, held);
    let profile = connection.profile;
    let scanned = scan(profile, rules, &buffer[start..held], connection.met);
    match scanned {
        Scanned::Decides { at, met, through } => Came {
            gathered: start + through,
            begins: start + at,
            met,
            how: How::Decided,
        },
        Scanned::Waits { at, met } => {
            let front = Front {
                held,
                begins: start + at,
                met,
            };
            take_piece(
                profile,
                rules,
                front,
                connection.limit,
                closed,
                piece,
                buffer,
            )
        }
    }
}

// The same where the record at the front's end is not whole.
fn take_piece(
    profile: Profile,
    rules: &[u8; 15],
    front: Front,
    limit: u16,
    closed: bool,
    piece: &[u8],
    buffer: &mut [u8],
) -> Came
    requires { Fits front buffer.old × (front.held ≤ limit) }
    ensures { TakesPiece (record { profile = profile; entries = rules.now }) front limit closed piece.now buffer.old result buffer.new }
{
    let held = front.held;
    let n = smaller(piece.len(), smaller(limit as usize, buffer.len()) - held);
    let how = how_of(held + n == limit as usize, n < piece.len(), closed);
    let part = &piece[0..n];
    let came = judge_part(profile, rules, front, how, part, buffer);
    let m = came.gathered - held;
    wire::put_bytes(&part[0..m], &mut buffer[held..]);
    came
}

// How the read stands if no record of the bytes that fit decides it: the limit is reached, or a byte more has no room, or the line closed.
fn how_of(reached: bool, more: bool, closed: bool) -> How
    ensures { told_how result ≡ how_of reached more closed }
{
    if reached {
        return How::Decided;
    }
    if more {
        return How::NoRoom;
    }
    if closed {
        return How::Decided;
    }
    How::Waiting
}

// The records of a part that fits. One that began before it is put together in the buffer.
fn judge_part(
    profile: Profile,
    rules: &[u8; 15],
    front: Front,
    how: How,
    part: &[u8],
    buffer: &mut [u8],
) -> Came
    requires { Fits front buffer.old × (front.held + length part.now ≤ length buffer.old) × (front.held + length part.now ≤ 65535) }
    ensures { JudgesPart (record { profile = profile; entries = rules.now }) front how part.now buffer.old result buffer.new }
{
    let held = front.held;
    let begins = front.begins;
    if begins == held {
        return judge_rest(profile, rules, front, how, part, 0);
    }
    let n = lacking(buffer, held, begins, part);
    if part.len() < n {
        return Came {
            gathered: held + part.len(),
            begins,
            met: front.met,
            how,
        };
    }
    let end = held + n;
    wire::put_bytes(&part[0..n], &mut buffer[held..]);
    let passed = walk::pass(profile, rules, &buffer[0..end], begins, front.met);
    let Passed::On(met) = passed else {
        return Came {
            gathered: end,
            begins,
            met: front.met,
            how: How::Decided,
        };
    };
    let front = Front {
        held,
        begins: end,
        met,
    };
    judge_rest(profile, rules, front, how, part, n)
}

// The records of a part from a place of it on.
fn judge_rest(
    profile: Profile,
    rules: &[u8; 15],
    front: Front,
    how: How,
    part: &[u8],
    from: usize,
) -> Came
    requires { (from ≤ length part.now) × (front.held + length part.now ≤ 65535) }
    ensures { JudgesRest (record { profile = profile; entries = rules.now }) front how part.now from result }
{
    let held = front.held;
    let base = held + from;
    let scanned = scan(profile, rules, &part[from..], front.met);
    match scanned {
        Scanned::Decides { at, met, through } => Came {
            gathered: base + through,
            begins: base + at,
            met,
            how: How::Decided,
        },
        Scanned::Waits { at, met } => Came {
            gathered: held + part.len(),
            begins: base + at,
            met,
            how,
        },
    }
}

// How many bytes of what follows the record lacks that begins in the buffer and is not whole among the bytes held; more than follow, where its size cannot
// be told yet.
fn lacking(buffer: &[u8], held: usize, begins: usize, part: &[u8]) -> usize
    requires { (held ≤ length buffer.now) × (begins ≤ held) × (held ≤ 65535) × (length part.now ≤ 65535) }
    ensures { result ≡ lacks buffer.now held begins part.now }
{
    let head = begins + NtsRecord::HEADER;
    if held + part.len() < head {
        return part.len() + 1;
    }
    let high = joined_at(buffer, held, part, begins + 2);
    let low = joined_at(buffer, held, part, begins + 3);
    let end = head + (high as usize) * 256 + low as usize;
    if end < held {
        return 0;
    }
    end - held
}

// The byte at a place of the bytes held and those that follow.
fn joined_at(buffer: &[u8], held: usize, part: &[u8], at: usize) -> u8
    requires { held ≤ length buffer.now }
    ensures { result ≡ byte_at (take held buffer.now ++ part.now) at }
{
    if at < held {
        return wire::byte_at(buffer, at);
    }
    wire::byte_at(part, at - held)
}

// The walk over bytes that begin with a record, as far as its records stand whole.
fn scan(profile: Profile, rules: &[u8; 15], bytes: &[u8], met: u16) -> Scanned
    ensures { told_scanned result ≡ going (reader_of (record { profile = profile; entries = rules.now })) met 0 0 bytes.now }
{
    let mut at: usize = 0;
    let mut seen = met;
    loop {
        let size = whole_size(bytes, at);
        if size == 0 {
            return Scanned::Waits { at, met: seen };
        }
        let passed = walk::pass(profile, rules, bytes, at, seen);
        let Passed::On(more) = passed else {
            return Scanned::Decides {
                at,
                met: seen,
                through: at + size,
            };
        };
        at = at + size;
        seen = more;
    }
}

// How many bytes the record at a place takes where it stands whole; otherwise 0.
#[tactic(auto, using(crate::proofs::Scanning::sized_short, crate::proofs::Scanning::sized_cut, crate::proofs::Scanning::sized_whole))]
fn whole_size(bytes: &[u8], at: usize) -> usize
    requires { at ≤ length bytes.now }
    ensures { result ≡ cond (whole (drop at bytes.now)) (4 + records.size (drop at bytes.now)) 0 }
{
    let left = bytes.len() - at;
    if left < NtsRecord::HEADER {
        return 0;
    }
    let size = NtsRecord::HEADER + wire::number_at(bytes, at + 2) as usize;
    if left < size {
        return 0;
    }
    size
}

fn smaller(a: usize, b: usize) -> usize
    ensures { result ≡ smaller_of a b }
{
    if b < a {
        return b;
    }
    a
}

// ---- in place

// The same with the connection record updated in place.
pub fn hand_over(
    connection: &mut Connection,
    expected: Expected,
    closed: bool,
    piece: &[u8],
    protocols: &[u16],
    algorithms: &[u16],
    buffer: &mut [u8],
    table: &mut [u16],
) -> Answer
    ensures { HandsOver connection.old expected piece.now closed protocols.now algorithms.now buffer.old table.old
        (record { connection = connection.new; answer = result }) buffer.new table.new }
{
    let s = hand(
        *connection,
        expected,
        closed,
        piece,
        protocols,
        algorithms,
        buffer,
        table,
    );
    *connection = s.connection;
    s.answer
}
