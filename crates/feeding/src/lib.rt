// The calls that feed a request or a reply in pieces, for a host in C or Rust, which keeps the connection as nine cells: the limit, the bytes gathered, where
// the record that is being gathered begins, the kinds met, whether there is an answer (0 none, 1 accepted, 2 refused), a refusal's number with what was not
// offered, the number beside it and its place, and the profile (0 usual, 1 strict). Cells that hold no connection are 9.
#![tactic(auto)]

ghost use Rattle.std.specs.Prelude.{◌≡◌, [], true, false, ◌<◌, ◌^◌};
ghost use Rattle.pieces.specs.Pieces.{started, told_state, told_connection};
ghost use Rattle.pieces.specs.Reads.{request_read, reply_read};
ghost use Rattle.walk.specs.Judge.{room_for};
ghost use Rattle.places.specs.Places.{room_of};
ghost use Rattle.reply.specs.Reply.{offering};
ghost use Rattle.reading.specs.Read.{request_given, reply_given};
ghost use Rattle.nts.specs.Refusal.{told_refusal, error_in};
ghost use Rattle.cells.specs.Cells.{word, cells, Gives};
ghost use Rattle.feeding.specs.Fed.{is_mark, has_beside, number_in, beside_in, is_standing, is_connection, standing_in, profile_cell, profile_in, line_cells, Feeds};
ghost use Rattle.feeding.specs.Code.{told_kept, kept_in};

use nts::{AeadAlgorithm, ErrorCode, NextProtocol, NtsError, Refusal, WarningCode};
use pieces::{Connection, ReplyAnswer, RequestAnswer, State};
use record::Profile;

// The word of a call after which the read waits: not 0, and no refusal's.
const WAITING: u64 = 65535;

// 17 and what was not offered, as a word has them in its low sixteen bits: a protocol, an algorithm.
const NO_PROTOCOL: usize = 273;

const NO_ALGORITHM: usize = 529;

// The connection that cells hold.
#[derive(Clone, Copy)]
enum Kept {
    Connection(Connection),
    None,
}

// Starts a read under a limit, in the usual profile.
pub fn ntske_connection_new(limit: u16, connection: &mut [usize; 9]) -> u64
    ensures { Gives (cells (line_cells (started Profile.Usual limit))) connection.old result connection.new }
{
    *connection = connection_cells(Connection::start(Profile::Usual, limit));
    0
}

// The same in the strict profile: each call that takes the connection reads in it. After its end record such a read waits for the limit, the close, or a byte, which is 18.
pub fn ntske_connection_new_strict(limit: u16, connection: &mut [usize; 9]) -> u64
    ensures { Gives (cells (line_cells (started Profile.Strict limit))) connection.old result connection.new }
{
    *connection = connection_cells(Connection::start(Profile::Strict, limit));
    0
}

// Hands over a piece of a request, an empty one too. 0: accepted, with the answer and the table as ntske_read_request gives them; 65,535: the read waits for more. Once
// there is an answer, it is given again, and nothing but the answer's cells changes. Refusals, at a place: 9 for cells that hold no connection, and for a
// connection that counts more bytes than the buffer or the limit; 1 to 7; 16 for a buffer without room for a byte that the read needs; 18 in the strict profile.
pub fn ntske_feed_request(
    connection: &mut [usize; 9],
    piece: &[u8],
    buffer: &mut [u8],
    table: &mut [u16],
    answer: &mut [usize; 10],
) -> u64
    ensures { Feeds request_read request_given connection.old buffer.old (record { piece = piece.now; closed = false }) (room_for (room_of table.old)) table.old answer.old
        result connection.new buffer.new table.new answer.new }
{
    fed_request(connection, buffer, table, answer, false, piece)
}

// Says that the line of a request closed: the read waits no more.
pub fn ntske_close_request(
    connection: &mut [usize; 9],
    buffer: &mut [u8],
    table: &mut [u16],
    answer: &mut [usize; 10],
) -> u64
    ensures { Feeds request_read request_given connection.old buffer.old (record { piece = []; closed = true }) (room_for (room_of table.old)) table.old answer.old
        result connection.new buffer.new table.new answer.new }
{
    let nothing = [0u8; 1];
    fed_request(connection, buffer, table, answer, true, &nothing[0..0])
}

// The same of a reply to one who offered these protocols and algorithms, with the answer and the table as ntske_read_reply gives them. The lists count that are
// lent to the call which answers. Refusals, at a place: 9, 1 to 4, 7, 11 to 15, 16, 17; 18 in the strict profile.
pub fn ntske_feed_reply(
    connection: &mut [usize; 9],
    piece: &[u8],
    protocols: &[u16],
    algorithms: &[u16],
    buffer: &mut [u8],
    table: &mut [u16],
    answer: &mut [usize; 9],
) -> u64
    ensures { Feeds reply_read reply_given connection.old buffer.old (record { piece = piece.now; closed = false }) (offering protocols.now algorithms.now (room_of table.old)) table.old answer.old
        result connection.new buffer.new table.new answer.new }
{
    fed_reply(
        connection, buffer, table, answer, false, piece, protocols, algorithms,
    )
}

// Says that the line of a reply closed.
pub fn ntske_close_reply(
    connection: &mut [usize; 9],
    protocols: &[u16],
    algorithms: &[u16],
    buffer: &mut [u8],
    table: &mut [u16],
    answer: &mut [usize; 9],
) -> u64
    ensures { Feeds reply_read reply_given connection.old buffer.old (record { piece = []; closed = true }) (offering protocols.now algorithms.now (room_of table.old)) table.old answer.old
        result connection.new buffer.new table.new answer.new }
{
    let nothing = [0u8; 1];
    fed_reply(
        connection,
        buffer,
        table,
        answer,
        true,
        &nothing[0..0],
        protocols,
        algorithms,
    )
}

// Either call of a request: the connection that the cells hold is handed on, and put again. What is written stands first, so that what the call got on the stack goes on in
// registers: two words that are moved on the stack as one wait until both are stored.
fn fed_request(
    connection: &mut [usize; 9],
    buffer: &mut [u8],
    table: &mut [u16],
    answer: &mut [usize; 10],
    closed: bool,
    piece: &[u8],
) -> u64
    ensures { Feeds request_read request_given connection.old buffer.old (record { piece = piece.now; closed = closed }) (room_for (room_of table.old)) table.old answer.old
        result connection.new buffer.new table.new answer.new }
{
    let kept = connection_in(connection);
    let Kept::Connection(x) = kept else {
        return cells::refused(NtsError::InvalidValue);
    };
    let fed = pieces::feed_request(x, closed, piece, buffer, table);
    *connection = connection_cells(fed.connection);
    let said = fed.answer;
    match said {
        RequestAnswer::Waiting => WAITING,
        RequestAnswer::Accepted(q) => {
            *answer = reading::request_cells(q);
            0
        }
        RequestAnswer::Refused(refusal) => refused(refusal),
    }
}

// Either call of a reply, in the same order.
fn fed_reply(
    connection: &mut [usize; 9],
    buffer: &mut [u8],
    table: &mut [u16],
    answer: &mut [usize; 9],
    closed: bool,
    piece: &[u8],
    protocols: &[u16],
    algorithms: &[u16],
) -> u64
    ensures { Feeds reply_read reply_given connection.old buffer.old (record { piece = piece.now; closed = closed }) (offering protocols.now algorithms.now (room_of table.old)) table.old answer.old
        result connection.new buffer.new table.new answer.new }
{
    let kept = connection_in(connection);
    let Kept::Connection(x) = kept else {
        return cells::refused(NtsError::InvalidValue);
    };
    let replied = pieces::feed_reply(x, closed, piece, protocols, algorithms, buffer, table);
    *connection = connection_cells(replied.connection);
    let said = replied.answer;
    match said {
        ReplyAnswer::Waiting => WAITING,
        ReplyAnswer::Accepted(q) => {
            *answer = reading::reply_cells(q);
            0
        }
        ReplyAnswer::Refused(refusal) => refused(refusal),
    }
}

// A refusal at its place, which has thirty-two bits.
fn refused(refusal: Refusal) -> u64
    requires { refusal.place < 2 ^ 32 }
    ensures { result ≡ word (told_refusal refusal) }
{
    let error = refusal.error;
    cells::refused_at(error, refusal.place as u32)
}

// ---- a connection as cells

// All nine cells of a connection.
fn connection_cells(x: Connection) -> [usize; 9]
    ensures { result ≡ line_cells (told_connection x) }
{
    let l = x.limit as usize;
    let m = x.met as usize;
    let profile = x.profile;
    let p = profile_cell(profile);
    let state = x.state;
    match state {
        State::Pending => [l, x.gathered, x.begins, m, 0, 0, 0, 0, p],
        State::Accepted => [l, x.gathered, x.begins, m, 1, 0, 0, 0, p],
        State::Refused(refusal) => {
            let error = refusal.error;
            let n = cells::mark(error) as usize;
            let c = cells::beside(error) as usize;
            [l, x.gathered, x.begins, m, 2, n, c, refusal.place, p]
        }
    }
}

fn profile_cell(profile: Profile) -> usize
    ensures { result ≡ profile_cell profile }
{
    match profile {
        Profile::Usual => 0,
        Profile::Strict => 1,
    }
}

fn profile_in(cell: usize) -> Profile
    ensures { result ≡ profile_in cell }
{
    if cell == 0 {
        return Profile::Usual;
    }
    Profile::Strict
}

// The connection that cells hold, each cell in its range.
fn connection_in(c: &[usize; 9]) -> Kept
    ensures { told_kept result ≡ kept_in c.now }
{
    if is_connection(c) {
        return Kept::Connection(Connection {
            profile: profile_in(c[8]),
            limit: c[0] as u16,
            gathered: c[1],
            begins: c[2],
            met: c[3] as u16,
            state: state_in(c[4], c[5] as u16, c[6] as u16, c[7]),
        });
    }
    Kept::None
}

// Whether cells hold a connection: sixteen bits for the limit and for the kinds met, and one of the two profiles.
fn is_connection(c: &[usize; 9]) -> bool
    ensures { result ≡ is_connection c.now }
{
    (c[0] <= 65535) & (c[3] <= 65535) & is_state(c[4], c[5], c[6], c[7]) & (c[8] <= 1)
}

// Whether four cells are an answer's: a refusal has its number, with what was not offered, and a place, and what is none has neither.
fn is_state(state: usize, number: usize, beside: usize, place: usize) -> bool
    ensures { result ≡ is_standing state number beside place }
{
    if state < 2 {
        return (number == 0) & (beside == 0) & (place == 0);
    }
    (state == 2)
        & is_mark(number)
        & (beside <= 65535)
        & ((beside == 0) | has_beside(number) | (NO_PROTOCOL <= number))
        & (place <= 4294967295)
}

// Whether it is a refusal's number: 1 to 16, 18, or 17 with what was not offered.
fn is_mark(number: usize) -> bool
    ensures { result ≡ is_mark number }
{
    ((1 <= number) & (number <= 16))
        | (number == 18)
        | (number == NO_PROTOCOL)
        | (number == NO_ALGORITHM)
}

// Whether a refusal has a number beside its own, which that tells of what sort it is.
fn has_beside(number: usize) -> bool
    ensures { result ≡ has_beside number }
{
    (number == 5) | (number == 11) | (number == 12)
}

// The answer that they tell.
fn state_in(state: usize, number: u16, beside: u16, place: usize) -> State
    requires { is_standing state number beside place ≡ true }
    ensures { told_state result ≡ standing_in state number beside place }
{
    match state {
        0 => State::Pending,
        1 => State::Accepted,
        _ => State::Refused(Refusal {
            error: error_in(number, beside),
            place,
        }),
    }
}

// The refusal that has such a number.
fn error_in(number: u16, beside: u16) -> NtsError
    requires { is_mark number ≡ true }
    ensures { result ≡ error_in (number_in number) (beside_in number beside) }
{
    match number {
        1 => NtsError::UnexpectedEof,
        2 => NtsError::InvalidData,
        3 => NtsError::UnrecognizedCriticalRecord,
        4 => NtsError::Invalid,
        5 => NtsError::AeadNotSupported(AeadAlgorithm(beside)),
        6 => NtsError::IncorrectSizedKey,
        7 => NtsError::TableFull,
        8 => NtsError::InvalidInput,
        9 => NtsError::InvalidValue,
        10 => NtsError::OutputTooShort,
        11 => NtsError::Error(ErrorCode(beside)),
        12 => NtsError::UnknownWarning(WarningCode(beside)),
        13 => NtsError::NoOverlappingProtocol,
        14 => NtsError::NoOverlappingAlgorithm,
        15 => NtsError::NoCookie,
        16 => NtsError::BufferFull,
        18 => NtsError::NotAllowed,
        273 => NtsError::ProtocolNotOffered(NextProtocol(beside)),
        _ => NtsError::AeadNotOffered(AeadAlgorithm(beside)),
    }
}
