// Reading a request (the crate's Request::parse), which is two things: a walk by the request's table, which hands back a finding, and the decision from
// that; and the answers.
#![tactic(auto)]

ghost use Rattle.std.specs.Prelude.{◌≡◌, List, ℕ, length};
ghost use Rattle.walk.specs.Judge.{body_in, placed};
ghost use Rattle.walk.specs.Found.{entry_in, told_in, first_in};
ghost use Rattle.walk.specs.Finding.{found_by, as_finding, told_finding};
ghost use Rattle.walk.specs.Code.{Fits};
ghost use Rattle.request.specs.Code.{is_one, fixed_in, keys_are, denied_in};
ghost use Rattle.request.specs.Request as request;
ghost use Rattle.request.specs.Request.{rules, reader, support_by, keys_by, exchange_by, told_by, told_answer, Judges, Reads, Decides};

use nts::{AeadAlgorithm, Description, NextProtocol, NtsError, Refusal};
use record::{NtsRecord, Part, Profile};
use walk::{ENDING, Finding, NOTED, ONCE, PASSED, REFUSED, Seen, Stop, Walked};

// A request that was accepted, with the crate's fields; bodies, names and keys are parts of the message.
#[derive(Clone, Copy)]
pub enum Request {
    KeyExchange {
        protocols: Part,
        algorithms: Part,
        denied: usize,
    },
    FixedKey {
        authentication: Part,
        c2s: Part,
        s2c: Part,
        algorithm: AeadAlgorithm,
        protocol: NextProtocol,
        keep_alive: bool,
    },
    Support {
        authentication: Part,
        wants_protocols: bool,
        wants_algorithms: bool,
        keep_alive: bool,
    },
}

#[derive(Clone, Copy)]
pub enum Answer {
    Accepted(Request),
    Refused(Refusal),
}

// The bytes of one number.
const NUMBER: u16 = 2;

// An answer, and the finding that it was decided from.
#[derive(Clone, Copy)]
pub struct Judged {
    pub answer: Answer,
    pub finding: Finding,
}

// What is done with a record, by its kind.
pub const RULES: [u8; 15] = [
    ENDING, // 0 end
    ONCE, // 1 protocols
    REFUSED, // 2 error
    REFUSED, // 3 warning
    ONCE, // 4 algorithms
    REFUSED, // 5 cookie
    PASSED, // 6 server
    PASSED, // 7 port
    NOTED, // 8 keep-alive
    ONCE, // 9 supported protocols
    ONCE, // 10 supported algorithms
    REFUSED, // 11, which is unknown and not asked
    ONCE, // 12 keys
    NOTED, // 13 denied
    ONCE, // 14 authentication
];

impl Request {
    // Walks over a message, in the usual profile, as if it were cut after `limit` bytes until a record ends it or is refused, and hands back what it found: also of a
    // message that is not accepted.
    pub fn walk(message: &[u8], limit: u16) -> Finding
        ensures { told_finding result ≡ found_by (reader Profile.Usual) message.now limit }
    {
        let mut cells = [0u16; 45];
        let walked = walk_into(Profile::Usual, message, limit, &mut cells);
        let place = walked.place;
        let stop = walked.stop;
        Finding {
            limit: walked.limit,
            cells,
            place,
            stop,
        }
    }

    // What `parse` answers in the usual profile under the finding's limit, with the table as it leaves it. 9, before all others and changing no cell, where the finding is not
    // what `walk` gives over the message under that limit.
    pub fn decide(finding: Finding, message: &[u8], table: &mut [u16]) -> Answer
        ensures { Decides (told_finding finding) message.now table.old result table.new }
    {
        let again = Request::walk(message, finding.limit);
        if again.is_same(finding) {
            let cells = again.cells;
            let stop = again.stop;
            let walked = Walked {
                limit: again.limit,
                place: again.place,
                stop,
            };
            return settle(Profile::Usual, walked, &cells, message, table);
        }
        refused(NtsError::InvalidValue, 0)
    }

    // Reads a request in a profile as if the message were cut after `limit` bytes. The names that an accepted key-exchange request denies
    // go into the table, two cells a name, start and length, in message order; nothing else changes a cell. The strict profile knows no such names.
    pub fn parse(profile: Profile, message: &[u8], limit: u16, table: &mut [u16]) -> Answer
        ensures { Reads profile message.now limit table.old result table.new }
    {
        let mut cells = [0u16; 45];
        let walked = walk_into(profile, message, limit, &mut cells);
        settle(profile, walked, &cells, message, table)
    }

    // What `parse` answers with room for so many names, and the finding.
    pub fn judge(profile: Profile, message: &[u8], limit: u16, room: usize) -> Judged
        ensures { Judges profile message.now limit room result }
    {
        let mut cells = [0u16; 45];
        let walked = walk_into(profile, message, limit, &mut cells);
        let answer = decision(profile, walked, &cells, message, room);
        let place = walked.place;
        let stop = walked.stop;
        let finding = Finding {
            limit: walked.limit,
            cells,
            place,
            stop,
        };
        Judged { answer, finding }
    }
}

// The walk by this reader's table, with what it found in the cells.
fn walk_into(profile: Profile, message: &[u8], limit: u16, cells: &mut [u16; 45]) -> Walked
    ensures { told_finding (as_finding result cells.new) ≡ found_by (reader profile) message.now limit }
{
    let rules = RULES;
    walk::walk(profile, &rules, message, limit, cells)
}

// The answer that the walk's own finding decides, and the names put into the table.
fn settle(
    profile: Profile,
    walked: Walked,
    cells: &[u16; 45],
    message: &[u8],
    table: &mut [u16],
) -> Answer
    requires { told_finding (as_finding walked cells.now) ≡ found_by (reader profile) message.now walked.limit }
    ensures { Reads profile message.now walked.limit table.old result table.new }
{
    let place = walked.place;
    let answer = decision(profile, walked, cells, message, table.len() / 2);
    let denied = denied_in(answer);
    if denied == 0 {
        return answer;
    }
    places::fill(
        &message[0..place],
        NtsRecord::NTP_SERVER_DENY,
        denied,
        table,
    );
    answer
}

// The decision from the walk's own finding, with room for so many names: what stopped the walk, or, after the end record, what was found.
fn decision(
    profile: Profile,
    walked: Walked,
    cells: &[u16; 45],
    message: &[u8],
    room: usize,
) -> Answer
    requires { told_finding (as_finding walked cells.now) ≡ found_by (reader profile) message.now walked.limit }
    ensures { told_answer result ≡ told_by message.now (request.request profile message.now walked.limit room) }
{
    let place = walked.place;
    let stop = walked.stop;
    match stop {
        Stop::End => decide_ended(message, cells, place, room),
        Stop::Refused(error) => refused(error, place),
    }
}

fn refused(error: NtsError, place: usize) -> Answer
    ensures { result ≡ Answer.Refused (record { error = error; place = place }) }
{
    Answer::Refused(Refusal { error, place })
}

// The decision after the end record, whose place a refusal bears.
fn decide_ended(message: &[u8], cells: &[u16; 45], place: usize, room: usize) -> Answer
    requires { Fits rules (length message.now) cells.now }
    ensures { told_answer result ≡ told_by message.now (placed place (request.decide room (body_in message.now) (told_in cells.now))) }
{
    if walk::is_there(cells, NtsRecord::SUPPORTED_NEXT_PROTOCOL_LIST) {
        return decide_support(cells, place);
    }
    if walk::is_there(cells, NtsRecord::SUPPORTED_ALGORITHM_LIST) {
        return decide_support(cells, place);
    }
    if walk::is_there(cells, NtsRecord::FIXED_KEY_REQUEST) {
        return decide_fixed(message, cells, place);
    }
    decide_exchange(cells, place, room)
}

fn decide_support(cells: &[u16; 45], place: usize) -> Answer
    ensures { (m : List ℕ) → told_answer result ≡ told_by m (placed place (support_by (told_in cells.now))) }
{
    let authentication = walk::found(cells, NtsRecord::AUTHENTICATION);
    if authentication.count == 0 {
        return refused(NtsError::Invalid, place);
    }
    if walk::is_there(cells, NtsRecord::FIXED_KEY_REQUEST) {
        return refused(NtsError::Invalid, place);
    }
    if walk::is_there(cells, NtsRecord::NEXT_PROTOCOL) {
        return refused(NtsError::Invalid, place);
    }
    if walk::is_there(cells, NtsRecord::AEAD_ALGORITHM) {
        return refused(NtsError::Invalid, place);
    }
    Answer::Accepted(Request::Support {
        authentication: authentication.body(),
        wants_protocols: walk::is_there(cells, NtsRecord::SUPPORTED_NEXT_PROTOCOL_LIST),
        wants_algorithms: walk::is_there(cells, NtsRecord::SUPPORTED_ALGORITHM_LIST),
        keep_alive: walk::is_there(cells, NtsRecord::KEEP_ALIVE),
    })
}

fn decide_exchange(cells: &[u16; 45], place: usize, room: usize) -> Answer
    ensures { (m : List ℕ) → told_answer result ≡ told_by m (placed place (exchange_by room (told_in cells.now))) }
{
    let protocols = walk::found(cells, NtsRecord::NEXT_PROTOCOL);
    let algorithms = walk::found(cells, NtsRecord::AEAD_ALGORITHM);
    let denied = walk::found(cells, NtsRecord::NTP_SERVER_DENY).count as usize;
    if protocols.count == 0 {
        return refused(NtsError::Invalid, place);
    }
    if algorithms.count == 0 {
        return refused(NtsError::Invalid, place);
    }
    if room < denied {
        return refused(NtsError::TableFull, place);
    }
    Answer::Accepted(Request::KeyExchange {
        protocols: protocols.body(),
        algorithms: algorithms.body(),
        denied,
    })
}

// Whether a list was there, with one entry.
fn is_one(list: Seen) -> bool
    ensures { result ≡ is_one list }
{
    if list.count == 0 {
        return false;
    }
    list.len == NUMBER
}

// Authentication and both lists, each of one entry; then the algorithm, and its key length.
fn decide_fixed(message: &[u8], cells: &[u16; 45], place: usize) -> Answer
    requires { Fits rules (length message.now) cells.now }
    ensures { told_answer result ≡ told_by message.now (placed place (keys_by (body_in message.now) (told_in cells.now) (first_in cells.now 12))) }
{
    let protocols = walk::found(cells, NtsRecord::NEXT_PROTOCOL);
    let algorithms = walk::found(cells, NtsRecord::AEAD_ALGORITHM);
    if walk::is_there(cells, NtsRecord::AUTHENTICATION) {
        if is_one(protocols) {
            if is_one(algorithms) {
                return decide_keys(message, cells, place);
            }
            return refused(NtsError::Invalid, place);
        }
        return refused(NtsError::Invalid, place);
    }
    refused(NtsError::Invalid, place)
}

// The algorithm decides over the keys' length.
fn decide_keys(message: &[u8], cells: &[u16; 45], place: usize) -> Answer
    requires { Fits rules (length message.now) cells.now × ((entry_in cells.now 1).len ≡ 2) × ((entry_in cells.now 4).len ≡ 2) }
    ensures { told_answer result ≡ told_by message.now (placed place (fixed_in (body_in message.now) cells.now)) }
{
    let keys = walk::found(cells, NtsRecord::FIXED_KEY_REQUEST);
    let algorithms = walk::found(cells, NtsRecord::AEAD_ALGORITHM);
    let algorithm = AeadAlgorithm(wire::number_at(message, algorithms.start as usize));
    let description = algorithm.description();
    match description {
        Description::Known(d) => {
            if keys.len / 2 == d.keysize {
                return fixed_key(message, cells, algorithm);
            }
            refused(NtsError::IncorrectSizedKey, place)
        }
        Description::Unknown => refused(NtsError::AeadNotSupported(algorithm), place),
    }
}

fn fixed_key(message: &[u8], cells: &[u16; 45], algorithm: AeadAlgorithm) -> Answer
    ensures { told_answer result ≡ keys_are message.now cells.now algorithm.0 }
{
    let keys = walk::found(cells, NtsRecord::FIXED_KEY_REQUEST);
    let start = keys.start as usize;
    let half = (keys.len / 2) as usize;
    let protocols = walk::found(cells, NtsRecord::NEXT_PROTOCOL);
    Answer::Accepted(Request::FixedKey {
        authentication: walk::found(cells, NtsRecord::AUTHENTICATION).body(),
        c2s: Part { start, len: half },
        s2c: Part {
            start: start + half,
            len: half,
        },
        algorithm,
        protocol: NextProtocol(wire::number_at(message, protocols.start as usize)),
        keep_alive: walk::is_there(cells, NtsRecord::KEEP_ALIVE),
    })
}

// How many names are to be put into the table: those of an accepted key-exchange request.
fn denied_in(answer: Answer) -> usize
    ensures { result ≡ denied_in (told_answer answer) }
{
    match answer {
        Answer::Accepted(request) => match request {
            Request::KeyExchange {
                protocols: _,
                algorithms: _,
                denied,
            } => denied,
            Request::FixedKey {
                authentication: _,
                c2s: _,
                s2c: _,
                algorithm: _,
                protocol: _,
                keep_alive: _,
            } => 0,
            Request::Support {
                authentication: _,
                wants_protocols: _,
                wants_algorithms: _,
                keep_alive: _,
            } => 0,
        },
        Answer::Refused(_) => 0,
    }
}
