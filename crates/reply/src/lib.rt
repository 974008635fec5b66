// Reading a reply to a key-exchange request (after the crate's KeyExchangeResponse::parse, by the rules of documents 01 and 02): its table for the walk,
// the decision over what the walk found and what was offered, and its answers.
#![tactic(auto)]

ghost use Rattle.std.specs.Prelude.{◌≡◌, length};
ghost use Rattle.walk.specs.Judge.{body_in, placed};
ghost use Rattle.walk.specs.Found.{told_in};
ghost use Rattle.walk.specs.Finding.{found_by, as_finding, told_finding};
ghost use Rattle.walk.specs.Code.{Fits};
ghost use Rattle.reply.specs.Reply as reply;
ghost use Rattle.reply.specs.Reply.{rules, reader, offering, told_server, told_port, told_by, told_answer, Judges, Reads, Names};
ghost use Rattle.reply.specs.Code.{number_in, sent_in, accepted_in, cookies_for, cookies_in};

use nts::{AeadAlgorithm, NextProtocol, NtsError, Refusal};
use record::{NtsRecord, Part, Profile};
use walk::{ENDING, NOTED, ONCE, REFUSED, SINGLE, Seen, Stop, TOLD, Walked};

// The server's name, where one was sent: a part of the message.
#[derive(Clone, Copy)]
pub enum Server {
    Sent(Part),
    NotSent,
}

// The port, where one was sent.
#[derive(Clone, Copy)]
pub enum Port {
    Sent(u16),
    NotSent,
}

// A reply that was accepted, with the crate's fields; of the cookies, how many there are.
#[derive(Clone, Copy)]
pub struct KeyExchangeResponse {
    pub protocol: NextProtocol,
    pub algorithm: AeadAlgorithm,
    pub server: Server,
    pub port: Port,
    pub keep_alive: bool,
    pub cookies: usize,
}

#[derive(Clone, Copy)]
pub enum Answer {
    Accepted(KeyExchangeResponse),
    Refused(Refusal),
}

// An answer, and the place at which the walk stopped: that of the end record, or of what was refused.
#[derive(Clone, Copy)]
pub struct Judged {
    pub answer: Answer,
    pub place: usize,
}

// The numbers that a reply names, whatever was offered.
#[derive(Clone, Copy)]
pub struct Named {
    pub protocol: NextProtocol,
    pub algorithm: AeadAlgorithm,
}

// What is done with a record, by its kind.
pub const RULES: [u8; 15] = [
    ENDING, // 0 end
    SINGLE, // 1 protocols
    TOLD, // 2 error
    TOLD, // 3 warning
    SINGLE, // 4 algorithms
    NOTED, // 5 cookie
    ONCE, // 6 server
    ONCE, // 7 port
    NOTED, // 8 keep-alive
    REFUSED, // 9 supported protocols
    REFUSED, // 10 supported algorithms
    REFUSED, // 11, which is unknown and not asked
    REFUSED, // 12 keys
    REFUSED, // 13 denied
    REFUSED, // 14 authentication
];

impl KeyExchangeResponse {
    // Reads a reply in a profile as if the message were cut after `limit` bytes. The protocol and the algorithm that it names must be among those that were offered.
    // The cookies of an accepted reply go into the table, two cells a cookie, start and length, in message order; nothing else changes a cell.
    pub fn parse(
        profile: Profile,
        message: &[u8],
        limit: u16,
        protocols: &[u16],
        algorithms: &[u16],
        table: &mut [u16],
    ) -> Answer
        ensures { Reads profile message.now limit protocols.now algorithms.now table.old result table.new }
    {
        let judged = KeyExchangeResponse::judge(
            profile,
            message,
            limit,
            protocols,
            algorithms,
            table.len() / 2,
        );
        let answer = judged.answer;
        let place = judged.place;
        let count = cookies_in(answer);
        if count == 0 {
            return answer;
        }
        places::fill(&message[0..place], NtsRecord::NEW_COOKIE, count, table);
        answer
    }

    // What `parse` answers with room for so many cookies, and where the walk stopped.
    pub fn judge(
        profile: Profile,
        message: &[u8],
        limit: u16,
        protocols: &[u16],
        algorithms: &[u16],
        room: usize,
    ) -> Judged
        ensures { Judges profile message.now limit (offering protocols.now algorithms.now room) result }
    {
        let mut cells = [0u16; 45];
        let walked = walk_into(profile, message, limit, &mut cells);
        let place = walked.place;
        let stop = walked.stop;
        match stop {
            Stop::End => Judged {
                answer: decide(message, &cells, protocols, algorithms, place, room),
                place,
            },
            Stop::Refused(error) => Judged {
                answer: refused(error, place),
                place,
            },
        }
    }

    // The protocol and the algorithm that a reply names, 0 where it names none. Whether it is accepted is not asked.
    pub fn named(profile: Profile, message: &[u8], limit: u16) -> Named
        ensures { Names profile message.now limit result }
    {
        let mut cells = [0u16; 45];
        walk_into(profile, message, limit, &mut cells);
        Named {
            protocol: NextProtocol(number_in(
                message,
                walk::found(&cells, NtsRecord::NEXT_PROTOCOL),
            )),
            algorithm: AeadAlgorithm(number_in(
                message,
                walk::found(&cells, NtsRecord::AEAD_ALGORITHM),
            )),
        }
    }
}

// The walk by this reader's table, with what it found in the cells.
fn walk_into(profile: Profile, message: &[u8], limit: u16, cells: &mut [u16; 45]) -> Walked
    ensures { told_finding (as_finding result cells.new) ≡ found_by (reader profile) message.now limit }
{
    let rules = RULES;
    walk::walk(profile, &rules, message, limit, cells)
}

fn refused(error: NtsError, place: usize) -> Answer
    ensures { result ≡ Answer.Refused (record { error = error; place = place }) }
{
    Answer::Refused(Refusal { error, place })
}

// The decision after the end record, whose place a refusal bears: the two lists, and then what they name.
fn decide(
    message: &[u8],
    cells: &[u16; 45],
    protocols: &[u16],
    algorithms: &[u16],
    place: usize,
    room: usize,
) -> Answer
    requires { Fits rules (length message.now) cells.now }
    ensures { told_answer result ≡ told_by message.now (placed place (reply.decide (offering protocols.now algorithms.now room) (body_in message.now) (told_in cells.now))) }
{
    let first = walk::found(cells, NtsRecord::NEXT_PROTOCOL);
    if first.count == 0 {
        return refused(NtsError::Invalid, place);
    }
    if first.len == 0 {
        return refused(NtsError::NoOverlappingProtocol, place);
    }
    let second = walk::found(cells, NtsRecord::AEAD_ALGORITHM);
    if second.count == 0 {
        return refused(NtsError::Invalid, place);
    }
    if second.len == 0 {
        return refused(NtsError::NoOverlappingAlgorithm, place);
    }
    let protocol = NextProtocol(number_in(message, first));
    let algorithm = AeadAlgorithm(number_in(message, second));
    if !negotiation::has(protocols, protocol.0) {
        return refused(NtsError::ProtocolNotOffered(protocol), place);
    }
    if !negotiation::has(algorithms, algorithm.0) {
        return refused(NtsError::AeadNotOffered(algorithm), place);
    }
    with_cookies(message, cells, protocol, algorithm, place, room)
}

// Both numbers were offered: then the cookies.
fn with_cookies(
    message: &[u8],
    cells: &[u16; 45],
    protocol: NextProtocol,
    algorithm: AeadAlgorithm,
    place: usize,
    room: usize,
) -> Answer
    ensures { told_answer result ≡ cookies_for room place message.now cells.now protocol.0 algorithm.0 }
{
    let cookies = walk::found(cells, NtsRecord::NEW_COOKIE).count as usize;
    if cookies == 0 {
        return refused(NtsError::NoCookie, place);
    }
    if room < cookies {
        return refused(NtsError::TableFull, place);
    }
    accepted(message, cells, protocol, algorithm, cookies)
}

// The accepted answer: the two numbers, and what else was found.
fn accepted(
    message: &[u8],
    cells: &[u16; 45],
    protocol: NextProtocol,
    algorithm: AeadAlgorithm,
    cookies: usize,
) -> Answer
    ensures { told_answer result ≡ accepted_in message.now cells.now protocol.0 algorithm.0 cookies }
{
    let server = server_of(walk::found(cells, NtsRecord::SERVER));
    let port = port_of(message, walk::found(cells, NtsRecord::PORT));
    let keep_alive = walk::is_there(cells, NtsRecord::KEEP_ALIVE);
    Answer::Accepted(KeyExchangeResponse {
        protocol,
        algorithm,
        server,
        port,
        keep_alive,
        cookies,
    })
}

// The number in the first body of a kind.
fn number_in(message: &[u8], seen: Seen) -> u16
    ensures { result ≡ number_in message.now seen }
{
    let body = seen.body();
    wire::number_at(wire::part(message, body.start, body.len), 0)
}

fn server_of(seen: Seen) -> Server
    ensures { told_server result ≡ sent_in seen (record { start = seen.start; len = seen.len }) }
{
    if seen.count == 0 {
        return Server::NotSent;
    }
    let body = seen.body();
    Server::Sent(body)
}

fn port_of(message: &[u8], seen: Seen) -> Port
    ensures { told_port result ≡ sent_in seen (number_in message.now seen) }
{
    if seen.count == 0 {
        return Port::NotSent;
    }
    Port::Sent(number_in(message, seen))
}

// How many cookies are to be put into the table.
fn cookies_in(answer: Answer) -> usize
    ensures { result ≡ cookies_in (told_answer answer) }
{
    match answer {
        Answer::Accepted(x) => x.cookies,
        Answer::Refused(_) => 0,
    }
}
