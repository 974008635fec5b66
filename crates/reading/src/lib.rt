// The calls that read a request and a reply, in either profile, and one record, for a host in C or Rust; the bit that document 01 names for a kind; and the test for
// UTF-8.
#![tactic(auto)]

ghost use Rattle.std.specs.Prelude.{◌≡◌, [], ◌∷◌, ◌<◌};
ghost use Rattle.utf8.specs.Utf8.{well_formed};
ghost use Rattle.nts.specs.Refusal.{told_refusal};
ghost use Rattle.layout.specs.Table.{bit_named};
ghost use Rattle.record.specs.Record.{read_at};
ghost use Rattle.record.specs.Told.{kind_of_record, value_of_record};
ghost use Rattle.request.specs.Request as requests;
ghost use Rattle.reply.specs.Reply as replies;
ghost use Rattle.cells.specs.Cells.{word, flag, cells, Gives};
ghost use Rattle.reading.specs.Read.{request_given, ReadsRequest, server_there, server_name, port_there, port_number, reply_given, ReadsReply, record_given, value_cells, bit_cell};

use nts::Refusal;
use record::{Bit, NtsRecord, Parsed, Part, Profile};
use reply::{KeyExchangeResponse, Port, Server};
use request::Request;

// Reads a request as if the message were cut after `limit` bytes. Answer, ten cells: 1 for a key exchange, then start and length of the protocols and of
// the algorithms, and how many names are denied; 2 for fixed keys, then start and length of the authentication, of the key from client to
// server and of that from server to client, the algorithm, the protocol, and keep-alive; 3 for support, then start and length of the
// authentication, whether protocols and algorithms are wanted, and keep-alive. Refusals: 1 to 7, at a place.
pub fn ntske_read_request(
    message: &[u8],
    limit: u16,
    table: &mut [u16],
    answer: &mut [usize; 10],
) -> u64
    ensures { ReadsRequest Profile.Usual message.now limit table.old answer.old result table.new answer.new }
{
    read_request(Profile::Usual, message, limit, table, answer)
}

// Reads a request as ntske_read_request does, in the strict profile: kinds 0, 1, 2 and 3 need their critical bit, an end record has no body and no byte follows it
// inside the limit, a server's name is ASCII, and kinds 8 to 14 are unknown. Answer, ten cells: 1, since there are only key exchanges, then start and length of the
// protocols and of the algorithms; the others are 0. No name is denied, and the table stays as it was. Refusals: 1 to 4 and 18, at a place.
pub fn ntske_read_request_strict(
    message: &[u8],
    limit: u16,
    table: &mut [u16],
    answer: &mut [usize; 10],
) -> u64
    ensures { ReadsRequest Profile.Strict message.now limit table.old answer.old result table.new answer.new }
{
    read_request(Profile::Strict, message, limit, table, answer)
}

// Reads a reply as if the message were cut after `limit` bytes, to one who offered these protocols and algorithms. Answer, nine cells: protocol, algorithm, whether a
// server is named and start and length of its name, whether there is a port and its number, keep-alive, and how many cookies there are. Refusals: 1 to 4, 7, 11 to
// 15, 17, at a place.
pub fn ntske_read_reply(
    message: &[u8],
    limit: u16,
    protocols: &[u16],
    algorithms: &[u16],
    table: &mut [u16],
    answer: &mut [usize; 9],
) -> u64
    ensures { ReadsReply Profile.Usual message.now limit protocols.now algorithms.now table.old answer.old result table.new answer.new }
{
    read_reply(
        Profile::Usual,
        message,
        limit,
        table,
        answer,
        protocols,
        algorithms,
    )
}

// Reads a reply as ntske_read_reply does, in the strict profile. Answer, nine cells as there; keep-alive, whose kind is unknown, is always 0. Refusals: 1 to 4, 7, 11
// to 15, 17, 18, at a place.
pub fn ntske_read_reply_strict(
    message: &[u8],
    limit: u16,
    protocols: &[u16],
    algorithms: &[u16],
    table: &mut [u16],
    answer: &mut [usize; 9],
) -> u64
    ensures { ReadsReply Profile.Strict message.now limit protocols.now algorithms.now table.old answer.old result table.new answer.new }
{
    read_reply(
        Profile::Strict,
        message,
        limit,
        table,
        answer,
        protocols,
        algorithms,
    )
}

// Reads the record at a place. Answer, eight cells: its kind, its critical bit as received, the number of kinds 2, 3 and 7, start and length of the
// body or of the first key, start and length of the second key, and the place after it. Refusals: 1 and 2, at the place that was asked for, which the word
// does not tell.
pub fn ntske_read_record(message: &[u8], place: usize, answer: &mut [usize; 8]) -> u64
    ensures { Gives (record_given (read_at message.now place)) answer.old result answer.new }
{
    let read = NtsRecord::parse(message, place);
    match read {
        Parsed::Read(x) => {
            let item = x.item;
            *answer = record_cells(item, cells::flag_of(x.critical), x.next.at);
            0
        }
        Parsed::Refused(x) => {
            let error = x.error;
            cells::refused(error)
        }
    }
}

// The critical bit that document 01 names for a kind, which is the one that a writer sets: 1 set, 0 clear, and 2 where an unknown kind has none of its own.
pub fn ntske_bit_named(kind: u16) -> u64
    ensures { result ≡ bit_cell (bit_named kind) }
{
    let bit = NtsRecord::bit_named(kind);
    match bit {
        Bit::Clear => 0,
        Bit::Set => 1,
        Bit::Given => 2,
    }
}

// 1 where the bytes are UTF-8, and 0 where they are not.
pub fn ntske_is_utf8(bytes: &[u8]) -> u64
    ensures { result ≡ flag (well_formed bytes.now) }
{
    if utf8::is_utf8(bytes) { 1 } else { 0 }
}

// Either call of a request: the cells of an accepted one, or its refusal.
fn read_request(
    profile: Profile,
    message: &[u8],
    limit: u16,
    table: &mut [u16],
    answer: &mut [usize; 10],
) -> u64
    ensures { ReadsRequest profile message.now limit table.old answer.old result table.new answer.new }
{
    let read = Request::parse(profile, message, limit, table);
    match read {
        request::Answer::Accepted(x) => {
            *answer = request_cells(x);
            0
        }
        request::Answer::Refused(x) => refused(x),
    }
}

// Either call of a reply, in the same way. The offers stand last, so that the table and the answer, which the call got on the stack, go on in registers.
fn read_reply(
    profile: Profile,
    message: &[u8],
    limit: u16,
    table: &mut [u16],
    answer: &mut [usize; 9],
    protocols: &[u16],
    algorithms: &[u16],
) -> u64
    ensures { ReadsReply profile message.now limit protocols.now algorithms.now table.old answer.old result table.new answer.new }
{
    let read = KeyExchangeResponse::parse(profile, message, limit, protocols, algorithms, table);
    match read {
        reply::Answer::Accepted(x) => {
            *answer = reply_cells(x);
            0
        }
        reply::Answer::Refused(x) => refused(x),
    }
}

// A reader's refusal, whose place is not past its limit.
fn refused(x: Refusal) -> u64
    requires { x.place < 65536 }
    ensures { result ≡ word (told_refusal x) }
{
    let error = x.error;
    cells::refused_at(error, x.place as u32)
}

// ---- answers as cells

// An accepted request's ten cells, as ntske_read_request gives them.
pub fn request_cells(x: Request) -> [usize; 10]
    ensures { cells result ≡ request_given (requests.told_request x) }
{
    match x {
        Request::KeyExchange {
            protocols: p,
            algorithms: a,
            denied: n,
        } => [1, p.start, p.len, a.start, a.len, n, 0, 0, 0, 0],
        Request::FixedKey {
            authentication: u,
            c2s: c,
            s2c: s,
            algorithm,
            protocol,
            keep_alive,
        } => {
            let a = algorithm.0 as usize;
            let p = protocol.0 as usize;
            let k = cells::flag_of(keep_alive);
            [2, u.start, u.len, c.start, c.len, s.start, s.len, a, p, k]
        }
        Request::Support {
            authentication: u,
            wants_protocols,
            wants_algorithms,
            keep_alive,
        } => {
            let p = cells::flag_of(wants_protocols);
            let a = cells::flag_of(wants_algorithms);
            let k = cells::flag_of(keep_alive);
            [3, u.start, u.len, p, a, k, 0, 0, 0, 0]
        }
    }
}

// An accepted reply's nine cells, as ntske_read_reply gives them.
pub fn reply_cells(x: KeyExchangeResponse) -> [usize; 9]
    ensures { cells result ≡ reply_given (replies.told_reply x) }
{
    let server = x.server;
    let port = x.port;
    let name = name_of(server);
    [
        x.protocol.0 as usize,
        x.algorithm.0 as usize,
        server_there(server),
        name.start,
        name.len,
        port_there(port),
        port_number(port),
        cells::flag_of(x.keep_alive),
        x.cookies,
    ]
}

fn server_there(server: Server) -> usize
    ensures { result ≡ server_there (replies.told_server server) }
{
    match server {
        Server::Sent(_) => 1,
        Server::NotSent => 0,
    }
}

fn name_of(server: Server) -> Part
    ensures { result ≡ server_name (replies.told_server server) }
{
    match server {
        Server::Sent(name) => name,
        Server::NotSent => Part { start: 0, len: 0 },
    }
}

fn port_there(port: Port) -> usize
    ensures { result ≡ port_there (replies.told_port port) }
{
    match port {
        Port::Sent(_) => 1,
        Port::NotSent => 0,
    }
}

fn port_number(port: Port) -> usize
    ensures { result ≡ port_number (replies.told_port port) }
{
    match port {
        Port::Sent(n) => n as usize,
        Port::NotSent => 0,
    }
}

// A record's kind, bit and values.
fn record_cells(item: NtsRecord, bit: usize, next: usize) -> [usize; 8]
    ensures { result ≡ value_cells (kind_of_record item) bit (value_of_record item) next }
{
    match item {
        NtsRecord::EndOfMessage => skipped(0, bit, next),
        NtsRecord::NextProtocol(body) => parted(1, bit, body, next),
        NtsRecord::Error(c) => numbered(2, bit, c.0, next),
        NtsRecord::Warning(c) => numbered(3, bit, c.0, next),
        NtsRecord::AeadAlgorithm(body) => parted(4, bit, body, next),
        NtsRecord::NewCookie(body) => parted(5, bit, body, next),
        NtsRecord::Server(body) => parted(6, bit, body, next),
        NtsRecord::Port(n) => numbered(7, bit, n, next),
        NtsRecord::KeepAlive => skipped(8, bit, next),
        NtsRecord::SupportedNextProtocolList(body) => parted(9, bit, body, next),
        NtsRecord::SupportedAlgorithmList(body) => parted(10, bit, body, next),
        NtsRecord::FixedKeyRequest { c2s, s2c } => {
            [12, bit, 0, c2s.start, c2s.len, s2c.start, s2c.len, next]
        }
        NtsRecord::NtpServerDeny(body) => parted(13, bit, body, next),
        NtsRecord::Authentication(body) => parted(14, bit, body, next),
        NtsRecord::Unknown {
            record_type,
            critical: _,
            data,
        } => parted(record_type as usize, bit, data, next),
    }
}

fn skipped(kind: usize, bit: usize, next: usize) -> [usize; 8]
    ensures { result ≡ kind ∷ bit ∷ 0 ∷ 0 ∷ 0 ∷ 0 ∷ 0 ∷ next ∷ [] }
{
    [kind, bit, 0, 0, 0, 0, 0, next]
}

fn numbered(kind: usize, bit: usize, n: u16, next: usize) -> [usize; 8]
    ensures { result ≡ kind ∷ bit ∷ n ∷ 0 ∷ 0 ∷ 0 ∷ 0 ∷ next ∷ [] }
{
    [kind, bit, n as usize, 0, 0, 0, 0, next]
}

fn parted(kind: usize, bit: usize, body: Part, next: usize) -> [usize; 8]
    ensures { result ≡ kind ∷ bit ∷ 0 ∷ body.start ∷ body.len ∷ 0 ∷ 0 ∷ next ∷ [] }
{
    [kind, bit, 0, body.start, body.len, 0, 0, next]
}
