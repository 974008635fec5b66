// The writers of key-exchange replies and requests. Each judges all that it is lent before it writes, and writes each record into the rest of the
// output, from where the last record ended.
#![tactic(auto)]

ghost use Rattle.std.specs.Prelude.{◌≡◌, List, [], ◌++◌, map, ℕ, ◌+◌, ◌*◌, ◌≤◌, length};
ghost use Rattle.wire.specs.Over.{Put, Tried};
ghost use Rattle.layout.specs.Write.{fitted, told_count, Wrote};
ghost use Rattle.walk.specs.Message.{flat};
ghost use Rattle.plan.specs.Tray.{fields, fields_in, cookies_in, names_in, bytes_in};
ghost use Rattle.plan.specs.Plan.{name_record, keep_alive_record, reply_length};
ghost use Rattle.plan.specs.Plan as plans;
ghost use Rattle.messages.specs.Messages.{record_of, if_asked, record_with, message_of, bodies_of, server_record, port_record, reply_records, reply_checked, request_records, all_utf8, request_length, request_checked};

use nts::NtsError;
use plan::{NameLength, Plan, Port, Tally};
use record::{ByteCount, NtsRecord};

// A key-exchange reply from a plan, its tray and the server's name: 9, then 15 for no cookie, then 10.
pub fn write_reply(plan: Plan, tray: &[u8], server: &[u8], out: &mut [u8]) -> ByteCount
    ensures { Wrote (fitted (length out.old) (reply_checked plan server.now (cookies_in plan.used tray.now)))
        (message_of (reply_records plan server.now (bodies_of (cookies_in plan.used tray.now)))) out.old result out.new }
{
    let checked = check_reply(plan, tray, server);
    let ByteCount::Bytes(n) = checked else {
        return checked;
    };
    if out.len() < n {
        return ByteCount::Refused(NtsError::OutputTooShort);
    }
    ByteCount::Bytes(put_reply(plan, tray, server, out))
}

// A key-exchange request: lists from the host's cells, and the denied names of a tray. 9 for a tray that is none or a name that is not UTF-8,
// then 8 for a list, then 10.
pub fn write_request(
    protocols: &[u16],
    algorithms: &[u16],
    tray: &[u8],
    used: usize,
    out: &mut [u8],
) -> ByteCount
    ensures { Wrote (fitted (length out.old) (request_checked protocols.now algorithms.now (names_in used tray.now)))
        (message_of (request_records protocols.now algorithms.now (bodies_of (names_in used tray.now)))) out.old result out.new }
{
    let checked = request_length(protocols, algorithms, tray, used);
    let ByteCount::Bytes(n) = checked else {
        return checked;
    };
    if out.len() < n {
        return ByteCount::Refused(NtsError::OutputTooShort);
    }
    ByteCount::Bytes(put_request(protocols, algorithms, tray, used, out))
}

// Its exact length, with the writer's 9 and 8.
pub fn request_length(protocols: &[u16], algorithms: &[u16], tray: &[u8], used: usize) -> ByteCount
    ensures { told_count result ≡ request_checked protocols.now algorithms.now (names_in used tray.now) }
{
    let tally = plan::walk_tray(Plan::DENIED, tray, used);
    let Tally::Whole(whole) = tally else {
        return ByteCount::Refused(NtsError::InvalidValue);
    };
    if are_utf8(tray, used) {
        if messages::too_long(protocols) {
            return ByteCount::Refused(NtsError::InvalidInput);
        }
        if messages::too_long(algorithms) {
            return ByteCount::Refused(NtsError::InvalidInput);
        }
        let lists = NtsRecord::HEADER
            + messages::NUMBER * protocols.len()
            + NtsRecord::HEADER
            + messages::NUMBER * algorithms.len();
        return ByteCount::Bytes(
            lists + NtsRecord::HEADER * whole.fields + whole.bytes + NtsRecord::HEADER,
        );
    }
    ByteCount::Refused(NtsError::InvalidValue)
}

// ---- what is judged

// The exact length of a reply, after 9 and then 15.
fn check_reply(plan: Plan, tray: &[u8], server: &[u8]) -> ByteCount
    ensures { told_count result ≡ reply_checked plan server.now (cookies_in plan.used tray.now) }
{
    let measured = plan.length(tray);
    let ByteCount::Bytes(n) = measured else {
        return measured;
    };
    let planned = plan.name;
    if server.len() == name_length(planned) {
        if utf8::is_utf8(server) {
            if plan.used == 0 {
                return ByteCount::Refused(NtsError::NoCookie);
            }
            return ByteCount::Bytes(n);
        }
        return ByteCount::Refused(NtsError::InvalidValue);
    }
    ByteCount::Refused(NtsError::InvalidValue)
}

fn name_length(planned: NameLength) -> usize
    ensures { (result ≡ plans.name_length planned) × (result ≤ 65535) }
{
    match planned {
        NameLength::Bytes(n) => n as usize,
        NameLength::None => 0,
    }
}

// Whether each body of a tray that was walked is UTF-8.
fn are_utf8(tray: &[u8], used: usize) -> bool
    requires { (tag : ℕ) × (l : List (List ℕ)) × (fields_in tag used tray.now ≡ fields l) }
    ensures { (tag : ℕ) (l : List (List ℕ)) → fields_in tag used tray.now ≡ fields l → result ≡ all_utf8 l }
{
    let mut at: usize = 0;
    while at < used {
        let size = wire::number_at(tray, at + 1) as usize;
        if utf8::is_utf8(wire::part(tray, at + Plan::FIELD_HEADER, size)) {
            at = at + Plan::FIELD_HEADER + size;
        } else {
            return false;
        }
    }
    true
}

// ---- what is written, where there is room

// A record for each field of a tray that was walked. It is no part of its callers' code, which would leave its loop too few registers.
#[inline(never)]
fn put_fields(word: u16, tray: &[u8], used: usize, out: &mut [u8]) -> usize
    requires { (tag : ℕ) × (l : List (List ℕ)) × (fields_in tag used tray.now ≡ fields l) × (4 * length l + bytes_in l ≤ length out.old) }
    ensures { (result ≤ length out.old) × ((tag : ℕ) (l : List (List ℕ)) → fields_in tag used tray.now ≡ fields l
        → Put (4 * length l + bytes_in l) (flat (map (record_of word) l)) out.old result out.new) }
{
    let mut at: usize = 0;
    let mut to: usize = 0;
    while at < used {
        let size = wire::number_at(tray, at + 1) as usize;
        let start = at + Plan::FIELD_HEADER;
        to = to + messages::put_body(word, wire::part(tray, start, size), &mut out[to..]);
        at = start + size;
    }
    to
}

fn put_server(planned: NameLength, server: &[u8], out: &mut [u8]) -> usize
    requires { length server.now ≡ plans.name_length planned }
    ensures { Tried (name_record planned) (flat (server_record planned server.now)) out.old result out.new }
{
    match planned {
        NameLength::Bytes(n) => messages::put_body(messages::SERVER, server, out),
        NameLength::None => 0,
    }
}

fn put_port(port: Port, out: &mut [u8]) -> usize
    ensures { Tried (plans.port_record port) (flat (port_record port)) out.old result out.new }
{
    match port {
        Port::Number(n) => messages::put_one(messages::PORT, n, out),
        Port::None => 0,
    }
}

// The name, the port and what keeps the connection, of which a reply holds those that are planned.
fn put_options(plan: Plan, server: &[u8], out: &mut [u8]) -> usize
    requires { (length server.now ≡ plans.name_length plan.name) × (name_record plan.name + plans.port_record plan.port + keep_alive_record plan.keep_alive ≤ length out.old) }
    ensures { Tried (name_record plan.name + plans.port_record plan.port + keep_alive_record plan.keep_alive)
        (flat (server_record plan.name server.now ++ (port_record plan.port ++ if_asked plan.keep_alive (record_with 8 [])))) out.old result out.new }
{
    let name = plan.name;
    let port = plan.port;
    let at1 = put_server(name, server, out);
    let at2 = at1 + put_port(port, &mut out[at1..]);
    at2 + messages::put_keep_alive(plan.keep_alive, &mut out[at2..])
}

// A reply that was judged.
fn put_reply(plan: Plan, tray: &[u8], server: &[u8], out: &mut [u8]) -> usize
    requires { (l : List (List ℕ)) × (cookies_in plan.used tray.now ≡ fields l) × (length server.now ≡ plans.name_length plan.name) × (reply_length plan l ≤ length out.old) }
    ensures { (l : List (List ℕ)) → cookies_in plan.used tray.now ≡ fields l
        → Put (reply_length plan l) (message_of (reply_records plan server.now l)) out.old result out.new }
{
    let at1 = messages::put_one(messages::PROTOCOLS, plan.protocol.0, out);
    let at2 = at1 + messages::put_one(messages::ALGORITHMS, plan.algorithm.0, &mut out[at1..]);
    let at3 = at2 + put_options(plan, server, &mut out[at2..]);
    let at4 = at3 + put_fields(messages::COOKIE, tray, plan.used, &mut out[at3..]);
    at4 + messages::put_empty(messages::END, &mut out[at4..])
}

// A request that was judged.
fn put_request(
    protocols: &[u16],
    algorithms: &[u16],
    tray: &[u8],
    used: usize,
    out: &mut [u8],
) -> usize
    requires { (l : List (List ℕ)) × (names_in used tray.now ≡ fields l) × (2 * length protocols.now ≤ 65535) × (2 * length algorithms.now ≤ 65535)
        × (request_length protocols.now algorithms.now l ≤ length out.old) }
    ensures { (l : List (List ℕ)) → names_in used tray.now ≡ fields l
        → Put (request_length protocols.now algorithms.now l) (message_of (request_records protocols.now algorithms.now l)) out.old result out.new }
{
    let at1 = messages::put_list(messages::PROTOCOLS, protocols, out);
    let at2 = at1 + messages::put_list(messages::ALGORITHMS, algorithms, &mut out[at1..]);
    let at3 = at2 + put_fields(messages::DENIED, tray, used, &mut out[at2..]);
    at3 + messages::put_empty(messages::END, &mut out[at3..])
}
