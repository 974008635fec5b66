// A reply plan, by value, and the tray of cookies that is lent with it. Either may be made by hand, so every call judges what it gets.
#![tactic(auto)]

ghost use Rattle.std.specs.Prelude.{◌≡◌, true, false, ◌+◌, ◌*◌, ◌<◌, ◌≤◌, ◌^◌, [], ◌∷◌, length};
ghost use Rattle.wire.specs.Over.{bytes_of, Put};
ghost use Rattle.layout.specs.Write.{told_count};
ghost use Rattle.plan.specs.Tray.{fields_in, cookies_in, field_bytes, room_for, grown_tray, Denies};
ghost use Rattle.plan.specs.Code.{counted, told_tally};
ghost use Rattle.plan.specs.Plan.{started, with_port, with_name, with_keep_alive, name_record, port_record, keep_alive_record, plan_length, Appends};

use nts::{AeadAlgorithm, NextProtocol, NtsError};
use record::{ByteCount, NtsRecord};

// The port, if one is planned.
#[derive(Clone, Copy)]
pub enum Port {
    Number(u16),
    None,
}

// The length of the server's name, if one is planned.
#[derive(Clone, Copy)]
pub enum NameLength {
    Bytes(u16),
    None,
}

#[derive(Clone, Copy)]
pub struct Plan {
    pub protocol: NextProtocol,
    pub algorithm: AeadAlgorithm,
    pub port: Port,
    pub name: NameLength,
    pub keep_alive: bool,
    pub used: usize,
}

#[derive(Clone, Copy)]
pub enum Appended {
    Plan(Plan),
    Refused(NtsError),
}

// How many fields a tray has, and how many bytes their bodies have.
#[derive(Clone, Copy)]
pub struct Whole {
    pub fields: usize,
    pub bytes: usize,
}

#[derive(Clone, Copy)]
pub enum Tally {
    Whole(Whole),
    Broken,
}

impl Plan {
    // The most cookies that a plan's tray holds.
    pub const COOKIES: usize = 8;

    // A field's tags, and the bytes before its body.
    pub const COOKIE: u8 = 1;

    pub const DENIED: u8 = 2;

    pub const FIELD_HEADER: usize = 3;

    // A plan with a protocol and an algorithm, and nothing else.
    pub fn new(protocol: NextProtocol, algorithm: AeadAlgorithm) -> Plan
        ensures { result ≡ started protocol algorithm }
    {
        Plan {
            protocol,
            algorithm,
            port: Port::None,
            name: NameLength::None,
            keep_alive: false,
            used: 0,
        }
    }

    pub fn set_port(self, port: u16) -> Plan
        ensures { result ≡ with_port self (Port.Number port) }
    {
        with_port(self, Port::Number(port))
    }

    pub fn clear_port(self) -> Plan
        ensures { result ≡ with_port self Port.None }
    {
        with_port(self, Port::None)
    }

    pub fn set_name_length(self, length: u16) -> Plan
        ensures { result ≡ with_name self (NameLength.Bytes length) }
    {
        with_name(self, NameLength::Bytes(length))
    }

    pub fn clear_name_length(self) -> Plan
        ensures { result ≡ with_name self NameLength.None }
    {
        with_name(self, NameLength::None)
    }

    pub fn set_keep_alive(self) -> Plan
        ensures { result ≡ with_keep_alive self true }
    {
        let mut plan = self;
        plan.keep_alive = true;
        plan
    }

    pub fn clear_keep_alive(self) -> Plan
        ensures { result ≡ with_keep_alive self false }
    {
        let mut plan = self;
        plan.keep_alive = false;
        plan
    }

    // A cookie more in the tray, behind the used part: 9 for a broken tray, then 8, 7 for the ninth, 10 for no room. Only the bytes of the
    // field that is added change.
    pub fn append(self, cookie: &[u8], tray: &mut [u8]) -> Appended
        ensures { Appends self cookie.now tray.old result tray.new }
    {
        let used = self.used;
        let tally = cookies(tray, used);
        let Tally::Whole(whole) = tally else {
            return Appended::Refused(NtsError::InvalidValue);
        };
        if LONGEST < cookie.len() {
            return Appended::Refused(NtsError::InvalidInput);
        }
        if Plan::COOKIES <= whole.fields {
            return Appended::Refused(NtsError::TableFull);
        }
        let count = append_field(Plan::COOKIE, cookie, tray, used);
        match count {
            ByteCount::Bytes(n) => {
                let mut plan = self;
                plan.used = n;
                Appended::Plan(plan)
            }
            ByteCount::Refused(error) => Appended::Refused(error),
        }
    }

    // The reply's written length, found by a walk over the tray: 9 for a broken one, and nothing else.
    pub fn length(self, tray: &[u8]) -> ByteCount
        ensures { told_count result ≡ plan_length self tray.now }
    {
        let tally = cookies(tray, self.used);
        match tally {
            Tally::Whole(whole) => ByteCount::Bytes(written_length(self, whole)),
            Tally::Broken => ByteCount::Refused(NtsError::InvalidValue),
        }
    }
}

// The longest body of a record, and the length of a record that holds one number.
const LONGEST: usize = 65535;

const NUMBER_RECORD: usize = 6;

fn with_port(plan: Plan, port: Port) -> Plan
    ensures { result ≡ with_port plan port }
{
    let protocol = plan.protocol;
    let algorithm = plan.algorithm;
    let name = plan.name;
    Plan {
        protocol,
        algorithm,
        port,
        name,
        keep_alive: plan.keep_alive,
        used: plan.used,
    }
}

fn with_name(plan: Plan, name: NameLength) -> Plan
    ensures { result ≡ with_name plan name }
{
    let protocol = plan.protocol;
    let algorithm = plan.algorithm;
    let port = plan.port;
    Plan {
        protocol,
        algorithm,
        port,
        name,
        keep_alive: plan.keep_alive,
        used: plan.used,
    }
}

// A denied name more in a request's tray, behind the used part: how many bytes are used then, or 9 for a broken tray and for a name that is not UTF-8, then 8, then
// 10 for no room. Only the bytes of the field that is added change.
pub fn append_denied(name: &[u8], tray: &mut [u8], used: usize) -> ByteCount
    ensures { Denies used name.now tray.old result tray.new }
{
    let tally = walk_tray(Plan::DENIED, tray, used);
    let Tally::Whole(_) = tally else {
        return ByteCount::Refused(NtsError::InvalidValue);
    };
    if utf8::is_utf8(name) {
        if LONGEST < name.len() {
            return ByteCount::Refused(NtsError::InvalidInput);
        }
        return append_field(Plan::DENIED, name, tray, used);
    }
    ByteCount::Refused(NtsError::InvalidValue)
}

// A walk over the used part of a tray whose fields all have the tag.
pub fn walk_tray(tag: u8, tray: &[u8], used: usize) -> Tally
    ensures { told_tally result ≡ counted (fields_in tag used tray.now) }
{
    if tray.len() < used {
        return Tally::Broken;
    }
    let mut at: usize = 0;
    let mut fields: usize = 0;
    let mut bytes: usize = 0;
    while at < used {
        if wire::byte_at(tray, at) != tag {
            return Tally::Broken;
        }
        if used - at < Plan::FIELD_HEADER {
            return Tally::Broken;
        }
        let size = wire::number_at(tray, at + 1) as usize;
        if used - at - Plan::FIELD_HEADER < size {
            return Tally::Broken;
        }
        at = at + Plan::FIELD_HEADER + size;
        fields = fields + 1;
        bytes = bytes + size;
    }
    Tally::Whole(Whole { fields, bytes })
}

// The walk over a plan's tray, which holds cookies, and not more than eight.
fn cookies(tray: &[u8], used: usize) -> Tally
    ensures { told_tally result ≡ counted (cookies_in used tray.now) }
{
    let tally = walk_tray(Plan::COOKIE, tray, used);
    let Tally::Whole(whole) = tally else {
        return tally;
    };
    if Plan::COOKIES < whole.fields {
        return Tally::Broken;
    }
    tally
}

// A field behind the used part: how many bytes are used then, or 10 for no room.
fn append_field(tag: u8, body: &[u8], tray: &mut [u8], used: usize) -> ByteCount
    requires { (used ≤ length tray.old) × (length body.now ≤ 65535) }
    ensures { (told_count result ≡ room_for (length tray.old) used (length body.now))
        × (tray.new ≡ grown_tray (room_for (length tray.old) used (length body.now)) tag used body.now tray.old) }
{
    let size = Plan::FIELD_HEADER + body.len();
    if tray.len() - used < size {
        return ByteCount::Refused(NtsError::OutputTooShort);
    }
    let written = put_field(tag, body, &mut tray[used..]);
    ByteCount::Bytes(used + written)
}

// A field at the front of a tray's rest that has room for it: how many bytes that is.
fn put_field(tag: u8, body: &[u8], out: &mut [u8]) -> usize
    requires { (length body.now ≤ 65535) × (3 + length body.now ≤ length out.old) }
    ensures { Put (3 + length body.now) (field_bytes tag body.now) out.old result out.new }
{
    let at = put_header(tag, body.len() as u16, out);
    at + wire::put_bytes(body, &mut out[at..])
}

// A field's tag and length.
fn put_header(tag: u8, size: u16, out: &mut [u8]) -> usize
    requires { 3 ≤ length out.old }
    ensures { Put 3 (tag ∷ bytes_of size) out.old result out.new }
{
    let at = put_tag(tag, out);
    at + wire::put_number(size, &mut out[at..])
}

fn put_tag(tag: u8, out: &mut [u8]) -> usize
    requires { 1 ≤ length out.old }
    ensures { Put 1 (tag ∷ []) out.old result out.new }
{
    out[0] = tag;
    1
}

fn written_length(plan: Plan, whole: Whole) -> usize
    requires { (whole.fields ≤ 8) × (whole.bytes < 2 ^ 63) }
    ensures { result ≡ (4 + 2) + (4 + 2) + name_record plan.name + port_record plan.port + keep_alive_record plan.keep_alive + (4 * whole.fields + whole.bytes) + 4 }
{
    let planned_name = plan.name;
    let planned_port = plan.port;
    let lists = NUMBER_RECORD + NUMBER_RECORD;
    let options = name_length(planned_name)
        + port_length(planned_port)
        + keep_alive_length(plan.keep_alive);
    let cookies = NtsRecord::HEADER * whole.fields + whole.bytes;
    lists + options + cookies + NtsRecord::HEADER
}

fn name_length(name: NameLength) -> usize
    ensures { (result ≡ name_record name) × (result ≤ 65539) }
{
    match name {
        NameLength::Bytes(n) => NtsRecord::HEADER + n as usize,
        NameLength::None => 0,
    }
}

fn port_length(port: Port) -> usize
    ensures { (result ≡ port_record port) × (result ≤ 6) }
{
    match port {
        Port::Number(_) => NUMBER_RECORD,
        Port::None => 0,
    }
}

fn keep_alive_length(keep_alive: bool) -> usize
    ensures { (result ≡ keep_alive_record keep_alive) × (result ≤ 4) }
{
    if keep_alive { NtsRecord::HEADER } else { 0 }
}
