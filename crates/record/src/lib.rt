// One record of the NTS key exchange: what it can be, how it is read and how it is written (the crate's src/nts/record.rs).
#![tactic(auto)]

mod write;

ghost use Rattle.std.specs.Prelude.{◌≡◌, ◌+◌, ◌/◌, ◌<◌, ◌≤◌, ◌^◌, length, take, drop};
ghost use Rattle.wire.specs.Bytes.{part_at};
ghost use Rattle.layout.specs.Table.{row_of, shape_of};
ghost use Rattle.layout.specs.Profile.{shape_in};
ghost use Rattle.record.specs.Record.{kind_of, critical_of, short, uneven, not_number, not_halves, not_utf8, first_of, not_name, fault_of, seen_of, read_at, look_at};
ghost use Rattle.record.specs.Entry.{number_in, pair_in};
ghost use Rattle.record.specs.Told.{told_fault, told_record, told_parsed, told_looked, told_number, told_protocol, told_algorithm, told_pair};

pub use layout::{Bit, ByteCount, Part, Profile, put_header};
use layout::{Layout, Row, Shape};
use nts::{
    AeadAlgorithm, AlgorithmDescription, ErrorCode, NextProtocol, NtsError, Refusal, WarningCode,
};

// A record, as the crate's NtsRecord; bodies, names and keys are parts of the message that it was read from.
#[derive(Clone, Copy)]
pub enum NtsRecord {
    EndOfMessage,
    NextProtocol(Part),
    Error(ErrorCode),
    Warning(WarningCode),
    AeadAlgorithm(Part),
    NewCookie(Part),
    Server(Part),
    Port(u16),
    KeepAlive,
    SupportedNextProtocolList(Part),
    SupportedAlgorithmList(Part),
    FixedKeyRequest {
        c2s: Part,
        s2c: Part,
    },
    NtpServerDeny(Part),
    Authentication(Part),
    Unknown {
        record_type: u16,
        critical: bool,
        data: Part,
    },
}

// A place in a message, from which the next record is read.
#[derive(Clone, Copy)]
pub struct Cursor {
    pub at: usize,
}

// A record that was read, with its critical bit as received, of every kind, and the place after it.
#[derive(Clone, Copy)]
pub struct Reading {
    pub item: NtsRecord,
    pub critical: bool,
    pub next: Cursor,
}

#[derive(Clone, Copy)]
pub enum Parsed {
    Read(Reading),
    Refused(Refusal),
}

// What a walk asks of a record that reads: its kind, its critical bit, and its body's size.
#[derive(Clone, Copy)]
pub struct Glance {
    pub kind: u16,
    pub critical: bool,
    pub size: u16,
}

#[derive(Clone, Copy)]
pub enum Looked {
    Whole(Glance),
    Refused(Refusal),
}

// What is wrong with a body.
#[derive(Clone, Copy)]
enum Fault {
    None,
    Short,
    IllFormed,
}

// What stands at an index of a list.
#[derive(Clone, Copy)]
enum NumberAt {
    Number(u16),
    Nothing,
}

#[derive(Clone, Copy)]
pub enum ProtocolAt {
    Protocol(NextProtocol),
    Nothing,
}

#[derive(Clone, Copy)]
pub enum AlgorithmAt {
    Algorithm(AeadAlgorithm),
    Nothing,
}

#[derive(Clone, Copy)]
pub enum DescriptionAt {
    Description(AlgorithmDescription),
    Nothing,
}

impl NtsRecord {
    pub const END_OF_MESSAGE: u16 = 0;

    pub const NEXT_PROTOCOL: u16 = 1;

    pub const ERROR: u16 = 2;

    pub const WARNING: u16 = 3;

    pub const AEAD_ALGORITHM: u16 = 4;

    pub const NEW_COOKIE: u16 = 5;

    pub const SERVER: u16 = 6;

    pub const PORT: u16 = 7;

    pub const KEEP_ALIVE: u16 = 8;

    pub const SUPPORTED_NEXT_PROTOCOL_LIST: u16 = 9;

    pub const SUPPORTED_ALGORITHM_LIST: u16 = 10;

    // The one number below the last known kind that no kind has.
    pub const KIND_WITHOUT_NAME: u16 = Layout::KIND_WITHOUT_NAME;

    pub const FIXED_KEY_REQUEST: u16 = 12;

    pub const NTP_SERVER_DENY: u16 = 13;

    pub const AUTHENTICATION: u16 = 14;

    // The type word's masks, and the header's length.
    pub const CRITICAL_BIT: u16 = Layout::CRITICAL_BIT;

    pub const KIND_BITS: u16 = Layout::KIND_BITS;

    pub const HEADER: usize = Layout::HEADER;

    // The record at a place of a message, with its bit as received, or its first fault at that place. A place past the end is 1 there.
    pub fn parse(message: &[u8], at: usize) -> Parsed
        ensures { told_parsed result ≡ read_at message.now at }
    {
        if message.len() < at {
            return refused(NtsError::UnexpectedEof, at);
        }
        let rest = &message[at..];
        if rest.len() < NtsRecord::HEADER {
            return refused(NtsError::UnexpectedEof, at);
        }
        let word = wire::number_at(rest, 0);
        let stated = wire::number_at(rest, 2);
        let size = stated as usize;
        let kind = kind_of(word);
        let body = there(rest, size);
        let fault = fault_of(shape_of(kind), size, body);
        match fault {
            Fault::None => {
                let start = at + NtsRecord::HEADER;
                let end = start + size;
                let critical = is_critical(word);
                let item = record_of(kind, critical, start, size, body);
                Parsed::Read(Reading {
                    item,
                    critical,
                    next: Cursor { at: end },
                })
            }
            Fault::Short => refused(NtsError::UnexpectedEof, at),
            Fault::IllFormed => refused(NtsError::InvalidData, at),
        }
    }
}

impl Cursor {
    // The cursor at a message's first record.
    pub fn new() -> Cursor
        ensures { result.at ≡ 0 }
    {
        Cursor { at: 0 }
    }

    // The record at the cursor, with the cursor after it.
    pub fn read(self, message: &[u8]) -> Parsed
        ensures { told_parsed result ≡ read_at message.now self.at }
    {
        NtsRecord::parse(message, self.at)
    }
}

// The record at a place of a message, as far as a walk asks for it, in a profile. `parse` refuses as it does in the usual one, and otherwise hands out the record.
pub fn look(profile: Profile, message: &[u8], at: usize) -> Looked
    ensures { told_looked result ≡ look_at (shape_in profile) message.now at }
{
    if message.len() < at {
        return unseen(NtsError::UnexpectedEof, at);
    }
    let rest = &message[at..];
    if rest.len() < NtsRecord::HEADER {
        return unseen(NtsError::UnexpectedEof, at);
    }
    let word = wire::number_at(rest, 0);
    let size = wire::number_at(rest, 2);
    let kind = kind_of(word);
    let body = there(rest, size as usize);
    let fault = fault_of(shape_of(profile.taken(kind)), size as usize, body);
    match fault {
        Fault::None => Looked::Whole(Glance {
            kind,
            critical: is_critical(word),
            size,
        }),
        Fault::Short => unseen(NtsError::UnexpectedEof, at),
        Fault::IllFormed => unseen(NtsError::InvalidData, at),
    }
}

fn unseen(error: NtsError, place: usize) -> Looked
    ensures { result ≡ Looked.Refused (record { error = error; place = place }) }
{
    Looked::Refused(Refusal { error, place })
}

fn refused(error: NtsError, place: usize) -> Parsed
    ensures { result ≡ Parsed.Refused (record { error = error; place = place }) }
{
    Parsed::Refused(Refusal { error, place })
}

fn kind_of(word: u16) -> u16
    ensures { result ≡ kind_of word }
{
    word & NtsRecord::KIND_BITS
}

fn is_critical(word: u16) -> bool
    ensures { result ≡ critical_of word }
{
    word & NtsRecord::CRITICAL_BIT != 0
}

// What is there of a body of this size, after the header.
fn there(rest: &[u8], size: usize) -> &[u8]
    requires { 4 ≤ length rest.now }
    ensures { result.now ≡ take size (drop 4 rest.now) }
{
    if rest.len() - NtsRecord::HEADER < size {
        return &rest[NtsRecord::HEADER..];
    }
    let end = NtsRecord::HEADER + size;
    &rest[NtsRecord::HEADER..end]
}

// 01's table by kind, from which reading and writing both take.
fn row_of(kind: u16) -> Row
    ensures { result ≡ row_of kind }
{
    match kind {
        NtsRecord::END_OF_MESSAGE => row(Shape::Skipped, Bit::Set),
        NtsRecord::NEXT_PROTOCOL => row(Shape::Numbers, Bit::Set),
        NtsRecord::ERROR => row(Shape::Number, Bit::Set),
        NtsRecord::WARNING => row(Shape::Number, Bit::Set),
        NtsRecord::AEAD_ALGORITHM => row(Shape::Numbers, Bit::Set),
        NtsRecord::NEW_COOKIE => row(Shape::Bytes, Bit::Clear),
        NtsRecord::SERVER => row(Shape::Name, Bit::Set),
        NtsRecord::PORT => row(Shape::Number, Bit::Set),
        NtsRecord::KEEP_ALIVE => row(Shape::Skipped, Bit::Clear),
        NtsRecord::SUPPORTED_NEXT_PROTOCOL_LIST => row(Shape::Numbers, Bit::Set),
        NtsRecord::SUPPORTED_ALGORITHM_LIST => row(Shape::Pairs, Bit::Set),
        NtsRecord::FIXED_KEY_REQUEST => row(Shape::Halves, Bit::Set),
        NtsRecord::NTP_SERVER_DENY => row(Shape::Name, Bit::Clear),
        NtsRecord::AUTHENTICATION => row(Shape::Name, Bit::Clear),
        _ => row(Shape::Unknown, Bit::Given),
    }
}

fn row(body: Shape, bit: Bit) -> Row
    ensures { result ≡ record { body = body; bit = bit } }
{
    Row { body, bit }
}

fn shape_of(kind: u16) -> Shape
    ensures { result ≡ shape_of kind }
{
    row_of(kind).body
}

// The fault of a body that is to be `size` bytes long and of which `body` is there.
fn fault_of(shape: Shape, size: usize, body: &[u8]) -> Fault
    ensures { told_fault result ≡ fault_of shape size body.now }
{
    let there = body.len();
    match shape {
        Shape::Skipped => whole_fault(size, there),
        Shape::Numbers => list_fault(2, size, there),
        Shape::Number => number_fault(size, there),
        Shape::Bytes => whole_fault(size, there),
        Shape::Name => name_fault(size, body),
        Shape::Pairs => list_fault(4, size, there),
        Shape::Halves => halves_fault(size, there),
        Shape::Unknown => whole_fault(size, there),
    }
}

fn whole_fault(size: usize, there: usize) -> Fault
    ensures { told_fault result ≡ short size there }
{
    if there < size {
        return Fault::Short;
    }
    Fault::None
}

// A list of entries of `unit` bytes each.
fn list_fault(unit: usize, size: usize, there: usize) -> Fault
    requires { 0 < unit }
    ensures { told_fault result ≡ uneven unit size there }
{
    if size % unit == 0 {
        return whole_fault(size, there);
    }
    Fault::Short
}

// A third byte too many is ill-formed, even where it is missing.
fn number_fault(size: usize, there: usize) -> Fault
    ensures { told_fault result ≡ not_number size there }
{
    if there < 2 {
        return Fault::Short;
    }
    if size == 2 {
        return Fault::None;
    }
    Fault::IllFormed
}

fn halves_fault(size: usize, there: usize) -> Fault
    ensures { told_fault result ≡ not_halves size there }
{
    if there < 2 * (size / 2) {
        return Fault::Short;
    }
    if size % 2 == 0 {
        return Fault::None;
    }
    Fault::IllFormed
}

// What is there of a name is looked at first, and then whether all of it is there.
fn name_fault(size: usize, body: &[u8]) -> Fault
    ensures { told_fault result ≡ not_name size body.now }
{
    let formed = utf8_fault(body);
    let whole = whole_fault(size, body.len());
    first_of(formed, whole)
}

fn utf8_fault(body: &[u8]) -> Fault
    ensures { told_fault result ≡ not_utf8 body.now }
{
    if utf8::is_utf8(body) {
        return Fault::None;
    }
    Fault::IllFormed
}

// A fault, or where there is none the next one.
fn first_of(fault: Fault, next: Fault) -> Fault
    ensures { told_fault result ≡ first_of (told_fault fault) (told_fault next) }
{
    match fault {
        Fault::None => next,
        Fault::Short => fault,
        Fault::IllFormed => fault,
    }
}

// The record of a kind whose body, `size` bytes from `start` on, has no fault.
fn record_of(kind: u16, bit: bool, start: usize, size: usize, body: &[u8]) -> NtsRecord
    requires { start + size < 2 ^ 64 }
    ensures { told_record result ≡ seen_of kind bit start size body.now }
{
    let data = Part { start, len: size };
    match kind {
        NtsRecord::END_OF_MESSAGE => NtsRecord::EndOfMessage,
        NtsRecord::NEXT_PROTOCOL => NtsRecord::NextProtocol(data),
        NtsRecord::ERROR => NtsRecord::Error(ErrorCode(wire::number_at(body, 0))),
        NtsRecord::WARNING => NtsRecord::Warning(WarningCode(wire::number_at(body, 0))),
        NtsRecord::AEAD_ALGORITHM => NtsRecord::AeadAlgorithm(data),
        NtsRecord::NEW_COOKIE => NtsRecord::NewCookie(data),
        NtsRecord::SERVER => NtsRecord::Server(data),
        NtsRecord::PORT => NtsRecord::Port(wire::number_at(body, 0)),
        NtsRecord::KEEP_ALIVE => NtsRecord::KeepAlive,
        NtsRecord::SUPPORTED_NEXT_PROTOCOL_LIST => NtsRecord::SupportedNextProtocolList(data),
        NtsRecord::SUPPORTED_ALGORITHM_LIST => NtsRecord::SupportedAlgorithmList(data),
        NtsRecord::FIXED_KEY_REQUEST => halves_of(start, size),
        NtsRecord::NTP_SERVER_DENY => NtsRecord::NtpServerDeny(data),
        NtsRecord::AUTHENTICATION => NtsRecord::Authentication(data),
        _ => NtsRecord::Unknown {
            record_type: kind,
            critical: bit,
            data,
        },
    }
}

// A key record's two halves, client to server first.
fn halves_of(start: usize, size: usize) -> NtsRecord
    requires { start + size < 2 ^ 64 }
    ensures { result ≡ NtsRecord.FixedKeyRequest (record { start = start; len = size / 2 }) (record { start = start + size / 2; len = size / 2 }) }
{
    let half = size / 2;
    NtsRecord::FixedKeyRequest {
        c2s: Part { start, len: half },
        s2c: Part {
            start: start + half,
            len: half,
        },
    }
}

// The number at an index of a list of them; nothing past its last whole number.
fn number_in(list: &[u8], index: usize) -> NumberAt
    ensures { told_number result ≡ number_in list.now index }
{
    if index < list.len() / 2 {
        return NumberAt::Number(wire::number_at(list, 2 * index));
    }
    NumberAt::Nothing
}

// The protocol at an index of a list of protocols.
pub fn protocol_at(message: &[u8], list: Part, index: usize) -> ProtocolAt
    ensures { told_protocol result ≡ number_in (part_at message.now list.start list.len) index }
{
    let entry = number_in(list.of(message), index);
    match entry {
        NumberAt::Number(n) => ProtocolAt::Protocol(NextProtocol(n)),
        NumberAt::Nothing => ProtocolAt::Nothing,
    }
}

// The algorithm at an index of a list of algorithms.
pub fn algorithm_at(message: &[u8], list: Part, index: usize) -> AlgorithmAt
    ensures { told_algorithm result ≡ number_in (part_at message.now list.start list.len) index }
{
    let entry = number_in(list.of(message), index);
    match entry {
        NumberAt::Number(n) => AlgorithmAt::Algorithm(AeadAlgorithm(n)),
        NumberAt::Nothing => AlgorithmAt::Nothing,
    }
}

// The algorithm and its key size at an index of a list of such pairs.
pub fn description_at(message: &[u8], list: Part, index: usize) -> DescriptionAt
    ensures { told_pair result ≡ pair_in (part_at message.now list.start list.len) index }
{
    let bytes = list.of(message);
    if index < bytes.len() / 4 {
        let at = 4 * index;
        return DescriptionAt::Description(AlgorithmDescription {
            id: AeadAlgorithm(wire::number_at(bytes, at)),
            keysize: wire::number_at(bytes, at + 2),
        });
    }
    DescriptionAt::Nothing
}
