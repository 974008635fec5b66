// The records of which whole messages are made: the type words that are written, and a writer for each form of a record. Each is total: without
// room, or with a body that is too long, it answers 0 and writes nothing.
#![tactic(auto)]

ghost use Rattle.std.specs.Prelude.{◌≡◌, [], ◌*◌, ◌≤◌, length};
ghost use Rattle.wire.specs.Over.{bytes_of, Put, Tried};
ghost use Rattle.walk.specs.Message.{flat};
ghost use Rattle.plan.specs.Plan.{keep_alive_record};
ghost use Rattle.messages.specs.Messages.{record_of, short_record, cell_bytes, if_asked, record_with, too_long};

use record::NtsRecord;

// What a support reply is to hold.
#[derive(Clone, Copy)]
pub struct Asked {
    pub algorithms: bool,
    pub protocols: bool,
    pub keep_alive: bool,
}

// The type words that are written.
pub const END: u16 = NtsRecord::END_OF_MESSAGE + NtsRecord::CRITICAL_BIT;

pub const PROTOCOLS: u16 = NtsRecord::NEXT_PROTOCOL + NtsRecord::CRITICAL_BIT;

pub const ERROR: u16 = NtsRecord::ERROR + NtsRecord::CRITICAL_BIT;

pub const ALGORITHMS: u16 = NtsRecord::AEAD_ALGORITHM + NtsRecord::CRITICAL_BIT;

pub const COOKIE: u16 = NtsRecord::NEW_COOKIE;

pub const SERVER: u16 = NtsRecord::SERVER + NtsRecord::CRITICAL_BIT;

pub const PORT: u16 = NtsRecord::PORT + NtsRecord::CRITICAL_BIT;

pub const KEEP_ALIVE: u16 = NtsRecord::KEEP_ALIVE;

pub const SUPPORTED_PROTOCOLS: u16 = NtsRecord::SUPPORTED_NEXT_PROTOCOL_LIST
    + NtsRecord::CRITICAL_BIT;

pub const SUPPORTED_ALGORITHMS: u16 = NtsRecord::SUPPORTED_ALGORITHM_LIST + NtsRecord::CRITICAL_BIT;

pub const DENIED: u16 = NtsRecord::NTP_SERVER_DENY;

// The longest body, the bytes of one number, and the length of a record that holds one.
const LONGEST: usize = 65535;

pub const NUMBER: usize = 2;

pub const NUMBER_RECORD: usize = 6;

// Whether a list of numbers is longer than a body may be.
pub fn too_long(cells: &[u16]) -> bool
    ensures { result ≡ too_long (2 * length cells.now) }
{
    LONGEST / NUMBER < cells.len()
}

// A record with no body.
pub fn put_empty(word: u16, out: &mut [u8]) -> usize
    ensures { Tried 4 (record_of word []) out.old result out.new }
{
    record::put_header(word, 0, out)
}

// A record that holds one number.
pub fn put_one(word: u16, n: u16, out: &mut [u8]) -> usize
    ensures { Tried 6 (record_of word (bytes_of n)) out.old result out.new }
{
    if out.len() < NUMBER_RECORD {
        return 0;
    }
    let at = record::put_header(word, 2, out);
    at + wire::put_number(n, &mut out[at..])
}

// A record with a body of bytes.
pub fn put_body(word: u16, body: &[u8], out: &mut [u8]) -> usize
    ensures { Tried (length (short_record word body.now)) (short_record word body.now) out.old result out.new }
{
    if LONGEST < body.len() {
        return 0;
    }
    if out.len() < NtsRecord::HEADER + body.len() {
        return 0;
    }
    let at = record::put_header(word, body.len() as u16, out);
    at + wire::put_bytes(body, &mut out[at..])
}

// A record that holds a list of numbers, from the host's cells.
pub fn put_list(word: u16, cells: &[u16], out: &mut [u8]) -> usize
    ensures { Tried (length (short_record word (cell_bytes cells.now))) (short_record word (cell_bytes cells.now)) out.old result out.new }
{
    if too_long(cells) {
        return 0;
    }
    let size = NUMBER * cells.len();
    if out.len() < NtsRecord::HEADER + size {
        return 0;
    }
    let at = record::put_header(word, size as u16, out);
    at + put_cells(cells, &mut out[at..])
}

fn put_cells(cells: &[u16], out: &mut [u8]) -> usize
    requires { 2 * length cells.now ≤ length out.old }
    ensures { Put (2 * length cells.now) (cell_bytes cells.now) out.old result out.new }
{
    let mut i: usize = 0;
    let mut at: usize = 0;
    while i < cells.len() {
        at = at + wire::put_number(cells[i], &mut out[at..]);
        i = i + 1;
    }
    at
}

// The record that keeps a connection, if it is asked for.
pub fn put_keep_alive(asked: bool, out: &mut [u8]) -> usize
    ensures { Tried (keep_alive_record asked) (flat (if_asked asked (record_with 8 []))) out.old result out.new }
{
    if asked {
        return put_empty(KEEP_ALIVE, out);
    }
    0
}
