// Where the bodies of a message's records of one kind lie: the lent table of 16-bit cells, two a record, start and length.
#![tactic(auto)]

ghost use Rattle.std.specs.Prelude.{◌≡◌, ◌*◌, ◌<◌, ◌≤◌, length, drop};
ghost use Rattle.walk.specs.Judge.{some};
ghost use Rattle.places.specs.Places.{EntryOf, places_from, Holds, Fills};

use nts::{NtsError, Refusal};
use record::NtsRecord;

// The most that a cell counts.
const CELL: usize = 65535;

// All of them were stored, so many; the first so many, and more follow; or none.
#[derive(Clone, Copy)]
pub enum Filled {
    Stored(usize),
    First(usize),
    Refused(Refusal),
}

// How many were stored, and the place behind the last record that was passed.
#[derive(Clone, Copy)]
struct Held {
    count: usize,
    at: usize,
}

// The body at an index of a table that was filled from the message; empty where the index or the cells point outside.
pub fn entry<'a>(message: &'a [u8], table: &[u16], index: usize) -> &'a [u8]
    ensures { EntryOf message.entry table.now index result }
{
    if index < table.len() / 2 {
        let at = 2 * index;
        let next = at + 1;
        return wire::part(message, table[at] as usize, table[next] as usize);
    }
    // a last cell that has no length behind it
    if index < (table.len() + 1) / 2 {
        let last = 2 * index;
        return wire::part(message, table[last] as usize, 0);
    }
    wire::part(message, 0, 0)
}

// Puts the bodies of the first `count` records of one kind into the table, and tells how many it found, and whether more follow: of the bytes
// that a walk covered, whole records one after the other, among which the walk counted so many. 7, at the place behind those bytes, where the
// table has no room for so many, or the bytes are more than a cell can count; then no cell changes. It reads headers alone: the walk has judged
// the bodies.
pub fn fill(covered: &[u8], kind: u16, count: usize, table: &mut [u16]) -> Filled
    ensures { Fills kind count covered.now table.old result table.new }
{
    if CELL < covered.len() {
        return full(covered.len());
    }
    if table.len() / 2 < count {
        return full(covered.len());
    }
    let held = store(covered, kind, count, table);
    if follows(covered, held.at, kind) {
        return Filled::First(held.count);
    }
    Filled::Stored(held.count)
}

// The table does not hold them: refused at a place.
fn full(place: usize) -> Filled
    ensures { result ≡ Filled.Refused (record { error = NtsError.TableFull; place = place }) }
{
    Filled::Refused(Refusal {
        error: NtsError::TableFull,
        place,
    })
}

// Puts where their bodies lie into the table, which has room for so many, and tells how many they are, and where it stopped.
fn store(covered: &[u8], kind: u16, count: usize, table: &mut [u16]) -> Held
    requires { (length covered.now < 65536) × (2 * count ≤ length table.old) }
    ensures { Holds kind count covered.now table.old result.count result.at table.new }
{
    let mut at: usize = 0;
    let mut n: usize = 0;
    loop {
        if n == count {
            return Held { count: n, at };
        }
        let start = at + NtsRecord::HEADER;
        if covered.len() < start {
            return Held { count: n, at };
        }
        let size = wire::number_at(covered, at + 2);
        let next = start + size as usize;
        if covered.len() < next {
            return Held { count: n, at };
        }
        if wire::number_at(covered, at) & NtsRecord::KIND_BITS == kind {
            let to = 2 * n;
            let behind = to + 1;
            table[to] = start as u16;
            table[behind] = size;
            n += 1;
        }
        at = next;
    }
}

// Whether a record of the kind is there from a place on, at which a record begins.
fn follows(covered: &[u8], at: usize, kind: u16) -> bool
    requires { (at ≤ length covered.now) × (length covered.now < 65536) }
    ensures { result ≡ some (places_from kind at 0 (drop at covered.now)) }
{
    let mut here: usize = at;
    loop {
        let body = here + NtsRecord::HEADER;
        if covered.len() < body {
            return false;
        }
        let size = wire::number_at(covered, here + 2);
        let behind = body + size as usize;
        if covered.len() < behind {
            return false;
        }
        if wire::number_at(covered, here) & NtsRecord::KIND_BITS == kind {
            return true;
        }
        here = behind;
    }
}
