// The walk over a message, one loop for every reader: a reader is a table that says by kind what is done with a record, and what the walk hands back
// is a finding. Definitions that are the same for every reader stand in specs/, what holds for every reader in proofs/.
#![tactic(auto)]

ghost use Rattle.std.specs.Prelude.{◌≡◌, ◌+◌, ◌<◌, ◌≤◌, ◌^◌, length, take, drop, cond, ◌&&◌, eqb};
ghost use Rattle.layout.specs.Table.{shape_of};
ghost use Rattle.wire.specs.Bytes.{number_at};
ghost use Rattle.walk.specs.Walk.{CutOf};
ghost use Rattle.walk.specs.Judge.{some};
ghost use Rattle.walk.specs.Shown.{slot_of};
ghost use Rattle.nts.specs.Refusal.{number_of, beside_of, beside_number, told_code};
ghost use Rattle.walk.specs.Rules.{Rules, reader_of};
ghost use Rattle.walk.specs.Found.{entry_in, told_in, way_by, Walks};
ghost use Rattle.walk.specs.Finding.{same_numbers, sort_in, same_beside, same_way, same_found, found_by, as_finding, told_finding};
ghost use Rattle.walk.specs.Met.{is_met, with_met, passing, ends, told_passed};
ghost use Rattle.walk.specs.Code.{error_of, at_most, ruled_of, unknown_of, meant_of, ended_in, more_in, Few, looked_of, Views, Steps};

use nts::{Code, ErrorCode, NtsError, WarningCode};
use record::{Looked, NtsRecord, Part, Profile};

// What a table's entry says of a record of its kind: it ends the message; it is passed over; it is noted; it is noted, and a second one is refused
// with 4; the same, with at most one entry; it is refused with 11 or 12 and its code; it is refused with 4, as by any other number.
pub const ENDING: u8 = 0;

pub const PASSED: u8 = 1;

pub const NOTED: u8 = 2;

pub const ONCE: u8 = 3;

pub const SINGLE: u8 = 4;

pub const TOLD: u8 = 5;

pub const REFUSED: u8 = 6;

// How many kinds have an entry: those up to 14. Kinds that the profile does not know are not asked of the table, and count under the one number below that no kind has.
const KINDS: usize = 15;

const UNKNOWN: usize = 11;

// The bytes of one entry of a list.
const ENTRY: u16 = 2;

// The records of one kind that were met: how many, and where the first one's body lies.
#[derive(Clone, Copy)]
pub struct Seen {
    pub count: u16,
    pub start: u16,
    pub len: u16,
}

impl Seen {
    // The first one's body.
    pub fn body(self) -> Part
        ensures { result ≡ record { start = self.start; len = self.len } }
    {
        Part {
            start: self.start as usize,
            len: self.len as usize,
        }
    }
}

#[derive(Clone, Copy)]
pub enum Stop {
    End,
    Refused(NtsError),
}

// How a walk went: under which limit, the place of the record that stopped it, and why.
#[derive(Clone, Copy)]
pub struct Walked {
    pub limit: u16,
    pub place: usize,
    pub stop: Stop,
}

// What a walk hands back: the limit under which it went; what it found, three cells a kind: how many records were met, and start and length of the
// first one's body; the place of the record that stopped it, and why.
#[derive(Clone, Copy)]
pub struct Finding {
    pub limit: u16,
    pub cells: [u16; 45],
    pub place: usize,
    pub stop: Stop,
}

impl Finding {
    // Whether two findings are the same, number by number.
    pub fn is_same(self, other: Finding) -> bool
        ensures { result ≡ same_found (told_finding self) (told_finding other) }
    {
        let stop = self.stop;
        let also = other.stop;
        let cells = self.cells;
        let others = other.cells;
        (self.limit == other.limit)
            & same_stop(self.place, stop, other.place, also)
            & same_numbers(&cells, &others)
    }
}

// Whether a walk goes on past a record: with its kind met as well, a bit a kind; or it stops with it.
#[derive(Clone, Copy)]
pub enum Passed {
    On(u16),
    Stopped,
}

// Where a walk has stopped, and why; and the place after the end record, where that stopped it.
#[derive(Clone, Copy)]
struct Halted {
    place: usize,
    next: usize,
    stop: Stop,
}

// What one record does to a walk.
#[derive(Clone, Copy)]
enum Verdict {
    On,
    End,
    Stop(NtsError),
}

// What a walk sees of a record: where its kind stands, its critical bit and its body's size, of one that the profile allows or of one that it does not; or, of one that does not read, what that does to the walk.
#[derive(Clone, Copy)]
enum View {
    Whole {
        slot: usize,
        critical: bool,
        size: u16,
    },
    NotAllowed {
        slot: usize,
        critical: bool,
        size: u16,
    },
    Unread(Verdict),
}

// One step: the verdict, and where it lets the walk go on the place after the record.
#[derive(Clone, Copy)]
struct Stepped {
    verdict: Verdict,
    next: usize,
}

// The bytes of a message that a limit leaves.
pub fn cut_at(message: &[u8], limit: u16) -> &[u8]
    ensures { CutOf message.entry limit result }
{
    let n = limit as usize;
    if n < message.len() {
        return &message[0..n];
    }
    &message[0..]
}

// The walk by a table in a profile over a message as if it were cut after `limit` bytes: record after record, until one is refused or the first that ends it; then a
// byte that follows, where the profile lets none. What it found goes into the cells, so that a reader which has no other use for a finding does not pay for its copies. A
// record that is refused counts; one that does not read does not.
pub fn walk(
    profile: Profile,
    rules: &[u8; 15],
    message: &[u8],
    limit: u16,
    cells: &mut [u16; 45],
) -> Walked
    ensures { told_finding (as_finding result cells.new) ≡ found_by (reader_of (record { profile = profile; entries = rules.now })) message.now limit }
{
    let cut = cut_at(message, limit);
    let halted = walk_cut(profile, rules, cut, cells);
    let place = halted.place;
    let stop = halted.stop;
    match stop {
        Stop::End => ended(profile, limit, place, halted.next, cut.len()),
        Stop::Refused(_) => Walked { limit, place, stop },
    }
}

// What a walk found of a kind, or of all unknown ones.
pub fn found(cells: &[u16; 45], kind: u16) -> Seen
    ensures { result ≡ entry_in cells.now (slot_of shape_of kind) }
{
    let c = slot_of(kind) * 3;
    let d = c + 1;
    let e = c + 2;
    Seen {
        count: cells[c],
        start: cells[d],
        len: cells[e],
    }
}

// Whether a walk met a record of a kind.
pub fn is_there(cells: &[u16; 45], kind: u16) -> bool
    ensures { result ≡ some (told_in cells.now (slot_of shape_of kind)) }
{
    if found(cells, kind).count == 0 {
        return false;
    }
    true
}

// One record of a walk that has met the kinds in `met` before it: the one at a place, by a table in a profile. So a walk can be taken up again where it was left.
pub fn pass(profile: Profile, rules: &[u8; 15], bytes: &[u8], at: usize, met: u16) -> Passed
    ensures { told_passed result ≡ passing (reader_of (record { profile = profile; entries = rules.now })) met (drop at bytes.now) }
{
    let view = view_at(profile, bytes, at);
    match view {
        View::Whole {
            slot,
            critical,
            size,
        } => {
            let before = met_before(met, slot);
            let start = at + NtsRecord::HEADER;
            let verdict = meant(rules[slot], slot, critical, before, bytes, start, size);
            match verdict {
                Verdict::On => Passed::On(with_met(met, slot)),
                Verdict::End => Passed::Stopped,
                Verdict::Stop(_) => Passed::Stopped,
            }
        }
        View::NotAllowed { .. } => Passed::Stopped,
        View::Unread(_) => Passed::Stopped,
    }
}

// Whether the record at a place ends the message: it has no fault, and that is its meaning.
pub fn is_end(profile: Profile, rules: &[u8; 15], bytes: &[u8], at: usize) -> bool
    ensures { result ≡ ends (reader_of (record { profile = profile; entries = rules.now })) (drop at bytes.now) }
{
    let view = view_at(profile, bytes, at);
    match view {
        View::Whole {
            slot,
            critical,
            size,
        } => {
            let start = at + NtsRecord::HEADER;
            let verdict = meant(rules[slot], slot, critical, 0, bytes, start, size);
            match verdict {
                Verdict::On => false,
                Verdict::End => true,
                Verdict::Stop(_) => false,
            }
        }
        View::NotAllowed { .. } => false,
        View::Unread(_) => false,
    }
}

// Whether two walks stopped alike: at one place, and for one reason.
fn same_stop(place: usize, stop: Stop, elsewhere: usize, other: Stop) -> bool
    ensures { result ≡ same_way (way_by place stop) (way_by elsewhere other) }
{
    match stop {
        Stop::End => match other {
            Stop::End => place == elsewhere,
            Stop::Refused(_) => false,
        },
        Stop::Refused(error) => match other {
            Stop::End => false,
            Stop::Refused(told) => same_error(error, told) & (place == elsewhere),
        },
    }
}

// Whether two refusals have one number, and the same beside it.
fn same_error(error: NtsError, other: NtsError) -> bool
    ensures { result ≡ (eqb (number_of error) (number_of other) && same_beside (beside_of error) (beside_of other)) }
{
    (error.number() == other.number()) & same_code(error.code(), other.code())
}

fn same_code(code: Code, other: Code) -> bool
    ensures { result ≡ same_beside (told_code code) (told_code other) }
{
    (sort_of(code) == sort_of(other)) & (number_of(code) == number_of(other))
}

fn sort_of(code: Code) -> u8
    ensures { result ≡ sort_in (told_code code) }
{
    match code {
        Code::None => 0,
        Code::Number(_) => 1,
        Code::Protocol(_) => 2,
        Code::Algorithm(_) => 3,
    }
}

fn number_of(code: Code) -> u16
    ensures { result ≡ beside_number (told_code code) }
{
    match code {
        Code::None => 0,
        Code::Number(n) => n,
        Code::Protocol(protocol) => protocol.0,
        Code::Algorithm(algorithm) => algorithm.0,
    }
}

// Whether two rows of numbers are the same.
fn same_numbers(numbers: &[u16], others: &[u16]) -> bool
    ensures { result ≡ same_numbers numbers.now others.now }
{
    if numbers.len() != others.len() {
        return false;
    }
    let mut i: usize = 0;
    while i < numbers.len() {
        if numbers[i] != others[i] {
            return false;
        }
        i += 1;
    }
    true
}

// 1 where a record of the kind was met, and 0 where none was.
fn met_before(met: u16, slot: usize) -> u16
    requires { slot < 15 }
    ensures { result ≡ cond (is_met met slot) 1 0 }
{
    (met >> slot) & 1
}

// The kinds met, and this one.
fn with_met(met: u16, slot: usize) -> u16
    requires { slot < 15 }
    ensures { result ≡ with_met met slot }
{
    met | (1u16 << slot)
}

// A walk that came to the end record: nothing may follow it where the profile says so.
fn ended(profile: Profile, limit: u16, place: usize, next: usize, length: usize) -> Walked
    ensures { result ≡ ended_in profile limit place next length }
{
    if profile.is_final() {
        if next < length {
            return Walked {
                limit,
                place: next,
                stop: Stop::Refused(NtsError::NotAllowed),
            };
        }
    }
    Walked {
        limit,
        place,
        stop: Stop::End,
    }
}

fn walk_cut(profile: Profile, rules: &[u8; 15], cut: &[u8], cells: &mut [u16; 45]) -> Halted
    requires { length cut.now < 2 ^ 16 }
    ensures { Walks (record { profile = profile; entries = rules.now }) cut.now result cells.new }
{
    let mut at: usize = 0;
    *cells = [0u16; 45];
    loop {
        let stepped = step(profile, rules, cut, at, cells);
        let verdict = stepped.verdict;
        match verdict {
            Verdict::On => {
                at = stepped.next;
            }
            Verdict::End => {
                return Halted {
                    place: at,
                    next: stepped.next,
                    stop: Stop::End,
                };
            }
            Verdict::Stop(error) => {
                return Halted {
                    place: at,
                    next: at,
                    stop: Stop::Refused(error),
                };
            }
        }
    }
}

// One record: what is seen of it, and what the table says of it. What the profile does not allow is counted, and refused before its meaning.
fn step(profile: Profile, rules: &[u8; 15], cut: &[u8], at: usize, cells: &mut [u16; 45]) -> Stepped
    requires { (length cut.now < 2 ^ 16) × Few cells.old at }
    ensures { Steps (record { profile = profile; entries = rules.now }) cut.now at cells.old result cells.new }
{
    let view = view_at(profile, cut, at);
    match view {
        View::Whole {
            slot,
            critical,
            size,
        } => {
            let start = at + NtsRecord::HEADER;
            let verdict = meet(cells, rules[slot], slot, critical, cut, start, size);
            let next = start + size as usize;
            Stepped { verdict, next }
        }
        View::NotAllowed {
            slot,
            critical: _,
            size,
        } => {
            let start = at + NtsRecord::HEADER;
            count_more(cells, slot, start as u16, size);
            let next = start + size as usize;
            Stepped {
                verdict: Verdict::Stop(NtsError::NotAllowed),
                next,
            }
        }
        View::Unread(verdict) => Stepped { verdict, next: at },
    }
}

// What is seen of the record at a place, in a profile. Every walk asks it here: the look, and what a profile asks, are long and stand once, and the rest is short enough to stand in each loop.
fn view_at(profile: Profile, bytes: &[u8], at: usize) -> View
    ensures { Views profile bytes.now at result }
{
    let answer = record::look(profile, bytes, at);
    let Looked::Whole(x) = answer else {
        return View::Unread(by_look(answer));
    };
    let slot = slot_of(profile.taken(x.kind));
    let critical = x.critical;
    let size = x.size;
    let body = Part {
        start: at + NtsRecord::HEADER,
        len: size as usize,
    };
    if profile.allows(slot as u16, critical, bytes, body) {
        return View::Whole {
            slot,
            critical,
            size,
        };
    }
    View::NotAllowed {
        slot,
        critical,
        size,
    }
}

// What a look alone says: a record that does not read stops the walk, one that does lets it go on.
fn by_look(answer: Looked) -> Verdict
    ensures { result ≡ looked_of answer }
{
    match answer {
        Looked::Whole(_) => Verdict::On,
        Looked::Refused(refusal) => {
            let error = refusal.error;
            Verdict::Stop(error)
        }
    }
}

// Where a kind stands in the table and in the cells.
fn slot_of(kind: u16) -> usize
    ensures { result ≡ slot_of shape_of kind }
{
    let slot = kind as usize;
    if slot < KINDS {
        return slot;
    }
    UNKNOWN
}

// One record met that the profile allows, by its kind's entry: it is counted, also where it is refused.
fn meet(
    cells: &mut [u16; 45],
    rule: u8,
    slot: usize,
    critical: bool,
    cut: &[u8],
    start: usize,
    size: u16,
) -> Verdict
    requires { (slot < 15) × (start < 2 ^ 16) × ((entry_in cells.old slot).count + 1 < 2 ^ 16) }
    ensures { (result ≡ meant_of rule slot critical (error_of slot (number_at cut.now start)) (entry_in cells.old slot).count size) × (cells.new ≡ more_in cells.old slot start size) }
{
    let c = slot * 3;
    let verdict = meant(rule, slot, critical, cells[c], cut, start, size);
    count_more(cells, slot, start as u16, size);
    verdict
}

// One record of a kind more: of the first, where its body lies.
fn count_more(cells: &mut [u16; 45], slot: usize, start: u16, len: u16)
    requires { (slot < 15) × ((entry_in cells.old slot).count + 1 < 2 ^ 16) }
    ensures { cells.new ≡ more_in cells.old slot start len }
{
    let c = slot * 3;
    let before = cells[c];
    cells[c] = before + 1;
    if before == 0 {
        let d = c + 1;
        let e = c + 2;
        cells[d] = start;
        cells[e] = len;
    }
}

// An unknown kind is not asked of the table. What is noted however often it stands comes first, since there may be many.
fn meant(
    rule: u8,
    slot: usize,
    critical: bool,
    before: u16,
    cut: &[u8],
    start: usize,
    size: u16,
) -> Verdict
    ensures { result ≡ meant_of rule slot critical (error_of slot (number_at cut.now start)) before size }
{
    if rule == NOTED {
        return unless_unknown(slot, critical);
    }
    if slot == UNKNOWN {
        return unless_unknown(slot, critical);
    }
    ruled(rule, slot, before, cut, start, size)
}

// The walk goes on, unless the record is of an unknown kind and has its critical bit set.
fn unless_unknown(slot: usize, critical: bool) -> Verdict
    ensures { result ≡ unknown_of slot critical }
{
    if slot == UNKNOWN {
        if critical {
            return Verdict::Stop(NtsError::UnrecognizedCriticalRecord);
        }
        return Verdict::On;
    }
    Verdict::On
}

// What the table's entry makes of a record of a known kind, of which so many were met before.
fn ruled(rule: u8, slot: usize, before: u16, cut: &[u8], start: usize, size: u16) -> Verdict
    ensures { result ≡ ruled_of rule before size (error_of slot (number_at cut.now start)) }
{
    match rule {
        ENDING => Verdict::End,
        PASSED => Verdict::On,
        NOTED => Verdict::On,
        ONCE => at_most(before, 0),
        SINGLE => {
            if before == 0 {
                return at_most(size, ENTRY);
            }
            Verdict::Stop(NtsError::Invalid)
        }
        TOLD => {
            let error = told(slot, wire::number_at(cut, start));
            Verdict::Stop(error)
        }
        _ => Verdict::Stop(NtsError::Invalid),
    }
}

fn at_most(count: u16, limit: u16) -> Verdict
    ensures { result ≡ at_most count limit }
{
    if limit < count {
        return Verdict::Stop(NtsError::Invalid);
    }
    Verdict::On
}

// What a record is refused with that is told with its code.
fn told(slot: usize, code: u16) -> NtsError
    ensures { result ≡ error_of slot code }
{
    match slot {
        2 => NtsError::Error(ErrorCode(code)),
        3 => NtsError::UnknownWarning(WarningCode(code)),
        _ => NtsError::Invalid,
    }
}
