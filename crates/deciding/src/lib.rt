// The two halves of reading a request in the usual profile, for a host in C or Rust: the walk, which tells what a message held, accepted or not, and the decision
// from that. A finding is forty-eight cells of sixteen bits: the limit, the place and the reason of the stop (0 the end record, otherwise the refusal's number), and
// three of each kind from 0 to 14, unknown ones together under 11: how many records, and start and length of the first one's body.
#![tactic(auto)]

ghost use Rattle.std.specs.Prelude.{◌≡◌, ℕ, ◌<◌, ◌≤◌};
ghost use Rattle.nts.specs.Refusal.{told_refusal};
ghost use Rattle.walk.specs.Found.{way_by};
ghost use Rattle.walk.specs.Finding.{found_by, told_finding};
ghost use Rattle.request.specs.Request.{reader};
ghost use Rattle.cells.specs.Cells.{word, cell, cells, Gives};
ghost use Rattle.deciding.specs.Given.{reason_cell, finding_cells, way_in, found_in, DecidesRequest};

use nts::{NtsError, Refusal};
use record::Profile;
use request::{Answer, Request};
use walk::{Finding, Stop};

// Walks over a message as if it were cut after `limit` bytes until its end record or the one refused by 1 to 4, and tells what it found. Refuses nothing.
#[tactic(auto, using(crate::proofs::Refusing::finding_within))]
pub fn ntske_walk_request(message: &[u8], limit: u16, finding: &mut [u16; 48]) -> u64
    ensures { Gives (cells (finding_cells (found_by (reader Profile.Usual) message.now limit))) finding.old result finding.new }
{
    *finding = finding_cells(Request::walk(message, limit));
    0
}

// What ntske_read_request answers of the message under the finding's limit, with the table as it leaves it. Refusals: 9 for cells that are not what
// ntske_walk_request tells of the message under that limit, first of all, its place is 0; then 1 to 7, at a place.
pub fn ntske_decide_request(
    finding: &[u16; 48],
    message: &[u8],
    table: &mut [u16],
    answer: &mut [usize; 10],
) -> u64
    ensures { DecidesRequest finding.now message.now table.old answer.old result table.new answer.new }
{
    if finding[2] > REASONS {
        return cells::refused(NtsError::InvalidValue);
    }
    match Request::decide(finding_in(*finding), message, table) {
        Answer::Accepted(x) => {
            *answer = reading::request_cells(x);
            0
        }
        Answer::Refused(x) => refused(x),
    }
}

// A refusal, whose place is not past its limit.
fn refused(x: Refusal) -> u64
    requires { x.place < 65536 }
    ensures { result ≡ word (told_refusal x) }
{
    cells::refused_at(x.error, x.place as u32)
}

// ---- a finding as cells

// The first cell of what was found.
const FOUND: usize = 3;

// The largest reason: a walk over a request stops with 1 to 4.
const REASONS: u16 = 4;

// All cells of a finding.
fn finding_cells(finding: Finding) -> [u16; 48]
    requires { finding.place < 65536 }
    ensures { result ≡ finding_cells (told_finding finding) }
{
    let mut cells = [0u16; 48];
    cells[0] = finding.limit;
    cells[1] = finding.place as u16;
    cells[2] = reason_of(finding.stop);
    for (i, &found) in finding.cells.iter().enumerate() {
        cells[i + FOUND] = found;
    }
    cells
}

// 0 for the end record, otherwise the refusal's number.
fn reason_of(stop: Stop) -> u16
    ensures { (place : ℕ) → result ≡ reason_cell (way_by place stop) }
{
    match stop {
        Stop::End => 0,
        Stop::Refused(error) => error.number() as u16,
    }
}

// The finding that cells tell.
fn finding_in(cells: [u16; 48]) -> Finding
    requires { cell cells 2 ≤ 4 }
    ensures { told_finding result ≡ found_in cells }
{
    let mut found = [0u16; 45];
    for i in 0..found.len() {
        found[i] = cells[i + FOUND];
    }
    Finding {
        limit: cells[0],
        cells: found,
        place: cells[1] as usize,
        stop: stop_in(cells[2]),
    }
}

// The stop that a reason tells.
fn stop_in(reason: u16) -> Stop
    requires { reason ≤ 4 }
    ensures { (place : ℕ) → way_by place result ≡ way_in place reason }
{
    match reason {
        0 => Stop::End,
        1 => Stop::Refused(NtsError::UnexpectedEof),
        2 => Stop::Refused(NtsError::InvalidData),
        3 => Stop::Refused(NtsError::UnrecognizedCriticalRecord),
        _ => Stop::Refused(NtsError::Invalid),
    }
}
