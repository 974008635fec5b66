// The calls of the crate deciding as a host in C or Rust links them: an export calls the function of its name and promises, in the same clauses, what that promises.
#![tactic(auto)]

ghost use Rattle.walk.specs.Finding.{found_by};
ghost use Rattle.request.specs.Request.{reader};
ghost use Rattle.cells.specs.Cells.{cells, Gives};
ghost use Rattle.deciding.specs.Given.{finding_cells, DecidesRequest};

use record::Profile;

// Walks over a message and tells what it found.
#[unsafe(no_mangle)]
pub extern "C" fn ntske_walk_request(message: &[u8], limit: u16, finding: &mut [u16; 48]) -> u64
    ensures { Gives (cells (finding_cells (found_by (reader Profile.Usual) message.now limit))) finding.old result finding.new }
{
    deciding::ntske_walk_request(message, limit, finding)
}

// What the reader answers of a message, from what the walk found.
#[unsafe(no_mangle)]
pub extern "C" fn ntske_decide_request(
    finding: &[u16; 48],
    message: &[u8],
    table: &mut [u16],
    answer: &mut [usize; 10],
) -> u64
    ensures { DecidesRequest finding.now message.now table.old answer.old result table.new answer.new }
{
    deciding::ntske_decide_request(finding, message, table, answer)
}
