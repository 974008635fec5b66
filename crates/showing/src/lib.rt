// The call that lists a message as text, for a host in C or Rust.
#![tactic(auto)]

ghost use Rattle.std.specs.Prelude.{length};
ghost use Rattle.layout.specs.Write.{bytes, fitted};
ghost use Rattle.listing.specs.Listing.{listing};
ghost use Rattle.cells.specs.Cells.{Writes};

// Lists the records of a message read as if it were cut after `limit` bytes, and what the request reader answers for it with room for so many names. Answer, one
// cell: how many bytes the text has. Refusals: 10.
pub fn ntske_list(
    message: &[u8],
    limit: u16,
    room: usize,
    out: &mut [u8],
    written: &mut [usize; 1],
) -> u64
    ensures { Writes (fitted (length out.old) (bytes (length (listing message.now limit room)))) (listing message.now limit room)
        out.old written.old result out.new written.new }
{
    let answer = listing::list(message, limit, room, out);
    cells::give_count(answer, written)
}
