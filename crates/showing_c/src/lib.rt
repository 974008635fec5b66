// The call of the crate showing as a host in C or Rust links it: the export calls the function of its name and promises, in the same clauses, what that promises.
#![tactic(auto)]

ghost use Rattle.std.specs.Prelude.{length};
ghost use Rattle.layout.specs.Write.{bytes, fitted};
ghost use Rattle.listing.specs.Listing.{listing};
ghost use Rattle.cells.specs.Cells.{Writes};

// Lists a message as text.
#[unsafe(no_mangle)]
pub extern "C" fn ntske_list(
    message: &[u8],
    limit: u16,
    room: usize,
    out: &mut [u8],
    written: &mut [usize; 1],
) -> u64
    ensures { Writes (fitted (length out.old) (bytes (length (listing message.now limit room)))) (listing message.now limit room)
        out.old written.old result out.new written.new }
{
    showing::ntske_list(message, limit, room, out, written)
}
