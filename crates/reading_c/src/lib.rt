// The calls of the crate reading as a host in C or Rust links them: an export calls the function of its name and promises, in the same clauses, what that promises.
#![tactic(auto)]

ghost use Rattle.std.specs.Prelude.{◌≡◌};
ghost use Rattle.utf8.specs.Utf8.{well_formed};
ghost use Rattle.layout.specs.Table.{bit_named};
ghost use Rattle.record.specs.Record.{read_at};
ghost use Rattle.cells.specs.Cells.{flag, Gives};
ghost use Rattle.reading.specs.Read.{ReadsRequest, ReadsReply, record_given, bit_cell};

use record::Profile;

// Reads a request in the usual profile.
#[unsafe(no_mangle)]
pub extern "C" fn ntske_read_request(
    message: &[u8],
    limit: u16,
    table: &mut [u16],
    answer: &mut [usize; 10],
) -> u64
    ensures { ReadsRequest Profile.Usual message.now limit table.old answer.old result table.new answer.new }
{
    reading::ntske_read_request(message, limit, table, answer)
}

// Reads a request in the strict profile.
#[unsafe(no_mangle)]
pub extern "C" fn ntske_read_request_strict(
    message: &[u8],
    limit: u16,
    table: &mut [u16],
    answer: &mut [usize; 10],
) -> u64
    ensures { ReadsRequest Profile.Strict message.now limit table.old answer.old result table.new answer.new }
{
    reading::ntske_read_request_strict(message, limit, table, answer)
}

// Reads a reply in the usual profile, to one who offered these protocols and algorithms.
#[unsafe(no_mangle)]
pub extern "C" fn ntske_read_reply(
    message: &[u8],
    limit: u16,
    protocols: &[u16],
    algorithms: &[u16],
    table: &mut [u16],
    answer: &mut [usize; 9],
) -> u64
    ensures { ReadsReply Profile.Usual message.now limit protocols.now algorithms.now table.old answer.old result table.new answer.new }
{
    reading::ntske_read_reply(message, limit, protocols, algorithms, table, answer)
}

// Reads a reply in the strict profile, to one who offered these protocols and algorithms.
#[unsafe(no_mangle)]
pub extern "C" fn ntske_read_reply_strict(
    message: &[u8],
    limit: u16,
    protocols: &[u16],
    algorithms: &[u16],
    table: &mut [u16],
    answer: &mut [usize; 9],
) -> u64
    ensures { ReadsReply Profile.Strict message.now limit protocols.now algorithms.now table.old answer.old result table.new answer.new }
{
    reading::ntske_read_reply_strict(message, limit, protocols, algorithms, table, answer)
}

// Reads the record at a place.
#[unsafe(no_mangle)]
pub extern "C" fn ntske_read_record(message: &[u8], place: usize, answer: &mut [usize; 8]) -> u64
    ensures { Gives (record_given (read_at message.now place)) answer.old result answer.new }
{
    reading::ntske_read_record(message, place, answer)
}

// The critical bit that document 01 names for a kind.
#[unsafe(no_mangle)]
pub extern "C" fn ntske_bit_named(kind: u16) -> u64
    ensures { result ≡ bit_cell (bit_named kind) }
{
    reading::ntske_bit_named(kind)
}

// Whether the bytes are UTF-8.
#[unsafe(no_mangle)]
pub extern "C" fn ntske_is_utf8(bytes: &[u8]) -> u64
    ensures { result ≡ flag (well_formed bytes.now) }
{
    reading::ntske_is_utf8(bytes)
}
