// The calls of the crate handing as a host in C or Rust links them: an export calls the function of its name and promises, in the same clauses, what that promises.
#![tactic(auto)]

ghost use Rattle.std.specs.Prelude.{◌≡◌, length};
ghost use Rattle.wire.specs.Bytes.{part_at};
ghost use Rattle.nts.specs.Algorithm.{describe};
ghost use Rattle.record.specs.Entry.{number_in, pair_in};
ghost use Rattle.cells.specs.Cells.{cells, Gives};
ghost use Rattle.handing.specs.Handed.{part_cells, entry_cells, number_cells, choice_given, protocol_given, key_given, version};
ghost use Rattle.negotiation.specs.Negotiation as choices;

// A part of a message as it is handed out.
#[unsafe(no_mangle)]
pub extern "C" fn ntske_part(
    message: &[u8],
    start: usize,
    len: usize,
    answer: &mut [usize; 2],
) -> u64
    ensures { Gives (cells (part_cells (length message.now) start len)) answer.old result answer.new }
{
    handing::ntske_part(message, start, len, answer)
}

// The name or cookie at an index of a table, as it is handed out.
#[unsafe(no_mangle)]
pub extern "C" fn ntske_entry(
    message: &[u8],
    table: &[u16],
    index: usize,
    answer: &mut [usize; 2],
) -> u64
    ensures { Gives (cells (entry_cells (length message.now) table.now index)) answer.old result answer.new }
{
    handing::ntske_entry(message, table, index, answer)
}

// The number at an index of a list of numbers.
#[unsafe(no_mangle)]
pub extern "C" fn ntske_number(
    message: &[u8],
    start: usize,
    len: usize,
    index: usize,
    answer: &mut [usize; 3],
) -> u64
    ensures { Gives (cells (number_cells (number_in (part_at message.now start len) index))) answer.old result answer.new }
{
    handing::ntske_number(message, start, len, index, answer)
}

// The algorithm and its key size at an index of a list of such pairs.
#[unsafe(no_mangle)]
pub extern "C" fn ntske_pair(
    message: &[u8],
    start: usize,
    len: usize,
    index: usize,
    answer: &mut [usize; 3],
) -> u64
    ensures { Gives (cells (number_cells (pair_in (part_at message.now start len) index))) answer.old result answer.new }
{
    handing::ntske_pair(message, start, len, index, answer)
}

// Chooses protocol and algorithm.
#[unsafe(no_mangle)]
pub extern "C" fn ntske_choose(
    protocols: &[u8],
    algorithms: &[u8],
    own_protocols: &[u16],
    own_algorithms: &[u16],
    answer: &mut [usize; 2],
) -> u64
    ensures { Gives (choice_given (choices.choose protocols.now algorithms.now own_protocols.now own_algorithms.now))
        answer.old result answer.new }
{
    handing::ntske_choose(protocols, algorithms, own_protocols, own_algorithms, answer)
}

// Chooses the protocol alone.
#[unsafe(no_mangle)]
pub extern "C" fn ntske_choose_protocol(
    protocols: &[u8],
    own_protocols: &[u16],
    answer: &mut [usize; 1],
) -> u64
    ensures { Gives (protocol_given (choices.choose_protocol protocols.now own_protocols.now)) answer.old result answer.new }
{
    handing::ntske_choose_protocol(protocols, own_protocols, answer)
}

// The length of an algorithm's key.
#[unsafe(no_mangle)]
pub extern "C" fn ntske_key_length(algorithm: u16, answer: &mut [usize; 1]) -> u64
    ensures { Gives (key_given algorithm (describe algorithm)) answer.old result answer.new }
{
    handing::ntske_key_length(algorithm, answer)
}

// The version of the library that was linked.
#[unsafe(no_mangle)]
pub extern "C" fn ntske_version() -> u64
    ensures { result ≡ version }
{
    handing::ntske_version()
}
