// The calls that hand out a part of a message, an entry of a table and an entry of a list, choose, and tell the length of a key, for a host in C or Rust.
#![tactic(auto)]

ghost use Rattle.std.specs.Prelude.{◌≡◌, length, get_or};
ghost use Rattle.wire.specs.Bytes.{part_at};
ghost use Rattle.nts.specs.Algorithm.{describe};
ghost use Rattle.record.specs.Entry.{number_in, pair_in};
ghost use Rattle.negotiation.specs.Negotiation as choices;
ghost use Rattle.cells.specs.Cells.{cells, Gives};
ghost use Rattle.handing.specs.Handed.{part_cells, entry_cells, number_cells, choice_given, protocol_given, key_given, version};

use negotiation::{Choice, ProtocolChoice};
use nts::{AeadAlgorithm, Description, NtsError};
use record::{DescriptionAt, Part, ProtocolAt};

// The library's version: 1 in the third byte from the right for 1.x.y, x in the second, y in the first.
const VERSION: u64 = 0x000500;

// A part of a message as it is handed out. Answer, two cells: its start and length, 0 and 0 where it is not inside the message.
pub fn ntske_part(message: &[u8], start: usize, len: usize, answer: &mut [usize; 2]) -> u64
    ensures { Gives (cells (part_cells (length message.now) start len)) answer.old result answer.new }
{
    *answer = handed_out(message.len(), start, len);
    0
}

// The name or cookie at an index of a table that a reader filled, as it is handed out: as a part.
pub fn ntske_entry(message: &[u8], table: &[u16], index: usize, answer: &mut [usize; 2]) -> u64
    ensures { Gives (cells (entry_cells (length message.now) table.now index)) answer.old result answer.new }
{
    if index < table.len() / 2 + 1 {
        *answer = handed_out(
            message.len(),
            table_at(table, 2 * index),
            table_at(table, 2 * index + 1),
        );
        return 0;
    }
    *answer = handed_out(message.len(), 0, 0);
    0
}

// The number at an index of a list of numbers, which is a part of the message. Answer, three cells: whether it is there, the number, and 0.
pub fn ntske_number(
    message: &[u8],
    start: usize,
    len: usize,
    index: usize,
    answer: &mut [usize; 3],
) -> u64
    ensures { Gives (cells (number_cells (number_in (part_at message.now start len) index))) answer.old result answer.new }
{
    let entry = record::protocol_at(message, Part { start, len }, index);
    *answer = match entry {
        ProtocolAt::Protocol(p) => [1, p.0 as usize, 0],
        ProtocolAt::Nothing => [0, 0, 0],
    };
    0
}

// The algorithm and its key size at an index of a list of such pairs. Answer, three cells: whether it is there, the algorithm, and the key size.
pub fn ntske_pair(
    message: &[u8],
    start: usize,
    len: usize,
    index: usize,
    answer: &mut [usize; 3],
) -> u64
    ensures { Gives (cells (number_cells (pair_in (part_at message.now start len) index))) answer.old result answer.new }
{
    let entry = record::description_at(message, Part { start, len }, index);
    *answer = match entry {
        DescriptionAt::Description(d) => [1, d.id.0 as usize, d.keysize as usize],
        DescriptionAt::Nothing => [0, 0, 0],
    };
    0
}

// Chooses protocol and algorithm: of the client's lists, as bytes of its message, the first number that the server's own list holds. Answer, two
// cells: the protocol and the algorithm. Refusals: 9, 13, 14.
pub fn ntske_choose(
    protocols: &[u8],
    algorithms: &[u8],
    own_protocols: &[u16],
    own_algorithms: &[u16],
    answer: &mut [usize; 2],
) -> u64
    ensures { Gives (choice_given (choices.choose protocols.now algorithms.now own_protocols.now own_algorithms.now))
        answer.old result answer.new }
{
    let choice = negotiation::choose(protocols, algorithms, own_protocols, own_algorithms);
    match choice {
        Choice::Chosen(x) => {
            *answer = [x.protocol.0 as usize, x.algorithm.0 as usize];
            0
        }
        Choice::Refused(error) => cells::refused(error),
    }
}

// Chooses the protocol alone, which a reply without an algorithm names. Answer, one cell. Refusals: 9, 13.
pub fn ntske_choose_protocol(
    protocols: &[u8],
    own_protocols: &[u16],
    answer: &mut [usize; 1],
) -> u64
    ensures { Gives (protocol_given (choices.choose_protocol protocols.now own_protocols.now)) answer.old result answer.new }
{
    let choice = negotiation::choose_protocol(protocols, own_protocols);
    match choice {
        ProtocolChoice::Chosen(p) => {
            *answer = [p.0 as usize];
            0
        }
        ProtocolChoice::Refused(error) => cells::refused(error),
    }
}

// The length of an algorithm's key in bytes. Answer, one cell. Refusals: 5, with the algorithm's number.
pub fn ntske_key_length(algorithm: u16, answer: &mut [usize; 1]) -> u64
    ensures { Gives (key_given algorithm (describe algorithm)) answer.old result answer.new }
{
    let description = AeadAlgorithm(algorithm).description();
    match description {
        Description::Known(x) => {
            *answer = [x.keysize as usize];
            0
        }
        Description::Unknown => {
            cells::refused(NtsError::AeadNotSupported(AeadAlgorithm(algorithm)))
        }
    }
}

// The version of the library that was linked.
pub fn ntske_version() -> u64
    ensures { result ≡ version }
{
    VERSION
}

// The cell of a table at an index, and 0 where there is none.
fn table_at(table: &[u16], i: usize) -> usize
    ensures { result ≡ get_or table.now i 0 }
{
    if i < table.len() {
        return table[i] as usize;
    }
    0
}

// A part of so many bytes as it is handed out.
fn handed_out(size: usize, start: usize, len: usize) -> [usize; 2]
    ensures { result ≡ part_cells size start len }
{
    if size < start {
        return [0, 0];
    }
    if size - start < len {
        return [0, 0];
    }
    [start, len]
}
