// What the calls share that a host in C or Rust links: numbers, slices and arrays, thin over the other crates. Each call returns one word, 0 or a refusal, and
// answers into cells that the host lends, which a refusal leaves as they are.
#![tactic(auto)]

ghost use Rattle.std.specs.Prelude.{◌≡◌};
ghost use Rattle.nts.specs.Refusal.{number_of, beside_of, beside_number, told_code};
ghost use Rattle.layout.specs.Write.{told_count};
ghost use Rattle.cells.specs.Cells.{sort_of, marked, word, unplaced, Gives, flag, counted};

use nts::{Code, NtsError};
use record::ByteCount;

// Where what was not offered, the number beside a refusal's and its place begin in a word: at bits 8, 16 and 32.
const SORT: u16 = 256;

const BESIDE: u64 = 65536;

const PLACE: u64 = 4294967296;

// A refusal at a place as a word.
pub fn refused_at(error: NtsError, place: u32) -> u64
    ensures { result ≡ word (record { number = number_of error; beside = beside_of error; place = place }) }
{
    mark(error) as u64 + BESIDE * (beside(error) as u64) + PLACE * (place as u64)
}

// A refusal that has no place, or whose place the caller knows.
pub fn refused(error: NtsError) -> u64
    ensures { result ≡ word (unplaced (number_of error) (beside_of error)) }
{
    refused_at(error, 0)
}

// A refusal's number, and where it is 17 what was not offered.
pub fn mark(error: NtsError) -> u16
    ensures { result ≡ marked (number_of error) (beside_of error) }
{
    error.number() as u16 + SORT * (sort(error.code()) as u16)
}

// 1 for a protocol and 2 for an algorithm that was not offered.
fn sort(code: Code) -> u8
    ensures { result ≡ sort_of (told_code code) }
{
    match code {
        Code::None => 0,
        Code::Number(_) => 0,
        Code::Protocol(_) => 1,
        Code::Algorithm(_) => 2,
    }
}

// The number beside a refusal's, 0 for none.
pub fn beside(error: NtsError) -> u16
    ensures { result ≡ beside_number (beside_of error) }
{
    let code = error.code();
    match code {
        Code::None => 0,
        Code::Number(n) => n,
        Code::Protocol(protocol) => protocol.0,
        Code::Algorithm(algorithm) => algorithm.0,
    }
}

// What a writer or a length answered.
pub fn give_count(answer: ByteCount, count: &mut [usize; 1]) -> u64
    ensures { Gives (counted (told_count answer)) count.old result count.new }
{
    match answer {
        ByteCount::Bytes(n) => {
            *count = [n];
            0
        }
        ByteCount::Refused(error) => refused(error),
    }
}

pub fn flag_of(b: bool) -> usize
    ensures { result ≡ flag b }
{
    if b { 1 } else { 0 }
}
