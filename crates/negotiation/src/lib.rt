// The choice of the protocol and the algorithm that a server answers a client's offer with.
#![tactic(auto)]

ghost use Rattle.std.specs.Prelude.{◌≡◌};
ghost use Rattle.negotiation.specs.Negotiation.{numbers_of, is_odd, holds, first_common, with_algorithm, choose, told_choice, choose_protocol, told_protocol};
ghost use Rattle.negotiation.specs.Code.{told_first};

use nts::{AeadAlgorithm, NextProtocol, NtsError};

#[derive(Clone, Copy)]
pub struct Chosen {
    pub protocol: NextProtocol,
    pub algorithm: AeadAlgorithm,
}

#[derive(Clone, Copy)]
pub enum Choice {
    Chosen(Chosen),
    Refused(NtsError),
}

// The protocol alone.
#[derive(Clone, Copy)]
pub enum ProtocolChoice {
    Chosen(NextProtocol),
    Refused(NtsError),
}

// The first number that two lists have in common, if any.
#[derive(Clone, Copy)]
enum First {
    Number(u16),
    Nothing,
}

// Of the client's two lists, as bytes of its message, the first number that the server's own list of cells holds, first for the
// protocol, then for the algorithm. A client's list of an odd byte length is 9; then no common protocol is 13, and no common
// algorithm 14.
pub fn choose(
    protocols: &[u8],
    algorithms: &[u8],
    own_protocols: &[u16],
    own_algorithms: &[u16],
) -> Choice
    ensures { told_choice result ≡ choose protocols.now algorithms.now own_protocols.now own_algorithms.now }
{
    if is_odd(algorithms) {
        return Choice::Refused(NtsError::InvalidValue);
    }
    let choice = choose_protocol(protocols, own_protocols);
    match choice {
        ProtocolChoice::Chosen(protocol) => with_algorithm(protocol, algorithms, own_algorithms),
        ProtocolChoice::Refused(error) => Choice::Refused(error),
    }
}

// The protocol alone, which a reply without an algorithm names: 9 for a list of an odd byte length, then 13.
pub fn choose_protocol(protocols: &[u8], own: &[u16]) -> ProtocolChoice
    ensures { told_protocol result ≡ choose_protocol protocols.now own.now }
{
    if is_odd(protocols) {
        return ProtocolChoice::Refused(NtsError::InvalidValue);
    }
    let first = first_common(protocols, own);
    match first {
        First::Number(n) => ProtocolChoice::Chosen(NextProtocol(n)),
        First::Nothing => ProtocolChoice::Refused(NtsError::NoOverlappingProtocol),
    }
}

// The protocol is agreed on: then the algorithm.
fn with_algorithm(protocol: NextProtocol, algorithms: &[u8], own: &[u16]) -> Choice
    ensures { told_choice result ≡ with_algorithm protocol.0 (first_common (numbers_of algorithms.now) own.now) }
{
    let first = first_common(algorithms, own);
    match first {
        First::Number(n) => Choice::Chosen(Chosen {
            protocol,
            algorithm: AeadAlgorithm(n),
        }),
        First::Nothing => Choice::Refused(NtsError::NoOverlappingAlgorithm),
    }
}

fn is_odd(list: &[u8]) -> bool
    ensures { result ≡ is_odd list.now }
{
    list.len() % 2 == 1
}

// The client's numbers in their order; the first that the own list holds.
fn first_common(list: &[u8], own: &[u16]) -> First
    ensures { told_first result ≡ first_common (numbers_of list.now) own.now }
{
    let mut at: usize = 0;
    loop {
        if list.len() - at < 2 {
            return First::Nothing;
        }
        let n = wire::number_at(list, at);
        if has(own, n) {
            return First::Number(n);
        }
        at = at + 2;
    }
}

// Whether a list of cells holds a number.
#[tactic(auto, using(crate::proofs::Searching::seeking_found, crate::proofs::Searching::seeking_on, crate::proofs::Searching::seeking_none, crate::proofs::Searching::seeking_start))]
pub fn has(list: &[u16], n: u16) -> bool
    ensures { result ≡ holds list.now n }
{
    let mut i: usize = 0;
    while i < list.len() {
        if list[i] == n {
            return true;
        }
        i = i + 1;
    }
    false
}
