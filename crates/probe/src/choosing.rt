// The op of choosing, g.
use super::{case, text};
use negotiation::Choice;

fn put_choice(out: &mut [u8], at: usize, choice: Choice) -> usize {
    match choice {
        Choice::Chosen(chosen) => text::put_two(
            out,
            at,
            b"chosen ",
            chosen.protocol.0,
            b" ",
            chosen.algorithm.0,
        ),
        Choice::Refused(error) => text::put_refusal(out, at, error),
    }
}

// Op g: the client's two lists as bytes, and the server's two as numbers.
pub(super) fn of_lists(case: &[u8], out: &mut [u8], at: usize) -> usize {
    let a = case::behind_counted(case, 0);
    let q = case::behind_counted(case, a);
    let b = case::behind_numbers(case, q);
    if case::behind_numbers(case, b) == case.len() {
        return put_choice(out, at, chosen(case, a, q, b));
    }
    text::bad_case(out, at)
}

// What is chosen of the lists at the front of a case and at these places.
fn chosen(case: &[u8], a: usize, q: usize, b: usize) -> Choice {
    let mut own_protocols = [0u16; 33000];
    let mut own_algorithms = [0u16; 33000];
    let n = case::put_cells(case::numbers(case, q), &mut own_protocols);
    let m = case::put_cells(case::numbers(case, b), &mut own_algorithms);
    negotiation::choose(
        case::counted(case, 0),
        case::counted(case, a),
        &own_protocols[0..n],
        &own_algorithms[0..m],
    )
}
