// Prints the class of each byte in sixteen rows of sixteen, as the table has it. Each is held against 01's rule at run time, whose own function counts the byte's
// leading one bits: a class that the rule does not give its byte is printed as "!!".
#![tactic(auto)]

use std::io;
use utf8::Class;

const DIGITS: [u8; 16] = *b"0123456789ABCDEF";

// The class that the rule gives a byte: by its count, and where the byte after it is narrowed, the byte's own.
fn by_rule(a: u8) -> Class {
    match utf8::lead_size(a) {
        1 => Class::As,
        2 => Class::L2,
        3 => match a {
            0xE0 => Class::E0,
            0xED => Class::Ed,
            _ => Class::L3,
        },
        4 => match a {
            0xF0 => Class::F0,
            0xF4 => Class::F4,
            _ => Class::L4,
        },
        _ => Class::No,
    }
}

fn print_class(rt: &impl Print, class: Class) -> io::Result<()> {
    match class {
        Class::No => print(rt, b" NO"),
        Class::As => print(rt, b" AS"),
        Class::L2 => print(rt, b" L2"),
        Class::L3 => print(rt, b" L3"),
        Class::L4 => print(rt, b" L4"),
        Class::E0 => print(rt, b" E0"),
        Class::Ed => print(rt, b" ED"),
        Class::F0 => print(rt, b" F0"),
        Class::F4 => print(rt, b" F4"),
    }
}

fn print(rt: &impl Print, text: &[u8]) -> io::Result<()> {
    rt.write_all(text)
}

fn print_digit(rt: &impl Print, n: u8) -> io::Result<()> {
    let digit = [DIGITS[(n % 16) as usize]];
    print(rt, &digit)
}

fn print_entry(rt: &impl Print, a: u8) -> io::Result<()> {
    let class = utf8::class_of(a);
    if class == by_rule(a) {
        print_class(rt, class)
    } else {
        print(rt, b" !!")
    }
}

// A row: its first byte, and the classes of the sixteen bytes from there on.
fn print_row(rt: &impl Print, row: u8) -> io::Result<()> {
    print_digit(rt, row)?;
    print(rt, b"0")?;
    for column in 0u8..16 {
        print_entry(rt, row % 16 * 16 + column)?;
    }
    print(rt, b"\n")
}

fn main(rt: HostRuntime) -> io::Result<()> {
    for row in 0u8..16 {
        print_row(&rt, row)?;
    }
    Ok(())
}
