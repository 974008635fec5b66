// A checker of UTF-8, after RFC 3629, section 4. There is no limit on its input.
#![tactic(auto)]

ghost use Rattle.std.specs.Prelude.{◌≡◌, ◌+◌, ◌<◌, ◌≤◌, length, get_or, drop};
ghost use Rattle.utf8.specs.Utf8.{tail, well_formed};
ghost use Rattle.utf8.specs.Ascii.{is_ascii};
ghost use Rattle.utf8.specs.Lead.{lead_size, whole, size_at, Passed};
ghost use Rattle.utf8.specs.Class.{class_of, Table, class_size, class_second};

// How many bytes a block of ASCII has, in the first pass over blocks, the second and the third.
const LARGE: usize = 128;

const MIDDLE: usize = 16;

const SMALL: usize = 4;

// What each byte leads, as the Unicode standard prints it in its table of well-formed byte sequences (its table 3-7), in which E1 to EC and EE to EF are two rows. A
// class of one byte has that byte's name.
#[derive(Clone, Copy, Debug, PartialEq, Eq)]
pub enum Class {
    // 80 to BF, C0, C1 and F5 to FF: nothing.
    No,
    // 00 to 7F: ASCII.
    As,
    // C2 to DF, then 80 to BF.
    L2,
    // E1 to EC, EE and EF, then 80 to BF twice.
    L3,
    // F1 to F3, then 80 to BF three times.
    L4,
    // E0, then A0 to BF, then 80 to BF.
    E0,
    // ED, then 80 to 9F, then 80 to BF.
    Ed,
    // F0, then 90 to BF, then 80 to BF twice.
    F0,
    // F4, then 80 to 8F, then 80 to BF twice.
    F4,
}

use Class::{As, E0, Ed, F0, F4, L2, L3, L4, No};

// The class of each byte, a row for each high half and a column for each low half.
#[rattlefmt::skip]
const CLASSES: [Class; 256] = [
    As, As, As, As, As, As, As, As, As, As, As, As, As, As, As, As, // 00 to 0F
    As, As, As, As, As, As, As, As, As, As, As, As, As, As, As, As, // 10 to 1F
    As, As, As, As, As, As, As, As, As, As, As, As, As, As, As, As, // 20 to 2F
    As, As, As, As, As, As, As, As, As, As, As, As, As, As, As, As, // 30 to 3F
    As, As, As, As, As, As, As, As, As, As, As, As, As, As, As, As, // 40 to 4F
    As, As, As, As, As, As, As, As, As, As, As, As, As, As, As, As, // 50 to 5F
    As, As, As, As, As, As, As, As, As, As, As, As, As, As, As, As, // 60 to 6F
    As, As, As, As, As, As, As, As, As, As, As, As, As, As, As, As, // 70 to 7F
    No, No, No, No, No, No, No, No, No, No, No, No, No, No, No, No, // 80 to 8F
    No, No, No, No, No, No, No, No, No, No, No, No, No, No, No, No, // 90 to 9F
    No, No, No, No, No, No, No, No, No, No, No, No, No, No, No, No, // A0 to AF
    No, No, No, No, No, No, No, No, No, No, No, No, No, No, No, No, // B0 to BF
    No, No, L2, L2, L2, L2, L2, L2, L2, L2, L2, L2, L2, L2, L2, L2, // C0 to CF
    L2, L2, L2, L2, L2, L2, L2, L2, L2, L2, L2, L2, L2, L2, L2, L2, // D0 to DF
    E0, L3, L3, L3, L3, L3, L3, L3, L3, L3, L3, L3, L3, Ed, L3, L3, // E0 to EF
    F0, L4, L4, L4, F4, No, No, No, No, No, No, No, No, No, No, No, // F0 to FF
];

// How many bytes a sequence with this lead byte has, or 0 where the byte leads none: the count of its leading one
// bits; a byte that has none is ASCII. The checker does not ask it: the table is held against it.
#[tactic(auto, using(crate::proofs::Leading::led_none, crate::proofs::Leading::led_ones, crate::proofs::Leading::led_below, crate::proofs::Leading::led_above))]
pub fn lead_size(a: u8) -> usize
    ensures { result ≡ lead_size a }
{
    match a.leading_ones() {
        0 => 1,
        ones if matches!(a, 0xC2..=0xF4) => ones as usize,
        _ => 0,
    }
}

// The class of a byte, from the table.
pub fn class_of(a: u8) -> Class
    ensures { result ≡ class_of a }
{
    CLASSES[a as usize]
}

// The class of a byte, from the table that is lent.
fn class_in(classes: &[Class; 256], a: u8) -> Class
    requires { Table classes.now }
    ensures { result ≡ class_of a }
{
    classes[a as usize]
}

// How many bytes a sequence has whose lead byte is of this class, or 0 where there is none.
#[tactic(auto, unfolding(crate::specs::Class::class_size))]
fn size_in(class: Class) -> usize
    ensures { result ≡ class_size class }
{
    match class {
        No => 0,
        As => 1,
        L2 => 2,
        L3 | E0 | Ed => 3,
        L4 | F0 | F4 => 4,
    }
}

// A continuation byte.
#[tactic(auto, unfolding(crate::specs::Utf8::tail))]
fn is_tail(b: u8) -> bool
    ensures { result ≡ tail b }
{
    matches!(b, 0x80..=0xBF)
}

// The byte after a lead byte of this class: a continuation byte, narrowed after E0, ED, F0 and F4. Whether it is narrowed is a test by itself, so that the loop over
// sequences of one class makes it once.
#[tactic(auto, unfolding(crate::specs::Class::class_second, crate::specs::Utf8::tail))]
fn is_second(class: Class, b: u8) -> bool
    ensures { result ≡ class_second class b }
{
    if matches!(class, E0 | Ed | F0 | F4) {
        let (first, last) = match class {
            E0 => (0xA0, 0xBF),
            Ed => (0x80, 0x9F),
            F0 => (0x90, 0xBF),
            _ => (0x80, 0x8F),
        };
        first <= b && b <= last
    } else {
        is_tail(b)
    }
}

// Whether the bytes after a lead byte of this class are as they should be. `size` is how many bytes its sequences have, and so many are there.
fn is_whole(class: Class, size: usize, s: &[u8], at: usize) -> bool
    requires { at + size ≤ length s.now }
    ensures { result ≡ whole size (class_second class (get_or s.now (at + 1) 0)) (tail (get_or s.now (at + 2) 0)) (tail (get_or s.now (at + 3) 0)) }
{
    size < 2
        || is_second(class, s[at + 1])
            && (size == 2 || is_tail(s[at + 2]) && (size == 3 || is_tail(s[at + 3])))
}

// Whether all of the bytes are ASCII, told by one pass without a way out of it, which takes many bytes at a time.
#[tactic(auto, using(crate::proofs::Ascii::ascii_more), unfolding(crate::specs::Ascii::is_ascii))]
pub fn is_ascii(s: &[u8]) -> bool
    ensures { result ≡ is_ascii s.now }
{
    let mut all = true;
    for &b in s {
        all &= b <= 0x7F;
    }
    all
}

// The first place from `at` on, `size` bytes a step, from which not so many ASCII bytes follow.
#[tactic(auto, using(crate::proofs::Run::passed_ascii))]
fn after_blocks(s: &[u8], at: usize, size: usize) -> usize
    requires { (at ≤ length s.now) × (0 < size) }
    ensures { Passed s.now at result }
{
    let mut i = at;
    while size <= s.len() - i && is_ascii(&s[i..i + size]) {
        i += size;
    }
    i
}

// The end, where fewer bytes than a small block are left and the last block, which reaches back to some before them, is ASCII; otherwise `at`.
#[tactic(auto, using(crate::proofs::Run::passed_ascii, crate::proofs::Run::passed_none))]
fn after_last_block(s: &[u8], at: usize) -> usize
    requires { at ≤ length s.now }
    ensures { Passed s.now at result }
{
    if at < s.len() && SMALL <= s.len() && s.len() - SMALL < at && is_ascii(&s[s.len() - SMALL..]) {
        s.len()
    } else {
        at
    }
}

// A place up to which all is ASCII, told by whole blocks; the end, where all of the bytes are and they are not fewer than a small block.
fn after_ascii(s: &[u8]) -> usize
    ensures { Passed s.now 0 result }
{
    let large = after_blocks(s, 0, LARGE);
    let middle = after_blocks(s, large, MIDDLE);
    let small = after_blocks(s, middle, SMALL);
    after_last_block(s, small)
}

// Passes over the sequences from `at` on whose lead byte is of this class, and tells the place after the last one. Where the byte at `at` is of this class and
// none was passed, no sequence begins there.
#[tactic(auto, using(crate::proofs::Alike::none_of_class, crate::proofs::Alike::none_whole, crate::proofs::Alike::none_short, crate::proofs::Alike::alike_more))]
fn after_alike(classes: &[Class; 256], class: Class, s: &[u8], at: usize) -> usize
    requires { Table classes.now × (at ≤ length s.now) }
    ensures { Passed s.now at result × (at < length s.now → class ≡ class_of (get_or s.now at 0) → result ≡ at → size_at s.now at ≡ 0) }
{
    let size = size_in(class);
    if size == 0 {
        return at;
    }
    let mut i = at;
    while size <= s.len() - i && class_in(classes, s[i]) == class && is_whole(class, size, s, i) {
        i += size;
    }
    i
}

// Whether the bytes from `at` on are UTF-8, by the table that is lent. Each turn passes a run of sequences whose lead bytes are of one class, and then the ASCII
// after it.
#[tactic(auto, using(crate::proofs::Run::at_end, crate::proofs::Run::at_none))]
fn is_utf8_in(classes: &[Class; 256], s: &[u8], at: usize) -> bool
    requires { Table classes.now × (at ≤ length s.now) }
    ensures { result ≡ well_formed (drop at s.now) }
{
    let mut i = at;
    while i < s.len() {
        let next = after_alike(classes, class_in(classes, s[i]), s, i);
        if next == i {
            return false;
        }
        i = after_alike(classes, As, s, next);
    }
    true
}

// The same by the table. A constant array is laid out in memory by the function that names it, at each of its calls: here once for all of the bytes. It is no part
// of its callers' code, whose own loops need the registers.
#[inline(never)]
fn is_utf8_from(s: &[u8], at: usize) -> bool
    requires { at ≤ length s.now }
    ensures { result ≡ well_formed (drop at s.now) }
{
    is_utf8_in(&CLASSES, s, at)
}

// Whether all of the bytes are UTF-8. Blocks of ASCII that they begin with are passed over, each asked as a whole, and four bytes or more of nothing else lay out no
// table. From there on the class of each byte that should begin a sequence is the table's.
#[tactic(auto, using(crate::proofs::Run::at_end))]
pub fn is_utf8(s: &[u8]) -> bool
    ensures { result ≡ well_formed s.now }
{
    let at = after_ascii(s);
    at == s.len() || is_utf8_from(s, at)
}
