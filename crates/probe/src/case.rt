// What a case's payload holds: big-endian numbers, of which a byte past its end counts as 0, and bytes behind their count.
ghost use Rattle.std.specs.Prelude.{◌<◌, ◌≤◌, ◌^◌, length};

pub(super) fn number16(s: &[u8], i: usize) -> u16 {
    wire::number_at(s, i)
}

pub(super) fn number32(s: &[u8], i: usize) -> usize
    ensures { result < 2 ^ 32 }
{
    if i < s.len() {
        return (number16(s, i) as usize) * 65536 + (number16(s, i + 2) as usize);
    }
    0
}

pub(super) fn number64(s: &[u8], i: usize) -> usize {
    if i < s.len() {
        return number32(s, i) * 4294967296 + number32(s, i + 4);
    }
    0
}

// Where so many bytes from a place on end. Where the case ends before them it is a place that no case has, and so is what follows.
pub(super) fn behind(s: &[u8], at: usize, n: usize) -> usize {
    if at <= s.len() {
        if n <= s.len() - at {
            return at + n;
        }
    }
    usize::MAX
}

// Where a two-byte count and that many bytes end.
pub(super) fn behind_counted(s: &[u8], at: usize) -> usize {
    behind(s, behind(s, at, 2), number16(s, at) as usize)
}

// Where a two-byte count and the bytes of that many numbers end.
pub(super) fn behind_numbers(s: &[u8], at: usize) -> usize {
    behind(s, behind(s, at, 2), 2 * (number16(s, at) as usize))
}

// Where a one-byte count and the bytes of that many numbers end: those of a list that was offered.
pub(super) fn behind_offered(s: &[u8], at: usize) -> usize {
    behind(s, behind(s, at, 1), 2 * (wire::byte_at(s, at) as usize))
}

// The bytes that are counted at a place.
pub(super) fn counted(s: &[u8], at: usize) -> &[u8] {
    wire::part(rest(s, at), 2, number16(s, at) as usize)
}

// The bytes of the numbers that are counted at a place.
pub(super) fn numbers(s: &[u8], at: usize) -> &[u8] {
    wire::part(rest(s, at), 2, 2 * (number16(s, at) as usize))
}

// The bytes of the numbers that are offered at a place.
pub(super) fn offered(s: &[u8], at: usize) -> &[u8] {
    wire::part(rest(s, at), 1, 2 * (wire::byte_at(s, at) as usize))
}

// The numbers of some bytes as cells, as far as there are cells: how many.
pub(super) fn put_cells(bytes: &[u8], cells: &mut [u16]) -> usize
    ensures { result ≤ length cells.old }
{
    let mut i: usize = 0;
    while i < cells.len() {
        if bytes.len() / 2 <= i {
            return i;
        }
        cells[i] = number16(bytes, 2 * i);
        i += 1;
    }
    i
}

// All of a case from a place on.
pub(super) fn rest(s: &[u8], at: usize) -> &[u8] {
    if at <= s.len() {
        return &s[at..];
    }
    &s[0..0]
}

// Whether a case has so many bytes, and at its front a limit that fits sixteen bits.
pub(super) fn is_limited(case: &[u8], least: usize) -> bool {
    (least <= case.len()) & (number16(case, 0) == 0)
}

pub(super) fn limit_of(case: &[u8]) -> u16 {
    number16(case, 2)
}

// Whether one of the three flags is set: 1, 2 or 4.
pub(super) fn flag(flags: u8, bit: u8) -> bool {
    (flags & bit) == bit
}

// Whether some bytes are so many counted ones.
pub(super) fn are_counted(s: &[u8], count: u16) -> bool {
    let mut at = 0;
    let mut i: u16 = 0;
    while i < count {
        at = behind_counted(s, at);
        i += 1;
    }
    at == s.len()
}
