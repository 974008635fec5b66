// Bytes at a place of a lent slice, and bytes at the front of a lent output. Nothing here knows of NTS.
#![tactic(auto)]

ghost use Rattle.std.specs.Prelude.{◌≡◌, ◌≤◌, length};
ghost use Rattle.wire.specs.Bytes.{byte_at, number_at, PartOf};
ghost use Rattle.wire.specs.Over.{bytes_of, Tried};

// The byte at a place, and 0 past the end.
pub fn byte_at(s: &[u8], at: usize) -> u8
    ensures { result ≡ byte_at s.now at }
{
    s.get(at).copied().unwrap_or(0)
}

// The two bytes from a place on as a number, the high one first; a byte past the end counts as 0.
#[tactic(auto, using(crate::proofs::Bytes::number_past), unfolding(crate::specs::Bytes::number_at))]
pub fn number_at(s: &[u8], at: usize) -> u16
    ensures { result ≡ number_at s.now at }
{
    if at < s.len() {
        byte_at(s, at) as u16 * 256 + byte_at(s, at + 1) as u16
    } else {
        0
    }
}

// The `len` bytes from `start` on; none, at the front, where they are not all inside.
pub fn part(s: &[u8], start: usize, len: usize) -> &[u8]
    ensures { PartOf s.entry start len result }
{
    if start <= s.len() && len <= s.len() - start {
        &s[start..start + len]
    } else {
        &s[0..0]
    }
}

// A number at the front of the output, the high byte first: 2 for the bytes written, or 0 and nothing written where there
// is no room.
#[tactic(auto, unfolding(crate::specs::Over::bytes_of))]
pub fn put_number(x: u16, out: &mut [u8]) -> usize
    ensures { Tried 2 (bytes_of x) out.old result out.new }
{
    put_bytes(&x.to_be_bytes(), out)
}

// All of `src` at the front of the output: how many bytes that is, or 0 and nothing written where there is no room.
pub fn put_bytes(src: &[u8], out: &mut [u8]) -> usize
    ensures { Tried (length src.now) src.now out.old result out.new }
{
    if out.len() < src.len() {
        return 0;
    }
    for (i, &b) in src.iter().enumerate() {
        out[i] = b;
    }
    src.len()
}
