// A record laid out, and how it is written: its parts lie in bytes that are lent with it, and it goes to the front of a lent output.
#![tactic(auto)]

ghost use Rattle.std.specs.Prelude.{◌≡◌, true, ◌+◌, ◌<◌, ◌≤◌, ◌^◌, length};
ghost use Rattle.wire.specs.Bytes.{PartOf, part_at};
ghost use Rattle.wire.specs.Over.{Put, Tried};
ghost use Rattle.layout.specs.Table.{is_unknown};
ghost use Rattle.layout.specs.Profile.{asks_of, is_final, allows, taken_as};
ghost use Rattle.layout.specs.Write.{is_inside, is_sound, is_record, is_number, body_size, body_of, word_of, header, record_bytes, measured, written, told_count, Wrote};

use nts::NtsError;

// Some bytes of a lent message: where they start in it, and how many there are.
#[derive(Clone, Copy)]
pub struct Part {
    pub start: usize,
    pub len: usize,
}

// What a body holds: 01's table by kind, its column "Body".
#[derive(Clone, Copy)]
pub enum Shape {
    Skipped,
    Numbers,
    Number,
    Bytes,
    Name,
    Pairs,
    Halves,
    Unknown,
}

// The bit that is written: its column "Bit written". Of an unknown kind it is the one given with the record.
#[derive(Clone, Copy)]
pub enum Bit {
    Set,
    Clear,
    Given,
}

// A row of that table.
#[derive(Clone, Copy)]
pub struct Row {
    pub body: Shape,
    pub bit: Bit,
}

// How a message is read: as document 01 has it, or as RFC 8915 alone allows. The strict profile knows kinds 0 to 7 and asks for the critical bit of kinds 0 to 3, an
// end record without a body, a server's name in ASCII, and that nothing follows the end record.
#[derive(Clone, Copy)]
pub enum Profile {
    Usual,
    Strict,
}

impl Profile {
    // The kind as which a record is taken: one that the profile does not know as the unknown kind that has no name.
    pub fn taken(self, kind: u16) -> u16
        ensures { result ≡ taken_as self kind }
    {
        match self {
            Profile::Usual => kind,
            Profile::Strict => {
                if Layout::LAST_OF_RFC < kind {
                    return Layout::KIND_WITHOUT_NAME;
                }
                kind
            }
        }
    }

    // Whether a record of a kind may have this bit and this body, a part of the message.
    pub fn allows(self, kind: u16, critical: bool, message: &[u8], body: Part) -> bool
        ensures { result ≡ allows (asks_of self kind) critical (part_at message.now body.start body.len) }
    {
        match self {
            Profile::Usual => true,
            Profile::Strict => is_strict(kind, critical, body.of(message)),
        }
    }

    // Whether nothing may follow the end record.
    pub fn is_final(self) -> bool
        ensures { result ≡ is_final self }
    {
        match self {
            Profile::Usual => false,
            Profile::Strict => true,
        }
    }
}

// What RFC 8915 asks of a record, by its kind.
fn is_strict(kind: u16, critical: bool, body: &[u8]) -> bool
    ensures { result ≡ allows (asks_of Profile.Strict kind) critical body.now }
{
    match kind {
        0 => critical & (body.len() == 0),
        1 => critical,
        2 => critical,
        3 => critical,
        6 => utf8::is_ascii(body),
        _ => true,
    }
}

// A record laid out: its kind and the bit that is written, what its body holds, and that: a number, or two parts of the lent
// bytes one after the other.
#[derive(Clone, Copy)]
pub struct Layout {
    pub kind: u16,
    pub critical: bool,
    pub shape: Shape,
    pub number: u16,
    pub first: Part,
    pub second: Part,
}

// How many bytes a record takes, or why it is not written.
#[derive(Clone, Copy)]
pub enum ByteCount {
    Bytes(usize),
    Refused(NtsError),
}

impl Part {
    // The bytes themselves; none where the part is not inside the message.
    pub fn of(self, message: &[u8]) -> &[u8]
        ensures { PartOf message.entry self.start self.len result }
    {
        wire::part(message, self.start, self.len)
    }
}

impl Layout {
    // The type word's masks, and the header's length.
    pub const CRITICAL_BIT: u16 = 0x8000;

    pub const KIND_BITS: u16 = 0x7FFF;

    pub const HEADER: usize = 4;

    // The longest body.
    pub const LONGEST: usize = 65535;

    // The last known kind, and the one number below it that no kind has.
    pub const LAST_KIND: u16 = 14;

    pub const KIND_WITHOUT_NAME: u16 = 11;

    // The last kind that RFC 8915 has.
    pub const LAST_OF_RFC: u16 = 7;

    // Writes the record to the front of the output: how many bytes that is, exactly its length, and no byte after them
    // changes; or a refusal, 9, 8 or 10 in this order, and nothing is written.
    pub fn write(self, source: &[u8], out: &mut [u8]) -> ByteCount
        ensures { Wrote (written self source.now (length out.old))
            (record_bytes self source.now) out.old result out.new }
    {
        let answer = self.length(source);
        let ByteCount::Bytes(n) = answer else {
            return answer;
        };
        if out.len() < n {
            return ByteCount::Refused(NtsError::OutputTooShort);
        }
        ByteCount::Bytes(put_layout(self, source, out))
    }

    // Its exact length, or the refusal 9 or 8 that writing it gives, in this order.
    pub fn length(self, source: &[u8]) -> ByteCount
        ensures { told_count result ≡ measured self source.now }
    {
        if is_record(self, source) {
            let size = body_size(self);
            if Layout::LONGEST < size {
                return ByteCount::Refused(NtsError::InvalidInput);
            }
            return ByteCount::Bytes(Layout::HEADER + size);
        }
        ByteCount::Refused(NtsError::InvalidValue)
    }
}

// A record's header at the front of the output: 4, or 0 and nothing written where there is no room.
pub fn put_header(word: u16, size: u16, out: &mut [u8]) -> usize
    ensures { Tried 4 (header word size) out.old result out.new }
{
    if out.len() < Layout::HEADER {
        return 0;
    }
    let at = wire::put_number(word, out);
    at + wire::put_number(size, &mut out[at..])
}

// Whether a part lies inside n bytes; a start and a length are never added where the sum could wrap.
fn is_inside(p: Part, n: usize) -> bool
    ensures { result ≡ is_inside p n }
{
    if n < p.start {
        return false;
    }
    p.len <= n - p.start
}

// Whether no known kind has this number.
fn is_unknown(kind: u16) -> bool
    ensures { result ≡ is_unknown kind }
{
    if kind == Layout::KIND_WITHOUT_NAME {
        return true;
    }
    Layout::LAST_KIND < kind
}

// Whether a body is what its record must have; its parts lie inside the lent bytes.
fn is_sound(layout: Layout, source: &[u8]) -> bool
    ensures { result ≡ is_sound layout.shape layout.kind layout.first layout.second source.now }
{
    let shape = layout.shape;
    let first = layout.first;
    match shape {
        Shape::Skipped => true,
        Shape::Numbers => first.len % 2 == 0,
        Shape::Number => true,
        Shape::Bytes => true,
        Shape::Name => utf8::is_utf8(first.of(source)),
        Shape::Pairs => first.len % 4 == 0,
        Shape::Halves => first.len == layout.second.len,
        Shape::Unknown => is_unknown(layout.kind),
    }
}

// Refusal 9 is given where this is false.
fn is_record(layout: Layout, source: &[u8]) -> bool
    ensures { result ≡ is_record layout source.now }
{
    let first = layout.first;
    let second = layout.second;
    if Layout::KIND_BITS < layout.kind {
        return false;
    }
    if is_inside(first, source.len()) {
        if is_inside(second, source.len()) {
            return is_sound(layout, source);
        }
        return false;
    }
    false
}

// Whether the body is a number of its own, and no part.
fn is_number(shape: Shape) -> bool
    ensures { result ≡ is_number shape }
{
    match shape {
        Shape::Skipped => false,
        Shape::Numbers => false,
        Shape::Number => true,
        Shape::Bytes => false,
        Shape::Name => false,
        Shape::Pairs => false,
        Shape::Halves => false,
        Shape::Unknown => false,
    }
}

fn body_size(layout: Layout) -> usize
    requires { layout.first.len + layout.second.len < 2 ^ 64 }
    ensures { result ≡ body_size layout }
{
    let shape = layout.shape;
    if is_number(shape) {
        return 2;
    }
    layout.first.len + layout.second.len
}

fn word_of(kind: u16, critical: bool) -> u16
    requires { kind ≤ 32767 }
    ensures { result ≡ word_of kind critical }
{
    if critical {
        return kind + Layout::CRITICAL_BIT;
    }
    kind
}

// A record that was measured, into an output that has room for it.
fn put_layout(layout: Layout, source: &[u8], out: &mut [u8]) -> usize
    requires { (is_record layout source.now ≡ true) × (body_size layout ≤ 65535) × (4 + body_size layout ≤ length out.old) }
    ensures { Put (4 + body_size layout) (record_bytes layout source.now) out.old result out.new }
{
    let word = word_of(layout.kind, layout.critical);
    let size = body_size(layout);
    let at = put_header(word, size as u16, out);
    at + put_body(layout, source, &mut out[at..])
}

// Its body: a number, or one part after the other.
fn put_body(layout: Layout, source: &[u8], out: &mut [u8]) -> usize
    requires { (is_record layout source.now ≡ true) × (body_size layout ≤ length out.old) }
    ensures { Put (body_size layout) (body_of layout source.now) out.old result out.new }
{
    let shape = layout.shape;
    let first = layout.first;
    let second = layout.second;
    if is_number(shape) {
        return wire::put_number(layout.number, out);
    }
    let at = wire::put_bytes(first.of(source), out);
    at + wire::put_bytes(second.of(source), &mut out[at..])
}
