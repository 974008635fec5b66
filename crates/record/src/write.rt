// Writing one record: it is laid out by 01's table, and the layout is written.
ghost use Rattle.std.specs.Prelude.{◌≡◌, false, length};
ghost use Rattle.layout.specs.Table.{bit_named, bit_of};
ghost use Rattle.layout.specs.Write.{record_bytes, measured, written, told_count, Wrote};
ghost use Rattle.record.specs.Laid.{none, laid, layout_of};

use super::{NtsRecord, row_of, shape_of};
use layout::{Bit, ByteCount, Layout, Part, Shape};

impl NtsRecord {
    // Writes the record to the front of the output: how many bytes that is, exactly its length, and no byte after them
    // changes; or a refusal, 9, 8 or 10 in this order, and nothing is written.
    pub fn serialize(self, source: &[u8], out: &mut [u8]) -> ByteCount
        ensures { Wrote (written (layout_of self) source.now (length out.old))
            (record_bytes (layout_of self) source.now) out.old result out.new }
    {
        layout_of(self).write(source, out)
    }

    // The record's exact length, or the refusal 9 or 8 that writing it gives.
    pub fn length(self, source: &[u8]) -> ByteCount
        ensures { told_count result ≡ measured (layout_of self) source.now }
    {
        layout_of(self).length(source)
    }

    // The column "Bit written" of 01's table; an unknown kind has none of its own.
    pub fn bit_named(kind: u16) -> Bit
        ensures { result ≡ bit_named kind }
    {
        row_of(kind).bit
    }
}

// A record laid out; of a known kind by 01's table, and of an unknown record as given.
fn layout_of(item: NtsRecord) -> Layout
    ensures { result ≡ layout_of item }
{
    match item {
        NtsRecord::EndOfMessage => with_parts(NtsRecord::END_OF_MESSAGE, NONE, NONE),
        NtsRecord::NextProtocol(p) => with_parts(NtsRecord::NEXT_PROTOCOL, p, NONE),
        NtsRecord::Error(c) => with_number(NtsRecord::ERROR, c.0),
        NtsRecord::Warning(c) => with_number(NtsRecord::WARNING, c.0),
        NtsRecord::AeadAlgorithm(p) => with_parts(NtsRecord::AEAD_ALGORITHM, p, NONE),
        NtsRecord::NewCookie(p) => with_parts(NtsRecord::NEW_COOKIE, p, NONE),
        NtsRecord::Server(p) => with_parts(NtsRecord::SERVER, p, NONE),
        NtsRecord::Port(n) => with_number(NtsRecord::PORT, n),
        NtsRecord::KeepAlive => with_parts(NtsRecord::KEEP_ALIVE, NONE, NONE),
        NtsRecord::SupportedNextProtocolList(p) => with_parts(
            NtsRecord::SUPPORTED_NEXT_PROTOCOL_LIST,
            p,
            NONE,
        ),
        NtsRecord::SupportedAlgorithmList(p) => with_parts(
            NtsRecord::SUPPORTED_ALGORITHM_LIST,
            p,
            NONE,
        ),
        NtsRecord::FixedKeyRequest { c2s, s2c } => with_parts(
            NtsRecord::FIXED_KEY_REQUEST,
            c2s,
            s2c,
        ),
        NtsRecord::NtpServerDeny(p) => with_parts(NtsRecord::NTP_SERVER_DENY, p, NONE),
        NtsRecord::Authentication(p) => with_parts(NtsRecord::AUTHENTICATION, p, NONE),
        NtsRecord::Unknown {
            record_type,
            critical,
            data,
        } => Layout {
            kind: record_type,
            critical,
            shape: Shape::Unknown,
            number: 0,
            first: data,
            second: NONE,
        },
    }
}

const NONE: Part = Part { start: 0, len: 0 };

// The bit of a known kind.
fn bit_of(kind: u16) -> bool
    ensures { result ≡ bit_of kind false }
{
    let bit = NtsRecord::bit_named(kind);
    match bit {
        Bit::Set => true,
        Bit::Clear => false,
        Bit::Given => false,
    }
}

// A record of a known kind whose body is one part after the other.
fn with_parts(kind: u16, first: Part, second: Part) -> Layout
    ensures { result ≡ laid kind 0 first second }
{
    Layout {
        kind,
        critical: bit_of(kind),
        shape: shape_of(kind),
        number: 0,
        first,
        second,
    }
}

// One whose body is a number.
fn with_number(kind: u16, number: u16) -> Layout
    ensures { result ≡ laid kind number none none }
{
    Layout {
        kind,
        critical: bit_of(kind),
        shape: shape_of(kind),
        number,
        first: NONE,
        second: NONE,
    }
}
