// The calls of the crate writing as a host in C or Rust links them: an export calls the function of its name and promises, in the same clauses, what that promises.
#![tactic(auto)]

ghost use Rattle.std.specs.Prelude.{length};
ghost use Rattle.layout.specs.Write.{bytes, fitted};
ghost use Rattle.plan.specs.Tray.{names_in};
ghost use Rattle.messages.specs.Messages.{message_of, bodies_of, no_protocol_records, no_algorithm_records, error_records, support_records, request_records, request_checked};
ghost use Rattle.cells.specs.Cells.{counted, Gives, Writes};
ghost use Rattle.writing.specs.Given.{record_in, held_length, held_bytes, asked_of, support_count, DeniesTo};

// Writes the reply that no protocol is agreed on.
#[unsafe(no_mangle)]
pub extern "C" fn ntske_write_no_protocol(out: &mut [u8], written: &mut [usize; 1]) -> u64
    ensures { Writes (fitted (length out.old) (bytes 8)) (message_of no_protocol_records) out.old written.old result out.new written.new }
{
    writing::ntske_write_no_protocol(out, written)
}

// Writes the reply that no algorithm is agreed on, with the protocol.
#[unsafe(no_mangle)]
pub extern "C" fn ntske_write_no_algorithm(
    protocol: u16,
    out: &mut [u8],
    written: &mut [usize; 1],
) -> u64
    ensures { Writes (fitted (length out.old) (bytes 14)) (message_of (no_algorithm_records protocol)) out.old written.old result out.new written.new }
{
    writing::ntske_write_no_algorithm(protocol, out, written)
}

// Writes the reply that tells an error.
#[unsafe(no_mangle)]
pub extern "C" fn ntske_write_error(code: u16, out: &mut [u8], written: &mut [usize; 1]) -> u64
    ensures { Writes (fitted (length out.old) (bytes 10)) (message_of (error_records code)) out.old written.old result out.new written.new }
{
    writing::ntske_write_error(code, out, written)
}

// Writes a support reply.
#[unsafe(no_mangle)]
pub extern "C" fn ntske_write_support_reply(
    asked: u8,
    pairs: &[u16],
    protocols: &[u16],
    out: &mut [u8],
    written: &mut [usize; 1],
) -> u64
    ensures { Writes (fitted (length out.old) (support_count asked pairs.now protocols.now))
        (message_of (support_records (asked_of asked) pairs.now protocols.now)) out.old written.old result out.new written.new }
{
    writing::ntske_write_support_reply(asked, pairs, protocols, out, written)
}

// The length of a support reply.
#[unsafe(no_mangle)]
pub extern "C" fn ntske_support_reply_length(
    asked: u8,
    pairs: &[u16],
    protocols: &[u16],
    length: &mut [usize; 1],
) -> u64
    ensures { Gives (counted (support_count asked pairs.now protocols.now)) length.old result length.new }
{
    writing::ntske_support_reply_length(asked, pairs, protocols, length)
}

// Writes a key-exchange request with the names of a tray.
#[unsafe(no_mangle)]
pub extern "C" fn ntske_write_request(
    protocols: &[u16],
    algorithms: &[u16],
    tray: &[u8],
    used: usize,
    out: &mut [u8],
    written: &mut [usize; 1],
) -> u64
    ensures { Writes (fitted (length out.old) (request_checked protocols.now algorithms.now (names_in used tray.now)))
        (message_of (request_records protocols.now algorithms.now (bodies_of (names_in used tray.now)))) out.old written.old result out.new written.new }
{
    writing::ntske_write_request(protocols, algorithms, tray, used, out, written)
}

// The length of such a request.
#[unsafe(no_mangle)]
pub extern "C" fn ntske_request_length(
    protocols: &[u16],
    algorithms: &[u16],
    tray: &[u8],
    used: usize,
    length: &mut [usize; 1],
) -> u64
    ensures { Gives (counted (request_checked protocols.now algorithms.now (names_in used tray.now))) length.old result length.new }
{
    writing::ntske_request_length(protocols, algorithms, tray, used, length)
}

// Appends a denied name to a request's tray.
#[unsafe(no_mangle)]
pub extern "C" fn ntske_append_denied(name: &[u8], tray: &mut [u8], used: &mut [usize; 1]) -> u64
    ensures { DeniesTo used.old name.now tray.old result used.new tray.new }
{
    writing::ntske_append_denied(name, tray, used)
}

// Writes one record.
#[unsafe(no_mangle)]
pub extern "C" fn ntske_write_record(
    item: &[usize; 7],
    source: &[u8],
    out: &mut [u8],
    written: &mut [usize; 1],
) -> u64
    ensures { Writes (fitted (length out.old) (held_length (record_in item.now) source.now))
        (held_bytes (record_in item.now) source.now) out.old written.old result out.new written.new }
{
    writing::ntske_write_record(item, source, out, written)
}

// The length of one record.
#[unsafe(no_mangle)]
pub extern "C" fn ntske_record_length(
    item: &[usize; 7],
    source: &[u8],
    length: &mut [usize; 1],
) -> u64
    ensures { Gives (counted (held_length (record_in item.now) source.now)) length.old result length.new }
{
    writing::ntske_record_length(item, source, length)
}
