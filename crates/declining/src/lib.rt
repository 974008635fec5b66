// The writers of the replies that choose nothing.
#![tactic(auto)]

ghost use Rattle.std.specs.Prelude.{length};
ghost use Rattle.layout.specs.Write.{bytes, fitted, Wrote};
ghost use Rattle.messages.specs.Messages.{message_of, no_protocol_records, no_algorithm_records, error_records};

use nts::{ErrorCode, NextProtocol, NtsError};
use record::{ByteCount, NtsRecord};

// The reply to a client with which no protocol is common.
pub fn write_no_protocol(out: &mut [u8]) -> ByteCount
    ensures { Wrote (fitted (length out.old) (bytes 8)) (message_of no_protocol_records) out.old result out.new }
{
    if out.len() < NtsRecord::HEADER + NtsRecord::HEADER {
        return ByteCount::Refused(NtsError::OutputTooShort);
    }
    let at = messages::put_empty(messages::PROTOCOLS, out);
    ByteCount::Bytes(at + messages::put_empty(messages::END, &mut out[at..]))
}

// .. and with which the protocol is common, but no algorithm.
pub fn write_no_algorithm(protocol: NextProtocol, out: &mut [u8]) -> ByteCount
    ensures { Wrote (fitted (length out.old) (bytes 14)) (message_of (no_algorithm_records protocol.0)) out.old result out.new }
{
    if out.len() < messages::NUMBER_RECORD + NtsRecord::HEADER + NtsRecord::HEADER {
        return ByteCount::Refused(NtsError::OutputTooShort);
    }
    let at = messages::put_one(messages::PROTOCOLS, protocol.0, out);
    let next = at + messages::put_empty(messages::ALGORITHMS, &mut out[at..]);
    ByteCount::Bytes(next + messages::put_empty(messages::END, &mut out[next..]))
}

// A reply that tells an error.
pub fn write_error(code: ErrorCode, out: &mut [u8]) -> ByteCount
    ensures { Wrote (fitted (length out.old) (bytes 10)) (message_of (error_records code.0)) out.old result out.new }
{
    if out.len() < messages::NUMBER_RECORD + NtsRecord::HEADER {
        return ByteCount::Refused(NtsError::OutputTooShort);
    }
    let end = messages::put_one(messages::ERROR, code.0, out);
    ByteCount::Bytes(end + messages::put_empty(messages::END, &mut out[end..]))
}
