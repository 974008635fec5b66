// The writer of support replies. It judges all that it is lent before it writes, and writes each record into the rest of the output, from where
// the last record ended.
#![tactic(auto)]

ghost use Rattle.std.specs.Prelude.{◌≡◌, false, ◌&&◌, ◌*◌, ◌<◌, ◌≤◌, ◌^◌, length};
ghost use Rattle.wire.specs.Over.{Put, Tried};
ghost use Rattle.layout.specs.Write.{fitted, told_count, Wrote};
ghost use Rattle.walk.specs.Message.{flat};
ghost use Rattle.messages.specs.Messages.{record_of, cell_bytes, if_asked, message_of, too_long, support_records, record_length, support_length, support_checked};

use messages::Asked;
use nts::NtsError;
use record::{ByteCount, NtsRecord};

// A support reply: pairs of algorithm and key size, and protocols, from the host's cells. 9 for an odd number of cells of pairs, then 8 for a
// list that is to be written, then 10.
pub fn write_support_reply(
    asked: Asked,
    pairs: &[u16],
    protocols: &[u16],
    out: &mut [u8],
) -> ByteCount
    ensures { Wrote (fitted (length out.old) (support_checked asked pairs.now protocols.now))
        (message_of (support_records asked pairs.now protocols.now)) out.old result out.new }
{
    let checked = support_reply_length(asked, pairs, protocols);
    let ByteCount::Bytes(n) = checked else {
        return checked;
    };
    if out.len() < n {
        return ByteCount::Refused(NtsError::OutputTooShort);
    }
    ByteCount::Bytes(put_support(asked, pairs, protocols, out))
}

// Its exact length, with the writer's 9 and 8.
pub fn support_reply_length(asked: Asked, pairs: &[u16], protocols: &[u16]) -> ByteCount
    ensures { told_count result ≡ support_checked asked pairs.now protocols.now }
{
    if pairs.len() % 2 == 0 {
        if asked_too_long(asked.algorithms, pairs) {
            return ByteCount::Refused(NtsError::InvalidInput);
        }
        if asked_too_long(asked.protocols, protocols) {
            return ByteCount::Refused(NtsError::InvalidInput);
        }
        let lists = list_length(asked.algorithms, pairs) + list_length(asked.protocols, protocols);
        return ByteCount::Bytes(lists + empty_length(asked.keep_alive) + NtsRecord::HEADER);
    }
    ByteCount::Refused(NtsError::InvalidValue)
}

// ---- what is judged

fn asked_too_long(asked: bool, cells: &[u16]) -> bool
    ensures { result ≡ (asked && too_long (2 * length cells.now)) }
{
    if asked {
        return messages::too_long(cells);
    }
    false
}

fn list_length(asked: bool, cells: &[u16]) -> usize
    requires { 2 * length cells.now < 2 ^ 64 }
    ensures { result ≡ record_length asked (2 * length cells.now) }
{
    if asked {
        return NtsRecord::HEADER + messages::NUMBER * cells.len();
    }
    0
}

fn empty_length(asked: bool) -> usize
    ensures { (result ≡ record_length asked 0) × (result ≤ 4) }
{
    if asked {
        return NtsRecord::HEADER;
    }
    0
}

// ---- what is written, where there is room

fn put_list_if(asked: bool, word: u16, cells: &[u16], out: &mut [u8]) -> usize
    requires { (asked && too_long (2 * length cells.now)) ≡ false }
    ensures { Tried (record_length asked (2 * length cells.now)) (flat (if_asked asked (record_of word (cell_bytes cells.now)))) out.old result out.new }
{
    if asked {
        return messages::put_list(word, cells, out);
    }
    0
}

// A support reply that was judged.
fn put_support(asked: Asked, pairs: &[u16], protocols: &[u16], out: &mut [u8]) -> usize
    requires { ((asked.algorithms && too_long (2 * length pairs.now)) ≡ false) × ((asked.protocols && too_long (2 * length protocols.now)) ≡ false)
        × (support_length asked pairs.now protocols.now ≤ length out.old) }
    ensures { Put (support_length asked pairs.now protocols.now) (message_of (support_records asked pairs.now protocols.now)) out.old result out.new }
{
    let at1 = put_list_if(asked.algorithms, messages::SUPPORTED_ALGORITHMS, pairs, out);
    let at2 = at1
        + put_list_if(
            asked.protocols,
            messages::SUPPORTED_PROTOCOLS,
            protocols,
            &mut out[at1..],
        );
    let at3 = at2 + messages::put_keep_alive(asked.keep_alive, &mut out[at2..]);
    at3 + messages::put_empty(messages::END, &mut out[at3..])
}
