//! The first item of what a reader has left.

ghost use Rattle.std.specs.Prelude.{◌≡◌, ◌≤◌, ◌+◌, [], length, vec_len, true, max, Ok, Err, IfOk, IfErr, IfSome, IsOkAnd, OnOk, MatchBool};
ghost use Rattle.std.specs.{Bool.OnTrue, Io.KnownBytes.{Consumes, IsAtEnd}};
ghost use Rattle.rlp_reading.specs.Format.Framing.{IsFramedItem, announced, frame, header, total_len};
ghost use Rattle.rlp_stream.specs.{Item.{UnlessStopped, item_answer, total_within}, Pieces.{Announces, IsHeaderAlone, IsSettled, IsStop}};

use crate::fault::ReadFault;
use crate::pieces::append;
use rlp_reading::{DecoderError, PayloadInfo};
use std::io::Read;

/// Returns the number of bytes of the length that follows the first byte of an item: 0 if there is
/// none.
fn announced(first: u8) -> usize
    ensures { result ≡ announced first }
{
    if first < 0xc0 {
        first.saturating_sub(0xb7) as usize
    } else {
        first.saturating_sub(0xf7) as usize
    }
}

/// Reads the header of the next item: its first byte, and the bytes of the length that this byte
/// announces. Reads less if the reader ends before.
#[tactic(auto, using(crate::proofs::HeaderLemmas::header_steps))]
fn read_header<R: Read>(reader: &mut R, out: &mut Vec<u8>) -> Result<(), ReadFault>
    requires { out.old.items ≡ [] }
    ensures most { vec_len out.new ≤ 9 }
    ensures read { Consumes (R.remaining reader.old) (R.remaining reader.new) out.new.items }
    ensures settled { OnOk result (IfSome (R.remaining reader.new) (IsSettled out.new.items)) }
    ensures short { OnOk result (IfOk (header out.new.items) (IsHeaderAlone out.new.items)) }
    ensures none { OnOk result (out.new.items ≡ [] → IsAtEnd (R.remaining reader.new)) }
    ensures stop { IfErr result IsStop }
{
    if !append(reader, 1, out)? {
        return Ok(());
    }
    let end = 1 + announced(out[0]);
    append(reader, end, out)?;
    Ok(())
}

/// Returns the length of the item whose header the bytes are, if it is at most `most`.
fn total_within(bytes: &[u8], most: usize) -> Result<usize, ReadFault>
    ensures exact { result ≡ total_within most (header bytes.now) }
    ensures announced { IfOk result (Announces bytes.now) }
    ensures most { IfOk result (λ total. total ≤ most) }
{
    match PayloadInfo::from(bytes) {
        Ok(info) => match info.checked_total() {
            Some(total) if total <= most => Ok(total),
            _ => Err(ReadFault::TooLong),
        },
        Err(DecoderError::RlpIsTooShort) => Err(ReadFault::Truncated),
        Err(fault) => Err(ReadFault::Faulty(fault)),
    }
}

/// Reads the first item of what the reader has left into the buffer. Returns `false` if nothing is
/// left.
///
/// The buffer is cleared first. It then holds exactly the bytes that the reader gave: after
/// `Ok(true)` these are the item with its header, and the reader goes on behind the item. Nothing is
/// tested inside the item's value: decode the item strictly to test that.
///
/// An item may have at most `most` bytes, with its header. The header of a longer item is read, and
/// no byte of its value. Memory is asked for as bytes arrive, whatever the header announces: for 64
/// KiB more than have arrived, or for twice as much as they take. The reader is asked for the first
/// byte, for the length, and then for the value, so give it a buffer, such as a `BufReader`, if a
/// call to it is slow.
///
/// Fails with `Io` if the reader fails, with `TooLong` if the header announces an item longer than
/// `most` bytes, with `Truncated` if the reader ends inside the item, with `Faulty` if the header is
/// faulty, and with `OutOfMemory` if memory is refused. If what is left begins with an item of at
/// most `most` bytes, it fails only with `Io` or `OutOfMemory`.
#[tactic(auto, using(crate::proofs::AnswerLemmas::item_whole))]
pub fn read_item<R: Read>(reader: &mut R, most: usize, out: &mut Vec<u8>) -> Result<bool, ReadFault>
    // At any reader.
    ensures item { IfOk result (λ found. MatchBool found
        (IsFramedItem out.new.items × (vec_len out.new ≤ most)) (out.new.items ≡ [])) }
    ensures most { vec_len out.new ≤ max most 9 }
    ensures too_long { result ≡ Err ReadFault.TooLong → IsOkAnd (header out.new.items)
        (λ p. vec_len out.new ≤ max 1 p.header_len) }

    // Where the bytes that are left are known.
    ensures read { Consumes (R.remaining reader.old) (R.remaining reader.new) out.new.items }
    ensures answer { IfSome (R.remaining reader.old)
        (λ left. UnlessStopped result (item_answer most left)) }
    ensures frame { IfSome (R.remaining reader.old)
        (λ left. IfOk result (λ found. OnTrue found (frame left ≡ Ok out.new.items))) }
{
    out.clear();
    read_header(reader, out)?;
    if out.is_empty() {
        return Ok(false);
    }
    let total = total_within(out.as_slice(), most)?;
    if append(reader, total, out)? {
        return Ok(true);
    }
    Err(ReadFault::Truncated)
}
