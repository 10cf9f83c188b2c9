//! Writing into the caller's array.

ghost use Rattle.std.specs.Prelude.{◌≡◌, ◌++◌, if◌then◌else◌};
ghost use Rattle.rlp_format.specs.{Format.Encoding.{string, encoding, is_low_byte, written_header}, Values.Value.number_item};
ghost use Rattle.rlp_c.specs.Written.{IsWritten};

use crate::status::{RLP_NO_ROOM, RLP_OK, status_of};
use rlp::DecoderError;
use rlp_format::digits::Digits;
use rlp_write::header::{LIST, STRING, written_header};

/// Writes the header of a payload of this length. The caller writes the payload behind it: a
/// string other than one byte below 0x80, or the encodings of a list's items.
#[unsafe(no_mangle)]
pub extern "C" fn rlp_encode_header(
    is_list: bool,
    payload_len: usize,
    out: &mut [u8],
    count: &mut usize,
) -> u32
    ensures { IsWritten (written_header (if is_list then 0xc0 else 0x80) payload_len)
        out.old out.new count.old count.new result }
{
    let base = if is_list { LIST } else { STRING };
    write_both(
        written_header(base, payload_len).as_slice(),
        &[],
        out,
        count,
    )
}

/// Writes the encoding of a byte string.
#[unsafe(no_mangle)]
pub extern "C" fn rlp_encode_bytes(bytes: &[u8], out: &mut [u8], count: &mut usize) -> u32
    ensures { IsWritten (encoding (string bytes.now)) out.old out.new count.old count.new result }
{
    write_string(bytes, out, count)
}

/// Writes the encoding of a number.
#[unsafe(no_mangle)]
pub extern "C" fn rlp_encode_u64(number: u64, out: &mut [u8], count: &mut usize) -> u32
    ensures { IsWritten (encoding (number_item number)) out.old out.new count.old count.new result }
{
    write_string(Digits::of(number).as_slice(), out, count)
}

/// Writes the encoding of a byte string.
#[inline(always)]
#[tactic(auto, using(rlp_reading::proofs::Trees::Needless::low_again, rlp_reading::proofs::Trees::Needless::high_written))]
fn write_string(bytes: &[u8], out: &mut [u8], count: &mut usize) -> u32
    ensures { IsWritten (encoding (string bytes.now)) out.old out.new count.old count.new result }
{
    if is_low_byte(bytes) {
        return write_both(bytes, &[], out, count);
    }
    write_both(
        written_header(STRING, bytes.len()).as_slice(),
        bytes,
        out,
        count,
    )
}

/// Whether the bytes are one byte below 0x80.
#[inline(always)]
pub(crate) fn is_low_byte(bytes: &[u8]) -> bool
    ensures { result ≡ is_low_byte bytes.now }
{
    match bytes {
        [byte] => *byte < 0x80,
        _ => false,
    }
}

/// Writes some bytes and then other bytes.
#[inline(always)]
fn write_both(front: &[u8], back: &[u8], out: &mut [u8], count: &mut usize) -> u32
    ensures { IsWritten (front.now ++ back.now) out.old out.new count.old count.new result }
{
    let Some(len) = front.len().checked_add(back.len()) else {
        return status_of(&DecoderError::RlpInvalidLength);
    };
    *count = len;
    if len > out.len() {
        return RLP_NO_ROOM;
    }
    let (place, _) = out.split_at_mut(len);
    let (first, second) = place.split_at_mut(front.len());
    first.copy_from_slice(front);
    second.copy_from_slice(back);
    RLP_OK
}
