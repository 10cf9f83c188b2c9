//! Encodings of strings at the end of a buffer.

ghost use Rattle.std.specs.{Prelude.{◌≡◌, ◌≤◌, ◌<◌, ◌+◌, ◌-◌, ◌++◌, ℕ, List, OnOk, OnErr, IfOk, length, take, drop, false}, Iterator.IsFiniteIterable};
ghost use Rattle.rlp_format.specs.{Format.Encoding.{string, encoding, is_low_byte, BeginsWith}, Values.Value.number_item};
ghost use Rattle.rlp_write.specs.Streams.Iterated.{GivesAll};

use super::counted::Buffer;
use crate::header::{SHORT, STRING, written_header};
use bytes::BytesMut;
use std::alloc::{AllocError, Global};

/// Whether a string is its own encoding.
fn is_low_byte(value: &[u8]) -> bool
    ensures { result ≡ is_low_byte value.now }
{
    match value {
        [byte] => *byte < 0x80,
        _ => false,
    }
}

/// Writes the encoding of a string at the end of a buffer. It makes room for all of it first, then
/// writes the header, and then copies the string once.
#[tactic(auto, using(crate::proofs::Streams::Written::strings))]
pub fn write_string(buffer: &mut Buffer, value: &[u8]) -> Result<(), AllocError>
    ensures ok { OnOk result
        (buffer.new.items ≡ buffer.old.items ++ encoding (string value.now)) }
    ensures refused { OnErr result (buffer.new.items ≡ buffer.old.items) }
    ensures room { OnErr result (buffer.old.spare < length (encoding (string value.now))) }
    ensures moved { buffer.new.moved ≡ buffer.old.moved }
{
    if is_low_byte(value) {
        return buffer.extend_from_slice(&[value[0]]);
    }
    if value.len() <= SHORT {
        return write_short(buffer, value);
    }
    let header = written_header(STRING, value.len());
    buffer.reserve(header.as_slice().len() + value.len())?;
    buffer.extend_reserved(header.as_slice());
    buffer.extend_reserved(value);
    Ok(())
}

/// The same as [`write_string`] for a string with a header of one byte.
#[tactic(auto, using(crate::proofs::Streams::Written::strings))]
fn write_short(buffer: &mut Buffer, value: &[u8]) -> Result<(), AllocError>
    requires short { length value.now ≤ 55 }
    requires headed { is_low_byte value.now ≡ false }
    ensures ok { OnOk result
        (buffer.new.items ≡ buffer.old.items ++ encoding (string value.now)) }
    ensures refused { OnErr result (buffer.new.items ≡ buffer.old.items) }
    ensures room { OnErr result (buffer.old.spare < length (encoding (string value.now))) }
    ensures moved { buffer.new.moved ≡ buffer.old.moved }
{
    buffer.reserve(1 + value.len())?;
    buffer.extend_reserved(&[STRING + value.len() as u8]);
    buffer.extend_reserved(value);
    Ok(())
}

/// The encoding of a string, alone in a buffer. It allocates once, the length of the encoding.
#[tactic(auto, using(crate::proofs::Streams::Written::written))]
pub fn encoded_string(alloc: Global, value: &[u8]) -> Result<BytesMut, AllocError>
    ensures { IfOk result (λ b. b.items ≡ encoding (string value.now)) }
{
    if is_low_byte(value) {
        return Ok(BytesMut::from_vec(Vec::from_slice(alloc, value)?));
    }
    let header = written_header(STRING, value.len());
    let mut bytes = Vec::with_capacity(alloc, header.as_slice().len() + value.len())?;
    bytes.extend_from_slice(header.as_slice())?;
    bytes.extend_from_slice(value)?;
    Ok(BytesMut::from_vec(bytes))
}

/// The encoding of a number from 1 to 0x7f, alone in a buffer: the number itself. It allocates
/// once, one byte.
#[tactic(auto, using(crate::proofs::Streams::Written::encoding_digit))]
pub fn encoded_digit(alloc: Global, digit: u8) -> Result<BytesMut, AllocError>
    requires some { 0 < digit }
    requires low { digit < 0x80 }
    ensures { IfOk result (λ b. b.items ≡ encoding (number_item digit)) }
{
    Ok(BytesMut::from_vec(Vec::from_slice(alloc, &[digit])?))
}

/// Writes the bytes that an iterator gives at the end of a buffer. A call that fails may leave some
/// of the bytes.
#[tactic(auto, using(crate::proofs::Streams::Written::begins_still))]
fn write_bytes_of<I: IntoIterator<Item = u8>>(
    buffer: &mut Buffer,
    value: I,
) -> Result<(), AllocError>
    requires { IsFiniteIterable I.into_iter_gives I.IntoIter.can_next I.IntoIter.remaining value }
    ensures ok { OnOk result ((s : List ℕ)
        × GivesAll I.into_iter_gives I.IntoIter.next_gives value s
        × (buffer.new.items ≡ buffer.old.items ++ s)) }
    ensures refused { OnErr result (BeginsWith buffer.new.items buffer.old.items) }
    ensures moved { buffer.new.moved ≡ buffer.old.moved }
{
    for byte in value {
        buffer.extend_from_slice(&[byte])?;
    }
    Ok(())
}

/// Turns the bytes from a place on into the encoding of the string of these bytes. If the string
/// isn't its own encoding, it inserts the header.
#[tactic(auto, using(crate::proofs::Streams::Written::from_place))]
fn write_header_before(buffer: &mut Buffer, start: usize) -> Result<(), AllocError>
    requires { start ≤ length buffer.old.items }
    ensures ok { OnOk result (buffer.new.items
        ≡ take start buffer.old.items ++ encoding (string (drop start buffer.old.items))) }
    ensures refused { OnErr result (buffer.new.items ≡ buffer.old.items) }
    ensures moved { buffer.new.moved ≡ buffer.old.moved }
{
    let string = &buffer.as_slice()[start..];
    if is_low_byte(string) {
        return Ok(());
    }
    let header = written_header(STRING, string.len());
    buffer.insert(start, header.as_slice())?;
    Ok(())
}

/// Writes the encoding of the string that an iterator gives at the end of a buffer. It writes each
/// byte when the iterator gives it, and then inserts the header for the number of bytes.
pub fn write_string_of<I: IntoIterator<Item = u8>>(
    buffer: &mut Buffer,
    value: I,
) -> Result<(), AllocError>
    requires { IsFiniteIterable I.into_iter_gives I.IntoIter.can_next I.IntoIter.remaining value }
    ensures ok { OnOk result ((s : List ℕ)
        × GivesAll I.into_iter_gives I.IntoIter.next_gives value s
        × (buffer.new.items ≡ buffer.old.items ++ encoding (string s))) }
    ensures refused { OnErr result (buffer.new.items ≡ buffer.old.items) }
    ensures moved { buffer.new.moved ≡ buffer.old.moved }
{
    let start = buffer.len();
    if let Err(e) = write_parts_of(buffer, value) {
        buffer.truncate(start);
        return Err(e);
    }
    Ok(())
}

/// The same as [`write_string_of`], but a call that fails may leave some of the bytes.
#[tactic(auto, using(crate::proofs::Streams::Written::parts))]
fn write_parts_of<I: IntoIterator<Item = u8>>(
    buffer: &mut Buffer,
    value: I,
) -> Result<(), AllocError>
    requires { IsFiniteIterable I.into_iter_gives I.IntoIter.can_next I.IntoIter.remaining value }
    ensures ok { OnOk result ((s : List ℕ)
        × GivesAll I.into_iter_gives I.IntoIter.next_gives value s
        × (buffer.new.items ≡ buffer.old.items ++ encoding (string s))) }
    ensures refused { OnErr result (BeginsWith buffer.new.items buffer.old.items) }
    ensures moved { buffer.new.moved ≡ buffer.old.moved }
{
    let start = buffer.len();
    write_bytes_of(buffer, value)?;
    write_header_before(buffer, start)
}
