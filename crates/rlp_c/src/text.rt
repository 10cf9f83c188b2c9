//! The text of bytes.

ghost use Rattle.std.specs.Prelude.{◌≡◌, ◌+◌, ◌<◌, ◌≤◌, ◌^◌, ◌++◌, codes, length};
ghost use Rattle.rlp_reading.specs.{Views.Depth.depth, Views.Text.{error_name, text}};
ghost use Rattle.hex.specs.Hex.{encode_lower};
ghost use Rattle.rlp_c.specs.Written.{IsPut, IsTextWritten};

use crate::canonical::RLP_DEPTH_LIMIT;
use crate::status::{RLP_NO_ROOM, RLP_OK, RLP_TOO_DEEP};
use rlp::{DecoderError, Rlp};
use rlp_format::hex_digits::digit_char;
use rlp_reading::framed::{Framed, first_framed, is_null};

/// Writes the text of the item that the bytes begin with: `"0x.."` for a string, `[.., ..]` for a
/// list, `null` for no bytes. Bytes that aren't framed have the name of their fault.
#[unsafe(no_mangle)]
pub extern "C" fn rlp_text(bytes: &[u8], out: &mut [u8], count: &mut usize) -> u32
    ensures text { depth bytes.now ≤ 256
        → IsTextWritten (text bytes.now) out.old out.new count.new result }
    ensures deep { 256 < depth bytes.now
        → (result ≡ 14) × (out.new ≡ out.old) × (count.new ≡ count.old) }
{
    if !Rlp::new(bytes).is_nested_within(RLP_DEPTH_LIMIT as usize) {
        return RLP_TOO_DEEP;
    }
    *count = put_text(bytes, &mut [], 0);
    if *count > out.len() {
        return RLP_NO_ROOM;
    }
    put_text(bytes, out, 0);
    RLP_OK
}

/// Writes the text of bytes at a place, and returns the place behind it.
#[tactic(auto, using(crate::proofs::Texts::texts))]
fn put_text(bytes: &[u8], out: &mut [u8], at: usize) -> usize
    ensures { IsPut out.old at (text bytes.now) out.new result }
{
    if is_null(bytes) {
        return put_bytes(out, at, b"null");
    }
    match first_framed(bytes) {
        Ok((framed, _)) => put_framed(&framed, out, at),
        Err(fault) => put_name(&fault, out, at),
    }
}

/// Writes the text of an item.
#[tactic(auto, using(crate::proofs::Texts::framed_texts))]
fn put_framed(framed: &Framed<'_>, out: &mut [u8], at: usize) -> usize
    ensures { IsPut out.old at (text framed.now.item.now) out.new result }
{
    if !framed.is_list() {
        return put_digits(framed.content, out, at);
    }
    let mut place = put_bytes(out, at, b"[");
    let mut separator: &[u8] = b"";
    let mut rest = framed.content;
    while let Ok((item, others)) = first_framed(rest) {
        let start = put_bytes(out, place, separator);
        place = put_framed(&item, out, start);
        separator = b", ";
        rest = others;
    }
    put_bytes(out, place, b"]")
}

/// Writes the text of a string.
fn put_digits(string: &[u8], out: &mut [u8], at: usize) -> usize
    ensures { IsPut out.old at (codes "\"0x" ++ encode_lower string.now ++ codes "\"") out.new result }
{
    let mut place = put_bytes(out, at, b"\"0x");
    for byte in string {
        let digits = [digit_char(*byte / 16), digit_char(*byte % 16)];
        place = put_bytes(out, place, &digits);
    }
    put_bytes(out, place, b"\"")
}

/// Writes the name of a fault.
fn put_name(fault: &DecoderError, out: &mut [u8], at: usize) -> usize
    ensures { IsPut out.old at (error_name fault.now) out.new result }
{
    match fault {
        DecoderError::RlpIsTooBig => put_bytes(out, at, b"RlpIsTooBig"),
        DecoderError::RlpIsTooShort => put_bytes(out, at, b"RlpIsTooShort"),
        DecoderError::RlpExpectedToBeList => put_bytes(out, at, b"RlpExpectedToBeList"),
        DecoderError::RlpExpectedToBeData => put_bytes(out, at, b"RlpExpectedToBeData"),
        DecoderError::RlpIncorrectListLen => put_bytes(out, at, b"RlpIncorrectListLen"),
        DecoderError::RlpDataLenWithZeroPrefix => put_bytes(out, at, b"RlpDataLenWithZeroPrefix"),
        DecoderError::RlpListLenWithZeroPrefix => put_bytes(out, at, b"RlpListLenWithZeroPrefix"),
        DecoderError::RlpInvalidIndirection => put_bytes(out, at, b"RlpInvalidIndirection"),
        DecoderError::RlpInconsistentLengthAndData => {
            put_bytes(out, at, b"RlpInconsistentLengthAndData")
        }
        DecoderError::RlpInvalidLength => put_bytes(out, at, b"RlpInvalidLength"),
        DecoderError::Custom(text) => {
            let start = put_bytes(out, at, b"Custom(\"");
            let end = put_bytes(out, start, text.as_bytes());
            put_bytes(out, end, b"\")")
        }
        DecoderError::OutOfMemory => put_bytes(out, at, b"OutOfMemory"),
    }
}

/// Writes bytes at a place, if there is room, and returns the place behind them.
fn put_bytes(out: &mut [u8], at: usize, bytes: &[u8]) -> usize
    ensures { IsPut out.old at bytes.now out.new result }
{
    let end = at.saturating_add(bytes.len());
    if end <= out.len() {
        out[at..end].copy_from_slice(bytes);
    }
    end
}
