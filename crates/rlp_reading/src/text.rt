//! The printed text of bytes.

ghost use Rattle.std.specs.{Prelude.{◌∷◌, ◌++◌, [], codes, if◌then◌else◌}, Fmt.WritesStyledOnOk};
ghost use Rattle.hex.specs.Hex.{encode_lower};
ghost use Rattle.rlp_reading.specs.{Views.Buffered.{PutsOnOk}, Views.Text.{text}};

mod buffer;

use crate::framed::{Framed, first_framed, is_null};
use crate::items::ItemReader;
use buffer::TextBuffer;
use rlp_format::hex_digits::digit_char;
use std::fmt;
use std::fmt::Display;

/// Writes the text of bytes.
#[tactic(auto, using(crate::proofs::Pieces::all_pieces))]
pub fn write_text<W: fmt::Write>(f: &mut fmt::Formatter<W>, bytes: &[u8]) -> fmt::Result
    ensures { WritesStyledOnOk W.write_str_gives f.old result (text bytes.now) f.new }
{
    if is_null(bytes) {
        return f.write_str("null");
    }
    match first_framed(bytes) {
        Ok((framed, _)) => write_buffered(f, &framed),
        Err(fault) => fault.fmt(f),
    }
}

/// Writes the text of framed bytes in few large pieces.
#[tactic(auto, using(crate::proofs::Pieces::put_and_written))]
fn write_buffered<W: fmt::Write>(f: &mut fmt::Formatter<W>, framed: &Framed<'_>) -> fmt::Result
    ensures { WritesStyledOnOk W.write_str_gives f.old result (text framed.now.item.now) f.new }
{
    let mut buffer = TextBuffer::new();
    write_framed(&mut buffer, f, framed)?;
    buffer.flush(f)
}

/// Puts the text of framed bytes into the buffer.
#[tactic(auto, using(crate::proofs::Pieces::list_pieces))]
fn write_framed<W: fmt::Write>(
    buffer: &mut TextBuffer,
    f: &mut fmt::Formatter<W>,
    framed: &Framed<'_>,
) -> fmt::Result
    ensures { PutsOnOk W.write_str_gives f.old buffer.old result (text framed.now.item.now)
        f.new buffer.new }
{
    if !framed.is_list() {
        return write_string(buffer, f, framed.content);
    }
    buffer.put(f, b"[")?;
    let mut is_first = true;
    let mut items = ItemReader::new(framed.content);
    while let Ok(item) = items.next_framed() {
        write_separator(buffer, f, is_first)?;
        if item.is_list() {
            write_framed(buffer, f, &item)?;
        } else {
            write_string(buffer, f, item.content)?;
        }
        is_first = false;
    }
    buffer.put(f, b"]")
}

/// Puts what stands between an item and the item before it, if there is one.
#[inline(always)]
fn write_separator<W: fmt::Write>(
    buffer: &mut TextBuffer,
    f: &mut fmt::Formatter<W>,
    is_first: bool,
) -> fmt::Result
    ensures { PutsOnOk W.write_str_gives f.old buffer.old result
        (if is_first then [] else codes ", ") f.new buffer.new }
{
    if is_first {
        return Ok(());
    }
    buffer.put(f, b", ")
}

/// Puts the text of a string.
#[inline(always)]
#[tactic(auto, using(crate::proofs::Pieces::buffered))]
fn write_string<W: fmt::Write>(
    buffer: &mut TextBuffer,
    f: &mut fmt::Formatter<W>,
    value: &[u8],
) -> fmt::Result
    ensures { PutsOnOk W.write_str_gives f.old buffer.old result
        (codes "\"0x" ++ encode_lower value.now ++ codes "\"") f.new buffer.new }
{
    if let [byte] = value {
        return write_byte(buffer, f, *byte);
    }
    buffer.put(f, b"\"0x")?;
    buffer.put_hex(f, value)?;
    buffer.put(f, b"\"")
}

/// Puts the text of a string of one byte.
#[inline(always)]
#[tactic(auto, using(rlp_format::proofs::HexDigits::digits_of_byte))]
fn write_byte<W: fmt::Write>(
    buffer: &mut TextBuffer,
    f: &mut fmt::Formatter<W>,
    byte: u8,
) -> fmt::Result
    ensures { PutsOnOk W.write_str_gives f.old buffer.old result
        (codes "\"0x" ++ encode_lower (byte ∷ []) ++ codes "\"") f.new buffer.new }
{
    let text = [
        b'"',
        b'0',
        b'x',
        digit_char(byte / 16),
        digit_char(byte % 16),
        b'"',
    ];
    buffer.put(f, &text)
}
