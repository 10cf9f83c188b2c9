//! Where the contents of a value stand in its encoding.

ghost use Rattle.std.specs.Prelude.{◌≡◌, ◌+◌, ◌≤◌, ◌++◌, [], length, string_bytes, IfOk, OnOk};
ghost use Rattle.rlp.specs.Format.Framing.{framing};
ghost use Rattle.rlp_show.specs.Dump.{Dump as DumpSeen, come_next, content_header, dump_of, dump_steps, encoded_bytes, enter, enter_envelope, enter_lists, header_before, part_text, row};
ghost use Rattle.rlp_show.specs.{Display.shown_of, Value.content_of};

use crate::lines::put_line;
use crate::show::Show;
use crate::sink::{Bracket, BytesKind, NumberKind, Shown, Sink};
use bytes::BytesMut;
use rlp::Rlp;
use rlp_lines::push_bytes;
use std::alloc::{AllocError, Global};
use std::fmt::Write;
use std::marker::Model;

/// Returns a row for each content of a value of this name, whose encoding is `bytes`, and for each
/// header of a list that has items: the place of the first byte, counted from 0, the bytes of the
/// header and of the payload, and the name and the text of the content. A dash is written for a
/// part that isn't there. A content that isn't in the encoding, such as the hash of the encoding,
/// has no place. A list that is shown as its encoding is one content.
///
/// ```text
/// 0 d7 - list
/// 1 - 09 index: 9
/// 2 82 5208 amount: 21000
/// - - - hash: 0x2ca5..
/// ```
///
/// If `bytes` isn't the encoding of the value, a content has a place only if its bytes come next in
/// `bytes`. Fails with `AllocError` if memory is refused.
pub fn dump_of<T: Show>(
    alloc: Global,
    bytes: &[u8],
    name: &str,
    value: &T,
) -> Result<String, AllocError>
    ensures { IfOk result (λ text. string_bytes text
        ≡ dump_of bytes.now name.now (shown_of T.display value.now)) }
{
    let mut dump = Dump {
        alloc,
        rows: String::new(alloc),
        size: bytes.len(),
        rest: bytes,
    };
    value.show(alloc, name, &mut dump)?;
    Ok(dump.rows)
}

/// Rows of an encoding.
#[derive(Drop)]
struct Dump<'a> {
    alloc: Global,
    /// The rows so far.
    rows: String,
    /// The number of bytes of the encoding.
    size: usize,
    /// The bytes that have no row yet.
    rest: &'a [u8],
}

impl<'a> Model for Dump<'a> {
    ghost use Rattle.std.specs.Prelude.{string_bytes};
    ghost use Rattle.rlp_show.specs.Dump.{Dump};

    ghost Value = { Dump };

    ghost view = { λ d. record { rows = string_bytes d.rows; size = d.size; rest = d.rest.now } };
}

/// Appends bytes as hexadecimal digits, or a dash for no bytes.
fn put_part(bytes: &[u8], out: &mut String) -> Result<(), AllocError>
    ensures { OnOk result
        (string_bytes out.new ≡ string_bytes out.old ++ part_text bytes.now) }
{
    if bytes.is_empty() {
        return out.push('-');
    }
    push_bytes(bytes, out)
}

/// Returns the length of the header that comes next, if it is the header of a list or of a string,
/// as asked for, and the payload has more than this number of bytes, or else 0.
fn header_before(bytes: &[u8], is_of_kind: bool, few: usize) -> usize
    ensures length { result ≡ header_before is_of_kind few (framing bytes.now) }
    ensures within { result ≤ length bytes.now }
{
    match Rlp::new(bytes).payload_info() {
        Ok(info) if is_of_kind && info.value_len > few => info.header_len,
        _ => 0,
    }
}

/// Returns the bytes of a content in an encoding. A place and a text have no bytes there.
fn encoded_bytes(alloc: Global, shown: Shown<'_>) -> Result<BytesMut, AllocError>
    ensures { IfOk result (λ b. b.items ≡ encoded_bytes (content_of shown.entry)) }
{
    match shown {
        Shown::Number(NumberKind::Place, _) | Shown::Text(_) => Ok(BytesMut::new(alloc)),
        Shown::Number(_, n) => rlp::encode(alloc, &n),
        Shown::TypeByte(n) => rlp::encode(alloc, &[n]),
        Shown::Bytes(BytesKind::Payload | BytesKind::Encoding, b) => {
            BytesMut::copy_from_slice(alloc, b)
        }
        Shown::Bytes(_, b) => rlp::encode(alloc, &b),
        Shown::EmptyList => BytesMut::copy_from_slice(alloc, &[0xc0]),
    }
}

/// Returns the length of the header of a content, whose bytes are these.
fn content_header(shown: Shown<'_>, bytes: &[u8]) -> usize
    ensures length { result ≡ content_header (content_of shown.entry) bytes.now }
    ensures within { result ≤ length bytes.now }
{
    if let Shown::Bytes(BytesKind::Payload, _) = shown {
        return 0;
    }
    match Rlp::new(bytes).payload_info() {
        Ok(info) => info.header_len,
        Err(_) => 0,
    }
}

impl<'a> Dump<'a> {
    /// Begins a row for the next bytes, which are a header and a payload of these lengths.
    fn begin_row(&mut self, header_len: usize, payload_len: usize) -> Result<(), AllocError>
        requires { header_len + payload_len ≤ length self.old.rest }
        ensures { OnOk result (self.new ≡ row header_len payload_len [] self.old) }
    {
        let place = self.size.saturating_sub(self.rest.len());
        let (header, others) = self.rest.split_at(header_len);
        let (payload, others) = others.split_at(payload_len);
        write!(self.rows, "{place} ")?;
        put_part(header, &mut self.rows)?;
        self.rows.push(' ')?;
        put_part(payload, &mut self.rows)?;
        self.rest = others;
        self.rows.push(' ')
    }

    /// Appends a row for a header that comes next, and the name of what has the header.
    fn put_header(&mut self, header_len: usize, what: &str) -> Result<(), AllocError>
        requires { header_len ≤ length self.old.rest }
        ensures { OnOk result (self.new ≡ row header_len 0 what.now self.old) }
    {
        self.begin_row(header_len, 0)?;
        self.rows.push_str(what)
    }

    /// Returns whether these bytes, which aren't none, come next.
    fn come_next(&self, bytes: &[u8]) -> bool
        ensures { result ≡ come_next bytes.now self.now }
    {
        !bytes.is_empty() && self.rest.starts_with(bytes)
    }

    /// Appends rows for the headers of the lists that come next, until these bytes come next.
    #[tactic(auto, using(crate::proofs::TextLemmas::lists_entered))]
    fn enter_lists(&mut self, bytes: &[u8]) -> Result<(), AllocError>
        ensures { OnOk result
            (self.new ≡ enter_lists bytes.now (length self.old.rest) self.old) }
    {
        let mut most = self.rest.len();
        while most > 0 && !self.come_next(bytes) {
            let header_len = header_before(self.rest, Rlp::new(self.rest).is_list(), 0);
            if header_len == 0 {
                return Ok(());
            }
            self.put_header(header_len, "list\n")?;
            most -= 1;
        }
        Ok(())
    }

    /// Appends a row for the header of an envelope, if it comes next.
    fn enter_envelope(&mut self) -> Result<(), AllocError>
        ensures { OnOk result (self.new ≡ enter_envelope self.old) }
    {
        let header_len = header_before(self.rest, Rlp::new(self.rest).is_data(), 1);
        if header_len == 0 {
            return Ok(());
        }
        self.put_header(header_len, "envelope\n")
    }

    /// Appends rows for the headers in front of a content, whose bytes are these.
    fn enter(&mut self, shown: Shown<'_>, bytes: &[u8]) -> Result<(), AllocError>
        ensures { OnOk result (self.new ≡ enter (content_of shown.entry) bytes.now self.old) }
    {
        match shown {
            Shown::Bytes(BytesKind::Payload, _) => Ok(()),
            Shown::TypeByte(_) => {
                self.enter_lists(bytes)?;
                self.enter_envelope()
            }
            _ => self.enter_lists(bytes),
        }
    }
}

impl Sink for Dump<'_> {
    ghost Seen = { DumpSeen };

    ghost seen = { λ s. s };

    ghost steps = { dump_steps };

    fn is_json(&self) -> bool {
        false
    }

    fn key(&mut self, _json: &str) -> Result<(), AllocError> {
        Ok(())
    }

    fn put(&mut self, name: &str, shown: Shown<'_>) -> Result<(), AllocError> {
        let bytes = encoded_bytes(self.alloc, shown)?;
        let bytes = bytes.as_slice();
        self.enter(shown, bytes)?;
        if self.come_next(bytes) {
            let header_len = content_header(shown, bytes);
            self.begin_row(header_len, bytes.len() - header_len)?;
        } else {
            self.rows.push_str("- - - ")?;
        }
        put_line(name, shown, &mut self.rows)
    }

    fn bracket(&mut self, _bracket: Bracket) -> Result<(), AllocError> {
        Ok(())
    }
}
