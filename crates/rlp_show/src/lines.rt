//! A line for each content.

ghost use Rattle.std.specs.Prelude.{◌≡◌, ◌++◌, List, ℕ, string_bytes, OnOk, IfOk};
ghost use Rattle.rlp_show.specs.{Lines.{content_text, line, line_steps, lines}, Display.shown_of, Value.content_of};

use crate::show::Show;
use crate::sink::{Bracket, BytesKind, NumberKind, Shown, Sink};
use crate::texts::{put_bytes, put_hex, put_ip, put_path, put_sparse, put_v, put_word_or_bytes};
use rlp::Uint;
use std::alloc::{AllocError, Global};
use std::fmt::Write;

/// Returns the lines of a value of this name. A whole record has no name, and the lines of its
/// fields have just the names of the fields.
pub fn lines_of<T: Show>(alloc: Global, name: &str, value: &T) -> Result<String, AllocError>
    ensures { IfOk result (λ text. string_bytes text ≡ lines name.now (shown_of T.display value.now)) }
{
    let mut lines = String::new(alloc);
    value.show(alloc, name, &mut lines)?;
    Ok(lines)
}

/// Appends the line of a content of this name.
pub(crate) fn put_line(name: &str, shown: Shown<'_>, out: &mut String) -> Result<(), AllocError>
    ensures { OnOk result (string_bytes out.new
        ≡ string_bytes out.old ++ line name.now (content_of shown.entry)) }
{
    out.push_str(name)?;
    out.push_str(": ")?;
    put_content(shown, out)?;
    out.push('\n')
}

/// Appends a content.
fn put_content(shown: Shown<'_>, out: &mut String) -> Result<(), AllocError>
    ensures { OnOk result
        (string_bytes out.new ≡ string_bytes out.old ++ content_text (content_of shown.entry)) }
{
    match shown {
        Shown::Number(NumberKind::Quantity, n) => put_hex(&n, out),
        Shown::Number(NumberKind::LegacyV, n) => put_v(&n, out),
        Shown::Number(_, n) => write!(out, "{n}"),
        Shown::TypeByte(n) => write!(out, "{}", Uint::from(u64::from(n))),
        Shown::Bytes(BytesKind::Sparse, bytes) => put_sparse(bytes, out),
        Shown::Bytes(BytesKind::Path, bytes) => put_path(bytes, out),
        Shown::Bytes(BytesKind::Word, bytes) => put_word_or_bytes(bytes, out),
        Shown::Bytes(BytesKind::Ip, bytes) => put_ip(bytes, out),
        Shown::Bytes(_, bytes) => put_bytes(bytes, out),
        Shown::Text(text) => out.push_str(text),
        Shown::EmptyList => out.push_str("[]"),
    }
}

/// A line for each content: its name, a colon and the content.
impl Sink for String {
    ghost Seen = { List ℕ };

    ghost seen = { λ s. string_bytes s };

    ghost steps = { line_steps };

    fn is_json(&self) -> bool {
        false
    }

    fn key(&mut self, _json: &str) -> Result<(), AllocError> {
        Ok(())
    }

    fn put(&mut self, name: &str, shown: Shown<'_>) -> Result<(), AllocError> {
        put_line(name, shown, self)
    }

    fn bracket(&mut self, _bracket: Bracket) -> Result<(), AllocError> {
        Ok(())
    }
}
