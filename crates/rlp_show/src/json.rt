//! JSON with the names of Ethereum's execution API.

ghost use Rattle.std.specs.{Int.Digits.number_from_digits, Prelude.{◌≡◌, ◌++◌, false, string_bytes, OnOk, IfOk}};
ghost use Rattle.rlp_show.specs.{Json.{Json as JsonSeen, bytes_unquoted, bytes_json, camel, comma, content_json, json_steps, json_of, letter_text, quoted}, Lines.hex_text};
ghost use Rattle.rlp_show.specs.{Display.shown_of, Value.content_of};

use crate::show::Show;
use crate::sink::{Bracket, BytesKind, NumberKind, Shown, Sink};
use crate::texts::{put_bytes, put_hex, put_ip, put_word_or_bytes};
use rlp::Uint;
use std::alloc::{AllocError, Global};
use std::fmt::Write;

/// JSON without spaces.
#[derive(Drop)]
struct Json {
    /// The text so far.
    text: String,
    /// Whether a value may come next without a comma before it.
    is_fresh: bool,
}

/// Returns the JSON of a value, without spaces.
pub fn json_of<T: Show>(alloc: Global, value: &T) -> Result<String, AllocError>
    ensures { IfOk result (λ text. string_bytes text ≡ json_of (shown_of T.display value.now)) }
{
    let mut json = Json {
        text: String::new(alloc),
        is_fresh: true,
    };
    value.show(alloc, "", &mut json)?;
    Ok(json.text)
}

/// Appends in quotes what an expression appends.
macro_rules! put_quoted {
    ($out:expr, $put:expr) => {{
        $out.push('"')?;
        $put?;
        $out.push('"')
    }};
}

/// Appends a number in hexadecimal, in quotes.
fn put_quoted_hex(number: &Uint<32>, out: &mut String) -> Result<(), AllocError>
    ensures { OnOk result (string_bytes out.new
        ≡ string_bytes out.old ++ quoted (hex_text (number_from_digits 256 number.now.bytes))) }
{
    out.push('"')?;
    put_hex(number, out)?;
    out.push('"')
}

/// Appends bytes of a kind, without quotes.
fn put_bytes_as(kind: BytesKind, bytes: &[u8], out: &mut String) -> Result<(), AllocError>
    ensures { OnOk result (string_bytes out.new ≡ string_bytes out.old ++ bytes_unquoted kind bytes.now) }
{
    match kind {
        BytesKind::Word => put_word_or_bytes(bytes, out),
        BytesKind::Ip => put_ip(bytes, out),
        _ => put_bytes(bytes, out),
    }
}

/// Appends bytes of a kind.
fn put_bytes_json(kind: BytesKind, bytes: &[u8], out: &mut String) -> Result<(), AllocError>
    ensures { OnOk result (string_bytes out.new ≡ string_bytes out.old ++ bytes_json kind bytes.now) }
{
    if let BytesKind::Null = kind {
        return out.push_str("null");
    }
    out.push('"')?;
    put_bytes_as(kind, bytes, out)?;
    out.push('"')
}

/// Appends a content.
fn put_content(shown: Shown<'_>, out: &mut String) -> Result<(), AllocError>
    ensures { OnOk result
        (string_bytes out.new ≡ string_bytes out.old ++ content_json (content_of shown.entry)) }
{
    match shown {
        Shown::Number(NumberKind::Place, n) => write!(out, "{n}"),
        Shown::Number(_, n) => put_quoted_hex(&n, out),
        Shown::TypeByte(n) => put_quoted_hex(&Uint::from(u64::from(n)), out),
        Shown::Bytes(kind, bytes) => put_bytes_json(kind, bytes, out),
        Shown::Text(text) => put_quoted!(out, out.push_str(text)),
        Shown::EmptyList => out.push_str("[]"),
    }
}

/// Appends a byte of a name, which may follow an underscore.
fn put_letter(after: bool, byte: u8, out: &mut String) -> Result<(), AllocError>
    ensures { OnOk result
        (string_bytes out.new ≡ string_bytes out.old ++ letter_text after byte) }
{
    if byte == b'_' {
        return Ok(());
    }
    if after {
        return out.push(char::from(byte.to_ascii_uppercase()));
    }
    out.push(char::from(byte))
}

/// Appends a name without its underscores, and with a capital letter after each.
fn put_camel(name: &[u8], out: &mut String) -> Result<(), AllocError>
    ensures { OnOk result (string_bytes out.new ≡ string_bytes out.old ++ camel false name.now) }
{
    let mut after = false;
    for byte in name {
        put_letter(after, *byte, out)?;
        after = *byte == b'_';
    }
    Ok(())
}

impl Json {
    /// Appends a comma, if one is needed before the next value.
    fn put_comma(&mut self) -> Result<(), AllocError>
        ensures text { OnOk result
            (string_bytes self.new.text ≡ string_bytes self.old.text ++ comma self.old.is_fresh) }
        ensures fresh { self.new.is_fresh ≡ self.old.is_fresh }
    {
        if self.is_fresh {
            return Ok(());
        }
        self.text.push(',')
    }
}

impl Sink for Json {
    ghost Seen = { JsonSeen };

    ghost seen = { λ s. record { text = string_bytes s.text; is_fresh = s.is_fresh } };

    ghost steps = { json_steps };

    fn is_json(&self) -> bool {
        true
    }

    fn key(&mut self, json: &str) -> Result<(), AllocError> {
        self.put_comma()?;
        put_quoted!(self.text, put_camel(json.as_bytes(), &mut self.text))?;
        self.text.push(':')?;
        self.is_fresh = true;
        Ok(())
    }

    fn put(&mut self, _name: &str, shown: Shown<'_>) -> Result<(), AllocError> {
        self.put_comma()?;
        put_content(shown, &mut self.text)?;
        self.is_fresh = false;
        Ok(())
    }

    fn bracket(&mut self, bracket: Bracket) -> Result<(), AllocError> {
        let (text, opens) = match bracket {
            Bracket::OpenBrace => ('{', true),
            Bracket::OpenSquare => ('[', true),
            Bracket::CloseBrace => ('}', false),
            Bracket::CloseSquare => (']', false),
        };
        if opens {
            self.put_comma()?;
        }
        self.is_fresh = opens;
        self.text.push(text)
    }
}
