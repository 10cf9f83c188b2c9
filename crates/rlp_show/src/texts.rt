//! Numbers, bytes, paths of the trie and words as text.

ghost use Rattle.std.specs.{Prelude.{◌≡◌, ◌==◌, ◌++◌, string_bytes, OnOk, Some, ◌<◌, [], ◌∷◌, false}, Fmt.digit_glyph, Int.Digits.number_from_digits, List.list_all};
ghost use Rattle.rlp_show.specs.Lines.{bytes_text, digits_text, hex_text, ip_text, is_word, is_word_byte, meaning_text, nibbles_text, path_text, sparse_text, v_text, word_text};

use rlp::Uint;
use rlp_format::hex_digits::digit_char;
use rlp_lines::push_bytes;
use rlp_transactions::Eip155;
use std::alloc::AllocError;
use std::fmt;
use std::fmt::Write;
use std::net::{Ipv4Addr, Ipv6Addr};

/// A number that prints in hexadecimal, after `0x`.
#[derive(Clone, Copy)]
struct Hexadecimal<'a>(&'a Uint<32>);

impl fmt::Display for Hexadecimal<'_> {
    ghost output = { λ h. Some (hex_text (number_from_digits 256 h.0.now.bytes)) };

    fn fmt<W: fmt::Write>(&self, f: &mut fmt::Formatter<W>) -> fmt::Result {
        f.write_str("0x")?;
        fmt::LowerHex::fmt(self.0, f)
    }
}

/// Appends a number in hexadecimal.
pub(crate) fn put_hex(number: &Uint<32>, out: &mut String) -> Result<(), AllocError>
    ensures { OnOk result (string_bytes out.new
        ≡ string_bytes out.old ++ hex_text (number_from_digits 256 number.now.bytes)) }
{
    write!(out, "{}", Hexadecimal(number))
}

/// Appends bytes in hexadecimal.
pub(crate) fn put_bytes(bytes: &[u8], out: &mut String) -> Result<(), AllocError>
    ensures { OnOk result
        (string_bytes out.new ≡ string_bytes out.old ++ bytes_text bytes.now) }
{
    out.push_str("0x")?;
    push_bytes(bytes, out)
}

/// Appends an IP address, or other bytes in hexadecimal.
pub(crate) fn put_ip(bytes: &[u8], out: &mut String) -> Result<(), AllocError>
    ensures { OnOk result
        (string_bytes out.new ≡ string_bytes out.old ++ ip_text bytes.now) }
{
    if let Ok(octets) = <[u8; 4]>::try_from(bytes) {
        return write!(out, "{}", Ipv4Addr::from(octets));
    }
    if let Ok(octets) = <[u8; 16]>::try_from(bytes) {
        return write!(out, "{}", Ipv6Addr::from(octets));
    }
    put_bytes(bytes, out)
}

/// Returns whether all bytes are zero.
pub(crate) fn are_zero(bytes: &[u8]) -> bool
    ensures { result ≡ list_all (λ byte. byte == 0) bytes.now }
{
    bytes.iter().all(|byte| *byte == 0)
}

/// Appends bytes, or only their number if all bytes are zero.
pub(crate) fn put_sparse(bytes: &[u8], out: &mut String) -> Result<(), AllocError>
    ensures { OnOk result
        (string_bytes out.new ≡ string_bytes out.old ++ sparse_text bytes.now) }
{
    if are_zero(bytes) {
        return write!(out, "{} zero bytes", bytes.len());
    }
    put_bytes(bytes, out)
}

/// Appends what a `v` says, if it says something.
fn put_meaning(said: Option<Eip155>, out: &mut String) -> Result<(), AllocError>
    ensures { OnOk result (string_bytes out.new ≡ string_bytes out.old ++ meaning_text said) }
{
    let Some(said) = said else {
        return Ok(());
    };
    let parity = said.y_parity as u8;
    match said.chain_id {
        Some(chain) => write!(out, " (chain {chain}, parity {parity})"),
        None => write!(out, " (parity {parity})"),
    }
}

/// Appends a `v` and what it says.
pub(crate) fn put_v(v: &Uint<32>, out: &mut String) -> Result<(), AllocError>
    ensures { OnOk result (string_bytes out.new
        ≡ string_bytes out.old ++ v_text (number_from_digits 256 v.now.bytes)) }
{
    write!(out, "{v}")?;
    put_meaning(Eip155::from_v(v), out)
}

/// Appends the nibbles of an encoded path.
pub(crate) fn put_digits(path: &[u8], out: &mut String) -> Result<(), AllocError>
    ensures { OnOk result
        (string_bytes out.new ≡ string_bytes out.old ++ digits_text path.now) }
{
    let [first, rest @ ..] = path else {
        return Ok(());
    };
    if first / 16 % 2 == 1 {
        out.push(char::from(digit_char(first % 16)))?;
        return push_bytes(rest, out);
    }
    push_bytes(rest, out)
}

/// Appends the nibbles of an encoded path, in brackets.
fn put_nibbles(path: &[u8], out: &mut String) -> Result<(), AllocError>
    ensures { OnOk result (string_bytes out.new ≡ string_bytes out.old ++ nibbles_text path.now) }
{
    out.push_str(" (nibbles [")?;
    put_digits(path, out)?;
    out.push_str("])")?;
    Ok(())
}

/// Appends the bytes of an encoded path, and its nibbles.
pub(crate) fn put_path(path: &[u8], out: &mut String) -> Result<(), AllocError>
    ensures { OnOk result (string_bytes out.new ≡ string_bytes out.old ++ path_text path.now) }
{
    put_bytes(path, out)?;
    put_nibbles(path, out)
}

/// Returns whether all bytes are lower-case letters and digits.
fn are_word_bytes(bytes: &[u8]) -> bool
    ensures { result ≡ list_all is_word_byte bytes.now }
{
    bytes
        .iter()
        .all(|byte| byte.is_ascii_lowercase() || byte.is_ascii_digit())
}

/// Returns whether bytes are a word, which begins with a letter.
fn is_word(bytes: &[u8]) -> bool
    ensures { result ≡ is_word bytes.now }
{
    match bytes {
        [first, ..] => first.is_ascii_lowercase() && are_word_bytes(bytes),
        [] => false,
    }
}

/// Appends a word as it is, and other bytes in hexadecimal.
#[tactic(auto, using(crate::proofs::TextLemmas::words_are_text))]
pub(crate) fn put_word_or_bytes(bytes: &[u8], out: &mut String) -> Result<(), AllocError>
    ensures { OnOk result (string_bytes out.new ≡ string_bytes out.old ++ word_text bytes.now) }
{
    match std::str::from_utf8(bytes) {
        Ok(word) if is_word(bytes) => out.push_str(word),
        _ => put_bytes(bytes, out),
    }
}
