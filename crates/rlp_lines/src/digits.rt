//! Bytes and numbers as digits, read and printed.
ghost use Rattle.std.specs.{Prelude.{◌≡◌, ◌≢◌, ◌++◌, ◌≤◌, ℕ, [], length, take, string_bytes, option_map, IfOk, OnErr, OnOk}, Option.IsSomeAnd};
ghost use Rattle.hex.specs.Hex.{encode_lower};
ghost use Rattle.rlp_lines.specs.Digits.{digits_of, bytes_in, number_in, with_digit};

use crate::decoding::{are_pairs, put_bytes};
use rlp_format::hex_digits::put_digits;
use std::alloc::{AllocError, Global};
use std::str::from_utf8_unchecked;

/// The number of bytes that are printed at once as digits.
const AT_ONCE: usize = 64;

/// The text without a leading `0x`.
pub fn without_prefix(text: &[u8]) -> &[u8]
    ensures { result.now ≡ digits_of text.now }
{
    match text {
        [b'0', b'x', digits @ ..] => digits,
        _ => text,
    }
}

/// The bytes of a text of hexadecimal digits of either case, two for each byte, after an optional
/// `0x`. Returns `None` if the text isn't digits. Fails with `AllocError` if memory is refused.
pub fn read_bytes(alloc: Global, text: &[u8]) -> Result<Option<Vec<u8>>, AllocError>
    ensures gives { IfOk result (λ read. option_map (λ v. v.items) read ≡ bytes_in text.now) }
    ensures refused { OnErr result (IsSomeAnd (bytes_in text.now) (λ bytes. bytes ≢ [])) }
{
    let digits = without_prefix(text);
    if !are_pairs(digits) {
        return Ok(None);
    }
    if digits.is_empty() {
        return Ok(Some(Vec::new(alloc)));
    }
    let mut bytes = vec![in alloc; 0u8; digits.len() / 2]?;
    put_bytes(digits, bytes.as_mut_slice());
    Ok(Some(bytes))
}

/// The number with one more digit at its end. Returns `None` if the byte isn't a digit, or if the
/// number isn't below 2^64.
fn put_digit(value: usize, byte: u8) -> Option<usize>
    ensures { result ≡ with_digit value byte }
{
    if !byte.is_ascii_digit() {
        return None;
    }
    let tens = value.checked_mul(10)?;
    tens.checked_add(usize::from(byte - b'0'))
}

/// The number of a text of decimal digits. Returns `None` if the text is empty or has a byte that
/// isn't a digit, or if the number isn't below 2^64.
#[tactic(auto, using(crate::proofs::DigitLemmas::small_digit))]
pub fn read_number(text: &[u8]) -> Option<usize>
    ensures { result ≡ number_in text.now }
{
    if text.is_empty() {
        return None;
    }
    let mut value = 0;
    let mut rest = text;
    while let Some((byte, others)) = rest.split_first() {
        let Some(more) = put_digit(value, *byte) else {
            return None;
        };
        value = more;
        rest = others;
    }
    Some(value)
}

/// Appends a few bytes in one piece, each as two digits. Digits are ASCII, so they aren't tested.
fn push_few(bytes: &[u8], out: &mut String) -> Result<(), AllocError>
    requires { length bytes.now ≤ 64 }
    ensures ok { OnOk result
        (string_bytes out.new ≡ string_bytes out.old ++ encode_lower bytes.now) }
    ensures refused { OnErr result (string_bytes out.new ≡ string_bytes out.old) }
{
    let mut room = [0u8; 2 * AT_ONCE];
    let digits = &mut room[..2 * bytes.len()];
    put_digits(bytes, digits);
    out.push_str(unsafe { from_utf8_unchecked(digits) })
}

/// Appends each byte as two lower-case hexadecimal digits. Fails with `AllocError` if memory is
/// refused. It may then have appended the digits of some first bytes.
pub fn push_bytes(bytes: &[u8], out: &mut String) -> Result<(), AllocError>
    ensures ok { OnOk result
        (string_bytes out.new ≡ string_bytes out.old ++ encode_lower bytes.now) }
    ensures refused { OnErr result ((n : ℕ)
        × (string_bytes out.new ≡ string_bytes out.old ++ encode_lower (take n bytes.now))) }
{
    let mut rest = bytes;
    while rest.len() > AT_ONCE {
        let (front, after) = rest.split_at(AT_ONCE);
        push_few(front, out)?;
        rest = after;
    }
    push_few(rest, out)
}
