//! The string that bytes begin with.

ghost use Rattle.std.specs.Prelude.{◌≡◌, ◌≤◌, Ok, Err, MatchResult};
ghost use Rattle.rlp_reading.specs.Format.Framing.{ReadsString, read_string, short_string, long_string, long_value};

use crate::error::DecoderError;
use rlp_format::digits::number_of;

/// The string that the bytes begin with, without its header.
#[tactic(auto, using(rlp_format::proofs::Lemmas::Digits::bytes_held, crate::proofs::Lemmas::Strings::string_reads))]
pub fn string_in(bytes: &[u8]) -> Result<&[u8], DecoderError>
    ensures exact { MatchResult result (λ d. read_string bytes.now ≡ Ok d.now)
        (λ e. read_string bytes.now ≡ Err e) }
    ensures read { ReadsString bytes.now (read_string bytes.now) }
{
    string_by_first_byte(bytes)
}

/// The string, by the table of first bytes. Only the proof of this function unfolds `read_string`.
#[tactic(auto, using(crate::proofs::Lemmas::Strings::first_strings), unfolding(crate::specs::Format::Framing::read_string))]
fn string_by_first_byte(bytes: &[u8]) -> Result<&[u8], DecoderError>
    ensures { MatchResult result (λ d. read_string bytes.now ≡ Ok d.now)
        (λ e. read_string bytes.now ≡ Err e) }
{
    match bytes {
        [] => Err(DecoderError::RlpIsTooShort),
        [first, rest @ ..] => match *first {
            0x00..=0x7f => Ok(&bytes[..1]),
            first @ 0x80..=0xb7 => short_string(rest, (first - 0x80) as usize),
            first @ 0xb8..=0xbf => long_string(rest, (first - 0xb7) as usize),
            0xc0..=0xff => Err(DecoderError::RlpExpectedToBeData),
        },
    }
}

/// The string of `len` bytes that `rest` begins with, for a header of one byte.
fn short_string(rest: &[u8], len: usize) -> Result<&[u8], DecoderError>
    ensures { MatchResult result (λ d. short_string len rest.now ≡ Ok d.now)
        (λ e. short_string len rest.now ≡ Err e) }
{
    if rest.len() < len {
        return Err(DecoderError::RlpInconsistentLengthAndData);
    }
    match &rest[..len] {
        [byte] if *byte < 0x80 => Err(DecoderError::RlpInvalidIndirection),
        string => Ok(string),
    }
}

/// The string after `len` bytes of length, which `rest` begins with.
fn long_string(rest: &[u8], len: usize) -> Result<&[u8], DecoderError>
    requires positive { 1 ≤ len }
    requires few { len ≤ 8 }
    ensures { MatchResult result (λ d. long_string len rest.now ≡ Ok d.now)
        (λ e. long_string len rest.now ≡ Err e) }
{
    if rest.len() < len {
        return Err(DecoderError::RlpInconsistentLengthAndData);
    }
    if rest[0] == 0 {
        return Err(DecoderError::RlpInvalidIndirection);
    }
    let (digits, after) = rest.split_at(len);
    string_of(after, len, number_of(digits))
}

/// The string of `value_len` bytes that `after` begins with, for a header with `len` bytes of
/// length.
fn string_of(after: &[u8], len: usize, value_len: usize) -> Result<&[u8], DecoderError>
    requires { len ≤ 8 }
    ensures { MatchResult result (λ d. long_value len value_len after.now ≡ Ok d.now)
        (λ e. long_value len value_len after.now ≡ Err e) }
{
    if value_len <= 55 {
        return Err(DecoderError::RlpInvalidIndirection);
    }
    if (1 + len).checked_add(value_len).is_none() {
        return Err(DecoderError::RlpInvalidLength);
    }
    if after.len() < value_len {
        return Err(DecoderError::RlpInconsistentLengthAndData);
    }
    Ok(&after[..value_len])
}
