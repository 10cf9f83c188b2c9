//! Headers: the lengths before a value.

ghost use Rattle.std.specs.{Prelude.{◌≡◌, ◌<◌, ◌≤◌, ◌^◌}, Option.SomeIff};
ghost use Rattle.rlp_reading.specs.Format.Framing.{ReadsHeader, header, long_header, total_len};

use crate::error::DecoderError;
use rlp_format::digits::number_of;

/// The length of a header, and the length of the value that follows it.
///
/// ```rust
/// let info = rlp::PayloadInfo::from(&[0xb8, 0x38])?;
/// assert_eq!(rt; (info.header_len, info.value_len), (2, 56));
/// assert_eq!(rt; info.checked_total(), Some(58));
/// ```
#[derive(Debug, Drop)]
pub struct PayloadInfo {
    /// The number of bytes of the header. It is 0 if the first byte is below `0x80`: that byte is
    /// the value.
    pub header_len: usize,
    /// The number of bytes of the value that follows the header.
    pub value_len: usize,
}

impl PayloadInfo {
    /// Reads the header that the bytes begin with. The value that it announces may be missing.
    ///
    /// Fails with `RlpIsTooShort` if the bytes end before the header does, with
    /// `RlpDataLenWithZeroPrefix` or `RlpListLenWithZeroPrefix` if the length of a string or list
    /// begins with a zero byte, and with `RlpInvalidIndirection` if a length up to 55 isn't written
    /// in the first byte.
    #[tactic(auto, using(rlp_format::proofs::Lemmas::Digits::bytes_held, crate::proofs::Lemmas::Reading::header_reads))]
    pub fn from(header_bytes: &[u8]) -> Result<PayloadInfo, DecoderError>
        ensures read { ReadsHeader header_bytes.now result }
        ensures exact { result ≡ header header_bytes.now }
    {
        header_by_first_byte(header_bytes)
    }

    /// Returns the number of bytes of header and value together. [`PayloadInfo::checked_total`]
    /// tests whether a `usize` can hold that number.
    pub fn total(&self) -> usize
        requires { total_len self.now < 2 ^ 64 }
        ensures { result ≡ total_len self.now }
    {
        self.header_len + self.value_len
    }

    /// Returns the number of bytes of header and value together, or `None` if a `usize` can't hold
    /// it.
    pub fn checked_total(&self) -> Option<usize>
        ensures { SomeIff result (total_len self.now < 2 ^ 64) (total_len self.now) }
    {
        self.header_len.checked_add(self.value_len)
    }
}

/// Reads the header by the table of first bytes. Only the proof of this function unfolds `header`.
#[inline(always)]
#[tactic(auto, using(crate::proofs::Lemmas::Strings::first_headers), unfolding(crate::specs::Format::Framing::header))]
fn header_by_first_byte(bytes: &[u8]) -> Result<PayloadInfo, DecoderError>
    ensures { result ≡ header bytes.now }
{
    match bytes {
        [] => Err(DecoderError::RlpIsTooShort),
        [first, rest @ ..] => match *first {
            0x00..=0x7f => Ok(PayloadInfo {
                header_len: 0,
                value_len: 1,
            }),
            first @ 0x80..=0xb7 => Ok(PayloadInfo {
                header_len: 1,
                value_len: (first - 0x80) as usize,
            }),
            first @ 0xb8..=0xbf => long_header(
                rest,
                (first - 0xb7) as usize,
                DecoderError::RlpDataLenWithZeroPrefix,
            ),
            first @ 0xc0..=0xf7 => Ok(PayloadInfo {
                header_len: 1,
                value_len: (first - 0xc0) as usize,
            }),
            first @ 0xf8..=0xff => long_header(
                rest,
                (first - 0xf7) as usize,
                DecoderError::RlpListLenWithZeroPrefix,
            ),
        },
    }
}

/// Reads a header whose first byte announces a length of `len` bytes. `rest` is the bytes after the
/// first one. Fails with `zero_fault` if the length begins with a zero byte.
fn long_header(
    rest: &[u8],
    len: usize,
    zero_fault: DecoderError,
) -> Result<PayloadInfo, DecoderError>
    requires { len ≤ 8 }
    ensures { result ≡ long_header zero_fault len rest.now }
{
    let Some(second) = rest.first() else {
        return Err(DecoderError::RlpIsTooShort);
    };
    if *second == 0 {
        return Err(zero_fault);
    }
    if rest.len() < len {
        return Err(DecoderError::RlpIsTooShort);
    }
    let value_len = number_of(&rest[..len]);
    if value_len <= 55 {
        return Err(DecoderError::RlpInvalidIndirection);
    }
    Ok(PayloadInfo {
        header_len: 1 + len,
        value_len,
    })
}
