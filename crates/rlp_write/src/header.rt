//! Writing of headers.

ghost use Rattle.std.specs.Prelude.{◌≡◌, ◌<◌, ◌≤◌, length};
ghost use Rattle.rlp_format.specs.Format.Encoding.{big_endian, written_header};

use rlp_format::digits::leading_zero_bytes;
use std::marker::Model;

/// The header of a short string is the sum of this number and the length of the string.
pub const STRING: u8 = 0x80;

/// The header of a list with a short payload is the sum of this number and the length of the
/// payload.
pub const LIST: u8 = 0xc0;

/// The greatest length with a header of one byte.
pub const SHORT: usize = 55;

/// A header that isn't written yet. It is the last bytes of the array.
#[derive(Drop)]
pub struct HeaderBytes {
    bytes: [u8; 9],
    start: usize,
}

impl Model for HeaderBytes {
    ghost use Rattle.std.specs.Prelude.{ℕ, List, ◌≤◌, drop};

    ghost Value = { List ℕ };

    ghost view = { λ h. drop h.start h.bytes };

    ghost invariant = { λ h. h.start ≤ 9 };
}

impl HeaderBytes {
    /// The bytes of the header.
    pub fn as_slice(&self) -> &[u8]
        ensures { result.now ≡ self.now }
    {
        &self.bytes[self.start..]
    }
}

/// The header of a string of `len` bytes if the base is [`STRING`], or of a list with a payload of
/// `len` bytes if it is [`LIST`].
#[tactic(auto, using(crate::proofs::Streams::Written::written))]
pub fn written_header(base: u8, len: usize) -> HeaderBytes
    requires { base ≤ 0xc0 }
    ensures { result ≡ written_header base len }
{
    let mut bytes = [0; 9];
    if len <= SHORT {
        bytes[8] = base + len as u8;
        return HeaderBytes { bytes, start: 8 };
    }
    let number = len as u64;
    let zeros = leading_zero_bytes(number);
    bytes[1..].copy_from_slice(&number.to_be_bytes());
    bytes[zeros] = base + 55 + (8 - zeros) as u8;
    HeaderBytes {
        bytes,
        start: zeros,
    }
}

/// The length in bytes of a list's header, for the length of its payload.
#[tactic(auto, using(crate::proofs::Streams::Written::lengths))]
pub fn list_header_len(len: usize) -> usize
    ensures value { result ≡ length (written_header 0xc0 len) }
    ensures some { 0 < result }
    ensures few { result ≤ 9 }
{
    if len > SHORT {
        return 9 - leading_zero_bytes(len as u64);
    }
    1
}
