//! Numbers: written as the string of their digits to the base 256, the most significant first.

ghost use Rattle.std.specs.{Int.Digits.number_from_digits, Prelude.{⊤, ◌≡◌, length}};
ghost use Rattle.rlp_format.specs.Format.Encoding.{big_endian};
ghost use Rattle.rlp_format.specs.Values.Value.{FitsBytes, number_item};

use crate::buffer::strings::{encoded_digit, encoded_string};
use crate::stream::RlpStream;
use crate::traits::Encodable;
use bytes::BytesMut;
use rlp_format::Uint;
use rlp_format::digits::Digits;
use std::alloc::{AllocError, Global};

impl Encodable for u8 {
    ghost item = { λ v. number_item v };

    ghost fits = { λ v. FitsBytes 1 v };

    ghost needs_only_room = { λ _. ⊤ };

    fn rlp_append(&self, s: &mut RlpStream) -> Result<(), AllocError> {
        (*self as u64).rlp_append(s)
    }

    fn rlp_bytes(&self, alloc: Global) -> Result<BytesMut, AllocError> {
        (*self as u64).rlp_bytes(alloc)
    }
}

impl Encodable for u16 {
    ghost item = { λ v. number_item v };

    ghost fits = { λ v. FitsBytes 2 v };

    ghost needs_only_room = { λ _. ⊤ };

    fn rlp_append(&self, s: &mut RlpStream) -> Result<(), AllocError> {
        (*self as u64).rlp_append(s)
    }

    fn rlp_bytes(&self, alloc: Global) -> Result<BytesMut, AllocError> {
        (*self as u64).rlp_bytes(alloc)
    }
}

impl Encodable for u32 {
    ghost item = { λ v. number_item v };

    ghost fits = { λ v. FitsBytes 4 v };

    ghost needs_only_room = { λ _. ⊤ };

    fn rlp_append(&self, s: &mut RlpStream) -> Result<(), AllocError> {
        (*self as u64).rlp_append(s)
    }

    fn rlp_bytes(&self, alloc: Global) -> Result<BytesMut, AllocError> {
        (*self as u64).rlp_bytes(alloc)
    }
}

impl Encodable for u64 {
    ghost item = { λ v. number_item v };

    ghost fits = { λ v. FitsBytes 8 v };

    ghost needs_only_room = { λ _. ⊤ };

    fn rlp_append(&self, s: &mut RlpStream) -> Result<(), AllocError> {
        s.put_string(Digits::of(*self).as_slice())
    }

    fn rlp_bytes(&self, alloc: Global) -> Result<BytesMut, AllocError> {
        match *self {
            digit @ 0x01..=0x7f => encoded_digit(alloc, digit as u8),
            number => encoded_string(alloc, Digits::of(number).as_slice()),
        }
    }
}

impl Encodable for usize {
    ghost item = { λ v. number_item v };

    ghost fits = { λ v. FitsBytes 8 v };

    ghost needs_only_room = { λ _. ⊤ };

    fn rlp_append(&self, s: &mut RlpStream) -> Result<(), AllocError> {
        (*self as u64).rlp_append(s)
    }

    fn rlp_bytes(&self, alloc: Global) -> Result<BytesMut, AllocError> {
        (*self as u64).rlp_bytes(alloc)
    }
}

impl Encodable for u128 {
    ghost item = { λ v. number_item v };

    ghost fits = { λ v. FitsBytes 16 v };

    ghost needs_only_room = { λ _. ⊤ };

    fn rlp_append(&self, s: &mut RlpStream) -> Result<(), AllocError> {
        s.put_string(Digits::of_wide(*self).as_slice())
    }

    fn rlp_bytes(&self, alloc: Global) -> Result<BytesMut, AllocError> {
        encoded_string(alloc, Digits::of_wide(*self).as_slice())
    }
}

/// Writes the string of the bytes without leading zeros.
impl<const N: usize> Encodable for Uint<N> {
    ghost item = { λ n. number_item (number_from_digits 256 n.bytes) };

    ghost fits = { λ n. FitsBytes N (number_from_digits 256 n.bytes) };

    ghost needs_only_room = { λ _. ⊤ };

    #[tactic(auto, using(crate::proofs::Values::Uints::uints))]
    fn rlp_append(&self, s: &mut RlpStream) -> Result<(), AllocError> {
        s.put_string(significant(&self.bytes))
    }

    #[tactic(auto, using(crate::proofs::Values::Uints::uints))]
    fn rlp_bytes(&self, alloc: Global) -> Result<BytesMut, AllocError> {
        encoded_string(alloc, significant(&self.bytes))
    }
}

/// Returns the bytes without leading zeros.
#[tactic(auto, using(crate::proofs::Values::Uints::uints))]
fn significant(bytes: &[u8]) -> &[u8]
    ensures digits { result.now ≡ big_endian (number_from_digits 256 bytes.now) }
    ensures fits { FitsBytes (length bytes.now) (number_from_digits 256 bytes.now) }
{
    let mut digits = bytes;
    while !digits.is_empty() && digits[0] == 0 {
        digits = &digits[1..];
    }
    digits
}
