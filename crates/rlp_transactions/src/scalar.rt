//! The two numbers of a signature.

ghost use Rattle.std.specs.{Int.Digits.number_from_digits, Prelude.{◌↔◌, ◌≡◌, IfNone, IfSome, IsTrue, nat_lt, true}};
ghost use Rattle.rlp_transactions.specs.Secp256k1.{IsLow, IsScalar, group_order, is_scalar};

use rlp::laws::uints_compare_as_numbers;
use rlp::{DecoderError, Encodable, Record, Rlp, RlpStream, Uint};
use std::alloc::{AllocError, Global};

/// A number of a signature on secp256k1: from 1 to below the order of the curve's group, which SEC 2
/// calls n. A block is invalid if the signature of a transaction has a number outside of this range.
/// The signature of an authorization may have one: see
/// [`SignedAuthorization`](crate::SignedAuthorization).
#[derive(Debug, Clone, Copy, PartialEq, Eq)]
pub struct NonZeroScalar {
    /// The number.
    pub number: Uint<32>,
    // It has no bytes, and aligns the number, so that the compiler copies a `Result` of it in words.
    aligned: [u64; 0],
    pub ghost in_range: { is_scalar (number_from_digits 256 number.bytes) ≡ true },
}

// The order of the group.
const GROUP_ORDER: Uint<32> = Uint {
    bytes: [
        0xff, 0xff, 0xff, 0xff, 0xff, 0xff, 0xff, 0xff, 0xff, 0xff, 0xff, 0xff, 0xff, 0xff, 0xff,
        0xfe, 0xba, 0xae, 0xdc, 0xe6, 0xaf, 0x48, 0xa0, 0x3b, 0xbf, 0xd2, 0x5e, 0x8c, 0xd0, 0x36,
        0x41, 0x41,
    ],
};

// Half of the order, rounded down.
const HALF_ORDER: Uint<32> = Uint {
    bytes: [
        0x7f, 0xff, 0xff, 0xff, 0xff, 0xff, 0xff, 0xff, 0xff, 0xff, 0xff, 0xff, 0xff, 0xff, 0xff,
        0xff, 0x5d, 0x57, 0x6e, 0x73, 0x57, 0xa4, 0x50, 0x1d, 0xdf, 0xe9, 0x2f, 0x46, 0x68, 0x1b,
        0x20, 0xa0,
    ],
};

impl NonZeroScalar {
    /// Returns the number, or `None` if it is 0, or not below the order.
    pub fn new(number: Uint<32>) -> Option<NonZeroScalar>
        ensures some { IfSome result (λ x. x.number ≡ number) }
        ensures none { IfNone result (¬ IsScalar number) }
    {
        if is_scalar(&number) {
            Some(NonZeroScalar {
                number,
                aligned: [],
            })
        } else {
            None
        }
    }

    /// Whether the number is at most half of the order, as EIP-2 demands of the second number of a
    /// transaction's signature. ECDSA also accepts each signature with the negative of its second
    /// number: one of these two numbers is low.
    pub fn is_low(&self) -> bool
        ensures { IsTrue result ↔ IsLow self.now.number }
    {
        !is_below(&HALF_ORDER, &self.number)
    }
}

// Whether the number is from 1 to below the order.
fn is_scalar(number: &Uint<32>) -> bool
    ensures { result ≡ is_scalar (number_from_digits 256 number.now.bytes) }
{
    is_below(&Uint { bytes: [0; 32] }, number) && is_below(number, &GROUP_ORDER)
}

// Whether a number is below another.
fn is_below(one: &Uint<32>, other: &Uint<32>) -> bool
    ensures { result ≡ nat_lt (number_from_digits 256 one.now.bytes)
        (number_from_digits 256 other.now.bytes) }
{
    uints_compare_as_numbers(one, other);
    one.cmp(other).is_lt()
}

/// Written as the [`Uint`] is.
impl Encodable for NonZeroScalar {
    ghost use Rattle.rlp_transactions.specs.NonZeroScalar.{scalar};

    ghost item = { scalar.item };

    ghost fits = { scalar.Fits };

    fn rlp_append(&self, s: &mut RlpStream) -> Result<(), AllocError> {
        self.number.rlp_append(s)
    }
}

/// Reading fails with `Custom("not a scalar of a signature")` if the number is 0, or not below the
/// order, and else as for [`Uint`]. It doesn't allocate.
impl Record for NonZeroScalar {
    ghost use Rattle.rlp_transactions.specs.NonZeroScalar.{scalar};

    ghost reading = { scalar.reading };

    #[tactic(auto, using(crate::proofs::Scalars::scalars_read))]
    fn decode(alloc: Global, rlp: &Rlp<'_>) -> Result<NonZeroScalar, DecoderError> {
        match NonZeroScalar::new(rlp.as_val(alloc)?) {
            Some(scalar) => Ok(scalar),
            None => Err(DecoderError::Custom("not a scalar of a signature")),
        }
    }

    fn put_path(_alloc: Global, _rlp: &Rlp<'_>, _path: &mut Vec<usize>) -> Result<(), AllocError> {
        Ok(())
    }

    ghost lawful = { scalar.reads_strictly };
}
