//! Big-endian digits of numbers to the base 256, for numbers of up to sixteen bytes. Numbers of up
//! to eight bytes are read and written in 64 bits. The code that writes the headers of a stream
//! makes the digits of the lengths itself.

ghost use Rattle.std.specs.{Prelude.{◌≡◌, ◌+◌, ◌≤◌, length, drop}, Int.{w64, w128, to_be_bytes}, Int.Digits.number_from_digits};
ghost use Rattle.rlp_format.specs.Format.Encoding.{big_endian};

use std::marker::Model;

/// The number of up to eight digits.
pub fn number_of(digits: &[u8]) -> usize
    requires { length digits.now ≤ 8 }
    ensures { result ≡ number_from_digits 256 digits.now }
{
    let mut number: usize = 0;
    for digit in digits {
        number = number * 256 + *digit as usize;
    }
    number
}

/// The number of up to sixteen digits: the number of the first digits, shifted by eight places, and
/// the number of the last eight digits.
#[tactic(auto, using(crate::proofs::Format::DigitBytes::halves))]
pub fn wide_number_of(digits: &[u8]) -> u128
    requires { length digits.now ≤ 16 }
    ensures { result ≡ number_from_digits 256 digits.now }
{
    if digits.len() <= 8 {
        return number_of(digits) as u128;
    }
    let (high, low) = digits.split_at(digits.len() - 8);
    number_of(high) as u128 * 0x1_0000_0000_0000_0000 + number_of(low) as u128
}

/// The digits of a number, without leading zeros. The digits are the last bytes of the array.
#[derive(Drop)]
pub struct Digits {
    bytes: [u8; 16],
    start: usize,
}

impl Model for Digits {
    ghost use Rattle.std.specs.Prelude.{ℕ, List, ◌≤◌, drop};

    ghost Value = { List ℕ };

    ghost view = { λ d. drop d.start d.bytes };

    ghost invariant = { λ d. d.start ≤ 16 };
}

impl Digits {
    /// The digits of a number of eight bytes.
    #[tactic(auto, using(crate::proofs::Format::DigitBytes::leading))]
    pub fn of(number: u64) -> Digits
        ensures { result ≡ big_endian number }
    {
        let mut bytes = [0; 16];
        bytes[8..].copy_from_slice(&number.to_be_bytes());
        Digits {
            bytes,
            start: 8 + leading_zero_bytes(number),
        }
    }

    /// The digits of a number of sixteen bytes.
    #[tactic(auto, using(crate::proofs::Format::DigitBytes::leading))]
    pub fn of_wide(number: u128) -> Digits
        ensures { result ≡ big_endian number }
    {
        Digits {
            bytes: number.to_be_bytes(),
            start: number.leading_zeros() as usize / 8,
        }
    }

    /// These digits.
    pub fn as_slice(&self) -> &[u8]
        ensures { result.now ≡ self.now }
    {
        &self.bytes[self.start..]
    }
}

/// The number of leading zeros in the eight bytes of a number.
#[tactic(auto, using(crate::proofs::Format::DigitBytes::leading))]
pub fn leading_zero_bytes(number: u64) -> usize
    ensures digits { drop result (to_be_bytes w64 number) ≡ big_endian number }
    ensures len { result + length (big_endian number) ≡ 8 }
{
    number.leading_zeros() as usize / 8
}
