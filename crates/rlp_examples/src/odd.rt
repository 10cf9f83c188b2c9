//! A type that is only read, and has a fault of its own.

use rlp::{Decodable, DecodePlaced, DecoderError, Rlp};
use std::alloc::{AllocError, Global};

/// A number that is odd.
#[derive(Debug, PartialEq, Eq, Drop)]
pub struct Odd(pub u64);

/// Reads a number of at most eight bytes. Fails with `Custom("even")` if it is even.
impl Decodable for Odd {
    ghost use Rattle.rlp_examples.specs.Odd.{odd};

    ghost reading = { odd };

    fn decode(alloc: Global, rlp: &Rlp<'_>) -> Result<Odd, DecoderError> {
        let number: u64 = rlp.as_val(alloc)?;
        if number % 2 == 0 {
            return Err(DecoderError::Custom("even"));
        }
        Ok(Odd(number))
    }
}

impl DecodePlaced for Odd {
    fn put_path(_alloc: Global, _rlp: &Rlp<'_>, _path: &mut Vec<usize>) -> Result<(), AllocError> {
        Ok(())
    }
}
