//! A custom type that is written and read as a number.

ghost use Rattle.rlp.specs.{Values.Value.{FitsBytes, number_item}, Codec.{newtype, number}};

use rlp::{
    Decodable, DecodePlaced, DecoderError, Encodable, Rlp, RlpStream, RoundTrip, StrictRead,
};
use std::alloc::{AllocError, Global};

/// The number of transactions that an account has sent.
#[derive(Drop)]
pub struct Nonce(pub u64);

/// Written as a `u64`.
impl Encodable for Nonce {
    ghost item = { λ n. number_item n.0 };

    ghost fits = { λ n. FitsBytes 8 n.0 };

    fn rlp_append(&self, s: &mut RlpStream) -> Result<(), AllocError> {
        self.0.rlp_append(s)
    }
}

/// Read as a `u64`.
impl Decodable for Nonce {
    ghost reading = { (newtype (λ (n : Self). n.0) (number 8)).reading };

    fn decode(alloc: Global, rlp: &Rlp<'_>) -> Result<Nonce, DecoderError> {
        let sent = rlp.as_val(alloc)?;
        Ok(Nonce(sent))
    }
}

impl DecodePlaced for Nonce {
    fn put_path(_alloc: Global, _rlp: &Rlp<'_>, _path: &mut Vec<usize>) -> Result<(), AllocError> {
        Ok(())
    }
}

impl RoundTrip for Nonce {
    ghost round_trip = { (newtype (λ (n : Self). n.0) (number 8)).reads_back };
}

impl StrictRead for Nonce {
    ghost strict = { (newtype (λ (n : Self). n.0) (number 8)).reads_strictly };
}
