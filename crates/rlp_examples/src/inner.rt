//! A custom struct that is written as an unbounded list.

ghost use Rattle.rlp_examples.specs.Inner.{inner};

use rlp::{
    Decodable, DecodePlaced, DecoderError, Encodable, Rlp, RlpStream, RoundTrip, StrictRead,
};
use std::alloc::{AllocError, Global};

/// Two numbers, written as an unbounded list.
#[derive(Drop)]
pub struct Inner(pub u64, pub u64);

impl Encodable for Inner {
    ghost item = { inner.item };

    ghost fits = { inner.Fits };

    #[tactic(auto, using(rlp::proofs::Writing::writing))]
    fn rlp_append(&self, s: &mut RlpStream) -> Result<(), AllocError> {
        s.begin_unbounded_list()?.append(&self.0)?.append(&self.1)?;
        s.finalize_unbounded_list()?;
        Ok(())
    }
}

impl Decodable for Inner {
    ghost reading = { inner.reading };

    fn decode(alloc: Global, rlp: &Rlp<'_>) -> Result<Inner, DecoderError> {
        rlp::decode_fields!(alloc, rlp, Inner(first, second))
    }
}

impl DecodePlaced for Inner {
    fn put_path(alloc: Global, rlp: &Rlp<'_>, path: &mut Vec<usize>) -> Result<(), AllocError> {
        rlp::put_struct_path!(alloc, rlp, path, u64, u64)
    }
}

impl RoundTrip for Inner {
    ghost round_trip = { inner.reads_back };
}

impl StrictRead for Inner {
    ghost strict = { inner.reads_strictly };
}
