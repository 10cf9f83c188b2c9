//! A custom struct: the list of its two fields.

ghost use Rattle.std.specs.Prelude.{◌≡◌, IfErr, IfOk};
ghost use Rattle.rlp.specs.{DecoderError.TheVariants.OutOfMemory, Format.Encoding.{BeginsWith, encoding}};
ghost use Rattle.rlp_hand_written.specs.Pair.{pair};

use rlp::{
    Decodable, DecodePlaced, DecoderError, Encodable, Fields, Rlp, RlpStream, RoundTrip,
    StrictRead, laws,
};
use std::alloc::{AllocError, Global};

/// Two numbers.
#[derive(Clone, Copy)]
pub struct Pair(pub u64, pub u64);

impl Encodable for Pair {
    ghost item = { pair.item };

    ghost fits = { pair.Fits };

    #[tactic(auto, using(rlp::proofs::Writing::writing))]
    fn rlp_append(&self, s: &mut RlpStream) -> Result<(), AllocError> {
        s.begin_list(2)?.append(&self.0)?.append(&self.1)?;
        Ok(())
    }
}

impl Decodable for Pair {
    ghost reading = { pair.reading };

    fn decode(alloc: Global, rlp: &Rlp<'_>) -> Result<Pair, DecoderError> {
        let mut items = Fields::of(rlp)?;
        let (Some(first), Some(second), None) = (items.next(), items.next(), items.next()) else {
            return Err(DecoderError::RlpIncorrectListLen);
        };
        let first = first.as_val(alloc)?;
        let second = second.as_val(alloc)?;
        Ok(Pair(first, second))
    }
}

impl DecodePlaced for Pair {
    fn put_path(alloc: Global, rlp: &Rlp<'_>, path: &mut Vec<usize>) -> Result<(), AllocError> {
        rlp::put_struct_path!(alloc, rlp, path, u64, u64)
    }
}

impl RoundTrip for Pair {
    ghost round_trip = { pair.reads_back };
}

impl StrictRead for Pair {
    ghost strict = { pair.reads_strictly };
}

/// Reads a pair. If the bytes begin with the encoding of a pair that fits, the law of [`RoundTrip`] says
/// that the result is that pair, or `OutOfMemory`.
pub fn pair_back(alloc: Global, bytes: &[u8], wanted: &Pair) -> Result<Pair, DecoderError>
    ensures alike { pair.Fits wanted.now → BeginsWith bytes.now (encoding (pair.item wanted.now))
        → IfOk result (λ p. pair.item p ≡ pair.item wanted.now) }
    ensures memory { pair.Fits wanted.now → BeginsWith bytes.now (encoding (pair.item wanted.now))
        → IfErr result (λ e. e ≡ OutOfMemory) }
{
    laws::encoding_is_decoded(alloc, bytes)
}
