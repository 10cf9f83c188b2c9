//! Reading with a bound on the number of items, for untrusted bytes.

ghost use Rattle.std.specs.Prelude.{◌≡◌, ◌⊎◌, Err, IfErr, IfOk, IsTrue, MatchResult, None, Ok, Some};
ghost use Rattle.rlp.specs.{DecoderError.TheVariants.OutOfMemory, Format.Encoding.encoding, Values.Value.AreAlike};
ghost use Rattle.rlp_reading.specs.Form.{fault_of};
ghost use Rattle.rlp_records.specs.Bounded.{IsBounded, IsWithinBounds, bound_fault, read_bounded};

use crate::envelope_items::{GREATEST_DEPTH, enveloped_items};
use rlp::{DecoderError, FlatItem, StrictRead, TreeFault};
use rlp_reading::walking::walk_whole;
use std::alloc::Global;

/// The record whose whole encoding the bytes are, if it has at most `most` items. Each string and
/// each list counts as one item, at every depth, and so does the record itself.
///
/// The items in an envelope count too. An envelope is a string that is a byte from 1 to 4, the type
/// of a transaction or a receipt, and then a list. If the list can't be read, each of its bytes
/// counts as one item. `envelopes` says inside how many lists of a record of the type `R` a
/// transaction or a receipt may stand, and is `None` for a type that holds none: a string anywhere
/// else, such as the input of a call, counts as one item whatever its bytes are. It is `Some(0)`
/// for a transaction or a receipt, `Some(1)` for a list of them, and `Some(2)` for a block or the
/// body of a block.
///
/// It walks over the bytes before it reads the record, and doesn't allocate for bytes that fail
/// there. For the encoding of a record within the bounds it fails only if memory is refused.
///
/// Fails with the first fault of the bytes if they aren't the encoding of an item, with
/// `Custom("nested too deep")` if lists nest deeper than 256, with `Custom("too many items")`, and
/// else with the strict fault of the record.
pub fn decode_at_most<R: StrictRead>(
    alloc: Global,
    bytes: &[u8],
    most: usize,
    envelopes: Option<usize>,
) -> Result<R, DecoderError>
    ensures whole { IfOk result (λ w. R.fits w × (bytes.now ≡ encoding (R.item w))) }
    ensures bounded { IfOk result (λ w. IsBounded most envelopes (R.item w)) }
    ensures value { IfOk result
        (λ w. (read_bounded most envelopes R.reading.read bytes.now).result ≡ Ok (R.reading.seen w)) }
    ensures fault { IfErr result
        (λ e. ((read_bounded most envelopes R.reading.read bytes.now).result ≡ Err (fault_of e))
        ⊎ (IsWithinBounds most envelopes bytes.now × ((e ≡ OutOfMemory) × IsTrue R.reading.takes_memory))) }
    ensures alike { (v : R) → R.fits v → bytes.now ≡ encoding (R.item v)
        → IfOk result (λ w. R.fits w × AreAlike R.item w v) }
    ensures memory { (v : R) → R.fits v → IsBounded most envelopes (R.item v)
        → bytes.now ≡ encoding (R.item v) → IfErr result (λ e. e ≡ OutOfMemory) }
{
    match test_bounds(bytes, most, envelopes) {
        Ok(()) => rlp::decode_whole(alloc, bytes),
        Err(fault) => Err(fault),
    }
}

/// Tests that the bytes are the encoding of an item within the bounds.
#[tactic(auto, using(crate::proofs::Bounds::bounding))]
fn test_bounds(bytes: &[u8], most: usize, envelopes: Option<usize>) -> Result<(), DecoderError>
    ensures within { MatchResult result (λ _. IsWithinBounds most envelopes bytes.now)
        (λ _. ¬ IsWithinBounds most envelopes bytes.now) }
    ensures fault { MatchResult result (λ _. bound_fault most envelopes bytes.now ≡ None)
        (λ e. bound_fault most envelopes bytes.now ≡ Some (fault_of e)) }
{
    let count = match walk_whole::<FlatItem>(bytes, GREATEST_DEPTH, &mut []) {
        Ok(count) => count,
        Err(TreeFault::Decoding(fault)) => return Err(fault),
        Err(TreeFault::TooDeep) => return Err(DecoderError::Custom("nested too deep")),
    };
    if count > most {
        return Err(DecoderError::Custom("too many items"));
    }
    if enveloped_items(bytes, envelopes) > most - count {
        return Err(DecoderError::Custom("too many items"));
    }
    Ok(())
}
