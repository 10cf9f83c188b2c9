//! Options, written as a list of no items or of one item, and boxes, written as the value that they
//! hold.

ghost use Rattle.std.specs.{Prelude.{false, true}, Box.box_value};
ghost use Rattle.rlp_reading.proofs.ListLaws.{option_lawful, option_read_back, value_lawful, value_only, value_read_back};
ghost use Rattle.rlp_reading.specs.{Form.{BoxAllocates, boxed_reading, option_reading}, Laws.form_of};

use crate::rlpin::{Fields, Rlp};
use crate::traits::{Decodable, RoundTrip, Scalar, StrictRead};
use rlp_reading::error::DecoderError;
use std::alloc::Global;

/// Reads `None` from a list of no items, and `Some` of the item's value from a list of one item. It
/// looks at two items at most of a lenient view. It walks over all items of a strict view that has
/// more than two.
///
/// Fails with `RlpExpectedToBeList` if there are no bytes or the first byte begins a string, and
/// with `RlpIncorrectListLen` if there is more than one item.
impl<T: Decodable> Decodable for Option<T> {
    ghost reading = { option_reading T.reading };

    #[tactic(auto, using(rlp_reading::proofs::ListLaws::items_told, rlp_reading::proofs::ListLaws::items_faulty))]
    fn decode(alloc: Global, rlp: &Rlp<'_>) -> Result<Option<T>, DecoderError> {
        let mut items = Fields::framed(rlp)?;
        let first = items.next();
        if !items.has_ended() {
            if let Err(fault) = rlp.check_items() {
                return Err(fault);
            }
            if !items.is_empty() {
                return Err(DecoderError::RlpIncorrectListLen);
            }
        }
        match first {
            Some(item) => Ok(Some(item.as_val(alloc)?)),
            None => Ok(None),
        }
    }
}

impl<T: RoundTrip> RoundTrip for Option<T> {
    ghost round_trip = { option_read_back (form_of T.fits T.item T.reading) T.round_trip };
}

impl<T: StrictRead> StrictRead for Option<T> {
    ghost strict = { option_lawful (form_of T.fits T.item T.reading) T.strict };
}

/// Reads a value of type `T`, and puts it into a box.
impl<T: Decodable> Decodable for Box<T> {
    ghost reading = { boxed_reading box_value T.reading };

    fn decode(alloc: Global, rlp: &Rlp<'_>) -> Result<Box<T>, DecoderError> {
        let value = T::decode(alloc, rlp)?;
        Ok(Box::new(alloc, value)?)
    }
}

impl<T: RoundTrip> RoundTrip for Box<T> {
    ghost round_trip = { value_read_back (form_of T.fits T.item T.reading) box_value true (BoxAllocates T.reading) T.round_trip };
}

impl<T: Scalar> Scalar for Box<T> {
    ghost exact = { value_only (form_of T.fits T.item T.reading) box_value true (BoxAllocates T.reading) false T.exact };
}

impl<T: StrictRead> StrictRead for Box<T> {
    ghost strict = { value_lawful (form_of T.fits T.item T.reading) box_value true (BoxAllocates T.reading) T.strict };
}
