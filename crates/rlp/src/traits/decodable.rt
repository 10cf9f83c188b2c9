//! Types whose values are read.

ghost use Rattle.std.specs.Prelude.{◌≡◌, ◌⊎◌, IfOk, IfErr};
ghost use Rattle.rlp_reading.specs.{declared.error.DecoderError.TheVariants.OutOfMemory, Form.{Faults, Gives, MayLackMemory, Reading}};

use crate::rlpin::Rlp;
use rlp_reading::error::DecoderError;
use std::alloc::Global;

/// A type whose values are read from the beginning of a view.
///
/// An implementation says what each view gives: a value or a fault. `decode` returns that value or
/// fault, or else `OutOfMemory`. Most implementations read one string by
/// [`BasicDecoder::decode_value`](crate::BasicDecoder::decode_value), or a value of another type by
/// [`Rlp::as_val`].
///
/// ```rust
/// pub struct BlockNumber(pub u64);
///
/// impl Decodable for BlockNumber {
///     ghost use Rattle.rlp.specs.Codec.{newtype, number};
///
///     ghost reading = { (newtype (λ n. n.0) (number 8)).reading };
///
///     fn decode(alloc: Global, rlp: &Rlp<'_>) -> Result<BlockNumber, DecoderError> {
///         Ok(BlockNumber(rlp.as_val(alloc)?))
///     }
/// }
/// ```
pub trait Decodable: Sized + Drop {
    /// What contracts see of a value, what each view gives, and for which views reading
    /// allocates.
    ghost reading: { Reading Self };

    /// Reads the value that the view begins with. The types of this crate ignore bytes that follow
    /// the item of the value.
    ///
    /// Fails with the fault that the view gives, or with `OutOfMemory` if reading allocates for this
    /// view and memory is refused.
    fn decode(alloc: Global, rlp: &Rlp<'_>) -> Result<Self, DecoderError>
        ensures value { IfOk result (λ x. Gives reading rlp.now x) }
        ensures fault { IfErr result (λ e. Faults reading rlp.now e
            ⊎ ((e ≡ OutOfMemory) × MayLackMemory reading rlp.now)) };
}
