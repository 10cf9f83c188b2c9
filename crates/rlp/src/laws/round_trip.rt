//! Encodings are read back, for every type with the law of `RoundTrip`.

ghost use Rattle.std.specs.Prelude.{◌≡◌, ◌↔◌, ◌++◌, ◌∷◌, ℕ, List, All, IfErr, IfOk, IsOkAnd, IsTrue, length, map};
ghost use Rattle.rlp_reading.specs.{declared.error.DecoderError.{DecoderError}, declared.error.DecoderError.TheVariants.OutOfMemory, Values.RoundTrip.ReadsBack, Values.ValueReading.GivesValue};
ghost use Rattle.rlp_reading.specs.{Format.Framing.items, Views.View.{HoldsItem, view_of}, Form.{Faults, Gives, list_reading, reading_at}};
ghost use Rattle.rlp_format.specs.{Format.Encoding.{BeginsWith, encoding, list_of}, Values.Value.AreAlike};

use crate::traits::{RoundTrip, Scalar};
use rlp_reading::error::DecoderError;
use std::alloc::Global;

/// A slice that begins with the encoding of a value that fits gives exactly the values that fit and
/// are alike to that value, and has no fault.
#[tactic(auto, using(rlp_reading::proofs::Corollaries::gives_back))]
pub fn encoding_is_read_back<T: RoundTrip>(bytes: &[u8])
    ensures { (v : T) → T.fits v → HoldsItem (view_of bytes.now) (T.item v)
        → ReadsBack T.fits T.item (Gives T.reading) (Faults T.reading) (view_of bytes.now) v }
{}

/// Bytes give a value of a type with [`Scalar`] if and only if the value fits and the bytes begin with
/// its encoding. If they do, the bytes have no fault.
#[tactic(auto, using(rlp_format::proofs::Lemmas::Digits::bytes_held, rlp_reading::proofs::Corollaries::gives_exactly, rlp_reading::proofs::Corollaries::gives_soundly))]
pub fn scalar_is_read<T: Scalar>(bytes: &[u8])
    ensures exact { (v : T) → Gives T.reading (view_of bytes.now) v
        ↔ GivesValue T.fits T.item (view_of bytes.now) v }
    ensures sound { (v : T) → GivesValue T.fits T.item (view_of bytes.now) v
        → (e : DecoderError) → ¬ Faults T.reading (view_of bytes.now) e }
{}

/// If bytes begin with the encoding of a list of values, the items are the encodings of the values,
/// in order. Each item gives exactly the values that fit and are alike to the value in its place,
/// and has no fault. So the bytes give the list of the values if all of them fit.
pub fn list_is_read_back<T: RoundTrip>(bytes: &[u8])
    ensures items { (vs : List T) → BeginsWith bytes.now (encoding (list_of (map T.item vs)))
        → items bytes.now ≡ map (λ v. encoding (T.item v)) vs }
    ensures each { (before after : List T) (v : T)
        → BeginsWith bytes.now (encoding (list_of (map T.item (before ++ v ∷ after))))
        → T.fits v → ReadsBack T.fits T.item (Gives (reading_at (length before) T.reading))
        (Faults (reading_at (length before) T.reading)) (view_of bytes.now) v }
    ensures all { (vs : List T) → All T.fits vs
        → BeginsWith bytes.now (encoding (list_of (map T.item vs)))
        → Gives (list_reading (λ xs. xs) T.reading) (view_of bytes.now) vs }
{}

/// The value that bytes begin with. If they begin with the encoding of a value that fits, the
/// result is alike to that value, or memory is refused.
#[tactic(auto, using(rlp_reading::proofs::Corollaries::answers_alike, rlp_reading::proofs::Corollaries::answers_memory))]
pub fn encoding_is_decoded<T: RoundTrip>(alloc: Global, bytes: &[u8]) -> Result<T, DecoderError>
    ensures alike { (v : T) → T.fits v → BeginsWith bytes.now (encoding (T.item v))
        → IfOk result (λ w. T.fits w × AreAlike T.item w v) }
    ensures memory { (v : T) → T.fits v → BeginsWith bytes.now (encoding (T.item v))
        → IfErr result (λ e. (e ≡ OutOfMemory) × IsTrue T.reading.takes_memory) }
{
    crate::decode(alloc, bytes)
}

/// The value that bytes begin with. It is alike to a value that fits if and only if they begin with
/// the encoding of that value. If they do, the call fails only if memory is refused.
#[tactic(auto, using(rlp_format::proofs::Lemmas::Digits::bytes_held, rlp_reading::proofs::Corollaries::answers_alike, rlp_reading::proofs::Corollaries::answers_begin, rlp_reading::proofs::Corollaries::answers_memory))]
pub fn scalar_is_decoded<T: Scalar>(alloc: Global, bytes: &[u8]) -> Result<T, DecoderError>
    ensures only { (v : T) → IsOkAnd result (λ w. AreAlike T.item w v)
        → BeginsWith bytes.now (encoding (T.item v)) }
    ensures alike { (v : T) → T.fits v → BeginsWith bytes.now (encoding (T.item v))
        → IfOk result (λ w. T.fits w × AreAlike T.item w v) }
    ensures memory { (v : T) → T.fits v → BeginsWith bytes.now (encoding (T.item v))
        → IfErr result (λ e. (e ≡ OutOfMemory) × IsTrue T.reading.takes_memory) }
{
    crate::decode(alloc, bytes)
}

/// The values of the items of a list. If bytes begin with the encoding of a list of values that
/// fit, the result has the same number of values, and each fits and is alike to the value in its
/// place. The call then fails only if memory is refused.
pub fn list_is_decoded<T: RoundTrip>(alloc: Global, bytes: &[u8]) -> Result<Vec<T>, DecoderError>
    ensures alike { (vs : List T) → All T.fits vs
        → BeginsWith bytes.now (encoding (list_of (map T.item vs)))
        → IfOk result (λ ws. All T.fits ws.items × (map T.item ws.items ≡ map T.item vs)) }
    ensures memory { (vs : List T) → All T.fits vs
        → BeginsWith bytes.now (encoding (list_of (map T.item vs)))
        → IfErr result (λ e. e ≡ OutOfMemory) }
{
    crate::decode_list(alloc, bytes)
}
