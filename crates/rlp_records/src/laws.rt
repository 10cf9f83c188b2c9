//! What holds of each record, a type with [`StrictRead`]: its encoding is the encoding of its item,
//! strict reading gives a value if and only if the bytes are its whole encoding, each value that is
//! written is read back, and two values with equal encodings have equal fields.

ghost use Rattle.std.specs.Prelude.{◌≡◌, ◌↔◌, false, IfErr, IfOk, IsOkAnd, IsTrue, OnOk};
ghost use Rattle.rlp.specs.{DecoderError.TheVariants.OutOfMemory, Format.Encoding.{encoding, IsSized}, Values.Value.AreAlike, Views.View.strict_view_of};
ghost use Rattle.rlp_reading.specs.Form.{Faults};

use bytes::BytesMut;
use rlp::{DecoderError, Encodable, StrictRead};
use std::alloc::{AllocError, Global};

/// The bytes of a record. The record fits, and the bytes are the encoding of its item.
pub fn record_is_written<R: StrictRead>(alloc: Global, value: &R) -> Result<BytesMut, AllocError>
    ensures fits { OnOk result (R.fits value.now) }
    ensures bytes { IfOk result (λ b. b.items ≡ encoding (R.item value.now)) }
{
    rlp::encode(alloc, value)
}

/// The record that bytes are, read strictly. The call gives a value if and only if the bytes are
/// the whole encoding of a value that fits: `whole` says that no other bytes give a value. `alike`
/// and `memory` say that the encoding gives the value, unless memory is refused. `only` says the
/// same as `whole` of each value that is alike to the result.
pub fn record_is_read<R: StrictRead>(alloc: Global, bytes: &[u8]) -> Result<R, DecoderError>
    ensures whole { IfOk result (λ w. R.fits w × (bytes.now ≡ encoding (R.item w))) }
    ensures only { (v : R) → IsOkAnd result (λ w. AreAlike R.item w v)
        → bytes.now ≡ encoding (R.item v) }
    ensures alike { (v : R) → R.fits v → bytes.now ≡ encoding (R.item v)
        → IfOk result (λ w. R.fits w × AreAlike R.item w v) }
    ensures memory { (v : R) → R.fits v → bytes.now ≡ encoding (R.item v)
        → IfErr result (λ e. (e ≡ OutOfMemory) × IsTrue R.reading.takes_memory) }
{
    rlp::decode_whole(alloc, bytes)
}

/// Writes a record, and reads it back: the record that is read has the same fields. The call fails
/// only if the record doesn't fit or memory is refused.
pub fn record_round_trips<R: StrictRead>(alloc: Global, value: &R) -> Result<R, DecoderError>
    ensures same { IfOk result (λ w. R.fits w × (R.reading.seen w ≡ R.reading.seen value.now)) }
    ensures memory { IfErr result (λ e. e ≡ OutOfMemory) }
{
    let bytes = record_is_written(alloc, value)?;
    record_is_read(alloc, bytes.as_slice())
}

/// The record that bytes are, read strictly, for a type whose reading doesn't allocate, such as a
/// withdrawal. The encoding of a value gives a value with the same fields, and for other bytes the
/// call fails with a fault of the type.
pub fn reading_without_memory_is_total<R: StrictRead>(
    alloc: Global,
    bytes: &[u8],
) -> Result<R, DecoderError>
    ensures value { R.reading.takes_memory ≡ false → (v : R) → R.fits v
        → bytes.now ≡ encoding (R.item v) → IsOkAnd result (λ w. R.fits w × (R.reading.seen w ≡ R.reading.seen v)) }
    ensures fault { R.reading.takes_memory ≡ false
        → IfErr result (λ e. Faults R.reading (strict_view_of bytes.now) e) }
{
    rlp::decode_whole(alloc, bytes)
}

/// Two records whose encodings are shorter than 2^64 bytes have equal encodings if and only if they
/// are alike: they are written as the same item. If the two fit and have equal encodings, they have
/// the same fields.
pub fn encodings_tell_records<R: StrictRead>(one: &R, other: &R)
    ensures alike { IsSized (R.item one.now) → IsSized (R.item other.now)
        → ((encoding (R.item one.now) ≡ encoding (R.item other.now))
        ↔ AreAlike R.item one.now other.now) }
    ensures fields { R.fits one.now → R.fits other.now
        → IsSized (R.item one.now) → IsSized (R.item other.now)
        → encoding (R.item one.now) ≡ encoding (R.item other.now) → R.reading.seen one.now ≡ R.reading.seen other.now }
{}
