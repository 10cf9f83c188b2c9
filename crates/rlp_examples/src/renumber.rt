//! Functions over parcels, whose contracts say what the bytes are.

ghost use Rattle.std.specs.Prelude.{◌≡◌, IfOk};
ghost use Rattle.rlp.specs.Format.Encoding.{encoding};
ghost use Rattle.rlp_examples.specs.Parcel.{parcel};

use crate::Parcel;
use bytes::BytesMut;
use rlp::DecoderError;
use std::alloc::{AllocError, Global};

/// Reads a parcel. Fails with the fault of bytes that aren't exactly the encoding of a parcel, or
/// with `OutOfMemory`.
pub fn received(alloc: Global, bytes: &[u8]) -> Result<Parcel, DecoderError>
    ensures { IfOk result (λ p. bytes.now ≡ encoding (parcel.item p)) }
{
    rlp::decode_whole(alloc, bytes)
}

/// Gives a parcel another number, and returns its encoding.
pub fn renumbered(alloc: Global, old: Parcel, number: u64) -> Result<BytesMut, AllocError>
    ensures { IfOk result
        (λ b. b.items ≡ encoding (parcel.item (record old { number = number }))) }
{
    let mut new = old;
    new.number = number;
    rlp::encode(alloc, &new)
}
