//! Strings that hold a tag and the encoding of a payload.

ghost use Rattle.std.specs.Prelude.{◌≡◌, ◌≤◌, ◌∷◌, OnOk, OnErr};
ghost use Rattle.rlp_format.specs.Format.Encoding.{encoding, string};
ghost use Rattle.rlp_write.specs.{Streams.Stream.{IsAsBefore, put_item}, Streams.Growth.GrowsTo};

use crate::stream::RlpStream;
use crate::traits::Encodable;
use bytes::{BufMut, BytesMut};
use std::alloc::AllocError;

/// Writes the string of the byte `tag` and the encoding of `payload`, as in EIP-2718. Use it in
/// [`Encodable::rlp_append`] of a type whose values are such strings. It counts no item.
///
/// The payload is written into a buffer of its own first. Fails with `AllocError` if memory is
/// refused, or if the [`Encodable::rlp_append`] of the payload fails, and then writes nothing.
#[tactic(auto, using(crate::proofs::Streams::Growth::growth))]
pub fn write_envelope<T: Encodable>(
    s: &mut RlpStream,
    tag: u8,
    payload: &T,
) -> Result<(), AllocError>
    ensures fits { OnOk result (T.fits payload.now) }
    ensures ok { OnOk result
        (s.new.state ≡ put_item (string (tag ∷ encoding (T.item payload.now))) s.old.state) }
    ensures refused { OnErr result (IsAsBefore s.old s.new) }
    // This clause follows from the clauses above: with it, an `rlp_append` that returns the result
    // needs no lemma.
    ensures grows { OnErr result (GrowsTo s.old.state s.new.state) }
    ensures moved { s.old.moved ≤ s.new.moved }
{
    let mut buffer = BytesMut::new(s.allocator());
    buffer.put_u8(tag)?;
    let mut envelope = RlpStream::new_with_buffer(s.allocator(), buffer);
    envelope.try_append(payload)?;
    let bytes = envelope.out();
    s.put_string(bytes.as_slice())
}
