//! Roots of the tries of lists of values.

ghost use Rattle.std.specs.Prelude.{◌≡◌, IfOk, map};
ghost use Rattle.rlp.specs.Format.Encoding.{encoding};
ghost use Rattle.rlp_records.specs.{Alone.bytes_alone, KnownOrOther.with_others};
ghost use Rattle.rlp_trie.specs.{BufferValues.buffer_bytes, Ordered.ordered_root};

use crate::ordered_root;
use bytes::BytesMut;
use rlp::Encodable;
use rlp_records::{Eip2718, Hash, KnownOrOther};
use std::alloc::{AllocError, Global};

/// The root of the trie that has the bytes of each buffer at its place.
fn buffers_root(alloc: Global, buffers: &[BytesMut]) -> Result<Hash, AllocError>
    ensures { IfOk result (λ h. h.0 ≡ ordered_root (map buffer_bytes buffers.now)) }
{
    let mut values = Vec::new(alloc);
    for buffer in buffers {
        values.push(buffer.as_slice())?;
    }
    ordered_root(alloc, values.as_slice())
}

/// Returns the root of the trie that has the encoding of each value at its place, such as the root
/// of a block's withdrawals. Fails as [`rlp::encode`] does.
pub fn encodings_root<E: Encodable>(alloc: Global, values: &[E]) -> Result<Hash, AllocError>
    ensures { IfOk result (λ h. h.0 ≡ ordered_root (map (λ v. encoding (E.item v)) values.now)) }
{
    let mut buffers = Vec::new(alloc);
    for value in values {
        buffers.push(rlp::encode(alloc, value)?)?;
    }
    buffers_root(alloc, buffers.as_slice())
}

/// Returns the root of the trie that has the standalone bytes of each value at its place, such as
/// the roots of a block's transactions and receipts. Fails as [`KnownOrOther::to_bytes`] does.
pub fn standalone_root<T: Eip2718>(
    alloc: Global,
    values: &[KnownOrOther<T>],
) -> Result<Hash, AllocError>
    ensures { IfOk result (λ h. h.0 ≡ ordered_root
        (map (λ v. bytes_alone ((with_others T.types).item v)) values.now)) }
{
    let mut buffers = Vec::new(alloc);
    for value in values {
        buffers.push(value.to_bytes(alloc)?)?;
    }
    buffers_root(alloc, buffers.as_slice())
}
