//! Types whose values are written.

ghost use Rattle.std.specs.Prelude.{◌≡◌, ◌≤◌, IsOk, OnOk, OnErr, IfOk, length};
ghost use Rattle.rlp_format.specs.Format.Encoding.{Item, encoding};
ghost use Rattle.rlp_write.specs.{Streams.Stream.{IsFinished, MovedGrows, put_item}, Streams.Growth.GrowsTo};

use crate::stream::RlpStream;
use bytes::BytesMut;
use std::alloc::{AllocError, Global};

/// A type whose values are written as items. An item is a byte string or a list of items.
///
/// A type says by `item` which item a value is, and by `fits` which values belong to the type. Its
/// `rlp_append` calls the stream, and the prover checks that it leaves the stream as the contract
/// says:
///
/// ```rust
/// pub struct BlockNumber(pub u64);
///
/// impl Encodable for BlockNumber {
///     ghost use Rattle.rlp.specs.Values.Value.{number_item, FitsBytes};
///
///     ghost item = { λ v. number_item v.0 };
///
///     ghost fits = { λ v. FitsBytes 8 v.0 };
///
///     fn rlp_append(&self, s: &mut RlpStream) -> Result<(), AllocError> {
///         self.0.rlp_append(s)
///     }
/// }
/// ```
///
/// A body that writes in several steps needs the lemmas of
/// `#[tactic(auto, using(rlp::proofs::Growth::growth))]`. They prove what the stream's state is if
/// a later step fails.
pub trait Encodable {
    /// The item of a value.
    ghost item: { Self → Item };

    /// Whether the value belongs to the type. Definitions and laws speak of more values: `fits`
    /// says that a number is in the type's range, or that a text is UTF-8.
    ghost fits: { Self → Type 0 };

    /// Writing the value fails only if the stream lacks room: if no list is open and the stream has
    /// room for the encoding, [`Encodable::rlp_append`] writes it. The provided types that are
    /// strings promise this of each value. By default a type promises this of no value.
    ghost needs_only_room: { Self → Type 0 } = { λ _. ⊥ };

    /// Writes the value into a stream. For a string it writes the encoding and counts no item. For
    /// a list it writes the encoding, counts one item, and sets `is_counted`, which says that the item
    /// is counted.
    ///
    /// Fails with `AllocError` if memory is refused, or for a reason of the type. The stream then
    /// holds its old bytes and its old open lists, and maybe more after them, and
    /// [`RlpStream::append`] restores the old state. Whether it fails or not, the count of moved
    /// bytes doesn't fall.
    fn rlp_append(&self, s: &mut RlpStream) -> Result<(), AllocError>
        ensures fits { OnOk result (fits self.now) }
        ensures ok { OnOk result (s.new.state ≡ put_item (item self.now) s.old.state) }
        ensures room { needs_only_room self.now → IsFinished s.old.state
            → length (encoding (item self.now)) ≤ s.old.spare → IsOk result }
        ensures refused { OnErr result (GrowsTo s.old.state s.new.state) }
        ensures moved { MovedGrows s.old s.new };

    /// Returns the encoding of the value. Fails with `AllocError` if memory is refused, or if
    /// [`Encodable::rlp_append`] fails.
    ///
    /// The default body writes into a stream with room for 1,024 bytes. The provided types that are
    /// strings allocate once, the length of the encoding.
    fn rlp_bytes(&self, alloc: Global) -> Result<BytesMut, AllocError>
        ensures fits { OnOk result (fits self.now) }
        ensures bytes { IfOk result (λ b. b.items ≡ encoding (item self.now)) }
    {
        let mut s = RlpStream::new(alloc)?;
        self.rlp_append(&mut s)?;
        Ok(s.out())
    }
}
