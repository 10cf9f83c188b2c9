//! Writing: a stream of encodings.

ghost use Rattle.std.specs.{Prelude.{◌≡◌, ◌≤◌, ◌<◌, ◌^◌, ℕ, List, IsTrue, IsOk, IfOk, IfErr, OnOk, OnErr, [], length, map, min, All, false}, Borrow.sem};
ghost use Rattle.std.specs.Iterator.{IsFiniteIterable};
ghost use Rattle.rlp_format.specs.Format.Encoding.{Item, is_list, string, list_of, encoding};
ghost use Rattle.rlp_write.specs.Streams.Stream.{unbounded_count, append, append_empty_data, append_raw, append_raw_checked, begin_list, begin_unbounded_list, finalize_unbounded_list, append_internal, effect, finalized, is_admitted, is_within_size, initial_state, IsFinished, IsAsBefore, MovedGrows, MovesWithin, closed_size, closed_size_with, put_item};
ghost use Rattle.rlp_write.specs.{Streams.Iterated.GivesAll, Streams.Chain.{stays_if_refused, rests_if_refused, HoldsStream}};

mod chain;
mod encoder;
mod steps;

use crate::NULL_RLP;
pub use crate::flat::RlpStream;
use crate::structs::Listed;
use crate::traits::Encodable;
use bytes::BytesMut;
pub use chain::Chain;
pub use encoder::BasicEncoder;
use std::alloc::{AllocError, Global};

// The number of bytes that a new stream takes without another allocation.
const STARTING_CAPACITY: usize = 1024;

impl RlpStream {
    /// An empty stream. Fails with `AllocError` if memory is refused.
    pub fn new(alloc: Global) -> Result<RlpStream, AllocError>
        ensures state { IfOk result (λ s. s.state ≡ initial_state []) }
        ensures spare { IfOk result (λ s. 1024 ≤ s.spare) }
        ensures moved { IfOk result (λ s. s.moved ≡ 0) }
    {
        let buffer = BytesMut::with_capacity(alloc, STARTING_CAPACITY)?;
        Ok(RlpStream::new_with_buffer(alloc, buffer))
    }

    /// A stream in which a list is begun, as by [`RlpStream::begin_list`].
    pub fn new_list(alloc: Global, len: usize) -> Result<RlpStream, AllocError>
        ensures ok { IfOk result
            (λ s. s.state ≡ effect (begin_list len) (initial_state [])) }
        ensures moved { IfOk result (λ s. s.moved ≤ closed_size s.state) }
    {
        let mut s = RlpStream::new(alloc)?;
        s.try_begin(len)?;
        Ok(s)
    }

    /// A stream whose front is the given bytes, in which a list is begun. If memory is refused, it
    /// returns the buffer with its bytes unchanged.
    pub fn new_list_with_buffer(
        alloc: Global,
        buffer: BytesMut,
        len: usize,
    ) -> Result<RlpStream, BytesMut>
        ensures ok { IfOk result
            (λ s. s.state ≡ effect (begin_list len) (initial_state buffer.items)) }
        ensures moved { IfOk result (λ s. s.moved ≤ closed_size s.state) }
        ensures refused { IfErr result (λ b. b.items ≡ buffer.items) }
    {
        let mut s = RlpStream::new_with_buffer(alloc, buffer);
        match s.try_begin(len) {
            Ok(()) => Ok(s),
            Err(_) => Err(s.out()),
        }
    }

    /// Appends a value: puts its encoding, and counts one item in the innermost open list.
    ///
    /// The result passes the stream on, so calls chain by `?`. Fails with `AllocError` if memory is
    /// refused, or if the value's own [`Encodable::rlp_append`] fails. The stream is then as it was
    /// before the call.
    #[inline(always)]
    pub fn append<E: Encodable>(&mut self, value: &E) -> Result<Chain<'_>, AllocError>
        ensures* refused { sem 𝓛 (stays_if_refused self.entry result) }
        ensures fits { OnOk result (E.fits value.now) }
        ensures ok { IfOk result
            (λ c. c.stream.now.state ≡ effect (append (E.item value.now)) self.old.state) }
        ensures room { E.needs_only_room value.now → IsFinished self.old.state
            → length (encoding (E.item value.now)) ≤ self.old.spare → IsOk result }
        ensures moved { IfOk result (λ c. MovedGrows self.old c.stream.now) }
        ensures same_stream { HoldsStream self.entry result }
    {
        self.try_append(value)?;
        Ok(Chain { stream: self })
    }

    /// Appends the string of the bytes that an iterator gives. It writes each byte when the
    /// iterator gives it, and then inserts the header for the number of bytes. The iterator must
    /// end.
    pub fn append_iter<I: IntoIterator<Item = u8>>(
        &mut self,
        value: I,
    ) -> Result<Chain<'_>, AllocError>
        requires { IsFiniteIterable I.into_iter_gives I.IntoIter.can_next I.IntoIter.remaining value }
        ensures* refused { sem 𝓛 (stays_if_refused self.entry result) }
        ensures ok { IfOk result (λ c. (s : List ℕ)
            × GivesAll I.into_iter_gives I.IntoIter.next_gives value s
            × (c.stream.now.state ≡ effect (append (string s)) self.old.state)) }
        ensures moved { IfOk result (λ c. MovedGrows self.old c.stream.now) }
        ensures same_stream { HoldsStream self.entry result }
    {
        self.try_append_iter(value)?;
        Ok(Chain { stream: self })
    }

    /// Appends the list of the values: begins a list that awaits as many items as there are values,
    /// and appends each value.
    pub fn append_list<E: Encodable>(&mut self, values: &[E]) -> Result<Chain<'_>, AllocError>
        ensures* refused { sem 𝓛 (stays_if_refused self.entry result) }
        ensures fits { OnOk result (All E.fits values.now) }
        ensures ok { IfOk result (λ c. c.stream.now.state
            ≡ effect (append (list_of (map E.item values.now))) self.old.state) }
        ensures moved { IfOk result (λ c. MovedGrows self.old c.stream.now) }
        ensures same_stream { HoldsStream self.entry result }
    {
        self.try_append(&Listed(values))?;
        Ok(Chain { stream: self })
    }

    /// Writes a value only by its own [`Encodable::rlp_append`]. A string isn't counted, and a list
    /// counts itself. Use it in the `rlp_append` of a custom type that wraps another value.
    pub fn append_internal<E: Encodable>(&mut self, value: &E) -> Result<Chain<'_>, AllocError>
        ensures* refused { sem 𝓛 (stays_if_refused self.entry result) }
        ensures fits { OnOk result (E.fits value.now) }
        ensures ok { IfOk result
            (λ c. c.stream.now.state ≡ effect (append_internal (E.item value.now)) self.old.state) }
        ensures room { E.needs_only_room value.now → IsFinished self.old.state
            → length (encoding (E.item value.now)) ≤ self.old.spare → IsOk result }
        ensures moved { IfOk result (λ c. MovedGrows self.old c.stream.now) }
        ensures same_stream { HoldsStream self.entry result }
    {
        self.try_append_internal(value)?;
        Ok(Chain { stream: self })
    }

    /// Puts the encoding of the empty string, and counts one item.
    pub fn append_empty_data(&mut self) -> Result<Chain<'_>, AllocError>
        ensures* refused { sem 𝓛 (rests_if_refused self.entry result) }
        ensures ok { IfOk result
            (λ c. c.stream.now.state ≡ effect append_empty_data self.old.state) }
        ensures room { IsFinished self.old.state → 1 ≤ self.old.spare → IsOk result }
        ensures moved { IfOk result (λ c. MovesWithin self.old c.stream.now) }
        ensures same_stream { HoldsStream self.entry result }
    {
        self.put_counted(&NULL_RLP, 1)?;
        Ok(Chain { stream: self })
    }

    /// Puts bytes as they are, and counts `item_count` items. If the innermost open list is
    /// bounded, it must await at least that number of items: test this by
    /// [`RlpStream::items_awaited`].
    ///
    /// It doesn't test whether the bytes are encodings of that number of items.
    pub fn append_raw(&mut self, bytes: &[u8], item_count: usize) -> Result<Chain<'_>, AllocError>
        requires { IsTrue (is_admitted (append_raw bytes.now item_count) self.old.state) }
        ensures* refused { sem 𝓛 (rests_if_refused self.entry result) }
        ensures ok { IfOk result
            (λ c. c.stream.now.state ≡ effect (append_raw bytes.now item_count) self.old.state) }
        ensures room { IsFinished self.old.state
            → length bytes.now ≤ self.old.spare → IsOk result }
        ensures moved { IfOk result (λ c. MovesWithin self.old c.stream.now) }
        ensures same_stream { HoldsStream self.entry result }
    {
        self.put_counted(bytes, item_count)?;
        Ok(Chain { stream: self })
    }

    /// The same as [`RlpStream::append_raw`] if the closed size with the bytes is at most
    /// `max_size`. It then returns `true`. Otherwise it returns `false` and changes nothing.
    ///
    /// ```rust
    /// let mut s = rlp::RlpStream::new_list(alloc, 3)?;
    /// assert!(rt; !s.append_raw_checked(&[1], 1, 1)?);
    /// assert!(rt; s.append_raw_checked(&[1], 1, 2)?);
    /// ```
    pub fn append_raw_checked(
        &mut self,
        bytes: &[u8],
        item_count: usize,
        max_size: usize,
    ) -> Result<bool, AllocError>
        requires { IsTrue (is_admitted (append_raw_checked bytes.now item_count max_size)
            self.old.state) }
        ensures refused { OnErr result (IsAsBefore self.old self.new) }
        ensures ok { OnOk result (self.new.state
            ≡ effect (append_raw_checked bytes.now item_count max_size) self.old.state) }
        ensures within { IfOk result
            (λ put. put ≡ is_within_size bytes.now max_size self.old.state) }
        ensures too_large { is_within_size bytes.now max_size self.old.state ≡ false
            → IsOk result × IsAsBefore self.old self.new }
        ensures room { IsFinished self.old.state
            → length bytes.now ≤ self.old.spare → IsOk result }
        ensures moved { MovesWithin self.old self.new }
    {
        if !self.is_within_size(bytes, max_size) {
            return Ok(false);
        }
        self.put_counted(bytes, item_count).map(|()| true)
    }

    /// Begins a list that awaits `len` items. The last of these items closes the list. A list of no
    /// items is written at once.
    pub fn begin_list(&mut self, len: usize) -> Result<Chain<'_>, AllocError>
        ensures* refused { sem 𝓛 (rests_if_refused self.entry result) }
        ensures ok { IfOk result
            (λ c. c.stream.now.state ≡ effect (begin_list len) self.old.state) }
        ensures moved { IfOk result (λ c. MovesWithin self.old c.stream.now) }
        ensures same_stream { HoldsStream self.entry result }
    {
        self.try_begin(len)?;
        Ok(Chain { stream: self })
    }

    /// Begins an unbounded list, which [`RlpStream::finalize_unbounded_list`] closes.
    pub fn begin_unbounded_list(&mut self) -> Result<Chain<'_>, AllocError>
        ensures* refused { sem 𝓛 (rests_if_refused self.entry result) }
        ensures ok { IfOk result
            (λ c. c.stream.now.state ≡ effect begin_unbounded_list self.old.state) }
        ensures moved { IfOk result (λ c. MovesWithin self.old c.stream.now) }
        ensures not_moved { IfOk result (λ c. c.stream.now.moved ≡ self.old.moved) }
        ensures same_stream { HoldsStream self.entry result }
    {
        self.open(None)?;
        Ok(Chain { stream: self })
    }

    /// Closes the innermost open list, and counts it in the list around it. The list must be
    /// unbounded: test this by [`RlpStream::can_finalize`]. The closed size doesn't change.
    pub fn finalize_unbounded_list(&mut self) -> Result<(), AllocError>
        requires { IsTrue (is_admitted finalize_unbounded_list self.old.state) }
        ensures ok { OnOk result (self.new.state ≡ effect finalize_unbounded_list self.old.state) }
        ensures refused { OnErr result (IsAsBefore self.old self.new) }
        ensures size { closed_size self.new.state ≡ closed_size self.old.state }
        ensures moved { MovesWithin self.old self.new }
    {
        self.try_finalize(1)?;
        Ok(())
    }

    /// Closes the innermost open lists that are unbounded, at most `most` of them, from the inside
    /// out, and returns their number. It does the same as that number of calls of
    /// [`RlpStream::finalize_unbounded_list`], but moves each byte of payload at most once.
    ///
    /// The outermost of the closed lists counts as an item of the list around it. If that list
    /// awaits no further item, it is closed too.
    ///
    /// ```rust
    /// let mut s = rlp::RlpStream::new(alloc)?;
    /// s.begin_unbounded_list()?.begin_unbounded_list()?.append(&1u64)?;
    /// assert!(rt; s.finalize_unbounded_lists(9)? == 2);
    /// assert_eq!(rt; s.out().as_slice(), [0xc2, 0xc1, 0x01]);
    /// ```
    #[tactic(auto, using(crate::proofs::Streams::States::size_kept_each))]
    pub fn finalize_unbounded_lists(&mut self, most: usize) -> Result<usize, AllocError>
        ensures number { IfOk result
            (λ n. n ≡ min most (unbounded_count self.old.state.stack.lists)) }
        ensures ok { IfOk result (λ n. self.new.state ≡ finalized n self.old.state) }
        ensures refused { OnErr result (IsAsBefore self.old self.new) }
        ensures size { closed_size self.new.state ≡ closed_size self.old.state }
        ensures moved { MovesWithin self.old self.new }
    {
        let count = self.unbounded_lists(most);
        if count > 0 {
            self.try_finalize(count)?;
        }
        Ok(count)
    }

    /// The size of [`RlpStream::len`] with `add` more bytes put. The size must be less than 2^64:
    /// test this by [`RlpStream::checked_estimate_size`].
    pub fn estimate_size(&self, add: usize) -> usize
        requires { closed_size_with add self.now.state < 2 ^ 64 }
        ensures { result ≡ closed_size_with add self.now.state }
    {
        self.checked_estimate_size(add).unwrap()
    }

    /// A writer of strings into this stream. It doesn't count the strings.
    pub fn encoder(&mut self) -> BasicEncoder<'_>
        ensures same_reference { result.stream.ghost_name ≡ self.entry.ghost_name }
        ensures same { result.stream.now ≡ self.old }
    {
        BasicEncoder { stream: self }
    }
}

/// Writes a list from its encoding, as the `rlp_append` of a list does: puts the bytes, and counts
/// one item. The bytes must be the encoding of a list.
///
/// Fails with `AllocError` if memory is refused, and then writes nothing.
#[tactic(auto, using(crate::proofs::Streams::Listed::encoded))]
pub fn append_list_encoding(s: &mut RlpStream, bytes: &[u8]) -> Result<(), AllocError>
    requires { (x : Item) × IsTrue (is_list x) × (bytes.now ≡ encoding x) }
    ensures ok { (x : Item) → IsTrue (is_list x) → bytes.now ≡ encoding x
        → OnOk result (s.new.state ≡ put_item x s.old.state) }
    ensures refused { OnErr result (IsAsBefore s.old s.new) }
    ensures moved { MovedGrows s.old s.new }
{
    s.put_counted(bytes, 1)?;
    s.set_counted(true);
    Ok(())
}
