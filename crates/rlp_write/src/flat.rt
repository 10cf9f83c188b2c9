//! A stream as one flat buffer, and the moves on it. Only the functions of this module touch the
//! fields of a stream: all other functions see its state.

ghost use Rattle.std.specs.Prelude.{◌≡◌, ◌≤◌, ◌<◌, ◌+◌, ◌*◌, ◌^◌, ◌++◌, ◌↔◌, ℕ, List, IsTrue, IsOk, OnOk, OnErr, false, length, min};
ghost use Rattle.std.specs.{Iterator.IsFiniteIterable, Option.SomeIff};
ghost use Rattle.bytes.specs.Filled.{MakesSpare};
ghost use Rattle.rlp_format.specs.Format.Encoding.{string, encoding};
ghost use Rattle.rlp_write.specs.Streams.Stream.{AwaitsSome, awaited, is_counted_after, is_unbounded, unbounded_count, clear, effect, State, IsAsBefore, IsFinished, MovesWithin, closed_size, closed_size_with, count, initial_state, put, raw_text, with_awaiting, with_is_counted, with_list};
ghost use Rattle.rlp_write.specs.{Streams.Growth.GrowsTo, Streams.Places.place_of, Streams.Iterated.GivesAll};

use crate::buffer::Buffer;
use crate::buffer::strings::{write_string, write_string_of};
use crate::closing::{close_lists, closed_len, plan_count};
use crate::open_lists::{OpenLists, Placeholder};
use bytes::BytesMut;
use std::alloc::{AllocError, Global};
use std::marker::Model;

/// A stream of encodings, which grows as values are appended.
///
/// A list is opened with the number of items that it awaits, and its last item closes it. An
/// unbounded list has no such number, and [`RlpStream::finalize_unbounded_list`] closes it. Lists
/// may nest. A closed list is one item of the list around it.
///
/// Contracts see the state of a stream: the front, which is the bytes that the stream was given
/// when it was made, what was written after the front, the open lists, and `is_counted`, which
/// tells [`RlpStream::append`] whether the value that was just written is counted already. They
/// also see how many more bytes the buffer takes without an allocation, and how many bytes of
/// payload were moved to make place for headers. A call that fails leaves the state as it was,
/// including `is_counted`.
///
/// ```rust
/// let mut s = rlp::RlpStream::new_list(alloc, 2)?;
/// s.append(&"cat")?.begin_list(2)?.append(&1u64)?.append(&"")?;
/// assert_eq!(rt; s.out().as_slice(), [0xc7, 0x83, 0x63, 0x61, 0x74, 0xc2, 0x01, 0x80]);
/// ```
#[derive(Drop)]
pub struct RlpStream {
    // The front, and what was written after it. It counts the bytes that closings move.
    buffer: Buffer,
    // Where the front ends.
    start: usize,
    // The open lists.
    lists: OpenLists,
    // Whether the value that was just written is counted already, as a whole list is.
    is_counted: bool,
}

impl Model for RlpStream {
    ghost use Rattle.rlp_write.specs.{Streams.Stream.Seen, Streams.Placeholders.IsLaid, Streams.Layout.state_of};

    ghost Value = { Seen };

    ghost view = { λ s. record {
      state = state_of s.start s.buffer.items s.lists s.is_counted;
      spare = s.buffer.spare;
      moved = s.buffer.moved;
    } };

    ghost invariant = { λ s. IsLaid s.start s.buffer.items s.lists };
}

/// The place of a stream at the beginning of a call: what the call may change.
#[derive(Clone, Copy)]
pub(crate) struct Place {
    /// The number of bytes in the buffer.
    len: usize,
    /// The number of open lists.
    open_count: usize,
    /// The number of items that the innermost list awaits.
    awaits: Option<usize>,
    /// Whether the value that was just written is counted already.
    is_counted: bool,
}

impl RlpStream {
    /// A stream whose front is the given bytes. It doesn't allocate.
    pub fn new_with_buffer(alloc: Global, buffer: BytesMut) -> RlpStream
        ensures state { result.state ≡ initial_state buffer.items }
        ensures spare { result.spare ≡ buffer.spare }
        ensures moved { result.moved ≡ 0 }
    {
        let start = buffer.len();
        RlpStream {
            buffer: Buffer::new(buffer),
            start,
            lists: OpenLists::new(alloc),
            is_counted: false,
        }
    }

    /// Whether the value that was just written is counted already.
    #[inline]
    pub(crate) fn is_counted(&self) -> bool
        ensures { result ≡ self.now.state.is_counted }
    {
        self.is_counted
    }

    /// Notes whether the value that was just written is counted already.
    #[inline]
    pub(crate) fn set_counted(&mut self, is_counted: bool)
        ensures { self.new
            ≡ record self.old { state = with_is_counted is_counted self.old.state } }
    {
        self.is_counted = is_counted;
    }

    /// Puts the encoding of a string.
    #[tactic(auto, using(crate::proofs::Streams::FlatBuffer::puts))]
    pub(crate) fn put_string(&mut self, value: &[u8]) -> Result<(), AllocError>
        ensures ok { OnOk result
            (self.new.state ≡ put (encoding (string value.now)) self.old.state) }
        ensures room { length (encoding (string value.now)) ≤ self.old.spare → IsOk result }
        ensures refused { OnErr result (IsAsBefore self.old self.new) }
        // This clause follows from the clauses above: with it, an `rlp_append` that returns the
        // result needs no lemma.
        ensures grows { OnErr result (GrowsTo self.old.state self.new.state) }
        ensures moved { self.new.moved ≡ self.old.moved }
    {
        write_string(&mut self.buffer, value)?;
        Ok(())
    }

    /// Puts the encoding of the string that an iterator gives.
    #[tactic(auto, using(crate::proofs::Streams::FlatBuffer::puts))]
    pub(crate) fn put_string_of<I: IntoIterator<Item = u8>>(
        &mut self,
        value: I,
    ) -> Result<(), AllocError>
        requires { IsFiniteIterable I.into_iter_gives I.IntoIter.can_next I.IntoIter.remaining value }
        ensures ok { OnOk result ((s : List ℕ)
            × GivesAll I.into_iter_gives I.IntoIter.next_gives value s
            × (self.new.state ≡ put (encoding (string s)) self.old.state)) }
        ensures refused { OnErr result (IsAsBefore self.old self.new) }
        ensures moved { self.new.moved ≡ self.old.moved }
    {
        write_string_of(&mut self.buffer, value)?;
        Ok(())
    }

    /// Opens a list. It awaits the given number of items, or is unbounded.
    #[tactic(auto, using(crate::proofs::Streams::FlatBuffer::opens))]
    pub(crate) fn open(&mut self, awaits: Option<usize>) -> Result<(), AllocError>
        requires { AwaitsSome awaits }
        ensures ok { OnOk result (self.new.state ≡ with_list awaits self.old.state) }
        ensures refused { OnErr result (IsAsBefore self.old self.new) }
        ensures moved { self.new.moved ≡ self.old.moved }
    {
        let position = self.buffer.len();
        self.buffer.reserve(1)?;
        self.lists.push(Placeholder { position, awaits })?;
        self.buffer.extend_reserved(&[0]);
        self.is_counted = false;
        Ok(())
    }

    /// Puts bytes, and counts items. It makes all room before anything changes. With no list open
    /// it fails only if the stream has too little room for the bytes.
    #[inline(always)]
    pub(crate) fn put_counted(&mut self, bytes: &[u8], items: usize) -> Result<(), AllocError>
        ensures ok { OnOk result (self.new.state ≡ count items (put bytes.now self.old.state)) }
        ensures refused { OnErr result (IsAsBefore self.old self.new) }
        ensures moved { MovesWithin self.old self.new }
        ensures room { IsFinished self.old.state
            → OnErr result (self.old.spare < length bytes.now) }
    {
        if self.lists.closes(items) {
            return self.put_closing(bytes, items);
        }
        make_room(&mut self.buffer, &self.lists, bytes.len())?;
        self.lists.count_innermost(items);
        self.is_counted &= self.lists.is_empty();
        self.buffer.extend_reserved(bytes);
        Ok(())
    }

    /// The same if the count closes a list. It is out of line, since most calls close no list.
    #[inline(never)]
    #[tactic(auto, using(crate::proofs::Streams::FlatBuffer::closings))]
    fn put_closing(&mut self, bytes: &[u8], items: usize) -> Result<(), AllocError>
        requires { IsTrue (is_counted_after items self.old.state.stack.lists false) }
        ensures ok { OnOk result (self.new.state ≡ count items (put bytes.now self.old.state)) }
        ensures refused { OnErr result (IsAsBefore self.old self.new) }
        ensures moved { MovesWithin self.old self.new }
    {
        let end = self.buffer.len_with(bytes.len())?;
        let plan = plan_count(&self.lists, end, items);
        self.buffer.reserve(bytes.len() + plan.growth)?;
        self.buffer.extend_reserved(bytes);
        self.buffer.advance_mut(plan.growth);
        close_lists(&mut self.buffer, &mut self.lists, plan.closing, end);
        self.lists.count_innermost(1);
        self.is_counted = true;
        Ok(())
    }

    /// Sets the number of items that each of the `count` innermost lists awaits.
    #[tactic(auto, using(crate::proofs::Streams::FlatBuffer::awaits))]
    pub(crate) fn set_awaits(&mut self, count: usize, awaits: Option<usize>)
        requires some { AwaitsSome awaits }
        requires open { count ≤ length self.old.state.stack.lists }
        ensures { self.new
            ≡ record self.old { state = with_awaiting count awaits self.old.state } }
    {
        self.lists.set_awaits(count, awaits);
    }

    /// The current place of the stream, to go back to.
    #[tactic(auto, using(crate::proofs::Streams::FlatBuffer::places))]
    pub(crate) fn place(&self) -> Place
        ensures is { result ≡ place_of self.now.state }
        ensures awaits { AwaitsSome result.awaits }
    {
        Place {
            len: self.buffer.len(),
            open_count: self.lists.len(),
            awaits: self.lists.innermost_awaits(),
            is_counted: self.is_counted,
        }
    }

    /// Goes back to a place. The stream must have grown from it.
    pub(crate) fn go_back(&mut self, place: Place)
        requires awaits { AwaitsSome place.awaits }
        requires grown { (s : State) × (place ≡ place_of s) × GrowsTo s self.old.state }
        ensures back { (s : State) → place ≡ place_of s → GrowsTo s self.old.state
            → self.new.state ≡ s }
        ensures moved { self.new.moved ≡ self.old.moved }
    {
        self.buffer.truncate(place.len);
        self.lists.truncate(place.open_count);
        self.lists.set_innermost(place.awaits);
        self.is_counted = place.is_counted;
    }

    /// Drops everything that was written and every open list. The front and `is_counted` stay.
    #[tactic(auto, using(crate::proofs::Streams::FlatBuffer::clears))]
    pub fn clear(&mut self)
        ensures state { self.new.state ≡ effect clear self.old.state }
        ensures moved { self.new.moved ≡ self.old.moved }
    {
        self.buffer.truncate(self.start);
        self.lists.clear();
    }

    /// The closed size: the number of bytes behind the front once every list is closed. Lists count
    /// as closed even if they still await items.
    #[tactic(auto, using(crate::proofs::Streams::ClosedSize::closed_size_none))]
    pub fn len(&self) -> usize
        ensures { result ≡ closed_size self.now.state }
    {
        self.size_with(0).unwrap()
    }

    /// Whether nothing was written and no list is open, so [`RlpStream::len`] is 0.
    #[tactic(auto, using(crate::proofs::Streams::FlatBuffer::empties))]
    pub fn is_empty(&self) -> bool
        ensures { IsTrue result ↔ (closed_size self.now.state ≡ 0) }
    {
        self.buffer.len() == self.start
    }

    /// The same as [`RlpStream::estimate_size`], or `None` if it is 2^64 or more.
    pub fn checked_estimate_size(&self, add: usize) -> Option<usize>
        ensures { SomeIff result (closed_size_with add self.now.state < 2 ^ 64)
            (closed_size_with add self.now.state) }
    {
        self.size_with(add)
    }

    /// The closed size with `more` bytes put, or `None` if it is 2^64 or more. It adds up the size,
    /// list by list.
    #[tactic(auto, using(crate::proofs::Streams::ClosedSize::placed))]
    fn size_with(&self, more: usize) -> Option<usize>
        ensures size { SomeIff result (closed_size_with more self.now.state < 2 ^ 64)
            (closed_size_with more self.now.state) }
        ensures small { closed_size self.now.state < 2 ^ 64 }
    {
        closed_len(&self.lists, self.start, self.buffer.len(), more)
    }

    /// Whether the closed size with `add` bytes put is at most the limit even if each open list has
    /// the longest header. It doesn't walk the lists.
    #[tactic(auto, using(crate::proofs::Streams::FlatBuffer::start_le))]
    pub(crate) fn is_surely_within_size(&self, add: usize, limit: usize) -> bool
        ensures { IsTrue result → closed_size_with add self.now.state ≤ limit }
    {
        let most = self.buffer.len() - self.start + 8 * self.lists.len();
        match most.checked_add(add) {
            Some(most) => most <= limit,
            None => false,
        }
    }

    /// Whether no list is open. Then [`RlpStream::out`] may be called.
    pub fn is_finished(&self) -> bool
        ensures { IsTrue result ↔ IsFinished self.now.state }
    {
        self.lists.is_empty()
    }

    /// Whether a list is open and the innermost is unbounded. Then
    /// [`RlpStream::finalize_unbounded_list`] may be called.
    pub fn can_finalize(&self) -> bool
        ensures { result ≡ is_unbounded self.now.state.stack.lists }
    {
        self.lists.is_innermost_unbounded()
    }

    /// The number of items that the innermost open list awaits. `None` if that list is unbounded,
    /// or if no list is open.
    pub fn items_awaited(&self) -> Option<usize>
        ensures { result ≡ awaited self.now.state.stack.lists }
    {
        self.lists.innermost_awaits()
    }

    /// The number of innermost lists that are unbounded, at most `most`.
    #[tactic(auto, using(crate::proofs::Streams::FlatBuffer::unbounded_lists))]
    pub(crate) fn unbounded_lists(&self, most: usize) -> usize
        ensures { result ≡ min most (unbounded_count self.now.state.stack.lists) }
    {
        self.lists.count_unbounded(most)
    }

    /// The bytes now: the front, the payload of the top, and then each open list, from the outside
    /// in. An open list has one byte `0x00` in the place of its header, and then its payload.
    #[tactic(auto, using(crate::proofs::Streams::FlatBuffer::places))]
    pub fn as_raw(&self) -> &[u8]
        ensures { result.now ≡ raw_text self.now.state }
    {
        self.buffer.as_slice()
    }

    /// The front, and then the payload of the top. No list may be open: test this by
    /// [`RlpStream::is_finished`].
    #[tactic(auto, using(crate::proofs::Streams::FlatBuffer::finishes))]
    pub fn out(self) -> BytesMut
        requires { IsFinished self.state }
        ensures bytes { result.items ≡ self.state.front ++ self.state.stack.inner }
        ensures size { length result.items ≡ length self.state.front + closed_size self.state }
        ensures spare { result.spare ≡ self.spare }
    {
        let RlpStream {
            buffer,
            start: _,
            lists: _,
            is_counted: _,
        } = self;
        buffer.into_bytes()
    }

    /// The allocator of the stream.
    pub(crate) fn allocator(&self) -> Global {
        self.lists.allocator()
    }
}

/// Makes room for `len` more bytes. If there is none, it makes room for all items that the innermost
/// list awaits, as if each had this length.
#[inline(always)]
fn make_room(buffer: &mut Buffer, lists: &OpenLists, len: usize) -> Result<(), AllocError>
    ensures items { buffer.new.items ≡ buffer.old.items }
    ensures spare { MakesSpare result buffer.old.spare buffer.new.spare len }
    ensures moved { buffer.new.moved ≡ buffer.old.moved }
{
    if buffer.has_room(len) {
        return Ok(());
    }
    buffer.reserve_ahead(len, lists.innermost_awaits().unwrap_or(1))
}
