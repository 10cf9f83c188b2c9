//! The steps of a stream's public calls. They see only the state of the stream.

ghost use Rattle.std.specs.{Prelude.{◌≡◌, ◌≤◌, ◌<◌, ℕ, List, IsOk, OnOk, OnErr, false, length}, Iterator.IsFiniteIterable};
ghost use Rattle.rlp_format.specs.Format.Encoding.{string, encoding};
ghost use Rattle.rlp_write.specs.Streams.Stream.{unbounded_count, finalized, is_within_size, with_list_of, IsAsBefore, IsFinished, MovedGrows, MovesWithin, count, add, put_item};
ghost use Rattle.rlp_write.specs.{Streams.Growth.GrowsTo, Streams.Iterated.GivesAll};

use crate::EMPTY_LIST_RLP;
use crate::stream::RlpStream;
use crate::traits::Encodable;
use std::alloc::AllocError;

impl RlpStream {
    /// Whether the closed size with these bytes put is at most the limit. It adds up the size, list
    /// by list, only if an upper bound of the size is above the limit.
    #[tactic(auto, using(crate::proofs::Streams::States::sizes))]
    pub(super) fn is_within_size(&self, bytes: &[u8], limit: usize) -> bool
        ensures { result ≡ is_within_size bytes.now limit self.now.state }
    {
        if self.is_surely_within_size(bytes.len(), limit) {
            return true;
        }
        match self.checked_estimate_size(bytes.len()) {
            Some(size) => size <= limit,
            None => false,
        }
    }

    /// Opens a list that awaits `len` items. A list of no items is written at once.
    #[tactic(auto, using(crate::proofs::Streams::Listed::opened_none))]
    pub(crate) fn try_begin(&mut self, len: usize) -> Result<(), AllocError>
        ensures ok { OnOk result (self.new.state ≡ with_list_of len self.old.state) }
        ensures refused { OnErr result (IsAsBefore self.old self.new) }
        ensures moved { MovesWithin self.old self.new }
    {
        if len == 0 {
            self.put_counted(&EMPTY_LIST_RLP, 1)?;
            self.set_counted(true);
            return Ok(());
        }
        self.open(Some(len))
    }

    /// Closes the `count` innermost lists, which are unbounded, one after another, and counts each
    /// in the list around it.
    ///
    /// An item that is counted in a list that awaits one item closes the list, and the closed list
    /// is counted in the list around it. So each of the `count` lists is made to await one item,
    /// and one item is counted, which closes all of them in one pass. If memory is refused, the
    /// lists are made unbounded again.
    #[tactic(auto, using(crate::proofs::Streams::Finalizing::finalizing))]
    pub(super) fn try_finalize(&mut self, count: usize) -> Result<(), AllocError>
        requires some { 0 < count }
        requires open { count ≤ unbounded_count self.old.state.stack.lists }
        ensures ok { OnOk result (self.new.state ≡ finalized count self.old.state) }
        ensures refused { OnErr result (IsAsBefore self.old self.new) }
        ensures moved { MovesWithin self.old self.new }
    {
        self.set_awaits(count, Some(1));
        if let Err(e) = self.put_counted(&[], 1) {
            self.set_awaits(count, None);
            return Err(e);
        }
        self.set_counted(true);
        Ok(())
    }

    /// Counts items in the innermost open list. With no list open it doesn't fail.
    #[tactic(auto, using(crate::proofs::Streams::States::put_none))]
    fn try_count(&mut self, items: usize) -> Result<(), AllocError>
        ensures ok { OnOk result (self.new.state ≡ count items self.old.state) }
        ensures room { IsFinished self.old.state → IsOk result }
        ensures refused { OnErr result (IsAsBefore self.old self.new) }
        ensures moved { MovedGrows self.old self.new }
    {
        self.put_counted(&[], items)
    }

    /// Puts a value and counts it if `is_counted` is false. A call that fails may leave some bytes.
    #[tactic(auto, using(crate::proofs::Streams::Growth::values))]
    fn put_value<E: Encodable>(&mut self, value: &E) -> Result<(), AllocError>
        requires { self.old.state.is_counted ≡ false }
        ensures fits { OnOk result (E.fits value.now) }
        ensures ok { OnOk result (self.new.state ≡ add (E.item value.now) self.old.state) }
        ensures room { E.needs_only_room value.now → IsFinished self.old.state
            → length (encoding (E.item value.now)) ≤ self.old.spare → IsOk result }
        ensures refused { OnErr result (GrowsTo self.old.state self.new.state) }
        ensures moved { MovedGrows self.old self.new }
    {
        value.rlp_append(self)?;
        if self.is_counted() {
            return Ok(());
        }
        self.try_count(1)
    }

    /// Puts the string that an iterator gives and counts it. A call that fails may leave some
    /// bytes.
    #[tactic(auto, using(crate::proofs::Streams::Growth::growth))]
    fn put_iter<I: IntoIterator<Item = u8>>(&mut self, value: I) -> Result<(), AllocError>
        requires uncounted { self.old.state.is_counted ≡ false }
        requires ends { IsFiniteIterable I.into_iter_gives I.IntoIter.can_next I.IntoIter.remaining value }
        ensures ok { OnOk result ((s : List ℕ)
            × GivesAll I.into_iter_gives I.IntoIter.next_gives value s
            × (self.new.state ≡ add (string s) self.old.state)) }
        ensures refused { OnErr result (GrowsTo self.old.state self.new.state) }
        ensures moved { MovedGrows self.old self.new }
    {
        self.put_string_of(value)?;
        self.try_count(1)
    }

    /// Appends a value. If that fails, goes back to the place before the call.
    #[tactic(auto, using(crate::proofs::Streams::Rewinding::grown_uncounted))]
    pub(crate) fn try_append<E: Encodable>(&mut self, value: &E) -> Result<(), AllocError>
        ensures fits { OnOk result (E.fits value.now) }
        ensures ok { OnOk result (self.new.state ≡ add (E.item value.now) self.old.state) }
        ensures room { E.needs_only_room value.now → IsFinished self.old.state
            → length (encoding (E.item value.now)) ≤ self.old.spare → IsOk result }
        ensures refused { OnErr result (self.new.state ≡ self.old.state) }
        ensures moved { MovedGrows self.old self.new }
    {
        let place = self.place();
        self.set_counted(false);
        if let Err(e) = self.put_value(value) {
            self.go_back(place);
            return Err(e);
        }
        Ok(())
    }

    /// Writes a value by its own `rlp_append`. If that fails, goes back to the place before the
    /// call.
    pub(super) fn try_append_internal<E: Encodable>(&mut self, value: &E) -> Result<(), AllocError>
        ensures fits { OnOk result (E.fits value.now) }
        ensures ok { OnOk result (self.new.state ≡ put_item (E.item value.now) self.old.state) }
        ensures room { E.needs_only_room value.now → IsFinished self.old.state
            → length (encoding (E.item value.now)) ≤ self.old.spare → IsOk result }
        ensures refused { OnErr result (self.new.state ≡ self.old.state) }
        ensures moved { MovedGrows self.old self.new }
    {
        let place = self.place();
        if let Err(e) = value.rlp_append(self) {
            self.go_back(place);
            return Err(e);
        }
        Ok(())
    }

    /// Appends the string that an iterator gives. If that fails, goes back to the place before the
    /// call.
    #[tactic(auto, using(crate::proofs::Streams::Rewinding::grown_uncounted))]
    pub(super) fn try_append_iter<I: IntoIterator<Item = u8>>(
        &mut self,
        value: I,
    ) -> Result<(), AllocError>
        requires { IsFiniteIterable I.into_iter_gives I.IntoIter.can_next I.IntoIter.remaining value }
        ensures ok { OnOk result ((s : List ℕ)
            × GivesAll I.into_iter_gives I.IntoIter.next_gives value s
            × (self.new.state ≡ add (string s) self.old.state)) }
        ensures refused { OnErr result (self.new.state ≡ self.old.state) }
        ensures moved { MovedGrows self.old self.new }
    {
        let place = self.place();
        self.set_counted(false);
        if let Err(e) = self.put_iter(value) {
            self.go_back(place);
            return Err(e);
        }
        Ok(())
    }
}
