//! Calls on a stream, one after another.

ghost use Rattle.std.specs.{Prelude.{◌≡◌, ◌≤◌, ℕ, List, IsTrue, IsOk, IfOk, OnOk, length, map, All}, Borrow.sem, Iterator.IsFiniteIterable};
ghost use Rattle.rlp_format.specs.Format.Encoding.{string, list_of, encoding};
ghost use Rattle.rlp_write.specs.Streams.Stream.{append, append_empty_data, append_raw, append_internal, begin_list, begin_unbounded_list, effect, is_admitted, IsFinished, MovedGrows, MovesWithin};
ghost use Rattle.rlp_write.specs.{Streams.Iterated.GivesAll, Streams.Chain.{stays_if_refused, rests_if_refused, HoldsStream}};

use crate::stream::RlpStream;
use crate::traits::Encodable;
use std::alloc::AllocError;

/// A stream after a call that succeeded. Make the next call on the chain, or on its `stream`.
///
/// ```rust
/// let mut s = rlp::RlpStream::new(alloc)?;
/// let chain = s.append(&1u64)?;
/// chain.stream.encoder().encode_value(&[2])?;
/// s.append(&3u64)?.append(&4u64)?;
/// assert_eq!(rt; s.as_raw(), [1, 2, 3, 4]);
/// ```
#[derive(Drop)]
pub struct Chain<'a> {
    /// The stream, borrowed as long as by the first call of the chain.
    pub stream: &'a mut RlpStream,
}

impl<'a> Chain<'a> {
    /// As [`RlpStream::append`].
    pub fn append<E: Encodable>(self, value: &E) -> Result<Chain<'a>, AllocError>
        ensures* refused { sem 𝓛 (stays_if_refused self.entry.stream result) }
        ensures fits { OnOk result (E.fits value.now) }
        ensures ok { IfOk result (λ c. c.stream.now.state
            ≡ effect (append (E.item value.now)) self.entry.stream.now.state) }
        ensures room { E.needs_only_room value.now → IsFinished self.entry.stream.now.state
            → length (encoding (E.item value.now)) ≤ self.entry.stream.now.spare → IsOk result }
        ensures moved { IfOk result (λ c. MovedGrows self.entry.stream.now c.stream.now) }
        ensures same_stream { HoldsStream self.entry.stream result }
    {
        let Chain { stream } = self;
        stream.append(value)
    }

    /// As [`RlpStream::append_iter`].
    pub fn append_iter<I: IntoIterator<Item = u8>>(self, value: I) -> Result<Chain<'a>, AllocError>
        requires { IsFiniteIterable I.into_iter_gives I.IntoIter.can_next I.IntoIter.remaining value }
        ensures* refused { sem 𝓛 (stays_if_refused self.entry.stream result) }
        ensures ok { IfOk result (λ c. (s : List ℕ)
            × GivesAll I.into_iter_gives I.IntoIter.next_gives value s
            × (c.stream.now.state ≡ effect (append (string s)) self.entry.stream.now.state)) }
        ensures moved { IfOk result (λ c. MovedGrows self.entry.stream.now c.stream.now) }
        ensures same_stream { HoldsStream self.entry.stream result }
    {
        let Chain { stream } = self;
        stream.append_iter(value)
    }

    /// As [`RlpStream::append_list`].
    pub fn append_list<E: Encodable>(self, values: &[E]) -> Result<Chain<'a>, AllocError>
        ensures* refused { sem 𝓛 (stays_if_refused self.entry.stream result) }
        ensures fits { OnOk result (All E.fits values.now) }
        ensures ok { IfOk result (λ c. c.stream.now.state
            ≡ effect (append (list_of (map E.item values.now))) self.entry.stream.now.state) }
        ensures moved { IfOk result (λ c. MovedGrows self.entry.stream.now c.stream.now) }
        ensures same_stream { HoldsStream self.entry.stream result }
    {
        let Chain { stream } = self;
        stream.append_list(values)
    }

    /// As [`RlpStream::append_internal`].
    pub fn append_internal<E: Encodable>(self, value: &E) -> Result<Chain<'a>, AllocError>
        ensures* refused { sem 𝓛 (stays_if_refused self.entry.stream result) }
        ensures fits { OnOk result (E.fits value.now) }
        ensures ok { IfOk result (λ c. c.stream.now.state
            ≡ effect (append_internal (E.item value.now)) self.entry.stream.now.state) }
        ensures room { E.needs_only_room value.now → IsFinished self.entry.stream.now.state
            → length (encoding (E.item value.now)) ≤ self.entry.stream.now.spare → IsOk result }
        ensures moved { IfOk result (λ c. MovedGrows self.entry.stream.now c.stream.now) }
        ensures same_stream { HoldsStream self.entry.stream result }
    {
        let Chain { stream } = self;
        stream.append_internal(value)
    }

    /// As [`RlpStream::append_empty_data`].
    pub fn append_empty_data(self) -> Result<Chain<'a>, AllocError>
        ensures* refused { sem 𝓛 (rests_if_refused self.entry.stream result) }
        ensures ok { IfOk result
            (λ c. c.stream.now.state ≡ effect append_empty_data self.entry.stream.now.state) }
        ensures room { IsFinished self.entry.stream.now.state → 1 ≤ self.entry.stream.now.spare
            → IsOk result }
        ensures moved { IfOk result (λ c. MovesWithin self.entry.stream.now c.stream.now) }
        ensures same_stream { HoldsStream self.entry.stream result }
    {
        let Chain { stream } = self;
        stream.append_empty_data()
    }

    /// As [`RlpStream::append_raw`].
    pub fn append_raw(self, bytes: &[u8], item_count: usize) -> Result<Chain<'a>, AllocError>
        requires { IsTrue (is_admitted (append_raw bytes.now item_count) self.stream.now.state) }
        ensures* refused { sem 𝓛 (rests_if_refused self.entry.stream result) }
        ensures ok { IfOk result (λ c. c.stream.now.state
            ≡ effect (append_raw bytes.now item_count) self.entry.stream.now.state) }
        ensures room { IsFinished self.entry.stream.now.state
            → length bytes.now ≤ self.entry.stream.now.spare → IsOk result }
        ensures moved { IfOk result (λ c. MovesWithin self.entry.stream.now c.stream.now) }
        ensures same_stream { HoldsStream self.entry.stream result }
    {
        let Chain { stream } = self;
        stream.append_raw(bytes, item_count)
    }

    /// As [`RlpStream::begin_list`].
    pub fn begin_list(self, len: usize) -> Result<Chain<'a>, AllocError>
        ensures* refused { sem 𝓛 (rests_if_refused self.entry.stream result) }
        ensures ok { IfOk result
            (λ c. c.stream.now.state ≡ effect (begin_list len) self.entry.stream.now.state) }
        ensures moved { IfOk result (λ c. MovesWithin self.entry.stream.now c.stream.now) }
        ensures same_stream { HoldsStream self.entry.stream result }
    {
        let Chain { stream } = self;
        stream.begin_list(len)
    }

    /// As [`RlpStream::begin_unbounded_list`].
    pub fn begin_unbounded_list(self) -> Result<Chain<'a>, AllocError>
        ensures* refused { sem 𝓛 (rests_if_refused self.entry.stream result) }
        ensures ok { IfOk result
            (λ c. c.stream.now.state ≡ effect begin_unbounded_list self.entry.stream.now.state) }
        ensures moved { IfOk result (λ c. MovesWithin self.entry.stream.now c.stream.now) }
        ensures not_moved { IfOk result
            (λ c. c.stream.now.moved ≡ self.entry.stream.now.moved) }
        ensures same_stream { HoldsStream self.entry.stream result }
    {
        let Chain { stream } = self;
        stream.begin_unbounded_list()
    }
}
