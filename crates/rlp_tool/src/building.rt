//! Makes calls of a stream over a front.
ghost use Rattle.std.specs.Prelude.{◌≡◌, ◌++◌, ◌+◌, ◌^◌, ◌<◌, ◌↔◌, List, length, replicate, MatchOption, OnOk, OnErr, IfOk, IfErr, IsTrue, Ok};
ghost use Rattle.rlp.specs.{Format.Encoding.{Item, join}, Format.Framing.{IsFramed, frame}, Streams.Stream.{has_room, append_raw, effect, finalize_unbounded_list, is_admitted, IsFinished}};
ghost use Rattle.rlp.specs.Streams.Described.{IsDescribed, IsDescribedWhere};
ghost use Rattle.rlp_tool.specs.{Building.{AreTaken, IsBuilt, IsRefusal, IsJoined, IsFinishedAs, IsSomeStep, WantsMemory, takes_memory}, StreamCalls.{call_of, calls_of}};
ghost use Rattle.rlp_tool.specs.{Making.{Fails, Goes, IsHeld}, RawItems.{AreRawItems, IsShallow}, declared.building.BuildFault.BuildFault};

use crate::calls::{Calls, StreamCall, make_calls};
use bytes::BytesMut;
use rlp::laws::{
    encoding_is_framed, frame_is_of_framed, parts_of_sized_are_sized,
    stream_joins_what_is_described, unbounded_lists_are_finalized_in_turn,
};
use rlp::{Encodable, Rlp, RlpStream};
use std::alloc::{AllocError, Global};

/// The greatest depth of an item in raw bytes.
const DEEPEST_RAW_ITEM: usize = 256;

/// The result of calls.
#[derive(Drop)]
pub enum Built {
    /// No list is open. The bytes are the front and the encodings of the items.
    Finished(BytesMut),
    /// A list is open.
    Open {
        /// The closed size, as `RlpStream::len`.
        size: usize,
        /// The bytes now, as `RlpStream::as_raw`.
        raw: Vec<u8>,
    },
}

/// Why not all calls are made. The number is the place, counted from 1, of the first call that
/// fails.
#[derive(Debug, PartialEq, Eq, Drop)]
pub enum BuildFault {
    /// Raw bytes announce more items than the innermost list awaits.
    TooManyItems(usize),
    /// No list is open, or the innermost one awaits a number of items.
    NothingToFinish(usize),
    /// Raw bytes aren't the joined canonical encodings of the announced number of items, each of
    /// depth at most 256.
    RawNotItems(usize),
    /// Memory was refused.
    OutOfMemory,
}

/// Whether the innermost list awaits at least `count` items, is unbounded, or no list is open.
#[tactic(auto, using(crate::proofs::CallsLemmas::room))]
pub(crate) fn has_room(stream: &RlpStream, count: usize) -> bool
    ensures { result ≡ has_room count stream.now.state.stack.lists }
{
    match stream.items_awaited() {
        Some(awaited) => count <= awaited,
        None => true,
    }
}

/// The item that bytes begin with, and the bytes after it. Returns `None` if there is no item.
fn first_item<'a>(bytes: &'a [u8]) -> Option<(&'a [u8], &'a [u8])>
    ensures { MatchOption result (¬ IsFramed bytes.now)
        (λ r. (frame bytes.now ≡ Ok r.0.now) × (bytes.now ≡ r.0.now ++ r.1.now)) }
{
    frame_is_of_framed(bytes);
    match Rlp::new(bytes).split_first() {
        Ok((item, others)) => Some((item.as_raw(), others)),
        Err(_) => None,
    }
}

/// Whether raw bytes are the joined canonical encodings of `item_count` items, none deeper than
/// 256.
#[tactic(auto, using(crate::proofs::RawLemmas::walked))]
pub(crate) fn raw_items_are_canonical(bytes: &[u8], item_count: usize) -> bool
    ensures { IsTrue result ↔ AreRawItems bytes.now item_count }
{
    let mut rest = bytes;
    let mut awaited = item_count;
    while !rest.is_empty() {
        encoding_is_framed(rest);
        let Some((item, others)) = first_item(rest) else {
            return false;
        };
        if awaited == 0 || !Rlp::new(item).is_canonical(DEEPEST_RAW_ITEM) {
            return false;
        }
        awaited -= 1;
        rest = others;
    }
    encoding_is_framed(rest);
    awaited == 0
}

/// Tests raw bytes before they are put. `place` is the place of the call.
fn admit_raw(stream: &RlpStream, bytes: &[u8], count: usize, place: usize) -> Result<(), BuildFault>
    ensures ok { OnOk result (IsTrue (has_room count stream.now.state.stack.lists)) }
    ensures brings { OnOk result (AreRawItems bytes.now count) }
    ensures refused { IfErr result
        (Fails WantsMemory (append_raw bytes.now count) stream.now.state place) }
{
    if !has_room(stream, count) {
        return Err(BuildFault::TooManyItems(place));
    }
    if !raw_items_are_canonical(bytes, count) {
        return Err(BuildFault::RawNotItems(place));
    }
    Ok(())
}

/// Tests a call before it is made. `place` is the place of the call.
#[inline(always)]
fn admit<E: Encodable>(
    stream: &RlpStream,
    call: &StreamCall<E>,
    place: usize,
) -> Result<(), BuildFault>
    ensures ok { OnOk result (IsTrue (is_admitted (call_of E.item call.now) stream.now.state)) }
    ensures brings { OnOk result (IsSomeStep (call_of E.item call.now) stream.now.state) }
    ensures refused { IfErr result
        (Fails WantsMemory (call_of E.item call.now) stream.now.state place) }
{
    parts_of_sized_are_sized();
    match call {
        StreamCall::Raw(bytes, count) => admit_raw(stream, bytes.as_slice(), *count, place),
        StreamCall::Finish => {
            if stream.can_finalize() {
                Ok(())
            } else {
                Err(BuildFault::NothingToFinish(place))
            }
        }
        _ => Ok(()),
    }
}

/// Makes a call that is admitted.
#[inline(always)]
fn make_call<E: Encodable>(stream: &mut RlpStream, call: &StreamCall<E>) -> Result<(), AllocError>
    requires { IsTrue (is_admitted (call_of E.item call.now) stream.old.state) }
    ensures ok { OnOk result
        (stream.new.state ≡ effect (call_of E.item call.now) stream.old.state) }
    ensures refused { OnErr result (IsTrue (takes_memory (call_of E.item call.now))) }
{
    match call {
        StreamCall::Value(value) => {
            stream.append(value)?;
        }
        StreamCall::Values(values) => {
            stream.append_list(values.as_slice())?;
        }
        StreamCall::Raw(bytes, count) => {
            stream.append_raw(bytes.as_slice(), *count)?;
        }
        StreamCall::Begin(count) => {
            stream.begin_list(*count)?;
        }
        StreamCall::BeginUnbounded => {
            stream.begin_unbounded_list()?;
        }
        StreamCall::Finish => stream.finalize_unbounded_list()?,
        StreamCall::Clear => stream.clear(),
    }
    Ok(())
}

/// Tests a call and makes it. `place` is the place of the call.
#[inline(always)]
pub(crate) fn take_call<E: Encodable>(
    stream: &mut RlpStream,
    call: &StreamCall<E>,
    place: usize,
) -> Result<(), BuildFault>
    ensures admitted { OnOk result
        (IsTrue (is_admitted (call_of E.item call.now) stream.old.state)) }
    ensures ok { OnOk result
        (stream.new.state ≡ effect (call_of E.item call.now) stream.old.state) }
    ensures brings { OnOk result (IsSomeStep (call_of E.item call.now) stream.old.state) }
    ensures refused { IfErr result
        (Fails WantsMemory (call_of E.item call.now) stream.old.state place) }
{
    admit(stream, call, place)?;
    match make_call(stream, call) {
        Ok(()) => Ok(()),
        Err(_) => Err(BuildFault::OutOfMemory),
    }
}

/// Makes `Finish` this number of times. Consecutive unbounded lists are closed by one call, so that
/// each byte moves only once. `place` is the place of the first call.
#[tactic(auto, using(crate::proofs::CallsLemmas::finish_fails, crate::proofs::CallsLemmas::made_finishes))]
pub(crate) fn take_finishes(
    stream: &mut RlpStream,
    count: usize,
    place: usize,
) -> Result<(), BuildFault>
    requires { place + count < 2 ^ 64 }
    ensures { Goes WantsMemory stream.old.state (replicate count finalize_unbounded_list) place
        stream.new.state result }
{
    unbounded_lists_are_finalized_in_turn();
    let mut made = 0;
    while made < count {
        if !stream.can_finalize() {
            return Err(BuildFault::NothingToFinish(place + made));
        }
        match stream.finalize_unbounded_lists(count - made) {
            Ok(finished) => made += finished,
            Err(_) => return Err(BuildFault::OutOfMemory),
        }
    }
    Ok(())
}

/// The number of `Finish` at the beginning of the calls, and the calls after these.
#[inline(always)]
fn leading_finishes<E: Encodable>(calls: &[StreamCall<E>]) -> (usize, &[StreamCall<E>])
    ensures split { calls_of E.item calls.now
        ≡ replicate result.0 finalize_unbounded_list ++ calls_of E.item result.1.now }
    ensures counted { length calls.now ≡ result.0 + length result.1.now }
{
    let mut count = 0;
    let mut rest = calls;
    while let [StreamCall::Finish, others @ ..] = rest {
        count += 1;
        rest = others;
    }
    (count, rest)
}

/// Calls that are values.
#[derive(Drop)]
struct Values<'a, E> {
    calls: &'a [StreamCall<E>],
    place: usize,
}

impl<E: Encodable> Calls for Values<'_, E> {
    ghost left = { λ s. Ok (calls_of E.item s.calls.now) };

    ghost place = { λ s. s.place };

    ghost size = { λ s. length s.calls.now };

    ghost lacks = { WantsMemory };

    #[inline(always)]
    fn make_next(
        &mut self,
        stream: &mut RlpStream,
        _room: &mut Vec<u8>,
    ) -> Result<bool, BuildFault> {
        let place = self.place;
        let (count, rest) = leading_finishes(self.calls);
        if count > 0 {
            self.calls = rest;
            self.place += count;
            take_finishes(stream, count, place)?;
            return Ok(true);
        }
        let Some((call, others)) = rest.split_first() else {
            return Ok(false);
        };
        self.calls = others;
        self.place += 1;
        take_call(stream, call, place)?;
        Ok(true)
    }
}

/// The result of a stream after all calls.
fn held(alloc: Global, stream: RlpStream) -> Result<Built, BuildFault>
    ensures ok { IfOk result (IsHeld stream.state) }
    ensures refused { IfErr result (λ fault. fault ≡ BuildFault.OutOfMemory) }
    ensures unfinished { OnErr result (¬ IsFinished stream.state) }
{
    if stream.is_finished() {
        return Ok(Built::Finished(stream.out()));
    }
    let size = stream.len();
    match Vec::from_slice(alloc, stream.as_raw()) {
        Ok(raw) => Ok(Built::Open { size, raw }),
        Err(_) => Err(BuildFault::OutOfMemory),
    }
}

/// Makes the calls in order on a stream over the front.
///
/// Returns the finished bytes. If a list is open, returns the closed size and the bytes now.
///
/// Raw bytes are checked. Each `Raw` must have the joined canonical encodings of the announced
/// number of items, each of depth at most 256. So the finished bytes are the front and the
/// canonical encodings of the items that the calls describe.
///
/// Fails at the first call that doesn't pass its test, with the place of the call, counted from 1.
/// A `Raw` fails with `TooManyItems` or else `RawNotItems`, a `Finish` with `NothingToFinish`.
///
/// Fails with `OutOfMemory` if memory is refused, or if a value's own `rlp_append` returns an
/// error. Then there is a call other than `Clear` that passes its test, and each call before it
/// passes its test too.
///
/// ```rust
/// let calls = [StreamCall::Begin(2), StreamCall::Value(1u64), StreamCall::Value(2u64)];
/// let built = rlp_tool::build(alloc, BytesMut::new(alloc), calls.as_slice())?;
/// assert!(rt; matches!(built, Built::Finished(bytes) if bytes.as_slice() == [0xc2, 1, 2]));
/// ```
pub fn build<E: Encodable>(
    alloc: Global,
    front: BytesMut,
    calls: &[StreamCall<E>],
) -> Result<Built, BuildFault>
    // What the function returns, and why it fails.
    ensures ok { IfOk result (IsBuilt front.items (calls_of E.item calls.now)) }
    ensures refused { IfErr result (IsRefusal front.items (calls_of E.item calls.now)) }

    // If the function returns `Ok`, each call passed its test. Finished bytes are the front and the
    // joined encodings of the items that the calls describe.
    ensures taken { OnOk result (AreTaken front.items (calls_of E.item calls.now)) }
    ensures joined { IfOk result (IsJoined front.items (calls_of E.item calls.now)) }

    // If the calls describe items and the function returns `Ok`, the result is the front and the
    // joined encodings of the items. If also no item of raw bytes is too deep, the function fails
    // only with `OutOfMemory`.
    ensures described { (items : List Item)
        → IsDescribed front.items (calls_of E.item calls.now) items
        → IfOk result (IsFinishedAs (front.items ++ join items)) }
    ensures described_refused { (items : List Item)
        → IsDescribedWhere IsShallow front.items (calls_of E.item calls.now) items
        → IfErr result (λ fault. fault ≡ BuildFault.OutOfMemory) }
{
    stream_joins_what_is_described();
    let mut stream = RlpStream::new_with_buffer(alloc, front);
    let mut values = Values { calls, place: 1 };
    make_calls(&mut values, &mut stream, &mut Vec::new(alloc))?;
    held(alloc, stream)
}
