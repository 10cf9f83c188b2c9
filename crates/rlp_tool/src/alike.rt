//! Whether two lists of calls finish as the same bytes.

ghost use Rattle.std.specs.Prelude.{◌≡◌, ◌↔◌, ◌⊎◌, List, IfOk, IfErr, IfSome, IsNone, IsSome, IsSomeAnd, IsTrue, OnOk, OnErr, ◌<◌, length};
ghost use Rattle.rlp.specs.{Format.Encoding.Item, Streams.Described.{IsDescribed, FinishAs}};
ghost use Rattle.rlp_tool.specs.{Building.{AreJoined, AreTaken, DescribeItems, IsRefusal, IsRefusalOnCopy, LeaveOpen}, StreamCalls.calls_of};

use crate::building::{BuildFault, Built, build};
use crate::calls::StreamCall;
use bytes::BytesMut;
use rlp::Encodable;
use rlp::laws::finished_buffers_tell_items;
use std::alloc::{AllocError, Global};

/// Returns a buffer of these bytes.
fn buffer_of(alloc: Global, bytes: &[u8]) -> Result<BytesMut, AllocError>
    ensures ok { IfOk result (λ buffer. buffer.items ≡ bytes.now) }
    ensures some { OnErr result (0 < length bytes.now) }
{
    let mut buffer = BytesMut::new(alloc);
    buffer.extend_from_slice(bytes)?;
    Ok(buffer)
}

/// Returns the finished buffer of calls over a front, or `None` if the calls leave a list open.
fn finished_over<E: Encodable>(
    alloc: Global,
    front: BytesMut,
    calls: &[StreamCall<E>],
) -> Result<Option<BytesMut>, BuildFault>
    ensures finished { IfOk result (λ buffer. IfSome buffer
        (λ bytes. FinishAs front.items (calls_of E.item calls.now) bytes.items)) }
    ensures joined { IfOk result (λ buffer. IfSome buffer
        (λ bytes. AreJoined front.items (calls_of E.item calls.now) bytes.items)) }
    ensures described { (items : List Item)
        → IsDescribed front.items (calls_of E.item calls.now) items
        → IfOk result (λ buffer. IsSome buffer) }
    ensures taken { OnOk result (AreTaken front.items (calls_of E.item calls.now)) }
    ensures left_open { IfOk result
        (λ buffer. IsNone buffer ↔ LeaveOpen front.items (calls_of E.item calls.now)) }
    ensures refused { IfErr result (IsRefusal front.items (calls_of E.item calls.now)) }
{
    match build(alloc, front, calls) {
        Ok(Built::Finished(bytes)) => Ok(Some(bytes)),
        Ok(Built::Open { .. }) => Ok(None),
        Err(fault) => Err(fault),
    }
}

/// Returns the finished buffer of calls over a front, or `None` if and only if the calls leave a
/// list open. The buffer is the front and the encodings of the items that the calls describe, also
/// if the calls put raw bytes.
///
/// Fails as [`build`] does, and with `OutOfMemory` if memory is refused for a copy of the front.
pub fn finished_buffer<E: Encodable>(
    alloc: Global,
    front: &[u8],
    calls: &[StreamCall<E>],
) -> Result<Option<BytesMut>, BuildFault>
    ensures finished { IfOk result (λ buffer. IfSome buffer
        (λ bytes. FinishAs front.now (calls_of E.item calls.now) bytes.items)) }
    ensures joined { IfOk result (λ buffer. IfSome buffer
        (λ bytes. AreJoined front.now (calls_of E.item calls.now) bytes.items)) }
    ensures described { (items : List Item)
        → IsDescribed front.now (calls_of E.item calls.now) items
        → IfOk result (λ buffer. IsSome buffer) }

    // If the function returns `Ok`, each call passed its test.
    ensures taken { OnOk result (AreTaken front.now (calls_of E.item calls.now)) }
    ensures left_open { IfOk result
        (λ buffer. IsNone buffer ↔ LeaveOpen front.now (calls_of E.item calls.now)) }
    ensures refused { IfErr result (IsRefusalOnCopy front.now (calls_of E.item calls.now)) }
{
    match buffer_of(alloc, front) {
        Ok(buffer) => finished_over(alloc, buffer, calls),
        Err(_) => Err(BuildFault::OutOfMemory),
    }
}

/// Returns whether two strings are equal.
fn same_bytes(one: &[u8], other: &[u8]) -> bool
    ensures { IsTrue result ↔ (one.now ≡ other.now) }
{
    one == other
}

/// Returns whether two lists of calls over one front finish as the same bytes: `Some(true)` if and
/// only if the two describe the same items, also if they put raw bytes, and `None` if and only if
/// one of the two leaves a list open.
///
/// The calls of `one` are made first. The calls of `other` are made only if `one` leaves no list
/// open. Fails as [`finished_buffer`] does, for the first list of calls that fails.
pub fn finish_alike<A: Encodable, B: Encodable>(
    alloc: Global,
    front: &[u8],
    one: &[StreamCall<A>],
    other: &[StreamCall<B>],
) -> Result<Option<bool>, BuildFault>
    ensures told { IfOk result (λ answer. IfSome answer (λ alike. (xs : List Item) × (ys : List Item)
        × IsDescribed front.now (calls_of A.item one.now) xs
        × IsDescribed front.now (calls_of B.item other.now) ys
        × (IsTrue alike ↔ (xs ≡ ys)))) }
    ensures described { (xs ys : List Item) → IsDescribed front.now (calls_of A.item one.now) xs
        → IsDescribed front.now (calls_of B.item other.now) ys
        → IfOk result (λ answer. IsSomeAnd answer (λ alike. IsTrue alike ↔ (xs ≡ ys))) }

    // If it returns `Ok`, each call that was made passed its test.
    ensures first_taken { OnOk result (AreTaken front.now (calls_of A.item one.now)) }
    ensures other_taken { OnOk result (LeaveOpen front.now (calls_of A.item one.now)
        ⊎ AreTaken front.now (calls_of B.item other.now)) }
    ensures left_open { IfOk result (λ answer. IsNone answer
        ↔ (LeaveOpen front.now (calls_of A.item one.now)
        ⊎ LeaveOpen front.now (calls_of B.item other.now))) }

    // The calls of `other` fail only after the calls of `one` have finished.
    ensures refused { IfErr result
        (λ fault. IsRefusalOnCopy front.now (calls_of A.item one.now) fault
        ⊎ (DescribeItems front.now (calls_of A.item one.now)
        × IsRefusalOnCopy front.now (calls_of B.item other.now) fault)) }
{
    let Some(first) = finished_buffer(alloc, front, one)? else {
        return Ok(None);
    };
    let Some(second) = finished_buffer(alloc, front, other)? else {
        return Ok(None);
    };
    let (first, second) = (first.as_slice(), second.as_slice());
    finished_buffers_tell_items(first, second);
    Ok(Some(same_bytes(first, second)))
}
