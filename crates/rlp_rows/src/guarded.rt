//! Calls on streams that have a condition. Each function tests the condition first.

ghost use Rattle.std.specs.Prelude.{IsTrue};
ghost use Rattle.rlp_write.specs.Streams.Stream.{has_room};

use rlp_write::RlpStream;
use std::alloc::AllocError;

/// Returns whether the innermost open list awaits at least `items` items, or is unbounded.
pub fn takes_items(s: &RlpStream, items: usize) -> bool
    ensures { IsTrue result → IsTrue (has_room items s.now.state.stack.lists) }
{
    match s.items_awaited() {
        Some(awaited) => items <= awaited,
        None => true,
    }
}

/// Appends raw bytes, within a limit of the closed size if one is given. Returns `false` if the
/// closed size would be over the limit, or if the innermost open list awaits fewer items.
pub fn put_raw(
    s: &mut RlpStream,
    bytes: &[u8],
    items: usize,
    limit: Option<usize>,
) -> Result<bool, AllocError> {
    if !takes_items(s, items) {
        return Ok(false);
    }
    match limit {
        Some(limit) => s.append_raw_checked(bytes, items, limit),
        None => s.append_raw(bytes, items).and(Ok(true)),
    }
}

/// Closes the innermost open list. Returns `false` if it isn't unbounded, or if no list is open.
pub fn finalize(s: &mut RlpStream) -> Result<bool, AllocError> {
    if !s.can_finalize() {
        return Ok(false);
    }
    s.finalize_unbounded_list().and(Ok(true))
}

/// Returns whether no list is open, and these are the bytes.
pub fn finishes_as(s: RlpStream, want: &[u8]) -> bool {
    s.is_finished() && s.out().as_slice() == want
}

/// Returns whether the closed size with `add` more bytes is `want`, or no `usize` holds it if `want`
/// is `None`.
pub fn estimates(s: &RlpStream, add: usize, want: Option<usize>) -> bool {
    match s.checked_estimate_size(add) {
        Some(size) => want == Some(size) && s.estimate_size(add) == size,
        None => want.is_none(),
    }
}

/// Writes a text without its dots by an iterator, which doesn't announce the number of its bytes:
/// appends it as an item, or counts no item.
pub fn put_undotted(s: &mut RlpStream, dotted: &[u8], is_item: bool) -> Result<bool, AllocError> {
    let bytes = dotted.iter().copied().filter(|byte| *byte != b'.');
    if is_item {
        s.append_iter(bytes).and(Ok(true))
    } else {
        s.encoder().encode_iter(bytes).and(Ok(true))
    }
}

/// Returns whether a stream holds these bytes, has this closed size, and awaits this number of
/// items, or any number.
pub fn is_as(s: &RlpStream, raw: &[u8], size: usize, awaited: Option<usize>, any: bool) -> bool {
    s.as_raw() == raw
        && s.len() == size
        && s.is_empty() == (size == 0)
        && s.items_awaited() == awaited
        && s.can_finalize() == any
        && s.is_finished() == (awaited.is_none() && !any)
}
