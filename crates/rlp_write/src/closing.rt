//! Closing of open lists. One pass over the bytes closes all lists that a call fills.

ghost use Rattle.std.specs.{Prelude.{◌≡◌, ◌+◌, ◌*◌, ◌^◌, ◌<◌, ◌≤◌, [], length, take, drop}, Option.SomeIff};
ghost use Rattle.rlp_write.specs.{Streams.Placeholders.Descends, Streams.Closing.{filled, closed_bytes, closed_len, growth, left_of}};

use crate::buffer::Buffer;
use crate::header::list_header_len;
use crate::open_lists::{OpenLists, is_last};

/// What the count of some items will do.
#[derive(Clone, Copy)]
pub(crate) struct Plan {
    /// The number of lists that the count closes.
    pub(crate) closing: usize,
    /// The number of bytes that the headers of these lists add to the buffer.
    pub(crate) growth: usize,
}

/// Finds how many lists the count of these items closes, and by how many bytes the buffer then
/// grows. It walks these lists from the inside out, and doesn't allocate.
#[tactic(auto, using(crate::proofs::Streams::Closings::planned_more))]
pub(crate) fn plan_count(lists: &OpenLists, end: usize, items: usize) -> Plan
    requires order { Descends end lists.now }
    requires size { end < 2 ^ 63 }
    ensures closing { result.closing ≡ filled items lists.now }
    ensures growth { result.growth ≡ growth (filled items lists.now) end 0 lists.now }
    ensures enough { result.closing ≤ length lists.now }
    ensures small { result.growth < 2 ^ 63 }
{
    let mut rest = lists.inward();
    let mut left = end;
    let mut tail = 0;
    let mut counted = items;
    let mut closing = 0;
    let mut growth = 0;
    while let Some(list) = rest.next()
        && is_last(counted, list.awaits)
    {
        let len = left - (list.position + 1) + tail;
        let header = list_header_len(len);
        closing += 1;
        growth += header - 1;
        tail = header + len;
        left = list.position;
        counted = 1;
    }
    Plan { closing, growth }
}

/// The number of bytes behind `start` once every list is closed, if `more` bytes are put behind the
/// first `end`. `None` if this number is 2^64 or more.
#[tactic(auto, using(crate::proofs::Streams::ClosedSize::measures))]
pub(crate) fn closed_len(lists: &OpenLists, start: usize, end: usize, more: usize) -> Option<usize>
    requires order { Descends end lists.now }
    requires lowest { start ≤ left_of (length lists.now) end lists.now }
    ensures size { SomeIff result (closed_len start end more lists.now < 2 ^ 64)
        (closed_len start end more lists.now) }
    ensures few { 24 * length lists.now < 2 ^ 63 }
{
    let mut rest = lists.inward();
    let mut left = end;
    let mut tail = more;
    while let Some(list) = rest.next() {
        let len = (left - (list.position + 1)).checked_add(tail)?;
        let written = list_header_len(len).checked_add(len)?;
        tail = written;
        left = list.position;
    }
    (left - start).checked_add(tail)
}

/// Closes the given number of innermost lists. The buffer has `end` bytes, and room for the growth
/// behind them. It closes the lists from the inside out. It moves each stretch of payload between
/// two placeholders once, to its last place, and writes each header in front of its payload.
pub(crate) fn close_lists(buffer: &mut Buffer, lists: &mut OpenLists, closing: usize, end: usize)
    requires order { Descends end lists.old }
    requires enough { closing ≤ length lists.old }
    requires room { end + growth closing end 0 lists.old ≡ length buffer.old.items }
    ensures bytes { buffer.new.items
        ≡ closed_bytes closing (take end buffer.old.items) [] lists.old }
    ensures lists { lists.new ≡ drop closing lists.old }
    ensures counted { buffer.old.moved ≤ buffer.new.moved }
    ensures moved { buffer.new.moved + left_of closing end lists.old ≤ buffer.old.moved + end }
{
    let mut left = closing;
    let mut from = end;
    let mut to = buffer.len();
    while left > 0
        && let Some(list) = lists.pop()
    {
        let begin = list.position + 1;
        let len = from - begin;
        to -= len;
        buffer.shift(begin, len, to);
        to = buffer.write_list_header(to);
        from = list.position;
        left -= 1;
    }
}
