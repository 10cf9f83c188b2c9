//! A tree that is written from its items.

ghost use Rattle.std.specs.Prelude.{◌≡◌, ◌↔◌, ◌+◌, ◌<◌, ◌≤◌, ◌^◌, ◌++◌, IfSome, IsTrue, MatchOption, length, take, drop, slice_index, slice_set};
ghost use Rattle.rlp_format.specs.Format.Encoding.{encoding};
ghost use Rattle.rlp_c.specs.{Rows.payload_at, Tree.{DescribeTree, IsRow, depth_behind, front_of, tree_of}, Written.IsWritten};

use crate::canonical::RLP_DEPTH_LIMIT;
use crate::encode::is_low_byte;
use crate::item::RlpItem;
use crate::status::{RLP_BAD_ITEMS, RLP_NO_ROOM, RLP_OK, status_of};
use rlp::DecoderError;
use rlp_write::header::{LIST, STRING, written_header};

/// The number of sizes that are kept: one for each depth of an item, and one for the items in the
/// deepest list.
const DEPTHS: usize = 258;

/// Writes the encoding of the tree that the items describe, in the order of `rlp_flatten`. For a
/// list only `depth` and `is_list` are read. The payload of a string is the part of `bytes` that
/// its item points at.
#[unsafe(no_mangle)]
pub extern "C" fn rlp_encode(
    items: &[RlpItem],
    bytes: &[u8],
    out: &mut [u8],
    count: &mut usize,
) -> u32
    ensures tree { DescribeTree 256 bytes.now items.now
        → IsWritten (encoding (tree_of bytes.now items.now)) out.old out.new count.old count.new result }
    ensures no_tree { ¬ DescribeTree 256 bytes.now items.now
        → (result ≡ 15) × (out.new ≡ out.old) × (count.new ≡ count.old) }
{
    if !describe_tree(items, bytes) {
        return RLP_BAD_ITEMS;
    }
    // Nothing is written into no array, so the place where this ends tells the length.
    let Some(start) = write_tree(items, bytes, &mut [], usize::MAX) else {
        return status_of(&DecoderError::RlpInvalidLength);
    };
    let len = usize::MAX - start;
    *count = len;
    if len > out.len() {
        return RLP_NO_ROOM;
    }
    write_tree(items, bytes, out, len);
    RLP_OK
}

/// Whether the items describe a tree of depth at most 256, whose strings are within the bytes.
fn describe_tree(items: &[RlpItem], bytes: &[u8]) -> bool
    ensures { IsTrue result ↔ DescribeTree 256 bytes.now items.now }
{
    if items.is_empty() {
        return false;
    }
    let mut least = 0;
    let mut most = 0;
    let mut rest = items;
    while let [item, others @ ..] = rest {
        if !is_row(item, bytes, least, most) {
            return false;
        }
        least = 1;
        most = depth_behind(item);
        rest = others;
    }
    true
}

/// Whether an item has a depth between these two, and is a list that isn't too deep, or a string
/// within the bytes.
#[inline(always)]
fn is_row(item: &RlpItem, bytes: &[u8], least: u32, most: u32) -> bool
    requires { most ≤ 256 }
    ensures { IsTrue result ↔ IsRow 256 (length bytes.now) least most item.now }
{
    if item.depth < least || item.depth > most {
        return false;
    }
    if item.is_list != 0 {
        return item.depth < RLP_DEPTH_LIMIT;
    }
    match item.offset.checked_add(item.header_len) {
        Some(start) => start <= bytes.len() && item.payload_len <= bytes.len() - start,
        None => false,
    }
}

/// The greatest depth of an item that follows this one.
#[inline(always)]
fn depth_behind(item: &RlpItem) -> u32
    requires { depth_behind item.now ≤ 256 }
    ensures { result ≡ depth_behind item.now }
{
    if item.is_list != 0 {
        item.depth + 1
    } else {
        item.depth
    }
}

/// Writes the encoding of the tree that the items describe in front of `end`, if the array goes up
/// to there, and returns where it begins. Returns `None` if it is longer than `end`.
fn write_tree(items: &[RlpItem], bytes: &[u8], out: &mut [u8], end: usize) -> Option<usize>
    requires { DescribeTree 256 bytes.now items.now }
    ensures start { MatchOption result (end < length (encoding (tree_of bytes.now items.now)))
        (λ start. start + length (encoding (tree_of bytes.now items.now)) ≡ end) }
    ensures written { IfSome result (λ start. end ≤ length out.old → out.new
        ≡ take start out.old ++ (encoding (tree_of bytes.now items.now) ++ drop end out.old)) }
{
    let mut sizes = [0usize; DEPTHS];
    let mut place = end;
    let mut rest = items;
    while let [before @ .., item] = rest {
        let depth = item.depth as usize;
        let Some(start) = write_front(item, bytes, sizes[depth + 1], out, place) else {
            return None;
        };
        put_size(&mut sizes, depth, place - start);
        place = start;
        rest = before;
    }
    Some(place)
}

/// Adds an item's size, its `front` and the size of its children, to the total at its depth, and
/// resets the total of its children.
#[inline(always)]
fn put_size(sizes: &mut [usize; DEPTHS], depth: usize, front: usize)
    requires depth { depth ≤ 256 }
    requires fits { front + slice_index sizes.old (depth + 1) + slice_index sizes.old depth < 2 ^ 64 }
    ensures { sizes.new ≡ slice_set (slice_set sizes.old depth
        (front + slice_index sizes.old (depth + 1) + slice_index sizes.old depth)) (depth + 1) 0 }
{
    sizes[depth] = front + sizes[depth + 1] + sizes[depth];
    sizes[depth + 1] = 0;
}

/// The string that an item points at.
#[inline(always)]
fn string_of<'a>(item: &RlpItem, bytes: &'a [u8]) -> &'a [u8]
    requires { item.now.offset + item.now.header_len + item.now.payload_len ≤ length bytes.now }
    ensures { result.now ≡ payload_at bytes.now item.now }
{
    let rest = &bytes[item.offset + item.header_len..];
    &rest[..item.payload_len]
}

/// Writes a string, or the header of a list, as [`write_before`] does. The items in the list take
/// `inside` bytes.
#[inline(always)]
fn write_front(
    item: &RlpItem,
    bytes: &[u8],
    inside: usize,
    out: &mut [u8],
    end: usize,
) -> Option<usize>
    requires { item.now.is_list ≡ 0
        → item.now.offset + item.now.header_len + item.now.payload_len ≤ length bytes.now }
    ensures start { MatchOption result (end < length (front_of bytes.now item.now inside))
        (λ start. start + length (front_of bytes.now item.now inside) ≡ end) }
    ensures written { IfSome result (λ start. end ≤ length out.old → out.new
        ≡ take start out.old ++ (front_of bytes.now item.now inside ++ drop end out.old)) }
{
    if item.is_list != 0 {
        return write_before(written_header(LIST, inside).as_slice(), out, end);
    }
    let string = string_of(item, bytes);
    let start = write_before(string, out, end)?;
    if is_low_byte(string) {
        return Some(start);
    }
    write_before(written_header(STRING, string.len()).as_slice(), out, start)
}

/// Writes bytes in front of `end`, if the array goes up to there, and returns where they begin.
/// Returns `None` if they are longer than `end`.
#[inline(always)]
fn write_before(bytes: &[u8], out: &mut [u8], end: usize) -> Option<usize>
    ensures start { MatchOption result (end < length bytes.now)
        (λ start. start + length bytes.now ≡ end) }
    ensures written { IfSome result (λ start. end ≤ length out.old → out.new
        ≡ take start out.old ++ (bytes.now ++ drop end out.old)) }
{
    let start = end.checked_sub(bytes.len())?;
    if end <= out.len() {
        out[start..end].copy_from_slice(bytes);
    }
    Some(start)
}
