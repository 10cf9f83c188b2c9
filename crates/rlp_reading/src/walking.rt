//! One walk over the bytes of a tree, which reads each header once.

ghost use Rattle.std.specs.Prelude.{◌≡◌, ◌↔◌, ◌≤◌, ◌<◌, ◌+◌, ◌^◌, [], ◌∷◌, length, false, Ok, None, Some, IsTrue, IfOk, IfErr, MatchResult};
ghost use Rattle.rlp_reading.specs.{Format.Flat.IsFlat, Format.Framing.{IsFramedItem, framing, begins_as_list, IsCanonicalWithin}};
ghost use Rattle.rlp_reading.specs.{Format.TreeFaults.{IsFlatFault, is_needless, needless_fault, tree_fault, walk_fault}, Format.Walk.{Extends, IsNeverCanonical, IsWalked}};

use crate::error::DecoderError;
use crate::flat::{FlatItem, FlatRow, TreeFault};
use crate::framed::{Framed, first_framed, whole_framed};
use std::alloc::Global;

/// What an array of items is filled with before the items are written.
const EMPTY_STRING: FlatItem = FlatItem {
    place: 0,
    header_len: 0,
    payload_len: 0,
    depth: 0,
    is_list: false,
};

/// Whether the bytes are exactly the encoding of an item of depth at most `max_depth`.
#[tactic(auto, using(crate::proofs::Trees::Canonical::confirmed, crate::proofs::Trees::Canonical::refuted))]
pub fn is_canonical(bytes: &[u8], max_depth: usize) -> bool
    ensures { IsTrue result ↔ IsCanonicalWithin max_depth bytes.now }
{
    match walk_whole::<FlatItem>(bytes, max_depth, &mut []) {
        Ok(_) => true,
        Err(_) => false,
    }
}

/// The items of the tree whose encoding the bytes are, or why they aren't the encoding of an item
/// of depth at most `max_depth`.
///
/// It walks over the bytes twice: once for the fault and the number of items, and once to fill a
/// vector, for which it allocates once.
#[tactic(auto, using(crate::proofs::Trees::Walks::flattenings))]
pub fn flatten(alloc: Global, bytes: &[u8], max_depth: usize) -> Result<Vec<FlatItem>, TreeFault>
    ensures items { IfOk result (λ v. IsFlat max_depth bytes.now v.items) }
    ensures fault { IfErr result (λ e. IsFlatFault max_depth bytes.now e) }
{
    let count = match walk_whole::<FlatItem>(bytes, max_depth, &mut []) {
        Ok(count) => count,
        Err(fault) => return Err(fault),
    };
    let mut items = match Vec::from_elem(alloc, EMPTY_STRING, count) {
        Ok(items) => items,
        Err(_) => return Err(TreeFault::Decoding(DecoderError::OutOfMemory)),
    };
    match walk_whole(bytes, max_depth, items.as_mut_slice()) {
        Ok(_) => Ok(items),
        Err(fault) => Err(fault),
    }
}

/// Writes the rows of the tree whose encoding the bytes are, and returns their number, or the first
/// fault of the bytes. A row that has no room isn't written.
#[tactic(auto, using(crate::proofs::Trees::Walks::whole_walks))]
pub fn walk_whole<R: FlatRow>(
    bytes: &[u8],
    max_depth: usize,
    out: &mut [R],
) -> Result<usize, TreeFault>
    requires { max_depth ≤ R.greatest_depth }
    ensures walked { MatchResult result
        (λ n. IsWalked R.row_of bytes.now 0 0 max_depth out.old 0 out.new n)
        (λ _. ¬ IsCanonicalWithin max_depth bytes.now) }
    ensures fault { IfErr result (λ e. tree_fault max_depth bytes.now ≡ Some e) }
{
    match whole_framed(bytes) {
        Ok(framed) => walk(&framed, 0, 0, max_depth, out, 0),
        Err(fault) => Err(TreeFault::Decoding(fault)),
    }
}

/// Writes the rows of an item behind the first `count` rows, and returns the new number of rows, or
/// the item's first fault within `left` lists. A row that has no room isn't written.
#[tactic(auto, using(crate::proofs::Trees::Walks::walks))]
fn walk<R: FlatRow>(
    framed: &Framed<'_>,
    place: usize,
    depth: usize,
    left: usize,
    out: &mut [R],
    count: usize,
) -> Result<usize, TreeFault>
    requires header { framing framed.now.item.now ≡ Ok framed.now.header }
    requires item { IsFramedItem framed.now.item.now }
    requires room { place + length framed.now.item.now < 2 ^ 64 }
    requires deep { depth + left < 2 ^ 64 }
    requires fits { depth + left ≤ R.greatest_depth }
    requires few { count ≤ place }
    ensures walked { MatchResult result
        (λ n. IsWalked R.row_of framed.now.item.now place depth left out.old count out.new n)
        (λ _. ¬ IsCanonicalWithin left framed.now.item.now) }
    ensures fault { MatchResult result (λ _. walk_fault left framed.now.item.now ≡ None)
        (λ e. walk_fault left framed.now.item.now ≡ Some e) }
{
    if !framed.is_list() {
        return put_string(framed, place, depth, out, count);
    }
    let row = R::row_of(FlatItem {
        place,
        header_len: framed.header.header_len,
        payload_len: framed.header.value_len,
        depth,
        is_list: true,
    });
    put(out, count, row);
    if left == 0 {
        return Err(TreeFault::TooDeep);
    }
    let mut rest = framed.content;
    let mut rows = count + 1;
    while !rest.is_empty() {
        let (item, others) = match first_framed(rest) {
            Ok(first) => first,
            Err(fault) => return Err(TreeFault::Decoding(fault)),
        };
        let item_place = place + (framed.item.len() - rest.len());
        if item.is_list() {
            rows = match walk(&item, item_place, depth + 1, left - 1, out, rows) {
                Ok(rows) => rows,
                Err(fault) => return Err(fault),
            };
        } else {
            rows = match put_string(&item, item_place, depth + 1, out, rows) {
                Ok(rows) => rows,
                Err(fault) => return Err(fault),
            };
        }
        rest = others;
    }
    Ok(rows)
}

/// Writes the row of a string, as [`walk`] does.
#[inline(always)]
#[tactic(auto, using(crate::proofs::Trees::Walks::walked_strings))]
fn put_string<R: FlatRow>(
    framed: &Framed<'_>,
    place: usize,
    depth: usize,
    out: &mut [R],
    count: usize,
) -> Result<usize, TreeFault>
    requires header { framing framed.now.item.now ≡ Ok framed.now.header }
    requires item { IsFramedItem framed.now.item.now }
    requires kind { begins_as_list framed.now.item.now ≡ false }
    requires room { place + length framed.now.item.now < 2 ^ 64 }
    requires fits { depth ≤ R.greatest_depth }
    requires few { count ≤ place }
    ensures walked { MatchResult result
        (λ n. IsWalked R.row_of framed.now.item.now place depth 0 out.old count out.new n)
        (λ _. IsNeverCanonical framed.now.item.now) }
    ensures fault { MatchResult result (λ _. needless_fault framed.now.item.now ≡ None)
        (λ e. needless_fault framed.now.item.now ≡ Some e) }
{
    let row = R::row_of(FlatItem {
        place,
        header_len: framed.header.header_len,
        payload_len: framed.header.value_len,
        depth,
        is_list: false,
    });
    put(out, count, row);
    if is_needless(framed.item) {
        return Err(TreeFault::Decoding(DecoderError::RlpInvalidIndirection));
    }
    Ok(count + 1)
}

/// Writes a row at its number, if there is room.
#[inline(always)]
#[tactic(auto, using(crate::proofs::Trees::Canonical::puts))]
pub fn put<R: Copy>(out: &mut [R], count: usize, row: R)
    ensures { Extends out.old count (row ∷ []) out.new }
{
    if count < out.len() {
        out[count] = row;
    }
}

/// Whether these bytes are a header in front of one byte that is its own encoding.
#[inline(always)]
pub fn is_needless(item: &[u8]) -> bool
    ensures { result ≡ is_needless item.now }
{
    match item {
        [header, byte] => *header == 0x81 && *byte < 0x80,
        _ => false,
    }
}
