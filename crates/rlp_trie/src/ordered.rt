//! The trie of an ordered list.

ghost use Rattle.std.specs.{Prelude.{ℕ, ◌≡◌, ◌<◌, ◌++◌, IfOk, OnOk, List, [], drop, length, map}, Vec.vec_items};
ghost use Rattle.rlp.specs.{Format.Encoding.{Item, encoding}, Streams.Stream.list_encoding};
ghost use Rattle.rlp_trie.specs.{HexPrefix.AreNibbles, OrderedPairs.{HaveNibbles, begins_with, seen_pair, slice_bytes, without}};
ghost use Rattle.rlp_trie.specs.Ordered.{below, common, extension_item, in_turn, leaf_item, node, ordered_root, pairs_from, place_path, reference, shared};

use crate::hex_prefix::{hex_prefix, push_nibbles};
use bytes::BytesMut;
use rlp::{NULL_RLP, RlpStream};
use rlp_records::{Hash, keccak256};
use std::alloc::{AllocError, Global};

/// The most nibbles of the encoding of a place, and one.
const TURNS: u8 = 19;

/// A path and its value.
#[derive(Clone, Copy)]
pub(crate) struct PathValue<'a> {
    path: &'a [u8],
    value: &'a [u8],
}

/// The nibbles with which both paths begin.
fn common<'a>(path: &'a [u8], other: &[u8]) -> &'a [u8]
    ensures { result.now ≡ common path.now other.now }
{
    let mut count = 0;
    while count < path.len() && count < other.len() && path[count] == other[count] {
        count += 1;
    }
    &path[..count]
}

/// The nibbles with which a path and all of these paths begin.
#[tactic(auto, using(crate::proofs::OrderedBodies::shared_more))]
fn shared<'a>(path: &'a [u8], pairs: &[PathValue<'_>]) -> &'a [u8]
    ensures { result.now ≡ shared path.now (map seen_pair pairs.now) }
{
    let mut own = path;
    for pair in pairs {
        own = common(own, pair.path);
    }
    own
}

/// The rest of a path after its first nibbles.
fn after(path: &[u8], count: usize) -> &[u8]
    ensures { result.now ≡ drop count path.now }
{
    if count <= path.len() {
        &path[count..]
    } else {
        &[]
    }
}

/// Whether a path begins with a nibble.
fn begins_with(path: &[u8], nibble: u8) -> bool
    ensures { result ≡ begins_with nibble path.now }
{
    match path {
        [first, ..] => *first == nibble,
        [] => false,
    }
}

/// The pairs whose path begins with a nibble, each with the rest of its path.
fn below<'a>(
    alloc: Global,
    pairs: &[PathValue<'a>],
    nibble: u8,
) -> Result<Vec<PathValue<'a>>, AllocError>
    ensures { IfOk result (λ found. map seen_pair found.items ≡ below nibble (map seen_pair pairs.now)) }
{
    let mut found = Vec::new(alloc);
    for pair in pairs {
        if begins_with(pair.path, nibble) {
            found.push(PathValue {
                path: after(pair.path, 1),
                value: pair.value,
            })?;
        }
    }
    Ok(found)
}

/// The pairs, each with the rest of its path after the first nibbles.
#[tactic(auto, using(crate::proofs::OrderedBodies::without_more))]
fn without<'a>(
    alloc: Global,
    pairs: &[PathValue<'a>],
    count: usize,
) -> Result<Vec<PathValue<'a>>, AllocError>
    ensures { IfOk result (λ rest. map seen_pair rest.items ≡ without count (map seen_pair pairs.now)) }
{
    let mut rest = Vec::new(alloc);
    for pair in pairs {
        rest.push(PathValue {
            path: after(pair.path, count),
            value: pair.value,
        })?;
    }
    Ok(rest)
}

/// Appends the encoding of the reference to the node with this encoding: the node itself if it has
/// fewer than 32 bytes, and else the string of its hash.
#[tactic(auto, using(crate::proofs::OrderedBodies::references))]
fn put_reference(items: &mut BytesMut, node: &[u8]) -> Result<(), AllocError>
    ensures { (x : Item) → node.now ≡ encoding x
        → OnOk result (items.new.items ≡ items.old.items ++ encoding (reference x)) }
{
    if node.len() < 32 {
        return items.extend_from_slice(node);
    }
    items.extend_from_slice(&[0xa0])?;
    items.extend_from_slice(&keccak256(node))
}

/// The encoding of the list of this number of items, from their joined encodings.
fn list_of(alloc: Global, items: &[u8], count: usize) -> Result<BytesMut, AllocError>
    requires { 0 < count }
    ensures { IfOk result (λ b. b.items ≡ list_encoding items.now) }
{
    let mut s = RlpStream::new_list(alloc, count)?;
    s.append_raw(items, count)?;
    Ok(s.out())
}

/// The encoding of a leaf.
fn leaf(alloc: Global, path: &[u8], value: &[u8]) -> Result<BytesMut, AllocError>
    requires { AreNibbles path.now }
    ensures { IfOk result (λ b. b.items ≡ encoding (leaf_item path.now value.now)) }
{
    let path = hex_prefix(alloc, true, path)?;
    rlp::encode_list(alloc, &[path.as_slice(), value])
}

/// The encoding of an extension, for the encoding of the node below.
fn extension(alloc: Global, path: &[u8], inner: &[u8]) -> Result<BytesMut, AllocError>
    requires { AreNibbles path.now }
    ensures { (x : Item) → inner.now ≡ encoding x
        → IfOk result (λ b. b.items ≡ encoding (extension_item path.now x)) }
{
    let path = hex_prefix(alloc, false, path)?;
    let mut items = rlp::encode(alloc, &path.as_slice())?;
    put_reference(&mut items, inner)?;
    list_of(alloc, items.as_slice(), 2)
}

/// The encoding of the node of these pairs.
#[tactic(auto, using(crate::proofs::OrderedBodies::node_cases))]
fn node(alloc: Global, pairs: &[PathValue<'_>], turns: u8) -> Result<BytesMut, AllocError>
    requires { HaveNibbles (map seen_pair pairs.now) }
    ensures { IfOk result (λ b. b.items ≡ encoding (node turns (map seen_pair pairs.now))) }
{
    let Some(first) = pairs.first() else {
        return rlp::encode(alloc, &"");
    };
    if turns == 0 {
        return rlp::encode(alloc, &"");
    }
    if pairs.len() == 1 {
        return leaf(alloc, first.path, first.value);
    }
    let own = shared(first.path, &pairs[1..]);
    if own.is_empty() {
        let mut items = BytesMut::new(alloc);
        for nibble in 0u8..16 {
            let found = below(alloc, pairs, nibble)?;
            let inner = node(alloc, found.as_slice(), turns - 1)?;
            put_reference(&mut items, inner.as_slice())?;
        }
        items.extend_from_slice(&NULL_RLP)?;
        return list_of(alloc, items.as_slice(), 17);
    }
    let rest = without(alloc, pairs, own.len())?;
    let inner = node(alloc, rest.as_slice(), turns - 1)?;
    extension(alloc, own, inner.as_slice())
}

/// The path of a place: the nibbles of the encoding of its number.
fn path_of(alloc: Global, place: usize) -> Result<Vec<u8>, AllocError>
    ensures { IfOk result (λ p. p.items ≡ place_path place) }
{
    let key = rlp::encode(alloc, &place)?;
    let mut path = Vec::new(alloc);
    push_nibbles(&mut path, key.as_slice())?;
    Ok(path)
}

/// The paths of the first places.
fn paths_of(alloc: Global, count: usize) -> Result<Vec<Vec<u8>>, AllocError>
    ensures { IfOk result (λ paths. (length paths.items ≡ count)
        × (map vec_items paths.items ≡ in_turn place_path 0 count)) }
{
    let mut paths = Vec::with_capacity(alloc, count)?;
    for place in 0..count {
        paths.push(path_of(alloc, place)?)?;
    }
    Ok(paths)
}

/// Returns the root of the trie of an ordered list, which has each value at the encoding of its
/// place, counted from 0. So it returns the root of a block's transactions, receipts or withdrawals
/// for the values that stand in these tries: for transactions and receipts the
/// [standalone](rlp_records::Eip2718) bytes.
///
/// Fails with `AllocError` if memory is refused.
///
/// An empty value is a leaf with no bytes. No list of Ethereum has one.
pub fn ordered_root(alloc: Global, values: &[&[u8]]) -> Result<Hash, AllocError>
    ensures { IfOk result (λ h. h.0 ≡ ordered_root (map slice_bytes values.now)) }
{
    let paths = paths_of(alloc, values.len())?;
    let mut pairs = Vec::with_capacity(alloc, values.len())?;
    for index in 0..values.len() {
        pairs.push(PathValue {
            path: paths[index].as_slice(),
            value: values[index],
        })?;
    }
    let root = node(alloc, pairs.as_slice(), TURNS)?;
    Ok(Hash(keccak256(root.as_slice())))
}

/// Returns the root of the trie that has no values, which is the root of the empty list too.
#[tactic(auto, using(crate::proofs::EmptyRoot::empty_is))]
pub fn empty_root() -> Hash
    ensures { result.0 ≡ ordered_root [] }
{
    Hash([
        0x56, 0xe8, 0x1f, 0x17, 0x1b, 0xcc, 0x55, 0xa6, 0xff, 0x83, 0x45, 0xe6, 0x92, 0xc0, 0xf8,
        0x6e, 0x5b, 0x48, 0xe0, 0x1b, 0x99, 0x6c, 0xad, 0xc0, 0x01, 0x62, 0x2f, 0xb5, 0xe3, 0x63,
        0xb4, 0x21,
    ])
}
