//! Nodes of the trie of every kind: leaves, extensions and branches.

ghost use Rattle.std.specs.Prelude.{◌≡◌, ◌⊎◌, Err, IfErr, IfOk, Ok, OnOk};
ghost use Rattle.rlp.specs.{DecoderError.TheVariants.OutOfMemory, Format.Encoding.encoding, Form.{IsPlaced, fault_of}};
ghost use Rattle.rlp_records.specs.Hashing.{IsHashOf};
ghost use Rattle.rlp_trie.specs.{TrieNode.{begins_as_leaf, node_of, seen_node}, TrieNodeLaws.trie_node};

use crate::branch_child::is_empty_string;
use crate::hex_prefix::ends_in_leaf;
use crate::{Branch, Extension, Leaf};
use rlp::{DecoderError, Encodable, Record, Rlp, RlpStream};
use rlp_records::{Hash, encoding_hash};
use std::alloc::{AllocError, Global};

/// A node of the Merkle Patricia trie of any kind, or the empty trie.
///
/// See appendix D of the yellow paper. A branch is a list of 17 items, and leaves and extensions
/// are lists of two items: the flag of the path says which of the two a node is, as
/// [`ends_in_leaf`](crate::ends_in_leaf) explains.
///
/// Reading also takes nodes that no trie has: a leaf with an empty value, a branch that has neither
/// two children nor a child and a value, and an extension to a node that isn't a branch.
/// [`TrieNode::is_possible`] finds most of these nodes.
#[derive(Debug, Clone, PartialEq, Eq, Drop)]
pub enum TrieNode {
    /// The empty trie, which has no node: the empty string.
    Empty,
    /// A node that ends a path.
    Leaf(Leaf),
    /// A node with one child.
    Extension(Extension),
    /// A node with a child for each value of the next nibble.
    Branch(Branch),
}

impl Encodable for TrieNode {
    ghost item = { trie_node.item };

    ghost fits = { trie_node.Fits };

    #[tactic(auto, using(rlp::proofs::Writing::writing))]
    fn rlp_append(&self, s: &mut RlpStream) -> Result<(), AllocError> {
        match self {
            TrieNode::Empty => s.encoder().encode_value(&[]),
            TrieNode::Leaf(leaf) => leaf.rlp_append(s),
            TrieNode::Extension(extension) => extension.rlp_append(s),
            TrieNode::Branch(branch) => branch.rlp_append(s),
        }
    }
}

/// Reads the whole encoding of a node, also from a lenient view, since these bytes are hashed. From
/// a lenient view too, only the bytes that follow the node are ignored.
///
/// The empty string is read as the empty trie. Other bytes fail as [`Rlp::payload_info`] and a strict
/// [`Rlp::item_count`] do, with `RlpIncorrectListLen` for a list that has neither 2 nor 17 items, and
/// else with the strict fault of the branch, the leaf or the extension. A list of two items is a leaf
/// if it begins with the path of a leaf.
impl Record for TrieNode {
    ghost reading = { trie_node.reading };

    fn decode(alloc: Global, rlp: &Rlp<'_>) -> Result<TrieNode, DecoderError> {
        let (item, _) = rlp.split_first()?;
        node_of(alloc, item.as_raw())
    }

    fn put_path(alloc: Global, rlp: &Rlp<'_>, path: &mut Vec<usize>) -> Result<(), AllocError> {
        match rlp.split_first() {
            Ok((item, _)) => put_node_path(alloc, item.as_raw(), path),
            Err(_) => Ok(()),
        }
    }

    ghost lawful = { trie_node.reads_strictly };
}

/// Reads a node from bytes that are one item.
fn node_of(alloc: Global, bytes: &[u8]) -> Result<TrieNode, DecoderError>
    ensures value { IfOk result (λ n. (node_of bytes.now).result ≡ Ok (seen_node n)) }
    ensures fault { IfErr result
        (λ e. ((node_of bytes.now).result ≡ Err (fault_of e)) ⊎ (e ≡ OutOfMemory)) }
{
    if is_empty_string(bytes) {
        return Ok(TrieNode::Empty);
    }
    match Rlp::new_strict(bytes).item_count()? {
        2 if is_leaf(bytes) => Ok(TrieNode::Leaf(rlp::decode_strict(alloc, bytes)?)),
        2 => Ok(TrieNode::Extension(rlp::decode_strict(alloc, bytes)?)),
        17 => Ok(TrieNode::Branch(rlp::decode_strict(alloc, bytes)?)),
        _ => Err(DecoderError::RlpIncorrectListLen),
    }
}

/// Appends the path of the fault of bytes that are one item.
fn put_node_path(alloc: Global, bytes: &[u8], path: &mut Vec<usize>) -> Result<(), AllocError>
    ensures { OnOk result (IsPlaced (node_of bytes.now) path.old.items path.new.items) }
{
    if is_empty_string(bytes) {
        return Ok(());
    }
    let view = Rlp::new_strict(bytes);
    match view.item_count() {
        Ok(2) if is_leaf(bytes) => Leaf::put_path(alloc, &view, path),
        Ok(2) => Extension::put_path(alloc, &view, path),
        Ok(17) => Branch::put_path(alloc, &view, path),
        _ => Ok(()),
    }
}

/// Returns whether the first item of a list is the path of a leaf.
fn is_leaf(bytes: &[u8]) -> bool
    ensures { result ≡ begins_as_leaf bytes.now }
{
    match Rlp::new_strict(bytes).at(0) {
        Ok(item) => match item.decoder().string() {
            Ok(path) => ends_in_leaf(path).unwrap_or(false),
            Err(_) => false,
        },
        Err(_) => false,
    }
}

impl TrieNode {
    /// Returns the hash of the node's encoding. This hash names the root, and each node whose
    /// encoding has 32 bytes or more. A shorter node is kept in its parent.
    pub fn hash(&self, alloc: Global) -> Result<Hash, AllocError>
        ensures fits { OnOk result (trie_node.Fits self.now) }
        ensures hash { IfOk result (λ h. IsHashOf h (encoding (trie_node.item self.now))) }
    {
        encoding_hash::<TrieNode>(alloc, self)
    }
}
