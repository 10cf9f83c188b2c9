//! The walk over the nodes of a proof.

ghost use Rattle.std.specs.{Prelude.{ℕ, ◌<◌, ◌≡◌, ◌⊎◌, Err, IfErr, IfOk, List, Ok, Option, Result, map, option_map}, Str.bytes_eq, Vec.vec_items};
ghost use Rattle.rlp.specs.Format.Encoding.{string};
ghost use Rattle.rlp_records.specs.Keccak.{keccak256};
ghost use Rattle.rlp_trie.specs.{Child.child_item, HexPrefix.{AreNibbles, path_nibbles}, Lookup.{Encodes, extension_step, place_step, step}, Next.{Agrees, IsEnd, next_step, read_fault}};
ghost use Rattle.rlp_trie.specs.{ProofWalk.{IsNoNode, IsUnread, TakesNode, Walk, next_node, unless_repeated}, Trie.child_at, declared.proof.ProofFault.TheVariants.OutOfMemory};

use crate::{Branch, BranchChild, Child, Extension, Leaf, ProofFault, TrieNode};
use rlp::{DecoderError, NULL_RLP};
use rlp_records::{Hash, keccak256};
use std::alloc::{AllocError, Global};

/// Walks from a child along a path, over the nodes of a proof. Returns the value that the trie has
/// for the path, or `None` if it has no value.
pub(crate) fn walk(
    alloc: Global,
    first: Child,
    path: &[u8],
    nodes: &[Vec<u8>],
) -> Result<Option<Vec<u8>>, ProofFault>
    requires { AreNibbles path.now }
    ensures ends { IsEnd (map vec_items nodes.now) (child_item first) path.now result }
    ensures only { (outcome : Result (Option (List ℕ)) ProofFault)
        → Walk (map vec_items nodes.now) (child_item first) path.now outcome
        → Agrees result outcome }
{
    let mut child = first;
    let mut rest = path;
    let mut left = nodes;
    loop {
        let (node, others) = take_node(alloc, &child, left)?;
        match step(alloc, node, rest)? {
            Next::Value(value) => {
                if others.is_empty() {
                    return Ok(value);
                }
                return Err(ProofFault::NodesLeft);
            }
            Next::Below(below, more) => {
                child = below;
                rest = more;
                left = others;
            }
        }
    }
}

/// Reads the node of a child. Returns the node, and the nodes of the proof that are left.
fn take_node<'a>(
    alloc: Global,
    child: &Child,
    nodes: &'a [Vec<u8>],
) -> Result<(TrieNode, &'a [Vec<u8>]), ProofFault>
    ensures value { IfOk result (λ r. TakesNode (child_item child.now) (map vec_items nodes.now)
        r.0 (map vec_items r.1.now)) }
    ensures fault { IfErr result (λ e. (IsNoNode (child_item child.now) (map vec_items nodes.now) e)
        ⊎ (e ≡ OutOfMemory)) }
{
    match child {
        Child::Node(hash) => {
            let (bytes, left) = next_named(hash, nodes)?;
            Ok((read_node(alloc, bytes)?, left))
        }
        Child::Inline(inline) => {
            let bytes = inline.item.as_bytes();
            Ok((read_node(alloc, bytes)?, unless_repeated(bytes, nodes)))
        }
    }
}

/// Returns the nodes of a proof, without the first if it repeats a node that is kept in its parent.
fn unless_repeated<'a>(kept: &[u8], nodes: &'a [Vec<u8>]) -> &'a [Vec<u8>]
    ensures { map vec_items result.now ≡ unless_repeated kept.now (map vec_items nodes.now) }
{
    match nodes {
        [next, left @ ..] if next.as_slice() == kept => left,
        _ => nodes,
    }
}

/// Returns the encoding that a hash names, and the nodes of the proof that are left.
fn next_named<'a>(
    hash: &Hash,
    nodes: &'a [Vec<u8>],
) -> Result<(&'a [u8], &'a [Vec<u8>]), ProofFault>
    ensures value { IfOk result (λ r. next_node (string hash.now.0) (map vec_items nodes.now)
        ≡ Ok (r.0.now, map vec_items r.1.now)) }
    ensures fault { IfErr result (λ e. next_node (string hash.now.0) (map vec_items nodes.now)
        ≡ Err e) }
{
    match nodes {
        [next, left @ ..] => {
            if !is_hash_of(hash, next.as_slice()) {
                return Err(ProofFault::OtherHash);
            }
            Ok((next.as_slice(), left))
        }
        [] => {
            if !is_hash_of(hash, &NULL_RLP) {
                return Err(ProofFault::MissingNode);
            }
            Ok((&NULL_RLP, nodes))
        }
    }
}

/// Returns whether a hash is the hash of these bytes.
fn is_hash_of(hash: &Hash, bytes: &[u8]) -> bool
    ensures { result ≡ bytes_eq hash.now.0 (keccak256 bytes.now) }
{
    hash.0 == keccak256(bytes)
}

/// Reads a node from its encoding.
fn read_node(alloc: Global, bytes: &[u8]) -> Result<TrieNode, ProofFault>
    ensures value { IfOk result (λ n. Encodes bytes.now n) }
    ensures fault { IfErr result (λ e. IsUnread bytes.now e ⊎ (e ≡ OutOfMemory)) }
{
    match rlp::decode_whole(alloc, bytes) {
        Ok(node) => Ok(node),
        Err(fault) => Err(read_fault(fault)),
    }
}

/// Returns the fault of a proof with a node that has this fault.
fn read_fault(fault: DecoderError) -> ProofFault
    ensures { result ≡ read_fault fault }
{
    match fault {
        DecoderError::OutOfMemory => ProofFault::OutOfMemory,
        fault => ProofFault::FaultyNode(fault),
    }
}

/// What a node says of a path.
#[derive(Drop)]
pub(crate) enum Next<'a> {
    /// The value of the path, or `None` if the path has no value.
    Value(Option<Vec<u8>>),
    /// The node below, and the rest of the path.
    Below(Child, &'a [u8]),
}

/// Returns what a node says of a path. Fails with `AllocError` if memory is refused.
pub(crate) fn step<'a>(
    alloc: Global,
    node: TrieNode,
    path: &'a [u8],
) -> Result<Next<'a>, AllocError>
    requires { AreNibbles path.now }
    ensures { IfOk result (λ next. next_step next ≡ step node path.now) }
{
    match node {
        TrieNode::Empty => Ok(Next::Value(None)),
        TrieNode::Leaf(leaf) => leaf_step(alloc, leaf, path),
        TrieNode::Extension(extension) => extension_step(alloc, extension, path),
        TrieNode::Branch(branch) => Ok(branch_step(branch, path)),
    }
}

/// Returns what a leaf says of a path.
fn leaf_step<'a>(alloc: Global, leaf: Leaf, path: &'a [u8]) -> Result<Next<'a>, AllocError>
    ensures { IfOk result (λ next. next_step next ≡ step (TrieNode.Leaf leaf) path.now) }
{
    let own = leaf.path.nibbles(alloc)?;
    if own.as_slice() == path {
        return Ok(Next::Value(Some(leaf.value)));
    }
    Ok(Next::Value(None))
}

/// Returns what an extension says of a path.
fn extension_step<'a>(
    alloc: Global,
    extension: Extension,
    path: &'a [u8],
) -> Result<Next<'a>, AllocError>
    ensures { IfOk result (λ next. next_step next ≡ step (TrieNode.Extension extension) path.now) }
{
    let own = extension.path.nibbles(alloc)?;
    match path.strip_prefix(own.as_slice()) {
        Some(rest) => Ok(Next::Below(extension.child, rest)),
        None => Ok(Next::Value(None)),
    }
}

/// Returns what a branch says of a path.
fn branch_step<'a>(branch: Branch, path: &'a [u8]) -> Next<'a>
    requires { AreNibbles path.now }
    ensures { next_step result ≡ step (TrieNode.Branch branch) path.now }
{
    match path {
        [] if branch.value.is_empty() => Next::Value(None),
        [] => Next::Value(Some(branch.value)),
        [nibble, rest @ ..] => match child_for(branch, *nibble) {
            Some(child) => Next::Below(child, rest),
            None => Next::Value(None),
        },
    }
}

/// Returns the child of a branch for a nibble.
fn child_for(branch: Branch, nibble: u8) -> Option<Child>
    requires { nibble < 16 }
    ensures { result ≡ (child_at nibble branch).0 }
{
    let mut children = branch.children;
    children[nibble as usize].0.take()
}
