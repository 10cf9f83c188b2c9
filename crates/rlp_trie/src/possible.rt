//! Nodes that a trie can have.

ghost use Rattle.std.specs.Prelude.{◌≡◌, nat_le};
ghost use Rattle.rlp_trie.specs.Possible.{child_count, is_possible, is_possible_branch, may_be_branch};

use crate::{Branch, BranchChild, Child, TrieNode};

/// The number of items of a branch.
const BRANCH_ITEMS: usize = 17;

impl TrieNode {
    /// Whether a trie can have the node, as far as the node itself shows. A leaf must have a value.
    /// A branch must have at least two children, or a child and a value. A child that is kept in an
    /// extension must be a list of 17 items, as a branch is. An empty value counts as no value. The
    /// empty trie is possible.
    ///
    /// Nodes that are kept in a branch, and nodes that are named by their hash, aren't looked at.
    pub fn is_possible(&self) -> bool
        ensures { result ≡ is_possible self.now }
    {
        match self {
            TrieNode::Empty => true,
            TrieNode::Leaf(leaf) => !leaf.value.is_empty(),
            TrieNode::Extension(extension) => may_be_branch(&extension.child),
            TrieNode::Branch(branch) => is_possible_branch(branch),
        }
    }
}

/// Returns whether a child may be a branch. A node that is named by its hash may be a branch.
fn may_be_branch(child: &Child) -> bool
    ensures { result ≡ may_be_branch child.now }
{
    match child {
        Child::Node(_) => true,
        Child::Inline(node) => match node.item.rlp().item_count() {
            Ok(items) => items == BRANCH_ITEMS,
            Err(_) => false,
        },
    }
}

/// Returns whether a branch has at least two of its children and its value.
fn is_possible_branch(branch: &Branch) -> bool
    ensures { result ≡ is_possible_branch branch.now }
{
    let least = if branch.value.is_empty() { 2 } else { 1 };
    have_children(branch.children.as_slice(), least)
}

/// Returns whether at least this many places of a branch have a child.
fn have_children(places: &[BranchChild], least: u8) -> bool
    ensures { result ≡ nat_le least (child_count places.now) }
{
    match places {
        [BranchChild(None), others @ ..] => have_children(others, least),
        [BranchChild(Some(_)), others @ ..] => least <= 1 || have_children(others, least - 1),
        [] => least == 0,
    }
}
