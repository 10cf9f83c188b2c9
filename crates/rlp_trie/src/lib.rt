//! Nodes of the trie, and proofs of what it has, as in appendix D of the yellow paper.
#![tactic(auto)]

mod branch;
mod branch_child;
mod child;
mod hex_prefix;
mod inline_node;
pub mod laws;
mod leaf;
mod ordered;
mod ordered_values;
mod path;
mod possible;
mod proof;
mod trie_node;
mod walk;

pub use branch::Branch;
pub use branch_child::BranchChild;
pub use child::Child;
pub use hex_prefix::ends_in_leaf;
pub use inline_node::InlineNode;
pub use leaf::{Extension, Leaf};
pub use ordered::{empty_root, ordered_root};
pub use ordered_values::{encodings_root, standalone_root};
pub use path::{ExtensionPath, LeafPath, Path};
pub use proof::{ProofFault, verify_item, verify_proof};
pub use trie_node::TrieNode;
