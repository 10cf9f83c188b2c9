//! What rows of tests ask about the records of Ethereum: about transactions, blocks, nodes of the
//! trie, proofs and node records, about the messages between clients, and about Keccak-256. The
//! program in `rlp_tool_vectors` reads the rows and calls [`answer`].
#![tactic(auto)]

mod answers;
mod bound;
mod direct;
mod fields;
mod hashes;
mod kinds;
mod light;
mod messages;
mod node_records;
mod nodes;
mod places;
mod read_hashes;
mod reading;
mod roots;
mod transactions;
mod uses;

pub use answers::answer;
pub use reading::at_most;
