//! Keccak-256, the hash function of Ethereum.
#![tactic(auto)]

mod keccak;

pub use keccak::keccak256;
