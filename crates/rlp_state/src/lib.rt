//! Proofs of the accounts of Ethereum's state and of their storage, as `eth_getProof` of EIP-1186
//! answers them.
#![tactic(auto)]

mod account_proof;
mod empty;
mod fault;
pub mod laws;
mod slot_proof;
mod state_proof;

pub use account_proof::verify_account;
pub use empty::{empty_account, empty_code_hash, empty_ommers_hash};
pub use fault::StateFault;
pub use slot_proof::verify_slot;
pub use state_proof::{ProvedState, SlotProof, StateProof, StateProofFault};
