//! What all records of Ethereum have in common: hashes by Keccak-256, addresses, envelopes and the laws of
//! records.
#![tactic(auto)]

mod address;
mod bounded;
mod eip2718;
mod envelope;
mod envelope_items;
mod enveloped;
mod hash;
mod known_or_other;
pub mod laws;
mod other_envelope;

pub use address::Address;
pub use bounded::decode_at_most;
pub use eip2718::Eip2718;
pub use envelope::{
    ACCESS_LIST_TYPE, AUTHORIZATION_MAGIC, BLOB_TYPE, DEPOSIT_TYPE, FEE_MARKET_TYPE, SET_CODE_TYPE,
    from_envelope, to_envelope, typed_list,
};
pub use enveloped::Enveloped;
pub use hash::{Hash, decode_with_hash, encoding_hash, item_hash, item_hashes, item_values};
pub use known_or_other::KnownOrOther;
pub use other_envelope::OtherEnvelope;
pub use rlp_keccak::keccak256;
