//! What a node does with untrusted bytes.

use crate::fields::text;
use rlp::DecoderError;
use rlp_records::{Hash, keccak256};
use rlp_transactions::AnyTransaction;
use rlp_trie::{ProofFault, verify_proof};
use std::alloc::Global;

/// Returns the hash of a transaction, or what to tell the peer that sent it.
fn received(alloc: Global, bytes: &[u8]) -> Result<Hash, &'static str> {
    match AnyTransaction::from_bytes_with_hash(alloc, bytes) {
        Ok((_, hash)) => Ok(hash),
        Err(DecoderError::OutOfMemory) => Err("no memory: try again"),
        Err(DecoderError::RlpIsTooShort) => Err("cut off, or an address or a hash is too short"),
        Err(DecoderError::RlpIsTooBig) => Err("bytes follow, or a field is too long"),
        Err(DecoderError::RlpIncorrectListLen) => Err("fields are missing or added"),
        Err(DecoderError::RlpExpectedToBeList) => Err("a field is a string in place of a list"),
        Err(DecoderError::RlpExpectedToBeData) => Err("a field is a list in place of a string"),
        Err(DecoderError::Custom(text)) => Err(text),
        Err(_) => Err("this isn't a canonical encoding"),
    }
}

/// Returns the encoding of the account at an address, or `None` if there is none. The nodes are the
/// `accountProof` of `eth_getProof`.
fn account(
    alloc: Global,
    state_root: &Hash,
    address: &[u8],
    nodes: &[Vec<u8>],
) -> Result<Option<Vec<u8>>, ProofFault> {
    verify_proof(alloc, state_root, &keccak256(address), nodes)
}

/// Returns the digits of the hash of received bytes, or what is wrong with them.
pub(crate) fn tell_received(alloc: Global, bytes: &[u8]) -> Result<String, DecoderError> {
    match received(alloc, bytes) {
        Ok(hash) => Ok(hex::encode(alloc, &hash.0)?),
        Err(told) => Ok(String::from_str(alloc, told)?),
    }
}

/// Returns what is known of an account without nodes, under the root of the trie.
pub(crate) fn tell_account(alloc: Global, root: &[u8]) -> Result<String, DecoderError> {
    let root = rlp::decode_strict::<Hash>(alloc, root)?;
    let nodes = Vec::new(alloc);
    text(alloc, account(alloc, &root, &[1; 20], nodes.as_slice()))
}
