//! Where in their bytes records have faults: the paths to the items at fault.

use rlp::{DecodePlaced, DecoderError, Rlp};
use rlp_blocks::Block;
use rlp_headers::{Account, London, TypedReceipt, Withdrawal};
use rlp_node_record::NodeRecord;
use rlp_pooled::PooledTransaction;
use rlp_records::{Eip2718, KnownOrOther};
use rlp_transactions::Transaction;
use rlp_trie::TrieNode;
use std::alloc::Global;

/// Returns where and why a record can't be read.
pub(crate) fn answer(alloc: Global, name: &str, bytes: &[u8]) -> Result<String, DecoderError> {
    match name {
        "account" => strict::<Account>(alloc, bytes),
        "block" => strict::<Block>(alloc, bytes),
        "node" => strict::<TrieNode>(alloc, bytes),
        "node record" => strict::<NodeRecord>(alloc, bytes),
        "withdrawal" => strict::<Withdrawal>(alloc, bytes),
        "pooled transaction" => alone::<PooledTransaction>(alloc, bytes),
        "receipt" => alone::<TypedReceipt>(alloc, bytes),
        "transaction" => alone::<Transaction>(alloc, bytes),
        _ => london(alloc, bytes),
    }
}

/// Returns where and why a transaction or a receipt by itself can't be read.
fn alone<T: Eip2718>(alloc: Global, bytes: &[u8]) -> Result<String, DecoderError> {
    let mut path = Vec::new(alloc);
    KnownOrOther::<T>::put_path_alone(alloc, bytes, &mut path)?;
    match KnownOrOther::<T>::from_bytes(alloc, bytes) {
        Ok(_) => Ok(String::from_str(alloc, "read")?),
        Err(found) => Ok(format!(in alloc; "{path:?} {found}")?),
    }
}

/// Returns where and why a value can't be read strictly.
fn strict<T: DecodePlaced>(alloc: Global, bytes: &[u8]) -> Result<String, DecoderError> {
    match rlp::decode_placed::<T>(alloc, &Rlp::new_strict(bytes)) {
        Ok(_) => Ok(String::from_str(alloc, "read")?),
        Err(placed) => Ok(format!(in alloc; "{:?} {}", placed.path, placed.fault)?),
    }
}

/// Returns the printed text of the fault of the fields of a header since London.
fn london(alloc: Global, bytes: &[u8]) -> Result<String, DecoderError> {
    match rlp::decode_struct::<London>(alloc, &Rlp::new(bytes)) {
        Ok(_) => Ok(String::from_str(alloc, "read")?),
        Err(fault) => Ok(format!(in alloc; "{fault}")?),
    }
}
