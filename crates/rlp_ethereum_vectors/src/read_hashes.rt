//! Hashes that come with records that are read.

use rlp::{DecoderError, Rlp};
use rlp_blocks::{Block, Body};
use rlp_headers::Header;
use rlp_records::{Hash, decode_with_hash, item_hash, item_hashes};
use rlp_transactions::{AnyTransaction, Transaction};
use std::alloc::Global;

/// Returns a header and the hash that names its block, or why the bytes aren't a header.
fn header(alloc: Global, bytes: &[u8]) -> Result<(Header, Hash), DecoderError> {
    decode_with_hash(alloc, bytes)
}

/// Returns a transaction and the hash that names it, or why the bytes aren't a transaction.
fn transaction(alloc: Global, bytes: &[u8]) -> Result<(AnyTransaction, Hash), DecoderError> {
    AnyTransaction::from_bytes_with_hash(alloc, bytes)
}

/// Returns the hash that comes with a record of a kind, or the hash of an item.
fn hash(alloc: Global, kind: &str, bytes: &[u8]) -> Result<Hash, DecoderError> {
    match kind {
        "AnyTransaction" => {
            let (_, hash) = decode_with_hash::<AnyTransaction>(alloc, bytes)?;
            Ok(hash)
        }
        "AnyTransaction alone" => {
            let (_, hash) = transaction(alloc, bytes)?;
            Ok(hash)
        }
        "Header" => {
            let (_, hash) = header(alloc, bytes)?;
            Ok(hash)
        }
        "Transaction alone" => {
            let (_, hash) = Transaction::from_bytes_with_hash(alloc, bytes)?;
            Ok(hash)
        }
        "item" => item_hash(&Rlp::new_strict(bytes)),
        _ => Err(DecoderError::Custom("no such call")),
    }
}

/// Returns the hash of the header of a block, and the hashes of its transactions.
fn of_block(alloc: Global, bytes: &[u8]) -> Result<Vec<Hash>, DecoderError> {
    let (_, hashes) = Block::decode_with_hashes(alloc, bytes)?;
    let mut all = Vec::from_slice(alloc, &[hashes.header])?;
    all.extend_from_slice(hashes.transactions.as_slice())?;
    Ok(all)
}

/// Returns the hashes that come with a record of a kind.
fn hashes(alloc: Global, kind: &str, bytes: &[u8]) -> Result<Vec<Hash>, DecoderError> {
    match kind {
        "Block" => of_block(alloc, bytes),
        "Body" => {
            let (_, hashes) = Body::decode_with_hashes(alloc, bytes)?;
            Ok(hashes)
        }
        "items" => item_hashes(alloc, &Rlp::new_strict(bytes)),
        _ => Ok(Vec::from_slice(alloc, &[hash(alloc, kind, bytes)?])?),
    }
}

/// Returns the digits of the hashes that come with a record of a kind, with a blank between two, or
/// `none`.
pub(crate) fn answer(alloc: Global, kind: &str, bytes: &[u8]) -> Result<String, DecoderError> {
    let hashes = hashes(alloc, kind, bytes)?;
    if hashes.is_empty() {
        return Ok(String::from_str(alloc, "none")?);
    }
    let mut text = String::new(alloc);
    for hash in hashes.iter() {
        if !text.is_empty() {
            text.push(' ')?;
        }
        text.push_str(hex::encode(alloc, &hash.0)?.as_str())?;
    }
    Ok(text)
}
