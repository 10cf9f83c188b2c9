//! Blocks whose bodies are the ones that their headers name.

use rlp::DecoderError;
use rlp_blocks::{Block, BlockFault, BodyFault, BoundBlock};
use rlp_records::Hash;
use rlp_vectors::rows::Hex;
use std::alloc::Global;

/// Returns the digits of the hash of a block and of the hashes of its transactions, or the fault.
/// The bytes are the encoding of the block; for `by hash` the hash stands before it.
pub(crate) fn answer(alloc: Global, name: &str, bytes: &[u8]) -> Result<String, DecoderError> {
    match name {
        "made" => made(alloc, rlp::decode_strict(alloc, bytes)?),
        "by hash" => by_hash(alloc, bytes),
        _ => told(alloc, BoundBlock::from_bytes(alloc, bytes)),
    }
}

/// Makes a block of a header and a body, and returns its hashes, or the fault.
fn made(alloc: Global, block: Block) -> Result<String, DecoderError> {
    let (header, body) = block.into_parts();
    match BoundBlock::new(alloc, header, body) {
        Ok(block) => hashes(alloc, &block),
        Err(BodyFault::OutOfMemory) => Err(DecoderError::OutOfMemory),
        Err(fault) => Ok(format!(in alloc; "OtherBody({fault})")?),
    }
}

/// Reads the block with the hash that stands before it, and returns its hashes, or the fault.
fn by_hash(alloc: Global, bytes: &[u8]) -> Result<String, DecoderError> {
    if bytes.len() < 32 {
        return Err(DecoderError::RlpIsTooShort);
    }
    let (hash, block) = bytes.split_at(32);
    match <[u8; 32]>::try_from(hash) {
        Ok(hash) => told(alloc, BoundBlock::of_hash(alloc, &Hash(hash), block)),
        Err(_) => Err(DecoderError::RlpIsTooShort),
    }
}

/// Returns the hashes of a block that was read, or the fault.
fn told(alloc: Global, given: Result<BoundBlock, BlockFault>) -> Result<String, DecoderError> {
    match given {
        Ok(block) => hashes(alloc, &block),
        Err(BlockFault::OutOfMemory) => Err(DecoderError::OutOfMemory),
        Err(fault) => Ok(format!(in alloc; "{fault}")?),
    }
}

/// Returns the digits of the hash of a block and of the hashes of its transactions.
fn hashes(alloc: Global, block: &BoundBlock) -> Result<String, DecoderError> {
    let mut text = hex::encode(alloc, block.hash().0.as_slice())?;
    for hash in block.transaction_hashes() {
        text.push(' ')?;
        text.push_str(hex::encode(alloc, hash.0.as_slice())?.as_str())?;
    }
    Ok(text)
}
