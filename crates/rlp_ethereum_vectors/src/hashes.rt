//! Hashes of messages and of records, and addresses of contracts, which are the ends of hashes.

use rlp::{DecoderError, RlpStream};
use rlp_headers::{BlockAccessList, Header};
use rlp_pooled::PooledTransaction;
use rlp_records::{Address, Eip2718, Hash, encoding_hash, keccak256};
use rlp_transactions::{
    AccessListTransaction, AnyTransaction, Authorization, BlobTransaction, FeeMarketTransaction,
    SetCodeTransaction, Signed, Tagged, TypedTransaction, UnsignedLegacyTransaction,
    UnsignedTransaction, signing_hash,
};
use rlp_trie::TrieNode;
use std::alloc::{AllocError, Global};

/// Returns the hash of a header.
fn header(alloc: Global, bytes: &[u8]) -> Result<Hash, DecoderError> {
    let header = rlp::decode_strict::<Header>(alloc, bytes)?;
    header.hash(alloc).or(Err(DecoderError::OutOfMemory))
}

/// Returns the hash of a transaction.
fn transaction(alloc: Global, bytes: &[u8]) -> Result<Hash, DecoderError> {
    let transaction = AnyTransaction::from_bytes(alloc, bytes)?;
    transaction.hash(alloc).or(Err(DecoderError::OutOfMemory))
}

/// Returns the hash that is signed of an unsigned transaction.
fn unsigned(alloc: Global, bytes: &[u8]) -> Result<Hash, DecoderError> {
    let unsigned = UnsignedTransaction::from_bytes(alloc, bytes)?;
    unsigned
        .signing_hash(alloc)
        .or(Err(DecoderError::OutOfMemory))
}

/// Returns the hash of what is signed of a transaction of a type.
fn payload<T: TypedTransaction>(alloc: Global, bytes: &[u8]) -> Result<Hash, DecoderError> {
    Ok(signing_hash(alloc, &Signed::<T>::from_bytes(alloc, bytes)?.payload)?)
}

/// Returns the hash of the record that these bytes encode, or of the bytes.
fn hash(alloc: Global, kind: &str, bytes: &[u8]) -> Result<Hash, DecoderError> {
    match kind {
        "bytes" => Ok(Hash(keccak256(bytes))),
        "header" => header(alloc, bytes),
        "block access list" => Ok(rlp::decode_strict::<BlockAccessList>(alloc, bytes)?.hash(
            alloc,
        )?),
        "node" => Ok(rlp::decode_strict::<TrieNode>(alloc, bytes)?.hash(alloc)?),
        "transaction" => transaction(alloc, bytes),
        "pooled transaction" => Ok(PooledTransaction::from_bytes(alloc, bytes)?.hash(alloc)?),
        "unsigned transaction" => unsigned(alloc, bytes),
        "unsigned legacy transaction" => {
            let legacy = rlp::decode_strict::<UnsignedLegacyTransaction>(alloc, bytes)?;
            Ok(encoding_hash(alloc, &legacy)?)
        }
        "authorization" => {
            let authorization = Authorization::from_signing_payload(alloc, bytes)?;
            Ok(signing_hash(alloc, &authorization)?)
        }
        "payload of type 1" => payload::<AccessListTransaction>(alloc, bytes),
        "payload of type 2" => payload::<FeeMarketTransaction>(alloc, bytes),
        "payload of type 3" => payload::<BlobTransaction>(alloc, bytes),
        "payload of type 4" => payload::<SetCodeTransaction>(alloc, bytes),
        _ => Err(DecoderError::Custom("no such hash")),
    }
}

/// Returns the digits of a hash.
pub(crate) fn answer(alloc: Global, kind: &str, bytes: &[u8]) -> Result<String, DecoderError> {
    Ok(hex::encode(alloc, &hash(alloc, kind, bytes)?.0)?)
}

/// Returns the hash for the contract that an account creates by its transaction with this nonce.
fn created(alloc: Global, creator: [u8; 20], nonce: u8) -> Result<[u8; 32], AllocError> {
    let mut list = RlpStream::new_list(alloc, 2)?;
    list.append(&Address(creator))?.append(&nonce)?;
    Ok(keccak256(list.out().as_slice()))
}

/// Returns the hash for the contract that this code makes, with a salt of 32 bytes.
fn with_salt(
    alloc: Global,
    creator: [u8; 20],
    salt: &[u8],
    code: &[u8],
) -> Result<[u8; 32], AllocError> {
    let mut hashed = Vec::from_slice(alloc, &[0xff])?;
    hashed.extend_from_slice(&creator)?;
    hashed.extend_from_slice(salt)?;
    hashed.extend_from_slice(&keccak256(code))?;
    Ok(keccak256(hashed.as_slice()))
}

/// Returns the digits of the address of a contract, by the address of its creator, and by the nonce or
/// by the salt and the code.
pub(crate) fn address(alloc: Global, name: &str, bytes: &[u8]) -> Result<String, DecoderError> {
    let (Some(creator), Some(rest)) = (bytes.first_chunk::<20>(), bytes.get(20..)) else {
        return Err(DecoderError::RlpIsTooShort);
    };
    let hash = match (name, rest, rest.split_at_checked(32)) {
        ("created", [nonce], _) => created(alloc, *creator, *nonce)?,
        (_, _, Some((salt, code))) => with_salt(alloc, *creator, salt, code)?,
        _ => return Err(DecoderError::RlpIsTooShort),
    };
    Ok(hex::encode(alloc, hash.get(12..).unwrap_or(b""))?)
}
