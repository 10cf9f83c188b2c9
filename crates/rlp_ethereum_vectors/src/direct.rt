//! Functions that no other row calls by name.

use rlp::{DecoderError, FieldsOf};
use rlp_headers::Header;
use rlp_pooled::{Blob, versioned_hash};
use rlp_records::{Eip2718, FEE_MARKET_TYPE, Hash, keccak256, typed_list};
use rlp_transactions::{Transaction, TypedTransaction};
use rlp_vectors::rows::Hex;
use std::alloc::Global;

/// Returns what a call answers about bytes.
pub(crate) fn answer(alloc: Global, name: &str, bytes: &[u8]) -> Result<String, DecoderError> {
    match name {
        "forks" => forks(alloc, bytes),
        "blob" => {
            let blob = Blob::new(alloc, bytes)?;
            let (len, last) = (blob.bytes.len(), blob.bytes.last());
            Ok(format!(in alloc; "{len} {last:?}")?)
        }
        "versioned hash" => {
            let commitment = bytes.first_chunk::<48>();
            let commitment = commitment.ok_or(DecoderError::RlpIsTooShort)?;
            let Hash(hash) = versioned_hash(commitment);
            Ok(hex::encode(alloc, &hash)?)
        }
        _ => parts(alloc, bytes),
    }
}

/// Returns the hash of the requests of a header, the hash of its access list, and its slot. A hash that
/// the header doesn't have is empty.
fn forks(alloc: Global, bytes: &[u8]) -> Result<String, DecoderError> {
    let header = rlp::decode_strict::<Header>(alloc, bytes)?;
    let requests = match header.prague() {
        Some(prague) => prague.requests_hash.0.as_slice(),
        None => b"".as_slice(),
    };
    let (accesses, slot) = match header.amsterdam() {
        Some(amsterdam) => (
            amsterdam.block_access_list_hash.0.as_slice(),
            amsterdam.slot_number,
        ),
        None => (b"".as_slice(), None),
    };
    let (requests, accesses) = (Hex(requests), Hex(accesses));
    Ok(format!(in alloc; "{requests:?} {accesses:?} {slot:?}")?)
}

/// Returns the hash that is signed of a transaction of type 2, its signature, and whether it has the
/// same bytes when it is put together again.
fn parts(alloc: Global, bytes: &[u8]) -> Result<String, DecoderError> {
    let Transaction::FeeMarket(tx) = Transaction::from_bytes(alloc, bytes)? else {
        return Err(DecoderError::Custom("another type"));
    };
    let (payload, y_parity, r, s) = tx.into_parts();
    let signed = typed_list(alloc, FEE_MARKET_TYPE, &FieldsOf(&payload))?;
    let hash = keccak256(signed.as_slice());
    let again = payload.with_signature(y_parity, r, s).to_bytes(alloc)?;
    let is_same = again.as_slice() == bytes;
    let (hash, r, s) = (Hex(&hash), Hex(&r.number.bytes), Hex(&s.number.bytes));
    Ok(format!(in alloc; "{hash:?} {y_parity} {r:?} {s:?} {is_same}")?)
}
