//! Transactions: their signatures and what is signed, as they are sent, where one of type 3 has its
//! blobs, and one that is made by hand.

use crate::fields::text;
use rlp::{DecoderError, Uint};
use rlp_pooled::PooledTransaction;
use rlp_records::{Address, Eip2718};
use rlp_transactions::{
    AccessList, FeeMarketTransaction, NonZeroScalar, Recipient, Signed, SignedAuthorization,
    Tagged, Transaction, TypedTransaction,
};
use rlp_vectors::rows::Hex;
use std::alloc::Global;

/// Returns what a call about the signature of a transaction answers.
pub(crate) fn signing(alloc: Global, name: &str, bytes: &[u8]) -> Result<String, DecoderError> {
    let signed = Transaction::from_bytes(alloc, bytes)?;
    match name {
        "what is signed" => match signed.signing_payload(alloc)? {
            Some(payload) => Ok(hex::encode(alloc, payload.as_slice())?),
            None => Ok(String::from_str(alloc, "None")?),
        },
        "second authorization" => second(alloc, &signed),
        "signature again" => again(alloc, signed, bytes),
        "parity" => match &signed {
            Transaction::Legacy(tx) => text(alloc, tx.y_parity()),
            _ => Err(DecoderError::Custom("another type")),
        },
        _ => text(alloc, signed.has_low_s()),
    }
}

/// Returns the digits of what is signed of the second authorization of a transaction.
fn second(alloc: Global, signed: &Transaction) -> Result<String, DecoderError> {
    if let Transaction::SetCode(tx) = signed
        && let Some(second) = tx.payload.authorization_list.get(1)
    {
        let payload = second.payload.signing_payload(alloc)?;
        return Ok(hex::encode(alloc, payload.as_slice())?);
    }
    Err(DecoderError::Custom("no second authorization"))
}

/// Returns the parity and the numbers of the signature of an authorization, and whether it has the same
/// bytes again with this signature.
pub(crate) fn authorized(alloc: Global, bytes: &[u8]) -> Result<String, DecoderError> {
    let signed = rlp::decode_strict::<SignedAuthorization>(alloc, bytes)?;
    let Some((y_parity, r, s)) = signed.signature() else {
        return Ok(String::from_str(alloc, "None")?);
    };
    let is_same = signed.payload.with_signature(y_parity, r, s) == signed;
    let (r, s) = (rlp::encode(alloc, &r)?, rlp::encode(alloc, &s)?);
    let (r, s) = (Hex(r.as_slice()), Hex(s.as_slice()));
    Ok(format!(in alloc; "{y_parity} {r:?} {s:?} {is_same}")?)
}

/// Removes the signature, puts it back, and returns whether the transaction has the same bytes again.
fn again(alloc: Global, signed: Transaction, bytes: &[u8]) -> Result<String, DecoderError> {
    let (r, s) = (*signed.r(), *signed.s());
    let told = match signed.into_unsigned() {
        Some((unsigned, y_parity)) => {
            let again = unsigned.with_signature(y_parity, r, s).to_bytes(alloc)?;
            if again.as_slice() == bytes {
                "the same"
            } else {
                "other bytes"
            }
        }
        None => "None",
    };
    Ok(String::from_str(alloc, told)?)
}

/// Returns what a call about a transaction as it is sent answers.
pub(crate) fn pooled(alloc: Global, name: &str, bytes: &[u8]) -> Result<String, DecoderError> {
    let pooled = PooledTransaction::from_bytes(alloc, bytes)?;
    match name {
        "check" => check(alloc, &pooled),
        _ => consensus_form(alloc, pooled),
    }
}

/// Returns whether a transaction has the blobs that it names.
fn check(alloc: Global, pooled: &PooledTransaction) -> Result<String, DecoderError> {
    match pooled {
        PooledTransaction::Blob(sent) => match sent.check_blobs() {
            Ok(()) => Ok(String::from_str(alloc, "Ok")?),
            Err(found) => Ok(format!(in alloc; "{found}")?),
        },
        _ => Ok(String::from_str(alloc, "no blobs")?),
    }
}

/// Returns the bytes of a transaction in a block, and whether it has the same type and hash there.
fn consensus_form(alloc: Global, pooled: PooledTransaction) -> Result<String, DecoderError> {
    let (kind, hash) = (pooled.transaction_type(), pooled.hash(alloc)?);
    let consensus = pooled.into_consensus();
    let is_same = consensus.transaction_type() == kind && consensus.hash(alloc)? == hash;
    let (bytes, which) = (
        consensus.to_bytes(alloc)?,
        if is_same { "the same" } else { "another" },
    );
    Ok(format!(in alloc; "{:?}, {which} hash", Hex(bytes.as_slice()))?)
}

/// Returns a payment of 1 ether, with a chosen signature.
fn payment(alloc: Global) -> Option<Signed<FeeMarketTransaction>> {
    let payload = FeeMarketTransaction {
        chain_id: 1,
        nonce: 0,
        max_priority_fee_per_gas: Uint::<32>::from(1_000_000_000),
        max_fee_per_gas: Uint::<32>::from(20_000_000_000),
        gas_limit: 21_000,
        to: Recipient::Account(Address([0x35; 20])),
        value: Uint::<32>::from(1_000_000_000_000_000_000),
        data: Vec::new(alloc),
        access_list: AccessList(Vec::new(alloc)),
    };
    let r = NonZeroScalar::new(Uint::<32>::from(1))?;
    let s = NonZeroScalar::new(Uint::<32>::from(2))?;
    Some(payload.with_signature(false, r, s))
}

/// Returns the digits of the envelope of the payment.
pub(crate) fn made(alloc: Global) -> Result<String, DecoderError> {
    let signed = payment(alloc).ok_or(DecoderError::Custom("no signature"))?;
    Ok(hex::encode(alloc, signed.to_bytes(alloc)?.as_slice())?)
}
