//! Transactions as they are sent.

ghost use Rattle.std.specs.Prelude.{◌≡◌, IfOk, OnOk};
ghost use Rattle.rlp_records.specs.{Alone.bytes_alone, Hashing.IsHashOf};
ghost use Rattle.rlp_transactions.specs.Transaction.{transaction};
ghost use Rattle.rlp_pooled.specs.PooledTransaction.{consensus_form, pooled_transaction, pooled_types};

use crate::PooledBlobTransaction;
use bytes::BytesMut;
use rlp::{DecodePlaced, DecoderError, Encodable, Rlp, RlpStream};
use rlp_records::{
    ACCESS_LIST_TYPE, BLOB_TYPE, Eip2718, FEE_MARKET_TYPE, Hash, SET_CODE_TYPE, keccak256,
    to_envelope,
};
use rlp_transactions::{
    AccessListTransaction, FeeMarketTransaction, SetCodeTransaction, Signed,
    SignedLegacyTransaction, Transaction,
};
use std::alloc::{AllocError, Global};

/// A signed transaction as it is sent: in message 0x0a of `eth`, and by `eth_sendRawTransaction`.
/// It differs from a [`Transaction`] in that a transaction of type 3 has its blobs, as in EIP-4844
/// or EIP-7594.
///
/// Reading doesn't compare the blobs with the transaction: [`PooledBlobTransaction::check_blobs`]
/// tests the number of the blobs and the versioned hashes. This crate has no KZG, so it doesn't
/// test the proofs.
#[derive(Debug, Clone, PartialEq, Eq, Drop)]
pub enum PooledTransaction {
    /// A transaction without a type.
    Legacy(SignedLegacyTransaction),
    /// A transaction of type 1.
    AccessList(Signed<AccessListTransaction>),
    /// A transaction of type 2.
    FeeMarket(Signed<FeeMarketTransaction>),
    /// A transaction of type 3, with its blobs.
    Blob(PooledBlobTransaction),
    /// A transaction of type 4.
    SetCode(Signed<SetCodeTransaction>),
}

impl PooledTransaction {
    /// Returns the transaction as it is in a block, and drops its blobs.
    pub fn into_consensus(self) -> Transaction
        ensures { result ≡ consensus_form self }
    {
        match self {
            PooledTransaction::Legacy(payload) => Transaction::Legacy(payload),
            PooledTransaction::AccessList(payload) => Transaction::AccessList(payload),
            PooledTransaction::FeeMarket(payload) => Transaction::FeeMarket(payload),
            PooledTransaction::Blob(payload) => Transaction::Blob(payload.into_consensus()),
            PooledTransaction::SetCode(payload) => Transaction::SetCode(payload),
        }
    }

    /// Returns the hash that names the transaction: what [`Transaction::hash`] returns for
    /// [`PooledTransaction::into_consensus`]. The blobs aren't hashed.
    ///
    /// Fails with `AllocError` if memory is refused, or if the encoding without the blobs would
    /// have 2^64 bytes or more.
    pub fn hash(&self, alloc: Global) -> Result<Hash, AllocError>
        ensures fits { OnOk result (transaction.Fits (consensus_form self.now)) }
        ensures hash { IfOk result
            (λ h. IsHashOf h (bytes_alone (transaction.item (consensus_form self.now)))) }
    {
        let bytes = self.consensus_bytes(alloc)?;
        Ok(Hash(keccak256(bytes.as_slice())))
    }

    // Returns the bytes of the transaction without its blobs.
    fn consensus_bytes(&self, alloc: Global) -> Result<BytesMut, AllocError>
        ensures fits { OnOk result (transaction.Fits (consensus_form self.now)) }
        ensures bytes { IfOk result
            (λ b. b.items ≡ bytes_alone (transaction.item (consensus_form self.now))) }
    {
        match self {
            PooledTransaction::Legacy(payload) => rlp::encode(alloc, payload),
            PooledTransaction::AccessList(payload) => {
                to_envelope(alloc, ACCESS_LIST_TYPE, payload)
            }
            PooledTransaction::FeeMarket(payload) => to_envelope(alloc, FEE_MARKET_TYPE, payload),
            PooledTransaction::Blob(payload) => {
                to_envelope(alloc, BLOB_TYPE, payload.transaction())
            }
            PooledTransaction::SetCode(payload) => to_envelope(alloc, SET_CODE_TYPE, payload),
        }
    }
}

impl Eip2718 for PooledTransaction {
    ghost types = { pooled_types };

    fn envelope_type(&self) -> Option<u8> {
        match self {
            PooledTransaction::Legacy(_) => None,
            PooledTransaction::AccessList(_) => Some(ACCESS_LIST_TYPE),
            PooledTransaction::FeeMarket(_) => Some(FEE_MARKET_TYPE),
            PooledTransaction::Blob(_) => Some(BLOB_TYPE),
            PooledTransaction::SetCode(_) => Some(SET_CODE_TYPE),
        }
    }

    fn append_payload(&self, s: &mut RlpStream) -> Result<(), AllocError> {
        match self {
            PooledTransaction::Legacy(tx) => tx.rlp_append(s),
            PooledTransaction::AccessList(tx) => tx.rlp_append(s),
            PooledTransaction::FeeMarket(tx) => tx.rlp_append(s),
            PooledTransaction::Blob(tx) => tx.rlp_append(s),
            PooledTransaction::SetCode(tx) => tx.rlp_append(s),
        }
    }

    fn decode_payload(
        alloc: Global,
        kind: Option<u8>,
        payload: &Rlp<'_>,
    ) -> Result<PooledTransaction, DecoderError> {
        match kind {
            None => Ok(PooledTransaction::Legacy(payload.as_val(alloc)?)),
            Some(ACCESS_LIST_TYPE) => Ok(PooledTransaction::AccessList(payload.as_val(alloc)?)),
            Some(FEE_MARKET_TYPE) => Ok(PooledTransaction::FeeMarket(payload.as_val(alloc)?)),
            Some(BLOB_TYPE) => Ok(PooledTransaction::Blob(payload.as_val(alloc)?)),
            Some(SET_CODE_TYPE) => Ok(PooledTransaction::SetCode(payload.as_val(alloc)?)),
            Some(_) => Err(DecoderError::Custom("unknown transaction type")),
        }
    }

    fn put_payload_path(
        alloc: Global,
        kind: Option<u8>,
        payload: &Rlp<'_>,
        path: &mut Vec<usize>,
    ) -> Result<(), AllocError> {
        match kind {
            None => SignedLegacyTransaction::put_path(alloc, payload, path),
            Some(ACCESS_LIST_TYPE) => Signed::<AccessListTransaction>::put_path(
                alloc, payload, path,
            ),
            Some(FEE_MARKET_TYPE) => Signed::<FeeMarketTransaction>::put_path(alloc, payload, path),
            Some(BLOB_TYPE) => PooledBlobTransaction::put_path(alloc, payload, path),
            Some(SET_CODE_TYPE) => Signed::<SetCodeTransaction>::put_path(alloc, payload, path),
            Some(_) => Ok(()),
        }
    }
}

impl Encodable for PooledTransaction {
    ghost item = { pooled_transaction.item };

    ghost fits = { pooled_transaction.Fits };

    fn rlp_append(&self, s: &mut RlpStream) -> Result<(), AllocError> {
        self.append_item(s)
    }
}

impl rlp::Record for PooledTransaction {
    ghost reading = { pooled_transaction.reading };

    fn decode(alloc: Global, rlp: &Rlp<'_>) -> Result<PooledTransaction, DecoderError> {
        PooledTransaction::decode_item(alloc, rlp)
    }

    fn put_path(alloc: Global, rlp: &Rlp<'_>, path: &mut Vec<usize>) -> Result<(), AllocError> {
        PooledTransaction::put_item_path(alloc, rlp, path)
    }

    ghost lawful = { pooled_transaction.reads_strictly };
}
