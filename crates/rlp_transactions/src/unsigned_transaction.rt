//! Transactions of every type, before they are signed.

ghost use Rattle.std.specs.Prelude.{◌≡◌};
ghost use Rattle.rlp_transactions.specs.{TransactionParts.{Signs, r_of, s_of}, UnsignedTransaction.unsigned_types};

use crate::signed::{Listed, TypedTransaction};
use crate::{
    AccessListTransaction, BlobTransaction, FeeMarketTransaction, NonZeroScalar,
    SetCodeTransaction, Transaction, UnsignedLegacyTransaction,
};
use rlp::{DecodePlaced, DecoderError, Encodable, FieldsOf, Rlp, RlpStream};
use rlp_records::{ACCESS_LIST_TYPE, BLOB_TYPE, Eip2718, FEE_MARKET_TYPE, SET_CODE_TYPE};
use std::alloc::{AllocError, Global};

/// A transaction before it is signed: a legacy transaction, or a transaction of a type as in
/// EIP-2718.
///
/// [`Eip2718::to_bytes`] returns the bytes that are signed.
#[derive(Debug, Clone, PartialEq, Eq, Drop)]
pub enum UnsignedTransaction {
    /// A transaction without a type.
    Legacy(UnsignedLegacyTransaction),
    /// A transaction of type 1.
    AccessList(AccessListTransaction),
    /// A transaction of type 2.
    FeeMarket(FeeMarketTransaction),
    /// A transaction of type 3.
    Blob(BlobTransaction),
    /// A transaction of type 4.
    SetCode(SetCodeTransaction),
}

impl UnsignedTransaction {
    /// Returns the transaction with this signature, which isn't checked. The parity is the parity
    /// of the y value of the signature's point.
    pub fn with_signature(self, y_parity: bool, r: NonZeroScalar, s: NonZeroScalar) -> Transaction
        ensures signs { Signs result self y_parity }
        ensures r { r_of result ≡ r }
        ensures s { s_of result ≡ s }
    {
        match self {
            UnsignedTransaction::Legacy(tx) => {
                Transaction::Legacy(tx.with_signature(y_parity, r, s))
            }
            UnsignedTransaction::AccessList(payload) => {
                Transaction::AccessList(payload.with_signature(y_parity, r, s))
            }
            UnsignedTransaction::FeeMarket(payload) => {
                Transaction::FeeMarket(payload.with_signature(y_parity, r, s))
            }
            UnsignedTransaction::Blob(payload) => {
                Transaction::Blob(payload.with_signature(y_parity, r, s))
            }
            UnsignedTransaction::SetCode(payload) => {
                Transaction::SetCode(payload.with_signature(y_parity, r, s))
            }
        }
    }
}

impl Eip2718 for UnsignedTransaction {
    ghost types = { unsigned_types };

    fn envelope_type(&self) -> Option<u8> {
        match self {
            UnsignedTransaction::Legacy(_) => None,
            UnsignedTransaction::AccessList(_) => Some(ACCESS_LIST_TYPE),
            UnsignedTransaction::FeeMarket(_) => Some(FEE_MARKET_TYPE),
            UnsignedTransaction::Blob(_) => Some(BLOB_TYPE),
            UnsignedTransaction::SetCode(_) => Some(SET_CODE_TYPE),
        }
    }

    fn append_payload(&self, s: &mut RlpStream) -> Result<(), AllocError> {
        match self {
            UnsignedTransaction::Legacy(tx) => tx.rlp_append(s),
            UnsignedTransaction::AccessList(tx) => rlp::append_fields!(s, FieldsOf(tx)),
            UnsignedTransaction::FeeMarket(tx) => rlp::append_fields!(s, FieldsOf(tx)),
            UnsignedTransaction::Blob(tx) => rlp::append_fields!(s, FieldsOf(tx)),
            UnsignedTransaction::SetCode(tx) => rlp::append_fields!(s, FieldsOf(tx)),
        }
    }

    fn decode_payload(
        alloc: Global,
        kind: Option<u8>,
        payload: &Rlp<'_>,
    ) -> Result<UnsignedTransaction, DecoderError> {
        match kind {
            None => Ok(UnsignedTransaction::Legacy(payload.as_val(alloc)?)),
            Some(ACCESS_LIST_TYPE) => {
                let Listed(tx) = payload.as_val(alloc)?;
                Ok(UnsignedTransaction::AccessList(tx))
            }
            Some(FEE_MARKET_TYPE) => {
                let Listed(tx) = payload.as_val(alloc)?;
                Ok(UnsignedTransaction::FeeMarket(tx))
            }
            Some(BLOB_TYPE) => {
                let Listed(tx) = payload.as_val(alloc)?;
                Ok(UnsignedTransaction::Blob(tx))
            }
            Some(SET_CODE_TYPE) => {
                let Listed(tx) = payload.as_val(alloc)?;
                Ok(UnsignedTransaction::SetCode(tx))
            }
            Some(_) => Err(DecoderError::Custom("unknown transaction type")),
        }
    }

    fn put_payload_path(
        alloc: Global,
        kind: Option<u8>,
        payload: &Rlp<'_>,
        path: &mut Vec<usize>,
    ) -> Result<(), AllocError> {
        match kind {
            None => UnsignedLegacyTransaction::put_path(alloc, payload, path),
            Some(ACCESS_LIST_TYPE) => Listed::<AccessListTransaction>::put_path(
                alloc, payload, path,
            ),
            Some(FEE_MARKET_TYPE) => Listed::<FeeMarketTransaction>::put_path(alloc, payload, path),
            Some(BLOB_TYPE) => Listed::<BlobTransaction>::put_path(alloc, payload, path),
            Some(SET_CODE_TYPE) => Listed::<SetCodeTransaction>::put_path(alloc, payload, path),
            Some(_) => Ok(()),
        }
    }
}
