//! Receipts of transactions of every type.

ghost use Rattle.rlp_headers.specs.TypedReceipt.{receipt_types, typed_receipt};

use crate::Receipt;
use rlp::{DecoderError, Encodable, Record, Rlp, RlpStream};
use rlp_records::{
    ACCESS_LIST_TYPE, BLOB_TYPE, Eip2718, FEE_MARKET_TYPE, KnownOrOther, SET_CODE_TYPE,
};
use std::alloc::{AllocError, Global};

/// A receipt with the type of its transaction, as in the list of a block's receipts: the receipt of
/// a legacy transaction is a list, and the receipt of a typed transaction is the string of its
/// envelope, as in EIP-2718.
#[derive(Debug, Clone, PartialEq, Eq, Drop)]
pub enum TypedReceipt {
    /// The receipt of a transaction without a type.
    Legacy(Receipt),
    /// The receipt of a transaction of type 1.
    AccessList(Receipt),
    /// The receipt of a transaction of type 2.
    FeeMarket(Receipt),
    /// The receipt of a transaction of type 3.
    Blob(Receipt),
    /// The receipt of a transaction of type 4.
    SetCode(Receipt),
}

/// A receipt in the list of a block's receipts, of any type. A receipt of an unknown type, such as
/// a [`DepositReceipt`](crate::DepositReceipt), is kept as its bytes, and written back unchanged.
pub type AnyReceipt = KnownOrOther<TypedReceipt>;

impl Eip2718 for TypedReceipt {
    ghost types = { receipt_types };

    fn envelope_type(&self) -> Option<u8> {
        match self {
            TypedReceipt::Legacy(_) => None,
            TypedReceipt::AccessList(_) => Some(ACCESS_LIST_TYPE),
            TypedReceipt::FeeMarket(_) => Some(FEE_MARKET_TYPE),
            TypedReceipt::Blob(_) => Some(BLOB_TYPE),
            TypedReceipt::SetCode(_) => Some(SET_CODE_TYPE),
        }
    }

    fn append_payload(&self, s: &mut RlpStream) -> Result<(), AllocError> {
        match self {
            TypedReceipt::Legacy(receipt)
            | TypedReceipt::AccessList(receipt)
            | TypedReceipt::FeeMarket(receipt)
            | TypedReceipt::Blob(receipt)
            | TypedReceipt::SetCode(receipt) => receipt.rlp_append(s),
        }
    }

    fn decode_payload(
        alloc: Global,
        kind: Option<u8>,
        payload: &Rlp<'_>,
    ) -> Result<TypedReceipt, DecoderError> {
        match kind {
            None => Ok(TypedReceipt::Legacy(payload.as_val(alloc)?)),
            Some(ACCESS_LIST_TYPE) => Ok(TypedReceipt::AccessList(payload.as_val(alloc)?)),
            Some(FEE_MARKET_TYPE) => Ok(TypedReceipt::FeeMarket(payload.as_val(alloc)?)),
            Some(BLOB_TYPE) => Ok(TypedReceipt::Blob(payload.as_val(alloc)?)),
            Some(SET_CODE_TYPE) => Ok(TypedReceipt::SetCode(payload.as_val(alloc)?)),
            Some(_) => Err(DecoderError::Custom("unknown transaction type")),
        }
    }

    fn put_payload_path(
        alloc: Global,
        kind: Option<u8>,
        payload: &Rlp<'_>,
        path: &mut Vec<usize>,
    ) -> Result<(), AllocError> {
        match kind {
            None
            | Some(ACCESS_LIST_TYPE)
            | Some(FEE_MARKET_TYPE)
            | Some(BLOB_TYPE)
            | Some(SET_CODE_TYPE) => Receipt::put_path(alloc, payload, path),
            Some(_) => Ok(()),
        }
    }
}

impl Encodable for TypedReceipt {
    ghost item = { typed_receipt.item };

    ghost fits = { typed_receipt.Fits };

    fn rlp_append(&self, s: &mut RlpStream) -> Result<(), AllocError> {
        self.append_item(s)
    }
}

impl Record for TypedReceipt {
    ghost reading = { typed_receipt.reading };

    fn decode(alloc: Global, rlp: &Rlp<'_>) -> Result<TypedReceipt, DecoderError> {
        TypedReceipt::decode_item(alloc, rlp)
    }

    fn put_path(alloc: Global, rlp: &Rlp<'_>, path: &mut Vec<usize>) -> Result<(), AllocError> {
        TypedReceipt::put_item_path(alloc, rlp, path)
    }

    ghost lawful = { typed_receipt.reads_strictly };
}
