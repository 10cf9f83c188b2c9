//! Receipts of deposits of the OP stack.

ghost use Rattle.rlp_headers.specs.DepositReceipt.{deposit_receipt, regolith_fields};

use crate::{Bloom, Log, ReceiptStatus};
use rlp::{
    AppendFields, CountedFields, Decodable, DecodeFields, DecodeFieldsPlaced, DecodePlaced,
    DecoderError, Encodable, Fields, ListField, ListOf, Optional, OptionalField, OptionalGroup,
    OptionalGroupOf, Rlp, RlpStream, RoundTrip, StrictRead,
};
use rlp_records::{DEPOSIT_TYPE, Enveloped};
use std::alloc::{AllocError, Global};

/// The receipt of a deposit of the OP stack: the list of its fields, after the byte `0x7e`. The
/// first four fields are the fields of a [`Receipt`](crate::Receipt).
#[derive(Debug, Clone, PartialEq, Eq, Drop)]
pub struct DepositReceipt {
    /// The status, as in EIP-658.
    pub status_or_state_root: ReceiptStatus,
    /// The gas that the block used up to this transaction, including it.
    pub cumulative_gas_used: u64,
    /// The filter of the logs.
    pub logs_bloom: Bloom,
    /// The logs that the transaction emitted, in order.
    pub logs: Vec<Log>,
    /// What came with Regolith and later, or `None` in receipts before Regolith.
    pub since_regolith: Option<Regolith>,
}

/// What the receipt of a deposit has since Regolith: the nonce, and the version of Canyon.
#[derive(Debug, Clone, Copy, PartialEq, Eq)]
pub struct Regolith {
    /// The number of transactions that the sender had sent before.
    pub deposit_nonce: u64,
    /// The version of the receipt, which is 1, or `None` in receipts before Canyon.
    pub deposit_receipt_version: Option<u64>,
}

impl AppendFields for Regolith {
    ghost items = { regolith_fields.items };

    ghost fit = { regolith_fields.Fits };

    fn field_count(&self) -> Option<usize> {
        (&self.deposit_nonce, Optional(&self.deposit_receipt_version)).field_count()
    }

    fn append_fields(&self, s: &mut RlpStream) -> Result<(), AllocError> {
        (&self.deposit_nonce, Optional(&self.deposit_receipt_version)).append_fields(s)
    }
}

impl DecodeFields for Regolith {
    ghost reading = { regolith_fields.reading };

    fn accepts(len: usize) -> bool {
        <(u64, OptionalField<u64>) as DecodeFields>::accepts(len)
    }

    fn decode_fields(alloc: Global, fields: &mut Fields<'_>) -> Result<Regolith, DecoderError> {
        rlp::decode_fields!(
            fields alloc,
            fields,
            Regolith {
                deposit_nonce,
                deposit_receipt_version: ?
            }
        )
    }

    ghost possible = { regolith_fields.laws.possible };
}

impl DecodeFieldsPlaced for Regolith {
    fn put_path(
        alloc: Global,
        fields: &mut CountedFields<'_>,
        path: &mut Vec<usize>,
    ) -> Result<bool, AllocError> {
        <(u64, OptionalField<u64>) as DecodeFieldsPlaced>::put_path(alloc, fields, path)
    }
}

impl Encodable for DepositReceipt {
    ghost item = { deposit_receipt.item };

    ghost fits = { deposit_receipt.Fits };

    fn rlp_append(&self, s: &mut RlpStream) -> Result<(), AllocError> {
        rlp::append_fields!(
            s,
            &self.status_or_state_root,
            &self.cumulative_gas_used,
            &self.logs_bloom,
            ListOf(&self.logs),
            OptionalGroupOf(&self.since_regolith)
        )
    }
}

impl Decodable for DepositReceipt {
    ghost reading = { deposit_receipt.reading };

    fn decode(alloc: Global, rlp: &Rlp<'_>) -> Result<DepositReceipt, DecoderError> {
        rlp::decode_fields!(
            alloc,
            rlp,
            DepositReceipt {
                status_or_state_root,
                cumulative_gas_used,
                logs_bloom,
                logs: [..],
                since_regolith: (..)?
            }
        )
    }
}

impl DecodePlaced for DepositReceipt {
    fn put_path(alloc: Global, rlp: &Rlp<'_>, path: &mut Vec<usize>) -> Result<(), AllocError> {
        rlp::put_struct_path!(
            alloc, rlp, path, ReceiptStatus, u64, Bloom, ListField<Log>; OptionalGroup<Regolith>
        )
    }
}

impl RoundTrip for DepositReceipt {
    ghost round_trip = { deposit_receipt.reads_back };
}

impl StrictRead for DepositReceipt {
    ghost strict = { deposit_receipt.reads_strictly };
}

impl Enveloped for DepositReceipt {
    ghost TYPE = { 0x7e };

    const TYPE: u8 = DEPOSIT_TYPE;
}
