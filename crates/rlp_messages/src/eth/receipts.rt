//! Receipts of blocks, as clients send them to each other, before `eth/69` and since.

ghost use Rattle.rlp_messages.specs.Eth.Receipts.{block_receipts, block_receipts69, receipt69, receipts, receipts69};

use rlp::{
    DecoderError, Each, Encodable, ListField, ListOf, Record, Rlp, RlpStream, put_list_path,
};
use rlp_headers::{AnyReceipt, Log, ReceiptStatus};
use std::alloc::{AllocError, Global};

/// The receipts of a block, in the order of its transactions: the list of the receipts. Receipts of
/// unknown types are kept as their bytes.
#[derive(Debug, Clone, PartialEq, Eq, Drop)]
pub struct BlockReceipts(pub Vec<AnyReceipt>);

impl Encodable for BlockReceipts {
    ghost item = { block_receipts.item };

    ghost fits = { block_receipts.Fits };

    fn rlp_append(&self, s: &mut RlpStream) -> Result<(), AllocError> {
        rlp::append_fields!(s, Each(&self.0))
    }
}

impl Record for BlockReceipts {
    ghost reading = { block_receipts.reading };

    fn decode(alloc: Global, rlp: &Rlp<'_>) -> Result<BlockReceipts, DecoderError> {
        Ok(BlockReceipts(rlp.as_list(alloc)?))
    }

    fn put_path(alloc: Global, rlp: &Rlp<'_>, path: &mut Vec<usize>) -> Result<(), AllocError> {
        put_list_path::<AnyReceipt>(alloc, rlp, path)
    }

    ghost lawful = { block_receipts.reads_strictly };
}

/// The answer to [`GetReceipts`](crate::GetReceipts), in message 0x10 of `eth/68`: the list of the
/// receipts of each block. Since `eth/69` receipts are written as other lists, without filters of
/// logs.
#[derive(Debug, Clone, PartialEq, Eq, Drop)]
pub struct Receipts(pub Vec<BlockReceipts>);

impl Encodable for Receipts {
    ghost item = { receipts.item };

    ghost fits = { receipts.Fits };

    fn rlp_append(&self, s: &mut RlpStream) -> Result<(), AllocError> {
        rlp::append_fields!(s, Each(&self.0))
    }
}

impl Record for Receipts {
    ghost reading = { receipts.reading };

    fn decode(alloc: Global, rlp: &Rlp<'_>) -> Result<Receipts, DecoderError> {
        Ok(Receipts(rlp.as_list(alloc)?))
    }

    fn put_path(alloc: Global, rlp: &Rlp<'_>, path: &mut Vec<usize>) -> Result<(), AllocError> {
        put_list_path::<BlockReceipts>(alloc, rlp, path)
    }

    ghost lawful = { receipts.reads_strictly };
}

/// A receipt since `eth/69`: the list of its four fields, as in EIP-7642. It has no filter of logs,
/// and its type is its first field.
#[derive(Debug, Clone, PartialEq, Eq, Drop)]
pub struct Receipt69 {
    /// The type of the transaction, and 0 for a legacy transaction. This type allows any number of
    /// one byte.
    pub transaction_type: u8,
    /// The status or the root of the state, as in a [`Receipt`](rlp_headers::Receipt).
    pub status_or_state_root: ReceiptStatus,
    /// The gas that the block used up to this transaction, including it.
    pub cumulative_gas_used: u64,
    /// The logs that the transaction emitted, in order.
    pub logs: Vec<Log>,
}

impl Encodable for Receipt69 {
    ghost item = { receipt69.item };

    ghost fits = { receipt69.Fits };

    fn rlp_append(&self, s: &mut RlpStream) -> Result<(), AllocError> {
        rlp::append_fields!(
            s,
            &self.transaction_type,
            &self.status_or_state_root,
            &self.cumulative_gas_used,
            ListOf(&self.logs)
        )
    }
}

impl Record for Receipt69 {
    ghost reading = { receipt69.reading };

    fn decode(alloc: Global, rlp: &Rlp<'_>) -> Result<Receipt69, DecoderError> {
        rlp::decode_fields!(
            alloc,
            rlp,
            Receipt69 {
                transaction_type,
                status_or_state_root,
                cumulative_gas_used,
                logs: [..]
            }
        )
    }

    fn put_path(alloc: Global, rlp: &Rlp<'_>, path: &mut Vec<usize>) -> Result<(), AllocError> {
        rlp::put_struct_path!(alloc, rlp, path, u8, ReceiptStatus, u64, ListField<Log>)
    }

    ghost lawful = { receipt69.reads_strictly };
}

/// The receipts of a block since `eth/69`, in the order of its transactions: the list of the
/// receipts.
#[derive(Debug, Clone, PartialEq, Eq, Drop)]
pub struct BlockReceipts69(pub Vec<Receipt69>);

impl Encodable for BlockReceipts69 {
    ghost item = { block_receipts69.item };

    ghost fits = { block_receipts69.Fits };

    fn rlp_append(&self, s: &mut RlpStream) -> Result<(), AllocError> {
        rlp::append_fields!(s, Each(&self.0))
    }
}

impl Record for BlockReceipts69 {
    ghost reading = { block_receipts69.reading };

    fn decode(alloc: Global, rlp: &Rlp<'_>) -> Result<BlockReceipts69, DecoderError> {
        Ok(BlockReceipts69(rlp.as_list(alloc)?))
    }

    fn put_path(alloc: Global, rlp: &Rlp<'_>, path: &mut Vec<usize>) -> Result<(), AllocError> {
        put_list_path::<Receipt69>(alloc, rlp, path)
    }

    ghost lawful = { block_receipts69.reads_strictly };
}

/// The answer to [`GetReceipts`](crate::GetReceipts), in message 0x10 of `eth/69`: the list of the
/// receipts of each block, as in EIP-7642.
#[derive(Debug, Clone, PartialEq, Eq, Drop)]
pub struct Receipts69(pub Vec<BlockReceipts69>);

impl Encodable for Receipts69 {
    ghost item = { receipts69.item };

    ghost fits = { receipts69.Fits };

    fn rlp_append(&self, s: &mut RlpStream) -> Result<(), AllocError> {
        rlp::append_fields!(s, Each(&self.0))
    }
}

impl Record for Receipts69 {
    ghost reading = { receipts69.reading };

    fn decode(alloc: Global, rlp: &Rlp<'_>) -> Result<Receipts69, DecoderError> {
        Ok(Receipts69(rlp.as_list(alloc)?))
    }

    fn put_path(alloc: Global, rlp: &Rlp<'_>, path: &mut Vec<usize>) -> Result<(), AllocError> {
        put_list_path::<BlockReceipts69>(alloc, rlp, path)
    }

    ghost lawful = { receipts69.reads_strictly };
}
