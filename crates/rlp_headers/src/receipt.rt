//! Receipts of transactions, their statuses, and the filters of their logs.

ghost use Rattle.std.specs.Prelude.{⊤, ◌≡◌, Err, IfErr, IfOk, Ok};
ghost use Rattle.rlp.specs.Form.{fault_of};
ghost use Rattle.rlp_reading.specs.Kinds.{read_kind};
ghost use Rattle.rlp_headers.specs.{Receipt.{bloom, receipt, receipt_status}, StatusKinds.status_kind};

use crate::Log;
use rlp::{DecoderError, Encodable, ListField, ListOf, Record, Rlp, RlpStream};
use rlp_records::Hash;
use std::alloc::{AllocError, Global};

/// A receipt: the list of its four fields.
///
/// See section 4.4.1 of the yellow paper, and EIP-658. For types other than legacy, EIP-2718 puts
/// the byte of the transaction's type before the receipt. This type neither writes nor reads that
/// byte; [`TypedReceipt`](crate::TypedReceipt) does.
#[derive(Debug, Clone, PartialEq, Eq, Drop)]
pub struct Receipt {
    /// The status, as in EIP-658, or before Byzantium the root of the state after the transaction.
    pub status_or_state_root: ReceiptStatus,
    /// The gas that the block used up to this transaction, including it.
    pub cumulative_gas_used: u64,
    /// The filter of the logs.
    pub logs_bloom: Bloom,
    /// The logs that the transaction emitted, in order.
    pub logs: Vec<Log>,
}

impl Encodable for Receipt {
    ghost item = { receipt.item };

    ghost fits = { receipt.Fits };

    fn rlp_append(&self, s: &mut RlpStream) -> Result<(), AllocError> {
        rlp::append_fields!(
            s,
            &self.status_or_state_root,
            &self.cumulative_gas_used,
            &self.logs_bloom,
            ListOf(&self.logs)
        )
    }
}

impl Record for Receipt {
    ghost reading = { receipt.reading };

    fn decode(alloc: Global, rlp: &Rlp<'_>) -> Result<Receipt, DecoderError> {
        rlp::decode_fields!(
            alloc,
            rlp,
            Receipt {
                status_or_state_root,
                cumulative_gas_used,
                logs_bloom,
                logs: [..]
            }
        )
    }

    fn put_path(alloc: Global, rlp: &Rlp<'_>, path: &mut Vec<usize>) -> Result<(), AllocError> {
        rlp::put_struct_path!(alloc, rlp, path, ReceiptStatus, u64, Bloom, ListField<Log>)
    }

    ghost lawful = { receipt.reads_strictly };
}

/// What a receipt says of how its transaction ended: the status since Byzantium, as in EIP-658, or
/// the root of the state before.
#[derive(Debug, Clone, Copy, PartialEq, Eq)]
pub enum ReceiptStatus {
    /// The transaction failed: the number 0, written as the empty string.
    Failure,
    /// The transaction succeeded: the number 1.
    Success,
    /// The root of the state after the transaction, in receipts before Byzantium, which don't say
    /// whether the transaction succeeded.
    StateRoot(Hash),
}

impl Encodable for ReceiptStatus {
    ghost item = { receipt_status.item };

    ghost fits = { receipt_status.Fits };

    fn rlp_append(&self, s: &mut RlpStream) -> Result<(), AllocError> {
        match self {
            ReceiptStatus::Failure => [0u8; 0].rlp_append(s),
            ReceiptStatus::Success => [1u8].rlp_append(s),
            ReceiptStatus::StateRoot(root) => root.rlp_append(s),
        }
    }
}

/// Reading fails with `Custom("unknown receipt status")` if the string is neither empty, nor the
/// byte 1, nor 32 bytes long. It doesn't allocate.
impl Record for ReceiptStatus {
    ghost reading = { receipt_status.reading };

    fn decode(_alloc: Global, rlp: &Rlp<'_>) -> Result<ReceiptStatus, DecoderError> {
        status_of(rlp.decoder().string()?)
    }

    fn put_path(_alloc: Global, _rlp: &Rlp<'_>, _path: &mut Vec<usize>) -> Result<(), AllocError> {
        Ok(())
    }

    ghost lawful = { receipt_status.reads_strictly };
}

/// Makes a status from a string. Fails as reading a status does.
#[tactic(auto, using(crate::proofs::Statuses::statuses))]
fn status_of(string: &[u8]) -> Result<ReceiptStatus, DecoderError>
    ensures value { IfOk result
        (λ s. read_kind status_kind string.now ≡ Ok (receipt_status.reading.seen s)) }
    ensures fault { IfErr result (λ e. read_kind status_kind string.now ≡ Err (fault_of e)) }
{
    match string {
        [] => Ok(ReceiptStatus::Failure),
        [1] => Ok(ReceiptStatus::Success),
        _ => match <[u8; 32]>::try_from(string) {
            Ok(root) => Ok(ReceiptStatus::StateRoot(Hash(root))),
            Err(_) => Err(DecoderError::Custom("unknown receipt status")),
        },
    }
}

/// The Bloom filter of logs: 256 bytes.
///
/// See section 4.4.1 of the yellow paper. The library computes no filter.
#[derive(Debug, Clone, Copy, PartialEq, Eq)]
pub struct Bloom(pub [u8; 256]);

/// Written as the array of its bytes.
impl Encodable for Bloom {
    ghost item = { bloom.item };

    ghost fits = { bloom.Fits };

    fn rlp_append(&self, s: &mut RlpStream) -> Result<(), AllocError> {
        self.0.rlp_append(s)
    }
}

/// Read as an array of 256 bytes. Fails with `RlpIsTooShort` if the string is shorter, and with
/// `RlpIsTooBig` if it is longer. It doesn't allocate.
impl Record for Bloom {
    ghost reading = { bloom.reading };

    fn decode(alloc: Global, rlp: &Rlp<'_>) -> Result<Bloom, DecoderError> {
        Ok(Bloom(rlp.as_val(alloc)?))
    }

    fn put_path(_alloc: Global, _rlp: &Rlp<'_>, _path: &mut Vec<usize>) -> Result<(), AllocError> {
        Ok(())
    }

    ghost lawful = { bloom.reads_strictly };
}
