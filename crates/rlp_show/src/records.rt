//! Encodings and hashes, numbers and strings, withdrawals, accounts, logs, receipts, and faults of records.

ghost use Rattle.std.specs.{Prelude.{◌≡◌, IfOk}, Vec.vec_items};
ghost use Rattle.rlp.specs.Codec.{uint};
ghost use Rattle.rlp_records.specs.Keccak.{keccak256};
ghost use Rattle.rlp_headers.specs.{Account.account, Log.log, Receipt.{receipt, receipt_status}, TypedReceipt.{any_receipt, typed_receipt}, Withdrawal.{withdrawal, withdrawals}};
ghost use Rattle.rlp_show.specs.Display.{a_list, a_number, a_string, seen_as};
ghost use Rattle.rlp_show.specs.Records.{account_display, any_receipt_display, fault_display, log_display, receipt_display, status_fields, typed_receipt_display, withdrawal_display, written};

use crate::show::{ByForm, Items, Object, Show, ShowFields, fields, give_fields, show_fields};
use crate::sink::{BytesKind, NumberKind, Shown, Sink, bytes, number};
use bytes::BytesMut;
use rlp::{RoundTrip, Uint};
use rlp_headers::{
    Account, AnyReceipt, Log, Receipt, ReceiptStatus, TypedReceipt, Withdrawal, Withdrawals,
};
use rlp_records::{Address, Hash, keccak256};
use std::alloc::{AllocError, Global};

/// Returns the encoding of a value.
pub(crate) fn written<T: RoundTrip>(alloc: Global, value: &T) -> Result<BytesMut, AllocError>
    ensures { IfOk result (λ b. b.items ≡ written T.reading (T.reading.seen value.now)) }
{
    rlp::encode(alloc, value)
}

/// Returns the hash of the encoding of a value.
pub(crate) fn hash_of<T: RoundTrip>(alloc: Global, value: &T) -> Result<[u8; 32], AllocError>
    ensures { IfOk result (λ h. h ≡ keccak256 (written T.reading (T.reading.seen value.now))) }
{
    let bytes = written(alloc, value)?;
    Ok(keccak256(bytes.as_slice()))
}

impl Show for u64 {
    ghost display = { seen_as (λ n. n) a_number };

    fn show<S: Sink>(&self, _alloc: Global, name: &str, sink: &mut S) -> Result<(), AllocError> {
        sink.put(name, number(*self))
    }
}

impl Show for Uint<32> {
    ghost display = { seen_as (uint 32).reading.seen a_number };

    fn show<S: Sink>(&self, _alloc: Global, name: &str, sink: &mut S) -> Result<(), AllocError> {
        sink.put(name, Shown::Number(NumberKind::Decimal, *self))
    }
}

impl Show for Vec<u8> {
    ghost display = { seen_as vec_items a_string };

    fn show<S: Sink>(&self, _alloc: Global, name: &str, sink: &mut S) -> Result<(), AllocError> {
        sink.put(name, bytes(self.as_slice()))
    }
}

impl<const N: usize> Show for [u8; N] {
    ghost display = { seen_as (λ b. b) a_string };

    fn show<S: Sink>(&self, _alloc: Global, name: &str, sink: &mut S) -> Result<(), AllocError> {
        sink.put(name, bytes(self))
    }
}

impl Show for Hash {
    ghost display = { seen_as (λ h. h.0) a_string };

    fn show<S: Sink>(&self, _alloc: Global, name: &str, sink: &mut S) -> Result<(), AllocError> {
        sink.put(name, bytes(&self.0))
    }
}

impl Show for Address {
    ghost display = { seen_as (λ a. a.0) a_string };

    fn show<S: Sink>(&self, _alloc: Global, name: &str, sink: &mut S) -> Result<(), AllocError> {
        sink.put(name, bytes(&self.0))
    }
}

impl Show for Withdrawal {
    ghost display = { seen_as withdrawal.reading.seen withdrawal_display };

    #[tactic(auto, unfolding(crate::specs::Records::withdrawal_display))]
    fn show<S: Sink>(&self, alloc: Global, name: &str, sink: &mut S) -> Result<(), AllocError> {
        show_fields!(alloc, name, sink;
            self.index; self.validator_index; self.address; self.amount;
        )
    }
}

impl Show for Withdrawals {
    ghost display = { seen_as withdrawals.reading.seen (a_list withdrawal_display) };

    fn show<S: Sink>(&self, alloc: Global, name: &str, sink: &mut S) -> Result<(), AllocError> {
        Items(&self.0).show(alloc, name, sink)
    }
}

impl Show for Account {
    ghost display = { seen_as account.reading.seen account_display };

    #[tactic(auto, unfolding(crate::specs::Records::account_display))]
    fn show<S: Sink>(&self, alloc: Global, name: &str, sink: &mut S) -> Result<(), AllocError> {
        show_fields!(alloc, name, sink;
            self.nonce; self.balance; self.storage_root "storageHash"; self.code_hash;
        )
    }
}

impl Show for Log {
    ghost display = { seen_as log.reading.seen log_display };

    fn show<S: Sink>(&self, alloc: Global, name: &str, sink: &mut S) -> Result<(), AllocError> {
        show_fields!(alloc, name, sink; self.address; "topics" Items(&self.topics); self.data;)
    }
}

impl ShowFields for ReceiptStatus {
    ghost fields = { seen_as receipt_status.reading.seen status_fields };

    fn give<S: Sink>(&self, alloc: Global, name: &str, sink: &mut S) -> Result<(), AllocError> {
        let (digits, success): (&[u8], u64) = match self {
            ReceiptStatus::StateRoot(root) => {
                return fields!("status_or_state_root" "root" root).give(alloc, name, sink);
            }
            ReceiptStatus::Failure => (&[], 0),
            ReceiptStatus::Success => (&[1], 1),
        };
        let lines = fields!("status_or_state_root" "status" bytes(digits));
        let json = fields!("status_or_state_root" "status" number(success));
        ByForm(lines, json).give(alloc, name, sink)
    }
}

impl ShowFields for Receipt {
    ghost fields = { seen_as receipt.reading.seen receipt_display };

    fn give<S: Sink>(&self, alloc: Global, name: &str, sink: &mut S) -> Result<(), AllocError> {
        give_fields!(alloc, name, sink;
            &self.status_or_state_root; self.cumulative_gas_used;
            "logs_bloom" Shown::Bytes(BytesKind::Sparse, &self.logs_bloom.0);
            "logs" Items(&self.logs);
        )
    }
}

impl Show for TypedReceipt {
    ghost display = { seen_as typed_receipt.reading.seen typed_receipt_display };

    fn show<S: Sink>(&self, alloc: Global, name: &str, sink: &mut S) -> Result<(), AllocError> {
        let (kind, receipt) = match self {
            TypedReceipt::Legacy(receipt) => {
                let kind = ByForm((), fields!("type" Shown::TypeByte(0)));
                return Object(&(kind, receipt)).show(alloc, name, sink);
            }
            TypedReceipt::AccessList(receipt) => (1, receipt),
            TypedReceipt::FeeMarket(receipt) => (2, receipt),
            TypedReceipt::Blob(receipt) => (3, receipt),
            TypedReceipt::SetCode(receipt) => (4, receipt),
        };
        let kind = fields!("type" Shown::TypeByte(kind));
        Object(&(kind, receipt)).show(alloc, name, sink)
    }
}

impl Show for AnyReceipt {
    ghost display = { seen_as any_receipt.reading.seen any_receipt_display };

    #[tactic(auto, unfolding(crate::specs::Records::any_receipt_display))]
    fn show<S: Sink>(&self, alloc: Global, name: &str, sink: &mut S) -> Result<(), AllocError> {
        match self {
            AnyReceipt::Known(receipt) => receipt.show(alloc, name, sink),
            AnyReceipt::Other(receipt) => show_fields!(alloc, name, sink;
                "type" Shown::TypeByte(receipt.transaction_type());
                "payload" Shown::Bytes(BytesKind::Payload, receipt.payload())
            ),
        }
    }
}

/// What is wrong with a record. Its JSON is an object such as
/// `{"error":{"field":9,"name":"gasLimit","fault":"RlpIsTooBig"}}`.
#[derive(Clone, Copy)]
pub struct Fault<'a> {
    /// The place of the field at fault, counted from 0 in the outermost record, or `None` if the
    /// record is at fault as a whole.
    pub field: Option<u64>,
    /// The name of the item at fault.
    pub name: &'a str,
    /// The name of the fault, such as `RlpIsTooBig`, or its text. It has no quotes, backslashes or
    /// control characters.
    pub fault: &'a str,
}

impl Show for Fault<'_> {
    ghost display = { seen_as
        (λ f. (f.field, (f.name.now, f.fault.now))) fault_display };

    fn show<S: Sink>(&self, alloc: Global, name: &str, sink: &mut S) -> Result<(), AllocError> {
        let place = match self.field {
            Some(field) => Some(Shown::Number(NumberKind::Place, Uint::from(field))),
            None => None,
        };
        let fault = fields!(
            "field" ? &place;
            "name" Shown::Text(self.name);
            "fault" Shown::Text(self.fault)
        );
        Object(&fields!("error" Object(&fault))).show(alloc, name, sink)
    }
}
