//! Transactions of all types, with their signatures and without, and as they are sent with their
//! blobs.

ghost use Rattle.std.specs.Prelude.{◌≡◌, IfOk};
ghost use Rattle.rlp_transactions.specs.{AccessListTransaction.{access_list_item, access_list_transaction_fields}, BlobTransaction.{blob_transaction_fields, signed_blob_transaction}};
ghost use Rattle.rlp_transactions.specs.FeeMarketTransaction.{fee_market_transaction_fields};
ghost use Rattle.rlp_transactions.specs.{LegacyTransaction.{legacy_transaction_fields, signed_legacy_transaction, unsigned_legacy_transaction}, Recipient.recipient};
ghost use Rattle.rlp_transactions.specs.{SetCodeTransaction.{authorization_fields, set_code_transaction_fields, signed_authorization}, Transaction.{any_transaction, transaction}, UnsignedTransaction.unsigned_transaction};
ghost use Rattle.rlp_pooled.specs.{Blob.blob, BlobWrapper.{pooled_blob_transaction, with_cell_proofs, with_proofs}, PooledTransaction.pooled_transaction};
ghost use Rattle.rlp_show.specs.{Display.{bytes_as, seen_as}, declared.sink.BytesKind.TheVariants.Sparse};
ghost use Rattle.rlp_show.specs.Transactions as shown;

use crate::records::hash_of;
use crate::show::{ByForm, Items, Show, ShowFields, fields, give_fields, show_fields};
use crate::sink::{BytesKind, NumberKind, Shown, Sink, bytes, number};
use rlp_pooled::{
    Blob, BlobTransactionWithCellProofs, BlobTransactionWithProofs, PooledBlobTransaction,
    PooledTransaction,
};
use rlp_records::{Hash, keccak256};
use rlp_transactions::{
    AccessListItem, AccessListTransaction, AnyTransaction, Authorization, BlobTransaction, Eip155,
    FeeMarketTransaction, LegacyTransaction, Recipient, SetCodeTransaction, Signed,
    SignedAuthorization, SignedLegacyTransaction, Tagged, Transaction, TypedTransaction,
    UnsignedLegacyTransaction, UnsignedTransaction, signing_hash,
};
use std::alloc::{AllocError, Global};

impl Show for Recipient {
    ghost display = { seen_as recipient.reading.seen shown.recipient_display };

    fn show<S: Sink>(&self, _alloc: Global, name: &str, sink: &mut S) -> Result<(), AllocError> {
        match self {
            Recipient::Creation => sink.put(name, Shown::Bytes(BytesKind::Null, &[])),
            Recipient::Account(address) => sink.put(name, bytes(&address.0)),
        }
    }
}

impl Show for AccessListItem {
    ghost display = { seen_as access_list_item.reading.seen shown.access_list_item_display };

    #[tactic(auto, unfolding(crate::specs::Transactions::access_list_item_display))]
    fn show<S: Sink>(&self, alloc: Global, name: &str, sink: &mut S) -> Result<(), AllocError> {
        show_fields!(alloc, name, sink; self.address; "storage_keys" Items(&self.storage_keys);)
    }
}

impl ShowFields for LegacyTransaction {
    ghost fields = { seen_as legacy_transaction_fields.reading.seen shown.legacy_display };

    fn give<S: Sink>(&self, alloc: Global, name: &str, sink: &mut S) -> Result<(), AllocError> {
        give_fields!(alloc, name, sink;
            self.nonce; self.gas_price; self.gas_limit "gas"; self.to; self.value;
            self.data "input";
        )
    }
}

impl ShowFields for AccessListTransaction {
    ghost fields = { seen_as access_list_transaction_fields.reading.seen
        shown.access_list_transaction_display };

    #[tactic(auto, unfolding(crate::specs::Transactions::access_list_transaction_display))]
    fn give<S: Sink>(&self, alloc: Global, name: &str, sink: &mut S) -> Result<(), AllocError> {
        give_fields!(alloc, name, sink;
            self.chain_id; self.nonce; self.gas_price; self.gas_limit "gas"; self.to; self.value;
            self.data "input"; "access_list" Items(&self.access_list.0);
        )
    }
}

impl ShowFields for FeeMarketTransaction {
    ghost fields = { seen_as fee_market_transaction_fields.reading.seen shown.fee_market_display };

    #[tactic(auto, unfolding(crate::specs::Transactions::fee_market_display))]
    fn give<S: Sink>(&self, alloc: Global, name: &str, sink: &mut S) -> Result<(), AllocError> {
        give_fields!(alloc, name, sink;
            self.chain_id; self.nonce; self.max_priority_fee_per_gas; self.max_fee_per_gas;
            self.gas_limit "gas"; self.to; self.value; self.data "input";
            "access_list" Items(&self.access_list.0);
        )
    }
}

impl ShowFields for BlobTransaction {
    ghost fields = { seen_as blob_transaction_fields.reading.seen shown.blob_display };

    #[tactic(auto, unfolding(crate::specs::Transactions::blob_display))]
    fn give<S: Sink>(&self, alloc: Global, name: &str, sink: &mut S) -> Result<(), AllocError> {
        give_fields!(alloc, name, sink;
            self.chain_id; self.nonce; self.max_priority_fee_per_gas; self.max_fee_per_gas;
            self.gas_limit "gas"; self.to; self.value; self.data "input";
            "access_list" Items(&self.access_list.0); self.max_fee_per_blob_gas;
            "blob_versioned_hashes" Items(&self.blob_versioned_hashes);
        )
    }
}

impl ShowFields for Authorization {
    ghost fields = { seen_as authorization_fields.reading.seen shown.authorization_display };

    fn give<S: Sink>(&self, alloc: Global, name: &str, sink: &mut S) -> Result<(), AllocError> {
        give_fields!(alloc, name, sink; self.chain_id; self.address; self.nonce;)
    }
}

impl ShowFields for SetCodeTransaction {
    ghost fields = { seen_as set_code_transaction_fields.reading.seen shown.set_code_display };

    #[tactic(auto, unfolding(crate::specs::Transactions::set_code_display))]
    fn give<S: Sink>(&self, alloc: Global, name: &str, sink: &mut S) -> Result<(), AllocError> {
        give_fields!(alloc, name, sink;
            self.chain_id; self.nonce; self.max_priority_fee_per_gas; self.max_fee_per_gas;
            self.gas_limit "gas"; self.destination "to"; self.value; self.data "input";
            "access_list" Items(&self.access_list.0);
            "authorization_list" Items(&self.authorization_list);
        )
    }
}

/// Returns the hash that is signed of a payload.
fn signing_hash_of<T: Tagged>(alloc: Global, payload: &T) -> Result<Hash, AllocError>
    ensures { IfOk result
        (λ h. h.0 ≡ shown.signing_hash T.TAG T.reading (T.reading.seen payload.now)) }
{
    signing_hash(alloc, payload)
}

impl<T: TypedTransaction + ShowFields> ShowFields for Signed<T, bool> {
    ghost fields = { seen_as (shown.typed_seen T.fields.seen T.reading.seen)
        (shown.typed_fields T.TAG T.reading T.fields.form) };

    fn give<S: Sink>(&self, alloc: Global, name: &str, sink: &mut S) -> Result<(), AllocError> {
        let hash = signing_hash_of(alloc, &self.payload)?;
        give_fields!(alloc, name, sink;
            "type" Shown::TypeByte(T::TAG); &self.payload; "y_parity" number(self.v as u64);
            ByForm((), fields!("v" number(self.v as u64)));
            "r" Shown::Number(NumberKind::Quantity, self.r.number);
            "s" Shown::Number(NumberKind::Quantity, self.s.number); "signing_hash" &hash
        )
    }
}

impl Show for SignedAuthorization {
    ghost display = { seen_as signed_authorization.reading.seen
        shown.signed_authorization_display };

    #[tactic(auto, unfolding(crate::specs::Transactions::signed_authorization_display))]
    fn show<S: Sink>(&self, alloc: Global, name: &str, sink: &mut S) -> Result<(), AllocError> {
        let hash = signing_hash_of(alloc, &self.payload)?;
        show_fields!(alloc, name, sink;
            &self.payload; "y_parity" number(u64::from(self.y_parity));
            "r" Shown::Number(NumberKind::Quantity, self.r);
            "s" Shown::Number(NumberKind::Quantity, self.s); "signing_hash" &hash
        )
    }
}

/// What `v` says.
impl ShowFields for Eip155 {
    ghost fields = { seen_as shown.said_seen shown.said_display };

    fn give<S: Sink>(&self, alloc: Global, name: &str, sink: &mut S) -> Result<(), AllocError> {
        give_fields!(alloc, name, sink;
            "chain_id" ? &self.chain_id; "y_parity" number(self.y_parity as u64)
        )
    }
}

/// Returns the hash that is signed of a transaction without a type, if `v` says what is signed.
fn legacy_signing_hash(
    alloc: Global,
    payload: &LegacyTransaction,
    said: Option<Eip155>,
) -> Result<Option<[u8; 32]>, AllocError>
    ensures { IfOk result (λ h. h
        ≡ shown.legacy_signing_hash (legacy_transaction_fields.reading.seen payload.now) said) }
{
    let Some(said) = said else {
        return Ok(None);
    };
    let unsigned = UnsignedLegacyTransaction {
        payload: payload.clone()?,
        chain_id: said.chain_id,
    };
    let hash = hash_of(alloc, &unsigned)?;
    Ok(Some(hash))
}

impl ShowFields for SignedLegacyTransaction {
    ghost fields = { seen_as signed_legacy_transaction.reading.seen shown.signed_legacy_display };

    fn give<S: Sink>(&self, alloc: Global, name: &str, sink: &mut S) -> Result<(), AllocError> {
        let said = Eip155::from_v(&self.v);
        let hash = legacy_signing_hash(alloc, &self.payload, said)?;
        give_fields!(alloc, name, sink;
            ByForm((), fields!("type" Shown::TypeByte(0))); &self.payload;
            "v" Shown::Number(NumberKind::LegacyV, self.v); ByForm((), &said);
            "r" Shown::Number(NumberKind::Quantity, self.r.number);
            "s" Shown::Number(NumberKind::Quantity, self.s.number); "signing_hash" ? &hash
        )
    }
}

impl ShowFields for Transaction {
    ghost fields = { seen_as transaction.reading.seen shown.transaction_display };

    fn give<S: Sink>(&self, alloc: Global, name: &str, sink: &mut S) -> Result<(), AllocError> {
        match self {
            Transaction::Legacy(tx) => tx.give(alloc, name, sink),
            Transaction::AccessList(tx) => tx.give(alloc, name, sink),
            Transaction::FeeMarket(tx) => tx.give(alloc, name, sink),
            Transaction::Blob(tx) => tx.give(alloc, name, sink),
            Transaction::SetCode(tx) => tx.give(alloc, name, sink),
        }
    }
}

impl Show for AnyTransaction {
    ghost display = { seen_as any_transaction.reading.seen shown.any_transaction_display };

    #[tactic(auto, using(crate::proofs::Hashes::transaction_written), unfolding(crate::specs::Transactions::any_transaction_display))]
    fn show<S: Sink>(&self, alloc: Global, name: &str, sink: &mut S) -> Result<(), AllocError> {
        let hash = self.hash(alloc)?;
        match self {
            AnyTransaction::Known(tx) => show_fields!(alloc, name, sink; "hash" &hash; tx),
            AnyTransaction::Other(tx) => show_fields!(alloc, name, sink;
                "hash" &hash; "type" Shown::TypeByte(tx.transaction_type());
                "payload" Shown::Bytes(BytesKind::Payload, tx.payload())
            ),
        }
    }
}

impl ShowFields for UnsignedLegacyTransaction {
    ghost fields = { seen_as unsigned_legacy_transaction.reading.seen
        shown.unsigned_legacy_display };

    fn give<S: Sink>(&self, alloc: Global, name: &str, sink: &mut S) -> Result<(), AllocError> {
        give_fields!(alloc, name, sink;
            ByForm((), fields!("type" Shown::TypeByte(0))); &self.payload;
            "chain_id" ? &self.chain_id
        )
    }
}

/// Gives the number of a type and the fields of a payload to a sink.
macro_rules! give_typed {
    ($alloc:expr, $name:expr, $sink:expr; $number:literal $payload:expr) => {
        give_fields!($alloc, $name, $sink; "type" Shown::TypeByte($number); $payload)
    };
}

/// The fields without the hash that is signed.
impl ShowFields for UnsignedTransaction {
    ghost fields = { seen_as unsigned_transaction.reading.seen shown.payload_display };

    fn give<S: Sink>(&self, alloc: Global, name: &str, sink: &mut S) -> Result<(), AllocError> {
        match self {
            UnsignedTransaction::Legacy(tx) => tx.give(alloc, name, sink),
            UnsignedTransaction::AccessList(tx) => give_typed!(alloc, name, sink; 1 tx),
            UnsignedTransaction::FeeMarket(tx) => give_typed!(alloc, name, sink; 2 tx),
            UnsignedTransaction::Blob(tx) => give_typed!(alloc, name, sink; 3 tx),
            UnsignedTransaction::SetCode(tx) => give_typed!(alloc, name, sink; 4 tx),
        }
    }
}

impl Show for UnsignedTransaction {
    ghost display = { seen_as unsigned_transaction.reading.seen shown.unsigned_display };

    #[tactic(auto, using(crate::proofs::Hashes::payload_written))]
    fn show<S: Sink>(&self, alloc: Global, name: &str, sink: &mut S) -> Result<(), AllocError> {
        let hash = self.signing_hash(alloc)?;
        show_fields!(alloc, name, sink; self; "signing_hash" &hash)
    }
}

impl Show for Blob {
    ghost display = { seen_as blob.reading.seen (bytes_as Sparse) };

    fn show<S: Sink>(&self, _alloc: Global, name: &str, sink: &mut S) -> Result<(), AllocError> {
        sink.put(name, Shown::Bytes(BytesKind::Sparse, &self.bytes))
    }
}

/// Returns the hash that names a transaction with blobs, which is the hash of the transaction without
/// its blobs.
#[tactic(auto, using(crate::proofs::Hashes::blob_written))]
fn blob_hash(alloc: Global, tx: &Signed<BlobTransaction>) -> Result<Hash, AllocError>
    ensures { IfOk result
        (λ h. h.0 ≡ shown.blob_hash (signed_blob_transaction.reading.seen tx.now)) }
{
    let bytes = tx.to_bytes(alloc)?;
    Ok(Hash(keccak256(bytes.as_slice())))
}

/// The fields without the hash.
impl ShowFields for BlobTransactionWithProofs {
    ghost fields = { seen_as with_proofs.reading.seen shown.with_proofs_fields };

    fn give<S: Sink>(&self, alloc: Global, name: &str, sink: &mut S) -> Result<(), AllocError> {
        give_fields!(alloc, name, sink;
            &self.transaction; "blobs" Items(&self.blobs); "commitments" Items(&self.commitments);
            "proofs" Items(&self.proofs);
        )
    }
}

impl Show for BlobTransactionWithProofs {
    ghost display = { seen_as with_proofs.reading.seen shown.with_proofs_display };

    fn show<S: Sink>(&self, alloc: Global, name: &str, sink: &mut S) -> Result<(), AllocError> {
        let hash = blob_hash(alloc, &self.transaction)?;
        show_fields!(alloc, name, sink; "hash" &hash; self)
    }
}

/// The fields without the hash.
impl ShowFields for BlobTransactionWithCellProofs {
    ghost fields = { seen_as with_cell_proofs.reading.seen shown.with_cell_proofs_fields };

    fn give<S: Sink>(&self, alloc: Global, name: &str, sink: &mut S) -> Result<(), AllocError> {
        give_fields!(alloc, name, sink;
            &self.transaction; "wrapper_version" &1_u64; "blobs" Items(&self.blobs);
            "commitments" Items(&self.commitments); "cell_proofs" "proofs" Items(&self.cell_proofs);
        )
    }
}

impl Show for BlobTransactionWithCellProofs {
    ghost display = { seen_as with_cell_proofs.reading.seen shown.with_cell_proofs_display };

    fn show<S: Sink>(&self, alloc: Global, name: &str, sink: &mut S) -> Result<(), AllocError> {
        let hash = blob_hash(alloc, &self.transaction)?;
        show_fields!(alloc, name, sink; "hash" &hash; self)
    }
}

/// The fields without the hash.
impl ShowFields for PooledBlobTransaction {
    ghost fields = { seen_as pooled_blob_transaction.reading.seen shown.with_blobs_fields };

    fn give<S: Sink>(&self, alloc: Global, name: &str, sink: &mut S) -> Result<(), AllocError> {
        match self {
            PooledBlobTransaction::Proofs(sent) => sent.give(alloc, name, sink),
            PooledBlobTransaction::CellProofs(sent) => sent.give(alloc, name, sink),
        }
    }
}

/// The fields without the hash.
impl ShowFields for PooledTransaction {
    ghost fields = { seen_as pooled_transaction.reading.seen shown.pooled_fields };

    fn give<S: Sink>(&self, alloc: Global, name: &str, sink: &mut S) -> Result<(), AllocError> {
        match self {
            PooledTransaction::Legacy(tx) => tx.give(alloc, name, sink),
            PooledTransaction::AccessList(tx) => tx.give(alloc, name, sink),
            PooledTransaction::FeeMarket(tx) => tx.give(alloc, name, sink),
            PooledTransaction::Blob(tx) => tx.give(alloc, name, sink),
            PooledTransaction::SetCode(tx) => tx.give(alloc, name, sink),
        }
    }
}

impl Show for PooledTransaction {
    ghost display = { seen_as pooled_transaction.reading.seen shown.pooled_transaction_display };

    #[tactic(auto, using(crate::proofs::Hashes::pooled_written), unfolding(crate::specs::Transactions::pooled_transaction_display))]
    fn show<S: Sink>(&self, alloc: Global, name: &str, sink: &mut S) -> Result<(), AllocError> {
        let hash = self.hash(alloc)?;
        show_fields!(alloc, name, sink; "hash" &hash; self)
    }
}
