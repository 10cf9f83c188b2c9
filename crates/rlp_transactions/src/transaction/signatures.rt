//! Signatures of transactions of every type.

ghost use Rattle.std.specs.Prelude.{◌↔◌, ◌≡◌, Bool, IfNone, IfOk, IfSome, IsTrue};
ghost use Rattle.rlp_records.specs.Alone.{bytes_alone};
ghost use Rattle.rlp_transactions.specs.{Secp256k1.IsLow, TransactionParts.{HasNoV, IsChainOf, Signs, r_of, s_of}, UnsignedTransaction.unsigned_transaction, declared.unsigned_transaction.UnsignedTransaction.UnsignedTransaction};

use crate::legacy_transaction::unsigned_bytes;
use crate::signed::Tagged;
use crate::{NonZeroScalar, Transaction, UnsignedLegacyTransaction, UnsignedTransaction};
use bytes::BytesMut;
use std::alloc::{AllocError, Global};

impl Transaction {
    /// Returns the number of the chain that the transaction is signed for. A transaction without a
    /// type may have none: see [`Signed::chain_id`](crate::Signed::chain_id).
    pub fn chain_id(&self) -> Option<u64>
        ensures { IsChainOf self.now result }
    {
        match self {
            Transaction::Legacy(tx) => tx.chain_id(),
            Transaction::AccessList(tx) => Some(tx.payload.chain_id),
            Transaction::FeeMarket(tx) => Some(tx.payload.chain_id),
            Transaction::Blob(tx) => Some(tx.payload.chain_id),
            Transaction::SetCode(tx) => Some(tx.payload.chain_id),
        }
    }

    /// Returns the first number of the signature.
    pub fn r(&self) -> &NonZeroScalar
        ensures { result.now ≡ r_of self.now }
    {
        of_each!(self, tx => &tx.r)
    }

    /// Returns the second number of the signature.
    pub fn s(&self) -> &NonZeroScalar
        ensures { result.now ≡ s_of self.now }
    {
        of_each!(self, tx => &tx.s)
    }

    /// Whether the second number of the signature is low, as EIP-2 demands.
    pub fn has_low_s(&self) -> bool
        ensures { IsTrue result ↔ IsLow (s_of self.now).number }
    {
        self.s().is_low()
    }

    /// Returns the transaction without its signature, and the parity of the y value of the
    /// signature's point. Returns `None` if the transaction has no type and its `v` isn't a `v` of
    /// EIP-155, or is the `v` of a chain whose number has more than 64 bits.
    pub fn into_unsigned(self) -> Option<(UnsignedTransaction, bool)>
        ensures some { IfSome result (λ x. Signs self x.0 x.1) }
        ensures none { IfNone result (HasNoV self) }
    {
        match self {
            Transaction::Legacy(tx) => match tx.eip155() {
                Some(said) => Some((
                    UnsignedTransaction::Legacy(UnsignedLegacyTransaction {
                        payload: tx.payload,
                        chain_id: said.chain_id,
                    }),
                    said.y_parity,
                )),
                None => None,
            },
            Transaction::AccessList(tx) => {
                Some((UnsignedTransaction::AccessList(tx.payload), tx.v))
            }
            Transaction::FeeMarket(tx) => Some((UnsignedTransaction::FeeMarket(tx.payload), tx.v)),
            Transaction::Blob(tx) => Some((UnsignedTransaction::Blob(tx.payload), tx.v)),
            Transaction::SetCode(tx) => Some((UnsignedTransaction::SetCode(tx.payload), tx.v)),
        }
    }

    /// Returns the bytes that are hashed and signed, as [`UnsignedTransaction::to_bytes`] does for
    /// the transaction without its signature. Returns `None` if [`Transaction::into_unsigned`]
    /// does.
    pub fn signing_payload(&self, alloc: Global) -> Result<Option<BytesMut>, AllocError>
        ensures some { IfOk result (λ o. IfSome o (λ b. (u : UnsignedTransaction) × (parity : Bool)
            × (Signs self.now u parity × (b.items ≡ bytes_alone (unsigned_transaction.item u))))) }
        ensures none { IfOk result (λ o. IfNone o (HasNoV self.now)) }
    {
        match self {
            Transaction::Legacy(tx) => match tx.eip155() {
                Some(said) => Ok(Some(unsigned_bytes(alloc, &tx.payload, said.chain_id)?)),
                None => Ok(None),
            },
            Transaction::AccessList(tx) => Ok(Some(tx.payload.signing_payload(alloc)?)),
            Transaction::FeeMarket(tx) => Ok(Some(tx.payload.signing_payload(alloc)?)),
            Transaction::Blob(tx) => Ok(Some(tx.payload.signing_payload(alloc)?)),
            Transaction::SetCode(tx) => Ok(Some(tx.payload.signing_payload(alloc)?)),
        }
    }
}
