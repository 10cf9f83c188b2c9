//! Transactions of every type.

ghost use Rattle.std.specs.Prelude.{◌≡◌, ◌∷◌, ◌⊎◌, Err, IfErr, IfOk, Ok, OnOk};
ghost use Rattle.rlp.specs.{DecoderError.TheVariants.OutOfMemory, Format.Encoding.{encoding, list_of}};
ghost use Rattle.rlp_reading.specs.Form.{fault_of};
ghost use Rattle.rlp_records.specs.{Alone.bytes_alone, Eip2718.typed_alone, Hashing.IsHashOf};
ghost use Rattle.rlp_transactions.specs.{Transaction.{transaction, transaction_types}, UnsignedTransaction.unsigned_transaction, declared.transaction.Transaction.{Transaction}};

use crate::{
    AccessListTransaction, BlobTransaction, FeeMarketTransaction, SetCodeTransaction, Signed,
    SignedLegacyTransaction, Tagged, UnsignedTransaction,
};
use rlp::{DecodePlaced, DecoderError, Encodable, Rlp, RlpStream};
use rlp_records::{
    ACCESS_LIST_TYPE, BLOB_TYPE, Eip2718, FEE_MARKET_TYPE, Hash, KnownOrOther, SET_CODE_TYPE,
    keccak256,
};
use std::alloc::{AllocError, Global};

/// The value of an expression about the signed payload of a transaction, whatever its type is.
macro_rules! of_each {
    ($transaction:expr, $tx:ident => $value:expr) => {
        match $transaction {
            Transaction::Legacy($tx) => $value,
            Transaction::AccessList($tx) => $value,
            Transaction::FeeMarket($tx) => $value,
            Transaction::Blob($tx) => $value,
            Transaction::SetCode($tx) => $value,
        }
    };
}

mod parts;
mod signatures;

/// A signed transaction, as in the list of a block's transactions: a legacy transaction is a list,
/// and a typed transaction is the string of its envelope, as in EIP-2718.
#[derive(Debug, Clone, PartialEq, Eq, Drop)]
pub enum Transaction {
    /// A transaction without a type.
    Legacy(SignedLegacyTransaction),
    /// A transaction of type 1.
    AccessList(Signed<AccessListTransaction>),
    /// A transaction of type 2.
    FeeMarket(Signed<FeeMarketTransaction>),
    /// A transaction of type 3.
    Blob(Signed<BlobTransaction>),
    /// A transaction of type 4.
    SetCode(Signed<SetCodeTransaction>),
}

/// A transaction in the list of a block's transactions, of any type. A transaction of an unknown
/// type, such as a [`DepositTransaction`](crate::DepositTransaction), is kept as its bytes, and
/// written back unchanged.
pub type AnyTransaction = KnownOrOther<Transaction>;

impl Eip2718 for Transaction {
    ghost types = { transaction_types };

    fn envelope_type(&self) -> Option<u8> {
        match self {
            Transaction::Legacy(_) => None,
            Transaction::AccessList(_) => Some(ACCESS_LIST_TYPE),
            Transaction::FeeMarket(_) => Some(FEE_MARKET_TYPE),
            Transaction::Blob(_) => Some(BLOB_TYPE),
            Transaction::SetCode(_) => Some(SET_CODE_TYPE),
        }
    }

    fn append_payload(&self, s: &mut RlpStream) -> Result<(), AllocError> {
        of_each!(self, tx => tx.rlp_append(s))
    }

    fn decode_payload(
        alloc: Global,
        kind: Option<u8>,
        payload: &Rlp<'_>,
    ) -> Result<Transaction, DecoderError> {
        match kind {
            None => Ok(Transaction::Legacy(payload.as_val(alloc)?)),
            Some(ACCESS_LIST_TYPE) => Ok(Transaction::AccessList(payload.as_val(alloc)?)),
            Some(FEE_MARKET_TYPE) => Ok(Transaction::FeeMarket(payload.as_val(alloc)?)),
            Some(BLOB_TYPE) => Ok(Transaction::Blob(payload.as_val(alloc)?)),
            Some(SET_CODE_TYPE) => Ok(Transaction::SetCode(payload.as_val(alloc)?)),
            Some(_) => Err(DecoderError::Custom("unknown transaction type")),
        }
    }

    fn put_payload_path(
        alloc: Global,
        kind: Option<u8>,
        payload: &Rlp<'_>,
        path: &mut Vec<usize>,
    ) -> Result<(), AllocError> {
        match kind {
            None => SignedLegacyTransaction::put_path(alloc, payload, path),
            Some(ACCESS_LIST_TYPE) => Signed::<AccessListTransaction>::put_path(
                alloc, payload, path,
            ),
            Some(FEE_MARKET_TYPE) => Signed::<FeeMarketTransaction>::put_path(alloc, payload, path),
            Some(BLOB_TYPE) => Signed::<BlobTransaction>::put_path(alloc, payload, path),
            Some(SET_CODE_TYPE) => Signed::<SetCodeTransaction>::put_path(alloc, payload, path),
            Some(_) => Ok(()),
        }
    }
}

impl Encodable for Transaction {
    ghost item = { transaction.item };

    ghost fits = { transaction.Fits };

    fn rlp_append(&self, s: &mut RlpStream) -> Result<(), AllocError> {
        self.append_item(s)
    }
}

impl rlp::Record for Transaction {
    ghost reading = { transaction.reading };

    fn decode(alloc: Global, rlp: &Rlp<'_>) -> Result<Transaction, DecoderError> {
        Transaction::decode_item(alloc, rlp)
    }

    fn put_path(alloc: Global, rlp: &Rlp<'_>, path: &mut Vec<usize>) -> Result<(), AllocError> {
        Transaction::put_item_path(alloc, rlp, path)
    }

    ghost lawful = { transaction.reads_strictly };
}

/// Returns the hash that is signed: the hash of [`Tagged::signing_payload`]. Fails as
/// [`Tagged::signing_payload`] does.
pub fn signing_hash<T: Tagged>(alloc: Global, payload: &T) -> Result<Hash, AllocError>
    ensures fits { OnOk result (T.fit payload.now) }
    ensures hash { IfOk result
        (λ h. IsHashOf h (T.TAG ∷ encoding (list_of (T.items payload.now)))) }
{
    let signed = payload.signing_payload(alloc)?;
    Ok(Hash(keccak256(signed.as_slice())))
}

impl Transaction {
    /// Returns the hash that names the transaction: the hash of [`Eip2718::to_bytes`]. Fails as
    /// [`Eip2718::to_bytes`] does.
    pub fn hash(&self, alloc: Global) -> Result<Hash, AllocError>
        ensures fits { OnOk result (transaction.Fits self.now) }
        ensures hash { IfOk result (λ h. IsHashOf h (bytes_alone (transaction.item self.now))) }
    {
        let bytes = self.to_bytes(alloc)?;
        Ok(Hash(keccak256(bytes.as_slice())))
    }

    /// Reads a transaction as [`Eip2718::from_bytes`] does, and returns it with the hash of the
    /// bytes: what [`Transaction::hash`] returns of the transaction. Nothing is encoded.
    ///
    /// Fails as [`Eip2718::from_bytes`] does.
    pub fn from_bytes_with_hash(
        alloc: Global,
        bytes: &[u8],
    ) -> Result<(Transaction, Hash), DecoderError>
        ensures whole { IfOk result (λ r. transaction.Fits r.0
            × (bytes.now ≡ bytes_alone (transaction.item r.0))) }
        ensures hash { IfOk result (λ r. IsHashOf r.1 (bytes_alone (transaction.item r.0))) }
        ensures value { IfOk result (λ r.
            (typed_alone transaction_types bytes.now).result ≡ Ok (transaction.reading.seen r.0)) }
        ensures fault { IfErr result (λ e.
            ((typed_alone transaction_types bytes.now).result ≡ Err (fault_of e))
            ⊎ (e ≡ OutOfMemory)) }
        ensures memory { (x : Transaction) → transaction.Fits x
            → bytes.now ≡ bytes_alone (transaction.item x) → IfErr result (λ e. e ≡ OutOfMemory) }
    {
        let transaction = Transaction::from_bytes(alloc, bytes)?;
        Ok((transaction, Hash(keccak256(bytes))))
    }
}

impl UnsignedTransaction {
    /// Returns the hash that is signed: the hash of [`Eip2718::to_bytes`]. Fails as
    /// [`Eip2718::to_bytes`] does.
    pub fn signing_hash(&self, alloc: Global) -> Result<Hash, AllocError>
        ensures fits { OnOk result (unsigned_transaction.Fits self.now) }
        ensures hash { IfOk result
            (λ h. IsHashOf h (bytes_alone (unsigned_transaction.item self.now))) }
    {
        let payload = self.to_bytes(alloc)?;
        Ok(Hash(keccak256(payload.as_slice())))
    }
}
