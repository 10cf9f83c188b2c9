//! What holds of transactions: different transactions have different bytes, and no bytes are signed
//! for two meanings.

ghost use Rattle.std.specs.Prelude.{◌≡◌, ◌≢◌, ◌<◌, ◌^◌, Err, length};
ghost use Rattle.rlp_reading.specs.Form.{Fault};
ghost use Rattle.rlp_records.specs.{Alone.bytes_alone, Eip2718.typed_alone, declared.known_or_other.KnownOrOther.KnownOrOther};
ghost use Rattle.rlp_transactions.specs.Signing.{FitsSigning, HaveOneMeaning, Signable, signed_bytes};
ghost use Rattle.rlp_transactions.specs.{Transaction.{any_transaction, transaction}, UnsignedTransaction.unsigned_types, declared.transaction.Transaction.Transaction};

use crate::AnyTransaction;

/// Two transactions that [`AnyTransaction::to_bytes`] writes as the same bytes, fewer than 2^64,
/// have the same type and the same fields. So the hash of these bytes names one transaction, unless
/// two different byte strings have the same hash.
pub fn bytes_tell_transactions(one: &AnyTransaction, other: &AnyTransaction)
    ensures { any_transaction.Fits one.now → any_transaction.Fits other.now
        → length (bytes_alone (any_transaction.item one.now)) < 2 ^ 64
        → bytes_alone (any_transaction.item one.now) ≡ bytes_alone (any_transaction.item other.now)
        → any_transaction.reading.seen one.now ≡ any_transaction.reading.seen other.now }
{}

/// No bytes are signed for two meanings. If a key signs the same bytes, fewer than 2^64, for two
/// contents, the two are transactions of one type with the same fields, or authorizations with the
/// same fields. A legacy transaction with the number of a chain and a legacy transaction without it
/// have different bytes.
///
/// The bytes of a transaction are what
/// [`UnsignedTransaction::to_bytes`](crate::UnsignedTransaction::to_bytes) returns, and the bytes
/// of an authorization are what [`Tagged::signing_payload`](crate::Tagged::signing_payload)
/// returns.
pub fn no_bytes_are_signed_for_two_meanings()
    ensures { (one other : Signable) → FitsSigning one → FitsSigning other
        → length (signed_bytes one) < 2 ^ 64 → signed_bytes one ≡ signed_bytes other
        → HaveOneMeaning one other }
{}

/// The bytes of a signed transaction, as [`Transaction::to_bytes`](crate::Transaction::to_bytes)
/// writes them, fewer than 2^64, are never the bytes that a key signs of a transaction or of an
/// authorization. The bytes of a signed transaction of any type, as [`AnyTransaction::to_bytes`]
/// writes them, aren't read as an unsigned transaction:
/// [`UnsignedTransaction::from_bytes`](crate::UnsignedTransaction::from_bytes) fails for them.
pub fn signed_transactions_are_no_signing_payloads()
    ensures apart { (t : Transaction) (x : Signable)
        → length (bytes_alone (transaction.item t)) < 2 ^ 64
        → bytes_alone (transaction.item t) ≢ signed_bytes x }
    ensures unread { (t : KnownOrOther Transaction) → any_transaction.Fits t
        → length (bytes_alone (any_transaction.item t)) < 2 ^ 64
        → (e : Fault) × ((typed_alone unsigned_types
        (bytes_alone (any_transaction.item t))).result ≡ Err e) }
{}
