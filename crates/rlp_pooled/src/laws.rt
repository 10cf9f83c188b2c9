//! What holds of transactions as they are sent: different ones have different bytes, and each can be
//! in a block.

ghost use Rattle.std.specs.Prelude.{◌≡◌, ◌≢◌, ◌<◌, ◌^◌, IfOk, length};
ghost use Rattle.rlp_records.specs.{Alone.bytes_alone, Eip2718.type_of, Hashing.IsHashOf};
ghost use Rattle.rlp_transactions.specs.Transaction.{transaction, transaction_types};
ghost use Rattle.rlp_pooled.specs.PooledTransaction.{consensus_form, pooled_transaction};

use crate::PooledTransaction;
use rlp_records::Hash;
use std::alloc::{AllocError, Global};

/// Two transactions that [`PooledTransaction::to_bytes`] writes as the same bytes, fewer than 2^64,
/// have the same type and the same fields, including each blob, commitment and proof.
/// [`PooledTransaction::into_consensus`] returns the same transaction for the two, and so the bytes
/// that are hashed are the same.
pub fn bytes_tell_pooled_transactions(one: &PooledTransaction, other: &PooledTransaction)
    ensures fields { pooled_transaction.Fits one.now → pooled_transaction.Fits other.now
        → length (bytes_alone (pooled_transaction.item one.now)) < 2 ^ 64
        → bytes_alone (pooled_transaction.item one.now)
        ≡ bytes_alone (pooled_transaction.item other.now)
        → pooled_transaction.reading.seen one.now ≡ pooled_transaction.reading.seen other.now }
    ensures consensus { pooled_transaction.reading.seen one.now
        ≡ pooled_transaction.reading.seen other.now
        → transaction.reading.seen (consensus_form one.now)
        ≡ transaction.reading.seen (consensus_form other.now) }
    ensures hashed { pooled_transaction.reading.seen one.now
        ≡ pooled_transaction.reading.seen other.now
        → bytes_alone (transaction.item (consensus_form one.now))
        ≡ bytes_alone (transaction.item (consensus_form other.now)) }
{}

/// Returns the hash of a transaction as it is sent, and the hash of what
/// [`PooledTransaction::into_consensus`] returns for it. The two hashes are equal: they are the hash
/// of the standalone transaction without its blobs.
///
/// Fails as [`PooledTransaction::hash`] does.
pub fn pooled_transaction_keeps_its_hash(
    alloc: Global,
    pooled: PooledTransaction,
) -> Result<(Hash, Hash), AllocError>
    ensures same { IfOk result (λ hashes. hashes.0 ≡ hashes.1) }
    ensures hash { IfOk result (λ hashes. IsHashOf hashes.0
        (bytes_alone (transaction.item (consensus_form pooled)))) }
{
    let sent = pooled.hash(alloc)?;
    let consensus = pooled.into_consensus().hash(alloc)?;
    Ok((sent, consensus))
}

/// A transaction that can be sent can be in a block: if it fits, so does what
/// [`PooledTransaction::into_consensus`] returns. If the type isn't 3, the two are written as the
/// same bytes.
pub fn pooled_transactions_stand_in_blocks(pooled: &PooledTransaction)
    ensures fits { pooled_transaction.Fits pooled.now → transaction.Fits (consensus_form pooled.now) }
    ensures bytes { type_of transaction_types (consensus_form pooled.now) ≢ 3
        → pooled_transaction.item pooled.now ≡ transaction.item (consensus_form pooled.now) }
{}
