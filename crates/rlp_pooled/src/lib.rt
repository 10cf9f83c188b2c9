//! Transactions of Ethereum as they are sent: those of type 3 with their blobs. The crate checks no
//! signature and no proof.
#![tactic(auto)]

mod blob;
mod blob_check;
mod blob_wrapper;
pub mod laws;
mod pooled_transaction;

pub use blob::{BLOB_LEN, Blob};
pub use blob_check::{BlobFault, versioned_hash};
pub use blob_wrapper::{
    BlobTransactionWithCellProofs, BlobTransactionWithProofs, PooledBlobTransaction, WrapperVersion,
};
pub use pooled_transaction::PooledTransaction;
