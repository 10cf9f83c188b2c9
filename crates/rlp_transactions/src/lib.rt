//! Transactions of Ethereum: of all types, signed and unsigned. The crate checks no signature.
#![tactic(auto)]

mod access_list_transaction;
mod blob_transaction;
mod deposit_transaction;
mod eip155;
mod fee_market_transaction;
pub mod laws;
mod legacy_transaction;
mod recipient;
mod scalar;
mod set_code_transaction;
mod signed;
mod transaction;
mod unsigned_transaction;

pub use access_list_transaction::{AccessList, AccessListItem, AccessListTransaction};
pub use blob_transaction::BlobTransaction;
pub use deposit_transaction::DepositTransaction;
pub use eip155::Eip155;
pub use fee_market_transaction::FeeMarketTransaction;
pub use legacy_transaction::{
    LegacyTransaction, SignedLegacyTransaction, UnsignedLegacyTransaction,
};
pub use recipient::Recipient;
pub use scalar::NonZeroScalar;
pub use set_code_transaction::{Authorization, SetCodeTransaction, SignedAuthorization};
pub use signed::{Payload, Signed, Tagged, TypedTransaction};
pub use transaction::{AnyTransaction, Transaction, signing_hash};
pub use unsigned_transaction::UnsignedTransaction;
