//! Headers of blocks, and what they commit to: receipts, withdrawals, accounts and access lists.
#![tactic(auto)]

mod account;
mod block_access_list;
mod deposit_receipt;
mod header;
pub mod laws;
mod log;
mod receipt;
mod typed_receipt;
mod withdrawal;

pub use account::Account;
pub use block_access_list::{AccountChanges, BlockAccessList, SlotChanges, StateChange};
pub use deposit_receipt::{DepositReceipt, Regolith};
pub use header::{Amsterdam, Cancun, Header, London, Prague, Shanghai};
pub use log::Log;
pub use receipt::{Bloom, Receipt, ReceiptStatus};
pub use typed_receipt::{AnyReceipt, TypedReceipt};
pub use withdrawal::{Withdrawal, Withdrawals};
