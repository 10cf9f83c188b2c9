//! Messages of the protocol `eth` between Ethereum's clients.

mod announcements;
mod eth68_message;
mod eth69_message;
mod receipts;
mod requests;
mod status;

pub use announcements::{
    BlockRangeUpdate, NewBlock, NewBlockHash, NewBlockHashes, NewPooledTransactionHashes,
    Transactions,
};
pub use eth68_message::{ETH_68, Eth68Message};
pub use eth69_message::{ETH_69, Eth69Message};
pub use receipts::{BlockReceipts, BlockReceipts69, Receipt69, Receipts, Receipts69};
pub use requests::{
    BlockBodies, BlockHeaders, GetBlockBodies, GetBlockHeaders, GetPooledTransactions, GetReceipts,
    HashOrNumber, PooledTransactions, WithRequestId,
};
pub use status::{ForkHash, ForkId, Status68, Status69};
