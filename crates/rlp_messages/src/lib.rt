//! Messages of the protocol `eth` between Ethereum's clients.
//!
//! The types are the bodies of messages. [`Eth68Message`] and [`Eth69Message`] are messages of any
//! number: the trait [`Message`](rlp_p2p::Message) of `rlp_p2p` writes and reads them with their
//! ids.
#![tactic(auto)]

mod eth;

pub use eth::{
    BlockBodies, BlockHeaders, BlockRangeUpdate, BlockReceipts, BlockReceipts69, ETH_68, ETH_69,
    Eth68Message, Eth69Message, ForkHash, ForkId, GetBlockBodies, GetBlockHeaders,
    GetPooledTransactions, GetReceipts, HashOrNumber, NewBlock, NewBlockHash, NewBlockHashes,
    NewPooledTransactionHashes, PooledTransactions, Receipt69, Receipts, Receipts69, Status68,
    Status69, Transactions, WithRequestId,
};
