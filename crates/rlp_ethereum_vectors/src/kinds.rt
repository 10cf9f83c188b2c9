//! The kinds of values that rows read both ways.

use crate::reading::{Again, alone, any_alone, item, message, payload, sent, signed};
use rlp::DecoderError;
use rlp_blocks::{Block, Body};
use rlp_headers::{
    Account, AnyReceipt, BlockAccessList, DepositReceipt, Header, Log, Receipt, TypedReceipt,
    Withdrawal,
};
use rlp_messages::{
    BlockBodies, BlockHeaders, BlockRangeUpdate, Eth68Message, Eth69Message, ForkId,
    GetBlockBodies, GetBlockHeaders, GetPooledTransactions, GetReceipts, HashOrNumber, NewBlock,
    NewBlockHashes, NewPooledTransactionHashes, PooledTransactions, Receipts, Receipts69, Status68,
    Status69, Transactions, WithRequestId,
};
use rlp_node_record::NodeRecord;
use rlp_p2p::{Disconnect, Hello, Message, MessageBounds, P2pMessage, Ping, Pong};
use rlp_pooled::{BlobTransactionWithCellProofs, BlobTransactionWithProofs, PooledTransaction};
use rlp_records::Hash;
use rlp_transactions::{
    AccessList, AccessListTransaction, AnyTransaction, Authorization, BlobTransaction,
    DepositTransaction, FeeMarketTransaction, SetCodeTransaction, Signed, SignedAuthorization,
    SignedLegacyTransaction, Transaction, UnsignedLegacyTransaction, UnsignedTransaction,
};
use rlp_trie::{Branch, BranchChild, Child, Extension, Leaf, TrieNode};
use std::alloc::{AllocError, Global};

/// Returns `both ways` if the bytes are read and written as the same bytes, and fail if the last byte
/// is missing or another follows. Returns else the digits of what is written.
pub(crate) fn both_ways(alloc: Global, kind: &str, bytes: &[u8]) -> Result<String, DecoderError> {
    let again = again(alloc, kind, bytes)?;
    if again.as_slice() == bytes && is_cut_noticed(alloc, kind, bytes)? {
        return Ok(String::from_str(alloc, "both ways")?);
    }
    Ok(hex::encode(alloc, again.as_slice())?)
}

/// Returns whether reading fails without the last byte, and with one more byte.
fn is_cut_noticed(alloc: Global, kind: &str, bytes: &[u8]) -> Result<bool, AllocError> {
    let mut longer = Vec::from_slice(alloc, bytes)?;
    longer.push(0)?;
    let cut = bytes.get(..bytes.len().saturating_sub(1)).unwrap_or(bytes);
    Ok(is_refused(&again(alloc, kind, longer.as_slice())) && is_refused(&again(alloc, kind, cut)))
}

/// Returns whether bytes have a fault of the format.
fn is_refused(again: &Again) -> bool {
    match again {
        Ok(_) | Err(DecoderError::OutOfMemory) => false,
        Err(_) => true,
    }
}

/// What is written again of an item that has one of these types, of one behind the id of a request, or
/// of a signed one, or else the other answer.
macro_rules! item_of_kind {
    ($alloc:ident, $kind:ident, $bytes:ident;
        $($item:ident)*; $($content:ident)*; $($payload:ident)*; $other:expr) => {
        match $kind {
            $(stringify!($item) => item::<$item>($alloc, $bytes),)*
            $(stringify!($content) => item::<WithRequestId<$content>>($alloc, $bytes),)*
            $(stringify!($payload) => item::<Signed<$payload>>($alloc, $bytes),)*
            _ => $other,
        }
    };
}

/// Returns what a value of a kind, which is read from the bytes, is written as. An item of a type has
/// the name of the type.
fn again(alloc: Global, kind: &str, bytes: &[u8]) -> Again {
    item_of_kind!(alloc, kind, bytes;
        AccessList Account AnyReceipt AnyTransaction Block BlockAccessList BlockRangeUpdate Body
        Branch BranchChild Child DepositTransaction Disconnect Extension ForkId Hash HashOrNumber
        Header Hello Leaf Log NewBlock NewBlockHashes NewPooledTransactionHashes NodeRecord Ping Pong
        PooledTransaction Receipt SignedAuthorization Status68 Status69 Transaction Transactions
        TrieNode TypedReceipt UnsignedLegacyTransaction Withdrawal;
        BlockBodies BlockHeaders GetBlockBodies GetBlockHeaders GetPooledTransactions GetReceipts
        PooledTransactions Receipts Receipts69;
        AccessListTransaction FeeMarketTransaction;
        alone_again(alloc, kind, bytes))
}

/// Returns what a message is written as, a value that is sent alone, or what is signed of one.
fn alone_again(alloc: Global, kind: &str, bytes: &[u8]) -> Again {
    match kind {
        "LegacyTransaction" => item::<SignedLegacyTransaction>(alloc, bytes),
        "AnyReceipt alone" => any_alone::<TypedReceipt>(alloc, bytes),
        "DepositReceipt alone" => sent::<DepositReceipt>(alloc, bytes),
        "TypedReceipt alone" => alone::<TypedReceipt>(alloc, bytes),
        "AccessListTransaction alone" => signed::<AccessListTransaction>(alloc, bytes),
        "AnyTransaction alone" => any_alone::<Transaction>(alloc, bytes),
        "DepositTransaction alone" => sent::<DepositTransaction>(alloc, bytes),
        "FeeMarketTransaction alone" => signed::<FeeMarketTransaction>(alloc, bytes),
        "PooledTransaction alone" => alone::<PooledTransaction>(alloc, bytes),
        "Transaction alone" => alone::<Transaction>(alloc, bytes),
        "UnsignedTransaction alone" => alone::<UnsignedTransaction>(alloc, bytes),
        "with proofs" => item::<BlobTransactionWithProofs>(alloc, bytes),
        "with proofs, alone" => sent::<BlobTransactionWithProofs>(alloc, bytes),
        "with cell proofs" => item::<BlobTransactionWithCellProofs>(alloc, bytes),
        "with cell proofs, alone" => sent::<BlobTransactionWithCellProofs>(alloc, bytes),
        "payload of type 1" => payload::<AccessListTransaction>(alloc, bytes),
        "payload of type 2" => payload::<FeeMarketTransaction>(alloc, bytes),
        "payload of type 3" => payload::<BlobTransaction>(alloc, bytes),
        "payload of type 4" => payload::<SetCodeTransaction>(alloc, bytes),
        "payload of an authorization" => payload::<Authorization>(alloc, bytes),
        "eth/68" => message::<Eth68Message>(alloc, 0x10, bytes),
        "eth/69" => message::<Eth69Message>(alloc, 0x10, bytes),
        "p2p" => message::<P2pMessage>(alloc, 0, bytes),
        "p2p after 253" => message::<P2pMessage>(alloc, 253, bytes),
        "p2p of at most 4 bytes and 2 items" => {
            let most = MessageBounds { bytes: 4, items: 2 };
            Ok(P2pMessage::from_message_at_most(alloc, 0, bytes, most)?.to_message(alloc, 0)?)
        }
        _ => Err(DecoderError::Custom("no such call")),
    }
}
