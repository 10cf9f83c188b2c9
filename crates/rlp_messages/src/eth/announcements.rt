//! Announcements of the protocol `eth`: new blocks and transactions, and the blocks that a client
//! has.

ghost use Rattle.rlp_messages.specs.Eth.Announcements.{new_block_hash, new_block_hashes, new_pooled_transaction_hashes, block_range_update, new_block, transactions};

use rlp::{
    DecoderError, Each, Encodable, ListField, ListOf, Record, Rlp, RlpStream, Uint, put_list_path,
};
use rlp_blocks::Block;
use rlp_records::Hash;
use rlp_transactions::AnyTransaction;
use std::alloc::{AllocError, Global};

/// A block that a client announces: the list of the two fields.
#[derive(Debug, Clone, Copy, PartialEq, Eq)]
pub struct NewBlockHash {
    /// The hash of the block.
    pub hash: Hash,
    /// The number of the block.
    pub number: u64,
}

impl Encodable for NewBlockHash {
    ghost item = { new_block_hash.item };

    ghost fits = { new_block_hash.Fits };

    fn rlp_append(&self, s: &mut RlpStream) -> Result<(), AllocError> {
        rlp::append_fields!(s, &self.hash, &self.number)
    }
}

impl Record for NewBlockHash {
    ghost reading = { new_block_hash.reading };

    fn decode(alloc: Global, rlp: &Rlp<'_>) -> Result<NewBlockHash, DecoderError> {
        rlp::decode_fields!(alloc, rlp, NewBlockHash { hash, number })
    }

    fn put_path(alloc: Global, rlp: &Rlp<'_>, path: &mut Vec<usize>) -> Result<(), AllocError> {
        rlp::put_struct_path!(alloc, rlp, path, Hash, u64)
    }

    ghost lawful = { new_block_hash.reads_strictly };
}

/// The blocks that a client announces, message 0x01 of `eth`: the list of the blocks.
#[derive(Debug, Clone, PartialEq, Eq, Drop)]
pub struct NewBlockHashes(pub Vec<NewBlockHash>);

impl Encodable for NewBlockHashes {
    ghost item = { new_block_hashes.item };

    ghost fits = { new_block_hashes.Fits };

    fn rlp_append(&self, s: &mut RlpStream) -> Result<(), AllocError> {
        rlp::append_fields!(s, Each(&self.0))
    }
}

impl Record for NewBlockHashes {
    ghost reading = { new_block_hashes.reading };

    fn decode(alloc: Global, rlp: &Rlp<'_>) -> Result<NewBlockHashes, DecoderError> {
        Ok(NewBlockHashes(rlp.as_list(alloc)?))
    }

    fn put_path(alloc: Global, rlp: &Rlp<'_>, path: &mut Vec<usize>) -> Result<(), AllocError> {
        put_list_path::<NewBlockHash>(alloc, rlp, path)
    }

    ghost lawful = { new_block_hashes.reads_strictly };
}

/// The transactions that a client announces, message 0x08 since `eth/68`: the list of its three
/// fields. The protocol asks for the same number of types, sizes and hashes, which this type
/// doesn't check.
#[derive(Debug, Clone, PartialEq, Eq, Drop)]
pub struct NewPooledTransactionHashes {
    /// The types of the transactions, a byte each, and 0 for legacy transactions.
    pub types: Vec<u8>,
    /// The lengths of the transactions in bytes, each as `to_bytes` of its
    /// [`PooledTransaction`](rlp_transactions::PooledTransaction) writes it: the type and the
    /// payload without a header, and a blob transaction with its blobs.
    pub sizes: Vec<u64>,
    /// The hashes of the transactions.
    pub hashes: Vec<Hash>,
}

impl Encodable for NewPooledTransactionHashes {
    ghost item = { new_pooled_transaction_hashes.item };

    ghost fits = { new_pooled_transaction_hashes.Fits };

    fn rlp_append(&self, s: &mut RlpStream) -> Result<(), AllocError> {
        rlp::append_fields!(s, &self.types, ListOf(&self.sizes), ListOf(&self.hashes))
    }
}

impl Record for NewPooledTransactionHashes {
    ghost reading = { new_pooled_transaction_hashes.reading };

    fn decode(alloc: Global, rlp: &Rlp<'_>) -> Result<NewPooledTransactionHashes, DecoderError> {
        rlp::decode_fields!(
            alloc,
            rlp,
            NewPooledTransactionHashes {
                types,
                sizes: [..],
                hashes: [..]
            }
        )
    }

    fn put_path(alloc: Global, rlp: &Rlp<'_>, path: &mut Vec<usize>) -> Result<(), AllocError> {
        rlp::put_struct_path!(alloc, rlp, path, Vec<u8>, ListField<u64>, ListField<Hash>)
    }

    ghost lawful = { new_pooled_transaction_hashes.reads_strictly };
}

/// The blocks that a client has, message 0x11 of `eth/69`: the list of its three fields, as in
/// EIP-7642.
#[derive(Debug, Clone, Copy, PartialEq, Eq)]
pub struct BlockRangeUpdate {
    /// The number of the earliest block that the client has in full.
    pub earliest_block: u64,
    /// The number of the latest block.
    pub latest_block: u64,
    /// The hash of the latest block.
    pub latest_block_hash: Hash,
}

impl Encodable for BlockRangeUpdate {
    ghost item = { block_range_update.item };

    ghost fits = { block_range_update.Fits };

    fn rlp_append(&self, s: &mut RlpStream) -> Result<(), AllocError> {
        rlp::append_fields!(
            s,
            &self.earliest_block,
            &self.latest_block,
            &self.latest_block_hash
        )
    }
}

impl Record for BlockRangeUpdate {
    ghost reading = { block_range_update.reading };

    fn decode(alloc: Global, rlp: &Rlp<'_>) -> Result<BlockRangeUpdate, DecoderError> {
        rlp::decode_fields!(
            alloc,
            rlp,
            BlockRangeUpdate {
                earliest_block,
                latest_block,
                latest_block_hash
            }
        )
    }

    fn put_path(alloc: Global, rlp: &Rlp<'_>, path: &mut Vec<usize>) -> Result<(), AllocError> {
        rlp::put_struct_path!(alloc, rlp, path, u64, u64, Hash)
    }

    ghost lawful = { block_range_update.reads_strictly };
}

/// A whole block that a client announces, message 0x07 of `eth`: the list of the two fields.
#[derive(Debug, Clone, PartialEq, Eq, Drop)]
pub struct NewBlock {
    /// The block.
    pub block: Block,
    /// The sum of the difficulties up to this block.
    pub total_difficulty: Uint<32>,
}

impl Encodable for NewBlock {
    ghost item = { new_block.item };

    ghost fits = { new_block.Fits };

    fn rlp_append(&self, s: &mut RlpStream) -> Result<(), AllocError> {
        rlp::append_fields!(s, &self.block, &self.total_difficulty)
    }
}

impl Record for NewBlock {
    ghost reading = { new_block.reading };

    fn decode(alloc: Global, rlp: &Rlp<'_>) -> Result<NewBlock, DecoderError> {
        rlp::decode_fields!(
            alloc,
            rlp,
            NewBlock {
                block,
                total_difficulty
            }
        )
    }

    fn put_path(alloc: Global, rlp: &Rlp<'_>, path: &mut Vec<usize>) -> Result<(), AllocError> {
        rlp::put_struct_path!(alloc, rlp, path, Block, Uint<32>)
    }

    ghost lawful = { new_block.reads_strictly };
}

/// Transactions that a client sends to other clients, message 0x02 of `eth`: the list of the
/// transactions, each as in a block. EIP-4844 forbids blob transactions in this message, which this
/// type doesn't check.
#[derive(Debug, Clone, PartialEq, Eq, Drop)]
pub struct Transactions(pub Vec<AnyTransaction>);

impl Encodable for Transactions {
    ghost item = { transactions.item };

    ghost fits = { transactions.Fits };

    fn rlp_append(&self, s: &mut RlpStream) -> Result<(), AllocError> {
        rlp::append_fields!(s, Each(&self.0))
    }
}

impl Record for Transactions {
    ghost reading = { transactions.reading };

    fn decode(alloc: Global, rlp: &Rlp<'_>) -> Result<Transactions, DecoderError> {
        Ok(Transactions(rlp.as_list(alloc)?))
    }

    fn put_path(alloc: Global, rlp: &Rlp<'_>, path: &mut Vec<usize>) -> Result<(), AllocError> {
        put_list_path::<AnyTransaction>(alloc, rlp, path)
    }

    ghost lawful = { transactions.reads_strictly };
}
