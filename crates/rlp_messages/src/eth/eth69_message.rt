//! Messages of `eth/69`, with their ids.

ghost use Rattle.rlp_messages.specs.Eth.Eth69Message.{eth69};

use crate::{
    BlockBodies, BlockHeaders, BlockRangeUpdate, GetBlockBodies, GetBlockHeaders,
    GetPooledTransactions, GetReceipts, NewBlock, NewBlockHashes, NewPooledTransactionHashes,
    PooledTransactions, Receipts69, Status69, Transactions, WithRequestId,
};
use rlp::{DecoderError, Encodable, RlpStream};
use rlp_p2p::{Message, Numbered, Protocol};
use std::alloc::{AllocError, Global};

/// The capability `eth/69`, whose messages have the ids from 0x00 to 0x11.
pub const ETH_69: Protocol<'static> = Protocol {
    name: b"eth",
    version: 69,
    ids: 18,
};

/// A message of `eth/69`. The clients' `Hello` messages give the offset of [`ETH_69`] by
/// [`Protocol::offset`]: the offset is 0x10, or more if the two clients share a capability whose
/// name comes before `eth`.
#[derive(Debug, Clone, PartialEq, Eq, Drop)]
pub enum Eth69Message {
    /// 0x00.
    Status(Status69),
    /// 0x01.
    NewBlockHashes(NewBlockHashes),
    /// 0x02.
    Transactions(Transactions),
    /// 0x03.
    GetBlockHeaders(WithRequestId<GetBlockHeaders>),
    /// 0x04.
    BlockHeaders(WithRequestId<BlockHeaders>),
    /// 0x05.
    GetBlockBodies(WithRequestId<GetBlockBodies>),
    /// 0x06.
    BlockBodies(WithRequestId<BlockBodies>),
    /// 0x07.
    NewBlock(NewBlock),
    /// 0x08.
    NewPooledTransactionHashes(NewPooledTransactionHashes),
    /// 0x09.
    GetPooledTransactions(WithRequestId<GetPooledTransactions>),
    /// 0x0a.
    PooledTransactions(WithRequestId<PooledTransactions>),
    /// 0x0f.
    GetReceipts(WithRequestId<GetReceipts>),
    /// 0x10.
    Receipts(WithRequestId<Receipts69>),
    /// 0x11.
    BlockRangeUpdate(BlockRangeUpdate),
}

impl Message for Eth69Message {
    ghost table = { eth69 };

    fn number(&self) -> u8 {
        match self {
            Eth69Message::Status(_) => 0x00,
            Eth69Message::NewBlockHashes(_) => 0x01,
            Eth69Message::Transactions(_) => 0x02,
            Eth69Message::GetBlockHeaders(_) => 0x03,
            Eth69Message::BlockHeaders(_) => 0x04,
            Eth69Message::GetBlockBodies(_) => 0x05,
            Eth69Message::BlockBodies(_) => 0x06,
            Eth69Message::NewBlock(_) => 0x07,
            Eth69Message::NewPooledTransactionHashes(_) => 0x08,
            Eth69Message::GetPooledTransactions(_) => 0x09,
            Eth69Message::PooledTransactions(_) => 0x0a,
            Eth69Message::GetReceipts(_) => 0x0f,
            Eth69Message::Receipts(_) => 0x10,
            Eth69Message::BlockRangeUpdate(_) => 0x11,
        }
    }

    fn append_body(&self, s: &mut RlpStream) -> Result<(), AllocError> {
        match self {
            Eth69Message::Status(body) => body.rlp_append(s),
            Eth69Message::NewBlockHashes(body) => body.rlp_append(s),
            Eth69Message::Transactions(body) => body.rlp_append(s),
            Eth69Message::GetBlockHeaders(body) => body.rlp_append(s),
            Eth69Message::BlockHeaders(body) => body.rlp_append(s),
            Eth69Message::GetBlockBodies(body) => body.rlp_append(s),
            Eth69Message::BlockBodies(body) => body.rlp_append(s),
            Eth69Message::NewBlock(body) => body.rlp_append(s),
            Eth69Message::NewPooledTransactionHashes(body) => body.rlp_append(s),
            Eth69Message::GetPooledTransactions(body) => body.rlp_append(s),
            Eth69Message::PooledTransactions(body) => body.rlp_append(s),
            Eth69Message::GetReceipts(body) => body.rlp_append(s),
            Eth69Message::Receipts(body) => body.rlp_append(s),
            Eth69Message::BlockRangeUpdate(body) => body.rlp_append(s),
        }
    }

    fn decode_body(
        alloc: Global,
        message: &Numbered<'_>,
        most: Option<usize>,
    ) -> Result<Eth69Message, DecoderError> {
        rlp_p2p::decode_numbered!(
            alloc,
            message,
            most,
            0x00 => Eth69Message::Status,
            0x01 => Eth69Message::NewBlockHashes,
            0x02 with envelopes inside 1 => Eth69Message::Transactions,
            0x03 => Eth69Message::GetBlockHeaders,
            0x04 => Eth69Message::BlockHeaders,
            0x05 => Eth69Message::GetBlockBodies,
            0x06 with envelopes inside 4 => Eth69Message::BlockBodies,
            0x07 with envelopes inside 3 => Eth69Message::NewBlock,
            0x08 => Eth69Message::NewPooledTransactionHashes,
            0x09 => Eth69Message::GetPooledTransactions,
            0x0a with envelopes inside 2 => Eth69Message::PooledTransactions,
            0x0f => Eth69Message::GetReceipts,
            0x10 => Eth69Message::Receipts,
            0x11 => Eth69Message::BlockRangeUpdate,
        )
    }
}
