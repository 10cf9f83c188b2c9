//! Messages of `eth/68`, with their ids.

ghost use Rattle.rlp_messages.specs.Eth.Eth68Message.{eth68};

use crate::{
    BlockBodies, BlockHeaders, GetBlockBodies, GetBlockHeaders, GetPooledTransactions, GetReceipts,
    NewBlock, NewBlockHashes, NewPooledTransactionHashes, PooledTransactions, Receipts, Status68,
    Transactions, WithRequestId,
};
use rlp::{DecoderError, Encodable, RlpStream};
use rlp_p2p::{Message, Numbered, Protocol};
use std::alloc::{AllocError, Global};

/// The capability `eth/68`, whose messages have the ids from 0x00 to 0x10.
pub const ETH_68: Protocol<'static> = Protocol {
    name: b"eth",
    version: 68,
    ids: 17,
};

/// A message of `eth/68`. The clients' `Hello` messages give the offset of [`ETH_68`] by
/// [`Protocol::offset`]: the offset is 0x10, or more if the two clients share a capability whose
/// name comes before `eth`.
#[derive(Debug, Clone, PartialEq, Eq, Drop)]
pub enum Eth68Message {
    /// 0x00.
    Status(Status68),
    /// 0x01.
    NewBlockHashes(NewBlockHashes),
    /// 0x02.
    Transactions(Transactions),
    /// 0x03.
    GetBlockHeaders(WithRequestId<GetBlockHeaders>),
    /// 0x04.
    BlockHeaders(WithRequestId<BlockHeaders>),
    /// 0x05.
    GetBlockBodies(WithRequestId<GetBlockBodies>),
    /// 0x06.
    BlockBodies(WithRequestId<BlockBodies>),
    /// 0x07.
    NewBlock(NewBlock),
    /// 0x08.
    NewPooledTransactionHashes(NewPooledTransactionHashes),
    /// 0x09.
    GetPooledTransactions(WithRequestId<GetPooledTransactions>),
    /// 0x0a.
    PooledTransactions(WithRequestId<PooledTransactions>),
    /// 0x0f.
    GetReceipts(WithRequestId<GetReceipts>),
    /// 0x10.
    Receipts(WithRequestId<Receipts>),
}

impl Message for Eth68Message {
    ghost table = { eth68 };

    fn number(&self) -> u8 {
        match self {
            Eth68Message::Status(_) => 0x00,
            Eth68Message::NewBlockHashes(_) => 0x01,
            Eth68Message::Transactions(_) => 0x02,
            Eth68Message::GetBlockHeaders(_) => 0x03,
            Eth68Message::BlockHeaders(_) => 0x04,
            Eth68Message::GetBlockBodies(_) => 0x05,
            Eth68Message::BlockBodies(_) => 0x06,
            Eth68Message::NewBlock(_) => 0x07,
            Eth68Message::NewPooledTransactionHashes(_) => 0x08,
            Eth68Message::GetPooledTransactions(_) => 0x09,
            Eth68Message::PooledTransactions(_) => 0x0a,
            Eth68Message::GetReceipts(_) => 0x0f,
            Eth68Message::Receipts(_) => 0x10,
        }
    }

    fn append_body(&self, s: &mut RlpStream) -> Result<(), AllocError> {
        match self {
            Eth68Message::Status(body) => body.rlp_append(s),
            Eth68Message::NewBlockHashes(body) => body.rlp_append(s),
            Eth68Message::Transactions(body) => body.rlp_append(s),
            Eth68Message::GetBlockHeaders(body) => body.rlp_append(s),
            Eth68Message::BlockHeaders(body) => body.rlp_append(s),
            Eth68Message::GetBlockBodies(body) => body.rlp_append(s),
            Eth68Message::BlockBodies(body) => body.rlp_append(s),
            Eth68Message::NewBlock(body) => body.rlp_append(s),
            Eth68Message::NewPooledTransactionHashes(body) => body.rlp_append(s),
            Eth68Message::GetPooledTransactions(body) => body.rlp_append(s),
            Eth68Message::PooledTransactions(body) => body.rlp_append(s),
            Eth68Message::GetReceipts(body) => body.rlp_append(s),
            Eth68Message::Receipts(body) => body.rlp_append(s),
        }
    }

    fn decode_body(
        alloc: Global,
        message: &Numbered<'_>,
        most: Option<usize>,
    ) -> Result<Eth68Message, DecoderError> {
        rlp_p2p::decode_numbered!(
            alloc,
            message,
            most,
            0x00 => Eth68Message::Status,
            0x01 => Eth68Message::NewBlockHashes,
            0x02 with envelopes inside 1 => Eth68Message::Transactions,
            0x03 => Eth68Message::GetBlockHeaders,
            0x04 => Eth68Message::BlockHeaders,
            0x05 => Eth68Message::GetBlockBodies,
            0x06 with envelopes inside 4 => Eth68Message::BlockBodies,
            0x07 with envelopes inside 3 => Eth68Message::NewBlock,
            0x08 => Eth68Message::NewPooledTransactionHashes,
            0x09 => Eth68Message::GetPooledTransactions,
            0x0a with envelopes inside 2 => Eth68Message::PooledTransactions,
            0x0f => Eth68Message::GetReceipts,
            0x10 with envelopes inside 3 => Eth68Message::Receipts,
        )
    }
}
