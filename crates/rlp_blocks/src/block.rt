//! Blocks, and their bodies.

ghost use Rattle.std.specs.Prelude.{◌≡◌, ◌⊎◌, IfErr, IfOk, map};
ghost use Rattle.rlp.specs.{DecoderError.TheVariants.OutOfMemory, Format.Encoding.encoding, Views.View.strict_view_of};
ghost use Rattle.rlp_reading.specs.Form.{Faults};
ghost use Rattle.rlp_records.specs.{Alone.{bytes_alone}, Hashing.{AreHashesOf, IsHashOf}};
ghost use Rattle.rlp_headers.specs.Header.{header};
ghost use Rattle.rlp_transactions.specs.Transaction.{any_transaction};
ghost use Rattle.rlp_blocks.specs.{Block.{block, block_of, body}, declared.block.Block.Block, declared.block.Body.Body};

use crate::hashes::{hash_at, hashes_at};
use rlp::{
    DecoderError, Encodable, ListField, ListOf, Optional, OptionalField, Record, Rlp, RlpStream,
};
use rlp_headers::{Header, Withdrawals};
use rlp_records::Hash;
use rlp_transactions::AnyTransaction;
use std::alloc::{AllocError, Global};

/// A block: the list of three fields, or since Shanghai of four, as in EIP-4895.
#[derive(Debug, Clone, PartialEq, Eq, Drop)]
pub struct Block {
    /// The header.
    pub header: Header,
    /// The transactions, in order.
    pub transactions: Vec<AnyTransaction>,
    /// The headers of the ommers. No block has ommers since EIP-3675.
    pub ommers: Vec<Header>,
    /// The withdrawals from the beacon chain, in order, or `None` in blocks before Shanghai.
    pub withdrawals: Option<Withdrawals>,
}

impl Encodable for Block {
    ghost item = { block.item };

    ghost fits = { block.Fits };

    fn rlp_append(&self, s: &mut RlpStream) -> Result<(), AllocError> {
        rlp::append_fields!(
            s,
            &self.header,
            ListOf(&self.transactions),
            ListOf(&self.ommers),
            Optional(&self.withdrawals)
        )
    }
}

impl Record for Block {
    ghost reading = { block.reading };

    fn decode(alloc: Global, rlp: &Rlp<'_>) -> Result<Block, DecoderError> {
        rlp::decode_fields!(
            alloc,
            rlp,
            Block {
                header,
                transactions: [..],
                ommers: [..],
                withdrawals: ?
            }
        )
    }

    fn put_path(alloc: Global, rlp: &Rlp<'_>, path: &mut Vec<usize>) -> Result<(), AllocError> {
        rlp::put_struct_path!(
            alloc, rlp, path, Header, ListField<AnyTransaction>, ListField<Header>;
            OptionalField<Withdrawals>
        )
    }

    ghost lawful = { block.reads_strictly };
}

/// The hashes that name a block and its transactions.
#[derive(Debug, Drop)]
pub struct BlockHashes {
    /// The hash of the header, which names the block.
    pub header: Hash,
    /// The hashes of the transactions, in order.
    pub transactions: Vec<Hash>,
}

impl Block {
    /// Reads a block strictly from its whole encoding, as [`rlp::decode_whole`] does, and returns it
    /// with the hashes of its header and of its transactions, which their `hash` returns too. It
    /// hashes the bytes that it reads, and encodes nothing.
    ///
    /// Fails as [`rlp::decode_whole`] does.
    pub fn decode_with_hashes(
        alloc: Global,
        bytes: &[u8],
    ) -> Result<(Block, BlockHashes), DecoderError>
        ensures whole { IfOk result
            (λ r. block.Fits r.0 × (bytes.now ≡ encoding (block.item r.0))) }
        ensures header { IfOk result
            (λ r. IsHashOf r.1.header (encoding (header.item r.0.header))) }
        ensures transactions { IfOk result (λ r. AreHashesOf r.1.transactions.items
            (map bytes_alone (map any_transaction.item r.0.transactions.items))) }
        ensures fault { IfErr result
            (λ e. Faults block.reading (strict_view_of bytes.now) e ⊎ (e ≡ OutOfMemory)) }
        ensures memory { (b : Block) → block.Fits b → bytes.now ≡ encoding (block.item b)
            → IfErr result (λ e. e ≡ OutOfMemory) }
    {
        let block = rlp::decode_whole::<Block>(alloc, bytes)?;
        let header = hash_at(bytes, 0)?;
        let transactions = hashes_at(alloc, bytes, 1)?;
        let hashes = BlockHashes {
            header,
            transactions,
        };
        Ok((block, hashes))
    }

    /// Returns the header and the body.
    pub fn into_parts(self) -> (Header, Body)
        ensures { block_of result.0 result.1 ≡ self }
    {
        let body = Body {
            transactions: self.transactions,
            ommers: self.ommers,
            withdrawals: self.withdrawals,
        };
        (self.header, body)
    }
}

/// The body of a block: the list of two fields, or since Shanghai of three, as in EIP-4895.
#[derive(Debug, Clone, PartialEq, Eq, Drop)]
pub struct Body {
    /// The transactions, in order.
    pub transactions: Vec<AnyTransaction>,
    /// The headers of the ommers. No block has ommers since EIP-3675.
    pub ommers: Vec<Header>,
    /// The withdrawals from the beacon chain, in order, or `None` in blocks before Shanghai.
    pub withdrawals: Option<Withdrawals>,
}

impl Encodable for Body {
    ghost item = { body.item };

    ghost fits = { body.Fits };

    fn rlp_append(&self, s: &mut RlpStream) -> Result<(), AllocError> {
        rlp::append_fields!(
            s,
            ListOf(&self.transactions),
            ListOf(&self.ommers),
            Optional(&self.withdrawals)
        )
    }
}

impl Record for Body {
    ghost reading = { body.reading };

    fn decode(alloc: Global, rlp: &Rlp<'_>) -> Result<Body, DecoderError> {
        rlp::decode_fields!(
            alloc,
            rlp,
            Body {
                transactions: [..],
                ommers: [..],
                withdrawals: ?
            }
        )
    }

    fn put_path(alloc: Global, rlp: &Rlp<'_>, path: &mut Vec<usize>) -> Result<(), AllocError> {
        rlp::put_struct_path!(
            alloc, rlp, path, ListField<AnyTransaction>, ListField<Header>;
            OptionalField<Withdrawals>
        )
    }

    ghost lawful = { body.reads_strictly };
}

impl Body {
    /// Reads a body strictly from its whole encoding, as [`rlp::decode_whole`] does, and returns it
    /// with the hashes of its transactions, in order, which their `hash` returns too. It hashes the
    /// bytes that it reads, and encodes nothing.
    ///
    /// Fails as [`rlp::decode_whole`] does.
    pub fn decode_with_hashes(
        alloc: Global,
        bytes: &[u8],
    ) -> Result<(Body, Vec<Hash>), DecoderError>
        ensures whole { IfOk result (λ r. body.Fits r.0 × (bytes.now ≡ encoding (body.item r.0))) }
        ensures transactions { IfOk result (λ r. AreHashesOf r.1.items
            (map bytes_alone (map any_transaction.item r.0.transactions.items))) }
        ensures fault { IfErr result
            (λ e. Faults body.reading (strict_view_of bytes.now) e ⊎ (e ≡ OutOfMemory)) }
        ensures memory { (b : Body) → body.Fits b → bytes.now ≡ encoding (body.item b)
            → IfErr result (λ e. e ≡ OutOfMemory) }
    {
        let body = rlp::decode_whole::<Body>(alloc, bytes)?;
        let transactions = hashes_at(alloc, bytes, 0)?;
        Ok((body, transactions))
    }
}
