//! Headers of the blocks of all forks up to Amsterdam.

ghost use Rattle.std.specs.{Option.option_copied, Prelude.{◌≡◌, IfOk, OnOk}};
ghost use Rattle.rlp.specs.Format.Encoding.{encoding};
ghost use Rattle.rlp_records.specs.Hashing.{IsHashOf};
ghost use Rattle.rlp_headers.specs.Header.{header, since_amsterdam, since_cancun, since_prague, since_shanghai};

mod forks;

use crate::Bloom;
pub use forks::{Amsterdam, Cancun, London, Prague, Shanghai};
use rlp::{DecoderError, Encodable, OptionalGroup, OptionalGroupOf, Record, Rlp, RlpStream, Uint};
use rlp_records::{Address, Hash, encoding_hash};
use std::alloc::{AllocError, Global};

/// The header of a block: the list of fifteen fields, and of the fields that later forks added.
///
/// See section 4.4 of the yellow paper, and the EIPs of the fields. A list of 15 items is a header
/// of the first forks, and a list of 16, 17, 20, 21 or 22 items is a header since [`London`],
/// [`Shanghai`], [`Cancun`], [`Prague`] or [`Amsterdam`]; a header since Amsterdam that also has
/// the slot's number has 23 items. A list with any other number of items fails with
/// `RlpIncorrectListLen`. A header that has the fields of a fork also has the fields of every
/// earlier fork.
///
/// This type reads the headers of Ethereum and of chains with the same forks. It doesn't read the
/// headers of a chain that leaves out fields of a fork, such as a list of 18 or 19 items.
#[derive(Debug, Clone, PartialEq, Eq, Drop)]
pub struct Header {
    /// The hash of the parent's header.
    pub parent_hash: Hash,
    /// The hash of the list of ommers.
    pub ommers_hash: Hash,
    /// The account that receives the fees of the block.
    pub beneficiary: Address,
    /// The root of the trie of the state, after the block.
    pub state_root: Hash,
    /// The root of the trie of the block's transactions.
    pub transactions_root: Hash,
    /// The root of the trie of the block's receipts.
    pub receipts_root: Hash,
    /// The filter of the logs of the block's receipts.
    pub logs_bloom: Bloom,
    /// The difficulty of the block, and 0 since EIP-3675.
    pub difficulty: Uint<32>,
    /// The number of blocks before this one.
    pub number: u64,
    /// The gas that the block's transactions may use at most.
    pub gas_limit: u64,
    /// The gas that the block's transactions used.
    pub gas_used: u64,
    /// The time of the block, in seconds since the beginning of 1970.
    pub timestamp: u64,
    /// Bytes that the block's maker chose. The protocol allows at most 32; this type has no limit.
    pub extra_data: Vec<u8>,
    /// A hash of the proof of work, and since EIP-4399 the random value of the beacon chain.
    pub mix_hash: Hash,
    /// The nonce of the proof of work: 8 bytes.
    pub nonce: [u8; 8],
    /// What came with London and later, or `None` in blocks before London.
    pub since_london: Option<London>,
}

impl Header {
    /// What came with Shanghai and later, or `None` in blocks before Shanghai.
    pub fn shanghai(&self) -> Option<&Shanghai>
        ensures { option_copied result ≡ since_shanghai self.now }
    {
        match &self.since_london {
            Some(london) => london.since_shanghai.as_ref(),
            None => None,
        }
    }

    /// What came with Cancun and later, or `None` in blocks before Cancun.
    pub fn cancun(&self) -> Option<&Cancun>
        ensures { option_copied result ≡ since_cancun self.now }
    {
        match self.shanghai() {
            Some(shanghai) => shanghai.since_cancun.as_ref(),
            None => None,
        }
    }

    /// What came with Prague and later, or `None` in blocks before Prague.
    pub fn prague(&self) -> Option<&Prague>
        ensures { option_copied result ≡ since_prague self.now }
    {
        match self.cancun() {
            Some(cancun) => cancun.since_prague.as_ref(),
            None => None,
        }
    }

    /// What came with Amsterdam, or `None` in blocks before Amsterdam.
    pub fn amsterdam(&self) -> Option<&Amsterdam>
        ensures { option_copied result ≡ since_amsterdam self.now }
    {
        match self.prague() {
            Some(prague) => prague.since_amsterdam.as_ref(),
            None => None,
        }
    }
}

impl Encodable for Header {
    ghost item = { header.item };

    ghost fits = { header.Fits };

    fn rlp_append(&self, s: &mut RlpStream) -> Result<(), AllocError> {
        rlp::append_fields!(
            s,
            &self.parent_hash,
            &self.ommers_hash,
            &self.beneficiary,
            &self.state_root,
            &self.transactions_root,
            &self.receipts_root,
            &self.logs_bloom,
            &self.difficulty,
            &self.number,
            &self.gas_limit,
            &self.gas_used,
            &self.timestamp,
            &self.extra_data,
            &self.mix_hash,
            &self.nonce,
            OptionalGroupOf(&self.since_london)
        )
    }
}

impl Record for Header {
    ghost reading = { header.reading };

    fn decode(alloc: Global, rlp: &Rlp<'_>) -> Result<Header, DecoderError> {
        rlp::decode_fields!(
            alloc,
            rlp,
            Header {
                parent_hash,
                ommers_hash,
                beneficiary,
                state_root,
                transactions_root,
                receipts_root,
                logs_bloom,
                difficulty,
                number,
                gas_limit,
                gas_used,
                timestamp,
                extra_data,
                mix_hash,
                nonce,
                since_london: (..)?
            }
        )
    }

    fn put_path(alloc: Global, rlp: &Rlp<'_>, path: &mut Vec<usize>) -> Result<(), AllocError> {
        rlp::put_struct_path!(
            alloc, rlp, path, Hash, Hash, Address, Hash, Hash, Hash, Bloom, Uint<32>, u64, u64, u64,
            u64, Vec<u8>, Hash, [u8; 8]; OptionalGroup<London>
        )
    }

    ghost lawful = { header.reads_strictly };
}

impl Header {
    /// Returns the hash of the block: the hash of the encoding of its header.
    pub fn hash(&self, alloc: Global) -> Result<Hash, AllocError>
        ensures fits { OnOk result (header.Fits self.now) }
        ensures hash { IfOk result (λ h. IsHashOf h (encoding (header.item self.now))) }
    {
        encoding_hash::<Header>(alloc, self)
    }
}
