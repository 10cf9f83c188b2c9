//! Messages of the protocol `eth` that say what a client knows of the chain.

ghost use Rattle.rlp_messages.specs.Eth.Status.{fork_hash, fork_id, status68, status69};

use rlp::{DecoderError, Encodable, Record, Rlp, RlpStream, Uint};
use rlp_records::Hash;
use std::alloc::{AllocError, Global};

/// The checksum of the forks that a client knows, as in EIP-2124: 4 bytes.
#[derive(Debug, Clone, Copy, PartialEq, Eq)]
pub struct ForkHash(pub [u8; 4]);

/// Written as the array of its bytes.
impl Encodable for ForkHash {
    ghost item = { fork_hash.item };

    ghost fits = { fork_hash.Fits };

    fn rlp_append(&self, s: &mut RlpStream) -> Result<(), AllocError> {
        self.0.rlp_append(s)
    }
}

/// Read as an array of 4 bytes. Fails with `RlpIsTooShort` if the string is shorter, and with
/// `RlpIsTooBig` if it is longer. It doesn't allocate.
impl Record for ForkHash {
    ghost reading = { fork_hash.reading };

    fn decode(alloc: Global, rlp: &Rlp<'_>) -> Result<ForkHash, DecoderError> {
        Ok(ForkHash(rlp.as_val(alloc)?))
    }

    fn put_path(_alloc: Global, _rlp: &Rlp<'_>, _path: &mut Vec<usize>) -> Result<(), AllocError> {
        Ok(())
    }

    ghost lawful = { fork_hash.reads_strictly };
}

/// The forks that a client knows: the list of the two fields, as in EIP-2124.
#[derive(Debug, Clone, Copy, PartialEq, Eq)]
pub struct ForkId {
    /// The checksum of the hash of block 0 and of the forks so far.
    pub fork_hash: ForkHash,
    /// The number or the time of the next fork, or 0.
    pub fork_next: u64,
}

impl Encodable for ForkId {
    ghost item = { fork_id.item };

    ghost fits = { fork_id.Fits };

    fn rlp_append(&self, s: &mut RlpStream) -> Result<(), AllocError> {
        rlp::append_fields!(s, &self.fork_hash, &self.fork_next)
    }
}

impl Record for ForkId {
    ghost reading = { fork_id.reading };

    fn decode(alloc: Global, rlp: &Rlp<'_>) -> Result<ForkId, DecoderError> {
        rlp::decode_fields!(
            alloc,
            rlp,
            ForkId {
                fork_hash,
                fork_next
            }
        )
    }

    fn put_path(alloc: Global, rlp: &Rlp<'_>, path: &mut Vec<usize>) -> Result<(), AllocError> {
        rlp::put_struct_path!(alloc, rlp, path, ForkHash, u64)
    }

    ghost lawful = { fork_id.reads_strictly };
}

/// The first message of `eth/68`, 0x00: the list of its six fields.
#[derive(Debug, Clone, Copy, PartialEq, Eq)]
pub struct Status68 {
    /// The version of the protocol: 68.
    pub version: u64,
    /// The number of the network.
    pub network_id: u64,
    /// The sum of the difficulties up to the best block.
    pub total_difficulty: Uint<32>,
    /// The hash of the best block that the client knows.
    pub block_hash: Hash,
    /// The hash of block 0.
    pub genesis_hash: Hash,
    /// The forks that the client knows.
    pub fork_id: ForkId,
}

impl Encodable for Status68 {
    ghost item = { status68.item };

    ghost fits = { status68.Fits };

    fn rlp_append(&self, s: &mut RlpStream) -> Result<(), AllocError> {
        rlp::append_fields!(
            s,
            &self.version,
            &self.network_id,
            &self.total_difficulty,
            &self.block_hash,
            &self.genesis_hash,
            &self.fork_id
        )
    }
}

impl Record for Status68 {
    ghost reading = { status68.reading };

    fn decode(alloc: Global, rlp: &Rlp<'_>) -> Result<Status68, DecoderError> {
        rlp::decode_fields!(
            alloc,
            rlp,
            Status68 {
                version,
                network_id,
                total_difficulty,
                block_hash,
                genesis_hash,
                fork_id
            }
        )
    }

    fn put_path(alloc: Global, rlp: &Rlp<'_>, path: &mut Vec<usize>) -> Result<(), AllocError> {
        rlp::put_struct_path!(alloc, rlp, path, u64, u64, Uint<32>, Hash, Hash, ForkId)
    }

    ghost lawful = { status68.reads_strictly };
}

/// The first message of `eth/69`, 0x00: the list of its seven fields, as in EIP-7642.
#[derive(Debug, Clone, Copy, PartialEq, Eq)]
pub struct Status69 {
    /// The version of the protocol: 69.
    pub version: u64,
    /// The number of the network.
    pub network_id: u64,
    /// The hash of block 0.
    pub genesis_hash: Hash,
    /// The forks that the client knows.
    pub fork_id: ForkId,
    /// The number of the earliest block that the client has in full.
    pub earliest_block: u64,
    /// The number of the latest block.
    pub latest_block: u64,
    /// The hash of the latest block.
    pub latest_block_hash: Hash,
}

impl Encodable for Status69 {
    ghost item = { status69.item };

    ghost fits = { status69.Fits };

    fn rlp_append(&self, s: &mut RlpStream) -> Result<(), AllocError> {
        rlp::append_fields!(
            s,
            &self.version,
            &self.network_id,
            &self.genesis_hash,
            &self.fork_id,
            &self.earliest_block,
            &self.latest_block,
            &self.latest_block_hash
        )
    }
}

impl Record for Status69 {
    ghost reading = { status69.reading };

    fn decode(alloc: Global, rlp: &Rlp<'_>) -> Result<Status69, DecoderError> {
        rlp::decode_fields!(
            alloc,
            rlp,
            Status69 {
                version,
                network_id,
                genesis_hash,
                fork_id,
                earliest_block,
                latest_block,
                latest_block_hash
            }
        )
    }

    fn put_path(alloc: Global, rlp: &Rlp<'_>, path: &mut Vec<usize>) -> Result<(), AllocError> {
        rlp::put_struct_path!(alloc, rlp, path, u64, u64, Hash, ForkId, u64, u64, Hash)
    }

    ghost lawful = { status69.reads_strictly };
}
