//! Blocks whose bodies are the bodies that their headers name.

ghost use Rattle.std.specs.Prelude.{◌≡◌, ◌∷◌, ◌++◌, ◌⊎◌, IfErr, IfOk, List, MatchResult, Some, length, map};
ghost use Rattle.rlp.specs.{DecoderError.TheVariants.OutOfMemory, Format.Encoding.{Item, encoding, list_of}};
ghost use Rattle.rlp_records.specs.{Alone.bytes_alone, Hashing.{AreHashesOf, IsHashOf}};
ghost use Rattle.rlp_blocks.specs.{Block.{block, block_of}, BlockFaults.{IsFaultFor, IsFaultOf}, Bound.{IsBound, header_bytes}, Roots.transaction_values};
ghost use Rattle.rlp_blocks.specs.BoundBlock.{AreBlockHashes, AreRootsOf, IsBoundBlock, IsEncodingOf, IsRootOf, IsWithdrawalsRoot, NamesBody, body_fault};
ghost use Rattle.rlp_blocks.specs.declared.{block.Block.Block, bound.BlockFault.TheVariants.OutOfMemory as no_memory, roots.BodyFault.TheVariants.OutOfMemory as no_memory_for_body};

use crate::hashes::{hash_at, hashes_at, values_at};
use crate::{Block, BlockHashes, Body, BodyFault, BodyRoots};
use rlp::DecoderError;
use rlp_headers::Header;
use rlp_records::Hash;
use rlp_trie::laws::slices_are_listed;
use rlp_trie::ordered_root;
use std::alloc::Global;
use std::error::Error;
use std::fmt;
use std::marker::Model;

/// A block whose body is the body that its header names: the roots of its transactions and of its
/// withdrawals and the hash of the list of its ommers stand in its header, as in section 4.3 of the
/// yellow paper, EIP-2718 and EIP-4895. So the hash of the header stands for the whole block.
///
/// It is kept with the hash of its header, which names the block, and with the hashes of its
/// transactions. Contracts see a bound block as the block and these hashes.
#[derive(Debug, Drop)]
pub struct BoundBlock {
    block: Block,
    hashes: BlockHashes,
}

impl Model for BoundBlock {
    ghost use Rattle.std.specs.Vec.{vec_items};
    ghost use Rattle.rlp_blocks.specs.BoundBlock.{HashedBlock, IsBoundBlock};

    ghost Value = { HashedBlock };

    ghost view = { λ b. record { block = b.block; hash = b.hashes.header; transaction_hashes = vec_items b.hashes.transactions } };

    ghost invariant = { λ b. IsBoundBlock (record { block = b.block; hash = b.hashes.header; transaction_hashes = vec_items b.hashes.transactions }) };
}

impl BoundBlock {
    /// Returns the block with this header and this body, if the body is the body that the header
    /// names.
    ///
    /// Fails with the first difference, in the order of [`BodyRoots::check`], and with
    /// `OutOfMemory` if memory is refused.
    pub fn new(alloc: Global, header: Header, body: Body) -> Result<BoundBlock, BodyFault>
        ensures block { IfOk result (λ b. b.block ≡ block_of header body) }
        ensures bound { IfOk result (λ b. IsBoundBlock b) }
        ensures fault { IfErr result (λ f. (body_fault (block_of header body) ≡ Some f)
            ⊎ (f ≡ no_memory_for_body)) }
        ensures memory { NamesBody (block_of header body)
            → IfErr result (λ f. f ≡ no_memory_for_body) }
    {
        let Body {
            transactions,
            ommers,
            withdrawals,
        } = body;
        let block = Block {
            header,
            transactions,
            ommers,
            withdrawals,
        };
        let encoding = rlp::encode(alloc, &block)?;
        let Ok(hashes) = block_hashes(alloc, encoding.as_slice(), &block) else {
            return Err(BodyFault::OutOfMemory);
        };
        bound(alloc, encoding.as_slice(), block, hashes)
    }

    /// Reads a block strictly from its whole encoding, as [`rlp::decode_whole`] does, and returns it
    /// if its body is the body that its header names. It hashes the bytes that it reads, and encodes
    /// nothing but the nodes of the tries.
    ///
    /// Fails with `Unread` as [`rlp::decode_whole`] does, then with `OtherBody` and the first
    /// difference, in the order of [`BodyRoots::check`], and with `OutOfMemory` if memory is
    /// refused. It never fails with `OtherHash`.
    pub fn from_bytes(alloc: Global, bytes: &[u8]) -> Result<BoundBlock, BlockFault>
        ensures block { IfOk result (λ b. IsEncodingOf bytes.now b.block) }
        ensures bound { IfOk result (λ b. IsBoundBlock b) }
        ensures fault { IfErr result (λ f. IsFaultOf bytes.now f) }
        ensures memory { (b : Block) → IsBound b → IsEncodingOf bytes.now b
            → IfErr result (λ f. f ≡ no_memory) }
    {
        let (block, hashes) = Block::decode_with_hashes(alloc, bytes)?;
        Ok(bound(alloc, bytes, block, hashes)?)
    }

    /// Reads the block with this hash strictly from its whole encoding, as [`BoundBlock::from_bytes`]
    /// does. A caller who knows the hash of a block learns the whole block from bytes that anyone
    /// sends.
    ///
    /// Fails with `Unread` as [`rlp::decode_whole`] does, then with `OtherHash` if the hash of the
    /// header is another one, then with `OtherBody` and the first difference, in the order of
    /// [`BodyRoots::check`], and with `OutOfMemory` if memory is refused.
    pub fn of_hash(alloc: Global, hash: &Hash, bytes: &[u8]) -> Result<BoundBlock, BlockFault>
        ensures block { IfOk result (λ b. IsEncodingOf bytes.now b.block) }
        ensures hash { IfOk result (λ b. b.hash ≡ hash.now) }
        ensures bound { IfOk result (λ b. IsBoundBlock b) }
        ensures fault { IfErr result (λ f. IsFaultFor hash.now.0 bytes.now f) }
        ensures memory { (b : Block) → IsBound b → IsEncodingOf bytes.now b
            → IsHashOf hash.now (header_bytes b) → IfErr result (λ f. f ≡ no_memory) }
    {
        let (block, hashes) = Block::decode_with_hashes(alloc, bytes)?;
        if hashes.header != *hash {
            return Err(BlockFault::OtherHash);
        }
        Ok(bound(alloc, bytes, block, hashes)?)
    }

    /// Returns the block.
    pub fn block(&self) -> &Block
        ensures block { result.now ≡ self.now.block }
        ensures bound { IsBound result.now }
    {
        &self.block
    }

    /// Returns the hash of the header, which names the block.
    pub fn hash(&self) -> &Hash
        ensures hash { result.now ≡ self.now.hash }
        ensures header { IsHashOf result.now (header_bytes self.now.block) }
    {
        &self.hashes.header
    }

    /// Returns the hashes of the transactions, in order: of each the hash of its standalone bytes,
    /// which names the transaction.
    pub fn transaction_hashes(&self) -> &[Hash]
        ensures hashes { result.now ≡ self.now.transaction_hashes }
        ensures transactions { AreHashesOf result.now
            (transaction_values self.now.block.transactions.items) }
    {
        self.hashes.transactions.as_slice()
    }

    /// Returns the block, and drops the hashes.
    pub fn into_block(self) -> Block
        ensures block { result ≡ self.block }
        ensures bound { IsBound result }
    {
        self.block
    }
}

/// Returns the root of the trie of the items of the list that is at a place of a list, whose whole
/// encoding the bytes are.
fn root_at(alloc: Global, bytes: &[u8], place: usize) -> Result<Hash, DecoderError>
    ensures { (before after xs : List Item) → place ≡ length before
        → bytes.now ≡ encoding (list_of (before ++ list_of xs ∷ after))
        → MatchResult result (λ h. IsRootOf h (map bytes_alone xs)) (λ e. e ≡ OutOfMemory) }
{
    let values = values_at(alloc, bytes, place)?;
    slices_are_listed(values.as_slice());
    Ok(ordered_root(alloc, values.as_slice())?)
}

/// Returns the root of the withdrawals of a block, from the bytes of the block.
fn withdrawals_root(
    alloc: Global,
    bytes: &[u8],
    block: &Block,
) -> Result<Option<Hash>, DecoderError>
    requires { IsEncodingOf bytes.now block.now }
    ensures { MatchResult result (λ root. IsWithdrawalsRoot root block.now.withdrawals)
        (λ e. e ≡ OutOfMemory) }
{
    match &block.withdrawals {
        Some(_) => Ok(Some(root_at(alloc, bytes, 3)?)),
        None => Ok(None),
    }
}

/// Returns the roots of the body of a block, from the bytes of the block.
fn block_roots(alloc: Global, bytes: &[u8], block: &Block) -> Result<BodyRoots, DecoderError>
    requires { IsEncodingOf bytes.now block.now }
    ensures { MatchResult result (λ roots. AreRootsOf roots block.now) (λ e. e ≡ OutOfMemory) }
{
    let transactions = root_at(alloc, bytes, 1)?;
    let ommers = hash_at(bytes, 2)?;
    let withdrawals = withdrawals_root(alloc, bytes, block)?;
    Ok(BodyRoots {
        transactions,
        ommers,
        withdrawals,
    })
}

/// Returns the hashes of a block, from the bytes of the block.
fn block_hashes(alloc: Global, bytes: &[u8], block: &Block) -> Result<BlockHashes, DecoderError>
    requires { IsEncodingOf bytes.now block.now }
    ensures { MatchResult result (λ hashes. AreBlockHashes hashes block.now)
        (λ e. e ≡ OutOfMemory) }
{
    let header = hash_at(bytes, 0)?;
    let transactions = hashes_at(alloc, bytes, 1)?;
    Ok(BlockHashes {
        header,
        transactions,
    })
}

/// Returns the bound block of a block and its hashes, from the bytes of the block.
fn bound(
    alloc: Global,
    bytes: &[u8],
    block: Block,
    hashes: BlockHashes,
) -> Result<BoundBlock, BodyFault>
    requires encoding { IsEncodingOf bytes.now block }
    requires hashes { AreBlockHashes hashes block }
    ensures block { IfOk result (λ b. (b.block ≡ block) × (b.hash ≡ hashes.header)) }
    ensures fault { IfErr result (λ f. (body_fault block ≡ Some f) ⊎ (f ≡ no_memory_for_body)) }
    ensures memory { NamesBody block → IfErr result (λ f. f ≡ no_memory_for_body) }
{
    let Ok(roots) = block_roots(alloc, bytes, &block) else {
        return Err(BodyFault::OutOfMemory);
    };
    BodyRoots::of_header(&block.header).check(&roots)?;
    Ok(BoundBlock { block, hashes })
}

/// Why bytes give no bound block.
#[derive(Debug, PartialEq, Eq, Drop)]
pub enum BlockFault {
    /// The bytes aren't the encoding of a block. The fault is the fault of reading them strictly,
    /// and is never `OutOfMemory`.
    Unread(DecoderError),
    /// The hash of the header is another one.
    OtherHash,
    /// The body isn't the body that the header names. The fault is never `OutOfMemory`.
    OtherBody(BodyFault),
    /// Memory was refused.
    OutOfMemory,
}

/// Prints the variant's name, and for `Unread` and `OtherBody` also the fault, as in
/// `Unread(RlpIsTooShort)` and `OtherBody(Ommers)`.
impl fmt::Display for BlockFault {
    ghost use Rattle.rlp_blocks.specs.BlockFaults.{block_fault_text};

    ghost output = { λ e. Some (block_fault_text e) };

    fn fmt<W: fmt::Write>(&self, f: &mut fmt::Formatter<W>) -> fmt::Result {
        match self {
            BlockFault::Unread(fault) => write!(f, "Unread({fault})"),
            BlockFault::OtherHash => f.write_str("OtherHash"),
            BlockFault::OtherBody(fault) => write!(f, "OtherBody({fault})"),
            BlockFault::OutOfMemory => f.write_str("OutOfMemory"),
        }
    }
}

impl Error for BlockFault {}

/// Refused memory is `BlockFault::OutOfMemory`, and any other fault is `Unread`.
impl From<DecoderError> for BlockFault {
    ghost use Rattle.rlp_blocks.specs.BlockFaults.{unread};

    ghost from_gives = { λ e fault. fault ≡ unread e };

    fn from(fault: DecoderError) -> BlockFault {
        match fault {
            DecoderError::OutOfMemory => BlockFault::OutOfMemory,
            fault => BlockFault::Unread(fault),
        }
    }
}

/// Refused memory is `BlockFault::OutOfMemory`, and any other fault is `OtherBody`.
impl From<BodyFault> for BlockFault {
    ghost use Rattle.rlp_blocks.specs.BlockFaults.{other_body};

    ghost from_gives = { λ f fault. fault ≡ other_body f };

    fn from(fault: BodyFault) -> BlockFault {
        match fault {
            BodyFault::OutOfMemory => BlockFault::OutOfMemory,
            fault => BlockFault::OtherBody(fault),
        }
    }
}
