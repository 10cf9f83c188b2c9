//! Uses of bound blocks: an index over a stream of blocks, and a balance that a hash binds.

use crate::answers::bytes_of;
use rlp::{DecoderError, Uint};
use rlp_blocks::{BlockFault, BoundBlock};
use rlp_headers::Account;
use rlp_records::{Address, Hash};
use rlp_state::{ProvedState, SlotProof, StateFault, StateProof, verify_account, verify_slot};
use rlp_stream::read_item;
use rlp_vectors::rows::Hex;
use std::alloc::{AllocError, Global};
use std::io::Read;

/// The most bytes of a block that is read. A block of Ethereum has at most 8 MiB, by EIP-7934.
const MOST: usize = 8 << 20;

/// Returns the number, the hash and the count of transactions of each block of a stream, such as
/// `geth export` writes, or the fault of a block. It ends with the first fault of the stream. One
/// block is in memory at a time.
fn index<R: Read>(alloc: Global, blocks: &mut R) -> Result<String, AllocError> {
    let mut lines = String::new(alloc);
    let mut item = Vec::new(alloc);
    for _ in 0..u64::MAX {
        match read_item(blocks, MOST, &mut item) {
            Ok(true) => lines.push_str(line_of(alloc, item.as_slice())?.as_str())?,
            Ok(false) => return Ok(lines),
            Err(fault) => {
                lines.push_str(format!(in alloc; "{fault}")?.as_str())?;
                return Ok(lines);
            }
        }
    }
    Ok(lines)
}

/// Returns the number of a block, its hash and the count of its transactions, or the fault.
fn line_of(alloc: Global, bytes: &[u8]) -> Result<String, AllocError> {
    match BoundBlock::from_bytes(alloc, bytes) {
        Ok(block) => {
            let number = block.block().header.number;
            let count = block.transaction_hashes().len();
            format!(in alloc; "{number} {:?} {count};", Hex(block.hash().0.as_slice()))
        }
        Err(fault) => format!(in alloc; "{fault};"),
    }
}

/// Why a balance isn't known.
#[derive(Debug, Drop)]
enum LightFault {
    /// The bytes aren't the block with the hash.
    Block(BlockFault),
    /// The nodes don't prove the account.
    State(StateFault),
}

impl From<BlockFault> for LightFault {
    fn from(fault: BlockFault) -> LightFault {
        LightFault::Block(fault)
    }
}

impl From<StateFault> for LightFault {
    fn from(fault: StateFault) -> LightFault {
        LightFault::State(fault)
    }
}

/// Returns the balance of an account after the block with a hash. The block and the nodes of the
/// trie of the state may come from anyone.
fn balance(
    alloc: Global,
    hash: &Hash,
    block: &[u8],
    address: &Address,
    nodes: &[Vec<u8>],
) -> Result<Uint<32>, LightFault> {
    let block = BoundBlock::of_hash(alloc, hash, block)?;
    let state_root = &block.block().header.state_root;
    match verify_account(alloc, state_root, address, nodes)? {
        Some(account) => Ok(account.balance),
        None => Ok(Uint::from(0)),
    }
}

/// Returns the index of a stream of these bytes.
pub(crate) fn tell_index(alloc: Global, bytes: &[u8]) -> Result<String, DecoderError> {
    let mut stream = bytes;
    Ok(index(alloc, &mut stream)?)
}

/// Returns the parts of what is given: the bytes of digits with blanks between.
fn parts_of(alloc: Global, given: &str) -> Result<Vec<Vec<u8>>, DecoderError> {
    let mut parts = Vec::new(alloc);
    for word in given.split(' ') {
        parts.push(bytes_of(alloc, word)?)?;
    }
    Ok(parts)
}

/// Returns an array of these bytes.
fn array<const N: usize>(bytes: &[u8]) -> Result<[u8; N], DecoderError> {
    match <[u8; N]>::try_from(bytes) {
        Ok(array) => Ok(array),
        Err(_) => Err(DecoderError::Custom("bytes of another length")),
    }
}

/// Returns the balance of an account, or the fault, for a hash, a block, an address and nodes.
pub(crate) fn tell_balance(alloc: Global, given: &str) -> Result<String, DecoderError> {
    let parts = parts_of(alloc, given)?;
    let [hash, block, address, nodes @ ..] = parts.as_slice() else {
        return Err(DecoderError::Custom("no hash, block and address"));
    };
    let hash = Hash(array(hash.as_slice())?);
    let address = Address(array(address.as_slice())?);
    match balance(alloc, &hash, block.as_slice(), &address, nodes) {
        Ok(balance) => Ok(format!(in alloc; "{balance}")?),
        Err(LightFault::Block(fault)) => Ok(format!(in alloc; "Block({fault})")?),
        Err(LightFault::State(fault)) => Ok(format!(in alloc; "State({fault})")?),
    }
}

/// Returns an account, or the fault, for a root, an address and nodes.
pub(crate) fn tell_proved(alloc: Global, given: &str) -> Result<String, DecoderError> {
    let parts = parts_of(alloc, given)?;
    let [root, address, nodes @ ..] = parts.as_slice() else {
        return Err(DecoderError::Custom("no root and address"));
    };
    let root = Hash(array(root.as_slice())?);
    let address = Address(array(address.as_slice())?);
    match verify_account(alloc, &root, &address, nodes) {
        Ok(account) => account_text(alloc, &account),
        Err(fault) => Ok(format!(in alloc; "{fault}")?),
    }
}

/// Returns the digits of the encoding of an account, or `none`.
fn account_text(alloc: Global, account: &Option<Account>) -> Result<String, DecoderError> {
    match account {
        Some(account) => {
            let bytes = rlp::encode(alloc, account)?;
            Ok(format!(in alloc; "= {:?}", Hex(bytes.as_slice()))?)
        }
        None => Ok(String::from_str(alloc, "none")?),
    }
}

/// Returns the number in a slot, or the fault, for a root, the slot and nodes.
pub(crate) fn tell_slot(alloc: Global, given: &str) -> Result<String, DecoderError> {
    let parts = parts_of(alloc, given)?;
    let [root, slot, nodes @ ..] = parts.as_slice() else {
        return Err(DecoderError::Custom("no root and slot"));
    };
    let root = Hash(array(root.as_slice())?);
    match verify_slot(alloc, &root, &array(slot.as_slice())?, nodes) {
        Ok(number) => Ok(format!(in alloc; "{number}")?),
        Err(fault) => Ok(format!(in alloc; "{fault}")?),
    }
}

/// Returns an account and the numbers in slots of its storage, or the fault, for a root, an address
/// and nodes, and behind each ` / ` a slot and nodes.
pub(crate) fn tell_state(alloc: Global, given: &str) -> Result<String, DecoderError> {
    let mut groups = Vec::new(alloc);
    for group in given.split(" / ") {
        groups.push(parts_of(alloc, group)?)?;
    }
    let [account, slots @ ..] = groups.as_slice() else {
        return Err(DecoderError::Custom("no account"));
    };
    let [root, address, account_nodes @ ..] = account.as_slice() else {
        return Err(DecoderError::Custom("no root and address"));
    };
    let root = Hash(array(root.as_slice())?);
    let proofs = slot_proofs(alloc, slots)?;
    let proof = StateProof {
        address: Address(array(address.as_slice())?),
        account_nodes,
        slots: proofs.as_slice(),
    };
    match proof.verify(alloc, &root) {
        Ok(proved) => state_text(alloc, &proved),
        Err(fault) => Ok(format!(in alloc; "{fault}")?),
    }
}

/// Returns the proofs of slots, each of a slot and nodes.
fn slot_proofs<'a>(
    alloc: Global,
    groups: &'a [Vec<Vec<u8>>],
) -> Result<Vec<SlotProof<'a>>, DecoderError> {
    let mut proofs = Vec::new(alloc);
    for group in groups {
        let [slot, nodes @ ..] = group.as_slice() else {
            return Err(DecoderError::Custom("no slot"));
        };
        let slot = array(slot.as_slice())?;
        proofs.push(SlotProof { slot, nodes })?;
    }
    Ok(proofs)
}

/// Returns the text of an account and of the numbers in slots.
fn state_text(alloc: Global, proved: &ProvedState) -> Result<String, DecoderError> {
    let mut text = account_text(alloc, &proved.account)?;
    for number in &proved.slots {
        text.push_str(format!(in alloc; " {number}")?.as_str())?;
    }
    Ok(text)
}
