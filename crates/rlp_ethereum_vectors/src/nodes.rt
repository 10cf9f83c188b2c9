//! Nodes of the trie, their parts, and proofs of what tries have.

use crate::answers::bytes_of;
use crate::fields::text;
use crate::reading::item;
use crate::roots::told;
use rlp::{DecoderError, Encodable, RawItem};
use rlp_records::Hash;
use rlp_trie::{
    Child, Extension, ExtensionPath, InlineNode, Leaf, LeafPath, Path, TrieNode, ends_in_leaf,
    verify_proof,
};
use rlp_vectors::rows::Hex;
use std::alloc::{AllocError, Global};

/// The leaf of cat.
const CAT: &[u8] = b"\xc7\x82\x20\x12\x83cat";

/// Returns what a call about a node or a part of one answers.
pub(crate) fn answer(alloc: Global, name: &str, bytes: &[u8]) -> Result<String, DecoderError> {
    match name {
        "kept" => written(alloc, &inline(alloc, bytes)?),
        "leaf by" => {
            let (path, value) = (
                LeafPath::new(alloc, bytes)?,
                Vec::from_slice(alloc, b"coin")?,
            );
            written(alloc, &Leaf { path, value })
        }
        "extension by" => written(alloc, &extension(alloc, bytes, CAT)?),
        "extension by 17 to" => written(alloc, &extension(alloc, b"\x17", bytes)?),
        "nibbles" => match ends_in_leaf(bytes) {
            Some(true) => nibbles::<2>(alloc, "leaf", bytes),
            Some(false) => nibbles::<0>(alloc, "extension", bytes),
            None => Ok(String::from_str(alloc, "no path")?),
        },
        "of nibbles" => path_of::<2>(alloc, bytes),
        "of nibbles of an extension" => path_of::<0>(alloc, bytes),
        "changed" => text(alloc, first_unnoticed(alloc, bytes)?),
        _ => text(
            alloc,
            rlp::decode_strict::<TrieNode>(alloc, bytes)?.is_possible(),
        ),
    }
}

/// Returns the digits of what a node is written as.
fn written<T: Encodable>(alloc: Global, node: &T) -> Result<String, DecoderError> {
    Ok(hex::encode(alloc, rlp::encode(alloc, node)?.as_slice())?)
}

/// Returns the child with these bytes.
fn inline(alloc: Global, bytes: &[u8]) -> Result<Child, DecoderError> {
    Ok(Child::Inline(InlineNode::new(RawItem::new(alloc, bytes)?)?))
}

/// Returns the extension by a path to the child with these bytes.
fn extension(alloc: Global, path: &[u8], child: &[u8]) -> Result<Extension, DecoderError> {
    let child = inline(alloc, child)?;
    let path = ExtensionPath::new(alloc, path)?;
    Ok(Extension { path, child })
}

/// Returns the kind of a path, its nibbles, and the path of these nibbles.
fn nibbles<const FLAG: u8>(
    alloc: Global,
    kind: &str,
    bytes: &[u8],
) -> Result<String, DecoderError> {
    let nibbles = Path::<FLAG>::new(alloc, bytes)?.nibbles(alloc)?;
    let path = path_of::<FLAG>(alloc, nibbles.as_slice())?;
    Ok(format!(in alloc; "{kind} {:?} {path}", Hex(nibbles.as_slice()))?)
}

/// Returns the digits of the path of this kind with these nibbles.
fn path_of<const FLAG: u8>(alloc: Global, nibbles: &[u8]) -> Result<String, DecoderError> {
    let path = Path::<FLAG>::from_nibbles(alloc, nibbles)?;
    Ok(hex::encode(alloc, path.bytes.as_slice())?)
}

/// Returns the number of the first byte whose change is not noticed: the changed bytes are neither
/// refused nor read as the node that is written so.
fn first_unnoticed(alloc: Global, bytes: &[u8]) -> Result<Option<usize>, AllocError> {
    for place in 0..bytes.len() {
        let mut changed = Vec::from_slice(alloc, bytes)?;
        if let Some(byte) = changed.get_mut(place) {
            *byte ^= 0x20;
        }
        if is_read_otherwise(alloc, changed.as_slice()) {
            return Ok(Some(place));
        }
    }
    Ok(None)
}

/// Returns whether bytes are read as a node that is written as other bytes.
fn is_read_otherwise(alloc: Global, bytes: &[u8]) -> bool {
    match item::<TrieNode>(alloc, bytes) {
        Ok(again) => again.as_slice() != bytes,
        Err(found) => found == DecoderError::OutOfMemory,
    }
}

/// Returns what the trie with a root has for a key, as nodes prove it: `= ` and the digits of the
/// value, `none`, or the fault of the proof. Given are the digits of the root, the key and the nodes, with
/// blanks between.
pub(crate) fn proof(alloc: Global, given: &str) -> Result<String, DecoderError> {
    let mut parts = Vec::new(alloc);
    for word in given.split(' ') {
        parts.push(bytes_of(alloc, word)?)?;
    }
    let [root, key, nodes @ ..] = parts.as_slice() else {
        return Err(DecoderError::Custom("no root and key"));
    };
    let Ok(root) = <[u8; 32]>::try_from(root.as_slice()) else {
        return Err(DecoderError::Custom("no root"));
    };
    told(
        alloc,
        verify_proof(alloc, &Hash(root), key.as_slice(), nodes),
    )
}
