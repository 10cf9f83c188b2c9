//! Roots of the tries of ordered lists, and what the tries have.

use crate::answers::bytes_of;
use rlp::{DecoderError, Rlp};
use rlp_records::Hash;
use rlp_trie::{ProofFault, ordered_root, verify_item};
use rlp_vectors::rows::Hex;
use std::alloc::{AllocError, Global};

/// Returns the digits of the root of a list: of the strings of the list whose encoding the bytes
/// are, or of a made list, for the bytes of its length.
pub(crate) fn answer(alloc: Global, name: &str, bytes: &[u8]) -> Result<String, DecoderError> {
    let values = match name {
        "of values" => Rlp::new_strict(bytes).as_list::<Vec<u8>>(alloc)?,
        _ => made(alloc, number_of(alloc, bytes)?)?,
    };
    let mut slices = Vec::new(alloc);
    for value in &values {
        slices.push(value.as_slice())?;
    }
    let root = ordered_root(alloc, slices.as_slice())?;
    Ok(hex::encode(alloc, root.0.as_slice())?)
}

/// Returns the number of the string of these bytes, the most significant first.
fn number_of(alloc: Global, bytes: &[u8]) -> Result<u64, DecoderError> {
    let encoded = rlp::encode(alloc, &bytes)?;
    Rlp::new_strict(encoded.as_slice()).as_val(alloc)
}

/// Returns a made list: each value is the byte 1 and the list of its place.
fn made(alloc: Global, count: u64) -> Result<Vec<Vec<u8>>, AllocError> {
    let mut values = Vec::new(alloc);
    for place in 0..count {
        let list = rlp::encode_list(alloc, &[place])?;
        let mut value = Vec::from_slice(alloc, &[1])?;
        value.extend_from_slice(list.as_slice())?;
        values.push(value)?;
    }
    Ok(values)
}

/// Returns what the list with a root has at a place, as nodes prove it: `= ` and the digits of the
/// value, `none`, or the fault of the proof. Given are the digits of the root, the place and the
/// nodes, with blanks between.
pub(crate) fn item(alloc: Global, given: &str) -> Result<String, DecoderError> {
    let mut parts = Vec::new(alloc);
    for word in given.split(' ') {
        parts.push(bytes_of(alloc, word)?)?;
    }
    let [root, place, nodes @ ..] = parts.as_slice() else {
        return Err(DecoderError::Custom("no root and place"));
    };
    let Ok(root) = <[u8; 32]>::try_from(root.as_slice()) else {
        return Err(DecoderError::Custom("no root"));
    };
    let place = number_of(alloc, place.as_slice())?;
    told(alloc, verify_item(alloc, &Hash(root), place, nodes))
}

/// Returns what a proof gives, as text.
pub(crate) fn told(
    alloc: Global,
    given: Result<Option<Vec<u8>>, ProofFault>,
) -> Result<String, DecoderError> {
    match given {
        Ok(Some(value)) => Ok(format!(in alloc; "= {:?}", Hex(value.as_slice()))?),
        Ok(None) => Ok(String::from_str(alloc, "none")?),
        Err(fault) => Ok(format!(in alloc; "{fault}")?),
    }
}
