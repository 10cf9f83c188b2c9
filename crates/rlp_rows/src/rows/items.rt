//! Bytes that differ from given bytes in one item.

use crate::rows::push_header;
use rlp::{DecoderError, Rlp};
use std::alloc::{AllocError, Global};

/// Returns the bytes of a record with `item` in place of one of its items. The header of each list
/// around it is made anew.
///
/// The path has the place of the item in each list, from the outermost. The item may be any bytes,
/// so it may be several items or none, and items may be added behind the last item of a list. A
/// byte below 80 before a list is the type of an envelope, and stays.
///
/// # Errors
///
/// The fault of a list on the path, or `OutOfMemory`.
pub fn with_item(
    alloc: Global,
    base: &[u8],
    path: &[usize],
    item: &[u8],
) -> Result<Vec<u8>, DecoderError> {
    let (front, record) = match base {
        [kind, ..] if *kind < 0x80 => base.split_at(1),
        _ => base.split_at(0),
    };
    let mut changed = Vec::from_slice(alloc, item)?;
    for depth in (0..path.len()).rev() {
        let (outer, inner) = path.split_at(depth);
        if let Some(place) = inner.first() {
            let list = item_at(record, outer)?;
            changed = list_with(alloc, &list, *place, changed.as_slice())?;
        }
    }
    let mut bytes = Vec::from_slice(alloc, front)?;
    bytes.extend_from_slice(changed.as_slice())?;
    Ok(bytes)
}

/// Returns the item at a path.
fn item_at<'a>(record: &'a [u8], path: &[usize]) -> Result<Rlp<'a>, DecoderError> {
    let mut item = Rlp::new(record);
    for place in path {
        item = item.at(*place)?;
    }
    Ok(item)
}

/// Returns the bytes of a list with other bytes in place of an item, or behind the last.
fn list_with(
    alloc: Global,
    list: &Rlp<'_>,
    place: usize,
    bytes: &[u8],
) -> Result<Vec<u8>, AllocError> {
    let mut payload = Vec::new(alloc);
    let mut is_placed = false;
    for (index, item) in list.iter().enumerate() {
        let kept = if index == place { bytes } else { item.as_raw() };
        is_placed = is_placed || index == place;
        payload.extend_from_slice(kept)?;
    }
    if !is_placed {
        payload.extend_from_slice(bytes)?;
    }
    payload.as_mut_slice().reverse();
    push_header(&mut payload)?;
    payload.as_mut_slice().reverse();
    Ok(payload)
}
