//! Views of either kind, the faults, and items that are read and written.

use rlp::{DecoderError, RawItem, Rlp};
use std::alloc::{AllocError, Global};

/// The faults, in the order of their declaration.
pub const FAULTS: [DecoderError; 12] = [
    DecoderError::RlpIsTooBig,
    DecoderError::RlpIsTooShort,
    DecoderError::RlpExpectedToBeList,
    DecoderError::RlpExpectedToBeData,
    DecoderError::RlpIncorrectListLen,
    DecoderError::RlpDataLenWithZeroPrefix,
    DecoderError::RlpListLenWithZeroPrefix,
    DecoderError::RlpInvalidIndirection,
    DecoderError::RlpInconsistentLengthAndData,
    DecoderError::RlpInvalidLength,
    DecoderError::Custom("text"),
    DecoderError::OutOfMemory,
];

/// Returns a view of bytes, which is strict or lenient.
pub fn view_of<'a>(bytes: &'a [u8], strict: bool) -> Rlp<'a> {
    if strict {
        Rlp::new_strict(bytes)
    } else {
        Rlp::new(bytes)
    }
}

/// Returns whether an item of these bytes shows them.
fn shows(alloc: Global, bytes: &[u8]) -> bool {
    match RawItem::new(alloc, bytes) {
        Ok(item) => item.as_bytes() == bytes && item.rlp().as_raw() == bytes,
        Err(_) => false,
    }
}

/// Returns whether an item was read, and is written as these bytes.
fn is_written_as(
    alloc: Global,
    read: Result<RawItem, DecoderError>,
    bytes: &[u8],
) -> Result<bool, AllocError> {
    match read {
        Ok(item) => Ok(rlp::encode(alloc, &item)?.as_slice() == bytes),
        Err(_) => Ok(false),
    }
}

/// Returns whether an item of these bytes shows them, and is read from them strictly, and from a
/// longer input but not strictly. It is written as the bytes.
pub fn goes_both_ways(alloc: Global, bytes: &[u8]) -> Result<bool, AllocError> {
    let mut longer = Vec::from_slice(alloc, bytes)?;
    longer.push(0xff)?;
    let too_long = rlp::decode_strict::<RawItem>(alloc, longer.as_slice()).err();
    Ok(
        too_long == Some(DecoderError::RlpIsTooBig)
            && shows(alloc, bytes)
            && is_written_as(alloc, rlp::decode_strict(alloc, bytes), bytes)?
            && is_written_as(alloc, rlp::decode(alloc, longer.as_slice()), bytes)?,
    )
}
