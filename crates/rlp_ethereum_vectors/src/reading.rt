//! Ways to read bytes as a value and to write the value again, and reading with a bound on the number
//! of items.

use bytes::BytesMut;
use rlp::{Decodable, DecoderError, Encodable, StrictRead};
use rlp_blocks::{Block, Body};
use rlp_headers::Withdrawal;
use rlp_messages::{Eth68Message, Eth69Message};
use rlp_p2p::{Message, MessageBounds, P2pMessage};
use rlp_records::{Eip2718, Enveloped, KnownOrOther, decode_at_most};
use rlp_transactions::{AnyTransaction, Signed, Tagged, Transaction, TypedTransaction};
use rlp_vectors::rows::{cut, number};
use std::alloc::Global;

/// What a value that was read is written as, or the fault of the bytes.
pub(crate) type Again = Result<BytesMut, DecoderError>;

/// Reads an item strictly. The fault is another if lenient reading gives something else, unless only
/// strict reading fails: `OutOfMemory` if strict reading doesn't fail.
pub(crate) fn item<T: Encodable + Decodable>(alloc: Global, bytes: &[u8]) -> Again {
    let strict = written(alloc, rlp::decode_strict::<T>(alloc, bytes));
    let lenient = written(alloc, rlp::decode::<T>(alloc, bytes));
    if is_same(&strict, &lenient) {
        strict
    } else if strict.is_err() {
        Err(DecoderError::Custom("another fault leniently"))
    } else {
        Err(DecoderError::OutOfMemory)
    }
}

/// Returns what a value that was read is written as, or the fault.
fn written<T: Encodable + Decodable>(alloc: Global, read: Result<T, DecoderError>) -> Again {
    Ok(rlp::encode(alloc, &read?)?)
}

/// Returns whether strict and lenient reading give the same, or only strict reading fails.
fn is_same(strict: &Again, lenient: &Again) -> bool {
    match (strict, lenient) {
        (Ok(strict), Ok(lenient)) => strict.as_slice() == lenient.as_slice(),
        (Err(strict), Err(lenient)) => strict == lenient,
        (strict, _) => strict.is_err(),
    }
}

/// Reads a value of one of the types of EIP-2718 by itself, with no header around its envelope.
pub(crate) fn alone<T: Eip2718>(alloc: Global, bytes: &[u8]) -> Again {
    Ok(T::from_bytes(alloc, bytes)?.to_bytes(alloc)?)
}

/// Reads a value of one of the types of EIP-2718, or of an unknown type, by itself.
pub(crate) fn any_alone<T: Eip2718>(alloc: Global, bytes: &[u8]) -> Again {
    Ok(KnownOrOther::<T>::from_bytes(alloc, bytes)?.to_bytes(alloc)?)
}

/// Reads a signed transaction of a type in its envelope.
pub(crate) fn signed<T: TypedTransaction>(alloc: Global, bytes: &[u8]) -> Again {
    Ok(Signed::<T>::from_bytes(alloc, bytes)?.to_bytes(alloc)?)
}

/// Reads what is signed of a payload, after the byte of its type.
pub(crate) fn payload<T: Tagged>(alloc: Global, bytes: &[u8]) -> Again {
    Ok(T::from_signing_payload(alloc, bytes)?.signing_payload(alloc)?)
}

/// Reads a value that is sent after the byte of its type.
pub(crate) fn sent<T: Enveloped>(alloc: Global, bytes: &[u8]) -> Again {
    Ok(T::from_bytes(alloc, bytes)?.to_bytes(alloc)?)
}

/// Reads a message whose id is its number after this offset.
pub(crate) fn message<M: Message>(alloc: Global, offset: u8, bytes: &[u8]) -> Again {
    Ok(M::from_message(alloc, offset, bytes)?.to_message(alloc, offset)?)
}

/// Reads a value of a type with at most a number of items, which stands before the name of the type.
/// The name of a protocol stands for a message of any kind. Allocates nothing else.
pub fn at_most(alloc: Global, asked: &str, bytes: &[u8]) -> Result<(), DecoderError> {
    let (items, kind) = cut(asked);
    let most = number(items);
    match kind {
        "AnyTransaction" => read::<AnyTransaction>(alloc, bytes, most, Some(0)),
        "Block" => read::<Block>(alloc, bytes, most, Some(2)),
        "Body" => read::<Body>(alloc, bytes, most, Some(2)),
        "Transaction" => read::<Transaction>(alloc, bytes, most, Some(0)),
        "eth/68" => read_message::<Eth68Message>(alloc, 0x10, bytes, most),
        "eth/69" => read_message::<Eth69Message>(alloc, 0x10, bytes, most),
        "p2p" => read_message::<P2pMessage>(alloc, 0, bytes, most),
        _ => read::<Withdrawal>(alloc, bytes, most, None),
    }
}

/// Reads a value of this type, whose envelopes stand inside a number of lists.
fn read<R: StrictRead>(
    alloc: Global,
    bytes: &[u8],
    most: usize,
    envelopes: Option<usize>,
) -> Result<(), DecoderError> {
    match decode_at_most::<R>(alloc, bytes, most, envelopes) {
        Ok(_) => Ok(()),
        Err(fault) => Err(fault),
    }
}

/// Reads a message whose id is its number after this offset.
fn read_message<M: Message>(
    alloc: Global,
    offset: u8,
    bytes: &[u8],
    items: usize,
) -> Result<(), DecoderError> {
    let most = MessageBounds {
        bytes: bytes.len(),
        items,
    };
    match M::from_message_at_most(alloc, offset, bytes, most) {
        Ok(_) => Ok(()),
        Err(fault) => Err(fault),
    }
}

/// Returns `Ok` if a value of a type is read with at most a number of items.
pub(crate) fn bounded(alloc: Global, asked: &str, bytes: &[u8]) -> Result<String, DecoderError> {
    at_most(alloc, asked, bytes)?;
    Ok(String::from_str(alloc, "Ok")?)
}
