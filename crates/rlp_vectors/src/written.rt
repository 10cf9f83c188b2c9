//! Values of each type, and the bytes that they are written as.

use crate::answers::Asked;
use crate::appended::{Columns, LastField, Tagged};
use bytes::{Bytes, BytesMut};
use rlp::{Decodable, Encodable, RlpStream};
use rlp_examples::{Inner, Nest};
use rlp_hand_written::{Nonce, Pair};
use rlp_rows::guarded::finishes_as;
use rlp_rows::rows::{Line, cut, number};
use std::alloc::{AllocError, Global};
use std::fmt;
use std::fmt::Write;

/// Tells the bytes that a value of a type is written as. Most types are read again.
pub(crate) fn tell_value(asked: &Asked<'_>, out: &mut Line) -> fmt::Result {
    let (alloc, bytes) = (asked.alloc, asked.bytes);
    let text = if asked.given == "none" {
        ""
    } else {
        asked.given
    };
    match asked.of {
        "bool" => tell_both(asked, Ok::<bool, ()>(text == "true"), out),
        "u8" => tell_both(asked, text.parse::<u8>(), out),
        "u16" => tell_both(asked, text.parse::<u16>(), out),
        "u32" => tell_both(asked, text.parse::<u32>(), out),
        "u64" => tell_both(asked, text.parse::<u64>(), out),
        "u128" => tell_both(asked, text.parse::<u128>(), out),
        "usize" => tell_both(asked, text.parse::<usize>(), out),
        "text" => tell_both(asked, String::from_str(alloc, text), out),
        "Vec" => tell_both(asked, Vec::from_slice(alloc, bytes), out),
        "Bytes" => tell_both(asked, Bytes::copy_from_slice(alloc, bytes), out),
        "BytesMut" => tell_both(asked, BytesMut::copy_from_slice(alloc, bytes), out),
        "Nest<Inner>" => tell_both(asked, four_pairs(alloc), out),
        "Nest<Nest<Inner>>" => tell_both(asked, two_nests(alloc), out),
        "slice" => tell_written(asked, &bytes, out),
        "none" => tell_written(asked, &None::<&str>, out),
        "some" => tell_written(asked, &Some(text), out),
        "some some" => tell_written(asked, &Some(Some(text)), out),
        "some array" => tell_written(asked, &Some([0x61u8; 55]), out),
        "last_field" => tell_written(asked, &LastField(text.parse::<u64>().ok()), out),
        _ => tell_numbers(asked, out),
    }
}

/// Tells the bytes of an array, or of a value of the two numbers of a row.
fn tell_numbers(asked: &Asked<'_>, out: &mut Line) -> fmt::Result {
    let (first, second) = (number(cut(asked.given).0), number(asked.rest));
    match asked.of {
        "array" if first == 0 => tell_written(asked, &[0u8; 0], out),
        "array" if first == 1 => tell_written(asked, &[5u8], out),
        "array" => tell_written(asked, b"cat", out),
        "array of 32" => tell_written(asked, &[0x61u8; 32], out),
        "some number" => tell_written(asked, &Some(first as u64), out),
        "Nonce" => tell_written(asked, &Nonce(first as u64), out),
        "pair" => tell_written(asked, &Pair(first as u64, second as u64), out),
        "columns" => {
            let fields = vec![in asked.alloc; first as u64; second]?;
            tell_written(asked, &Columns(fields.as_slice()), out)
        }
        "tagged" => {
            let tag = u8::try_from(first).unwrap_or(0);
            tell_written(asked, &Tagged(tag, second as u64), out)
        }
        _ => Err(fmt::Error),
    }
}

/// Tells the bytes that a list of values is written as.
pub(crate) fn tell_listed(asked: &Asked<'_>, out: &mut Line) -> fmt::Result {
    match asked.of {
        "u32" => tell_list::<u32>(asked, &[], out),
        "u64" => tell_list(asked, numbers_of(asked)?.as_slice(), out),
        "texts" => tell_list(asked, &["cat", "dog"], out),
        "pairs" => tell_list(asked, &[Pair(1, 2), Pair(3, 4)], out),
        "zeros" => tell_copies(asked, 0u64, out),
        "empty" => tell_copies(asked, "", out),
        "greatest" => tell_copies(asked, u64::MAX, out),
        "sevens" => tell_copies(asked, 7u8, out),
        "same_pairs" => tell_copies(asked, Pair(1, 2), out),
        _ => Err(fmt::Error),
    }
}

/// Tells the bytes that a list of as many copies of a value as a row says is written as.
fn tell_copies<E: Encodable + Copy>(asked: &Asked<'_>, value: E, out: &mut Line) -> fmt::Result {
    let copies = vec![in asked.alloc; value; number(asked.given)]?;
    tell_list(asked, copies.as_slice(), out)
}

/// Returns the numbers of a row.
fn numbers_of(asked: &Asked<'_>) -> Result<Vec<u64>, AllocError> {
    let mut numbers = Vec::new(asked.alloc);
    for digits in asked.given.split_whitespace() {
        if let Ok(number) = digits.parse::<u64>() {
            numbers.push(number)?;
        }
    }
    Ok(numbers)
}

/// Returns the nest of four pairs of a number and the next.
fn four_pairs(alloc: Global) -> Result<Nest<Inner>, AllocError> {
    let mut pairs = Vec::new(alloc);
    for first in 0..4u64 {
        pairs.push(Inner(first, first + 1))?;
    }
    Ok(Nest(pairs))
}

/// Returns the nest of two such nests.
fn two_nests(alloc: Global) -> Result<Nest<Nest<Inner>>, AllocError> {
    let mut nests = Vec::new(alloc);
    nests.push(four_pairs(alloc)?)?;
    nests.push(four_pairs(alloc)?)?;
    Ok(Nest(nests))
}

/// Tells the bytes that a value is written as: alone, by both functions for it, and in a stream.
pub(crate) fn tell_written<E: Encodable>(
    asked: &Asked<'_>,
    value: &E,
    out: &mut Line,
) -> fmt::Result {
    let mut s = RlpStream::new(asked.alloc)?;
    s.append(value)?;
    let (made, same) = (
        rlp::encode(asked.alloc, value)?,
        value.rlp_bytes(asked.alloc)?,
    );
    if same.as_slice() != made.as_slice() || !finishes_as(s, made.as_slice()) {
        return out.write_str("written in two ways");
    }
    asked.tell_bytes(made.as_slice(), out)
}

/// Tells the bytes that a value is written as, from which it is read, and written again.
fn tell_both<T: Decodable + Encodable + Drop, E: Drop>(
    asked: &Asked<'_>,
    value: Result<T, E>,
    out: &mut Line,
) -> fmt::Result {
    let Ok(value) = value else {
        return Err(fmt::Error);
    };
    let made = rlp::encode(asked.alloc, &value)?;
    let again = match rlp::decode_strict::<T>(asked.alloc, made.as_slice()) {
        Ok(again) => again,
        Err(fault) => return out.debug(fault),
    };
    if rlp::encode(asked.alloc, &again)?.as_slice() != made.as_slice() {
        return out.write_str("written otherwise again");
    }
    tell_written(asked, &value, out)
}

/// Tells the bytes that a list of values is written as, alone and in a stream.
fn tell_list<E: Encodable>(asked: &Asked<'_>, values: &[E], out: &mut Line) -> fmt::Result {
    let mut s = RlpStream::new(asked.alloc)?;
    s.append_list(values)?;
    let made = rlp::encode_list(asked.alloc, values)?;
    if !finishes_as(s, made.as_slice()) {
        return out.write_str("written in two ways");
    }
    asked.tell_bytes(made.as_slice(), out)
}
