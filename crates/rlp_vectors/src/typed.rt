//! Values that are read from strings and lists, and the faults of bytes that give no value. Values of
//! custom types are written again.

use crate::answers::Asked;
use crate::written::tell_written;
use bytes::{Bytes, BytesMut};
use rlp::{BasicDecoder, Decodable, DecodePlaced, DecoderError, Encodable, RawItem, Rlp, Uint};
use rlp_examples::{Inner, Message, Nest, Odd, Parcel, Row};
use rlp_hand_written::{Nonce, Pair};
use rlp_rows::codec::goes_both_ways;
use rlp_rows::rows::{Line, bytes_of, cut, number};
use std::alloc::{AllocError, Global};
use std::fmt;
use std::fmt::Write;

/// Reads a value from the bytes of a row.
fn read<T: Decodable>(asked: &Asked<'_>) -> Result<T, DecoderError> {
    if asked.strict {
        rlp::decode_strict::<T>(asked.alloc, asked.bytes)
    } else {
        rlp::decode::<T>(asked.alloc, asked.bytes)
    }
}

/// Tells what a call reads as a type: as a value or as a list from bytes and from a view of them,
/// or from the item of a number by the view and from the item's own view. Both are to be the same.
pub(crate) fn tell_typed(asked: &Asked<'_>, out: &mut Line) -> fmt::Result {
    match asked.of {
        "u8" => tell_as::<u8>(asked, out),
        "u16" => tell_as::<u16>(asked, out),
        "u32" => tell_as::<u32>(asked, out),
        "u64" => tell_as::<u64>(asked, out),
        "u128" => tell_as::<u128>(asked, out),
        "bool" => tell_as::<bool>(asked, out),
        "Vec" => tell_as::<Vec<u8>>(asked, out),
        "Bytes" => tell_as::<Bytes>(asked, out),
        "BytesMut" => tell_as::<BytesMut>(asked, out),
        "String" => tell_as::<String>(asked, out),
        "Odd" => tell_as::<Odd>(asked, out),
        "Box u8" => tell_as::<Box<u8>>(asked, out),
        "Option u8" => tell_as::<Option<u8>>(asked, out),
        "Option String" => tell_as::<Option<String>>(asked, out),
        "Option Option u8" => tell_as::<Option<Option<u8>>>(asked, out),
        "Option Box u8" => tell_as::<Option<Box<u8>>>(asked, out),
        "Option Odd" => tell_as::<Option<Odd>>(asked, out),
        _ => Err(fmt::Error),
    }
}

/// Tells what a call reads as a `T`.
fn tell_as<T: Decodable + fmt::Debug + PartialEq>(
    asked: &Asked<'_>,
    out: &mut Line,
) -> fmt::Result {
    let (alloc, view, index) = (asked.alloc, asked.view(), number(asked.rest));
    match asked.call {
        "value" => tell_same(&read::<T>(asked), &view.as_val::<T>(alloc), out),
        "list" if asked.strict => {
            let read = rlp::decode_list_strict::<T>(alloc, asked.bytes);
            tell_same(&read, &view.as_list::<T>(alloc), out)
        }
        "list" => {
            let read = rlp::decode_list::<T>(alloc, asked.bytes);
            tell_same(&read, &view.as_list::<T>(alloc), out)
        }
        "value_at" => {
            let viewed = value_of_item::<T>(alloc, &view, index);
            tell_same(&view.val_at::<T>(alloc, index), &viewed, out)
        }
        _ => out.debug(view.list_at::<T>(alloc, index)),
    }
}

/// Tells what is read in one way, and what is read by a view if that differs.
fn tell_same<T: fmt::Debug + PartialEq>(
    read: &Result<T, DecoderError>,
    viewed: &Result<T, DecoderError>,
    out: &mut Line,
) -> fmt::Result {
    if read == viewed {
        out.debug(read)
    } else {
        write!(out, "{read:?}, of a view {viewed:?}")
    }
}

/// Returns what the view of the item of a number is read as.
fn value_of_item<T: Decodable>(
    alloc: Global,
    view: &Rlp<'_>,
    index: usize,
) -> Result<T, DecoderError> {
    view.at(index)?.as_val::<T>(alloc)
}

/// Tells the bytes that a value of a type is written as again.
pub(crate) fn tell_again(asked: &Asked<'_>, out: &mut Line) -> fmt::Result {
    match asked.of {
        "[u8; 3]" => tell_again_as::<[u8; 3]>(asked, out),
        "Uint<2>" => tell_again_as::<Uint<2>>(asked, out),
        "Uint<32>" => tell_again_as::<Uint<32>>(asked, out),
        "String" => tell_again_as::<String>(asked, out),
        "Nonce" => tell_again_as::<Nonce>(asked, out),
        "Pair" => tell_again_as::<Pair>(asked, out),
        "Message" => tell_again_as::<Message>(asked, out),
        "Row" => tell_again_as::<Row>(asked, out),
        "RawItem" => tell_again_as::<RawItem>(asked, out),
        "Nest<Inner>" => tell_again_as::<Nest<Inner>>(asked, out),
        "Nest<Nest<Inner>>" => tell_again_as::<Nest<Nest<Inner>>>(asked, out),
        _ => Err(fmt::Error),
    }
}

/// Tells the bytes that a `T` is written as again, or the fault.
fn tell_again_as<T: Decodable + Encodable>(asked: &Asked<'_>, out: &mut Line) -> fmt::Result {
    match read::<T>(asked) {
        Ok(value) => tell_written(asked, &value, out),
        Err(fault) => out.debug(fault),
    }
}

/// Tells where and why a value of a type can't be read, or two fields of a `Row`.
pub(crate) fn tell_place(asked: &Asked<'_>, out: &mut Line) -> fmt::Result {
    match asked.of {
        "Message" => tell_place_as::<Message>(asked, out),
        "Odd" => tell_place_as::<Odd>(asked, out),
        "Pair" => tell_place_as::<Pair>(asked, out),
        "Nest<Parcel>" => tell_place_as::<Nest<Parcel>>(asked, out),
        _ => match read::<Row>(asked) {
            Ok(row) => write!(out, "{} {:?}", row.column_17, row.column_20),
            Err(fault) => out.debug(fault),
        },
    }
}

/// Tells where and why a `T` can't be read.
fn tell_place_as<T: DecodePlaced>(asked: &Asked<'_>, out: &mut Line) -> fmt::Result {
    match rlp::decode_placed::<T>(asked.alloc, &asked.view()) {
        Ok(_) => out.write_str("read"),
        Err(placed) => {
            out.debug(placed.path.as_slice())?;
            out.then(placed.fault)
        }
    }
}

/// Returns the first byte of a string.
fn first_of(string: &[u8]) -> Result<u8, DecoderError> {
    match string.first() {
        Some(byte) => Ok(*byte),
        None => Err(DecoderError::Custom("no byte")),
    }
}

/// Tells the first byte of the string that a closure is called with, by a new decoder and by the
/// decoder of a view: the two must be the same.
pub(crate) fn tell_first_byte(bytes: &[u8], out: &mut Line) -> fmt::Result {
    let byte = BasicDecoder::new(bytes).decode_value(first_of);
    let viewed = Rlp::new(bytes).decoder().decode_value(first_of);
    tell_same(&byte, &viewed, out)
}

/// Tells whether the bytes are canonical, and the fault of reading them strictly: as a list if the
/// bytes begin a list, else as a string.
pub(crate) fn tell_invalid(asked: &Asked<'_>, out: &mut Line) -> fmt::Result {
    let view = asked.view();
    let fault = if view.is_list() {
        view.item_count().err()
    } else {
        view.as_val::<Vec<u8>>(asked.alloc).err()
    };
    out.debug(Rlp::new(asked.bytes).is_canonical(9))?;
    out.then(fault)
}

/// Tells the bytes that a raw item is written as again, if it goes both ways.
pub(crate) fn tell_raw(asked: &Asked<'_>, out: &mut Line) -> fmt::Result {
    if !goes_both_ways(asked.alloc, asked.bytes)? {
        return out.write_str("no raw item");
    }
    tell_again_as::<RawItem>(asked, out)
}

/// A number that prints in hexadecimal.
#[derive(Drop)]
struct Hexadecimal(Uint<32>);

impl fmt::Display for Hexadecimal {
    fn fmt<W: fmt::Write>(&self, f: &mut fmt::Formatter<W>) -> fmt::Result {
        fmt::LowerHex::fmt(&self.0, f)
    }
}

/// Tells a number of 256 bits: its bytes, or its texts and whether it is less than the next number.
/// A small number is also made from a `u64`.
pub(crate) fn tell_number(asked: &Asked<'_>, out: &mut Line) -> fmt::Result {
    let read = match read::<Uint<32>>(asked) {
        Ok(read) => read,
        Err(fault) => return out.debug(fault),
    };
    if asked.of == "bytes" {
        return asked.tell_bytes(read.bytes.as_slice(), out);
    }
    let small = cut(asked.want).0.parse::<u64>();
    if matches!(small, Ok(small) if Uint::<32>::from(small) != read) {
        return out.write_str("another number from a `u64`");
    }
    let next = bytes_of(asked.alloc, asked.rest)?;
    let next = rlp::decode_strict::<Uint<32>>(asked.alloc, next.as_slice());
    let is_less = matches!(next, Ok(next) if read < next);
    write!(out, "{read} {} {is_less}", Hexadecimal(read))
}
