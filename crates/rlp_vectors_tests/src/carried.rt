//! Tests that the Rust crate has too, under the same names.

mod views;

use crate::tables::check_rows;
use bytes::BytesMut;
use rlp::RlpStream;
use rlp_vectors::buffer_of;
use std::alloc::{AllocError, Global};
use std::test::Fail;
pub(crate) use views::HASHES;

#[test]
fn encode_u16(rt: HostRuntime) -> Result<(), Fail> {
    let table = "written u16:\n0 | 80\n256 | 820100\n65535 | 82ffff";
    check_rows(rt.alloc(), table)
}

#[test]
fn encode_u32(rt: HostRuntime) -> Result<(), Fail> {
    let table = "written u32:\n0 | 80\n65536 | 83010000\n16777215 | 83ffffff";
    check_rows(rt.alloc(), table)
}

#[test]
fn encode_u64(rt: HostRuntime) -> Result<(), Fail> {
    let table = "written u64, written Nonce:
        0 | 80\n16777216 | 8401000000\n4294967295 | 84ffffffff";
    check_rows(rt.alloc(), table)
}

#[test]
fn encode_u128(rt: HostRuntime) -> Result<(), Fail> {
    let table = "written u128:
        0 | 80
        72057594037927936 | 880100000000000000
        18446744073709551615 | 88ffffffffffffffff";
    check_rows(rt.alloc(), table)
}

// The last text has 56 bytes, the shortest length whose header has more than one byte. The texts are
// read again.
#[test]
fn encode_str(rt: HostRuntime) -> Result<(), Fail> {
    let table = "written text:
        cat | 83636174
        dog | 83646f67
        Marek | 854d6172656b
        none | 80
        Lorem ipsum dolor sit amet, consectetur adipisicing elit \
        | b838+'Lorem ipsum dolor sit amet, consectetur adipisicing elit";
    check_rows(rt.alloc(), table)
}

#[test]
fn encode_vector_u8(rt: HostRuntime) -> Result<(), Fail> {
    let table = "written Vec, written slice:\nnone | 80\n00 | 00\n15 | 15\n4000 | 824000";
    check_rows(rt.alloc(), table)
}

#[test]
fn encode_bytes(rt: HostRuntime) -> Result<(), Fail> {
    let table = "written Bytes:\nnone | 80\n00 | 00\n15 | 15\n4000 | 824000";
    check_rows(rt.alloc(), table)
}

#[test]
fn encode_bytesmut(rt: HostRuntime) -> Result<(), Fail> {
    let table = "written BytesMut:\nnone | 80\n00 | 00\n15 | 15\n4000 | 824000";
    check_rows(rt.alloc(), table)
}

#[test]
fn encode_vector_u64(rt: HostRuntime) -> Result<(), Fail> {
    let table = "listed u64:
        none | c0
        15 | c10f
        1 2 3 7 255 | c60102030781ff
        4294967295 1 2 3 7 255 | cb84ffffffff0102030781ff";
    check_rows(rt.alloc(), table)
}

#[test]
fn encode_vector_str(rt: HostRuntime) -> Result<(), Fail> {
    check_rows(rt.alloc(), "listed texts:\nnone | c88363617483646f67")
}

// A `bool` is written as the number 0 or 1, and no other number is read as one.
#[test]
fn test_bool_same_as_int(rt: HostRuntime) -> Result<(), Fail> {
    let table = "written bool:\nfalse | 80\ntrue | 01
        written u8:\n0 | 80\n1 | 01
        value bool:\n02 | Err(Custom(\"invalid boolean value\"))";
    check_rows(rt.alloc(), table)
}

#[test]
fn length_overflow(rt: HostRuntime) -> Result<(), Fail> {
    let table = "value u8:\nbfffffffffffffffffffffffe5 | Err(RlpInvalidLength)";
    check_rows(rt.alloc(), table)
}

#[test]
fn decode_vector_u8(rt: HostRuntime) -> Result<(), Fail> {
    let table = "value Vec:\n80 | Ok([])\n00 | Ok([0])\n15 | Ok([21])\n824000 | Ok([64, 0])";
    check_rows(rt.alloc(), table)
}

/// The strings of no byte, of one byte and of two.
const STRINGS: &str = "value Bytes, value BytesMut:
    80 | Ok(b\"\")
    00 | Ok(b\"\\0\")
    15 | Ok(b\"\\x15\")
    824000 | Ok(b\"@\\0\")";

#[test]
fn decode_bytes(rt: HostRuntime) -> Result<(), Fail> {
    check_rows(rt.alloc(), STRINGS)
}

#[test]
fn decode_bytesmut(rt: HostRuntime) -> Result<(), Fail> {
    check_rows(rt.alloc(), STRINGS)
}

#[test]
fn decode_untrusted_u8(rt: HostRuntime) -> Result<(), Fail> {
    let table = "value u8:\n80 | Ok(0)\n77 | Ok(119)\n81cc | Ok(204)";
    check_rows(rt.alloc(), table)
}

#[test]
fn decode_untrusted_u16(rt: HostRuntime) -> Result<(), Fail> {
    let table = "value u16:\n820100 | Ok(256)\n82ffff | Ok(65535)";
    check_rows(rt.alloc(), table)
}

#[test]
fn decode_untrusted_u32(rt: HostRuntime) -> Result<(), Fail> {
    let table = "value u32:\n83010000 | Ok(65536)\n83ffffff | Ok(16777215)";
    check_rows(rt.alloc(), table)
}

#[test]
fn decode_untrusted_u64(rt: HostRuntime) -> Result<(), Fail> {
    let table = "value u64:\n8401000000 | Ok(16777216)\n84ffffffff | Ok(4294967295)";
    check_rows(rt.alloc(), table)
}

#[test]
fn decode_untrusted_u128(rt: HostRuntime) -> Result<(), Fail> {
    let table = "value u128:
        880100000000000000 | Ok(72057594037927936)
        88ffffffffffffffff | Ok(18446744073709551615)";
    check_rows(rt.alloc(), table)
}

#[test]
fn decode_untrusted_str(rt: HostRuntime) -> Result<(), Fail> {
    let table = "value String:
        83636174 | Ok(\"cat\")
        83646f67 | Ok(\"dog\")
        854d6172656b | Ok(\"Marek\")
        80 | Ok(\"\")
        b8384c6f72656d20697073756d20646f6c6f722073697420616d65742c20636f6e73656374657475722061646\
        97069736963696e6720656c6974 \
        | Ok(\"Lorem ipsum dolor sit amet, consectetur adipisicing elit\")";
    check_rows(rt.alloc(), table)
}

#[test]
fn decode_untrusted_vector_u64(rt: HostRuntime) -> Result<(), Fail> {
    let table = "list u64:
        c0 | Ok([])
        c10f | Ok([15])
        c60102030781ff | Ok([1, 2, 3, 7, 255])
        cb84ffffffff0102030781ff | Ok([4294967295, 1, 2, 3, 7, 255])";
    check_rows(rt.alloc(), table)
}

#[test]
fn decode_untrusted_vector_str(rt: HostRuntime) -> Result<(), Fail> {
    let table = "list String:\nc88363617483646f67 | Ok([\"cat\", \"dog\"])";
    check_rows(rt.alloc(), table)
}

#[test]
fn test_rlp_data_length_check(rt: HostRuntime) -> Result<(), Fail> {
    let table = "value String:\n84636174 | Err(RlpInconsistentLengthAndData)";
    check_rows(rt.alloc(), table)
}

#[test]
fn test_rlp_long_data_length_check(rt: HostRuntime) -> Result<(), Fail> {
    let table = "again String:\nb8ff+63*253 | RlpInconsistentLengthAndData";
    check_rows(rt.alloc(), table)
}

#[test]
fn test_the_exact_long_string(rt: HostRuntime) -> Result<(), Fail> {
    check_rows(rt.alloc(), "again String:\nb8ff+63*255 | b8ff+63*255")
}

#[test]
fn test_rlp_2bytes_data_length_check(rt: HostRuntime) -> Result<(), Fail> {
    let table = "again String:\nb902ff+63*700 | RlpInconsistentLengthAndData";
    check_rows(rt.alloc(), table)
}

#[test]
fn test_rlp_list_length_overflow(rt: HostRuntime) -> Result<(), Fail> {
    let table = "value_at String:\nffffffffffffffffff000000 0 | Err(RlpIsTooShort)";
    check_rows(rt.alloc(), table)
}

#[test]
fn test_canonical_string_encoding(rt: HostRuntime) -> Result<(), Fail> {
    let table = "value_at String:\nc4b8026162 0 | Err(RlpInvalidIndirection)
        c3826162 0 | Ok(\"ab\")";
    check_rows(rt.alloc(), table)
}

#[test]
fn test_canonical_list_encoding(rt: HostRuntime) -> Result<(), Fail> {
    let table = "value_at String:\nf803826162 0 | Err(RlpInvalidIndirection)";
    check_rows(rt.alloc(), table)
}

// A list's header that announces fewer bytes than its item has, as many, or more.
#[test]
fn test_inner_length_capping_for_short_lists(rt: HostRuntime) -> Result<(), Fail> {
    let table = "value_at String:
        c0826162 0 | Err(RlpIsTooShort)
        c1826162 0 | Err(RlpIsTooShort)
        c2826162 0 | Err(RlpIsTooShort)
        c3826162 0 | Ok(\"ab\")
        c4826162 0 | Err(RlpIsTooShort)";
    check_rows(rt.alloc(), table)
}

// The list of the list of four pairs, and the list of the list of two such nests.
#[test]
fn test_nested_list_roundtrip(rt: HostRuntime) -> Result<(), Fail> {
    let table = "written Nest<Inner>:\nnone | cdccc28001c20102c20203c20304
        written Nest<Nest<Inner>>:
        none | dddccdccc28001c20102c20203c20304cdccc28001c20102c20203c20304";
    check_rows(rt.alloc(), table)
}

// A list, and then bytes that aren't part of it. Its second item is a list, its third holds a
// number, and the number of its items is the same before and after the number is read.
#[test]
fn test_list_at(rt: HostRuntime) -> Result<(), Fail> {
    let table = "third:
        f83e82022bd79020010db83c4d001500000000abcdef12820cfa8215a8d79020010db885a308d313198a2e037\
        073488208ae82823a8443b9a355c5010203040531b9019afde696e582a78fa8d95ea13ce3297d4afb8ba6433e\
        4154caa5ac6431af1b80ba76023fa4090c408f6b4bc3701562c031041d4702971d102c9ab7fa5eed4cd6bab8f\
        7af956f7d565ee1917084a95398b6a21eac920fe3dd1345ec0a7ef39367ee69ddf092cbfe5b93e5e568ebc491\
        983c09c76d922dc3 | Ok(5) true Ok(33338) Ok(5)";
    check_rows(rt.alloc(), table)
}

/// Appends bytes and the encoding of a text, by a stream over the bytes. The bytes are in the
/// second part of the split buffer, and then the two parts are joined again.
fn append_by_stream(
    alloc: Global,
    buffer: &mut BytesMut,
    front: &str,
    text: &str,
) -> Result<bool, AllocError> {
    let end = buffer.len();
    let mut split = buffer.split_off(end)?;
    split.extend_from_slice(front.as_bytes())?;
    let mut s = RlpStream::new_with_buffer(alloc, split);
    s.append(&text)?;
    if !s.is_finished() {
        return Ok(false);
    }
    buffer.unsplit(s.out())?;
    Ok(true)
}

#[test]
fn encode_into_existing_buffer(rt: HostRuntime) -> Result<(), Fail> {
    let alloc = rt.alloc();
    let mut buffer = buffer_of(alloc, "'junk")?;
    assert!(rt; append_by_stream(alloc, &mut buffer, "!", "cat")?);
    assert!(rt; append_by_stream(alloc, &mut buffer, " and ", "dog")?);
    assert!(rt; buffer.as_slice() == b"junk!\x83cat and \x83dog".as_slice());
    Ok(())
}

#[test]
fn clear(rt: HostRuntime) -> Result<(), Fail> {
    let table = "script:
        over 'junk; text parrot; clear; is 0 done 'junk; text cat | 6a756e6b83636174";
    check_rows(rt.alloc(), table)
}

#[test]
fn test_rlp_nested_empty_list_encode(rt: HostRuntime) -> Result<(), Fail> {
    check_rows(rt.alloc(), "script:\nlist 2; no_u32s; u32 40 | c2c028")
}

// Single bytes 00 are appended until one more would be over a limit.
#[test]
fn test_rlp_stream_size_limit(rt: HostRuntime) -> Result<(), Fail> {
    let full = "script:\n# times within # 00; !within # 00; is # done 00*# | 00*#";
    for limit in 1..=269usize {
        let digits = format!(in rt.alloc(); "{limit}")?;
        let table = full.replace(rt.alloc(), '#', digits.as_str())?;
        check_rows(rt.alloc(), table.as_str())?;
    }
    Ok(())
}

// The list isn't finished before it is closed, and is finished then.
#[test]
fn test_rlp_stream_unbounded_list(rt: HostRuntime) -> Result<(), Fail> {
    let table = "script:
        unbounded; number 40; number 41; is 3 any 002829; finalize | c22829";
    check_rows(rt.alloc(), table)
}
