//! Calls of which one is refused memory. It fails, leaves a stream as it was, and can be made again.
//!
//! `tools/refusals/run` refuses each allocation of these tests in turn. A test returns `OutOfMemory`
//! or `AllocError` if nothing else was lost.

use crate::tables::check;
use rlp::DecoderError;
use rlp_rows::rows::Line;
use std::alloc::Global;
use std::test::Fail;

/// Rows of values and lists that take memory when they are read. Most have a byte after them.
const READ: &str = "
    value String:
    8363617400 | Ok(\"cat\")
    value Vec:
    8363617400 | Ok([99, 97, 116])
    value Bytes, value BytesMut:
    8363617400 | Ok(b\"cat\")
    value Box u8:
    05 | Ok(5)
    value Option String: A list of a text.
    c48363617400 | Ok(Some(\"cat\"))
    list u64: A list of two numbers.
    c2010200 | Ok([1, 2])
    list_at String: A list of a list of two texts.
    c9c88363617483646f6700 0 | Ok([\"cat\", \"dog\"])
";

/// Rows of values that are written, of which the last needs more room than a new stream has.
const WRITTEN: &str = "
    written text: A text.
    Lorem ipsum | 8b+'Lorem ipsum
    written array of 32: Bytes.
    none | a0+61*32
    again Uint<32>: A number of 32 bytes.
    a0+01*32 | a0+01*32
    written some number: An option.
    5 | c105
    listed pairs: Two pairs.
    none | c6c20102c20304
    listed texts: Two texts.
    none | c88363617483646f67
    listed greatest: 500 times the greatest number.
    500 | 4503 begins f91194+88+ff*8+88+ff*8
";

/// Rows of scripts.
const STREAMS: &str = "
    script: A list of two texts in a list, and then an empty text, a list of two pairs, 20 strings of
    700 bytes, and 300 bytes in a list of two items, by an iterator, by the encoder, and within a
    limit.
    is 0 done; begin 2; is 1 2 00; begin 2; is 2 2 0000; text cat; is 6 1 000083636174; text dog; \
        is 10 1 00c88363617483646f67; text; is 11 done cac88363617483646f6780 | cac88363617483646f6780
    is 0 done; begin 2; is 1 2 00; pairs; is 8 1 00c6c20102c20304 | open
    string 61*700; size 703; 19 times string 61*700; size 14060 | 14060 begins b902bc61
    is 0 done; begin 2; is 1 2 00; undotted 00*300; is 306 1 00b9012c+00*300 | open
    is 0 done; begin 2; is 1 2 00; encode_undotted 00*300; is 306 2 00b9012c+00*300 | open
    is 0 done; begin 2; is 1 2 00; within 1000 00*300; is 303 1 00*301 | open
    script: Two unbounded lists, one inside the other, around a raw item of 254 bytes, closed one by
    one and together, sixty lists of one item, which an empty string closes, and twenty unbounded
    lists.
    is 0 done; unbounded; is 1 any 00; unbounded; is 2 any 0000; raw 1 b8fc+00*252; \
        is 259 any 0000b8fc+00*252; finalize; is 259 any 00f8feb8fc+00*252; finalize; size 259 \
        | f90100f8feb8fc+00*252
    2 times unbounded; raw 1 b8fc+00*252; is 259 any 0000b8fc+00*252; finalize_up_to 2 2; size 259 \
        | f90100f8feb8fc+00*252
    60 times begin 1; is 64 1 00*60; empty; size 66 \
        | f840f83ef83cf83af838f7f6f5f4f3f2f1f0efeeedecebeae9e8e7e6e5e4e3e2e1e0dfdedddcdbdad9d8d7d6d5d\
        4d3d2d1d0cfcecdcccbcac9c8c7c6c5c4c3c2c180
    unbounded; is 1 any 00*1; unbounded; is 2 any 00*2; unbounded; is 3 any 00*3; unbounded; \
        is 4 any 00*4; unbounded; is 5 any 00*5; unbounded; is 6 any 00*6; unbounded; is 7 any 00*7; \
        unbounded; is 8 any 00*8; unbounded; is 9 any 00*9; unbounded; is 10 any 00*10; unbounded; \
        is 11 any 00*11; unbounded; is 12 any 00*12; unbounded; is 13 any 00*13; unbounded; \
        is 14 any 00*14; unbounded; is 15 any 00*15; unbounded; is 16 any 00*16; unbounded; \
        is 17 any 00*17; unbounded; is 18 any 00*18; unbounded; is 19 any 00*19; unbounded; \
        is 20 any 00*20; finalize; is 20 any 00*19+c0; finalize; is 20 any 00*18+c1c0; finalize; \
        is 20 any 00*17+c2c1c0; finalize; is 20 any 00*16+c3c2c1c0; finalize; \
        is 20 any 00*15+c4c3c2c1c0; finalize; is 20 any 00*14+c5c4c3c2c1c0; finalize; \
        is 20 any 00*13+c6c5c4c3c2c1c0; finalize; is 20 any 00*12+c7c6c5c4c3c2c1c0; finalize; \
        is 20 any 00*11+c8c7c6c5c4c3c2c1c0; finalize; is 20 any 00*10+c9c8c7c6c5c4c3c2c1c0; finalize; \
        is 20 any 00*9+cac9c8c7c6c5c4c3c2c1c0; finalize; is 20 any 00*8+cbcac9c8c7c6c5c4c3c2c1c0; \
        finalize; is 20 any 00*7+cccbcac9c8c7c6c5c4c3c2c1c0; finalize; \
        is 20 any 00*6+cdcccbcac9c8c7c6c5c4c3c2c1c0; finalize; \
        is 20 any 00*5+cecdcccbcac9c8c7c6c5c4c3c2c1c0; finalize; \
        is 20 any 00*4+cfcecdcccbcac9c8c7c6c5c4c3c2c1c0; finalize; \
        is 20 any 00*3+d0cfcecdcccbcac9c8c7c6c5c4c3c2c1c0; finalize; \
        is 20 any 00*2+d1d0cfcecdcccbcac9c8c7c6c5c4c3c2c1c0; finalize; \
        is 20 any 00*1+d2d1d0cfcecdcccbcac9c8c7c6c5c4c3c2c1c0; finalize; \
        is 20 done d3d2d1d0cfcecdcccbcac9c8c7c6c5c4c3c2c1c0 | d3d2d1d0cfcecdcccbcac9c8c7c6c5c4c3c2c1c0
    script: New lists.
    list 3; is 1 3 00 | open
";

/// Fails with `OutOfMemory` if one answer of a table was refused memory, and none is when the rows
/// are tried again. Fails with rows that have another answer.
fn check_refused(alloc: Global, table: &str) -> Result<(), Fail> {
    let (mut first, mut again) = (Line::new(), Line::new());
    check(alloc, table, &mut first);
    if first.as_str().is_empty() {
        return Ok(());
    }
    check(alloc, table, &mut again);
    again.none_noted()?;
    let answers = first.as_str().split(", and not ").count();
    if answers == 2 && first.as_str().contains("OutOfMemory") {
        Err(Fail::from(DecoderError::OutOfMemory))
    } else {
        first.none_noted()
    }
}

#[test]
fn values_and_lists_of_a_view(rt: HostRuntime) -> Result<(), Fail> {
    check_refused(rt.alloc(), READ)
}

#[test]
fn what_is_encoded(rt: HostRuntime) -> Result<(), Fail> {
    check_refused(rt.alloc(), WRITTEN)
}

#[test]
fn calls_are_made_again(rt: HostRuntime) -> Result<(), Fail> {
    check_refused(rt.alloc(), STREAMS)
}
