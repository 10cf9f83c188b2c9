//! Calls on views that don't allocate, and bytes that give no value that allocates.
//!
//! `tools/refusals/run` refuses every allocation after a signal.

use crate::tables::check_rows;
use rlp::DecoderError;
use rlp_rows::signal::refuse_from_here;
use std::alloc::Global;
use std::test::Fail;

const TEXTS: &str = "
    view text: A view of each kind.
    none | null
    c20506 | [\"0x05\", \"0x06\"]
    c405c20182 | [\"0x05\", [\"0x01\"]]
    84636174 | RlpIsTooShort
";

#[test]
fn views_that_need_no_memory(rt: HostRuntime) -> Result<(), Fail> {
    refuse_from_here(rt.alloc());
    let fault = DecoderError::Custom("text");
    assert!(rt; fault.clone() == fault);
    check_rows(rt.alloc(), TEXTS)
}

const VALUES: &str = "
    value Vec: A list, no bytes, a length that begins with zero, and a needless header.
    c0 | Err(RlpExpectedToBeData)
    none | Err(RlpIsTooShort)
    b800 | Err(RlpInvalidIndirection)
    8105 | Err(RlpInvalidIndirection)
    value String: The same.
    c0 | Err(RlpExpectedToBeData)
    none | Err(RlpIsTooShort)
    b800 | Err(RlpInvalidIndirection)
    8105 | Err(RlpInvalidIndirection)
    81ff | Err(RlpExpectedToBeData)
    value Bytes: The same.
    c0 | Err(RlpExpectedToBeData)
    none | Err(RlpIsTooShort)
    b800 | Err(RlpInvalidIndirection)
    8105 | Err(RlpInvalidIndirection)
    value Option String: An empty list, a string, and two items.
    c0 | Ok(None)
    05 | Err(RlpExpectedToBeList)
    c20506 | Err(RlpIncorrectListLen)
    strict list u8: A string, and bytes that follow the list, or the items in the list.
    05 | Err(RlpExpectedToBeList)
    c10102 | Err(RlpIsTooBig)
    c305b800 | Err(RlpDataLenWithZeroPrefix)
    list u8: No items.
    c0 | Ok([])
    05 | Ok([])
";

#[test]
fn values_that_need_no_memory(rt: HostRuntime) -> Result<(), Fail> {
    refuse_from_here(rt.alloc());
    check_rows(rt.alloc(), VALUES)
}
