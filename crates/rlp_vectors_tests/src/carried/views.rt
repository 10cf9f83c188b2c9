//! Headers and items of views. None of the calls allocates.

use crate::tables::check_rows;
use rlp_rows::rows::Line;
use rlp_vectors::note_row;
use std::test::Fail;

/// A list of two numbers and two hashes.
pub(crate) const HASHES: &str =
    "f84d0589010efbef67941f79b2a056e81f171bcc55a6ff8345e692c0f86e5b48e01b996cadc00162\
    2fb5e363b421a0c5d2460186f7233c927e7db2dcc703c0e500b653ca82273b7bfad8045d85a470";

/// The text of that list.
const HASHES_TEXT: &str =
    "[\"0x05\", \"0x010efbef67941f79b2\", \"0x56e81f171bcc55a6ff8345e692c0f86e5\
    b48e01b996cadc001622fb5e363b421\", \"0xc5d2460186f7233c927e7db2dcc703c0e500b653ca82273b7bfad8045d\
    85a470\"]";

#[test]
fn test_rlp_display(rt: HostRuntime) -> Result<(), Fail> {
    let mut wrong = Line::new();
    note_row(rt.alloc(), "view text", HASHES, HASHES_TEXT, &mut wrong);
    wrong.none_noted()
}

/// A list of two texts, by the calls that give items, and the texts.
const TEXTS: &str = "items:
    c88363617483646f67 | Ok(2) Ok(83636174) 1 Ok(83646f67) 5 Err(RlpIsTooShort)
    payload:
    83636174 | 1 3 636174 of Ok(83636174)
    83646f67 | 1 3 646f67 of Ok(83646f67)";

#[test]
fn rlp_at(rt: HostRuntime) -> Result<(), Fail> {
    check_rows(rt.alloc(), TEXTS)
}

#[test]
fn rlp_iter(rt: HostRuntime) -> Result<(), Fail> {
    check_rows(rt.alloc(), TEXTS)
}

#[test]
fn rlp_at_with_offset(rt: HostRuntime) -> Result<(), Fail> {
    check_rows(rt.alloc(), TEXTS)
}

#[test]
fn rlp_at_err(rt: HostRuntime) -> Result<(), Fail> {
    check_rows(
        rt.alloc(),
        "items:\nc88363617483646f | Ok(0) Err(RlpIsTooShort)",
    )
}

// The first bytes of the long headers of strings, without other bytes.
#[test]
fn test_rlp_is_int(rt: HostRuntime) -> Result<(), Fail> {
    let table = "view int:\nb8 | false\nb9 | false\nba | false\nbb | false\nbc | false
        bd | false\nbe | false\nbf | false";
    check_rows(rt.alloc(), table)
}
