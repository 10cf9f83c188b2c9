//! Streams compared with what the rules of the format give, for every small tree and for strings of
//! many lengths.

use crate::tables::check_rows;
use rlp::RlpStream;
use rlp_rows::guarded::finishes_as;
use rlp_rows::rows::push_header;
use std::alloc::{AllocError, Global};
use std::fmt::Write;
use std::test::Fail;

/// The number of trees of depth at most 3: two strings, the empty list, and the lists of one or two
/// of the 93 trees of depth at most 2.
const TREES: usize = 2 + 1 + 93 + 93 * 93;

/// The rows of two strings: the empty string, and the string of a byte 80.
const STRINGS: &str = "empty | 80\nstring 80 | 8180\n";

/// The row of no item.
const NONE: &str = "raw 0 | ";

/// How a list of no item, of one, or of two begins, and how it ends.
type Ways = [&'static str; 4];

/// Lists that announce their number of items.
const ANNOUNCED: Ways = ["begin 0", "begin 1", "begin 2", ""];

/// Unbounded lists.
const UNBOUNDED: Ways = ["unbounded", "unbounded", "unbounded", "; finalize"];

/// Returns the script and the bytes of a row.
fn cells(row: &str) -> (&str, &str) {
    row.split_once(" | ").unwrap_or((row, ""))
}

/// Writes the row of a list of the items of two rows. Its payload has fewer than 56 bytes, so its
/// header has one byte.
fn push_list(
    trees: &mut String,
    begins: &str,
    ends: &str,
    first: &str,
    second: &str,
) -> Result<(), AllocError> {
    let ((one, bytes), (two, more)) = (cells(first), cells(second));
    let header = 0xc0usize
        .saturating_add(bytes.len() / 2)
        .saturating_add(more.len() / 2);
    writeln!(
        trees,
        "{begins}; {one}; {two}{ends} | {header:02x}{bytes}{more}"
    )
}

/// Writes the rows of the lists of one or two items whose first item has this row.
fn push_lists(trees: &mut String, ways: Ways, first: &str, rows: &str) -> Result<(), AllocError> {
    let [_, one, two, ends] = ways;
    push_list(trees, one, ends, first, NONE)?;
    for second in rows.lines() {
        push_list(trees, two, ends, first, second)?;
    }
    Ok(())
}

/// Returns rows of the two strings, of the empty list, and of the lists of one or two of the items of
/// these rows.
fn trees_over(alloc: Global, rows: &str, ways: Ways) -> Result<String, AllocError> {
    let [none, _, _, ends] = ways;
    let mut trees = String::from_str(alloc, STRINGS)?;
    push_list(&mut trees, none, ends, NONE, NONE)?;
    for first in rows.lines() {
        push_lists(&mut trees, ways, first, rows)?;
    }
    Ok(trees)
}

/// Fails if a tree of depth at most 3 isn't written as its row says.
fn trees_are_written(alloc: Global, ways: Ways) -> Result<(), Fail> {
    let flat = trees_over(alloc, STRINGS, ways)?;
    let nested = trees_over(alloc, flat.as_str(), ways)?;
    let deep = trees_over(alloc, nested.as_str(), ways)?;
    if deep.as_str().lines().count() != TREES {
        return Err(Fail::new("another number of trees"));
    }
    check_rows(alloc, format!(in alloc; "script:\n{deep}")?.as_str())
}

/// Returns the string of `len` bytes 00: its header is that of a list, less 40.
fn zeros_of(alloc: Global, len: usize) -> Result<Vec<u8>, AllocError> {
    let mut backwards = vec![in alloc; 0u8; len]?;
    if len != 1 {
        push_header(&mut backwards)?;
        if let Some(first) = backwards.as_mut_slice().last_mut() {
            *first = first.wrapping_sub(0x40);
        }
    }
    backwards.as_mut_slice().reverse();
    Ok(backwards)
}

/// Returns the first length, of lengths around those at which headers get longer and of other
/// lengths, at which a string of bytes 00 isn't written as the rules say.
fn first_wrong_len(alloc: Global) -> Result<Option<usize>, AllocError> {
    for len in 0usize..70_001 {
        if len < 301 || (len + 2) % 1_000 < 3 || (len + 10) % 512 < 20 {
            let mut s = RlpStream::new(alloc)?;
            s.append(&vec![in alloc; 0u8; len]?)?;
            if !finishes_as(s, zeros_of(alloc, len)?.as_slice()) {
                return Ok(Some(len));
            }
        }
    }
    Ok(None)
}

#[test]
fn trees_and_strings_are_written(rt: HostRuntime) -> Result<(), Fail> {
    let alloc = rt.alloc();
    assert_eq!(rt; first_wrong_len(alloc), Ok(None));
    trees_are_written(alloc, ANNOUNCED)?;
    trees_are_written(alloc, UNBOUNDED)
}
