//! Raw bytes that are appended within a limit, for limits below and above the resulting closed
//! size.

use crate::tables::check;
use rlp_rows::rows::Line;
use std::alloc::{AllocError, Global};
use std::fmt::Write;
use std::test::Fail;

/// The number of open lists, one inside another; the number of bytes 00 in the innermost; the number of
/// bytes 00 that are appended; and the closed size after that.
type Row = (usize, usize, usize, usize);

const ROWS: [Row; 32] = [
    (0, 0, 0, 0),
    (0, 0, 1, 1),
    (0, 55, 1, 56),
    (0, 255, 300, 555),
    (1, 0, 0, 1),
    (1, 0, 1, 2),
    (1, 0, 55, 56),
    (1, 0, 56, 58),
    (1, 54, 1, 56),
    (1, 55, 0, 56),
    (1, 55, 1, 58),
    (1, 56, 1, 59),
    (1, 254, 1, 257),
    (1, 255, 1, 259),
    (1, 65534, 1, 65538),
    (1, 65535, 1, 65540),
    (2, 53, 1, 56),
    (2, 53, 2, 58),
    (2, 54, 1, 58),
    (2, 55, 1, 60),
    (2, 252, 1, 257),
    (2, 253, 1, 259),
    (100, 0, 0, 144),
    (100, 0, 1, 146),
    (100, 1, 1, 148),
    (100, 54, 1, 254),
    (100, 55, 1, 256),
    (100, 110, 1, 338),
    (100, 111, 1, 340),
    (100, 60000, 5000, 65300),
    (100, 65237, 1, 65538),
    (100, 65238, 1, 65540),
];

/// How the outer lists are begun, and the innermost, and what that awaits behind the bytes that are
/// appended: any number of items, more items, or no more.
const LISTS: [[&str; 3]; 3] = [
    ["unbounded", "unbounded", "any"],
    ["begin 3", "begin 3", "1"],
    ["begin 1", "begin 2", "done"],
];

/// Bytes that are handed in: none, and `what was handed in`; and their numbers.
const FRONTS: [(&str, usize); 2] = [("'", 0), ("776861742077617320+'handed+20+'in", 18)];

/// Appends the script of a row for a limit: its bytes are appended if and only if the resulting closed
/// size is within the limit. An open list holds a byte 00 in the place of its header.
fn push_script(
    scripts: &mut String,
    (lists, held, added, size): Row,
    [outer, innermost, left]: [&str; 3],
    (front, len): (&str, usize),
    limit: usize,
) -> Result<(), AllocError> {
    let (before, last) = (lists.saturating_sub(1), usize::from(lists > 0));
    let zeros = lists.saturating_add(held).saturating_add(added);
    write!(
        scripts,
        "over {front}; {before} times {outer}; {last} times {innermost}; raw 1 00*{held}; "
    )?;
    if limit < size {
        write!(scripts, "!")?;
    }
    write!(scripts, "within {limit} 00*{added}")?;
    let end = if limit < size { held } else { size };
    if lists > 0 && limit < size {
        writeln!(scripts, " | open")?;
    } else if lists > 0 && left != "done" {
        writeln!(scripts, "; is {size} {left} {front}+00*{zeros} | open")?;
    } else {
        let all = len.saturating_add(end);
        writeln!(scripts, "; size {end} | {all} begins {front}")?;
    }
    Ok(())
}

/// Returns scripts for a row, with how its lists are begun. The limits are 0, around the size, around
/// the size with nine bytes for each header, and the greatest `usize`.
fn scripts_of(
    alloc: Global,
    row: Row,
    begun: [&str; 3],
    front: (&str, usize),
) -> Result<String, AllocError> {
    let (lists, held, added, size) = row;
    let (below, above) = (size.saturating_sub(1), size.saturating_add(1));
    let zeros = lists.saturating_add(held).saturating_add(added);
    let most = zeros.saturating_add(lists.saturating_mul(8));
    let fewer = most.saturating_sub(1);
    let mut scripts = String::from_str(alloc, "script:\n")?;
    for limit in [0, below, size, above, fewer, most, usize::MAX] {
        push_script(&mut scripts, row, begun, front, limit)?;
    }
    Ok(scripts)
}

#[test]
fn limits(rt: HostRuntime) -> Result<(), Fail> {
    let mut wrong = Line::new();
    for begun in LISTS {
        for front in FRONTS {
            for row in ROWS {
                let scripts = scripts_of(rt.alloc(), row, begun, front)?;
                check(rt.alloc(), scripts.as_str(), &mut wrong);
            }
        }
    }
    wrong.none_noted()
}
