//! A whole tree as rows, by one walk over its bytes.

ghost use Rattle.std.specs.Prelude.{min};
ghost use Rattle.rlp_c.specs.Rows.{IsFlattened};

use crate::canonical::depth_within;
use crate::item::RlpItem;
use crate::status::{RLP_NO_ROOM, RLP_OK, status_of_tree};
use rlp_reading::walking::walk_whole;

/// Writes a row for each item of the tree whose encoding the bytes are. `count` gets the number of
/// rows. The elements behind the rows stay as they were. If the array has fewer elements, the
/// status is [`RLP_NO_ROOM`], and a second call with `count` elements gives the rows.
#[unsafe(no_mangle)]
pub extern "C" fn rlp_flatten(
    bytes: &[u8],
    max_depth: u32,
    out: &mut [RlpItem],
    count: &mut usize,
) -> u32
    ensures { IsFlattened (min max_depth 256) bytes.now out.old out.new count.old count.new result }
{
    match walk_whole(bytes, depth_within(max_depth) as usize, out) {
        Ok(rows) => {
            *count = rows;
            if rows <= out.len() {
                RLP_OK
            } else {
                RLP_NO_ROOM
            }
        }
        Err(fault) => status_of_tree(&fault),
    }
}
