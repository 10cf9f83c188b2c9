//! The items of a whole stream: an example of a loop over [`read_item`].

ghost use Rattle.std.specs.Prelude.{IfErr, IfOk, IfSome};
ghost use Rattle.rlp_stream.specs.Counts.{Counts, IsFaultAfter};

use crate::{ReadFault, read_item};
use std::alloc::Global;
use std::io;
use std::io::{ErrorKind, Read};

/// How many items and bytes a stream has.
#[derive(Debug, Clone, Copy, PartialEq, Eq)]
pub struct Count {
    /// The number of items.
    pub items: u64,
    /// The number of bytes of the items. It doesn't grow beyond `u64::MAX`.
    pub bytes: u64,
}

/// Counts the items of a stream, each of at most `most` bytes, and their bytes, to the end of the
/// stream.
///
/// Fails with the fault of the first item that can't be read, and with `Io` if the stream goes on
/// after `u64::MAX` items.
pub fn count_items<R: Read>(alloc: Global, reader: &mut R, most: usize) -> Result<Count, ReadFault>
    ensures ok { IfSome (R.remaining reader.old) (λ left. IfOk result (Counts most left)) }
    ensures fault { IfSome (R.remaining reader.old) (λ left. IfErr result (IsFaultAfter most left)) }
{
    let mut item = Vec::new(alloc);
    let mut bytes = 0u64;
    for items in 0..u64::MAX {
        if !read_item(reader, most, &mut item)? {
            return Ok(Count { items, bytes });
        }
        // Here `item` is the item, such as a block that `rlp::decode_strict` decodes.
        bytes = bytes.saturating_add(item.len() as u64);
    }
    Err(ReadFault::Io(io::Error::from(ErrorKind::FileTooLarge)))
}
