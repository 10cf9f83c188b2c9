//! A tree in flat form: one entry for each item, in the order in which the items begin.

ghost use Rattle.std.specs.Prelude.{◌≡◌, ◌≤◌, ◌^◌, ◌-◌, ℕ};

use crate::error::DecoderError;
use std::error::Error;
use std::fmt;
use std::fmt::Display;

/// Where an item of a tree is in the bytes of the tree.
#[derive(Debug, Clone, Copy, PartialEq, Eq)]
pub struct FlatItem {
    /// The place of the item's first byte.
    pub place: usize,
    /// The number of bytes of the item's header. It is 0 for a byte below `0x80`, which is its own
    /// encoding.
    pub header_len: usize,
    /// The number of bytes of the item's payload, which follows the header.
    pub payload_len: usize,
    /// The number of lists around the item.
    pub depth: usize,
    /// Whether the item is a list.
    pub is_list: bool,
}

/// Why bytes aren't the encoding of an item within a depth.
#[derive(Debug, PartialEq, Eq, Drop)]
pub enum TreeFault {
    /// The bytes aren't an item, or aren't the canonical encoding of the item; or memory was
    /// refused.
    Decoding(DecoderError),
    /// A list stands inside as many lists as the depth allows.
    TooDeep,
}

/// Prints the text of the fault of decoding, or `TooDeep`. The formatter's flags change nothing.
impl fmt::Display for TreeFault {
    ghost use Rattle.std.specs.Prelude.{Some};
    ghost use Rattle.rlp_reading.specs.Views.FaultText.{tree_fault_name};

    ghost output = { λ e. Some (tree_fault_name e) };

    ghost styled_output = { λ e _. Some (tree_fault_name e) };

    fn fmt<W: fmt::Write>(&self, f: &mut fmt::Formatter<W>) -> fmt::Result {
        match self {
            TreeFault::Decoding(fault) => fault.fmt(f),
            TreeFault::TooDeep => f.write_str("TooDeep"),
        }
    }
}

impl Error for TreeFault {}

/// What a walk over a tree writes for each item.
pub trait FlatRow: Copy {
    ghost use Rattle.rlp_reading.specs.declared.flat.FlatItem.{FlatItem};

    /// The row of an item.
    ghost row_of: { FlatItem → Self };

    /// The greatest depth that a row can hold.
    ghost greatest_depth: { ℕ };

    /// The row of an item.
    fn row_of(item: FlatItem) -> Self
        requires { item.depth ≤ greatest_depth }
        ensures { result ≡ row_of item };
}

impl FlatRow for FlatItem {
    ghost row_of = { λ item. item };

    ghost greatest_depth = { 2 ^ 64 - 1 };

    fn row_of(item: FlatItem) -> FlatItem {
        item
    }
}
