//! The status numbers of faults in C.

ghost use Rattle.std.specs.Prelude.{◌≡◌};
ghost use Rattle.rlp_c.specs.Status.{fault_status, tree_status};

use rlp::{DecoderError, TreeFault};

/// The call succeeded.
pub const RLP_OK: u32 = 0;
/// A number of a signature is out of range: the one custom fault of the fields of records.
pub const RLP_INVALID_SIGNATURE: u32 = 11;
/// The caller's array has too few elements.
pub const RLP_NO_ROOM: u32 = 13;
/// Lists are nested deeper than the caller allows.
pub const RLP_TOO_DEEP: u32 = 14;

/// The items describe no tree, or point outside the bytes.
pub const RLP_BAD_ITEMS: u32 = 15;

/// A transaction has an unknown type.
pub const RLP_UNKNOWN_TYPE: u32 = 16;

/// The number of a fault.
pub fn status_of(fault: &DecoderError) -> u32
    ensures { result ≡ fault_status fault.now }
{
    match fault {
        DecoderError::RlpIsTooBig => 1,
        DecoderError::RlpIsTooShort => 2,
        DecoderError::RlpExpectedToBeList => 3,
        DecoderError::RlpExpectedToBeData => 4,
        DecoderError::RlpIncorrectListLen => 5,
        DecoderError::RlpDataLenWithZeroPrefix => 6,
        DecoderError::RlpListLenWithZeroPrefix => 7,
        DecoderError::RlpInvalidIndirection => 8,
        DecoderError::RlpInconsistentLengthAndData => 9,
        DecoderError::RlpInvalidLength => 10,
        DecoderError::Custom(_) => RLP_INVALID_SIGNATURE,
        DecoderError::OutOfMemory => 12,
    }
}

/// The number of a fault of a tree.
pub fn status_of_tree(fault: &TreeFault) -> u32
    ensures { result ≡ tree_status fault.now }
{
    match fault {
        TreeFault::Decoding(fault) => status_of(fault),
        TreeFault::TooDeep => RLP_TOO_DEEP,
    }
}
