//! Why no item is read from a stream.

use rlp_reading::DecoderError;
use std::error::Error;
use std::{fmt, io};

/// Why no item is read from a stream.
#[derive(Debug, Drop)]
pub enum ReadFault {
    /// The reader failed. A read that a signal interrupts is tried again, and isn't a fault.
    Io(io::Error),
    /// The header announces an item that is longer than allowed.
    TooLong,
    /// The stream ends inside the item.
    Truncated,
    /// The item's header is faulty. It is never `RlpIsTooShort`, for which there is `Truncated`.
    Faulty(DecoderError),
    /// Memory was refused.
    OutOfMemory,
}

/// Prints the variant's name, and for `Io` and `Faulty` also the fault, as in
/// `Faulty(RlpInvalidIndirection)`.
impl fmt::Display for ReadFault {
    ghost use Rattle.rlp_stream.specs.FaultText.{read_fault_text};

    ghost output = { read_fault_text };

    fn fmt<W: fmt::Write>(&self, f: &mut fmt::Formatter<W>) -> fmt::Result {
        match self {
            ReadFault::Io(fault) => write!(f, "Io({fault})"),
            ReadFault::TooLong => f.write_str("TooLong"),
            ReadFault::Truncated => f.write_str("Truncated"),
            ReadFault::Faulty(fault) => write!(f, "Faulty({fault})"),
            ReadFault::OutOfMemory => f.write_str("OutOfMemory"),
        }
    }
}

impl Error for ReadFault {}
