//! Why nodes don't prove what the state has.

ghost use Rattle.std.specs.Prelude.{◌≡◌};
ghost use Rattle.rlp_state.specs.Faults.{proof_fault};

use rlp::DecoderError;
use rlp_trie::ProofFault;
use std::alloc::AllocError;
use std::error::Error;
use std::fmt;

/// Why nodes don't prove an account, or the number in a slot of its storage.
#[derive(Debug, PartialEq, Eq, Drop)]
pub enum StateFault {
    /// The nodes don't prove what the trie has.
    Proof(ProofFault),
    /// The value in the trie isn't the encoding of an account.
    FaultyAccount(DecoderError),
    /// The value in the trie isn't the encoding of a number of at most 256 bits.
    FaultySlot(DecoderError),
    /// Memory was refused.
    OutOfMemory,
}

/// Prints the variant's name, and the fault that it holds, as in `Proof(MissingNode)` or
/// `FaultyAccount(RlpIsTooShort)`.
impl fmt::Display for StateFault {
    ghost use Rattle.rlp_state.specs.Faults.{state_fault_text};
    ghost use Rattle.std.specs.Prelude.{Some};

    ghost output = { λ e. Some (state_fault_text e) };

    fn fmt<W: fmt::Write>(&self, f: &mut fmt::Formatter<W>) -> fmt::Result {
        match self {
            StateFault::Proof(fault) => write!(f, "Proof({fault})"),
            StateFault::FaultyAccount(fault) => write!(f, "FaultyAccount({fault})"),
            StateFault::FaultySlot(fault) => write!(f, "FaultySlot({fault})"),
            StateFault::OutOfMemory => f.write_str("OutOfMemory"),
        }
    }
}

impl Error for StateFault {}

impl From<AllocError> for StateFault {
    ghost use Rattle.rlp_state.specs.declared.fault.StateFault.TheVariants.{OutOfMemory};

    ghost from_gives = { λ _ fault. fault ≡ OutOfMemory };

    fn from(_refused: AllocError) -> StateFault {
        StateFault::OutOfMemory
    }
}

/// Returns the fault of a proof of the state that has this fault.
pub(crate) fn proof_fault(fault: ProofFault) -> StateFault
    ensures { result ≡ proof_fault fault }
{
    match fault {
        ProofFault::OutOfMemory => StateFault::OutOfMemory,
        fault => StateFault::Proof(fault),
    }
}
