//! The exit status of the program.

ghost use Rattle.std.specs.Prelude.{◌≡◌};
ghost use Rattle.rlp_lines.specs.Status.{exit_status};

use crate::serving::RunFault;

/// The exit status of a program after a run: 0 after `Ok`, else the status of the fault.
pub fn exit_status(outcome: &Result<(), RunFault>) -> u8
    ensures { result ≡ exit_status outcome.now }
{
    match outcome {
        Ok(()) => 0,
        Err(fault) => fault.status(),
    }
}
