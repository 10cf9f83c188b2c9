//! The tests of `rlp_tool`: exit statuses, and runs that lack memory.

mod never;
mod refused;

use rlp_tool::{RunFault, exit_status};
use rlp_tool_rows::devices::{SOUND, ran};
use std::alloc::AllocError;

/// Returns the exit status after a run that ended with a fault, and the status of the fault.
fn statuses(fault: RunFault) -> (u8, u8) {
    let status = fault.status();
    (exit_status(&Err(fault)), status)
}

#[test]
fn statuses_are_of_faults(rt: HostRuntime) {
    assert!(rt; exit_status(&Ok(())) == 0);
    assert!(rt; statuses(RunFault::Memory) == (1, 1) && statuses(RunFault::Read) == (2, 2));
    assert!(rt; statuses(RunFault::Write) == (3, 3));
}

/// The outputs that are right if memory is refused for some line or for no line.
const WHOLE_ANSWERS: [&str; 4] = ["", "[]\n", "[]\nnull\n", "[]\nnull\n\"0x80\"\n"];

#[test]
fn run_leaves_whole_answers(rt: HostRuntime) -> Result<(), AllocError> {
    let left = ran(rt.alloc(), b"c0\n\n8180\n", &SOUND)?;
    let written = left.written();
    if left.outcome == Err(RunFault::Memory) {
        assert!(rt; WHOLE_ANSWERS[..3].contains(&written));
        return Ok(());
    }
    assert!(rt; left.outcome == Ok(()) && written == WHOLE_ANSWERS[3]);
    Ok(())
}
