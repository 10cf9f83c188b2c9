//! The signal of the tests of calls that don't allocate. `tools/refusals/run` refuses every allocation
//! after it. It is an allocation of `SIGNAL` bytes.

use std::alloc::Global;

/// The number of bytes that is requested as the signal.
const SIGNAL: usize = 77_777;

/// Gives the signal. The result of the allocation makes no difference.
pub fn refuse_from_here(alloc: Global) {
    drop(Vec::<u8>::with_capacity(alloc, SIGNAL));
}
