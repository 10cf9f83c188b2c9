//! Runs over devices that fail at each of their calls in turn, and over devices of every kind.

use crate::devices::{Calls, Left, Plan, SOUND, ran};
use rlp_tool::RunFault;
use std::alloc::{AllocError, Global};
use std::io::ErrorKind;

/// Four lines, and the replies to them.
const INPUT: &str = "c20506\nc0\n\n+l:2 l:2 d:636174 d:646f67 d:\n";

const REPLIES: &str = "[\"0x05\", \"0x06\"]\n[]\nnull\nout cac88363617483646f6780\n";

/// The greatest number of calls in a sweep.
const MOST_CALLS: usize = 100;

/// Returns whether a run returned `Ok` and wrote all replies, and neither device failed.
fn is_whole(left: &Left<'_>) -> bool {
    left.outcome == Ok(())
        && !left.source.failed()
        && !left.sink.failed()
        && left.written() == REPLIES
}

/// Returns the number of bytes of the replies to the lines that end in the first `read` bytes of
/// the input.
fn replied(read: usize) -> usize {
    let front = INPUT.get(..read).unwrap_or(INPUT);
    let ended = front.split('\n').count().saturating_sub(1);
    let mut replied = 0usize;
    for line in REPLIES.lines().take(ended) {
        replied = replied.saturating_add(line.len()).saturating_add(1);
    }
    replied
}

/// Returns whether a run ended with the fault of the device that failed, and wrote at least `least`
/// and at most `greatest` bytes of the replies and nothing else.
fn is_cut(left: &Left<'_>, fault: RunFault, least: usize, greatest: usize) -> bool {
    let written = left.written();
    left.source.failed() == (fault == RunFault::Read)
        && left.sink.failed() == (fault == RunFault::Write)
        && left.outcome == Err(fault)
        && written.len() >= least
        && written.len() <= greatest
        && REPLIES.starts_with(written)
}

/// Returns the first call at which a failure of the reader, or of the writer with this error, makes
/// no difference, if each call moves `most` bytes. Returns `None` if a run with an earlier failure
/// has another result than expected.
fn calls_needed(
    alloc: Global,
    most: usize,
    is_reader: bool,
    error: Option<ErrorKind>,
) -> Result<Option<usize>, AllocError> {
    for calls in 0..MOST_CALLS {
        let fails = Calls(calls + 1, usize::MAX);
        let mut plan = SOUND;
        plan.most = most;
        plan.error = error;
        if is_reader {
            plan.reads = fails;
        } else {
            plan.writes = fails;
        }
        let left = ran(alloc, INPUT.as_bytes(), &plan)?;
        if is_whole(&left) {
            return Ok(Some(calls));
        }
        let answered = replied(calls.saturating_mul(most));
        let is_cut = if is_reader {
            is_cut(&left, RunFault::Read, answered, answered)
        } else {
            is_cut(&left, RunFault::Write, calls, usize::MAX)
        };
        if !is_cut {
            return Ok(None);
        }
    }
    Ok(None)
}

/// Tells the first calls at which a failure of the reader, of the writer with an error, and of a
/// writer that takes no byte make no difference, if each call moves `most` bytes.
pub(crate) fn tell_needed(alloc: Global, most: usize, out: &mut String) -> Result<(), AllocError> {
    let reads = calls_needed(alloc, most, true, None)?;
    let writes = calls_needed(alloc, most, false, Some(ErrorKind::BrokenPipe))?;
    let zeros = calls_needed(alloc, most, false, None)?;
    write!(out, "{reads:?} {writes:?} {zeros:?}")
}

/// Tells how a run over an input ends: the outcome, whether the reader and the writer failed, and
/// what is written.
fn told(alloc: Global, plan: &Plan, input: &str) -> Result<String, AllocError> {
    let left = ran(alloc, input.as_bytes(), plan)?;
    let (reader, writer) = (left.source.failed(), left.sink.failed());
    format!(in alloc; "{:?} {reader} {writer} {}", left.outcome, left.written())
}

/// Tells how runs end over devices that move at most 1, 2 and 4,096 bytes in each call, and that fail
/// with an error and without one. All are to end alike.
pub(crate) fn tell_any(
    alloc: Global,
    plan: &Plan,
    input: &str,
    out: &mut String,
) -> Result<(), AllocError> {
    for most in [1, 2, 4096] {
        for error in [Some(ErrorKind::BrokenPipe), None] {
            let said = told(
                alloc,
                &Plan {
                    most,
                    error,
                    ..*plan
                },
                input,
            )?;
            if out.as_str() != said.as_str() {
                out.push_str(said.as_str())?;
            }
        }
    }
    Ok(())
}
