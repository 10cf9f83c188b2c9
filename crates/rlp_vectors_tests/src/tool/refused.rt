//! Calls as values, made in order, and lines. One call or line is refused memory.
//!
//! `tools/refusals/run` refuses each allocation of these tests in turn. A test then returns
//! `AllocError`.

use bytes::BytesMut;
use rlp_tool::{BuildFault, Built, RunFault, StreamCall, build, run};
use rlp_tool_rows::devices::{SOUND, reader, writer};
use std::alloc::{AllocError, Global};
use std::test::Fail;

/// Returns whether a list of two texts in a list, and then an empty text, is built. Fails if memory
/// is refused.
fn texts_are_built(alloc: Global) -> Result<bool, AllocError> {
    let calls = [
        StreamCall::Begin(2),
        StreamCall::Begin(2),
        StreamCall::Value("cat"),
        StreamCall::Value("dog"),
        StreamCall::Value(""),
    ];
    match build(alloc, BytesMut::new(alloc), calls.as_slice()) {
        Ok(Built::Finished(bytes)) => {
            Ok(bytes.as_slice() == b"\xca\xc8\x83cat\x83dog\x80".as_slice())
        }
        Err(BuildFault::OutOfMemory) => Err(AllocError),
        _ => Ok(false),
    }
}

#[test]
fn texts_in_lists(rt: HostRuntime) -> Result<(), Fail> {
    assert!(rt; texts_are_built(rt.alloc())?);
    Ok(())
}

/// Returns whether a run over three lines flushes once, at its end. If memory is refused, it
/// doesn't flush.
fn flushes_at_its_end_alone(alloc: Global) -> Result<bool, AllocError> {
    let mut source = reader(b"c20506\n+l:1 d:2a\n80", &SOUND);
    let mut sink = writer(alloc, &SOUND)?;
    let outcome = run(alloc, &mut source, &mut sink);
    let flushes = sink.inner().flushes;
    match outcome {
        Ok(()) => Ok(flushes == 1),
        Err(RunFault::Memory | RunFault::Write) if flushes == 0 => Err(AllocError),
        Err(_) => Ok(false),
    }
}

#[test]
fn lines_that_lack_memory(rt: HostRuntime) -> Result<(), Fail> {
    assert!(rt; flushes_at_its_end_alone(rt.alloc())?);
    Ok(())
}
