//! Calls of `build` that don't allocate, and faults of calls and of syntax after the calls for which
//! memory is refused.
//!
//! `tools/refusals/run` refuses every allocation after a signal.

ghost use Rattle.std.specs.Prelude.{⊤};
ghost use Rattle.rlp.specs.Values.Value.{number_item};

use bytes::BytesMut;
use rlp::{Encodable, RlpStream};
use rlp_rows::signal::refuse_from_here;
use rlp_tool::{BuildFault, Built, Noted, StreamCall, build, run};
use rlp_tool_rows::devices::{SOUND, writer};
use std::alloc::{AllocError, Global};
use std::io;
use std::io::Read;
use std::test::Fail;

/// A line for which a run allocates, and a line that is answered after the signal.
const LINES: [&[u8]; 2] = [
    b"+d:6161616161616161616161616161616161616161\n",
    b"+d:6161616161 d:626262 x\n",
];

/// The answers to the two lines.
const ANSWERS: &[u8] = b"out 946161616161616161616161616161616161616161\nerror syntax at 3\n";

/// A reader that gives a line in each call, and the signal before the second.
#[derive(Drop)]
struct Signalling {
    alloc: Global,
    calls: usize,
}

impl Read for Signalling {
    fn read(&mut self, buf: &mut [u8]) -> io::Result<usize> {
        if self.calls >= LINES.len() {
            return Ok(0);
        }
        if self.calls == 1 {
            refuse_from_here(self.alloc);
        }
        let line = LINES[self.calls];
        self.calls += 1;
        let count = line.len().min(buf.len());
        buf[..count].copy_from_slice(&line[..count]);
        Ok(count)
    }
}

/// Returns whether both lines are answered.
fn lines_are_answered(alloc: Global) -> Result<bool, AllocError> {
    let mut source = Noted::new(Signalling { alloc, calls: 0 });
    let mut sink = writer(alloc, &SOUND)?;
    let outcome = run(alloc, &mut source, &mut sink);
    Ok(outcome.is_ok() && sink.inner().taken.as_slice() == ANSWERS)
}

#[test]
fn faults_of_syntax_need_no_memory(rt: HostRuntime) -> Result<(), Fail> {
    assert!(rt; lines_are_answered(rt.alloc())?);
    Ok(())
}

/// A value that is written as the number 1, after the signal.
#[derive(Drop)]
struct Signal(Global);

impl Encodable for Signal {
    ghost item = { λ s. number_item 1 };

    ghost fits = { λ s. ⊤ };

    #[tactic(auto, using(rlp::proofs::Writing::writing))]
    fn rlp_append(&self, s: &mut RlpStream) -> Result<(), AllocError> {
        refuse_from_here(self.0);
        1u8.rlp_append(s)
    }
}

/// Returns a buffer of four bytes, with room for more.
fn front(alloc: Global) -> Result<BytesMut, AllocError> {
    let mut buffer = BytesMut::with_capacity(alloc, 64)?;
    buffer.extend_from_slice(b"junk")?;
    Ok(buffer)
}

/// Returns whether no calls are made over a front.
fn is_front(built: Result<Built, BuildFault>) -> bool {
    match built {
        Ok(Built::Finished(bytes)) => bytes.as_slice() == b"junk".as_slice(),
        _ => false,
    }
}

/// Returns whether no calls, and a call that puts nothing, leave the front as it is.
fn nothing_is_built(alloc: Global) -> Result<bool, AllocError> {
    let (first, second) = (front(alloc)?, front(alloc)?);
    let none: [StreamCall<u8>; 0] = [];
    let clear: [StreamCall<u8>; 1] = [StreamCall::Clear];
    refuse_from_here(alloc);
    Ok(is_front(build(alloc, first, &none)) && is_front(build(alloc, second, &clear)))
}

#[test]
fn calls_that_put_nothing_need_no_memory(rt: HostRuntime) -> Result<(), Fail> {
    assert!(rt; nothing_is_built(rt.alloc())?);
    Ok(())
}

/// Returns whether raw bytes after the signal are refused: as two items in a list that awaits one,
/// and as a byte that has a needless header.
fn raw_bytes_are_refused(alloc: Global) -> Result<bool, AllocError> {
    let many = [
        StreamCall::Begin(2),
        StreamCall::Value(Signal(alloc)),
        StreamCall::Raw(Vec::from_slice(alloc, b"\x01\x02")?, 2),
    ];
    let needless = [
        StreamCall::Value(Signal(alloc)),
        StreamCall::Raw(Vec::from_slice(alloc, b"\x81\x05")?, 1),
    ];
    let (first, second) = (front(alloc)?, front(alloc)?);
    let too_many = build(alloc, first, &many).err() == Some(BuildFault::TooManyItems(3));
    let no_items = build(alloc, second, &needless).err() == Some(BuildFault::RawNotItems(2));
    Ok(too_many && no_items)
}

#[test]
fn faults_of_calls_need_no_memory(rt: HostRuntime) -> Result<(), Fail> {
    assert!(rt; raw_bytes_are_refused(rt.alloc())?);
    Ok(())
}
