//! A reader and a writer that move a few bytes in each call, and fail at chosen calls.

ghost use Rattle.std.specs.Prelude.{◌≡◌, false, IfOk};

use rlp_tool::{Noted, RunFault, run};
use std::alloc::{AllocError, Global};
use std::io;
use std::io::{ErrorKind, Read, Write};

/// The first and the last of the calls that fail, counted from 1.
#[derive(Clone, Copy)]
pub struct Calls(pub usize, pub usize);

impl Calls {
    /// Whether this call fails.
    fn has(self, call: usize) -> bool {
        self.0 <= call && call <= self.1
    }
}

/// No call.
pub const NEVER: Calls = Calls(1, 0);

/// How the reader and the writer of a run behave: the greatest number of bytes that a call moves, the
/// reads, writes and flushes that fail, whether a read fails at the end of the input, the number of
/// bytes that the writer takes in all, and the error of what fails. With no error, a write takes no
/// byte, and a read times out.
#[derive(Clone, Copy)]
pub struct Plan {
    pub most: usize,
    pub reads: Calls,
    pub writes: Calls,
    pub flushes: Calls,
    pub cut: bool,
    pub room: usize,
    pub error: Option<ErrorKind>,
}

/// The plan in which no call fails.
pub const SOUND: Plan = Plan {
    most: usize::MAX,
    reads: NEVER,
    writes: NEVER,
    flushes: NEVER,
    cut: false,
    room: usize::MAX,
    error: None,
};

/// A reader of some bytes that counts its calls.
#[derive(Drop)]
pub struct Source<'a> {
    pub bytes: &'a [u8],
    pub plan: Plan,
    pub calls: usize,
}

impl<'a> Read for Source<'a> {
    fn read(&mut self, buf: &mut [u8]) -> io::Result<usize> {
        self.calls = self.calls.saturating_add(1);
        if self.plan.reads.has(self.calls) || self.plan.cut && self.bytes.is_empty() {
            let error = self.plan.error.unwrap_or(ErrorKind::TimedOut);
            return Err(io::Error::from(error));
        }
        let count = self.plan.most.min(self.bytes.len()).min(buf.len());
        let (front, rest) = self.bytes.split_at(count);
        buf[..count].copy_from_slice(front);
        self.bytes = rest;
        Ok(count)
    }
}

/// A writer that counts its calls, and keeps the number of bytes of the largest write. A write that
/// fails, or for which there is no room, gives the error of the plan.
#[derive(Drop)]
pub struct Sink {
    pub taken: Vec<u8>,
    pub plan: Plan,
    pub largest: usize,
    pub writes: usize,
    pub flushes: usize,
}

impl Write for Sink {
    fn write(&mut self, buf: &[u8]) -> io::Result<usize> {
        self.writes = self.writes.saturating_add(1);
        let room = self.plan.room;
        if room == 0 || self.plan.writes.has(self.writes) {
            return match self.plan.error {
                Some(error) => Err(io::Error::from(error)),
                None => Ok(0),
            };
        }
        let count = self.plan.most.min(room).min(buf.len());
        self.plan.room = room - count;
        let (front, _) = buf.split_at(count);
        self.taken.extend_from_slice(front)?;
        self.largest = self.largest.max(count);
        Ok(count)
    }

    fn flush(&mut self) -> io::Result<()> {
        self.flushes = self.flushes.saturating_add(1);
        if self.plan.flushes.has(self.flushes) {
            return Err(io::Error::from(ErrorKind::StorageFull));
        }
        Ok(())
    }
}

/// Returns a reader of these bytes.
pub fn reader<'a>(bytes: &'a [u8], plan: &Plan) -> Noted<Source<'a>>
    ensures { result.failed ≡ false }
{
    Noted::new(Source {
        bytes,
        plan: *plan,
        calls: 0,
    })
}

/// Returns a writer that has room for the first 1,024 bytes without an allocation.
pub fn writer(alloc: Global, plan: &Plan) -> Result<Noted<Sink>, AllocError>
    ensures { IfOk result (λ sink. sink.failed ≡ false) }
{
    Ok(Noted::new(Sink {
        taken: Vec::with_capacity(alloc, 1024)?,
        plan: *plan,
        largest: 0,
        writes: 0,
        flushes: 0,
    }))
}

/// The outcome of a run, and its devices after it.
#[derive(Drop)]
pub struct Left<'a> {
    pub outcome: Result<(), RunFault>,
    pub source: Noted<Source<'a>>,
    pub sink: Noted<Sink>,
}

impl<'a> Left<'a> {
    /// The text that was written.
    pub fn written(&self) -> &str {
        std::str::from_utf8(self.sink.inner().taken.as_slice()).unwrap_or("no text")
    }
}

/// Runs the tool over these bytes.
pub fn ran<'a>(alloc: Global, input: &'a [u8], plan: &Plan) -> Result<Left<'a>, AllocError> {
    let mut source = reader(input, plan);
    let mut sink = writer(alloc, plan)?;
    let outcome = run(alloc, &mut source, &mut sink);
    Ok(Left {
        outcome,
        source,
        sink,
    })
}
