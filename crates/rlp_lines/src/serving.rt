//! The loop over the input.
ghost use Rattle.std.specs.{Prelude.{◌≡◌, ◌-◌, ◌^◌, ◌++◌, ◌<◌, ◌⊎◌, ℕ, List, OnOk, OnErr, IfErr, IfOk, Option, string_bytes, true, false}, Io.KnownBytes.{Appends}};
ghost use Rattle.rlp_lines.specs.{Lines.lines, Replies.{answer_by, has_fault, replies}, Progress.{IsServed, IsStop}, Run.{AppendsPart, RunLeaves, TellsFault, TextLeaves}};

use crate::answering::LineAnswers;
use crate::line::Line;
use crate::noted::Noted;
use std::alloc::Global;
use std::io::{Read, Write};

/// The most bytes of one read.
const CHUNK: usize = 16_384;

/// Why a run ended before the end of its input. The run has written whole answers only, except
/// after `Write`.
#[derive(Debug, PartialEq, Eq, Drop)]
pub enum RunFault {
    /// Memory was refused. The run has written the answers to exactly the lines before some line,
    /// which had not ended before the last read.
    Memory,
    /// A read failed, or the count of reads was at `u64::MAX` before the end of the input.
    Read,
    /// A write or the last flush failed, or a write took no byte.
    Write,
}

impl RunFault {
    ghost use Rattle.rlp_lines.specs.Status.{status_of};

    /// The exit status of a program after this fault.
    pub fn status(&self) -> u8
        ensures { result ≡ status_of self.now }
    {
        match self {
            RunFault::Memory => 1,
            RunFault::Read => 2,
            RunFault::Write => 3,
        }
    }
}

/// Writes all the bytes.
fn write_whole<W: Write>(output: &mut Noted<W>, bytes: &[u8]) -> Result<(), RunFault>
    ensures ok { OnOk result (Appends (W.contents output.old.inner)
        (W.contents output.new.inner) bytes.now) }
    ensures kept { OnOk result (output.new.failed ≡ output.old.failed) }
    ensures part { OnErr result (AppendsPart (W.contents output.old.inner)
        (W.contents output.new.inner) bytes.now) }
    ensures failed { OnErr result (output.new.failed ≡ true) }
    ensures fault { IfErr result (λ fault. fault ≡ RunFault.Write) }
{
    let mut rest = bytes;
    while !rest.is_empty() {
        match output.write(rest) {
            Ok(0) => return Err(RunFault::Write),
            Ok(count) => rest = &rest[count..],
            Err(_) => return Err(RunFault::Write),
        }
    }
    Ok(())
}

/// Writes all the bytes, and flushes. Fails with [`RunFault::Write`], and may then have written
/// some first bytes.
pub fn write_and_flush<W: Write>(output: &mut Noted<W>, bytes: &[u8]) -> Result<(), RunFault>
    ensures ok { OnOk result (Appends (W.contents output.old.inner)
        (W.contents output.new.inner) bytes.now) }
    ensures kept { OnOk result (output.new.failed ≡ output.old.failed) }
    ensures flushed { OnOk result (output.new.flushed ≡ true) }
    ensures part { OnErr result (AppendsPart (W.contents output.old.inner)
        (W.contents output.new.inner) bytes.now) }
    ensures failed { OnErr result (output.new.failed ≡ true) }
    ensures fault { IfErr result (λ fault. fault ≡ RunFault.Write) }
{
    write_whole(output, bytes)?;
    match output.flush() {
        Ok(()) => Ok(()),
        Err(_) => Err(RunFault::Write),
    }
}

/// Answers the lines that end in these bytes, up to the first line for which memory is refused.
fn serve<A: LineAnswers, W: Write>(
    alloc: Global,
    answers: &A,
    line: &mut Line,
    pending: &mut String,
    output: &mut Noted<W>,
    bytes: &[u8],
) -> Result<(), RunFault>
    ensures ok { (start : Option (List ℕ)) (text : List ℕ)
        → IsServed A.longest (answer_by A.longest (A.long_line answers.now) (A.answer_within answers.now)) start
        (W.contents output.old.inner) text line.old
        → OnOk result (IsServed A.longest (answer_by A.longest (A.long_line answers.now) (A.answer_within answers.now)) start
        (W.contents output.new.inner) (text ++ bytes.now) line.new) }
    ensures kept { OnOk result (output.new.failed ≡ output.old.failed) }
    ensures stop { (start : Option (List ℕ)) (text : List ℕ)
        → IsServed A.longest (answer_by A.longest (A.long_line answers.now) (A.answer_within answers.now)) start
        (W.contents output.old.inner) text line.old
        → IfErr result (λ fault. IsStop (answer_by A.longest (A.long_line answers.now) (A.answer_within answers.now)) fault start
        (W.contents output.new.inner) text (text ++ bytes.now) output.new.failed) }

    // The finished replies are written even if memory was refused after them.
    ensures waiting { result ≡ Err RunFault.Memory → Appends (W.contents output.old.inner)
        (W.contents output.new.inner) (string_bytes pending.new) }
{
    pending.clear();
    match line.feed(alloc, answers, bytes, pending) {
        Ok(()) => write_whole(output, pending.as_bytes()),
        Err(_) => match write_whole(output, pending.as_bytes()) {
            Ok(()) => Err(RunFault::Memory),
            Err(fault) => Err(fault),
        },
    }
}

/// Answers a last line without a newline, and flushes.
fn finish<A: LineAnswers, W: Write>(
    alloc: Global,
    answers: &A,
    line: &mut Line,
    pending: &mut String,
    output: &mut Noted<W>,
) -> Result<(), RunFault>
    ensures ok { (start : Option (List ℕ)) (text : List ℕ)
        → IsServed A.longest (answer_by A.longest (A.long_line answers.now) (A.answer_within answers.now)) start
        (W.contents output.old.inner) text line.old
        → OnOk result (Appends start (W.contents output.new.inner)
        (replies (answer_by A.longest (A.long_line answers.now) (A.answer_within answers.now)) text)) }
    ensures noted { (start : Option (List ℕ)) (text : List ℕ)
        → IsServed A.longest (answer_by A.longest (A.long_line answers.now) (A.answer_within answers.now)) start
        (W.contents output.old.inner) text line.old
        → OnOk result (line.new.faulty
        ≡ has_fault (answer_by A.longest (A.long_line answers.now) (A.answer_within answers.now)) (lines text)) }
    ensures kept { OnOk result (output.new.failed ≡ output.old.failed) }
    ensures flushed { OnOk result (output.new.flushed ≡ true) }
    ensures stop { (start : Option (List ℕ)) (text : List ℕ)
        → IsServed A.longest (answer_by A.longest (A.long_line answers.now) (A.answer_within answers.now)) start
        (W.contents output.old.inner) text line.old
        → IfErr result (λ fault. IsStop (answer_by A.longest (A.long_line answers.now) (A.answer_within answers.now)) fault start
        (W.contents output.new.inner) text text output.new.failed) }
{
    pending.clear();
    match line.finish(alloc, answers, pending) {
        Ok(()) => write_and_flush(output, pending.as_bytes()),
        Err(_) => Err(RunFault::Memory),
    }
}

/// Answers each line of the input as `answers` says, until its end. Returns whether an answer says
/// that its line is at fault: it begins with `error`, or is an object of JSON whose first key is
/// `error`. Fails with the [`RunFault`] that stopped the run.
pub fn answer_lines<A: LineAnswers, R: Read, W: Write>(
    alloc: Global,
    answers: &A,
    input: &mut Noted<R>,
    output: &mut Noted<W>,
) -> Result<bool, RunFault>
    requires input { input.old.failed ≡ false }
    requires output { output.old.failed ≡ false }
    ensures leaves { RunLeaves (answer_by A.longest (A.long_line answers.now) (A.answer_within answers.now)) R.remaining W.contents
        input.old input.new output.old output.new result }
    ensures faulty { IfOk result (TellsFault (answer_by A.longest (A.long_line answers.now) (A.answer_within answers.now))
        (R.remaining input.old.inner) (R.remaining input.new.inner)) }
{
    let mut line = Line::new(alloc);
    let mut pending = String::new(alloc);
    let mut buffer = [0u8; CHUNK];
    'reading: while input.reads() < u64::MAX {
        let count = match input.read(&mut buffer) {
            Ok(count) => count,
            Err(_) => return Err(RunFault::Read),
        };
        if count == 0 {
            finish(alloc, answers, &mut line, &mut pending, output)?;
            return Ok(line.is_faulty());
        }
        let chunk = &buffer[..count];
        serve(alloc, answers, &mut line, &mut pending, output, chunk)?;
    }
    Err(RunFault::Read)
}

/// Answers each line of a text, as [`answer_lines`] answers the lines of an input, and flushes.
/// Fails with [`RunFault::Memory`] or [`RunFault::Write`].
pub fn answer_text<A: LineAnswers, W: Write>(
    alloc: Global,
    answers: &A,
    text: &[u8],
    output: &mut Noted<W>,
) -> Result<bool, RunFault>
    requires { output.old.failed ≡ false }
    ensures { TextLeaves (answer_by A.longest (A.long_line answers.now) (A.answer_within answers.now)) text.now W.contents
        output.old output.new result }
{
    let mut line = Line::new(alloc);
    let mut pending = String::new(alloc);
    serve(alloc, answers, &mut line, &mut pending, output, text)?;
    finish(alloc, answers, &mut line, &mut pending, output)?;
    Ok(line.is_faulty())
}
