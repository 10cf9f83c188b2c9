//! What `rlp_tool` answers to the rows of lines, of devices and of calls.
//!
//! A row has a call and how the devices behave, what they are given, and what the call tells. In what
//! is given and in what is told, `\n` and `\r` stand for the ends of lines, `<` and `>` around what is
//! repeated, as in `<00*32>`, and `{` and `}` around lists, one inside another: `{80*3}` stands for the
//! digits of 3 lists around the byte 80. Blanks at the end don't count.
//!
//! How devices behave is settings with `, ` between them. A setting is an error, or a name with a
//! number, or a name with two numbers for the first and the last call that fail. With one number,
//! each call from that number on fails.

use crate::devices::{Calls, Left, Plan, SOUND, ran, reader, writer};
use crate::sweeps;
use bytes::BytesMut;
use rlp::Encodable;
use rlp_examples::{Refusing, Trio};
use rlp_hand_written::Pair;
use rlp_rows::files::Row;
use rlp_rows::rows::{Line, at_length, cut, number, push_header};
use rlp_tool::{BuildFault, Built, StreamCall, build, finish_alike, finished_buffer, read_calls};
use std::alloc::{AllocError, Global};
use std::io;
use std::io::{ErrorKind, Read, Write};

/// Returns the plan of settings.
fn plan_of(settings: &str) -> Plan {
    let mut plan = SOUND;
    for setting in settings.split(", ") {
        let (name, value) = cut(setting);
        match name {
            "most" => plan.most = number(value),
            "room" => plan.room = number(value),
            "reads" => plan.reads = calls_of(value),
            "writes" => plan.writes = calls_of(value),
            "flushes" => plan.flushes = calls_of(value),
            "cut" => plan.cut = true,
            "Interrupted" => plan.error = Some(ErrorKind::Interrupted),
            "BrokenPipe" => plan.error = Some(ErrorKind::BrokenPipe),
            _ => {}
        }
    }
    plan
}

/// Returns the first and the last of the calls that fail.
fn calls_of(numbers: &str) -> Calls {
    match numbers.split_once(' ') {
        Some((first, last)) => Calls(number(first), number(last)),
        None => Calls(number(numbers), usize::MAX),
    }
}

/// Returns the digits of `lists` lists, one inside another, around the bytes of these digits. They
/// are written from the end.
fn nested(alloc: Global, inner: &str, lists: usize) -> Result<String, AllocError> {
    let mut backwards = match inner {
        "80" => Vec::from_slice(alloc, &[0x80])?,
        _ => Vec::new(alloc),
    };
    for _ in 0..lists {
        push_header(&mut backwards)?;
    }
    backwards.as_mut_slice().reverse();
    hex::encode(alloc, backwards.as_slice())
}

/// Returns the text that a part of a row stands for.
fn text_of(alloc: Global, short: &str) -> Result<String, AllocError> {
    let short = short
        .replace(alloc, "\\n", "\n")?
        .replace(alloc, "\\r", "\r")?;
    let mut text = String::new(alloc);
    for part in at_length(alloc, short.as_str(), "")?.split('{') {
        let (lists, rest) = part.split_once('}').unwrap_or(("", part));
        if let Some((inner, times)) = lists.split_once('*') {
            text.push_str(nested(alloc, inner, number(times))?.as_str())?;
        }
        text.push_str(rest)?;
    }
    Ok(text)
}

/// Tells what a call of a device returned: a number of bytes, or the kind of the error.
fn tell_returned(returned: io::Result<usize>, out: &mut String) -> Result<(), AllocError> {
    match returned {
        Ok(count) => write!(out, "{count}"),
        Err(error) => write!(out, "{:?}", error.kind()),
    }
}

/// Tells what follows each call of a reader of the bytes `c0`, whose buffers have these sizes: what it
/// returned, the number of calls of the device, the number of reads that are counted, and whether
/// the reader has failed. Then the bytes that were read.
fn tell_reader(
    alloc: Global,
    plan: &Plan,
    sizes: &str,
    out: &mut String,
) -> Result<(), AllocError> {
    let mut source = reader(b"c0", plan);
    let mut taken = Vec::new(alloc);
    for size in sizes.split(' ') {
        let mut buffer = [0u8; 8];
        let returned = source.read(&mut buffer[..number(size).min(8)]);
        if let Ok(count) = &returned {
            taken.extend_from_slice(buffer.get(..*count).unwrap_or(b""))?;
        }
        tell_returned(returned, out)?;
        let (calls, reads, failed) = (source.inner().calls, source.reads(), source.failed());
        write!(out, " {calls} {reads} {failed}, ")?;
    }
    out.push_str(std::str::from_utf8(taken.as_slice()).unwrap_or("no text"))
}

/// Tells what follows each call of a writer, which is bytes to write or `flush`: what it returned,
/// the numbers of writes and of flushes, and whether the writer has failed and whether it is
/// flushed. Then the bytes that were written.
fn tell_writer(
    alloc: Global,
    plan: &Plan,
    calls: &str,
    out: &mut String,
) -> Result<(), AllocError> {
    let mut sink = writer(alloc, plan)?;
    for call in calls.split(' ') {
        let returned = match call {
            "flush" => sink.flush().map(|()| 0),
            _ => sink.write(call.as_bytes()),
        };
        tell_returned(returned, out)?;
        let (writes, flushes) = (sink.inner().writes, sink.inner().flushes);
        let (failed, flushed) = (sink.failed(), sink.flushed());
        write!(out, " {writes} {flushes} {failed} {flushed}, ")?;
    }
    out.push_str(std::str::from_utf8(sink.inner().taken.as_slice()).unwrap_or("no text"))
}

/// Tells how a run ends: the outcome, the number of flushes, whether the run ended at the first
/// failure of its reader or writer, and what is written before. Each line is to be read by a call
/// of its own.
fn tell_run(left: &Left<'_>, plan: &Plan, out: &mut String) -> Result<(), AllocError> {
    let (source, sink) = (left.source.inner(), left.sink.inner());
    let (Calls(read, last_read), Calls(write, last_write)) = (plan.reads, plan.writes);
    let stops = (read > last_read || source.calls == read)
        && (write > last_write || source.calls == write && sink.writes == write);
    let written = left.written();
    write!(out, "{:?} {} {stops} {written}", left.outcome, sink.flushes)
}

/// Tells the text that a run wrote, if it ended with no error, and all was flushed.
fn tell_lines(left: &Left<'_>, out: &mut String) -> Result<(), AllocError> {
    if left.outcome == Ok(()) && left.sink.flushed() {
        out.push_str(left.written())
    } else {
        out.push_str("a run that failed")
    }
}

/// Tells the number of reads of a run, the length of the text that it wrote, and the number of its
/// lines.
fn tell_reads(left: &Left<'_>, out: &mut String) -> Result<(), AllocError> {
    let text = left.written();
    let (reads, lines) = (left.source.reads(), text.lines().count());
    write!(out, "{reads} {} {lines}", text.len())
}

/// Tells the result of calls after a front: finished bytes, or the size and the bytes with open lists,
/// or the fault.
fn tell_built<E: Encodable>(
    alloc: Global,
    front: &str,
    calls: &[StreamCall<E>],
    out: &mut String,
) -> Result<(), AllocError> {
    let mut buffer = BytesMut::new(alloc);
    buffer.extend_from_slice(front.as_bytes())?;
    match build(alloc, buffer, calls) {
        Ok(Built::Finished(bytes)) => write!(out, "finished {:?}", bytes.as_slice()),
        Ok(Built::Open { size, raw }) => write!(out, "open {size} {:?}", raw.as_slice()),
        Err(fault) => write!(out, "{fault:?}"),
    }
}

/// Tells the result of a list of a value and of a list of no values.
fn tell_pairs(alloc: Global, out: &mut String) -> Result<(), AllocError> {
    let calls = [
        StreamCall::Begin(2),
        StreamCall::Value(Pair(1, 2)),
        StreamCall::Values(Vec::new(alloc)),
    ];
    tell_built(alloc, "", calls.as_slice(), out)
}

/// Tells the result of a list with a value whose writing fails.
fn tell_refused(alloc: Global, out: &mut String) -> Result<(), AllocError> {
    let calls = [
        StreamCall::Begin(1),
        StreamCall::Value(Trio(1, Refusing, 3)),
    ];
    tell_built(alloc, "", calls.as_slice(), out)
}

/// Tells what a call of a row about a script, or two of them, answers.
fn tell_script(
    alloc: Global,
    call: &str,
    script: &str,
    out: &mut String,
) -> Result<(), AllocError> {
    let (one, other) = script.split_once(" / ").unwrap_or((script, ""));
    if call == "read" {
        return write!(out, "{:?}", read_calls(alloc, one.as_bytes()));
    }
    let (Ok(calls), Ok(second)) = (
        read_calls(alloc, one.as_bytes()),
        read_calls(alloc, other.as_bytes()),
    ) else {
        return out.push_str("scripts that aren't read");
    };
    let (first, second) = (calls.as_slice(), second.as_slice());
    match call {
        "built" => tell_built(alloc, "junk", first, out),
        "finished" => write!(out, "{:?}", finished_buffer(alloc, b"junk", first)),
        "alike" => write!(out, "{:?}", finish_alike(alloc, b"junk", first, second)),
        "pairs" => tell_pairs(alloc, out),
        _ => tell_refused(alloc, out),
    }
}

/// Tells what a call answers.
fn tell(
    alloc: Global,
    call: &str,
    plan: &Plan,
    given: &str,
    out: &mut String,
) -> Result<(), AllocError> {
    match call {
        "reader" => tell_reader(alloc, plan, given, out),
        "writer" => tell_writer(alloc, plan, given, out),
        "run" => tell_run(&ran(alloc, given.as_bytes(), plan)?, plan, out),
        "lines" => tell_lines(&ran(alloc, given.as_bytes(), plan)?, out),
        "reads" => tell_reads(&ran(alloc, given.as_bytes(), plan)?, out),
        "largest" => {
            let left = ran(alloc, given.as_bytes(), plan)?;
            write!(out, "{}", left.sink.inner().largest)
        }
        "needed" => sweeps::tell_needed(alloc, plan.most, out),
        "any" => sweeps::tell_any(alloc, plan, given, out),
        _ => tell_script(alloc, call, given, out),
    }
}

/// Notes a row whose call tells something else.
pub fn note_tool_row(alloc: Global, row: &Row, wrong: &mut Line) -> Result<(), AllocError> {
    let (call, given) = row
        .given
        .split_once(" | ")
        .unwrap_or((row.given.as_str(), ""));
    let (name, settings) = cut(call);
    let (given, want) = (text_of(alloc, given)?, text_of(alloc, row.want.as_str())?);
    let mut said = String::new(alloc);
    tell(alloc, name, &plan_of(settings), given.as_str(), &mut said)?;
    wrong.note(
        "tool",
        row.given.as_str(),
        said.trim_end_matches(' '),
        want.as_str(),
    );
    Ok(())
}
