//! The answer to one line.

ghost use Rattle.std.specs.Prelude.{◌≡◌, ◌++◌, [], decimal, string_bytes, OnOk};
ghost use Rattle.rlp_lines.specs.Digits.{bytes_in};
ghost use Rattle.rlp_tool.specs.{Answer.{answer_within, calls_answer, digits_answer, finished_answer, open_answer, state_answer, view_answer}, Making.AppendsFault, Script.script};

use crate::building::BuildFault;
use crate::laws::raw_items_pass_the_test;
use crate::making::{LineFault, make_script};
use rlp::{Rlp, RlpStream};
use rlp_lines::{push_bytes, read_bytes, without_carriage_return};
use std::alloc::{AllocError, Global};
use std::fmt::Write;

/// The greatest depth that is printed.
const DEEPEST_NESTING: usize = 256;

/// Appends the answer to a line that isn't too long.
pub(crate) fn answer_within(alloc: Global, line: &[u8], out: &mut String) -> Result<(), AllocError>
    ensures { OnOk result (string_bytes out.new ≡ string_bytes out.old ++ answer_within line.now) }
{
    match without_carriage_return(line) {
        [b'+', text @ ..] => script_answer(alloc, text, out),
        digits => digits_answer(alloc, digits, out),
    }
}

/// Appends the answer to a line of digits.
fn digits_answer(alloc: Global, text: &[u8], out: &mut String) -> Result<(), AllocError>
    ensures { OnOk result
        (string_bytes out.new ≡ string_bytes out.old ++ digits_answer (bytes_in text.now)) }
{
    match read_bytes(alloc, text)? {
        Some(bytes) => view_answer(bytes.as_slice(), out),
        None => out.push_str("error hex"),
    }
}

/// Appends the text of the view of these bytes, or `error deep` if its lists nest too deep.
fn view_answer(bytes: &[u8], out: &mut String) -> Result<(), AllocError>
    ensures { OnOk result (string_bytes out.new ≡ string_bytes out.old ++ view_answer bytes.now) }
{
    let view = Rlp::new(bytes);
    if !view.is_nested_within(DEEPEST_NESTING) {
        return out.push_str("error deep");
    }
    match write!(out, "{view}") {
        Ok(()) => Ok(()),
        Err(_) => Err(AllocError),
    }
}

/// Appends a finished buffer.
fn put_finished(bytes: &[u8], out: &mut String) -> Result<(), AllocError>
    ensures { OnOk result
        (string_bytes out.new ≡ string_bytes out.old ++ finished_answer bytes.now) }
{
    if bytes.is_empty() {
        return out.push_str("out");
    }
    out.push_str("out ")?;
    push_bytes(bytes, out)
}

/// Appends the size and the bytes of a buffer with open lists.
fn put_open(size: usize, raw: &[u8], out: &mut String) -> Result<(), AllocError>
    ensures { OnOk result
        (string_bytes out.new ≡ string_bytes out.old ++ open_answer size raw.now) }
{
    match write!(out, "open {size} ") {
        Ok(()) => push_bytes(raw, out),
        Err(_) => Err(AllocError),
    }
}

/// Appends a fault and its place.
fn put_fault(name: &str, place: usize, out: &mut String) -> Result<(), AllocError>
    ensures { OnOk result
        (string_bytes out.new ≡ string_bytes out.old ++ (name.now ++ decimal place)) }
{
    match write!(out, "{name}{place}") {
        Ok(()) => Ok(()),
        Err(_) => Err(AllocError),
    }
}

/// Appends the fault of a script. Fails with `AllocError` too if the fault is that memory was
/// refused for a call.
fn put_script_fault(fault: &LineFault, out: &mut String) -> Result<(), AllocError>
    ensures { OnOk result
        (AppendsFault (string_bytes out.old) (string_bytes out.new) fault.now) }
{
    match fault {
        LineFault::Syntax(place) => put_fault("error syntax at ", *place, out),
        LineFault::Failed(fault) => match fault {
            BuildFault::TooManyItems(place) => put_fault("error too many items at ", *place, out),
            BuildFault::NothingToFinish(place) => {
                put_fault("error nothing to finish at ", *place, out)
            }
            BuildFault::RawNotItems(place) => put_fault("error raw not items at ", *place, out),
            BuildFault::OutOfMemory => Err(AllocError),
        },
    }
}

/// Appends the result of the calls on a stream without a front.
fn put_result(stream: RlpStream, out: &mut String) -> Result<(), AllocError>
    requires { stream.state.front ≡ [] }
    ensures { OnOk result (string_bytes out.new
        ≡ string_bytes out.old ++ state_answer stream.state.stack.lists stream.state) }
{
    if stream.is_finished() {
        return put_finished(stream.out().as_slice(), out);
    }
    put_open(stream.len(), stream.as_raw(), out)
}

/// Appends the answer to a script.
fn script_answer(alloc: Global, text: &[u8], out: &mut String) -> Result<(), AllocError>
    ensures { OnOk result
        (string_bytes out.new ≡ string_bytes out.old ++ calls_answer (script text.now)) }
{
    raw_items_pass_the_test();
    match make_script(alloc, text) {
        Ok(stream) => put_result(stream, out),
        Err(fault) => put_script_fault(&fault, out),
    }
}
