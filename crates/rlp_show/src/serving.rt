//! The loop over the input, and what the program does for its arguments.

ghost use Rattle.std.specs.{Prelude.{◌≡◌, ◌≢◌, false, map, string_bytes, IfOk}, IoError.error_kind};
ghost use Rattle.rlp_lines.specs.{Lines.last_of, Run.RunLeaves, Run.TellsFault};
ghost use Rattle.rlp_show.specs.{Program.{Prints, Refuses, Serves, line_answer}, Answers.exit_status, Request.request_of};

use crate::answers::Answers;
use crate::help::{HELP, UNKNOWN_ARGUMENTS, USAGE, VERSION};
use crate::request::Request;
use rlp_lines::{Noted, RunFault, answer_lines, answer_text, write_and_flush};
use std::alloc::Global;
use std::io;
use std::io::{ErrorKind, Read, Write};

/// Answers each line of the input, until its end, with the record of the line, or with what is
/// wrong with the line, such as `long line` for a line of more than 32 MiB. Returns whether a line
/// was at fault, and fails with the [`RunFault`] that stopped the run.
pub fn run<R: Read, W: Write>(
    alloc: Global,
    answers: &Answers,
    input: &mut Noted<R>,
    output: &mut Noted<W>,
) -> Result<bool, RunFault>
    requires input { input.old.failed ≡ false }
    requires output { output.old.failed ≡ false }
    ensures leaves { RunLeaves (line_answer answers.now) R.remaining W.contents
        input.old input.new output.old output.new result }
    ensures faulty { IfOk result (TellsFault (line_answer answers.now)
        (R.remaining input.old.inner) (R.remaining input.new.inner)) }
{
    answer_lines(alloc, answers, input, output)
}

/// The exit status of the program after a run: 0 if no line was at fault, 5 if a line was, or the
/// status of the fault that stopped the run.
pub fn exit_status(outcome: &Result<bool, RunFault>) -> u8
    ensures { result ≡ exit_status outcome.now }
{
    match outcome {
        Ok(false) => 0,
        Ok(true) => 5,
        Err(fault) => fault.status(),
    }
}

/// Prints a text, and returns the exit status.
fn print<W: Write>(text: &str, output: &mut Noted<W>) -> u8
    requires { output.old.failed ≡ false }
    ensures { Prints text.now W.contents output.old output.new result }
{
    match write_and_flush(output, text.as_bytes()) {
        Ok(()) => 0,
        Err(fault) => fault.status(),
    }
}

/// Prints on standard error how the program is called, and returns the exit status.
fn refuse<E: Write>(errors: &mut Noted<E>) -> u8
    requires { errors.old.failed ≡ false }
    ensures { Refuses USAGE.now E.contents errors.old errors.new result }
{
    let _printed = print(USAGE, errors);
    UNKNOWN_ARGUMENTS
}

/// The last word, or the empty text if there are no words.
fn last_word(words: &[String]) -> &str
    ensures { result.now ≡ last_of (map string_bytes words.now) }
{
    match words {
        [.., word] => word.as_str(),
        [] => "",
    }
}

/// Does what the arguments ask for, and returns the exit status of the program. `words` are the
/// arguments after its name, `input` and `output` its standard input and output, and `errors` its
/// standard error.
///
/// `--help` prints [`HELP`], and `--version` prints [`VERSION`]. If a record is among the
/// arguments, it is answered as if it were the whole input, and the input isn't read. Without a
/// record the lines of the input are answered. Arguments that the program doesn't know are answered
/// by [`USAGE`] on standard error.
pub fn serve_request<R: Read, W: Write, E: Write>(
    alloc: Global,
    words: &[String],
    input: &mut Noted<R>,
    output: &mut Noted<W>,
    errors: &mut Noted<E>,
) -> u8
    requires input { input.old.failed ≡ false }
    requires output { output.old.failed ≡ false }
    requires errors { errors.old.failed ≡ false }
    ensures { Serves (request_of (map string_bytes words.now)) (last_of (map string_bytes words.now))
        R.remaining W.contents E.contents
        input.old input.new output.old output.new errors.old errors.new result }
{
    let word = last_word(words).as_bytes();
    match Request::of(words) {
        Request::Help => print(HELP, output),
        Request::Version => print(VERSION, output),
        Request::Lines(answers) => exit_status(&run(alloc, &answers, input, output)),
        Request::Record(answers) => exit_status(&answer_text(alloc, &answers, word, output)),
        Request::Unknown => refuse(errors),
    }
}

/// Returns the exit status of the program if the arguments can't be read. If memory was refused, it
/// prints nothing, and returns the status of refused memory. Else it prints [`USAGE`] on standard
/// error, and returns the status of unknown arguments.
pub fn refuse_arguments<E: Write>(fault: &io::Error, errors: &mut Noted<E>) -> u8
    requires { errors.old.failed ≡ false }
    ensures memory { error_kind fault.now ≡ ErrorKind.OutOfMemory
        → (result ≡ 1) × (errors.new ≡ errors.old) }
    ensures unknown { error_kind fault.now ≢ ErrorKind.OutOfMemory
        → Refuses USAGE.now E.contents errors.old errors.new result }
{
    match fault.kind() {
        ErrorKind::OutOfMemory => RunFault::Memory.status(),
        _ => refuse(errors),
    }
}
