//! The answers to a whole input.
ghost use Rattle.std.specs.Prelude.{◌≡◌, false};
ghost use Rattle.rlp_lines.specs.Run.{RunLeaves};
ghost use Rattle.rlp_tool.specs.Answer.{answer};

use crate::answer::answer_within;
use rlp_lines::{LineAnswers, Noted, RunFault, answer_lines};
use std::alloc::{AllocError, Global};
use std::io::{Read, Write};

/// The answers of [`run`]: to lines of digits and to lines of calls.
struct ToolAnswers;

impl LineAnswers for ToolAnswers {
    ghost use Rattle.rlp_tool.specs.Answer.{answer_within, long_line, longest_line};

    ghost longest = { longest_line };

    ghost long_line = { λ _. long_line };

    ghost answer_within = { λ _. answer_within };

    fn longest() -> usize {
        131_072
    }

    fn long_line(&self) -> &'static str {
        "error long line"
    }

    fn put_answer(&self, alloc: Global, line: &[u8], out: &mut String) -> Result<(), AllocError> {
        answer_within(alloc, line, out)
    }
}

/// Answers each line of the input, a line of digits or of calls, until its end. The answer to a
/// line of more than 131,072 bytes is `error long line`. Fails with the [`RunFault`] that stopped
/// the run.
pub fn run<R: Read, W: Write>(
    alloc: Global,
    input: &mut Noted<R>,
    output: &mut Noted<W>,
) -> Result<(), RunFault>
    requires input { input.old.failed ≡ false }
    requires output { output.old.failed ≡ false }
    ensures { RunLeaves answer R.remaining W.contents
        input.old input.new output.old output.new result }
{
    match answer_lines(alloc, &ToolAnswers, input, output) {
        Ok(_) => Ok(()),
        Err(fault) => Err(fault),
    }
}
