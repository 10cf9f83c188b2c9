//! The current line of the input.
ghost use Rattle.std.specs.Prelude.{◌≡◌, ◌≤◌, ◌++◌, ◌≢◌, ◌==◌, ℕ, List, [], ◌∷◌, length, position, string_bytes, OnOk, OnErr, IsTrue, ◌↔◌, ◌||◌, false};
ghost use Rattle.std.specs.Str.Lines.{strip_carriage_return};
ghost use Rattle.rlp_lines.specs.{Replies.{answer_by, has_fault, is_fault, reply, replies_to, says_fault}, Lines.{last_piece, unended_line}};
ghost use Rattle.rlp_lines.specs.{Progress.{IsOnePiece, IsLine, IsAfter}, Run.AreRepliesBefore};

use crate::answering::LineAnswers;
use memchr::memchr;
use std::alloc::{AllocError, Global};

/// The bytes of the current line, or the fact that it is too long, and whether a line before it was
/// at fault.
#[derive(Drop)]
pub(crate) struct Line {
    bytes: Vec<u8>,
    over: bool,
    faulty: bool,
    // A reply is built here, and then added to the earlier replies as a whole or not at all.
    reply: String,
}

impl Line {
    pub(crate) fn new(alloc: Global) -> Line
        ensures empty { (longest : ℕ) → IsLine longest result [] }
        ensures none { result.faulty ≡ false }
    {
        Line {
            bytes: Vec::new(alloc),
            over: false,
            faulty: false,
            reply: String::new(alloc),
        }
    }

    /// Adds bytes without a newline.
    fn extend<A: LineAnswers>(&mut self, run: &[u8]) -> Result<(), AllocError>
        ensures ok { (begun : List ℕ) → IsLine A.longest self.old begun
            → OnOk result (IsLine A.longest self.new (begun ++ run.now)) }
        ensures refused { OnErr result (run.now ≢ []) }
        ensures kept { self.new.faulty ≡ self.old.faulty }
    {
        if self.over || run.is_empty() {
            return Ok(());
        }
        if run.len() > A::longest().saturating_sub(self.bytes.len()) {
            self.over = true;
            return Ok(());
        }
        self.bytes.extend_from_slice(run)
    }

    /// Builds the answer in the buffer for replies.
    #[tactic(auto, unfolding(crate::specs::Replies::answer_by))]
    fn put_answer<A: LineAnswers>(&mut self, alloc: Global, answers: &A) -> Result<(), AllocError>
        ensures reply { (begun : List ℕ) → IsLine A.longest self.old begun
            → OnOk result (string_bytes self.new.reply ≡ answer_by A.longest (A.long_line answers.now) (A.answer_within answers.now) begun) }
        ensures kept { self.new.faulty ≡ self.old.faulty }
    {
        self.reply.clear();
        if self.over {
            return self.reply.push_str(answers.long_line());
        }
        answers.put_answer(alloc, self.bytes.as_slice(), &mut self.reply)
    }

    /// Appends the answer and a newline, or nothing. Notes a line that is at fault.
    fn reply<A: LineAnswers>(
        &mut self,
        alloc: Global,
        answers: &A,
        out: &mut String,
    ) -> Result<(), AllocError>
        ensures ok { (begun : List ℕ) → IsLine A.longest self.old begun
            → OnOk result (string_bytes out.new
            ≡ string_bytes out.old ++ reply (answer_by A.longest (A.long_line answers.now) (A.answer_within answers.now)) begun) }
        ensures noted { (begun : List ℕ) → IsLine A.longest self.old begun
            → OnOk result (self.new.faulty
            ≡ (self.old.faulty || is_fault (answer_by A.longest (A.long_line answers.now) (A.answer_within answers.now)) begun)) }
        ensures refused { OnErr result (string_bytes out.new ≡ string_bytes out.old) }
    {
        self.put_answer(alloc, answers)?;
        self.put_reply(out)
    }

    /// Appends what is in the buffer for replies and a newline, or nothing. Notes a fault.
    fn put_reply(&mut self, out: &mut String) -> Result<(), AllocError>
        ensures ok { OnOk result
            (string_bytes out.new ≡ string_bytes out.old ++ (string_bytes self.old.reply ++ 10 ∷ [])) }
        ensures noted { OnOk result
            (self.new.faulty ≡ (self.old.faulty || says_fault (string_bytes self.old.reply))) }
        ensures kept { (self.new.bytes ≡ self.old.bytes) × (self.new.over ≡ self.old.over) }
        ensures refused { OnErr result (string_bytes out.new ≡ string_bytes out.old) }
    {
        self.faulty |= says_fault(self.reply.as_str());
        self.reply.push('\n')?;
        out.push_str(self.reply.as_str())
    }

    /// Appends the reply to a whole line, which isn't kept before.
    #[tactic(auto, unfolding(crate::specs::Replies::answer_by))]
    fn reply_to<A: LineAnswers>(
        &mut self,
        alloc: Global,
        answers: &A,
        line: &[u8],
        out: &mut String,
    ) -> Result<(), AllocError>
        requires { length line.now ≤ A.longest }
        ensures ok { OnOk result (string_bytes out.new ≡ string_bytes out.old
            ++ reply (answer_by A.longest (A.long_line answers.now) (A.answer_within answers.now)) line.now) }
        ensures noted { OnOk result (self.new.faulty ≡ (self.old.faulty
            || is_fault (answer_by A.longest (A.long_line answers.now) (A.answer_within answers.now)) line.now)) }
        ensures kept { (self.new.bytes ≡ self.old.bytes) × (self.new.over ≡ self.old.over) }
        ensures refused { OnErr result (string_bytes out.new ≡ string_bytes out.old) }
    {
        self.reply.clear();
        answers.put_answer(alloc, line, &mut self.reply)?;
        self.put_reply(out)
    }

    /// Whether a line before the current one was at fault.
    pub(crate) fn is_faulty(&self) -> bool
        ensures { result ≡ self.now.faulty }
    {
        self.faulty
    }

    fn is_empty(&self) -> bool
        ensures { (longest : ℕ) (begun : List ℕ) → IsLine longest self.now begun
            → IsTrue result ↔ (begun ≡ []) }
    {
        !self.over && self.bytes.is_empty()
    }

    fn clear(&mut self)
        ensures empty { (longest : ℕ) → IsLine longest self.new [] }
        ensures kept { self.new.faulty ≡ self.old.faulty }
    {
        self.bytes.clear();
        self.over = false;
    }

    /// Adds the last bytes of the line, and appends the reply. A line that begins with these bytes isn't
    /// copied.
    fn end<A: LineAnswers>(
        &mut self,
        alloc: Global,
        answers: &A,
        run: &[u8],
        out: &mut String,
    ) -> Result<(), AllocError>
        ensures ok { (text written : List ℕ)
            → IsAfter A.longest (answer_by A.longest (A.long_line answers.now) (A.answer_within answers.now)) text written
            (string_bytes out.old) self.old
            → IsOnePiece run.now
            → OnOk result (IsAfter A.longest (answer_by A.longest (A.long_line answers.now) (A.answer_within answers.now))
            (text ++ run.now ++ 10 ∷ []) written (string_bytes out.new)
            self.new) }
        ensures refused { OnErr result (string_bytes out.new ≡ string_bytes out.old) }
    {
        if self.is_empty() && run.len() <= A::longest() {
            return self.reply_to(alloc, answers, run, out);
        }
        self.extend::<A>(run)?;
        self.reply(alloc, answers, out)?;
        self.clear();
        Ok(())
    }

    /// Takes bytes, and appends the replies to the lines that end in these bytes. It stops at the
    /// first line for which memory is refused.
    pub(crate) fn feed<A: LineAnswers>(
        &mut self,
        alloc: Global,
        answers: &A,
        bytes: &[u8],
        out: &mut String,
    ) -> Result<(), AllocError>
        ensures ok { (text written : List ℕ)
            → IsAfter A.longest (answer_by A.longest (A.long_line answers.now) (A.answer_within answers.now)) text written
            (string_bytes out.old) self.old
            → OnOk result (IsAfter A.longest (answer_by A.longest (A.long_line answers.now) (A.answer_within answers.now))
            (text ++ bytes.now) written (string_bytes out.new)
            self.new) }
        ensures refused { (text written : List ℕ)
            → IsAfter A.longest (answer_by A.longest (A.long_line answers.now) (A.answer_within answers.now)) text written
            (string_bytes out.old) self.old
            → OnErr result (AreRepliesBefore (answer_by A.longest (A.long_line answers.now) (A.answer_within answers.now)) text (text ++ bytes.now)
            (written ++ string_bytes out.new)) }
    {
        let mut rest = bytes;
        while let Some(at) = newline_at(rest) {
            let (run, others) = rest.split_at(at);
            self.end(alloc, answers, run, out)?;
            rest = &others[1..];
        }
        self.extend::<A>(rest)
    }

    /// Appends the reply to the last line, if it isn't empty.
    #[tactic(auto, using(crate::proofs::ProgressLemmas::last_line))]
    pub(crate) fn finish<A: LineAnswers>(
        &mut self,
        alloc: Global,
        answers: &A,
        out: &mut String,
    ) -> Result<(), AllocError>
        ensures ok { (text : List ℕ) → IsLine A.longest self.old (last_piece text)
            → OnOk result (string_bytes out.new
            ≡ string_bytes out.old
            ++ replies_to (answer_by A.longest (A.long_line answers.now) (A.answer_within answers.now)) (unended_line text)) }
        ensures noted { (text : List ℕ) → IsLine A.longest self.old (last_piece text)
            → OnOk result (self.new.faulty ≡ (self.old.faulty
            || has_fault (answer_by A.longest (A.long_line answers.now) (A.answer_within answers.now)) (unended_line text))) }
        ensures refused { (begun : List ℕ) → IsLine A.longest self.old begun
            → OnErr result (begun ≢ []) }
    {
        if self.is_empty() {
            return Ok(());
        }
        self.reply(alloc, answers, out)
    }
}

/// Whether an answer says that its line is at fault: it begins with `error`, or is an object of JSON
/// whose first key is `error`.
fn says_fault(answer: &str) -> bool
    ensures { result ≡ says_fault answer.now }
{
    answer.starts_with("error") || answer.starts_with("{\"error\"")
}

/// The place of the first newline.
#[tactic(auto, using(crate::proofs::LinesLemmas::first_byte))]
fn newline_at(bytes: &[u8]) -> Option<usize>
    ensures { result ≡ position (λ byte. byte == 10) bytes.now }
{
    memchr(b'\n', bytes)
}

/// The line without one carriage return at its end.
pub fn without_carriage_return(line: &[u8]) -> &[u8]
    ensures { result.now ≡ strip_carriage_return line.now }
{
    match line {
        [rest @ .., b'\r'] => rest,
        _ => line,
    }
}
