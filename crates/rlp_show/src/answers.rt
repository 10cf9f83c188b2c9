//! The answers to lines.

ghost use Rattle.std.specs.Prelude.{◌≡◌, ◌++◌, Some, string_bytes, OnOk};
ghost use Rattle.rlp.specs.Views.View.{strict_view_of};
ghost use Rattle.rlp_show.specs.{Answers.{answer_of, bytes_text, guessed_text, long_line, longest_line, own_name, text_answer}, Guess.guess, Input.record_bytes};

use crate::faults::{put_error, put_fault};
use crate::given::Given;
use crate::guessing::guess;
use crate::input::{is_node_text, read_record};
use crate::kind::Kind;
use crate::known::put_known;
use rlp::{DecoderError, Rlp};
use rlp_lines::{LineAnswers, without_carriage_return};
use std::alloc::{AllocError, Global};

/// The most bytes that a line may have, without its newline.
const LONGEST_LINE: usize = 33_554_432;

/// The form of an answer.
#[derive(Debug, Clone, Copy, PartialEq, Eq)]
pub enum Form {
    /// A line for each field.
    Text,
    /// One JSON object, whose only key is the name of the kind, such as `accessList`.
    Json,
    /// A line for each field and for each header of a list, with its place in the bytes, and its
    /// bytes.
    Bytes,
}

/// How lines are answered.
#[derive(Debug, Clone, Copy, PartialEq, Eq)]
pub struct Answers {
    /// The kind of the records. For `None`, [`guess`](crate::guess) guesses the kind of each
    /// record.
    pub kind: Option<Kind>,
    /// The form of the answers.
    pub form: Form,
}

impl LineAnswers for Answers {
    ghost longest = { longest_line };

    ghost long_line = { long_line };

    ghost answer_within = { answer_of };

    fn longest() -> usize {
        LONGEST_LINE
    }

    fn long_line(&self) -> &'static str {
        match self.form {
            Form::Json => "{\"error\":{\"name\":\"\",\"fault\":\"long line\"}}",
            _ => "error long line",
        }
    }

    fn put_answer(&self, alloc: Global, line: &[u8], out: &mut String) -> Result<(), AllocError> {
        self.put_text(alloc, without_carriage_return(line), out)
    }
}

impl Answers {
    /// Appends the answer to a record that is given as text.
    fn put_text(&self, alloc: Global, text: &[u8], out: &mut String) -> Result<(), AllocError>
        ensures { OnOk result (string_bytes out.new ≡ string_bytes out.old
            ++ text_answer self.now text.now (record_bytes text.now)) }
    {
        match read_record(alloc, text)? {
            Some(bytes) => self.put_bytes(alloc, bytes.as_slice(), out),
            None if is_node_text(text) => put_fault(alloc, self.form, None, "", "base64", out),
            None => put_fault(alloc, self.form, None, "", "hex", out),
        }
    }

    /// Appends the answer to the bytes of a record.
    fn put_bytes(&self, alloc: Global, bytes: &[u8], out: &mut String) -> Result<(), AllocError>
        ensures { OnOk result (string_bytes out.new ≡ string_bytes out.old
            ++ bytes_text self.now.form self.now.kind bytes.now) }
    {
        match self.kind {
            Some(kind) => {
                let form = self.form;
                let name = own_name(form, kind);
                let given = Given {
                    alloc,
                    form,
                    kind,
                    name,
                    bytes,
                };
                put_known(&given, out)
            }
            None => put_guessed(alloc, self.form, bytes, out),
        }
    }
}

/// Returns the name of a whole record of a kind that isn't guessed.
fn own_name(form: Form, kind: Kind) -> &'static str
    ensures { result.now ≡ own_name form kind }
{
    match form {
        Form::Json => kind.name(),
        _ if kind.part().is_list() => kind.name(),
        _ => "",
    }
}

/// Appends the answer to the bytes of a record, whose kind is guessed.
fn put_guessed(alloc: Global, form: Form, bytes: &[u8], out: &mut String) -> Result<(), AllocError>
    ensures { OnOk result (string_bytes out.new ≡ string_bytes out.old
        ++ guessed_text form bytes.now (guess (strict_view_of bytes.now))) }
{
    match guess(&Rlp::new_strict(bytes)) {
        Ok(Some(kind)) => {
            let name = kind.name();
            let given = Given {
                alloc,
                form,
                kind,
                name,
                bytes,
            };
            put_known(&given, out)
        }
        Ok(None) => {
            let unknown = DecoderError::Custom("unknown kind");
            put_error(alloc, form, None, "", &unknown, out)
        }
        Err(fault) => put_error(alloc, form, None, "", &fault, out),
    }
}
