//! What the arguments of the program ask for.

ghost use Rattle.std.specs.Prelude.{◌≡◌, map, string_bytes};

use crate::answers::{Answers, Form};
use crate::input::is_record;
use crate::kind::Kind;

/// What the arguments of the program ask for.
#[derive(Debug, Clone, Copy, PartialEq, Eq)]
pub enum Request {
    /// What the program does, and how it is called.
    Help,
    /// The name and the version of the program.
    Version,
    /// These answers to the lines of standard input.
    Lines(Answers),
    /// These answers to the lines of the last argument, which is a record.
    Record(Answers),
    /// Arguments that the program doesn't know.
    Unknown,
}

impl Request {
    ghost use Rattle.rlp_show.specs.Request.{form_request, record_request, request_of, word_request};

    /// What these arguments ask for, without the name of the program. They are nothing, a kind, a
    /// record, a kind and then a record, or one of `--help`, `-h`, `--version` and `-V`. Before all
    /// these may come `--json`, for answers in JSON, or `--bytes`, for answers with the place of
    /// each field. A record is an argument that begins with `0x` or `enr:`.
    pub fn of(words: &[String]) -> Request
        ensures { result ≡ request_of (map string_bytes words.now) }
    {
        match words {
            [first, rest @ ..] if first.as_str() == "--json" => Request::in_form(Form::Json, rest),
            [first, rest @ ..] if first.as_str() == "--bytes" => {
                Request::in_form(Form::Bytes, rest)
            }
            _ => Request::in_form(Form::Text, words),
        }
    }

    /// What arguments ask for, with answers in this form. The first argument may name a kind.
    fn in_form(form: Form, words: &[String]) -> Request
        ensures { result ≡ form_request form (map string_bytes words.now) }
    {
        match words {
            [first, rest @ ..] => match Kind::named(first.as_str()) {
                None => Request::of_rest(Answers { kind: None, form }, words),
                kind => Request::of_rest(Answers { kind, form }, rest),
            },
            [] => Request::Lines(Answers { kind: None, form }),
        }
    }

    /// What the arguments after the arguments for the form and the kind of the answers ask for.
    fn of_rest(answers: Answers, words: &[String]) -> Request
        ensures { result ≡ record_request answers (map string_bytes words.now) }
    {
        match words {
            [] => Request::Lines(answers),
            [word] if is_record(word.as_str()) => Request::Record(answers),
            [word] if answers.kind.is_none() => Request::of_word(word.as_str()),
            _ => Request::Unknown,
        }
    }

    /// What a single argument that is neither a kind nor a record asks for.
    fn of_word(word: &str) -> Request
        ensures { result ≡ word_request word.now }
    {
        match word {
            "--help" | "-h" => Request::Help,
            "--version" | "-V" => Request::Version,
            _ => Request::Unknown,
        }
    }
}
