//! What arguments of the program that shows records ask for. A row has the arguments, and what they ask
//! for: `json` or `bytes`, `lines` or `record`, and the name of the kind.

use rlp_show::{Answers, Form, Request};
use rlp_vectors::files::Row;
use rlp_vectors::rows::Line;
use std::alloc::{AllocError, Global};

/// Tells what lines or a record are asked for.
fn told(alloc: Global, what: &str, answers: &Answers) -> Result<String, AllocError> {
    let form = match answers.form {
        Form::Json => "json ",
        Form::Bytes => "bytes ",
        Form::Text => "",
    };
    match answers.kind {
        Some(kind) => format!(in alloc; "{form}{what} {}", kind.name()),
        None => format!(in alloc; "{form}{what}"),
    }
}

/// Notes a row whose arguments ask for something else.
pub(crate) fn check(alloc: Global, row: &Row, wrong: &mut Line) -> Result<(), AllocError> {
    let mut words = Vec::new(alloc);
    for word in row.given.split_whitespace() {
        words.push(String::from_str(alloc, word)?)?;
    }
    let said = match &Request::of(words.as_slice()) {
        Request::Help => String::from_str(alloc, "help"),
        Request::Version => String::from_str(alloc, "version"),
        Request::Unknown => String::from_str(alloc, "unknown"),
        Request::Lines(answers) => told(alloc, "lines", answers),
        Request::Record(answers) => told(alloc, "record", answers),
    }?;
    wrong.note(
        "arguments",
        row.given.as_str(),
        said.as_str(),
        row.want.as_str(),
    );
    Ok(())
}
