//! What the program that shows records answers to the rows of records.
//!
//! What is given is the name of a kind, or `any` if it is guessed, and the text of a line. In an
//! answer in text `; ` stands between two lines, and `* ` behind what each line after it begins with:
//! `to.* a; b` stands for `to.a` and `to.b`. `<` and `>` stand around a name, or around what is
//! repeated, as in `<00*32>`.
//!
//! A line may also be a record that has a name with other items, as `header: number = 05; nonce = 80`:
//! the name, `: `, and changes with `; ` between them. A change is the path of a field or of a
//! number, ` = `, and what replaces the field or the number: an item, several items, or no item.

use crate::dumped::note_rows;
use rlp_show::{Answers, Form, Kind, Noted, run};
use rlp_vectors::files::Row;
use rlp_vectors::rows::{Line, at_length, cut, named, number, with_item};
use std::alloc::{AllocError, Global};

/// A row: what is given, its kind, its line, and the expected answer.
#[derive(Clone, Copy)]
pub(crate) struct Asked<'a> {
    pub(crate) given: &'a str,
    pub(crate) kind: Option<Kind>,
    pub(crate) line: &'a str,
    pub(crate) want: &'a str,
}

/// Returns the places of the fields of a path in a record with this name. A field may be a number,
/// which is its place.
fn places(alloc: Global, names: &str, record: &str, path: &str) -> Result<Vec<usize>, AllocError> {
    let mut places = Vec::new(alloc);
    let whole = format!(in alloc; "{record}.{path}")?;
    for (list, field) in whole.split('.').zip(path.split('.')) {
        let fields = format!(in alloc; "fields of {list}")?;
        let mut place = number(field);
        for (index, name) in named(fields.as_str(), names).split(' ').enumerate() {
            if name == field {
                place = index;
            }
        }
        places.push(place)?;
    }
    Ok(places)
}

/// Returns the bytes of digits, or no bytes if they aren't digits.
fn bytes_of(alloc: Global, names: &str, digits: &str) -> Result<Vec<u8>, AllocError> {
    let digits = at_length(alloc, digits, names)?;
    match hex::decode(alloc, digits.as_bytes()) {
        Ok(bytes) => Ok(bytes),
        Err(_) => Ok(Vec::new(alloc)),
    }
}

/// Returns the line that a text of a row stands for. A record with a path that isn't in it has no
/// bytes.
pub(crate) fn line_of(alloc: Global, names: &str, text: &str) -> Result<String, AllocError> {
    let Some((record, changes)) = text.split_once(": ") else {
        return at_length(alloc, text, names);
    };
    let mut bytes = bytes_of(alloc, names, named(record, names))?;
    for change in changes.split("; ") {
        let (path, item) = change.split_once(" = ").unwrap_or((change, ""));
        let path = places(alloc, names, record, path)?;
        let item = bytes_of(alloc, names, item)?;
        bytes = match with_item(alloc, bytes.as_slice(), path.as_slice(), item.as_slice()) {
            Ok(bytes) => bytes,
            Err(_) => Vec::new(alloc),
        };
    }
    hex::encode(alloc, bytes.as_slice())
}

/// Returns the lines that an answer of a row stands for.
fn lines_of(alloc: Global, short: &str) -> Result<String, AllocError> {
    let mut lines = String::new(alloc);
    for line in short.lines() {
        let (path, rest) = line.split_once("* ").unwrap_or(("", line));
        for text in rest.split("; ") {
            lines.push_str(path)?;
            lines.push_str(text)?;
            lines.push('\n')?;
        }
    }
    Ok(lines)
}

/// Returns what the program answers to a line, or that it fails or tells wrongly whether the line
/// is at fault.
pub(crate) fn answered(
    alloc: Global,
    kind: Option<Kind>,
    form: Form,
    digits: &str,
) -> Result<String, AllocError> {
    let line = format!(in alloc; "{digits}\n")?;
    let mut input = Noted::new(line.as_bytes());
    let mut output = Noted::new(Vec::new(alloc));
    let is_faulty = run(alloc, &Answers { kind, form }, &mut input, &mut output);
    let answer = std::str::from_utf8(output.inner().as_slice()).unwrap_or("no text");
    let says_fault = answer.starts_with("error") || answer.starts_with("{\"error\"");
    match is_faulty {
        Ok(faulty) if faulty == says_fault => String::from_str(alloc, answer),
        _ => String::from_str(alloc, "a failure"),
    }
}

/// Notes an answer that isn't as expected.
fn note_answer(
    alloc: Global,
    form: Form,
    asked: Asked<'_>,
    wrong: &mut Line,
) -> Result<(), AllocError> {
    let answer = answered(alloc, asked.kind, form, asked.line)?;
    wrong.note("show", asked.given, answer.as_str(), asked.want);
    Ok(())
}

/// Notes a record that isn't shown under the name of its kind if that is guessed.
fn note_guess(alloc: Global, asked: Asked<'_>, wrong: &mut Line) -> Result<(), AllocError> {
    let (name, _) = cut(asked.given);
    let answer = answered(alloc, None, Form::Text, asked.line)?;
    if !answer.starts_with(name) {
        wrong.note("guess", asked.given, answer.as_str(), name);
    }
    Ok(())
}

/// Notes what is wrong with the answer to a row in a form. With none, the answer is to be right in
/// text, its rows are to show the bytes of the record, and the kind is to be guessed. A fault is the
/// same in text and in rows.
pub(crate) fn check(
    alloc: Global,
    form: Option<Form>,
    names: &str,
    row: &Row,
    wrong: &mut Line,
) -> Result<(), AllocError> {
    let (name, text) = cut(row.given.as_str());
    let line = line_of(alloc, names, text)?;
    let want = at_length(alloc, row.want.as_str(), names)?;
    let want = lines_of(alloc, want.as_str())?;
    let asked = Asked {
        given: row.given.as_str(),
        kind: Kind::named(name),
        line: line.as_str(),
        want: want.as_str(),
    };
    if let Some(form) = form {
        return note_answer(alloc, form, asked, wrong);
    }
    note_answer(alloc, Form::Text, asked, wrong)?;
    if asked.want.starts_with("error") {
        return note_answer(alloc, Form::Bytes, asked, wrong);
    }
    note_rows(alloc, asked, wrong)?;
    match asked.kind {
        None | Some(Kind::Message(_)) => Ok(()),
        Some(_) => note_guess(alloc, asked, wrong),
    }
}
