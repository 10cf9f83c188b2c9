//! Files of rows.
//!
//! A line that begins with `#` is a comment. A line that ends with a backslash goes on in the next
//! one, behind the blanks there. A row is a line with what is given, ` | `, and the answer. In a
//! line without ` | ` only stands what is given, and the answer stands in the lines below it, up to
//! an empty line.

use crate::rows::Line;
use std::alloc::{AllocError, Global};
use std::{fs, io};

/// A whole line of a file, and the number of the line where it begins.
#[derive(Drop)]
struct Numbered {
    number: usize,
    text: String,
}

/// A row: the number of its line, what is given, and the answer. An answer in lines below the row
/// has the ends of these lines, and of the empty line.
#[derive(Drop)]
pub struct Row {
    pub number: usize,
    pub given: String,
    pub want: String,
}

/// Returns the lines of a file, without comments. The last is empty.
fn lines_in(alloc: Global, text: &str) -> Result<Vec<Numbered>, AllocError> {
    let mut lines: Vec<Numbered> = Vec::new(alloc);
    let mut goes_on = false;
    for (place, line) in text.split('\n').enumerate() {
        if line.starts_with('#') {
            continue;
        }
        let front = line.strip_suffix('\\');
        let part = front.unwrap_or(line);
        match lines.last_mut() {
            Some(whole) if goes_on => whole.text.push_str(part.trim_start())?,
            _ => lines.push(Numbered {
                number: place.saturating_add(1),
                text: String::from_str(alloc, part)?,
            })?,
        }
        goes_on = front.is_some();
    }
    Ok(lines)
}

/// Returns the whole lines of a file of names.
fn names_in(alloc: Global, text: &str) -> Result<String, AllocError> {
    let mut names = String::new(alloc);
    for line in &lines_in(alloc, text)? {
        names.push_str(line.text.as_str())?;
        names.push('\n')?;
    }
    Ok(names)
}

/// Returns the rows of a file.
fn rows_in(alloc: Global, text: &str) -> Result<Vec<Row>, AllocError> {
    let mut rows: Vec<Row> = Vec::new(alloc);
    let mut is_open = false;
    for Numbered { number, text } in &lines_in(alloc, text)? {
        match rows.last_mut() {
            Some(row) if is_open => {
                row.want.push_str(text.as_str())?;
                row.want.push('\n')?;
                is_open = !text.is_empty();
            }
            _ if text.is_empty() => {}
            _ => {
                let cells = text.rsplit_once(" | ");
                is_open = cells.is_none();
                let (given, want) = cells.unwrap_or((text.as_str(), ""));
                rows.push(Row {
                    number: *number,
                    given: String::from_str(alloc, given)?,
                    want: String::from_str(alloc, want)?,
                })?;
            }
        }
    }
    Ok(rows)
}

/// What answers the rows of files.
pub trait Answers {
    /// Notes what is wrong with the answer to a row of a file.
    fn note(
        &self,
        alloc: Global,
        file: &str,
        names: &str,
        row: &Row,
        wrong: &mut Line,
    ) -> Result<(), AllocError>;
}

/// Prints the rows of a file that are answered otherwise, and their number. Returns whether there are
/// none.
fn tell_file<A: Answers>(
    rt: &HostRuntime,
    answers: &A,
    file: &str,
    names: &str,
) -> io::Result<bool> {
    let text = fs::read_to_string(rt, file)?;
    let rows = rows_in(rt.alloc(), text.as_str())?;
    let mut differ = 0usize;
    for row in &rows {
        let mut wrong = Line::new();
        answers.note(rt.alloc(), file, names, row, &mut wrong)?;
        if !wrong.as_str().is_empty() {
            differ = differ.saturating_add(1);
            println!(rt; "{file}:{}: {}", row.number, wrong.as_str())?;
        }
    }
    println!(rt; "{file}: {} rows, {differ} differ", rows.len())?;
    Ok(differ == 0)
}

/// Tells each file that `files.txt` names. Returns whether all rows are answered as they say. Names that
/// several rows use stand in `named.txt`.
pub fn tell_files<A: Answers>(rt: &HostRuntime, answers: &A) -> io::Result<bool> {
    let names = names_in(rt.alloc(), fs::read_to_string(rt, "named.txt")?.as_str())?;
    let mut all = true;
    for file in fs::read_to_string(rt, "files.txt")?.lines() {
        all = tell_file(rt, answers, file, names.as_str())? && all;
    }
    Ok(all)
}
