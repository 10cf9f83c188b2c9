//! Bytes and numbers of the rows of tests, as text.

mod items;
mod line;

pub use items::with_item;
pub use line::{Hex, Line, bytes_in, cut, push_header};
use std::alloc::{AllocError, Global};

/// The bytes of a text: of its parts, which are joined by `+`. A part is `'` and letters, or
/// hexadecimal digits, or such digits, `*`, and the number of times that they are repeated. Fails
/// with `AllocError` if memory is refused, or if a part has another form.
pub fn bytes_of(alloc: Global, text: &str) -> Result<Vec<u8>, AllocError> {
    let mut bytes = Vec::new(alloc);
    for part in text.split('+') {
        if let Some(letters) = part.strip_prefix('\'') {
            bytes.extend_from_slice(letters.as_bytes())?;
        } else {
            push_digits(alloc, part, &mut bytes)?;
        }
    }
    Ok(bytes)
}

/// The text that a line of the second text gives with this name, or the name itself if no line has it.
pub fn named<'a>(name: &'a str, names: &'a str) -> &'a str {
    for line in names.lines() {
        if let Some((other, text)) = line.trim().split_once(" = ") {
            if other == name {
                return text;
            }
        }
    }
    name
}

/// A text with all of its parts at their length. `<` and `>` stand around a part, `*`, and a number of
/// times, or around a name. Lines of the second text give the name, ` = `, and its text, in which names
/// of later lines may stand. Fails with `AllocError` if memory is refused.
pub fn at_length(alloc: Global, short: &str, names: &str) -> Result<String, AllocError> {
    let mut text = String::from_str(alloc, short)?;
    for line in names.lines() {
        if let Some((name, meaning)) = line.trim().split_once(" = ") {
            let name = format!(in alloc; "<{name}>")?;
            text = text.replace(alloc, name.as_str(), meaning)?;
        }
    }
    repeated(alloc, text.as_str())
}

/// A text with its repeated parts at their length.
fn repeated(alloc: Global, short: &str) -> Result<String, AllocError> {
    let mut out = String::new(alloc);
    for part in short.split('<') {
        let (inner, rest) = part.split_once('>').unwrap_or(("", part));
        let (digits, times) = inner.split_once('*').unwrap_or(("", "0"));
        for _ in 0..number(times) {
            out.push_str(digits)?;
        }
        out.push_str(rest)?;
    }
    Ok(out)
}

/// Appends the bytes of digits, which may be followed by `*` and a number of times.
fn push_digits(alloc: Global, part: &str, bytes: &mut Vec<u8>) -> Result<(), AllocError> {
    let (digits, times) = part.split_once('*').unwrap_or((part, "1"));
    let Ok(once) = hex::decode(alloc, digits.as_bytes()) else {
        return Err(AllocError);
    };
    if let [byte] = once.as_slice() {
        let all = vec![in alloc; *byte; number(times)]?;
        return bytes.extend_from_slice(all.as_slice());
    }
    for _ in 0..number(times) {
        bytes.extend_from_slice(once.as_slice())?;
    }
    Ok(())
}

/// The number with these digits, or 0 if they aren't the digits of a `usize`.
pub fn number(digits: &str) -> usize {
    digits.parse::<usize>().unwrap_or(0)
}
