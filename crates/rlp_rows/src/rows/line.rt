//! Texts and bytes that don't allocate, and what is wrong with the rows of a table.

use std::alloc::AllocError;
use std::fmt;
use std::fmt::Write;
use std::test::Fail;

/// The greatest number of bytes of a line.
const ROOM: usize = 1024;

/// A text of at most 1,024 bytes, which doesn't allocate.
#[derive(Drop)]
pub struct Line {
    bytes: [u8; ROOM],
    len: usize,
}

impl Line {
    /// An empty text.
    pub fn new() -> Line {
        Line {
            bytes: [0; ROOM],
            len: 0,
        }
    }

    /// The text.
    pub fn as_str(&self) -> &str {
        let bytes = self.bytes.get(..self.len).unwrap_or(b"");
        std::str::from_utf8(bytes).unwrap_or("no text")
    }

    /// Appends a value as `{:?}` prints it. A call is proved faster than `write!`.
    pub fn debug<T: fmt::Debug + Drop>(&mut self, value: T) -> fmt::Result {
        write!(self, "{value:?}")
    }

    /// Appends a space, and a value as `{:?}` prints it.
    pub fn then<T: fmt::Debug + Drop>(&mut self, value: T) -> fmt::Result {
        write!(self, " {value:?}")
    }

    /// Appends a value as `{}` prints it.
    pub fn display<T: fmt::Display + Drop>(&mut self, value: T) -> fmt::Result {
        write!(self, "{value}")
    }

    /// Fails with the text of the rows that were noted, if rows were noted.
    pub fn none_noted(&self) -> Result<(), Fail> {
        if self.len == 0 {
            Ok(())
        } else {
            Err(Fail::new(self.as_str()))
        }
    }

    /// Notes what a call answered to a row if that isn't as wanted, as far as there is room. Both are
    /// told from shortly before where they differ.
    pub fn note(&mut self, call: &str, given: &str, answer: &str, want: &str) {
        if answer != want {
            let mut bytes = answer.bytes().zip(want.bytes());
            let same = bytes.position(|(one, other)| one != other).unwrap_or(0);
            let from = same.saturating_sub(40);
            let (given, answer, want) = (part(given, 0), part(answer, from), part(want, from));
            let _ = write!(self, "{call} {given}: {answer}, and not {want}. ");
        }
    }
}

impl fmt::Write for Line {
    fn write_str(&mut self, text: &str) -> fmt::Result {
        let end = self.len.saturating_add(text.len());
        match self.bytes.get_mut(self.len..end) {
            Some(room) => {
                room.copy_from_slice(text.as_bytes());
                self.len = end;
                Ok(())
            }
            None => Err(fmt::Error),
        }
    }
}

/// Bytes that print as hexadecimal digits.
#[derive(PartialEq, Drop)]
pub struct Hex<'a>(pub &'a [u8]);

impl<'a> fmt::Debug for Hex<'a> {
    fn fmt<W: fmt::Write>(&self, f: &mut fmt::Formatter<W>) -> fmt::Result {
        for byte in self.0 {
            write!(f, "{byte:02x}")?;
        }
        Ok(())
    }
}

/// Some of a text from a place on, for a message.
fn part(text: &str, from: usize) -> &str {
    let rest = text.get(from..).unwrap_or(text);
    rest.get(..200).unwrap_or(rest)
}

/// The bytes of hexadecimal digits, in a buffer. No bytes if the text has another form, or if the
/// buffer is too short.
pub fn bytes_in<'a>(digits: &str, buffer: &'a mut [u8]) -> &'a [u8] {
    match buffer.get_mut(..digits.len() / 2) {
        Some(bytes) => match hex::decode_to_slice(digits, bytes) {
            Ok(()) => bytes,
            Err(_) => b"",
        },
        None => b"",
    }
}

/// Appends the header, from its end, of a list of the bytes before it, which are written from the
/// end.
pub fn push_header(backwards: &mut Vec<u8>) -> Result<(), AllocError> {
    let [.., high, middle, low] = backwards.len().to_be_bytes();
    if high > 0 {
        backwards.extend_from_slice(&[low, middle, high, 0xfa])
    } else if middle > 0 {
        backwards.extend_from_slice(&[low, middle, 0xf9])
    } else if low > 55 {
        backwards.extend_from_slice(&[low, 0xf8])
    } else {
        backwards.extend_from_slice(&[0xc0 | low])
    }
}

/// Cuts a text at its first space.
pub fn cut(text: &str) -> (&str, &str) {
    text.split_once(' ').unwrap_or((text, ""))
}
