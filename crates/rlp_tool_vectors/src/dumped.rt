//! Whether the rows that the program answers to `--bytes` show the bytes of a record.

use crate::shown::{Asked, answered};
use rlp::Rlp;
use rlp_show::{Form, Kind};
use rlp_vectors::rows::{Line, cut};
use std::alloc::{AllocError, Global};

/// A row of bytes: its place, the digits of a header and of a payload, and a line or what the bytes
/// are. A dash stands for what isn't there.
#[derive(Clone, Copy)]
struct Cells<'a> {
    place: &'a str,
    header: &'a str,
    payload: &'a str,
    line: &'a str,
}

impl<'a> Cells<'a> {
    /// Cuts a row.
    fn of(row: &'a str) -> Cells<'a> {
        let (place, rest) = cut(row);
        let (header, rest) = cut(rest);
        let (payload, line) = cut(rest);
        Cells {
            place,
            header,
            payload,
            line,
        }
    }

    /// The name before the colon.
    fn name(self) -> &'a str {
        self.line.split_once(':').unwrap_or((self.line, "")).0
    }

    /// Whether the row stands at the place of these bytes where the rows before it end, and its header
    /// has the right length. A row of what isn't in the encoding has no place.
    fn is_right(self, shown: &str, bytes: &[u8]) -> bool {
        let Ok(place) = self.place.parse::<usize>() else {
            let own = self.name();
            return own.ends_with("hash")
                || own.ends_with("node")
                || self.line.ends_with("payload: 0x")
                || self.line.is_empty();
        };
        let header_len = match Rlp::new(bytes.get(place..).unwrap_or(b"")).payload_info() {
            Ok(info) => info.header_len,
            Err(_) => 0,
        };
        shown.len() / 2 == place
            && (self.header.trim_matches('-').len() / 2 == header_len
                || self.name().ends_with("payload"))
    }
}

/// Returns whether lines are the lines of what EIP-155 signs, which has a chain and no `r`.
fn are_unsigned(lines: &str) -> bool {
    lines.contains("chain_id: ") && !lines.contains("r: 0x")
}

/// Returns whether rows show these digits of a record with these lines. A whole empty list has no
/// content, and of the empty trie only the kind is shown. Of the bytes that EIP-155 signs the last
/// two strings are not shown either.
fn are_all(shown: &str, digits: &str, lines: &str) -> bool {
    match digits.strip_prefix(shown) {
        Some("") => true,
        Some("8080") => are_unsigned(lines),
        _ => digits.len() == 2,
    }
}

/// Notes a record whose rows don't show all of its bytes in order, or don't have the expected lines.
pub(crate) fn note_rows(
    alloc: Global,
    asked: Asked<'_>,
    wrong: &mut Line,
) -> Result<(), AllocError> {
    let rows = answered(alloc, asked.kind, Form::Bytes, asked.line)?;
    let digits = asked.line.strip_prefix("0x").unwrap_or(asked.line);
    let Ok(bytes) = hex::decode(alloc, digits.as_bytes()) else {
        // the text of a node record
        return Ok(());
    };
    let (mut shown, mut lines) = (String::new(alloc), String::new(alloc));
    for row in rows.as_str().lines() {
        let cells = Cells::of(row);
        if !cells.is_right(shown.as_str(), bytes.as_slice()) {
            wrong.note("row", asked.given, row, "at its place");
        }
        shown.push_str(cells.header.trim_matches('-'))?;
        shown.push_str(cells.payload.trim_matches('-'))?;
        if cells.line != "list" && cells.line != "envelope" {
            lines.push_str(cells.line)?;
            lines.push('\n')?;
        }
    }
    wrong.note("lines of rows", asked.given, lines.as_str(), asked.want);
    if !are_all(shown.as_str(), digits, asked.want) {
        wrong.note("bytes of rows", asked.given, shown.as_str(), digits);
    }
    match asked.kind {
        Some(kind) if bytes.len() > 1 && !are_unsigned(asked.want) => {
            note_names(alloc, kind, bytes.as_slice(), rows.as_str(), wrong)
        }
        _ => Ok(()),
    }
}

/// Returns the digits of bytes with a list in place of the string at a place, or the other way round.
fn turned(alloc: Global, bytes: &[u8], place: usize) -> Result<String, AllocError> {
    let mut turned = Vec::from_slice(alloc, bytes)?;
    if let Some(first) = turned.get_mut(place) {
        *first = match *first {
            0..=0x7f => 0xc0,
            other => other ^ 0x40,
        };
    }
    hex::encode(alloc, turned.as_slice())
}

/// Returns the name in an answer, as `gas_limit` in `error field 9 (gas_limit): RlpIsTooBig`.
fn name_at_fault(answer: &str) -> &str {
    let text = answer.strip_prefix("error ").unwrap_or("");
    match text.split_once(" (") {
        Some((_, rest)) => rest.split_once("): ").unwrap_or((rest, "")).0,
        None => text.split_once(": ").unwrap_or((text, "")).0,
    }
}

/// Notes the names of rows that aren't the names in the answer, if a list is put in place of a
/// string there, or a string in place of a list. An item of any kind may be either, and a fault in
/// it is a fault of the whole item. Rows of a part of an envelope are left out.
fn note_names(
    alloc: Global,
    kind: Kind,
    bytes: &[u8],
    rows: &str,
    wrong: &mut Line,
) -> Result<(), AllocError> {
    for row in rows.lines() {
        let cells = Cells::of(row);
        let Ok(place) = cells.place.parse::<usize>() else {
            continue;
        };
        let name = cells.name();
        let (_, own) = name.rsplit_once('.').unwrap_or(("", name));
        if name == cells.line || own == "type" || own == "payload" {
            continue;
        }
        let digits = turned(alloc, bytes, place)?;
        let answer = answered(alloc, Some(kind), Form::Text, digits.as_str())?;
        let found = name_at_fault(answer.as_str());
        let is_any = name.contains("pairs[") || name.contains("further[") || name.contains("child");
        if !is_any || !name.starts_with(found) {
            wrong.note("name", digits.as_str(), found, name);
        }
    }
    Ok(())
}
