//! Records in JSON: what the program answers, and the JSON of values for which it has no kind.
//!
//! In an answer `'` is a quote, and the ends of lines don't count.

use crate::shown::{answered, line_of};
use rlp::DecoderError;
use rlp_headers::Log;
use rlp_pooled::{BlobTransactionWithCellProofs as CellProofs, BlobTransactionWithProofs};
use rlp_records::Enveloped;
use rlp_show::{Form, Kind, json_of};
use rlp_vectors::files::Row;
use rlp_vectors::rows::{Line, at_length, cut, named};
use serde_json::Value;
use std::alloc::{AllocError, Global};

/// Reads a record of a type of this name that is no kind, and returns its JSON.
fn other_json(alloc: Global, name: &str, bytes: &[u8]) -> Result<String, DecoderError> {
    let text = match name {
        "log" => json_of(alloc, &rlp::decode_whole::<Log>(alloc, bytes)?),
        "with_proofs" => json_of(alloc, &BlobTransactionWithProofs::from_bytes(alloc, bytes)?),
        "with_cell_proofs" => json_of(alloc, &CellProofs::from_bytes(alloc, bytes)?),
        _ => return Err(DecoderError::Custom("no such kind")),
    };
    Ok(text?)
}

/// Returns the JSON of a record of this kind or of this type, and the end of a line.
fn printed(alloc: Global, name: &str, digits: &str) -> Result<String, AllocError> {
    let kind = Kind::named(name);
    if kind.is_some() || name == "any" {
        return answered(alloc, kind, Form::Json, digits);
    }
    let Ok(bytes) = hex::decode(alloc, digits.as_bytes()) else {
        return String::from_str(alloc, "no digits");
    };
    match other_json(alloc, name, bytes.as_slice()) {
        Ok(text) => format!(in alloc; "{text}\n"),
        Err(fault) => format!(in alloc; "{fault:?}"),
    }
}

/// Notes a row with other JSON.
pub(crate) fn check(
    alloc: Global,
    names: &str,
    row: &Row,
    wrong: &mut Line,
) -> Result<(), AllocError> {
    let (name, text) = cut(row.given.as_str());
    let digits = line_of(alloc, names, text)?;
    let answer = printed(alloc, name, digits.as_str())?;
    let want = at_length(alloc, row.want.as_str(), names)?;
    let mut want = want.replace(alloc, "\n", "")?.replace(alloc, "'", "\"")?;
    want.push('\n')?;
    wrong.note("JSON", row.given.as_str(), answer.as_str(), want.as_str());
    Ok(())
}

/// Notes the names of a row that aren't members of the object at its place in the JSON of the block
/// that is named `BLOCK`.
pub(crate) fn check_members(
    alloc: Global,
    names: &str,
    row: &Row,
    wrong: &mut Line,
) -> Result<(), AllocError> {
    let digits = at_length(alloc, named("BLOCK", names), names)?;
    let text = printed(alloc, "block", digits.as_str())?;
    let Ok(answer) = Value::from_str(alloc, text.as_str()) else {
        wrong.note("members", row.given.as_str(), text.as_str(), "JSON");
        return Ok(());
    };
    let object = answer.pointer(row.given.as_str());
    for name in row.want.split_whitespace() {
        if object.and_then(|o| o.get(name)).is_none() {
            wrong.note("members", row.given.as_str(), "missing", name);
        }
    }
    Ok(())
}
