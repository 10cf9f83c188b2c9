//! The answers to bytes and texts that aren't a record.

ghost use Rattle.std.specs.Prelude.{◌≡◌, ◌++◌, None, codes, string_bytes, IfOk, OnOk};
ghost use Rattle.rlp_reading.specs.Form.{fault_of};
ghost use Rattle.rlp_show.specs.{Answers.{error_answer, fault_answer, fault_name, fault_text, fault_word}, Json.json_of, Records.fault_display};

use crate::answers::Form;
use crate::json::json_of;
use crate::records::Fault;
use rlp::DecoderError;
use std::alloc::{AllocError, Global};
use std::fmt::Write;

/// Appends the answer to an error of decoding, in a field with this name or outside a field.
pub(crate) fn put_error(
    alloc: Global,
    form: Form,
    place: Option<usize>,
    name: &str,
    error: &DecoderError,
    out: &mut String,
) -> Result<(), AllocError>
    ensures { OnOk result (string_bytes out.new ≡ string_bytes out.old
        ++ error_answer form place name.now (fault_of error.now)) }
{
    let mut text = String::new(alloc);
    write!(text, "{error}")?;
    match form {
        Form::Json => {
            let word = word_of(error, text.as_str());
            out.push_str(fault_json(alloc, place, name, word)?.as_str())
        }
        _ => put_fault_text(place, name, text.as_str(), out),
    }
}

/// Appends the answer to what is wrong, in a field with this name or outside a field.
pub(crate) fn put_fault(
    alloc: Global,
    form: Form,
    place: Option<usize>,
    name: &str,
    what: &str,
    out: &mut String,
) -> Result<(), AllocError>
    ensures { OnOk result (string_bytes out.new ≡ string_bytes out.old
        ++ fault_answer form place name.now what.now what.now) }
{
    match form {
        Form::Json => out.push_str(fault_json(alloc, place, name, what)?.as_str()),
        _ => put_fault_text(place, name, what, out),
    }
}

/// Returns the text of an error in JSON: its name, or for a custom error its text.
fn word_of<'a>(error: &'a DecoderError, name: &'a str) -> &'a str
    requires { name.now ≡ fault_name (fault_of error.now) }
    ensures { result.now ≡ fault_word (fault_of error.now) }
{
    match error {
        DecoderError::Custom(text) => text,
        _ => name,
    }
}

/// Returns what is wrong in a field with this name or outside a field, as an object of JSON.
fn fault_json(
    alloc: Global,
    place: Option<usize>,
    name: &str,
    fault: &str,
) -> Result<String, AllocError>
    ensures { IfOk result (λ json. string_bytes json
        ≡ json_of (fault_display.shown (place, (name.now, fault.now)))) }
{
    let field = match place {
        Some(place) => Some(place as u64),
        None => None,
    };
    json_of(alloc, &Fault { field, name, fault })
}

/// Appends what is wrong in a field with this name or outside a field, as a line.
fn put_fault_text(
    place: Option<usize>,
    name: &str,
    what: &str,
    out: &mut String,
) -> Result<(), AllocError>
    ensures { OnOk result (string_bytes out.new ≡ string_bytes out.old ++ codes "error "
        ++ fault_text place name.now what.now) }
{
    match place {
        Some(place) => write!(out, "error field {place} ({name}): {what}"),
        None if name.is_empty() => write!(out, "error {what}"),
        None => write!(out, "error {name}: {what}"),
    }
}
