//! The calls that rows of the codec name.

use crate::items::{
    tell_fields, tell_first, tell_items, tell_payload, tell_split, tell_taken, tell_third,
    tell_tree,
};
use crate::script::tell_script;
use crate::typed::{
    tell_again, tell_first_byte, tell_invalid, tell_number, tell_place, tell_raw, tell_typed,
};
use crate::views::{tell_fault, tell_flagged, tell_header, tell_view};
use crate::written::{tell_listed, tell_value};
use rlp::{DecoderError, Rlp};
use rlp_rows::codec::view_of;
use rlp_rows::rows::{Hex, Line, bytes_in, bytes_of, cut, number};
use std::alloc::{AllocError, Global};
use std::fmt;
use std::fmt::Write;

/// What a row asks.
#[derive(Drop)]
pub(crate) struct Asked<'a> {
    pub(crate) alloc: Global,
    /// Whether `strict` stands before the call.
    pub(crate) strict: bool,
    pub(crate) call: &'a str,
    /// What stands behind the call: a type, or what is asked of a view.
    pub(crate) of: &'a str,
    /// What the call is given.
    pub(crate) given: &'a str,
    /// The bytes that `given` begins with.
    pub(crate) bytes: &'a [u8],
    /// What stands behind the bytes.
    pub(crate) rest: &'a str,
    /// The wanted answer.
    pub(crate) want: &'a str,
}

impl<'a> Asked<'a> {
    /// Returns a view of the bytes.
    pub(crate) fn view(&self) -> Rlp<'a> {
        view_of(self.bytes, self.strict)
    }

    /// Returns the bytes of a view, which is to be strict as the call is.
    pub(crate) fn raw<'b>(
        &self,
        view: Result<Rlp<'b>, DecoderError>,
    ) -> Result<Hex<'b>, DecoderError> {
        let view = view?;
        if view.is_strict() == self.strict {
            Ok(Hex(view.as_raw()))
        } else {
            Err(DecoderError::Custom("a view of the other kind"))
        }
    }

    /// Returns whether bytes are the wanted ones, or are as many as a number in front of `begins` and
    /// begin with the bytes behind it.
    fn wants(&self, bytes: &[u8]) -> Result<bool, AllocError> {
        let (len, front) = self.want.split_once(" begins ").unwrap_or(("", self.want));
        let front = bytes_of(self.alloc, if front == "none" { "" } else { front })?;
        Ok(if len.is_empty() {
            bytes == front.as_slice()
        } else {
            bytes.len() == number(len) && bytes.starts_with(front.as_slice())
        })
    }

    /// Tells bytes: as the wanted answer if they are wanted, and else as digits.
    pub(crate) fn tell_bytes(&self, bytes: &[u8], out: &mut Line) -> fmt::Result {
        if self.wants(bytes)? {
            out.write_str(self.want)
        } else {
            out.debug(Hex(bytes.get(..100).unwrap_or(bytes)))
        }
    }
}

/// Notes the calls that have another answer than a row. `, ` stands between two calls. `strict` may
/// stand before a call, and a type or what is asked of a view after it. What the calls are given begins
/// with bytes, or with `none`.
pub fn note_row(alloc: Global, calls: &str, given: &str, want: &str, wrong: &mut Line) {
    for call in calls.split(", ") {
        let mut said = Line::new();
        if tell_row(alloc, call, given, want, &mut said).is_err() {
            let _ = said.write_str(" OutOfMemory, or no such call");
        }
        wrong.note(call, given, said.as_str().trim_end(), want);
    }
}

/// Writes what a call answers to a row.
fn tell_row(alloc: Global, call: &str, given: &str, want: &str, out: &mut Line) -> fmt::Result {
    let mut buffer = [0; 256];
    let (digits, _) = cut(given);
    let long = if digits.contains('+') || digits.contains('*') {
        bytes_of(alloc, digits)?
    } else {
        Vec::new(alloc)
    };
    if long.is_empty() {
        tell_of(alloc, call, given, bytes_in(digits, &mut buffer), want, out)
    } else {
        tell_of(alloc, call, given, long.as_slice(), want, out)
    }
}

/// Writes what a call answers to what it is given, which begins with these bytes.
fn tell_of<'a>(
    alloc: Global,
    call: &'a str,
    given: &'a str,
    bytes: &'a [u8],
    want: &'a str,
    out: &mut Line,
) -> fmt::Result {
    let (_, rest) = cut(given);
    let lenient = call.strip_prefix("strict ");
    let strict = lenient.is_some();
    let (call, of) = cut(lenient.unwrap_or(call));
    let asked = Asked {
        alloc,
        strict,
        call,
        of,
        given,
        bytes,
        rest,
        want,
    };
    tell(&asked, out)
}

/// Writes what a call answers.
fn tell(asked: &Asked<'_>, out: &mut Line) -> fmt::Result {
    match asked.call {
        "value" | "list" | "value_at" | "list_at" => tell_typed(asked, out),
        "again" => tell_again(asked, out),
        "written" => tell_value(asked, out),
        "listed" => tell_listed(asked, out),
        "script" => tell_script(asked, out),
        "place" => tell_place(asked, out),
        "fields" | "fields_of" => tell_fields(asked, out),
        "view" => tell_view(&asked.view(), asked.of, number(asked.rest), out),
        "header" => tell_header(asked.bytes, out),
        "items" => tell_items(asked, out),
        "payload" => tell_payload(asked, out),
        "taken" => tell_taken(asked, out),
        "split" => tell_split(asked, out),
        "first" => tell_first(asked, out),
        "tree" => tell_tree(asked, out),
        "third" => tell_third(asked.alloc, &asked.view(), out),
        "fault" => tell_fault(asked, out),
        "flags" => tell_flagged(out),
        "first_byte" => tell_first_byte(asked.bytes, out),
        "invalid" => tell_invalid(asked, out),
        "raw_item" => tell_raw(asked, out),
        "number" => tell_number(asked, out),
        "whole" => out.debug(rlp::decode_whole::<u64>(asked.alloc, asked.bytes)),
        "whole_list" => out.debug(rlp::decode_list_whole::<u64>(asked.alloc, asked.bytes)),
        _ => Err(fmt::Error),
    }
}
