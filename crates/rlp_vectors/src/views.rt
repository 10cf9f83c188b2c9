//! The calls of a view about all its bytes, headers at the lengths at which their form changes, and
//! the texts of views and of faults.

use crate::answers::Asked;
use rlp::{DecoderError, PayloadInfo, Rlp};
use rlp_rows::codec::FAULTS;
use rlp_rows::rows::{Line, number};
use std::fmt;
use std::fmt::Write;

/// Tells the lengths of a header and of its value, and their sum if a `usize` can hold it.
pub(crate) fn tell_header(bytes: &[u8], out: &mut Line) -> fmt::Result {
    match PayloadInfo::from(bytes) {
        Ok(info) => {
            let (header, value) = (info.header_len, info.value_len);
            write!(out, "{header} + {value} = {:?}", info.checked_total())
        }
        Err(fault) => out.display(fault),
    }
}

/// Tells what a view answers: the results of `is_null`, `is_empty`, `is_list` and `is_data`, its
/// prototype and its size, its text, or whether it holds what is asked.
pub(crate) fn tell_view(view: &Rlp<'_>, of: &str, limit: usize, out: &mut Line) -> fmt::Result {
    match of {
        "kinds" => {
            out.debug(view.is_null())?;
            out.then(view.is_empty())?;
            out.then(view.is_list())?;
            out.then(view.is_data())
        }
        "sizes" => {
            out.debug(view.prototype())?;
            out.then(view.size())
        }
        "text" => out.display(view),
        "int" => out.debug(view.is_int()),
        "nested" => out.debug(view.is_nested_within(limit)),
        "canonical" => out.debug(view.is_canonical(limit)),
        _ => Err(fmt::Error),
    }
}

/// Tells the text of the fault of a number, and of its clone.
pub(crate) fn tell_fault(asked: &Asked<'_>, out: &mut Line) -> fmt::Result {
    let fault = FAULTS.get(number(asked.given)).ok_or(fmt::Error)?;
    let copy = fault.clone();
    let text = copy.to_string(asked.alloc)?;
    write!(out, "{fault} {text} {}", copy == *fault)
}

/// Tells a view and a fault, with flags.
pub(crate) fn tell_flagged(out: &mut Line) -> fmt::Result {
    let view = Rlp::new(&[0xc2, 0x05, 0x06]);
    let fault = DecoderError::Custom("a \"b\"");
    write!(out, "{view:>40}|{fault:#}|{fault:>40}")
}
