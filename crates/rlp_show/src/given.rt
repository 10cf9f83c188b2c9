//! The answer to the bytes of a record of a kind.

ghost use Rattle.std.specs.Prelude.{◌≡◌, ◌≢◌, ◌++◌, string_bytes, OnOk, Err};
ghost use Rattle.rlp.specs.DecoderError.TheVariants.{OutOfMemory};
ghost use Rattle.rlp_reading.specs.Form.{fault_of};
ghost use Rattle.rlp_show.specs.{Answers.{field_at, shown_text, value_text}, Display.shown_of};

use crate::answers::Form;
use crate::dump::dump_of;
use crate::faults::put_error;
use crate::json::json_of;
use crate::kind::Kind;
use crate::lines::lines_of;
use crate::names::put_part_name;
use crate::show::{Named, Object, Show};
use rlp::{DecoderError, PlacedFault, Rlp};
use std::alloc::{AllocError, Global};

/// The bytes of a record, and how they are answered.
#[derive(Clone, Copy)]
pub(crate) struct Given<'a> {
    /// What gives memory.
    pub(crate) alloc: Global,
    /// The form of the answer.
    pub(crate) form: Form,
    /// The kind of the record.
    pub(crate) kind: Kind,
    /// The name of the whole record, or no name.
    pub(crate) name: &'a str,
    /// The bytes.
    pub(crate) bytes: &'a [u8],
}

impl Given<'_> {
    /// Appends a value that the bytes encode.
    pub(crate) fn put_value<T: Show>(&self, value: &T, out: &mut String) -> Result<(), AllocError>
        ensures { OnOk result (string_bytes out.new ≡ string_bytes out.old
            ++ value_text self.now.form self.now.kind self.now.name.now self.now.bytes.now
            (shown_of T.display value.now)) }
    {
        let text = match self.form {
            Form::Text => lines_of(self.alloc, self.name, value)?,
            Form::Json => json_of(self.alloc, &Object(&Named("", self.kind.name(), value)))?,
            Form::Bytes => dump_of(self.alloc, self.bytes, self.name, value)?,
        };
        out.push_str(text.as_str())
    }

    /// Appends what is wrong with the bytes. Fails if memory was refused as they were read.
    pub(crate) fn put_fault(&self, fault: &PlacedFault, out: &mut String) -> Result<(), AllocError>
        ensures memory { OnOk result (fault.now.fault ≢ OutOfMemory) }
        ensures text { OnOk result (string_bytes out.new ≡ string_bytes out.old
            ++ shown_text self.now.form self.now.kind self.now.name.now self.now.bytes.now
            (Err (fault_of fault.now.fault)) fault.now.path.items) }
    {
        match &fault.fault {
            DecoderError::OutOfMemory => Err(AllocError),
            error => {
                let part = self.kind.part();
                let path = fault.path.as_slice();
                let mut name = String::from_str(self.alloc, self.name)?;
                put_part_name(part, &Rlp::new_strict(self.bytes), path, &mut name)?;
                let field = field_at(part.is_list(), path);
                put_error(self.alloc, self.form, field, name.as_str(), error, out)
            }
        }
    }
}

/// Returns the field that a fault is in, by the places that lead to the fault.
fn field_at(is_list: bool, path: &[usize]) -> Option<usize>
    ensures { result ≡ field_at is_list path.now }
{
    match path {
        [_, inner, ..] if is_list => Some(*inner),
        [place, ..] if !is_list => Some(*place),
        _ => None,
    }
}
