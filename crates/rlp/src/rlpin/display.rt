//! The printed text of a view.

ghost use Rattle.std.specs.Prelude.{Some};

use crate::rlpin::rlp::Rlp;
use rlp_reading::text::write_text;
use std::fmt;

/// Prints `null` for no bytes, `"0x..."` for a string, and `[.., ..]` for a list. Bytes that aren't
/// framed print the name of the fault that [`Rlp::payload_info`] returns. The formatter's flags
/// change nothing.
impl fmt::Display for Rlp<'_> {
    ghost use Rattle.rlp_reading.specs.Views.Text.{text};

    ghost output = { λ v. Some (text v.bytes) };

    ghost styled_output = { λ v _. Some (text v.bytes) };

    fn fmt<W: fmt::Write>(&self, f: &mut fmt::Formatter<W>) -> fmt::Result {
        write_text(f, self.as_raw())
    }
}
