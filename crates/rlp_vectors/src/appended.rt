//! Types of the tests: values that are appended, or whose writing fails, structs of few and many
//! fields, and envelopes with any tag.

ghost use Rattle.std.specs.Prelude.{⊤, [], ◌∷◌, All, IfSome, map};
ghost use Rattle.rlp_format.specs.Format.Encoding.{encoding, list_of, string};
ghost use Rattle.rlp_format.specs.Values.Value.{FitsBytes, items_if, number_item};

use rlp::{Each, Encodable, Optional, RlpStream, write_envelope, write_struct};
use std::alloc::AllocError;
use std::cell::Cell;

/// A number that is appended by the call that doesn't count strings.
#[derive(Clone, Copy)]
pub(crate) struct Wrapper(pub(crate) u64);

impl Encodable for Wrapper {
    ghost item = { λ w. number_item w.0 };

    ghost fits = { λ w. FitsBytes 8 w.0 };

    #[tactic(auto, using(rlp_write::proofs::Streams::Growth::growth))]
    fn rlp_append(&self, s: &mut RlpStream) -> Result<(), AllocError> {
        s.append_internal(&self.0)?;
        Ok(())
    }
}

/// An empty string whose writing fails each time. It counts how often it is written.
#[derive(Drop)]
pub(crate) struct Counted<'a>(pub(crate) &'a Cell<usize>);

impl<'a> Encodable for Counted<'a> {
    ghost item = { λ v. string [] };

    ghost fits = { λ v. ⊤ };

    #[tactic(auto, using(rlp_write::proofs::Streams::Growth::growth))]
    fn rlp_append(&self, _s: &mut RlpStream) -> Result<(), AllocError> {
        self.0.set(self.0.get().saturating_add(1));
        Err(AllocError)
    }
}

/// A struct of any number of fields.
#[derive(Drop)]
pub(crate) struct Columns<'a>(pub(crate) &'a [u64]);

impl Encodable for Columns<'_> {
    ghost item = { λ v. list_of (map number_item v.0.now) };

    ghost fits = { λ v. All (FitsBytes 8) v.0.now };

    fn rlp_append(&self, s: &mut RlpStream) -> Result<(), AllocError> {
        write_struct(s, &Each(self.0))
    }
}

/// A struct of one field that may be missing.
#[derive(Drop)]
pub(crate) struct LastField(pub(crate) Option<u64>);

impl Encodable for LastField {
    ghost item = { λ v. list_of (items_if (λ n. number_item n ∷ []) v.0) };

    ghost fits = { λ v. IfSome v.0 (FitsBytes 8) };

    fn rlp_append(&self, s: &mut RlpStream) -> Result<(), AllocError> {
        write_struct(s, &Optional(&self.0))
    }
}

/// A string of a byte and the encoding of a number.
#[derive(Drop)]
pub(crate) struct Tagged(pub(crate) u8, pub(crate) u64);

impl Encodable for Tagged {
    ghost item = { λ v. string (v.0 ∷ encoding (number_item v.1)) };

    ghost fits = { λ v. FitsBytes 8 v.1 };

    fn rlp_append(&self, s: &mut RlpStream) -> Result<(), AllocError> {
        write_envelope(s, self.0, &self.1)
    }
}
