//! Last fields that may be missing.

ghost use Rattle.std.specs.{Prelude.{◌∷◌, [], All, IfSome, map}, Vec.vec_items, declared.alloc.Global.Global};
ghost use Rattle.rlp_format.specs.{Format.Encoding.list_of, Values.Value.items_if};

use crate::stream::RlpStream;
use crate::structs::{AppendFields, Listed};
use crate::traits::Encodable;
use std::alloc::AllocError;

/// A last field that may be missing: one item, or no item.
#[derive(Clone, Copy)]
pub struct Optional<'a, T>(pub &'a Option<T>);

/// A last field that may be missing, and is a list of values: one item, or no item.
#[derive(Clone, Copy)]
pub struct OptionalListOf<'a, T>(pub &'a Option<Vec<T>>);

/// Last fields that are missing together, such as the fields that a later version of a format
/// added.
#[derive(Clone, Copy)]
pub struct OptionalGroupOf<'a, S>(pub &'a Option<S>);

impl<T: Encodable> AppendFields for Optional<'_, T> {
    ghost items = { λ v. items_if (λ x. T.item x ∷ []) v.0.now };

    ghost fit = { λ v. IfSome v.0.now T.fits };

    fn field_count(&self) -> Option<usize> {
        match self.0 {
            Some(_) => Some(1),
            None => Some(0),
        }
    }

    #[tactic(auto, using(crate::proofs::Streams::Fields::some_none))]
    fn append_fields(&self, s: &mut RlpStream) -> Result<(), AllocError> {
        match self.0 {
            Some(value) => s.try_append(value),
            None => Ok(()),
        }
    }
}

impl<T: Encodable> AppendFields for OptionalListOf<'_, T> {
    ghost items = { λ v. items_if (λ values. list_of (map T.item
        (vec_items {X = T} {Z = Global} values)) ∷ []) v.0.now };

    ghost fit = { λ v. IfSome v.0.now
        (λ values. All T.fits (vec_items {X = T} {Z = Global} values)) };

    fn field_count(&self) -> Option<usize> {
        match self.0 {
            Some(_) => Some(1),
            None => Some(0),
        }
    }

    #[tactic(auto, using(crate::proofs::Streams::Fields::some_none))]
    fn append_fields(&self, s: &mut RlpStream) -> Result<(), AllocError> {
        match self.0 {
            Some(values) => s.try_append(&Listed(values.as_slice())),
            None => Ok(()),
        }
    }
}

impl<S: AppendFields> AppendFields for OptionalGroupOf<'_, S> {
    ghost items = { λ v. items_if S.items v.0.now };

    ghost fit = { λ v. IfSome v.0.now S.fit };

    fn field_count(&self) -> Option<usize> {
        match self.0 {
            Some(fields) => fields.field_count(),
            None => Some(0),
        }
    }

    fn append_fields(&self, s: &mut RlpStream) -> Result<(), AllocError> {
        match self.0 {
            Some(fields) => fields.append_fields(s),
            None => Ok(()),
        }
    }
}
