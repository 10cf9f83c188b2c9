//! Fields that are the values of a slice.

ghost use Rattle.std.specs.Prelude.{◌∷◌, [], All, map};
ghost use Rattle.rlp_format.specs.{Format.Encoding.list_of, Values.Value.all_items};

use crate::stream::RlpStream;
use crate::structs::{AppendFields, write_struct};
use crate::traits::Encodable;
use std::alloc::AllocError;

/// One field, which is the list of the values of a slice.
#[derive(Clone, Copy)]
pub struct ListOf<'a, T>(pub &'a [T]);

/// One field for each value of a slice.
#[derive(Clone, Copy)]
pub struct Each<'a, T>(pub &'a [T]);

/// The fields of each value of a slice, such as the keys and values of a slice of pairs.
#[derive(Clone, Copy)]
pub struct Flattened<'a, T>(pub &'a [T]);

impl<T: Encodable> AppendFields for ListOf<'_, T> {
    ghost items = { λ v. list_of (map T.item v.0.now) ∷ [] };

    ghost fit = { λ v. All T.fits v.0.now };

    fn field_count(&self) -> Option<usize> {
        Some(1)
    }

    #[tactic(auto, using(crate::proofs::Streams::Fields::some_none))]
    fn append_fields(&self, s: &mut RlpStream) -> Result<(), AllocError> {
        s.try_append(&Listed(self.0))
    }
}

impl<T: Encodable> AppendFields for Each<'_, T> {
    ghost items = { λ v. map T.item v.0.now };

    ghost fit = { λ v. All T.fits v.0.now };

    #[tactic(auto, using(crate::proofs::Streams::Fields::counts))]
    fn field_count(&self) -> Option<usize> {
        Some(self.0.len())
    }

    #[tactic(auto, using(crate::proofs::Streams::Fields::each))]
    fn append_fields(&self, s: &mut RlpStream) -> Result<(), AllocError> {
        let values = self.0;
        for value in values {
            s.try_append(value)?;
        }
        Ok(())
    }
}

impl<T: AppendFields> AppendFields for Flattened<'_, T> {
    ghost items = { λ v. all_items T.items v.0.now };

    ghost fit = { λ v. All T.fit v.0.now };

    #[tactic(auto, using(crate::proofs::Streams::Fields::flattened))]
    fn field_count(&self) -> Option<usize> {
        let values = self.0;
        let mut count: usize = 0;
        for value in values {
            let more = value.field_count()?;
            count = count.checked_add(more)?;
        }
        Some(count)
    }

    #[tactic(auto, using(crate::proofs::Streams::Fields::flattened))]
    fn append_fields(&self, s: &mut RlpStream) -> Result<(), AllocError> {
        let values = self.0;
        for value in values {
            value.append_fields(s)?;
        }
        Ok(())
    }
}

/// Values that are written as one list.
#[derive(Drop)]
pub(crate) struct Listed<'a, E>(pub(crate) &'a [E]);

impl<E: Encodable> Encodable for Listed<'_, E> {
    ghost item = { λ v. list_of (map E.item v.0.now) };

    ghost fits = { λ v. All E.fits v.0.now };

    fn rlp_append(&self, s: &mut RlpStream) -> Result<(), AllocError> {
        write_struct(s, &Each(self.0))
    }
}
