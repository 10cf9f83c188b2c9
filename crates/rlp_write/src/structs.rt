//! Structs that are written as the list of their fields.

ghost use Rattle.std.specs.Prelude.{◌≡◌, ◌++◌, ◌∷◌, [], ◌^◌, ◌≤◌, List, OnOk, OnErr, length, MatchOption, ⊤};
ghost use Rattle.rlp_format.specs.Format.Encoding.{Item, list_of};
ghost use Rattle.rlp_write.specs.{Streams.Stream.{MovedGrows, add_all, put_item}, Streams.Growth.GrowsTo, Streams.Fields.AppendsSome};

mod optional;
mod slices;

use crate::stream::RlpStream;
use crate::traits::Encodable;
pub use optional::{Optional, OptionalGroupOf, OptionalListOf};
pub(crate) use slices::Listed;
pub use slices::{Each, Flattened, ListOf};
use std::alloc::AllocError;

/// Values that are appended one after another, such as the fields of a struct.
///
/// A reference to a value is one item. [`ListOf`] is one item too: the list of the values of a
/// slice. [`Each`] is one item for each value of a slice, and [`Flattened`] is the fields of each
/// value. A pair is the items of its first part, and then the items of its second part.
pub trait AppendFields {
    /// The items, in order.
    ghost items: { Self → List Item };

    /// Each value belongs to its type.
    ghost fit: { Self → Type 0 };

    /// Returns the number of items, or `None` if it is 2^64 or more.
    fn field_count(&self) -> Option<usize>
        ensures { MatchOption result (2 ^ 64 ≤ length (items self.now))
            (λ n. n ≡ length (items self.now)) };

    /// Appends each value. If a value fails, returns the error of [`RlpStream::append`] for the
    /// first value that fails. The values before it stay in the stream.
    fn append_fields(&self, s: &mut RlpStream) -> Result<(), AllocError>
        ensures fits { OnOk result (fit self.now) }
        ensures ok { OnOk result (s.new.state ≡ add_all (items self.now) s.old.state) }
        ensures refused { OnErr result (AppendsSome (items self.now) s.old.state s.new.state) }
        ensures moved { MovedGrows s.old s.new };
}

impl<T: Encodable> AppendFields for &T {
    ghost items = { λ v. T.item v.now ∷ [] };

    ghost fit = { λ v. T.fits v.now };

    fn field_count(&self) -> Option<usize> {
        Some(1)
    }

    #[inline(always)]
    #[tactic(auto, using(crate::proofs::Streams::Fields::some_none))]
    fn append_fields(&self, s: &mut RlpStream) -> Result<(), AllocError> {
        s.try_append(*self)
    }
}

impl<P: AppendFields, Q: AppendFields> AppendFields for (P, Q) {
    ghost items = { λ v. P.items v.0 ++ Q.items v.1 };

    ghost fit = { λ v. P.fit v.0 × Q.fit v.1 };

    #[tactic(auto, using(crate::proofs::Streams::Fields::counts))]
    fn field_count(&self) -> Option<usize> {
        let first = self.0.field_count()?;
        let others = self.1.field_count()?;
        first.checked_add(others)
    }

    #[tactic(auto, using(crate::proofs::Streams::Fields::pairs))]
    fn append_fields(&self, s: &mut RlpStream) -> Result<(), AllocError> {
        self.0.append_fields(s)?;
        self.1.append_fields(s)
    }
}

/// The fields of a struct, in the list of another struct.
#[derive(Clone, Copy)]
pub struct FieldsOf<'a, S>(pub &'a S);

impl<S: AppendFields> AppendFields for FieldsOf<'_, S> {
    ghost items = { λ v. S.items v.0.now };

    ghost fit = { λ v. S.fit v.0.now };

    fn field_count(&self) -> Option<usize> {
        self.0.field_count()
    }

    fn append_fields(&self, s: &mut RlpStream) -> Result<(), AllocError> {
        self.0.append_fields(s)
    }
}

/// No fields.
impl AppendFields for () {
    ghost items = { λ v. [] };

    ghost fit = { λ v. ⊤ };

    fn field_count(&self) -> Option<usize> {
        Some(0)
    }

    fn append_fields(&self, s: &mut RlpStream) -> Result<(), AllocError> {
        Ok(())
    }
}

/// Writes a struct as the list of its fields. Use it in [`Encodable::rlp_append`];
/// `rlp::append_fields!` calls it.
///
/// Fails with `AllocError` if memory is refused, if the [`Encodable::rlp_append`] of a value fails,
/// or if the number of items is 2^64 or more.
#[inline(always)]
#[tactic(auto, using(crate::proofs::Streams::Fields::filled))]
pub fn write_struct<F: AppendFields>(s: &mut RlpStream, fields: &F) -> Result<(), AllocError>
    ensures fits { OnOk result (F.fit fields.now) }
    ensures ok { OnOk result (s.new.state ≡ put_item (list_of (F.items fields.now)) s.old.state) }
    ensures refused { OnErr result (GrowsTo s.old.state s.new.state) }
    ensures moved { MovedGrows s.old s.new }
{
    let Some(count) = fields.field_count() else {
        return Err(AllocError);
    };
    s.try_begin(count)?;
    fields.append_fields(s)
}
