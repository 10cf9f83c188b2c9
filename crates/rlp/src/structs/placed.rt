//! Where in its list a struct can't be read.

ghost use Rattle.std.specs.Prelude.{◌≡◌, ◌⊎◌, IfOk, IsOkAnd, IsTrue, OnOk};
ghost use Rattle.rlp_reading.specs.Form.{IsFound, IsPlaced, in_list, struct_reading};

use crate::rlpin::{CountedFields, Rlp};
use crate::structs::{DecodeFields, FixedFields, Groups, Joined, OptionalField, OptionalGroup};
use crate::traits::{DecodePlaced, put_item_path};
use std::alloc::{AllocError, Global};

/// Fields that say which item of their list is at fault.
pub trait DecodeFieldsPlaced: DecodeFields {
    /// Appends the places that lead to the item at fault, as [`DecodePlaced::put_path`] does, if
    /// the next items aren't the fields. Returns whether the fields have a fault. If they have no
    /// fault, the items after the fields are left.
    ///
    /// Fails with `AllocError` if memory is refused.
    fn put_path(
        alloc: Global,
        fields: &mut CountedFields<'_>,
        path: &mut Vec<usize>,
    ) -> Result<bool, AllocError>
        ensures found { IfOk result (λ found. IsFound found
            (in_list fields.old.count (Self.reading.read fields.old.views)) path.old.items path.new.items) }
        ensures left { IfOk result (λ found. IsTrue found
            ⊎ IsOkAnd (Self.reading.read fields.old.views).result (λ t. t.1 ≡ fields.new.views)) }
        ensures count { fields.new.count ≡ fields.old.count };
}

impl DecodeFieldsPlaced for () {
    fn put_path(
        _alloc: Global,
        _fields: &mut CountedFields<'_>,
        _path: &mut Vec<usize>,
    ) -> Result<bool, AllocError> {
        Ok(false)
    }
}

impl<T: DecodePlaced, Q: DecodeFieldsPlaced> DecodeFieldsPlaced for (T, Q) {
    fn put_path(
        alloc: Global,
        fields: &mut CountedFields<'_>,
        path: &mut Vec<usize>,
    ) -> Result<bool, AllocError> {
        let Some(item) = fields.next() else {
            path.push(fields.last_place())?;
            return Ok(true);
        };
        if put_item_path::<T>(alloc, fields.last_place(), &item, path)? {
            return Ok(true);
        }
        Q::put_path(alloc, fields, path)
    }
}

impl<P: DecodeFieldsPlaced + FixedFields + Drop, Q: DecodeFieldsPlaced> DecodeFieldsPlaced
    for Joined<P, Q> {
    fn put_path(
        alloc: Global,
        fields: &mut CountedFields<'_>,
        path: &mut Vec<usize>,
    ) -> Result<bool, AllocError> {
        if P::put_path(alloc, fields, path)? {
            return Ok(true);
        }
        Q::put_path(alloc, fields, path)
    }
}

impl<T: DecodePlaced> DecodeFieldsPlaced for OptionalField<T> {
    fn put_path(
        alloc: Global,
        fields: &mut CountedFields<'_>,
        path: &mut Vec<usize>,
    ) -> Result<bool, AllocError> {
        let Some(item) = fields.next() else {
            return Ok(false);
        };
        put_item_path::<T>(alloc, fields.last_place(), &item, path)
    }
}

impl<S: DecodeFieldsPlaced> DecodeFieldsPlaced for OptionalGroup<S> {
    fn put_path(
        alloc: Global,
        fields: &mut CountedFields<'_>,
        path: &mut Vec<usize>,
    ) -> Result<bool, AllocError> {
        if fields.is_empty() {
            return Ok(false);
        }
        S::put_path(alloc, fields, path)
    }
}

impl<G: DecodeFieldsPlaced + FixedFields + Drop> DecodeFieldsPlaced for Groups<G> {
    #[tactic(auto, using(rlp_reading::proofs::PathLaws::groups_found))]
    fn put_path(
        alloc: Global,
        fields: &mut CountedFields<'_>,
        path: &mut Vec<usize>,
    ) -> Result<bool, AllocError> {
        let mut turns = match G::width() {
            Some(0) => 0,
            _ => fields.count_left(),
        };
        while turns > 0 {
            if fields.is_empty() {
                return Ok(false);
            }
            if G::put_path(alloc, fields, path)? {
                return Ok(true);
            }
            turns -= 1;
        }
        Ok(false)
    }
}

/// Appends the places that lead to the item at fault of a struct with these fields, as
/// [`DecodePlaced::put_path`] does. [`put_struct_path!`](crate::put_struct_path) calls it.
pub fn put_path_of<F: DecodeFieldsPlaced>(
    alloc: Global,
    rlp: &Rlp<'_>,
    path: &mut Vec<usize>,
) -> Result<(), AllocError>
    ensures { OnOk result (IsPlaced ((struct_reading F.reading).read rlp.now)
        path.old.items path.new.items) }
{
    let Ok(mut fields) = CountedFields::of(rlp) else {
        return Ok(());
    };
    if !F::accepts(fields.count_left()) || F::put_path(alloc, &mut fields, path)? {
        return Ok(());
    }
    if let Some(_) = fields.next() {
        path.push(fields.last_place())?;
    }
    Ok(())
}

/// Appends the places that lead to the item at fault of a struct. The macro is the whole body of a
/// [`DecodePlaced::put_path`]. The arguments are the allocator, the view, the path, and the types
/// of the fields in order. A list of values is a [`ListField`](crate::ListField). The field that
/// may be missing, such as an [`OptionalField`](crate::OptionalField), comes after a `;`.
///
/// ```rust
/// fn put_path(alloc: Global, rlp: &Rlp<'_>, path: &mut Vec<usize>) -> Result<(), AllocError> {
///     rlp::put_struct_path!(alloc, rlp, path, Address, ListField<Hash>; OptionalField<u64>)
/// }
/// ```
#[macro_export]
macro_rules! put_struct_path {
    ($alloc:expr, $rlp:expr, $path:expr, $($types:tt)*) => {
        $crate::put_path_of::<$crate::field_types!($($types)*)>($alloc, $rlp, $path)
    };
}

/// The types of fields as nested pairs, which end with `()` or with the type after a `;`.
#[macro_export]
macro_rules! field_types {
    () => {
        ()
    };
    ($type:ty) => {
        ($type, ())
    };
    ($type:ty; $last:ty) => {
        ($type, $last)
    };
    ($type:ty, $($others:tt)*) => {
        ($type, $crate::field_types!($($others)*))
    };
}
