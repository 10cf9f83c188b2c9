//! Structs that are read as the list of their fields.

ghost use Rattle.std.specs.{Prelude.{◌≡◌, ◌+◌, ◌⊎◌, ◌^◌, Ok, Err, Some, IfOk, IfErr, IsTrue, slice_get}, Vec.vec_items};
ghost use Rattle.rlp_reading.specs.{declared.error.DecoderError.TheVariants.OutOfMemory, Values.FaultText.field_fault_text, Views.View.item_views, Laws.{TakePossible}};
ghost use Rattle.rlp_reading.specs.Form.{Faults, FieldsReading, Gives, MayLackMemory, fault_of, group_before, items_of, list_reading, no_fields, one_field, part_fields, struct_reading};
ghost use Rattle.rlp_reading.proofs.FieldLaws.{end_possible, group_possible, one_wide, part_possible};
ghost use Rattle.rlp.specs.Left.{AreFaulty};

mod groups;
mod optional;
mod placed;

use crate::rlpin::{Fields, Rlp};
use crate::traits::Decodable;
pub use groups::{FixedFields, Groups, Joined};
pub use optional::{OptionalField, OptionalGroup};
pub use placed::{DecodeFieldsPlaced, put_path_of};
use rlp_reading::error::DecoderError;
use std::alloc::Global;
use std::error::Error;
use std::fmt;

/// A list of values, as a field of a struct.
#[derive(Drop)]
pub struct ListField<T>(pub Vec<T>);

/// Reads the values as [`Rlp::as_list`] does.
impl<T: Decodable> Decodable for ListField<T> {
    ghost reading = { list_reading (λ l. vec_items l.0) T.reading };

    fn decode(alloc: Global, rlp: &Rlp<'_>) -> Result<ListField<T>, DecoderError> {
        let values = rlp.as_list(alloc)?;
        Ok(ListField(values))
    }
}

/// Why a struct can't be read.
#[derive(Debug, PartialEq, Eq, Drop)]
pub struct FieldFault {
    /// The place, counted from 0, of the item in the list that can't be read. `None` if the bytes
    /// aren't a list, or are a list with a wrong number of items.
    pub place: Option<usize>,
    /// The fault.
    pub fault: DecoderError,
}

/// Prints the fault's name, after the place of the field and a colon if a field is at fault, as in
/// `field 2: RlpIsTooBig`.
impl fmt::Display for FieldFault {
    ghost output = { λ e. Some (field_fault_text e.place e.fault) };

    fn fmt<W: fmt::Write>(&self, f: &mut fmt::Formatter<W>) -> fmt::Result {
        match self.place {
            Some(place) => write!(f, "field {place}: {}", self.fault),
            None => fmt::Display::fmt(&self.fault, f),
        }
    }
}

impl Error for FieldFault {}

/// The fields of a struct, read from the items of a list.
///
/// Pairs that end with `()` are fields one after another, as in `(a, (b, ()))`. The last fields may
/// be an [`OptionalField`], an [`OptionalGroup`] or [`Groups`] in the place of `()`. A struct has
/// this trait if its fields are in the list of another struct.
pub trait DecodeFields: Sized {
    /// How the fields are read.
    ghost reading: { FieldsReading Self };

    /// Returns whether the fields may be `len` items. [`decode_struct`] calls it after a fault.
    fn accepts(len: usize) -> bool
        ensures { result ≡ reading.accepts len };

    /// Reads the fields from the next items. If a field fails, the items after its item are left.
    /// The reader goes on over the same list.
    fn decode_fields(alloc: Global, fields: &mut Fields<'_>) -> Result<Self, DecoderError>
        ensures value { IfOk result (λ x. (reading.read fields.old.views).result
            ≡ Ok (reading.seen x, fields.new.views)) }
        ensures fault { IfErr result (λ e. ((reading.read fields.old.views).result
            ≡ Err (fields.new.views, fault_of e))
            ⊎ ((e ≡ OutOfMemory) × IsTrue reading.takes_memory)) }
        ensures after { fields.new.after ≡ fields.old.after };

    /// If the fields are all of the items, [`accepts`](DecodeFields::accepts) returns `true` for
    /// the number of items.
    ghost possible: { TakePossible Self.reading };
}

/// No more fields.
impl DecodeFields for () {
    ghost reading = { no_fields };

    fn accepts(len: usize) -> bool {
        len == 0
    }

    fn decode_fields(_alloc: Global, _fields: &mut Fields<'_>) -> Result<(), DecoderError> {
        Ok(())
    }

    ghost possible = { end_possible };
}

/// A field, and the fields after it.
impl<T: Decodable, Q: DecodeFields> DecodeFields for (T, Q) {
    ghost reading = { group_before (λ x. x.0) (one_field T.reading)
        (part_fields (λ x. x.1) Q.reading) };

    fn accepts(len: usize) -> bool {
        0 < len && Q::accepts(len - 1)
    }

    fn decode_fields(alloc: Global, fields: &mut Fields<'_>) -> Result<(T, Q), DecoderError> {
        let Some(item) = fields.next() else {
            return Err(DecoderError::RlpIncorrectListLen);
        };
        // With `?` the values of the fields are copied once more.
        match T::decode(alloc, &item) {
            Ok(value) => match Q::decode_fields(alloc, fields) {
                Ok(others) => Ok((value, others)),
                Err(fault) => Err(fault),
            },
            Err(fault) => Err(fault),
        }
    }

    ghost possible = { group_possible (λ x. x.0) (one_field T.reading)
        (part_fields (λ x. x.1) Q.reading) (one_wide T.reading)
        (part_possible (λ x. x.1) Q.reading Q.possible) };
}

/// Reads the fields of a struct from the list that the view begins with, and says which field
/// fails. `rlp::decode_fields!` calls it.
///
/// Fails with `RlpIncorrectListLen` and no place if the number of items is wrong, whatever the
/// items are. Also fails as [`Rlp::item_count`] does, with no place, and with the fault and the
/// place of the first field that fails.
///
/// It walks over the items once more only after a fault, to find which fault comes first.
#[inline(always)]
#[tactic(auto, using(crate::proofs::Counting::struct_answers))]
pub fn decode_struct<F: DecodeFields + Drop>(alloc: Global, rlp: &Rlp<'_>) -> Result<F, FieldFault>
    ensures value { IfOk result (λ x. Gives (struct_reading F.reading) rlp.now x) }
    ensures fault { IfErr result (λ e. Faults (struct_reading F.reading) rlp.now e.fault
        ⊎ ((e.fault ≡ OutOfMemory) × MayLackMemory (struct_reading F.reading) rlp.now)) }
    ensures place { IfErr result (λ e.
        (slice_get ((struct_reading F.reading).read rlp.now).path 0 ≡ e.place)
        ⊎ ((e.fault ≡ OutOfMemory) × MayLackMemory (struct_reading F.reading) rlp.now)) }
{
    let mut fields = match Fields::framed(rlp) {
        Ok(fields) => fields,
        Err(fault) => return Err(FieldFault { place: None, fault }),
    };
    match F::decode_fields(alloc, &mut fields) {
        Ok(values) => {
            if fields.has_ended() || !rlp.is_strict() && fields.is_empty() {
                return Ok(values);
            }
            let after = fields.count_left().saturating_sub(1);
            Err(first_fault::<F>(rlp, after, DecoderError::RlpIncorrectListLen))
        }
        Err(fault) => Err(first_fault::<F>(rlp, fields.count_left(), fault)),
    }
}

/// The fault of a struct whose fields [`decode_struct`] can't read: the fault of the list, or else
/// a wrong number of items, or else the fault of the item before the last `after` items. It walks
/// over the items.
#[inline(never)]
#[tactic(auto, using(crate::proofs::Counting::counted_faults))]
fn first_fault<F: DecodeFields>(rlp: &Rlp<'_>, after: usize, found: DecoderError) -> FieldFault
    requires found { items_of rlp.now ≡ Ok (item_views rlp.now)
        → AreFaulty F.reading (item_views rlp.now) after found
        ⊎ ((found ≡ OutOfMemory) × IsTrue F.reading.takes_memory) }
    ensures fault { Faults (struct_reading F.reading) rlp.now result.fault
        ⊎ ((result.fault ≡ OutOfMemory) × MayLackMemory (struct_reading F.reading) rlp.now) }
    ensures place { (slice_get ((struct_reading F.reading).read rlp.now).path 0 ≡ result.place)
        ⊎ ((result.fault ≡ OutOfMemory) × MayLackMemory (struct_reading F.reading) rlp.now) }
{
    let count = match rlp.item_count() {
        Ok(count) => count,
        Err(fault) => return FieldFault { place: None, fault },
    };
    if F::accepts(count) {
        return FieldFault {
            place: Some(count.saturating_sub(1).saturating_sub(after)),
            fault: found,
        };
    }
    FieldFault {
        place: None,
        fault: DecoderError::RlpIncorrectListLen,
    }
}

/// Writes a struct as the list of its fields. The arguments are the stream, and then each field in
/// order. The macro counts the fields. It is the whole body of an `rlp_append`.
///
/// A reference to a value is one item. `ListOf(&self.keys)` is one item, which is a list.
/// `Each(&self.children)` is one item for each value. `Flattened(&self.pairs)` is the fields of
/// each value, and `FieldsOf(&self.payload)` is the fields of a struct. Fails as [`write_struct`]
/// does.
///
/// The last field may be missing: `Optional(&self.base_fee)` is one item if the option is `Some`,
/// and `OptionalListOf(&self.withdrawals)` is then one list. `OptionalGroupOf(&self.since_london)`
/// is the fields of a struct if the option is `Some`.
///
/// ```rust
/// fn rlp_append(&self, s: &mut RlpStream) -> Result<(), AllocError> {
///     rlp::append_fields!(s, &self.address, ListOf(&self.keys), Optional(&self.nonce))
/// }
/// ```
///
/// Without a stream, `append_fields!([&self.address, &self.nonce])` is the fields themselves, for a
/// function of your own that takes [`AppendFields`](crate::AppendFields).
#[macro_export]
macro_rules! append_fields {
    // The pairs hold groups of sixteen and of four fields, so that no field is deep in pairs.
    (@nested $a:expr, $b:expr, $c:expr, $d:expr, $e:expr, $f:expr, $g:expr, $h:expr,
        $i:expr, $j:expr, $k:expr, $l:expr, $m:expr, $n:expr, $o:expr, $p:expr,
        $($others:expr),+) => {
        (
            $crate::append_fields!(@nested $a, $b, $c, $d, $e, $f, $g, $h, $i, $j, $k, $l, $m, $n, $o, $p),
            $crate::append_fields!(@nested $($others),+),
        )
    };
    (@nested $a:expr, $b:expr, $c:expr, $d:expr, $($others:expr),+) => {
        (
            ($a, ($b, ($c, $d))),
            $crate::append_fields!(@nested $($others),+),
        )
    };
    (@nested $last:expr) => {
        $last
    };
    (@nested $first:expr, $($others:expr),+) => {
        ($first, $crate::append_fields!(@nested $($others),+))
    };
    (@call $s:expr, $fields:expr) => {
        match $crate::write_struct($s, &$fields) {
            Ok(()) => Ok(()),
            Err(refused) => Err(refused),
        }
    };
    ([$($field:expr),+ $(,)?]) => {
        $crate::append_fields!(@nested $($field),+)
    };
    ($s:expr, $($field:expr),+ $(,)?) => {
        $crate::append_fields!(@call $s, $crate::append_fields!(@nested $($field),+))
    };
}

/// Reads a struct from the list of its fields. The arguments are the allocator, the view, and the
/// struct with its fields in order. The macro is the whole body of a `decode`. Fails as
/// [`decode_struct`] does.
///
/// A field that is a list is written `keys: [..]`. An array whose values are items of their own is
/// written `sides: [_, _]`, with a `_` for each value.
///
/// The last field may be missing. It is an `Option`, and is written `nonce: ?`, or `keys: [..]?` if
/// it is a list. Fields that are missing together are a struct of their own with [`DecodeFields`],
/// in an `Option` that is written `since_london: (..)?`. The last field may also be a vector of
/// [`FixedFields`], which is groups of fields, such as keys and values one after another: it is
/// written `pairs: [(..)]`. A struct with [`FixedFields`] whose fields come first in the list is
/// written `payload: (..)`.
///
/// More than sixteen fields are read in groups, `(a, b, c), (d, e, f), g`, for each of which the
/// definition of the codec has a `group`.
///
/// ```rust
/// fn decode(alloc: Global, rlp: &Rlp<'_>) -> Result<Access, DecoderError> {
///     rlp::decode_fields!(alloc, rlp, Access { address, keys: [..], nonce: ? })
/// }
/// ```
///
/// With the word `fields` in front, and a reader of fields in the place of the view, the macro is
/// the whole body of a [`DecodeFields::decode_fields`].
///
/// ```rust
/// fn decode_fields(alloc: Global, fields: &mut Fields<'_>) -> Result<Pair, DecoderError> {
///     rlp::decode_fields!(fields alloc, fields, Pair { key, value })
/// }
/// ```
#[macro_export]
macro_rules! decode_fields {
    // Each field is moved out of the values, and the remaining fields are left: a pattern of all
    // fields at once takes long to check.
    (@next $head:tt $left:ident [$($moves:tt)*] $names:tt) => {
        $crate::decode_fields!(@call $head $left [$($moves)* let () = $left;] $names)
    };
    (@next $head:tt $left:ident [$($moves:tt)*] [$($names:ident)*] $field:ident $(, $($others:tt)*)?) => {
        $crate::decode_fields!(
            @next $head $left
            [$($moves)* let ($field, $left) = $left;] [$($names)* $field] $($($others)*)?
        )
    };
    (@next $head:tt $left:ident [$($moves:tt)*] [$($names:ident)*] ($($field:ident),+ $(,)?) $(, $($others:tt)*)?) => {
        $crate::decode_fields!(
            @next $head $left
            [$($moves)* let $crate::Joined(group, $left) = $left; $(let ($field, group) = group;)+ let () = group;]
            [$($names)* $($field)+] $($($others)*)?
        )
    };
    (@next $head:tt $left:ident [$($moves:tt)*] [$($names:ident)*] $field:ident: [..] $(, $($others:tt)*)?) => {
        $crate::decode_fields!(
            @next $head $left
            [$($moves)* let ($crate::ListField($field), $left) = $left;] [$($names)* $field] $($($others)*)?
        )
    };
    (@next $head:tt $left:ident [$($moves:tt)*] [$($names:ident)*] $field:ident: ? $(,)?) => {
        $crate::decode_fields!(
            @call $head $left
            [$($moves)* let $crate::OptionalField($field) = $left;] [$($names)* $field]
        )
    };
    (@next $head:tt $left:ident [$($moves:tt)*] [$($names:ident)*] $field:ident: [..]? $(,)?) => {
        $crate::decode_fields!(
            @call $head $left
            [$($moves)*
            let $crate::OptionalField(list) = $left;
            let $field = match list {
                Some($crate::ListField($field)) => Some($field),
                None => None,
            };]
            [$($names)* $field]
        )
    };
    (@next $head:tt $left:ident [$($moves:tt)*] [$($names:ident)*] $field:ident: (..)? $(,)?) => {
        $crate::decode_fields!(
            @call $head $left [$($moves)* let $crate::OptionalGroup($field) = $left;] [$($names)* $field]
        )
    };
    (@next $head:tt $left:ident [$($moves:tt)*] [$($names:ident)*] $field:ident: (..) $(, $($others:tt)*)?) => {
        $crate::decode_fields!(
            @next $head $left
            [$($moves)* let $crate::Joined($field, $left) = $left;] [$($names)* $field] $($($others)*)?
        )
    };
    (@next $head:tt $left:ident [$($moves:tt)*] [$($names:ident)*] $field:ident: [(..)] $(,)?) => {
        $crate::decode_fields!(
            @call $head $left [$($moves)* let $crate::Groups($field) = $left;] [$($names)* $field]
        )
    };
    (@next $head:tt $left:ident $moves:tt $names:tt $field:ident: [$($mark:tt),+ $(,)?] $(, $($others:tt)*)?) => {
        $crate::decode_fields!(@each $head $left $moves $names $field [] [$($mark)+] $($($others)*)?)
    };
    // Each value of an array has a name of its own, since the name of a macro's body is new in each
    // step.
    (@each $head:tt $left:ident [$($moves:tt)*] [$($names:ident)*] $field:ident [$($values:ident)*] [] $($others:tt)*) => {
        $crate::decode_fields!(
            @next $head $left
            [$($moves)* let $field = [$($values),*];] [$($names)* $field] $($others)*
        )
    };
    (@each $head:tt $left:ident [$($moves:tt)*] $names:tt $field:ident [$($values:ident)*] [_ $($more:tt)*] $($others:tt)*) => {
        $crate::decode_fields!(
            @each $head $left
            [$($moves)* let (value, $left) = $left;] $names $field [$($values)* value] [$($more)*] $($others)*
        )
    };
    (@call ($read:expr, [$($part:tt)*] $name:ident {}) $left:ident [$($moves:tt)*] [$($field:ident)*]) => {
        match $read {
            Ok($left) => {
                $($moves)*
                Ok($name { $($field),* })
            }
            Err(fault) => Err(fault $($part)*),
        }
    };
    (@call ($read:expr, [$($part:tt)*] $name:ident ()) $left:ident [$($moves:tt)*] [$($field:ident)*]) => {
        match $read {
            Ok($left) => {
                $($moves)*
                Ok($name($($field),*))
            }
            Err(fault) => Err(fault $($part)*),
        }
    };
    ($alloc:expr, $rlp:expr, $name:ident { $($fields:tt)+ }) => {
        $crate::decode_fields!(@next ($crate::decode_struct($alloc, $rlp), [.fault] $name {}) fields [] [] $($fields)+)
    };
    ($alloc:expr, $rlp:expr, $name:ident ( $($fields:tt)+ )) => {
        $crate::decode_fields!(@next ($crate::decode_struct($alloc, $rlp), [.fault] $name ()) fields [] [] $($fields)+)
    };
    (fields $alloc:expr, $from:expr, $name:ident { $($fields:tt)+ }) => {
        $crate::decode_fields!(
            @next ($crate::DecodeFields::decode_fields($alloc, $from), [] $name {}) fields [] [] $($fields)+
        )
    };
    (fields $alloc:expr, $from:expr, $name:ident ( $($fields:tt)+ )) => {
        $crate::decode_fields!(
            @next ($crate::DecodeFields::decode_fields($alloc, $from), [] $name ()) fields [] [] $($fields)+
        )
    };
}
