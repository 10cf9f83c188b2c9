//! Values that are shown: as one text, as objects field by field, and as lists.

ghost use Rattle.std.specs.{Prelude.{◌≡◌, OnOk, string_bytes, IfOk, map, option_map}, Vec.vec_items};
ghost use Rattle.rlp_show.specs.Display.{Showing, a_content, a_list, an_object, end, if_there, in_forms, in_order, named, seen_as, shown_of};
ghost use Rattle.rlp_show.specs.Value.{Entries, Value, after, after_fields, content_of, inside, item_name};

use crate::sink::{Bracket, Shown, Sink};
use std::alloc::{AllocError, Global};
use std::fmt::Write;

/// A type whose values are shown.
pub trait Show {
    /// What contracts see of a value, and what is shown of what they see.
    ghost display: { Showing Value Self };

    /// Gives the value of this name to a sink. A whole record has no name. Fails with `AllocError`
    /// if memory is refused.
    fn show<S: Sink>(&self, alloc: Global, name: &str, sink: &mut S) -> Result<(), AllocError>
        ensures { OnOk result (S.seen sink.new
            ≡ after S.steps name.now (shown_of display self.now) (S.seen sink.old)) };
}

impl<T: Show> Show for &T {
    ghost display = { seen_as (λ v. T.display.seen v.now) T.display.form };

    fn show<S: Sink>(&self, alloc: Global, name: &str, sink: &mut S) -> Result<(), AllocError> {
        (**self).show(alloc, name, sink)
    }
}

impl Show for Shown<'_> {
    ghost display = { seen_as content_of (a_content (λ c. c) (λ c d is. is)) };

    fn show<S: Sink>(&self, _alloc: Global, name: &str, sink: &mut S) -> Result<(), AllocError> {
        sink.put(name, *self)
    }
}

/// Fields that are shown one after another, such as the fields of a struct. A pair is the fields of
/// its first part, and then the fields of its second part. A part that may be missing is an
/// `Option`.
pub trait ShowFields {
    /// What contracts see of a value, and the fields that are shown of it, in order.
    ghost fields: { Showing Entries Self };

    /// Gives the fields of the value of this name to a sink. Fails with `AllocError` if memory is
    /// refused.
    fn give<S: Sink>(&self, alloc: Global, name: &str, sink: &mut S) -> Result<(), AllocError>
        ensures { OnOk result (S.seen sink.new
            ≡ after_fields S.steps name.now (shown_of fields self.now) (S.seen sink.old)) };
}

/// A field: its name in lines, its name in JSON, as [`Sink::key`] takes it, and its value.
#[derive(Clone, Copy)]
pub struct Named<'a, V>(pub &'a str, pub &'a str, pub V);

/// A field that may be missing: its two names, as in [`Named`], and its value.
#[derive(Clone, Copy)]
pub struct NamedIf<'a, V>(pub &'a str, pub &'a str, pub &'a Option<V>);

/// Fields that are shown in lines, and fields that are shown in JSON in their place.
#[derive(Clone, Copy)]
pub struct ByForm<P, Q>(pub P, pub Q);

impl<V: Show> ShowFields for Named<'_, V> {
    ghost fields = { seen_as (λ f. (f.0.now, (f.1.now, V.display.seen f.2)))
        (named V.display.form) };

    fn give<S: Sink>(&self, alloc: Global, name: &str, sink: &mut S) -> Result<(), AllocError> {
        sink.key(self.1)?;
        let name = inside(alloc, name, self.0)?;
        self.2.show(alloc, name.as_str(), sink)
    }
}

/// No fields.
impl ShowFields for () {
    ghost fields = { seen_as (λ f. f) end };

    fn give<S: Sink>(&self, _alloc: Global, _name: &str, _sink: &mut S) -> Result<(), AllocError> {
        Ok(())
    }
}

impl<P: ShowFields, Q: ShowFields> ShowFields for (P, Q) {
    ghost fields = { seen_as (λ f. (P.fields.seen f.0, Q.fields.seen f.1))
        (in_order P.fields.form Q.fields.form) };

    fn give<S: Sink>(&self, alloc: Global, name: &str, sink: &mut S) -> Result<(), AllocError> {
        self.0.give(alloc, name, sink)?;
        self.1.give(alloc, name, sink)
    }
}

impl<P: ShowFields, Q: ShowFields> ShowFields for ByForm<P, Q> {
    ghost fields = { seen_as (λ f. (P.fields.seen f.0, Q.fields.seen f.1))
        (in_forms P.fields.form Q.fields.form) };

    fn give<S: Sink>(&self, alloc: Global, name: &str, sink: &mut S) -> Result<(), AllocError> {
        if sink.is_json() {
            return self.1.give(alloc, name, sink);
        }
        self.0.give(alloc, name, sink)
    }
}

impl<T: ShowFields> ShowFields for &T {
    ghost fields = { seen_as (λ f. T.fields.seen f.now) T.fields.form };

    fn give<S: Sink>(&self, alloc: Global, name: &str, sink: &mut S) -> Result<(), AllocError> {
        (**self).give(alloc, name, sink)
    }
}

impl<T: ShowFields> ShowFields for Option<T> {
    ghost fields = { seen_as (option_map T.fields.seen) (if_there T.fields.form) };

    fn give<S: Sink>(&self, alloc: Global, name: &str, sink: &mut S) -> Result<(), AllocError> {
        match self {
            Some(fields) => fields.give(alloc, name, sink),
            None => Ok(()),
        }
    }
}

impl<V: Show> ShowFields for NamedIf<'_, V> {
    ghost fields = { seen_as (λ f. option_map (λ m. (f.0.now, (f.1.now, m)))
        (option_map V.display.seen f.2.now)) (if_there (named V.display.form)) };

    fn give<S: Sink>(&self, alloc: Global, name: &str, sink: &mut S) -> Result<(), AllocError> {
        match self.2 {
            Some(value) => Named(self.0, self.1, value).give(alloc, name, sink),
            None => Ok(()),
        }
    }
}

/// A value that is shown as an object with its fields.
#[derive(Clone, Copy)]
pub struct Object<'a, T>(pub &'a T);

impl<T: ShowFields> Show for Object<'_, T> {
    ghost display = { seen_as (λ o. T.fields.seen o.0.now) (an_object T.fields.form) };

    fn show<S: Sink>(&self, alloc: Global, name: &str, sink: &mut S) -> Result<(), AllocError> {
        sink.bracket(Bracket::OpenBrace)?;
        self.0.give(alloc, name, sink)?;
        sink.bracket(Bracket::CloseBrace)
    }
}

/// The values of a vector.
#[derive(Clone, Copy)]
pub struct Items<'a, T>(pub &'a Vec<T>);

impl<T: Show> Show for Items<'_, T> {
    ghost display = { seen_as (λ v. map T.display.seen (vec_items v.0.now))
        (a_list T.display.form) };

    #[tactic(auto, using(crate::proofs::ItemLemmas::seen_taken))]
    fn show<S: Sink>(&self, alloc: Global, name: &str, sink: &mut S) -> Result<(), AllocError> {
        let mut rest = self.0.as_slice();
        if rest.is_empty() {
            return sink.put(name, Shown::EmptyList);
        }
        sink.bracket(Bracket::OpenSquare)?;
        let mut index = 0;
        while let Some((first, others)) = rest.split_first() {
            let place = place_in(alloc, name, index)?;
            first.show(alloc, place.as_str(), sink)?;
            rest = others;
            index += 1;
        }
        sink.bracket(Bracket::CloseSquare)
    }
}

/// The name of a field in the value of this name.
pub(crate) fn inside(alloc: Global, name: &str, text: &str) -> Result<String, AllocError>
    ensures { IfOk result (λ n. string_bytes n ≡ inside name.now text.now) }
{
    let mut joined = String::from_str(alloc, name)?;
    put_inside(text, &mut joined)?;
    Ok(joined)
}

/// The name of an item of the list with this name.
pub(crate) fn place_in(alloc: Global, name: &str, index: usize) -> Result<String, AllocError>
    ensures { IfOk result (λ n. string_bytes n ≡ item_name name.now index) }
{
    let mut text = String::from_str(alloc, name)?;
    put_place(index, &mut text)?;
    Ok(text)
}

/// Appends the name of a field to the name of the value that has the field.
pub(crate) fn put_inside(own: &str, name: &mut String) -> Result<(), AllocError>
    ensures { OnOk result (string_bytes name.new ≡ inside (string_bytes name.old) own.now) }
{
    if name.is_empty() {
        return name.push_str(own);
    }
    name.push('.')?;
    name.push_str(own)
}

/// Appends a place in a list to the name of the list.
pub(crate) fn put_place(index: usize, name: &mut String) -> Result<(), AllocError>
    ensures { OnOk result (string_bytes name.new ≡ item_name (string_bytes name.old) index) }
{
    write!(name, "[{index}]").map_err(|_| AllocError)
}

/// Fields as nested pairs. Each field is its name and its value, or is the fields of a part. A second
/// name is that in JSON. After a `?` the value may be missing. A field of a struct that has its own
/// name is `self.gas_price`. The last pair ends with the last field, or with no fields after a `;`.
macro_rules! fields {
    () => {
        ()
    };
    (@ $part:expr,) => {
        $part
    };
    (@ $part:expr, ; $($rest:tt)*) => {
        ($part, $crate::show::fields!($($rest)*))
    };
    ($name:literal ? $value:expr $(; $($rest:tt)*)?) => {
        $crate::show::fields!(@ $crate::show::NamedIf($name, $name, $value), $(; $($rest)*)?)
    };
    ($name:literal $json:literal $value:expr $(; $($rest:tt)*)?) => {
        $crate::show::fields!(@ $crate::show::Named($name, $json, $value), $(; $($rest)*)?)
    };
    ($name:literal $value:expr $(; $($rest:tt)*)?) => {
        $crate::show::fields!($name $name $value $(; $($rest)*)?)
    };
    ($owner:tt . $field:ident $json:literal $(; $($rest:tt)*)?) => {
        $crate::show::fields!(
            @ $crate::show::Named(stringify!($field), $json, &$owner.$field), $(; $($rest)*)?
        )
    };
    ($owner:tt . $field:ident $(; $($rest:tt)*)?) => {
        $crate::show::fields!(
            @ $crate::show::Named(stringify!($field), stringify!($field), &$owner.$field),
            $(; $($rest)*)?
        )
    };
    ($part:expr $(; $($rest:tt)*)?) => {
        $crate::show::fields!(@ $part, $(; $($rest)*)?)
    };
}

/// Gives fields to a sink.
macro_rules! give_fields {
    ($alloc:expr, $name:expr, $sink:expr; $($fields:tt)*) => {
        $crate::show::fields!($($fields)*).give($alloc, $name, $sink)
    };
}

/// Gives an object with these fields to a sink.
macro_rules! show_fields {
    ($alloc:expr, $name:expr, $sink:expr; $($fields:tt)*) => {
        $crate::show::Object(&$crate::show::fields!($($fields)*)).show($alloc, $name, $sink)
    };
}

pub(crate) use fields;
pub(crate) use give_fields;
pub(crate) use show_fields;
