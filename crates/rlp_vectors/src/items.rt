//! The items of a list, also as fields, items that are split off bytes, and trees in flat form.

use crate::answers::Asked;
use rlp::{DecoderError, Fields, Rlp};
use rlp_rows::codec::view_of;
use rlp_rows::rows::{Hex, Line, cut, number};
use std::alloc::Global;
use std::fmt;
use std::fmt::Write;

/// Tells the number of items, and each item with its place and the fault behind them. They are the
/// same by `at`, by `at_with_offset` and by an iterator, which announces how many items are left. An
/// iterator of a strict view without items isn't compared. The first item is asked for again.
pub(crate) fn tell_items(asked: &Asked<'_>, out: &mut Line) -> fmt::Result {
    let view = asked.view();
    let mut items = view.iter();
    let (count, first) = (view.item_count().unwrap_or(0), asked.raw(view.at(0)));
    let is_iterated = !asked.strict || view.item_count().is_ok();
    out.debug(view.item_count())?;
    for index in 0..=count {
        let (left, hint) = (items.len(), items.size_hint());
        let found = asked.raw(view.at(index));
        let is_same = match (view.at_with_offset(index), items.next()) {
            (Ok((item, place)), Some(next)) => {
                let is_same = asked.raw(Ok(item)) == found && asked.raw(Ok(next)) == found;
                out.then(found)?;
                out.then(place)?;
                is_same
            }
            (Err(fault), next) => {
                let is_end = next.is_none() && items.next().is_none();
                let behind = view.at(index.saturating_add(6)).err();
                out.then(found)?;
                let is_first_again = asked.raw(view.at(0)) == first;
                behind == Some(fault) && is_first_again && (is_end || !is_iterated)
            }
            _ => false,
        };
        let is_announced = left == count.saturating_sub(index) && hint == (left, Some(left));
        if !is_same || (is_iterated && !is_announced) {
            return out.write_str(" and otherwise by another call");
        }
    }
    Ok(())
}

/// Tells the lengths of the header and of the value, the value, and the bytes of the view.
pub(crate) fn tell_payload(asked: &Asked<'_>, out: &mut Line) -> fmt::Result {
    let view = asked.view();
    match (view.payload_info(), view.data()) {
        (Ok(info), Ok(value)) => {
            out.debug(info.header_len)?;
            out.then(info.value_len)?;
            out.then(Hex(value))?;
            out.write_str(" of")?;
            out.then(asked.raw(Ok(view.clone())))
        }
        (info, value) => {
            out.debug(info.err())?;
            out.then(value.err())
        }
    }
}

/// Tells the first item of a list. The view that it is taken from is dropped before the item is
/// read.
pub(crate) fn tell_taken(asked: &Asked<'_>, out: &mut Line) -> fmt::Result {
    out.debug(asked.raw(taken(asked.bytes)))
}

/// Returns the first item of a list.
fn taken<'a>(bytes: &'a [u8]) -> Result<Rlp<'a>, DecoderError> {
    let view = Rlp::new(bytes);
    let mut items = view.iter();
    items.next().ok_or(DecoderError::Custom("no item"))
}

/// Tells the items that are split off one after another, and then the fault, and what is left.
pub(crate) fn tell_split(asked: &Asked<'_>, out: &mut Line) -> fmt::Result {
    let mut left = asked.view();
    for _ in 0..=asked.bytes.len() {
        match left.split_first() {
            Ok((item, rest)) => {
                out.debug(asked.raw(Ok(item)))?;
                out.write_str(" ")?;
                left = view_of(rest, asked.strict);
            }
            Err(fault) => {
                out.debug(fault)?;
                return out.then(Hex(left.as_raw()));
            }
        }
    }
    Ok(())
}

/// Tells whether the first item is canonical, its fault as a number or as a list of numbers, and
/// the bytes that follow it.
pub(crate) fn tell_first(asked: &Asked<'_>, out: &mut Line) -> fmt::Result {
    match asked.view().split_first() {
        Ok((item, rest)) => {
            out.debug(item.is_canonical(9))?;
            out.then(fault_of(asked.alloc, &item))?;
            out.then(Hex(rest))
        }
        Err(fault) => out.display(fault),
    }
}

/// Returns the fault of an item as a number or as a list of numbers.
fn fault_of(alloc: Global, item: &Rlp<'_>) -> Option<DecoderError> {
    if item.is_list() {
        item.as_list::<u8>(alloc).err()
    } else {
        item.as_val::<u8>(alloc).err()
    }
}

/// Tells the place, the header, the payload and the depth of each item of a tree, or the fault.
pub(crate) fn tell_tree(asked: &Asked<'_>, out: &mut Line) -> fmt::Result {
    let items = match asked.view().flatten(asked.alloc, number(asked.rest)) {
        Ok(items) => items,
        Err(fault) => return out.display(fault),
    };
    for item in items.as_slice() {
        let kind = if item.is_list { "list" } else { "string" };
        let (header, payload) = (item.header_len, item.payload_len);
        write!(
            out,
            "{kind} {}+{header}+{payload} in {}; ",
            item.place, item.depth
        )?;
    }
    Ok(())
}

/// Tells the number of the items of a list before and after its third item is read, whether the
/// second item is a list, and the third number of the third item.
pub(crate) fn tell_third(alloc: Global, view: &Rlp<'_>, out: &mut Line) -> fmt::Result {
    out.debug(view.item_count())?;
    out.then(matches!(view.at(1), Ok(item) if item.is_list()))?;
    out.then(third_of_third(alloc, view))?;
    out.then(view.item_count())
}

/// Returns the third number of the third item.
fn third_of_third(alloc: Global, view: &Rlp<'_>) -> Result<u16, DecoderError> {
    view.at(2)?.val_at::<u16>(alloc, 2)
}

/// Reads the fields of a view in steps, and finishes. `v` reads a view, `n` a number, `t` a text and `l` a
/// list of numbers.
pub(crate) fn tell_fields(asked: &Asked<'_>, out: &mut Line) -> fmt::Result {
    let (count, steps) = cut(asked.rest);
    let opened = if asked.call == "fields_of" {
        asked.view().fields_of(number(count))
    } else {
        asked.view().fields()
    };
    match opened {
        Ok(mut fields) => {
            for step in steps.bytes() {
                tell_step(asked, &mut fields, step, out)?;
                out.write_str(" ")?;
            }
            out.debug(fields.finish())
        }
        Err(fault) => out.display(fault),
    }
}

/// Writes what one step reads.
fn tell_step(asked: &Asked<'_>, fields: &mut Fields<'_>, step: u8, out: &mut Line) -> fmt::Result {
    match step {
        b'v' => out.debug(asked.raw(fields.next_view())),
        b'n' => out.debug(fields.next_value::<u8>(asked.alloc)),
        b't' => out.debug(fields.next_value::<String>(asked.alloc)),
        _ => out.debug(fields.next_list::<u8>(asked.alloc)),
    }
}
