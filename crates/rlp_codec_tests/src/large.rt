//! Lists of many items, and lists that nest deep.

use rlp::{DecoderError, RawItem, Rlp};
use rlp_rows::codec::goes_both_ways;
use rlp_rows::rows::{bytes_of, push_header};
use std::alloc::{AllocError, Global};
use std::test::Fail;

/// Returns whether an iterator gives `len` items 01, and then `None` each time. `RlpIterator::len` walks
/// what is left.
fn iterates_ones(view: &Rlp<'_>, len: usize) -> bool {
    let mut items = view.iter();
    for _ in 1..len {
        match items.next() {
            Some(item) if item.as_raw() == [0x01].as_slice() => {}
            _ => return false,
        }
    }
    items.len() == 1 && items.next().is_some() && items.next().is_none() && items.next().is_none()
}

/// Returns whether a list has `len` items, the last of them 01 and at this place.
fn ends_with_one(view: &Rlp<'_>, len: usize, place: usize) -> Result<bool, DecoderError> {
    let (last, found) = view.at_with_offset(len.saturating_sub(1))?;
    Ok(
        last.as_raw() == [0x01].as_slice()
            && found == place
            && view.item_count()? == len
            && view.at(len).err() == Some(DecoderError::RlpIsTooShort),
    )
}

/// Returns whether a list is read as `len` numbers, which are the bytes at its end.
fn gives_ones(alloc: Global, view: &Rlp<'_>, len: usize) -> bool {
    match view.as_list::<u8>(alloc) {
        Ok(numbers) => numbers.len() == len && view.as_raw().ends_with(numbers.as_slice()),
        Err(_) => false,
    }
}

/// Returns whether the text of a list of `len` items 01 has for each item four characters `0x01`,
/// two quotes, and two characters of comma and space or of brackets.
fn prints_ones(alloc: Global, view: &Rlp<'_>, len: usize) -> Result<bool, AllocError> {
    let text = format!(in alloc; "{view}")?;
    let text = text.as_str();
    Ok(
        text.len() == len.saturating_mul(8)
            && text.starts_with("[\"0x01\", \"0x01\", \"0x01\", ")
            && text.ends_with(", \"0x01\", \"0x01\"]"),
    )
}

/// Returns whether the calls that read or print a list of `len` items 01 do.
fn are_ones(alloc: Global, text: &str, len: usize) -> Result<bool, Fail> {
    let bytes = bytes_of(alloc, text)?;
    let (view, place) = (Rlp::new(bytes.as_slice()), bytes.len().saturating_sub(1));
    Ok(
        iterates_ones(&view, len)
            && ends_with_one(&view, len, place)?
            && gives_ones(alloc, &view, len)
            && prints_ones(alloc, &view, len)?,
    )
}

/// Returns lists, one inside another. If the lists have siblings, each list but the outermost is
/// between the empty string and the empty list. The bytes are written from the end.
fn nested(alloc: Global, levels: usize, siblings: bool) -> Result<Vec<u8>, AllocError> {
    let mut backwards = Vec::from_slice(alloc, &[0xc0])?;
    for _ in 1..levels {
        if siblings {
            backwards.insert(0, 0xc0)?;
            backwards.extend_from_slice(&[0x80])?;
        }
        push_header(&mut backwards)?;
    }
    backwards.as_mut_slice().reverse();
    Ok(backwards)
}

/// Returns whether the depth of lists, one inside another, is exactly `levels`.
fn nest(alloc: Global, levels: usize, siblings: bool) -> Result<bool, AllocError> {
    let bytes = nested(alloc, levels, siblings)?;
    let (view, fewer) = (Rlp::new(bytes.as_slice()), levels.saturating_sub(1));
    Ok(
        view.is_nested_within(levels)
            && !view.is_nested_within(fewer)
            && view.is_canonical(levels)
            && !view.is_canonical(fewer),
    )
}

/// Returns whether raw items nest to a depth of 256, and no deeper.
fn raw_items_nest(alloc: Global) -> Result<bool, AllocError> {
    let (deep, deeper) = (nested(alloc, 256, false)?, nested(alloc, 257, false)?);
    let fault = rlp::decode::<RawItem>(alloc, deeper.as_slice()).err();
    Ok(
        goes_both_ways(alloc, deep.as_slice())?
            && fault == Some(DecoderError::Custom("item nests too deep")),
    )
}

// With siblings at every level, a function that tests each item twice wouldn't end in time.
#[test]
fn lists_of_many_items_and_levels(rt: HostRuntime) -> Result<(), Fail> {
    let alloc = rt.alloc();
    assert!(rt; are_ones(alloc, "f92710+01*10000", 10_000)?);
    assert!(rt; are_ones(alloc, "fa0f4240+01*1000000", 1_000_000)?);
    assert!(rt; nest(alloc, 200, false)? && nest(alloc, 256, true)?);
    assert!(rt; raw_items_nest(alloc)?);
    Ok(())
}
