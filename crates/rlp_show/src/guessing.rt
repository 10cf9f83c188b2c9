//! The kind of a record that isn't named.

ghost use Rattle.std.specs.Prelude.{◌≡◌, drop};
ghost use Rattle.rlp.specs.Views.View.{item_count, item_views, strict_view_of};
ghost use Rattle.rlp_show.specs.Guess.{envelope_kind, first_of, guess, inner_of, list_kind, lists_kind, strings_kind};

use crate::kind::Kind;
use rlp::{DecoderError, Rlp, RlpIterator};

/// The first byte of a string of 20 bytes, such as an address.
const ADDRESS: u8 = 0x94;

/// The first byte of a string of 32 bytes, such as a hash.
const HASH: u8 = 0xa0;

/// The first byte from which on a string has more than 55 bytes.
const LONG: u8 = 0xb8;

/// The first byte from which on an item is a list.
const LIST: u8 = 0xc0;

/// The kind of a record by its first byte, and for a list by the number of its items and the first
/// bytes of some items. Returns `None` if no rule applies.
///
/// Fails as [`Rlp::item_count`] does if the first byte begins a list.
#[tactic(auto, unfolding(crate::specs::Guess::guess))]
pub fn guess(item: &Rlp<'_>) -> Result<Option<Kind>, DecoderError>
    ensures { result ≡ guess item.now }
{
    match item.as_raw() {
        [] => Ok(None),
        [kind, payload @ ..] if *kind < 0x80 => Ok(Some(envelope_kind(payload))),
        [0x80, ..] => Ok(Some(Kind::Node)),
        [first, ..] if *first >= LIST => {
            let count = item.item_count()?;
            Ok(list_kind(item, count))
        }
        _ => Ok(None),
    }
}

/// The kind of the envelope with this payload.
fn envelope_kind(payload: &[u8]) -> Kind
    ensures { result ≡ envelope_kind (item_count (strict_view_of payload.now)) }
{
    match Rlp::new_strict(payload).item_count() {
        Ok(4) => Kind::Receipt,
        _ => Kind::Transaction,
    }
}

/// The kind of a list of this many items.
fn list_kind(list: &Rlp<'_>, count: usize) -> Option<Kind>
    ensures { result ≡ list_kind (item_views list.now) count }
{
    if count == 0 {
        return Some(Kind::AccessList);
    }
    let mut items = list.iter();
    if first_of_next(&mut items) >= LIST {
        return lists_kind(count, inner_of(list));
    }
    let second = first_of_next(&mut items);
    let third = first_of_next(&mut items);
    strings_kind(count, second, third)
}

/// The first byte of the next item, or 0 if no item is left.
fn first_of_next(items: &mut RlpIterator<'_, '_>) -> u8
    ensures byte { result ≡ first_of items.old.left }
    ensures left { items.new.left ≡ drop 1 items.old.left }
{
    match items.next() {
        Some(item) => item.as_raw().first().copied().unwrap_or(0),
        None => 0,
    }
}

/// The first byte of the first item in the first item, or 0 if there is no such item.
fn inner_of(list: &Rlp<'_>) -> u8
    ensures { result ≡ inner_of (item_views list.now) }
{
    match list.iter().next() {
        Some(first) => first_of_next(&mut first.iter()),
        None => 0,
    }
}

/// The kind of a list of this many items, of which the first is a list. `inner` is the first byte
/// of the first item in that list.
fn lists_kind(count: usize, inner: u8) -> Option<Kind>
    ensures { result ≡ lists_kind count inner }
{
    match count {
        _ if inner == ADDRESS => Some(Kind::AccessList),
        17 => Some(Kind::Node),
        3 | 4 if inner == HASH => Some(Kind::Block),
        2 | 3 => Some(Kind::Body),
        _ => None,
    }
}

/// The kind of a list of this many items, of which the first is a string. The other two arguments
/// are the first bytes of the second and the third item. A bloom is longer than a key.
#[tactic(auto, unfolding(crate::specs::Guess::strings_kind))]
fn strings_kind(count: usize, second: u8, third: u8) -> Option<Kind>
    ensures { result ≡ strings_kind count second third }
{
    match count {
        2 => Some(Kind::Node),
        4 if third == HASH => Some(Kind::Account),
        4 if third == ADDRESS => Some(Kind::Withdrawal),
        4 if third < LONG => Some(Kind::NodeRecord),
        4 => Some(Kind::Receipt),
        6 if second == ADDRESS => Some(Kind::Authorization),
        9 => Some(Kind::Transaction),
        15..=23 if third == ADDRESS => Some(Kind::Header),
        17 => Some(Kind::Node),
        _ if count >= 6 && count % 2 == 0 => Some(Kind::NodeRecord),
        _ => None,
    }
}
