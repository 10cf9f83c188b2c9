//! How many items are in the envelopes in an item.

ghost use Rattle.std.specs.Prelude.{◌≡◌, ◌≤◌, length};
ghost use Rattle.rlp.specs.Format.Encoding.{encoding, join_items, Item, Items};
ghost use Rattle.rlp_records.specs.Bounded.{enveloped_items, is_read_type, items_in_all_envelopes, items_in_string, payload_items};

use crate::{ACCESS_LIST_TYPE, SET_CODE_TYPE};
use rlp::FlatItem;
use rlp_reading::framed::{begins_as_list, first_framed, whole_framing};
use rlp_reading::walking::walk_whole;

/// How deep lists may nest in an item, or in the payload of an envelope.
pub(crate) const GREATEST_DEPTH: usize = 256;

/// Returns how many items are in the envelopes of an item, whose encoding the bytes are. Envelopes
/// stand inside this number of lists, or nowhere for `None`.
pub(crate) fn enveloped_items(bytes: &[u8], envelopes: Option<usize>) -> usize
    ensures { (x : Item) → bytes.now ≡ encoding x → result ≡ enveloped_items envelopes x }
{
    match envelopes {
        Some(depth) => items_in_envelopes(bytes, depth),
        None => 0,
    }
}

/// Returns how many items are in the envelopes of items, whose encodings the bytes are one after
/// another. Envelopes stand inside this number of lists. It reads no header of an item that is
/// inside more lists, but walks over the payloads of envelopes.
#[tactic(auto, using(crate::proofs::Scanning::scanning))]
fn items_in_envelopes(bytes: &[u8], depth: usize) -> usize
    ensures count { (xs : Items) → bytes.now ≡ join_items xs
        → result ≡ items_in_all_envelopes depth xs }
    ensures few { result ≤ length bytes.now }
{
    if depth == 0 {
        return items_in_strings(bytes);
    }
    let mut rest = bytes;
    let mut count = 0;
    while let Ok((framed, others)) = first_framed(rest) {
        if framed.is_list() {
            count += items_in_envelopes(framed.content, depth - 1);
        }
        rest = others;
    }
    count
}

/// Returns how many items are in the strings that are envelopes among items, whose encodings the
/// bytes are one after another.
#[tactic(auto, using(crate::proofs::Scanning::scanning))]
fn items_in_strings(bytes: &[u8]) -> usize
    ensures count { (xs : Items) → bytes.now ≡ join_items xs
        → result ≡ items_in_all_envelopes 0 xs }
    ensures few { result ≤ length bytes.now }
{
    let mut rest = bytes;
    let mut count = 0;
    while let Ok((framed, others)) = first_framed(rest) {
        if !framed.is_list() {
            count += items_in_string(framed.content);
        }
        rest = others;
    }
    count
}

/// Returns how many items are in a string, if it is an envelope.
#[tactic(auto, using(crate::proofs::Scanning::strings_counted))]
fn items_in_string(string: &[u8]) -> usize
    ensures count { result ≡ items_in_string string.now }
    ensures few { result ≤ length string.now }
{
    match string {
        [kind, payload @ ..] => {
            if is_read_type(*kind) {
                return items_in_payload(payload);
            }
            0
        }
        [] => 0,
    }
}

/// Returns whether a byte is the type of a transaction or a receipt that is read.
fn is_read_type(kind: u8) -> bool
    ensures { result ≡ is_read_type kind }
{
    ACCESS_LIST_TYPE <= kind && kind <= SET_CODE_TYPE
}

/// Returns how many items are in the payload of an envelope, or how many bytes the payload has if
/// it is a list that isn't an encoding.
#[tactic(auto, using(crate::proofs::Scanning::payloads_counted))]
fn items_in_payload(payload: &[u8]) -> usize
    ensures count { result ≡ payload_items payload.now }
    ensures few { result ≤ length payload.now }
{
    if !begins_as_list(payload) {
        return 0;
    }
    if let Ok(count) = walk_whole::<FlatItem>(payload, GREATEST_DEPTH, &mut []) {
        return count;
    }
    match whole_framing(payload) {
        Ok(_) => payload.len(),
        Err(_) => 0,
    }
}
