//! The items of one list as rows.

ghost use Rattle.std.specs.Prelude.{◌≡◌, ◌+◌, ◌<◌, ◌^◌, length, None, Some, IfOk, MatchResult};
ghost use Rattle.rlp_reading.specs.{Format.Framing.{split, after_items, fault_of_some, strict_list_fault}, Format.Walk.Extends};
ghost use Rattle.rlp_c.specs.Rows.{IsItemized, rows_at};

use crate::item::{RlpItem, bit};
use crate::status::{RLP_NO_ROOM, RLP_OK, status_of};
use rlp::DecoderError;
use rlp_reading::framed::{begins_as_list, first_framed, whole_framed};
use rlp_reading::walking::put;

/// Writes a row for each item of the list that the bytes are. It reads only the header of each
/// item. `count` gets the number of items. The elements behind the rows stay as they were. If the
/// array has fewer elements, the status is [`RLP_NO_ROOM`], and a second call with `count` elements
/// gives the rows.
#[unsafe(no_mangle)]
pub extern "C" fn rlp_split(bytes: &[u8], out: &mut [RlpItem], count: &mut usize) -> u32
    ensures { IsItemized 0 bytes.now out.old out.new count.old count.new result
        (strict_list_fault bytes.now) }
{
    split_list(bytes, 0, out, count)
}

/// Does what [`rlp_split`] does, for a list that begins at this place.
#[tactic(auto, using(crate::proofs::Splitting::list_split))]
pub(crate) fn split_list(bytes: &[u8], place: usize, out: &mut [RlpItem], count: &mut usize) -> u32
    requires { place + length bytes.now < 2 ^ 64 }
    ensures { IsItemized place bytes.now out.old out.new count.old count.new result
        (strict_list_fault bytes.now) }
{
    if !begins_as_list(bytes) {
        return status_of(&DecoderError::RlpExpectedToBeList);
    }
    let list = match whole_framed(bytes) {
        Ok(list) => list,
        Err(fault) => return status_of(&fault),
    };
    match split_payload(list.content, place + list.header.header_len, out) {
        Ok(items) => {
            *count = items;
            if items <= out.len() {
                RLP_OK
            } else {
                RLP_NO_ROOM
            }
        }
        Err(fault) => status_of(&fault),
    }
}

/// Writes a row for each item of a payload that begins at this place, and returns the number of
/// rows, or the fault of the bytes that follow the items.
#[tactic(auto, using(crate::proofs::Splitting::payload_split))]
fn split_payload(payload: &[u8], place: usize, out: &mut [RlpItem]) -> Result<usize, DecoderError>
    requires { place + length payload.now < 2 ^ 64 }
    ensures fault { MatchResult result (λ _. fault_of_some (after_items payload.now) ≡ None)
        (λ e. fault_of_some (after_items payload.now) ≡ Some e) }
    ensures count { IfOk result (λ n. n ≡ length (split payload.now)) }
    ensures rows { IfOk result (λ _. Extends out.old 0 (rows_at place 1 (split payload.now)) out.new) }
{
    let mut rest = payload;
    let mut count = 0;
    while !rest.is_empty() {
        let (item, others) = first_framed(rest)?;
        let row = RlpItem {
            offset: place + (payload.len() - rest.len()),
            header_len: item.header.header_len,
            payload_len: item.header.value_len,
            depth: 1,
            is_list: bit(item.is_list()),
        };
        put(out, count, row);
        count += 1;
        rest = others;
    }
    Ok(count)
}
