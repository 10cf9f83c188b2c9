//! What C sees of an item: where it is in the bytes. And the header of the item that bytes begin
//! with.

ghost use Rattle.std.specs.Prelude.{◌≡◌, MatchResult};
ghost use Rattle.rlp_reading.specs.Format.Framing.{framing, begins_as_list};
ghost use Rattle.rlp_format.specs.Values.Value.{bit};
ghost use Rattle.rlp_c.specs.{Rows.row, Status.fault_status};

use crate::status::{RLP_OK, status_of};
use rlp_reading::flat::{FlatItem, FlatRow};
use rlp_reading::framed::first_framed;

/// An item of some bytes. Its header begins at `offset`, and its payload follows the header.
/// `depth` is the number of lists around it. `is_list` is 1 for a list and 0 for a string: a number
/// and not a `bool`, so that an array of any bytes is a valid array of items.
#[repr(C)]
#[derive(Clone, Copy)]
pub struct RlpItem {
    pub offset: usize,
    pub header_len: usize,
    pub payload_len: usize,
    pub depth: u32,
    pub is_list: u32,
}

impl FlatRow for RlpItem {
    ghost use Rattle.std.specs.Prelude.{◌-◌, ◌^◌};
    ghost use Rattle.rlp_c.specs.Rows.{row_of};

    ghost row_of = { row_of };

    ghost greatest_depth = { 2 ^ 32 - 1 };

    fn row_of(item: FlatItem) -> RlpItem {
        RlpItem {
            offset: item.place,
            header_len: item.header_len,
            payload_len: item.payload_len,
            depth: item.depth as u32,
            is_list: bit(item.is_list),
        }
    }
}

/// A `bool` as a number.
pub fn bit(flag: bool) -> u32
    ensures { result ≡ bit flag }
{
    if flag { 1 } else { 0 }
}

/// Reads the header of the item that the bytes begin with. The item lies within the bytes. Other
/// bytes may follow it.
#[unsafe(no_mangle)]
pub extern "C" fn rlp_header(bytes: &[u8], out: &mut RlpItem) -> u32
    ensures { MatchResult (framing bytes.now)
        (λ p. (result ≡ 0) × (out.new ≡ row 0 0 (begins_as_list bytes.now) p))
        (λ e. (result ≡ fault_status e) × (out.new ≡ out.old)) }
{
    match first_framed(bytes) {
        Ok((framed, _)) => {
            *out = RlpItem {
                offset: 0,
                header_len: framed.header.header_len,
                payload_len: framed.header.value_len,
                depth: 0,
                is_list: bit(framed.is_list()),
            };
            RLP_OK
        }
        Err(fault) => status_of(&fault),
    }
}
