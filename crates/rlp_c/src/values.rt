//! Values that are read from one string.

ghost use Rattle.std.specs.{Prelude.{◌≡◌, Err, MatchResult, Ok, OnOk}, Int.Digits.number_from_digits};
ghost use Rattle.rlp_reading.specs.{Format.Framing.IsString, Form.{fault_of, map_value, number_of, string_of}};
ghost use Rattle.rlp_format.specs.Format.Encoding.{big_endian};
ghost use Rattle.rlp.specs.Codec.{number};
ghost use Rattle.rlp_c.specs.{Status.{Answers, view_as}, Rows.{IsRowOfString, payload_at}};

use crate::item::RlpItem;
use crate::status::{RLP_OK, status_of};
use rlp::{Decodable, DecoderError, PayloadInfo, Rlp};
use std::alloc::Global;

/// A view of the bytes, strict or lenient.
fn view_over(bytes: &[u8], strict: bool) -> Rlp<'_>
    ensures { result ≡ view_as strict bytes.now }
{
    if strict {
        Rlp::new_strict(bytes)
    } else {
        Rlp::new(bytes)
    }
}

/// Reads a number below 2^64. If strict, nothing may follow the number.
#[unsafe(no_mangle)]
pub extern "C" fn rlp_decode_u64(alloc: Global, bytes: &[u8], strict: bool, out: &mut u64) -> u32
    ensures { Answers (λ n. n) ((number 8).reading.read (view_as strict bytes.now)).result
        result out.old out.new }
{
    match u64::decode(alloc, &view_over(bytes, strict)) {
        Ok(number) => {
            *out = number;
            RLP_OK
        }
        Err(fault) => status_of(&fault),
    }
}

/// Finds the big-endian digits, without leading zeros, of a number of at most `width` bytes: the
/// row is the one that [`rlp_decode_bytes`] finds. If strict, nothing may follow the number.
#[unsafe(no_mangle)]
#[tactic(auto, using(crate::proofs::Texts::number_within))]
pub extern "C" fn rlp_decode_uint(
    bytes: &[u8],
    strict: bool,
    width: usize,
    out: &mut RlpItem,
) -> u32
    ensures answer { Answers (λ r. payload_at bytes.now r)
        (map_value big_endian ((number width).reading.read (view_as strict bytes.now)).result)
        result out.old out.new }
    ensures row { result ≡ 0 → IsRowOfString bytes.now out.new }
{
    let digits = match view_over(bytes, strict).decoder().string() {
        Ok(digits) => digits,
        Err(fault) => return status_of(&fault),
    };
    match check_number(digits, width) {
        Ok(()) => {
            *out = string_row(bytes, digits);
            RLP_OK
        }
        Err(fault) => status_of(&fault),
    }
}

/// Tests the digits of a number, which may have at most `most` bytes.
#[tactic(auto, using(rlp_format::proofs::Lemmas::Digits::none_is_zero, rlp_reading::proofs::Lemmas::StringsHeld::leading_is_value))]
fn check_number(digits: &[u8], most: usize) -> Result<(), DecoderError>
    ensures number { MatchResult result
        (λ _. number_of most digits.now ≡ Ok (number_from_digits 256 digits.now))
        (λ e. number_of most digits.now ≡ Err (fault_of e)) }
    ensures digits { OnOk result (big_endian (number_from_digits 256 digits.now) ≡ digits.now) }
{
    if digits.len() > most {
        return Err(DecoderError::RlpIsTooBig);
    }
    match digits {
        [] => Ok(()),
        [first, ..] => {
            if *first == 0 {
                return Err(DecoderError::RlpInvalidIndirection);
            }
            Ok(())
        }
    }
}

/// Finds a byte string: the row is the one that `rlp_header` finds. If strict, nothing may follow
/// the string.
#[unsafe(no_mangle)]
#[tactic(auto, using(crate::proofs::Texts::number_within))]
pub extern "C" fn rlp_decode_bytes(bytes: &[u8], strict: bool, out: &mut RlpItem) -> u32
    ensures answer { Answers (λ r. payload_at bytes.now r) (string_of (view_as strict bytes.now))
        result out.old out.new }
    ensures row { result ≡ 0 → IsRowOfString bytes.now out.new }
{
    match view_over(bytes, strict).decoder().string() {
        Ok(string) => {
            *out = string_row(bytes, string);
            RLP_OK
        }
        Err(fault) => status_of(&fault),
    }
}

/// The row of the string that the bytes begin with.
#[tactic(auto, using(crate::proofs::Texts::rows_of_strings))]
fn string_row(bytes: &[u8], string: &[u8]) -> RlpItem
    requires { IsString bytes.now string.now }
    ensures row { IsRowOfString bytes.now result }
    ensures string { payload_at bytes.now result ≡ string.now }
{
    let header_len = match PayloadInfo::from(bytes) {
        Ok(info) => info.header_len,
        Err(_) => 0,
    };
    RlpItem {
        offset: 0,
        header_len,
        payload_len: string.len(),
        depth: 0,
        is_list: 0,
    }
}
