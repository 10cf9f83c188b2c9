//! Lenient and strict views, and what strict views give.

ghost use Rattle.std.specs.Prelude.{◌≡◌, ◌+◌, ◌<◌, ◌^◌, ◌↔◌, ◌⊎◌, ℕ, List, All, if◌then◌else◌, length, Ok, Err, Some, None, IfErr, IfOk, IsOkAnd, map};
ghost use Rattle.rlp_reading.specs.declared.error.DecoderError.TheVariants.{OutOfMemory, RlpExpectedToBeList, RlpIsTooBig};
ghost use Rattle.rlp_reading.specs.Format.Framing.{HasHeader, IsFramed, fault, framing, value, begins_as_list, items, read_string, IsCanonical, strict_fault};
ghost use Rattle.rlp_reading.specs.{Values.RoundTrip.ReadsStrictly, Values.ValueReading.HasOneReading};
ghost use Rattle.rlp_reading.specs.Form.{Faults, Gives, byte_array, byte_string, number, option_reading, text, truth_value};
ghost use Rattle.rlp_reading.specs.Views.View.{HoldsItem, View, item_by, item_count, item_with_place, list_fault, strict_view_of, view_header, view_of, view_string, view_value};
ghost use Rattle.rlp_format.specs.{Format.Encoding.{BeginsWith, encoding, AreBytes, Item, list_of, string}, Values.Value.{AreAlike, bit, number_item, option_item}};

use crate::traits::{Decodable, StrictRead};
use rlp_reading::error::DecoderError;
use rlp_write::Encodable;
use std::alloc::Global;

/// Why bytes aren't exactly one framed item: they aren't framed, or bytes follow the framed item.
/// Canonical bytes have no such fault.
#[tactic(auto, using(rlp_format::proofs::Lemmas::Digits::bytes_held, rlp_reading::proofs::Lemmas::Fronts::strict_canonical, rlp_reading::proofs::Lemmas::Fronts::strict_followed, rlp_reading::proofs::Lemmas::Fronts::strict_unframed, rlp_reading::proofs::Lemmas::Fronts::strict_whole))]
pub fn strict_fault_is_read(bytes: &[u8])
    ensures whole { (h n : ℕ) → HasHeader bytes.now h n → h + n ≡ length bytes.now
        → strict_fault bytes.now ≡ None }
    ensures followed { (h n : ℕ) → HasHeader bytes.now h n → h + n < length bytes.now
        → strict_fault bytes.now ≡ Some RlpIsTooBig }
    ensures unframed { ¬ IsFramed bytes.now → strict_fault bytes.now ≡ Some (fault bytes.now) }
    ensures canonical { IsCanonical bytes.now → strict_fault bytes.now ≡ None }
{}

/// Each definition over a lenient view equals the definition over the bytes of the view, whatever
/// follows the first item.
#[tactic(auto, using(rlp_reading::proofs::Lemmas::Fronts::lenient_count, rlp_reading::proofs::Lemmas::Fronts::lenient_place))]
pub fn lenient_views_ignore_what_follows(bytes: &[u8])
    ensures header { view_header (view_of bytes.now) ≡ framing bytes.now }
    ensures value { view_value (view_of bytes.now) ≡ value bytes.now }
    ensures string { view_string (view_of bytes.now) ≡ read_string bytes.now }
    ensures holds { (x : Item) → HoldsItem (view_of bytes.now) x
        ↔ BeginsWith bytes.now (encoding x) }
    ensures list { list_fault (view_of bytes.now) ≡ None }
    ensures count { item_count (view_of bytes.now)
        ≡ (if begins_as_list bytes.now then Ok (length (items bytes.now))
        else Err RlpExpectedToBeList) }
    ensures at { (i : ℕ) → item_with_place (view_of bytes.now) i
        ≡ (if begins_as_list bytes.now then item_by (view_of bytes.now) i (framing bytes.now)
        else Err RlpExpectedToBeList) }
{}

/// A strict view gives a value of a type with [`StrictRead`] if and only if the value fits and the
/// bytes are its encoding. The view has no fault then.
pub fn whole_encoding_is_read<T: StrictRead>(bytes: &[u8])
    ensures { (v : T) → ReadsStrictly T.fits T.item (Gives T.reading) (Faults T.reading) bytes.now v }
{}

/// For numbers of each width, for `bool`, for byte strings, for text and for arrays of each length,
/// a strict view either gives one value and has no fault, or gives no value and has one fault. The
/// law for numbers of `N` bytes is also the law for `Uint<N>`. See also
/// [`crate::laws::raw_item_is_read`] and [`strict_option_is_read`].
pub fn strict_values_are_read(bytes: &[u8])
    ensures numbers { (width : ℕ)
        → HasOneReading number_item (Gives (number width).reading (strict_view_of bytes.now))
        (Faults (number width).reading (strict_view_of bytes.now)) }
    ensures truth_values { HasOneReading (λ b. number_item (bit b))
        (Gives truth_value.reading (strict_view_of bytes.now))
        (Faults truth_value.reading (strict_view_of bytes.now)) }
    ensures strings { HasOneReading string
        (Gives (byte_string (λ d. d)).reading (strict_view_of bytes.now))
        (Faults (byte_string {B = List ℕ} (λ d. d)).reading (strict_view_of bytes.now)) }
    ensures texts { HasOneReading string
        (Gives (text (λ d. d)).reading (strict_view_of bytes.now))
        (Faults (text {B = List ℕ} (λ d. d)).reading (strict_view_of bytes.now)) }
    ensures arrays { (n : ℕ) → HasOneReading string
        (Gives (byte_array n).reading (strict_view_of bytes.now))
        (Faults (byte_array n).reading (strict_view_of bytes.now)) }
{}

/// If each item gives one value of a type or has one fault, a strict view gives one option of the
/// type or has one fault.
pub fn strict_option_is_read<T: Encodable + Decodable>(bytes: &[u8])
    ensures { ((item : View) → AreBytes item.bytes → length item.bytes < 2 ^ 64
        → HasOneReading T.item (Gives T.reading item) (Faults T.reading item))
        → HasOneReading (option_item T.item)
        (Gives (option_reading T.reading) (strict_view_of bytes.now))
        (Faults (option_reading T.reading) (strict_view_of bytes.now)) }
{}
