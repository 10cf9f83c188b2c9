//! What is read from the beginning of bytes: strings, numbers, byte strings and text.

ghost use Rattle.std.specs.Prelude.{◌≡◌, ◌<◌, ◌≤◌, ◌^◌, ℕ, List, Ok, length};
ghost use Rattle.rlp_format.specs.{Format.Encoding.{encoding, Item, item_depth, string, AreBytes, IsSized}, Values.Value.{bit, number_item, option_item}};
ghost use Rattle.rlp_reading.specs.{Format.Framing.{IsString, ReadsString, read_string}, Values.RawItem.{deepest_raw_item, raw_item_of}, Laws.{HasOneAnswer}};
ghost use Rattle.rlp_reading.specs.{Values.StructReading.HoldsOrHasOneFault, Values.ValueReading.HasOneReading, Views.View.{View, strict_view_of, view_of}};
ghost use Rattle.rlp_reading.specs.Form.{Faults, Gives, byte_array, byte_string, number, option, option_reading, raw_item, reading_at, struct_reading, text, truth_value};

use crate::rlpin::Rlp;
use crate::structs::DecodeFields;
use crate::traits::Decodable;
use rlp_write::Encodable;

/// A view either gives one value of a type, as contracts see the value, and has no fault, or gives
/// no value and has one fault.
pub fn one_reading<T: Decodable>(rlp: &Rlp<'_>)
    ensures { HasOneAnswer T.reading rlp.now }
{}

/// `read_string` gives the one string whose encoding the bytes begin with. If the bytes begin with
/// no such encoding, it gives the fault of the first case that applies.
pub fn string_is_read(bytes: &[u8])
    ensures read { ReadsString bytes.now (read_string bytes.now) }
    ensures only { (d : List ℕ) → IsString bytes.now d → read_string bytes.now ≡ Ok d }
{}

/// For each width, bytes either give one number and have no fault, or give no number and have one
/// fault. The law for `N` bytes is also the law for `Uint<N>`.
pub fn number_is_read(bytes: &[u8])
    ensures { (width : ℕ)
        → HasOneReading number_item (Gives (number width).reading (view_of bytes.now))
        (Faults (number width).reading (view_of bytes.now)) }
{}

/// Bytes either give one byte string and have no fault, or give no byte string and have one fault.
pub fn bytes_are_read(bytes: &[u8])
    ensures { HasOneReading string (Gives (byte_string (λ d. d)).reading (view_of bytes.now))
        (Faults (byte_string {B = List ℕ} (λ d. d)).reading (view_of bytes.now)) }
{}

/// For each length, bytes either give one array and have no fault, or give no array and have one
/// fault.
pub fn arrays_are_read(bytes: &[u8])
    ensures { (n : ℕ) → HasOneReading string (Gives (byte_array n).reading (view_of bytes.now))
        (Faults (byte_array n).reading (view_of bytes.now)) }
{}

/// A view, lenient or strict, either gives one raw item and has no fault, or gives no raw item and
/// has one fault.
pub fn raw_item_is_read(rlp: &Rlp<'_>)
    ensures { HasOneReading raw_item_of (Gives raw_item.reading rlp.now)
        (Faults raw_item.reading rlp.now) }
{}

/// Bytes either give one text and have no fault, or give no text and have one fault.
pub fn text_is_read(bytes: &[u8])
    ensures { HasOneReading string (Gives (text (λ d. d)).reading (view_of bytes.now))
        (Faults (text {B = List ℕ} (λ d. d)).reading (view_of bytes.now)) }
{}

/// If each item gives one value of a type or has one fault, bytes give one option of the type or
/// have one fault.
pub fn option_is_read<T: Encodable + Decodable>(bytes: &[u8])
    ensures { ((item : View) → AreBytes item.bytes → length item.bytes < 2 ^ 64
        → HasOneReading T.item (Gives T.reading item) (Faults T.reading item))
        → HasOneReading (option_item T.item) (Gives (option_reading T.reading) (view_of bytes.now))
        (Faults (option_reading T.reading) (view_of bytes.now)) }
{}

/// Bytes give one option of a byte string or have one fault.
pub fn option_of_bytes_is_read(bytes: &[u8])
    ensures { HasOneReading (option_item string)
        (Gives (option (byte_string (λ d. d))).reading (view_of bytes.now))
        (Faults (option (byte_string {B = List ℕ} (λ d. d))).reading (view_of bytes.now)) }
{}

/// Bytes give one option of a number of each width, of a `bool` or of a text, or have one
/// fault.
pub fn options_are_read(bytes: &[u8])
    ensures numbers { (width : ℕ) → HasOneReading (option_item number_item)
        (Gives (option (number width)).reading (view_of bytes.now))
        (Faults (option (number width)).reading (view_of bytes.now)) }
    ensures truth_values { HasOneReading (option_item (λ b. number_item (bit b)))
        (Gives (option truth_value).reading (view_of bytes.now))
        (Faults (option truth_value).reading (view_of bytes.now)) }
    ensures texts { HasOneReading (option_item string)
        (Gives (option (text (λ d. d))).reading (view_of bytes.now))
        (Faults (option (text {B = List ℕ} (λ d. d))).reading (view_of bytes.now)) }
{}

/// If each item gives one value of a type or has one fault, bytes give one option of an option of
/// the type or have one fault.
pub fn option_of_option_is_read<T: Encodable + Decodable>(bytes: &[u8])
    ensures { ((item : View) → AreBytes item.bytes → length item.bytes < 2 ^ 64
        → HasOneReading T.item (Gives T.reading item) (Faults T.reading item))
        → HasOneReading (option_item (option_item T.item))
        (Gives (option_reading (option_reading T.reading)) (view_of bytes.now))
        (Faults (option_reading (option_reading T.reading)) (view_of bytes.now)) }
{}

/// Bytes either give one `bool` and have no fault, or give no `bool` and have one fault.
pub fn bool_is_read(bytes: &[u8])
    ensures { HasOneReading (λ b. number_item (bit b)) (Gives truth_value.reading (view_of bytes.now))
        (Faults truth_value.reading (view_of bytes.now)) }
{}

/// If each item gives one value of a type or has one fault, the item in each place of a list gives
/// some value of the type or has one fault. So a field of the type has one reading.
pub fn field_is_read<T: Encodable + Decodable>(bytes: &[u8])
    ensures lenient { ((item : View) → AreBytes item.bytes → length item.bytes < 2 ^ 64
        → HasOneReading T.item (Gives T.reading item) (Faults T.reading item))
        → (i : ℕ) → HoldsOrHasOneFault
        ((x : T) × Gives (reading_at i T.reading) (view_of bytes.now) x)
        (Faults (reading_at i T.reading) (view_of bytes.now)) }
    ensures strict { ((item : View) → AreBytes item.bytes → length item.bytes < 2 ^ 64
        → HasOneReading T.item (Gives T.reading item) (Faults T.reading item))
        → (i : ℕ) → HoldsOrHasOneFault
        ((x : T) × Gives (reading_at i T.reading) (strict_view_of bytes.now) x)
        (Faults (reading_at i T.reading) (strict_view_of bytes.now)) }
{}

/// A view either gives one value of a struct, as contracts see the value, and has no fault, or
/// gives no value and has one fault.
pub fn struct_is_read<F: DecodeFields>(rlp: &Rlp<'_>)
    ensures { HasOneAnswer (struct_reading F.reading) rlp.now }
{}

/// Bytes that are the encoding of an item of depth at most 256 are a raw item of that item.
#[tactic(auto, using(rlp_reading::proofs::RawLaws::raw_bytes))]
pub fn encodings_are_raw_items(bytes: &[u8])
    ensures { (x : Item) → bytes.now ≡ encoding x → item_depth x ≤ deepest_raw_item
        → raw_item_of bytes.now ≡ x }
{}

/// If an item has depth at most 256, its encoding is the raw item of this item. Whatever bytes are
/// read as a raw item, the item has depth at most 256.
pub fn raw_items_are_shallow()
    ensures encoded { (x : Item) → IsSized x → item_depth x ≤ deepest_raw_item
        → raw_item_of (encoding x) ≡ x }
    ensures depth { (bytes : List ℕ) → item_depth (raw_item_of bytes) ≤ deepest_raw_item }
{}
