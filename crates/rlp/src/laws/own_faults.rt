//! Types that are read without `OutOfMemory` as a fault of a view: if such a type doesn't allocate,
//! reading it doesn't fail with `OutOfMemory`.

ghost use Rattle.std.specs.Prelude.{◌≡◌, ◌≢◌, ℕ, IfErr, List, Option, false};
ghost use Rattle.rlp_reading.specs.{declared.error.DecoderError.TheVariants.{OutOfMemory}, OwnFaults.{HasOwnFaults, HaveOwnFaults}};
ghost use Rattle.rlp_reading.specs.Form.{Faults, boxed_reading, byte_array, byte_string, group_before, group_fields, list_reading, no_fields, number, one_field, option_reading, optional_fields, part_fields, raw_item, reading_at, struct_reading, text, truth_value};

use crate::rlpin::Rlp;
use crate::structs::DecodeFields;
use crate::traits::Decodable;
use rlp_reading::error::DecoderError;
use std::alloc::Global;

/// No view has the fault `OutOfMemory` as a number of any width, a `bool`, a byte string, a text, an
/// array of any length, or a raw item.
#[tactic(auto, using(rlp_reading::proofs::OwnFaultLaws::numbers_own, rlp_reading::proofs::OwnFaultLaws::truth_own, rlp_reading::proofs::OwnFaultLaws::bytes_own, rlp_reading::proofs::OwnFaultLaws::texts_own, rlp_reading::proofs::OwnFaultLaws::arrays_own, rlp_reading::proofs::OwnFaultLaws::raw_items_own))]
pub fn scalars_have_own_faults()
    ensures numbers { (width : ℕ) → HasOwnFaults (number width).reading }
    ensures truth_values { HasOwnFaults truth_value.reading }
    ensures strings { HasOwnFaults (byte_string (λ (d : List ℕ). d)).reading }
    ensures texts { HasOwnFaults (text (λ (d : List ℕ). d)).reading }
    ensures arrays { (n : ℕ) → HasOwnFaults (byte_array n).reading }
    ensures raw_items { HasOwnFaults raw_item.reading }
{}

/// If no view has the fault `OutOfMemory` as a value of a type, then no view has it as an option, a
/// list or a box of the type, or as an item of a list that is read as the type.
pub fn holders_have_own_faults<T: Decodable>()
    ensures options { HasOwnFaults T.reading → HasOwnFaults (option_reading T.reading) }
    ensures lists { HasOwnFaults T.reading
        → HasOwnFaults (list_reading (λ (xs : List T). xs) T.reading) }
    ensures boxes { HasOwnFaults T.reading → HasOwnFaults (boxed_reading (λ (x : T). x) T.reading) }
    ensures items { HasOwnFaults T.reading → (i : ℕ) → HasOwnFaults (reading_at i T.reading) }
{}

/// If no view has the fault `OutOfMemory` as a field of a struct, then no view has it as the struct.
/// Fields may come one after another, may be missing at the end, and may be groups at the end.
#[tactic(auto, using(rlp_reading::proofs::OwnFaultLaws::end_own, rlp_reading::proofs::OwnFaultLaws::one_own, rlp_reading::proofs::OwnFaultLaws::group_own, rlp_reading::proofs::OwnFaultLaws::optional_own, rlp_reading::proofs::OwnFaultLaws::groups_own, rlp_reading::proofs::OwnFaultLaws::structs_own))]
pub fn fields_have_own_faults<T: Decodable, F: DecodeFields, G: DecodeFields>()
    ensures none { HaveOwnFaults (no_fields {P = F}) }
    ensures one { HasOwnFaults T.reading → HaveOwnFaults (one_field T.reading) }
    ensures both { HaveOwnFaults F.reading → HaveOwnFaults G.reading
        → HaveOwnFaults (group_before (λ (x : F × G). x.0) F.reading
        (part_fields (λ (x : F × G). x.1) G.reading)) }
    ensures optional { HaveOwnFaults F.reading
        → HaveOwnFaults (optional_fields (λ (o : Option F). o) F.reading) }
    ensures groups { HaveOwnFaults F.reading
        → HaveOwnFaults (group_fields (λ (xs : List F). xs) F.reading) }
    ensures whole { HaveOwnFaults F.reading → HasOwnFaults (struct_reading F.reading) }
{}

/// Reads a value as [`Decodable::decode`] does. If the type doesn't allocate, and no view has the
/// fault `OutOfMemory` as a value of the type, the call doesn't fail with `OutOfMemory`.
#[tactic(auto, using(rlp_reading::proofs::OwnFaultLaws::told_faults))]
pub fn reading_needs_no_memory<T: Decodable>(
    alloc: Global,
    rlp: &Rlp<'_>,
) -> Result<T, DecoderError>
    ensures { HasOwnFaults T.reading → T.reading.takes_memory ≡ false
        → IfErr result (λ e. Faults T.reading rlp.now e × (e ≢ OutOfMemory)) }
{
    rlp.as_val(alloc)
}
