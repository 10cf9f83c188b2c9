//! The items of a view of a list, and of the encodings of values in a list.

ghost use Rattle.std.specs.{Prelude.{◌≡◌, ◌≤◌, ◌+◌, ◌↔◌, ◌++◌, ◌∷◌, [], ℕ, List, None, Ok, Err, Some, IfOk, IsOkAnd, IsTrue, false, length, map, slice_get}, Iterator.{Yields}};
ghost use Rattle.rlp_format.specs.Format.Encoding.{Item, list_of, encoding, join};
ghost use Rattle.rlp_reading.specs.{declared.error.DecoderError.DecoderError, declared.error.DecoderError.TheVariants.RlpIsTooShort};
ghost use Rattle.rlp_reading.specs.Views.View.{HoldsItem, IsStep, Remaining, View, item_at, item_count, item_views, list_fault};

use crate::rlpin::Rlp;
use rlp_reading::error::DecoderError;

/// Item number i of a view, lenient or strict, is the i-th of its items, counted from 0, if the view
/// can be read as a list. All numbers past the last item have the same fault.
///
/// Only a strict view may have a fault as a list: then each number has that fault. Otherwise each
/// number past the last item of a strict view has the fault `RlpIsTooShort`.
pub fn items_by_number_are_in_order(rlp: &Rlp<'_>)
    ensures there { (i : ℕ) (item : View) → (item_at rlp.now i ≡ Ok item)
        ↔ ((list_fault rlp.now ≡ None) × (slice_get (item_views rlp.now) i ≡ Some item)) }
    ensures past { (i j : ℕ) → length (item_views rlp.now) ≤ i → length (item_views rlp.now) ≤ j
        → item_at rlp.now i ≡ item_at rlp.now j }
    ensures no_list { (i : ℕ) (e : DecoderError) → list_fault rlp.now ≡ Some e
        → item_at rlp.now i ≡ Err e }
    ensures lenient { rlp.now.is_strict ≡ false → list_fault rlp.now ≡ None }
    ensures strict_past { (i : ℕ) → IsTrue rlp.now.is_strict → list_fault rlp.now ≡ None
        → length (item_views rlp.now) ≤ i → item_at rlp.now i ≡ Err RlpIsTooShort }
{}

/// A lenient view of bytes that begin with the encoding of a list, and a strict view of bytes that
/// are the encoding of a list, have the same number of items. In order and by number, each is the
/// encoding of the item in its place. A number past the last item has the fault `RlpIsTooShort`.
#[tactic(auto, using(rlp_reading::proofs::Lemmas::WholeLists::held_at, rlp_reading::proofs::Lemmas::WholeLists::held_count, rlp_reading::proofs::Lemmas::WholeLists::held_past, rlp_reading::proofs::Lemmas::WholeLists::held_views))]
pub fn view_of_list_has_its_items(rlp: &Rlp<'_>)
    ensures count { (xs : List Item) → HoldsItem rlp.now (list_of xs)
        → item_count rlp.now ≡ Ok (length xs) }
    ensures items { (xs : List Item) → HoldsItem rlp.now (list_of xs)
        → item_views rlp.now ≡ map (λ x. record rlp.now { bytes = encoding x }) xs }
    ensures at { (before after : List Item) (x : Item)
        → HoldsItem rlp.now (list_of (before ++ x ∷ after))
        → item_at rlp.now (length before) ≡ Ok (record rlp.now { bytes = encoding x }) }
    ensures past { (xs : List Item) (i : ℕ) → HoldsItem rlp.now (list_of xs) → length xs ≤ i
        → item_at rlp.now i ≡ Err RlpIsTooShort }
{
    // The proof uses that `as_raw` returns fewer than 2^64 bytes.
    let _bytes = rlp.as_raw();
}

/// The calls of `next` until the first `None` return the items that were left. If one header was
/// read before, as by `iter`, then n items and `None` read at most n + 2 headers.
pub fn iteration_reads_few_headers()
    ensures items { (start last end : Remaining) (given : List View)
        → Yields IsStep start given last → IsStep last None end → given ≡ start.left }
    ensures headers { (start last end : Remaining) (given : List View) → start.headers ≤ 1
        → Yields IsStep start given last → IsStep last None end
        → end.headers ≤ length given + 2 }
{}

/// If bytes are joined encodings, [`Rlp::split_first`] of a lenient view returns the first
/// encoding, and leaves the remaining encodings joined. Called again and again on the bytes that
/// are left, it returns the encodings one by one, until no bytes are left.
pub fn joined_items_are_split_off<'a>(bytes: &'a [u8]) -> Result<(Rlp<'a>, &'a [u8]), DecoderError>
    ensures next { (x : Item) (xs : List Item) → bytes.now ≡ join (x ∷ xs)
        → IsOkAnd result (λ r. (r.0.bytes ≡ encoding x) × (r.1.now ≡ join xs)) }
    ensures end { bytes.now ≡ join [] → result ≡ Err RlpIsTooShort }
{
    Rlp::new(bytes).split_first()
}
