//! Laws over the definition of what reading an item gives. The functions do nothing: the contract of
//! each function is the law.

ghost use Rattle.std.specs.Prelude.{◌≡◌, ◌≢◌, ◌↔◌, ◌<◌, ◌≤◌, ◌^◌, ℕ, List, [], ◌++◌, length, true, false, Ok, Err, IsOkAnd};
ghost use Rattle.rlp_format.specs.Format.Encoding.{Item, encoding, BeginsWith};
ghost use Rattle.rlp_reading.specs.Format.Framing.{IsFramedItem, framing, header, total_len};
ghost use Rattle.rlp_reading.specs.{declared.error.DecoderError.{DecoderError}, declared.error.DecoderError.TheVariants.{RlpIsTooShort}};
ghost use Rattle.rlp_stream.specs.{Item.item_answer, declared.fault.ReadFault.TheVariants.{TooLong, Truncated, Faulty}};

/// If what is left begins with an item of at most `most` bytes, this item is read. The result is
/// `false` if and only if nothing is left.
#[tactic(auto, using(crate::proofs::LawLemmas::items_read))]
pub fn items_are_read()
    ensures none { (most : ℕ) (left : List ℕ) → (item_answer most left ≡ Ok false) ↔ (left ≡ []) }
    ensures framed { (most : ℕ) (f more : List ℕ) → IsFramedItem f → length f ≤ most
        → item_answer most (f ++ more) ≡ Ok true }
    ensures encoding { (most : ℕ) (left : List ℕ) (x : Item) → BeginsWith left (encoding x)
        → length (encoding x) ≤ most → length (encoding x) < 2 ^ 64
        → item_answer most left ≡ Ok true }
{}

/// The result is `TooLong` if and only if the header announces an item longer than `most` bytes.
/// `Truncated` stands for `RlpIsTooShort`, the fault of bytes that end before their first item does.
/// Any other fault of framing is reported as it is, and no other fault is.
#[tactic(auto, using(crate::proofs::LawLemmas::faults_mean))]
pub fn faults_go_by_framing()
    ensures too_long { (most : ℕ) (left : List ℕ) → (item_answer most left ≡ Err TooLong)
        ↔ IsOkAnd (header left) (λ p. most < total_len p) }
    ensures truncated { (most : ℕ) (left : List ℕ) → item_answer most left ≡ Err Truncated
        → framing left ≡ Err RlpIsTooShort }
    ensures faulty { (most : ℕ) (left : List ℕ) (e : DecoderError) → e ≢ RlpIsTooShort
        → (item_answer most left ≡ Err (Faulty e)) ↔ (framing left ≡ Err e) }
    ensures never_short { (most : ℕ) (left : List ℕ)
        → item_answer most left ≢ Err (Faulty RlpIsTooShort) }
{}
