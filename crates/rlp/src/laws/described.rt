//! Laws over the items that a stream's calls describe.

ghost use Rattle.std.specs.Prelude.{◌≡◌, ℕ, Bool, List, [], All, IsTrue, Ok, ◌++◌, ◌↔◌};
ghost use Rattle.rlp_format.specs.Format.Encoding.{Item, join, IsSized};
ghost use Rattle.rlp_write.specs.Streams.Stream.{empty_stack, State, initial_state, Call, after};
ghost use Rattle.rlp.specs.Streams.Described.{Step, AreDescribed, AreDescribedWhere, IsDescribed, IsDescribedWhere, items_after_all, joined_stack, FinishAs};

/// If calls describe items, each call is admitted, and each payload is the joined encodings of its
/// items. If no list is left open, the buffer is the front and the joined encodings of the items
/// described, and the calls describe no other items. The same holds if each item of raw bytes has
/// to pass a test: without the test the calls describe the same items.
#[tactic(auto, using(crate::proofs::Streams::Descriptions::describes))]
pub fn stream_joins_what_is_described()
    ensures payloads { (front : List ℕ) (calls : List Call) (steps : List Step)
        → AreDescribed (initial_state front) calls steps
        → (last : State) × (after front calls ≡ Ok last) × (last.front ≡ front)
        × (last.stack ≡ joined_stack (items_after_all steps empty_stack)) }
    ensures finished { (front : List ℕ) (calls : List Call) (items : List Item)
        → IsDescribed front calls items
        → (last : State) × (after front calls ≡ Ok last) × (last.front ≡ front)
        × (last.stack ≡ record { inner = join items; lists = [] }) }
    ensures only { (front : List ℕ) (calls : List Call) (xs ys : List Item) → All IsSized xs
        → All IsSized ys
        → IsDescribed front calls xs → IsDescribed front calls ys → xs ≡ ys }
    ensures restricted_steps { (test : Item → Bool) (front : List ℕ) (calls : List Call)
        (steps : List Step)
        → AreDescribedWhere (λ x. IsTrue (test x)) (initial_state front) calls steps
        → AreDescribed (initial_state front) calls steps }
    ensures restricted_items { (test : Item → Bool) (front : List ℕ) (calls : List Call)
        (items : List Item) → IsDescribedWhere (λ x. IsTrue (test x)) front calls items
        → IsDescribed front calls items }
{}

/// If calls describe items, the finished buffer is the front and the joined encodings of the items.
/// Two finished buffers with the same front are equal if and only if the same items are described.
pub fn finished_buffers_tell_items(one: &[u8], other: &[u8])
    ensures joined { (front : List ℕ) (calls : List Call) (xs : List Item)
        → IsDescribed front calls xs → FinishAs front calls (front ++ join xs) }
    ensures only { (front : List ℕ) (calls : List Call) (xs : List Item) (bytes : List ℕ)
        → IsDescribed front calls xs → FinishAs front calls bytes → bytes ≡ front ++ join xs }
    ensures equal { (front : List ℕ) (one_calls other_calls : List Call) (xs ys : List Item)
        → IsDescribed front one_calls xs → FinishAs front one_calls one.now
        → IsDescribed front other_calls ys → FinishAs front other_calls other.now
        → (one.now ≡ other.now) ↔ (xs ≡ ys) }
{}
