//! Laws over the state of a stream. `rlp::laws` re-exports them.

ghost use Rattle.std.specs.Prelude.{◌≡◌, ◌<◌, ◌≤◌, ℕ, List, [], ◌∷◌, ◌++◌, ◌+◌, length, replicate, IsTrue, Ok, Option};
ghost use Rattle.rlp_format.specs.Format.Encoding.{Item, string, list_of, is_list, encoding};
ghost use Rattle.rlp_write.specs.Streams.Stream.{State, IsFinished, put, shut, count, with_list, add, put_item, raw_text, closed_text, closed_size, closed_size_with, AllAwait, unbounded_count, Call, after_from, effect, finalize_unbounded_list, finalized, is_admitted};
ghost use Rattle.rlp_write.specs.Streams.Growth.{GrowsTo};

use crate::{EMPTY_LIST_RLP, NULL_RLP};

/// The constants are the encodings of the empty string and of the list of no items.
#[tactic(auto, unfolding(rlp_format::specs::Format::Encoding::encoding, rlp_format::specs::Format::Encoding::written_header, rlp_format::specs::Format::Encoding::big_endian))]
pub fn constants_are_encodings()
    ensures null { NULL_RLP ≡ encoding (string []) }
    ensures empty_list { EMPTY_LIST_RLP ≡ encoding (list_of []) }
{}

/// Neither closing the innermost list nor counting items changes the bytes that the stream has once
/// every list is closed.
#[tactic(auto, using(crate::proofs::Streams::States::states))]
pub fn closing_keeps_what_is_closed()
    ensures shut { (s : State) → closed_text (shut s) ≡ closed_text s }
    ensures count { (k : ℕ) (s : State) → closed_text (count k s) ≡ closed_text s }
    ensures size { (s : State) → closed_size (shut s) ≡ closed_size s }
{}

/// The closed size with more bytes put depends only on the number of these bytes.
#[tactic(auto, using(crate::proofs::Streams::States::states))]
pub fn closed_size_goes_by_length()
    ensures { (x : List ℕ) (s : State) → closed_size (put x s) ≡ closed_size_with (length x) s }
{}

/// Bytes are put at the end of the buffer, and a new list opens there with a byte 0.
#[tactic(auto, using(crate::proofs::Streams::States::states))]
pub fn bytes_go_to_the_end()
    ensures put { (x : List ℕ) (s : State) → raw_text (put x s) ≡ raw_text s ++ x }
    ensures opened { (awaits : Option ℕ) (s : State)
        → raw_text (with_list awaits s) ≡ raw_text s ++ 0 ∷ [] }
{}

/// With no list open, an item that is appended or written by its value adds its encoding to the
/// top, and no list is open after it.
#[tactic(auto, using(crate::proofs::Streams::States::states))]
pub fn finished_streams_gain_encodings()
    ensures add { (x : Item) (s : State) → IsFinished s
        → add x s
        ≡ record { front = s.front; stack = record { inner = s.stack.inner ++ encoding x; lists = [] }; is_counted = is_list x } }
    ensures put_item { (x : Item) (s : State) → IsFinished s
        → (put_item x s).stack ≡ record { inner = s.stack.inner ++ encoding x; lists = [] } }
{}

/// With no list open, the bytes are the front and the closed text.
#[tactic(auto, using(crate::proofs::Streams::States::out_size))]
pub fn finished_streams_have_their_closed_size()
    ensures { (s : State) → IsFinished s
        → length (s.front ++ s.stack.inner) ≡ length s.front + closed_size s }
{}

/// A state grows to itself. If a state grows to a second state, and the second to a third, the
/// first grows to the third.
#[tactic(auto, using(crate::proofs::Streams::Growth::growth))]
pub fn growth_is_an_order()
    ensures same { (s : State) → GrowsTo s s }
    ensures onward { (s t u : State) → GrowsTo s t → GrowsTo t u → GrowsTo s u }
{}

/// A state grows to the state with more bytes put, and to the state with a new list open.
pub fn growth_of_moves()
    ensures put { (x : List ℕ) (s : State) → GrowsTo s (put x s) }
    ensures opened { (awaits : Option ℕ) (s : State) → GrowsTo s (with_list awaits s) }
{}

/// A bounded list is open only while it awaits an item. No call leaves a bounded list open that
/// awaits no item.
#[tactic(auto, using(crate::proofs::Streams::Finalizing::awaiting))]
pub fn open_lists_await_items()
    ensures { (c : Call) (s : State) → AllAwait s.stack.lists → AllAwait (effect c s).stack.lists }
{}

/// Finalizing the n innermost unbounded lists in one call equals n single calls: each single call
/// is admitted, and the last of them leaves the same state.
pub fn unbounded_lists_are_finalized_in_turn()
    ensures admitted { (n : ℕ) (s : State) → n < unbounded_count s.stack.lists
        → IsTrue (is_admitted finalize_unbounded_list s)
        × (n ≤ unbounded_count (effect finalize_unbounded_list s).stack.lists) }
    ensures in_turn { (n place : ℕ) (s : State) → n ≤ unbounded_count s.stack.lists
        → after_from place s (replicate n finalize_unbounded_list) ≡ Ok (finalized n s) }
{}
