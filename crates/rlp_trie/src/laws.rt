//! What holds of the trie and of proofs from it.

ghost use Rattle.std.specs.{Prelude.{ℕ, ◌≡◌, ◌<◌, ◌^◌, ◌⊎◌, List, Ok, Option, map}, List.slice_get};
ghost use Rattle.rlp.specs.{Format.Encoding.{Item, encoding, string}, Values.Value.number_item};
ghost use Rattle.rlp_trie.specs.{HexPrefix.AreNibbles, Listed.{AreListed, HasCollision, known_of}, Lookup.HasValue, Ordered.{ordered_nodes, ordered_root, place_path}, OrderedPairs.slice_bytes, ProofWalk.{IsKnown, ProofGives}};

/// A path has at most one value below a reference, whichever nodes are known, or two different
/// nodes among them have the same hash. So [`crate::verify_proof`] returns what the whole trie with
/// this root has, or a node of the proof and a different node of the trie have the same hash.
#[tactic(auto, using(crate::proofs::OrderedLemmas::paths_agree))]
pub fn paths_have_one_value()
    ensures { (nodes others : List (List ℕ)) (reference : Item) (path : List ℕ) → AreNibbles path
        → (value other : Option (List ℕ)) → HasValue (IsKnown nodes) reference path value
        → HasValue (IsKnown others) reference path other
        → (value ≡ other) ⊎ HasCollision (known_of nodes) (known_of others) }
{}

/// The trie of a list has the item of each place at the path of the place, and no value at the path
/// of a place behind the last item.
#[tactic(auto, using(crate::proofs::OrderedLemmas::list_has))]
pub fn trie_has_its_values()
    ensures { (xs : List (List ℕ)) → AreListed 0 xs → (i : ℕ) → i < 2 ^ 64
        → HasValue (IsKnown (ordered_nodes xs)) (string (ordered_root xs)) (place_path i)
        (slice_get xs i) }
{}

/// There is a proof of what a list has at each place, and of the end of the list before each place
/// behind the last item: [`crate::verify_item`] doesn't fail with these nodes, but for memory.
pub fn places_have_proofs()
    ensures { (xs : List (List ℕ)) → AreListed 0 xs → (i : ℕ) → i < 2 ^ 64
        → (nodes : List (List ℕ)) × ProofGives (ordered_root xs) (encoding (number_item i)) nodes
        (Ok (slice_get xs i)) }
{}

/// Lists whose tries have one root are equal, or a node of the one trie and a different node of the
/// other trie have the same hash. The nodes of each trie are a finite list.
#[tactic(auto, using(crate::proofs::OrderedLemmas::lists_agree))]
pub fn roots_tell_lists()
    ensures { (xs ys : List (List ℕ)) → AreListed 0 xs → AreListed 0 ys
        → ordered_root xs ≡ ordered_root ys
        → (xs ≡ ys) ⊎ HasCollision (known_of (ordered_nodes xs)) (known_of (ordered_nodes ys)) }
{}

/// What nodes prove for the root of a list and the path of a place is the item of the list at the
/// place, or a node of the proof and a different node of the trie have the same hash.
#[tactic(auto, using(crate::proofs::OrderedLemmas::proofs_tell))]
pub fn proofs_agree()
    ensures { (nodes xs : List (List ℕ)) → AreListed 0 xs → (i : ℕ) → i < 2 ^ 64
        → (value : Option (List ℕ))
        → HasValue (IsKnown nodes) (string (ordered_root xs)) (place_path i) value
        → (value ≡ slice_get xs i) ⊎ HasCollision (known_of nodes) (known_of (ordered_nodes xs)) }
{}

/// What slices hold is listed: the laws above are about each list that [`crate::ordered_root`] is
/// called with.
#[tactic(auto, using(crate::proofs::Keys::listed_all))]
pub fn slices_are_listed(values: &[&[u8]])
    ensures { AreListed 0 (map slice_bytes values.now) }
{
    for value in values {
        let _bytes: &[u8] = value;
    }
}
