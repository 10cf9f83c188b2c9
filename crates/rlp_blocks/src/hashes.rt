//! Hashes and bytes of the parts of a record, from its bytes.

ghost use Rattle.std.specs.Prelude.{◌≡◌, ◌∷◌, ◌++◌, List, IsOkAnd, MatchResult, length, map};
ghost use Rattle.rlp.specs.{DecoderError.TheVariants.OutOfMemory, Format.Encoding.{Item, encoding, list_of}};
ghost use Rattle.rlp_records.specs.{Alone.bytes_alone, Hashing.{AreHashesOf, IsHashOf}};
ghost use Rattle.rlp_trie.specs.OrderedPairs.{slice_bytes};

use rlp::{DecoderError, Rlp};
use rlp_records::{Hash, item_hash, item_hashes, item_values};
use std::alloc::Global;

/// Returns the hash of the item at a place of a list, whose whole encoding the bytes are.
pub(crate) fn hash_at(bytes: &[u8], place: usize) -> Result<Hash, DecoderError>
    ensures { (before after : List Item) (x : Item) → place ≡ length before
        → bytes.now ≡ encoding (list_of (before ++ x ∷ after))
        → IsOkAnd result (λ h. IsHashOf h (bytes_alone x)) }
{
    let view = Rlp::new_strict(bytes);
    item_hash(&view.at(place)?)
}

/// Returns the hashes of the items of the list that is at a place of a list, whose whole encoding
/// the bytes are.
pub(crate) fn hashes_at(
    alloc: Global,
    bytes: &[u8],
    place: usize,
) -> Result<Vec<Hash>, DecoderError>
    ensures { (before after xs : List Item) → place ≡ length before
        → bytes.now ≡ encoding (list_of (before ++ list_of xs ∷ after))
        → MatchResult result (λ hs. AreHashesOf hs.items (map bytes_alone xs))
        (λ e. e ≡ OutOfMemory) }
{
    let view = Rlp::new_strict(bytes);
    item_hashes(alloc, &view.at(place)?)
}

/// Returns the bytes of the items of the list that is at a place of a list, whose whole encoding the
/// bytes are: of each item as it stands alone.
pub(crate) fn values_at<'a>(
    alloc: Global,
    bytes: &'a [u8],
    place: usize,
) -> Result<Vec<&'a [u8]>, DecoderError>
    ensures { (before after xs : List Item) → place ≡ length before
        → bytes.now ≡ encoding (list_of (before ++ list_of xs ∷ after))
        → MatchResult result (λ values. map slice_bytes values.items ≡ map bytes_alone xs)
        (λ e. e ≡ OutOfMemory) }
{
    let view = Rlp::new_strict(bytes);
    item_values(alloc, &view.at(place)?)
}
