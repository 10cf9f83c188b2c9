//! Laws over the definitions of the format. The functions do nothing: the contract of each function
//! is the law. `rlp::laws` re-exports them.

ghost use Rattle.std.specs.Prelude.{◌≡◌, ℕ, ◌^◌, ◌<◌, ◌≤◌, ◌+◌, ◌↔◌, ◌⊎◌, List, [], ◌++◌, length, map, All, get_or, take, drop, ◌∷◌, Ok, Err, IsTrue, is_ok};
ghost use Rattle.std.specs.{List.concat, Int.Digits.number_from_digits};
ghost use Rattle.rlp_format.specs.Format.Encoding.{Item, list_of, item_depth, big_endian, written_header, IsBase, AreBytes, encoding, join, IsSized, BeginsWith};
ghost use Rattle.rlp_reading.specs.declared.error.DecoderError.{DecoderError};
ghost use Rattle.rlp_reading.specs.Format.Framing.{HasHeader, ReadsHeader, header, payload_info, IsFramed, IsFramedItem, IsFault, fault, framing, value, frame, IsCut, IsSplit, split, items, rest};
ghost use Rattle.rlp_reading.specs.{Views.Text.{text, text_by}, Views.Depth.{depth, depth_by}};

/// The digits of a number are below 256, have no leading zero, and belong to no other number.
#[tactic(auto, using(rlp_format::proofs::Lemmas::Digits::big_endian_bytes, rlp_format::proofs::Lemmas::Digits::big_endian_first, rlp_format::proofs::Lemmas::Digits::big_endian_value, rlp_format::proofs::Lemmas::Digits::digits_again))]
pub fn digits_are_canonical()
    ensures bytes { (n : ℕ) → AreBytes (big_endian n) }
    ensures no_leading_zero { (n : ℕ) → 0 < n → 0 < get_or (big_endian n) 0 0 }
    ensures value { (n : ℕ) → number_from_digits 256 (big_endian n) ≡ n }
    ensures only { (d : ℕ) (ds : List ℕ) → 0 < d → AreBytes (d ∷ ds)
        → big_endian (number_from_digits 256 (d ∷ ds)) ≡ d ∷ ds }
{}

/// No written header is a prefix of another written header.
#[tactic(auto, using(crate::proofs::Lemmas::Views::written_header_prefix_free))]
pub fn headers_are_prefix_free()
    ensures { (base1 base2 m n : ℕ) (x y : List ℕ) → IsBase base1 → IsBase base2 → m < 2 ^ 64
        → n < 2 ^ 64
        → written_header base1 m ++ x ≡ written_header base2 n ++ y → (base1 ≡ base2) × (m ≡ n) }
{}

/// The encoding of a list is a header and the joined encodings of its items.
#[tactic(auto, using(rlp_format::proofs::Lemmas::Encodings::encoding_list))]
pub fn list_is_header_and_items()
    ensures { (xs : List Item)
        → encoding (list_of xs) ≡ written_header 0xc0 (length (join xs)) ++ join xs }
{}

/// Bytes begin with at most one header. `header` reads it, or says why there is none.
#[tactic(auto, using(rlp_format::proofs::Lemmas::Digits::bytes_held, crate::proofs::Lemmas::Reading::header_reads, crate::proofs::Lemmas::Reading::header_unique))]
pub fn header_is_read(bytes: &[u8])
    ensures read { ReadsHeader bytes.now (header bytes.now) }
    ensures unique { (h n k m : ℕ) → HasHeader bytes.now h n → HasHeader bytes.now k m → (h ≡ k)
        × (n ≡ m) }
{}

/// If header and value lie within the bytes, `frame` gives the bytes of header and value, and
/// `value` the bytes of the value. Otherwise `fault` gives the fault.
pub fn framing_is_read(bytes: &[u8])
    ensures frame { (h n : ℕ) → HasHeader bytes.now h n → h + n ≤ length bytes.now
        → frame bytes.now ≡ Ok (take (h + n) bytes.now) }
    ensures value { (h n : ℕ) → HasHeader bytes.now h n → h + n ≤ length bytes.now
        → value bytes.now ≡ Ok (take n (drop h bytes.now)) }
    ensures fault { ¬ IsFramed bytes.now → IsFault bytes.now (fault bytes.now)
        × (frame bytes.now ≡ Err (fault bytes.now)) × (value bytes.now ≡ Err (fault bytes.now)) }
{}

/// `frame` gives a result if and only if the bytes are framed. Bytes are a framed item if and only
/// if they are their own frame.
#[tactic(auto, using(rlp_format::proofs::Lemmas::Digits::bytes_held, crate::proofs::Lemmas::Frames::frame_framed, crate::proofs::Lemmas::Frames::frame_whole))]
pub fn frame_is_of_framed(bytes: &[u8])
    ensures framed { IsTrue (is_ok (frame bytes.now)) ↔ IsFramed bytes.now }
    ensures item { (frame bytes.now ≡ Ok bytes.now) ↔ IsFramedItem bytes.now }
{}

/// For items with encodings shorter than 2^64 bytes, no encoding is a prefix of the encoding of
/// another item, whatever follows the two.
#[tactic(auto, using(crate::proofs::Lemmas::Items::prefix_free))]
pub fn encoding_is_prefix_free()
    ensures { (x y : Item) (p q : List ℕ) → IsSized x → IsSized y
        → encoding x ++ p ≡ encoding y ++ q → x ≡ y }
{}

/// A slice begins with the encoding of at most one item.
pub fn encoding_in_front_is_unique(bytes: &[u8])
    ensures { (x y : Item) → BeginsWith bytes.now (encoding x) → BeginsWith bytes.now (encoding y)
        → x ≡ y }
{}

/// The joined encodings of two lists of items are equal if and only if the lists are equal.
#[tactic(auto, using(crate::proofs::Lemmas::Items::join_same))]
pub fn join_is_injective()
    ensures { (xs ys : List Item) → All IsSized xs → All IsSized ys → (join xs ≡ join ys)
        ↔ (xs ≡ ys) }
{}

/// Bytes that begin with an encoding are framed, and their frame is that encoding.
pub fn encoding_is_framed(bytes: &[u8])
    ensures { (x : Item) → BeginsWith bytes.now (encoding x) → IsFramed bytes.now
        × (frame bytes.now ≡ Ok (encoding x)) }
{}

/// If bytes begin with the joined bytes of each of two lists of framed items, one list is a prefix
/// of the other.
pub fn cuts_begin_one_another(bytes: &[u8])
    ensures { (fs gs : List (List ℕ)) → IsCut bytes.now fs → IsCut bytes.now gs → BeginsWith gs fs
        ⊎ BeginsWith fs gs }
{}

/// `split` gives the longest list of framed items with whose joined bytes the bytes begin. There is
/// only one such list.
pub fn split_is_longest(bytes: &[u8])
    ensures longest { IsSplit bytes.now (split bytes.now) }
    ensures only { (fs : List (List ℕ)) → IsSplit bytes.now fs → fs ≡ split bytes.now }
{}

/// If bytes are framed, their split is their frame and then the split of the bytes that follow the
/// frame. Otherwise the split has no item.
#[tactic(auto, using(rlp_format::proofs::Lemmas::Digits::bytes_held, crate::proofs::Lemmas::Frames::split_framed, crate::proofs::Lemmas::Frames::split_unframed))]
pub fn split_goes_by_frames(bytes: &[u8])
    ensures framed { (h n : ℕ) → framing bytes.now ≡ Ok (payload_info h n)
        → split bytes.now ≡ take (h + n) bytes.now ∷ split (drop (h + n) bytes.now) }
    ensures unframed { (e : DecoderError) → framing bytes.now ≡ Err e → split bytes.now ≡ [] }
{}

/// If the encoding of a list is shorter than 2^64 bytes, so are the encodings of its items. The
/// same holds for items whose joined encodings are shorter than 2^64 bytes.
#[tactic(auto, using(rlp_format::proofs::Lemmas::Encodings::encoding_list, rlp_format::proofs::Lemmas::Encodings::small_payload, crate::proofs::Lemmas::Views::sized_items))]
pub fn parts_of_sized_are_sized()
    ensures list { (xs : List Item) → IsSized (list_of xs) → All IsSized xs }
    ensures join { (xs : List Item) → length (join xs) < 2 ^ 64 → All IsSized xs }
{}

/// Joined encodings are split into these encodings, and no bytes are left.
#[tactic(auto, using(crate::proofs::Lemmas::Frames::split_join, crate::proofs::Lemmas::Frames::join_is))]
pub fn join_splits_into_encodings()
    ensures { (xs : List Item) → All IsSized xs → (split (join xs) ≡ map encoding xs)
        × (concat (split (join xs)) ≡ join xs) }
{}

/// If bytes begin with the encoding of a list, the items of the bytes are the encodings of the
/// items of the list, in order, and no bytes are left in the list.
pub fn list_gives_its_items(bytes: &[u8])
    ensures items { (xs : List Item) → BeginsWith bytes.now (encoding (list_of xs))
        → items bytes.now ≡ map encoding xs }
    ensures rest { (xs : List Item) → BeginsWith bytes.now (encoding (list_of xs))
        → rest bytes.now ≡ [] }
{}

/// Bytes that follow the items in the value of a list aren't framed.
pub fn rest_is_not_framed(bytes: &[u8])
    ensures { ¬ IsFramed (rest bytes.now) }
{}

/// The text and the depth of bytes follow from the texts and the depths of their items.
#[tactic(auto, using(crate::proofs::Lemmas::Texts::text_is, crate::proofs::Lemmas::Texts::depth_is))]
pub fn text_and_depth_go_by_items(bytes: &[u8])
    ensures text { text bytes.now ≡ text_by text bytes.now }
    ensures depth { depth bytes.now ≡ depth_by depth bytes.now }
{}

/// Bytes that follow a framed item don't change the item's framing, value, items, text and depth.
/// `c0ff` reads as `c0`, and `8005` as `80`.
#[tactic(auto, using(crate::proofs::Lemmas::Texts::followed))]
pub fn what_follows_makes_no_difference()
    ensures framing { (f more : List ℕ) → IsFramedItem f → framing (f ++ more) ≡ framing f }
    ensures value { (f more : List ℕ) → IsFramedItem f → value (f ++ more) ≡ value f }
    ensures items { (f more : List ℕ) → IsFramedItem f → items (f ++ more) ≡ items f }
    ensures text { (f more : List ℕ) → IsFramedItem f → text (f ++ more) ≡ text f }
    ensures depth { (f more : List ℕ) → IsFramedItem f → depth (f ++ more) ≡ depth f }
{}

/// Bytes that begin with the encoding of an item have the depth of the item.
#[tactic(auto, using(crate::proofs::Lemmas::Texts::depth_of_item, rlp_format::proofs::Lemmas::Encodings::front_sized))]
pub fn encoding_has_its_depth(bytes: &[u8])
    ensures { (x : Item) → BeginsWith bytes.now (encoding x) → depth bytes.now ≡ item_depth x }
{}
