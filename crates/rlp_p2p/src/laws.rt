//! What holds of messages: different messages have different bytes, and the two ends of a
//! connection find the same offsets.

ghost use Rattle.std.specs.Prelude.{◌≡◌, ◌<◌, ◌^◌, ℕ, List, length, true};
ghost use Rattle.rlp_p2p.specs.{Message.{Fits, bytes_of, seen_of}, Offsets.{Known, announced, know_same_ids, lists_each_once, shared_offset}};

use crate::Message;

/// Two messages of one protocol that are written as the same bytes, fewer than 2^64, with the same
/// offset have the same number and the same fields.
pub fn bytes_tell_messages<M: Message>()
    ensures { (offset : ℕ) (one other : M) → Fits M.table one → Fits M.table other
        → length (bytes_of M.table offset one) < 2 ^ 64
        → bytes_of M.table offset one ≡ bytes_of M.table offset other
        → seen_of M.table one ≡ seen_of M.table other }
{}

/// Two clients find the same offset of each capability, if each lists a capability once, and the
/// two know the same number of ids for each capability that both have.
pub fn both_ends_agree()
    ensures { (ours theirs : List Known) → lists_each_once ours ≡ true
        → lists_each_once theirs ≡ true → know_same_ids ours theirs ≡ true
        → (name : List ℕ) (version : ℕ) → shared_offset ours (announced theirs) name version
        ≡ shared_offset theirs (announced ours) name version }
{}
