//! What a key signs: of transactions, authorizations, messages and node records, none has two
//! meanings; and what the hash of a block tells.

ghost use Rattle.std.specs.Prelude.{◌≡◌, ◌<◌, ◌^◌, ◌⊎◌, length};
ghost use Rattle.rlp_records.specs.Keccak.{keccak256};
ghost use Rattle.rlp_trie.specs.Listed.{HasCollision};
ghost use Rattle.rlp_blocks.specs.{Block.block, Bound.{IsBound, hashed, header_bytes}, declared.block.Block.Block};
ghost use Rattle.rlp_blocks.specs.SignedContent.{AreCollision, FitsContent, MeanTheSame, SignedContent, content_bytes};

/// Of the transactions, authorizations, messages and node records that a key signs, none has two
/// meanings. A key of an account signs transactions, authorizations, and messages, which begin with
/// the byte 0x19, as in EIP-191 and EIP-712; the key of a node signs node records. The law says
/// nothing of the packets of discv4, which the key of a node signs too: the bytes of some packets
/// are also the bytes of an authorization. Nor does it speak of seals, which some chains sign over
/// a part of a header. The law takes the bytes of a transaction of an unknown type to
/// begin with the type, which isn't 0x19. If two contents have the same bytes, fewer than 2^64,
/// they are signed for the same purpose, with the same fields. Node records and legacy transactions
/// are both lists: they differ because the keys of a record are in order.
///
/// What is signed is the Keccak-256 hash of the bytes: if two hashes are equal, the two meanings
/// are the same, or two different byte strings have the same hash.
pub fn no_content_is_signed_for_two_meanings()
    ensures meaning { (one other : SignedContent) → FitsContent one → FitsContent other
        → length (content_bytes one) < 2 ^ 64 → content_bytes one ≡ content_bytes other
        → MeanTheSame one other }
    ensures hashes { (one other : SignedContent) → FitsContent one → FitsContent other
        → length (content_bytes one) < 2 ^ 64
        → keccak256 (content_bytes one) ≡ keccak256 (content_bytes other)
        → MeanTheSame one other ⊎ AreCollision (content_bytes one) (content_bytes other) }
{}

/// Two bound blocks with one hash have the same encoding, so they are equal in all that is written,
/// or two different strings of what the two hashes stand for have the same hash. A block is bound
/// if its header names the roots of its body, as [`crate::Body::check`] tests. The hash of a block
/// is the hash of its header. It stands for the encodings of the header, of the list of the ommers,
/// and of the nodes of the tries of the transactions and of the withdrawals: a finite list.
#[tactic(auto, using(crate::proofs::BoundLaws::blocks_told))]
pub fn blocks_are_told()
    ensures { (a b : Block) → IsBound a → IsBound b
        → keccak256 (header_bytes a) ≡ keccak256 (header_bytes b)
        → (block.item a ≡ block.item b) ⊎ HasCollision (hashed a) (hashed b) }
{}
