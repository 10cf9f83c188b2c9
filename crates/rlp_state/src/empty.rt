//! The account that has nothing, and hashes of nothing.

ghost use Rattle.std.specs.{Int.Digits.number_from_digits, Prelude.{◌≡◌, []}};
ghost use Rattle.rlp.specs.Format.Encoding.{encoding, list_of, string};
ghost use Rattle.rlp_records.specs.Hashing.{IsHashOf};

use rlp::Uint;
use rlp_headers::Account;
use rlp_records::Hash;
use rlp_trie::empty_root;

/// Returns the Keccak-256 hash of no bytes: the `code_hash` of an account without code.
#[tactic(auto, using(crate::proofs::EmptyHashes::code_is))]
pub fn empty_code_hash() -> Hash
    ensures { IsHashOf result [] }
{
    Hash([
        0xc5, 0xd2, 0x46, 0x01, 0x86, 0xf7, 0x23, 0x3c, 0x92, 0x7e, 0x7d, 0xb2, 0xdc, 0xc7, 0x03,
        0xc0, 0xe5, 0x00, 0xb6, 0x53, 0xca, 0x82, 0x27, 0x3b, 0x7b, 0xfa, 0xd8, 0x04, 0x5d, 0x85,
        0xa4, 0x70,
    ])
}

/// Returns the Keccak-256 hash of the encoding of the empty list: the `ommers_hash` of a header
/// without ommers, as of each block since EIP-3675.
#[tactic(auto, using(crate::proofs::EmptyHashes::ommers_is))]
pub fn empty_ommers_hash() -> Hash
    ensures { IsHashOf result (encoding (list_of [])) }
{
    Hash([
        0x1d, 0xcc, 0x4d, 0xe8, 0xde, 0xc7, 0x5d, 0x7a, 0xab, 0x85, 0xb5, 0x67, 0xb6, 0xcc, 0xd4,
        0x1a, 0xd3, 0x12, 0x45, 0x1b, 0x94, 0x8a, 0x74, 0x13, 0xf0, 0xa1, 0x42, 0xfd, 0x40, 0xd4,
        0x93, 0x47,
    ])
}

/// Returns the root of the trie of the storage of an account that has none.
#[tactic(auto, using(crate::proofs::EmptyHashes::storage_is))]
pub(crate) fn empty_storage_root() -> Hash
    ensures { IsHashOf result (encoding (string [])) }
{
    empty_root()
}

/// Returns the account whose nonce and balance are 0, and which has no storage and no code. The
/// trie of the state has no such account since EIP-161, but may have it before.
pub fn empty_account() -> Account
    ensures nonce { result.nonce ≡ 0 }
    ensures balance { number_from_digits 256 result.balance.bytes ≡ 0 }
    ensures storage_root { IsHashOf result.storage_root (encoding (string [])) }
    ensures code_hash { IsHashOf result.code_hash [] }
{
    Account {
        nonce: 0,
        balance: Uint::from(0),
        storage_root: empty_storage_root(),
        code_hash: empty_code_hash(),
    }
}
