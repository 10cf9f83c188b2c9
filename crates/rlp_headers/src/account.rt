//! Accounts of the trie of the state.

ghost use Rattle.rlp_headers.specs.Account.{account};

use rlp::{DecoderError, Encodable, Record, Rlp, RlpStream, Uint};
use rlp_records::Hash;
use std::alloc::{AllocError, Global};

/// An account in the trie of the state: the list of its four fields.
///
/// See section 4.1 of the yellow paper.
#[derive(Debug, Clone, Copy, PartialEq, Eq)]
pub struct Account {
    /// The number of transactions that the account has sent, or for a contract the number of
    /// contracts that it has created. EIP-2681 limits it to 64 bits.
    pub nonce: u64,
    /// The balance, in Wei.
    pub balance: Uint<32>,
    /// The root of the trie of the account's storage.
    pub storage_root: Hash,
    /// The hash of the account's code.
    pub code_hash: Hash,
}

impl Encodable for Account {
    ghost item = { account.item };

    ghost fits = { account.Fits };

    fn rlp_append(&self, s: &mut RlpStream) -> Result<(), AllocError> {
        rlp::append_fields!(
            s,
            &self.nonce,
            &self.balance,
            &self.storage_root,
            &self.code_hash
        )
    }
}

impl Record for Account {
    ghost reading = { account.reading };

    fn decode(alloc: Global, rlp: &Rlp<'_>) -> Result<Account, DecoderError> {
        rlp::decode_fields!(
            alloc,
            rlp,
            Account {
                nonce,
                balance,
                storage_root,
                code_hash
            }
        )
    }

    fn put_path(alloc: Global, rlp: &Rlp<'_>, path: &mut Vec<usize>) -> Result<(), AllocError> {
        rlp::put_struct_path!(alloc, rlp, path, u64, Uint<32>, Hash, Hash)
    }

    ghost lawful = { account.reads_strictly };
}
