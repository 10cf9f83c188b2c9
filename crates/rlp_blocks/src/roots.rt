//! The roots of the parts of a block, and whether they are the roots that the header names.

ghost use Rattle.std.specs.Prelude.{◌≡◌, ◌⊎◌, IfErr, IfOk, None, Some, map, option_map};
ghost use Rattle.rlp.specs.Format.Encoding.{encoding, list_of};
ghost use Rattle.rlp_trie.specs.Ordered.{ordered_root};
ghost use Rattle.rlp_records.specs.Hashing.{IsHashOf};
ghost use Rattle.rlp_headers.specs.Header.{header};
ghost use Rattle.rlp_blocks.specs.{Roots.{body_roots, header_roots, roots_fault, seen_roots, transaction_values, withdrawal_values}, declared.roots.BodyFault.BodyFault, declared.roots.BodyFault.TheVariants.OutOfMemory};

use crate::Body;
use rlp_headers::Header;
use rlp_records::{Hash, keccak256};
use rlp_trie::{encodings_root, standalone_root};
use std::alloc::{AllocError, Global};
use std::error::Error;
use std::fmt;

/// The roots of a body, or the roots that a header names.
#[derive(Debug, Clone, Copy, PartialEq, Eq)]
pub struct BodyRoots {
    /// The root of the trie of the transactions.
    pub transactions: Hash,
    /// The hash of the list of the ommers.
    pub ommers: Hash,
    /// The root of the trie of the withdrawals, or `None` before Shanghai.
    pub withdrawals: Option<Hash>,
}

impl BodyRoots {
    /// Returns the roots that a header names.
    pub fn of_header(header: &Header) -> BodyRoots
        ensures { seen_roots result ≡ header_roots header.now }
    {
        let withdrawals = match header.shanghai() {
            Some(shanghai) => Some(shanghai.withdrawals_root),
            None => None,
        };
        BodyRoots {
            transactions: header.transactions_root,
            ommers: header.ommers_hash,
            withdrawals,
        }
    }

    /// Tests whether the roots of a body are the roots that a header names. `self` are the named
    /// roots.
    ///
    /// Fails with the first difference: with `Transactions`, with `Ommers`, or with
    /// `NoWithdrawals`, `NeedlessWithdrawals` or `Withdrawals`.
    pub fn check(&self, found: &BodyRoots) -> Result<(), BodyFault>
        ensures value { IfOk result (λ _. roots_fault (seen_roots self.now) (seen_roots found.now) ≡ None) }
        ensures fault { IfErr result
            (λ e. roots_fault (seen_roots self.now) (seen_roots found.now) ≡ Some e) }
    {
        if self.transactions != found.transactions {
            return Err(BodyFault::Transactions);
        }
        if self.ommers != found.ommers {
            return Err(BodyFault::Ommers);
        }
        match (&self.withdrawals, &found.withdrawals) {
            (None, None) => Ok(()),
            (None, Some(_)) => Err(BodyFault::NeedlessWithdrawals),
            (Some(_), None) => Err(BodyFault::NoWithdrawals),
            (Some(named), Some(root)) if named == root => Ok(()),
            (Some(_), Some(_)) => Err(BodyFault::Withdrawals),
        }
    }
}

impl Body {
    /// Returns the root of the trie of the transactions. Fails with `AllocError` if memory is
    /// refused.
    pub fn transactions_root(&self, alloc: Global) -> Result<Hash, AllocError>
        ensures { IfOk result (λ h. h.0 ≡ ordered_root (transaction_values self.now.transactions.items)) }
    {
        standalone_root(alloc, self.transactions.as_slice())
    }

    /// Returns the hash of the list of the ommers. Fails with `AllocError` if memory is refused.
    pub fn ommers_hash(&self, alloc: Global) -> Result<Hash, AllocError>
        ensures { IfOk result
            (λ h. IsHashOf h (encoding (list_of (map header.item self.now.ommers.items)))) }
    {
        let list = rlp::encode_list(alloc, self.ommers.as_slice())?;
        Ok(Hash(keccak256(list.as_slice())))
    }

    /// Returns the root of the trie of the withdrawals, or `None` for a body before Shanghai. Fails
    /// with `AllocError` if memory is refused.
    pub fn withdrawals_root(&self, alloc: Global) -> Result<Option<Hash>, AllocError>
        ensures { IfOk result (λ root. option_map (λ h. h.0) root
            ≡ option_map (λ ws. ordered_root (withdrawal_values ws)) self.now.withdrawals) }
    {
        match &self.withdrawals {
            Some(withdrawals) => Ok(Some(encodings_root(alloc, withdrawals.0.as_slice())?)),
            None => Ok(None),
        }
    }

    /// Returns the roots of the body. Fails with `AllocError` if memory is refused.
    pub fn roots(&self, alloc: Global) -> Result<BodyRoots, AllocError>
        ensures { IfOk result (λ roots. seen_roots roots ≡ body_roots self.now.transactions.items
            self.now.ommers.items self.now.withdrawals) }
    {
        Ok(BodyRoots {
            transactions: self.transactions_root(alloc)?,
            ommers: self.ommers_hash(alloc)?,
            withdrawals: self.withdrawals_root(alloc)?,
        })
    }

    /// Tests whether the body is the body of the block with this header: the roots of the body are
    /// the roots that the header names. A body has withdrawals if and only if the header names
    /// their root.
    ///
    /// Fails with the first difference, in the order of [`BodyRoots::check`], and with
    /// `OutOfMemory` if memory is refused.
    pub fn check(&self, alloc: Global, header: &Header) -> Result<(), BodyFault>
        ensures value { IfOk result (λ _. header_roots header.now
            ≡ body_roots self.now.transactions.items self.now.ommers.items self.now.withdrawals) }
        ensures fault { IfErr result (λ e. (roots_fault (header_roots header.now)
            (body_roots self.now.transactions.items self.now.ommers.items self.now.withdrawals)
            ≡ Some e) ⊎ (e ≡ OutOfMemory)) }
        ensures memory { header_roots header.now
            ≡ body_roots self.now.transactions.items self.now.ommers.items self.now.withdrawals
            → IfErr result (λ e. e ≡ OutOfMemory) }
    {
        let roots = self.roots(alloc)?;
        BodyRoots::of_header(header).check(&roots)
    }
}

/// How a body differs from the body that a header names.
#[derive(Debug, Clone, Copy, PartialEq, Eq)]
pub enum BodyFault {
    /// The header names another root of the transactions.
    Transactions,
    /// The header names another hash of the ommers.
    Ommers,
    /// The header names another root of the withdrawals.
    Withdrawals,
    /// The header names a root of withdrawals, and the body has none.
    NoWithdrawals,
    /// The body has withdrawals, and the header is of a block before Shanghai.
    NeedlessWithdrawals,
    /// Memory was refused.
    OutOfMemory,
}

/// Prints the variant's name.
impl fmt::Display for BodyFault {
    ghost use Rattle.rlp_blocks.specs.RootsText.{body_fault_text};

    ghost output = { λ e. Some (body_fault_text e) };

    fn fmt<W: fmt::Write>(&self, f: &mut fmt::Formatter<W>) -> fmt::Result {
        match self {
            BodyFault::Transactions => f.write_str("Transactions"),
            BodyFault::Ommers => f.write_str("Ommers"),
            BodyFault::Withdrawals => f.write_str("Withdrawals"),
            BodyFault::NoWithdrawals => f.write_str("NoWithdrawals"),
            BodyFault::NeedlessWithdrawals => f.write_str("NeedlessWithdrawals"),
            BodyFault::OutOfMemory => f.write_str("OutOfMemory"),
        }
    }
}

impl Error for BodyFault {}

impl From<AllocError> for BodyFault {
    ghost use Rattle.rlp_blocks.specs.declared.roots.BodyFault.TheVariants.{OutOfMemory};

    ghost from_gives = { λ _ fault. fault ≡ OutOfMemory };

    fn from(_refused: AllocError) -> BodyFault {
        BodyFault::OutOfMemory
    }
}
