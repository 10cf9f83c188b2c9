//! The numbers of blobs that are sent with a transaction of type 3, and its versioned hashes. This
//! crate has no KZG: whether the commitments and the proofs belong to the blobs isn't tested.

ghost use Rattle.std.specs.{Prelude.{◌≡◌, Some, length}, Vec.vec_items};
ghost use Rattle.rlp_pooled.specs.BlobCheck.{blob_check, cell_proofs_check, hash_check, hashes_of, pooled_check, proofs_check, versioned_hash};

use crate::{BlobTransactionWithCellProofs, BlobTransactionWithProofs, PooledBlobTransaction};
use rlp_records::Hash;
use rlp_transactions::{BlobTransaction, Signed};
use sha2::{Digest, Sha256};
use std::error::Error;
use std::fmt;

/// The number of cells of a blob, as in EIP-7594, each with a proof.
const CELL_COUNT: usize = 128;

/// Why a transaction of type 3 and the blobs, commitments and proofs that are sent with it don't
/// fit together.
#[derive(Debug, Clone, Copy, PartialEq, Eq)]
pub enum BlobFault {
    /// There are more or fewer blobs than versioned hashes in the transaction.
    BlobCount,
    /// There are more or fewer commitments than versioned hashes in the transaction.
    CommitmentCount,
    /// The number of proofs isn't one for each blob, or, for proofs of cells, 128 for each blob.
    ProofCount,
    /// The versioned hash at this place, counted from 0, isn't the [`versioned_hash`] of the
    /// commitment at the same place.
    VersionedHash(usize),
}

/// Returns the versioned hash of a KZG commitment, as in EIP-4844: the byte `0x01`, and the SHA-256
/// hash of the commitment without its first byte.
pub fn versioned_hash(commitment: &[u8; 48]) -> Hash
    ensures { result.0 ≡ versioned_hash commitment.now }
{
    let mut bytes = Sha256::digest(commitment);
    bytes[0] = 0x01;
    Hash(bytes)
}

impl BlobTransactionWithProofs {
    /// Tests that there is a blob, a commitment and a proof for each versioned hash of the
    /// transaction, and that each versioned hash is [`versioned_hash`] of the commitment at its
    /// place. Neither the commitments nor the proofs are compared with the blobs: that needs KZG.
    ///
    /// Fails with the first fault, in the order of [`BlobFault`].
    pub fn check_blobs(&self) -> Result<(), BlobFault>
        ensures { result ≡ proofs_check self.now }
    {
        let blobs = self.blobs.len();
        check(
            &self.transaction,
            blobs,
            self.commitments.as_slice(),
            self.proofs.len() == blobs,
        )
    }
}

impl BlobTransactionWithCellProofs {
    /// Tests what [`BlobTransactionWithProofs::check_blobs`] tests, with 128 proofs for each blob.
    /// Fails as [`BlobTransactionWithProofs::check_blobs`] does.
    pub fn check_blobs(&self) -> Result<(), BlobFault>
        ensures { result ≡ cell_proofs_check self.now }
    {
        let blobs = self.blobs.len();
        let proofs = self.cell_proofs.len();
        check(
            &self.transaction,
            blobs,
            self.commitments.as_slice(),
            proofs % CELL_COUNT == 0 && proofs / CELL_COUNT == blobs,
        )
    }
}

impl PooledBlobTransaction {
    /// Tests what [`BlobTransactionWithProofs::check_blobs`] tests, or
    /// [`BlobTransactionWithCellProofs::check_blobs`] for the form with proofs of cells, and fails
    /// in the same way.
    pub fn check_blobs(&self) -> Result<(), BlobFault>
        ensures { result ≡ pooled_check self.now }
    {
        match self {
            PooledBlobTransaction::Proofs(sent) => sent.check_blobs(),
            PooledBlobTransaction::CellProofs(sent) => sent.check_blobs(),
        }
    }
}

// Tests the numbers of blobs, commitments and proofs, and then each versioned hash; `are_proofs`
// says whether the number of proofs is right.
fn check(
    transaction: &Signed<BlobTransaction>,
    blobs: usize,
    commitments: &[[u8; 48]],
    are_proofs: bool,
) -> Result<(), BlobFault>
    ensures { result ≡ blob_check (hashes_of transaction.now) blobs commitments.now are_proofs }
{
    let hashes = transaction.payload.blob_versioned_hashes.as_slice();
    if blobs != hashes.len() {
        return Err(BlobFault::BlobCount);
    }
    if commitments.len() != hashes.len() {
        return Err(BlobFault::CommitmentCount);
    }
    if !are_proofs {
        return Err(BlobFault::ProofCount);
    }
    check_hashes(hashes, commitments)
}

// Tests each versioned hash.
fn check_hashes(hashes: &[Hash], commitments: &[[u8; 48]]) -> Result<(), BlobFault>
    requires { length hashes.now ≡ length commitments.now }
    ensures { result ≡ hash_check 0 hashes.now commitments.now }
{
    'places: for i in 0..hashes.len() {
        if hashes[i] != versioned_hash(&commitments[i]) {
            return Err(BlobFault::VersionedHash(i));
        }
    }
    Ok(())
}

/// Prints the variant's name, and for `VersionedHash` also the place, as in `VersionedHash(0)`.
impl fmt::Display for BlobFault {
    ghost use Rattle.rlp_pooled.specs.BlobCheck.{blob_fault_text};

    ghost output = { λ e. Some (blob_fault_text e) };

    fn fmt<W: fmt::Write>(&self, f: &mut fmt::Formatter<W>) -> fmt::Result {
        match self {
            BlobFault::BlobCount => f.write_str("BlobCount"),
            BlobFault::CommitmentCount => f.write_str("CommitmentCount"),
            BlobFault::ProofCount => f.write_str("ProofCount"),
            BlobFault::VersionedHash(place) => write!(f, "VersionedHash({place})"),
        }
    }
}

impl Error for BlobFault {}
