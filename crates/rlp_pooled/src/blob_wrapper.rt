//! Transactions of type 3 with their blobs, as nodes and wallets send them.

ghost use Rattle.std.specs.Prelude.{◌≡◌, Err, IfErr, IfOk, Ok};
ghost use Rattle.rlp.specs.Views.View.{item_count};
ghost use Rattle.rlp_reading.specs.Form.{fault_of};
ghost use Rattle.rlp_pooled.specs.{BlobWrapper.{pooled_blob_transaction, with_cell_proofs, with_proofs, without_blobs, wrapper_version}, ItemCounts.is_count};
ghost use Rattle.rlp_pooled.specs.Versions.{version_of};

use crate::Blob;
use rlp::{
    Decodable, DecodePlaced, DecoderError, Encodable, ListField, ListOf, Rlp, RlpStream, RoundTrip,
    StrictRead,
};
use rlp_records::{BLOB_TYPE, Enveloped};
use rlp_transactions::{BlobTransaction, Signed};
use std::alloc::{AllocError, Global};

/// A transaction of type 3 with its blobs and a proof for each blob: the list of the four fields,
/// as in EIP-4844. This list is sent to other nodes and by `eth_sendRawTransaction`; only the
/// transaction is hashed, and only the transaction is in a block.
///
/// Reading doesn't test that the numbers of blobs, commitments and proofs agree:
/// [`BlobTransactionWithProofs::check_blobs`] does. The proofs aren't tested.
#[derive(Debug, Clone, PartialEq, Eq, Drop)]
pub struct BlobTransactionWithProofs {
    /// The transaction.
    pub transaction: Signed<BlobTransaction>,
    /// The blobs.
    pub blobs: Vec<Blob>,
    /// The KZG commitment to each blob, of 48 bytes.
    pub commitments: Vec<[u8; 48]>,
    /// The KZG proof of each blob, of 48 bytes.
    pub proofs: Vec<[u8; 48]>,
}

/// A transaction of type 3 with its blobs and the proofs of their cells: the list of its five
/// fields, as in EIP-7594. It takes the place of [`BlobTransactionWithProofs`] since Osaka.
///
/// Reading doesn't test that the numbers of blobs, commitments and proofs agree:
/// [`BlobTransactionWithCellProofs::check_blobs`] does. The proofs aren't tested.
#[derive(Debug, Clone, PartialEq, Eq, Drop)]
pub struct BlobTransactionWithCellProofs {
    /// The transaction.
    pub transaction: Signed<BlobTransaction>,
    /// The version of the list.
    pub wrapper_version: WrapperVersion,
    /// The blobs.
    pub blobs: Vec<Blob>,
    /// The KZG commitment to each blob, of 48 bytes.
    pub commitments: Vec<[u8; 48]>,
    /// The KZG proofs of the cells, of 48 bytes each: 128 for each blob.
    pub cell_proofs: Vec<[u8; 48]>,
}

/// The version of the list that holds a transaction of type 3 and its blobs, as in EIP-7594.
#[derive(Debug, Clone, Copy, PartialEq, Eq)]
pub enum WrapperVersion {
    /// The number 1: the list has proofs of cells.
    CellProofs,
}

impl Encodable for BlobTransactionWithProofs {
    ghost item = { with_proofs.item };

    ghost fits = { with_proofs.Fits };

    fn rlp_append(&self, s: &mut RlpStream) -> Result<(), AllocError> {
        rlp::append_fields!(
            s,
            &self.transaction,
            ListOf(&self.blobs),
            ListOf(&self.commitments),
            ListOf(&self.proofs)
        )
    }
}

impl Decodable for BlobTransactionWithProofs {
    ghost reading = { with_proofs.reading };

    fn decode(alloc: Global, rlp: &Rlp<'_>) -> Result<BlobTransactionWithProofs, DecoderError> {
        rlp::decode_fields!(
            alloc,
            rlp,
            BlobTransactionWithProofs {
                transaction,
                blobs: [..],
                commitments: [..],
                proofs: [..]
            }
        )
    }
}

impl DecodePlaced for BlobTransactionWithProofs {
    fn put_path(alloc: Global, rlp: &Rlp<'_>, path: &mut Vec<usize>) -> Result<(), AllocError> {
        rlp::put_struct_path!(
            alloc, rlp, path, Signed<BlobTransaction>, ListField<Blob>, ListField<[u8; 48]>,
            ListField<[u8; 48]>
        )
    }
}

impl RoundTrip for BlobTransactionWithProofs {
    ghost round_trip = { with_proofs.reads_back };
}

impl StrictRead for BlobTransactionWithProofs {
    ghost strict = { with_proofs.reads_strictly };
}

impl Enveloped for BlobTransactionWithProofs {
    ghost TYPE = { 3 };

    const TYPE: u8 = BLOB_TYPE;
}

impl Encodable for BlobTransactionWithCellProofs {
    ghost item = { with_cell_proofs.item };

    ghost fits = { with_cell_proofs.Fits };

    fn rlp_append(&self, s: &mut RlpStream) -> Result<(), AllocError> {
        rlp::append_fields!(
            s,
            &self.transaction,
            &self.wrapper_version,
            ListOf(&self.blobs),
            ListOf(&self.commitments),
            ListOf(&self.cell_proofs)
        )
    }
}

impl Decodable for BlobTransactionWithCellProofs {
    ghost reading = { with_cell_proofs.reading };

    fn decode(alloc: Global, rlp: &Rlp<'_>) -> Result<BlobTransactionWithCellProofs, DecoderError> {
        rlp::decode_fields!(
            alloc,
            rlp,
            BlobTransactionWithCellProofs {
                transaction,
                wrapper_version,
                blobs: [..],
                commitments: [..],
                cell_proofs: [..]
            }
        )
    }
}

impl DecodePlaced for BlobTransactionWithCellProofs {
    fn put_path(alloc: Global, rlp: &Rlp<'_>, path: &mut Vec<usize>) -> Result<(), AllocError> {
        rlp::put_struct_path!(
            alloc, rlp, path, Signed<BlobTransaction>, WrapperVersion, ListField<Blob>,
            ListField<[u8; 48]>, ListField<[u8; 48]>
        )
    }
}

impl RoundTrip for BlobTransactionWithCellProofs {
    ghost round_trip = { with_cell_proofs.reads_back };
}

impl StrictRead for BlobTransactionWithCellProofs {
    ghost strict = { with_cell_proofs.reads_strictly };
}

impl Enveloped for BlobTransactionWithCellProofs {
    ghost TYPE = { 3 };

    const TYPE: u8 = BLOB_TYPE;
}

impl Encodable for WrapperVersion {
    ghost item = { wrapper_version.item };

    ghost fits = { wrapper_version.Fits };

    fn rlp_append(&self, s: &mut RlpStream) -> Result<(), AllocError> {
        [1u8].rlp_append(s)
    }
}

/// Reading fails with `Custom("unknown wrapper version")` if the string isn't the byte 1. It
/// doesn't allocate.
impl rlp::Record for WrapperVersion {
    ghost reading = { wrapper_version.reading };

    fn decode(_alloc: Global, rlp: &Rlp<'_>) -> Result<WrapperVersion, DecoderError> {
        let string = rlp.decoder().string()?;
        version_of(string)
    }

    fn put_path(_alloc: Global, _rlp: &Rlp<'_>, _path: &mut Vec<usize>) -> Result<(), AllocError> {
        Ok(())
    }

    ghost lawful = { wrapper_version.reads_strictly };
}

/// Makes the version from a string. Fails as reading a version does.
fn version_of(string: &[u8]) -> Result<WrapperVersion, DecoderError>
    ensures value { IfOk result (λ _. version_of string.now ≡ Ok tt) }
    ensures fault { IfErr result (λ e. version_of string.now ≡ Err (fault_of e)) }
{
    match string {
        [1] => Ok(WrapperVersion::CellProofs),
        _ => Err(DecoderError::Custom("unknown wrapper version")),
    }
}

/// The number of fields of a [`BlobTransactionWithProofs`].
const PROOFS_FIELDS: usize = 4;

/// A transaction of type 3 as it is sent: with its blobs. A list of four items is read as the form
/// of EIP-4844, and any other item as the form of EIP-7594, which has five items.
#[derive(Debug, Clone, PartialEq, Eq, Drop)]
pub enum PooledBlobTransaction {
    /// The form of EIP-4844: with a proof for each blob.
    Proofs(BlobTransactionWithProofs),
    /// The form of EIP-7594: with the proofs of the cells of the blobs.
    CellProofs(BlobTransactionWithCellProofs),
}

impl PooledBlobTransaction {
    /// Returns the transaction without its blobs.
    pub fn transaction(&self) -> &Signed<BlobTransaction>
        ensures { result.now ≡ without_blobs self.now }
    {
        match self {
            PooledBlobTransaction::Proofs(sent) => &sent.transaction,
            PooledBlobTransaction::CellProofs(sent) => &sent.transaction,
        }
    }

    /// Returns the transaction as it is in a block, and drops its blobs.
    pub fn into_consensus(self) -> Signed<BlobTransaction>
        ensures { result ≡ without_blobs self }
    {
        match self {
            PooledBlobTransaction::Proofs(sent) => sent.transaction,
            PooledBlobTransaction::CellProofs(sent) => sent.transaction,
        }
    }
}

/// Whether the view is a list of `count` items.
fn is_list_of(rlp: &Rlp<'_>, count: usize) -> bool
    ensures { result ≡ is_count count (item_count rlp.now) }
{
    match rlp.item_count() {
        Ok(items) => items == count,
        Err(_) => false,
    }
}

impl Encodable for PooledBlobTransaction {
    ghost item = { pooled_blob_transaction.item };

    ghost fits = { pooled_blob_transaction.Fits };

    fn rlp_append(&self, s: &mut RlpStream) -> Result<(), AllocError> {
        match self {
            PooledBlobTransaction::Proofs(sent) => sent.rlp_append(s),
            PooledBlobTransaction::CellProofs(sent) => sent.rlp_append(s),
        }
    }
}

/// Reading fails as reading a [`BlobTransactionWithProofs`] does for a list of four items, and as
/// reading a [`BlobTransactionWithCellProofs`] does for any other item.
impl Decodable for PooledBlobTransaction {
    ghost reading = { pooled_blob_transaction.reading };

    fn decode(alloc: Global, rlp: &Rlp<'_>) -> Result<PooledBlobTransaction, DecoderError> {
        if is_list_of(rlp, PROOFS_FIELDS) {
            let sent = rlp.as_val(alloc)?;
            return Ok(PooledBlobTransaction::Proofs(sent));
        }
        Ok(PooledBlobTransaction::CellProofs(rlp.as_val(alloc)?))
    }
}

impl DecodePlaced for PooledBlobTransaction {
    fn put_path(alloc: Global, rlp: &Rlp<'_>, path: &mut Vec<usize>) -> Result<(), AllocError> {
        if is_list_of(rlp, PROOFS_FIELDS) {
            return BlobTransactionWithProofs::put_path(alloc, rlp, path);
        }
        BlobTransactionWithCellProofs::put_path(alloc, rlp, path)
    }
}

impl RoundTrip for PooledBlobTransaction {
    ghost round_trip = { pooled_blob_transaction.reads_back };
}

impl StrictRead for PooledBlobTransaction {
    ghost strict = { pooled_blob_transaction.reads_strictly };
}

impl Enveloped for PooledBlobTransaction {
    ghost TYPE = { 3 };

    const TYPE: u8 = BLOB_TYPE;
}
