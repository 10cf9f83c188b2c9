//! Transactions of type 3.

ghost use Rattle.std.specs.Prelude.{refl};
ghost use Rattle.rlp_transactions.specs.BlobTransaction.{blob_transaction_fields};

use crate::{AccessList, Payload, Tagged, TypedTransaction};
use rlp::{
    AppendFields, CountedFields, DecodeFields, DecodeFieldsPlaced, DecoderError, Fields,
    FixedFields, ListField, ListOf, RlpStream, Uint,
};
use rlp_records::{Address, BLOB_TYPE, Hash};
use std::alloc::{AllocError, Global};

/// A transaction of type 3 without its signature: the list of its eleven fields is signed after the
/// byte 3, as in EIP-4844.
///
/// It always has a recipient, and it holds no blobs.
#[derive(Debug, Clone, PartialEq, Eq, Drop)]
pub struct BlobTransaction {
    /// The number of the chain, as in EIP-155. This type reads numbers of at most 64 bits.
    pub chain_id: u64,
    /// The number of transactions that the sender has sent before. EIP-2681 makes a transaction
    /// with the nonce 2^64 - 1 invalid; this type reads it.
    pub nonce: u64,
    /// The highest price of a unit of gas that the sender pays to the block's beneficiary, in Wei.
    pub max_priority_fee_per_gas: Uint<32>,
    /// The highest total price of a unit of gas that the sender pays, in Wei.
    pub max_fee_per_gas: Uint<32>,
    /// The gas that the transaction may use at most.
    pub gas_limit: u64,
    /// The account that receives the value.
    pub to: Address,
    /// The value that is sent, in Wei.
    pub value: Uint<32>,
    /// The input of the call.
    pub data: Vec<u8>,
    /// The accounts and the keys of storage that the transaction declares.
    pub access_list: AccessList,
    /// The highest price of a unit of blob gas that the sender pays, in Wei.
    pub max_fee_per_blob_gas: Uint<32>,
    /// The versioned hashes of the blobs. This type doesn't check their version.
    pub blob_versioned_hashes: Vec<Hash>,
}

impl AppendFields for BlobTransaction {
    ghost items = { blob_transaction_fields.items };

    ghost fit = { blob_transaction_fields.Fits };

    fn field_count(&self) -> Option<usize> {
        Some(11)
    }

    fn append_fields(&self, s: &mut RlpStream) -> Result<(), AllocError> {
        rlp::append_fields!([
            &self.chain_id,
            &self.nonce,
            &self.max_priority_fee_per_gas,
            &self.max_fee_per_gas,
            &self.gas_limit,
            &self.to,
            &self.value,
            &self.data,
            &self.access_list,
            &self.max_fee_per_blob_gas,
            ListOf(&self.blob_versioned_hashes)
        ])
        .append_fields(s)
    }
}

impl DecodeFields for BlobTransaction {
    ghost reading = { blob_transaction_fields.reading };

    fn accepts(len: usize) -> bool {
        len == 11
    }

    fn decode_fields(
        alloc: Global,
        fields: &mut Fields<'_>,
    ) -> Result<BlobTransaction, DecoderError> {
        rlp::decode_fields!(
            fields alloc,
            fields,
            BlobTransaction {
                chain_id,
                nonce,
                max_priority_fee_per_gas,
                max_fee_per_gas,
                gas_limit,
                to,
                value,
                data,
                access_list,
                max_fee_per_blob_gas,
                blob_versioned_hashes: [..]
            }
        )
    }

    ghost possible = { blob_transaction_fields.laws.possible };
}

impl DecodeFieldsPlaced for BlobTransaction {
    fn put_path(
        alloc: Global,
        fields: &mut CountedFields<'_>,
        path: &mut Vec<usize>,
    ) -> Result<bool, AllocError> {
        <rlp::field_types!(
            u64, u64, Uint<32>, Uint<32>, u64, Address, Uint<32>, Vec<u8>, AccessList, Uint<32>,
            ListField<Hash>
        ) as DecodeFieldsPlaced>::put_path(alloc, fields, path)
    }
}

impl FixedFields for BlobTransaction {
    fn width() -> Option<usize> {
        Some(11)
    }

    ghost takes = { blob_transaction_fields.laws.wide refl };
}

impl Payload for BlobTransaction {
    ghost laws = { blob_transaction_fields.laws };

    ghost fixed = { refl };
}

impl Tagged for BlobTransaction {
    ghost TAG = { 3 };

    const TAG: u8 = BLOB_TYPE;
}

impl TypedTransaction for BlobTransaction {}
