//! Transactions of type 1, and access lists.

ghost use Rattle.std.specs.Prelude.{refl};
ghost use Rattle.rlp_transactions.specs.AccessListTransaction.{access_list, access_list_item, access_list_transaction_fields};

use crate::{Payload, Recipient, Tagged, TypedTransaction};
use rlp::{
    AppendFields, CountedFields, DecodeFields, DecodeFieldsPlaced, DecoderError, Each, Encodable,
    Fields, FixedFields, ListField, ListOf, Record, Rlp, RlpStream, Uint, put_list_path,
};
use rlp_records::{ACCESS_LIST_TYPE, Address, Hash};
use std::alloc::{AllocError, Global};

/// A transaction of type 1 without its signature: the list of its eight fields is signed after the
/// byte 1, as in EIP-2930.
#[derive(Debug, Clone, PartialEq, Eq, Drop)]
pub struct AccessListTransaction {
    /// The number of the chain, as in EIP-155. This type reads numbers of at most 64 bits.
    pub chain_id: u64,
    /// The number of transactions that the sender has sent before. EIP-2681 makes a transaction
    /// with the nonce 2^64 - 1 invalid; this type reads it.
    pub nonce: u64,
    /// The price of a unit of gas, in Wei.
    pub gas_price: Uint<32>,
    /// The gas that the transaction may use at most.
    pub gas_limit: u64,
    /// The recipient of the value.
    pub to: Recipient,
    /// The value that is sent, in Wei.
    pub value: Uint<32>,
    /// The input of the call, or the code that creates the contract.
    pub data: Vec<u8>,
    /// The accounts and the keys of storage that the transaction declares.
    pub access_list: AccessList,
}

impl AppendFields for AccessListTransaction {
    ghost items = { access_list_transaction_fields.items };

    ghost fit = { access_list_transaction_fields.Fits };

    fn field_count(&self) -> Option<usize> {
        Some(8)
    }

    fn append_fields(&self, s: &mut RlpStream) -> Result<(), AllocError> {
        rlp::append_fields!([
            &self.chain_id,
            &self.nonce,
            &self.gas_price,
            &self.gas_limit,
            &self.to,
            &self.value,
            &self.data,
            &self.access_list
        ])
        .append_fields(s)
    }
}

impl DecodeFields for AccessListTransaction {
    ghost reading = { access_list_transaction_fields.reading };

    fn accepts(len: usize) -> bool {
        len == 8
    }

    fn decode_fields(
        alloc: Global,
        fields: &mut Fields<'_>,
    ) -> Result<AccessListTransaction, DecoderError> {
        rlp::decode_fields!(
            fields alloc,
            fields,
            AccessListTransaction {
                chain_id,
                nonce,
                gas_price,
                gas_limit,
                to,
                value,
                data,
                access_list
            }
        )
    }

    ghost possible = { access_list_transaction_fields.laws.possible };
}

impl DecodeFieldsPlaced for AccessListTransaction {
    fn put_path(
        alloc: Global,
        fields: &mut CountedFields<'_>,
        path: &mut Vec<usize>,
    ) -> Result<bool, AllocError> {
        <rlp::field_types!(
            u64, u64, Uint<32>, u64, Recipient, Uint<32>, Vec<u8>, AccessList
        ) as DecodeFieldsPlaced>::put_path(alloc, fields, path)
    }
}

impl FixedFields for AccessListTransaction {
    fn width() -> Option<usize> {
        Some(8)
    }

    ghost takes = { access_list_transaction_fields.laws.wide refl };
}

impl Payload for AccessListTransaction {
    ghost laws = { access_list_transaction_fields.laws };

    ghost fixed = { refl };
}

impl Tagged for AccessListTransaction {
    ghost TAG = { 1 };

    const TAG: u8 = ACCESS_LIST_TYPE;
}

impl TypedTransaction for AccessListTransaction {}

/// An account and the keys of its storage that a transaction declares. It is written as the list of
/// the two fields, as in EIP-2930.
#[derive(Debug, Clone, PartialEq, Eq, Drop)]
pub struct AccessListItem {
    /// The account.
    pub address: Address,
    /// The keys of the account's storage, of 32 bytes each.
    pub storage_keys: Vec<Hash>,
}

impl Encodable for AccessListItem {
    ghost item = { access_list_item.item };

    ghost fits = { access_list_item.Fits };

    fn rlp_append(&self, s: &mut RlpStream) -> Result<(), AllocError> {
        rlp::append_fields!(s, &self.address, ListOf(&self.storage_keys))
    }
}

impl Record for AccessListItem {
    ghost reading = { access_list_item.reading };

    fn decode(alloc: Global, rlp: &Rlp<'_>) -> Result<AccessListItem, DecoderError> {
        rlp::decode_fields!(
            alloc,
            rlp,
            AccessListItem {
                address,
                storage_keys: [..]
            }
        )
    }

    fn put_path(alloc: Global, rlp: &Rlp<'_>, path: &mut Vec<usize>) -> Result<(), AllocError> {
        rlp::put_struct_path!(alloc, rlp, path, Address, ListField<Hash>)
    }

    ghost lawful = { access_list_item.reads_strictly };
}

/// The accounts that a transaction declares, in order. It is written as the list of its items, as
/// in EIP-2930.
#[derive(Debug, Clone, PartialEq, Eq, Drop)]
pub struct AccessList(pub Vec<AccessListItem>);

impl Encodable for AccessList {
    ghost item = { access_list.item };

    ghost fits = { access_list.Fits };

    fn rlp_append(&self, s: &mut RlpStream) -> Result<(), AllocError> {
        rlp::append_fields!(s, Each(&self.0))
    }
}

impl Record for AccessList {
    ghost reading = { access_list.reading };

    fn decode(alloc: Global, rlp: &Rlp<'_>) -> Result<AccessList, DecoderError> {
        Ok(AccessList(rlp.as_list(alloc)?))
    }

    fn put_path(alloc: Global, rlp: &Rlp<'_>, path: &mut Vec<usize>) -> Result<(), AllocError> {
        put_list_path::<AccessListItem>(alloc, rlp, path)
    }

    ghost lawful = { access_list.reads_strictly };
}
