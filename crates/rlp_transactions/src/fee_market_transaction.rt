//! Transactions of type 2.

ghost use Rattle.std.specs.Prelude.{refl};
ghost use Rattle.rlp_transactions.specs.FeeMarketTransaction.{fee_market_transaction_fields};

use crate::{AccessList, Payload, Recipient, Tagged, TypedTransaction};
use rlp::{
    AppendFields, CountedFields, DecodeFields, DecodeFieldsPlaced, DecoderError, Fields,
    FixedFields, RlpStream, Uint,
};
use rlp_records::FEE_MARKET_TYPE;
use std::alloc::{AllocError, Global};

/// A transaction of type 2 without its signature: the list of its nine fields is signed after the
/// byte 2, as in EIP-1559.
#[derive(Debug, Clone, PartialEq, Eq, Drop)]
pub struct FeeMarketTransaction {
    /// The number of the chain, as in EIP-155. This type reads numbers of at most 64 bits.
    pub chain_id: u64,
    /// The number of transactions that the sender has sent before. EIP-2681 makes a transaction
    /// with the nonce 2^64 - 1 invalid; this type reads it.
    pub nonce: u64,
    /// The highest price of a unit of gas that the sender pays to the block's beneficiary, in Wei.
    pub max_priority_fee_per_gas: Uint<32>,
    /// The highest total price of a unit of gas that the sender pays, in Wei.
    pub max_fee_per_gas: Uint<32>,
    /// The gas that the transaction may use at most.
    pub gas_limit: u64,
    /// The recipient of the value.
    pub to: Recipient,
    /// The value that is sent, in Wei.
    pub value: Uint<32>,
    /// The input of the call, or the code that creates the contract.
    pub data: Vec<u8>,
    /// The accounts and the keys of storage that the transaction declares.
    pub access_list: AccessList,
}

impl AppendFields for FeeMarketTransaction {
    ghost items = { fee_market_transaction_fields.items };

    ghost fit = { fee_market_transaction_fields.Fits };

    fn field_count(&self) -> Option<usize> {
        Some(9)
    }

    fn append_fields(&self, s: &mut RlpStream) -> Result<(), AllocError> {
        rlp::append_fields!([
            &self.chain_id,
            &self.nonce,
            &self.max_priority_fee_per_gas,
            &self.max_fee_per_gas,
            &self.gas_limit,
            &self.to,
            &self.value,
            &self.data,
            &self.access_list
        ])
        .append_fields(s)
    }
}

impl DecodeFields for FeeMarketTransaction {
    ghost reading = { fee_market_transaction_fields.reading };

    fn accepts(len: usize) -> bool {
        len == 9
    }

    fn decode_fields(
        alloc: Global,
        fields: &mut Fields<'_>,
    ) -> Result<FeeMarketTransaction, DecoderError> {
        rlp::decode_fields!(
            fields alloc,
            fields,
            FeeMarketTransaction {
                chain_id,
                nonce,
                max_priority_fee_per_gas,
                max_fee_per_gas,
                gas_limit,
                to,
                value,
                data,
                access_list
            }
        )
    }

    ghost possible = { fee_market_transaction_fields.laws.possible };
}

impl DecodeFieldsPlaced for FeeMarketTransaction {
    fn put_path(
        alloc: Global,
        fields: &mut CountedFields<'_>,
        path: &mut Vec<usize>,
    ) -> Result<bool, AllocError> {
        <rlp::field_types!(
            u64, u64, Uint<32>, Uint<32>, u64, Recipient, Uint<32>, Vec<u8>, AccessList
        ) as DecodeFieldsPlaced>::put_path(alloc, fields, path)
    }
}

impl FixedFields for FeeMarketTransaction {
    fn width() -> Option<usize> {
        Some(9)
    }

    ghost takes = { fee_market_transaction_fields.laws.wide refl };
}

impl Payload for FeeMarketTransaction {
    ghost laws = { fee_market_transaction_fields.laws };

    ghost fixed = { refl };
}

impl Tagged for FeeMarketTransaction {
    ghost TAG = { 2 };

    const TAG: u8 = FEE_MARKET_TYPE;
}

impl TypedTransaction for FeeMarketTransaction {}
