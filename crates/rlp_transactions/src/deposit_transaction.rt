//! Deposits of the OP stack.

ghost use Rattle.rlp_transactions.specs.DepositTransaction.{deposit_transaction};

use crate::Recipient;
use rlp::{
    Decodable, DecodePlaced, DecoderError, Encodable, Rlp, RlpStream, RoundTrip, StrictRead, Uint,
};
use rlp_records::{Address, DEPOSIT_TYPE, Enveloped, Hash};
use std::alloc::{AllocError, Global};

/// A deposit of the OP stack, a transaction that comes from the base chain (layer 1): the list of
/// its eight fields, after the byte `0x7e`. It has no signature.
#[derive(Debug, Clone, PartialEq, Eq, Drop)]
pub struct DepositTransaction {
    /// The hash that identifies the deposit.
    pub source_hash: Hash,
    /// The account that sends the value.
    pub from: Address,
    /// The recipient of the value.
    pub to: Recipient,
    /// The value that the deposit creates for the sender, in Wei.
    pub mint: Uint<32>,
    /// The value that is sent, in Wei.
    pub value: Uint<32>,
    /// The gas that the transaction may use at most.
    pub gas_limit: u64,
    /// Whether the gas doesn't count towards the gas of the block. It is `false` since Regolith.
    pub is_system_transaction: bool,
    /// The input of the call, or the code that creates the contract.
    pub data: Vec<u8>,
}

impl Encodable for DepositTransaction {
    ghost item = { deposit_transaction.item };

    ghost fits = { deposit_transaction.Fits };

    fn rlp_append(&self, s: &mut RlpStream) -> Result<(), AllocError> {
        rlp::append_fields!(
            s,
            &self.source_hash,
            &self.from,
            &self.to,
            &self.mint,
            &self.value,
            &self.gas_limit,
            &self.is_system_transaction,
            &self.data
        )
    }
}

impl Decodable for DepositTransaction {
    ghost reading = { deposit_transaction.reading };

    fn decode(alloc: Global, rlp: &Rlp<'_>) -> Result<DepositTransaction, DecoderError> {
        rlp::decode_fields!(
            alloc,
            rlp,
            DepositTransaction {
                source_hash,
                from,
                to,
                mint,
                value,
                gas_limit,
                is_system_transaction,
                data
            }
        )
    }
}

impl DecodePlaced for DepositTransaction {
    fn put_path(alloc: Global, rlp: &Rlp<'_>, path: &mut Vec<usize>) -> Result<(), AllocError> {
        rlp::put_struct_path!(
            alloc, rlp, path, Hash, Address, Recipient, Uint<32>, Uint<32>, u64, bool, Vec<u8>
        )
    }
}

impl RoundTrip for DepositTransaction {
    ghost round_trip = { deposit_transaction.reads_back };
}

impl StrictRead for DepositTransaction {
    ghost strict = { deposit_transaction.reads_strictly };
}

impl Enveloped for DepositTransaction {
    ghost TYPE = { 0x7e };

    const TYPE: u8 = DEPOSIT_TYPE;
}
