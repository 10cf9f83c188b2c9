//! Withdrawals from the beacon chain.

ghost use Rattle.rlp_headers.specs.Withdrawal.{withdrawal, withdrawals};

use rlp::{DecoderError, Each, Encodable, Record, Rlp, RlpStream, put_list_path};
use rlp_records::Address;
use std::alloc::{AllocError, Global};

/// A withdrawal from the beacon chain: the list of its four fields, as in EIP-4895.
#[derive(Debug, Clone, Copy, PartialEq, Eq)]
pub struct Withdrawal {
    /// The number of the withdrawal, counted over all blocks from 0.
    pub index: u64,
    /// The number of the validator that the amount comes from.
    pub validator_index: u64,
    /// The account that receives the amount.
    pub address: Address,
    /// The amount, in Gwei (10^9 Wei).
    pub amount: u64,
}

impl Encodable for Withdrawal {
    ghost item = { withdrawal.item };

    ghost fits = { withdrawal.Fits };

    fn rlp_append(&self, s: &mut RlpStream) -> Result<(), AllocError> {
        rlp::append_fields!(
            s,
            &self.index,
            &self.validator_index,
            &self.address,
            &self.amount
        )
    }
}

impl Record for Withdrawal {
    ghost reading = { withdrawal.reading };

    fn decode(alloc: Global, rlp: &Rlp<'_>) -> Result<Withdrawal, DecoderError> {
        rlp::decode_fields!(
            alloc,
            rlp,
            Withdrawal {
                index,
                validator_index,
                address,
                amount
            }
        )
    }

    fn put_path(alloc: Global, rlp: &Rlp<'_>, path: &mut Vec<usize>) -> Result<(), AllocError> {
        rlp::put_struct_path!(alloc, rlp, path, u64, u64, Address, u64)
    }

    ghost lawful = { withdrawal.reads_strictly };
}

/// The withdrawals of a block, in order: the list of the withdrawals.
#[derive(Debug, Clone, PartialEq, Eq, Drop)]
pub struct Withdrawals(pub Vec<Withdrawal>);

impl Encodable for Withdrawals {
    ghost item = { withdrawals.item };

    ghost fits = { withdrawals.Fits };

    fn rlp_append(&self, s: &mut RlpStream) -> Result<(), AllocError> {
        rlp::append_fields!(s, Each(&self.0))
    }
}

impl Record for Withdrawals {
    ghost reading = { withdrawals.reading };

    fn decode(alloc: Global, rlp: &Rlp<'_>) -> Result<Withdrawals, DecoderError> {
        Ok(Withdrawals(rlp.as_list(alloc)?))
    }

    fn put_path(alloc: Global, rlp: &Rlp<'_>, path: &mut Vec<usize>) -> Result<(), AllocError> {
        put_list_path::<Withdrawal>(alloc, rlp, path)
    }

    ghost lawful = { withdrawals.reads_strictly };
}
