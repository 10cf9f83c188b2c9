//! What a block read and changed of an account.

ghost use Rattle.rlp.specs.{Codec.codec_of, Laws.form_of};
ghost use Rattle.rlp_headers.specs.Changes.{account_changes, change, change_form, slot_changes};

use rlp::{
    Decodable, DecodePlaced, DecoderError, Encodable, ListField, ListOf, Record, Rlp, RlpStream,
    RoundTrip, StrictRead, Uint,
};
use rlp_records::Address;
use std::alloc::{AllocError, Global};

/// A change of a value: the list of the place in the block and the new value.
#[derive(Debug, Clone, PartialEq, Eq, Drop)]
pub struct StateChange<T> {
    /// The place in the block: 0 before all transactions, then the number of a transaction, counted
    /// from 1, and after the last transaction 1 more than the number of transactions.
    pub block_access_index: u32,
    /// The value after the change.
    pub new_value: T,
}

impl<T: StrictRead> Encodable for StateChange<T> {
    ghost item = { (change_form (form_of T.fits T.item T.reading)).item };

    ghost fits = { (change_form (form_of T.fits T.item T.reading)).Fits };

    fn rlp_append(&self, s: &mut RlpStream) -> Result<(), AllocError> {
        rlp::append_fields!(s, &self.block_access_index, &self.new_value)
    }
}

impl<T: StrictRead> Decodable for StateChange<T> {
    ghost reading = { (change_form (form_of T.fits T.item T.reading)).reading };

    fn decode(alloc: Global, rlp: &Rlp<'_>) -> Result<StateChange<T>, DecoderError> {
        rlp::decode_fields!(
            alloc,
            rlp,
            StateChange {
                block_access_index,
                new_value
            }
        )
    }
}

impl<T: StrictRead + DecodePlaced> DecodePlaced for StateChange<T> {
    fn put_path(alloc: Global, rlp: &Rlp<'_>, path: &mut Vec<usize>) -> Result<(), AllocError> {
        rlp::put_struct_path!(alloc, rlp, path, u32, T)
    }
}

impl<T: StrictRead> RoundTrip for StateChange<T> {
    ghost round_trip = { (change (codec_of T.fits T.item T.reading T.strict)).reads_back };
}

impl<T: StrictRead> StrictRead for StateChange<T> {
    ghost strict = { (change (codec_of T.fits T.item T.reading T.strict)).reads_strictly };
}

/// The changes of a slot of storage: the list of the slot and the list of its changes.
#[derive(Debug, Clone, PartialEq, Eq, Drop)]
pub struct SlotChanges {
    /// The slot.
    pub slot: Uint<32>,
    /// The changes of the slot's value.
    pub changes: Vec<StateChange<Uint<32>>>,
}

impl Encodable for SlotChanges {
    ghost item = { slot_changes.item };

    ghost fits = { slot_changes.Fits };

    fn rlp_append(&self, s: &mut RlpStream) -> Result<(), AllocError> {
        rlp::append_fields!(s, &self.slot, ListOf(&self.changes))
    }
}

impl Record for SlotChanges {
    ghost reading = { slot_changes.reading };

    fn decode(alloc: Global, rlp: &Rlp<'_>) -> Result<SlotChanges, DecoderError> {
        rlp::decode_fields!(
            alloc,
            rlp,
            SlotChanges {
                slot,
                changes: [..]
            }
        )
    }

    fn put_path(alloc: Global, rlp: &Rlp<'_>, path: &mut Vec<usize>) -> Result<(), AllocError> {
        rlp::put_struct_path!(alloc, rlp, path, Uint<32>, ListField<StateChange<Uint<32>>>)
    }

    ghost lawful = { slot_changes.reads_strictly };
}

/// What a block read and changed of an account: the list of these fields.
#[derive(Debug, Clone, PartialEq, Eq, Drop)]
pub struct AccountChanges {
    /// The account.
    pub address: Address,
    /// The slots of storage that changed.
    pub storage_changes: Vec<SlotChanges>,
    /// The slots of storage that were read and didn't change.
    pub storage_reads: Vec<Uint<32>>,
    /// The balances after changes, in Wei.
    pub balance_changes: Vec<StateChange<Uint<32>>>,
    /// The nonces after changes.
    pub nonce_changes: Vec<StateChange<u64>>,
    /// The code after changes.
    pub code_changes: Vec<StateChange<Vec<u8>>>,
}

impl Encodable for AccountChanges {
    ghost item = { account_changes.item };

    ghost fits = { account_changes.Fits };

    fn rlp_append(&self, s: &mut RlpStream) -> Result<(), AllocError> {
        rlp::append_fields!(
            s,
            &self.address,
            ListOf(&self.storage_changes),
            ListOf(&self.storage_reads),
            ListOf(&self.balance_changes),
            ListOf(&self.nonce_changes),
            ListOf(&self.code_changes)
        )
    }
}

impl Record for AccountChanges {
    ghost reading = { account_changes.reading };

    fn decode(alloc: Global, rlp: &Rlp<'_>) -> Result<AccountChanges, DecoderError> {
        rlp::decode_fields!(
            alloc,
            rlp,
            AccountChanges {
                address,
                storage_changes: [..],
                storage_reads: [..],
                balance_changes: [..],
                nonce_changes: [..],
                code_changes: [..]
            }
        )
    }

    fn put_path(alloc: Global, rlp: &Rlp<'_>, path: &mut Vec<usize>) -> Result<(), AllocError> {
        rlp::put_struct_path!(
            alloc, rlp, path, Address, ListField<SlotChanges>, ListField<Uint<32>>,
            ListField<StateChange<Uint<32>>>, ListField<StateChange<u64>>, ListField<StateChange<Vec<u8>>>
        )
    }

    ghost lawful = { account_changes.reads_strictly };
}
