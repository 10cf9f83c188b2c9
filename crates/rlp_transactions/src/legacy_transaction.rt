//! Transactions without a type, with a signature and without.

ghost use Rattle.std.specs.Prelude.{ℕ, ◌+◌, ◌≡◌, IfNone, IfOk, IfSome, Option, refl};
ghost use Rattle.rlp.specs.{Format.Encoding.{encoding, list_of}, Values.Value.bit};
ghost use Rattle.rlp_transactions.specs.{Eip155.{FitsChain, even_v, v_of}, LegacyTransaction.{legacy_transaction_fields, unsigned_legacy_transaction}, TransactionParts.{IsNoV, SaysChain, number_of}};

use crate::{Eip155, NonZeroScalar, Payload, Recipient, Signed};
use bytes::BytesMut;
use rlp::{
    AppendFields, CountedFields, DecodeFields, DecodeFieldsPlaced, DecoderError, Encodable, Fields,
    FieldsOf, FixedFields, Joined, OptionalGroup, Record, Rlp, RlpStream, Uint, write_struct,
};
use std::alloc::{AllocError, Global};

/// A transaction without a type, with its signature: the list of nine fields. `v` is any number of
/// at most 256 bits, also a number that says no parity, such as 0 or 29: see [`Eip155::from_v`].
pub type SignedLegacyTransaction = Signed<LegacyTransaction, Uint<32>>;

/// A transaction without a type and without its signature: six fields, as in section 4.2 of the yellow
/// paper. What is signed is a [`UnsignedLegacyTransaction`](crate::UnsignedLegacyTransaction).
#[derive(Debug, Clone, PartialEq, Eq, Drop)]
pub struct LegacyTransaction {
    /// The number of transactions that the sender has sent before. EIP-2681 makes a transaction
    /// with the nonce 2^64 - 1 invalid; this type reads it.
    pub nonce: u64,
    /// The price of a unit of gas, in Wei.
    pub gas_price: Uint<32>,
    /// The gas that the transaction may use at most.
    pub gas_limit: u64,
    /// The recipient of the value.
    pub to: Recipient,
    /// The value that is sent, in Wei.
    pub value: Uint<32>,
    /// The input of the call, or the code that creates the contract.
    pub data: Vec<u8>,
}

impl LegacyTransaction {
    /// Returns the transaction with this signature, which isn't checked. The number `v` says the
    /// parity, and with EIP-155 also the chain: see [`Eip155::to_v`].
    pub fn with_signature(
        self,
        v: Uint<32>,
        r: NonZeroScalar,
        s: NonZeroScalar,
    ) -> SignedLegacyTransaction
        ensures payload { result.payload ≡ self }
        ensures v { result.v ≡ v }
        ensures r { result.r ≡ r }
        ensures s { result.s ≡ s }
    {
        Signed {
            payload: self,
            v,
            r,
            s,
        }
    }
}

impl Signed<LegacyTransaction, Uint<32>> {
    /// Returns what `v` says: the chain that is signed, if a chain is signed, and the parity.
    /// Returns `None` if [`Eip155::from_v`] does.
    pub fn eip155(&self) -> Option<Eip155>
        ensures some { IfSome result (λ x. number_of self.now.v ≡ v_of x) }
        ensures none { IfNone result (IsNoV (number_of self.now.v)) }
    {
        Eip155::from_v(&self.v)
    }

    /// Returns the number of the chain that is signed, as `v` says it in EIP-155. Returns `None` if
    /// `v` is 27 or 28, if it isn't a `v` of EIP-155, or if the number of the chain has more than
    /// 64 bits.
    #[tactic(auto, using(crate::proofs::Parities::chains))]
    pub fn chain_id(&self) -> Option<u64>
        ensures { SaysChain (number_of self.now.v) result }
    {
        match self.eip155() {
            Some(said) => said.chain_id,
            None => None,
        }
    }

    /// Returns the parity of the y value of the signature's point, as `v` says it in EIP-155.
    /// Returns `None` if [`Eip155::from_v`] does.
    pub fn y_parity(&self) -> Option<bool>
        ensures some { IfSome result (λ p. (chain : Option ℕ)
            × (FitsChain chain × (number_of self.now.v ≡ bit p + even_v chain))) }
        ensures none { IfNone result (IsNoV (number_of self.now.v)) }
    {
        match self.eip155() {
            Some(said) => Some(said.y_parity),
            None => None,
        }
    }
}

impl AppendFields for LegacyTransaction {
    ghost items = { legacy_transaction_fields.items };

    ghost fit = { legacy_transaction_fields.Fits };

    fn field_count(&self) -> Option<usize> {
        Some(6)
    }

    fn append_fields(&self, s: &mut RlpStream) -> Result<(), AllocError> {
        rlp::append_fields!([
            &self.nonce,
            &self.gas_price,
            &self.gas_limit,
            &self.to,
            &self.value,
            &self.data
        ])
        .append_fields(s)
    }
}

impl DecodeFields for LegacyTransaction {
    ghost reading = { legacy_transaction_fields.reading };

    fn accepts(len: usize) -> bool {
        len == 6
    }

    fn decode_fields(
        alloc: Global,
        fields: &mut Fields<'_>,
    ) -> Result<LegacyTransaction, DecoderError> {
        rlp::decode_fields!(
            fields alloc,
            fields,
            LegacyTransaction {
                nonce,
                gas_price,
                gas_limit,
                to,
                value,
                data
            }
        )
    }

    ghost possible = { legacy_transaction_fields.laws.possible };
}

impl DecodeFieldsPlaced for LegacyTransaction {
    fn put_path(
        alloc: Global,
        fields: &mut CountedFields<'_>,
        path: &mut Vec<usize>,
    ) -> Result<bool, AllocError> {
        <rlp::field_types!(
            u64, Uint<32>, u64, Recipient, Uint<32>, Vec<u8>
        ) as DecodeFieldsPlaced>::put_path(alloc, fields, path)
    }
}

impl FixedFields for LegacyTransaction {
    fn width() -> Option<usize> {
        Some(6)
    }

    ghost takes = { legacy_transaction_fields.laws.wide refl };
}

impl Payload for LegacyTransaction {
    ghost laws = { legacy_transaction_fields.laws };

    ghost fixed = { refl };
}

/// A transaction without a type before it is signed: the list of its six fields, as in section 4.2
/// of the yellow paper. With EIP-155 it is a list of nine items: the six fields, the number of the
/// chain, 0 and 0.
///
/// This list is what is signed.
#[derive(Debug, Clone, PartialEq, Eq, Drop)]
pub struct UnsignedLegacyTransaction {
    /// The six fields.
    pub payload: LegacyTransaction,
    /// The number of the chain, or `None` without EIP-155. This type reads numbers of at most 64 bits.
    pub chain_id: Option<u64>,
}

impl UnsignedLegacyTransaction {
    /// Returns the transaction with this signature, which isn't checked. Its `v` says the chain and the
    /// parity of the y value of the signature's point, as in EIP-155.
    pub fn with_signature(
        self,
        y_parity: bool,
        r: NonZeroScalar,
        s: NonZeroScalar,
    ) -> SignedLegacyTransaction
        ensures payload { result.payload ≡ self.payload }
        ensures v { number_of result.v
            ≡ v_of (record { chain_id = self.chain_id; y_parity = y_parity }) }
        ensures r { result.r ≡ r }
        ensures s { result.s ≡ s }
    {
        let said = Eip155 {
            chain_id: self.chain_id,
            y_parity,
        };
        self.payload.with_signature(said.to_v(), r, s)
    }
}

/// Returns the bytes that are signed of a transaction with these fields.
pub(crate) fn unsigned_bytes(
    alloc: Global,
    payload: &LegacyTransaction,
    chain_id: Option<u64>,
) -> Result<BytesMut, AllocError>
    ensures { IfOk result (λ b. b.items ≡ encoding (unsigned_legacy_transaction.item
        (record { payload = payload.now; chain_id = chain_id }))) }
{
    match &chain_id {
        None => list_bytes(alloc, &FieldsOf(payload)),
        Some(chain_id) => {
            let fields = rlp::append_fields!([FieldsOf(payload), chain_id, &[0u8; 0], &[0u8; 0]]);
            list_bytes(alloc, &fields)
        }
    }
}

// Returns the encoding of the list of these fields.
fn list_bytes<F: AppendFields>(alloc: Global, fields: &F) -> Result<BytesMut, AllocError>
    ensures { IfOk result (λ b. b.items ≡ encoding (list_of (F.items fields.now))) }
{
    let mut s = RlpStream::new(alloc)?;
    write_struct(&mut s, fields)?;
    Ok(s.out())
}

impl Encodable for UnsignedLegacyTransaction {
    ghost item = { unsigned_legacy_transaction.item };

    ghost fits = { unsigned_legacy_transaction.Fits };

    fn rlp_append(&self, s: &mut RlpStream) -> Result<(), AllocError> {
        match &self.chain_id {
            None => rlp::append_fields!(s, FieldsOf(&self.payload)),
            Some(chain_id) => rlp::append_fields!(
                s,
                FieldsOf(&self.payload),
                chain_id,
                &[0u8; 0],
                &[0u8; 0]
            ),
        }
    }
}

// The fields of the transaction, and then the fields that EIP-155 adds: the number of the chain, 0
// and 0.
type UnsignedFields = Joined<LegacyTransaction, OptionalGroup<(u64, ([u8; 0], ([u8; 0], ())))>>;

/// Fails with `RlpIncorrectListLen` for a list that has neither 6 nor 9 items, and with
/// `RlpIsTooBig` if one of the last two of nine items is a string that isn't empty.
impl Record for UnsignedLegacyTransaction {
    ghost reading = { unsigned_legacy_transaction.reading };

    fn decode(alloc: Global, rlp: &Rlp<'_>) -> Result<UnsignedLegacyTransaction, DecoderError> {
        match rlp::decode_struct::<UnsignedFields>(alloc, rlp) {
            Ok(Joined(payload, OptionalGroup(group))) => {
                let chain_id = match group {
                    Some((chain_id, (_, (_, ())))) => { Some(chain_id) }
                    None => None,
                };
                Ok(UnsignedLegacyTransaction { payload, chain_id })
            }
            Err(fault) => Err(fault.fault),
        }
    }

    fn put_path(alloc: Global, rlp: &Rlp<'_>, path: &mut Vec<usize>) -> Result<(), AllocError> {
        rlp::put_path_of::<UnsignedFields>(alloc, rlp, path)
    }

    ghost lawful = { unsigned_legacy_transaction.reads_strictly };
}
