//! Transactions of type 4, and their authorizations.

ghost use Rattle.std.specs.Prelude.{◌≡◌, IfNone, IfSome, refl};
ghost use Rattle.rlp.specs.Values.Value.{bit};
ghost use Rattle.rlp_transactions.specs.SetCodeTransaction.{HasSignature, authorization_fields, set_code_transaction_fields, signed_authorization};

use crate::{AccessList, NonZeroScalar, Payload, Tagged, TypedTransaction};
use rlp::{
    AppendFields, CountedFields, DecodeFields, DecodeFieldsPlaced, DecoderError, Encodable, Fields,
    FieldsOf, FixedFields, Joined, ListField, ListOf, Record, Rlp, RlpStream, Uint,
};
use rlp_records::{AUTHORIZATION_MAGIC, Address, SET_CODE_TYPE};
use std::alloc::{AllocError, Global};

/// A transaction of type 4 without its signature: the list of its ten fields is signed after the
/// byte 4, as in EIP-7702.
///
/// It always has a recipient.
#[derive(Debug, Clone, PartialEq, Eq, Drop)]
pub struct SetCodeTransaction {
    /// The number of the chain, as in EIP-155. This type reads numbers of at most 64 bits.
    pub chain_id: u64,
    /// The number of transactions that the sender has sent before. EIP-2681 makes a transaction
    /// with the nonce 2^64 - 1 invalid; this type reads it.
    pub nonce: u64,
    /// The highest price of a unit of gas that the sender pays to the block's beneficiary, in Wei.
    pub max_priority_fee_per_gas: Uint<32>,
    /// The highest total price of a unit of gas that the sender pays, in Wei.
    pub max_fee_per_gas: Uint<32>,
    /// The gas that the transaction may use at most.
    pub gas_limit: u64,
    /// The account that receives the value.
    pub destination: Address,
    /// The value that is sent, in Wei.
    pub value: Uint<32>,
    /// The input of the call.
    pub data: Vec<u8>,
    /// The accounts and the keys of storage that the transaction declares.
    pub access_list: AccessList,
    /// The accounts whose code the transaction sets. This type also reads an empty list, which
    /// EIP-7702 calls invalid.
    pub authorization_list: Vec<SignedAuthorization>,
}

impl AppendFields for SetCodeTransaction {
    ghost items = { set_code_transaction_fields.items };

    ghost fit = { set_code_transaction_fields.Fits };

    fn field_count(&self) -> Option<usize> {
        Some(10)
    }

    fn append_fields(&self, s: &mut RlpStream) -> Result<(), AllocError> {
        rlp::append_fields!([
            &self.chain_id,
            &self.nonce,
            &self.max_priority_fee_per_gas,
            &self.max_fee_per_gas,
            &self.gas_limit,
            &self.destination,
            &self.value,
            &self.data,
            &self.access_list,
            ListOf(&self.authorization_list)
        ])
        .append_fields(s)
    }
}

impl DecodeFields for SetCodeTransaction {
    ghost reading = { set_code_transaction_fields.reading };

    fn accepts(len: usize) -> bool {
        len == 10
    }

    fn decode_fields(
        alloc: Global,
        fields: &mut Fields<'_>,
    ) -> Result<SetCodeTransaction, DecoderError> {
        rlp::decode_fields!(
            fields alloc,
            fields,
            SetCodeTransaction {
                chain_id,
                nonce,
                max_priority_fee_per_gas,
                max_fee_per_gas,
                gas_limit,
                destination,
                value,
                data,
                access_list,
                authorization_list: [..]
            }
        )
    }

    ghost possible = { set_code_transaction_fields.laws.possible };
}

impl DecodeFieldsPlaced for SetCodeTransaction {
    fn put_path(
        alloc: Global,
        fields: &mut CountedFields<'_>,
        path: &mut Vec<usize>,
    ) -> Result<bool, AllocError> {
        <rlp::field_types!(
            u64, u64, Uint<32>, Uint<32>, u64, Address, Uint<32>, Vec<u8>, AccessList,
            ListField<SignedAuthorization>
        ) as DecodeFieldsPlaced>::put_path(alloc, fields, path)
    }
}

impl FixedFields for SetCodeTransaction {
    fn width() -> Option<usize> {
        Some(10)
    }

    ghost takes = { set_code_transaction_fields.laws.wide refl };
}

impl Payload for SetCodeTransaction {
    ghost laws = { set_code_transaction_fields.laws };

    ghost fixed = { refl };
}

impl Tagged for SetCodeTransaction {
    ghost TAG = { 4 };

    const TAG: u8 = SET_CODE_TYPE;
}

impl TypedTransaction for SetCodeTransaction {}

/// An authorization with its signature: the list of six fields, as in EIP-7702.
///
/// EIP-7702 bounds these fields by their widths alone. If the signature is wrong, the authorization
/// is skipped, and its transaction stays valid. So this type reads any numbers `y_parity`, `r` and
/// `s` of at most 8, 256 and 256 bits, and [`SignedAuthorization::signature`] tests their ranges.
#[derive(Debug, Clone, Copy, PartialEq, Eq)]
pub struct SignedAuthorization {
    /// The three fields that are signed.
    pub payload: Authorization,
    /// The parity of the y value of the signature's point. A parity above 1 is no signature's.
    pub y_parity: u8,
    /// The first number of the signature.
    pub r: Uint<32>,
    /// The second number of the signature.
    pub s: Uint<32>,
}

impl SignedAuthorization {
    /// Returns the signature: the parity, `r` and `s`. Returns `None` if `y_parity` is above 1, if `r`
    /// or `s` is 0 or not below the order of secp256k1's group, or if `s` is more than half of the
    /// order. EIP-7702 then skips the authorization.
    ///
    /// The signature isn't checked: EIP-7702 also skips an authorization if no key can be recovered.
    pub fn signature(&self) -> Option<(bool, NonZeroScalar, NonZeroScalar)>
        ensures some { IfSome result (λ x. HasSignature self.now × ((bit x.0 ≡ self.now.y_parity)
            × ((x.1.number ≡ self.now.r) × (x.2.number ≡ self.now.s)))) }
        ensures none { IfNone result (¬ HasSignature self.now) }
    {
        let r = NonZeroScalar::new(self.r)?;
        let s = NonZeroScalar::new(self.s)?;
        if self.y_parity > 1 || !s.is_low() {
            return None;
        }
        Some((self.y_parity == 1, r, s))
    }
}

impl Encodable for SignedAuthorization {
    ghost item = { signed_authorization.item };

    ghost fits = { signed_authorization.Fits };

    fn rlp_append(&self, s: &mut RlpStream) -> Result<(), AllocError> {
        rlp::append_fields!(s, FieldsOf(&self.payload), &self.y_parity, &self.r, &self.s)
    }
}

impl Record for SignedAuthorization {
    ghost reading = { signed_authorization.reading };

    fn decode(alloc: Global, rlp: &Rlp<'_>) -> Result<SignedAuthorization, DecoderError> {
        rlp::decode_fields!(
            alloc,
            rlp,
            SignedAuthorization {
                payload: (..),
                y_parity,
                r,
                s
            }
        )
    }

    fn put_path(alloc: Global, rlp: &Rlp<'_>, path: &mut Vec<usize>) -> Result<(), AllocError> {
        rlp::put_path_of::<Joined<Authorization, rlp::field_types!(u8, Uint<32>, Uint<32>)>>(
            alloc, rlp, path,
        )
    }

    ghost lawful = { signed_authorization.reads_strictly };
}

/// An authorization without its signature: an account allows the code of an address to run as its
/// own. The list of the three fields is signed after the byte 5, as in EIP-7702.
#[derive(Debug, Clone, Copy, PartialEq, Eq)]
pub struct Authorization {
    /// The number of the chain, or 0 for any chain.
    pub chain_id: Uint<32>,
    /// The address of the code.
    pub address: Address,
    /// The number of transactions that the account has sent before.
    pub nonce: u64,
}

impl Authorization {
    /// Returns the authorization with this signature, which isn't checked. The parity is the parity
    /// of the y value of the signature's point.
    ///
    /// EIP-7702 skips an authorization whose `s` isn't low: see [`NonZeroScalar::is_low`].
    pub fn with_signature(
        self,
        y_parity: bool,
        r: NonZeroScalar,
        s: NonZeroScalar,
    ) -> SignedAuthorization
        ensures payload { result.payload ≡ self }
        ensures y_parity { result.y_parity ≡ bit y_parity }
        ensures r { result.r ≡ r.number }
        ensures s { result.s ≡ s.number }
    {
        SignedAuthorization {
            payload: self,
            y_parity: y_parity as u8,
            r: r.number,
            s: s.number,
        }
    }
}

impl AppendFields for Authorization {
    ghost items = { authorization_fields.items };

    ghost fit = { authorization_fields.Fits };

    fn field_count(&self) -> Option<usize> {
        Some(3)
    }

    fn append_fields(&self, s: &mut RlpStream) -> Result<(), AllocError> {
        rlp::append_fields!([&self.chain_id, &self.address, &self.nonce]).append_fields(s)
    }
}

impl DecodeFields for Authorization {
    ghost reading = { authorization_fields.reading };

    fn accepts(len: usize) -> bool {
        len == 3
    }

    fn decode_fields(
        alloc: Global,
        fields: &mut Fields<'_>,
    ) -> Result<Authorization, DecoderError> {
        rlp::decode_fields!(
            fields alloc,
            fields,
            Authorization {
                chain_id,
                address,
                nonce
            }
        )
    }

    ghost possible = { authorization_fields.laws.possible };
}

impl DecodeFieldsPlaced for Authorization {
    fn put_path(
        alloc: Global,
        fields: &mut CountedFields<'_>,
        path: &mut Vec<usize>,
    ) -> Result<bool, AllocError> {
        <(Uint<32>, (Address, (u64, ()))) as DecodeFieldsPlaced>::put_path(alloc, fields, path)
    }
}

impl FixedFields for Authorization {
    fn width() -> Option<usize> {
        Some(3)
    }

    ghost takes = { authorization_fields.laws.wide refl };
}

impl Payload for Authorization {
    ghost laws = { authorization_fields.laws };

    ghost fixed = { refl };
}

impl Tagged for Authorization {
    ghost TAG = { 5 };

    const TAG: u8 = AUTHORIZATION_MAGIC;
}
