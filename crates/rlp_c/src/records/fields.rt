//! The fields of records. A record is tested by the list of its fields, with the types of its
//! codec, but no value is kept, and nothing is allocated.

ghost use Rattle.std.specs.Prelude.{◌≡◌, false, Err, MatchResult, None, Ok, OnOk};
ghost use Rattle.rlp_reading.specs.{Format.Framing.strict_list_fault, Views.View.strict_view_of, Form.{fault_of, struct_reading}};
ghost use Rattle.rlp_c.specs.{Fields.{numbered, record_result}, Records.most_fields};

use super::unkept::{AnyString, EachOf, Joined, Step, StructOf, TestFields, Unkept};
use rlp::{DecoderError, OptionalGroup, Rlp, Uint, decode_struct};
use rlp_headers::{Bloom, London};
use rlp_records::{Address, Hash};
use rlp_transactions::{NonZeroScalar, Recipient, SignedAuthorization};
use std::alloc::Global;

/// The types of fields as steps. Behind the `;` is the type of what comes after the fields.
macro_rules! steps {
    ($type:ty; $last:ty) => {
        Step<$type, $last>
    };
    ($type:ty, $($others:tt)*) => {
        Step<$type, steps!($($others)*)>
    };
}

/// A record of Ethereum: a transaction without the byte of its type, or a header of a block.
#[derive(Clone, Copy)]
pub enum Record {
    Legacy,
    AccessListPayload,
    FeeMarketPayload,
    BlobPayload,
    SetCodePayload,
    Header,
}

type U256 = Uint<32>;

/// A list of accounts and the keys of their storage.
type AccessList = EachOf<StructOf<Step<Address, Step<EachOf<Hash>, ()>>>>;

/// The last three fields of a transaction.
type Signature<V> = Step<V, Step<NonZeroScalar, Step<NonZeroScalar, ()>>>;

/// The most fields that a record has.
pub(crate) fn most_fields(list: Record) -> usize
    ensures { result ≡ most_fields list }
{
    match list {
        Record::Legacy => 9,
        Record::AccessListPayload => 11,
        Record::FeeMarketPayload => 12,
        Record::BlobPayload => 14,
        Record::SetCodePayload => 13,
        Record::Header => 23,
    }
}

/// Tests whether the bytes are a record. It fails with the fault of the codec, and with the number of
/// the field that has the fault, from 1 on, or 0 for the record as a whole.
pub(crate) fn check_record(
    alloc: Global,
    list: Record,
    bytes: &[u8],
) -> Result<(), (usize, DecoderError)>
    ensures exact { MatchResult result (λ x. record_result list (strict_view_of bytes.now) ≡ Ok x)
        (λ e. record_result list (strict_view_of bytes.now) ≡ Err (e.0, fault_of e.1)) }
    ensures list { OnOk result (strict_list_fault bytes.now ≡ None) }
{
    match list {
        Record::Legacy => check_fields::<
            Joined<steps!(u64, U256, u64, Recipient, U256, AnyString; ()), Signature<U256>>,
        >(alloc, bytes),
        Record::AccessListPayload => check_fields::<
            Joined<
                steps!(u64, u64, U256, u64, Recipient, U256, AnyString, AccessList; ()),
                Signature<bool>,
            >,
        >(alloc, bytes),
        Record::FeeMarketPayload => check_fields::<
            Joined<
                steps!(u64, u64, U256, U256, u64, Recipient, U256, AnyString, AccessList; ()),
                Signature<bool>,
            >,
        >(alloc, bytes),
        Record::BlobPayload => check_fields::<
            Joined<
                steps!(
                    u64, u64, U256, U256, u64, Address, U256, AnyString, AccessList,
                    U256, EachOf<Hash>; ()
                ),
                Signature<bool>,
            >,
        >(alloc, bytes),
        Record::SetCodePayload => check_fields::<
            Joined<
                steps!(
                    u64, u64, U256, U256, u64, Address, U256, AnyString, AccessList,
                    EachOf<SignedAuthorization>; ()
                ),
                Signature<bool>,
            >,
        >(alloc, bytes),
        Record::Header => check_fields::<
            steps!(
                Hash, Hash, Address, Hash, Hash, Hash, Bloom, U256, u64, u64, u64, u64,
                AnyString, Hash, [u8; 8]; OptionalGroup<London>
            ),
        >(alloc, bytes),
    }
}

/// Tests whether the bytes are a list of these fields.
#[tactic(auto, using(crate::proofs::Testing::placed))]
fn check_fields<F: TestFields>(alloc: Global, bytes: &[u8]) -> Result<(), (usize, DecoderError)>
    requires { F.tested.takes_memory ≡ false }
    ensures exact { MatchResult result
        (λ x. numbered ((struct_reading F.tested).read (strict_view_of bytes.now)) ≡ Ok x)
        (λ e. numbered ((struct_reading F.tested).read (strict_view_of bytes.now))
        ≡ Err (e.0, fault_of e.1)) }
    ensures list { OnOk result (strict_list_fault bytes.now ≡ None) }
{
    match decode_struct::<Unkept<F>>(alloc, &Rlp::new_strict(bytes)) {
        Ok(_) => Ok(()),
        Err(fault) => match fault.place {
            Some(place) => Err((place + 1, fault.fault)),
            None => Err((0, fault.fault)),
        },
    }
}
