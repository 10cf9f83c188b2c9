//! Payloads with their signatures and without.

ghost use Rattle.std.specs.Prelude.{ℕ, ◌↔◌, ◌∷◌, ◌≡◌, ◌⊎◌, Bool, Err, IfErr, IfOk, IsTrue, Ok, OnOk, true};
ghost use Rattle.rlp.specs.{Codec.{codec_of, lawful_fields}, DecoderError.TheVariants.OutOfMemory, Format.Encoding.{encoding, list_of}};
ghost use Rattle.rlp_reading.specs.{Form.{fault_of, held_reading, struct_reading}, Laws.{AreLawful, fields_of}};
ghost use Rattle.rlp_records.specs.Envelope.{another_type, read_after};
ghost use Rattle.rlp_transactions.specs.{Secp256k1.IsLow, Signed.{SignedFits, listed, signed, signed_item, signed_reading}, declared.signed.Signed.Signed};

use crate::NonZeroScalar;
use bytes::BytesMut;
use rlp::{
    AppendFields, Decodable, DecodeFieldsPlaced, DecodePlaced, DecoderError, Encodable, FieldsOf,
    FixedFields, Joined, Rlp, RlpStream, RoundTrip, StrictRead,
};
use rlp_records::{from_envelope, to_envelope, typed_list};
use std::alloc::{AllocError, Global};

/// The fields of a record before its signature. A type with this trait is the record before it is
/// signed. [`Signed`] is a transaction with its signature, and
/// [`SignedAuthorization`](crate::SignedAuthorization) is an authorization with its signature.
pub trait Payload: AppendFields + FixedFields + Drop {
    /// What is known of the fields, so that a list that begins with them is read back.
    ghost laws: { AreLawful (fields_of Self.fit Self.items Self.reading) };

    /// The fields are always the same number of items.
    ghost fixed: { Self.reading.is_fixed ≡ true };
}

/// A payload that is signed as a byte, which says what the payload is, and then the list of its
/// fields.
pub trait Tagged: Payload {
    /// The byte.
    ghost TAG: { ℕ };

    /// The byte: the type of a transaction, or the MAGIC of EIP-7702 before an authorization.
    const TAG: u8;

    /// Returns the bytes that are signed: the byte of the payload, and the encoding of the list of
    /// its fields.
    final fn signing_payload(&self, alloc: Global) -> Result<BytesMut, AllocError>
        ensures fits { OnOk result (Self.fit self.now) }
        ensures bytes { IfOk result
            (λ b. b.items ≡ TAG ∷ encoding (list_of (Self.items self.now))) }
    {
        typed_list(alloc, Self::TAG, &FieldsOf(self))
    }

    /// Reads a payload strictly from the bytes that are signed. For the bytes of a payload it fails
    /// only if memory is refused.
    ///
    /// Fails with `Custom("another type")` if the bytes are empty or begin with another byte, and
    /// else with the strict fault of the list.
    final fn from_signing_payload(alloc: Global, bytes: &[u8]) -> Result<Self, DecoderError>
        ensures whole { IfOk result
            (λ p. Self.fit p × (bytes.now ≡ TAG ∷ encoding (list_of (Self.items p)))) }
        ensures value { IfOk result (λ p. (read_after TAG another_type
            (struct_reading Self.reading).read bytes.now).result ≡ Ok (Self.reading.seen p)) }
        ensures fault { IfErr result (λ e. ((read_after TAG another_type
            (struct_reading Self.reading).read bytes.now).result ≡ Err (fault_of e))
            ⊎ ((e ≡ OutOfMemory) × IsTrue Self.reading.takes_memory)) }
        ensures memory { (p : Self) → Self.fit p
            → bytes.now ≡ TAG ∷ encoding (list_of (Self.items p))
            → IfErr result (λ e. e ≡ OutOfMemory) }
    {
        match from_envelope(alloc, Self::TAG, bytes) {
            Ok(Listed(payload)) => Ok(payload),
            Err(fault) => Err(fault),
        }
    }
}

/// A payload whose byte is a type of EIP-2718, which is also the first byte of the signed
/// transaction.
pub trait TypedTransaction: Tagged {
    /// Returns the transaction with this signature, which isn't checked. The parity is the parity of
    /// the y value of the signature's point.
    final fn with_signature(
        self,
        y_parity: bool,
        r: NonZeroScalar,
        s: NonZeroScalar,
    ) -> Signed<Self, bool>
        ensures payload { result.payload ≡ self }
        ensures v { result.v ≡ y_parity }
        ensures r { result.r ≡ r }
        ensures s { result.s ≡ s }
    {
        Signed {
            payload: self,
            v: y_parity,
            r,
            s,
        }
    }
}

/// The payload of a transaction with its signature: the list of its fields and then of the three
/// numbers of the signature.
///
/// The signature isn't checked.
#[derive(Debug, Clone, PartialEq, Eq, Drop)]
pub struct Signed<T, V = bool> {
    /// The fields that are signed.
    pub payload: T,
    /// Which of two points belongs to the signature. In transactions of types 1 to 4 this is the
    /// parity `y_parity`: 0 is `false` and 1 is `true`, and reading fails for other numbers. In a
    /// transaction without a type it is 27 or 28, or with EIP-155 twice the number of the chain plus
    /// 35 or 36.
    pub v: V,
    /// The first number of the signature.
    pub r: NonZeroScalar,
    /// The second number of the signature.
    pub s: NonZeroScalar,
}

impl<T, V> Signed<T, V> {
    /// Returns the fields that are signed, and the numbers `v`, `r` and `s` of the signature.
    pub fn into_parts(self) -> (T, V, NonZeroScalar, NonZeroScalar)
        ensures { (result.0 ≡ self.payload) × ((result.1 ≡ self.v)
            × ((result.2 ≡ self.r) × (result.3 ≡ self.s))) }
    {
        (self.payload, self.v, self.r, self.s)
    }

    /// Whether the second number is low, as EIP-2 demands of a transaction's signature.
    pub fn has_low_s(&self) -> bool
        ensures { IsTrue result ↔ IsLow self.now.s.number }
    {
        self.s.is_low()
    }
}

impl<T: TypedTransaction> Signed<T, bool> {
    /// Returns the bytes of the standalone transaction: the byte of its type, and the encoding of
    /// the list, as in EIP-2718.
    pub fn to_bytes(&self, alloc: Global) -> Result<BytesMut, AllocError>
        ensures fits { OnOk result (⟦<Signed<T, bool> as Encodable>⟧.fits self.now) }
        ensures bytes { IfOk result
            (λ b. b.items ≡ T.TAG ∷ encoding (⟦<Signed<T, bool> as Encodable>⟧.item self.now)) }
    {
        to_envelope(alloc, T::TAG, self)
    }

    /// Reads a transaction of this type strictly from its bytes, as `to_bytes` returns them. For
    /// the bytes of a transaction it fails only if memory is refused.
    ///
    /// Fails with `Custom("another type")` if the bytes are empty or begin with another byte, and
    /// else with the strict fault of the list.
    pub fn from_bytes(alloc: Global, bytes: &[u8]) -> Result<Signed<T, bool>, DecoderError>
        ensures whole { IfOk result (λ x. ⟦<Signed<T, bool> as Encodable>⟧.fits x
            × (bytes.now ≡ T.TAG ∷ encoding (⟦<Signed<T, bool> as Encodable>⟧.item x))) }
        ensures value { IfOk result (λ x. (read_after T.TAG another_type
            ⟦<Signed<T, bool> as Decodable>⟧.reading.read bytes.now).result
            ≡ Ok (⟦<Signed<T, bool> as Decodable>⟧.reading.seen x)) }
        ensures fault { IfErr result (λ e. ((read_after T.TAG another_type
            ⟦<Signed<T, bool> as Decodable>⟧.reading.read bytes.now).result ≡ Err (fault_of e))
            ⊎ ((e ≡ OutOfMemory) × IsTrue ⟦<Signed<T, bool> as Decodable>⟧.reading.takes_memory)) }
        ensures memory { (x : Signed T Bool) → ⟦<Signed<T, bool> as Encodable>⟧.fits x
            → bytes.now ≡ T.TAG ∷ encoding (⟦<Signed<T, bool> as Encodable>⟧.item x)
            → IfErr result (λ e. e ≡ OutOfMemory) }
    {
        from_envelope(alloc, T::TAG, bytes)
    }
}

impl<T: Payload, V: Encodable> Encodable for Signed<T, V> {
    ghost item = { signed_item T.items V.item };

    ghost fits = { SignedFits T.fit V.fits };

    fn rlp_append(&self, s: &mut RlpStream) -> Result<(), AllocError> {
        rlp::append_fields!(s, FieldsOf(&self.payload), &self.v, &self.r, &self.s)
    }
}

impl<T: Payload, V: Decodable> Decodable for Signed<T, V> {
    ghost reading = { signed_reading T.reading V.reading };

    fn decode(alloc: Global, rlp: &Rlp<'_>) -> Result<Signed<T, V>, DecoderError> {
        rlp::decode_fields!(
            alloc,
            rlp,
            Signed {
                payload: (..),
                v,
                r,
                s
            }
        )
    }
}

impl<T: Payload + DecodeFieldsPlaced, V: DecodePlaced> DecodePlaced for Signed<T, V> {
    fn put_path(alloc: Global, rlp: &Rlp<'_>, path: &mut Vec<usize>) -> Result<(), AllocError> {
        rlp::put_path_of::<Joined<T, rlp::field_types!(V, NonZeroScalar, NonZeroScalar)>>(
            alloc, rlp, path,
        )
    }
}

impl<T: Payload, V: StrictRead> RoundTrip for Signed<T, V> {
    ghost round_trip = { (signed (lawful_fields (fields_of T.fit T.items T.reading) T.laws)
        T.fixed (codec_of V.fits V.item V.reading V.strict)).reads_back };
}

impl<T: Payload, V: StrictRead> StrictRead for Signed<T, V> {
    ghost strict = { (signed (lawful_fields (fields_of T.fit T.items T.reading) T.laws)
        T.fixed (codec_of V.fits V.item V.reading V.strict)).reads_strictly };
}

// A payload as the list of its fields, which is read after the byte of its type.
#[derive(Drop)]
pub(crate) struct Listed<T>(pub T);

impl<T: Payload> Encodable for Listed<T> {
    ghost item = { λ u. list_of (T.items u.0) };

    ghost fits = { λ u. T.fit u.0 };

    fn rlp_append(&self, s: &mut RlpStream) -> Result<(), AllocError> {
        rlp::append_fields!(s, FieldsOf(&self.0))
    }
}

impl<T: Payload> Decodable for Listed<T> {
    ghost reading = { held_reading T.reading.takes_memory (λ u. u.0) (struct_reading T.reading) };

    fn decode(alloc: Global, rlp: &Rlp<'_>) -> Result<Listed<T>, DecoderError> {
        match rlp::decode_struct(alloc, rlp) {
            Ok(payload) => Ok(Listed(payload)),
            Err(fault) => Err(fault.fault),
        }
    }
}

impl<T: Payload + DecodeFieldsPlaced> DecodePlaced for Listed<T> {
    fn put_path(alloc: Global, rlp: &Rlp<'_>, path: &mut Vec<usize>) -> Result<(), AllocError> {
        rlp::put_path_of::<T>(alloc, rlp, path)
    }
}

impl<T: Payload> RoundTrip for Listed<T> {
    ghost round_trip = { (listed (lawful_fields (fields_of T.fit T.items T.reading) T.laws)).reads_back };
}

impl<T: Payload> StrictRead for Listed<T> {
    ghost strict = { (listed (lawful_fields (fields_of T.fit T.items T.reading) T.laws)).reads_strictly };
}
