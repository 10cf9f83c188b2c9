//! Values of the types of EIP-2718, also of types that aren't known.

ghost use Rattle.std.specs.Prelude.{◌≡◌, ◌⊎◌, Err, IfErr, IfOk, IsTrue, Ok, OnOk};
ghost use Rattle.rlp.specs.DecoderError.TheVariants.{OutOfMemory};
ghost use Rattle.rlp_reading.specs.Form.{IsPlaced, fault_of};
ghost use Rattle.rlp_records.specs.{Alone.bytes_alone, Hashing.IsHashOf, KnownOrOther.{any_alone, any_type, with_others}, declared.known_or_other.KnownOrOther.{KnownOrOther}};

use crate::{Eip2718, Hash, OtherEnvelope, keccak256};
use bytes::BytesMut;
use rlp::{DecoderError, Encodable, Record, Rlp, RlpStream};
use std::alloc::{AllocError, Global};

/// A transaction or a receipt of any type. A value of an unknown type is kept as its bytes, and
/// written back unchanged.
#[derive(Debug, Clone, PartialEq, Eq, Drop)]
pub enum KnownOrOther<T> {
    /// A value of the type without a number, or of a known type.
    Known(T),
    /// A value of another type, such as a deposit of the OP stack.
    Other(OtherEnvelope),
}

impl<T: Eip2718> KnownOrOther<T> {
    /// Returns the bytes of the standalone value, as [`Eip2718::to_bytes`] does.
    pub fn to_bytes(&self, alloc: Global) -> Result<BytesMut, AllocError>
        ensures fits { OnOk result ((with_others T.types).Fits self.now) }
        ensures bytes { IfOk result
            (λ b. b.items ≡ bytes_alone ((with_others T.types).item self.now)) }
    {
        match self {
            KnownOrOther::Known(value) => value.to_bytes(alloc),
            KnownOrOther::Other(value) => BytesMut::copy_from_slice(alloc, value.as_bytes()),
        }
    }

    /// Reads a value strictly from its bytes, as [`KnownOrOther::to_bytes`] returns them. For the
    /// bytes of a value it fails only if memory is refused.
    ///
    /// Fails as [`Eip2718::from_bytes`] does, but not for the type of an [`OtherEnvelope`].
    pub fn from_bytes(alloc: Global, bytes: &[u8]) -> Result<KnownOrOther<T>, DecoderError>
        ensures whole { IfOk result (λ x. (with_others T.types).Fits x
            × (bytes.now ≡ bytes_alone ((with_others T.types).item x))) }
        ensures value { IfOk result (λ x.
            (any_alone T.types bytes.now).result ≡ Ok ((with_others T.types).reading.seen x)) }
        ensures fault { IfErr result (λ e. ((any_alone T.types bytes.now).result ≡ Err (fault_of e))
            ⊎ ((e ≡ OutOfMemory) × IsTrue (with_others T.types).reading.takes_memory)) }
        ensures memory { (x : KnownOrOther T) → (with_others T.types).Fits x
            → bytes.now ≡ bytes_alone ((with_others T.types).item x)
            → IfErr result (λ e. e ≡ OutOfMemory) }
    {
        if OtherEnvelope::is_other(bytes) {
            let other = OtherEnvelope::from_bytes(alloc, bytes)?;
            return Ok(KnownOrOther::Other(other));
        }
        let known = T::from_bytes(alloc, bytes)?;
        Ok(KnownOrOther::Known(known))
    }

    /// Reads a value as [`KnownOrOther::from_bytes`] does, and returns it with the hash of the bytes,
    /// which names a transaction: what [`KnownOrOther::hash`] returns of the value. Nothing is
    /// encoded.
    ///
    /// Fails as [`KnownOrOther::from_bytes`] does.
    pub fn from_bytes_with_hash(
        alloc: Global,
        bytes: &[u8],
    ) -> Result<(KnownOrOther<T>, Hash), DecoderError>
        ensures whole { IfOk result (λ r. (with_others T.types).Fits r.0
            × (bytes.now ≡ bytes_alone ((with_others T.types).item r.0))) }
        ensures hash { IfOk result
            (λ r. IsHashOf r.1 (bytes_alone ((with_others T.types).item r.0))) }
        ensures value { IfOk result (λ r.
            (any_alone T.types bytes.now).result ≡ Ok ((with_others T.types).reading.seen r.0)) }
        ensures fault { IfErr result (λ e. ((any_alone T.types bytes.now).result ≡ Err (fault_of e))
            ⊎ ((e ≡ OutOfMemory) × IsTrue (with_others T.types).reading.takes_memory)) }
        ensures memory { (x : KnownOrOther T) → (with_others T.types).Fits x
            → bytes.now ≡ bytes_alone ((with_others T.types).item x)
            → IfErr result (λ e. e ≡ OutOfMemory) }
    {
        let value = KnownOrOther::from_bytes(alloc, bytes)?;
        Ok((value, Hash(keccak256(bytes))))
    }

    /// Appends the places that lead to the item at fault, as [`Eip2718::put_path_alone`] does, for
    /// bytes that [`KnownOrOther::from_bytes`] fails on.
    pub fn put_path_alone(
        alloc: Global,
        bytes: &[u8],
        path: &mut Vec<usize>,
    ) -> Result<(), AllocError>
        ensures { OnOk result (IsPlaced (any_alone T.types bytes.now) path.old.items path.new.items) }
    {
        T::put_path_alone(alloc, bytes, path)
    }

    /// Returns the hash of the bytes that [`KnownOrOther::to_bytes`] returns, which names a
    /// transaction. Fails as [`KnownOrOther::to_bytes`] does.
    pub fn hash(&self, alloc: Global) -> Result<Hash, AllocError>
        ensures fits { OnOk result ((with_others T.types).Fits self.now) }
        ensures hash { IfOk result
            (λ h. IsHashOf h (bytes_alone ((with_others T.types).item self.now))) }
    {
        match self {
            KnownOrOther::Known(value) => {
                let bytes = value.to_bytes(alloc)?;
                Ok(Hash(keccak256(bytes.as_slice())))
            }
            KnownOrOther::Other(value) => Ok(Hash(keccak256(value.as_bytes()))),
        }
    }

    /// Returns the number of the type, as in EIP-2718, or 0 for the type without a number.
    pub fn transaction_type(&self) -> u8
        ensures { result ≡ any_type T.types self.now }
    {
        match self {
            KnownOrOther::Known(value) => value.transaction_type(),
            KnownOrOther::Other(value) => value.transaction_type(),
        }
    }
}

impl<T: Eip2718> Encodable for KnownOrOther<T> {
    ghost item = { (with_others T.types).item };

    ghost fits = { (with_others T.types).Fits };

    fn rlp_append(&self, s: &mut RlpStream) -> Result<(), AllocError> {
        match self {
            KnownOrOther::Known(value) => value.append_item(s),
            KnownOrOther::Other(value) => value.as_bytes().rlp_append(s),
        }
    }
}

/// Reading fails as [`Eip2718::decode_item`] does, but not for the string of an [`OtherEnvelope`].
impl<T: Eip2718> Record for KnownOrOther<T> {
    ghost reading = { (with_others T.types).reading };

    fn decode(alloc: Global, rlp: &Rlp<'_>) -> Result<KnownOrOther<T>, DecoderError> {
        match rlp.decoder().string() {
            Ok(bytes) if OtherEnvelope::is_other(bytes) => {
                let other = OtherEnvelope::from_bytes(alloc, bytes)?;
                Ok(KnownOrOther::Other(other))
            }
            _ => {
                let known = T::decode_item(alloc, rlp)?;
                Ok(KnownOrOther::Known(known))
            }
        }
    }

    fn put_path(alloc: Global, rlp: &Rlp<'_>, path: &mut Vec<usize>) -> Result<(), AllocError> {
        T::put_item_path(alloc, rlp, path)
    }

    ghost lawful = { (with_others T.types).reads_strictly };
}
