//! Values of the types of EIP-2718.

ghost use Rattle.std.specs.Prelude.{◌≡◌, ◌⊎◌, Err, IfErr, IfOk, IsTrue, Ok, OnErr, OnOk};
ghost use Rattle.rlp.specs.{DecoderError.TheVariants.OutOfMemory, Streams.Growth.GrowsTo, Streams.Stream.{MovedGrows, put_item}};
ghost use Rattle.rlp_reading.specs.Form.{IsPlaced, fault_of};
ghost use Rattle.rlp_records.specs.{Alone.bytes_alone, Eip2718.{TypedSum, payload_item, read_payload, type_number, type_of, typed, typed_alone}};

use crate::envelope::to_envelope;
use bytes::BytesMut;
use rlp::{DecoderError, Encodable, Envelope, Rlp, RlpStream, write_envelope};
use std::alloc::{AllocError, Global};

/// A type whose values are of the types of EIP-2718, such as transactions and receipts. A value of
/// the type without a number is a list. A value of a type with a number is an envelope: the byte of
/// its type, and the encoding of its payload.
///
/// An implementation says which types there are, and writes and reads the payloads of the types. In
/// a list, an envelope is a string: [`Eip2718::append_item`], [`Eip2718::decode_item`] and
/// [`Eip2718::put_item_path`] are the bodies of the methods that write and read a value as an item.
pub trait Eip2718: Sized + Drop {
    /// The types that a value may have.
    ghost types: { TypedSum Self };

    /// Returns the number of the value's type, or `None` for the type without a number.
    fn envelope_type(&self) -> Option<u8>
        ensures { result ≡ type_number types self.now };

    /// Writes the list, or the payload of the envelope, as [`Encodable::rlp_append`] does.
    fn append_payload(&self, s: &mut RlpStream) -> Result<(), AllocError>
        ensures fits { OnOk result ((typed types).Fits self.now) }
        ensures ok { OnOk result (s.new.state ≡ put_item (payload_item types self.now) s.old.state) }
        ensures refused { OnErr result (GrowsTo s.old.state s.new.state) }
        ensures moved { MovedGrows s.old s.new };

    /// Reads a payload of the type with this number, or a value of the type without a number.
    ///
    /// Fails with `Custom("unknown transaction type")` for a number that no type has, and else with
    /// the fault of the payload.
    fn decode_payload(
        alloc: Global,
        kind: Option<u8>,
        payload: &Rlp<'_>,
    ) -> Result<Self, DecoderError>
        ensures value { IfOk result (λ x.
            (read_payload types kind payload.now).result ≡ Ok ((typed types).reading.seen x)) }
        ensures fault { IfErr result (λ e.
            ((read_payload types kind payload.now).result ≡ Err (fault_of e))
            ⊎ ((e ≡ OutOfMemory) × IsTrue (typed types).reading.takes_memory)) };

    /// Appends the places that lead to the item at fault in the payload, as
    /// [`DecodePlaced::put_path`](rlp::DecodePlaced::put_path) does.
    fn put_payload_path(
        alloc: Global,
        kind: Option<u8>,
        payload: &Rlp<'_>,
        path: &mut Vec<usize>,
    ) -> Result<(), AllocError>
        ensures { OnOk result
            (IsPlaced (read_payload types kind payload.now) path.old.items path.new.items) };

    /// Returns the number of the value's type, or 0 for the type without a number.
    final fn transaction_type(&self) -> u8
        ensures { result ≡ type_of types self.now }
    {
        match self.envelope_type() {
            Some(kind) => kind,
            None => 0,
        }
    }

    /// Returns the bytes of the standalone value, outside a list: the encoding of a value of the
    /// type without a number, or the byte of the type and the encoding of the payload.
    final fn to_bytes(&self, alloc: Global) -> Result<BytesMut, AllocError>
        ensures fits { OnOk result ((typed types).Fits self.now) }
        ensures bytes { IfOk result (λ b. b.items ≡ bytes_alone ((typed types).item self.now)) }
    {
        match self.envelope_type() {
            None => rlp::encode(alloc, &Payload(self)),
            Some(kind) => to_envelope(alloc, kind, &Payload(self)),
        }
    }

    /// Reads a value strictly from its bytes, as [`Eip2718::to_bytes`] returns them. For the bytes
    /// of a value it fails only if memory is refused.
    ///
    /// Fails with `Custom("unknown transaction type")` for a first byte below `0xc0` that is the
    /// number of no type, with `RlpIsTooShort` if there are no bytes, and else with the strict
    /// fault of the payload.
    final fn from_bytes(alloc: Global, bytes: &[u8]) -> Result<Self, DecoderError>
        ensures whole { IfOk result (λ x. (typed types).Fits x
            × (bytes.now ≡ bytes_alone ((typed types).item x))) }
        ensures value { IfOk result
            (λ x. (typed_alone types bytes.now).result ≡ Ok ((typed types).reading.seen x)) }
        ensures fault { IfErr result (λ e. ((typed_alone types bytes.now).result ≡ Err (fault_of e))
            ⊎ ((e ≡ OutOfMemory) × IsTrue (typed types).reading.takes_memory)) }
        ensures memory { (x : Self) → (typed types).Fits x
            → bytes.now ≡ bytes_alone ((typed types).item x) → IfErr result (λ e. e ≡ OutOfMemory) }
    {
        read_alone(alloc, bytes)
    }

    /// Appends the places that lead to the item at fault, as
    /// [`DecodePlaced::put_path`](rlp::DecodePlaced::put_path) does, for bytes that
    /// [`Eip2718::from_bytes`] fails on. The path of a fault in an envelope is the path in its payload.
    final fn put_path_alone(
        alloc: Global,
        bytes: &[u8],
        path: &mut Vec<usize>,
    ) -> Result<(), AllocError>
        ensures { OnOk result (IsPlaced (typed_alone types bytes.now) path.old.items path.new.items) }
    {
        let view = Rlp::new_strict(bytes);
        if view.is_list() {
            return Self::put_payload_path(alloc, None, &view, path);
        }
        match Envelope::split(bytes) {
            Ok(envelope) => {
                let payload = Rlp::new_strict(envelope.payload);
                Self::put_payload_path(alloc, Some(envelope.tag), &payload, path)
            }
            Err(_) => Ok(()),
        }
    }

    /// Writes the value as an item, as [`Encodable::rlp_append`] does.
    final fn append_item(&self, s: &mut RlpStream) -> Result<(), AllocError>
        ensures fits { OnOk result ((typed types).Fits self.now) }
        ensures ok { OnOk result (s.new.state ≡ put_item ((typed types).item self.now) s.old.state) }
        ensures refused { OnErr result (GrowsTo s.old.state s.new.state) }
        ensures moved { MovedGrows s.old s.new }
    {
        match self.envelope_type() {
            None => self.append_payload(s),
            Some(kind) => write_envelope(s, kind, &Payload(self)),
        }
    }

    /// Reads the value that the view begins with, as [`Decodable::decode`](rlp::Decodable::decode)
    /// does.
    final fn decode_item(alloc: Global, rlp: &Rlp<'_>) -> Result<Self, DecoderError>
        ensures value { IfOk result
            (λ x. ((typed types).reading.read rlp.now).result ≡ Ok ((typed types).reading.seen x)) }
        ensures fault { IfErr result
            (λ e. (((typed types).reading.read rlp.now).result ≡ Err (fault_of e))
            ⊎ ((e ≡ OutOfMemory) × IsTrue (typed types).reading.takes_memory)) }
    {
        if rlp.is_list() {
            return Self::decode_payload(alloc, None, rlp);
        }
        let envelope = Envelope::of(rlp)?;
        let payload = Rlp::new_strict(envelope.payload);
        Self::decode_payload(alloc, Some(envelope.tag), &payload)
    }

    /// Appends the places that lead to the item at fault, as
    /// [`DecodePlaced::put_path`](rlp::DecodePlaced::put_path) does.
    final fn put_item_path(
        alloc: Global,
        rlp: &Rlp<'_>,
        path: &mut Vec<usize>,
    ) -> Result<(), AllocError>
        ensures { OnOk result
            (IsPlaced ((typed types).reading.read rlp.now) path.old.items path.new.items) }
    {
        if rlp.is_list() {
            return Self::put_payload_path(alloc, None, rlp, path);
        }
        match Envelope::of(rlp) {
            Ok(envelope) => {
                let payload = Rlp::new_strict(envelope.payload);
                Self::put_payload_path(alloc, Some(envelope.tag), &payload, path)
            }
            Err(_) => Ok(()),
        }
    }
}

// The list that a value is, or the payload in its envelope.
#[derive(Clone, Copy)]
struct Payload<'a, T>(&'a T);

impl<T: Eip2718> Encodable for Payload<'_, T> {
    ghost item = { λ p. payload_item T.types p.0.now };

    ghost fits = { λ p. (typed T.types).Fits p.0.now };

    fn rlp_append(&self, s: &mut RlpStream) -> Result<(), AllocError> {
        self.0.append_payload(s)
    }
}

// Reads a value from its bytes. The clauses of `from_bytes` add that reading what `to_bytes` wrote
// can't fail.
fn read_alone<T: Eip2718>(alloc: Global, bytes: &[u8]) -> Result<T, DecoderError>
    ensures value { IfOk result
        (λ x. (typed_alone T.types bytes.now).result ≡ Ok ((typed T.types).reading.seen x)) }
    ensures fault { IfErr result (λ e. ((typed_alone T.types bytes.now).result ≡ Err (fault_of e))
        ⊎ ((e ≡ OutOfMemory) × IsTrue (typed T.types).reading.takes_memory)) }
{
    let view = Rlp::new_strict(bytes);
    if view.is_list() {
        return T::decode_payload(alloc, None, &view);
    }
    let envelope = Envelope::split(bytes)?;
    let payload = Rlp::new_strict(envelope.payload);
    T::decode_payload(alloc, Some(envelope.tag), &payload)
}
