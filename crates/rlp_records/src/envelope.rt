//! Envelopes of typed transactions and receipts (EIP-2718): the byte of the type, and then the
//! encoding of the payload. An envelope isn't an item.

ghost use Rattle.std.specs.Prelude.{◌≡◌, ◌∷◌, ◌⊎◌, [], Err, IfErr, IfOk, IsTrue, Ok, OnOk};
ghost use Rattle.rlp.specs.{DecoderError.TheVariants.OutOfMemory, Format.Encoding.{encoding, list_of}, Streams.Stream.initial_state, Values.Value.AreAlike};
ghost use Rattle.rlp_reading.specs.Form.{fault_of};
ghost use Rattle.rlp_records.specs.Envelope.{another_type, read_after};

use bytes::{BufMut, BytesMut};
use rlp::{AppendFields, DecoderError, Encodable, RlpStream, StrictRead, write_struct};
use std::alloc::{AllocError, Global};

/// The type of a transaction with an access list: EIP-2930.
pub const ACCESS_LIST_TYPE: u8 = 0x01;

/// The type of a transaction with two fees: EIP-1559.
pub const FEE_MARKET_TYPE: u8 = 0x02;

/// The type of a transaction with blobs: EIP-4844.
pub const BLOB_TYPE: u8 = 0x03;

/// The type of a transaction that sets code: EIP-7702.
pub const SET_CODE_TYPE: u8 = 0x04;

/// The byte that is signed before the list of the fields of an authorization, as in EIP-7702. No
/// transaction has this type.
pub const AUTHORIZATION_MAGIC: u8 = 0x05;

/// The type of a deposit of the OP stack, as in its specification.
pub const DEPOSIT_TYPE: u8 = 0x7e;

/// Returns the envelope of a value: the byte `kind` of its type, and its encoding. In EIP-2718 the
/// type is below 0x80, so the first byte of an envelope doesn't begin a list.
pub fn to_envelope<T: Encodable>(
    alloc: Global,
    kind: u8,
    payload: &T,
) -> Result<BytesMut, AllocError>
    ensures fits { OnOk result (T.fits payload.now) }
    ensures bytes { IfOk result (λ b. b.items ≡ kind ∷ encoding (T.item payload.now)) }
{
    let mut s = typed_stream(alloc, kind)?;
    s.append(payload)?;
    Ok(s.out())
}

/// Returns the byte `kind`, and the encoding of the list of these fields.
pub fn typed_list<F: AppendFields>(
    alloc: Global,
    kind: u8,
    fields: &F,
) -> Result<BytesMut, AllocError>
    ensures fits { OnOk result (F.fit fields.now) }
    ensures bytes { IfOk result
        (λ b. b.items ≡ kind ∷ encoding (list_of (F.items fields.now))) }
{
    let mut s = typed_stream(alloc, kind)?;
    write_struct(&mut s, fields)?;
    Ok(s.out())
}

// Returns a stream whose front is the byte `kind`.
fn typed_stream(alloc: Global, kind: u8) -> Result<RlpStream, AllocError>
    ensures { IfOk result (λ s. s.state ≡ initial_state (kind ∷ [])) }
{
    let mut buffer = BytesMut::new(alloc);
    buffer.put_u8(kind)?;
    Ok(RlpStream::new_with_buffer(alloc, buffer))
}

/// Reads a value strictly from its whole envelope. For the envelope of a value it fails only if
/// memory is refused.
///
/// Fails with `Custom("another type")` if the bytes are empty or begin with another type, and else
/// with the strict fault of the value.
#[tactic(auto, using(crate::proofs::AfterByte::after_other))]
pub fn from_envelope<T: StrictRead>(
    alloc: Global,
    kind: u8,
    bytes: &[u8],
) -> Result<T, DecoderError>
    ensures whole { IfOk result (λ w. T.fits w × (bytes.now ≡ kind ∷ encoding (T.item w))) }
    ensures value { IfOk result
        (λ w. (read_after kind another_type T.reading.read bytes.now).result ≡ Ok (T.reading.seen w)) }
    ensures fault { IfErr result
        (λ e. ((read_after kind another_type T.reading.read bytes.now).result ≡ Err (fault_of e))
        ⊎ ((e ≡ OutOfMemory) × IsTrue T.reading.takes_memory)) }
    ensures only { (v : T) → IfOk result (λ w. AreAlike T.item w v
        → bytes.now ≡ kind ∷ encoding (T.item v)) }
    ensures alike { (v : T) → T.fits v → bytes.now ≡ kind ∷ encoding (T.item v)
        → IfOk result (λ w. T.fits w × AreAlike T.item w v) }
    ensures memory { (v : T) → T.fits v → bytes.now ≡ kind ∷ encoding (T.item v)
        → IfErr result (λ e. e ≡ OutOfMemory) }
{
    match bytes {
        [first, payload @ ..] if *first == kind => rlp::decode_whole(alloc, payload),
        _ => Err(DecoderError::Custom("another type")),
    }
}
