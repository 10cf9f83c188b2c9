//! Values that are sent after a byte that says their type.

ghost use Rattle.std.specs.Prelude.{◌≡◌, ◌∷◌, ◌⊎◌, ℕ, Err, IfErr, IfOk, IsTrue, Ok, OnOk};
ghost use Rattle.rlp.specs.{DecoderError.TheVariants.OutOfMemory, Format.Encoding.encoding};
ghost use Rattle.rlp_reading.specs.Form.{fault_of};
ghost use Rattle.rlp_records.specs.Envelope.{another_type, read_after};

use crate::envelope::{from_envelope, to_envelope};
use bytes::BytesMut;
use rlp::{DecoderError, StrictRead};
use std::alloc::{AllocError, Global};

/// A value that is sent as a byte that says its type, and its encoding, as in EIP-2718.
pub trait Enveloped: StrictRead {
    /// The byte.
    ghost TYPE: { ℕ };

    /// The byte.
    const TYPE: u8;

    /// Returns the bytes that are sent: the byte of the type, and the encoding.
    final fn to_bytes(&self, alloc: Global) -> Result<BytesMut, AllocError>
        ensures fits { OnOk result (Self.fits self.now) }
        ensures bytes { IfOk result (λ b. b.items ≡ TYPE ∷ encoding (Self.item self.now)) }
    {
        to_envelope(alloc, Self::TYPE, self)
    }

    /// Reads a value strictly from its bytes, as `to_bytes` returns them. For the bytes of a value
    /// it fails only if memory is refused.
    ///
    /// Fails with `Custom("another type")` if the bytes are empty or begin with another byte, and
    /// else with the strict fault of the value.
    final fn from_bytes(alloc: Global, bytes: &[u8]) -> Result<Self, DecoderError>
        ensures whole { IfOk result
            (λ x. Self.fits x × (bytes.now ≡ TYPE ∷ encoding (Self.item x))) }
        ensures value { IfOk result (λ x.
            (read_after TYPE another_type Self.reading.read bytes.now).result
            ≡ Ok (Self.reading.seen x)) }
        ensures fault { IfErr result (λ e.
            ((read_after TYPE another_type Self.reading.read bytes.now).result ≡ Err (fault_of e))
            ⊎ ((e ≡ OutOfMemory) × IsTrue Self.reading.takes_memory)) }
        ensures memory { (x : Self) → Self.fits x
            → bytes.now ≡ TYPE ∷ encoding (Self.item x)
            → IfErr result (λ e. e ≡ OutOfMemory) }
    {
        from_envelope(alloc, Self::TYPE, bytes)
    }
}
