//! Envelopes of unknown types: types that these crates don't read.

ghost use Rattle.std.specs.{Prelude.{◌≡◌, ◌⊎◌, drop, nat_eq, IfErr, IfOk}, Cmp.partial_equiv_from_equiv, Cmp.Lexicographic.{nat_list_eq_equiv, pointwise}};
ghost use Rattle.rlp.specs.DecoderError.TheVariants.{OutOfMemory};
ghost use Rattle.rlp_reading.specs.Form.{custom, fault_of};
ghost use Rattle.rlp_records.specs.OtherEnvelope.{IsOther, is_other, is_other_type, not_other, other_type};

use crate::AUTHORIZATION_MAGIC;
use rlp::DecoderError;
use std::alloc::Global;
use std::marker::Model;

/// A transaction or a receipt of an unknown type of EIP-2718, such as a deposit of the OP stack,
/// kept as its bytes.
///
/// Contracts see it as these bytes: the byte of the type, and the payload. The type is 6 to 0x7f.
/// The types 1 to 4 are known, 0 stands for a legacy transaction, whose bytes have no type, and 5
/// is [`AUTHORIZATION_MAGIC`] of EIP-7702, with which no transaction begins.
#[derive(Debug, Clone, Drop)]
pub struct OtherEnvelope {
    bytes: Vec<u8>,
}

impl Model for OtherEnvelope {
    ghost use Rattle.std.specs.Prelude.{List, ℕ};
    ghost use Rattle.rlp_records.specs.OtherEnvelope.{IsOther};

    ghost Value = { List ℕ };

    ghost view = { λ t. t.bytes.items };

    ghost invariant = { λ t. IsOther t.bytes.items };
}

impl OtherEnvelope {
    /// The transaction or receipt with these bytes, which it copies.
    ///
    /// Fails with `Custom("not an envelope of another type")` if the bytes aren't
    /// [of another type](OtherEnvelope::is_other), and with `OutOfMemory` if memory is refused.
    pub fn from_bytes(alloc: Global, bytes: &[u8]) -> Result<OtherEnvelope, DecoderError>
        ensures value { IfOk result (λ t. (t ≡ bytes.now) × IsOther bytes.now) }
        ensures fault { IfErr result (λ e. ((¬ IsOther bytes.now) × (fault_of e ≡ custom not_other))
            ⊎ ((e ≡ OutOfMemory) × IsOther bytes.now)) }
    {
        if !OtherEnvelope::is_other(bytes) {
            return Err(DecoderError::Custom("not an envelope of another type"));
        }
        let bytes = Vec::from_slice(alloc, bytes)?;
        Ok(OtherEnvelope { bytes })
    }

    /// Whether the bytes begin with the byte of another type, which is 6 to 0x7f.
    pub fn is_other(bytes: &[u8]) -> bool
        ensures { result ≡ is_other bytes.now }
    {
        match bytes {
            [kind, ..] => is_other_type(*kind),
            [] => false,
        }
    }

    /// The bytes: the byte of the type, and the payload. The hash of a transaction is the hash of
    /// these bytes.
    pub fn as_bytes(&self) -> &[u8]
        ensures bytes { result.now ≡ self.now }
        ensures other { IsOther self.now }
    {
        self.bytes.as_slice()
    }

    /// The number of the type.
    pub fn transaction_type(&self) -> u8
        ensures { result ≡ other_type self.now }
    {
        match self.as_bytes() {
            [kind, ..] => *kind,
            [] => 0,
        }
    }

    /// The bytes after the type.
    pub fn payload(&self) -> &[u8]
        ensures { result.now ≡ drop 1 self.now }
    {
        match self.as_bytes() {
            [_, payload @ ..] => payload,
            [] => &[],
        }
    }
}

/// Two envelopes are equal if their bytes are equal.
impl PartialEq for OtherEnvelope {
    ghost eq = { pointwise nat_eq };

    ghost laws = { partial_equiv_from_equiv nat_list_eq_equiv };

    fn eq(&self, other: &Self) -> bool {
        self.as_bytes() == other.as_bytes()
    }
}

impl Eq for OtherEnvelope {
    ghost laws = { nat_list_eq_equiv };
}

/// Whether the byte is the number of another type.
fn is_other_type(kind: u8) -> bool
    ensures { result ≡ is_other_type kind }
{
    kind < 0x80 && AUTHORIZATION_MAGIC < kind
}
