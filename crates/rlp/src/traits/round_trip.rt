//! Types whose values are read back from their encodings.

ghost use Rattle.std.specs.Prelude.{false};
ghost use Rattle.rlp_reading.specs.Laws.{GivesOnly, IsLawful, IsReadBack, form_of};

use crate::traits::decodable::Decodable;
use rlp_write::Encodable;

/// A type whose values are read back from their encodings, even if other bytes follow.
pub trait RoundTrip: Encodable + Decodable {
    /// A slice that begins with the encoding of a value that fits gives the value, and if contracts
    /// see two values alike, the two have the same item, and if one of the two fits, so does the
    /// other.
    ghost round_trip: { IsReadBack (form_of Self.fits Self.item Self.reading) };
}

/// A type whose values are read from bytes that begin with their encodings, and from no other
/// bytes.
pub trait Scalar: RoundTrip {
    /// A lenient view gives a value only if the value fits and the bytes begin with its encoding.
    ghost exact: { GivesOnly false (form_of Self.fits Self.item Self.reading) };
}

/// A type whose values a strict view gives if and only if its bytes are the encoding of the value.
pub trait StrictRead: RoundTrip {
    /// A strict view gives a value if and only if the value fits and the bytes are its encoding.
    ghost strict: { IsLawful (form_of Self.fits Self.item Self.reading) };
}
