//! Types that are read as a codec says.

ghost use Rattle.std.specs.Prelude.{◌≡◌, ◌⊎◌, IfOk, IfErr, OnOk};
ghost use Rattle.rlp_reading.specs.{declared.error.DecoderError.TheVariants.{OutOfMemory}, Form.{Faults, Gives, IsPlaced, MayLackMemory, Reading}, Laws.{IsLawful, form_of}};
ghost use Rattle.rlp_reading.proofs.ListLaws.{read_back};

use crate::rlpin::Rlp;
use crate::traits::{Decodable, DecodePlaced, RoundTrip, StrictRead};
use rlp_reading::error::DecoderError;
use rlp_write::Encodable;
use std::alloc::{AllocError, Global};

/// A type that is read as a codec says, and says which item of its bytes is at fault. A type with
/// this trait has [`Decodable`], [`DecodePlaced`], [`RoundTrip`] and [`StrictRead`] by it.
pub trait Record: Encodable + Sized + Drop {
    /// What contracts see of a value, what each view gives, and for which views reading
    /// allocates.
    ghost reading: { Reading Self };

    /// Reads the value that the view begins with, as [`Decodable::decode`] does.
    fn decode(alloc: Global, rlp: &Rlp<'_>) -> Result<Self, DecoderError>
        ensures value { IfOk result (λ x. Gives reading rlp.now x) }
        ensures fault { IfErr result (λ e. Faults reading rlp.now e
            ⊎ ((e ≡ OutOfMemory) × MayLackMemory reading rlp.now)) };

    /// Appends the places that lead to the item at fault, as [`DecodePlaced::put_path`] does.
    fn put_path(alloc: Global, rlp: &Rlp<'_>, path: &mut Vec<usize>) -> Result<(), AllocError>
        ensures { OnOk result
            (IsPlaced (reading.read rlp.now) path.old.items path.new.items) };

    /// Each value that is written is read back, and a strict view gives no other value.
    ghost lawful: { IsLawful (form_of Self.Encodable.fits Self.Encodable.item Self.reading) };
}

impl<T: Record> Decodable for T {
    ghost reading = { T.reading };

    fn decode(alloc: Global, rlp: &Rlp<'_>) -> Result<T, DecoderError> {
        <T as Record>::decode(alloc, rlp)
    }
}

impl<T: Record> DecodePlaced for T {
    fn put_path(alloc: Global, rlp: &Rlp<'_>, path: &mut Vec<usize>) -> Result<(), AllocError> {
        <T as Record>::put_path(alloc, rlp, path)
    }
}

impl<T: Record> RoundTrip for T {
    ghost round_trip = { read_back T.lawful };
}

impl<T: Record> StrictRead for T {
    ghost strict = { T.lawful };
}
