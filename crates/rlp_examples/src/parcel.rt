//! A struct with a list and a last field that may be missing, and a law: parcels with equal items
//! have equal fields.

ghost use Rattle.std.specs.{Option.option_map, Prelude.◌≡◌, Vec.vec_items};
ghost use Rattle.rlp.specs.Format.Encoding.{IsSized};
ghost use Rattle.rlp_examples.specs.Parcel.{parcel};

use rlp::{
    Decodable, DecodePlaced, DecoderError, Encodable, ListField, ListOf, Optional, OptionalField,
    Rlp, RlpStream, RoundTrip, StrictRead,
};
use std::alloc::{AllocError, Global};

/// A parcel: the list of three fields, or of four if it has a note.
#[derive(Drop)]
pub struct Parcel {
    /// The number of the parcel.
    pub number: u64,
    /// Where the parcel goes.
    pub address: Vec<u8>,
    /// What each part weighs.
    pub weights: Vec<u64>,
    /// What is written on the parcel.
    pub note: Option<Vec<u8>>,
}

impl Encodable for Parcel {
    ghost item = { parcel.item };

    ghost fits = { parcel.Fits };

    fn rlp_append(&self, s: &mut RlpStream) -> Result<(), AllocError> {
        rlp::append_fields!(
            s,
            &self.number,
            &self.address,
            ListOf(&self.weights),
            Optional(&self.note)
        )
    }
}

impl Decodable for Parcel {
    ghost reading = { parcel.reading };

    fn decode(alloc: Global, rlp: &Rlp<'_>) -> Result<Parcel, DecoderError> {
        rlp::decode_fields!(
            alloc,
            rlp,
            Parcel {
                number,
                address,
                weights: [..],
                note: ?
            }
        )
    }
}

impl DecodePlaced for Parcel {
    fn put_path(alloc: Global, rlp: &Rlp<'_>, path: &mut Vec<usize>) -> Result<(), AllocError> {
        rlp::put_struct_path!(
            alloc, rlp, path, u64, Vec<u8>, ListField<u64>; OptionalField<Vec<u8>>
        )
    }
}

impl RoundTrip for Parcel {
    ghost round_trip = { parcel.reads_back };
}

impl StrictRead for Parcel {
    ghost strict = { parcel.reads_strictly };
}

/// A law: two parcels that are written as the same item, whose encoding is shorter than 2^64, have
/// equal fields.
pub fn items_tell_parcels(a: &Parcel, b: &Parcel)
    ensures { parcel.Fits a.now → parcel.Fits b.now → parcel.item a.now ≡ parcel.item b.now
        → IsSized (parcel.item a.now)
        → (a.now.number ≡ b.now.number)
        × (vec_items a.now.address ≡ vec_items b.now.address)
        × (vec_items a.now.weights ≡ vec_items b.now.weights)
        × (option_map vec_items a.now.note ≡ option_map vec_items b.now.note) }
{}
