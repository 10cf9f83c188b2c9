//! A generic list type.

ghost use Rattle.std.specs.{Prelude.{[], ◌∷◌, ⊤, All, map}, Vec.vec_items};
ghost use Rattle.rlp.specs.{Format.Encoding.list_of, Codec.codec_of, Laws.form_of};
ghost use Rattle.rlp_examples.specs.{Nest.{nest, nest_reading}, NestLaws.nest_read_back};

use rlp::{
    Decodable, DecodePlaced, DecoderError, Encodable, ListField, ListOf, Rlp, RlpStream, RoundTrip,
    StrictRead,
};
use std::alloc::{AllocError, Global};

/// A list whose one item is the list of the values.
#[derive(Drop)]
pub struct Nest<T>(pub Vec<T>);

impl<T: Encodable> Encodable for Nest<T> {
    ghost item = { λ n. list_of (list_of (map T.item (vec_items n.0)) ∷ []) };

    ghost fits = { λ n. All T.fits (vec_items n.0) × ⊤ };

    fn rlp_append(&self, s: &mut RlpStream) -> Result<(), AllocError> {
        rlp::append_fields!(s, ListOf(&self.0))
    }
}

impl<T: Decodable> Decodable for Nest<T> {
    ghost reading = { nest_reading T.reading };

    fn decode(alloc: Global, rlp: &Rlp<'_>) -> Result<Nest<T>, DecoderError> {
        rlp::decode_fields!(alloc, rlp, Nest(values: [..]))
    }
}

impl<T: DecodePlaced> DecodePlaced for Nest<T> {
    fn put_path(alloc: Global, rlp: &Rlp<'_>, path: &mut Vec<usize>) -> Result<(), AllocError> {
        rlp::put_struct_path!(alloc, rlp, path, ListField<T>)
    }
}

impl<T: RoundTrip> RoundTrip for Nest<T> {
    ghost round_trip = { nest_read_back (form_of T.fits T.item T.reading) T.round_trip };
}

impl<T: StrictRead> StrictRead for Nest<T> {
    ghost strict = { (nest (codec_of T.fits T.item T.reading T.strict)).reads_strictly };
}
