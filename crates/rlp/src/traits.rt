//! The traits of types that are read.

mod decodable;
mod placed;
mod record;
mod round_trip;

pub use decodable::Decodable;
pub(crate) use placed::put_item_path;
pub use placed::{DecodePlaced, PlacedFault, decode_placed, put_list_path};
pub use record::Record;
pub use round_trip::{RoundTrip, Scalar, StrictRead};
