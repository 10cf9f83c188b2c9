//! Reading: views of bytes.

mod counted_fields;
mod decoder;
mod display;
mod envelope;
mod fields;
mod iter;
mod rlp;

pub use counted_fields::CountedFields;
pub use decoder::BasicDecoder;
pub(crate) use decoder::{may_end_at, short_string};
pub use envelope::Envelope;
pub use fields::Fields;
pub use iter::RlpIterator;
pub use rlp::Rlp;
