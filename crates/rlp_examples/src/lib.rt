//! Custom types that `rlp` writes and reads, and functions that call `rlp`. All of them are proved
//! from the public contracts and from the lemmas for authors of types.
#![tactic(auto)]

mod appends;
mod inner;
mod message;
mod nest;
mod odd;
mod parcel;
mod renumber;
mod row;
mod trio;
mod uses;

pub use appends::bytes_of_three;
pub use inner::Inner;
pub use message::Message;
pub use nest::Nest;
pub use odd::Odd;
pub use parcel::{Parcel, items_tell_parcels};
pub use renumber::{received, renumbered};
pub use row::Row;
pub use trio::{Refusing, Trio};
pub use uses::{append_by_stream, append_each, chain_and_encoder, drained, first_and_text, nested};
