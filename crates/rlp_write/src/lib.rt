//! Writing: streams, and values that are appended to them. It depends on `rlp_format` and `bytes`.
//! Users list `rlp`, which re-exports every public name but the names of `header` and
//! [`append_list_encoding`], which only the `RawItem` of `rlp` may call.
#![tactic(auto)]

mod buffer;
mod closing;
mod envelope;
mod flat;
pub mod header;
mod impls;
pub mod laws;
mod open_lists;
mod stream;
mod structs;
mod traits;
mod whole_list;

pub use envelope::write_envelope;
pub use stream::{BasicEncoder, Chain, RlpStream, append_list_encoding};
pub use structs::{
    AppendFields, Each, FieldsOf, Flattened, ListOf, Optional, OptionalGroupOf, OptionalListOf,
    write_struct,
};
pub use traits::Encodable;
pub use whole_list::{encode, encode_list};

/// The encoding of the empty string.
pub const NULL_RLP: [u8; 1] = [0x80];

/// The encoding of the empty list.
pub const EMPTY_LIST_RLP: [u8; 1] = [0xc0];
