//! Reading: definitions of headers, views and values, and the functions that read headers, items
//! and strings from a slice and walk over its items. It depends on `rlp_format`, and only the
//! crates of this repository list it. Users list `rlp`, which re-exports the definitions.
#![tactic(auto)]

pub mod depth;
pub mod error;
pub mod flat;
pub mod framed;
pub mod header;
pub mod items;
pub mod laws;
pub mod numbers;
pub mod prototype;
pub mod skipping;
pub mod string_reading;
pub mod text;
pub mod walking;

pub use error::DecoderError;
pub use flat::{FlatItem, TreeFault};
pub use header::PayloadInfo;
pub use prototype::Prototype;
