//! The trait of types that are written.

mod encodable;

pub use encodable::Encodable;
