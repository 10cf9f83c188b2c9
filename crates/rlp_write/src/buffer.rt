//! The buffer of a stream, which counts the bytes that closings move, and the strings at its end.

mod counted;
mod moving;
pub mod strings;

pub use counted::Buffer;
