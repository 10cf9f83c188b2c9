//! The format: definitions of items and their encodings, digits of numbers, and numbers of any
//! width. Only the crates of this repository list it. Users list `rlp`, which re-exports what users
//! need.
#![tactic(auto)]

pub mod count;
pub mod digits;
pub mod hex_digits;
pub mod uint;

pub use uint::Uint;
