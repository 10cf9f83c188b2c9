//! Blocks of Ethereum and their bodies, and what holds of all that a key signs.
#![tactic(auto)]

mod block;
mod bound;
mod hashes;
pub mod laws;
mod roots;

pub use block::{Block, BlockHashes, Body};
pub use bound::{BlockFault, BoundBlock};
pub use roots::{BodyFault, BodyRoots};
