//! Custom types that write themselves by calls of a stream. The known mistakes of such types are tried
//! here, since a crate with known mistakes is proved once more for them.
#![tactic(auto)]

mod half_written;
mod nonce;
mod pair;

pub use half_written::HalfWritten;
pub use nonce::Nonce;
pub use pair::{Pair, pair_back};
