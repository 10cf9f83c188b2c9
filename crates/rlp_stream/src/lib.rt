//! Items of a binary stream, read one at a time: at most one item is in memory.
#![tactic(auto)]

mod counting;
mod fault;
mod item;
pub mod laws;
mod pieces;

pub use counting::{Count, count_items};
pub use fault::ReadFault;
pub use item::read_item;
