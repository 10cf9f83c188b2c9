//! The types that are written and read.

mod number;
mod option;
mod placed;
mod raw_item;
mod strings;

pub use raw_item::RawItem;
