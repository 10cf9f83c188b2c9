//! The types that are written and read.

mod boolean;
mod number;
mod option;
mod strings;
