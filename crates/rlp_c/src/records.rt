//! The records of Ethereum: where their fields are.

mod calls;
mod fields;
mod unkept;
