//! The codec for other languages: functions with C's calling convention. `bindings/c/rlp.h`
//! declares the functions and says what a caller must ensure.
#![tactic(auto)]

mod canonical;
mod encode;
mod flatten;
mod item;
mod laws;
mod records;
mod split;
mod status;
mod text;
mod tree;
mod values;
