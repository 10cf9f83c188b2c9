//! The tests of the codec and of `rlp_tool` that rows in text files can't ask: calls with all memory
//! refused, the tests that the Rust crate has too, and all small trees. The other tests of
//! the codec are in `rlp_codec_tests`.
#![tactic(auto)]

#[cfg(test)]
mod carried;
#[cfg(test)]
mod items;
#[cfg(test)]
mod laws;
#[cfg(test)]
mod limits;
#[cfg(test)]
mod never;
#[cfg(test)]
mod refused;
#[cfg(test)]
mod tables;
#[cfg(test)]
mod tool;
#[cfg(test)]
mod trees;
#[cfg(test)]
mod views;
