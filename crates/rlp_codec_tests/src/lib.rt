//! The tests of the codec that don't call `rlp_vectors`: all inputs of two bytes, large inputs, the
//! examples, and calls with all memory refused. They call each law of the codec.
#![tactic(auto)]

#[cfg(test)]
mod large;
#[cfg(test)]
mod laws;
#[cfg(test)]
mod never;
#[cfg(test)]
mod refused;
#[cfg(test)]
mod two_bytes;
#[cfg(test)]
mod uses;
#[cfg(test)]
mod views;
