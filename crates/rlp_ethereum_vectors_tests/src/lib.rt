//! The tests of the records of Ethereum and of `rlp_show` that rows in text files can't ask. They call
//! each law.
#![tactic(auto)]

#[cfg(test)]
mod bounded;
#[cfg(test)]
mod laws;
#[cfg(test)]
mod values;
