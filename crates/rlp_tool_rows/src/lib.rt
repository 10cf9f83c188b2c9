//! What rows of tests ask about `rlp_tool`. [`devices`] are the readers and writers of its runs.
#![tactic(auto)]

pub mod devices;
mod sweeps;
mod tool;

pub use tool::note_tool_row;
