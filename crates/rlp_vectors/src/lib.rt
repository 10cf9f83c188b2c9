//! What rows of tests ask about the codec: about values that are read and written, streams, items and
//! texts. The tests of the codec that are no rows of text files are in `rlp_vectors_tests` and
//! `rlp_codec_tests`.
#![tactic(auto)]

mod answers;
mod appended;
mod items;
mod script;
mod typed;
mod views;
mod written;

pub use answers::note_row;
pub use rlp_rows::{files, rows};
pub use script::buffer_of;
