//! Lines of input and the answers to them, and bytes and numbers as digits.
#![tactic(auto)]

mod answering;
mod decoding;
mod digits;
mod line;
mod noted;
mod serving;
mod status;

pub use answering::LineAnswers;
pub use decoding::{are_pairs, put_bytes};
pub use digits::{push_bytes, read_bytes, read_number, without_prefix};
pub use line::without_carriage_return;
pub use noted::Noted;
pub use serving::{RunFault, answer_lines, answer_text, write_and_flush};
pub use status::exit_status;
