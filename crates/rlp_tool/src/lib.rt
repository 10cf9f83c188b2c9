//! A tool that answers lines, and makes calls of a stream from values or from text.
#![tactic(auto)]

mod alike;
mod answer;
mod building;
mod calls;
pub mod laws;
mod making;
mod script;
mod serving;

pub use alike::{finish_alike, finished_buffer};
pub use building::{BuildFault, Built, build};
pub use calls::StreamCall;
pub use rlp_lines::{Noted, RunFault, exit_status};
pub use script::{ScriptFault, read_calls};
pub use serving::run;
