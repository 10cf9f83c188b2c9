//! Shows Ethereum's records by the names of their fields: as lines, as JSON, or with the place of each
//! field in the bytes.
//!
//! A value whose type has [`Show`] is given to a [`Sink`], part by part. A type that is only a
//! list, such as the headers of an answer, is shown by [`Items`] of its vector, and a node record
//! by its fields. [`serve_request`] is the program: it reads the bytes of a line as a record of a
//! [`Kind`], and shows the record.
#![tactic(auto)]

mod answers;
mod blocks;
mod dump;
mod faults;
mod given;
mod guessing;
mod help;
mod input;
mod items;
mod json;
mod kind;
mod known;
pub mod laws;
mod lines;
mod messages;
mod names;
mod node_records;
mod records;
mod request;
mod serving;
mod show;
mod sink;
mod texts;
mod transactions;

pub use answers::{Answers, Form};
pub use dump::dump_of;
pub use guessing::guess;
pub use help::{HELP, UNKNOWN_ARGUMENTS, USAGE, VERSION};
pub use json::json_of;
pub use kind::{Kind, MessageKind};
pub use lines::lines_of;
pub use records::Fault;
pub use request::Request;
pub use rlp_lines::{Noted, RunFault};
pub use serving::{exit_status, refuse_arguments, run, serve_request};
pub use show::{ByForm, Items, Named, NamedIf, Object, Show, ShowFields};
pub use sink::{Bracket, BytesKind, NumberKind, Shown, Sink};
