//! Messages of any capability of RLPx with their ids, and the messages of `p2p`, which begin, keep
//! and end a connection between Ethereum's clients.
//!
//! [`Message`] writes and reads the messages of a capability with their ids, and
//! [`Protocol::offset`] finds the offset that a connection gives to the ids. The types are the
//! bodies of messages, and [`P2pMessage`] is a message of any number of `p2p`. This crate neither
//! compresses messages nor makes frames.
#![tactic(auto)]

mod disconnect;
mod hello;
pub mod laws;
mod message;
mod offsets;
mod p2p_message;

pub use disconnect::{Disconnect, DisconnectReason};
pub use hello::{Capability, FurtherItem, Hello, NodeId};
pub use message::{Message, MessageBounds, Numbered, decode_within};
pub use offsets::Protocol;
pub use p2p_message::{P2pMessage, Ping, Pong};
