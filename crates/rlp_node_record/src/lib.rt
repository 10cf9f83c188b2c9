//! Node records, as in EIP-778.
#![tactic(auto)]

pub mod laws;
mod lookup;
mod node_fields;
mod node_record;
mod text;
mod values;

pub use node_fields::{NodeFields, NodePair};
pub use node_record::NodeRecord;
