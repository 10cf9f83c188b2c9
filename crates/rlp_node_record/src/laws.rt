//! What holds of the texts of node records: each record is read back from its text, and different
//! records have different texts.

ghost use Rattle.std.specs.Prelude.{◌≡◌, IfErr, IfOk};
ghost use Rattle.rlp.specs.DecoderError.TheVariants.{OutOfMemory};
ghost use Rattle.rlp_node_record.specs.{NodeFields.node_fields, NodeRecord.IsNodeRecord, NodeText.node_text, declared.node_fields.NodeFields.NodeFields};

use crate::NodeRecord;
use rlp::DecoderError;
use std::alloc::Global;

/// Writes a node record as text, and reads it back: the record that is read has the same fields.
/// The call fails only if memory is refused. `only` says that records with different fields have
/// different texts, so a text names one record.
pub fn node_text_round_trips(alloc: Global, node: &NodeRecord) -> Result<NodeRecord, DecoderError>
    ensures same { IfOk result (λ r. node_fields.reading.seen r
        ≡ node_fields.reading.seen node.now) }
    ensures memory { IfErr result (λ e. e ≡ OutOfMemory) }
    ensures only { (other : NodeFields) → IsNodeRecord other → node_text other ≡ node_text node.now
        → node_fields.reading.seen other ≡ node_fields.reading.seen node.now }
{
    let _fields = node.fields();
    let text = node.to_text(alloc)?;
    NodeRecord::from_text(alloc, text.as_str())
}
