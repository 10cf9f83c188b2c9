//! Which pair of a node record has a key.

ghost use Rattle.std.specs.{Option.option_copied, Prelude.{◌≡◌, ◌↔◌, IsTrue}};
ghost use Rattle.rlp_node_record.specs.NodeKeys.{HasId, value_among};

use crate::node_fields::NodePair;
use rlp::RawItem;

/// The value of the first pair with this key, or `None` if no pair has it.
pub(crate) fn value_among<'a>(pairs: &'a [NodePair], key: &[u8]) -> Option<&'a RawItem>
    ensures { option_copied result ≡ value_among key.now pairs.now }
{
    let mut left = pairs;
    while let [pair, others @ ..] = left {
        if pair.key.as_slice() == key {
            return Some(&pair.value);
        }
        left = others;
    }
    None
}

/// Returns whether `id` is one of the keys.
#[tactic(auto, unfolding(crate::specs::NodeKeys::HasId))]
pub(crate) fn has_id(pairs: &[NodePair]) -> bool
    ensures { IsTrue result ↔ HasId pairs.now }
{
    value_among(pairs, b"id").is_some()
}
