//! Nodes of the trie that are kept in their parents.

ghost use Rattle.std.specs.Prelude.{◌≡◌, ◌<◌, IfErr, IfOk, length, true};
ghost use Rattle.rlp.specs.Format.Framing.{begins_as_list};
ghost use Rattle.rlp_trie.specs.Inline.{IsInlineFault};

use rlp::{DecoderError, RawItem};
use std::alloc::AllocError;

/// A node of the trie that is kept in its parent: a list that has fewer than 32 bytes with its
/// header. It is canonical, since each [`RawItem`] is. What is in the list isn't tested further.
#[derive(Debug, PartialEq, Eq, Drop)]
pub struct InlineNode {
    /// The list.
    pub item: RawItem,
    pub ghost is_list: { begins_as_list item ≡ true },
    pub ghost is_short: { length item < 32 },
}

impl InlineNode {
    /// The node that this item is. Fails with `RlpExpectedToBeList` if the item is a string, and
    /// with `RlpIsTooBig` if its encoding has 32 bytes or more.
    #[tactic(auto, using(crate::specs::Inline::inline_faults))]
    pub fn new(item: RawItem) -> Result<InlineNode, DecoderError>
        ensures value { IfOk result (λ n. n.item ≡ item) }
        ensures fault { IfErr result (λ e. IsInlineFault item e) }
    {
        if !item.rlp().is_list() {
            return Err(DecoderError::RlpExpectedToBeList);
        }
        if item.as_bytes().len() >= 32 {
            return Err(DecoderError::RlpIsTooBig);
        }
        Ok(InlineNode { item })
    }
}

impl Clone for InlineNode {
    ghost is_clone = { λ n copy. copy.item ≡ n.item };

    fn clone(&self) -> Result<InlineNode, AllocError> {
        let item = self.item.clone()?;
        Ok(InlineNode { item })
    }
}
