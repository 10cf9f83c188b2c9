//! The places of branches of the trie: a child or no child.

ghost use Rattle.std.specs.Prelude.{◌≡◌};
ghost use Rattle.rlp_trie.specs.{BranchChild.is_empty_string, BranchChildLaws.branch_child};

use crate::Child;
use crate::child::child_of;
use rlp::{DecoderError, Encodable, Record, Rlp, RlpStream};
use std::alloc::{AllocError, Global};

/// The child of a branch for one nibble of the path, or `None`, which is written as the empty
/// string.
///
/// See appendix D of the yellow paper.
#[derive(Debug, Clone, PartialEq, Eq, Drop)]
pub struct BranchChild(pub Option<Child>);

impl Encodable for BranchChild {
    ghost item = { branch_child.item };

    ghost fits = { branch_child.Fits };

    #[tactic(auto, using(rlp::proofs::Writing::writing))]
    fn rlp_append(&self, s: &mut RlpStream) -> Result<(), AllocError> {
        match &self.0 {
            Some(child) => child.rlp_append(s),
            None => s.encoder().encode_value(&[]),
        }
    }
}

/// Reads the first item as a [`Child`], or the empty string as `None`. Fails as reading a child
/// does.
impl Record for BranchChild {
    ghost reading = { branch_child.reading };

    fn decode(alloc: Global, rlp: &Rlp<'_>) -> Result<BranchChild, DecoderError> {
        let (item, _) = rlp.split_first()?;
        if is_empty_string(item.as_raw()) {
            return Ok(BranchChild(None));
        }
        let child = child_of(alloc, item.as_raw())?;
        Ok(BranchChild(Some(child)))
    }

    fn put_path(_alloc: Global, _rlp: &Rlp<'_>, _path: &mut Vec<usize>) -> Result<(), AllocError> {
        Ok(())
    }

    ghost lawful = { branch_child.reads_strictly };
}

/// Returns whether bytes are the encoding of the empty string.
pub(crate) fn is_empty_string(bytes: &[u8]) -> bool
    ensures { result ≡ is_empty_string bytes.now }
{
    matches!(bytes, [0x80])
}
