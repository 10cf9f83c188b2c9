//! Branches of the trie: the list of sixteen children and a value.

ghost use Rattle.rlp_trie.specs.Trie.{branch};

use crate::BranchChild;
use rlp::{DecoderError, Each, Encodable, Record, Rlp, RlpStream};
use std::alloc::{AllocError, Global};

/// A node of the trie with a child for each value of the next nibble of the path: the list of the
/// children and a value.
///
/// See appendix D of the yellow paper.
#[derive(Debug, Clone, PartialEq, Eq, Drop)]
pub struct Branch {
    /// The child for each value of the next nibble.
    pub children: [BranchChild; 16],
    /// The value of the path that ends here, or no bytes if the path has no value.
    pub value: Vec<u8>,
}

impl Encodable for Branch {
    ghost item = { branch.item };

    ghost fits = { branch.Fits };

    #[tactic(auto, using(rlp::proofs::Writing::writing))]
    fn rlp_append(&self, s: &mut RlpStream) -> Result<(), AllocError> {
        let children = self.children.as_slice();
        // There are always 16 children. The test tells the proof so.
        if children.len() != 16 {
            return Err(AllocError);
        }
        rlp::append_fields!(s, Each(children), &self.value)
    }
}

impl Record for Branch {
    ghost reading = { branch.reading };

    fn decode(alloc: Global, rlp: &Rlp<'_>) -> Result<Branch, DecoderError> {
        rlp::decode_fields!(
            alloc,
            rlp,
            Branch {
                children: [_, _, _, _, _, _, _, _, _, _, _, _, _, _, _, _],
                value
            }
        )
    }

    fn put_path(alloc: Global, rlp: &Rlp<'_>, path: &mut Vec<usize>) -> Result<(), AllocError> {
        rlp::put_struct_path!(
            alloc, rlp, path, BranchChild, BranchChild, BranchChild, BranchChild, BranchChild,
            BranchChild, BranchChild, BranchChild, BranchChild, BranchChild, BranchChild,
            BranchChild, BranchChild, BranchChild, BranchChild, BranchChild, Vec<u8>
        )
    }

    ghost lawful = { branch.reads_strictly };
}
