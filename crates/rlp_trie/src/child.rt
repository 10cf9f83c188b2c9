//! Children of nodes of the trie.

ghost use Rattle.std.specs.Prelude.{◌≡◌, ◌⊎◌, Err, IfErr, IfOk, Ok};
ghost use Rattle.rlp.specs.{DecoderError.TheVariants.OutOfMemory, Form.fault_of};
ghost use Rattle.rlp_trie.specs.{Child.{child_of, seen_child}, ChildLaws.child};

use crate::InlineNode;
use rlp::{DecoderError, Encodable, RawItem, Record, Rlp, RlpStream};
use rlp_records::Hash;
use std::alloc::{AllocError, Global};

/// A child of a node of the trie.
///
/// See appendix D of the yellow paper: a node whose encoding has fewer than 32 bytes is kept in its
/// parent, and any other node is named by its hash.
#[derive(Debug, Clone, PartialEq, Eq, Drop)]
pub enum Child {
    /// The node with this hash.
    Node(Hash),
    /// A node that is kept in its parent.
    Inline(InlineNode),
}

impl Encodable for Child {
    ghost item = { child.item };

    ghost fits = { child.Fits };

    #[tactic(auto, using(rlp::proofs::Writing::writing))]
    fn rlp_append(&self, s: &mut RlpStream) -> Result<(), AllocError> {
        match self {
            Child::Node(hash) => s.encoder().encode_value(&hash.0),
            Child::Inline(node) => node.item.rlp_append(s),
        }
    }
}

/// Reads the first item with its whole encoding, also from a lenient view. It allocates only for a
/// node that is kept in its parent. Such a node must be a list of fewer than 32 bytes with its
/// header, canonical and of a depth of at most 256. What is in the list isn't tested further.
///
/// Fails as [`Rlp::payload_info`] does, with `RlpIsTooShort` for a string of fewer than 32 bytes,
/// with `RlpIsTooBig` for a string of more than 32 bytes or a list of 32 bytes or more, and as
/// [`RawItem::new`] does.
impl Record for Child {
    ghost reading = { child.reading };

    fn decode(alloc: Global, rlp: &Rlp<'_>) -> Result<Child, DecoderError> {
        let (item, _) = rlp.split_first()?;
        child_of(alloc, item.as_raw())
    }

    fn put_path(_alloc: Global, _rlp: &Rlp<'_>, _path: &mut Vec<usize>) -> Result<(), AllocError> {
        Ok(())
    }

    ghost lawful = { child.reads_strictly };
}

/// Reads a child from bytes that are one item.
pub(crate) fn child_of(alloc: Global, bytes: &[u8]) -> Result<Child, DecoderError>
    ensures value { IfOk result (λ c. child_of bytes.now ≡ Ok (seen_child c)) }
    ensures fault { IfErr result
        (λ e. (child_of bytes.now ≡ Err (fault_of e)) ⊎ (e ≡ OutOfMemory)) }
{
    let view = Rlp::new_strict(bytes);
    if view.is_list() {
        if bytes.len() >= 32 {
            return Err(DecoderError::RlpIsTooBig);
        }
        let item = RawItem::new(alloc, bytes)?;
        return Ok(Child::Inline(InlineNode { item }));
    }
    let string = view.decoder().string()?;
    match <[u8; 32]>::try_from(string) {
        Ok(hash) => Ok(Child::Node(Hash(hash))),
        Err(_) if string.len() < 32 => Err(DecoderError::RlpIsTooShort),
        Err(_) => Err(DecoderError::RlpIsTooBig),
    }
}
