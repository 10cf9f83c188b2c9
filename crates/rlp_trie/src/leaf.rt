//! Nodes of the trie with a path: leaves, which end it, and extensions, which have one child.

ghost use Rattle.rlp_trie.specs.Trie.{extension, leaf};

use crate::{Child, ExtensionPath, LeafPath};
use rlp::{DecoderError, Encodable, Record, Rlp, RlpStream};
use std::alloc::{AllocError, Global};

/// A node of the trie that ends a path: the list of the rest of the path and the value.
///
/// See appendix D of the yellow paper.
#[derive(Debug, Clone, PartialEq, Eq, Drop)]
pub struct Leaf {
    /// The rest of the path.
    pub path: LeafPath,
    /// The value.
    pub value: Vec<u8>,
}

impl Encodable for Leaf {
    ghost item = { leaf.item };

    ghost fits = { leaf.Fits };

    fn rlp_append(&self, s: &mut RlpStream) -> Result<(), AllocError> {
        rlp::append_fields!(s, &self.path, &self.value)
    }
}

impl Record for Leaf {
    ghost reading = { leaf.reading };

    fn decode(alloc: Global, rlp: &Rlp<'_>) -> Result<Leaf, DecoderError> {
        rlp::decode_fields!(alloc, rlp, Leaf { path, value })
    }

    fn put_path(alloc: Global, rlp: &Rlp<'_>, path: &mut Vec<usize>) -> Result<(), AllocError> {
        rlp::put_struct_path!(alloc, rlp, path, LeafPath, Vec<u8>)
    }

    ghost lawful = { leaf.reads_strictly };
}

/// A node of the trie with one child: the list of a part of the path and the child.
///
/// See appendix D of the yellow paper.
#[derive(Debug, Clone, PartialEq, Eq, Drop)]
pub struct Extension {
    /// A part of the path.
    pub path: ExtensionPath,
    /// The node at the end of this part. In a trie this node is a branch, which isn't tested.
    pub child: Child,
}

impl Encodable for Extension {
    ghost item = { extension.item };

    ghost fits = { extension.Fits };

    fn rlp_append(&self, s: &mut RlpStream) -> Result<(), AllocError> {
        rlp::append_fields!(s, &self.path, &self.child)
    }
}

impl Record for Extension {
    ghost reading = { extension.reading };

    fn decode(alloc: Global, rlp: &Rlp<'_>) -> Result<Extension, DecoderError> {
        rlp::decode_fields!(alloc, rlp, Extension { path, child })
    }

    fn put_path(alloc: Global, rlp: &Rlp<'_>, path: &mut Vec<usize>) -> Result<(), AllocError> {
        rlp::put_struct_path!(alloc, rlp, path, ExtensionPath, Child)
    }

    ghost lawful = { extension.reads_strictly };
}
