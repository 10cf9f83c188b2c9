//! Paths of leaves and of extensions of the trie.

ghost use Rattle.std.specs.Prelude.{◌≡◌, ◌≢◌, ◌⊎◌, [], Err, IfErr, IfOk, Ok, Some, false};
ghost use Rattle.rlp.specs.{DecoderError.TheVariants.OutOfMemory, Form.fault_of};
ghost use Rattle.rlp_trie.specs.HexPrefix.{AreNibbles, IsNibbleFault, IsPath, ends_in_leaf, hex_prefix, is_empty_extension, is_leaf_flag, path_nibbles, path_of};

use crate::hex_prefix::{are_nibbles, ends_in_leaf, hex_prefix, is_empty_extension, path_nibbles};
use rlp::{DecoderError, Encodable, Record, Rlp, RlpStream};
use std::alloc::{AllocError, Global};

/// The path of a leaf.
pub type LeafPath = Path<2>;

/// The path of an extension.
pub type ExtensionPath = Path<0>;

/// A path of a node of the trie, hex-prefix encoded as in appendix C of the yellow paper. `FLAG` is 2
/// for the path of a leaf, and 0 for the path of an extension. Only the path of a leaf may have no
/// nibbles.
#[derive(Debug, PartialEq, Eq, Drop)]
pub struct Path<const FLAG: u8> {
    /// The encoding, as [`ends_in_leaf`] explains it.
    pub bytes: Vec<u8>,
    pub ghost encoded: { ends_in_leaf bytes.items ≡ Some (is_leaf_flag FLAG) },
    pub ghost some_nibble: { is_empty_extension bytes.items ≡ false },
}

impl<const FLAG: u8> Path<FLAG> {
    /// The path of these bytes, which it copies.
    ///
    /// Fails with `Custom("path is not hex-prefix encoded")` if the bytes aren't hex-prefix
    /// encoded, and with `Custom("path is that of another node")` if the flag is of the other kind
    /// of node. Fails with `Custom("path of an extension is empty")` if the bytes are the path of
    /// an extension with no nibbles, and with `OutOfMemory` if memory is refused.
    pub fn new(alloc: Global, bytes: &[u8]) -> Result<Path<FLAG>, DecoderError>
        ensures value { IfOk result (λ p. path_of (is_leaf_flag FLAG) bytes.now ≡ Ok p.bytes.items) }
        ensures bytes { IfOk result (λ p. p.bytes.items ≡ bytes.now) }
        ensures fault { IfErr result (λ e. (path_of (is_leaf_flag FLAG) bytes.now ≡ Err (fault_of e))
            ⊎ ((e ≡ OutOfMemory) × IsPath (is_leaf_flag FLAG) bytes.now)) }
    {
        let Some(leaf) = ends_in_leaf(bytes) else {
            return Err(DecoderError::Custom("path is not hex-prefix encoded"));
        };
        if leaf != (FLAG == 2) {
            return Err(DecoderError::Custom("path is that of another node"));
        }
        if is_empty_extension(bytes) {
            return Err(DecoderError::Custom("path of an extension is empty"));
        }
        let bytes = Vec::from_slice(alloc, bytes)?;
        Ok(Path { bytes })
    }

    /// The path of these nibbles, each a number below 16.
    ///
    /// Fails with `Custom("nibble is above 15")` if a number is above 15, with
    /// `Custom("path of an extension is empty")` if there are no nibbles for an extension, and with
    /// `OutOfMemory` if memory is refused.
    #[tactic(auto, using(crate::proofs::PathLemmas::made_of_nibbles))]
    pub fn from_nibbles(alloc: Global, nibbles: &[u8]) -> Result<Path<FLAG>, DecoderError>
        ensures value { IfOk result (λ p. AreNibbles nibbles.now
            × (p.bytes.items ≡ hex_prefix (is_leaf_flag FLAG) nibbles.now)) }
        ensures back { IfOk result (λ p. path_nibbles p.bytes.items ≡ nibbles.now) }
        ensures fault { IfErr result (λ e. IsNibbleFault (is_leaf_flag FLAG) nibbles.now e
            ⊎ ((e ≡ OutOfMemory) × (AreNibbles nibbles.now
            × (is_leaf_flag FLAG ≡ false → nibbles.now ≢ [])))) }
    {
        if !are_nibbles(nibbles) {
            return Err(DecoderError::Custom("nibble is above 15"));
        }
        if FLAG != 2 && nibbles.is_empty() {
            return Err(DecoderError::Custom("path of an extension is empty"));
        }
        let bytes = hex_prefix(alloc, FLAG == 2, nibbles)?;
        Ok(Path { bytes })
    }

    /// The nibbles of the path. Fails with `AllocError` if memory is refused.
    pub fn nibbles(&self, alloc: Global) -> Result<Vec<u8>, AllocError>
        ensures value { IfOk result (λ x. x.items ≡ path_nibbles self.now.bytes.items) }
        ensures encoded { IfOk result (λ x. AreNibbles x.items
            × (self.now.bytes.items ≡ hex_prefix (is_leaf_flag FLAG) x.items)) }
        ensures some { is_leaf_flag FLAG ≡ false → IfOk result (λ x. x.items ≢ []) }
    {
        path_nibbles(alloc, self.bytes.as_slice())
    }
}

impl<const FLAG: u8> Clone for Path<FLAG> {
    ghost is_clone = { λ p copy. copy.bytes.items ≡ p.bytes.items };

    fn clone(&self) -> Result<Path<FLAG>, AllocError> {
        let bytes = self.bytes.clone()?;
        Ok(Path { bytes })
    }
}

/// Written as the string of the bytes.
impl<const FLAG: u8> Encodable for Path<FLAG> {
    ghost use Rattle.rlp_trie.specs.PathLaws.{path};

    ghost item = { (path FLAG).item };

    ghost fits = { (path FLAG).Fits };

    fn rlp_append(&self, s: &mut RlpStream) -> Result<(), AllocError> {
        self.bytes.rlp_append(s)
    }
}

/// Reads a string, with one copy. Fails as [`Path::new`] does.
impl<const FLAG: u8> Record for Path<FLAG> {
    ghost use Rattle.rlp_trie.specs.PathLaws.{path};

    ghost reading = { (path FLAG).reading };

    fn decode(alloc: Global, rlp: &Rlp<'_>) -> Result<Path<FLAG>, DecoderError> {
        Path::new(alloc, rlp.decoder().string()?)
    }

    fn put_path(_alloc: Global, _rlp: &Rlp<'_>, _path: &mut Vec<usize>) -> Result<(), AllocError> {
        Ok(())
    }

    ghost lawful = { (path FLAG).reads_strictly };
}
