//! Proofs of what a trie has for a key, and why a proof fails.

ghost use Rattle.std.specs.{List.slice_get, Prelude.{ℕ, ◌≡◌, ◌⊎◌, Err, IfErr, IfOk, IsErrAnd, List, Ok, Option, Some, map, option_map}, Vec.vec_items};
ghost use Rattle.rlp.specs.{Format.Encoding.{encoding, string}, Values.Value.number_item};
ghost use Rattle.rlp_trie.specs.{HexPrefix.nibbles_of, Listed.{AreListed, HasCollision, known_of}, Lookup.HasValue, Ordered.{ordered_nodes, ordered_root, place_path}, ProofWalk.{IsKnown, IsSameKind, ProofGives}, declared.proof.ProofFault.ProofFault, declared.proof.ProofFault.TheVariants.OutOfMemory};

use crate::Child;
use crate::hex_prefix::push_nibbles;
use crate::walk::walk;
use rlp::DecoderError;
use rlp_records::Hash;
use std::alloc::{AllocError, Global};
use std::error::Error;
use std::fmt;

/// Returns the value that the trie with this root has for a key, or `None` if it has no value.
/// `nodes` are the encodings of the nodes on the way from the root down, in order, which prove
/// this. A node that is kept in its parent may be listed itself, behind its parent, or left out. The
/// empty trie needs no node.
///
/// The keys of the tries of Ethereum's state are hashes: of an address, or of a place in storage.
///
/// Fails with `MissingNode` if the nodes end early, with `OtherHash` if the hash of a node isn't
/// the root or the hash in the node above, with `FaultyNode` if a node can't be read, with
/// `NodesLeft` if nodes follow the node where the walk ends, and with `OutOfMemory` if memory is
/// refused.
pub fn verify_proof(
    alloc: Global,
    root: &Hash,
    key: &[u8],
    nodes: &[Vec<u8>],
) -> Result<Option<Vec<u8>>, ProofFault>
    ensures proved { IfOk result (λ value. HasValue (IsKnown (map vec_items nodes.now))
        (string root.now.0) (nibbles_of key.now) (option_map vec_items value)) }
    ensures fault { IfErr result (λ e. ProofGives root.now.0 key.now (map vec_items nodes.now)
        (Err e) ⊎ (e ≡ OutOfMemory)) }
    ensures found { (value : Option (List ℕ))
        → ProofGives root.now.0 key.now (map vec_items nodes.now) (Ok value)
        → IfOk result (λ given. option_map vec_items given ≡ value) }
    ensures memory { (value : Option (List ℕ))
        → ProofGives root.now.0 key.now (map vec_items nodes.now) (Ok value)
        → IfErr result (λ e. e ≡ OutOfMemory) }
    ensures refused { (fault : ProofFault)
        → ProofGives root.now.0 key.now (map vec_items nodes.now) (Err fault)
        → IsErrAnd result (λ e. IsSameKind e fault ⊎ (e ≡ OutOfMemory)) }
{
    let mut path = Vec::new(alloc);
    push_nibbles(&mut path, key)?;
    walk(alloc, Child::Node(*root), path.as_slice(), nodes)
}

/// Returns what the list with this root has at a place, counted from 0, or `None` if the list ends
/// before the place. The list is the one of [`ordered_root`](crate::ordered_root), and `nodes` prove
/// the answer, as for [`verify_proof`], whose faults it has.
///
/// If the root is the root of no list, the answer is what the trie with this root has for the
/// encoding of the place.
#[tactic(auto, using(crate::proofs::OrderedLemmas::item_agrees))]
pub fn verify_item(
    alloc: Global,
    root: &Hash,
    place: u64,
    nodes: &[Vec<u8>],
) -> Result<Option<Vec<u8>>, ProofFault>
    ensures proved { IfOk result (λ value. HasValue (IsKnown (map vec_items nodes.now))
        (string root.now.0) (place_path place) (option_map vec_items value)) }
    ensures fault { IfErr result (λ e. ProofGives root.now.0 (encoding (number_item place))
        (map vec_items nodes.now) (Err e) ⊎ (e ≡ OutOfMemory)) }
    ensures found { (value : Option (List ℕ))
        → ProofGives root.now.0 (encoding (number_item place)) (map vec_items nodes.now) (Ok value)
        → IfOk result (λ given. option_map vec_items given ≡ value) }
    ensures memory { (value : Option (List ℕ))
        → ProofGives root.now.0 (encoding (number_item place)) (map vec_items nodes.now) (Ok value)
        → IfErr result (λ e. e ≡ OutOfMemory) }
    ensures refused { (fault : ProofFault)
        → ProofGives root.now.0 (encoding (number_item place)) (map vec_items nodes.now) (Err fault)
        → IsErrAnd result (λ e. IsSameKind e fault ⊎ (e ≡ OutOfMemory)) }
    ensures agrees { (xs : List (List ℕ)) → AreListed 0 xs → root.now.0 ≡ ordered_root xs
        → IfOk result (λ value. (option_map vec_items value ≡ slice_get xs place)
        ⊎ HasCollision (known_of (map vec_items nodes.now)) (known_of (ordered_nodes xs))) }
{
    let key = rlp::encode(alloc, &place)?;
    verify_proof(alloc, root, key.as_slice(), nodes)
}

/// Why nodes don't prove what the trie has for a key.
#[derive(Debug, PartialEq, Eq, Drop)]
pub enum ProofFault {
    /// The nodes end before the walk does.
    MissingNode,
    /// The hash of a node isn't the root or the hash in the node above.
    OtherHash,
    /// A node, or a node that is kept in it, can't be read.
    FaultyNode(DecoderError),
    /// Nodes follow the node where the walk ends.
    NodesLeft,
    /// Memory was refused.
    OutOfMemory,
}

/// Prints the variant's name, and for `FaultyNode` also the fault, as in
/// `FaultyNode(RlpIsTooShort)`.
impl fmt::Display for ProofFault {
    ghost use Rattle.rlp_trie.specs.ProofWalk.{proof_fault_text};

    ghost output = { λ e. Some (proof_fault_text e) };

    fn fmt<W: fmt::Write>(&self, f: &mut fmt::Formatter<W>) -> fmt::Result {
        match self {
            ProofFault::MissingNode => f.write_str("MissingNode"),
            ProofFault::OtherHash => f.write_str("OtherHash"),
            ProofFault::FaultyNode(fault) => write!(f, "FaultyNode({fault})"),
            ProofFault::NodesLeft => f.write_str("NodesLeft"),
            ProofFault::OutOfMemory => f.write_str("OutOfMemory"),
        }
    }
}

impl Error for ProofFault {}

impl From<AllocError> for ProofFault {
    ghost use Rattle.rlp_trie.specs.declared.proof.ProofFault.TheVariants.{OutOfMemory};

    ghost from_gives = { λ _ fault. fault ≡ OutOfMemory };

    fn from(_refused: AllocError) -> ProofFault {
        ProofFault::OutOfMemory
    }
}
