//! Node records, whose keys are in order, with `id` among them, and whose size is within the limit.

ghost use Rattle.std.specs.{Prelude.{◌≡◌, ◌⊎◌, ◌↔◌, Ok, Err, IfOk, IfErr, OnOk, IsTrue}, Vec.vec_items};
ghost use Rattle.rlp.specs.{DecoderError.TheVariants.OutOfMemory, Format.Encoding.encoding, Form.{IsPlaced, fault_of}};
ghost use Rattle.rlp_node_record.specs.NodeFields.{node_fields, signed_item};
ghost use Rattle.rlp_node_record.specs.NodeRecord.{AreInOrder, AreRecordKeys, IsNodeRecord, keys_of, keys_rise, read_record, test_fields, test_keys};
ghost use Rattle.rlp_node_record.specs.NodeLaws.{node_record};

use crate::lookup::has_id;
use crate::node_fields::{NodeFields, NodePair};
use bytes::BytesMut;
use rlp::{DecoderError, Encodable, Flattened, Record, Rlp, RlpStream, write_struct};
use std::alloc::{AllocError, Global};
use std::cmp::Ordering;
use std::marker::Model;

/// A node record, as in EIP-778: what a node says about itself. Its keys are in order, each once,
/// `id` is one of them, and its encoding has at most [`NodeRecord::MAX_LEN`] bytes.
///
/// The signature and the values of known keys aren't checked. The identity scheme of the key `id`
/// says how to check the signature of [`NodeRecord::signed_content`].
///
/// Contracts see a record as its fields.
#[derive(Debug, Drop)]
pub struct NodeRecord {
    fields: NodeFields,
}

impl Model for NodeRecord {
    ghost use Rattle.rlp_node_record.specs.{declared.node_fields.NodeFields.NodeFields, NodeRecord.IsNodeRecord};

    ghost Value = { NodeFields };

    ghost view = { λ r. r.fields };

    ghost invariant = { λ r. IsNodeRecord r.fields };
}

impl NodeRecord {
    /// The greatest number of bytes of a node record.
    pub const MAX_LEN: usize = 300;

    /// The node record with these fields.
    ///
    /// Fails with `Custom("keys are not in order")` if a key isn't after the one before it, in the
    /// order of their bytes, or with `Custom("key id is missing")`. If the keys are right, it fails
    /// with `RlpIsTooBig` if the encoding has more than [`NodeRecord::MAX_LEN`] bytes, and with
    /// `OutOfMemory` if memory is refused.
    #[tactic(auto, using(crate::proofs::Keys::keys_tested))]
    pub fn new(alloc: Global, fields: NodeFields) -> Result<NodeRecord, DecoderError>
        ensures value { IfOk result (λ r. (r ≡ fields) × IsNodeRecord fields) }
        ensures fault { IfErr result (λ e. (test_fields fields ≡ Err (fault_of e))
            ⊎ ((e ≡ OutOfMemory) × AreRecordKeys (vec_items fields.pairs))) }
    {
        test_keys(fields.pairs.as_slice())?;
        let bytes = rlp::encode(alloc, &fields)?;
        let written = bytes.as_slice();
        if written.len() > NodeRecord::MAX_LEN {
            return Err(DecoderError::RlpIsTooBig);
        }
        Ok(NodeRecord { fields })
    }

    /// The fields.
    pub fn fields(&self) -> &NodeFields
        ensures fields { result.now ≡ self.now }
        ensures record { IsNodeRecord self.now }
    {
        &self.fields
    }

    /// The bytes that are signed: the encoding of the list of the sequence number and the pairs.
    /// Fails with `AllocError` if memory is refused.
    pub fn signed_content(&self, alloc: Global) -> Result<BytesMut, AllocError>
        ensures { IfOk result (λ b. b.items ≡ encoding (signed_item self.now)) }
    {
        let mut s = RlpStream::new(alloc)?;
        let pairs = self.fields.pairs.as_slice();
        write_struct(&mut s, &(&self.fields.sequence, Flattened(pairs)))?;
        Ok(s.out())
    }
}

/// A clone has the same fields, as contracts see them.
impl Clone for NodeRecord {
    ghost is_clone = { λ r copy. node_fields.reading.seen copy ≡ node_fields.reading.seen r };

    #[tactic(auto, using(crate::proofs::Clones::clones))]
    fn clone(&self) -> Result<NodeRecord, AllocError> {
        let fields = self.fields.clone()?;
        Ok(NodeRecord { fields })
    }
}

/// Tests that the keys are in order, and that `id` is one of them.
#[tactic(auto, using(crate::proofs::Keys::keys_tested))]
fn test_keys(pairs: &[NodePair]) -> Result<(), DecoderError>
    ensures keys { OnOk result (AreRecordKeys pairs.now) }
    ensures fault { IfErr result (λ e. test_keys (keys_of pairs.now) ≡ Err (fault_of e)) }
{
    if !are_in_order(pairs) {
        return Err(DecoderError::Custom("keys are not in order"));
    }
    if !has_id(pairs) {
        return Err(DecoderError::Custom("key id is missing"));
    }
    Ok(())
}

/// Returns whether each key is after the one before it.
#[tactic(auto, unfolding(crate::specs::NodeRecord::AreInOrder))]
fn are_in_order(pairs: &[NodePair]) -> bool
    ensures { IsTrue result ↔ AreInOrder pairs.now }
{
    keys_rise(pairs)
}

/// Returns whether each key is after the one before it, by the first two keys and then the
/// remaining keys.
fn keys_rise(pairs: &[NodePair]) -> bool
    ensures { result ≡ keys_rise (keys_of pairs.now) }
{
    match pairs {
        [first, others @ ..] => match others {
            [next, ..] => {
                first.key.as_slice().cmp(&next.key.as_slice()) == Ordering::Less
                    && keys_rise(others)
            }
            [] => true,
        },
        [] => true,
    }
}

/// Reads the fields of a record from bytes that are one item.
#[tactic(auto, using(crate::proofs::Keys::record_reading))]
fn record_fields(alloc: Global, bytes: &[u8]) -> Result<NodeFields, DecoderError>
    ensures record { IfOk result (λ f. IsNodeRecord f) }
    ensures value { IfOk result
        (λ f. (read_record bytes.now).result ≡ Ok (node_fields.reading.seen f)) }
    ensures fault { IfErr result (λ e. ((read_record bytes.now).result ≡ Err (fault_of e))
        ⊎ ((e ≡ OutOfMemory) × IsTrue node_record.reading.takes_memory)) }
{
    if NodeRecord::MAX_LEN < bytes.len() {
        return Err(DecoderError::RlpIsTooBig);
    }
    let fields = rlp::decode_strict::<NodeFields>(alloc, bytes)?;
    match test_keys(fields.pairs.as_slice()) {
        Ok(()) => Ok(fields),
        Err(fault) => Err(fault),
    }
}

/// Appends the path of the fault of bytes that are one item. A fault of the size or of the keys is
/// a fault of the whole record.
fn put_record_path(alloc: Global, bytes: &[u8], path: &mut Vec<usize>) -> Result<(), AllocError>
    ensures { OnOk result (IsPlaced (read_record bytes.now) path.old.items path.new.items) }
{
    if NodeRecord::MAX_LEN < bytes.len() {
        return Ok(());
    }
    match rlp::decode_strict::<NodeFields>(alloc, bytes) {
        Ok(_) => Ok(()),
        Err(DecoderError::OutOfMemory) => Err(AllocError),
        Err(_) => NodeFields::put_path(alloc, &Rlp::new_strict(bytes), path),
    }
}

impl Encodable for NodeRecord {
    ghost item = { node_record.item };

    ghost fits = { node_record.Fits };

    fn rlp_append(&self, s: &mut RlpStream) -> Result<(), AllocError> {
        self.fields.rlp_append(s)
    }
}

/// Reads the whole encoding of a record, also from a lenient view, since the signature is of bytes
/// of this encoding. From a lenient view too, only the bytes that follow the record are ignored.
///
/// Fails as [`Rlp::payload_info`] does, with `RlpIsTooBig` if the record has more than
/// [`NodeRecord::MAX_LEN`] bytes, with a fault of its fields, and with
/// `Custom("keys are not in order")` or `Custom("key id is missing")`.
impl Record for NodeRecord {
    ghost reading = { node_record.reading };

    fn decode(alloc: Global, rlp: &Rlp<'_>) -> Result<NodeRecord, DecoderError> {
        let (item, _) = rlp.split_first()?;
        let fields = record_fields(alloc, item.as_raw())?;
        Ok(NodeRecord { fields })
    }

    fn put_path(alloc: Global, rlp: &Rlp<'_>, path: &mut Vec<usize>) -> Result<(), AllocError> {
        match rlp.split_first() {
            Ok((item, _)) => put_record_path(alloc, item.as_raw(), path),
            Err(_) => Ok(()),
        }
    }

    ghost lawful = { node_record.reads_strictly };
}
