//! The fields of a node record.

ghost use Rattle.std.specs.{Prelude.{◌≡◌, OnOk, IfOk}, Prelude.refl};
ghost use Rattle.rlp.specs.Format.Encoding.{encoding};
ghost use Rattle.rlp_node_record.specs.NodeFields.{pair_fields, node_fields};

use bytes::BytesMut;
use rlp::{
    AppendFields, CountedFields, DecodeFields, DecodeFieldsPlaced, DecoderError, Encodable, Fields,
    FixedFields, Flattened, Groups, RawItem, Record, Rlp, RlpStream,
};
use std::alloc::{AllocError, Global};

/// A key of a node record and its value, as in EIP-778.
#[derive(Debug, Clone, PartialEq, Eq, Drop)]
pub struct NodePair {
    /// The key, mostly ASCII text such as `ip` or `secp256k1`.
    pub key: Vec<u8>,
    /// The value, which may be any item.
    pub value: RawItem,
}

/// The fields of a node record, as in EIP-778. The fields are one list: the signature, the sequence
/// number, and then each key followed by its value, with no list around the two.
///
/// The order of the keys, the key `id` and the size aren't tested: the fields of a
/// [`NodeRecord`](crate::NodeRecord) have passed these tests.
#[derive(Debug, Clone, PartialEq, Eq, Drop)]
pub struct NodeFields {
    /// The signature of the other fields.
    pub signature: Vec<u8>,
    /// The number of the record, which grows with each change of the record.
    pub sequence: u64,
    /// The keys and their values.
    pub pairs: Vec<NodePair>,
}

impl AppendFields for NodePair {
    ghost items = { pair_fields.items };

    ghost fit = { pair_fields.Fits };

    fn field_count(&self) -> Option<usize> {
        Some(2)
    }

    fn append_fields(&self, s: &mut RlpStream) -> Result<(), AllocError> {
        (&self.key, &self.value).append_fields(s)
    }
}

impl DecodeFields for NodePair {
    ghost reading = { pair_fields.reading };

    fn accepts(len: usize) -> bool {
        len == 2
    }

    fn decode_fields(alloc: Global, fields: &mut Fields<'_>) -> Result<NodePair, DecoderError> {
        rlp::decode_fields!(fields alloc, fields, NodePair { key, value })
    }

    ghost possible = { pair_fields.laws.possible };
}

impl DecodeFieldsPlaced for NodePair {
    fn put_path(
        alloc: Global,
        fields: &mut CountedFields<'_>,
        path: &mut Vec<usize>,
    ) -> Result<bool, AllocError> {
        <(Vec<u8>, (RawItem, ())) as DecodeFieldsPlaced>::put_path(alloc, fields, path)
    }
}

impl FixedFields for NodePair {
    fn width() -> Option<usize> {
        Some(2)
    }

    ghost takes = { pair_fields.laws.wide refl };
}

impl Encodable for NodeFields {
    ghost item = { node_fields.item };

    ghost fits = { node_fields.Fits };

    fn rlp_append(&self, s: &mut RlpStream) -> Result<(), AllocError> {
        rlp::append_fields!(
            s,
            &self.signature,
            &self.sequence,
            Flattened(self.pairs.as_slice())
        )
    }
}

impl Record for NodeFields {
    ghost reading = { node_fields.reading };

    fn decode(alloc: Global, rlp: &Rlp<'_>) -> Result<NodeFields, DecoderError> {
        rlp::decode_fields!(
            alloc,
            rlp,
            NodeFields {
                signature,
                sequence,
                pairs: [(..)]
            }
        )
    }

    fn put_path(alloc: Global, rlp: &Rlp<'_>, path: &mut Vec<usize>) -> Result<(), AllocError> {
        rlp::put_struct_path!(alloc, rlp, path, Vec<u8>, u64; Groups<NodePair>)
    }

    ghost lawful = { node_fields.reads_strictly };
}
