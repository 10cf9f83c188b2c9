//! Greetings of the capability `p2p` of RLPx.

ghost use Rattle.std.specs.Prelude.{refl};
ghost use Rattle.rlp_p2p.specs.Hello.{node_id, capability, further_fields, hello};

use rlp::{
    AppendFields, CountedFields, DecodeFields, DecodeFieldsPlaced, DecoderError, Encodable, Fields,
    FixedFields, Flattened, Groups, ListField, ListOf, RawItem, Record, Rlp, RlpStream,
};
use std::alloc::{AllocError, Global};

/// The public key of a client: 64 bytes.
#[derive(Debug, Clone, Copy, PartialEq, Eq)]
pub struct NodeId(pub [u8; 64]);

/// Written as the array of its bytes.
impl Encodable for NodeId {
    ghost item = { node_id.item };

    ghost fits = { node_id.Fits };

    fn rlp_append(&self, s: &mut RlpStream) -> Result<(), AllocError> {
        self.0.rlp_append(s)
    }
}

/// Read as an array of 64 bytes. Fails with `RlpIsTooShort` if the string is shorter, and with
/// `RlpIsTooBig` if it is longer. It doesn't allocate.
impl Record for NodeId {
    ghost reading = { node_id.reading };

    fn decode(alloc: Global, rlp: &Rlp<'_>) -> Result<NodeId, DecoderError> {
        Ok(NodeId(rlp.as_val(alloc)?))
    }

    fn put_path(_alloc: Global, _rlp: &Rlp<'_>, _path: &mut Vec<usize>) -> Result<(), AllocError> {
        Ok(())
    }

    ghost lawful = { node_id.reads_strictly };
}

/// A protocol that a client speaks, and its version: the list of the two fields.
#[derive(Debug, Clone, PartialEq, Eq, Drop)]
pub struct Capability {
    /// The name, such as `eth`. The protocol allows at most 8 characters of ASCII; this type allows
    /// any bytes.
    pub name: Vec<u8>,
    /// The version.
    pub version: u64,
}

impl Encodable for Capability {
    ghost item = { capability.item };

    ghost fits = { capability.Fits };

    fn rlp_append(&self, s: &mut RlpStream) -> Result<(), AllocError> {
        rlp::append_fields!(s, &self.name, &self.version)
    }
}

impl Record for Capability {
    ghost reading = { capability.reading };

    fn decode(alloc: Global, rlp: &Rlp<'_>) -> Result<Capability, DecoderError> {
        rlp::decode_fields!(alloc, rlp, Capability { name, version })
    }

    fn put_path(alloc: Global, rlp: &Rlp<'_>, path: &mut Vec<usize>) -> Result<(), AllocError> {
        rlp::put_struct_path!(alloc, rlp, path, Vec<u8>, u64)
    }

    ghost lawful = { capability.reads_strictly };
}

/// An item of a greeting after its five fields.
#[derive(Debug, Clone, PartialEq, Eq, Drop)]
pub struct FurtherItem {
    /// The item, of any kind.
    pub item: RawItem,
}

impl AppendFields for FurtherItem {
    ghost items = { further_fields.items };

    ghost fit = { further_fields.Fits };

    fn field_count(&self) -> Option<usize> {
        Some(1)
    }

    fn append_fields(&self, s: &mut RlpStream) -> Result<(), AllocError> {
        (&self.item).append_fields(s)
    }
}

impl DecodeFields for FurtherItem {
    ghost reading = { further_fields.reading };

    fn accepts(len: usize) -> bool {
        len == 1
    }

    fn decode_fields(alloc: Global, fields: &mut Fields<'_>) -> Result<FurtherItem, DecoderError> {
        rlp::decode_fields!(fields alloc, fields, FurtherItem { item })
    }

    ghost possible = { further_fields.laws.possible };
}

impl DecodeFieldsPlaced for FurtherItem {
    fn put_path(
        alloc: Global,
        fields: &mut CountedFields<'_>,
        path: &mut Vec<usize>,
    ) -> Result<bool, AllocError> {
        <(RawItem, ()) as DecodeFieldsPlaced>::put_path(alloc, fields, path)
    }
}

impl FixedFields for FurtherItem {
    fn width() -> Option<usize> {
        Some(1)
    }

    ghost takes = { further_fields.laws.wide refl };
}

/// The first message of a connection, 0x00 of `p2p`: the list of its five fields, and of further
/// items.
///
/// EIP-8 asks a reader to ignore items after the five fields. This type keeps these items, so that
/// the value is written as the bytes that it was read from. A client that writes a greeting of its
/// own adds none.
#[derive(Debug, Clone, PartialEq, Eq, Drop)]
pub struct Hello {
    /// The version of the capability `p2p`.
    pub protocol_version: u64,
    /// The name of the client's software, as text. This type allows any bytes.
    pub client_id: Vec<u8>,
    /// The protocols that the client speaks, in order.
    pub capabilities: Vec<Capability>,
    /// The port that the client listens on, or 0. RLPx asks a reader to ignore the port, and allows
    /// any number; this type reads numbers of at most 64 bits.
    pub listen_port: u64,
    /// The client's public key.
    pub node_id: NodeId,
    /// The items after these fields, which a reader ignores.
    pub further: Vec<FurtherItem>,
}

impl Encodable for Hello {
    ghost item = { hello.item };

    ghost fits = { hello.Fits };

    fn rlp_append(&self, s: &mut RlpStream) -> Result<(), AllocError> {
        rlp::append_fields!(
            s,
            &self.protocol_version,
            &self.client_id,
            ListOf(&self.capabilities),
            &self.listen_port,
            &self.node_id,
            Flattened(self.further.as_slice())
        )
    }
}

impl Record for Hello {
    ghost reading = { hello.reading };

    fn decode(alloc: Global, rlp: &Rlp<'_>) -> Result<Hello, DecoderError> {
        rlp::decode_fields!(
            alloc,
            rlp,
            Hello {
                protocol_version,
                client_id,
                capabilities: [..],
                listen_port,
                node_id,
                further: [(..)]
            }
        )
    }

    fn put_path(alloc: Global, rlp: &Rlp<'_>, path: &mut Vec<usize>) -> Result<(), AllocError> {
        rlp::put_struct_path!(
            alloc, rlp, path, u64, Vec<u8>, ListField<Capability>, u64, NodeId; Groups<FurtherItem>
        )
    }

    ghost lawful = { hello.reads_strictly };
}
