//! Logs that contracts emit.

ghost use Rattle.rlp_headers.specs.Log.{log};

use rlp::{
    Decodable, DecodePlaced, DecoderError, Encodable, ListField, ListOf, Rlp, RlpStream, RoundTrip,
    StrictRead,
};
use rlp_records::{Address, Hash};
use std::alloc::{AllocError, Global};

/// A log: the list of its three fields.
///
/// See section 4.4.1 of the yellow paper.
#[derive(Debug, Clone, PartialEq, Eq, Drop)]
pub struct Log {
    /// The contract that emitted the log.
    pub address: Address,
    /// The topics that the log is found by, in order. The protocol allows at most four; this type
    /// has no limit.
    pub topics: Vec<Hash>,
    /// The data of the log.
    pub data: Vec<u8>,
}

impl Encodable for Log {
    ghost item = { log.item };

    ghost fits = { log.Fits };

    fn rlp_append(&self, s: &mut RlpStream) -> Result<(), AllocError> {
        rlp::append_fields!(s, &self.address, ListOf(&self.topics), &self.data)
    }
}

impl Decodable for Log {
    ghost reading = { log.reading };

    fn decode(alloc: Global, rlp: &Rlp<'_>) -> Result<Log, DecoderError> {
        rlp::decode_fields!(
            alloc,
            rlp,
            Log {
                address,
                topics: [..],
                data
            }
        )
    }
}

impl DecodePlaced for Log {
    fn put_path(alloc: Global, rlp: &Rlp<'_>, path: &mut Vec<usize>) -> Result<(), AllocError> {
        rlp::put_struct_path!(alloc, rlp, path, Address, ListField<Hash>, Vec<u8>)
    }
}

impl RoundTrip for Log {
    ghost round_trip = { log.reads_back };
}

impl StrictRead for Log {
    ghost strict = { log.reads_strictly };
}
