//! Requests of the protocol `eth`, and their answers, without the number of the request and with it.

ghost use Rattle.std.specs.Prelude.{⊤, ◌∷◌, []};
ghost use Rattle.rlp.specs.{Codec.codec_of, Format.Encoding.list_of, Values.Value.{FitsBytes, number_item}};
ghost use Rattle.rlp_messages.specs.Eth.HashOrNumberLaws.{hash_or_number};
ghost use Rattle.rlp_messages.specs.Eth.Requests.{block_bodies, block_headers, get_block_bodies, get_block_headers, get_pooled_transactions, get_receipts, pooled_transactions, with_request_id, with_request_id_reading};

use rlp::{
    Decodable, DecodePlaced, DecoderError, Each, Encodable, Record, Rlp, RlpStream, RoundTrip,
    StrictRead, put_list_path,
};
use rlp_blocks::Body;
use rlp_headers::Header;
use rlp_pooled::PooledTransaction;
use rlp_records::Hash;
use std::alloc::{AllocError, Global};

/// Asks for headers, in message 0x03 of `eth`: the list of its four fields.
#[derive(Debug, Clone, Copy, PartialEq, Eq)]
pub struct GetBlockHeaders {
    /// The first block.
    pub start_block: HashOrNumber,
    /// The number of headers that are asked for, at most.
    pub limit: u64,
    /// The number of blocks that are skipped between two headers.
    pub skip: u64,
    /// Whether the headers lead back from the first block.
    pub reverse: bool,
}

impl Encodable for GetBlockHeaders {
    ghost item = { get_block_headers.item };

    ghost fits = { get_block_headers.Fits };

    fn rlp_append(&self, s: &mut RlpStream) -> Result<(), AllocError> {
        rlp::append_fields!(s, &self.start_block, &self.limit, &self.skip, &self.reverse)
    }
}

impl Record for GetBlockHeaders {
    ghost reading = { get_block_headers.reading };

    fn decode(alloc: Global, rlp: &Rlp<'_>) -> Result<GetBlockHeaders, DecoderError> {
        rlp::decode_fields!(
            alloc,
            rlp,
            GetBlockHeaders {
                start_block,
                limit,
                skip,
                reverse
            }
        )
    }

    fn put_path(alloc: Global, rlp: &Rlp<'_>, path: &mut Vec<usize>) -> Result<(), AllocError> {
        rlp::put_struct_path!(alloc, rlp, path, HashOrNumber, u64, u64, bool)
    }

    ghost lawful = { get_block_headers.reads_strictly };
}

/// The answer to [`GetBlockHeaders`], in message 0x04 of `eth`: the list of the headers.
#[derive(Debug, Clone, PartialEq, Eq, Drop)]
pub struct BlockHeaders(pub Vec<Header>);

impl Encodable for BlockHeaders {
    ghost item = { block_headers.item };

    ghost fits = { block_headers.Fits };

    fn rlp_append(&self, s: &mut RlpStream) -> Result<(), AllocError> {
        rlp::append_fields!(s, Each(&self.0))
    }
}

impl Record for BlockHeaders {
    ghost reading = { block_headers.reading };

    fn decode(alloc: Global, rlp: &Rlp<'_>) -> Result<BlockHeaders, DecoderError> {
        Ok(BlockHeaders(rlp.as_list(alloc)?))
    }

    fn put_path(alloc: Global, rlp: &Rlp<'_>, path: &mut Vec<usize>) -> Result<(), AllocError> {
        put_list_path::<Header>(alloc, rlp, path)
    }

    ghost lawful = { block_headers.reads_strictly };
}

/// Asks for the bodies of blocks, in message 0x05 of `eth`: the list of the hashes of the blocks.
#[derive(Debug, Clone, PartialEq, Eq, Drop)]
pub struct GetBlockBodies(pub Vec<Hash>);

impl Encodable for GetBlockBodies {
    ghost item = { get_block_bodies.item };

    ghost fits = { get_block_bodies.Fits };

    fn rlp_append(&self, s: &mut RlpStream) -> Result<(), AllocError> {
        rlp::append_fields!(s, Each(&self.0))
    }
}

impl Record for GetBlockBodies {
    ghost reading = { get_block_bodies.reading };

    fn decode(alloc: Global, rlp: &Rlp<'_>) -> Result<GetBlockBodies, DecoderError> {
        Ok(GetBlockBodies(rlp.as_list(alloc)?))
    }

    fn put_path(alloc: Global, rlp: &Rlp<'_>, path: &mut Vec<usize>) -> Result<(), AllocError> {
        put_list_path::<Hash>(alloc, rlp, path)
    }

    ghost lawful = { get_block_bodies.reads_strictly };
}

/// The answer to [`GetBlockBodies`], in message 0x06 of `eth`: the list of the bodies.
#[derive(Debug, Clone, PartialEq, Eq, Drop)]
pub struct BlockBodies(pub Vec<Body>);

impl Encodable for BlockBodies {
    ghost item = { block_bodies.item };

    ghost fits = { block_bodies.Fits };

    fn rlp_append(&self, s: &mut RlpStream) -> Result<(), AllocError> {
        rlp::append_fields!(s, Each(&self.0))
    }
}

impl Record for BlockBodies {
    ghost reading = { block_bodies.reading };

    fn decode(alloc: Global, rlp: &Rlp<'_>) -> Result<BlockBodies, DecoderError> {
        Ok(BlockBodies(rlp.as_list(alloc)?))
    }

    fn put_path(alloc: Global, rlp: &Rlp<'_>, path: &mut Vec<usize>) -> Result<(), AllocError> {
        put_list_path::<Body>(alloc, rlp, path)
    }

    ghost lawful = { block_bodies.reads_strictly };
}

/// Asks for transactions that aren't in a block yet, in message 0x09 of `eth`: the list of the
/// hashes of the transactions.
#[derive(Debug, Clone, PartialEq, Eq, Drop)]
pub struct GetPooledTransactions(pub Vec<Hash>);

impl Encodable for GetPooledTransactions {
    ghost item = { get_pooled_transactions.item };

    ghost fits = { get_pooled_transactions.Fits };

    fn rlp_append(&self, s: &mut RlpStream) -> Result<(), AllocError> {
        rlp::append_fields!(s, Each(&self.0))
    }
}

impl Record for GetPooledTransactions {
    ghost reading = { get_pooled_transactions.reading };

    fn decode(alloc: Global, rlp: &Rlp<'_>) -> Result<GetPooledTransactions, DecoderError> {
        Ok(GetPooledTransactions(rlp.as_list(alloc)?))
    }

    fn put_path(alloc: Global, rlp: &Rlp<'_>, path: &mut Vec<usize>) -> Result<(), AllocError> {
        put_list_path::<Hash>(alloc, rlp, path)
    }

    ghost lawful = { get_pooled_transactions.reads_strictly };
}

/// The answer to [`GetPooledTransactions`], in message 0x0a of `eth`: the list of the transactions.
/// A transaction of type 3 has its blobs, as in EIP-4844 or EIP-7594.
#[derive(Debug, Clone, PartialEq, Eq, Drop)]
pub struct PooledTransactions(pub Vec<PooledTransaction>);

impl Encodable for PooledTransactions {
    ghost item = { pooled_transactions.item };

    ghost fits = { pooled_transactions.Fits };

    fn rlp_append(&self, s: &mut RlpStream) -> Result<(), AllocError> {
        rlp::append_fields!(s, Each(&self.0))
    }
}

impl Record for PooledTransactions {
    ghost reading = { pooled_transactions.reading };

    fn decode(alloc: Global, rlp: &Rlp<'_>) -> Result<PooledTransactions, DecoderError> {
        Ok(PooledTransactions(rlp.as_list(alloc)?))
    }

    fn put_path(alloc: Global, rlp: &Rlp<'_>, path: &mut Vec<usize>) -> Result<(), AllocError> {
        put_list_path::<PooledTransaction>(alloc, rlp, path)
    }

    ghost lawful = { pooled_transactions.reads_strictly };
}

/// Asks for the receipts of blocks, in message 0x0f of `eth`: the list of the hashes of the blocks.
#[derive(Debug, Clone, PartialEq, Eq, Drop)]
pub struct GetReceipts(pub Vec<Hash>);

impl Encodable for GetReceipts {
    ghost item = { get_receipts.item };

    ghost fits = { get_receipts.Fits };

    fn rlp_append(&self, s: &mut RlpStream) -> Result<(), AllocError> {
        rlp::append_fields!(s, Each(&self.0))
    }
}

impl Record for GetReceipts {
    ghost reading = { get_receipts.reading };

    fn decode(alloc: Global, rlp: &Rlp<'_>) -> Result<GetReceipts, DecoderError> {
        Ok(GetReceipts(rlp.as_list(alloc)?))
    }

    fn put_path(alloc: Global, rlp: &Rlp<'_>, path: &mut Vec<usize>) -> Result<(), AllocError> {
        put_list_path::<Hash>(alloc, rlp, path)
    }

    ghost lawful = { get_receipts.reads_strictly };
}

/// A request or its answer, with the number that the two share: the list of the two fields, as in
/// EIP-2481.
#[derive(Debug, Clone, PartialEq, Eq, Drop)]
pub struct WithRequestId<T> {
    /// The number that the client chose for the request. The answer has the same number.
    pub request_id: u64,
    /// The message without the number, such as a
    /// [`GetBlockHeaders`](crate::GetBlockHeaders).
    pub content: T,
}

impl<T: Encodable> Encodable for WithRequestId<T> {
    ghost item = { λ w. list_of (number_item w.request_id ∷ T.item w.content ∷ []) };

    ghost fits = { λ w. FitsBytes 8 w.request_id × (T.fits w.content × ⊤) };

    fn rlp_append(&self, s: &mut RlpStream) -> Result<(), AllocError> {
        rlp::append_fields!(s, &self.request_id, &self.content)
    }
}

impl<T: Decodable> Decodable for WithRequestId<T> {
    ghost reading = { with_request_id_reading T.reading };

    fn decode(alloc: Global, rlp: &Rlp<'_>) -> Result<WithRequestId<T>, DecoderError> {
        rlp::decode_fields!(
            alloc,
            rlp,
            WithRequestId {
                request_id,
                content
            }
        )
    }
}

impl<T: DecodePlaced> DecodePlaced for WithRequestId<T> {
    fn put_path(alloc: Global, rlp: &Rlp<'_>, path: &mut Vec<usize>) -> Result<(), AllocError> {
        rlp::put_struct_path!(alloc, rlp, path, u64, T)
    }
}

impl<T: StrictRead> RoundTrip for WithRequestId<T> {
    ghost round_trip = { (with_request_id (codec_of T.fits T.item T.reading T.strict)).reads_back };
}

impl<T: StrictRead> StrictRead for WithRequestId<T> {
    ghost strict = { (with_request_id (codec_of T.fits T.item T.reading T.strict)).reads_strictly };
}

/// A block, by its hash or its number. A string of 32 bytes is a hash, and a string of at most
/// eight bytes is a number.
#[derive(Debug, Clone, Copy, PartialEq, Eq)]
pub enum HashOrNumber {
    /// The block with this hash.
    Hash(Hash),
    /// The block with this number.
    Number(u64),
}

impl Encodable for HashOrNumber {
    ghost item = { hash_or_number.item };

    ghost fits = { hash_or_number.Fits };

    #[tactic(auto, using(rlp::proofs::Writing::writing))]
    fn rlp_append(&self, s: &mut RlpStream) -> Result<(), AllocError> {
        match self {
            HashOrNumber::Hash(hash) => hash.rlp_append(s),
            HashOrNumber::Number(number) => number.rlp_append(s),
        }
    }
}

/// Reading fails as reading a number does: with `RlpIsTooBig` if the string has more than eight
/// bytes but not 32, and with `RlpInvalidIndirection` if it has at most eight bytes and begins with
/// a zero. It doesn't allocate.
impl Record for HashOrNumber {
    ghost reading = { hash_or_number.reading };

    #[tactic(auto, using(crate::proofs::Found::hash_or_number_found))]
    fn decode(alloc: Global, rlp: &Rlp<'_>) -> Result<HashOrNumber, DecoderError> {
        match rlp.as_val(alloc) {
            Ok(hash) => Ok(HashOrNumber::Hash(hash)),
            Err(_) => Ok(HashOrNumber::Number(rlp.as_val(alloc)?)),
        }
    }

    fn put_path(_alloc: Global, _rlp: &Rlp<'_>, _path: &mut Vec<usize>) -> Result<(), AllocError> {
        Ok(())
    }

    ghost lawful = { hash_or_number.reads_strictly };
}
