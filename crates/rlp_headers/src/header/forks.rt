//! The fields that forks added to headers of blocks.
//!
//! A fork's struct has its fields and, as an `Option`, the struct of the next fork. So a header
//! that has the fields of a fork has the fields of each earlier fork.

ghost use Rattle.rlp_headers.specs.Forks.{amsterdam_fields, cancun_fields, london_fields, prague_fields, shanghai_fields};

use rlp::{
    AppendFields, CountedFields, DecodeFields, DecodeFieldsPlaced, DecoderError, Fields, Optional,
    OptionalField, OptionalGroup, OptionalGroupOf, RlpStream, Uint,
};
use rlp_records::Hash;
use std::alloc::{AllocError, Global};

/// What a header has since London: one field, and the fields of later forks.
#[derive(Debug, Clone, Copy, PartialEq, Eq)]
pub struct London {
    /// The base fee of a unit of gas, in Wei. EIP-1559.
    pub base_fee_per_gas: Uint<32>,
    /// What came with Shanghai and later, or `None` in blocks before Shanghai.
    pub since_shanghai: Option<Shanghai>,
}

impl AppendFields for London {
    ghost items = { london_fields.items };

    ghost fit = { london_fields.Fits };

    fn field_count(&self) -> Option<usize> {
        (
            &self.base_fee_per_gas,
            OptionalGroupOf(&self.since_shanghai),
        )
            .field_count()
    }

    fn append_fields(&self, s: &mut RlpStream) -> Result<(), AllocError> {
        (
            &self.base_fee_per_gas,
            OptionalGroupOf(&self.since_shanghai),
        )
            .append_fields(s)
    }
}

impl DecodeFields for London {
    ghost reading = { london_fields.reading };

    fn accepts(len: usize) -> bool {
        <(Uint<32>, OptionalGroup<Shanghai>) as DecodeFields>::accepts(len)
    }

    fn decode_fields(alloc: Global, fields: &mut Fields<'_>) -> Result<London, DecoderError> {
        rlp::decode_fields!(
            fields alloc,
            fields,
            London {
                base_fee_per_gas,
                since_shanghai: (..)?
            }
        )
    }

    ghost possible = { london_fields.laws.possible };
}

impl DecodeFieldsPlaced for London {
    fn put_path(
        alloc: Global,
        fields: &mut CountedFields<'_>,
        path: &mut Vec<usize>,
    ) -> Result<bool, AllocError> {
        <(Uint<32>, OptionalGroup<Shanghai>) as DecodeFieldsPlaced>::put_path(alloc, fields, path)
    }
}

/// What a header has since Shanghai: one field, and the fields of later forks.
#[derive(Debug, Clone, Copy, PartialEq, Eq)]
pub struct Shanghai {
    /// The root of the trie of the block's withdrawals. EIP-4895.
    pub withdrawals_root: Hash,
    /// What came with Cancun and later, or `None` in blocks before Cancun.
    pub since_cancun: Option<Cancun>,
}

impl AppendFields for Shanghai {
    ghost items = { shanghai_fields.items };

    ghost fit = { shanghai_fields.Fits };

    fn field_count(&self) -> Option<usize> {
        (&self.withdrawals_root, OptionalGroupOf(&self.since_cancun)).field_count()
    }

    fn append_fields(&self, s: &mut RlpStream) -> Result<(), AllocError> {
        (&self.withdrawals_root, OptionalGroupOf(&self.since_cancun)).append_fields(s)
    }
}

impl DecodeFields for Shanghai {
    ghost reading = { shanghai_fields.reading };

    fn accepts(len: usize) -> bool {
        <(Hash, OptionalGroup<Cancun>) as DecodeFields>::accepts(len)
    }

    fn decode_fields(alloc: Global, fields: &mut Fields<'_>) -> Result<Shanghai, DecoderError> {
        rlp::decode_fields!(
            fields alloc,
            fields,
            Shanghai {
                withdrawals_root,
                since_cancun: (..)?
            }
        )
    }

    ghost possible = { shanghai_fields.laws.possible };
}

impl DecodeFieldsPlaced for Shanghai {
    fn put_path(
        alloc: Global,
        fields: &mut CountedFields<'_>,
        path: &mut Vec<usize>,
    ) -> Result<bool, AllocError> {
        <(Hash, OptionalGroup<Cancun>) as DecodeFieldsPlaced>::put_path(alloc, fields, path)
    }
}

/// What a header has since Cancun: three fields, and the fields of later forks.
#[derive(Debug, Clone, Copy, PartialEq, Eq)]
pub struct Cancun {
    /// The blob gas that the block's transactions used. EIP-4844.
    pub blob_gas_used: u64,
    /// The blob gas above the target, summed over the blocks so far. EIP-4844.
    pub excess_blob_gas: u64,
    /// The root of the parent's block of the beacon chain. EIP-4788.
    pub parent_beacon_block_root: Hash,
    /// What came with Prague and later, or `None` in blocks before Prague.
    pub since_prague: Option<Prague>,
}

impl AppendFields for Cancun {
    ghost items = { cancun_fields.items };

    ghost fit = { cancun_fields.Fits };

    fn field_count(&self) -> Option<usize> {
        rlp::append_fields!([
            &self.blob_gas_used,
            &self.excess_blob_gas,
            &self.parent_beacon_block_root,
            OptionalGroupOf(&self.since_prague)
        ])
        .field_count()
    }

    fn append_fields(&self, s: &mut RlpStream) -> Result<(), AllocError> {
        rlp::append_fields!([
            &self.blob_gas_used,
            &self.excess_blob_gas,
            &self.parent_beacon_block_root,
            OptionalGroupOf(&self.since_prague)
        ])
        .append_fields(s)
    }
}

impl DecodeFields for Cancun {
    ghost reading = { cancun_fields.reading };

    fn accepts(len: usize) -> bool {
        <(u64, (u64, (Hash, OptionalGroup<Prague>))) as DecodeFields>::accepts(len)
    }

    fn decode_fields(alloc: Global, fields: &mut Fields<'_>) -> Result<Cancun, DecoderError> {
        rlp::decode_fields!(
            fields alloc,
            fields,
            Cancun {
                blob_gas_used,
                excess_blob_gas,
                parent_beacon_block_root,
                since_prague: (..)?
            }
        )
    }

    ghost possible = { cancun_fields.laws.possible };
}

impl DecodeFieldsPlaced for Cancun {
    fn put_path(
        alloc: Global,
        fields: &mut CountedFields<'_>,
        path: &mut Vec<usize>,
    ) -> Result<bool, AllocError> {
        <(u64, (u64, (Hash, OptionalGroup<Prague>))) as DecodeFieldsPlaced>::put_path(
            alloc, fields, path,
        )
    }
}

/// What a header has since Prague: one field, and the fields of later forks.
#[derive(Debug, Clone, Copy, PartialEq, Eq)]
pub struct Prague {
    /// The hash of the block's requests. EIP-7685.
    pub requests_hash: Hash,
    /// What came with Amsterdam, or `None` in blocks before Amsterdam.
    pub since_amsterdam: Option<Amsterdam>,
}

impl AppendFields for Prague {
    ghost items = { prague_fields.items };

    ghost fit = { prague_fields.Fits };

    fn field_count(&self) -> Option<usize> {
        (&self.requests_hash, OptionalGroupOf(&self.since_amsterdam)).field_count()
    }

    fn append_fields(&self, s: &mut RlpStream) -> Result<(), AllocError> {
        (&self.requests_hash, OptionalGroupOf(&self.since_amsterdam)).append_fields(s)
    }
}

impl DecodeFields for Prague {
    ghost reading = { prague_fields.reading };

    fn accepts(len: usize) -> bool {
        <(Hash, OptionalGroup<Amsterdam>) as DecodeFields>::accepts(len)
    }

    fn decode_fields(alloc: Global, fields: &mut Fields<'_>) -> Result<Prague, DecoderError> {
        rlp::decode_fields!(
            fields alloc,
            fields,
            Prague {
                requests_hash,
                since_amsterdam: (..)?
            }
        )
    }

    ghost possible = { prague_fields.laws.possible };
}

impl DecodeFieldsPlaced for Prague {
    fn put_path(
        alloc: Global,
        fields: &mut CountedFields<'_>,
        path: &mut Vec<usize>,
    ) -> Result<bool, AllocError> {
        <(Hash, OptionalGroup<Amsterdam>) as DecodeFieldsPlaced>::put_path(alloc, fields, path)
    }
}

/// What a header has since Amsterdam: one field, and maybe a second.
///
/// The fields follow the drafts of EIP-7928 and EIP-7843, and may change. A header that follows
/// only EIP-7928 has no slot.
#[derive(Debug, Clone, Copy, PartialEq, Eq)]
pub struct Amsterdam {
    /// The hash of the encoding of the block's access list. EIP-7928.
    pub block_access_list_hash: Hash,
    /// The slot of the beacon chain that the block is for, or `None` if the header has no slot.
    /// EIP-7843.
    pub slot_number: Option<u64>,
}

impl AppendFields for Amsterdam {
    ghost items = { amsterdam_fields.items };

    ghost fit = { amsterdam_fields.Fits };

    fn field_count(&self) -> Option<usize> {
        (&self.block_access_list_hash, Optional(&self.slot_number)).field_count()
    }

    fn append_fields(&self, s: &mut RlpStream) -> Result<(), AllocError> {
        (&self.block_access_list_hash, Optional(&self.slot_number)).append_fields(s)
    }
}

impl DecodeFields for Amsterdam {
    ghost reading = { amsterdam_fields.reading };

    fn accepts(len: usize) -> bool {
        <(Hash, OptionalField<u64>) as DecodeFields>::accepts(len)
    }

    fn decode_fields(alloc: Global, fields: &mut Fields<'_>) -> Result<Amsterdam, DecoderError> {
        rlp::decode_fields!(
            fields alloc,
            fields,
            Amsterdam {
                block_access_list_hash,
                slot_number: ?
            }
        )
    }

    ghost possible = { amsterdam_fields.laws.possible };
}

impl DecodeFieldsPlaced for Amsterdam {
    fn put_path(
        alloc: Global,
        fields: &mut CountedFields<'_>,
        path: &mut Vec<usize>,
    ) -> Result<bool, AllocError> {
        <(Hash, OptionalField<u64>) as DecodeFieldsPlaced>::put_path(alloc, fields, path)
    }
}
