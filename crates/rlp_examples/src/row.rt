//! A row of a table: the list of its twenty columns.

ghost use Rattle.rlp_examples.specs.Row.{row};

use rlp::{
    Decodable, DecodePlaced, DecoderError, Encodable, Joined, Rlp, RlpStream, RoundTrip, StrictRead,
};
use std::alloc::{AllocError, Global};

/// A row of a table with twenty columns, which are counted from 1. It shows a struct of many
/// fields, which are read in groups.
#[derive(Drop)]
pub struct Row {
    pub column_1: u64,
    pub column_2: [u8; 32],
    pub column_3: Vec<u8>,
    pub column_4: [u8; 8],
    pub column_5: u64,
    pub column_6: [u8; 32],
    pub column_7: Vec<u8>,
    pub column_8: [u8; 8],
    pub column_9: u64,
    pub column_10: [u8; 32],
    pub column_11: Vec<u8>,
    pub column_12: [u8; 8],
    pub column_13: u64,
    pub column_14: [u8; 32],
    pub column_15: Vec<u8>,
    pub column_16: [u8; 8],
    pub column_17: u64,
    pub column_18: [u8; 32],
    pub column_19: Vec<u8>,
    pub column_20: [u8; 8],
}

impl Encodable for Row {
    ghost item = { row.item };

    ghost fits = { row.Fits };

    fn rlp_append(&self, s: &mut RlpStream) -> Result<(), AllocError> {
        rlp::append_fields!(
            s,
            &self.column_1,
            &self.column_2,
            &self.column_3,
            &self.column_4,
            &self.column_5,
            &self.column_6,
            &self.column_7,
            &self.column_8,
            &self.column_9,
            &self.column_10,
            &self.column_11,
            &self.column_12,
            &self.column_13,
            &self.column_14,
            &self.column_15,
            &self.column_16,
            &self.column_17,
            &self.column_18,
            &self.column_19,
            &self.column_20
        )
    }
}

impl Decodable for Row {
    ghost reading = { row.reading };

    fn decode(alloc: Global, rlp: &Rlp<'_>) -> Result<Row, DecoderError> {
        rlp::decode_fields!(
            alloc,
            rlp,
            Row {
                (
                    column_1,
                    column_2,
                    column_3,
                    column_4,
                    column_5,
                    column_6,
                    column_7,
                    column_8,
                ),
                (
                    column_9,
                    column_10,
                    column_11,
                    column_12,
                    column_13,
                    column_14,
                    column_15,
                    column_16,
                ),
                column_17,
                column_18,
                column_19,
                column_20
            }
        )
    }
}

// The types of four columns, and of the columns after these.
type Four<Q> = (u64, ([u8; 32], (Vec<u8>, ([u8; 8], Q))));

// The types of eight columns.
type Eight = Four<Four<()>>;

impl DecodePlaced for Row {
    fn put_path(alloc: Global, rlp: &Rlp<'_>, path: &mut Vec<usize>) -> Result<(), AllocError> {
        rlp::put_path_of::<Joined<Eight, Joined<Eight, Four<()>>>>(alloc, rlp, path)
    }
}

impl RoundTrip for Row {
    ghost round_trip = { row.reads_back };
}

impl StrictRead for Row {
    ghost strict = { row.reads_strictly };
}
