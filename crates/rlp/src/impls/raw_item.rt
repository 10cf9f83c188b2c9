//! Items of any kind, kept as the bytes of their encodings.

ghost use Rattle.std.specs.{Prelude.{◌≡◌, ◌⊎◌, Ok, Err, IfOk, IfErr, false, nat_eq}, Cmp.partial_equiv_from_equiv, Cmp.Lexicographic.{nat_list_eq_equiv, pointwise}};
ghost use Rattle.rlp_reading.specs.{declared.error.DecoderError.TheVariants.OutOfMemory, Views.View.strict_view_of, Format.Framing.IsCanonicalWithin};
ghost use Rattle.rlp_reading.specs.{Values.RawItem.{IsRawItem, deepest_raw_item, raw_item_of}, Form.{fault_of, raw_of}};
ghost use Rattle.rlp_format.specs.Format.Encoding.{encoding};
ghost use Rattle.rlp_reading.proofs.RawLaws.{raw_only};
ghost use Rattle.rlp.specs.Codec.{raw_item};

use crate::rlpin::Rlp;
use crate::traits::{Decodable, RoundTrip, Scalar, StrictRead};
use bytes::BytesMut;
use rlp_reading::error::DecoderError;
use rlp_write::{Encodable, RlpStream, append_list_encoding};
use std::alloc::{AllocError, Global};
use std::marker::Model;

/// An item of any kind, kept as the bytes of its encoding. It is for a field whose type isn't
/// known, such as the values of a node record.
///
/// The bytes are always the canonical encoding of one item, of depth at most
/// [`RawItem::MAX_DEPTH`]. Contracts see a raw item as these bytes.
///
/// ```rust
/// let item = rlp::decode::<rlp::RawItem>(alloc, &[0xc1, 0x05, 0xff])?;
/// assert_eq!(rt; item.as_bytes(), [0xc1, 0x05].as_slice());
/// ```
#[derive(Debug, Drop)]
pub struct RawItem {
    bytes: Vec<u8>,
}

impl Model for RawItem {
    ghost use Rattle.std.specs.Prelude.{List, ℕ};
    ghost use Rattle.rlp_reading.specs.Values.RawItem.{IsRawItem};

    ghost Value = { List ℕ };

    ghost view = { λ r. r.bytes.items };

    ghost invariant = { λ r. IsRawItem r.bytes.items };
}

impl RawItem {
    /// The greatest depth of a raw item. A string has depth 0. A list has a depth of 1 more than
    /// the deepest of its items, or 1 without items.
    pub const MAX_DEPTH: usize = 256;

    /// The raw item of these bytes, which it copies.
    ///
    /// Fails with `Custom("item nests too deep")` if lists nest deeper than
    /// [`RawItem::MAX_DEPTH`], and with `Custom("item is not canonical")` if the bytes aren't the
    /// canonical encoding of one item. Fails with `OutOfMemory` if memory is refused.
    ///
    /// ```rust
    /// let item = rlp::RawItem::new(alloc, &[0xc1, 0x05])?;
    /// assert!(rt; rlp::RawItem::new(alloc, &[0x81, 0x05]).is_err());
    /// ```
    #[tactic(auto, using(rlp_reading::proofs::RawLaws::raw_readings, rlp_reading::proofs::RawLaws::raw_if))]
    pub fn new(alloc: Global, bytes: &[u8]) -> Result<RawItem, DecoderError>
        ensures value { IfOk result (λ r. (r ≡ bytes.now) × IsRawItem bytes.now) }
        ensures read { IfOk result (λ r. raw_of bytes.now ≡ Ok r) }
        ensures fault { IfErr result (λ e. (raw_of bytes.now ≡ Err (fault_of e))
            ⊎ ((e ≡ OutOfMemory) × (raw_of bytes.now ≡ Ok bytes.now))) }
    {
        let view = Rlp::new(bytes);
        if !view.is_canonical(RawItem::MAX_DEPTH) {
            if view.is_nested_within(RawItem::MAX_DEPTH) {
                return Err(DecoderError::Custom("item is not canonical"));
            }
            return Err(DecoderError::Custom("item nests too deep"));
        }
        let bytes = Vec::from_slice(alloc, bytes)?;
        Ok(RawItem { bytes })
    }

    /// The bytes: the encoding of the item.
    #[tactic(auto, using(rlp_reading::proofs::RawLaws::raw_bytes))]
    pub fn as_bytes(&self) -> &[u8]
        ensures bytes { result.now ≡ self.now }
        ensures canonical { IsRawItem self.now × IsCanonicalWithin deepest_raw_item self.now }
        ensures written { encoding (raw_item_of self.now) ≡ self.now }
    {
        self.bytes.as_slice()
    }

    /// A strict view of the bytes, to read the item from.
    pub fn rlp(&self) -> Rlp<'_>
        ensures view { result ≡ strict_view_of self.now }
        ensures canonical { IsRawItem self.now }
    {
        Rlp::new_strict(self.as_bytes())
    }
}

/// Two raw items are equal if their bytes are.
impl PartialEq for RawItem {
    ghost eq = { pointwise nat_eq };

    ghost laws = { partial_equiv_from_equiv nat_list_eq_equiv };

    fn eq(&self, other: &Self) -> bool {
        self.as_bytes() == other.as_bytes()
    }
}

impl Eq for RawItem {
    ghost laws = { nat_list_eq_equiv };
}

/// Copies the bytes. Fails with `AllocError` if memory is refused.
impl Clone for RawItem {
    ghost is_clone = { λ r copy. copy ≡ r };

    fn clone(&self) -> Result<RawItem, AllocError> {
        let bytes = self.bytes.clone()?;
        Ok(RawItem { bytes })
    }
}

/// Writes the bytes as they are.
impl Encodable for RawItem {
    ghost item = { raw_item.item };

    ghost fits = { raw_item.Fits };

    #[tactic(auto, using(crate::proofs::RawWriting::raw_items))]
    fn rlp_append(&self, s: &mut RlpStream) -> Result<(), AllocError> {
        let bytes = self.as_bytes();
        let item = Rlp::new_strict(bytes);
        if item.is_list() {
            return append_list_encoding(s, bytes);
        }
        match item.decoder().string() {
            Ok(string) => s.encoder().encode_value(string),
            Err(_) => Err(AllocError),
        }
    }

    fn rlp_bytes(&self, alloc: Global) -> Result<BytesMut, AllocError> {
        BytesMut::copy_from_slice(alloc, self.as_bytes())
    }
}

/// Reads the bytes of the first item, with one copy, whatever the item is.
///
/// Reading fails as [`Rlp::payload_info`] does if the view doesn't begin with a framed item, and as
/// [`RawItem::new`] does if the item isn't canonical or nests too deep. A lenient view fails in the
/// same cases: it ignores only the bytes that follow the item.
impl Decodable for RawItem {
    ghost reading = { raw_item.reading };

    fn decode(alloc: Global, rlp: &Rlp<'_>) -> Result<RawItem, DecoderError> {
        let (item, _) = rlp.split_first()?;
        RawItem::new(alloc, item.as_raw())
    }
}

impl RoundTrip for RawItem {
    ghost round_trip = { raw_item.reads_back };
}

impl Scalar for RawItem {
    ghost exact = { raw_only false };
}

impl StrictRead for RawItem {
    ghost strict = { raw_item.reads_strictly };
}
