//! Byte strings, byte arrays, buffers and text: written as the string of their bytes.

ghost use Rattle.std.specs.{String.string_bytes, Vec.vec_items};
ghost use Rattle.rlp_reading.proofs.StringLaws.{array_scalar, bytes_scalar, text_scalar};
ghost use Rattle.rlp.specs.Codec.{byte_array, byte_string, text};

use crate::rlpin::Rlp;
use crate::traits::{Decodable, RoundTrip, Scalar, StrictRead};
use bytes::{Bytes, BytesMut};
use rlp_reading::error::DecoderError;
use std::alloc::Global;

/// Reads the bytes of a string, with one copy.
impl Decodable for Vec<u8> {
    ghost reading = { (byte_string vec_items).reading };

    #[inline(always)]
    fn decode(alloc: Global, rlp: &Rlp<'_>) -> Result<Vec<u8>, DecoderError> {
        let string = rlp.decoder().string_in_line()?;
        Ok(Vec::from_slice(alloc, string)?)
    }
}

impl RoundTrip for Vec<u8> {
    ghost round_trip = { (byte_string vec_items).reads_back };
}

impl Scalar for Vec<u8> {
    ghost exact = { bytes_scalar vec_items };
}

impl StrictRead for Vec<u8> {
    ghost strict = { (byte_string vec_items).reads_strictly };
}

/// Reads a string of exactly `N` bytes. It doesn't allocate.
///
/// Fails with `RlpIsTooShort` if the string is shorter, and with `RlpIsTooBig` if it is longer.
impl<const N: usize> Decodable for [u8; N] {
    ghost reading = { (byte_array N).reading };

    fn decode(_alloc: Global, rlp: &Rlp<'_>) -> Result<[u8; N], DecoderError> {
        let string = rlp.decoder().string()?;
        match <[u8; N]>::try_from(string) {
            Ok(bytes) => Ok(bytes),
            Err(_) if string.len() < N => Err(DecoderError::RlpIsTooShort),
            Err(_) => Err(DecoderError::RlpIsTooBig),
        }
    }
}

impl<const N: usize> RoundTrip for [u8; N] {
    ghost round_trip = { (byte_array N).reads_back };
}

impl<const N: usize> Scalar for [u8; N] {
    ghost exact = { array_scalar N };
}

impl<const N: usize> StrictRead for [u8; N] {
    ghost strict = { (byte_array N).reads_strictly };
}

/// Reads the bytes of a string, with one copy, as a buffer that is shared without a copy.
impl Decodable for Bytes {
    ghost reading = { (byte_string (λ (b : Self). b)).reading };

    fn decode(alloc: Global, rlp: &Rlp<'_>) -> Result<Bytes, DecoderError> {
        let string = rlp.decoder().string()?;
        Ok(Bytes::copy_from_slice(alloc, string)?)
    }
}

impl RoundTrip for Bytes {
    ghost round_trip = { (byte_string (λ (b : Self). b)).reads_back };
}

impl Scalar for Bytes {
    ghost exact = { bytes_scalar (λ (b : Self). b) };
}

impl StrictRead for Bytes {
    ghost strict = { (byte_string (λ (b : Self). b)).reads_strictly };
}

/// Reads the bytes of a string, with one copy, as a buffer that grows.
impl Decodable for BytesMut {
    ghost reading = { (byte_string (λ (b : Self). b.items)).reading };

    fn decode(alloc: Global, rlp: &Rlp<'_>) -> Result<BytesMut, DecoderError> {
        let string = rlp.decoder().string()?;
        Ok(BytesMut::copy_from_slice(alloc, string)?)
    }
}

impl RoundTrip for BytesMut {
    ghost round_trip = { (byte_string (λ (b : Self). b.items)).reads_back };
}

impl Scalar for BytesMut {
    ghost exact = { bytes_scalar (λ (b : Self). b.items) };
}

impl StrictRead for BytesMut {
    ghost strict = { (byte_string (λ (b : Self). b.items)).reads_strictly };
}

/// Reads a string as text, with one copy. Fails with `RlpExpectedToBeData` if the bytes aren't
/// UTF-8.
impl Decodable for String {
    ghost reading = { (text string_bytes).reading };

    #[inline(always)]
    #[tactic(auto, using(rlp_reading::proofs::StringLaws::texts))]
    fn decode(alloc: Global, rlp: &Rlp<'_>) -> Result<String, DecoderError> {
        let string = rlp.decoder().string_in_line()?;
        let Ok(text) = str::from_utf8(string) else {
            return Err(DecoderError::RlpExpectedToBeData);
        };
        Ok(String::from_str(alloc, text)?)
    }
}

impl RoundTrip for String {
    ghost round_trip = { (text string_bytes).reads_back };
}

impl Scalar for String {
    ghost exact = { text_scalar string_bytes };
}

impl StrictRead for String {
    ghost strict = { (text string_bytes).reads_strictly };
}
