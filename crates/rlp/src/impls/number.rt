//! Numbers: written as the string of their digits to the base 256, the most significant first.
//! `bool`: written as the numbers 0 and 1.

ghost use Rattle.std.specs.{Prelude.{◌≡◌, ◌≤◌, ◌<◌, false, length, Ok, Err, IfOk, IfErr, IfSome}, Int.Digits.number_from_digits};
ghost use Rattle.rlp_format.specs.Values.Value.{FitsBytes};
ghost use Rattle.rlp_reading.specs.Form.{and_then, fault_of, number_of, string_of};
ghost use Rattle.rlp_reading.proofs.{ListLaws.value_only, StringLaws.{number_scalar, truth_scalar}};
ghost use Rattle.rlp.specs.Codec.{number, plain, truth_value, uint};

use crate::rlpin::{Rlp, may_end_at, short_string};
use crate::traits::{Decodable, RoundTrip, Scalar, StrictRead};
use rlp_format::Uint;
use rlp_format::digits::{number_of, wide_number_of};
use rlp_reading::error::DecoderError;
use rlp_reading::numbers::few_digits;
use std::alloc::Global;

/// Reads a number of at most one byte. Fails with the same errors as for `u64`.
impl Decodable for u8 {
    ghost reading = { (number 1).reading };

    fn decode(_alloc: Global, rlp: &Rlp<'_>) -> Result<u8, DecoderError> {
        Ok(number_within::<1>(rlp)? as u8)
    }
}

/// Reads a number of at most two bytes. Fails with the same errors as for `u64`.
impl Decodable for u16 {
    ghost reading = { (number 2).reading };

    fn decode(_alloc: Global, rlp: &Rlp<'_>) -> Result<u16, DecoderError> {
        Ok(number_within::<2>(rlp)? as u16)
    }
}

/// Reads a number of at most four bytes. Fails with the same errors as for `u64`.
impl Decodable for u32 {
    ghost reading = { (number 4).reading };

    fn decode(_alloc: Global, rlp: &Rlp<'_>) -> Result<u32, DecoderError> {
        Ok(number_within::<4>(rlp)? as u32)
    }
}

/// Reads a number of at most eight bytes. It doesn't allocate.
///
/// Fails with `RlpIsTooBig` if the string has more bytes, and with `RlpInvalidIndirection` if it
/// begins with a zero byte. The number zero is the empty string.
impl Decodable for u64 {
    ghost reading = { (number 8).reading };

    fn decode(_alloc: Global, rlp: &Rlp<'_>) -> Result<u64, DecoderError> {
        Ok(number_within::<8>(rlp)? as u64)
    }
}

/// Reads a number as `u64` does.
impl Decodable for usize {
    ghost reading = { (number 8).reading };

    fn decode(_alloc: Global, rlp: &Rlp<'_>) -> Result<usize, DecoderError> {
        number_within::<8>(rlp)
    }
}

/// Reads a number of at most sixteen bytes. Fails with the same errors as for `u64`.
impl Decodable for u128 {
    ghost reading = { (number 16).reading };

    fn decode(_alloc: Global, rlp: &Rlp<'_>) -> Result<u128, DecoderError> {
        Ok(wide_number_of(number_digits(rlp.as_raw(), rlp.is_strict(), 16)?))
    }
}

/// Reads a number of at most `WIDTH` bytes, from 1 to 8. A number that is its own encoding is read
/// at once. Any other number is read out of line. The header of a number is one byte, and reading
/// it again is faster than looking up its length.
#[inline(always)]
fn number_within<const WIDTH: usize>(rlp: &Rlp<'_>) -> Result<usize, DecoderError>
    requires some { 1 ≤ WIDTH }
    requires few { WIDTH ≤ 8 }
    ensures fits { IfOk result (λ n. FitsBytes WIDTH n) }
    ensures value { IfOk result (λ n. and_then (string_of rlp.now) (number_of WIDTH) ≡ Ok n) }
    ensures fault { IfErr result
        (λ e. and_then (string_of rlp.now) (number_of WIDTH) ≡ Err (fault_of e)) }
{
    let (bytes, is_strict) = (rlp.as_raw(), rlp.is_strict());
    match bytes {
        [digit @ 0x01..=0x7f, ..] if may_end_at(bytes, is_strict, 1) => Ok(*digit as usize),
        _ => match short_number::<WIDTH>(bytes, is_strict) {
            Some(number) => Ok(number),
            None => any_number(bytes, is_strict, WIDTH),
        },
    }
}

/// Reads a number of at most `WIDTH` bytes, and at most 8, if its header is one byte and nothing is
/// wrong with it. `None` says nothing about the bytes. It is compiled for each width.
#[inline(never)]
fn short_number<const WIDTH: usize>(bytes: &[u8], is_strict: bool) -> Option<usize>
    ensures fits { IfSome result (λ n. FitsBytes WIDTH n) }
    ensures value { IfSome result (λ n.
        and_then (string_of (record { bytes = bytes.now; is_strict = is_strict })) (number_of WIDTH)
        ≡ Ok n) }
{
    let digits = short_string(bytes, is_strict)?;
    match check_digits(digits, WIDTH) {
        Ok(()) => few_digits(digits),
        Err(_) => None,
    }
}

/// Returns the digits of a number of at most `width` bytes, if its header is at most one byte and
/// nothing is wrong with it. `None` says nothing about the bytes.
#[inline(always)]
fn short_digits(bytes: &[u8], is_strict: bool, width: usize) -> Option<&[u8]>
    ensures few { IfSome result (λ d. length d.now ≤ width) }
    ensures fits { IfSome result (λ d. FitsBytes width (number_from_digits 256 d.now)) }
    ensures value { IfSome result (λ d.
        and_then (string_of (record { bytes = bytes.now; is_strict = is_strict })) (number_of width)
        ≡ Ok (number_from_digits 256 d.now)) }
{
    let digits = short_string(bytes, is_strict)?;
    match check_digits(digits, width) {
        Ok(()) => Some(digits),
        Err(_) => None,
    }
}

/// Reads a number of at most `width` bytes, at most 8.
#[inline(never)]
fn any_number(bytes: &[u8], is_strict: bool, width: usize) -> Result<usize, DecoderError>
    requires { width ≤ 8 }
    ensures fits { IfOk result (λ n. FitsBytes width n) }
    ensures value { IfOk result (λ n.
        and_then (string_of (record { bytes = bytes.now; is_strict = is_strict })) (number_of width)
        ≡ Ok n) }
    ensures fault { IfErr result (λ e.
        and_then (string_of (record { bytes = bytes.now; is_strict = is_strict })) (number_of width)
        ≡ Err (fault_of e)) }
{
    Ok(number_of(number_digits(bytes, is_strict, width)?))
}

/// Returns the digits of the number of at most `width` bytes that the bytes begin with.
#[inline(never)]
fn number_digits(bytes: &[u8], is_strict: bool, width: usize) -> Result<&[u8], DecoderError>
    ensures few { IfOk result (λ d. length d.now ≤ width) }
    ensures fits { IfOk result (λ d. FitsBytes width (number_from_digits 256 d.now)) }
    ensures value { IfOk result (λ d.
        and_then (string_of (record { bytes = bytes.now; is_strict = is_strict })) (number_of width)
        ≡ Ok (number_from_digits 256 d.now)) }
    ensures fault { IfErr result (λ e.
        and_then (string_of (record { bytes = bytes.now; is_strict = is_strict })) (number_of width)
        ≡ Err (fault_of e)) }
{
    let digits = Rlp::of_kind(bytes, is_strict).decoder().string_in_line()?;
    check_digits(digits, width)?;
    Ok(digits)
}

/// Tests whether these are the digits of a number of at most `width` bytes: first the number of
/// digits, and then the first digit.
#[inline(always)]
#[tactic(auto, using(rlp_reading::proofs::StringLaws::number_fits))]
fn check_digits(digits: &[u8], width: usize) -> Result<(), DecoderError>
    ensures few { IfOk result (λ _. length digits.now ≤ width) }
    ensures fits { IfOk result (λ _. FitsBytes width (number_from_digits 256 digits.now)) }
    ensures value { IfOk result (λ _. number_of width digits.now
        ≡ Ok (number_from_digits 256 digits.now)) }
    ensures fault { IfErr result (λ e. number_of width digits.now ≡ Err (fault_of e)) }
{
    if digits.len() > width {
        return Err(DecoderError::RlpIsTooBig);
    }
    if let [0, ..] = digits {
        return Err(DecoderError::RlpInvalidIndirection);
    }
    Ok(())
}

impl RoundTrip for u8 {
    ghost round_trip = { (number 1).reads_back };
}

impl Scalar for u8 {
    ghost exact = { number_scalar 1 };
}

impl StrictRead for u8 {
    ghost strict = { (number 1).reads_strictly };
}

impl RoundTrip for u16 {
    ghost round_trip = { (number 2).reads_back };
}

impl Scalar for u16 {
    ghost exact = { number_scalar 2 };
}

impl StrictRead for u16 {
    ghost strict = { (number 2).reads_strictly };
}

impl RoundTrip for u32 {
    ghost round_trip = { (number 4).reads_back };
}

impl Scalar for u32 {
    ghost exact = { number_scalar 4 };
}

impl StrictRead for u32 {
    ghost strict = { (number 4).reads_strictly };
}

impl RoundTrip for u64 {
    ghost round_trip = { (number 8).reads_back };
}

impl Scalar for u64 {
    ghost exact = { number_scalar 8 };
}

impl StrictRead for u64 {
    ghost strict = { (number 8).reads_strictly };
}

impl RoundTrip for usize {
    ghost round_trip = { (number 8).reads_back };
}

impl Scalar for usize {
    ghost exact = { number_scalar 8 };
}

impl StrictRead for usize {
    ghost strict = { (number 8).reads_strictly };
}

impl RoundTrip for u128 {
    ghost round_trip = { (number 16).reads_back };
}

impl Scalar for u128 {
    ghost exact = { number_scalar 16 };
}

impl StrictRead for u128 {
    ghost strict = { (number 16).reads_strictly };
}

/// Reads a number of at most `N` bytes. Fails with the same errors as for `u64`.
impl<const N: usize> Decodable for Uint<N> {
    ghost reading = { (uint N).reading };

    #[inline(always)]
    fn decode(_alloc: Global, rlp: &Rlp<'_>) -> Result<Uint<N>, DecoderError> {
        let (bytes, is_strict) = (rlp.as_raw(), rlp.is_strict());
        let digits = match short_digits(bytes, is_strict, N) {
            Some(digits) => digits,
            None => number_digits(bytes, is_strict, N)?,
        };
        Ok(Uint {
            bytes: padded(digits),
        })
    }
}

/// Returns the digits with zeros before them.
fn padded<const N: usize>(digits: &[u8]) -> [u8; N]
    requires { length digits.now ≤ N }
    ensures { number_from_digits 256 result ≡ number_from_digits 256 digits.now }
{
    let mut bytes = [0; N];
    let all = &mut bytes[..];
    all[N - digits.len()..].copy_from_slice(digits);
    bytes
}

impl<const N: usize> RoundTrip for Uint<N> {
    ghost round_trip = { (uint N).reads_back };
}

impl<const N: usize> Scalar for Uint<N> {
    ghost exact = { value_only (plain (number N)) (λ (n : Self). number_from_digits 256 n.bytes) false (number N).reading.Allocates false
        (number_scalar N) };
}

impl<const N: usize> StrictRead for Uint<N> {
    ghost strict = { (uint N).reads_strictly };
}

/// Reads a number as `u8` does: 0 is `false` and 1 is `true`. Fails with
/// `Custom("invalid boolean value")` for other numbers. It doesn't allocate.
impl Decodable for bool {
    ghost reading = { truth_value.reading };

    #[tactic(auto, using(rlp_reading::proofs::StringLaws::other_bool))]
    fn decode(alloc: Global, rlp: &Rlp<'_>) -> Result<bool, DecoderError> {
        match u8::decode(alloc, rlp)? {
            0 => Ok(false),
            1 => Ok(true),
            _ => Err(DecoderError::Custom("invalid boolean value")),
        }
    }
}

impl RoundTrip for bool {
    ghost round_trip = { truth_value.reads_back };
}

impl Scalar for bool {
    ghost exact = { truth_scalar };
}

impl StrictRead for bool {
    ghost strict = { truth_value.reads_strictly };
}
