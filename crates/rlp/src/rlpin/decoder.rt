//! A decoder of one string.

ghost use Rattle.std.specs.{Prelude.{◌≡◌, ◌+◌, ◌-◌, length, IsTrue, Ok, Err, IfOk, IfErr, IfSome, IsErrAnd, MatchResult}, Fn.FnReturnsAt};
ghost use Rattle.rlp_reading.specs.{Views.View.{HoldsNoString, HoldsString, view_of, view_string, View}};

use crate::rlpin::rlp::Rlp;
use rlp_reading::error::DecoderError;
use rlp_reading::framed::is_followed;
use rlp_reading::string_reading::string_in;
use std::marker::Model;

/// A decoder of the string that bytes begin with. Contracts see it as the record `View` of its
/// bytes and its kind.
#[derive(Drop)]
pub struct BasicDecoder<'a> {
    rlp: Rlp<'a>,
}

impl<'a> Model for BasicDecoder<'a> {
    ghost Value = { View };

    ghost view = { λ d. d.rlp };
}

impl<'a> BasicDecoder<'a> {
    /// A lenient decoder of these bytes. It doesn't read them yet.
    pub fn new(rlp: &'a [u8]) -> BasicDecoder<'a>
        ensures { result ≡ view_of rlp.now }
    {
        BasicDecoder::of(Rlp::new(rlp))
    }

    /// A decoder of the bytes of a view, of the same kind.
    #[inline(always)]
    pub(crate) fn of(rlp: Rlp<'a>) -> BasicDecoder<'a>
        ensures { result ≡ rlp.entry }
    {
        BasicDecoder { rlp }
    }

    /// Calls `f` with the string that the bytes begin with, without its header, and returns its
    /// result. A lenient decoder ignores what follows the string. A strict one fails with
    /// `RlpIsTooBig` if bytes follow it.
    ///
    /// If the bytes begin with no string, `f` isn't called. The call then fails with:
    ///
    /// - `RlpIsTooShort` if there are no bytes;
    /// - `RlpExpectedToBeData` for a list;
    /// - `RlpInconsistentLengthAndData` if the bytes end before the string or its length does;
    /// - `RlpInvalidLength` if header and string would be longer than 2^64 - 1 bytes;
    /// - `RlpInvalidIndirection` if the canonical form of the string or of its length is shorter.
    ///
    /// ```rust
    /// let decoder = rlp::BasicDecoder::new(&[0x83, b'c', b'a', b't']);
    /// let len = decoder.decode_value(|string: &[u8]| -> Result<usize, rlp::DecoderError> { Ok(string.len()) })?;
    /// assert_eq!(rt; len, 3);
    /// ```
    #[tactic(auto, using(rlp_reading::proofs::Lemmas::StringsHeld::missing_held))]
    pub fn decode_value<T, E, F>(&self, f: F) -> Result<T, E>
    where
        E: From<DecoderError>,
        F: Fn(&[u8]) -> Result<T, E> + Drop,
        requires { F.IsAlwaysCallable f }
        ensures found { IfOk (view_string self.now) (λ d. HoldsString self.now d
            × FnReturnsAt F.Fn f d result) }
        ensures missing { IfErr (view_string self.now) (λ e. HoldsNoString self.now
            × IsErrAnd result (λ x. E.from_gives e x)) }
    {
        match self.string() {
            Ok(string) => f(string),
            Err(fault) => Err(E::from(fault)),
        }
    }

    /// The string that the bytes begin with, without its header. The string is a part of the bytes,
    /// so the call doesn't allocate.
    ///
    /// Fails as [`BasicDecoder::decode_value`] does. A strict decoder fails with the fault of the
    /// string, or else with `RlpIsTooBig` if bytes follow the string.
    ///
    /// ```rust
    /// let decoder = rlp::BasicDecoder::new(&[0x83, b'c', b'a', b't']);
    /// assert_eq!(rt; decoder.string()?, b"cat".as_slice());
    /// ```
    pub fn string(&self) -> Result<&'a [u8], DecoderError>
        ensures exact { MatchResult result (λ d. view_string self.now ≡ Ok d.now)
            (λ e. view_string self.now ≡ Err e) }
        ensures held { MatchResult (view_string self.now) (λ d. HoldsString self.now d)
            (λ _. HoldsNoString self.now) }
    {
        self.string_in_line()
    }

    /// The same as [`BasicDecoder::string`]. A string with a header of one byte is read in line.
    #[inline(always)]
    pub(crate) fn string_in_line(&self) -> Result<&'a [u8], DecoderError>
        ensures exact { MatchResult result (λ d. view_string self.now ≡ Ok d.now)
            (λ e. view_string self.now ≡ Err e) }
        ensures held { MatchResult (view_string self.now) (λ d. HoldsString self.now d)
            (λ _. HoldsNoString self.now) }
    {
        let (bytes, is_strict) = (self.rlp.as_raw(), self.rlp.is_strict());
        match short_string(bytes, is_strict) {
            Some(string) => Ok(string),
            None => any_string(bytes, is_strict),
        }
    }

    /// The same as [`BasicDecoder::string`], by the bytes alone.
    #[inline(always)]
    #[tactic(auto, using(rlp_reading::proofs::Lemmas::StringsHeld::held_too_big, rlp_reading::proofs::Lemmas::StringsHeld::held_whole, rlp_reading::proofs::Lemmas::StringsHeld::held_front, rlp_reading::proofs::Lemmas::StringsHeld::held_fault, rlp_reading::proofs::Lemmas::StringsHeld::held_from))]
    fn read_string(&self) -> Result<&'a [u8], DecoderError>
        ensures exact { MatchResult result (λ d. view_string self.now ≡ Ok d.now)
            (λ e. view_string self.now ≡ Err e) }
        ensures held { MatchResult (view_string self.now) (λ d. HoldsString self.now d)
            (λ _. HoldsNoString self.now) }
    {
        let bytes = self.rlp.as_raw();
        let string = match string_in(bytes) {
            Ok(string) => string,
            Err(fault) => return Err(fault),
        };
        if self.rlp.is_strict() && is_followed(bytes) {
            return Err(DecoderError::RlpIsTooBig);
        }
        Ok(string)
    }
}

/// The string that a view begins with, or its fault. The arguments are the parts of the view, so
/// that they stay in registers.
#[inline(never)]
fn any_string(bytes: &[u8], strict: bool) -> Result<&[u8], DecoderError>
    ensures exact { MatchResult result
        (λ d. view_string (record { bytes = bytes.now; is_strict = strict }) ≡ Ok d.now)
        (λ e. view_string (record { bytes = bytes.now; is_strict = strict }) ≡ Err e) }
    ensures held { MatchResult (view_string (record { bytes = bytes.now; is_strict = strict }))
        (λ d. HoldsString (record { bytes = bytes.now; is_strict = strict }) d)
        (λ _. HoldsNoString (record { bytes = bytes.now; is_strict = strict })) }
{
    Rlp::of_kind(bytes, strict).decoder().read_string()
}

/// Whether an item may end at `len`: nothing follows it if it is read strictly.
#[inline(always)]
pub(crate) fn may_end_at(bytes: &[u8], strict: bool, len: usize) -> bool
    ensures { IsTrue result → IsTrue strict → length bytes.now ≡ len }
{
    !strict || bytes.len() == len
}

/// The string that bytes begin with, if it is its own encoding or has a header of one byte, and
/// nothing is wrong with it. `None` says nothing about the bytes. The arguments are the parts of a
/// view, so that they stay in registers.
#[inline(always)]
#[tactic(auto, using(rlp_reading::proofs::Lemmas::StringsHeld::first_held, rlp_reading::proofs::Lemmas::StringsHeld::after_held))]
pub(crate) fn short_string(bytes: &[u8], strict: bool) -> Option<&[u8]>
    ensures held { IfSome result
        (λ d. HoldsString (record { bytes = bytes.now; is_strict = strict }) d.now) }
    ensures exact { IfSome result
        (λ d. view_string (record { bytes = bytes.now; is_strict = strict }) ≡ Ok d.now) }
{
    match bytes {
        [0x00..=0x7f, ..] if may_end_at(bytes, strict, 1) => Some(&bytes[..1]),
        [header @ 0x80..=0xb7, rest @ ..] => {
            let len = (*header - 0x80) as usize;
            if len > rest.len() || !may_end_at(bytes, strict, 1 + len) {
                return None;
            }
            if len == 1 && rest[0] < 0x80 {
                return None;
            }
            Some(&rest[..len])
        }
        _ => None,
    }
}
