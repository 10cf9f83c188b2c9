//! Strings that hold a tag and the encoding of a payload.

ghost use Rattle.std.specs.Prelude.{◌≡◌, ◌∷◌, ◌⊎◌, [], Err, IfErr, IfOk, Ok};
ghost use Rattle.rlp_reading.specs.{declared.error.DecoderError.TheVariants.{OutOfMemory, RlpIsTooShort}, Views.View.strict_view_of, Form.{Faults, MayLackMemory, fault_of, string_of}};
ghost use Rattle.rlp_format.specs.Format.Encoding.{encoding};

use crate::decode_whole;
use crate::rlpin::Rlp;
use crate::traits::StrictRead;
use rlp_reading::error::DecoderError;
use std::alloc::Global;

/// A string whose first byte is a tag: the tag, and the bytes after it, which should be the
/// encoding of a payload. Typed transactions of EIP-2718 are such strings.
#[derive(Debug, Clone, Copy)]
pub struct Envelope<'a> {
    /// The first byte of the string.
    pub tag: u8,
    /// The bytes after the tag.
    pub payload: &'a [u8],
}

impl<'a> Envelope<'a> {
    /// Reads the string that a view begins with, and splits off its first byte. It doesn't
    /// allocate.
    ///
    /// Fails as [`crate::BasicDecoder::string`] does, or with `RlpIsTooShort` if the string is
    /// empty.
    pub fn of(rlp: &Rlp<'a>) -> Result<Envelope<'a>, DecoderError>
        ensures value { IfOk result (λ x. string_of rlp.now ≡ Ok (x.tag ∷ x.payload.now)) }
        ensures fault { IfErr result (λ e. (string_of rlp.now ≡ Err (fault_of e))
            ⊎ ((string_of rlp.now ≡ Ok []) × (e ≡ RlpIsTooShort))) }
    {
        Envelope::split(rlp.decoder().string()?)
    }

    /// Splits an envelope that isn't in a string: the first byte, and the bytes after it. Fails
    /// with `RlpIsTooShort` if there are no bytes.
    pub fn split(bytes: &'a [u8]) -> Result<Envelope<'a>, DecoderError>
        ensures value { IfOk result (λ x. bytes.now ≡ x.tag ∷ x.payload.now) }
        ensures fault { IfErr result (λ e. (bytes.now ≡ []) × (e ≡ RlpIsTooShort)) }
    {
        match bytes {
            [tag, payload @ ..] => Ok(Envelope { tag: *tag, payload }),
            [] => Err(DecoderError::RlpIsTooShort),
        }
    }

    /// Reads the payload strictly: the bytes after the tag must be its whole encoding.
    pub fn decode<T: StrictRead>(&self, alloc: Global) -> Result<T, DecoderError>
        ensures value { IfOk result
            (λ v. T.fits v × (self.now.payload.now ≡ encoding (T.item v))) }
        ensures fault { IfErr result (λ e.
            Faults T.reading (strict_view_of self.now.payload.now) e
            ⊎ ((e ≡ OutOfMemory)
            × MayLackMemory T.reading (strict_view_of self.now.payload.now))) }
    {
        decode_whole(alloc, self.payload)
    }
}
