//! The faults of decoding.

ghost use Rattle.std.specs.Prelude.{◌≡◌, ◌++◌, codes, Some, MatchResult};
ghost use Rattle.rlp_reading.specs.Views.Text.{error_name};

use std::alloc::{AllocError, AllocFailed};
use std::error::Error;
use std::fmt;

/// A fault of decoding.
#[derive(Debug, PartialEq, Eq, Drop)]
pub enum DecoderError {
    /// Bytes follow the item, or the value is too large for its type.
    RlpIsTooBig,
    /// The bytes end before the item does, or the value is too short for its type.
    RlpIsTooShort,
    /// A list was expected, but there is a string or nothing.
    RlpExpectedToBeList,
    /// A string was expected, but there is a list, or a string that the type doesn't accept.
    RlpExpectedToBeData,
    /// A list doesn't have the expected number of items.
    RlpIncorrectListLen,
    /// The length of a string begins with a zero byte.
    RlpDataLenWithZeroPrefix,
    /// The length of a list begins with a zero byte.
    RlpListLenWithZeroPrefix,
    /// The bytes encode the value, but not canonically: a shorter header is possible, or a number
    /// begins with a zero byte.
    RlpInvalidIndirection,
    /// The header of a string announces more bytes than follow.
    RlpInconsistentLengthAndData,
    /// The header and the string that it announces would be 2^64 bytes or longer.
    RlpInvalidLength,
    /// A fault of a custom type, with its own text.
    Custom(&'static str),
    /// Memory was refused.
    OutOfMemory,
}

impl DecoderError {
    /// The same fault. It doesn't allocate.
    pub fn clone(&self) -> DecoderError
        ensures { result ≡ self.now }
    {
        match self {
            DecoderError::RlpIsTooBig => DecoderError::RlpIsTooBig,
            DecoderError::RlpIsTooShort => DecoderError::RlpIsTooShort,
            DecoderError::RlpExpectedToBeList => DecoderError::RlpExpectedToBeList,
            DecoderError::RlpExpectedToBeData => DecoderError::RlpExpectedToBeData,
            DecoderError::RlpIncorrectListLen => DecoderError::RlpIncorrectListLen,
            DecoderError::RlpDataLenWithZeroPrefix => DecoderError::RlpDataLenWithZeroPrefix,
            DecoderError::RlpListLenWithZeroPrefix => DecoderError::RlpListLenWithZeroPrefix,
            DecoderError::RlpInvalidIndirection => DecoderError::RlpInvalidIndirection,
            DecoderError::RlpInconsistentLengthAndData => {
                DecoderError::RlpInconsistentLengthAndData
            }
            DecoderError::RlpInvalidLength => DecoderError::RlpInvalidLength,
            DecoderError::Custom(text) => DecoderError::Custom(text),
            DecoderError::OutOfMemory => DecoderError::OutOfMemory,
        }
    }

    /// The variant's name, or the text of a `Custom` as an error.
    fn name(&self) -> Result<&'static str, &'static str>
        ensures { MatchResult result (λ name. error_name self.now ≡ name.now)
            (λ text. error_name self.now ≡ codes "Custom(\"" ++ text.now ++ codes "\")") }
    {
        match self {
            DecoderError::RlpIsTooBig => Ok("RlpIsTooBig"),
            DecoderError::RlpIsTooShort => Ok("RlpIsTooShort"),
            DecoderError::RlpExpectedToBeList => Ok("RlpExpectedToBeList"),
            DecoderError::RlpExpectedToBeData => Ok("RlpExpectedToBeData"),
            DecoderError::RlpIncorrectListLen => Ok("RlpIncorrectListLen"),
            DecoderError::RlpDataLenWithZeroPrefix => Ok("RlpDataLenWithZeroPrefix"),
            DecoderError::RlpListLenWithZeroPrefix => Ok("RlpListLenWithZeroPrefix"),
            DecoderError::RlpInvalidIndirection => Ok("RlpInvalidIndirection"),
            DecoderError::RlpInconsistentLengthAndData => Ok("RlpInconsistentLengthAndData"),
            DecoderError::RlpInvalidLength => Ok("RlpInvalidLength"),
            DecoderError::Custom(text) => Err(text),
            DecoderError::OutOfMemory => Ok("OutOfMemory"),
        }
    }
}

/// Prints the variant's name, and for `Custom` also the text, as in `Custom("text")`. The
/// formatter's flags change nothing.
impl fmt::Display for DecoderError {
    ghost output = { λ e. Some (error_name e) };

    ghost styled_output = { λ e _. Some (error_name e) };

    #[tactic(auto, using(crate::proofs::Pieces::pieces))]
    fn fmt<W: fmt::Write>(&self, f: &mut fmt::Formatter<W>) -> fmt::Result {
        match self.name() {
            Ok(name) => f.write_str(name),
            Err(text) => {
                f.write_str("Custom(\"")?;
                f.write_str(text)?;
                f.write_str("\")")
            }
        }
    }
}

impl Error for DecoderError {}

/// Memory was refused.
impl From<AllocError> for DecoderError {
    ghost use Rattle.rlp_reading.specs.declared.error.DecoderError.TheVariants.{OutOfMemory};

    ghost from_gives = { λ _ e. e ≡ OutOfMemory };

    fn from(_refused: AllocError) -> DecoderError {
        DecoderError::OutOfMemory
    }
}

/// Memory was refused for a value that is dropped.
impl<T: Drop> From<AllocFailed<T>> for DecoderError {
    ghost use Rattle.rlp_reading.specs.declared.error.DecoderError.TheVariants.{OutOfMemory};

    ghost from_gives = { λ _ e. e ≡ OutOfMemory };

    fn from(_refused: AllocFailed<T>) -> DecoderError {
        DecoderError::OutOfMemory
    }
}
