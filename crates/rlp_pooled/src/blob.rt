//! Blobs of transactions of type 3.

ghost use Rattle.std.specs.Prelude.{◌≡◌, ◌⊎◌, Err, IfErr, IfOk, length};
ghost use Rattle.rlp.specs.DecoderError.TheVariants.{OutOfMemory};
ghost use Rattle.rlp_reading.specs.Form.{fault_of, fixed_of};

use rlp::{DecoderError, Encodable, Record, Rlp, RlpStream};
use std::alloc::{AllocError, Global};

/// The number of bytes of a blob, as in EIP-4844: 4,096 numbers of 32 bytes.
pub const BLOB_LEN: usize = 131_072;

/// A blob: the 131,072 bytes of its 4,096 numbers, as in EIP-4844. That each number is below the
/// modulus of the curve isn't tested.
#[derive(Debug, PartialEq, Eq, Drop)]
pub struct Blob {
    /// The bytes.
    pub bytes: Vec<u8>,
    pub ghost is_whole: { length bytes.items ≡ 131072 },
}

impl Blob {
    /// Returns the blob of these bytes, which it copies.
    ///
    /// Fails with `RlpIsTooShort` if there are fewer than 131,072 bytes, with `RlpIsTooBig` if
    /// there are more, and with `OutOfMemory` if memory is refused.
    pub fn new(alloc: Global, bytes: &[u8]) -> Result<Blob, DecoderError>
        ensures value { IfOk result (λ b. b.bytes.items ≡ bytes.now) }
        ensures fault { IfErr result (λ e. (fixed_of 131072 bytes.now ≡ Err (fault_of e))
            ⊎ ((e ≡ OutOfMemory) × (length bytes.now ≡ 131072))) }
    {
        if bytes.len() < BLOB_LEN {
            return Err(DecoderError::RlpIsTooShort);
        }
        if bytes.len() > BLOB_LEN {
            return Err(DecoderError::RlpIsTooBig);
        }
        let bytes = Vec::from_slice(alloc, bytes)?;
        Ok(Blob { bytes })
    }
}

impl Clone for Blob {
    ghost is_clone = { λ b copy. copy.bytes.items ≡ b.bytes.items };

    fn clone(&self) -> Result<Blob, AllocError> {
        let bytes = self.bytes.clone()?;
        Ok(Blob { bytes })
    }
}

/// Written as the string of the bytes.
impl Encodable for Blob {
    ghost use Rattle.rlp_pooled.specs.Blob.{blob};

    ghost item = { blob.item };

    ghost fits = { blob.Fits };

    fn rlp_append(&self, s: &mut RlpStream) -> Result<(), AllocError> {
        self.bytes.rlp_append(s)
    }
}

/// Reads a string, with one copy. Fails as [`Blob::new`] does.
impl Record for Blob {
    ghost use Rattle.rlp_pooled.specs.Blob.{blob};

    ghost reading = { blob.reading };

    fn decode(alloc: Global, rlp: &Rlp<'_>) -> Result<Blob, DecoderError> {
        let string = rlp.decoder().string()?;
        Blob::new(alloc, string)
    }

    fn put_path(_alloc: Global, _rlp: &Rlp<'_>, _path: &mut Vec<usize>) -> Result<(), AllocError> {
        Ok(())
    }

    ghost lawful = { blob.reads_strictly };
}
