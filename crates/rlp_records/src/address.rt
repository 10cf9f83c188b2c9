//! Addresses of accounts: strings of 20 bytes.

ghost use Rattle.rlp_records.specs.Address.{address};

use rlp::{DecoderError, Encodable, Record, Rlp, RlpStream};
use std::alloc::{AllocError, Global};

/// The address of an account: 20 bytes.
///
/// See section 4.1 of the yellow paper.
#[derive(Debug, Clone, Copy, PartialEq, Eq)]
pub struct Address(pub [u8; 20]);

/// Written as the array of its bytes.
impl Encodable for Address {
    ghost item = { address.item };

    ghost fits = { address.Fits };

    fn rlp_append(&self, s: &mut RlpStream) -> Result<(), AllocError> {
        self.0.rlp_append(s)
    }
}

/// Read as an array of 20 bytes. Fails with `RlpIsTooShort` if the string is shorter, and with
/// `RlpIsTooBig` if it is longer. It doesn't allocate.
impl Record for Address {
    ghost reading = { address.reading };

    fn decode(alloc: Global, rlp: &Rlp<'_>) -> Result<Address, DecoderError> {
        let bytes = rlp.as_val(alloc)?;
        Ok(Address(bytes))
    }

    fn put_path(_alloc: Global, _rlp: &Rlp<'_>, _path: &mut Vec<usize>) -> Result<(), AllocError> {
        Ok(())
    }

    ghost lawful = { address.reads_strictly };
}
