//! Recipients of transactions: a string of 20 bytes, or the empty string.

ghost use Rattle.std.specs.Prelude.{◌≡◌, Err, IfErr, IfOk, Ok};
ghost use Rattle.rlp_reading.specs.{Form.fault_of, Kinds.read_kind};
ghost use Rattle.rlp_transactions.specs.{Recipient.recipient, StringKinds.{account_of, is_account, recipient_bytes}};

use rlp::{DecoderError, Encodable, Record, Rlp, RlpStream};
use rlp_records::Address;
use std::alloc::{AllocError, Global};

/// The recipient of a transaction: the address of an account, or the empty string if the
/// transaction creates a contract.
///
/// See section 4.2 of the yellow paper.
#[derive(Debug, Clone, Copy, PartialEq, Eq)]
pub enum Recipient {
    /// No account: the transaction creates a contract.
    Creation,
    /// The account with this address.
    Account(Address),
}

impl Encodable for Recipient {
    ghost item = { recipient.item };

    ghost fits = { recipient.Fits };

    fn rlp_append(&self, s: &mut RlpStream) -> Result<(), AllocError> {
        match self {
            Recipient::Creation => [0u8; 0].rlp_append(s),
            Recipient::Account(address) => address.rlp_append(s),
        }
    }
}

/// Reading fails with `RlpIsTooShort` if the string has 1 to 19 bytes, and with `RlpIsTooBig` if
/// it has more than 20. It doesn't allocate.
impl Record for Recipient {
    ghost reading = { recipient.reading };

    fn decode(_alloc: Global, rlp: &Rlp<'_>) -> Result<Recipient, DecoderError> {
        let string = rlp.decoder().string()?;
        recipient_of(string)
    }

    fn put_path(_alloc: Global, _rlp: &Rlp<'_>, _path: &mut Vec<usize>) -> Result<(), AllocError> {
        Ok(())
    }

    ghost lawful = { recipient.reads_strictly };
}

/// Makes a recipient from a string of 20 bytes, or from the empty string. Fails as reading a
/// recipient does.
fn recipient_of(string: &[u8]) -> Result<Recipient, DecoderError>
    ensures value { IfOk result
        (λ r. read_kind account_of string.now ≡ Ok (is_account r, recipient_bytes r)) }
    ensures fault { IfErr result (λ e. read_kind account_of string.now ≡ Err (fault_of e)) }
{
    if string.is_empty() {
        return Ok(Recipient::Creation);
    }
    match <[u8; 20]>::try_from(string) {
        Ok(address) => Ok(Recipient::Account(Address(address))),
        Err(_) if string.len() < 20 => Err(DecoderError::RlpIsTooShort),
        Err(_) => Err(DecoderError::RlpIsTooBig),
    }
}
