//! A value whose writing always fails, after some of its bytes.

use rlp::{Encodable, RlpStream};
use std::alloc::AllocError;

/// Its `rlp_append` writes a string, and then fails.
#[derive(Debug, Drop)]
pub struct HalfWritten;

impl Encodable for HalfWritten {
    ghost use Rattle.std.specs.Prelude.{⊤, []};
    ghost use Rattle.rlp.specs.Format.Encoding.{string};

    ghost item = { λ v. string [] };

    ghost fits = { λ v. ⊤ };

    #[tactic(auto, using(rlp::proofs::Growth::growth))]
    fn rlp_append(&self, s: &mut RlpStream) -> Result<(), AllocError> {
        s.encoder().encode_value(&[1, 2, 3])?;
        Err(AllocError)
    }
}
