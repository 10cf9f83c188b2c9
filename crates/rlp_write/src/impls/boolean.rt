//! `bool`: written as the numbers 0 and 1.

ghost use Rattle.std.specs.Prelude.{⊤};
ghost use Rattle.rlp_format.specs.Values.Value.{bit, number_item};

use crate::stream::RlpStream;
use crate::traits::Encodable;
use bytes::BytesMut;
use std::alloc::{AllocError, Global};

impl Encodable for bool {
    ghost item = { λ b. number_item (bit b) };

    ghost fits = { λ b. ⊤ };

    ghost needs_only_room = { λ _. ⊤ };

    fn rlp_append(&self, s: &mut RlpStream) -> Result<(), AllocError> {
        (*self as u64).rlp_append(s)
    }

    fn rlp_bytes(&self, alloc: Global) -> Result<BytesMut, AllocError> {
        (*self as u64).rlp_bytes(alloc)
    }
}
