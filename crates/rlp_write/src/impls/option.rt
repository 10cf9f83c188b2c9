//! Options, written as a list of no items or of one item, and boxes, written as the value that they
//! hold.

ghost use Rattle.std.specs.Prelude.{IfSome};
ghost use Rattle.rlp_format.specs.Values.Value.{option_item};

use crate::stream::RlpStream;
use crate::traits::Encodable;
use bytes::BytesMut;
use std::alloc::{AllocError, Global};

impl<T: Encodable> Encodable for Option<T> {
    ghost item = { λ o. option_item T.item o };

    ghost fits = { λ o. IfSome o T.fits };

    #[tactic(auto, using(crate::proofs::Streams::Listed::optional))]
    fn rlp_append(&self, s: &mut RlpStream) -> Result<(), AllocError> {
        match self {
            None => s.try_begin(0),
            Some(value) => {
                s.try_begin(1)?;
                s.try_append(value)
            }
        }
    }
}

impl<T: Encodable> Encodable for Box<T> {
    ghost item = { λ b. T.item b.value };

    ghost fits = { λ b. T.fits b.value };

    ghost needs_only_room = { λ b. T.needs_only_room b.value };

    fn rlp_append(&self, s: &mut RlpStream) -> Result<(), AllocError> {
        T::rlp_append(self, s)
    }

    fn rlp_bytes(&self, alloc: Global) -> Result<BytesMut, AllocError> {
        T::rlp_bytes(self, alloc)
    }
}
