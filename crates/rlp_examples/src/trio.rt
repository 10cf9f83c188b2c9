//! A list of two numbers and a value of any type, and a type that is never written.

ghost use Rattle.std.specs.Prelude.{⊤, [], ◌∷◌};
ghost use Rattle.rlp.specs.{Format.Encoding.{string, list_of}, Values.Value.{FitsBytes, number_item}};

use rlp::{Encodable, RlpStream};
use std::alloc::AllocError;

/// A value whose `rlp_append` always fails with `AllocError`, and writes nothing.
#[derive(Debug, Drop)]
pub struct Refusing;

impl Encodable for Refusing {
    ghost item = { λ v. string [] };

    ghost fits = { λ v. ⊤ };

    #[tactic(auto, using(rlp::proofs::Writing::writing))]
    fn rlp_append(&self, _s: &mut RlpStream) -> Result<(), AllocError> {
        Err(AllocError)
    }
}

/// Two numbers with a value of any type between them, written as a list of three items.
#[derive(Drop)]
pub struct Trio<M>(pub u64, pub M, pub u64);

impl<M: Encodable> Encodable for Trio<M> {
    ghost item = { λ t. list_of (number_item t.0 ∷ M.item t.1 ∷ number_item t.2 ∷ []) };

    ghost fits = { λ t. FitsBytes 8 t.0 × M.fits t.1 × FitsBytes 8 t.2 };

    #[tactic(auto, using(rlp::proofs::Writing::writing))]
    fn rlp_append(&self, s: &mut RlpStream) -> Result<(), AllocError> {
        s.begin_list(3)?
            .append(&self.0)?
            .append(&self.1)?
            .append(&self.2)?;
        Ok(())
    }
}
