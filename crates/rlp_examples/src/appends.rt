//! Values of any types, appended one after another.

ghost use Rattle.std.specs.Prelude.{◌≡◌, ◌++◌, IfOk};
ghost use Rattle.rlp.specs.Format.Encoding.{encoding};

use bytes::BytesMut;
use rlp::{Encodable, RlpStream};
use std::alloc::{AllocError, Global};

/// Returns the encodings of three values, one after another.
pub fn bytes_of_three<A: Encodable, B: Encodable, C: Encodable>(
    alloc: Global,
    a: &A,
    b: &B,
    c: &C,
) -> Result<BytesMut, AllocError>
    ensures { IfOk result (λ o. o.items
        ≡ encoding (A.item a.now) ++ encoding (B.item b.now) ++ encoding (C.item c.now)) }
{
    let mut s = RlpStream::new(alloc)?;
    s.append(a)?.append(b)?.append(c)?;
    Ok(s.out())
}
