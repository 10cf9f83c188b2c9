//! Byte strings, byte arrays, buffers and text: written as the string of their bytes.

ghost use Rattle.std.specs.{Prelude.{⊤, ◌≡◌, IsUtf8, length}, String.string_bytes};
ghost use Rattle.rlp_format.specs.Format.Encoding.{string};

use crate::buffer::strings::encoded_string;
use crate::stream::RlpStream;
use crate::traits::Encodable;
use bytes::{Bytes, BytesMut};
use std::alloc::{AllocError, Global};

impl Encodable for Vec<u8> {
    ghost item = { λ v. string v.items };

    ghost fits = { λ v. ⊤ };

    ghost needs_only_room = { λ _. ⊤ };

    fn rlp_append(&self, s: &mut RlpStream) -> Result<(), AllocError> {
        s.put_string(self.as_slice())
    }

    fn rlp_bytes(&self, alloc: Global) -> Result<BytesMut, AllocError> {
        encoded_string(alloc, self.as_slice())
    }
}

impl Encodable for &[u8] {
    ghost item = { λ v. string v.now };

    ghost fits = { λ v. ⊤ };

    ghost needs_only_room = { λ _. ⊤ };

    fn rlp_append(&self, s: &mut RlpStream) -> Result<(), AllocError> {
        s.put_string(self)
    }

    fn rlp_bytes(&self, alloc: Global) -> Result<BytesMut, AllocError> {
        encoded_string(alloc, self)
    }
}

/// Writes the string of all `N` bytes.
impl<const N: usize> Encodable for [u8; N] {
    ghost item = { λ a. string a };

    ghost fits = { λ a. length a ≡ N };

    ghost needs_only_room = { λ _. ⊤ };

    fn rlp_append(&self, s: &mut RlpStream) -> Result<(), AllocError> {
        s.put_string(self)
    }

    fn rlp_bytes(&self, alloc: Global) -> Result<BytesMut, AllocError> {
        encoded_string(alloc, self)
    }
}

impl Encodable for Bytes {
    ghost item = { λ v. string v };

    ghost fits = { λ v. ⊤ };

    ghost needs_only_room = { λ _. ⊤ };

    fn rlp_append(&self, s: &mut RlpStream) -> Result<(), AllocError> {
        s.put_string(self.as_slice())
    }

    fn rlp_bytes(&self, alloc: Global) -> Result<BytesMut, AllocError> {
        encoded_string(alloc, self.as_slice())
    }
}

impl Encodable for BytesMut {
    ghost item = { λ v. string v.items };

    ghost fits = { λ v. ⊤ };

    ghost needs_only_room = { λ _. ⊤ };

    fn rlp_append(&self, s: &mut RlpStream) -> Result<(), AllocError> {
        s.put_string(self.as_slice())
    }

    fn rlp_bytes(&self, alloc: Global) -> Result<BytesMut, AllocError> {
        encoded_string(alloc, self.as_slice())
    }
}

impl Encodable for String {
    ghost item = { λ v. string (string_bytes v) };

    ghost fits = { λ v. IsUtf8 (string_bytes v) };

    ghost needs_only_room = { λ _. ⊤ };

    fn rlp_append(&self, s: &mut RlpStream) -> Result<(), AllocError> {
        s.put_string(self.as_str().as_bytes())
    }

    fn rlp_bytes(&self, alloc: Global) -> Result<BytesMut, AllocError> {
        encoded_string(alloc, self.as_str().as_bytes())
    }
}

impl Encodable for &str {
    ghost item = { λ v. string v.now };

    ghost fits = { λ v. IsUtf8 v.now };

    ghost needs_only_room = { λ _. ⊤ };

    fn rlp_append(&self, s: &mut RlpStream) -> Result<(), AllocError> {
        s.put_string(self.as_bytes())
    }

    fn rlp_bytes(&self, alloc: Global) -> Result<BytesMut, AllocError> {
        encoded_string(alloc, self.as_bytes())
    }
}
