//! Values that are encoded alone, and lists of them.

ghost use Rattle.std.specs.Prelude.{◌≡◌, ◌++◌, drop, IfOk, OnOk, map, All};
ghost use Rattle.rlp_format.specs.Format.Encoding.{list_of, encoding, join};
ghost use Rattle.rlp_write.specs.Streams.Stream.{IsFinished, list_encoding};

use crate::buffer::Buffer;
use crate::header::list_header_len;
use crate::stream::RlpStream;
use crate::traits::Encodable;
use bytes::BytesMut;
use std::alloc::{AllocError, Global};

// The number of bytes for which room is made at first.
const STARTING_CAPACITY: usize = 1024;

/// The encoding of a value. Fails with `AllocError` if memory is refused, or if the value's own
/// [`Encodable::rlp_append`] fails.
///
/// ```rust
/// assert_eq!(rt; rlp::encode(alloc, &256u64)?.as_slice(), [0x82, 0x01, 0x00]);
/// assert_eq!(rt; rlp::encode(alloc, &"cat")?.as_slice(), [0x83, 0x63, 0x61, 0x74]);
/// ```
pub fn encode<E: Encodable>(alloc: Global, object: &E) -> Result<BytesMut, AllocError>
    ensures fits { OnOk result (E.fits object.now) }
    ensures bytes { IfOk result (λ b. b.items ≡ encoding (E.item object.now)) }
{
    object.rlp_bytes(alloc)
}

/// Puts the encoding of each value at the end of the top. No list may be open.
#[tactic(auto, using(crate::proofs::Streams::Joined::joined))]
fn put_each<E: Encodable>(s: &mut RlpStream, values: &[E]) -> Result<(), AllocError>
    requires { IsFinished s.old.state }
    ensures fits { OnOk result (All E.fits values.now) }
    ensures front { OnOk result (s.new.state.front ≡ s.old.state.front) }
    ensures top { OnOk result (s.new.state.stack.inner
        ≡ s.old.state.stack.inner ++ join (map E.item values.now)) }
    ensures finished { OnOk result (IsFinished s.new.state) }
{
    for value in values {
        value.rlp_append(s)?;
    }
    Ok(())
}

/// The encoding of the list of the values. Fails with `AllocError` if memory is refused, or if the
/// [`Encodable::rlp_append`] of a value fails.
///
/// It makes room for 1,024 bytes, and for more as the values come.
///
/// ```rust
/// assert_eq!(rt; rlp::encode_list(alloc, &["cat", "dog"])?.len(), 9);
/// ```
pub fn encode_list<E: Encodable>(alloc: Global, values: &[E]) -> Result<BytesMut, AllocError>
    ensures fits { OnOk result (All E.fits values.now) }
    ensures bytes { IfOk result (λ b. b.items ≡ encoding (list_of (map E.item values.now))) }
{
    let mut bytes = BytesMut::with_capacity(alloc, STARTING_CAPACITY)?;
    bytes.extend_from_slice(&[0])?;
    let mut s = RlpStream::new_with_buffer(alloc, bytes);
    put_each(&mut s, values)?;
    list_alone(s.out())
}

/// Turns joined encodings into the encoding of the list of their items. The joined encodings follow
/// one byte, which keeps the place of the header. An empty buffer becomes the encoding of the empty
/// list.
#[tactic(auto, using(crate::proofs::Streams::Joined::alone))]
fn list_alone(bytes: BytesMut) -> Result<BytesMut, AllocError>
    ensures { IfOk result (λ b. b.items ≡ list_encoding (drop 1 bytes.items)) }
{
    let mut buffer = Buffer::new(bytes);
    let len = buffer.len().saturating_sub(1);
    let header = list_header_len(len);
    let room = header + len - buffer.len();
    buffer.reserve(room)?;
    buffer.advance_mut(room);
    buffer.shift(1, len, header);
    buffer.write_list_header(header);
    Ok(buffer.into_bytes())
}
