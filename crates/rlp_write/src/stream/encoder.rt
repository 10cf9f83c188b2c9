//! Strings that are written without being counted.

ghost use Rattle.std.specs.{Prelude.{◌≡◌, ◌≤◌, ℕ, List, IsOk, OnOk, OnErr, length}, Iterator.IsFiniteIterable};
ghost use Rattle.rlp_format.specs.Format.Encoding.{string, encoding};
ghost use Rattle.rlp_write.specs.{Streams.Stream.{effect, encode_value, IsAsBefore}, Streams.Iterated.GivesAll};

use crate::stream::RlpStream;
use std::alloc::AllocError;

/// A writer of strings into a stream that it borrows. It doesn't count the strings, and doesn't
/// change `is_counted`. Use it in [`crate::Encodable::rlp_append`] of a type that is written as a
/// string.
///
/// ```rust
/// let mut s = rlp::RlpStream::new_list(alloc, 1)?;
/// s.encoder().encode_value(&[0x01])?;
/// s.append(&2u64)?;
/// assert_eq!(rt; s.out().as_slice(), [0xc2, 0x01, 0x02]);
/// ```
#[derive(Drop)]
pub struct BasicEncoder<'a> {
    /// The stream that it writes into.
    pub stream: &'a mut RlpStream,
}

impl BasicEncoder<'_> {
    /// Puts the encoding of a string at the end of the innermost open list, or of the top. Fails
    /// with `AllocError` if memory is refused, and then writes nothing.
    pub fn encode_value(&mut self, value: &[u8]) -> Result<(), AllocError>
        ensures same_reference { self.new.stream.ghost_name ≡ self.old.stream.ghost_name }
        ensures ok { OnOk result (self.new.stream.now.state
            ≡ effect (encode_value value.now) self.old.stream.now.state) }
        ensures room { length (encoding (string value.now)) ≤ self.old.stream.now.spare
            → IsOk result }
        ensures refused { OnErr result (IsAsBefore self.old.stream.now self.new.stream.now) }
        ensures moved { self.new.stream.now.moved ≡ self.old.stream.now.moved }
    {
        self.stream.put_string(value)
    }

    /// Puts the encoding of the string of the bytes that an iterator gives. It writes each byte
    /// when the iterator gives it, and then inserts the header for the number of bytes. The
    /// iterator must end.
    pub fn encode_iter<I: IntoIterator<Item = u8>>(&mut self, value: I) -> Result<(), AllocError>
        requires { IsFiniteIterable I.into_iter_gives I.IntoIter.can_next I.IntoIter.remaining value }
        ensures same_reference { self.new.stream.ghost_name ≡ self.old.stream.ghost_name }
        ensures ok { OnOk result ((s : List ℕ)
            × GivesAll I.into_iter_gives I.IntoIter.next_gives value s
            × (self.new.stream.now.state
            ≡ effect (encode_value s) self.old.stream.now.state)) }
        ensures refused { OnErr result (IsAsBefore self.old.stream.now self.new.stream.now) }
        ensures moved { self.new.stream.now.moved ≡ self.old.stream.now.moved }
    {
        self.stream.put_string_of(value)
    }
}
