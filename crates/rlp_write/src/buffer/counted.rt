//! A buffer, and the number of its bytes that were moved to a later place.

ghost use Rattle.std.specs.Prelude.{◌≡◌, ◌<◌, ◌≤◌, ◌+◌, ◌-◌, ◌^◌, ◌++◌, ◌↔◌, IsTrue, length, take, drop, IfOk, OnOk, OnErr};
ghost use Rattle.bytes.specs.Filled.{MakesSpare};
ghost use Rattle.rlp_format.specs.Format.Encoding.{written_header};
ghost use Rattle.rlp_write.specs.Streams.Closing.{header_len};

use super::moving::{bring, insert, write_at};
use crate::header::{LIST, SHORT, written_header};
use bytes::BytesMut;
use rlp_format::count::Count;
use std::alloc::AllocError;
use std::marker::Model;

// The size of a buffer up to which room is made ahead.
const AHEAD_UP_TO: usize = 16 * 1024;

// The greatest number of bytes by which a header is longer than its placeholder.
const LONGEST_GROWTH: usize = 8;

/// The bytes of a stream. Only these methods touch them.
///
/// Only [`Buffer::shift`] moves bytes to a later place for a closing, and it always counts the
/// bytes. [`Buffer::insert`] moves the bytes of an iterator to make place for their header. It
/// doesn't count these bytes, and only the module that writes strings can call it.
#[derive(Drop)]
pub struct Buffer {
    bytes: BytesMut,
    // The number of moved bytes.
    moved: Count,
}

impl Model for Buffer {
    ghost use Rattle.rlp_write.specs.Streams.Held.{Held};

    ghost Value = { Held };

    ghost view = { λ b. record { items = b.bytes.items; spare = b.bytes.spare; moved = b.moved.total } };
}

impl Buffer {
    /// A buffer over bytes. No byte was moved yet.
    pub fn new(bytes: BytesMut) -> Buffer
        ensures items { result.items ≡ bytes.items }
        ensures spare { result.spare ≡ bytes.spare }
        ensures moved { result.moved ≡ 0 }
    {
        Buffer {
            bytes,
            moved: Count::new(),
        }
    }

    /// The bytes, with their room.
    pub fn into_bytes(self) -> BytesMut
        ensures items { result.items ≡ self.items }
        ensures spare { result.spare ≡ self.spare }
    {
        let Buffer { bytes, moved: _ } = self;
        bytes
    }

    /// The number of bytes.
    #[inline]
    pub fn len(&self) -> usize
        ensures value { result ≡ length self.now.items }
        ensures bound { result < 2 ^ 63 }
    {
        self.bytes.len()
    }

    /// All bytes.
    #[inline]
    pub fn as_slice(&self) -> &[u8]
        ensures { result.now ≡ self.now.items }
    {
        self.bytes.as_slice()
    }

    /// Makes room for `additional` more bytes.
    #[inline]
    pub fn reserve(&mut self, additional: usize) -> Result<(), AllocError>
        ensures items { self.new.items ≡ self.old.items }
        ensures spare { MakesSpare result self.old.spare self.new.spare additional }
        ensures moved { self.new.moved ≡ self.old.moved }
    {
        self.bytes.reserve(additional)
    }

    /// Appends bytes. There must be room for them.
    #[inline]
    pub fn extend_reserved(&mut self, part: &[u8])
        requires { length part.now ≤ self.old.spare }
        ensures items { self.new.items ≡ self.old.items ++ part.now }
        ensures spare { self.new.spare + length part.now ≡ self.old.spare }
        ensures moved { self.new.moved ≡ self.old.moved }
    {
        self.bytes.extend_reserved(part);
    }

    /// Makes room for bytes, and appends them.
    #[inline]
    pub fn extend_from_slice(&mut self, part: &[u8]) -> Result<(), AllocError>
        ensures ok { OnOk result (self.new.items ≡ self.old.items ++ part.now) }
        ensures refused { OnErr result (self.new.items ≡ self.old.items) }
        ensures room { OnErr result (self.old.spare < length part.now) }
        ensures moved { self.new.moved ≡ self.old.moved }
    {
        self.bytes.reserve(part.len())?;
        self.bytes.extend_reserved(part);
        Ok(())
    }

    /// Whether there is room for `additional` more bytes.
    #[inline]
    pub(crate) fn has_room(&self, additional: usize) -> bool
        ensures { IsTrue result ↔ (additional ≤ self.now.spare) }
    {
        additional <= self.bytes.capacity() - self.bytes.len()
    }

    /// Makes room for `len` more bytes, for which there is no room. It makes room ahead, for `parts`
    /// parts of this length and the header of the list that they fill, but only up to a buffer of
    /// `AHEAD_UP_TO` bytes.
    #[cold]
    #[inline(never)]
    pub(crate) fn reserve_ahead(&mut self, len: usize, parts: usize) -> Result<(), AllocError>
        requires { self.old.spare < len }
        ensures items { self.new.items ≡ self.old.items }
        ensures spare { MakesSpare result self.old.spare self.new.spare len }
        ensures moved { self.new.moved ≡ self.old.moved }
    {
        let all = len.saturating_mul(parts).saturating_add(LONGEST_GROWTH);
        let ahead = AHEAD_UP_TO.saturating_sub(self.bytes.len());
        self.bytes.reserve(len.max(all.min(ahead)))
    }

    /// The number of bytes if `more` bytes are appended. Fails if that is more than a buffer can
    /// have.
    #[inline]
    pub(crate) fn len_with(&self, more: usize) -> Result<usize, AllocError>
        requires { more < 2 ^ 63 }
        ensures value { IfOk result (λ n. n ≡ length self.now.items + more) }
        ensures bound { IfOk result (λ n. n < 2 ^ 63) }
    {
        let len = self.bytes.len() + more;
        if len > isize::MAX as usize {
            return Err(AllocError);
        }
        Ok(len)
    }

    /// Appends `more` bytes of any value. There must be room for them.
    #[inline]
    pub(crate) fn advance_mut(&mut self, more: usize)
        requires { more ≤ self.old.spare }
        ensures front { take (length self.old.items) self.new.items ≡ self.old.items }
        ensures len { length self.new.items ≡ length self.old.items + more }
        ensures spare { self.new.spare + more ≡ self.old.spare }
        ensures moved { self.new.moved ≡ self.old.moved }
    {
        self.bytes.advance_mut(more);
    }

    /// Keeps the first `len` bytes. The place of the bytes after them becomes room.
    #[inline]
    pub fn truncate(&mut self, len: usize)
        ensures items { self.new.items ≡ take len self.old.items }
        ensures spare { length self.new.items + self.new.spare
            ≡ length self.old.items + self.old.spare }
        ensures moved { self.new.moved ≡ self.old.moved }
    {
        self.bytes.truncate(len);
    }

    /// Moves bytes to a later place in the buffer, and counts them. If the bytes are at that place
    /// already, it moves nothing.
    #[inline]
    #[tactic(auto, using(crate::proofs::Streams::Closings::shifted_none))]
    pub(crate) fn shift(&mut self, from: usize, len: usize, to: usize)
        requires forward { from ≤ to }
        requires within { to + len ≤ length self.old.items }
        ensures items { self.new.items
            ≡ take to self.old.items
            ++ (take len (drop from self.old.items) ++ drop (to + len) self.old.items) }
        ensures spare { self.new.spare ≡ self.old.spare }
        ensures counted { from < to → self.new.moved ≡ self.old.moved + len }
        ensures in_place { from ≡ to → self.new.moved ≡ self.old.moved }
    {
        if from != to {
            bring(self.bytes.as_mut_slice(), from, len, to);
            self.moved.add(len);
        }
    }

    /// Writes the header of the list whose payload is all bytes from a place on. It writes over the
    /// bytes in front of that place. Returns the place where the header begins.
    #[inline]
    #[tactic(auto, using(crate::proofs::Streams::Written::list_headers))]
    pub(crate) fn write_list_header(&mut self, payload: usize) -> usize
        requires within { payload ≤ length self.old.items }
        requires room { header_len (length self.old.items - payload) ≤ payload }
        ensures begin { result + header_len (length self.old.items - payload) ≡ payload }
        ensures items { self.new.items ≡ take result self.old.items
            ++ (written_header 0xc0 (length self.old.items - payload)
            ++ drop payload self.old.items) }
        ensures spare { self.new.spare ≡ self.old.spare }
        ensures moved { self.new.moved ≡ self.old.moved }
    {
        let len = self.bytes.len() - payload;
        if len <= SHORT {
            return self.write_before(payload, &[LIST + len as u8]);
        }
        if len <= 0xff {
            return self.write_before(payload, &[LIST + 56, len as u8]);
        }
        if len <= 0xffff {
            return self.write_before(payload, &[LIST + 57, (len / 256) as u8, (len % 256) as u8]);
        }
        self.write_before(payload, written_header(LIST, len).as_slice())
    }

    /// Writes a header over the bytes in front of a place. Returns the place where the header begins.
    #[inline(always)]
    #[tactic(auto, using(crate::proofs::Streams::Written::header_placed))]
    fn write_before(&mut self, payload: usize, header: &[u8]) -> usize
        requires within { payload ≤ length self.old.items }
        requires room { length header.now ≤ payload }
        ensures begin { result + length header.now ≡ payload }
        ensures items { self.new.items
            ≡ take result self.old.items ++ (header.now ++ drop payload self.old.items) }
        ensures spare { self.new.spare ≡ self.old.spare }
        ensures moved { self.new.moved ≡ self.old.moved }
    {
        let begin = payload - header.len();
        write_at(self.bytes.as_mut_slice(), begin, header);
        begin
    }

    /// Inserts a part at a place, and moves the bytes behind it. It doesn't count the moved bytes,
    /// since these are a string that has no header yet.
    pub(super) fn insert(&mut self, at: usize, part: &[u8]) -> Result<(), AllocError>
        requires { at ≤ length self.old.items }
        ensures ok { OnOk result (self.new.items
            ≡ take at self.old.items ++ (part.now ++ drop at self.old.items)) }
        ensures refused { OnErr result (self.new.items ≡ self.old.items) }
        ensures moved { self.new.moved ≡ self.old.moved }
    {
        self.bytes.extend_from_slice(part)?;
        insert(self.bytes.as_mut_slice(), at, part);
        Ok(())
    }
}
