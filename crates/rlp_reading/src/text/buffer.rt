//! Text that waits to be written.

ghost use Rattle.std.specs.{Prelude.{◌≡◌, ◌+◌, ◌*◌, ◌≤◌, ◌++◌, [], IsAscii, length, OnOk}, Fmt.WritesStyledOnOk};
ghost use Rattle.hex.specs.Hex.{encode_lower};
ghost use Rattle.rlp_reading.specs.Views.Buffered.{PutsOnOk};

use rlp_format::hex_digits::put_digits;
use std::fmt;
use std::marker::Model;
use std::str::from_utf8_unchecked;

/// The number of bytes that can wait.
const ROOM: usize = 256;

/// The number of bytes that are put at once as digits.
const AT_ONCE: usize = 64;

/// ASCII text that waits to be written. A formatter then gets many small pieces at once.
#[derive(Drop)]
pub(super) struct TextBuffer {
    room: [u8; ROOM],
    len: usize,
}

impl Model for TextBuffer {
    ghost use Rattle.std.specs.Prelude.{ℕ, List, ◌≤◌, IsAscii, take};

    ghost Value = { List ℕ };

    ghost view = { λ b. take b.len b.room };

    ghost invariant = { λ b. (b.len ≤ 256) × IsAscii (take b.len b.room) };
}

impl TextBuffer {
    /// A buffer in which nothing waits.
    pub(super) fn new() -> TextBuffer
        ensures { result ≡ [] }
    {
        TextBuffer {
            room: [0; ROOM],
            len: 0,
        }
    }

    /// Writes the text that waits.
    #[inline(never)]
    #[tactic(auto, using(crate::proofs::Pieces::ascii_is_text))]
    pub(super) fn flush<W: fmt::Write>(&mut self, f: &mut fmt::Formatter<W>) -> fmt::Result
        ensures written { WritesStyledOnOk W.write_str_gives f.old result self.old f.new }
        ensures empty { OnOk result (self.new ≡ []) }
    {
        f.write_str(unsafe { from_utf8_unchecked(&self.room[..self.len]) })?;
        self.len = 0;
        Ok(())
    }

    /// Appends ASCII. There must be room for it.
    #[inline(always)]
    fn push(&mut self, piece: &[u8])
        requires room { length self.old + length piece.now ≤ 256 }
        requires ascii { IsAscii piece.now }
        ensures { self.new ≡ self.old ++ piece.now }
    {
        let end = self.len + piece.len();
        self.room[self.len..end].copy_from_slice(piece);
        self.len = end;
    }

    /// Appends bytes, each as two digits. There must be room for them.
    #[inline(always)]
    fn push_digits(&mut self, bytes: &[u8])
        requires { length self.old + 2 * length bytes.now ≤ 256 }
        ensures { self.new ≡ self.old ++ encode_lower bytes.now }
    {
        let end = self.len + 2 * bytes.len();
        put_digits(bytes, &mut self.room[self.len..end]);
        self.len = end;
    }

    /// Makes room for more bytes.
    #[inline(always)]
    fn make_room<W: fmt::Write>(&mut self, f: &mut fmt::Formatter<W>, more: usize) -> fmt::Result
        requires { more ≤ 256 }
        ensures kept { PutsOnOk W.write_str_gives f.old self.old result [] f.new self.new }
        ensures room { OnOk result (length self.new + more ≤ 256) }
    {
        if more > ROOM - self.len {
            return self.flush(f);
        }
        Ok(())
    }

    /// Puts a piece of ASCII text.
    #[inline(always)]
    pub(super) fn put<W: fmt::Write>(
        &mut self,
        f: &mut fmt::Formatter<W>,
        piece: &[u8],
    ) -> fmt::Result
        requires few { length piece.now ≤ 256 }
        requires ascii { IsAscii piece.now }
        ensures { PutsOnOk W.write_str_gives f.old self.old result piece.now f.new self.new }
    {
        self.make_room(f, piece.len())?;
        self.push(piece);
        Ok(())
    }

    /// Puts each byte as two digits.
    #[tactic(auto, using(crate::proofs::Pieces::digit_pieces))]
    pub(super) fn put_hex<W: fmt::Write>(
        &mut self,
        f: &mut fmt::Formatter<W>,
        bytes: &[u8],
    ) -> fmt::Result
        ensures { PutsOnOk W.write_str_gives f.old self.old result (encode_lower bytes.now)
            f.new self.new }
    {
        let mut rest = bytes;
        while rest.len() > AT_ONCE {
            let (front, after) = rest.split_at(AT_ONCE);
            self.put_few(f, front)?;
            rest = after;
        }
        self.put_few(f, rest)
    }

    /// Puts a few bytes, each as two digits.
    #[inline(always)]
    fn put_few<W: fmt::Write>(&mut self, f: &mut fmt::Formatter<W>, bytes: &[u8]) -> fmt::Result
        requires { length bytes.now ≤ 64 }
        ensures { PutsOnOk W.write_str_gives f.old self.old result (encode_lower bytes.now)
            f.new self.new }
    {
        self.make_room(f, 2 * bytes.len())?;
        self.push_digits(bytes);
        Ok(())
    }
}
