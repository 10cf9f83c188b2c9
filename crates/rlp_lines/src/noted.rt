//! A reader or writer that remembers whether it has failed, how many reads it made, and whether it
//! was flushed.
ghost use Rattle.std.specs.Prelude.{◌≡◌, ◌+◌, ◌-◌, ◌^◌, ◌<◌, min, true, false, length, OnOk, OnErr, IfOk, ◌||◌};
ghost use Rattle.std.specs.{Io.KnownBytes.{ReadConsumes, WriteAppends, Keeps}, Io.{ReadsAtMost, WritesAtMost}};

use std::io;
use std::io::{Read, Write};
use std::marker::Model;

/// A reader or writer that remembers its calls: whether a call has failed, how many reads it made,
/// and whether it was flushed since the last write that took bytes.
#[derive(Drop)]
pub struct Noted<T> {
    inner: T,
    failed: bool,
    reads: u64,
    flushed: bool,
}

impl<T> Model for Noted<T> {
    ghost use Rattle.rlp_lines.specs.Watched.{Watched};

    ghost Value = { Watched T };

    ghost view = { λ n. record {
      inner = n.inner;
      failed = n.failed;
      reads = n.reads;
      flushed = n.flushed;
    } };
}

impl<T> Noted<T> {
    /// Wraps a reader or writer. It has not failed, and counts no reads and no flush.
    pub fn new(inner: T) -> Noted<T>
        ensures inner { result.inner ≡ inner }
        ensures failed { result.failed ≡ false }
        ensures reads { result.reads ≡ 0 }
        ensures flushed { result.flushed ≡ false }
    {
        Noted {
            inner,
            failed: false,
            reads: 0,
            flushed: false,
        }
    }

    /// The reader or writer itself.
    pub fn inner(&self) -> &T
        ensures { result.now ≡ self.now.inner }
    {
        &self.inner
    }

    /// Whether a call has failed.
    pub fn failed(&self) -> bool
        ensures { result ≡ self.now.failed }
    {
        self.failed
    }

    /// The number of reads. The count doesn't grow beyond `u64::MAX`.
    pub fn reads(&self) -> u64
        ensures { result ≡ self.now.reads }
    {
        self.reads
    }

    /// Whether a flush succeeded, and no write took a byte since then.
    pub fn flushed(&self) -> bool
        ensures { result ≡ self.now.flushed }
    {
        self.flushed
    }

    /// Remembers whether a call failed: if `fault` is true, the reader or writer counts as failed
    /// from now on.
    fn note(&mut self, fault: bool)
        ensures { self.new ≡ record self.old { failed = self.old.failed || fault } }
    {
        self.failed |= fault;
    }
}

impl<R: Read> Noted<R> {
    /// Reads once. If the reader fails, returns its error and counts it as failed.
    pub fn read(&mut self, buf: &mut [u8]) -> io::Result<usize>
        ensures bound { ReadsAtMost result buf.new }
        ensures bytes { ReadConsumes (R.remaining self.old.inner)
            (R.remaining self.new.inner) result buf.new }
        ensures ok { OnOk result (self.new.failed ≡ self.old.failed) }
        ensures err { OnErr result (self.new.failed ≡ true) }
        ensures reads { self.new.reads ≡ min (self.old.reads + 1) (2 ^ 64 - 1) }
        ensures flushed { self.new.flushed ≡ self.old.flushed }
    {
        self.reads = self.reads.saturating_add(1);
        let result = self.inner.read(buf);
        self.note(result.is_err());
        result
    }
}

impl<W: Write> Noted<W> {
    /// Writes once, and returns how many bytes the writer took. If it took a byte, it no longer
    /// counts as flushed.
    ///
    /// If the writer fails, returns its error and counts it as failed. A writer that is given bytes
    /// and takes none of them counts as failed too.
    pub fn write(&mut self, buf: &[u8]) -> io::Result<usize>
        ensures bound { WritesAtMost result buf.now }
        ensures bytes { WriteAppends (W.contents self.old.inner)
            (W.contents self.new.inner) result buf.now }
        ensures some_taken { IfOk result (λ n. 0 < n → self.new.failed ≡ self.old.failed) }
        ensures nothing_given { length buf.now ≡ 0
            → OnOk result (self.new.failed ≡ self.old.failed) }
        ensures none_taken { IfOk result (λ n. n ≡ 0 → 0 < length buf.now
            → self.new.failed ≡ true) }
        ensures err { OnErr result (self.new.failed ≡ true) }
        ensures reads { self.new.reads ≡ self.old.reads }

        // The taken bytes aren't flushed yet.
        ensures unflushed { IfOk result (λ n. 0 < n → self.new.flushed ≡ false) }
        ensures flushed { IfOk result (λ n. n ≡ 0 → self.new.flushed ≡ self.old.flushed) }
        ensures flushed_still { OnErr result (self.new.flushed ≡ self.old.flushed) }
    {
        let result = self.inner.write(buf);
        match &result {
            Ok(0) => self.note(!buf.is_empty()),
            Ok(_) => self.flushed = false,
            Err(_) => self.note(true),
        }
        result
    }

    /// Flushes, and then counts as flushed.
    ///
    /// If the writer fails, returns its error and counts it as failed.
    pub fn flush(&mut self) -> io::Result<()>
        ensures bytes { Keeps (W.contents self.old.inner) (W.contents self.new.inner) }
        ensures ok { OnOk result (self.new.failed ≡ self.old.failed) }
        ensures err { OnErr result (self.new.failed ≡ true) }
        ensures reads { self.new.reads ≡ self.old.reads }
        ensures flushed { OnOk result (self.new.flushed ≡ true) }
        ensures flushed_still { OnErr result (self.new.flushed ≡ self.old.flushed) }
    {
        let result = self.inner.flush();
        match &result {
            Ok(()) => self.flushed = true,
            Err(_) => self.note(true),
        }
        result
    }
}
