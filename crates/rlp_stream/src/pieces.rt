//! The next bytes of a reader, appended to a buffer in pieces.

ghost use Rattle.std.specs.Prelude.{◌≡◌, ◌+◌, ◌<◌, ◌≤◌, take, drop, length, vec_len, IfOk, IfErr, OnOk, OnErr, MatchBool};
ghost use Rattle.std.specs.{Io.KnownBytes.{Consumes, IsAtEnd, Keeps}, Io.ReadsAtMost};
ghost use Rattle.rlp_stream.specs.Pieces.{AppendsRead, IsStop};

use crate::fault::ReadFault;
use std::alloc::AllocError;
use std::io;
use std::io::{ErrorKind, Read};

/// The most bytes for which memory is asked before they have arrived.
const PIECE: usize = 65_536;

/// Reads once. A read that a signal interrupts is tried again.
fn read_retrying<R: Read>(reader: &mut R, bytes: &mut [u8]) -> io::Result<usize>
    ensures bound { ReadsAtMost result bytes.new }
    ensures ok { IfOk result (λ n. Consumes (R.remaining reader.old) (R.remaining reader.new)
        (take n bytes.new)) }
    ensures end { IfOk result (λ n. n ≡ 0 → 0 < length bytes.old → IsAtEnd (R.remaining reader.new)) }
    ensures err { OnErr result (Keeps (R.remaining reader.old) (R.remaining reader.new)) }
{
    for _ in 0..u64::MAX {
        match reader.read(bytes) {
            Ok(count) => return Ok(count),
            Err(fault) => {
                if fault.kind() != ErrorKind::Interrupted {
                    return Err(fault);
                }
            }
        }
    }
    reader.read(bytes)
}

/// Reads once into the bytes from the place `at` on, and returns how many were read.
fn read_at<R: Read>(reader: &mut R, bytes: &mut [u8], at: usize) -> io::Result<usize>
    requires { at < length bytes.old }
    ensures front { take at bytes.new ≡ take at bytes.old }
    ensures fits { IfOk result (λ n. at + n ≤ length bytes.new) }
    ensures ok { IfOk result (λ n. Consumes (R.remaining reader.old) (R.remaining reader.new)
        (take n (drop at bytes.new))) }
    ensures end { IfOk result (λ n. n ≡ 0 → IsAtEnd (R.remaining reader.new)) }
    ensures err { OnErr result (Keeps (R.remaining reader.old) (R.remaining reader.new)) }
{
    read_retrying(reader, &mut bytes[at..])
}

/// Makes room for bytes after the first `filled` ones, if there is none: at most for one piece, and
/// up to `end` bytes in all.
fn make_room(out: &mut Vec<u8>, filled: usize, end: usize) -> Result<(), AllocError>
    requires within { filled ≤ vec_len out.old }
    requires ends { vec_len out.old ≤ end }
    requires more { filled < end }
    ensures front { take filled out.new.items ≡ take filled out.old.items }
    ensures within { filled ≤ vec_len out.new }
    ensures ends { vec_len out.new ≤ end }
    ensures room { OnOk result (filled < vec_len out.new) }
{
    if filled < out.len() {
        return Ok(());
    }
    out.resize(filled + (end - filled).min(PIECE), 0)
}

/// Reads into the buffer until its first `end` bytes are filled or the reader is at its end. Returns
/// how many are filled, and whether `end` are. The rest of the buffer is room.
fn fill<R: Read>(reader: &mut R, end: usize, out: &mut Vec<u8>) -> (usize, Result<bool, ReadFault>)
    requires { vec_len out.old ≤ end }
    ensures within { result.0 ≤ vec_len out.new }
    ensures ends { vec_len out.new ≤ end }
    ensures read { AppendsRead (R.remaining reader.old) (R.remaining reader.new) out.old.items
        (take result.0 out.new.items) }
    ensures whole { IfOk result.1 (λ whole. MatchBool whole (result.0 ≡ end)
        ((result.0 < end) × IsAtEnd (R.remaining reader.new))) }
    ensures stop { IfErr result.1 IsStop }
{
    let mut filled = out.len();
    while filled < end {
        if make_room(out, filled, end).is_err() {
            return (filled, Err(ReadFault::OutOfMemory));
        }
        match read_at(reader, out.as_mut_slice(), filled) {
            Ok(0) => return (filled, Ok(false)),
            Ok(count) => filled += count,
            Err(fault) => return (filled, Err(ReadFault::Io(fault))),
        }
    }
    (filled, Ok(true))
}

/// Appends the next bytes of the reader until the buffer has `end` bytes. Returns `false` if the
/// reader ends before. The buffer then holds all that was left.
pub(crate) fn append<R: Read>(
    reader: &mut R,
    end: usize,
    out: &mut Vec<u8>,
) -> Result<bool, ReadFault>
    requires { vec_len out.old ≤ end }
    ensures ends { vec_len out.new ≤ end }
    ensures read { AppendsRead (R.remaining reader.old) (R.remaining reader.new) out.old.items
        out.new.items }
    ensures whole { IfOk result (λ whole. MatchBool whole (vec_len out.new ≡ end)
        ((vec_len out.new < end) × IsAtEnd (R.remaining reader.new))) }
    ensures stop { IfErr result IsStop }
{
    let (filled, result) = fill(reader, end, out);
    out.truncate(filled);
    result
}
