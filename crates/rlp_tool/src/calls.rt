//! Calls of a stream as values, and the loop that makes calls.
ghost use Rattle.std.specs.Prelude.{ℕ, ◌≡◌, ◌+◌, ◌<◌, ◌≤◌, ◌^◌, false, true, List, IfOk, OnOk, Result};
ghost use Rattle.rlp.specs.Streams.Stream.{Call, State};
ghost use Rattle.rlp_tool.specs.Making.{MakesSome, NoneIsNext};

use crate::building::BuildFault;
use rlp::RlpStream;

/// A call of a stream, with its arguments.
#[derive(Debug, Drop)]
pub enum StreamCall<E> {
    /// Appends a value, as `RlpStream::append`.
    Value(E),
    /// Appends the list of the values, as `RlpStream::append_list`.
    Values(Vec<E>),
    /// Appends bytes as they are, and counts this number of items, as `RlpStream::append_raw`.
    Raw(Vec<u8>, usize),
    /// Begins a list of this number of items, as `RlpStream::begin_list`.
    Begin(usize),
    /// Begins an unbounded list, as `RlpStream::begin_unbounded_list`.
    BeginUnbounded,
    /// Closes the innermost list, which is unbounded, as `RlpStream::finalize_unbounded_list`.
    Finish,
    /// Drops everything that was written, as `RlpStream::clear`.
    Clear,
}

/// Calls that are made one after another, from values or from text.
pub(crate) trait Calls {
    /// The calls that are left. For a text with a piece that isn't a call, the place of the first
    /// such piece among the pieces that are left, counted from 1.
    ghost left: { Self → Result (List Call) ℕ };

    /// The place of the next call.
    ghost place: { Self → ℕ };

    /// A number that is at least the number of calls that are left.
    ghost size: { Self → ℕ };

    /// For which call, and in which state before it, memory may be refused.
    ghost lacks: { Call → State → Type 0 };

    /// Makes the next call if it passes its test, or all `Finish` that come next. Returns whether
    /// there was a next call. It may use the room for the bytes of a value.
    fn make_next(&mut self, stream: &mut RlpStream, room: &mut Vec<u8>) -> Result<bool, BuildFault>
        requires { place self.old + size self.old < 2 ^ 64 }
        ensures made { MakesSome lacks (left self.old) (left self.new) (place self.old)
            (place self.new) stream.old.state stream.new.state result }
        ensures ended { IfOk result (λ more. more ≡ false → NoneIsNext (left self.new)) }
        ensures within { place self.new + size self.new ≤ place self.old + size self.old }
        ensures shorter { IfOk result (λ more. more ≡ true → size self.new < size self.old) };
}

/// Makes all calls, up to the first call that fails.
#[inline(always)]
#[tactic(auto, using(std::proofs::lemmas::Result::err_from_is_err_and, crate::proofs::CallsLemmas::fails_more, crate::proofs::CallsLemmas::makes_more, crate::proofs::CallsLemmas::makes_none))]
pub(crate) fn make_calls<C: Calls>(
    calls: &mut C,
    stream: &mut RlpStream,
    room: &mut Vec<u8>,
) -> Result<(), BuildFault>
    requires { C.place calls.old + C.size calls.old < 2 ^ 64 }
    ensures made { MakesSome C.lacks (C.left calls.old) (C.left calls.new) (C.place calls.old)
        (C.place calls.new) stream.old.state stream.new.state result }
    ensures ended { OnOk result (NoneIsNext (C.left calls.new)) }
    ensures within { C.place calls.new + C.size calls.new ≤ C.place calls.old + C.size calls.old }
{
    loop {
        if !calls.make_next(stream, room)? {
            return Ok(());
        }
    }
}
