//! Makes the calls of a script on a stream, each as its piece is read.
ghost use Rattle.std.specs.Prelude.{◌≡◌, ◌+◌, [], IfOk, IfErr, OnOk};
ghost use Rattle.rlp.specs.Streams.Stream.{append_raw, initial_state};
ghost use Rattle.rlp_tool.specs.{Making.{Fails, IsLineFault, IsTaken, MakesScript, WantsMemoryInScript}, Script.{calls_in, script}, Pieces.{ArePairs, HasPairs, bytes_of, left_len, piece_call, pieces_left}};

use crate::building::{BuildFault, has_room, raw_items_are_canonical, take_call, take_finishes};
use crate::calls::{Calls, StreamCall, make_calls};
use crate::script::{Piece, decode, first_unread, leading_finishes, next_piece, pieces_of};
use bytes::BytesMut;
use rlp::RlpStream;
use rlp::laws::parts_of_sized_are_sized;
use std::alloc::Global;

/// The number of bytes that a script can write without another allocation.
const STARTING_CAPACITY: usize = 1024;

/// Why a script has no result.
#[derive(Drop)]
pub(crate) enum LineFault {
    /// The piece in this place, counted from 1, is the first that isn't a call.
    Syntax(usize),
    /// A call fails.
    Failed(BuildFault),
}

/// Decodes the digits of raw bytes, tests the bytes and puts them. The number of items is tested
/// first, which takes no memory. `place` is the place of the call.
fn take_raw(
    stream: &mut RlpStream,
    digits: &[u8],
    count: usize,
    room: &mut Vec<u8>,
    place: usize,
) -> Result<(), BuildFault>
    requires { ArePairs digits.now }
    ensures ok { OnOk result (IsTaken (append_raw (bytes_of digits.now) count) stream.old.state
        stream.new.state) }
    ensures refused { IfErr result (Fails WantsMemoryInScript
        (append_raw (bytes_of digits.now) count) stream.old.state place) }
{
    parts_of_sized_are_sized();
    if !has_room(stream, count) {
        return Err(BuildFault::TooManyItems(place));
    }
    let Ok(bytes) = decode(digits, room) else {
        return Err(BuildFault::OutOfMemory);
    };
    if !raw_items_are_canonical(bytes, count) {
        return Err(BuildFault::RawNotItems(place));
    }
    match stream.append_raw(bytes, count) {
        Ok(_) => Ok(()),
        Err(_) => Err(BuildFault::OutOfMemory),
    }
}

/// Makes the call of a piece, if the call passes its test. `place` is the place of the call.
#[tactic(auto, using(crate::proofs::CallsLemmas::refused_in_script))]
fn take_piece(
    stream: &mut RlpStream,
    piece: &Piece<'_>,
    room: &mut Vec<u8>,
    place: usize,
) -> Result<(), BuildFault>
    requires { HasPairs piece.now }
    ensures ok { OnOk result
        (IsTaken (piece_call piece.now) stream.old.state stream.new.state) }
    ensures refused { IfErr result
        (Fails WantsMemoryInScript (piece_call piece.now) stream.old.state place) }
{
    match piece {
        Piece::Value(digits) => {
            let Ok(bytes) = decode(digits, room) else {
                return Err(BuildFault::OutOfMemory);
            };
            take_call(stream, &StreamCall::Value(bytes), place)
        }
        Piece::Byte(byte) => take_call(stream, &StreamCall::Value([*byte]), place),
        Piece::Raw(digits, count) => take_raw(stream, digits, *count, room, place),
        Piece::Begin(count) => take_call::<&[u8]>(stream, &StreamCall::Begin(*count), place),
        Piece::BeginUnbounded => take_call::<&[u8]>(stream, &StreamCall::BeginUnbounded, place),
        Piece::Finish => take_call::<&[u8]>(stream, &StreamCall::Finish, place),
        Piece::Clear => take_call::<&[u8]>(stream, &StreamCall::Clear, place),
    }
}

/// The pieces of a script that are left. The room to decode a piece isn't a field: with it the
/// compiler would keep all fields in memory.
#[derive(Drop)]
struct Script<'a> {
    left: Option<&'a [u8]>,
    place: usize,
}

impl Calls for Script<'_> {
    ghost left = { λ s. calls_in (pieces_left s.left) };

    ghost place = { λ s. s.place };

    ghost size = { λ s. left_len s.left };

    ghost lacks = { WantsMemoryInScript };

    #[inline(always)]
    fn make_next(
        &mut self,
        stream: &mut RlpStream,
        room: &mut Vec<u8>,
    ) -> Result<bool, BuildFault> {
        let place = self.place;
        let Some(rest) = self.left else {
            return Ok(false);
        };
        let (piece, others) = next_piece(rest);
        let Some(piece) = piece else {
            return Ok(false);
        };
        if let Piece::Finish = piece {
            let (count, left) = leading_finishes(others);
            self.left = left;
            self.place += 1 + count;
            take_finishes(stream, 1 + count, place)?;
            return Ok(true);
        }
        self.left = others;
        self.place += 1;
        take_piece(stream, &piece, room, place)?;
        Ok(true)
    }
}

/// An empty stream, with room for bytes if that memory isn't refused.
fn empty_stream(alloc: Global) -> RlpStream
    ensures { result.state ≡ initial_state [] }
{
    match BytesMut::with_capacity(alloc, STARTING_CAPACITY) {
        Ok(buffer) => RlpStream::new_with_buffer(alloc, buffer),
        Err(_) => RlpStream::new_with_buffer(alloc, BytesMut::new(alloc)),
    }
}

/// Makes the calls of a script on an empty stream, each as its piece is read, and returns the stream.
///
/// After a call that fails it only reads the pieces. A piece that isn't a call is the fault even if
/// a call before it fails, also if memory was refused for that call.
pub(crate) fn make_script(alloc: Global, text: &[u8]) -> Result<RlpStream, LineFault>
    ensures ok { IfOk result (λ stream. MakesScript text.now stream.state) }
    ensures refused { IfErr result (IsLineFault text.now) }
{
    let mut stream = empty_stream(alloc);
    let mut calls = Script {
        left: pieces_of(text),
        place: 1,
    };
    let made = make_calls(&mut calls, &mut stream, &mut Vec::new(alloc));
    if let Some(place) = first_unread(calls.left, calls.place) {
        return Err(LineFault::Syntax(place));
    }
    match made {
        Ok(()) => Ok(stream),
        Err(fault) => Err(LineFault::Failed(fault)),
    }
}
