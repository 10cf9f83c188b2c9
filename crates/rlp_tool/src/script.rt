//! Scripts: calls of a stream as text.
ghost use Rattle.std.specs.Prelude.{◌≡◌, [], ◌==◌, ◌+◌, ◌++◌, ◌/◌, ◌^◌, ◌<◌, ◌≤◌, ◌∷◌, length, position, option_map, replicate, take, vec_len, Some, None, MatchOption, IfSome, IfOk, IfErr, OnOk, Ok};
ghost use Rattle.rlp.specs.Streams.Stream.{finalize_unbounded_list};
ghost use Rattle.rlp_tool.specs.Script.{call_in, calls_in, labelled_call, letter_call, prepend, raw_parts, script, IsUnread, IsScriptFault};
ghost use Rattle.rlp_tool.specs.Pieces.{ArePairs, HasPairs, IsRead, bytes_of, front_piece, left_len, piece_call, pieces_left, spaces};
ghost use Rattle.rlp_tool.specs.StreamCalls.{call_of_bytes, calls_of_bytes};
ghost use Rattle.rlp_lines.specs.Digits.{bytes_in};

use crate::calls::StreamCall;
use memchr::memchr;
use rlp_lines::{are_pairs, put_bytes, read_number, without_prefix};
use std::alloc::{AllocError, Global};

/// Why a script can't be read.
#[derive(Debug, PartialEq, Eq, Drop)]
pub enum ScriptFault {
    /// The piece in this place, counted from 1, is the first that isn't a call.
    Syntax(usize),
    /// Memory was refused.
    OutOfMemory,
}

/// The number of bytes that are looked at here, four in a turn, which is faster than `memchr` for so
/// few.
const NEAR: usize = 16;

/// The place of the first such byte.
#[tactic(auto, using(rlp_lines::proofs::LinesLemmas::first_byte))]
pub(crate) fn place_of(byte: u8, text: &[u8]) -> Option<usize>
    ensures { result ≡ position (λ b. b == byte) text.now }
{
    let mut at = 0;
    while at <= NEAR - 4 && text.len() >= NEAR {
        if text[at] == byte {
            return Some(at);
        }
        if text[at + 1] == byte {
            return Some(at + 1);
        }
        if text[at + 2] == byte {
            return Some(at + 2);
        }
        if text[at + 3] == byte {
            return Some(at + 3);
        }
        at += 4;
    }
    memchr(byte, text)
}

/// A piece of a script that is a call. Its bytes are kept as digits, which were tested, except the
/// one byte of `Byte`.
#[derive(Drop)]
pub(crate) enum Piece<'a> {
    /// `d:HEX`, by its digits.
    Value(&'a [u8]),
    /// `d:HEX` of one byte, which is decoded.
    Byte(u8),
    /// `r:N:HEX`, by its digits and its number of items.
    Raw(&'a [u8], usize),
    /// `l:N`, by its number of items.
    Begin(usize),
    /// `u`
    BeginUnbounded,
    /// `e`
    Finish,
    /// `c`
    Clear,
}

/// Reads a single letter.
fn read_letter<'a>(letter: u8) -> Option<Piece<'a>>
    ensures { IsRead result (letter_call letter) }
{
    match letter {
        b'u' => Some(Piece::BeginUnbounded),
        b'e' => Some(Piece::Finish),
        b'c' => Some(Piece::Clear),
        _ => None,
    }
}

/// The digits of a text, without `0x` before them. Returns `None` if the text isn't two digits for
/// each byte.
#[tactic(auto, using(crate::proofs::CutLemmas::bytes_of_pairs))]
fn digits_in(text: &[u8]) -> Option<&[u8]>
    ensures { MatchOption result (bytes_in text.now ≡ None)
        (λ digits. ArePairs digits.now × (bytes_in text.now ≡ Some (bytes_of digits.now))) }
{
    let digits = without_prefix(text);
    if are_pairs(digits) {
        Some(digits)
    } else {
        None
    }
}

/// Reads `r:N:HEX`, from behind the first colon.
fn read_raw(text: &[u8]) -> Option<Piece<'_>>
    ensures { IsRead result (raw_parts text.now (position (λ b. b == 58) text.now)) }
{
    let Some(colon) = place_of(b':', text) else {
        return None;
    };
    let (number, rest) = text.split_at(colon);
    let Some(count) = read_number(number) else {
        return None;
    };
    match digits_in(&rest[1..]) {
        Some(digits) => Some(Piece::Raw(digits, count)),
        None => None,
    }
}

/// Reads `l:N`, `r:N:HEX` or `d:HEX`, by its letter and the text behind the colon.
#[inline(always)]
fn read_labelled(letter: u8, text: &[u8]) -> Option<Piece<'_>>
    ensures { IsRead result (labelled_call letter text.now) }
{
    match letter {
        b'l' => Some(Piece::Begin(read_number(text)?)),
        b'r' => read_raw(text),
        b'd' => Some(Piece::Value(digits_in(text)?)),
        _ => None,
    }
}

/// Reads a piece, if it is a call.
#[inline(always)]
fn read_piece(piece: &[u8]) -> Option<Piece<'_>>
    ensures { IsRead result (call_in piece.now) }
{
    match piece {
        [letter] => read_letter(*letter),
        [letter, b':', text @ ..] => read_labelled(*letter, text),
        _ => None,
    }
}

/// The pieces of a script, as a text that is still to be cut. An empty script has no pieces.
pub(crate) fn pieces_of(text: &[u8]) -> Option<&[u8]>
    ensures all { script text.now ≡ calls_in (pieces_left result) }
    ensures within { left_len result ≤ length text.now + 1 }
{
    if text.is_empty() { None } else { Some(text) }
}

/// Cuts a text at its first space. Returns the first piece, and the text with the pieces after it.
fn first_piece<'a>(text: &'a [u8]) -> (&'a [u8], Option<&'a [u8]>)
    ensures cut { spaces text.now ≡ result.0.now ∷ pieces_left result.1 }
    ensures shorter { left_len result.1 ≤ length text.now }
{
    match place_of(b' ', text) {
        Some(space) => {
            let (piece, others) = text.split_at(space);
            (piece, Some(&others[1..]))
        }
        None => (text, None),
    }
}

/// The byte of two digits.
#[inline(always)]
fn byte_of(digits: &[u8]) -> u8
    requires pairs { ArePairs digits.now }
    requires two { length digits.now ≡ 2 }
    ensures { bytes_of digits.now ≡ result ∷ [] }
{
    let mut bytes = [0];
    put_bytes(digits, &mut bytes);
    bytes[0]
}

/// Reads the first piece of a text without a loop, if it is `d:HEX` of one byte or `l:N` of one
/// digit. Returns the piece, and the text with the pieces after it.
#[inline(always)]
fn short_piece<'a>(text: &'a [u8]) -> Option<(Piece<'a>, &'a [u8])>
    ensures cut { IfSome result (λ r. spaces text.now ≡ front_piece text.now ∷ spaces r.1.now) }
    ensures read { IfSome result (λ r. IsRead (Some r.0) (call_in (front_piece text.now))) }
    ensures shorter { IfSome result (λ r. length r.1.now + 1 ≤ length text.now) }
{
    match text {
        [b'd', b':', _, _, b' ', others @ ..] if are_pairs(&text[2..4]) => {
            Some((Piece::Byte(byte_of(&text[2..4])), others))
        }
        [b'l', b':', digit @ b'0'..=b'9', b' ', others @ ..] => {
            Some((Piece::Begin(usize::from(*digit - b'0')), others))
        }
        _ => None,
    }
}

/// Cuts a text at its first space. Returns the first piece, if it is a call, and the text with the
/// pieces after it.
#[inline(always)]
pub(crate) fn next_piece<'a>(text: &'a [u8]) -> (Option<Piece<'a>>, Option<&'a [u8]>)
    ensures cut { spaces text.now ≡ front_piece text.now ∷ pieces_left result.1 }
    ensures read { IsRead result.0 (call_in (front_piece text.now)) }
    ensures shorter { left_len result.1 ≤ length text.now }
{
    if let [letter, b' ', others @ ..] = text {
        if *letter != b' ' {
            return (read_letter(*letter), Some(others));
        }
    }
    if let Some((piece, others)) = short_piece(text) {
        return (Some(piece), Some(others));
    }
    let (piece, others) = first_piece(text);
    (read_piece(piece), others)
}

/// The number of pieces `e` at the beginning of a text, and the text with the pieces after these.
#[inline(always)]
pub(crate) fn leading_finishes<'a>(pieces: Option<&'a [u8]>) -> (usize, Option<&'a [u8]>)
    ensures split { calls_in (pieces_left pieces.entry)
        ≡ prepend (replicate result.0 finalize_unbounded_list) (calls_in (pieces_left result.1)) }
    ensures shorter { result.0 + left_len result.1 ≤ left_len pieces.entry }
{
    let mut left = pieces;
    let mut count = 0;
    while let Some(rest) = left {
        left = match rest {
            [b'e'] => None,
            [b'e', b' ', others @ ..] => Some(others),
            _ => return (count, left),
        };
        count += 1;
    }
    (count, left)
}

/// The place of the first piece that isn't a call, or `None` if all pieces are calls. `first` is
/// the place of the first piece.
#[inline(never)]
pub(crate) fn first_unread(pieces: Option<&[u8]>, first: usize) -> Option<usize>
    requires { first + left_len pieces < 2 ^ 64 }
    ensures { IsUnread first (calls_in (pieces_left pieces.entry)) result }
{
    let mut left = pieces;
    let mut place = first;
    while let Some(rest) = left {
        let (piece, others) = next_piece(rest);
        let Some(_) = piece else {
            return Some(place);
        };
        place += 1;
        left = others;
    }
    None
}

/// Decodes digits to the front of the room, which grows if it is too small, and returns the bytes.
pub(crate) fn decode<'a>(digits: &[u8], room: &'a mut Vec<u8>) -> Result<&'a [u8], AllocError>
    requires { ArePairs digits.now }
    ensures { IfOk result (λ bytes. bytes.now ≡ bytes_of digits.now) }
{
    let count = digits.len() / 2;
    if room.len() < count {
        room.resize(count, 0)?;
    }
    put_bytes(digits, room.as_mut_slice());
    Ok(&room[..count])
}

/// Returns the bytes of digits.
fn decoded(alloc: Global, digits: &[u8]) -> Result<Vec<u8>, AllocError>
    requires { ArePairs digits.now }
    ensures { IfOk result (λ bytes. bytes.items ≡ bytes_of digits.now) }
{
    let mut bytes = vec![in alloc; 0u8; digits.len() / 2]?;
    put_bytes(digits, bytes.as_mut_slice());
    Ok(bytes)
}

/// Returns the call that a piece is.
fn call_of(alloc: Global, piece: &Piece<'_>) -> Result<StreamCall<Vec<u8>>, AllocError>
    requires { HasPairs piece.now }
    ensures { IfOk result (λ call. call_of_bytes call ≡ piece_call piece.now) }
{
    Ok(match piece {
        Piece::Value(digits) => StreamCall::Value(decoded(alloc, digits)?),
        Piece::Byte(byte) => StreamCall::Value(Vec::from_slice(alloc, &[*byte])?),
        Piece::Raw(digits, count) => StreamCall::Raw(decoded(alloc, digits)?, *count),
        Piece::Begin(count) => StreamCall::Begin(*count),
        Piece::BeginUnbounded => StreamCall::BeginUnbounded,
        Piece::Finish => StreamCall::Finish,
        Piece::Clear => StreamCall::Clear,
    })
}

/// Adds the call of a piece to the calls before it.
fn push_call(
    alloc: Global,
    piece: &Piece<'_>,
    calls: &mut Vec<StreamCall<Vec<u8>>>,
) -> Result<(), AllocError>
    requires { HasPairs piece.now }
    ensures { OnOk result (calls_of_bytes calls.new.items
        ≡ calls_of_bytes calls.old.items ++ piece_call piece.now ∷ []) }
{
    match calls.push(call_of(alloc, piece)?) {
        Ok(()) => Ok(()),
        Err(_) => Err(AllocError),
    }
}

/// Reads the calls of a script, which is the text after the `+` of a line.
///
/// An empty text has no calls. Any other text is cut at every space, and each piece is a call:
/// `d:HEX` is a `Value` of the bytes, `r:N:HEX` is `Raw`, `l:N` is `Begin`, and `u`, `e`, `c` are
/// `BeginUnbounded`, `Finish`, `Clear`.
///
/// Fails with `Syntax` and the place, counted from 1, of the first piece that isn't a call, or with
/// `OutOfMemory` if memory is refused.
///
/// ```rust
/// let calls = rlp_tool::read_calls(alloc, b"l:1 d:2a")?;
/// assert_eq!(rt; calls.len(), 2);
/// assert!(rt; rlp_tool::read_calls(alloc, b"l:1 x") == Err(ScriptFault::Syntax(2)));
/// ```
pub fn read_calls(alloc: Global, text: &[u8]) -> Result<Vec<StreamCall<Vec<u8>>>, ScriptFault>
    ensures ok { IfOk result (λ calls. script text.now ≡ Ok (calls_of_bytes calls.items)) }
    ensures refused { IfErr result (IsScriptFault text.now) }
{
    let mut calls = Vec::new(alloc);
    let mut left = pieces_of(text);
    while let Some(rest) = left {
        let (piece, others) = next_piece(rest);
        let Some(piece) = piece else {
            return Err(ScriptFault::Syntax(calls.len() + 1));
        };
        let Ok(()) = push_call(alloc, &piece, &mut calls) else {
            return Err(ScriptFault::OutOfMemory);
        };
        left = others;
    }
    Ok(calls)
}
