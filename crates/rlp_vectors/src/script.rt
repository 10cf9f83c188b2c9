//! Scripts: calls on a stream, as text. `; ` stands between two calls. A call is its name and its
//! arguments, with spaces between them. Bytes are written as `bytes_of` reads them.
//!
//! The answer of a script is the finished bytes, or `open` if a list is open at the end. It is the
//! same on a new stream and on a stream without room.
//!
//! `!` comes before a call that isn't admitted, and `N times` before a call that is made N times.
//! `list`, `over` and `list_over` begin a new stream: a list, over bytes, and a list over bytes.
//! `refused` appends a list of three items whose writing fails after the first, and `direct` calls
//! the `rlp_append` of that list. `counted` appends a value whose writing fails, and which counts
//! how often it is written. `chain BYTES` makes several calls in chains. `item BYTES` appends a raw
//! item, `raw N BYTES` N items, and `within N BYTES` one item within the limit N.
//! `finalize_up_to N M` closes at most N lists, and must close M. `is SIZE AWAITED BYTES`,
//! `size SIZE` and `estimate MORE SIZE` compare the stream.

use crate::answers::Asked;
use crate::appended::{Counted, Wrapper};
use bytes::BytesMut;
use rlp::{Encodable, RawItem, RlpStream};
use rlp_examples::{Refusing, Trio};
use rlp_hand_written::{Nonce, Pair};
use rlp_rows::guarded::{estimates, finalize, is_as, put_raw, put_undotted, takes_items};
use rlp_rows::rows::{Line, bytes_of, cut, number};
use std::alloc::{AllocError, Global};
use std::cell::Cell;
use std::fmt;
use std::fmt::Write;

/// Makes a call. Returns `false` if it isn't admitted, or if a stream that is compared is another.
fn make(alloc: Global, s: &mut RlpStream, call: &str) -> Result<bool, AllocError> {
    let (name, arguments) = cut(call);
    let (first, second) = cut(arguments);
    match name {
        "list" | "over" | "list_over" => begin_anew(alloc, s, name, first, second),
        "is" => stands(alloc, s, number(first), second),
        "size" => Ok(s.len() == number(first) && estimates(s, 0, Some(number(first)))),
        "estimate" => Ok(estimates(s, number(first), second.parse::<usize>().ok())),
        "text" => added(s, &arguments),
        "raw" => raw_added(alloc, s, second, number(first), None),
        "within" => raw_added(alloc, s, second, 1, Some(number(first))),
        "refused" | "refused_internal" | "refused_list" => {
            Ok(!refuse(s, name, &[Trio(1, Refusing, 3)]))
        }
        "counted" | "counted_internal" | "counted_list" => Ok(!is_written_once(s, name)),
        "direct" => Ok(Trio(1, Refusing, 3).rlp_append(s).is_err()),
        "small"
        | "smalls"
        | "string"
        | "iter"
        | "undotted"
        | "encode"
        | "encode_undotted"
        | "item"
        | "chain" => put_text(alloc, s, name, first),
        _ => append(s, name, number(first), number(second)),
    }
}

/// Returns a new stream: a list, a stream over bytes, or a list over bytes.
fn begun(alloc: Global, name: &str, first: &str, second: &str) -> Result<RlpStream, AllocError> {
    match name {
        "list" => RlpStream::new_list(alloc, number(first)),
        "over" => Ok(RlpStream::new_with_buffer(alloc, buffer_of(alloc, first)?)),
        _ => {
            let buffer = buffer_of(alloc, second)?;
            RlpStream::new_list_with_buffer(alloc, buffer, number(first)).or(Err(AllocError))
        }
    }
}

/// Puts a new stream into the place of a stream.
fn begin_anew(
    alloc: Global,
    s: &mut RlpStream,
    name: &str,
    first: &str,
    second: &str,
) -> Result<bool, AllocError> {
    *s = begun(alloc, name, first, second)?;
    Ok(true)
}

/// Appends the bytes of a text as raw items.
fn raw_added(
    alloc: Global,
    s: &mut RlpStream,
    text: &str,
    count: usize,
    limit: Option<usize>,
) -> Result<bool, AllocError> {
    put_raw(s, bytes_of(alloc, text)?.as_slice(), count, limit)
}

/// Appends a value.
fn added<E: Encodable>(s: &mut RlpStream, value: &E) -> Result<bool, AllocError> {
    s.append(value)?;
    Ok(true)
}

/// Appends a value by `append_internal`.
fn added_inside<E: Encodable>(s: &mut RlpStream, value: &E) -> Result<bool, AllocError> {
    s.append_internal(value)?;
    Ok(true)
}

/// Appends a list of values.
fn added_list<E: Encodable>(s: &mut RlpStream, values: &[E]) -> Result<bool, AllocError> {
    s.append_list(values)?;
    Ok(true)
}

/// Makes a call that begins or closes lists, clears the stream, or appends values.
fn append(s: &mut RlpStream, name: &str, first: usize, second: usize) -> Result<bool, AllocError> {
    let (number, next) = (first as u64, second as u64);
    match name {
        "begin" => s.begin_list(first).and(Ok(true)),
        "unbounded" => s.begin_unbounded_list().and(Ok(true)),
        "finalize" => finalize(s),
        "finalize_up_to" => Ok(s.finalize_unbounded_lists(first)? == second),
        "clear" => {
            s.clear();
            Ok(true)
        }
        "empty" => s.append_empty_data().and(Ok(true)),
        "number" => added(s, &number),
        "nonce" => added(s, &Nonce(number)),
        "pair" => added(s, &Pair(number, next)),
        "internal" => added_inside(s, &number),
        "internal_pair" => added_inside(s, &Pair(number, next)),
        "wrapper" => added(s, &Wrapper(number)),
        "none" => added_inside(s, &None::<u8>),
        "no_numbers" => added_list::<u64>(s, &[]),
        "no_u32s" => added_list::<u32>(s, &[]),
        "u32" => added(s, &u32::try_from(first).unwrap_or(0)),
        "pairs" => added_list(s, &[Pair(1, 2), Pair(3, 4)]),
        _ => Ok(false),
    }
}

/// Makes calls in chains: begins an unbounded list and in it a list of six items, and appends two
/// items; appends two lists and an empty string, and begins an unbounded list; and appends a number
/// and a raw item. Returns `false` if the last list awaits no second item.
fn chain(s: &mut RlpStream, bytes: &[u8]) -> Result<bool, AllocError> {
    s.begin_unbounded_list()?
        .begin_list(6)?
        .append(&1u64)?
        .append_iter(b"dog".iter().copied())?;
    s.append_list(&[2u64, 3])?
        .append_internal(&Pair(4, 5))?
        .append_empty_data()?
        .begin_unbounded_list()?;
    let last = s.append(&6u64)?;
    if !takes_items(last.stream, 1) {
        return Ok(false);
    }
    last.append_raw(bytes, 1)?;
    Ok(true)
}

/// Makes a call that appends a value that is refused. Returns whether the call is refused.
fn refuse<E: Encodable>(s: &mut RlpStream, name: &str, values: &[E; 1]) -> bool {
    match name {
        "refused" | "counted" => s.append(&values[0]).is_err(),
        "refused_internal" | "counted_internal" => s.append_internal(&values[0]).is_err(),
        _ => s.append_list(values).is_err(),
    }
}

/// Returns whether the call that appends a value whose writing fails is refused, and writes the
/// value once.
fn is_written_once(s: &mut RlpStream, name: &str) -> bool {
    let calls = Cell::new(0usize);
    refuse(s, name, &[Counted(&calls)]) && calls.get() == 1
}

/// Makes a call that puts the bytes of a text.
fn put_text(alloc: Global, s: &mut RlpStream, name: &str, text: &str) -> Result<bool, AllocError> {
    put(alloc, s, name, bytes_of(alloc, text)?.as_slice())
}

/// Makes a call that puts bytes. Returns `false` if they are to be a raw item, and aren't.
fn put(alloc: Global, s: &mut RlpStream, name: &str, bytes: &[u8]) -> Result<bool, AllocError> {
    match name {
        "undotted" => put_undotted(s, bytes, true),
        "encode_undotted" => put_undotted(s, bytes, false),
        "string" => added(s, &bytes),
        "small" => added(s, bytes.first().unwrap_or(&0)),
        "smalls" => added_list(s, bytes),
        "iter" => s.append_iter(bytes.iter().copied()).and(Ok(true)),
        "encode" => s.encoder().encode_value(bytes).and(Ok(true)),
        "chain" => chain(s, bytes),
        _ => match RawItem::new(alloc, bytes) {
            Ok(item) => added(s, &item),
            Err(_) => Ok(false),
        },
    }
}

/// Returns a buffer that holds these bytes.
pub fn buffer_of(alloc: Global, text: &str) -> Result<BytesMut, AllocError> {
    BytesMut::copy_from_slice(alloc, bytes_of(alloc, text)?.as_slice())
}

/// Returns whether a stream has this state: the size, and then the number of items that the
/// innermost open list awaits, `any`, or `done`, and the bytes.
fn stands(alloc: Global, s: &RlpStream, size: usize, more: &str) -> Result<bool, AllocError> {
    let (awaited, text) = cut(more);
    let bytes = bytes_of(alloc, text)?;
    let items = awaited.parse::<usize>().ok();
    Ok(is_as(s, bytes.as_slice(), size, items, awaited == "any"))
}

/// Makes a call, which isn't admitted if `!` stands before it. A call that is refused memory is made
/// again. Returns `false` if it isn't admitted, or if a call that isn't made changes the stream.
fn make_again(
    alloc: Global,
    s: &mut RlpStream,
    call: &str,
    refused: &mut bool,
) -> Result<bool, AllocError> {
    let admitted = !call.starts_with('!');
    let call = call.strip_prefix('!').unwrap_or(call);
    let raw = Vec::from_slice(alloc, s.as_raw())?;
    let (size, awaited, any) = (s.len(), s.items_awaited(), s.can_finalize());
    let made = make(alloc, s, call);
    if made != Ok(true) && !is_as(s, raw.as_slice(), size, awaited, any) {
        return Ok(false);
    }
    match made {
        Ok(made) => Ok(made == admitted),
        Err(_) => {
            *refused = true;
            Ok(make(alloc, s, call)? == admitted)
        }
    }
}

/// The greatest number of times that a call is repeated with a comparison each time.
const COMPARED: usize = 100;

/// Makes a call as many times as the text before it says.
fn repeat(
    alloc: Global,
    s: &mut RlpStream,
    call: &str,
    refused: &mut bool,
) -> Result<bool, AllocError> {
    let (times, call) = call.split_once(" times ").unwrap_or(("1", call));
    let times = number(times);
    for _ in 0..times {
        let made = if times <= COMPARED {
            make_again(alloc, s, call, refused)?
        } else {
            make(alloc, s, call)?
        };
        if !made {
            return Ok(false);
        }
    }
    Ok(true)
}

/// Makes the calls of a script on a stream, and tells the finished bytes. Fails if a call was refused
/// memory, and the answer is as wanted.
fn tell_on(asked: &Asked<'_>, s: &mut RlpStream, out: &mut Line) -> fmt::Result {
    let mut refused = false;
    for call in asked.given.split("; ") {
        if !repeat(asked.alloc, s, call, &mut refused)? {
            return write!(out, "stops at {call}");
        }
    }
    if s.is_finished() {
        asked.tell_bytes(s.as_raw(), out)?;
    } else {
        out.write_str("open")?;
    }
    if refused && out.as_str() == asked.want {
        Err(fmt::Error)
    } else {
        Ok(())
    }
}

/// Tells the finished bytes of a script on a stream without room.
fn tell_narrow(asked: &Asked<'_>, out: &mut Line) -> fmt::Result {
    let mut narrow = RlpStream::new_with_buffer(asked.alloc, BytesMut::new(asked.alloc));
    tell_on(asked, &mut narrow, out)
}

/// Tells the finished bytes of a script on a new stream, or on a stream without room if they aren't
/// as wanted.
pub(crate) fn tell_script(asked: &Asked<'_>, out: &mut Line) -> fmt::Result {
    tell_narrow(asked, out)?;
    if out.as_str() != asked.want {
        return out.write_str(" without room");
    }
    *out = Line::new();
    let mut s = RlpStream::new(asked.alloc)?;
    tell_on(asked, &mut s, out)
}
