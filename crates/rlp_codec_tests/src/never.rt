//! Calls on streams that don't allocate.
//!
//! `tools/refusals/run` refuses every allocation after a signal.

use bytes::BytesMut;
use rlp::RlpStream;
use rlp_rows::guarded::{estimates, finishes_as, is_as, put_raw, put_undotted};
use rlp_rows::signal::refuse_from_here;
use std::alloc::{AllocError, Global};

/// Returns whether a list of three items that holds "cat" has the right state, and is cleared.
fn list_answers(mut s: RlpStream) -> bool {
    let open = is_as(&s, b"\0\x83cat", 5, Some(2), false)
        && estimates(&s, usize::MAX, None)
        && estimates(&s, 51, Some(56))
        && estimates(&s, 52, Some(58));
    s.encoder();
    s.clear();
    open && s.is_empty() && finishes_as(s, b"")
}

/// Returns whether raw bytes are put into the room of a new stream.
fn room_is_used(mut s: RlpStream) -> Result<bool, AllocError> {
    let put = put_raw(&mut s, &[0u8; 1000], 1, None)? && put_raw(&mut s, b"rlp", 1, Some(1003))?;
    s.append_empty_data()?;
    let refused = !put_raw(&mut s, b"rlp", 1, Some(1003))?;
    Ok(put && refused && s.len() == 1004 && s.as_raw().ends_with(b"rlp\x80"))
}

/// Returns whether a list and a stream with room don't allocate.
fn streams_answer(alloc: Global) -> Result<bool, AllocError> {
    let mut list = RlpStream::new_list(alloc, 3)?;
    list.append(&"cat")?;
    let roomy = RlpStream::new(alloc)?;
    refuse_from_here(alloc);
    Ok(list_answers(list) && room_is_used(roomy)?)
}

/// Returns whether the bytes of iterators are put into room of exactly their size.
fn buffer_is_used(alloc: Global) -> Result<bool, AllocError> {
    let mut buffer = BytesMut::with_capacity(alloc, 12)?;
    buffer.extend_from_slice(b"junk")?;
    refuse_from_here(alloc);
    let mut s = RlpStream::new_with_buffer(alloc, buffer);
    let begun = s.is_empty() && s.as_raw() == b"junk".as_slice();
    put_undotted(&mut s, b"c.a.t", true)?;
    put_undotted(&mut s, b"d.o.g", false)?;
    Ok(begun && finishes_as(s, b"junk\x83cat\x83dog"))
}

#[test]
fn streams_that_need_no_memory(rt: HostRuntime) {
    assert!(rt; streams_answer(rt.alloc()) == Ok(true));
}

#[test]
fn buffers_that_need_no_memory(rt: HostRuntime) {
    assert!(rt; buffer_is_used(rt.alloc()) == Ok(true));
}
