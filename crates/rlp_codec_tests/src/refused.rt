//! Streams that are made, of which one is refused memory.
//!
//! `tools/refusals/run` refuses each allocation of these tests in turn. A test returns `AllocError` if
//! nothing else was lost.

use bytes::BytesMut;
use rlp::RlpStream;
use std::alloc::{AllocError, Global};

/// Returns whether the given buffer is the front of a new list, or is returned if the call fails.
fn buffer_comes_back(alloc: Global) -> Result<bool, AllocError> {
    let mut junk = BytesMut::new(alloc);
    junk.extend_from_slice(b"junk")?;
    match RlpStream::new_list_with_buffer(alloc, junk, 2) {
        Ok(s) => Ok(s.as_raw() == b"junk\0".as_slice() && s.items_awaited() == Some(2)),
        Err(buffer) if buffer.as_slice() == b"junk".as_slice() => Err(AllocError),
        Err(_) => Ok(false),
    }
}

#[test]
fn what_is_made(rt: HostRuntime) -> Result<(), AllocError> {
    assert!(rt; buffer_comes_back(rt.alloc())?);
    assert!(rt; RlpStream::new(rt.alloc())?.is_empty());
    Ok(())
}
