//! Examples of calls, some of which the pages show.

ghost use Rattle.std.specs.Prelude.{◌+◌, ◌≤◌, length};
ghost use Rattle.rlp.specs.Views.View.{item_views};

use bytes::BytesMut;
use rlp::{DecoderError, Rlp, RlpIterator, RlpStream};
use std::alloc::{AllocError, Global};

/// Calls the iterator over the items of a view until it returns `None`, and returns the iterator.
/// The iterator has read at most n + 2 headers for n items.
pub fn drained<'a, 'view>(view: &'view Rlp<'a>) -> RlpIterator<'a, 'view>
    ensures { result.headers ≤ length (item_views view.now) + 2 }
{
    let mut items = view.iter();
    while let Some(_) = items.next() {}
    items
}

/// Appends a number by a chain. Then the encoder of the stream that the chain lends writes a string
/// that isn't counted. Then a chain appends two more numbers.
pub fn chain_and_encoder(alloc: Global) -> Result<RlpStream, AllocError> {
    let mut s = RlpStream::new(alloc)?;
    let chain = s.append(&1u64)?;
    chain.stream.encoder().encode_value(&[2])?;
    s.append(&3u64)?.append(&4u64)?;
    Ok(s)
}

/// Appends two numbers, the second by the stream that the first call lends.
pub fn append_by_stream(s: &mut RlpStream) -> Result<(), AllocError> {
    let lent: &mut RlpStream = s.append(&1u64)?.stream;
    lent.append(&2u64)?;
    Ok(())
}

/// Appends each number of a slice.
pub fn append_each(s: &mut RlpStream, values: &[u64]) -> Result<(), AllocError> {
    for value in values {
        s.append(value)?;
    }
    Ok(())
}

/// Returns the encoding of a list of three items: a text, a list of two numbers, and a list of one
/// number.
pub fn nested(alloc: Global) -> Result<Option<BytesMut>, AllocError> {
    let mut s = RlpStream::new_list(alloc, 3)?;
    s.append(&"cat")?;
    s.begin_list(2)?.append(&1u64)?.append(&2u64)?;
    s.begin_unbounded_list()?.append(&3u64)?;
    if s.can_finalize() {
        s.finalize_unbounded_list()?;
    }
    if s.is_finished() {
        Ok(Some(s.out()))
    } else {
        Ok(None)
    }
}

/// Returns the value of the first item, and the text of the whole view.
pub fn first_and_text<'a>(
    alloc: Global,
    view: &Rlp<'a>,
) -> Result<(&'a [u8], String), DecoderError> {
    let first = view.iter().next().ok_or(DecoderError::RlpIsTooShort)?;
    let text = format!(in alloc; "{view}").map_err(|_| DecoderError::OutOfMemory)?;
    Ok((first.data()?, text))
}
