//! The examples of calls, some of which the pages show.

use bytes::BytesMut;
use rlp::{
    DecoderError, EMPTY_LIST_RLP, Each, Encodable, Flattened, ListOf, NULL_RLP, Rlp, RlpStream,
};
use rlp_examples::{
    Refusing, Trio, append_by_stream, append_each, bytes_of_three, chain_and_encoder,
    first_and_text, nested, received, renumbered,
};
use rlp_hand_written::HalfWritten;
use rlp_rows::guarded::finishes_as;
use std::alloc::{AllocError, Global};
use std::test::Fail;

fn view_is_read(alloc: Global) -> Result<bool, DecoderError> {
    let (first, text) = first_and_text(alloc, &Rlp::new(&[0xc4, 0xc2, 0x01, 0x02, 0x03]))?;
    Ok(first == [0x01, 0x02].as_slice() && text.as_str() == "[[\"0x01\", \"0x02\"], \"0x03\"]")
}

fn parcel_is_renumbered(alloc: Global) -> Result<bool, DecoderError> {
    let parcel = received(alloc, &[0xc5, 0x05, 0x81, 0xff, 0xc1, 0x07])?;
    let other = renumbered(alloc, parcel, 6).or(Err(DecoderError::OutOfMemory))?;
    let trailing = received(alloc, &[0xc4, 0x05, 0x80, 0xc1, 0x07, 0x00]).err();
    Ok(
        other.as_slice() == [0xc5, 0x06, 0x81, 0xff, 0xc1, 0x07].as_slice()
            && trailing == Some(DecoderError::RlpIsTooBig),
    )
}

/// Appends what the examples append to a stream.
fn append_all(s: &mut RlpStream) -> Result<(), AllocError> {
    append_by_stream(s)?;
    append_each(s, &[128, 0])
}

/// Returns whether a stream holds what the examples append.
fn stream_holds(alloc: Global) -> Result<bool, AllocError> {
    let mut s = chain_and_encoder(alloc)?;
    append_all(&mut s)?;
    Ok(finishes_as(s, &[1, 2, 3, 4, 1, 2, 0x81, 0x80, 0x80]))
}

/// Returns whether fields that are slices are written.
fn slices_are_fields(alloc: Global) -> Result<bool, AllocError> {
    let mut s = RlpStream::new(alloc)?;
    let pairs = [(&1u64, &2u64), (&3u64, &4u64)];
    rlp::append_fields!(&mut s, Each(&[7u64, 8]), Flattened(&pairs), ListOf(&[5u64]))?;
    Ok(s.as_raw() == b"\xc8\x07\x08\x01\x02\x03\x04\xc1\x05".as_slice())
}

/// Returns whether a value whose writing fails leaves the stream as it was, and has no encoding.
fn is_refused<E: Encodable>(alloc: Global, value: &E) -> Result<bool, AllocError> {
    let mut s = RlpStream::new(alloc)?;
    s.append(&"cat")?;
    let refused = s.append(value).is_err();
    let alone = rlp::encode(alloc, value).is_err() && value.rlp_bytes(alloc).is_err();
    Ok(refused && alone && finishes_as(s, b"\x83cat"))
}

#[test]
fn examples_as_shown(rt: HostRuntime) -> Result<(), Fail> {
    let alloc = rt.alloc();
    assert!(rt; stream_holds(alloc)?);
    assert!(rt; view_is_read(alloc)?);
    assert!(rt; parcel_is_renumbered(alloc)?);
    assert!(rt; rlp::decode::<u64>(alloc, &[0x82, 0x01, 0x00])? == 256);
    let list = nested(alloc)?.unwrap_or(BytesMut::new(alloc));
    assert!(rt; list.as_slice() == b"\xc9\x83cat\xc2\x01\x02\xc1\x03".as_slice());
    assert!(rt; NULL_RLP == [0x80] && EMPTY_LIST_RLP == [0xc0]);
    assert!(rt; slices_are_fields(alloc)?);
    let three = bytes_of_three(alloc, &"cat", &128u64, &"")?;
    assert!(rt; three.as_slice() == b"\x83cat\x81\x80\x80".as_slice());
    assert!(rt; is_refused(alloc, &Trio(1, Refusing, 3))?);
    assert!(rt; is_refused(alloc, &HalfWritten)?);
    Ok(())
}
