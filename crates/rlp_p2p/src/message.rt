//! Messages of a capability, with their ids: the encoding of the id, and then the encoding of the
//! body.

ghost use Rattle.std.specs.Prelude.{◌++◌, ◌+◌, ◌≡◌, ◌⊎◌, Err, IfErr, IfOk, None, Ok, OnErr, OnOk, Some};
ghost use Rattle.rlp.specs.{DecoderError.TheVariants.OutOfMemory, Form.{Gives, fault_of, number}, Format.Encoding.encoding, Streams.Growth.GrowsTo, Streams.Stream.{MovedGrows, put_item}, Values.Value.number_item};
ghost use Rattle.rlp.specs.Views.View.{strict_view_of, view_of};
ghost use Rattle.rlp_p2p.specs.Message.{Fits, IsWithin, Table, body_fault, bytes_of, item_of, items_fault, message_at_most, message_fault, message_of, number_of, numbered_of, read_of, seen_of};

use bytes::BytesMut;
use rlp::{DecoderError, Encodable, Rlp, RlpStream, StrictRead};
use rlp_records::decode_at_most;
use std::alloc::{AllocError, Global};

/// A message of any number of a capability, such as [`P2pMessage`](crate::P2pMessage). A
/// message is written as its id, which is its number plus the offset of the capability, and its
/// body.
///
/// An implementation says by `table` which bodies there are, with their numbers: `and_message` and
/// `last_message` make the bodies of the table from their codecs. An implementation also has three
/// functions about the number or the body of a message. The functions for whole messages are
/// provided.
pub trait Message: Sized + Drop {
    /// The messages of the capability.
    ghost table: { Table Self };

    /// Returns the number of the message within the capability.
    fn number(&self) -> u8
        ensures { result ≡ number_of table self.now };

    /// Writes the body of the message into a stream, as [`Encodable::rlp_append`] writes a value.
    fn append_body(&self, s: &mut RlpStream) -> Result<(), AllocError>
        ensures fits { OnOk result (Fits table self.now) }
        ensures ok { OnOk result (s.new.state ≡ put_item (item_of table self.now) s.old.state) }
        ensures refused { OnErr result (GrowsTo s.old.state s.new.state) }
        ensures moved { MovedGrows s.old s.new };

    /// Reads the body of a message by its number, with at most this number of items, or any number
    /// for `None`. An implementation calls [`decode_numbered`](crate::decode_numbered).
    ///
    /// Fails with `Custom("unknown message")` for a number without a message, and else as
    /// [`decode_within`](crate::decode_within) does.
    fn decode_body(
        alloc: Global,
        message: &Numbered<'_>,
        most: Option<usize>,
    ) -> Result<Self, DecoderError>
        ensures value { IfOk result (λ m.
            (read_of table message.now.number message.now.body.now).result ≡ Ok (seen_of table m)) }
        ensures within { OnOk result
            (body_fault table most message.now.number message.now.body.now ≡ None) }
        ensures fault { IfErr result
            (λ e. (body_fault table most message.now.number message.now.body.now ≡ Some (fault_of e))
            ⊎ ((body_fault table most message.now.number message.now.body.now ≡ None)
            × (((read_of table message.now.number message.now.body.now).result ≡ Err (fault_of e))
            ⊎ (e ≡ OutOfMemory)))) };

    /// Returns the bytes of the message: the encoding of its id, which is its number plus the
    /// offset, and the encoding of its body. RLPx compresses the body, except the body of a
    /// [`Hello`](crate::Hello), and sends the id and the body in a frame. This crate neither
    /// compresses nor makes frames.
    final fn to_message(&self, alloc: Global, offset: u8) -> Result<BytesMut, AllocError>
        ensures fits { OnOk result (Fits table self.now) }
        ensures bytes { IfOk result (λ b. b.items ≡ bytes_of table offset self.now) }
    {
        let id = u64::from(offset) + u64::from(self.number());
        let mut s = RlpStream::new_with_buffer(alloc, rlp::encode(alloc, &id)?);
        s.append(&Body(self))?;
        Ok(s.out())
    }

    /// Reads a message strictly from its bytes, as [`Message::to_message`] returns them. For the
    /// bytes of a message it fails only if memory is refused.
    ///
    /// Fails as reading a `u64` does if the bytes begin with no id, with `Custom("unknown message")`
    /// for an id below the offset or without a message, and else with the strict fault of the body.
    final fn from_message(alloc: Global, offset: u8, bytes: &[u8]) -> Result<Self, DecoderError>
        ensures whole { IfOk result (λ m. Fits table m × (bytes.now ≡ bytes_of table offset m)) }
        ensures value { IfOk result
            (λ m. (message_of table offset bytes.now).result ≡ Ok (seen_of table m)) }
        ensures fault { IfErr result
            (λ e. ((message_of table offset bytes.now).result ≡ Err (fault_of e)) ⊎ (e ≡ OutOfMemory)) }
        ensures memory { (m : Self) → Fits table m → bytes.now ≡ bytes_of table offset m
            → IfErr result (λ e. e ≡ OutOfMemory) }
    {
        match Numbered::of(alloc, offset, bytes) {
            Ok(message) => Self::decode_body(alloc, &message, None),
            Err(fault) => Err(fault),
        }
    }

    /// Reads a message as [`Message::from_message`] does, if its bytes are within the bounds. It
    /// doesn't allocate for bytes that aren't.
    ///
    /// Fails with `Custom("too many bytes")` for more bytes than the bound, then with a fault of
    /// the id as [`Message::from_message`] does, then as `decode_at_most` of `rlp_records` does for
    /// the body, such as with `Custom("too many items")`, and else with the strict fault of the
    /// body. For the bytes of a message within the bounds it fails only if memory is refused.
    final fn from_message_at_most(
        alloc: Global,
        offset: u8,
        bytes: &[u8],
        most: MessageBounds,
    ) -> Result<Self, DecoderError>
        ensures whole { IfOk result (λ m. Fits table m × (bytes.now ≡ bytes_of table offset m)) }
        ensures value { IfOk result
            (λ m. (message_at_most table offset most bytes.now).result ≡ Ok (seen_of table m)) }
        ensures fault { IfErr result
            (λ e. ((message_at_most table offset most bytes.now).result ≡ Err (fault_of e))
            ⊎ ((message_fault table offset most bytes.now ≡ None) × (e ≡ OutOfMemory))) }
        ensures memory { (m : Self) → Fits table m → bytes.now ≡ bytes_of table offset m
            → IsWithin table most bytes.now m → IfErr result (λ e. e ≡ OutOfMemory) }
    {
        if bytes.len() > most.bytes {
            return Err(DecoderError::Custom("too many bytes"));
        }
        match Numbered::of(alloc, offset, bytes) {
            Ok(message) => Self::decode_body(alloc, &message, Some(most.items)),
            Err(fault) => Err(fault),
        }
    }
}

// The body of a message, which is written as a value is.
#[derive(Drop)]
struct Body<'a, M>(&'a M);

impl<M: Message> Encodable for Body<'_, M> {
    ghost item = { λ b. item_of M.table b.0.now };

    ghost fits = { λ b. Fits M.table b.0.now };

    fn rlp_append(&self, s: &mut RlpStream) -> Result<(), AllocError> {
        self.0.append_body(s)
    }
}

/// How large an untrusted message may be.
#[derive(Debug, Clone, Copy, PartialEq, Eq)]
pub struct MessageBounds {
    /// The greatest number of bytes of a message, including its id. A frame of RLPx has fewer than
    /// 2^24 bytes, and clients take at most 10 MiB of a message of `eth`.
    pub bytes: usize,
    /// The greatest number of items in the body: each string and each list counts as one item, at
    /// every depth, and so do the body itself and the items in envelopes, as `decode_at_most` of
    /// `rlp_records` counts them.
    ///
    /// No body counts more items than it has bytes, so a bound as large as `bytes` refuses no
    /// message for its number of items.
    pub items: usize,
}

/// A message whose id is read.
#[derive(Clone, Copy)]
pub struct Numbered<'a> {
    /// The number of the message, which is the id minus the offset.
    pub number: u64,
    /// The bytes after the id.
    pub body: &'a [u8],
}

impl<'a> Numbered<'a> {
    /// Reads the id that the bytes begin with. It doesn't allocate. With the offset 0 the number is
    /// the id itself, by which a caller finds the capability of the message.
    ///
    /// Fails as reading a `u64` does, and with `Custom("unknown message")` for an id below the
    /// offset.
    pub fn of(alloc: Global, offset: u8, bytes: &'a [u8]) -> Result<Numbered<'a>, DecoderError>
        ensures id { IfOk result
            (λ m. Gives (number 8).reading (view_of bytes.now) (offset + m.number)) }
        ensures whole { IfOk result (λ m. bytes.now
            ≡ encoding (number_item (offset + m.number)) ++ m.body.now) }
        ensures value { IfOk result (λ m. numbered_of offset bytes.now ≡ Ok (m.number, m.body.now)) }
        ensures fault { IfErr result (λ e. numbered_of offset bytes.now ≡ Err (fault_of e)) }
    {
        let view = Rlp::new(bytes);
        let id: u64 = view.as_val(alloc)?;
        let first = u64::from(offset);
        if id < first {
            return Err(DecoderError::Custom("unknown message"));
        }
        let (_, body) = view.split_first()?;
        Ok(Numbered {
            number: id - first,
            body,
        })
    }
}

/// Reads the body of a message strictly, with at most this number of items, or any number for
/// `None`. It doesn't allocate for bytes that have more items or aren't the encoding of an item.
/// `envelopes` says inside how many lists of the body a transaction or a receipt may stand, as for
/// `decode_at_most`.
///
/// Fails as `decode_at_most` of `rlp_records` does if a number of items is given, and else with the
/// strict fault of the body.
pub fn decode_within<R: StrictRead>(
    alloc: Global,
    bytes: &[u8],
    most: Option<usize>,
    envelopes: Option<usize>,
) -> Result<R, DecoderError>
    ensures value { IfOk result
        (λ w. (R.reading.read (strict_view_of bytes.now)).result ≡ Ok (R.reading.seen w)) }
    ensures within { OnOk result (items_fault most envelopes bytes.now ≡ None) }
    ensures fault { IfErr result (λ e. (items_fault most envelopes bytes.now ≡ Some (fault_of e))
        ⊎ ((items_fault most envelopes bytes.now ≡ None)
        × (((R.reading.read (strict_view_of bytes.now)).result ≡ Err (fault_of e))
        ⊎ (e ≡ OutOfMemory)))) }
{
    match most {
        None => rlp::decode_strict(alloc, bytes),
        Some(most) => decode_at_most(alloc, bytes, most, envelopes),
    }
}

/// Reads the body of a message by its number. The arguments are the allocator, the message, the
/// greatest number of items or `None`, and then for each number the variant that holds the body. Of
/// a body that holds transactions or receipts, the number of lists that they stand inside of comes
/// first, as in `0x06 with envelopes inside 4 => Eth69Message::BlockBodies`. It is the whole body of
/// [`Message::decode_body`](crate::Message::decode_body).
///
/// Fails with `Custom("unknown message")` for another number, and else as
/// [`decode_within`](crate::decode_within) does.
#[macro_export]
macro_rules! decode_numbered {
    (@envelopes) => { None };
    (@envelopes $depth:literal) => { Some($depth) };
    (
        $alloc:expr, $message:expr, $most:expr,
        $($number:literal $(with envelopes inside $depth:literal)? => $variant:path),+ $(,)?
    ) => {
        match $message.number {
            $($number => {
                let envelopes = $crate::decode_numbered!(@envelopes $($depth)?);
                Ok($variant($crate::decode_within($alloc, $message.body, $most, envelopes)?))
            })+
            _ => Err(DecoderError::Custom("unknown message")),
        }
    };
}
