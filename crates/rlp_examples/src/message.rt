//! A sum that is written as a list: the number of a kind, and a payload.

ghost use Rattle.rlp_examples.specs.Message.{message};

use rlp::{
    Decodable, DecodePlaced, DecoderError, Encodable, Fields, Rlp, RlpStream, RoundTrip, StrictRead,
};
use std::alloc::{AllocError, Global};

/// A message between peers: the list of the number of its kind and its content.
#[derive(Drop)]
pub enum Message {
    /// Kind 1: a question with a number, to which a peer answers.
    Ping(u64),
    /// Kind 2: some bytes.
    Data(Vec<u8>),
}

impl Encodable for Message {
    ghost item = { message.item };

    ghost fits = { message.Fits };

    fn rlp_append(&self, s: &mut RlpStream) -> Result<(), AllocError> {
        match self {
            Message::Ping(number) => rlp::append_fields!(s, &1u8, number),
            Message::Data(bytes) => rlp::append_fields!(s, &2u8, bytes),
        }
    }
}

/// Reading fails with `Custom("unknown message")` for another number.
impl Decodable for Message {
    ghost reading = { message.reading };

    fn decode(alloc: Global, rlp: &Rlp<'_>) -> Result<Message, DecoderError> {
        let mut items = Fields::of(rlp)?;
        let (Some(kind), Some(content), None) = (items.next(), items.next(), items.next()) else {
            return Err(DecoderError::RlpIncorrectListLen);
        };
        let kind: u8 = kind.as_val(alloc)?;
        match kind {
            1 => Ok(Message::Ping(content.as_val(alloc)?)),
            2 => Ok(Message::Data(content.as_val(alloc)?)),
            _ => Err(DecoderError::Custom("unknown message")),
        }
    }
}

impl DecodePlaced for Message {
    fn put_path(alloc: Global, rlp: &Rlp<'_>, path: &mut Vec<usize>) -> Result<(), AllocError> {
        let Ok(mut items) = Fields::of(rlp) else {
            return Ok(());
        };
        let (Some(kind), Some(content), None) = (items.next(), items.next(), items.next()) else {
            return Ok(());
        };
        match kind.as_val::<u8>(alloc) {
            Ok(kind) => {
                path.push(1)?;
                match kind {
                    1 => u64::put_path(alloc, &content, path),
                    2 => Vec::<u8>::put_path(alloc, &content, path),
                    _ => Ok(()),
                }
            }
            Err(_) => {
                path.push(0)?;
                Ok(())
            }
        }
    }
}

impl RoundTrip for Message {
    ghost round_trip = { message.reads_back };
}

impl StrictRead for Message {
    ghost strict = { message.reads_strictly };
}
