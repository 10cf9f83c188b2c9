//! Messages of the capability `p2p` of RLPx, with their ids, and the messages that keep a connection.

ghost use Rattle.rlp_p2p.specs.P2pMessage.{p2p, ping, pong};

use crate::{Disconnect, Hello, Message, Numbered};
use rlp::{DecoderError, Encodable, Record, Rlp, RlpStream};
use std::alloc::{AllocError, Global};

/// A message of `p2p`. RLPx gives this capability the offset 0.
#[derive(Debug, Clone, PartialEq, Eq, Drop)]
pub enum P2pMessage {
    /// 0x00.
    Hello(Hello),
    /// 0x01.
    Disconnect(Disconnect),
    /// 0x02.
    Ping(Ping),
    /// 0x03.
    Pong(Pong),
}

impl Message for P2pMessage {
    ghost table = { p2p };

    fn number(&self) -> u8 {
        match self {
            P2pMessage::Hello(_) => 0x00,
            P2pMessage::Disconnect(_) => 0x01,
            P2pMessage::Ping(_) => 0x02,
            P2pMessage::Pong(_) => 0x03,
        }
    }

    fn append_body(&self, s: &mut RlpStream) -> Result<(), AllocError> {
        match self {
            P2pMessage::Hello(body) => body.rlp_append(s),
            P2pMessage::Disconnect(body) => body.rlp_append(s),
            P2pMessage::Ping(body) => body.rlp_append(s),
            P2pMessage::Pong(body) => body.rlp_append(s),
        }
    }

    fn decode_body(
        alloc: Global,
        message: &Numbered<'_>,
        most: Option<usize>,
    ) -> Result<P2pMessage, DecoderError> {
        crate::decode_numbered!(
            alloc,
            message,
            most,
            0x00 => P2pMessage::Hello,
            0x01 => P2pMessage::Disconnect,
            0x02 => P2pMessage::Ping,
            0x03 => P2pMessage::Pong,
        )
    }
}

/// Asks for a [`Pong`], message 0x02 of `p2p`: the list of no items.
#[derive(Debug, Clone, Copy, PartialEq, Eq)]
pub struct Ping;

impl Encodable for Ping {
    ghost item = { ping.item };

    ghost fits = { ping.Fits };

    #[tactic(auto, using(rlp::proofs::Writing::writing))]
    fn rlp_append(&self, s: &mut RlpStream) -> Result<(), AllocError> {
        s.begin_list(0)?;
        Ok(())
    }
}

impl Record for Ping {
    ghost reading = { ping.reading };

    fn decode(alloc: Global, rlp: &Rlp<'_>) -> Result<Ping, DecoderError> {
        match rlp::decode_struct(alloc, rlp) {
            Ok(()) => Ok(Ping),
            Err(fault) => Err(fault.fault),
        }
    }

    fn put_path(alloc: Global, rlp: &Rlp<'_>, path: &mut Vec<usize>) -> Result<(), AllocError> {
        rlp::put_path_of::<()>(alloc, rlp, path)
    }

    ghost lawful = { ping.reads_strictly };
}

/// The answer to a [`Ping`], message 0x03 of `p2p`: the list of no items.
#[derive(Debug, Clone, Copy, PartialEq, Eq)]
pub struct Pong;

impl Encodable for Pong {
    ghost item = { pong.item };

    ghost fits = { pong.Fits };

    #[tactic(auto, using(rlp::proofs::Writing::writing))]
    fn rlp_append(&self, s: &mut RlpStream) -> Result<(), AllocError> {
        s.begin_list(0)?;
        Ok(())
    }
}

impl Record for Pong {
    ghost reading = { pong.reading };

    fn decode(alloc: Global, rlp: &Rlp<'_>) -> Result<Pong, DecoderError> {
        match rlp::decode_struct(alloc, rlp) {
            Ok(()) => Ok(Pong),
            Err(fault) => Err(fault.fault),
        }
    }

    fn put_path(alloc: Global, rlp: &Rlp<'_>, path: &mut Vec<usize>) -> Result<(), AllocError> {
        rlp::put_path_of::<()>(alloc, rlp, path)
    }

    ghost lawful = { pong.reads_strictly };
}
