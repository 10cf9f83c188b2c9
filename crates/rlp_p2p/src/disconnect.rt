//! The end of a connection of the capability `p2p` of RLPx.

ghost use Rattle.std.specs.Prelude.{◌≡◌};
ghost use Rattle.rlp_p2p.specs.Disconnect.{NamedIfPossible, disconnect, reason, reason_number, told_reason};

use rlp::{DecoderError, Encodable, Optional, OptionalField, Record, Rlp, RlpStream};
use std::alloc::{AllocError, Global};

/// Why a client ends a connection: a number of one byte. The variants are the names of the numbers
/// in RLPx.
#[derive(Debug, Clone, Copy, PartialEq, Eq)]
pub enum DisconnectReason {
    /// 0x00: the end was requested.
    Requested,
    /// 0x01: an error of the TCP connection.
    TcpError,
    /// 0x02: the other client broke the protocol, for example by a message that can't be read.
    ProtocolBreach,
    /// 0x03: the other client is of no use.
    UselessPeer,
    /// 0x04: the client has too many peers.
    TooManyPeers,
    /// 0x05: the clients are connected already.
    AlreadyConnected,
    /// 0x06: the versions of `p2p` aren't compatible.
    IncompatibleVersion,
    /// 0x07: the other client has no identity.
    NullIdentity,
    /// 0x08: the client shuts down.
    ClientQuitting,
    /// 0x09: the identity isn't the one that was expected.
    UnexpectedIdentity,
    /// 0x0a: the client is connected to itself.
    OwnIdentity,
    /// 0x0b: a [`Ping`](crate::Ping) had no answer in time.
    PingTimeout,
    /// 0x10: a reason of a protocol above `p2p`.
    SubprotocolError,
    /// A number that has no name.
    Other(u8),
}

impl DisconnectReason {
    /// Returns the reason with this number. It is `Other` only for a number that has no name.
    pub fn of(number: u8) -> DisconnectReason
        ensures number { reason_number result ≡ number }
        ensures name { NamedIfPossible result }
    {
        match number {
            0x00 => DisconnectReason::Requested,
            0x01 => DisconnectReason::TcpError,
            0x02 => DisconnectReason::ProtocolBreach,
            0x03 => DisconnectReason::UselessPeer,
            0x04 => DisconnectReason::TooManyPeers,
            0x05 => DisconnectReason::AlreadyConnected,
            0x06 => DisconnectReason::IncompatibleVersion,
            0x07 => DisconnectReason::NullIdentity,
            0x08 => DisconnectReason::ClientQuitting,
            0x09 => DisconnectReason::UnexpectedIdentity,
            0x0a => DisconnectReason::OwnIdentity,
            0x0b => DisconnectReason::PingTimeout,
            0x10 => DisconnectReason::SubprotocolError,
            other => DisconnectReason::Other(other),
        }
    }

    /// Returns the number of the reason.
    pub fn number(self) -> u8
        ensures { result ≡ reason_number self }
    {
        match self {
            DisconnectReason::Requested => 0x00,
            DisconnectReason::TcpError => 0x01,
            DisconnectReason::ProtocolBreach => 0x02,
            DisconnectReason::UselessPeer => 0x03,
            DisconnectReason::TooManyPeers => 0x04,
            DisconnectReason::AlreadyConnected => 0x05,
            DisconnectReason::IncompatibleVersion => 0x06,
            DisconnectReason::NullIdentity => 0x07,
            DisconnectReason::ClientQuitting => 0x08,
            DisconnectReason::UnexpectedIdentity => 0x09,
            DisconnectReason::OwnIdentity => 0x0a,
            DisconnectReason::PingTimeout => 0x0b,
            DisconnectReason::SubprotocolError => 0x10,
            DisconnectReason::Other(number) => number,
        }
    }
}

/// Written as its number.
impl Encodable for DisconnectReason {
    ghost item = { reason.item };

    ghost fits = { reason.Fits };

    fn rlp_append(&self, s: &mut RlpStream) -> Result<(), AllocError> {
        self.number().rlp_append(s)
    }
}

/// Read as a number of one byte. It doesn't allocate.
impl Record for DisconnectReason {
    ghost reading = { reason.reading };

    fn decode(alloc: Global, rlp: &Rlp<'_>) -> Result<DisconnectReason, DecoderError> {
        Ok(DisconnectReason::of(rlp.as_val(alloc)?))
    }

    fn put_path(_alloc: Global, _rlp: &Rlp<'_>, _path: &mut Vec<usize>) -> Result<(), AllocError> {
        Ok(())
    }

    ghost lawful = { reason.reads_strictly };
}

/// The last message of a connection, 0x01 of `p2p`, in one of two forms.
///
/// RLPx says that the message is a list, and that the reason in it is optional. Some clients send
/// the reason alone.
///
/// The reason 0 is the empty string, `80`. Reading fails for the string of the byte 0, `00`, alone
/// or in a list (`c100`), and for a list with items after the reason, though some clients read
/// these messages.
#[derive(Debug, Clone, Copy, PartialEq, Eq)]
pub enum Disconnect {
    /// The list of the reason, or the empty list.
    Listed(Option<DisconnectReason>),
    /// The reason alone.
    Bare(DisconnectReason),
}

impl Disconnect {
    /// Returns the reason, whichever form the message has, or `None` if the message is the empty
    /// list.
    pub fn reason(self) -> Option<DisconnectReason>
        ensures { result ≡ told_reason self }
    {
        match self {
            Disconnect::Listed(reason) => reason,
            Disconnect::Bare(reason) => Some(reason),
        }
    }
}

impl Encodable for Disconnect {
    ghost item = { disconnect.item };

    ghost fits = { disconnect.Fits };

    fn rlp_append(&self, s: &mut RlpStream) -> Result<(), AllocError> {
        match self {
            Disconnect::Listed(reason) => rlp::append_fields!(s, Optional(reason)),
            Disconnect::Bare(reason) => reason.rlp_append(s),
        }
    }
}

/// Reading a list fails as reading a struct of one optional field does, and else as reading a number
/// does.
impl Record for Disconnect {
    ghost reading = { disconnect.reading };

    fn decode(alloc: Global, rlp: &Rlp<'_>) -> Result<Disconnect, DecoderError> {
        if rlp.is_list() {
            return match rlp::decode_struct(alloc, rlp) {
                Ok(fields) => {
                    let OptionalField(reason) = fields;
                    Ok(Disconnect::Listed(reason))
                }
                Err(fault) => Err(fault.fault),
            };
        }
        Ok(Disconnect::Bare(rlp.as_val(alloc)?))
    }

    fn put_path(alloc: Global, rlp: &Rlp<'_>, path: &mut Vec<usize>) -> Result<(), AllocError> {
        if rlp.is_list() {
            return rlp::put_path_of::<OptionalField<DisconnectReason>>(alloc, rlp, path);
        }
        DisconnectReason::put_path(alloc, rlp, path)
    }

    ghost lawful = { disconnect.reads_strictly };
}
