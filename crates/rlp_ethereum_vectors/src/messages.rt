//! Messages with their ids, a request that is made by hand, and the offsets of capabilities.

use crate::fields::text;
use rlp::DecoderError;
use rlp_messages::{
    ETH_68, ETH_69, Eth68Message, Eth69Message, GetBlockHeaders, HashOrNumber, WithRequestId,
};
use rlp_p2p::{Capability, Hello, Message, NodeId, P2pMessage, Protocol};
use std::alloc::{AllocError, Global};

/// Returns the number of a message of a protocol.
pub(crate) fn number(alloc: Global, protocol: &str, bytes: &[u8]) -> Result<String, DecoderError> {
    let number = match protocol {
        "p2p" => P2pMessage::from_message(alloc, 0, bytes)?.number(),
        "eth/68" => Eth68Message::from_message(alloc, 0x10, bytes)?.number(),
        _ => Eth69Message::from_message(alloc, 0x10, bytes)?.number(),
    };
    Ok(format!(in alloc; "{number}")?)
}

/// Returns the request for headers from this block on.
fn get_headers(start_block: HashOrNumber) -> WithRequestId<GetBlockHeaders> {
    WithRequestId {
        request_id: 1111,
        content: GetBlockHeaders {
            start_block,
            limit: 5,
            skip: 5,
            reverse: false,
        },
    }
}

/// Returns the digits of the request for headers from a block on, which the bytes name.
pub(crate) fn headers_from(alloc: Global, bytes: &[u8]) -> Result<String, DecoderError> {
    let request = get_headers(rlp::decode_strict::<HashOrNumber>(alloc, bytes)?);
    Ok(hex::encode(alloc, rlp::encode(alloc, &request)?.as_slice())?)
}

/// Returns the capability of a text, such as `snap/1/8`: its name, its version, and the number of its
/// messages. The capabilities `eth/68` and `eth/69` are those of the library.
fn capability(text: &str) -> Protocol<'_> {
    let (name, numbers) = text.split_once('/').unwrap_or((text, ""));
    let (version, ids) = numbers.split_once('/').unwrap_or((numbers, ""));
    match text {
        "eth/68" => ETH_68,
        "eth/69" => ETH_69,
        _ => Protocol {
            name: name.as_bytes(),
            version: version.parse::<u64>().unwrap_or(0),
            ids: ids.parse::<u8>().unwrap_or(0),
        },
    }
}

/// Returns the greeting of a client that speaks these capabilities.
fn greeting(alloc: Global, spoken: &str) -> Result<Hello, AllocError> {
    let mut capabilities = Vec::new(alloc);
    for text in spoken.split(' ') {
        let Protocol { name, version, .. } = capability(text);
        let name = Vec::from_slice(alloc, name)?;
        capabilities.push(Capability { name, version })?;
    }
    Ok(Hello {
        protocol_version: 5,
        client_id: Vec::new(alloc),
        capabilities,
        listen_port: 0,
        node_id: NodeId([0; 64]),
        further: Vec::new(alloc),
    })
}

/// Returns the offset of a capability, or whether it is shared. Given are the capabilities that we
/// speak, `; `, and those of the peer.
pub(crate) fn offset(alloc: Global, name: &str, given: &str) -> Result<String, DecoderError> {
    let (ours, peer) = given.split_once("; ").unwrap_or((given, ""));
    let mut spoken = Vec::new(alloc);
    for text in ours.split(' ') {
        spoken.push(capability(text))?;
    }
    let peer = greeting(alloc, peer)?;
    match name.strip_prefix("shared ") {
        Some(name) => text(alloc, capability(name).is_shared(spoken.as_slice(), &peer)),
        None => text(alloc, capability(name).offset(spoken.as_slice(), &peer)),
    }
}
