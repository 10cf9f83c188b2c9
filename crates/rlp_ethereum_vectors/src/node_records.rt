//! Node records.

use crate::kinds::both_ways;
use rlp::{DecoderError, RawItem};
use rlp_node_record::{NodeFields, NodePair, NodeRecord};
use std::alloc::{AllocError, Global};

/// Returns what a call about a node record answers: about its signed content, or about a record that
/// has keys of these bytes.
pub(crate) fn answer(alloc: Global, name: &str, bytes: &[u8]) -> Result<String, DecoderError> {
    match name {
        "signed content" => {
            let record = rlp::decode::<NodeRecord>(alloc, bytes)?;
            Ok(hex::encode(alloc, record.signed_content(alloc)?.as_slice())?)
        }
        "of the key" => of_keys(alloc, &[bytes, b"id"]),
        "of the key alone" => of_keys(alloc, &[bytes]),
        _ => of_keys(alloc, &[bytes, bytes]),
    }
}

/// Returns of the record with these keys, each before an empty list, whether it goes both ways, and
/// the number of its bytes.
fn of_keys(alloc: Global, keys: &[&[u8]]) -> Result<String, DecoderError> {
    let mut pairs = Vec::new(alloc);
    for key in keys {
        let (key, value) = (Vec::from_slice(alloc, key)?, RawItem::new(alloc, &[0xc0])?);
        pairs.push(NodePair { key, value })?;
    }
    let fields = NodeFields {
        signature: Vec::new(alloc),
        sequence: 1,
        pairs,
    };
    let written = rlp::encode(alloc, &NodeRecord::new(alloc, fields)?)?;
    let ways = both_ways(alloc, "NodeRecord", written.as_slice())?;
    Ok(format!(in alloc; "{ways}, {}", written.len())?)
}

/// Returns what the known keys of the record of a text give, and what is read of the key `udp`.
pub(crate) fn of_text(alloc: Global, text: &str) -> Result<String, DecoderError> {
    let record = NodeRecord::from_text(alloc, text)?;
    if record.to_text(alloc)?.as_str() != text {
        return Ok(String::from_str(alloc, "another text")?);
    }
    let id = digits(alloc, record.id())?;
    let (key, ip, ip6) = (record.secp256k1(), record.ip(), record.ip6());
    let key = digits(alloc, key.as_ref().map(|key| key.as_slice()))?;
    let ip = digits(alloc, ip.as_ref().map(|ip| ip.as_slice()))?;
    let ip6 = digits(alloc, ip6.as_ref().map(|ip6| ip6.as_slice()))?;
    let (ports, ports6) = ((record.tcp(), record.udp()), (record.tcp6(), record.udp6()));
    let item = digits(alloc, record.value(b"udp").map(|item| item.as_bytes()))?;
    let number = record.get::<u64>(alloc, b"udp");
    Ok(format!(in alloc;
        "id {id}, secp256k1 {key}, ip {ip} {:?} {:?}, ip6 {ip6} {:?} {:?}, udp {item} {number:?}",
        ports.0, ports.1, ports6.0, ports6.1
    )?)
}

/// Returns the digits of bytes, or `none`.
fn digits(alloc: Global, bytes: Option<&[u8]>) -> Result<String, AllocError> {
    match bytes {
        Some(bytes) => hex::encode(alloc, bytes),
        None => String::from_str(alloc, "none"),
    }
}
