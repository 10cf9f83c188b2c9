//! The calls that rows name.

use crate::kinds::both_ways;
use crate::{
    bound, direct, fields, hashes, light, messages, node_records, nodes, places, read_hashes,
    reading, roots, transactions, uses,
};
use rlp::DecoderError;
use std::alloc::Global;

/// Returns what a call answers about what is given: a text, or the fault of the bytes. Given are the
/// digits of bytes, or the text of a node record, or the digits of a proof, or capabilities. The call
/// of a kind answers `both ways` if the bytes are read as a value that is written as the same bytes, and
/// fail if the last byte is missing or another follows.
pub fn answer(alloc: Global, call: &str, given: &str) -> Result<String, DecoderError> {
    match call.split_once(": ") {
        None if call == "proof" => nodes::proof(alloc, given),
        None if call == "item" => roots::item(alloc, given),
        None if call == "balance" => light::tell_balance(alloc, given),
        None if call == "state" => light::tell_state(alloc, given),
        None if call == "state account" => light::tell_proved(alloc, given),
        None if call == "state slot" => light::tell_slot(alloc, given),
        Some(("node record", "of the text")) => node_records::of_text(alloc, given),
        Some(("offset", name)) => messages::offset(alloc, name, given),
        _ => about_bytes(alloc, call, bytes_of(alloc, given)?.as_slice()),
    }
}

/// Returns the bytes of digits.
pub(crate) fn bytes_of(alloc: Global, digits: &str) -> Result<Vec<u8>, DecoderError> {
    match hex::decode(alloc, digits.as_bytes()) {
        Ok(bytes) => Ok(bytes),
        Err(_) => Err(DecoderError::Custom("no digits")),
    }
}

/// Returns what a call answers about bytes.
fn about_bytes(alloc: Global, call: &str, bytes: &[u8]) -> Result<String, DecoderError> {
    let (subject, name) = call.split_once(": ").unwrap_or((call, ""));
    match subject {
        "account" => uses::tell_account(alloc, bytes),
        "address" => hashes::address(alloc, name, bytes),
        "at most" => reading::bounded(alloc, name, bytes),
        "bound" => bound::answer(alloc, name, bytes),
        "direct" => direct::answer(alloc, name, bytes),
        "fields" => fields::answer(alloc, name, bytes),
        "hash" => hashes::answer(alloc, name, bytes),
        "index" => light::tell_index(alloc, bytes),
        "number" => messages::number(alloc, name, bytes),
        "node" => nodes::answer(alloc, name, bytes),
        "node record" => node_records::answer(alloc, name, bytes),
        "place" => places::answer(alloc, name, bytes),
        "pooled" => transactions::pooled(alloc, name, bytes),
        "received" => uses::tell_received(alloc, bytes),
        "payment" => transactions::made(alloc),
        "headers from" => messages::headers_from(alloc, bytes),
        "read hash" => read_hashes::answer(alloc, name, bytes),
        "root" => roots::answer(alloc, name, bytes),
        "signing" => transactions::signing(alloc, name, bytes),
        _ => both_ways(alloc, call, bytes),
    }
}
