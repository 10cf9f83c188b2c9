//! Node records.

ghost use Rattle.std.specs.Prelude.{◌≡◌};
ghost use Rattle.rlp_node_record.specs.NodeFields.{node_fields, pair_fields};
ghost use Rattle.rlp_show.specs.{ItemDisplays.{node_fields_display, node_pair_display}, Display.seen_as, Value.content_of};
ghost use Rattle.rlp_show.specs.NodeRecords.{is_ip, is_port_key, port_content, string_content};

use crate::show::{Items, Show, show_fields};
use crate::sink::{BytesKind, Shown, Sink, bytes, number};
use rlp::Rlp;
use rlp_node_record::{NodeFields, NodePair};
use std::alloc::{AllocError, Global};

/// Returns whether the value of a key is a port.
fn is_port_key(key: &[u8]) -> bool
    ensures { result ≡ is_port_key key.now }
{
    (key == "tcp".as_bytes() || key == "udp".as_bytes())
        || (key == "tcp6".as_bytes() || key == "udp6".as_bytes())
}

/// Returns a port, or the bytes if they aren't a port.
fn port_in(port: &[u8]) -> Shown<'_>
    ensures { content_of result ≡ port_content port.now }
{
    match port {
        [] => number(0),
        [0, ..] => bytes(port),
        [low] => number(u64::from(*low)),
        [high, low] => number(256 * u64::from(*high) + u64::from(*low)),
        _ => bytes(port),
    }
}

/// Returns whether the value of a key is an IP address.
fn is_ip(key: &[u8], bytes: &[u8]) -> bool
    ensures { result ≡ is_ip key.now bytes.now }
{
    (key == "ip".as_bytes() && bytes.len() == 4) || (key == "ip6".as_bytes() && bytes.len() == 16)
}

/// Returns what is shown of the string at a key.
fn string_at<'a>(key: &[u8], string: &'a [u8]) -> Shown<'a>
    ensures { content_of result ≡ string_content key.now string.now }
{
    if key == "id".as_bytes() {
        return Shown::Bytes(BytesKind::Word, string);
    }
    if is_ip(key, string) {
        return Shown::Bytes(BytesKind::Ip, string);
    }
    if is_port_key(key) {
        return port_in(string);
    }
    bytes(string)
}

impl Show for NodePair {
    ghost display = { seen_as pair_fields.reading.seen node_pair_display };

    #[tactic(auto, using(crate::proofs::ItemLemmas::values_of_keys))]
    fn show<S: Sink>(&self, alloc: Global, name: &str, sink: &mut S) -> Result<(), AllocError> {
        let bytes = self.key.as_slice();
        let key = Shown::Bytes(BytesKind::Word, bytes);
        match Rlp::new(self.value.as_bytes()).decoder().string() {
            Ok(string) => {
                let value = string_at(bytes, string);
                show_fields!(alloc, name, sink; "key" key; "value" value)
            }
            Err(_) => show_fields!(alloc, name, sink; "key" key; self.value;),
        }
    }
}

impl Show for NodeFields {
    ghost display = { seen_as node_fields.reading.seen node_fields_display };

    fn show<S: Sink>(&self, alloc: Global, name: &str, sink: &mut S) -> Result<(), AllocError> {
        show_fields!(alloc, name, sink; self.signature; self.sequence; "pairs" Items(&self.pairs))
    }
}
