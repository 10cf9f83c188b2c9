//! The values of the keys of a node record.

ghost use Rattle.std.specs.{Option.option_copied, Prelude.{◌≡◌, codes, false}};
ghost use Rattle.rlp_node_record.specs.NodeKeys.{GivesArray, GivesKnown, GivesPort, GivesString, ReadsKey, value_of};

use crate::NodeRecord;
use crate::lookup::value_among;
use rlp::{Decodable, DecoderError, RawItem, StrictRead};
use std::alloc::Global;

/// The keys. A getter of a key that EIP-778 defines returns `None` if the record doesn't have the
/// key, and also if the value of the key doesn't have the form of EIP-778.
impl NodeRecord {
    /// The value of a key, or `None` if the record hasn't the key.
    pub fn value(&self, key: &[u8]) -> Option<&RawItem>
        ensures { option_copied result ≡ value_of key.now self.now }
    {
        value_among(self.fields().pairs.as_slice(), key)
    }

    /// The value of a key as a value of this type, or `None` if the record hasn't the key. Reading
    /// is strict, and fails as [`rlp::decode_strict`] does.
    pub fn get<T: Decodable>(&self, alloc: Global, key: &[u8]) -> Option<Result<T, DecoderError>>
        ensures { ReadsKey T.reading (value_of key.now self.now) result }
    {
        match self.value(key) {
            Some(value) => Some(rlp::decode_strict(alloc, value.as_bytes())),
            None => None,
        }
    }

    /// The name of the identity scheme, such as `v4`: the string at the key `id`.
    pub fn id(&self) -> Option<&[u8]>
        ensures { GivesString (codes "id") self.now (option_copied result) }
    {
        match self.value(b"id") {
            Some(value) => value.rlp().decoder().string().ok(),
            None => None,
        }
    }

    /// The compressed public key: the string of 33 bytes at the key `secp256k1`.
    pub fn secp256k1(&self) -> Option<[u8; 33]>
        ensures { GivesArray 33 (codes "secp256k1") self.now result }
    {
        known(self, b"secp256k1")
    }

    /// The IPv4 address: the string of 4 bytes at the key `ip`.
    pub fn ip(&self) -> Option<[u8; 4]>
        ensures { GivesArray 4 (codes "ip") self.now result }
    {
        known(self, b"ip")
    }

    /// The TCP port: the number at the key `tcp`.
    pub fn tcp(&self) -> Option<u16>
        ensures { GivesPort (codes "tcp") self.now result }
    {
        known(self, b"tcp")
    }

    /// The UDP port: the number at the key `udp`.
    pub fn udp(&self) -> Option<u16>
        ensures { GivesPort (codes "udp") self.now result }
    {
        known(self, b"udp")
    }

    /// The IPv6 address: the string of 16 bytes at the key `ip6`.
    pub fn ip6(&self) -> Option<[u8; 16]>
        ensures { GivesArray 16 (codes "ip6") self.now result }
    {
        known(self, b"ip6")
    }

    /// The TCP port for the IPv6 address: the number at the key `tcp6`. If the record doesn't have
    /// the key, the port of [`NodeRecord::tcp`] is for both addresses.
    pub fn tcp6(&self) -> Option<u16>
        ensures { GivesPort (codes "tcp6") self.now result }
    {
        known(self, b"tcp6")
    }

    /// The UDP port for the IPv6 address: the number at the key `udp6`. If the record doesn't have
    /// the key, the port of [`NodeRecord::udp`] is for both addresses.
    pub fn udp6(&self) -> Option<u16>
        ensures { GivesPort (codes "udp6") self.now result }
    {
        known(self, b"udp6")
    }
}

/// The value of a key as a value of a type whose reading doesn't allocate, or `None` if the record
/// hasn't the key or the value of the key isn't a value of this type.
fn known<T: StrictRead>(node: &NodeRecord, key: &[u8]) -> Option<T>
    requires { T.reading.takes_memory ≡ false }
    ensures { GivesKnown T.fits T.item (value_of key.now node.now) result }
{
    let alloc = *node.fields().pairs.allocator();
    match node.value(key) {
        Some(value) => match rlp::decode_whole(alloc, value.as_bytes()) {
            Ok(value) => Some(value),
            Err(_) => None,
        },
        None => None,
    }
}
