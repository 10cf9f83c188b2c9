//! Which ids the messages of a capability have on a connection.

ghost use Rattle.std.specs.Prelude.{◌≡◌, map};
ghost use Rattle.rlp_p2p.specs.Offsets.{announced, comes_before, is_shared, is_superseded, is_used, known_of, offered, offset_of, shared_offset, speaks};

use crate::Hello;

/// A capability that this client speaks, and how many ids its messages have.
#[derive(Debug, Clone, Copy, PartialEq, Eq)]
pub struct Protocol<'a> {
    /// The name, such as `eth`.
    pub name: &'a [u8],
    /// The version.
    pub version: u64,
    /// The number of ids: 1 more than the greatest number of a message of the capability.
    pub ids: u8,
}

impl Protocol<'_> {
    /// Returns whether a connection to the client of this greeting uses the capability: the
    /// capability is one of ours, the peer speaks it in the same version, and the two clients share
    /// no higher version of it.
    pub fn is_shared(&self, ours: &[Protocol<'_>], peer: &Hello) -> bool
        ensures { result ≡ is_shared (map known_of ours.now) (offered peer.now) self.now.name.now
            self.now.version }
    {
        is_one_of(self, ours) && is_used(self, ours, peer)
    }

    /// Returns the offset of the capability on a connection to the client of this greeting, which is
    /// the id of its first message. The ids from 0x10 on are given to each shared capability, in
    /// alphabetic order of the names, which are compared byte by byte.
    ///
    /// `ours` are the capabilities in our own greeting, each once. Returns `None` if the capability
    /// isn't shared, as [`Protocol::is_shared`] says, or if its offset is above 255.
    ///
    /// Of n capabilities of ours and m of the peer, it compares each of ours with each of the peer at
    /// most n + 2 times, and doesn't allocate.
    pub fn offset(&self, ours: &[Protocol<'_>], peer: &Hello) -> Option<u8>
        ensures { result ≡ shared_offset (map known_of ours.now) (offered peer.now)
            self.now.name.now self.now.version }
    {
        if !self.is_shared(ours, peer) {
            return None;
        }
        u8::try_from(first_id(self.name, ours, peer)).ok()
    }
}

/// Returns the first id after the ids of the shared capabilities whose names come before this name.
#[tactic(auto, using(crate::proofs::BothEnds::asking))]
fn first_id(name: &[u8], ours: &[Protocol<'_>], peer: &Hello) -> u128
    ensures { result ≡ offset_of (map known_of ours.now) (offered peer.now) name.now }
{
    let mut next: u128 = 0x10;
    for other in ours {
        if comes_before(other.name, name) && is_used(other, ours, peer) {
            next += u128::from(other.ids);
        }
    }
    next
}

/// Whether the peer speaks a capability in this version, and the two clients share no higher
/// version.
fn is_used(protocol: &Protocol<'_>, ours: &[Protocol<'_>], peer: &Hello) -> bool
    ensures { result ≡ is_used (map known_of ours.now) (offered peer.now) protocol.now.name.now
        protocol.now.version }
{
    speaks(peer, protocol) && !is_superseded(protocol, ours, peer)
}

/// Whether a capability is one of ours.
#[tactic(auto, using(crate::proofs::BothEnds::asking))]
fn is_one_of(protocol: &Protocol<'_>, ours: &[Protocol<'_>]) -> bool
    ensures { result ≡ speaks (announced (map known_of ours.now)) protocol.now.name.now
        protocol.now.version }
{
    for other in ours {
        if other.version == protocol.version && other.name == protocol.name {
            return true;
        }
    }
    false
}

/// Whether the client of a greeting speaks a capability in its version.
#[tactic(auto, using(crate::proofs::BothEnds::asking))]
fn speaks(peer: &Hello, protocol: &Protocol<'_>) -> bool
    ensures { result ≡ speaks (offered peer.now) protocol.now.name.now protocol.now.version }
{
    for capability in &peer.capabilities {
        if capability.version == protocol.version && capability.name.as_slice() == protocol.name {
            return true;
        }
    }
    false
}

/// Whether both clients speak a capability in a higher version.
#[tactic(auto, using(crate::proofs::BothEnds::asking))]
fn is_superseded(protocol: &Protocol<'_>, ours: &[Protocol<'_>], peer: &Hello) -> bool
    ensures { result ≡ is_superseded (map known_of ours.now) (offered peer.now) protocol.now.name.now
        protocol.now.version }
{
    for other in ours {
        if protocol.version < other.version && other.name == protocol.name && speaks(peer, other) {
            return true;
        }
    }
    false
}

/// Whether a name comes before another in alphabetic order.
fn comes_before(name: &[u8], other: &[u8]) -> bool
    ensures { result ≡ comes_before name.now other.now }
{
    name.cmp(other).is_lt()
}
