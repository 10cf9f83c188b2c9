//! Whether bytes are canonical.

ghost use Rattle.std.specs.Prelude.{◌≡◌, ◌↔◌, IsTrue, min};
ghost use Rattle.rlp_reading.specs.Format.Framing.{IsCanonicalWithin};

use rlp_reading::walking::is_canonical;

/// The greatest depth of lists that any function goes to, whatever the caller allows. It bounds the
/// depth of recursion.
pub const RLP_DEPTH_LIMIT: u32 = 256;

/// The depth that a caller allows, but no more than the limit.
pub fn depth_within(max_depth: u32) -> u32
    ensures { result ≡ min max_depth 256 }
{
    if max_depth < RLP_DEPTH_LIMIT {
        max_depth
    } else {
        RLP_DEPTH_LIMIT
    }
}

/// Whether the bytes are exactly the canonical encoding of an item of depth at most `max_depth` and
/// at most 256.
#[unsafe(no_mangle)]
pub extern "C" fn rlp_is_canonical(bytes: &[u8], max_depth: u32) -> bool
    ensures { IsTrue result ↔ IsCanonicalWithin (min max_depth 256) bytes.now }
{
    is_canonical(bytes, depth_within(max_depth) as usize)
}
