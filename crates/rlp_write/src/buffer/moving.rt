//! Moving bytes of a buffer to a later place, and writing over bytes.

ghost use Rattle.std.specs.Prelude.{◌≡◌, ◌+◌, ◌≤◌, ◌++◌, ◌-◌, length, take, drop};

/// Moves bytes to a later place. A header of two or three bytes in the place of one byte moves the
/// bytes behind it by one or two places.
pub(super) fn bring(bytes: &mut [u8], from: usize, len: usize, to: usize)
    requires forward { from ≤ to }
    requires within { to + len ≤ length bytes.old }
    ensures { bytes.new
        ≡ take to bytes.old ++ (take len (drop from bytes.old) ++ drop (to + len) bytes.old) }
{
    match to - from {
        1 => move_up::<1>(&mut bytes[from..to + len], len),
        2 => move_up::<2>(&mut bytes[from..to + len], len),
        _ => bytes.copy_within(from..from + len, to),
    }
}

/// Moves the first bytes up by `D` places. The distance is known at compile time, so the loop
/// becomes one move of memory.
#[inline(never)]
fn move_up<const D: usize>(bytes: &mut [u8], len: usize)
    requires whole { length bytes.old ≡ D + len }
    ensures { bytes.new ≡ take D bytes.old ++ take len bytes.old }
{
    'bytes: for i in 0..len {
        let at = len - 1 - i;
        bytes[at + D] = bytes[at];
    }
}

/// Writes over the bytes from a place on.
pub(super) fn write_at(bytes: &mut [u8], at: usize, part: &[u8])
    requires { at + length part.now ≤ length bytes.old }
    ensures { bytes.new
        ≡ take at bytes.old ++ (part.now ++ drop (at + length part.now) bytes.old) }
{
    bytes[at..at + part.len()].copy_from_slice(part);
}

/// Inserts a part at a place. The same number of bytes at the end is lost.
#[tactic(auto, using(crate::proofs::Streams::Written::inserted))]
pub(super) fn insert(bytes: &mut [u8], at: usize, part: &[u8])
    requires { at + length part.now ≤ length bytes.old }
    ensures { bytes.new ≡ take at bytes.old
        ++ (part.now ++ take (length bytes.old - length part.now - at) (drop at bytes.old)) }
{
    let len = bytes.len() - part.len() - at;
    bring(bytes, at, len, at + part.len());
    write_at(bytes, at, part);
}
