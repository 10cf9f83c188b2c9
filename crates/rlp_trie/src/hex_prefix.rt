//! Hex-prefix encoding, which writes a path as bytes: appendix C of the yellow paper.

ghost use Rattle.std.specs.Prelude.{◌≡◌, ◌↔◌, ◌++◌, Bool, Some, IfOk, IsTrue, OnOk};
ghost use Rattle.rlp.specs.Format.Encoding.{AreBytes};
ghost use Rattle.rlp_trie.specs.HexPrefix.{AreNibbles, IsHexPrefix, bytes_of, ends_in_leaf, hex_prefix, is_empty_extension, nibbles_of, path_nibbles};

use std::alloc::{AllocError, Global};

/// Returns whether a path ends in a leaf, or `None` if the bytes aren't hex-prefix encoded.
///
/// See appendix C of the yellow paper. The first digit of the first byte is the flag of the path: 0
/// or 1 for an extension, and 2 or 3 for a leaf. If the flag is 0 or 2, the number of nibbles is
/// even, and the second digit is 0. If the flag is 1 or 3, the number of nibbles is odd, and the
/// second digit is the first nibble. Each byte after the first has two nibbles.
#[tactic(auto, using(crate::proofs::PathLemmas::told_by_flag))]
pub fn ends_in_leaf(path: &[u8]) -> Option<bool>
    ensures value { result ≡ ends_in_leaf path.now }
    ensures encoded { (leaf : Bool) → (result ≡ Some leaf) ↔ IsHexPrefix leaf path.now }
{
    match path {
        [0x00 | 0x10..=0x1f, ..] => Some(false),
        [0x20 | 0x30..=0x3f, ..] => Some(true),
        _ => None,
    }
}

/// Returns whether bytes are the path of an extension that has no nibbles.
pub(crate) fn is_empty_extension(path: &[u8]) -> bool
    ensures { result ≡ is_empty_extension path.now }
{
    matches!(path, [0x00])
}

/// Returns whether each number is a nibble: a number below 16.
pub(crate) fn are_nibbles(numbers: &[u8]) -> bool
    ensures { IsTrue result ↔ AreNibbles numbers.now }
{
    numbers.iter().all(|number| *number < 16)
}

/// Returns the encoding of nibbles. Fails with `AllocError` if memory is refused.
pub(crate) fn hex_prefix(alloc: Global, leaf: bool, nibbles: &[u8]) -> Result<Vec<u8>, AllocError>
    requires { AreNibbles nibbles.now }
    ensures { IfOk result (λ b. b.items ≡ hex_prefix leaf nibbles.now) }
{
    let flag = if leaf { 0x20 } else { 0x00 };
    let mut bytes = Vec::new(alloc);
    if nibbles.len() % 2 == 0 {
        bytes.push(flag)?;
        push_bytes(&mut bytes, nibbles)?;
    } else if let [first, rest @ ..] = nibbles {
        bytes.push(flag + 0x10 + first)?;
        push_bytes(&mut bytes, rest)?;
    }
    Ok(bytes)
}

/// Appends nibbles as bytes, two in each.
fn push_bytes(bytes: &mut Vec<u8>, nibbles: &[u8]) -> Result<(), AllocError>
    requires { AreNibbles nibbles.now }
    ensures { OnOk result (bytes.new.items ≡ bytes.old.items ++ bytes_of nibbles.now) }
{
    let mut rest = nibbles;
    while let [high, low, more @ ..] = rest {
        bytes.push(16 * high + low)?;
        rest = more;
    }
    Ok(())
}

/// Returns the nibbles of an encoded path. Fails with `AllocError` if memory is refused.
#[tactic(auto, using(crate::proofs::PathLemmas::told_by_flag))]
pub(crate) fn path_nibbles(alloc: Global, path: &[u8]) -> Result<Vec<u8>, AllocError>
    ensures bytes { AreBytes path.now }
    ensures value { IfOk result (λ x. x.items ≡ path_nibbles path.now) }
{
    let mut nibbles = Vec::new(alloc);
    if let [first, rest @ ..] = path {
        if first / 16 % 2 == 1 {
            nibbles.push(first % 16)?;
        }
        push_nibbles(&mut nibbles, rest)?;
    }
    Ok(nibbles)
}

/// Appends bytes as nibbles, two of each.
pub(crate) fn push_nibbles(nibbles: &mut Vec<u8>, bytes: &[u8]) -> Result<(), AllocError>
    ensures { OnOk result (nibbles.new.items ≡ nibbles.old.items ++ nibbles_of bytes.now) }
{
    let mut rest = bytes;
    while let [byte, more @ ..] = rest {
        nibbles.push(byte / 16)?;
        nibbles.push(byte % 16)?;
        rest = more;
    }
    Ok(())
}
