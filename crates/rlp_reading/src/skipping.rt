//! Items that are skipped by their first bytes.

ghost use Rattle.std.specs.Prelude.{◌≡◌, ◌+◌, ◌-◌, ◌<◌, ◌≤◌, length, MatchResult};
ghost use Rattle.rlp_reading.specs.{Format.Framing.{fault, split, after_items}, Format.Skipping.IsAfterItems};

use crate::error::DecoderError;
use crate::framed::{first_framed, short_framed};

/// The most bytes that a string takes whose first byte tells its length.
const LONGEST_SHORT: usize = 56;

/// How many items must be left to skip for a look at four first bytes at once. For fewer items,
/// whose kinds mostly differ, it costs more than it saves.
const MANY: usize = 9;

/// The bytes after the first `count` items of these bytes.
///
/// If the bytes begin with fewer items, it fails with the fault of the bytes that follow the items.
#[inline(always)]
#[tactic(auto, using(crate::proofs::Lemmas::Skipping::skips))]
pub fn skip_items<'a>(bytes: &'a [u8], count: usize) -> Result<&'a [u8], DecoderError>
    ensures { MatchResult result (λ r. IsAfterItems bytes.now count r.now)
        (λ e. (length (split bytes.now) < count) × (e ≡ fault (after_items bytes.now))) }
{
    let (rest, left) = skip_alike(bytes, count);
    let (mut rest, left) = skip_short(rest, left);
    for _skipped in 0..left {
        if let Some((_, others)) = short_framed(rest) {
            rest = others;
            continue;
        }
        let (_, others) = first_framed(rest)?;
        rest = others;
    }
    Ok(rest)
}

/// Skips strings of at most 55 bytes by four, for as long as four have the same first byte and many
/// items are left. Returns the bytes after them, and how many of `count` items are left to skip.
// One first byte tells where the others would be, so the processor needn't read them one by one.
#[inline(always)]
#[tactic(auto, using(crate::proofs::Lemmas::Skipping::skips))]
fn skip_alike<'a>(bytes: &'a [u8], count: usize) -> (&'a [u8], usize)
    ensures few { result.1 ≤ count }
    ensures after { IsAfterItems bytes.now (count - result.1) result.0.now }
{
    let mut rest = bytes;
    let mut left = count;
    while left >= MANY && !rest.is_empty() {
        let first = rest[0];
        let len = short_len(first);
        if first >= 0xb8 || rest.len() < 4 * len {
            return (rest, left);
        }
        if rest[len] != first || rest[2 * len] != first || rest[3 * len] != first {
            return (rest, left);
        }
        rest = rest.split_at(4 * len).1;
        left -= 4;
    }
    (rest, left)
}

/// Skips strings of at most 55 bytes, one by one, for as long as any such string would end within the
/// bytes. Returns the bytes after them, and how many of `count` items are left to skip.
#[inline(always)]
#[tactic(auto, using(crate::proofs::Lemmas::Skipping::skips))]
fn skip_short<'a>(bytes: &'a [u8], count: usize) -> (&'a [u8], usize)
    ensures few { result.1 ≤ count }
    ensures after { IsAfterItems bytes.now (count - result.1) result.0.now }
{
    let mut rest = bytes;
    let mut left = count;
    while left > 0 && rest.len() >= LONGEST_SHORT {
        let first = rest[0];
        if first >= 0xb8 {
            return (rest, left);
        }
        rest = rest.split_at(short_len(first)).1;
        left -= 1;
    }
    (rest, left)
}

/// The length of a string with its header, by a first byte below `0xb8`.
#[inline(always)]
fn short_len(first: u8) -> usize
    ensures { result ≡ 1 + (first - 0x80) }
{
    1 + (first as usize).saturating_sub(0x80)
}
