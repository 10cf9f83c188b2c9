//! The first item of bytes. Its header is read once.

ghost use Rattle.std.specs.Prelude.{◌≡◌, ◌↔◌, ◌+◌, ◌∷◌, ◌++◌, ◌<◌, ◌≤◌, [], drop, length, false, Ok, Err, None, Some, IsTrue, IfOk, IfSome, MatchResult};
ghost use Rattle.rlp_reading.specs.Format.Framing.{HasHeader, IsFramedItem, fault, frame, framing, total_len, value, begins_as_list, split, is_followed, strict_fault};

use crate::error::DecoderError;
use crate::header::PayloadInfo;

/// An item with its header and its value.
#[derive(Drop)]
pub struct Framed<'a> {
    pub header: PayloadInfo,
    pub item: &'a [u8],
    pub content: &'a [u8],
    ghost reads: { value item.now ≡ Ok content.now },
    ghost ends: { total_len header ≡ length item.now },
    ghost whole: { strict_fault item.now ≡ None },
    ghost begins: { content.now ≡ drop header.header_len item.now },
}

impl<'a> Framed<'a> {
    /// Returns whether the item is a list.
    pub fn is_list(&self) -> bool
        ensures { result ≡ begins_as_list self.now.item.now }
    {
        begins_as_list(self.item)
    }
}

/// Returns whether there are no bytes.
pub fn is_null(bytes: &[u8]) -> bool
    ensures { IsTrue result ↔ (bytes.now ≡ []) }
{
    matches!(bytes, [])
}

/// Returns whether the first byte begins a list. Returns `false` if there are no bytes.
pub fn begins_as_list(bytes: &[u8]) -> bool
    ensures { result ≡ begins_as_list bytes.now }
{
    match bytes {
        [] => false,
        [first, ..] => *first >= 0xc0,
    }
}

/// Returns the item that the bytes begin with and the bytes that follow it, or the fault of the
/// bytes. It reads the item's header once.
#[inline(always)]
#[tactic(auto, using(crate::proofs::Lemmas::Fronts::first_items))]
pub fn first_framed<'a>(bytes: &'a [u8]) -> Result<(Framed<'a>, &'a [u8]), DecoderError>
    ensures header { MatchResult result (λ r. framing bytes.now ≡ Ok r.0.header)
        (λ e. framing bytes.now ≡ Err e) }
    ensures frame { MatchResult result (λ r. frame bytes.now ≡ Ok r.0.item.now)
        (λ e. frame bytes.now ≡ Err e) }
    ensures value { MatchResult result (λ r. value bytes.now ≡ Ok r.0.content.now)
        (λ e. value bytes.now ≡ Err e) }
    ensures item { IfOk result (λ r. IsFramedItem r.0.item.now) }
    ensures parts { MatchResult result (λ r. split bytes.now ≡ r.0.item.now ∷ split r.1.now)
        (λ _. split bytes.now ≡ []) }
    ensures whole { MatchResult result (λ r. bytes.now ≡ r.0.item.now ++ r.1.now)
        (λ e. e ≡ fault bytes.now) }
    ensures shorter { IfOk result (λ r. length r.1.now < length bytes.now) }
{
    let header = framing_of(bytes)?;
    let (item, others) = bytes.split_at(header.header_len + header.value_len);
    let content = &item[header.header_len..];
    Ok((
        Framed {
            header,
            item,
            content,
        },
        others,
    ))
}

/// Returns the string of at most 55 bytes that the bytes begin with, with its header, and the bytes
/// that follow it. The first byte of the string tells where the string ends. `None` says nothing
/// about the bytes.
#[inline(always)]
#[tactic(auto, using(rlp_format::proofs::Lemmas::Digits::bytes_held, crate::proofs::Lemmas::Frames::split_short))]
pub(crate) fn short_framed<'a>(bytes: &'a [u8]) -> Option<(&'a [u8], &'a [u8])>
    ensures string { IfSome result (λ r. begins_as_list r.0.now ≡ false) }
    ensures parts { IfSome result (λ r. split bytes.now ≡ r.0.now ∷ split r.1.now) }
    ensures whole { IfSome result (λ r. bytes.now ≡ r.0.now ++ r.1.now) }
    ensures shorter { IfSome result (λ r. length r.1.now < length bytes.now) }
{
    let [first, ..] = bytes else {
        return None;
    };
    let len = 1 + (*first as usize).saturating_sub(0x80);
    if *first >= 0xb8 || bytes.len() < len {
        return None;
    }
    Some(bytes.split_at(len))
}

/// Returns the header of framed bytes, or the fault of bytes that aren't framed.
#[inline(always)]
#[tactic(auto, using(crate::proofs::Lemmas::Frames::header_some, crate::proofs::Lemmas::Frames::header_within), unfolding(crate::specs::Format::Framing::framing))]
pub fn framing_of(bytes: &[u8]) -> Result<PayloadInfo, DecoderError>
    ensures exact { result ≡ framing bytes.now }
    ensures within { IfOk result (λ p. (0 < total_len p) × (total_len p ≤ length bytes.now)) }
    ensures has { IfOk result (λ p. HasHeader bytes.now p.header_len p.value_len) }
{
    let info = PayloadInfo::from(bytes)?;
    if info.value_len > bytes.len() - info.header_len {
        return Err(DecoderError::RlpIsTooShort);
    }
    Ok(info)
}

/// Returns the header if the bytes are exactly one framed item, and else the strict fault of the
/// bytes.
#[tactic(auto, using(crate::proofs::Lemmas::Fronts::strict_fronts))]
pub fn whole_framing(bytes: &[u8]) -> Result<PayloadInfo, DecoderError>
    ensures fault { MatchResult result (λ _. strict_fault bytes.now ≡ None)
        (λ e. strict_fault bytes.now ≡ Some e) }
    ensures header { IfOk result (λ p. framing bytes.now ≡ Ok p) }
    ensures whole { IfOk result (λ p. total_len p ≡ length bytes.now) }
{
    let header = framing_of(bytes)?;
    if header.total() < bytes.len() {
        return Err(DecoderError::RlpIsTooBig);
    }
    Ok(header)
}

/// Returns the item if the bytes are exactly one framed item, and else the strict fault of the
/// bytes.
#[tactic(auto, using(crate::proofs::Lemmas::Fronts::strict_fronts))]
pub fn whole_framed<'a>(bytes: &'a [u8]) -> Result<Framed<'a>, DecoderError>
    ensures fault { MatchResult result (λ _. strict_fault bytes.now ≡ None)
        (λ e. strict_fault bytes.now ≡ Some e) }
    ensures header { IfOk result (λ f. framing bytes.now ≡ Ok f.header) }
    ensures value { IfOk result (λ f. value bytes.now ≡ Ok f.content.now) }
    ensures whole { IfOk result (λ f. IsFramedItem bytes.now × (f.item.now ≡ bytes.now)) }
{
    let (framed, others) = first_framed(bytes)?;
    if others.is_empty() {
        return Ok(framed);
    }
    Err(DecoderError::RlpIsTooBig)
}

/// Returns whether other bytes follow the framed item that the bytes begin with.
#[tactic(auto, using(crate::proofs::Lemmas::Fronts::strict_fronts))]
pub fn is_followed(bytes: &[u8]) -> bool
    ensures { result ≡ is_followed bytes.now }
{
    match first_framed(bytes) {
        Ok((_, others)) => !others.is_empty(),
        Err(_) => false,
    }
}
