//! The walk over items, one by one.

ghost use Rattle.std.specs.Prelude.{◌≡◌, ◌∷◌, ◌++◌, [], ◌+◌, ◌<◌, ◌≤◌, ◌^◌, length, true, false, Ok, Err, IsOk, IsTrue, None, Some, IfOk, MatchResult};
ghost use Rattle.rlp_reading.specs.{Format.Framing.{fault, framing, value, begins_as_list, payload, split, after_items, fault_of_some}, Views.View.Reading};

use crate::error::DecoderError;
use crate::framed::{Framed, begins_as_list, first_framed, short_framed};
use rlp_format::count::Count;
use std::marker::Model;

/// A reader of bytes, item by item, which counts the headers that it reads. Contracts see a reader
/// as the record `Reading` of the bytes that are left and the number of headers that were read.
/// Only [`ItemReader::next_framed`] and [`ItemReader::next_item`] read a header here, and each
/// counts the header.
///
/// Only the contracts of iterators speak of this number. Other functions, such as `Rlp::at`, also
/// read headers without this reader.
#[derive(Drop)]
pub struct ItemReader<'a> {
    rest: &'a [u8],
    headers: Count,
}

impl<'a> Model for ItemReader<'a> {
    ghost Value = { Reading };

    ghost view = { λ r. record { rest = r.rest.now; headers = r.headers.total } };
}

impl<'a> ItemReader<'a> {
    /// A reader over these bytes. It has read no header yet.
    pub fn new(bytes: &'a [u8]) -> ItemReader<'a>
        ensures rest { result.rest ≡ bytes.now }
        ensures counted { result.headers ≡ 0 }
    {
        ItemReader {
            rest: bytes,
            headers: Count::new(),
        }
    }

    /// The bytes that are left.
    pub fn rest(&self) -> &'a [u8]
        ensures { result.now ≡ self.now.rest }
    {
        self.rest
    }

    /// The next item, by its header, or why the bytes aren't framed.
    #[inline(always)]
    pub fn next_framed(&mut self) -> Result<Framed<'a>, DecoderError>
        ensures header { MatchResult result (λ r. framing self.old.rest ≡ Ok r.header)
            (λ e. framing self.old.rest ≡ Err e) }
        ensures value { IfOk result (λ r. value self.old.rest ≡ Ok r.content.now) }
        ensures parts { MatchResult result
            (λ r. split self.old.rest ≡ r.item.now ∷ split self.new.rest)
            (λ _. split self.old.rest ≡ []) }
        ensures whole { MatchResult result (λ r. self.old.rest ≡ r.item.now ++ self.new.rest)
            (λ e. e ≡ fault self.old.rest) }
        ensures shorter { MatchResult result
            (λ _. length self.new.rest < length self.old.rest)
            (λ _. self.new.rest ≡ self.old.rest) }
        ensures counted { self.new.headers ≡ self.old.headers + 1 }
    {
        self.headers.add(1);
        let (framed, others) = first_framed(self.rest)?;
        self.rest = others;
        Ok(framed)
    }

    /// The bytes of the next item, or why the bytes aren't framed. The same as
    /// [`ItemReader::next_framed`], but faster for strings of at most 55 bytes.
    #[inline(always)]
    pub fn next_item(&mut self) -> Result<&'a [u8], DecoderError>
        ensures parts { MatchResult result
            (λ r. split self.old.rest ≡ r.now ∷ split self.new.rest)
            (λ _. split self.old.rest ≡ []) }
        ensures whole { MatchResult result (λ r. self.old.rest ≡ r.now ++ self.new.rest)
            (λ e. e ≡ fault self.old.rest) }
        ensures shorter { MatchResult result
            (λ _. length self.new.rest < length self.old.rest)
            (λ _. self.new.rest ≡ self.old.rest) }
        ensures counted { self.new.headers ≡ self.old.headers + 1 }
    {
        if let Some((item, others)) = short_framed(self.rest) {
            self.headers.add(1);
            self.rest = others;
            return Ok(item);
        }
        Ok(self.next_framed()?.item)
    }

    /// Goes on to the items of the next list, by its header. If there is no framed list, it returns
    /// `false` and nothing is left.
    #[tactic(auto, using(crate::proofs::Lemmas::Numbered::entered), unfolding(crate::specs::Format::Framing::payload))]
    pub fn enter_list(&mut self) -> bool
        ensures rest { self.new.rest ≡ payload self.old.rest }
        ensures framed { IsTrue result → (begins_as_list self.old.rest ≡ true)
            × IsOk (framing self.old.rest) }
        ensures other { result ≡ false → self.new.rest ≡ [] }
        ensures counted { self.new.headers ≤ self.old.headers + 1 }
        ensures header { begins_as_list self.old.rest ≡ true
            → self.new.headers ≡ self.old.headers + 1 }
        ensures few { length self.new.rest < 2 ^ 64 }
    {
        if !begins_as_list(self.rest) {
            self.rest = &[];
            return false;
        }
        match self.next_framed() {
            Ok(list) => {
                self.rest = list.content;
                true
            }
            Err(_) => {
                self.rest = &[];
                false
            }
        }
    }
}

/// The number of items at the beginning of a payload.
pub fn count_items(payload: &[u8]) -> usize
    ensures { result ≡ length (split payload.now) }
{
    let mut count = 0;
    let mut items = ItemReader::new(payload);
    while let Ok(_) = items.next_item() {
        count += 1;
    }
    count
}

/// The number of items in a payload that has nothing but items, or the fault of the bytes that
/// follow the items.
#[tactic(auto, using(crate::proofs::Lemmas::Numbered::none_left))]
pub fn try_count_items(payload: &[u8]) -> Result<usize, DecoderError>
    ensures fault { MatchResult result (λ _. fault_of_some (after_items payload.now) ≡ None)
        (λ e. fault_of_some (after_items payload.now) ≡ Some e) }
    ensures count { IfOk result (λ n. n ≡ length (split payload.now)) }
{
    let mut count = 0;
    let mut items = ItemReader::new(payload);
    while !items.rest().is_empty() {
        items.next_item()?;
        count += 1;
    }
    Ok(count)
}
