//! A view of bytes, and its methods on their first item.

ghost use Rattle.std.specs.Vec.{vec_items};
ghost use Rattle.std.specs.Prelude.{◌≡◌, ◌≤◌, ◌<◌, ◌^◌, ◌↔◌, ◌⊎◌, ◌++◌, ℕ, List, [], length, true, false, IsTrue, IsOk, None, Some, Ok, Err, IfOk, IfErr, IfSome, MatchResult};
ghost use Rattle.rlp_reading.specs.{declared.error.DecoderError.TheVariants.OutOfMemory, Format.Flat.IsFlat};
ghost use Rattle.rlp_reading.specs.Format.Framing.{begins_as_list, items, split, fault, framing, total_len, value, IsCanonicalWithin, after_items, strict_fault, strict_list_fault};
ghost use Rattle.rlp_reading.specs.{Format.TreeFaults.IsFlatFault, Values.RawItem.view_frame, Views.Depth.depth};
ghost use Rattle.rlp_reading.specs.Views.View.{begins_as_data, begins_as_empty, begins_as_int, data_size, has_nonzero_at, item_at, item_count, item_views, item_with_place, items_fault, list_fault, prototype_of, strict_view_of, view_header, view_of, view_string, view_value, Holds, HoldsString, View};
ghost use Rattle.rlp_reading.specs.Form.{Faults, Gives, MayLackMemory, list_reading, reading_at};

use crate::rlpin::decoder::BasicDecoder;
use crate::rlpin::fields::Fields;
use crate::rlpin::iter::RlpIterator;
use crate::traits::Decodable;
use rlp_reading::Prototype;
use rlp_reading::depth::is_nested_within;
use rlp_reading::error::DecoderError;
use rlp_reading::flat::{FlatItem, TreeFault};
use rlp_reading::framed::{Framed, first_framed, framing_of, whole_framed, whole_framing};
use rlp_reading::header::PayloadInfo;
use rlp_reading::items::{ItemReader, count_items, try_count_items};
use rlp_reading::skipping::skip_items;
use rlp_reading::walking::{flatten, is_canonical};
use std::alloc::Global;
use std::marker::Model;

/// A view of bytes that may begin with an item.
///
/// The same call always returns the same result. Contracts see a view as the record `View` of its
/// bytes and its kind, and a view holds nothing else. A lenient view ignores the bytes after the
/// first item. A strict view has a fault if bytes follow the first item.
#[derive(Debug, Drop)]
pub struct Rlp<'a> {
    bytes: &'a [u8],
    strict: bool,
}

impl<'a> Model for Rlp<'a> {
    ghost Value = { View };

    ghost view = { λ r. record { bytes = r.bytes.now; is_strict = r.strict } };
}

impl<'a> Rlp<'a> {
    /// A view of these bytes. It doesn't read them yet.
    pub fn new(bytes: &'a [u8]) -> Rlp<'a>
        ensures { result ≡ view_of bytes.now }
    {
        Rlp::of_kind(bytes, false)
    }

    /// A strict view of these bytes, which should be exactly one item. `payload_info`, `data`,
    /// `item_count`, `at` and every call that decodes a value fail if bytes follow the item. Calls
    /// that can't fail answer as for a lenient view: `prototype`, `size`, `iter`, the `is_` tests,
    /// `is_nested_within` and printing. The items of a strict view are strict too. It doesn't read
    /// the bytes yet.
    ///
    /// ```rust
    /// let view = rlp::Rlp::new_strict(&[0xc1, 0x05, 0x06]);
    /// assert!(rt; view.item_count() == Err(rlp::DecoderError::RlpIsTooBig));
    /// ```
    pub fn new_strict(bytes: &'a [u8]) -> Rlp<'a>
        ensures { result ≡ strict_view_of bytes.now }
    {
        Rlp::of_kind(bytes, true)
    }

    /// Whether the view is strict.
    pub fn is_strict(&self) -> bool
        ensures { result ≡ self.now.is_strict }
    {
        self.strict
    }

    /// Another view of the same bytes. It doesn't allocate.
    pub fn clone(&self) -> Rlp<'a>
        ensures { result ≡ self.now }
    {
        Rlp {
            bytes: self.bytes,
            strict: self.strict,
        }
    }

    /// All the bytes, including the bytes after the first item.
    pub fn as_raw(&self) -> &'a [u8]
        ensures { result.now ≡ self.now.bytes }
    {
        self.bytes
    }

    /// What the view begins with: no bytes, a string with its [`Rlp::size`], or a list with the
    /// number of its items. It never fails. Bytes that aren't framed are a string of size 0 or a
    /// list of no items, depending on their first byte.
    #[tactic(auto, unfolding(rlp_reading::specs::Format::Framing::items))]
    pub fn prototype(&self) -> Result<Prototype, DecoderError>
        ensures { result ≡ Ok (prototype_of self.now.bytes) }
    {
        if self.is_null() {
            return Ok(Prototype::Null);
        }
        if self.is_list() {
            return Ok(Prototype::List(self.iter().len()));
        }
        Ok(Prototype::Data(self.size()))
    }

    /// The header of the first item, if header and value lie within the bytes.
    ///
    /// Fails as [`PayloadInfo::from`] does, or with `RlpIsTooShort` if the value is cut. A strict
    /// view fails with `RlpIsTooBig` if bytes follow the item.
    pub fn payload_info(&self) -> Result<PayloadInfo, DecoderError>
        ensures exact { result ≡ view_header self.now }
        ensures within { IfOk result (λ p. total_len p ≤ length self.now.bytes) }
    {
        if self.strict {
            return whole_framing(self.bytes);
        }
        framing_of(self.bytes)
    }

    /// The bytes of the first item after its header: the bytes of a string, or the payload of a
    /// list.
    ///
    /// Fails as [`Rlp::payload_info`] does.
    #[tactic(auto, using(rlp_reading::proofs::Lemmas::Fronts::no_view_value, rlp_reading::proofs::Lemmas::Fronts::view_value_between))]
    pub fn data(&self) -> Result<&'a [u8], DecoderError>
        ensures { MatchResult result (λ d. view_value self.now ≡ Ok d.now)
            (λ e. view_value self.now ≡ Err e) }
    {
        let header = self.payload_info()?;
        Ok(&self.bytes[header.header_len..header.total()])
    }

    /// The number of items in the list that the view begins with.
    ///
    /// Fails with `RlpExpectedToBeList` if there is no byte, or the first byte begins a string. A
    /// list that isn't framed has no items. A strict view must be exactly one list: it fails as
    /// [`Rlp::payload_info`] does, or else with the fault of bytes in the list that follow its last
    /// item.
    #[tactic(auto, unfolding(rlp_reading::specs::Views::View::item_count, rlp_reading::specs::Format::Framing::items))]
    pub fn item_count(&self) -> Result<usize, DecoderError>
        ensures { result ≡ item_count self.now }
    {
        if self.strict {
            return self.walked_count();
        }
        if !self.is_list() {
            return Err(DecoderError::RlpExpectedToBeList);
        }
        Ok(self.iter().len())
    }

    /// The length of the string that the view begins with, or 0 if it begins with no framed string.
    #[tactic(auto, using(rlp_reading::proofs::Lemmas::Fronts::size_of_header, rlp_reading::proofs::Lemmas::Fronts::no_size_of_header))]
    pub fn size(&self) -> usize
        ensures { result ≡ data_size self.now.bytes }
    {
        if !self.is_data() {
            return 0;
        }
        match framing_of(self.bytes) {
            Ok(header) => header.value_len,
            Err(_) => 0,
        }
    }

    /// The item at `index`, counted from 0.
    ///
    /// Fails with the first of these faults:
    ///
    /// - `RlpExpectedToBeList` if there is no byte, or the first byte begins a string;
    /// - the fault of [`Rlp::payload_info`] if the list isn't framed;
    /// - past the last item, the fault of the bytes in the list that follow the last item, which is
    ///   `RlpIsTooShort` if no bytes follow.
    ///
    /// It reads the list's header and goes over at most `index + 1` items. For a strict view it
    /// fails first as [`Rlp::item_count`] does, and goes over all items to find that fault.
    ///
    /// ```rust
    /// let list = rlp::Rlp::new(&[0xc4, 0x83, b'c', b'a', b't']);
    /// assert_eq!(rt; list.at(0)?.as_raw(), [0x83, b'c', b'a', b't'].as_slice());
    /// assert_eq!(rt; list.at(1).err(), Some(rlp::DecoderError::RlpIsTooShort));
    /// ```
    #[inline(always)]
    pub fn at(&self, index: usize) -> Result<Rlp<'a>, DecoderError>
        ensures { result ≡ item_at self.now index }
    {
        let (item, _) = self.at_with_offset(index)?;
        Ok(item)
    }

    /// The item at `index`, counted from 0, and its place, counted from the view's first byte.
    ///
    /// Fails as [`Rlp::at`] does, and goes over the same items.
    #[inline(always)]
    #[tactic(auto, using(crate::proofs::Readers::walks))]
    pub fn at_with_offset(&self, index: usize) -> Result<(Rlp<'a>, usize), DecoderError>
        ensures { result ≡ item_with_place self.now index }
    {
        self.check_items()?;
        let (list, _) = first_framed(self.bytes)?;
        let rest = skip_items(list.content, index)?;
        let item = ItemReader::new(rest).next_item()?;
        let before = list.content.len() - rest.len();
        Ok((
            Rlp::of_kind(item, self.strict),
            list.header.header_len + before,
        ))
    }

    /// Whether there are no bytes.
    pub fn is_null(&self) -> bool
        ensures { IsTrue result ↔ (self.now.bytes ≡ []) }
    {
        matches!(self.bytes, [])
    }

    /// Whether the first byte is the encoding of the empty string or of the empty list.
    pub fn is_empty(&self) -> bool
        ensures { result ≡ begins_as_empty self.now.bytes }
    {
        match self.bytes {
            [] => false,
            [first, ..] => *first == 0x80 || *first == 0xc0,
        }
    }

    /// Whether the first byte begins a list: it is `0xc0` or above.
    pub fn is_list(&self) -> bool
        ensures { result ≡ begins_as_list self.now.bytes }
    {
        match self.bytes {
            [] => false,
            [first, ..] => *first >= 0xc0,
        }
    }

    /// Whether the first byte begins a string: it is below `0xc0`.
    pub fn is_data(&self) -> bool
        ensures { result ≡ begins_as_data self.now.bytes }
    {
        match self.bytes {
            [] => false,
            [first, ..] => *first < 0xc0,
        }
    }

    /// Whether the bytes begin as a number does. They begin with one byte up to `0x80`, or with the
    /// header of a string and a first byte of the string that isn't zero.
    ///
    /// It looks no further than that byte. So it is true for `00`, and for a string that is cut
    /// off.
    pub fn is_int(&self) -> bool
        ensures { result ≡ begins_as_int self.now.bytes }
    {
        match self.bytes {
            [] => false,
            [first, rest @ ..] => match *first {
                0x00..=0x80 => true,
                0x81..=0xb7 => is_nonzero_at(rest, 0),
                first @ 0xb8..=0xbf => is_nonzero_at(rest, (first - 0xb7) as usize),
                0xc0..=0xff => false,
            },
        }
    }

    /// An iterator over views of the items of the list that the view begins with.
    ///
    /// Anything but a framed list has no items. The items end with the list's value, or before it
    /// at the first bytes that aren't framed. The items may outlive the view.
    ///
    /// ```rust
    /// let list = rlp::Rlp::new(&[0xc2, 0x05, 0x06]);
    /// for item in list.iter() {
    ///     assert_eq!(rt; item.as_raw().len(), 1);
    /// }
    /// ```
    pub fn iter<'view>(&'view self) -> RlpIterator<'a, 'view>
        ensures items { result.left ≡ item_views self.now }
        ensures few { length result.left < 2 ^ 64 }
        ensures header { result.headers ≤ 1 }
        ensures ended { result.has_ended ≡ false → (begins_as_list self.now.bytes ≡ true)
            × IsOk (framing self.now.bytes) }
    {
        RlpIterator::over(self)
    }

    /// The value that the view begins with, read by [`Decodable::decode`] of its type.
    #[inline(always)]
    pub fn as_val<T: Decodable>(&self, alloc: Global) -> Result<T, DecoderError>
        ensures value { IfOk result (λ x. Gives T.reading self.now x) }
        ensures fault { IfErr result (λ e. Faults T.reading self.now e
            ⊎ ((e ≡ OutOfMemory) × MayLackMemory T.reading self.now)) }
    {
        T::decode(alloc, self)
    }

    /// The values of the items, in order.
    ///
    /// Fails with the fault of an item if all items before it give values. Fails with `OutOfMemory`
    /// if memory is refused for the value of an item, or for room in the vector. A lenient view
    /// that doesn't begin with a framed list gives an empty vector. A strict view that isn't
    /// exactly one list fails as [`Rlp::item_count`] does, also if memory is refused.
    ///
    /// ```rust
    /// let list = rlp::Rlp::new(&[0xc2, 0x05, 0x06]);
    /// assert_eq!(rt; list.as_list::<u64>(alloc)?.as_slice(), [5, 6].as_slice());
    /// ```
    #[tactic(auto, using(rlp_reading::proofs::ListLaws::pushed, rlp_reading::proofs::ListLaws::all_pushed, crate::proofs::Readers::list_told, crate::proofs::Readers::list_faulty, crate::proofs::Readers::some_listed))]
    pub fn as_list<T: Decodable>(&self, alloc: Global) -> Result<Vec<T>, DecoderError>
        ensures value { IfOk result
            (λ values. Gives (list_reading vec_items T.reading) self.now values) }
        ensures fault { IfErr result (λ e. Faults (list_reading (λ xs. xs) T.reading) self.now e
            ⊎ ((e ≡ OutOfMemory) × MayLackMemory (list_reading (λ xs. xs) T.reading) self.now)) }
    {
        let mut items = Fields::framed_list(self)?;
        let mut values = Vec::new(alloc);
        while let Some(item) = items.next() {
            match T::decode(alloc, &item) {
                Ok(value) => {
                    if values.push(value).is_err() {
                        self.check_list()?;
                        return Err(DecoderError::OutOfMemory);
                    }
                }
                Err(fault) => {
                    self.check_list()?;
                    return Err(fault);
                }
            }
        }
        if self.strict && !items.has_ended() {
            self.check_list()?;
        }
        Ok(values)
    }

    /// The value of the item at `index`, counted from 0: [`Rlp::at`], and then [`Rlp::as_val`].
    ///
    /// Fails as either of them does.
    pub fn val_at<T: Decodable>(&self, alloc: Global, index: usize) -> Result<T, DecoderError>
        ensures value { IfOk result (λ x. Gives (reading_at index T.reading) self.now x) }
        ensures fault { IfErr result (λ e. Faults (reading_at index T.reading) self.now e
            ⊎ ((e ≡ OutOfMemory) × MayLackMemory (reading_at index T.reading) self.now)) }
        ensures none { IfErr (item_at self.now index) (λ e. result ≡ Err e) }
    {
        let item = self.at(index)?;
        item.as_val(alloc)
    }

    /// The values of the items of the item at `index`, counted from 0: [`Rlp::at`], and then
    /// [`Rlp::as_list`].
    ///
    /// Fails as either of them does.
    pub fn list_at<T: Decodable>(&self, alloc: Global, index: usize) -> Result<Vec<T>, DecoderError>
        ensures value { IfOk result (λ values.
            Gives (reading_at index (list_reading vec_items T.reading)) self.now values) }
        ensures fault { IfErr result (λ e.
            Faults (reading_at index (list_reading (λ xs. xs) T.reading)) self.now e
            ⊎ ((e ≡ OutOfMemory)
            × MayLackMemory (reading_at index (list_reading (λ xs. xs) T.reading)) self.now)) }
        ensures none { IfErr (item_at self.now index) (λ e. result ≡ Err e) }
    {
        let item = self.at(index)?;
        item.as_list(alloc)
    }

    /// A view of the item that the view begins with, of the same kind, and the bytes that follow
    /// it. To read joined items one by one, call it again on a view of the bytes that follow, until
    /// no bytes are left.
    ///
    /// It doesn't allocate, and reads no header inside a list. Fails as [`Rlp::payload_info`] does:
    /// with `RlpIsTooShort` if there are no bytes, and for a strict view with `RlpIsTooBig` if
    /// bytes follow the item.
    ///
    /// ```rust
    /// let (id, rest) = rlp::Rlp::new(&[0x05, 0xc1, 0x06]).split_first()?;
    /// assert_eq!(rt; id.as_raw(), [0x05].as_slice());
    /// let (list, rest) = rlp::Rlp::new(rest).split_first()?;
    /// assert!(rt; list.item_count() == Ok(1) && rest.is_empty());
    /// ```
    #[tactic(auto, using(crate::proofs::Readers::faulty_view, rlp_reading::proofs::Lemmas::Fronts::long_front, rlp_reading::proofs::Lemmas::Fronts::whole_front))]
    pub fn split_first(&self) -> Result<(Rlp<'a>, &'a [u8]), DecoderError>
        ensures item { IfOk result (λ r. (view_frame self.now ≡ Ok r.0.bytes)
            × (r.0.is_strict ≡ self.now.is_strict)) }
        ensures rest { IfOk result (λ r. self.now.bytes ≡ r.0.bytes ++ r.1.now) }
        ensures held { IfOk result (λ r. Holds self.now.is_strict self.now.bytes r.0.bytes) }
        ensures fault { IfErr result (λ e. (view_frame self.now ≡ Err e)
            × (view_header self.now ≡ Err e)) }
    {
        let (framed, rest) = first_framed(self.as_raw())?;
        if self.is_strict() && !rest.is_empty() {
            return Err(DecoderError::RlpIsTooBig);
        }
        Ok((Rlp::of_kind(framed.item, self.is_strict()), rest))
    }

    /// A decoder of the view's bytes, of the same kind. A strict decoder fails with `RlpIsTooBig`
    /// if bytes follow the string.
    pub fn decoder(&self) -> BasicDecoder<'a>
        ensures { result ≡ self.now }
    {
        BasicDecoder::of(self.clone())
    }

    /// Whether the depth is at most `limit`. A framed list has a depth of 1 more than the deepest
    /// of its items, or 1 without items. Anything else has depth 0.
    ///
    /// It goes no deeper than `limit` lists. [`Display`](std::fmt::Display) goes as deep as the
    /// lists nest, so test untrusted bytes by this call before you print them.
    ///
    /// ```rust
    /// let list = rlp::Rlp::new(&[0xc2, 0xc1, 0x05]);
    /// assert!(rt; !list.is_nested_within(1) && list.is_nested_within(2));
    /// ```
    #[tactic(auto, using(crate::proofs::Readers::nested))]
    pub fn is_nested_within(&self, limit: usize) -> bool
        ensures { IsTrue result ↔ (depth self.now.bytes ≤ limit) }
    {
        match first_framed(self.bytes) {
            Ok((framed, _)) => is_nested_within(&framed, limit),
            Err(_) => true,
        }
    }

    /// Whether the bytes are exactly the canonical encoding of an item of depth at most
    /// `max_depth`. A string has depth 0. A list has a depth of 1 more than the deepest of its
    /// items, or 1 without items. The result is the same on lenient and strict views.
    ///
    /// It reads each header once, doesn't allocate, and goes no deeper than `max_depth` lists.
    ///
    /// ```rust
    /// assert!(rt; rlp::Rlp::new(&[0xc2, 0xc1, 0x05]).is_canonical(2));
    /// assert!(rt; !rlp::Rlp::new(&[0xc2, 0x81, 0x05]).is_canonical(2));
    /// ```
    pub fn is_canonical(&self, max_depth: usize) -> bool
        ensures { IsTrue result ↔ IsCanonicalWithin max_depth self.now.bytes }
    {
        is_canonical(self.bytes, max_depth)
    }

    /// The items of the tree whose encoding the bytes are, from the outside in and from the left to
    /// the right: each list comes before its items. The result is the same on lenient and strict
    /// views.
    ///
    /// Fails with the first fault, in the order of the bytes, if they aren't the canonical encoding
    /// of an item of depth at most `max_depth`:
    ///
    /// - the fault of [`Rlp::payload_info`] of a strict view, or the fault of bytes in a list that
    ///   aren't an item;
    /// - `RlpInvalidIndirection` for a byte below `0x80` that has a header;
    /// - [`TreeFault::TooDeep`] at a list inside `max_depth` lists.
    ///
    /// Fails with `OutOfMemory` if memory is refused. It reads each header twice, and allocates
    /// once, for exactly the number of items.
    ///
    /// ```rust
    /// let items = rlp::Rlp::new(&[0xc2, 0xc1, 0x05]).flatten(alloc, 2)?;
    /// assert_eq!(rt; (items[2].place, items[2].depth, items[2].is_list), (2, 2, false));
    /// ```
    pub fn flatten(&self, alloc: Global, max_depth: usize) -> Result<Vec<FlatItem>, TreeFault>
        ensures items { IfOk result (λ v. IsFlat max_depth self.now.bytes v.items) }
        ensures fault { IfErr result (λ e. IsFlatFault max_depth self.now.bytes e) }
    {
        flatten(alloc, self.bytes, max_depth)
    }

    /// A view of these bytes, lenient or strict.
    #[inline(always)]
    pub(crate) fn of_kind(bytes: &'a [u8], strict: bool) -> Rlp<'a>
        ensures { result ≡ record { bytes = bytes.now; is_strict = strict } }
    {
        Rlp { bytes, strict }
    }

    /// The bytes that begin with the items of the view: the value of a framed list. For a list that
    /// isn't framed it is all bytes of the view, which begin with no item, and for anything else no
    /// bytes.
    #[inline(always)]
    #[tactic(auto, using(crate::proofs::Readers::items_by_frame))]
    pub(crate) fn items(&self) -> &'a [u8]
        ensures items { split result.now ≡ items self.now.bytes }
        ensures past { items_fault self.now ≡ None → (i : ℕ)
            → length (items self.now.bytes) ≤ i
            → item_at self.now i ≡ Err (fault (after_items result.now)) }
    {
        if !self.is_list() {
            return &[];
        }
        match first_framed(self.bytes) {
            Ok((list, _)) => list.content,
            Err(_) => self.bytes,
        }
    }

    /// The bytes that begin with the items of the list that the view begins with, by the list's
    /// header alone. Fails as [`Rlp::item_count`] does, but doesn't find bytes that follow the items
    /// in the list of a strict view.
    #[inline(always)]
    #[tactic(auto, using(crate::proofs::Readers::framed_views, crate::proofs::Readers::items_of_framed))]
    pub(crate) fn framed_items(&self) -> Result<&'a [u8], DecoderError>
        ensures items { IfOk result (λ p. split p.now ≡ items self.now.bytes) }
        ensures whole { IfOk result (λ p. (IsTrue self.now.is_strict → after_items p.now ≡ [])
            ↔ (item_count self.now ≡ Ok (length (items self.now.bytes)))) }
        ensures fault { IfErr result (λ e. item_count self.now ≡ Err e) }
    {
        if !self.is_list() {
            return Err(DecoderError::RlpExpectedToBeList);
        }
        if !self.strict {
            return Ok(self.items());
        }
        let list = whole_framed(self.bytes)?;
        Ok(list.content)
    }

    /// The bytes that begin with the items of the list that the view begins with, and the number of
    /// the items, by one walk. Fails as [`Rlp::item_count`] does.
    #[tactic(auto, using(crate::proofs::Readers::counted_views, crate::proofs::Readers::counted_by))]
    pub(crate) fn counted_items(&self) -> Result<(&'a [u8], usize), DecoderError>
        ensures items { IfOk result (λ r. split r.0.now ≡ items self.now.bytes) }
        ensures count { MatchResult result (λ r. item_count self.now ≡ Ok r.1)
            (λ e. item_count self.now ≡ Err e) }
        ensures all { IfOk result (λ r. r.1 ≡ length (split r.0.now)) }
    {
        if self.strict {
            return self.strict_items();
        }
        if !self.is_list() {
            return Err(DecoderError::RlpExpectedToBeList);
        }
        let items = self.items();
        Ok((items, count_items(items)))
    }

    /// The same as [`Rlp::item_count`], out of line.
    #[inline(never)]
    fn walked_count(&self) -> Result<usize, DecoderError>
        ensures { result ≡ item_count self.now }
    {
        let (_, count) = self.counted_items()?;
        Ok(count)
    }

    /// The items of a list that is all of the bytes, and their number, by one walk over it.
    #[tactic(auto, using(crate::proofs::Readers::strict_lists), unfolding(rlp_reading::specs::Format::Framing::items))]
    fn strict_items(&self) -> Result<(&'a [u8], usize), DecoderError>
        ensures fault { MatchResult result (λ _. strict_list_fault self.now.bytes ≡ None)
            (λ e. strict_list_fault self.now.bytes ≡ Some e) }
        ensures items { IfOk result (λ r. split r.0.now ≡ items self.now.bytes) }
        ensures count { IfOk result (λ r. r.1 ≡ length (items self.now.bytes)) }
    {
        if !self.is_list() {
            return Err(DecoderError::RlpExpectedToBeList);
        }
        let list = whole_framed(self.bytes)?;
        let count = try_count_items(list.content)?;
        Ok((list.content, count))
    }

    /// Fails if the view can't be read as a list.
    #[inline(always)]
    pub(crate) fn check_list(&self) -> Result<(), DecoderError>
        ensures { MatchResult result (λ _. list_fault self.now ≡ None)
            (λ e. list_fault self.now ≡ Some e) }
    {
        if !self.strict {
            return Ok(());
        }
        self.strict_items()?;
        Ok(())
    }

    /// Fails if the view has no items by number.
    #[inline(always)]
    pub(crate) fn check_items(&self) -> Result<(), DecoderError>
        ensures { MatchResult result (λ _. items_fault self.now ≡ None)
            (λ e. items_fault self.now ≡ Some e) }
    {
        if !self.is_list() {
            return Err(DecoderError::RlpExpectedToBeList);
        }
        self.check_list()
    }
}

/// Whether there is a byte at this place, and it isn't zero.
fn is_nonzero_at(bytes: &[u8], place: usize) -> bool
    ensures { result ≡ has_nonzero_at place bytes.now }
{
    match bytes.get(place) {
        Some(byte) => *byte != 0,
        None => false,
    }
}
