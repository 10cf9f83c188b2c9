//! The items of a list, read in order as values.

ghost use Rattle.std.specs.Prelude.{◌≡◌, ◌≢◌, ◌≤◌, ◌<◌, ◌^◌, ◌∷◌, ◌⊎◌, ◌↔◌, [], ℕ, length, map, None, Ok, Err, Some, IfOk, IfErr, IsOkAnd, IsTrue, MatchOption, MatchResult, OnOk};
ghost use Rattle.rlp_reading.specs.{declared.error.DecoderError.TheVariants.{OutOfMemory, RlpIncorrectListLen}, Format.Framing.{split, after_items}};
ghost use Rattle.rlp_reading.specs.{Views.View.{View, item_at, item_count, item_views, items_fault}, Form.{MayLackMemory, and_then, fault_of, items_of, list_of_views, list_reading, seen_fault}};
ghost use Rattle.rlp.specs.Left.{ItemsLeft, after_next, next_item, past_fault};

use crate::rlpin::rlp::Rlp;
use crate::traits::Decodable;
use rlp_reading::error::DecoderError;
use rlp_reading::framed::first_framed;
use rlp_reading::items::{ItemReader, count_items};
use std::alloc::Global;
use std::marker::Model;

/// A reader of the items of a list, one after another. Contracts see it as the record `ItemsLeft` of
/// the views of the items that are left and of the bytes that follow the items in the list.
///
/// It keeps its place, so it reads the header of each item once. [`Rlp::val_at`] begins at the
/// start of the list each time. Each call returns what [`Rlp::val_at`], [`Rlp::list_at`] or
/// [`Rlp::at`] returns for the number of the next item.
///
/// ```rust
/// let list = rlp::Rlp::new(&[0xc5, 0x05, 0x83, b'c', b'a', b't']);
/// let mut fields = list.fields_of(2)?;
/// assert_eq!(rt; fields.next_value::<u64>(alloc)?, 5);
/// assert_eq!(rt; fields.next_value::<String>(alloc)?.as_str(), "cat");
/// ```
#[derive(Drop)]
pub struct Fields<'a> {
    items: ItemReader<'a>,
    strict: bool,
}

impl<'a> Model for Fields<'a> {
    ghost Value = { ItemsLeft };

    ghost view = { λ f. record {
      views = map (λ b. record { bytes = b; is_strict = f.strict }) (split f.items.rest);
      after = after_items f.items.rest;
    } };
}

impl<'a> Rlp<'a> {
    /// A reader of the items of the list that the view begins with, in order.
    ///
    /// Fails as [`Rlp::item_count`] does.
    #[tactic(auto, using(rlp_reading::proofs::ListLaws::items_told))]
    pub fn fields(&self) -> Result<Fields<'a>, DecoderError>
        ensures items { IfOk result (λ f. items_of self.now ≡ Ok f.views) }
        ensures past { IfOk result (λ f. (i : ℕ) → length f.views ≤ i
            → item_at self.now i ≡ Err (past_fault f)) }
        ensures fault { IfErr result (λ e. items_fault self.now ≡ Some e) }
    {
        self.check_items()?;
        Ok(Fields::over(self))
    }

    /// The same as [`Rlp::fields`] for a list of `len` items. Fails with `RlpIncorrectListLen` if
    /// the list has a different number of items.
    #[tactic(auto, using(rlp_reading::proofs::ListLaws::items_told, rlp_reading::proofs::Lemmas::Numbered::counted_told))]
    pub fn fields_of(&self, len: usize) -> Result<Fields<'a>, DecoderError>
        ensures items { IfOk result (λ f. items_of self.now ≡ Ok f.views) }
        ensures past { IfOk result (λ f. (i : ℕ) → length f.views ≤ i
            → item_at self.now i ≡ Err (past_fault f)) }
        ensures count { OnOk result (item_count self.now ≡ Ok len) }
        ensures fault { IfErr result (λ e. (item_count self.now ≡ Err e)
            ⊎ ((e ≡ RlpIncorrectListLen) × IsOkAnd (item_count self.now) (λ n. n ≢ len))) }
    {
        if self.item_count()? != len {
            return Err(DecoderError::RlpIncorrectListLen);
        }
        Ok(Fields::over(self))
    }
}

impl<'a> Fields<'a> {
    /// A reader of the items of the list that the view begins with. Fails as [`Rlp::item_count`]
    /// does. It walks over the items of a strict view, and not over the items of a lenient view.
    #[inline(always)]
    #[tactic(auto, using(rlp_reading::proofs::ListLaws::items_told))]
    pub fn of(rlp: &Rlp<'a>) -> Result<Fields<'a>, DecoderError>
        ensures items { MatchResult result (λ f. items_of rlp.now ≡ Ok f.views)
            (λ e. items_of rlp.now ≡ Err (fault_of e)) }
        ensures past { IfOk result (λ f. (i : ℕ) → length f.views ≤ i
            → item_at rlp.now i ≡ Err (past_fault f)) }
        ensures few { IfOk result (λ f. length f.views < 2 ^ 64) }
    {
        rlp.check_items()?;
        Ok(Fields::over(rlp))
    }

    /// A reader of the items of a view that is read as a list. A strict view fails as
    /// [`Rlp::item_count`] does. A lenient view never fails: it has no items if it isn't a list.
    pub fn of_list(rlp: &Rlp<'a>) -> Result<Fields<'a>, DecoderError>
        ensures items { MatchResult result (λ f. list_of_views rlp.now ≡ Ok f.views)
            (λ e. list_of_views rlp.now ≡ Err (fault_of e)) }
        ensures past { IfOk result (λ f. items_fault rlp.now ≡ None → (i : ℕ)
            → length f.views ≤ i → item_at rlp.now i ≡ Err (past_fault f)) }
        ensures few { IfOk result (λ f. length f.views < 2 ^ 64) }
    {
        if rlp.is_strict() {
            return Fields::of(rlp);
        }
        Ok(Fields::over(rlp))
    }

    /// The same as [`Fields::of`], with the number of the items.
    pub(crate) fn counted(rlp: &Rlp<'a>) -> Result<(Fields<'a>, usize), DecoderError>
        ensures items { MatchResult result (λ r. items_of rlp.now ≡ Ok r.0.views)
            (λ e. items_of rlp.now ≡ Err (fault_of e)) }
        ensures count { IfOk result (λ r. r.1 ≡ length r.0.views) }
    {
        let (items, count) = rlp.counted_items()?;
        Ok((Fields::over_items(items, rlp.is_strict()), count))
    }

    /// A reader of the items of the list that the view begins with, by the list's header alone. It
    /// doesn't walk over the items: it fails as [`Fields::of`] does, but doesn't find bytes that
    /// follow the items in the list of a strict view. [`Fields::has_ended`] finds them at the end.
    #[inline(always)]
    pub(crate) fn framed(rlp: &Rlp<'a>) -> Result<Fields<'a>, DecoderError>
        ensures views { IfOk result (λ f. f.views ≡ item_views rlp.now) }
        ensures whole { IfOk result (λ f. (IsTrue rlp.now.is_strict → f.after ≡ [])
            ↔ (items_of rlp.now ≡ Ok f.views)) }
        ensures fault { IfErr result (λ e. items_of rlp.now ≡ Err (fault_of e)) }
    {
        let items = rlp.framed_items()?;
        Ok(Fields::over_items(items, rlp.is_strict()))
    }

    /// A reader of the items of a view that is read as a list. For a strict view it is
    /// [`Fields::framed`]. For a lenient view it never fails.
    #[inline(always)]
    pub(crate) fn framed_list(rlp: &Rlp<'a>) -> Result<Fields<'a>, DecoderError>
        ensures views { IfOk result (λ f. f.views ≡ item_views rlp.now) }
        ensures whole { IfOk result (λ f. (IsTrue rlp.now.is_strict → f.after ≡ [])
            → list_of_views rlp.now ≡ Ok f.views) }
        ensures fault { IfErr result (λ e. list_of_views rlp.now ≡ Err (fault_of e)) }
    {
        match Fields::framed(rlp) {
            Ok(fields) => Ok(fields),
            Err(fault) if rlp.is_strict() => Err(fault),
            Err(_) => Ok(Fields::over(rlp)),
        }
    }

    /// A reader of the items of a view, or of no items if the view isn't a list.
    #[inline(always)]
    pub(crate) fn over(rlp: &Rlp<'a>) -> Fields<'a>
        ensures views { result.views ≡ item_views rlp.now }
        ensures past { items_fault rlp.now ≡ None → (i : ℕ) → length result.views ≤ i
            → item_at rlp.now i ≡ Err (past_fault result) }
        ensures few { length result.views < 2 ^ 64 }
    {
        Fields::over_items(rlp.items(), rlp.is_strict())
    }

    /// A reader of the items that bytes begin with.
    #[inline(always)]
    fn over_items(bytes: &'a [u8], strict: bool) -> Fields<'a>
        ensures exact { result ≡ record {
          views = map (λ b. record { bytes = b; is_strict = strict }) (split bytes.now);
          after = after_items bytes.now;
        } }
        ensures few { length result.views < 2 ^ 64 }
    {
        Fields {
            items: ItemReader::new(bytes),
            strict,
        }
    }

    /// A reader of the same items.
    #[inline(always)]
    pub(crate) fn clone(&self) -> Fields<'a>
        ensures { result ≡ self.now }
    {
        Fields::over_items(self.items.rest(), self.strict)
    }

    /// The next item, or `None` if no item is left.
    #[inline(always)]
    #[tactic(auto, using(crate::proofs::Readers::after_taken))]
    pub fn next(&mut self) -> Option<Rlp<'a>>
        ensures item { MatchOption result ((self.old.views ≡ []) × (self.new.views ≡ []))
            (λ item. self.old.views ≡ item ∷ self.new.views) }
        ensures after { self.new.after ≡ self.old.after }
    {
        match self.items.next_framed() {
            Ok(framed) => Some(Rlp::of_kind(framed.item, self.strict)),
            Err(_) => None,
        }
    }

    /// The next item.
    ///
    /// After the last item it fails as [`Rlp::at`] does, and takes no item.
    #[inline(always)]
    pub fn next_view(&mut self) -> Result<Rlp<'a>, DecoderError>
        ensures exact { result ≡ next_item self.old }
        ensures next { self.new ≡ after_next self.old }
    {
        let framed = self.items.next_framed()?;
        Ok(Rlp::of_kind(framed.item, self.strict))
    }

    /// The value of the next item, as [`Rlp::val_at`] reads it.
    pub fn next_value<T: Decodable>(&mut self, alloc: Global) -> Result<T, DecoderError>
        ensures value { IfOk result (λ x. and_then (seen_fault (next_item self.old))
            (λ item. (T.reading.read item).result) ≡ Ok (T.reading.seen x)) }
        ensures fault { IfErr result (λ e. (and_then (seen_fault (next_item self.old))
            (λ item. (T.reading.read item).result) ≡ Err (fault_of e))
            ⊎ ((e ≡ OutOfMemory)
            × IsOkAnd (next_item self.old) (MayLackMemory T.reading))) }
        ensures none { IfErr (next_item self.old) (λ e. result ≡ Err e) }
        ensures next { self.new ≡ after_next self.old }
    {
        let item = self.next_view()?;
        item.as_val(alloc)
    }

    /// The values of the items of the next item, as [`Rlp::list_at`] reads them.
    pub fn next_list<T: Decodable>(&mut self, alloc: Global) -> Result<Vec<T>, DecoderError>
        ensures value { IfOk result (λ values. and_then (seen_fault (next_item self.old))
            (λ item. ((list_reading (λ xs. xs) T.reading).read item).result)
            ≡ Ok (map T.reading.seen values.items)) }
        ensures fault { IfErr result (λ e. (and_then (seen_fault (next_item self.old))
            (λ item. ((list_reading (λ xs. xs) T.reading).read item).result) ≡ Err (fault_of e))
            ⊎ ((e ≡ OutOfMemory) × IsOkAnd (next_item self.old)
            (MayLackMemory (list_reading (λ xs. xs) T.reading)))) }
        ensures none { IfErr (next_item self.old) (λ e. result ≡ Err e) }
        ensures next { self.new ≡ after_next self.old }
    {
        let item = self.next_view()?;
        item.as_list(alloc)
    }

    /// Tests that all items were taken. Fails with `RlpIncorrectListLen` if an item is left.
    pub fn finish(self) -> Result<(), DecoderError>
        ensures { MatchResult result (λ _. self.entry.views ≡ [])
            (λ e. (self.entry.views ≢ []) × (e ≡ RlpIncorrectListLen)) }
    {
        if self.is_empty() {
            return Ok(());
        }
        Err(DecoderError::RlpIncorrectListLen)
    }

    /// The number of items that are left. It walks over these items.
    pub fn count_left(&self) -> usize
        ensures { result ≡ length self.now.views }
    {
        count_items(self.items.rest())
    }

    /// Whether no item is left. It reads the header of the next item.
    #[inline(always)]
    pub fn is_empty(&self) -> bool
        ensures { IsTrue result ↔ (self.now.views ≡ []) }
    {
        first_framed(self.items.rest()).is_err()
    }

    /// Whether nothing is left of the list: no item, and no bytes that aren't an item. It reads no
    /// header.
    #[inline(always)]
    pub(crate) fn has_ended(&self) -> bool
        ensures { IsTrue result ↔ ((self.now.views ≡ []) × (self.now.after ≡ [])) }
    {
        self.items.rest().is_empty()
    }
}
