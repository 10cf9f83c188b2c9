//! The items of a list, read in order with their places.

ghost use Rattle.std.specs.Prelude.{◌≡◌, ◌-◌, ◌∷◌, ◌↔◌, [], length, Ok, Err, IsTrue, MatchOption, MatchResult};
ghost use Rattle.rlp_reading.specs.Form.{fault_of, items_of};
ghost use Rattle.rlp.specs.Left.{ItemsCounted};

use crate::rlpin::fields::Fields;
use crate::rlpin::rlp::Rlp;
use rlp_reading::error::DecoderError;
use std::marker::Model;

/// A reader of the items of a list that knows their number, and so the place of each item. Contracts
/// see it as the record `ItemsCounted` of the views of the items that are left and of the number of
/// all items.
#[derive(Drop)]
pub struct CountedFields<'a> {
    fields: Fields<'a>,
    count: usize,
    left: usize,
}

impl<'a> Model for CountedFields<'a> {
    ghost Value = { ItemsCounted };

    ghost view = { λ f. record { views = f.fields.views; count = f.count } };

    ghost invariant = { λ f. f.left ≡ length f.fields.views };
}

impl<'a> CountedFields<'a> {
    /// A reader of the items of the list that the view begins with. Fails as [`Rlp::item_count`]
    /// does.
    pub(crate) fn of(rlp: &Rlp<'a>) -> Result<CountedFields<'a>, DecoderError>
        ensures { MatchResult result
            (λ f. (items_of rlp.now ≡ Ok f.views) × (f.count ≡ length f.views))
            (λ e. items_of rlp.now ≡ Err (fault_of e)) }
    {
        let (fields, count) = Fields::counted(rlp)?;
        Ok(CountedFields {
            fields,
            count,
            left: count,
        })
    }

    /// The next item, or `None` if no item is left.
    pub fn next(&mut self) -> Option<Rlp<'a>>
        ensures item { MatchOption result ((self.old.views ≡ []) × (self.new.views ≡ []))
            (λ item. self.old.views ≡ item ∷ self.new.views) }
        ensures count { self.new.count ≡ self.old.count }
    {
        let item = self.fields.next();
        self.left = self.left.saturating_sub(1);
        item
    }

    /// The place, counted from 0, of the item that was taken last, if an item was taken.
    pub fn last_place(&self) -> usize
        ensures { result ≡ self.now.count - 1 - length self.now.views }
    {
        self.count.saturating_sub(1).saturating_sub(self.left)
    }

    /// The number of items that are left.
    pub fn count_left(&self) -> usize
        ensures { result ≡ length self.now.views }
    {
        self.left
    }

    /// Whether no item is left.
    pub fn is_empty(&self) -> bool
        ensures { IsTrue result ↔ (self.now.views ≡ []) }
    {
        self.left == 0
    }
}
