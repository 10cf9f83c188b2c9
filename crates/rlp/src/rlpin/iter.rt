//! The items of a view, one by one.

ghost use Rattle.std.specs.{Prelude.{◌≡◌, ◌≤◌, ◌^◌, ◌<◌, [], length, true, false, IfSome, IsOk, Some, map}, Iterator.{item_count, UpTo, at_most}};
ghost use Rattle.std.specs.Iterator.SizeHint.{IsWithinCount};
ghost use Rattle.rlp_reading.specs.{Format.Framing.{framing, begins_as_list, split}, Views.View.{IsStep, item_views, Remaining}};

use crate::rlpin::rlp::Rlp;
use rlp_reading::items::{ItemReader, count_items};
use std::marker::Model;

/// An iterator over the items of a view. Contracts see it as the record `Remaining`: the views that
/// are left, how many headers were read, and whether it has ended.
///
/// It keeps its place. [`Rlp::iter`] reads the header of the list, and each `next` reads at most
/// one header more. After `next` returned `None` it reads no header. So n items and the first
/// `None` read at most n + 2 headers. `len` and `size_hint` walk over the items that are left each
/// time; these headers are not counted.
#[derive(Drop)]
pub struct RlpIterator<'a, 'view> {
    rlp: &'view Rlp<'a>,
    items: ItemReader<'a>,
    has_ended: bool,
}

impl<'a, 'view> Model for RlpIterator<'a, 'view> {
    ghost Value = { Remaining };

    ghost view = { λ i. record {
      left = map (λ b. record i.rlp.now { bytes = b }) (split i.items.rest);
      headers = i.items.headers;
      has_ended = i.has_ended;
    } };

    ghost invariant = { λ i. i.has_ended ≡ true → split i.items.rest ≡ [] };
}

impl<'a, 'view> Iterator for RlpIterator<'a, 'view> {
    type Item = Rlp<'a>;

    ghost next_gives = { IsStep };

    ghost remaining = { item_count (λ i. i.left) };

    #[inline(always)]
    fn next(&mut self) -> Option<Rlp<'a>> {
        if self.has_ended {
            return None;
        }
        match self.items.next_framed() {
            Ok(framed) => Some(Rlp::of_kind(framed.item, self.rlp.is_strict())),
            Err(_) => {
                self.has_ended = true;
                None
            }
        }
    }

    fn size_hint(&self) -> (usize, Option<usize>)
        ensures lower { IsWithinCount result.0 (at_most (length self.now.left)) }
        ensures upper { IfSome result.1 (UpTo (at_most (length self.now.left))) }
        ensures exact { (result.0 ≡ length self.now.left)
            × (result.1 ≡ Some (length self.now.left)) }
    {
        let count = self.count_left();
        (count, Some(count))
    }
}

impl<'a, 'view> ExactSizeIterator for RlpIterator<'a, 'view> {
    /// The number of items that are left. It walks over these items.
    fn len(&self) -> usize
        ensures { result ≡ length self.now.left }
    {
        self.count_left()
    }
}

impl<'a, 'view> RlpIterator<'a, 'view> {
    /// The iterator over the items of a view. It is empty if the view isn't a framed list.
    #[tactic(auto, unfolding(rlp_reading::specs::Format::Framing::items), using(rlp_reading::proofs::Lemmas::Numbered::splits))]
    pub(crate) fn over(view: &'view Rlp<'a>) -> RlpIterator<'a, 'view>
        ensures items { result.left ≡ item_views view.now }
        ensures few { length result.left < 2 ^ 64 }
        ensures header { result.headers ≤ 1 }
        ensures ended { result.has_ended ≡ false → (begins_as_list view.now.bytes ≡ true)
            × IsOk (framing view.now.bytes) }
    {
        let mut items = ItemReader::new(view.as_raw());
        let has_ended = !items.enter_list();
        RlpIterator {
            rlp: view,
            items,
            has_ended,
        }
    }

    /// The number of items that are left.
    fn count_left(&self) -> usize
        ensures { result ≡ length self.now.left }
    {
        count_items(self.items.rest())
    }
}

impl<'a, 'view> IntoIterator for &'view Rlp<'a> {
    type Item = Rlp<'a>;

    type IntoIter = RlpIterator<'a, 'view>;

    ghost into_iter_gives = { λ r i. i.left ≡ item_views r.now };

    fn into_iter(self) -> RlpIterator<'a, 'view>
        ensures items { result.left ≡ item_views self.now }
        ensures header { result.headers ≤ 1 }
        ensures ended { result.has_ended ≡ false → (begins_as_list self.now.bytes ≡ true)
            × IsOk (framing self.now.bytes) }
    {
        RlpIterator::over(self)
    }
}
