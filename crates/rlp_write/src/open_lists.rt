//! The open lists of a stream. Contracts see them from the inside out.

ghost use Rattle.std.specs.Prelude.{◌≡◌, ◌≤◌, ◌<◌, ◌*◌, ◌-◌, ◌^◌, ◌∷◌, ◌↔◌, [], drop, length, min, reverse, IsTrue, MatchOption, OnOk, OnErr};
ghost use Rattle.rlp_write.specs.Streams.Stream.{awaits_after, is_last};
ghost use Rattle.rlp_write.specs.Streams.Placeholders.{closes, innermost_awaits, is_innermost_unbounded, unbounded_innermost, with_awaits, with_innermost};

use std::alloc::{AllocError, Global};
use std::marker::Model;

/// What a stream keeps for an open list.
#[derive(Clone, Copy)]
pub(crate) struct Placeholder {
    /// The position of the byte 0 in the place of the list's header.
    pub(crate) position: usize,
    /// The number of items that the list still awaits, or `None` if it is unbounded.
    pub(crate) awaits: Option<usize>,
}

/// The open lists of a stream.
#[derive(Drop)]
pub(crate) struct OpenLists {
    // In the order in which they were opened: from the outside in.
    lists: Vec<Placeholder>,
}

impl Model for OpenLists {
    ghost use Rattle.std.specs.Prelude.{List, reverse};
    ghost use Rattle.rlp_write.specs.declared.open_lists.Placeholder.{Placeholder};

    ghost Value = { List Placeholder };

    ghost view = { λ o. reverse o.lists.items };
}

/// Open lists that are taken one after another, from the inside out.
#[derive(Drop)]
pub(crate) struct Inward<'a> {
    lists: &'a [Placeholder],
}

impl<'a> Model for Inward<'a> {
    ghost use Rattle.std.specs.Prelude.{List, reverse};
    ghost use Rattle.rlp_write.specs.declared.open_lists.Placeholder.{Placeholder};

    ghost Value = { List Placeholder };

    ghost view = { λ i. reverse i.lists.now };
}

impl Inward<'_> {
    /// The next list outwards.
    #[inline(always)]
    pub(crate) fn next(&mut self) -> Option<Placeholder>
        ensures { MatchOption result (self.old ≡ []) (λ list. self.old ≡ list ∷ self.new) }
    {
        match self.lists.split_last() {
            Some((list, outer)) => {
                self.lists = outer;
                Some(*list)
            }
            None => None,
        }
    }
}

impl OpenLists {
    /// No open lists.
    pub(crate) fn new(alloc: Global) -> OpenLists
        ensures { result ≡ [] }
    {
        OpenLists {
            lists: Vec::new(alloc),
        }
    }

    /// The lists, to be taken one after another.
    #[inline(always)]
    pub(crate) fn inward(&self) -> Inward<'_>
        ensures lists { result ≡ self.now }
        ensures few { 24 * length self.now < 2 ^ 63 }
    {
        Inward {
            lists: self.lists.as_slice(),
        }
    }

    /// The number of open lists.
    #[inline]
    pub(crate) fn len(&self) -> usize
        ensures value { result ≡ length self.now }
        ensures few { 24 * result < 2 ^ 63 }
    {
        self.lists.as_slice().len()
    }

    /// Whether no list is open.
    #[inline]
    pub(crate) fn is_empty(&self) -> bool
        ensures { IsTrue result ↔ (self.now ≡ []) }
    {
        self.lists.is_empty()
    }

    /// The number of items that the innermost list awaits. `None` if that list is unbounded, or if
    /// no list is open.
    pub(crate) fn innermost_awaits(&self) -> Option<usize>
        ensures { result ≡ innermost_awaits self.now }
    {
        self.lists.last()?.awaits
    }

    /// Whether a list is open, and the innermost is unbounded.
    pub(crate) fn is_innermost_unbounded(&self) -> bool
        ensures { result ≡ is_innermost_unbounded self.now }
    {
        match self.lists.last() {
            Some(list) => list.awaits.is_none(),
            None => false,
        }
    }

    /// Whether the count of these items closes the innermost list, and perhaps lists around it.
    #[inline]
    pub(crate) fn closes(&self, items: usize) -> bool
        ensures { result ≡ closes items self.now }
    {
        match self.lists.last() {
            Some(list) => is_last(items, list.awaits),
            None => false,
        }
    }

    /// Returns the number of innermost lists that are unbounded, at most `most`.
    pub(crate) fn count_unbounded(&self, most: usize) -> usize
        ensures { result ≡ min most (unbounded_innermost self.now) }
    {
        let mut rest = self.inward();
        let mut count = 0;
        while count < most
            && let Some(list) = rest.next()
            && list.awaits.is_none()
        {
            count += 1;
        }
        count
    }

    /// Opens a list inside all open lists.
    #[inline]
    pub(crate) fn push(&mut self, list: Placeholder) -> Result<(), AllocError>
        ensures ok { OnOk result (self.new ≡ list ∷ self.old) }
        ensures refused { OnErr result (self.new ≡ self.old) }
    {
        self.lists.push(list)?;
        Ok(())
    }

    /// Takes the innermost list.
    #[inline]
    pub(crate) fn pop(&mut self) -> Option<Placeholder>
        ensures { MatchOption result (self.old ≡ []) (λ list. self.old ≡ list ∷ self.new) }
    {
        self.lists.pop()
    }

    /// Keeps the `count` outermost lists.
    #[tactic(auto, using(crate::proofs::Streams::Closings::reverse_kept))]
    pub(crate) fn truncate(&mut self, count: usize)
        ensures { self.new ≡ drop (length self.old - count) self.old }
    {
        self.lists.truncate(count);
    }

    /// Takes all lists.
    pub(crate) fn clear(&mut self)
        ensures { self.new ≡ [] }
    {
        self.lists.clear();
    }

    /// Sets the number of items that the innermost list awaits.
    #[tactic(auto, using(crate::proofs::Streams::Closings::set_last))]
    pub(crate) fn set_innermost(&mut self, awaits: Option<usize>)
        ensures { self.new ≡ with_innermost (λ _. awaits) self.old }
    {
        let Some(list) = self.lists.last_mut() else {
            return;
        };
        list.awaits = awaits;
    }

    /// Counts items in the innermost list, if it is bounded.
    #[inline]
    #[tactic(auto, using(crate::proofs::Streams::Closings::set_last))]
    pub(crate) fn count_innermost(&mut self, items: usize)
        ensures { self.new ≡ with_innermost (awaits_after items) self.old }
    {
        if let Some(list) = self.lists.last_mut()
            && let Some(awaited) = list.awaits
        {
            list.awaits = Some(awaited.saturating_sub(items));
        }
    }

    /// Sets the number of items that each of the `count` innermost lists awaits.
    pub(crate) fn set_awaits(&mut self, count: usize, awaits: Option<usize>)
        requires { count ≤ length self.old }
        ensures { self.new ≡ with_awaits count awaits self.old }
    {
        set_last(&mut self.lists, count, awaits);
    }

    /// The allocator of the lists.
    pub(crate) fn allocator(&self) -> Global {
        *self.lists.allocator()
    }
}

/// Whether these items are the last items that a list awaits.
#[inline]
pub(crate) fn is_last(items: usize, awaits: Option<usize>) -> bool
    ensures { result ≡ is_last items awaits }
{
    match awaits {
        Some(awaited) => awaited <= items,
        None => false,
    }
}

/// Sets the number of items that each of the last `count` lists awaits.
#[tactic(auto, using(crate::proofs::Streams::Closings::awaits_changed))]
fn set_last(lists: &mut Vec<Placeholder>, count: usize, awaits: Option<usize>)
    requires { count ≤ length lists.old.items }
    ensures { reverse lists.new.items ≡ with_awaits count awaits (reverse lists.old.items) }
{
    let last = lists.len();
    for inside in 0..count {
        lists[last - 1 - inside].awaits = awaits;
    }
}
