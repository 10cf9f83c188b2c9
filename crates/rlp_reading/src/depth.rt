//! The depth of nested lists.

ghost use Rattle.std.specs.Prelude.{◌≤◌, ◌↔◌, IsTrue};
ghost use Rattle.rlp_reading.specs.Views.Depth.{depth};

use crate::framed::{Framed, first_framed, short_framed};

/// Whether the depth of an item is at most `limit`. It goes no deeper than `limit` lists.
#[tactic(auto, using(crate::proofs::Lemmas::Texts::nested))]
pub fn is_nested_within(framed: &Framed<'_>, limit: usize) -> bool
    ensures { IsTrue result ↔ (depth framed.now.item.now ≤ limit) }
{
    if !framed.is_list() {
        return true;
    }
    if limit == 0 {
        return false;
    }
    let mut rest = framed.content;
    loop {
        if let Some((_, others)) = short_framed(rest) {
            rest = others;
            continue;
        }
        let Ok((item, others)) = first_framed(rest) else {
            return true;
        };
        if item.is_list() && !is_nested_within(&item, limit - 1) {
            return false;
        }
        rest = others;
    }
}
