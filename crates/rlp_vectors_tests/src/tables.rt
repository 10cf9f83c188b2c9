//! Tables of rows that ask what the files of rows ask.

use crate::{items, views};
use rlp_rows::rows::Line;
use rlp_rows::tables;
use rlp_rows::tables::Calls;
use rlp_vectors::note_row;
use std::alloc::Global;
use std::test::Fail;

/// The calls of the rows of the codec.
#[derive(Clone, Copy)]
struct Codec;

impl Calls for Codec {
    fn note(&self, alloc: Global, calls: &str, given: &str, want: &str, wrong: &mut Line) {
        note_row(alloc, calls, given, want, wrong);
    }
}

/// Tries the rows of a table, and notes those that have another answer.
pub(crate) fn check(alloc: Global, table: &str, wrong: &mut Line) {
    tables::check(alloc, &Codec, table, wrong);
}

/// Fails with the rows of a table that have another answer.
pub(crate) fn check_rows(alloc: Global, table: &str) -> Result<(), Fail> {
    tables::check_rows(alloc, &Codec, table)
}

#[test]
fn without_memory(rt: HostRuntime) -> Result<(), Fail> {
    check_rows(rt.alloc(), items::ROWS)?;
    check_rows(rt.alloc(), views::ROWS)
}
