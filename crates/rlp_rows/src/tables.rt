//! Tables of rows in the code of tests.

use crate::rows::Line;
use std::alloc::Global;
use std::fmt::Write;
use std::test::Fail;

/// What answers the rows of tables.
pub trait Calls {
    /// Notes what is wrong with the answers of calls to a row: what they are given, and the wanted
    /// answer.
    fn note(&self, alloc: Global, calls: &str, given: &str, want: &str, wrong: &mut Line);
}

/// Tries the rows of a table, and notes those that have another answer. A row has what a call is
/// given, ` | `, and what it answers. A line with a colon has the calls of the rows below it, and a
/// comment. Other lines go on with a comment.
pub fn check<C: Calls>(alloc: Global, answers: &C, table: &str, wrong: &mut Line) {
    let mut calls = Line::new();
    for line in table.lines() {
        if let Some((given, want)) = line.trim().split_once(" | ") {
            answers.note(alloc, calls.as_str(), given, want, wrong);
        } else if let Some((head, _)) = line.trim().split_once(':') {
            calls = Line::new();
            let _ = calls.write_str(head);
        }
    }
}

/// Fails with the rows of a table that have another answer.
pub fn check_rows<C: Calls>(alloc: Global, answers: &C, table: &str) -> Result<(), Fail> {
    let mut wrong = Line::new();
    check(alloc, answers, table, &mut wrong);
    wrong.none_noted()
}
