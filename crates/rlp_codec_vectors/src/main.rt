//! Asks what the rows of tests say of the codec and of `rlp_tool`.
//!
//! The program asks what the rows of the files in `data/` ask, and prints for each file that `files.txt`
//! names the number of its rows and how many are answered otherwise than they say. It ends with status 1
//! if there are such rows.
#![tactic(auto)]

use rlp_rows::files::{Answers, Row, tell_files};
use rlp_rows::rows::Line;
use rlp_tool_rows::note_tool_row;
use rlp_vectors::note_row;
use std::alloc::{AllocError, Global};
use std::io;
use std::process::ExitCode;

/// The answers to the rows of the codec, and to the rows of `rlp_tool` in the files `tool_*.txt`.
#[derive(Clone, Copy)]
struct Codec;

impl Answers for Codec {
    fn note(
        &self,
        alloc: Global,
        file: &str,
        _names: &str,
        row: &Row,
        wrong: &mut Line,
    ) -> Result<(), AllocError> {
        if file.starts_with("tool_") {
            return note_tool_row(alloc, row, wrong);
        }
        let (calls, given) = row.given.split_once(" | ").unwrap_or(("", ""));
        note_row(alloc, calls, given, row.want.as_str(), wrong);
        Ok(())
    }
}

fn main(rt: HostRuntime) -> io::Result<ExitCode> {
    let is_right = tell_files(&rt, &Codec)?;
    Ok(ExitCode::from(u8::from(!is_right)))
}
