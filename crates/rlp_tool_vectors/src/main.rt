//! Asks what the rows of tests say of the records of Ethereum, and of the program that shows them.
//!
//! The program asks what the rows of the files in `data/` ask, and prints for each file that `files.txt`
//! names the number of its rows and how many are answered otherwise than they say. It ends with status 1
//! if there are such rows.
#![tactic(auto)]

mod answered;
mod arguments;
mod dumped;
mod json;
mod shown;

use rlp_show::Form;
use rlp_vectors::files::{Answers, Row, tell_files};
use rlp_vectors::rows::Line;
use std::alloc::{AllocError, Global};
use std::io;
use std::process::ExitCode;

/// The answers to all files.
#[derive(Clone, Copy)]
struct All;

impl Answers for All {
    fn note(
        &self,
        alloc: Global,
        file: &str,
        names: &str,
        row: &Row,
        wrong: &mut Line,
    ) -> Result<(), AllocError> {
        match file {
            "arguments.txt" => arguments::check(alloc, row, wrong),
            "json_members.txt" => json::check_members(alloc, names, row, wrong),
            "show_text.txt" => shown::check(alloc, Some(Form::Text), names, row, wrong),
            "show_bytes.txt" => shown::check(alloc, Some(Form::Bytes), names, row, wrong),
            _ if file.starts_with("show_") => shown::check(alloc, None, names, row, wrong),
            _ if file.starts_with("json_") => json::check(alloc, names, row, wrong),
            _ => answered::check(alloc, names, row, wrong),
        }
    }
}

fn main(rt: HostRuntime) -> io::Result<ExitCode> {
    let is_right = tell_files(&rt, &All)?;
    Ok(ExitCode::from(u8::from(!is_right)))
}
