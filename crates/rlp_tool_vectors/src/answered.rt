//! What is answered to the rows about the records of Ethereum.
//!
//! A row is the call, what is given, and the answer, or the name of a kind and bytes that go both
//! ways. What is given and the answer may have names and repeated parts between `<` and `>`. The answer
//! `refused` is any fault.

use rlp_ethereum_vectors::answer;
use rlp_vectors::files::Row;
use rlp_vectors::rows::{Line, at_length};
use std::alloc::{AllocError, Global};

/// Notes what is wrong with the answer to a row.
pub(crate) fn check(
    alloc: Global,
    names: &str,
    row: &Row,
    wrong: &mut Line,
) -> Result<(), AllocError> {
    let (call, given, want) = match row.given.split_once(" | ") {
        Some((call, given)) => (call, given, row.want.as_str()),
        None => (row.given.as_str(), row.want.as_str(), "both ways"),
    };
    let (given, want) = (whole(alloc, given, names)?, whole(alloc, want, names)?);
    match answer(alloc, call, given.as_str()) {
        Ok(told) => wrong.note(call, given.as_str(), told.as_str(), want.as_str()),
        Err(_) if want.as_str() == "refused" => {}
        Err(fault) => {
            let fault = format!(in alloc; "{fault}")?;
            wrong.note(call, given.as_str(), fault.as_str(), want.as_str());
        }
    }
    Ok(())
}

/// Returns a text with its names and its repeated parts at their length.
fn whole(alloc: Global, short: &str, names: &str) -> Result<String, AllocError> {
    let names = if short.contains('<') { names } else { "" };
    at_length(alloc, short, names)
}
