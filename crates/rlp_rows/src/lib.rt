//! Reads the rows of tests. [`files`] reads files of rows, [`tables`] tables in the code of tests, and
//! [`rows`] the parts of rows. [`codec`] and [`guarded`] have what tests ask about items and streams,
//! with rows and without them, and [`signal`] the signal that memory is refused from here on.
#![tactic(auto)]

pub mod codec;
pub mod files;
pub mod guarded;
pub mod rows;
pub mod signal;
pub mod tables;
