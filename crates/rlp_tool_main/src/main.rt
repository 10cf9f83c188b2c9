//! Answers each line of standard input on standard output.
#![tactic(auto)]

use rlp_tool::{Noted, exit_status, run};
use std::process::ExitCode;

fn main(rt: HostRuntime) -> ExitCode {
    let mut input = Noted::new(rt.stdin());
    let mut output = Noted::new(rt.stdout());
    let outcome = run(rt.alloc(), &mut input, &mut output);
    ExitCode::from(exit_status(&outcome))
}
