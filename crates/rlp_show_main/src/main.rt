//! Shows records of Ethereum by the names of their fields: the record of an argument, or the record
//! of each line of standard input.
#![tactic(auto)]

use rlp_show::{Noted, refuse_arguments, serve_request};
use std::process::ExitCode;
use std::{env, io};

/// The arguments after the name of the program.
fn words_in(rt: &HostRuntime) -> io::Result<Vec<String>> {
    let mut words = Vec::new(rt.alloc());
    let mut given = env::args(rt)?;
    let _program = given.next();
    for word in given {
        words.push(word)?;
    }
    Ok(words)
}

fn main(rt: HostRuntime) -> ExitCode {
    let mut input = Noted::new(rt.stdin());
    let mut output = Noted::new(rt.stdout());
    let mut errors = Noted::new(rt.stderr());
    let status = match words_in(&rt) {
        Ok(words) => serve_request(
            rt.alloc(),
            words.as_slice(),
            &mut input,
            &mut output,
            &mut errors,
        ),
        Err(fault) => refuse_arguments(&fault, &mut errors),
    };
    ExitCode::from(status)
}
