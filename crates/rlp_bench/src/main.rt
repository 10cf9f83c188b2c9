//! Runs the library many times, for `tools/bench/run`: `rlp_bench OPERATION TIMES` on inputs that
//! are the same each time, `rlp_bench OPERATION SIZE TIMES` on inputs of a chosen size, and
//! `rlp_bench day` on the blocks of a day. It prints a sum of the results, so that the compiler
//! can't leave out any of the work.
#![tactic(auto)]

mod day;
mod inputs;
mod reading;
mod sizes;
mod writing;

use inputs::Inputs;
use std::alloc::Global;
use std::{env, io};

/// Reads the lines of standard input, and prints the sums of what they hold.
fn tell_day(rt: &HostRuntime) -> io::Result<()> {
    let Some(sums) = day::run(rt.alloc(), rt.stdin()) else {
        return println!(rt; "a line is at fault, or no memory");
    };
    let (blocks, transactions, receipts) = (sums.blocks, sums.transactions, sums.receipts);
    let (logs, nodes, bytes, hashes) = (sums.logs, sums.nodes, sums.bytes, sums.hashes);
    println!(rt; "{blocks} {transactions} {receipts} {logs} {nodes} {bytes} {hashes}")
}

/// Sums what an operation returns in each turn.
fn summed<F: FnMut(usize) -> Option<usize>>(times: usize, mut operation: F) -> Option<usize>
    requires { F.IsAlwaysCallable operation }
{
    let mut sum: usize = 0;
    for turn in 0..times {
        sum = sum.wrapping_add(operation(turn)?);
    }
    Some(sum)
}

/// Runs an operation on the inputs that are the same each time.
fn run(alloc: Global, operation: &str, times: usize) -> Option<usize> {
    let inputs = Inputs::new(alloc)?;
    let written = writing::run(alloc, &inputs, operation, times);
    written.or(reading::run(alloc, &inputs, operation, times))
}

/// Runs an operation. The numbers are a size and a number of times, or only a number of times.
fn run_by(alloc: Global, operation: &str, first: usize, second: Option<usize>) -> Option<usize> {
    match second {
        Some(times) => sizes::run(alloc, operation, first, times),
        None => run(alloc, operation, first),
    }
}

/// The number of an argument.
fn number(text: Option<String>) -> Option<usize> {
    text?.as_str().parse::<usize>().ok()
}

fn main(rt: HostRuntime) -> io::Result<()> {
    let mut args = env::args(&rt)?;
    let _program = args.next();
    let Some(operation) = args.next() else {
        return println!(rt;
            "rlp_bench OPERATION TIMES, rlp_bench OPERATION SIZE TIMES, or rlp_bench day"
        );
    };
    if operation.as_str() == "day" {
        return tell_day(&rt);
    }
    let Some(first) = number(args.next()) else {
        return println!(rt; "no number of times");
    };
    match run_by(rt.alloc(), operation.as_str(), first, number(args.next())) {
        Some(sum) => println!(rt; "{sum}"),
        None => println!(rt; "no operation {operation}, or no memory"),
    }
}
