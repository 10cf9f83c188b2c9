//! Operations that write.

use crate::inputs::Inputs;
use crate::summed;
use rlp::{RlpStream, encode, encode_list};
use std::alloc::Global;

/// Runs an operation that writes, and returns the sum of the lengths that it wrote.
pub(crate) fn run(alloc: Global, inputs: &Inputs, operation: &str, times: usize) -> Option<usize> {
    match operation {
        "encode_small_number" => encode_numbers(alloc, inputs, 0x7f, times),
        "encode_number" => encode_numbers(alloc, inputs, u64::MAX, times),
        "encode_32_bytes" => encode_text(alloc, inputs, 32, times),
        "encode_1000_bytes" => encode_text(alloc, inputs, 1000, times),
        "encode_transaction" => summed(times, |_| {
            Some(encode(alloc, &inputs.transaction).ok()?.as_slice().len())
        }),
        "encode_block" => summed(times, |_| block(alloc, inputs)),
        "encode_unbounded_list" => summed(times, |_| unbounded_list(alloc, inputs)),
        "encode_list" => summed(times, |_| {
            Some(
                encode_list(alloc, inputs.numbers.as_slice())
                    .ok()?
                    .as_slice()
                    .len(),
            )
        }),
        "append_raw" => {
            let transaction = encode(alloc, &inputs.transaction).ok()?;
            summed(times, |_| raw_block(alloc, transaction.as_slice()))
        }
        "close_nested" => summed(times, |_| Some(closed_at_once(alloc, 200)?.as_raw().len())),
        _ => None,
    }
}

fn encode_numbers(alloc: Global, inputs: &Inputs, mask: u64, times: usize) -> Option<usize> {
    let numbers = inputs.numbers.as_slice();
    summed(times, |turn| {
        let number = *numbers.get(turn % 1000)? & mask;
        Some(encode(alloc, &number).ok()?.as_slice().len())
    })
}

fn encode_text(alloc: Global, inputs: &Inputs, len: usize, times: usize) -> Option<usize> {
    let text = inputs.text.as_str().as_bytes();
    summed(times, |turn| {
        let bytes = text.get(turn % 2..len)?;
        Some(encode(alloc, &bytes).ok()?.as_slice().len())
    })
}

fn block(alloc: Global, inputs: &Inputs) -> Option<usize> {
    let mut stream = RlpStream::new_list(alloc, 100).ok()?;
    for _ in 0..100 {
        stream.append(&inputs.transaction).ok()?;
    }
    Some(stream.as_raw().len())
}

fn unbounded_list(alloc: Global, inputs: &Inputs) -> Option<usize> {
    let mut stream = RlpStream::new(alloc).ok()?;
    stream.begin_unbounded_list().ok()?;
    for number in inputs.numbers.as_slice() {
        stream.append(number).ok()?;
    }
    if !stream.can_finalize() {
        return None;
    }
    stream.finalize_unbounded_list().ok()?;
    Some(stream.as_raw().len())
}

fn raw_block(alloc: Global, transaction: &[u8]) -> Option<usize> {
    let mut stream = RlpStream::new_list(alloc, 100).ok()?;
    for _ in 0..100 {
        match stream.items_awaited() {
            Some(awaited) if awaited < 1 => return None,
            _ => {}
        }
        stream.append_raw(transaction, 1).ok()?;
    }
    Some(stream.as_raw().len())
}

/// This many lists, each in the one before, which the last call closes.
pub(crate) fn closed_at_once(alloc: Global, size: usize) -> Option<RlpStream> {
    let mut stream = RlpStream::new(alloc).ok()?;
    for _ in 0..size {
        stream.begin_list(1).ok()?;
    }
    stream.append(&"cat").ok()?;
    Some(stream)
}
