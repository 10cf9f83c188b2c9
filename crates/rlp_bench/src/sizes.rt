//! Operations on inputs of a chosen size.

use crate::reading::by_iter;
use crate::summed;
use crate::writing::closed_at_once;
use rlp::{RlpStream, decode, decode_list, encode};
use rlp_records::{Hash, keccak256};
use rlp_trie::ordered_root;
use std::alloc::Global;

/// A number of eight bytes, the item of lists.
const NUMBER: u64 = 0x0123_4567_89ab_cdef;

/// Runs an operation, and returns the sum of the lengths of the encodings that it wrote or read.
pub(crate) fn run(alloc: Global, operation: &str, size: usize, times: usize) -> Option<usize> {
    match operation {
        "write_string" => {
            let string = vec![in alloc; 0x5au8; size].ok()?;
            summed(
                times,
                |_| Some(encode(alloc, &string).ok()?.as_slice().len()),
            )
        }
        "read_string" => {
            let bytes = encode(alloc, &vec![in alloc; 0x5au8; size].ok()?).ok()?;
            let bytes = bytes.as_slice();
            summed(times, |_| {
                let read = decode::<Vec<u8>>(alloc, bytes).ok()?.len();
                if read == size {
                    Some(bytes.len())
                } else {
                    None
                }
            })
        }
        "write_list" => summed(times, |_| Some(list(alloc, size)?.as_raw().len())),
        "read_list" => {
            let stream = list(alloc, size)?;
            summed(times, |_| {
                let read = decode_list::<u64>(alloc, stream.as_raw()).ok()?.len();
                if read == size {
                    Some(stream.as_raw().len())
                } else {
                    None
                }
            })
        }
        "iterate_list" => {
            let stream = list(alloc, size)?;
            // The shift is 0. It keeps the compiler from reading the list once for all turns.
            summed(times, |turn| by_iter(stream.as_raw().get(turn >> 60..)?))
        }
        "list_root" => {
            let values = values(alloc, size)?;
            summed(times, |_| list_root(alloc, values.as_slice()))
        }
        "value_hashes" => {
            let values = values(alloc, size)?;
            summed(times, |_| Some(value_hashes(values.as_slice())))
        }
        "close_at_once" => summed(times, |_| Some(closed_at_once(alloc, size)?.as_raw().len())),
        "close_one_by_one" => summed(times, |_| closed_one_by_one(alloc, size)),
        _ => None,
    }
}

/// A list of this many numbers, appended one by one.
fn list(alloc: Global, size: usize) -> Option<RlpStream> {
    let mut stream = RlpStream::new_list(alloc, size).ok()?;
    for _ in 0..size {
        stream.append(&NUMBER).ok()?;
    }
    Some(stream)
}

/// The length of this many unbounded lists, each in the one before, with a string in the innermost.
/// Each is closed by a call.
fn closed_one_by_one(alloc: Global, size: usize) -> Option<usize> {
    let mut stream = RlpStream::new(alloc).ok()?;
    for _ in 0..size {
        stream.begin_unbounded_list().ok()?;
    }
    stream.append(&"cat").ok()?;
    for _ in 0..size {
        if !stream.can_finalize() {
            return None;
        }
        stream.finalize_unbounded_list().ok()?;
    }
    Some(stream.as_raw().len())
}

/// The number of bytes of a value of an ordered list, as of a transaction that pays.
const VALUE_LEN: usize = 110;

/// This many values, each of which begins with its place.
fn values(alloc: Global, size: usize) -> Option<Vec<Vec<u8>>> {
    let mut values = Vec::new(alloc);
    for place in 0..size {
        let mut value = vec![in alloc; 0x5au8; VALUE_LEN].ok()?;
        let [low, high, ..] = place.to_le_bytes();
        value[0] = low;
        value[1] = high;
        values.push(value).ok()?;
    }
    Some(values)
}

/// The first byte of the root of the trie of a list.
fn list_root(alloc: Global, values: &[Vec<u8>]) -> Option<usize> {
    let mut slices = Vec::with_capacity(alloc, values.len()).ok()?;
    for value in values {
        slices.push(value.as_slice()).ok()?;
    }
    let Hash([first, ..]) = ordered_root(alloc, slices.as_slice()).ok()?;
    Some(usize::from(first))
}

/// The sum of the first bytes of the hashes of the values.
fn value_hashes(values: &[Vec<u8>]) -> usize {
    let mut sum: usize = 0;
    for value in values {
        let [first, ..] = keccak256(value.as_slice());
        sum = sum.wrapping_add(usize::from(first));
    }
    sum
}
