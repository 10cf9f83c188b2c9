//! Operations that read.

use crate::inputs::Inputs;
use crate::summed;
use rlp::{Rlp, decode, decode_list, decode_strict};
use rlp_headers::Header;
use rlp_records::keccak256;
use rlp_transactions::SignedLegacyTransaction as Transaction;
use std::alloc::Global;

/// Runs an operation that reads, and returns the sum of the lengths or numbers that it read.
pub(crate) fn run(alloc: Global, inputs: &Inputs, operation: &str, times: usize) -> Option<usize> {
    let transaction = inputs.transaction_bytes.as_slice();
    let branch = inputs.branch.as_slice();
    let (short, long) = (
        inputs.short_string.as_slice(),
        inputs.long_string.as_slice(),
    );
    let (list, long_list) = (inputs.list.as_slice(), inputs.long_list.as_slice());
    let number = inputs.large_number.as_slice();
    match operation {
        "decode_small_number" => each(
            inputs.small_number.as_slice(),
            times,
            |b| number_in(alloc, b),
        ),
        "decode_number" => each(number, times, |b| number_in(alloc, b)),
        "decode_32_bytes" => each(short, times, |b| bytes_in(alloc, b)),
        "decode_1000_bytes" => each(long, times, |b| bytes_in(alloc, b)),
        "decode_text_of_32" => each(short, times, |b| text_in(alloc, b)),
        "decode_text_of_1000" => each(long, times, |b| text_in(alloc, b)),
        "decode_list" => each(
            list,
            times,
            |b| Some(decode_list::<u64>(alloc, b).ok()?.len()),
        ),
        "as_list" => each(
            list,
            times,
            |b| Some(Rlp::new(b).as_list::<u64>(alloc).ok()?.len()),
        ),
        "decode_transaction" => each(transaction, times, |b| {
            Some(decode::<Transaction>(alloc, b).ok()?.payload.gas_limit as usize)
        }),
        "decode_transaction_strictly" => each(transaction, times, |b| {
            Some(
                decode_strict::<Transaction>(alloc, b)
                    .ok()?
                    .payload
                    .gas_limit as usize,
            )
        }),
        "decode_header" => each(inputs.header.as_slice(), times, |b| {
            Some(decode::<Header>(alloc, b).ok()?.gas_limit as usize)
        }),
        "decode_header_strictly" => each(inputs.header.as_slice(), times, |b| {
            Some(decode_strict::<Header>(alloc, b).ok()?.gas_limit as usize)
        }),
        "transaction_by_iter" => each(transaction, times, by_iter),
        "transaction_by_at" => each(transaction, times, |b| by_at(b, 9)),
        "transaction_by_fields" => each(transaction, times, |b| by_fields(b, 9)),
        "branch_by_iter" => each(branch, times, by_iter),
        "branch_by_at" => each(branch, times, |b| by_at(b, 17)),
        "branch_by_fields" => each(branch, times, |b| by_fields(b, 17)),
        "branch_by_val_at" => each(branch, times, |b| by_val_at(alloc, b, 17)),
        "hashes_by_at" => each(inputs.hashes.as_slice(), times, |b| by_at(b, 200)),
        "hashes_by_at_shuffled" => each(inputs.hashes.as_slice(), times, by_at_shuffled),
        "item_count_of_1000" => each(list, times, |b| Rlp::new(b).item_count().ok()),
        "item_count_of_9" => each(transaction, times, |b| Rlp::new(b).item_count().ok()),
        "iterate_10000" => each(long_list, times, by_iter),
        "iterate_10000_numbers" => each(long_list, times, |b| numbers_by_iter(alloc, b)),
        "iterate_100_transactions" => each(inputs.block.as_slice(), times, by_iter),
        "payload_info" => each(
            long,
            times,
            |b| Some(Rlp::new(b).payload_info().ok()?.value_len),
        ),
        "kinds" => each(number, times, kinds),
        "data_and_size" => each(long, times, |b| {
            let view = Rlp::new(b);
            Some(view.data().ok()?.len().wrapping_add(view.size()))
        }),
        "keccak256_of_1000" => summed(times, |turn| {
            Some(hashed(inputs.text.as_str().as_bytes().get(turn % 2..)?))
        }),
        _ => None,
    }
}

/// Sums what an operation returns for one of the two encodings in the bytes. Each turn takes the
/// other one, so that a turn can't reuse the work of the turn before.
fn each<F: FnMut(&[u8]) -> Option<usize>>(bytes: &[u8], times: usize, mut read: F) -> Option<usize>
    requires { F.IsAlwaysCallable read }
{
    let half = bytes.len() / 2;
    let (mut encoding, mut other) = (bytes.get(..half)?, bytes.get(half..)?);
    let mut sum: usize = 0;
    for _ in 0..times {
        sum = sum.wrapping_add(read(encoding)?);
        std::mem::swap(&mut encoding, &mut other);
    }
    Some(sum)
}

fn number_in(alloc: Global, bytes: &[u8]) -> Option<usize> {
    Some(decode::<u64>(alloc, bytes).ok()? as usize)
}

#[inline(always)]
fn bytes_in(alloc: Global, bytes: &[u8]) -> Option<usize> {
    Some(decode::<Vec<u8>>(alloc, bytes).ok()?.len())
}

#[inline(always)]
fn text_in(alloc: Global, bytes: &[u8]) -> Option<usize> {
    Some(decode::<String>(alloc, bytes).ok()?.len())
}

fn hashed(bytes: &[u8]) -> usize {
    let [first, ..] = keccak256(bytes);
    usize::from(first)
}

pub(crate) fn by_iter(bytes: &[u8]) -> Option<usize> {
    let mut sum: usize = 0;
    for item in Rlp::new(bytes).iter() {
        sum = sum.wrapping_add(item.as_raw().len());
    }
    Some(sum)
}

#[inline(never)]
fn numbers_by_iter(alloc: Global, bytes: &[u8]) -> Option<usize> {
    let mut sum: usize = 0;
    for item in Rlp::new(bytes).iter() {
        sum = sum.wrapping_add(item.as_val::<u64>(alloc).ok()? as usize);
    }
    Some(sum)
}

fn by_at(bytes: &[u8], count: usize) -> Option<usize> {
    let list = Rlp::new(bytes);
    summed(count, |index| Some(list.at(index).ok()?.as_raw().len()))
}

/// Takes each of 200 items once, by steps of 77.
fn by_at_shuffled(bytes: &[u8]) -> Option<usize> {
    let list = Rlp::new(bytes);
    summed(
        200,
        |turn| Some(list.at(turn.wrapping_mul(77) % 200).ok()?.as_raw().len()),
    )
}

fn by_val_at(alloc: Global, bytes: &[u8], count: usize) -> Option<usize> {
    let list = Rlp::new(bytes);
    summed(
        count,
        |index| Some(list.val_at::<Vec<u8>>(alloc, index).ok()?.len()),
    )
}

fn by_fields(bytes: &[u8], count: usize) -> Option<usize> {
    let mut fields = Rlp::new(bytes).fields().ok()?;
    summed(count, |_| Some(fields.next_view().ok()?.as_raw().len()))
}

fn kinds(bytes: &[u8]) -> Option<usize> {
    let view = Rlp::new(bytes);
    let kinds = [
        view.is_list(),
        view.is_data(),
        view.is_int(),
        view.is_empty(),
        view.is_null(),
    ];
    let mut sum: usize = 0;
    for kind in kinds.as_slice() {
        sum = sum.wrapping_add(*kind as usize);
    }
    Some(sum)
}
