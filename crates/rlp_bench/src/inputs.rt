//! The inputs of the operations.

use rlp::{Encodable, RlpStream, Uint};
use rlp_records::Address;
use rlp_transactions::{LegacyTransaction, NonZeroScalar, Recipient, SignedLegacyTransaction};
use std::alloc::{AllocError, Global};

/// Values, and encodings. Each encoding is there twice, one after the other.
#[derive(Drop)]
pub(crate) struct Inputs {
    /// Numbers of one to eight bytes.
    pub numbers: Vec<u64>,
    /// A text of 1,000 bytes.
    pub text: String,
    /// A transaction whose encoding has 110 bytes.
    pub transaction: SignedLegacyTransaction,
    /// The encodings of a number below 128 and of a number of eight bytes.
    pub small_number: Vec<u8>,
    pub large_number: Vec<u8>,
    /// The encodings of strings of 32 and of 1,000 bytes.
    pub short_string: Vec<u8>,
    pub long_string: Vec<u8>,
    /// The encodings of the transaction and of a list of 100 transactions.
    pub transaction_bytes: Vec<u8>,
    pub block: Vec<u8>,
    /// The encoding of a header of 21 fields, as blocks have since Prague.
    pub header: Vec<u8>,
    /// The encodings of the list of the numbers and of a list of 10,000 small items.
    pub list: Vec<u8>,
    pub long_list: Vec<u8>,
    /// The encoding of a list of seventeen strings of 32 bytes, such as a branch of the trie.
    pub branch: Vec<u8>,
    /// The encoding of a list of 200 strings of 32 bytes.
    pub hashes: Vec<u8>,
}

impl Inputs {
    /// Returns the inputs, which are the same each time, or `None` if memory is refused.
    pub(crate) fn new(alloc: Global) -> Option<Inputs> {
        let numbers = numbers(alloc, 1000)?;
        let text = text(alloc, 1000)?;
        let short = text.as_str().as_bytes().get(..32)?;
        let transaction = transaction(alloc)?;
        let transaction_bytes = encoded(alloc, &transaction)?;
        let block = repeated(alloc, &transaction, 100)?;
        let list = listed(alloc, numbers.as_slice())?;
        Some(Inputs {
            small_number: encoded(alloc, &5u64)?,
            large_number: encoded(alloc, &0x0123_4567_89ab_cdefu64)?,
            short_string: encoded(alloc, &short)?,
            long_string: encoded(alloc, &text)?,
            long_list: repeated(alloc, &300u64, 10_000)?,
            branch: repeated(alloc, &short, 17)?,
            hashes: repeated(alloc, &short, 200)?,
            numbers,
            text,
            transaction,
            transaction_bytes,
            block,
            header: twice(alloc, header(alloc).ok()?.as_raw())?,
            list,
        })
    }
}

/// Returns `count` numbers of one to eight bytes.
fn numbers(alloc: Global, count: usize) -> Option<Vec<u64>> {
    let mut numbers = Vec::new(alloc);
    let mut state: u64 = 1;
    for turn in 0..count {
        state = state
            .wrapping_mul(6_364_136_223_846_793_005)
            .wrapping_add(1_442_695_040_888_963_407);
        numbers.push(state >> (8 * (turn % 8) as u32)).ok()?;
    }
    Some(numbers)
}

/// Returns a text of this length.
fn text(alloc: Global, len: usize) -> Option<String> {
    let mut text = String::new(alloc);
    for turn in 0..len {
        text.push((b'a' + (turn % 26) as u8) as char).ok()?;
    }
    Some(text)
}

/// Returns a signed transfer, or `None` if a number of its signature is out of range.
fn transaction(alloc: Global) -> Option<SignedLegacyTransaction> {
    let payload = LegacyTransaction {
        nonce: 9,
        gas_price: Uint::from(20_000_000_000),
        gas_limit: 21_000,
        to: Recipient::Account(Address([0x35; 20])),
        value: Uint::from(1_000_000_000_000_000_000),
        data: Vec::new(alloc),
    };
    let r = NonZeroScalar::new(Uint { bytes: [0x28; 32] })?;
    let s = NonZeroScalar::new(Uint { bytes: [0x67; 32] })?;
    Some(payload.with_signature(Uint::from(37), r, s))
}

/// Returns a stream with a header of 21 fields.
fn header(alloc: Global) -> Result<RlpStream, AllocError> {
    let hash = [0x35u8; 32];
    let mut s = RlpStream::new_list(alloc, 21)?;
    s.append(&hash)?.append(&hash)?.append(&[0x35u8; 20])?;
    s.append(&hash)?.append(&hash)?.append(&hash)?;
    s.append(&[0u8; 256])?.append_empty_data()?;
    s.append(&22_431_084u64)?.append(&36_000_000u64)?;
    s.append(&17_000_000u64)?.append(&1_746_612_311u64)?;
    s.append(&"extra data")?.append(&hash)?.append(&[0u8; 8])?;
    s.append(&537_000_000u64)?.append(&hash)?;
    s.append(&786_432u64)?.append(&917_504u64)?;
    s.append(&hash)?.append(&hash)?;
    Ok(s)
}

/// Returns the encoding of a value.
fn encoded<E: Encodable>(alloc: Global, value: &E) -> Option<Vec<u8>> {
    let bytes = rlp::encode(alloc, value).ok()?;
    twice(alloc, bytes.as_slice())
}

/// Returns the encoding of a list of values.
fn listed<E: Encodable>(alloc: Global, values: &[E]) -> Option<Vec<u8>> {
    let bytes = rlp::encode_list(alloc, values).ok()?;
    twice(alloc, bytes.as_slice())
}

/// Returns the encoding of a list that holds one value `count` times.
fn repeated<E: Encodable>(alloc: Global, value: &E, count: usize) -> Option<Vec<u8>> {
    let mut stream = RlpStream::new_list(alloc, count).ok()?;
    for _ in 0..count {
        stream.append(value).ok()?;
    }
    twice(alloc, stream.as_raw())
}

/// Returns the bytes twice, one after the other.
fn twice(alloc: Global, bytes: &[u8]) -> Option<Vec<u8>> {
    let mut both = Vec::from_slice(alloc, bytes).ok()?;
    both.extend_from_slice(bytes).ok()?;
    Some(both)
}
