//! The blocks of a day, with their receipts and with nodes of the trie: each is read strictly, written
//! again and compared.

use rlp::{StrictRead, decode_list_whole, encode, encode_list};
use rlp_blocks::Block;
use rlp_headers::TypedReceipt;
use rlp_lines::read_bytes;
use rlp_records::Hash;
use rlp_trie::TrieNode;
use std::alloc::Global;
use std::io::{BufRead, BufReader, Read};

/// The most bytes of one read.
const AT_ONCE: usize = 65_536;

/// How many records were read.
#[derive(Default, Drop)]
pub(crate) struct Sums {
    pub blocks: usize,
    pub transactions: usize,
    pub receipts: usize,
    pub logs: usize,
    pub nodes: usize,
    /// The bytes of all encodings.
    pub bytes: usize,
    /// The sum of the first bytes of the hashes of the headers and of the transactions.
    pub hashes: usize,
}

/// Reads the lines of an input, one after another into the same buffer. Returns `None` if a line is at
/// fault, if reading fails or if memory is refused.
pub(crate) fn run<R: Read + Drop>(alloc: Global, input: R) -> Option<Sums> {
    let mut lines = BufReader::with_capacity(alloc, AT_ONCE, input).ok()?;
    let mut line = Vec::new(alloc);
    let mut sums = Sums::default();
    for _ in 0..usize::MAX {
        line.clear();
        if lines.read_until(b'\n', &mut line).ok()? == 0 {
            break;
        }
        sums.add_line(alloc, line.as_slice())?;
    }
    Some(sums)
}

impl Sums {
    /// Reads a line: a letter, a space, and the digits of a block, of the list of its receipts, or of
    /// a list of nodes.
    fn add_line(&mut self, alloc: Global, line: &[u8]) -> Option<()> {
        let [kind, b' ', digits @ .., b'\n'] = line else {
            return None;
        };
        let bytes = read_bytes(alloc, digits).ok()??;
        self.bytes = self.bytes.wrapping_add(bytes.len());
        match *kind {
            b'b' => self.add_block(alloc, bytes.as_slice()),
            b'r' => self.add_receipts(alloc, bytes.as_slice()),
            b'n' => self.add_nodes(alloc, bytes.as_slice()),
            _ => None,
        }
    }

    /// Reads and writes a block, and takes the hashes of its header and of its transactions.
    fn add_block(&mut self, alloc: Global, bytes: &[u8]) -> Option<()> {
        let (block, hashes) = Block::decode_with_hashes(alloc, bytes).ok()?;
        if encode(alloc, &block).ok()?.as_slice() != bytes {
            return None;
        }
        self.blocks = self.blocks.wrapping_add(1);
        self.add_hash(&hashes.header);
        for hash in hashes.transactions.iter() {
            self.transactions = self.transactions.wrapping_add(1);
            self.add_hash(hash);
        }
        Some(())
    }

    fn add_hash(&mut self, hash: &Hash) {
        self.hashes = self.hashes.wrapping_add(usize::from(hash.0[0]));
    }

    fn add_receipts(&mut self, alloc: Global, bytes: &[u8]) -> Option<()> {
        let receipts = read_and_written::<TypedReceipt>(alloc, bytes)?;
        for receipt in receipts.iter() {
            self.receipts = self.receipts.wrapping_add(1);
            self.logs = self.logs.wrapping_add(logs_of(receipt));
        }
        Some(())
    }

    fn add_nodes(&mut self, alloc: Global, bytes: &[u8]) -> Option<()> {
        let nodes = read_and_written::<TrieNode>(alloc, bytes)?;
        self.nodes = self.nodes.wrapping_add(nodes.len());
        Some(())
    }
}

/// Reads a list strictly, and returns its values if they are written as the same bytes.
fn read_and_written<T: StrictRead>(alloc: Global, bytes: &[u8]) -> Option<Vec<T>> {
    let values = decode_list_whole::<T>(alloc, bytes).ok()?;
    if encode_list(alloc, values.as_slice()).ok()?.as_slice() != bytes {
        return None;
    }
    Some(values)
}

/// The number of logs of a receipt.
fn logs_of(receipt: &TypedReceipt) -> usize {
    match receipt {
        TypedReceipt::Legacy(receipt)
        | TypedReceipt::AccessList(receipt)
        | TypedReceipt::FeeMarket(receipt)
        | TypedReceipt::Blob(receipt)
        | TypedReceipt::SetCode(receipt) => receipt.logs.len(),
    }
}
