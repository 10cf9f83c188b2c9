//! Blocks, their headers and their bodies.

ghost use Rattle.std.specs.Prelude.{◌≡◌, IfOk, map};
ghost use Rattle.rlp_headers.specs.{Forks.{amsterdam_fields, cancun_fields, london_fields, prague_fields, shanghai_fields}, Header.header};
ghost use Rattle.rlp_blocks.specs.Block.{block, body};
ghost use Rattle.rlp_show.specs.Blocks.{amsterdam_display, block_display, block_size, body_fields_display, cancun_display, hashed_header_display, header_display, london_display, more_of_block, prague_display, seen_hash, shanghai_display};
ghost use Rattle.rlp_show.specs.Display.{an_object, seen_as};

use crate::records::{hash_of, written};
use crate::show::{ByForm, Items, Object, Show, ShowFields, fields, give_fields, show_fields};
use crate::sink::{BytesKind, Shown, Sink};
use rlp_blocks::{Block, Body};
use rlp_headers::{Amsterdam, Cancun, Header, London, Prague, Shanghai};
use std::alloc::{AllocError, Global};

impl ShowFields for Amsterdam {
    ghost fields = { seen_as amsterdam_fields.reading.seen amsterdam_display };

    fn give<S: Sink>(&self, alloc: Global, name: &str, sink: &mut S) -> Result<(), AllocError> {
        give_fields!(alloc, name, sink;
            self.block_access_list_hash; "slot_number" ? &self.slot_number
        )
    }
}

impl ShowFields for Prague {
    ghost fields = { seen_as prague_fields.reading.seen prague_display };

    fn give<S: Sink>(&self, alloc: Global, name: &str, sink: &mut S) -> Result<(), AllocError> {
        give_fields!(alloc, name, sink; self.requests_hash; &self.since_amsterdam)
    }
}

impl ShowFields for Cancun {
    ghost fields = { seen_as cancun_fields.reading.seen cancun_display };

    fn give<S: Sink>(&self, alloc: Global, name: &str, sink: &mut S) -> Result<(), AllocError> {
        give_fields!(alloc, name, sink;
            self.blob_gas_used; self.excess_blob_gas; self.parent_beacon_block_root;
            &self.since_prague
        )
    }
}

impl ShowFields for Shanghai {
    ghost fields = { seen_as shanghai_fields.reading.seen shanghai_display };

    fn give<S: Sink>(&self, alloc: Global, name: &str, sink: &mut S) -> Result<(), AllocError> {
        give_fields!(alloc, name, sink; self.withdrawals_root; &self.since_cancun)
    }
}

impl ShowFields for London {
    ghost fields = { seen_as london_fields.reading.seen london_display };

    fn give<S: Sink>(&self, alloc: Global, name: &str, sink: &mut S) -> Result<(), AllocError> {
        give_fields!(alloc, name, sink; self.base_fee_per_gas; &self.since_shanghai)
    }
}

/// The hash of the header, and its fields.
impl ShowFields for Header {
    ghost fields = { seen_as header.reading.seen hashed_header_display };

    fn give<S: Sink>(&self, alloc: Global, name: &str, sink: &mut S) -> Result<(), AllocError> {
        let hash = hash_of(alloc, self)?;
        give_fields!(alloc, name, sink;
            "hash" &hash; self.parent_hash; self.ommers_hash "sha3Uncles"; self.beneficiary "miner";
            self.state_root; self.transactions_root; self.receipts_root;
            "logs_bloom" Shown::Bytes(BytesKind::Sparse, &self.logs_bloom.0); self.difficulty;
            self.number; self.gas_limit; self.gas_used; self.timestamp; self.extra_data;
            self.mix_hash; self.nonce; &self.since_london
        )
    }
}

impl Show for Header {
    ghost display = { seen_as header.reading.seen header_display };

    #[tactic(auto, unfolding(crate::specs::Blocks::header_display))]
    fn show<S: Sink>(&self, alloc: Global, name: &str, sink: &mut S) -> Result<(), AllocError> {
        Object(self).show(alloc, name, sink)
    }
}

impl Show for Body {
    ghost display = { seen_as body.reading.seen (an_object body_fields_display) };

    #[tactic(auto, unfolding(crate::specs::Blocks::body_fields_display))]
    fn show<S: Sink>(&self, alloc: Global, name: &str, sink: &mut S) -> Result<(), AllocError> {
        show_fields!(alloc, name, sink;
            "transactions" Items(&self.transactions); "ommers" Items(&self.ommers);
            "withdrawals" ? &self.withdrawals
        )
    }
}

/// Returns the hash of a header.
#[tactic(auto, unfolding(crate::specs::Blocks::seen_hash))]
fn header_hash(alloc: Global, whole: &Header) -> Result<[u8; 32], AllocError>
    ensures { IfOk result (λ h. h ≡ seen_hash whole.now) }
{
    hash_of(alloc, whole)
}

/// Returns the hashes of headers.
fn hashes_of(alloc: Global, headers: &[Header]) -> Result<Vec<[u8; 32]>, AllocError>
    ensures { IfOk result (λ hs. hs.items ≡ map seen_hash headers.now) }
{
    let mut hashes = Vec::new(alloc);
    let mut rest = headers;
    while let [first, others @ ..] = rest {
        hashes.push(header_hash(alloc, first)?)?;
        rest = others;
    }
    Ok(hashes)
}

/// Returns the number of bytes of a block.
#[tactic(auto, unfolding(crate::specs::Blocks::block_size))]
fn size_of(alloc: Global, whole: &Block) -> Result<u64, AllocError>
    ensures { IfOk result (λ n. n ≡ block_size (block.reading.seen whole.now)) }
{
    let bytes = written(alloc, whole)?;
    Ok(bytes.len() as u64)
}

/// What JSON has of a block besides its fields.
#[derive(Clone, Copy)]
struct More<'a>(&'a Block);

impl ShowFields for More<'_> {
    ghost fields = { seen_as (λ b. block.reading.seen b.0.now) more_of_block };

    #[tactic(auto, using(crate::proofs::Hashes::hashes_seen))]
    fn give<S: Sink>(&self, alloc: Global, name: &str, sink: &mut S) -> Result<(), AllocError> {
        let uncles = hashes_of(alloc, self.0.ommers.as_slice())?;
        let size = size_of(alloc, self.0)?;
        give_fields!(alloc, name, sink; "uncles" Items(&uncles); "size" &size)
    }
}

impl Show for Block {
    ghost display = { seen_as block.reading.seen block_display };

    #[tactic(auto, unfolding(crate::specs::Blocks::block_display, crate::specs::Blocks::body_fields_display))]
    fn show<S: Sink>(&self, alloc: Global, name: &str, sink: &mut S) -> Result<(), AllocError> {
        show_fields!(alloc, name, sink;
            ByForm(fields!("header" &self.header), &self.header);
            fields!(
                "transactions" Items(&self.transactions);
                "ommers" Items(&self.ommers);
                "withdrawals" ? &self.withdrawals
            );
            ByForm((), More(self))
        )
    }
}
