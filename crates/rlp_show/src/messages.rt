//! Messages between clients: bodies of messages of `eth`, and messages of `p2p`.

ghost use Rattle.std.specs.{Prelude.map, Vec.vec_items};
ghost use Rattle.rlp_messages.specs.{Eth.Announcements.{block_range_update, new_block, new_block_hash, new_pooled_transaction_hashes}, Eth.HashOrNumberLaws.hash_or_number};
ghost use Rattle.rlp_messages.specs.{Eth.Receipts.{block_receipts, block_receipts69, receipt69}, Eth.Requests.get_block_headers, Eth.Status.{fork_id, status68, status69}};
ghost use Rattle.rlp_p2p.specs.{Disconnect.disconnect, Hello.{capability, further_fields, hello}};
ghost use Rattle.rlp_show.specs.{Display.{a_list, an_object, end, seen_as}, Records.any_receipt_display};
ghost use Rattle.rlp_show.specs.Messages as shown;

use crate::show::{Items, Object, Show, ShowFields, give_fields, show_fields};
use crate::sink::{BytesKind, Shown, Sink, bytes, number};
use rlp_messages::{
    BlockRangeUpdate, BlockReceipts, BlockReceipts69, ForkId, GetBlockHeaders, HashOrNumber,
    NewBlock, NewBlockHash, NewPooledTransactionHashes, Receipt69, Status68, Status69,
    WithRequestId,
};
use rlp_p2p::{Capability, Disconnect, FurtherItem, Hello, Ping, Pong};
use std::alloc::{AllocError, Global};

impl Show for ForkId {
    ghost display = { seen_as fork_id.reading.seen shown.fork_id_display };

    fn show<S: Sink>(&self, alloc: Global, name: &str, sink: &mut S) -> Result<(), AllocError> {
        show_fields!(alloc, name, sink; "fork_hash" &self.fork_hash.0; self.fork_next;)
    }
}

impl Show for Status68 {
    ghost display = { seen_as status68.reading.seen shown.status68_display };

    #[tactic(auto, unfolding(crate::specs::Messages::status68_display))]
    fn show<S: Sink>(&self, alloc: Global, name: &str, sink: &mut S) -> Result<(), AllocError> {
        show_fields!(alloc, name, sink;
            self.version; self.network_id; self.total_difficulty; self.block_hash;
            self.genesis_hash; self.fork_id;
        )
    }
}

impl Show for Status69 {
    ghost display = { seen_as status69.reading.seen shown.status69_display };

    #[tactic(auto, unfolding(crate::specs::Messages::status69_display, crate::specs::Messages::range_display))]
    fn show<S: Sink>(&self, alloc: Global, name: &str, sink: &mut S) -> Result<(), AllocError> {
        show_fields!(alloc, name, sink;
            self.version; self.network_id; self.genesis_hash; self.fork_id; self.earliest_block;
            self.latest_block; self.latest_block_hash;
        )
    }
}

impl Show for BlockRangeUpdate {
    ghost display = { seen_as block_range_update.reading.seen (an_object shown.range_display) };

    #[tactic(auto, unfolding(crate::specs::Messages::range_display))]
    fn show<S: Sink>(&self, alloc: Global, name: &str, sink: &mut S) -> Result<(), AllocError> {
        show_fields!(alloc, name, sink;
            self.earliest_block; self.latest_block; self.latest_block_hash;
        )
    }
}

impl Show for NewBlockHash {
    ghost display = { seen_as new_block_hash.reading.seen shown.new_block_hash_display };

    #[tactic(auto, unfolding(crate::specs::Messages::new_block_hash_display))]
    fn show<S: Sink>(&self, alloc: Global, name: &str, sink: &mut S) -> Result<(), AllocError> {
        show_fields!(alloc, name, sink; self.hash; self.number;)
    }
}

impl Show for NewPooledTransactionHashes {
    ghost display = { seen_as new_pooled_transaction_hashes.reading.seen
        shown.new_pooled_transaction_hashes_display };

    #[tactic(auto, unfolding(crate::specs::Messages::new_pooled_transaction_hashes_display))]
    fn show<S: Sink>(&self, alloc: Global, name: &str, sink: &mut S) -> Result<(), AllocError> {
        show_fields!(alloc, name, sink;
            self.types; "sizes" Items(&self.sizes); "hashes" Items(&self.hashes);
        )
    }
}

impl Show for NewBlock {
    ghost display = { seen_as new_block.reading.seen shown.new_block_display };

    #[tactic(auto, unfolding(crate::specs::Messages::new_block_display))]
    fn show<S: Sink>(&self, alloc: Global, name: &str, sink: &mut S) -> Result<(), AllocError> {
        show_fields!(alloc, name, sink; self.block; self.total_difficulty;)
    }
}

impl<T: Show> Show for WithRequestId<T> {
    ghost display = { seen_as (λ w. (w.request_id, T.display.seen w.content))
        (shown.with_request_id_display T.display.form) };

    fn show<S: Sink>(&self, alloc: Global, name: &str, sink: &mut S) -> Result<(), AllocError> {
        show_fields!(alloc, name, sink; self.request_id; self.content)
    }
}

impl Show for HashOrNumber {
    ghost display = { seen_as hash_or_number.reading.seen shown.hash_or_number_display };

    fn show<S: Sink>(&self, _alloc: Global, name: &str, sink: &mut S) -> Result<(), AllocError> {
        match self {
            HashOrNumber::Hash(hash) => sink.put(name, bytes(&hash.0)),
            HashOrNumber::Number(n) => sink.put(name, number(*n)),
        }
    }
}

impl Show for GetBlockHeaders {
    ghost display = { seen_as get_block_headers.reading.seen shown.get_block_headers_display };

    #[tactic(auto, unfolding(crate::specs::Messages::get_block_headers_display))]
    fn show<S: Sink>(&self, alloc: Global, name: &str, sink: &mut S) -> Result<(), AllocError> {
        show_fields!(alloc, name, sink;
            self.start_block; self.limit; self.skip; "reverse" number(self.reverse as u64);
        )
    }
}

impl Show for BlockReceipts {
    ghost display = { seen_as block_receipts.reading.seen (a_list any_receipt_display) };

    fn show<S: Sink>(&self, alloc: Global, name: &str, sink: &mut S) -> Result<(), AllocError> {
        Items(&self.0).show(alloc, name, sink)
    }
}

impl Show for Receipt69 {
    ghost display = { seen_as receipt69.reading.seen shown.receipt69_display };

    fn show<S: Sink>(&self, alloc: Global, name: &str, sink: &mut S) -> Result<(), AllocError> {
        let kind = number(self.transaction_type as u64);
        show_fields!(alloc, name, sink;
            "transaction_type" kind; &self.status_or_state_root; self.cumulative_gas_used;
            "logs" Items(&self.logs);
        )
    }
}

impl Show for BlockReceipts69 {
    ghost display = { seen_as block_receipts69.reading.seen (a_list shown.receipt69_display) };

    fn show<S: Sink>(&self, alloc: Global, name: &str, sink: &mut S) -> Result<(), AllocError> {
        Items(&self.0).show(alloc, name, sink)
    }
}

/// An object without fields.
impl Show for Ping {
    ghost display = { seen_as (λ x. x) (an_object end) };

    fn show<S: Sink>(&self, alloc: Global, name: &str, sink: &mut S) -> Result<(), AllocError> {
        Object(&()).show(alloc, name, sink)
    }
}

/// An object without fields.
impl Show for Pong {
    ghost display = { seen_as (λ x. x) (an_object end) };

    fn show<S: Sink>(&self, alloc: Global, name: &str, sink: &mut S) -> Result<(), AllocError> {
        Object(&()).show(alloc, name, sink)
    }
}

/// The reason, if there is one, whichever form the message has.
impl Show for Disconnect {
    ghost display = { seen_as disconnect.reading.seen shown.disconnect_display };

    #[tactic(auto, unfolding(crate::specs::Messages::disconnect_display))]
    fn show<S: Sink>(&self, alloc: Global, name: &str, sink: &mut S) -> Result<(), AllocError> {
        let reason = match self.reason() {
            Some(reason) => Some(number(u64::from(reason.number()))),
            None => None,
        };
        show_fields!(alloc, name, sink; "reason" ? &reason)
    }
}

impl Show for Capability {
    ghost display = { seen_as capability.reading.seen shown.capability_display };

    fn show<S: Sink>(&self, alloc: Global, name: &str, sink: &mut S) -> Result<(), AllocError> {
        show_fields!(alloc, name, sink;
            "name" Shown::Bytes(BytesKind::Word, self.name.as_slice()); self.version;
        )
    }
}

impl Show for FurtherItem {
    ghost display = { seen_as further_fields.reading.seen shown.further_item_display };

    fn show<S: Sink>(&self, alloc: Global, name: &str, sink: &mut S) -> Result<(), AllocError> {
        self.item.show(alloc, name, sink)
    }
}

/// The items after the fields of a greeting, if any follow.
#[derive(Clone, Copy)]
struct Further<'a>(&'a Vec<FurtherItem>);

impl ShowFields for Further<'_> {
    ghost fields = { seen_as (λ f. map further_fields.reading.seen (vec_items f.0.now))
        shown.further_display };

    fn give<S: Sink>(&self, alloc: Global, name: &str, sink: &mut S) -> Result<(), AllocError> {
        match self.0.as_slice() {
            [] => Ok(()),
            [_, ..] => give_fields!(alloc, name, sink; "further" Items(self.0);),
        }
    }
}

impl Show for Hello {
    ghost display = { seen_as hello.reading.seen shown.hello_display };

    #[tactic(auto, unfolding(crate::specs::Messages::hello_display))]
    fn show<S: Sink>(&self, alloc: Global, name: &str, sink: &mut S) -> Result<(), AllocError> {
        show_fields!(alloc, name, sink;
            self.protocol_version; self.client_id; "capabilities" Items(&self.capabilities);
            self.listen_port; "node_id" &self.node_id.0; Further(&self.further)
        )
    }
}
