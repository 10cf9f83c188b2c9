//! The answers to the bytes of records, by their kinds.

ghost use Rattle.std.specs.{Prelude.{◌≡◌, ◌++◌, map, string_bytes, OnOk}, Vec.vec_items};
ghost use Rattle.rlp_reading.specs.Form.{list_reading, map_answer};
ghost use Rattle.rlp_records.specs.{KnownOrOther.any_alone, KnownOrOther.with_others, declared.known_or_other.KnownOrOther.KnownOrOther};
ghost use Rattle.rlp_node_record.specs.NodeLaws.{node_record};
ghost use Rattle.rlp_show.specs.Shown.{kind_shown, message_shown, shown_as, transaction_shown, whole};
ghost use Rattle.rlp_show.specs.{ItemDisplays.node_fields_display, Display.{a_list, seen_as, shown_of}, Value.Value, Answers.given_text};

use crate::given::Given;
use crate::kind::{Kind, MessageKind};
use crate::show::{Items, Show};
use crate::sink::Sink;
use rlp::{Decodable, DecodePlaced, DecoderError, PlacedFault, Rlp, decode_placed, put_list_path};
use rlp_blocks::{Block, Body};
use rlp_headers::{Account, Header, TypedReceipt, Withdrawal};
use rlp_messages::{
    BlockRangeUpdate, BlockReceipts, BlockReceipts69, GetBlockHeaders, NewBlock, NewBlockHash,
    NewPooledTransactionHashes, Status68, Status69, WithRequestId,
};
use rlp_node_record::NodeRecord;
use rlp_p2p::{Disconnect, Hello, Ping, Pong};
use rlp_pooled::PooledTransaction;
use rlp_records::{Eip2718, Hash, KnownOrOther};
use rlp_transactions::{
    AccessListItem, AnyTransaction, SignedAuthorization, Transaction, UnsignedTransaction,
};
use rlp_trie::TrieNode;
use std::alloc::{AllocError, Global};

/// A list of values.
#[derive(Drop)]
struct ListOf<T>(Vec<T>);

impl<T: Decodable> Decodable for ListOf<T> {
    ghost reading = { list_reading (λ l. vec_items l.0) T.reading };

    fn decode(alloc: Global, rlp: &Rlp<'_>) -> Result<ListOf<T>, DecoderError> {
        Ok(ListOf(rlp.as_list(alloc)?))
    }
}

impl<T: DecodePlaced> DecodePlaced for ListOf<T> {
    fn put_path(alloc: Global, rlp: &Rlp<'_>, path: &mut Vec<usize>) -> Result<(), AllocError> {
        put_list_path::<T>(alloc, rlp, path)
    }
}

impl<T: Show> Show for ListOf<T> {
    ghost display = { seen_as (λ l. map T.display.seen (vec_items l.0)) (a_list T.display.form) };

    fn show<S: Sink>(&self, alloc: Global, name: &str, sink: &mut S) -> Result<(), AllocError> {
        Items(&self.0).show(alloc, name, sink)
    }
}

/// A list after the number of a request.
type Numbered<T> = WithRequestId<ListOf<T>>;

/// Appends the answer to the bytes of a `T`.
fn put_record<T: DecodePlaced + Show>(given: &Given<'_>, out: &mut String) -> Result<(), AllocError>
    ensures { (shown : T.reading.M → Value)
        → ((x : T) → shown (T.reading.seen x) ≡ shown_of T.display x)
        → OnOk result (string_bytes out.new ≡ string_bytes out.old
        ++ given_text given.now (shown_as T.reading.read shown given.now.bytes.now)) }
{
    match decode_placed::<T>(given.alloc, &Rlp::new_strict(given.bytes)) {
        Ok(value) => given.put_value(&value, out),
        Err(fault) => given.put_fault(&fault, out),
    }
}

/// Appends the answer to the bytes of a standalone value, which are a list or an envelope.
fn put_alone<T: Eip2718>(given: &Given<'_>, out: &mut String) -> Result<(), AllocError>
where
    KnownOrOther<T>: Show,
    ensures { (shown : (with_others T.types).reading.M → Value)
        → ((x : KnownOrOther T) → shown ((with_others T.types).reading.seen x)
        ≡ shown_of ⟦<KnownOrOther<T> as Show>⟧.display x)
        → OnOk result (string_bytes out.new ≡ string_bytes out.old
        ++ given_text given.now (map_answer shown (any_alone T.types given.now.bytes.now))) }
{
    match KnownOrOther::<T>::from_bytes(given.alloc, given.bytes) {
        Ok(value) => given.put_value(&value, out),
        Err(fault) => {
            let mut path = Vec::new(given.alloc);
            KnownOrOther::<T>::put_path_alone(given.alloc, given.bytes, &mut path)?;
            given.put_fault(&PlacedFault { path, fault }, out)
        }
    }
}

/// Appends the answer to the bytes of a transaction, signed or not.
fn put_transaction(given: &Given<'_>, out: &mut String) -> Result<(), AllocError>
    ensures { OnOk result (string_bytes out.new ≡ string_bytes out.old
        ++ given_text given.now (transaction_shown given.now.bytes.now)) }
{
    match UnsignedTransaction::from_bytes(given.alloc, given.bytes) {
        Ok(transaction) => given.put_value(&transaction, out),
        Err(fault) => match fault {
            DecoderError::OutOfMemory => Err(AllocError),
            _ => put_alone::<Transaction>(given, out),
        },
    }
}

/// Appends the answer to the bytes of a node record.
fn put_node_record(given: &Given<'_>, out: &mut String) -> Result<(), AllocError>
    ensures { OnOk result (string_bytes out.new ≡ string_bytes out.old
        ++ given_text given.now (whole node_record node_fields_display given.now.bytes.now)) }
{
    match decode_placed::<NodeRecord>(given.alloc, &Rlp::new_strict(given.bytes)) {
        Ok(node) => given.put_value(node.fields(), out),
        Err(fault) => given.put_fault(&fault, out),
    }
}

/// Appends the answer to the bytes of a record.
pub(crate) fn put_known(given: &Given<'_>, out: &mut String) -> Result<(), AllocError>
    ensures { OnOk result (string_bytes out.new ≡ string_bytes out.old
        ++ given_text given.now (kind_shown given.now.kind given.now.bytes.now)) }
{
    match given.kind {
        Kind::AccessList => put_record::<ListOf<AccessListItem>>(given, out),
        Kind::Account => put_record::<Account>(given, out),
        Kind::Authorization => put_record::<SignedAuthorization>(given, out),
        Kind::Block => put_record::<Block>(given, out),
        Kind::Body => put_record::<Body>(given, out),
        Kind::Header => put_record::<Header>(given, out),
        Kind::Node => put_record::<TrieNode>(given, out),
        Kind::Receipt => put_alone::<TypedReceipt>(given, out),
        Kind::NodeRecord => put_node_record(given, out),
        Kind::Transaction => put_transaction(given, out),
        Kind::Withdrawal => put_record::<Withdrawal>(given, out),
        Kind::Message(kind) => put_message(kind, given, out),
    }
}

/// Appends the answer to the bytes of a message.
fn put_message(kind: MessageKind, given: &Given<'_>, out: &mut String) -> Result<(), AllocError>
    ensures { OnOk result (string_bytes out.new ≡ string_bytes out.old
        ++ given_text given.now (message_shown kind given.now.bytes.now)) }
{
    match kind {
        MessageKind::Hello => put_record::<Hello>(given, out),
        MessageKind::Disconnect => put_record::<Disconnect>(given, out),
        MessageKind::Ping => put_record::<Ping>(given, out),
        MessageKind::Pong => put_record::<Pong>(given, out),
        MessageKind::Status68 => put_record::<Status68>(given, out),
        MessageKind::Status69 => put_record::<Status69>(given, out),
        MessageKind::NewBlockHashes => put_record::<ListOf<NewBlockHash>>(given, out),
        MessageKind::Transactions => put_record::<ListOf<AnyTransaction>>(given, out),
        MessageKind::NewBlock => put_record::<NewBlock>(given, out),
        MessageKind::NewPooledTransactionHashes => {
            put_record::<NewPooledTransactionHashes>(given, out)
        }
        MessageKind::BlockRangeUpdate => put_record::<BlockRangeUpdate>(given, out),
        MessageKind::GetBlockHeaders => put_record::<WithRequestId<GetBlockHeaders>>(given, out),
        MessageKind::BlockHeaders => put_record::<Numbered<Header>>(given, out),
        MessageKind::GetBlockBodies => put_record::<Numbered<Hash>>(given, out),
        MessageKind::GetPooledTransactions => put_record::<Numbered<Hash>>(given, out),
        MessageKind::GetReceipts => put_record::<Numbered<Hash>>(given, out),
        MessageKind::BlockBodies => put_record::<Numbered<Body>>(given, out),
        MessageKind::PooledTransactions => put_record::<Numbered<PooledTransaction>>(given, out),
        MessageKind::Receipts68 => put_record::<Numbered<BlockReceipts>>(given, out),
        MessageKind::Receipts69 => put_record::<Numbered<BlockReceipts69>>(given, out),
    }
}
