//! The names of the parts of records, by the path to a part.

ghost use Rattle.std.specs.Prelude.{◌≡◌, IfOk, OnOk, map, string_bytes};
ghost use Rattle.rlp_show.specs.Names.{content, envelope, field_of, fields, in_field, in_list, in_part, is_list, item_in, kind_part, naming, node_kind, opened, payload, pooled_kind, transaction_kind};

use crate::kind::{Kind, MessageKind};
use crate::show::{put_inside, put_place};
use rlp::Rlp;
use rlp_trie::ends_in_leaf;
use std::alloc::AllocError;

/// Records whose parts have names. The parts of any other item have no names.
#[derive(Clone, Copy)]
pub enum Record {
    Other,
    Kind(Kind),
    AccessListItem,
    Branch,
    Capability,
    Extension,
    ForkId,
    HeadersAsked,
    Leaf,
    Log,
    NewBlockHash,
    NodePair,
    Pooled,
    Receipt69,
    ReceiptPayload,
    // Transactions without a type, and the payloads of the types: type 3 is sent with proofs.
    Legacy,
    AccessList,
    FeeMarket,
    Blob,
    SetCode,
    WithProofs,
    WithCellProofs,
}

/// What has parts: a record, a list of records, a list of such lists, or the keys and values of a
/// node record in turn.
#[derive(Clone, Copy)]
pub enum Part {
    One(Record),
    List(Record),
    Lists(Record),
    Pairs,
}

/// The fields of a record, in order: their names, and what they are.
type Fields = &'static [(&'static str, Part)];

/// What a field is: a record, a list, or else an item whose parts have no names.
macro_rules! part {
    () => {
        Part::One(Record::Other)
    };
    (Pairs) => {
        Part::Pairs
    };
    ($form:ident Kind $kind:ident) => {
        Part::$form(Record::Kind(Kind::$kind))
    };
    ($form:ident $record:ident) => {
        Part::$form(Record::$record)
    };
}

/// Fields with their names.
macro_rules! fields {
    ($($name:literal $($part:ident)*);*) => {
        &[$(($name, part!($($part)*))),*]
    };
}

const ACCESS_LIST_ITEM: Fields = fields!("address"; "storage_keys" List Other);

const ACCOUNT: Fields = fields!("nonce"; "balance"; "storage_root"; "code_hash");

const AUTHORIZATION: Fields = fields!("chain_id"; "address"; "nonce"; "y_parity"; "r"; "s");

const BLOCK: Fields = fields!(
    "header" One Kind Header; "transactions" List Kind Transaction; "ommers" List Kind Header;
    "withdrawals" List Kind Withdrawal
);

const BLOCK_RANGE: Fields = fields!("earliest_block"; "latest_block"; "latest_block_hash");

const BODY: Fields = fields!(
    "transactions" List Kind Transaction; "ommers" List Kind Header;
    "withdrawals" List Kind Withdrawal
);

const BRANCH: Fields = fields!("children" List Other; "value");

const CAPABILITY: Fields = fields!("name"; "version");

const DISCONNECT: Fields = fields!("reason");

const EXTENSION: Fields = fields!("path"; "child");

const FORK_ID: Fields = fields!("fork_hash"; "fork_next");

const HEADERS_ASKED: Fields = fields!("start_block"; "limit"; "skip"; "reverse");

const HEADER: Fields = fields!(
    "parent_hash"; "ommers_hash"; "beneficiary"; "state_root"; "transactions_root";
    "receipts_root"; "logs_bloom"; "difficulty"; "number"; "gas_limit"; "gas_used"; "timestamp";
    "extra_data"; "mix_hash"; "nonce"; "base_fee_per_gas"; "withdrawals_root"; "blob_gas_used";
    "excess_blob_gas"; "parent_beacon_block_root"; "requests_hash"; "block_access_list_hash";
    "slot_number"
);

const HELLO: Fields = fields!(
    "protocol_version"; "client_id"; "capabilities" List Capability; "listen_port"; "node_id";
    "further" List Other
);

const LEAF: Fields = fields!("path"; "value");

const LOG: Fields = fields!("address"; "topics" List Other; "data");

const NEW_BLOCK: Fields = fields!("block" One Kind Block; "total_difficulty");

const NEW_BLOCK_HASH: Fields = fields!("hash"; "number");

const NEW_POOLED_HASHES: Fields = fields!("types"; "sizes" List Other; "hashes" List Other);

const NODE_PAIR: Fields = fields!("key"; "value");

const NODE_RECORD: Fields = fields!("signature"; "sequence"; "pairs" Pairs);

const RECEIPT69: Fields =
    fields!("transaction_type"; "status_or_state_root"; "cumulative_gas_used"; "logs" List Log);

const STATUS68: Fields = fields!(
    "version"; "network_id"; "total_difficulty"; "block_hash"; "genesis_hash"; "fork_id" One ForkId
);

const STATUS69: Fields = fields!(
    "version"; "network_id"; "genesis_hash"; "fork_id" One ForkId; "earliest_block";
    "latest_block"; "latest_block_hash"
);

const WITHDRAWAL: Fields = fields!("index"; "validator_index"; "address"; "amount");

const RECEIPT: Fields =
    fields!("status_or_state_root"; "cumulative_gas_used"; "logs_bloom"; "logs" List Log);

const LEGACY: Fields =
    fields!("nonce"; "gas_price"; "gas_limit"; "to"; "value"; "data"; "v"; "r"; "s");

const ACCESS_LIST: Fields = fields!(
    "chain_id"; "nonce"; "gas_price"; "gas_limit"; "to"; "value"; "data";
    "access_list" List AccessListItem; "y_parity"; "r"; "s"
);

const FEE_MARKET: Fields = fields!(
    "chain_id"; "nonce"; "max_priority_fee_per_gas"; "max_fee_per_gas"; "gas_limit"; "to"; "value";
    "data"; "access_list" List AccessListItem; "y_parity"; "r"; "s"
);

const BLOB: Fields = fields!(
    "chain_id"; "nonce"; "max_priority_fee_per_gas"; "max_fee_per_gas"; "gas_limit"; "to"; "value";
    "data"; "access_list" List AccessListItem; "max_fee_per_blob_gas";
    "blob_versioned_hashes" List Other; "y_parity"; "r"; "s"
);

const SET_CODE: Fields = fields!(
    "chain_id"; "nonce"; "max_priority_fee_per_gas"; "max_fee_per_gas"; "gas_limit"; "destination";
    "value"; "data"; "access_list" List AccessListItem;
    "authorization_list" List Kind Authorization; "y_parity"; "r"; "s"
);

const WITH_PROOFS: Fields = fields!(
    "transaction" One Blob; "blobs" List Other; "commitments" List Other; "proofs" List Other
);

const WITH_CELL_PROOFS: Fields = fields!(
    "transaction" One Blob; "wrapper_version"; "blobs" List Other; "commitments" List Other;
    "cell_proofs" List Other
);

const GET_BLOCK_HEADERS: Fields = fields!("request_id"; "content" One HeadersAsked);

const GET_HASHED: Fields = fields!("request_id"; "content" List Other);

const BLOCK_BODIES: Fields = fields!("request_id"; "content" List Kind Body);

const BLOCK_HEADERS: Fields = fields!("request_id"; "content" List Kind Header);

const RECEIPTS68: Fields = fields!("request_id"; "content" Lists Kind Receipt);

const RECEIPTS69: Fields = fields!("request_id"; "content" Lists Receipt69);

const POOLED_TRANSACTIONS: Fields = fields!("request_id"; "content" List Pooled);

impl Record {
    /// Returns the fields of the record, in order. The fields of a node, a receipt and a transaction
    /// depend on the bytes.
    fn fields(self) -> Fields
        ensures { map (λ f. (f.0.now, f.1)) result.now ≡ fields self }
    {
        match self {
            Record::Kind(Kind::Account) => ACCOUNT,
            Record::Kind(Kind::Authorization) => AUTHORIZATION,
            Record::Kind(Kind::Block) => BLOCK,
            Record::Kind(Kind::Body) => BODY,
            Record::Kind(Kind::Header) => HEADER,
            Record::Kind(Kind::NodeRecord) => NODE_RECORD,
            Record::Kind(Kind::Withdrawal) => WITHDRAWAL,
            Record::Kind(Kind::Message(MessageKind::Hello)) => HELLO,
            Record::Kind(Kind::Message(MessageKind::Disconnect)) => DISCONNECT,
            Record::Kind(Kind::Message(MessageKind::Status68)) => STATUS68,
            Record::Kind(Kind::Message(MessageKind::Status69)) => STATUS69,
            Record::Kind(Kind::Message(MessageKind::GetBlockHeaders)) => GET_BLOCK_HEADERS,
            Record::Kind(Kind::Message(MessageKind::BlockHeaders)) => BLOCK_HEADERS,
            Record::Kind(Kind::Message(MessageKind::GetBlockBodies)) => GET_HASHED,
            Record::Kind(Kind::Message(MessageKind::BlockBodies)) => BLOCK_BODIES,
            Record::Kind(Kind::Message(MessageKind::NewBlock)) => NEW_BLOCK,
            Record::Kind(Kind::Message(MessageKind::NewPooledTransactionHashes)) =>
                NEW_POOLED_HASHES,
            Record::Kind(Kind::Message(MessageKind::GetPooledTransactions)) => GET_HASHED,
            Record::Kind(Kind::Message(MessageKind::PooledTransactions)) => POOLED_TRANSACTIONS,
            Record::Kind(Kind::Message(MessageKind::GetReceipts)) => GET_HASHED,
            Record::Kind(Kind::Message(MessageKind::Receipts68)) => RECEIPTS68,
            Record::Kind(Kind::Message(MessageKind::Receipts69)) => RECEIPTS69,
            Record::Kind(Kind::Message(MessageKind::BlockRangeUpdate)) => BLOCK_RANGE,
            Record::AccessListItem => ACCESS_LIST_ITEM,
            Record::Branch => BRANCH,
            Record::Capability => CAPABILITY,
            Record::Extension => EXTENSION,
            Record::ForkId => FORK_ID,
            Record::HeadersAsked => HEADERS_ASKED,
            Record::Leaf => LEAF,
            Record::Log => LOG,
            Record::NewBlockHash => NEW_BLOCK_HASH,
            Record::NodePair => NODE_PAIR,
            Record::Receipt69 => RECEIPT69,
            Record::ReceiptPayload => RECEIPT,
            Record::Legacy => LEGACY,
            Record::AccessList => ACCESS_LIST,
            Record::FeeMarket => FEE_MARKET,
            Record::Blob => BLOB,
            Record::SetCode => SET_CODE,
            Record::WithProofs => WITH_PROOFS,
            Record::WithCellProofs => WITH_CELL_PROOFS,
            Record::Other | Record::Pooled => &[],
            Record::Kind(Kind::AccessList | Kind::Node | Kind::Receipt | Kind::Transaction) => &[],
            Record::Kind(Kind::Message(MessageKind::Ping | MessageKind::Pong)) => &[],
            Record::Kind(Kind::Message(MessageKind::NewBlockHashes)) => &[],
            Record::Kind(Kind::Message(MessageKind::Transactions)) => &[],
        }
    }

    /// Returns the field that the item at `index` is in, and its place in a field of many items.
    fn field_of(self, index: usize) -> (usize, Option<usize>)
        ensures { result ≡ field_of self index }
    {
        match self {
            Record::Branch if index < 16 => (0, Some(index)),
            Record::Branch => (index - 15, None),
            Record::Kind(Kind::Message(MessageKind::Hello)) if index >= 5 => (5, Some(index - 5)),
            Record::Kind(Kind::NodeRecord) if index >= 2 => (2, Some(index - 2)),
            _ => (index, None),
        }
    }

    /// Appends the name of a field, and returns what it is.
    fn put_field(self, place: usize, name: &mut String) -> Result<Part, AllocError>
        ensures { IfOk result (λ part. (part, string_bytes name.new)
            ≡ in_field self place (string_bytes name.old)) }
    {
        match self.fields().get(place) {
            Some((own, part)) => {
                put_inside(own, name)?;
                Ok(*part)
            }
            None => Ok(Part::One(Record::Other)),
        }
    }
}

impl Part {
    /// Returns whether the part is a list whose items have no names of their own.
    pub(crate) fn is_list(self) -> bool
        ensures { result ≡ is_list self }
    {
        matches!(self, Part::List(_) | Part::Lists(_))
    }

    /// Appends the place of an item of a list, and returns what it is.
    fn put_item(self, index: usize, name: &mut String) -> Result<Part, AllocError>
        ensures { IfOk result (λ part. (part, string_bytes name.new)
            ≡ in_list self index (string_bytes name.old)) }
    {
        match self {
            Part::One(_) => Ok(Part::One(Record::Other)),
            Part::List(record) => {
                put_place(index, name)?;
                Ok(Part::One(record))
            }
            Part::Lists(record) => {
                put_place(index, name)?;
                Ok(Part::List(record))
            }
            Part::Pairs => {
                put_place(index / 2, name)?;
                Record::NodePair.put_field(index % 2, name)
            }
        }
    }

    /// Appends what leads to the item at `index`, and returns what it is.
    fn put_step(self, index: usize, name: &mut String) -> Result<Part, AllocError>
        ensures { IfOk result (λ part. (part, string_bytes name.new)
            ≡ in_part self index (string_bytes name.old)) }
    {
        let Part::One(record) = self else {
            return self.put_item(index, name);
        };
        let (place, within) = record.field_of(index);
        let part = record.put_field(place, name)?;
        match within {
            Some(index) => part.put_item(index, name),
            None => Ok(part),
        }
    }

    /// Returns what the part is, by its item, and the item that has its fields.
    fn opened<'a>(self, item: &Rlp<'a>) -> (Part, Rlp<'a>)
        ensures { result ≡ opened self item.now }
    {
        match self {
            Part::One(Record::Kind(Kind::Node)) => (Part::One(node_kind(item)), item.clone()),
            Part::One(Record::Kind(Kind::Receipt)) => (
                Part::One(Record::ReceiptPayload),
                payload(item),
            ),
            Part::One(Record::Kind(Kind::Transaction)) => (
                Part::One(transaction_kind(item)),
                payload(item),
            ),
            Part::One(Record::Pooled) => (Part::One(pooled_kind(item)), payload(item)),
            part => (part, item.clone()),
        }
    }
}

/// Returns the string of an item, or no bytes.
fn content<'a>(item: &Rlp<'a>) -> &'a [u8]
    ensures { result.now ≡ content item.now }
{
    item.decoder().string().unwrap_or(&[])
}

/// Returns an item of a list, or the list if it has no such item.
fn item_in<'a>(list: &Rlp<'a>, index: usize) -> Rlp<'a>
    ensures { result ≡ item_in list.now index }
{
    list.at(index).unwrap_or(list.clone())
}

/// Returns the bytes of an envelope, which is standalone or in a string.
fn envelope<'a>(item: &Rlp<'a>) -> &'a [u8]
    ensures { result.now ≡ envelope item.now }
{
    match item.as_raw() {
        bytes @ [0..=0x7f, ..] => bytes,
        _ => content(item),
    }
}

/// Returns the list of an envelope, or the item itself if it is a list.
fn payload<'a>(item: &Rlp<'a>) -> Rlp<'a>
    ensures { result ≡ payload item.now }
{
    if item.is_list() {
        return item.clone();
    }
    match envelope(item) {
        [_, payload @ ..] => Rlp::new_strict(payload),
        [] => Rlp::new_strict(&[]),
    }
}

/// Returns which transaction an item is, by its type.
fn transaction_kind(item: &Rlp<'_>) -> Record
    ensures { result ≡ transaction_kind item.now }
{
    if item.is_list() {
        return Record::Legacy;
    }
    match envelope(item) {
        [1, ..] => Record::AccessList,
        [2, ..] => Record::FeeMarket,
        [3, ..] => Record::Blob,
        [4, ..] => Record::SetCode,
        _ => Record::Other,
    }
}

/// Returns which record an item is that is a transaction as it is sent: type 3 has its blobs.
fn pooled_kind(item: &Rlp<'_>) -> Record
    ensures { result ≡ pooled_kind item.now }
{
    match transaction_kind(item) {
        Record::Blob if payload(item).item_count().unwrap_or(0) == 4 => Record::WithProofs,
        Record::Blob => Record::WithCellProofs,
        other => other,
    }
}

/// Returns which node of the trie an item is.
fn node_kind(item: &Rlp<'_>) -> Record
    ensures { result ≡ node_kind item.now }
{
    if item.item_count().unwrap_or(0) == 17 {
        Record::Branch
    } else if ends_in_leaf(content(&item_in(item, 0))).unwrap_or(false) {
        Record::Leaf
    } else {
        Record::Extension
    }
}

/// Appends the name of the part that the path leads to from an item, such as `.header.gas_limit`.
/// Where the parts have no names, the name ends.
pub(crate) fn put_part_name(
    part: Part,
    item: &Rlp<'_>,
    path: &[usize],
    name: &mut String,
) -> Result<(), AllocError>
    ensures { OnOk result (string_bytes name.new
        ≡ naming part item.now path.now (string_bytes name.old)) }
{
    let mut part = part;
    let mut here = item.clone();
    let mut rest = path;
    while let Some((&index, more)) = rest.split_first() {
        let (opened, list) = part.opened(&here);
        part = opened.put_step(index, name)?;
        here = item_in(&list, index);
        rest = more;
    }
    Ok(())
}

impl Kind {
    /// Returns what has the parts of records of this kind.
    pub(crate) fn part(self) -> Part
        ensures { result ≡ kind_part self }
    {
        match self {
            Kind::AccessList => Part::List(Record::AccessListItem),
            Kind::Message(MessageKind::NewBlockHashes) => Part::List(Record::NewBlockHash),
            Kind::Message(MessageKind::Transactions) => Part::List(Record::Kind(Kind::Transaction)),
            kind => Part::One(Record::Kind(kind)),
        }
    }
}
