//! The kinds of records, and the kinds of messages between clients.

ghost use Rattle.std.specs.Prelude.{◌≡◌, Some};
ghost use Rattle.rlp_show.specs.Kinds.{kind_name, kind_named, message_name, message_named};

/// A kind of records that the program shows.
#[derive(Debug, Clone, Copy, PartialEq, Eq)]
pub enum Kind {
    /// Access lists of transactions.
    AccessList,
    /// Accounts of the trie of the state.
    Account,
    /// Signed authorizations of transactions of type 4.
    Authorization,
    /// Blocks.
    Block,
    /// Bodies of blocks.
    Body,
    /// Headers of blocks.
    Header,
    /// Nodes of the trie.
    Node,
    /// Receipts, also in envelopes.
    Receipt,
    /// Node records.
    NodeRecord,
    /// Transactions, also in the envelope of any type.
    Transaction,
    /// Withdrawals.
    Withdrawal,
    /// Bodies of messages between clients.
    Message(MessageKind),
}

impl Kind {
    /// The kind of this name, or `None` if no kind has it.
    #[tactic(auto, unfolding(crate::specs::Kinds::kind_named))]
    pub fn named(name: &str) -> Option<Kind>
        ensures { result ≡ kind_named name.now }
    {
        if let Some(kind) = MessageKind::named(name) {
            return Some(Kind::Message(kind));
        }
        match name {
            "access_list" => Some(Kind::AccessList),
            "account" => Some(Kind::Account),
            "authorization" => Some(Kind::Authorization),
            "block" => Some(Kind::Block),
            "body" => Some(Kind::Body),
            "header" => Some(Kind::Header),
            "node" => Some(Kind::Node),
            "receipt" => Some(Kind::Receipt),
            "record" => Some(Kind::NodeRecord),
            "transaction" => Some(Kind::Transaction),
            "withdrawal" => Some(Kind::Withdrawal),
            _ => None,
        }
    }

    /// The name of the kind.
    #[tactic(auto, unfolding(crate::specs::Kinds::kind_named, crate::specs::Kinds::message_named))]
    pub fn name(self) -> &'static str
        ensures name { result.now ≡ kind_name self }
        ensures named { kind_named result.now ≡ Some self }
    {
        match self {
            Kind::AccessList => "access_list",
            Kind::Account => "account",
            Kind::Authorization => "authorization",
            Kind::Block => "block",
            Kind::Body => "body",
            Kind::Header => "header",
            Kind::Node => "node",
            Kind::Receipt => "receipt",
            Kind::NodeRecord => "record",
            Kind::Transaction => "transaction",
            Kind::Withdrawal => "withdrawal",
            Kind::Message(kind) => kind.name(),
        }
    }
}

/// A kind of messages that the program shows: the body of a message of `p2p`, `eth/68` or `eth/69`.
#[derive(Debug, Clone, Copy, PartialEq, Eq)]
pub enum MessageKind {
    /// The first message of a connection.
    Hello,
    /// The end of a connection.
    Disconnect,
    /// The question whether the other client is there.
    Ping,
    /// The answer to that question.
    Pong,
    /// What a client knows of the chain, in `eth/68`.
    Status68,
    /// What a client knows of the chain, in `eth/69`.
    Status69,
    /// Hashes of new blocks.
    NewBlockHashes,
    /// New transactions.
    Transactions,
    /// A request for headers.
    GetBlockHeaders,
    /// The headers.
    BlockHeaders,
    /// A request for bodies of blocks.
    GetBlockBodies,
    /// The bodies.
    BlockBodies,
    /// A new block.
    NewBlock,
    /// Hashes of new transactions.
    NewPooledTransactionHashes,
    /// A request for transactions.
    GetPooledTransactions,
    /// The transactions.
    PooledTransactions,
    /// A request for receipts.
    GetReceipts,
    /// The receipts, in `eth/68`.
    Receipts68,
    /// The receipts, in `eth/69`.
    Receipts69,
    /// The blocks that a client has.
    BlockRangeUpdate,
}

impl MessageKind {
    /// The kind of this name, or `None` if no kind has it.
    #[tactic(auto, unfolding(crate::specs::Kinds::message_named))]
    pub fn named(name: &str) -> Option<MessageKind>
        ensures { result ≡ message_named name.now }
    {
        match name {
            "hello" => Some(MessageKind::Hello),
            "disconnect" => Some(MessageKind::Disconnect),
            "ping" => Some(MessageKind::Ping),
            "pong" => Some(MessageKind::Pong),
            "status68" => Some(MessageKind::Status68),
            "status69" => Some(MessageKind::Status69),
            "new_block_hashes" => Some(MessageKind::NewBlockHashes),
            "transactions" => Some(MessageKind::Transactions),
            "get_block_headers" => Some(MessageKind::GetBlockHeaders),
            "block_headers" => Some(MessageKind::BlockHeaders),
            "get_block_bodies" => Some(MessageKind::GetBlockBodies),
            "block_bodies" => Some(MessageKind::BlockBodies),
            "new_block" => Some(MessageKind::NewBlock),
            "new_pooled_transaction_hashes" => Some(MessageKind::NewPooledTransactionHashes),
            "get_pooled_transactions" => Some(MessageKind::GetPooledTransactions),
            "pooled_transactions" => Some(MessageKind::PooledTransactions),
            "get_receipts" => Some(MessageKind::GetReceipts),
            "receipts68" => Some(MessageKind::Receipts68),
            "receipts69" => Some(MessageKind::Receipts69),
            "block_range_update" => Some(MessageKind::BlockRangeUpdate),
            _ => None,
        }
    }

    /// The name of the kind.
    #[tactic(auto, unfolding(crate::specs::Kinds::message_named))]
    pub fn name(self) -> &'static str
        ensures name { result.now ≡ message_name self }
        ensures named { message_named result.now ≡ Some self }
    {
        match self {
            MessageKind::Hello => "hello",
            MessageKind::Disconnect => "disconnect",
            MessageKind::Ping => "ping",
            MessageKind::Pong => "pong",
            MessageKind::Status68 => "status68",
            MessageKind::Status69 => "status69",
            MessageKind::NewBlockHashes => "new_block_hashes",
            MessageKind::Transactions => "transactions",
            MessageKind::GetBlockHeaders => "get_block_headers",
            MessageKind::BlockHeaders => "block_headers",
            MessageKind::GetBlockBodies => "get_block_bodies",
            MessageKind::BlockBodies => "block_bodies",
            MessageKind::NewBlock => "new_block",
            MessageKind::NewPooledTransactionHashes => "new_pooled_transaction_hashes",
            MessageKind::GetPooledTransactions => "get_pooled_transactions",
            MessageKind::PooledTransactions => "pooled_transactions",
            MessageKind::GetReceipts => "get_receipts",
            MessageKind::Receipts68 => "receipts68",
            MessageKind::Receipts69 => "receipts69",
            MessageKind::BlockRangeUpdate => "block_range_update",
        }
    }
}
