//! Laws about values that are shown and about the answers to lines, as public functions. The
//! contract of each function is the law, and the functions do nothing but call another law.

ghost use Rattle.std.specs.{Prelude.{◌≡◌, ◌<◌, ◌^◌, ◌⊎◌, ℕ, List, [], Some, Ok, length}, Str.Lines.{strip_carriage_return}};
ghost use Rattle.rlp.specs.Format.Encoding.{IsSized, encoding};
ghost use Rattle.rlp_lines.specs.Digits.{bytes_in};
ghost use Rattle.rlp_headers.specs.{TypedReceipt.any_receipt, declared.typed_receipt.TypedReceipt.TypedReceipt};
ghost use Rattle.rlp_records.specs.{Alone.bytes_alone, declared.known_or_other.KnownOrOther.KnownOrOther};
ghost use Rattle.rlp_transactions.specs.{Transaction.any_transaction, UnsignedTransaction.unsigned_transaction};
ghost use Rattle.rlp_transactions.specs.{declared.transaction.Transaction.Transaction, declared.unsigned_transaction.UnsignedTransaction.UnsignedTransaction};
ghost use Rattle.rlp_trie.specs.{TrieNode.IsTrieNode, TrieNode.node_item, TrieNode.seen_node, TrieNodeLaws.trie_node, declared.trie_node.TrieNode.TrieNode};
ghost use Rattle.rlp_show.specs.{Answers.{IsAnswered, IsRead, answer_of}, Display.shown_of, Display.told_of, ItemDisplays.node_display, Json.json_of, Records.any_receipt_display};
ghost use Rattle.rlp_show.specs.{Transactions.any_transaction_display, Transactions.unsigned_display, Value.Value, Value.entry, Value.object, Kinds.kind_name};
ghost use Rattle.rlp_show.specs.{Request.answers, Shown.ShowsAs, Shown.kind_shown, declared.answers.Form.TheVariants.Json, declared.kind.Kind.Kind};
ghost use Rattle.rlp_show.specs.declared.kind.Kind.TheVariants as kind;

use crate::show::Show;
use rlp::StrictRead;
use rlp_trie::TrieNode;

/// If two values are shown alike, `told_of` is the same for the two. For most types `told_of` is
/// all that contracts see of a value, and so the items of the two values are equal too.
pub fn shown_values_are_told_apart<T: Show>()
    ensures { (x y : T) → shown_of T.display x ≡ shown_of T.display y
        → told_of T.display x ≡ told_of T.display y }
{}

/// If the digits of a line are the encoding of a value that fits, the answer is what is shown of the
/// value. The kind is one that shows such values.
pub fn encodings_are_shown<T: StrictRead>(line: &[u8])
    ensures { (kind : Kind) (shown : T.reading.M → Value) (x : T) → ShowsAs kind T.reading shown
        → T.fits x → IsSized (T.item x)
        → bytes_in (strip_carriage_return line.now) ≡ Some (encoding (T.item x))
        → IsAnswered kind line.now (encoding (T.item x)) (shown (T.reading.seen x)) }
{}

/// If the digits of a line are the encoding of a value that fits, the answer in JSON is an object
/// with what is shown of the value under the name of the kind. The kind is one that shows such
/// values.
pub fn encodings_are_shown_in_json<T: StrictRead>(line: &[u8])
    ensures { (kind : Kind) (shown : T.reading.M → Value) (x : T) → ShowsAs kind T.reading shown
        → T.fits x → IsSized (T.item x)
        → bytes_in (strip_carriage_return line.now) ≡ Some (encoding (T.item x))
        → answer_of (answers (Some kind) Json) line.now
        ≡ json_of (object (entry [] (kind_name kind) (shown (T.reading.seen x)))) }
{
    encodings_are_shown::<T>(line);
}

/// If the digits of a line are bytes that a kind shows without a fault, the answer shows what
/// contracts see of a value. If contracts see this of a value, the value fits, and these bytes are
/// its encoding.
pub fn only_encodings_are_shown<T: StrictRead>(line: &[u8])
    ensures { (kind : Kind) (shown : T.reading.M → Value) (bytes : List ℕ) (v : Value)
        → ShowsAs kind T.reading shown
        → bytes_in (strip_carriage_return line.now) ≡ Some bytes
        → (kind_shown kind bytes).result ≡ Ok v
        → IsRead (λ x. T.fits x × (bytes ≡ encoding (T.item x))) T.reading shown v
        × IsAnswered kind line.now bytes v }
{}

/// If the digits of a line are the bytes of a standalone transaction, as `to_bytes` of
/// `AnyTransaction` of `rlp_transactions` returns them, the answer is what is shown of the
/// transaction. No unsigned transaction has these bytes.
pub fn transactions_are_shown(line: &[u8])
    ensures { (t : KnownOrOther Transaction) → any_transaction.Fits t
        → length (bytes_alone (any_transaction.item t)) < 2 ^ 64
        → bytes_in (strip_carriage_return line.now) ≡ Some (bytes_alone (any_transaction.item t))
        → IsAnswered kind.Transaction line.now (bytes_alone (any_transaction.item t))
        (any_transaction_display.shown (any_transaction.reading.seen t)) }
{}

/// If the digits of a line are the bytes of a transaction before it is signed, as
/// `UnsignedTransaction::to_bytes` of `rlp_transactions` returns them, the answer is what is shown of the
/// transaction.
pub fn unsigned_transactions_are_shown(line: &[u8])
    ensures { (t : UnsignedTransaction) → unsigned_transaction.Fits t
        → length (bytes_alone (unsigned_transaction.item t)) < 2 ^ 64
        → bytes_in (strip_carriage_return line.now) ≡ Some (bytes_alone (unsigned_transaction.item t))
        → IsAnswered kind.Transaction line.now (bytes_alone (unsigned_transaction.item t))
        (unsigned_display.shown (unsigned_transaction.reading.seen t)) }
{}

/// If the digits of a line are bytes that are shown as a transaction without a fault, the answer
/// shows what contracts see of a transaction, signed or not. If contracts see this of a
/// transaction, these bytes are the standalone transaction.
pub fn only_transactions_are_shown(line: &[u8])
    ensures { (bytes : List ℕ) (v : Value)
        → bytes_in (strip_carriage_return line.now) ≡ Some bytes
        → (kind_shown kind.Transaction bytes).result ≡ Ok v
        → (IsRead (λ t. unsigned_transaction.Fits t
        × (bytes ≡ bytes_alone (unsigned_transaction.item t)))
        unsigned_transaction.reading unsigned_display.shown v
        ⊎ IsRead (λ t. any_transaction.Fits t × (bytes ≡ bytes_alone (any_transaction.item t)))
        any_transaction.reading any_transaction_display.shown v)
        × IsAnswered kind.Transaction line.now bytes v }
{}

/// If the digits of a line are the bytes of a standalone receipt, as `to_bytes` of `AnyReceipt` of
/// `rlp_headers` returns them, the answer is what is shown of the receipt.
pub fn receipts_are_shown(line: &[u8])
    ensures { (r : KnownOrOther TypedReceipt) → any_receipt.Fits r
        → length (bytes_alone (any_receipt.item r)) < 2 ^ 64
        → bytes_in (strip_carriage_return line.now) ≡ Some (bytes_alone (any_receipt.item r))
        → IsAnswered kind.Receipt line.now (bytes_alone (any_receipt.item r))
        (any_receipt_display.shown (any_receipt.reading.seen r)) }
{}

/// If the digits of a line are bytes that are shown as a receipt without a fault, the answer shows
/// what contracts see of a receipt. If contracts see this of a receipt, these bytes are the
/// standalone receipt.
pub fn only_receipts_are_shown(line: &[u8])
    ensures { (bytes : List ℕ) (v : Value)
        → bytes_in (strip_carriage_return line.now) ≡ Some bytes
        → (kind_shown kind.Receipt bytes).result ≡ Ok v
        → IsRead (λ r. any_receipt.Fits r × (bytes ≡ bytes_alone (any_receipt.item r)))
        any_receipt.reading any_receipt_display.shown v
        × IsAnswered kind.Receipt line.now bytes v }
{}

/// If the digits of a line are the encoding of a node of the trie, as `TrieNode` of `rlp_trie` is
/// written, the answer is the hash of the node and what is shown of its parts. An item that is kept
/// in the node needn't be a node, and is then shown as an item of any kind.
pub fn nodes_are_shown(line: &[u8])
    ensures { (n : TrieNode) → IsTrieNode n → IsSized (node_item n)
        → bytes_in (strip_carriage_return line.now) ≡ Some (encoding (node_item n))
        → IsAnswered kind.Node line.now (encoding (node_item n)) (node_display.shown (seen_node n)) }
{
    encodings_are_shown::<TrieNode>(line);
}

/// If the digits of a line are bytes that are shown as a node of the trie without a fault, the
/// answer shows what contracts see of a node. If contracts see this of a node, these bytes are its
/// encoding.
pub fn only_nodes_are_shown(line: &[u8])
    ensures { (bytes : List ℕ) (v : Value)
        → bytes_in (strip_carriage_return line.now) ≡ Some bytes
        → (kind_shown kind.Node bytes).result ≡ Ok v
        → IsRead (λ n. IsTrieNode n × (bytes ≡ encoding (node_item n))) trie_node.reading
        node_display.shown v
        × IsAnswered kind.Node line.now bytes v }
{
    only_encodings_are_shown::<TrieNode>(line);
}
