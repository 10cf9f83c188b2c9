//! Calls each law of the crates of records and of `rlp_show`, to show that it can be called, those of
//! records for several types. What a law says is proved.

use rlp::StrictRead;
use rlp_blocks::Block;
use rlp_blocks::laws::{blocks_are_told, no_content_is_signed_for_two_meanings};
use rlp_headers::laws::bytes_tell_receipts;
use rlp_headers::{Account, AnyReceipt, Header, Withdrawal};
use rlp_messages::{Eth68Message, Eth69Message};
use rlp_node_record::NodeRecord;
use rlp_node_record::laws::node_text_round_trips;
use rlp_p2p::P2pMessage;
use rlp_p2p::laws::{both_ends_agree, bytes_tell_messages};
use rlp_pooled::PooledTransaction;
use rlp_pooled::laws::{
    bytes_tell_pooled_transactions, pooled_transaction_keeps_its_hash,
    pooled_transactions_stand_in_blocks,
};
use rlp_records::Eip2718;
use rlp_records::laws::{
    encodings_tell_records, reading_without_memory_is_total, record_is_read, record_is_written,
    record_round_trips,
};
use rlp_show::laws::{
    encodings_are_shown, encodings_are_shown_in_json, nodes_are_shown, only_encodings_are_shown,
    only_nodes_are_shown, only_receipts_are_shown, only_transactions_are_shown, receipts_are_shown,
    shown_values_are_told_apart, transactions_are_shown, unsigned_transactions_are_shown,
};
use rlp_state::laws::{slots_agree, states_agree, values_have_own_faults};
use rlp_stream::laws::{faults_go_by_framing, items_are_read};
use rlp_transactions::laws::{
    bytes_tell_transactions, no_bytes_are_signed_for_two_meanings,
    signed_transactions_are_no_signing_payloads,
};
use rlp_transactions::{AccessList, AnyTransaction};
use rlp_trie::laws::{
    paths_have_one_value, places_have_proofs, proofs_agree, roots_tell_lists, slices_are_listed,
    trie_has_its_values,
};
use rlp_vectors::rows::bytes_of;
use std::alloc::Global;
use std::test::Fail;

#[test]
fn encodings_are_shown_as_lines() {
    encodings_are_shown::<Header>(b"c0");
    encodings_are_shown::<Block>(b"c0");
    encodings_are_shown::<AccessList>(b"c0");
    encodings_are_shown::<NodeRecord>(b"c0");
    encodings_are_shown_in_json::<Header>(b"c0");
    transactions_are_shown(b"c0");
    unsigned_transactions_are_shown(b"c0");
    only_encodings_are_shown::<Header>(b"c0");
    only_encodings_are_shown::<Block>(b"c0");
    only_encodings_are_shown::<NodeRecord>(b"c0");
    only_transactions_are_shown(b"c0");
    receipts_are_shown(b"c0");
    only_receipts_are_shown(b"c0");
    nodes_are_shown(b"c0");
    only_nodes_are_shown(b"c0");
    shown_values_are_told_apart::<Header>();
}

/// A withdrawal of 4 Gwei, worked out by the rules of the format.
const WITHDRAWAL: &str = "d8010294030303030303030303030303030303030303030304";

/// An account with one transaction and 256 Wei, worked out by the rules of the format.
const ACCOUNT: &str = "f84601820100a0+04*32+a0+05*32";

/// A transaction of type 2 that creates a contract.
const TRANSACTION: &str = "02db0108843b9aca008504a817c800825208800600c080823333824444";

/// The same in a block: a string.
const IN_BLOCK: &str = "9d02db0108843b9aca008504a817c800825208800600c080823333824444";

/// The text of a node record, the example of EIP-778.
const NODE: &str = "enr:-IS4QHCYrYZbAKWCBRlAy5zzaDZXJBGkcnh4MHcBFZntXNFrdvJjX04jRzjzCBOonrkTfj499\
    SZuOh8R33Ls8RRcy5wBgmlkgnY0gmlwhH8AAAGJc2VjcDI1NmsxoQPKY0yuDUmstAHYpMa2_oxVtw0RW_QAdpzBQA8yWM\
    0xOIN1ZHCCdl8";

/// Returns whether the bytes are read as a record that is written as the same bytes, also after it
/// was written and read back.
fn laws_hold<R: StrictRead>(alloc: Global, text: &str) -> Result<bool, Fail> {
    let bytes = bytes_of(alloc, text)?;
    let value = record_is_read::<R>(alloc, bytes.as_slice())?;
    let again = reading_without_memory_is_total::<R>(alloc, bytes.as_slice())?;
    let back = record_round_trips(alloc, &again)?;
    encodings_tell_records(&value, &back);
    Ok(
        record_is_written(alloc, &value)?.as_slice() == bytes.as_slice()
            && record_is_written(alloc, &back)?.as_slice() == bytes.as_slice(),
    )
}

#[test]
fn laws_hold_of_records(rt: HostRuntime) -> Result<(), Fail> {
    let alloc = rt.alloc();
    assert!(rt;
        laws_hold::<Withdrawal>(alloc, WITHDRAWAL)?
            && laws_hold::<Account>(alloc, ACCOUNT)?
            && laws_hold::<AnyTransaction>(alloc, IN_BLOCK)?
            && laws_hold::<PooledTransaction>(alloc, IN_BLOCK)?
    );
    let bytes = bytes_of(alloc, TRANSACTION)?;
    let transaction = AnyTransaction::from_bytes(alloc, bytes.as_slice())?;
    bytes_tell_transactions(&transaction, &transaction);
    let receipt = AnyReceipt::from_bytes(alloc, &[0x7e, 0xc0])?;
    bytes_tell_receipts(&receipt, &receipt);
    let pooled = PooledTransaction::from_bytes(alloc, bytes.as_slice())?;
    bytes_tell_pooled_transactions(&pooled, &pooled);
    pooled_transactions_stand_in_blocks(&pooled);
    let (sent, consensus) = pooled_transaction_keeps_its_hash(alloc, pooled)?;
    assert!(rt; sent == consensus);
    no_bytes_are_signed_for_two_meanings();
    no_content_is_signed_for_two_meanings();
    blocks_are_told();
    signed_transactions_are_no_signing_payloads();
    Ok(())
}

#[test]
fn laws_hold_of_nodes(rt: HostRuntime) -> Result<(), Fail> {
    let alloc = rt.alloc();
    paths_have_one_value();
    trie_has_its_values();
    places_have_proofs();
    roots_tell_lists();
    proofs_agree();
    states_agree();
    values_have_own_faults();
    slots_agree();
    items_are_read();
    faults_go_by_framing();
    slices_are_listed(&[b"cat".as_slice(), b"dog".as_slice()]);
    let node = NodeRecord::from_text(alloc, NODE)?;
    let back = node_text_round_trips(alloc, &node)?;
    assert!(rt; back.fields() == node.fields());
    Ok(())
}

#[test]
fn bytes_tell_messages_apart() {
    bytes_tell_messages::<P2pMessage>();
    bytes_tell_messages::<Eth68Message>();
    bytes_tell_messages::<Eth69Message>();
}

#[test]
fn both_ends_find_the_same_offsets() {
    both_ends_agree();
}
