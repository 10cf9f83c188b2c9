//! Fields of transactions and of other records, as text.

use crate::transactions::authorized;
use rlp::DecoderError;
use rlp_headers::DepositReceipt;
use rlp_p2p::{Disconnect, Message, P2pMessage};
use rlp_records::{Eip2718, Enveloped, keccak256};
use rlp_transactions::{
    AnyTransaction, Authorization, DepositTransaction, Tagged, Transaction, UnsignedTransaction,
};
use rlp_vectors::rows::Hex;
use std::alloc::Global;
use std::fmt;

/// Returns the fields of a record that is read from the bytes.
pub(crate) fn answer(alloc: Global, name: &str, bytes: &[u8]) -> Result<String, DecoderError> {
    match name {
        "numbers" => text(alloc, numbers(&AnyTransaction::from_bytes(alloc, bytes)?)),
        "parts" => parts(alloc, &Transaction::from_bytes(alloc, bytes)?),
        "fees" => fees(alloc, &Transaction::from_bytes(alloc, bytes)?),
        "unsigned" => text(alloc, UnsignedTransaction::from_bytes(alloc, bytes)?),
        "authorization" => text(alloc, Authorization::from_signing_payload(alloc, bytes)?),
        "signature of an authorization" => authorized(alloc, bytes),
        "deposit" => text(alloc, DepositTransaction::from_bytes(alloc, bytes)?),
        "source of deposit" => source(alloc, bytes),
        "deposit receipt" => text(alloc, DepositReceipt::from_bytes(alloc, bytes)?),
        "disconnect" => {
            let message = rlp::decode_strict::<Disconnect>(alloc, bytes)?;
            match message.reason() {
                Some(reason) => Ok(format!(in alloc; "{message:?} {}", reason.number())?),
                None => Ok(format!(in alloc; "{message:?} none")?),
            }
        }
        _ => text(alloc, P2pMessage::from_message(alloc, 0, bytes)?),
    }
}

/// Returns a value as `{:?}` prints it.
pub(crate) fn text<T: fmt::Debug + Drop>(alloc: Global, value: T) -> Result<String, DecoderError> {
    Ok(format!(in alloc; "{value:?}")?)
}

/// Returns the type, the nonce and the limit of gas of a transaction. One whose type isn't known
/// has zeros.
fn numbers(transaction: &AnyTransaction) -> (u8, u64, u64) {
    match transaction {
        AnyTransaction::Known(tx) => (tx.transaction_type(), tx.nonce(), tx.gas_limit()),
        AnyTransaction::Other(tx) => (tx.transaction_type(), 0, 0),
    }
}

/// Returns what a transaction of any type has: the recipient, the value, the input, the nonce, the
/// limit of gas, and the length of the access list.
fn parts(alloc: Global, tx: &Transaction) -> Result<String, DecoderError> {
    let to = match tx.to() {
        Some(address) => address.0.as_slice(),
        None => b"".as_slice(),
    };
    let (to, value, input) = (Hex(to), Hex(&tx.value().bytes), Hex(tx.input()));
    let (nonce, gas) = (tx.nonce(), tx.gas_limit());
    let accounts = tx.access_list().map(|list| list.0.len());
    Ok(format!(in alloc; "{to:?} {value:?} {input:?} {nonce} {gas} {accounts:?}")?)
}

/// Returns the type, the chain, the two fees, and whether there is a price of gas.
fn fees(alloc: Global, tx: &Transaction) -> Result<String, DecoderError> {
    let (kind, chain) = (tx.transaction_type(), tx.chain_id());
    let most = rlp::encode(alloc, tx.max_fee_per_gas())?;
    let priority = rlp::encode(alloc, tx.max_priority_fee_per_gas())?;
    let (most, priority) = (Hex(most.as_slice()), Hex(priority.as_slice()));
    let has_price = tx.gas_price().is_some();
    Ok(format!(in alloc; "{kind} {chain:?} {most:?} {priority:?} {has_price}")?)
}

/// Returns the hash that the data of the attributes of a block give for the first field of a deposit,
/// and whether it is that field. Both numbers are hashed as 32 bytes.
fn source(alloc: Global, bytes: &[u8]) -> Result<String, DecoderError> {
    let deposit = DepositTransaction::from_bytes(alloc, bytes)?;
    let named = deposit.data.as_slice().get(100..164).unwrap_or(b"");
    let mut one = [0; 32];
    one[31] = 1;
    let mut hashed = Vec::from_slice(alloc, &one)?;
    hashed.extend_from_slice(&keccak256(named))?;
    let hash = keccak256(hashed.as_slice());
    Ok(format!(in alloc; "{:?} {}", Hex(&hash), hash == deposit.source_hash.0)?)
}
