//! What transactions of every type have.

ghost use Rattle.std.specs.{Prelude.◌≡◌, Option.option_copied};
ghost use Rattle.rlp_transactions.specs.TransactionParts.{access_list_of, account_in, gas_limit_of, gas_price_of, input_of, max_fee_of, max_priority_fee_of, nonce_of, recipient_of, value_of};

use crate::{AccessList, Recipient, Transaction};
use rlp::Uint;
use rlp_records::Address;

impl Transaction {
    /// Returns the number of transactions that the sender has sent before.
    pub fn nonce(&self) -> u64
        ensures { result ≡ nonce_of self.now }
    {
        of_each!(self, tx => tx.payload.nonce)
    }

    /// Returns the gas that the transaction may use at most.
    pub fn gas_limit(&self) -> u64
        ensures { result ≡ gas_limit_of self.now }
    {
        of_each!(self, tx => tx.payload.gas_limit)
    }

    /// Returns the value that is sent, in Wei.
    pub fn value(&self) -> &Uint<32>
        ensures { result.now ≡ value_of self.now }
    {
        of_each!(self, tx => &tx.payload.value)
    }

    /// Returns the input of the call, or the code that creates the contract.
    pub fn input(&self) -> &[u8]
        ensures { result.now ≡ input_of self.now }
    {
        of_each!(self, tx => tx.payload.data.as_slice())
    }

    /// Returns the price of a unit of gas, in Wei, for a transaction without a type or of type 1, and
    /// `None` for the types since EIP-1559, which have two fees.
    pub fn gas_price(&self) -> Option<&Uint<32>>
        ensures { option_copied result ≡ gas_price_of self.now }
    {
        match self {
            Transaction::Legacy(tx) => Some(&tx.payload.gas_price),
            Transaction::AccessList(tx) => Some(&tx.payload.gas_price),
            Transaction::FeeMarket(_) | Transaction::Blob(_) | Transaction::SetCode(_) => None,
        }
    }

    /// Returns the highest total price of a unit of gas that the sender pays, in Wei. As in EIP-1559,
    /// this is the price of gas if the transaction has no type or is of type 1.
    pub fn max_fee_per_gas(&self) -> &Uint<32>
        ensures { result.now ≡ max_fee_of self.now }
    {
        match self {
            Transaction::Legacy(tx) => &tx.payload.gas_price,
            Transaction::AccessList(tx) => &tx.payload.gas_price,
            Transaction::FeeMarket(tx) => &tx.payload.max_fee_per_gas,
            Transaction::Blob(tx) => &tx.payload.max_fee_per_gas,
            Transaction::SetCode(tx) => &tx.payload.max_fee_per_gas,
        }
    }

    /// Returns the highest price of a unit of gas that the sender pays to the block's beneficiary, in
    /// Wei. As in EIP-1559, this is the price of gas if the transaction has no type or is of type 1.
    pub fn max_priority_fee_per_gas(&self) -> &Uint<32>
        ensures { result.now ≡ max_priority_fee_of self.now }
    {
        match self {
            Transaction::Legacy(tx) => &tx.payload.gas_price,
            Transaction::AccessList(tx) => &tx.payload.gas_price,
            Transaction::FeeMarket(tx) => &tx.payload.max_priority_fee_per_gas,
            Transaction::Blob(tx) => &tx.payload.max_priority_fee_per_gas,
            Transaction::SetCode(tx) => &tx.payload.max_priority_fee_per_gas,
        }
    }

    /// Returns the account that receives the value, or `None` if a contract is created.
    pub fn to(&self) -> Option<&Address>
        ensures { option_copied result ≡ recipient_of self.now }
    {
        match self {
            Transaction::Legacy(tx) => account_of(&tx.payload.to),
            Transaction::AccessList(tx) => account_of(&tx.payload.to),
            Transaction::FeeMarket(tx) => account_of(&tx.payload.to),
            Transaction::Blob(tx) => Some(&tx.payload.to),
            Transaction::SetCode(tx) => Some(&tx.payload.destination),
        }
    }

    /// Returns the accounts and the keys of storage that the transaction declares, or `None` for a
    /// transaction without a type.
    pub fn access_list(&self) -> Option<&AccessList>
        ensures { option_copied result ≡ access_list_of self.now }
    {
        match self {
            Transaction::Legacy(_) => None,
            Transaction::AccessList(tx) => Some(&tx.payload.access_list),
            Transaction::FeeMarket(tx) => Some(&tx.payload.access_list),
            Transaction::Blob(tx) => Some(&tx.payload.access_list),
            Transaction::SetCode(tx) => Some(&tx.payload.access_list),
        }
    }
}

// Returns the account of a recipient.
fn account_of(recipient: &Recipient) -> Option<&Address>
    ensures { option_copied result ≡ account_in recipient.now }
{
    match recipient {
        Recipient::Account(address) => Some(address),
        Recipient::Creation => None,
    }
}
