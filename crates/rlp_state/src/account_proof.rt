//! Proofs of accounts.

ghost use Rattle.std.specs.{Prelude.{◌≡◌, ◌⊎◌, Err, IfErr, IfOk, IsErrAnd, Ok, Option, Result, map, option_map}, Vec.vec_items};
ghost use Rattle.rlp_headers.specs.{Account.account, declared.account.Account.Account};
ghost use Rattle.rlp_state.specs.{Agreement.Agrees, Faults.{IsSameFault, proof_fault}, State.{GivesAccount, HasAccount, HasAccountFault, IsAccountValue}};
ghost use Rattle.rlp_state.specs.{declared.fault.StateFault.StateFault, declared.fault.StateFault.TheVariants.OutOfMemory};

use crate::StateFault;
use crate::fault::proof_fault;
use rlp_headers::Account;
use rlp_records::{Address, Hash, keccak256};
use rlp_trie::{ProofFault, verify_proof};
use std::alloc::Global;

/// Returns the account that the state with this root has at an address, or `None` if it has none.
/// An account that is absent isn't the [empty account](crate::empty_account). `nodes` are the
/// encodings of the nodes on the way from the root down, in order: the `accountProof` of
/// `eth_getProof`, as in EIP-1186.
///
/// Fails with `Proof` and the fault of [`verify_proof`] if the nodes don't prove what the trie has,
/// with `FaultyAccount` and the fault of [`rlp::decode_whole`] if the value in the trie isn't the
/// encoding of an account, and with `OutOfMemory` if memory is refused.
pub fn verify_account(
    alloc: Global,
    state_root: &Hash,
    address: &Address,
    nodes: &[Vec<u8>],
) -> Result<Option<Account>, StateFault>
    ensures value { IfOk result
        (HasAccount state_root.now.0 address.now.0 (map vec_items nodes.now)) }
    ensures fault { IfErr result
        (λ e. HasAccountFault state_root.now.0 address.now.0 (map vec_items nodes.now) e
        ⊎ (e ≡ OutOfMemory)) }
    ensures found { (wanted : Option Account)
        → GivesAccount state_root.now.0 address.now.0 (map vec_items nodes.now) (Ok wanted)
        → IfOk result (λ found. option_map account.item found ≡ option_map account.item wanted) }
    ensures memory { (wanted : Option Account)
        → GivesAccount state_root.now.0 address.now.0 (map vec_items nodes.now) (Ok wanted)
        → IfErr result (λ e. e ≡ OutOfMemory) }
    ensures refused { (fault : StateFault)
        → GivesAccount state_root.now.0 address.now.0 (map vec_items nodes.now) (Err fault)
        → IsErrAnd result (λ e. IsSameFault e fault ⊎ (e ≡ OutOfMemory)) }
{
    let proof = verify_proof(alloc, state_root, &keccak256(&address.0), nodes);
    account_by(alloc, proof)
}

/// Returns the account that a proof gives, or `None` if it gives no value. Memory is refused only if
/// it was refused to the proof.
fn account_by(
    alloc: Global,
    proof: Result<Option<Vec<u8>>, ProofFault>,
) -> Result<Option<Account>, StateFault>
    ensures value { IfOk proof (λ value. IfOk result
        (λ found. IsAccountValue (option_map vec_items value) (Ok found))) }
    ensures fault { IfOk proof (λ value. IfErr result
        (λ e. IsAccountValue (option_map vec_items value) (Err e))) }
    ensures refused { IfErr proof (λ e. result ≡ Err (proof_fault e)) }
    ensures only { IfOk proof (λ value. (outcome : Result (Option Account) StateFault)
        → IsAccountValue (option_map vec_items value) outcome
        → Agrees (λ found wanted. option_map account.item found ≡ option_map account.item wanted)
        result outcome) }
{
    match proof {
        Ok(value) => account_of(alloc, &value),
        Err(fault) => Err(proof_fault(fault)),
    }
}

/// Returns the account that a value of the trie is the encoding of, or `None` if there is no value.
fn account_of(alloc: Global, value: &Option<Vec<u8>>) -> Result<Option<Account>, StateFault>
    ensures value { IfOk result
        (λ found. IsAccountValue (option_map vec_items value.now) (Ok found)) }
    ensures fault { IfErr result (λ e. IsAccountValue (option_map vec_items value.now) (Err e)) }
    ensures only { (outcome : Result (Option Account) StateFault)
        → IsAccountValue (option_map vec_items value.now) outcome
        → Agrees (λ found wanted. option_map account.item found ≡ option_map account.item wanted)
        result outcome }
{
    match value {
        Some(bytes) => match rlp::decode_whole(alloc, bytes.as_slice()) {
            Ok(account) => Ok(Some(account)),
            Err(fault) => Err(StateFault::FaultyAccount(fault)),
        },
        None => Ok(None),
    }
}
