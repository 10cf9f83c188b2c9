//! Proofs of the numbers in the slots of an account's storage.

ghost use Rattle.std.specs.{Int.Digits.number_from_digits, Prelude.{ℕ, ◌≡◌, ◌⊎◌, Err, IfErr, IfOk, IsErrAnd, Ok, Result, map, option_map}, Vec.vec_items};
ghost use Rattle.rlp_state.specs.{Agreement.Agrees, Faults.{IsSameFault, proof_fault}, State.{GivesSlot, HasSlot, HasSlotFault, IsSlotValue}};
ghost use Rattle.rlp_state.specs.{declared.fault.StateFault.StateFault, declared.fault.StateFault.TheVariants.OutOfMemory};

use crate::StateFault;
use crate::fault::proof_fault;
use rlp::Uint;
use rlp_records::{Hash, keccak256};
use rlp_trie::{ProofFault, verify_proof};
use std::alloc::Global;

/// Returns the number that a slot of an account's storage holds. `storage_root` is the root that
/// the account names, and `slot` is the number of the slot, big-endian. `nodes` are the encodings of
/// the nodes on the way from the root down, in order: the `proof` of an entry of the `storageProof`
/// of `eth_getProof`, as in EIP-1186.
///
/// A slot for which the trie has no value holds 0. A value that is the encoding of 0, which no
/// client writes, is read as 0 too: section 4.1 of the yellow paper doesn't refuse it.
///
/// Fails with `Proof` and the fault of [`verify_proof`] if the nodes don't prove what the trie has,
/// with `FaultySlot` and the fault of [`rlp::decode_whole`] if the value in the trie isn't the
/// encoding of a number of at most 256 bits, and with `OutOfMemory` if memory is refused.
pub fn verify_slot(
    alloc: Global,
    storage_root: &Hash,
    slot: &[u8; 32],
    nodes: &[Vec<u8>],
) -> Result<Uint<32>, StateFault>
    ensures value { IfOk result (λ number. HasSlot storage_root.now.0 slot.now
        (map vec_items nodes.now) (number_from_digits 256 number.bytes)) }
    ensures fault { IfErr result
        (λ e. HasSlotFault storage_root.now.0 slot.now (map vec_items nodes.now) e
        ⊎ (e ≡ OutOfMemory)) }
    ensures found { (n : ℕ)
        → GivesSlot storage_root.now.0 slot.now (map vec_items nodes.now) (Ok n)
        → IfOk result (λ number. number_from_digits 256 number.bytes ≡ n) }
    ensures memory { (n : ℕ)
        → GivesSlot storage_root.now.0 slot.now (map vec_items nodes.now) (Ok n)
        → IfErr result (λ e. e ≡ OutOfMemory) }
    ensures refused { (fault : StateFault)
        → GivesSlot storage_root.now.0 slot.now (map vec_items nodes.now) (Err fault)
        → IsErrAnd result (λ e. IsSameFault e fault ⊎ (e ≡ OutOfMemory)) }
{
    let proof = verify_proof(alloc, storage_root, &keccak256(slot), nodes);
    number_by(alloc, proof)
}

/// Returns the number that a proof gives, or 0 if it gives no value. Memory is refused only if it
/// was refused to the proof.
fn number_by(
    alloc: Global,
    proof: Result<Option<Vec<u8>>, ProofFault>,
) -> Result<Uint<32>, StateFault>
    ensures value { IfOk proof (λ value. IfOk result (λ number.
        IsSlotValue (option_map vec_items value) (Ok (number_from_digits 256 number.bytes)))) }
    ensures fault { IfOk proof (λ value. IfErr result
        (λ e. IsSlotValue (option_map vec_items value) (Err e))) }
    ensures refused { IfErr proof (λ e. result ≡ Err (proof_fault e)) }
    ensures only { IfOk proof (λ value. (outcome : Result ℕ StateFault)
        → IsSlotValue (option_map vec_items value) outcome
        → Agrees (λ number n. number_from_digits 256 number.bytes ≡ n) result outcome) }
{
    match proof {
        Ok(value) => number_of(alloc, &value),
        Err(fault) => Err(proof_fault(fault)),
    }
}

/// Returns the number that a value of the trie is the encoding of, or 0 if there is no value.
fn number_of(alloc: Global, value: &Option<Vec<u8>>) -> Result<Uint<32>, StateFault>
    ensures value { IfOk result (λ number. IsSlotValue (option_map vec_items value.now)
        (Ok (number_from_digits 256 number.bytes))) }
    ensures fault { IfErr result (λ e. IsSlotValue (option_map vec_items value.now) (Err e)) }
    ensures only { (outcome : Result ℕ StateFault)
        → IsSlotValue (option_map vec_items value.now) outcome
        → Agrees (λ number n. number_from_digits 256 number.bytes ≡ n) result outcome }
{
    match value {
        Some(bytes) => match rlp::decode_whole(alloc, bytes.as_slice()) {
            Ok(number) => Ok(number),
            Err(fault) => Err(StateFault::FaultySlot(fault)),
        },
        None => Ok(Uint::from(0)),
    }
}
