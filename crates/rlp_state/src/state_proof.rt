//! Proofs of an account together with slots of its storage.

ghost use Rattle.std.specs.{Prelude.{ℕ, ◌≡◌, ◌⊎◌, Err, IfErr, IfOk, IsErrAnd, List, Ok, Option, Result, map}, Vec.vec_items};
ghost use Rattle.rlp_headers.specs.declared.account.Account.{Account};
ghost use Rattle.rlp_state.specs.StateProofs.{GivesSlots, GivesState, HasSlotsFault, HasState, HasStateFault, HaveSlots, IsSamePlaced, IsState, StateAgrees, at_account, at_slot, number_in, storage_root};
ghost use Rattle.rlp_state.specs.{declared.state_proof.StateProofFault.StateProofFault, declared.state_proof.StateProofFault.TheVariants.OutOfMemory};

use crate::empty::empty_storage_root;
use crate::{StateFault, verify_account, verify_slot};
use rlp::Uint;
use rlp_headers::Account;
use rlp_records::{Address, Hash};
use std::alloc::{AllocError, Global};
use std::error::Error;
use std::fmt;

/// A proof of the number in a slot: an entry of the `storageProof` of `eth_getProof`.
#[derive(Debug, Clone, Copy)]
pub struct SlotProof<'a> {
    /// The number of the slot, big-endian.
    pub slot: [u8; 32],
    /// The encodings of the nodes on the way from the root of the account's storage down.
    pub nodes: &'a [Vec<u8>],
}

/// A proof of an account and of slots of its storage: what `eth_getProof` answers.
///
/// See EIP-1186.
#[derive(Debug, Clone, Copy)]
pub struct StateProof<'a> {
    /// The address of the account.
    pub address: Address,
    /// The `accountProof`: the encodings of the nodes on the way from the root of the state down.
    pub account_nodes: &'a [Vec<u8>],
    /// The `storageProof`.
    pub slots: &'a [SlotProof<'a>],
}

impl<'a> StateProof<'a> {
    /// Returns the account that the state with this root has at the address, and the number in each
    /// slot, in order. Each slot is proved under the storage root of this account. If there is no
    /// account, each slot is proved under the root of the empty trie, and holds 0.
    ///
    /// Fails with `Account` and the fault of [`verify_account`], with `Slot`, the place of the first
    /// slot with a fault, counted from 0, and the fault of [`verify_slot`], and with `OutOfMemory`
    /// if memory is refused.
    pub fn verify(&self, alloc: Global, state_root: &Hash) -> Result<ProvedState, StateProofFault>
        ensures value { IfOk result (HasState state_root.now.0 self.now) }
        ensures fault { IfErr result
            (λ e. HasStateFault state_root.now.0 self.now e ⊎ (e ≡ OutOfMemory)) }
        ensures found { (wanted : Option Account × List ℕ)
            → GivesState state_root.now.0 self.now (Ok wanted)
            → IfOk result (λ found. IsState found wanted) }
        ensures memory { (wanted : Option Account × List ℕ)
            → GivesState state_root.now.0 self.now (Ok wanted)
            → IfErr result (λ e. e ≡ OutOfMemory) }
        ensures refused { (fault : StateProofFault)
            → GivesState state_root.now.0 self.now (Err fault)
            → IsErrAnd result (λ e. IsSamePlaced e fault ⊎ (e ≡ OutOfMemory)) }
    {
        match verify_account(alloc, state_root, &self.address, self.account_nodes) {
            Ok(account) => match verify_slots(alloc, &storage_root(&account), self.slots) {
                Ok(slots) => Ok(ProvedState { account, slots }),
                Err(fault) => Err(fault),
            },
            Err(fault) => Err(at_account(fault)),
        }
    }
}

/// Returns the root of the storage of an account, or of the empty trie if there is no account.
fn storage_root(account: &Option<Account>) -> Hash
    ensures { result.0 ≡ storage_root account.now }
{
    match account {
        Some(account) => account.storage_root,
        None => empty_storage_root(),
    }
}

/// Returns the number in the slot of each proof, all under one root.
#[tactic(auto, using(crate::proofs::StateProofLemmas::lacks_agree))]
fn verify_slots(
    alloc: Global,
    root: &Hash,
    slots: &[SlotProof<'_>],
) -> Result<Vec<Uint<32>>, StateProofFault>
    ensures value { IfOk result (λ numbers. HaveSlots root.now.0 slots.now numbers.items) }
    ensures fault { IfErr result
        (λ e. HasSlotsFault root.now.0 slots.now e ⊎ (e ≡ OutOfMemory)) }
    ensures only { (outcome : Result (List ℕ) StateProofFault)
        → GivesSlots root.now.0 0 slots.now outcome
        → StateAgrees (λ numbers wanted. map number_in (vec_items numbers) ≡ wanted)
        result outcome }
{
    let mut numbers = Vec::with_capacity(alloc, slots.len())?;
    for index in 0..slots.len() {
        let proof = slots[index];
        match verify_slot(alloc, root, &proof.slot, proof.nodes) {
            Ok(number) => {
                if numbers.push(number).is_err() {
                    return Err(StateProofFault::OutOfMemory);
                }
            }
            Err(fault) => return Err(at_slot(index, fault)),
        }
    }
    Ok(numbers)
}

/// Returns the fault of a proof whose account has this fault.
fn at_account(fault: StateFault) -> StateProofFault
    ensures { result ≡ at_account fault }
{
    match fault {
        StateFault::OutOfMemory => StateProofFault::OutOfMemory,
        fault => StateProofFault::Account(fault),
    }
}

/// Returns the fault of a proof whose slot at this place has this fault.
fn at_slot(place: usize, fault: StateFault) -> StateProofFault
    ensures { result ≡ at_slot place fault }
{
    match fault {
        StateFault::OutOfMemory => StateProofFault::OutOfMemory,
        fault => StateProofFault::Slot(place, fault),
    }
}

/// What a [`StateProof`] proves.
#[derive(Debug, PartialEq, Eq, Drop)]
pub struct ProvedState {
    /// The account, or `None` if the state has none at the address.
    pub account: Option<Account>,
    /// The number in each slot, in the order of the proof.
    pub slots: Vec<Uint<32>>,
}

/// Why a [`StateProof`] doesn't prove an account and the numbers in slots.
#[derive(Debug, PartialEq, Eq, Drop)]
pub enum StateProofFault {
    /// The proof of the account has this fault.
    Account(StateFault),
    /// The proof of the slot at this place, counted from 0, has this fault.
    Slot(usize, StateFault),
    /// Memory was refused.
    OutOfMemory,
}

/// Prints the variant's name, and the place and the fault that it holds, as in
/// `Account(Proof(MissingNode))` or `Slot(2, FaultySlot(RlpIsTooBig))`.
impl fmt::Display for StateProofFault {
    ghost use Rattle.rlp_state.specs.StateProofs.{state_proof_fault_text};
    ghost use Rattle.std.specs.Prelude.{Some};

    ghost output = { λ e. Some (state_proof_fault_text e) };

    fn fmt<W: fmt::Write>(&self, f: &mut fmt::Formatter<W>) -> fmt::Result {
        match self {
            StateProofFault::Account(fault) => write!(f, "Account({fault})"),
            StateProofFault::Slot(place, fault) => write!(f, "Slot({place}, {fault})"),
            StateProofFault::OutOfMemory => f.write_str("OutOfMemory"),
        }
    }
}

impl Error for StateProofFault {}

impl From<AllocError> for StateProofFault {
    ghost use Rattle.rlp_state.specs.declared.state_proof.StateProofFault.TheVariants.{OutOfMemory};

    ghost from_gives = { λ _ fault. fault ≡ OutOfMemory };

    fn from(_refused: AllocError) -> StateProofFault {
        StateProofFault::OutOfMemory
    }
}
