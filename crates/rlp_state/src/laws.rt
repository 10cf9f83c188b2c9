//! What holds of proofs of the state.

ghost use Rattle.std.specs.Prelude.{ℕ, ◌≡◌, ◌⊎◌, List, Option, option_map};
ghost use Rattle.rlp.specs.Codec.{Codec, uint};
ghost use Rattle.rlp_reading.specs.OwnFaults.{HasOwnFaults};
ghost use Rattle.rlp_trie.specs.Listed.{HasCollision, known_of};
ghost use Rattle.rlp_headers.specs.{Account.account, declared.account.Account.Account};
ghost use Rattle.rlp_state.specs.State.{HasAccount, HasSlot};

/// Two proofs say the same of the account at an address under one root of the state, or two
/// different nodes among them have the same hash.
#[tactic(auto, using(crate::proofs::StateLemmas::accounts_agree))]
pub fn states_agree()
    ensures { (root address : List ℕ) (nodes others : List (List ℕ)) (one other : Option Account)
        → HasAccount root address nodes one → HasAccount root address others other
        → (option_map account.item one ≡ option_map account.item other)
        ⊎ HasCollision (known_of nodes) (known_of others) }
{}

/// Two proofs say the same of the number in a slot under one root of an account's storage, or two
/// different nodes among them have the same hash.
#[tactic(auto, using(crate::proofs::StateLemmas::slots_agree))]
pub fn slots_agree()
    ensures { (root slot : List ℕ) (nodes others : List (List ℕ)) (one other : ℕ)
        → HasSlot root slot nodes one → HasSlot root slot others other
        → (one ≡ other) ⊎ HasCollision (known_of nodes) (known_of others) }
{}

/// No bytes have the fault `OutOfMemory` as an account or as the number in a slot. So the fault in
/// [`FaultyAccount`](crate::StateFault::FaultyAccount) or
/// [`FaultySlot`](crate::StateFault::FaultySlot) is never `OutOfMemory`.
#[tactic(auto, using(crate::proofs::OwnFaults::values_own))]
pub fn values_have_own_faults()
    ensures accounts { HasOwnFaults account.reading }
    ensures numbers { HasOwnFaults (uint 32).reading }
{}
