//! Access lists of blocks, whose accounts, slots and changes are in order.

ghost use Rattle.std.specs.{Int.Digits.number_from_digits, Option.SomeIff, Prelude.{◌≡◌, ℕ, Bool, IfOk, OnOk, length, map, nat_lt, true}, Vec.vec_items};
ghost use Rattle.rlp.specs.{Format.Encoding.encoding, Form.IsPlaced, Laws.form_of};
ghost use Rattle.rlp_records.specs.Hashing.{IsHashOf};
ghost use Rattle.rlp_headers.specs.AccessOrder.{AreAccountsInOrder, account_before, account_changes_in_order, account_inside, block_access_list, first_before, in_order, slot_inside, storage_in_order};
ghost use Rattle.rlp_headers.specs.Changes.{account_changes, change_form, slot_changes};

mod changes;

pub use changes::{AccountChanges, SlotChanges, StateChange};
use rlp::{DecoderError, Each, Encodable, Record, Rlp, RlpStream, StrictRead, Uint, put_list_path};
use rlp_records::{Hash, encoding_hash};
use std::alloc::{AllocError, Global};
use std::marker::Model;

/// What a block read and changed of all accounts: the list of the accounts. The addresses are in
/// ascending order. So are, in each account, the slots of storage that changed and the slots that
/// were read, and in each list of changes the places in the block.
///
/// EIP-7928 is a draft, so this type may change. A slot and its value are written as numbers.
/// Whether a slot is among both the slots that changed and the slots that were read isn't tested.
///
/// Contracts see the list as its accounts.
#[derive(Debug, Drop)]
pub struct BlockAccessList {
    accounts: Vec<AccountChanges>,
}

impl Model for BlockAccessList {
    ghost use Rattle.rlp_headers.specs.{AccessOrder.AreAccountsInOrder, declared.block_access_list.changes.AccountChanges.AccountChanges};
    ghost use Rattle.std.specs.{Prelude.Vec, declared.alloc.Global.Global};

    ghost Value = { Vec AccountChanges Global };

    ghost view = { λ b. b.accounts };

    ghost invariant = { λ b. AreAccountsInOrder b.accounts };
}

impl BlockAccessList {
    /// The list of these accounts, or `None` if the accounts, or a list in an account, aren't in
    /// order.
    #[tactic(auto, unfolding(crate::specs::AccessOrder::AreAccountsInOrder))]
    pub fn new(accounts: Vec<AccountChanges>) -> Option<BlockAccessList>
        ensures { SomeIff result (AreAccountsInOrder accounts) accounts }
    {
        if are_in_order(accounts.as_slice()) {
            Some(BlockAccessList { accounts })
        } else {
            None
        }
    }

    /// The accounts.
    pub fn accounts(&self) -> &[AccountChanges]
        ensures accounts { result.now ≡ vec_items self.now }
        ensures order { AreAccountsInOrder self.now }
    {
        self.accounts.as_slice()
    }

    /// Returns the hash of the encoding, which the header of the block has.
    pub fn hash(&self, alloc: Global) -> Result<Hash, AllocError>
        ensures fits { OnOk result (block_access_list.Fits self.now) }
        ensures hash { IfOk result (λ h. IsHashOf h (encoding (block_access_list.item self.now))) }
    {
        encoding_hash::<BlockAccessList>(alloc, self)
    }
}

/// A clone has the same accounts, as contracts see them.
impl Clone for BlockAccessList {
    ghost is_clone = { λ b copy. block_access_list.reading.seen copy ≡ block_access_list.reading.seen b };

    #[tactic(auto, using(crate::proofs::Clones::clones))]
    fn clone(&self) -> Result<BlockAccessList, AllocError> {
        let accounts = self.accounts.clone()?;
        Ok(BlockAccessList { accounts })
    }
}

/// A value of a list that is in order.
trait Ordered {
    /// The type of what contracts see of a value.
    ghost Seen: { Type 0 };

    /// What contracts see of a value.
    ghost seen: { Self → Seen };

    /// Whether a value comes before another.
    ghost before: { Seen → Seen → Bool };

    /// Whether the lists in a value are in order.
    ghost inside: { Seen → Bool };

    /// Returns whether the value comes before another.
    fn is_before(&self, next: &Self) -> bool
        ensures { result ≡ before (seen self.now) (seen next.now) };

    /// Returns whether the lists in the value are in order.
    fn is_in_order(&self) -> bool
        ensures { result ≡ inside (seen self.now) };
}

/// Returns whether each value is in order and comes before the next.
fn are_in_order<T: Ordered>(values: &[T]) -> bool
    ensures { result ≡ in_order T.before T.inside (map T.seen values.now) }
{
    let mut rest = values;
    while let [first, others @ ..] = rest {
        if !first.is_in_order() {
            return false;
        }
        if let [next, ..] = others {
            if !first.is_before(next) {
                return false;
            }
        }
        rest = others;
    }
    true
}

/// Returns whether the big-endian number of the first bytes is below the number of the second
/// bytes. The two have the same length.
fn is_less(a: &[u8], b: &[u8]) -> bool
    requires { length a.now ≡ length b.now }
    ensures { result ≡ nat_lt (number_from_digits 256 a.now) (number_from_digits 256 b.now) }
{
    a.cmp(&b).is_lt()
}

impl Ordered for Uint<32> {
    ghost Seen = { ℕ };

    ghost seen = { λ u. number_from_digits 256 u.bytes };

    ghost before = { nat_lt };

    ghost inside = { λ m. true };

    fn is_before(&self, next: &Uint<32>) -> bool {
        is_less(&self.bytes, &next.bytes)
    }

    fn is_in_order(&self) -> bool {
        true
    }
}

impl<T: StrictRead> Ordered for StateChange<T> {
    ghost Seen = { (change_form (form_of T.fits T.item T.reading)).reading.M };

    ghost seen = { (change_form (form_of T.fits T.item T.reading)).reading.seen };

    ghost before = { first_before };

    ghost inside = { λ m. true };

    fn is_before(&self, next: &StateChange<T>) -> bool {
        self.block_access_index < next.block_access_index
    }

    fn is_in_order(&self) -> bool {
        true
    }
}

impl Ordered for SlotChanges {
    ghost Seen = { slot_changes.reading.M };

    ghost seen = { slot_changes.reading.seen };

    ghost before = { first_before };

    ghost inside = { slot_inside };

    fn is_before(&self, next: &SlotChanges) -> bool {
        self.slot.is_before(&next.slot)
    }

    fn is_in_order(&self) -> bool {
        are_in_order(self.changes.as_slice())
    }
}

impl Ordered for AccountChanges {
    ghost Seen = { account_changes.reading.M };

    ghost seen = { account_changes.reading.seen };

    ghost before = { account_before };

    ghost inside = { account_inside };

    fn is_before(&self, next: &AccountChanges) -> bool {
        self.address
            .0
            .as_slice()
            .cmp(&next.address.0.as_slice())
            .is_lt()
    }

    fn is_in_order(&self) -> bool {
        is_storage_in_order(self) && are_changes_in_order(self)
    }
}

/// Returns whether the slots of an account that changed are in order, and the slots that were read.
fn is_storage_in_order(account: &AccountChanges) -> bool
    ensures { result ≡ storage_in_order (account_changes.reading.seen account.now) }
{
    are_in_order(account.storage_changes.as_slice())
        && are_in_order(account.storage_reads.as_slice())
}

/// Returns whether the changes of the balance, the nonce and the code of an account are in order.
fn are_changes_in_order(account: &AccountChanges) -> bool
    ensures { result ≡ account_changes_in_order (account_changes.reading.seen account.now) }
{
    are_in_order(account.balance_changes.as_slice())
        && are_in_order(account.nonce_changes.as_slice())
        && are_in_order(account.code_changes.as_slice())
}

impl Encodable for BlockAccessList {
    ghost item = { block_access_list.item };

    ghost fits = { block_access_list.Fits };

    #[tactic(auto, unfolding(crate::specs::AccessOrder::AreAccountsInOrder))]
    fn rlp_append(&self, s: &mut RlpStream) -> Result<(), AllocError> {
        rlp::append_fields!(s, Each(&self.accounts))
    }
}

/// Fails with a fault of the accounts, and with `Custom("accounts are not in order")`.
impl Record for BlockAccessList {
    ghost reading = { block_access_list.reading };

    #[tactic(auto, using(crate::proofs::AccessLists::access_lists))]
    fn decode(alloc: Global, rlp: &Rlp<'_>) -> Result<BlockAccessList, DecoderError> {
        let accounts = rlp.as_list(alloc)?;
        match BlockAccessList::new(accounts) {
            Some(list) => Ok(list),
            None => Err(DecoderError::Custom("accounts are not in order")),
        }
    }

    /// A fault of the order is a fault of the whole list.
    fn put_path(alloc: Global, rlp: &Rlp<'_>, path: &mut Vec<usize>) -> Result<(), AllocError> {
        match rlp.as_list::<AccountChanges>(alloc) {
            Ok(_) => Ok(()),
            Err(DecoderError::OutOfMemory) => Err(AllocError),
            Err(_) => put_list_path::<AccountChanges>(alloc, rlp, path),
        }
    }

    ghost lawful = { block_access_list.reads_strictly };
}
