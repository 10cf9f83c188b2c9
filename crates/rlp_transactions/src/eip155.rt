//! What `v` says in the signature of a transaction without a type (EIP-155).

ghost use Rattle.std.specs.{Prelude.{◌≡◌, ◌≢◌, ◌≤◌, ◌^◌, IfNone, IfSome}, Int.Digits.number_from_digits};
ghost use Rattle.rlp_transactions.specs.Eip155.{FitsChain, said_by, v_of};

use rlp::Uint;

/// The two things that `v` says in the signature of a transaction without a type, as in EIP-155.
#[derive(Debug, Clone, Copy, PartialEq, Eq)]
pub struct Eip155 {
    /// The number of the chain that is signed with the transaction, or `None` if only its six fields
    /// are signed.
    pub chain_id: Option<u64>,
    /// The parity of the y value of the signature's point.
    pub y_parity: bool,
}

impl Eip155 {
    /// Returns what `v` says. The numbers 27 and 28 say no chain. A number from 35 on is twice the
    /// number of the chain, plus 35 or 36. Returns `None` for 0 to 26 and 29 to 34, and if the
    /// number of the chain has more than 64 bits.
    #[tactic(auto, using(crate::proofs::Parities::v_says))]
    pub fn from_v(v: &Uint<32>) -> Option<Eip155>
        ensures says { result ≡ said_by (number_from_digits 256 v.now.bytes) }
        ensures some { IfSome result (λ x. number_from_digits 256 v.now.bytes ≡ v_of x) }
        ensures none { IfNone result ((x : Eip155) → FitsChain x.chain_id
            → number_from_digits 256 v.now.bytes ≢ v_of x) }
    {
        match small_number(&v.bytes) {
            Some(27) => Some(Eip155 {
                chain_id: None,
                y_parity: false,
            }),
            Some(28) => Some(Eip155 {
                chain_id: None,
                y_parity: true,
            }),
            Some(v) if v >= 35 => {
                let chain_id = (v - 35) / 2;
                if chain_id > u64::MAX as u128 {
                    return None;
                }
                Some(Eip155 {
                    chain_id: Some(chain_id as u64),
                    y_parity: (v - 35) % 2 == 1,
                })
            }
            _ => None,
        }
    }

    /// Returns the `v` of a signature: 27 or 28 without a chain, or else twice the number of the
    /// chain, plus 35 or 36.
    pub fn to_v(&self) -> Uint<32>
        ensures { number_from_digits 256 result.bytes ≡ v_of self.now }
    {
        let even = match self.chain_id {
            Some(chain_id) => chain_id as u128 * 2 + 35,
            None => 27,
        };
        wide(even + self.y_parity as u128)
    }
}

// Returns the number of these big-endian digits to the base 256, or `None` if it has more than 128
// bits.
fn small_number(digits: &[u8]) -> Option<u128>
    ensures some { IfSome result (λ n. n ≡ number_from_digits 256 digits.now) }
    ensures none { IfNone result (2 ^ 128 ≤ number_from_digits 256 digits.now) }
{
    let mut number: u128 = 0;
    for digit in digits {
        if number > u128::MAX / 256 {
            return None;
        }
        number = number * 256 + *digit as u128;
    }
    Some(number)
}

// Returns the number with 256 bits.
fn wide(number: u128) -> Uint<32>
    ensures { number_from_digits 256 result.bytes ≡ number }
{
    let mut bytes = [0; 32];
    bytes[16..].copy_from_slice(&number.to_be_bytes());
    Uint { bytes }
}
