//! Keccak-256, the hash function of Ethereum: the sponge of FIPS 202 over Keccak-f[1600].

ghost use Rattle.std.specs.Prelude.{◌≡◌, ◌+◌, ◌-◌, ◌*◌, ◌<◌, ◌≤◌, ◌++◌, length};
ghost use Rattle.rlp_keccak.specs.{Complements.{masked}, Keccak.{absorb, bytes_of_lanes, keccak256, lane_of_bytes, padding}};

mod permutation;

use permutation::keccak_f;

// The length of a block in bytes.
const RATE: usize = 136;

fn lane(block: &[u8], i: usize) -> u64
    requires { 8 * i + 8 ≤ length block.now }
    ensures { result ≡ lane_of_bytes block.now i }
{
    u64::from_le_bytes([
        block[8 * i],
        block[8 * i + 1],
        block[8 * i + 2],
        block[8 * i + 3],
        block[8 * i + 4],
        block[8 * i + 5],
        block[8 * i + 6],
        block[8 * i + 7],
    ])
}

// The lanes of a state, of which the first ones are xored with those of a block.
macro_rules! xored {
    ($state:ident $block:ident: $($i:literal)+; $($kept:literal)+) => {
        [$($state[$i] ^ lane($block, $i),)+ $($state[$kept]),+]
    };
}

// Takes a block into the state, in which some lanes are complements.
fn absorb(state: &mut [u64; 25], block: &[u8])
    requires { length block.now ≡ 136 }
    ensures { masked state.new ≡ absorb (masked state.old) block.now }
{
    *state = xored!(state block: 0 1 2 3 4 5 6 7 8 9 10 11 12 13 14 15 16; 17 18 19 20 21 22 23 24);
    keccak_f(state);
}

// The last block of a message: the bytes after its whole blocks, and the padding.
fn last_block(rest: &[u8]) -> [u8; 136]
    requires { length rest.now < 136 }
    ensures { result ≡ rest.now ++ padding (136 - length rest.now) }
{
    let mut block = [0; 136];
    block[..rest.len()].copy_from_slice(rest);
    block[rest.len()] = 0x01;
    block[135] ^= 0x80;
    block
}

// The first 32 bytes of the state.
fn digest(state: &[u64; 25]) -> [u8; 32]
    ensures { result ≡ bytes_of_lanes (masked state.now) 4 }
{
    let first = [state[0], !state[1], !state[2], state[3]];
    let mut out = [0u8; 32];
    'lanes: for i in 0..4 {
        out[8 * i..8 * i + 8].copy_from_slice(&first[i].to_le_bytes());
    }
    out
}

/// Returns the Keccak-256 hash of these bytes, as in Ethereum. This isn't SHA3-256 of FIPS 202,
/// which pads the bytes in another way. The function doesn't allocate and never fails.
///
/// ```rust
/// assert_eq!(rt; crate::keccak256(b"")[..4], [0xc5, 0xd2, 0x46, 0x01]);
/// ```
pub fn keccak256(bytes: &[u8]) -> [u8; 32]
    ensures { result ≡ keccak256 bytes.now }
{
    let mut state = [
        0u64, !0, !0, 0, 0, 0, 0, 0, !0, 0, 0, 0, !0, 0, 0, 0, 0, !0, 0, 0, !0, 0, 0, 0, 0,
    ];
    let count = bytes.len() / RATE;
    'whole: for i in 0..count {
        absorb(&mut state, &bytes[RATE * i..RATE * i + RATE]);
    }
    absorb(&mut state, &last_block(&bytes[RATE * count..]));
    digest(&state)
}
