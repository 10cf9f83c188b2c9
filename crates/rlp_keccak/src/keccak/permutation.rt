// Keccak-f[1600] (FIPS 202, section 3), on 25 lanes of 64 bits.

ghost use Rattle.std.specs.Prelude.{◌≡◌, ◌+◌, ◌*◌, ◌<◌};
ghost use Rattle.rlp_keccak.specs.{Complements.{masked, masked_by_pi}, Keccak.{chi, iota, keccak_f, pi, rho, round, rounds, theta}};

// RC of each round.
const ROUND_CONSTANTS: [u64; 24] = [
    0x0000_0000_0000_0001,
    0x0000_0000_0000_8082,
    0x8000_0000_0000_808A,
    0x8000_0000_8000_8000,
    0x0000_0000_0000_808B,
    0x0000_0000_8000_0001,
    0x8000_0000_8000_8081,
    0x8000_0000_0000_8009,
    0x0000_0000_0000_008A,
    0x0000_0000_0000_0088,
    0x0000_0000_8000_8009,
    0x0000_0000_8000_000A,
    0x0000_0000_8000_808B,
    0x8000_0000_0000_008B,
    0x8000_0000_0000_8089,
    0x8000_0000_0000_8003,
    0x8000_0000_0000_8002,
    0x8000_0000_0000_0080,
    0x0000_0000_0000_800A,
    0x8000_0000_8000_000A,
    0x8000_0000_8000_8081,
    0x8000_0000_0000_8080,
    0x0000_0000_8000_0001,
    0x8000_0000_8000_8008,
];

// The lanes at these places, each xored with the value beside it.
macro_rules! xored {
    ($a:ident: $($i:literal $by:ident),+) => {
        [$($a[$i] ^ $by),+]
    };
}

// The order of the lines is for LLVM, as in `chi_iota`.
#[tactic(auto, unfolding(crate::specs::Keccak::theta))]
#[inline(always)]
fn theta(a: [u64; 25]) -> [u64; 25]
    ensures { result ≡ theta a }
{
    let c1 = a[1] ^ a[6] ^ a[11] ^ a[16] ^ a[21];
    let c3 = a[3] ^ a[8] ^ a[13] ^ a[18] ^ a[23];
    let c0 = a[0] ^ a[5] ^ a[10] ^ a[15] ^ a[20];
    let c2 = a[2] ^ a[7] ^ a[12] ^ a[17] ^ a[22];
    let c4 = a[4] ^ a[9] ^ a[14] ^ a[19] ^ a[24];
    let d4 = c3 ^ c0.rotate_left(1);
    let d0 = c4 ^ c1.rotate_left(1);
    let d1 = c0 ^ c2.rotate_left(1);
    let d3 = c2 ^ c4.rotate_left(1);
    let d2 = c1 ^ c3.rotate_left(1);
    xored!(a: 0 d0, 1 d1, 2 d2, 3 d3, 4 d4, 5 d0, 6 d1, 7 d2, 8 d3, 9 d4, 10 d0, 11 d1, 12 d2,
        13 d3, 14 d4, 15 d0, 16 d1, 17 d2, 18 d3, 19 d4, 20 d0, 21 d1, 22 d2, 23 d3, 24 d4)
}

// The lanes at these places, each rotated by the number beside it.
macro_rules! rotated {
    ($a:ident: $($i:literal $by:literal),+) => {
        [$($a[$i].rotate_left($by)),+]
    };
}

// π after ρ.
#[tactic(auto, unfolding(crate::specs::Keccak::pi, crate::specs::Keccak::rho))]
#[inline(always)]
fn rho_pi(a: [u64; 25]) -> [u64; 25]
    ensures { result ≡ pi (rho a) }
{
    rotated!(a: 0 0, 6 44, 12 43, 18 21, 24 14, 3 28, 9 20, 10 3, 16 45, 22 61,
        1 1, 7 6, 13 25, 19 8, 20 18, 4 27, 5 36, 11 10, 17 15, 23 56,
        2 62, 8 55, 14 39, 15 41, 21 2)
}

// χ and ι of a state in which some lanes are complements, so that only five are complemented here.
// With the lines in this order LLVM keeps more lanes in registers.
#[inline(always)]
fn chi_iota(b: [u64; 25], i: usize) -> [u64; 25]
    requires { i < 24 }
    ensures { masked result ≡ iota (chi (masked_by_pi b)) i }
{
    let c4 = b[4] ^ (b[0] & b[1]);
    let c1 = b[1] ^ (!b[2] | b[3]);
    let c0 = b[0] ^ (b[1] | b[2]) ^ ROUND_CONSTANTS[i];
    let c3 = b[3] ^ (b[4] | b[0]);
    let c2 = b[2] ^ (b[3] & b[4]);
    let c23 = b[23] ^ (b[24] | b[20]);
    let c22 = b[22] ^ (b[23] & b[24]);
    let c20 = b[20] ^ (!b[21] & b[22]);
    let c24 = b[24] ^ (b[20] & b[21]);
    let c21 = !b[21] ^ (b[22] | b[23]);
    let c7 = b[7] ^ (b[8] | !b[9]);
    let c6 = b[6] ^ (b[7] & b[8]);
    let c5 = b[5] ^ (b[6] | b[7]);
    let c9 = b[9] ^ (b[5] & b[6]);
    let c8 = b[8] ^ (b[9] | b[5]);
    let c15 = b[15] ^ (b[16] & b[17]);
    let c17 = b[17] ^ (!b[18] | b[19]);
    let c16 = b[16] ^ (b[17] | b[18]);
    let c18 = !b[18] ^ (b[19] & b[15]);
    let c19 = b[19] ^ (b[15] | b[16]);
    let c12 = b[12] ^ (!b[13] & b[14]);
    let c14 = b[14] ^ (b[10] & b[11]);
    let c11 = b[11] ^ (b[12] & b[13]);
    let c13 = !b[13] ^ (b[14] | b[10]);
    let c10 = b[10] ^ (b[11] | b[12]);
    [
        c0, c1, c2, c3, c4, c5, c6, c7, c8, c9, c10, c11, c12, c13, c14, c15, c16, c17, c18, c19,
        c20, c21, c22, c23, c24,
    ]
}

#[inline(always)]
fn round(a: [u64; 25], i: usize) -> [u64; 25]
    requires { i < 24 }
    ensures { masked result ≡ round (masked a) i }
{
    chi_iota(rho_pi(theta(a)), i)
}

// Keccak-f[1600] of a state in which some lanes are complements, two rounds a turn.
#[tactic(auto, using(crate::proofs::RoundConstants::rounds_next), unfolding(crate::specs::Keccak::rounds))]
pub(crate) fn keccak_f(state: &mut [u64; 25])
    ensures { masked state.new ≡ keccak_f (masked state.old) }
{
    'rounds: for i in 0..12 {
        *state = round(round(*state, 2 * i), 2 * i + 1);
    }
}
