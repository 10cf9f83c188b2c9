//! Numbers that are kept as their bytes.

ghost use Rattle.std.specs.{Cmp.Lexicographic.slice_cmp, Ordering.nat_cmp, Prelude.{◌≡◌, length}, Int.Digits.number_from_digits};

use rlp_format::Uint;

/// Two values of one `Uint` type that are the same number are equal.
pub fn equal_numbers_are_equal_uints<const N: usize>(one: &Uint<N>, other: &Uint<N>)
    ensures { number_from_digits 256 one.now.bytes ≡ number_from_digits 256 other.now.bytes
        → one.now ≡ other.now }
{
    equal_numbers_are_equal_digits(&one.bytes, &other.bytes)
}

/// Two strings of one length that are the same number are equal.
fn equal_numbers_are_equal_digits(one: &[u8], other: &[u8])
    requires { length one.now ≡ length other.now }
    ensures { number_from_digits 256 one.now ≡ number_from_digits 256 other.now → one.now ≡ other.now }
{
    digits_compare_as_numbers(one, other)
}

/// Two values of one `Uint` type compare as their numbers do.
pub fn uints_compare_as_numbers<const N: usize>(one: &Uint<N>, other: &Uint<N>)
    ensures { ⟦<Uint<N> as Ord>⟧.cmp one.now other.now
        ≡ nat_cmp (number_from_digits 256 one.now.bytes) (number_from_digits 256 other.now.bytes) }
{
    digits_compare_as_numbers(&one.bytes, &other.bytes)
}

/// Two strings of one length compare as their numbers do.
fn digits_compare_as_numbers(one: &[u8], other: &[u8])
    requires { length one.now ≡ length other.now }
    ensures { slice_cmp nat_cmp one.now other.now
        ≡ nat_cmp (number_from_digits 256 one.now) (number_from_digits 256 other.now) }
{}
