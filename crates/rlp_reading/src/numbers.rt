//! Big-endian digits of numbers.

ghost use Rattle.std.specs.{Prelude.{◌≡◌, ◌≤◌, length}, Option.SomeIff, Int.Digits.number_from_digits};

/// The number of up to eight digits. `None` if there are more.
#[inline(always)]
pub fn few_digits(digits: &[u8]) -> Option<usize>
    ensures { SomeIff result (length digits.now ≤ 8) (number_from_digits 256 digits.now) }
{
    if digits.len() > 8 {
        return None;
    }
    Some(digits_at_once(digits))
}

/// The number of up to eight digits, without a loop.
#[inline(always)]
fn digits_at_once(digits: &[u8]) -> usize
    requires { length digits.now ≤ 8 }
    ensures { result ≡ number_from_digits 256 digits.now }
{
    match digits {
        [a] => *a as usize,
        [a, b] => u16::from_be_bytes([*a, *b]) as usize,
        [a, b, c] => u32::from_be_bytes([0, *a, *b, *c]) as usize,
        [a, b, c, d] => u32::from_be_bytes([*a, *b, *c, *d]) as usize,
        [a, b, c, d, e] => u64::from_be_bytes([0, 0, 0, *a, *b, *c, *d, *e]) as usize,
        [a, b, c, d, e, f] => u64::from_be_bytes([0, 0, *a, *b, *c, *d, *e, *f]) as usize,
        [a, b, c, d, e, f, g] => u64::from_be_bytes([0, *a, *b, *c, *d, *e, *f, *g]) as usize,
        [a, b, c, d, e, f, g, h] => u64::from_be_bytes([*a, *b, *c, *d, *e, *f, *g, *h]) as usize,
        _ => 0,
    }
}
