//! Hexadecimal digits, tested and decoded without a branch for each digit.

ghost use Rattle.std.specs.{Prelude.{ℕ, ◌≡◌, ◌*◌, ◌/◌, ◌%◌, ◌<◌, ◌≤◌, length, take, slice_index, IsTrue, Some, None, Ok, false}, List.list_all, Result.result_ok};
ghost use Rattle.hex.specs.Hex.{decode_of, hex_digit_value, is_hex_digit, pair_value};

/// Whether a byte is a digit of either case.
fn is_digit(byte: u8) -> bool
    ensures { result ≡ is_hex_digit byte }
{
    byte.is_ascii_hexdigit()
}

/// Whether all bytes are digits. It reads every byte, so that the compiler can test many at once.
fn are_digits(text: &[u8]) -> bool
    ensures { result ≡ list_all is_hex_digit text.now }
{
    let mut all = true;
    for byte in text {
        all &= is_digit(*byte);
    }
    all
}

/// Whether a text is hexadecimal digits, two for each byte.
pub fn are_pairs(text: &[u8]) -> bool
    ensures some { IsTrue result
        → (length text.now % 2 ≡ 0) × IsTrue (list_all is_hex_digit text.now) }
    ensures none { result ≡ false → result_ok (decode_of text.now) ≡ None }
{
    if text.len() % 2 != 0 {
        return false;
    }
    are_digits(text)
}

/// The number that a digit stands for. The low four bits of `A` and of `a` are 1.
fn value_of(digit: u16) -> u16
    requires { IsTrue (is_hex_digit digit) }
    ensures value { hex_digit_value digit ≡ Some result }
    ensures small { result < 16 }
{
    digit % 16 + digit / 64 * 9
}

/// The byte of two digits. They are taken as one number, so that the compiler reads many pairs at
/// once, and not each digit alone.
#[inline(always)]
#[tactic(auto, using(crate::proofs::DigitLemmas::pair_read))]
fn byte_of(pair: [u8; 2]) -> u8
    requires { IsTrue (list_all is_hex_digit pair) }
    ensures { (at : ℕ) → pair_value (slice_index pair 0) (slice_index pair 1) at ≡ Ok result }
{
    let digits = u16::from_le_bytes(pair);
    (value_of(digits % 256) * 16 + value_of(digits / 256)) as u8
}

/// Writes the bytes of digits, two for each byte, to the front of a buffer.
pub fn put_bytes(digits: &[u8], out: &mut [u8])
    requires two { length digits.now % 2 ≡ 0 }
    requires room { length digits.now ≤ 2 * length out.old }
    requires digits { IsTrue (list_all is_hex_digit digits.now) }
    ensures { decode_of digits.now ≡ Ok (take (length digits.now / 2) out.new) }
{
    let (pairs, _) = digits.as_chunks::<2>();
    for i in 0..pairs.len() {
        out[i] = byte_of(pairs[i]);
    }
}
