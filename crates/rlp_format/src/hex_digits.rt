//! Bytes as hexadecimal digits in lower case, two for each byte: base 16 of RFC 4648, but in lower
//! case.

ghost use Rattle.std.specs.{Prelude.{◌≡◌, ◌<◌, ◌*◌, false, length}, Fmt.digit_glyph};
ghost use Rattle.hex.specs.Hex.{encode_lower};

/// Returns the digit of a number below 16, as an ASCII character.
#[inline]
pub fn digit_char(digit: u8) -> u8
    requires { digit < 16 }
    ensures { result ≡ digit_glyph false digit }
{
    if digit < 10 {
        b'0' + digit
    } else {
        b'a' - 10 + digit
    }
}

/// Fills the slice with each byte as two digits, without a branch for each digit.
#[inline]
pub fn put_digits(bytes: &[u8], digits: &mut [u8])
    requires { length digits.old ≡ 2 * length bytes.now }
    ensures { digits.new ≡ encode_lower bytes.now }
{
    for i in 0..bytes.len() {
        digits[2 * i] = digit_char(bytes[i] / 16);
        digits[2 * i + 1] = digit_char(bytes[i] % 16);
    }
}
