//! The digits of a digest, read and written. No loop has a way out or looks a digit up in a table, so that each is
//! compiled to vectors: those of the library, which do, cost several times as much.

ghost use Rattle.std.specs.Prelude.{◌≡◌, ◌*◌, ◌<◌, length, false, Ok, MatchOption, slice_index, unwrap_or};
ghost use Rattle.std.specs.List.{list_all};
ghost use Rattle.hex.specs.Hex.{decode_of, encode_lower, hex_digit_value, is_hex_digit, lower_digits};

/// What `digit_value` gives for a byte that is no digit.
const NO_DIGIT: u8 = 16;

/// The digest of 64 digits in either case, or `None` where one of the bytes is no digit.
pub(crate) fn digest_of(digits: &[u8]) -> Option<[u8; 32]>
    requires { length digits.now ≡ 64 }
    ensures { MatchOption result (list_all is_hex_digit digits.now ≡ false)
        (λ digest. decode_of digits.now ≡ Ok digest) }
{
    let mut digest = [0u8; 32];
    let mut highest = 0u8;
    for k in 0..32 {
        let high = digit_value(digits[2 * k]);
        let low = digit_value(digits[2 * k + 1]);
        highest = highest.max(high).max(low);
        // It wraps only where a byte is no digit.
        digest[k] = high.wrapping_mul(16).wrapping_add(low);
    }
    if highest >= NO_DIGIT {
        return None;
    }
    Some(digest)
}

/// The value of a digit in either case.
fn digit_value(digit: u8) -> u8
    ensures { result ≡ unwrap_or (hex_digit_value digit) 16 }
{
    match digit {
        b'0'..=b'9' => digit - b'0',
        b'a'..=b'f' => digit - b'a' + 10,
        b'A'..=b'F' => digit - b'A' + 10,
        _ => NO_DIGIT,
    }
}

/// Writes the digits of some bytes, in lower case, into room for just them.
pub(crate) fn write_digits(bytes: &[u8], room: &mut [u8])
    requires { length room.old ≡ 2 * length bytes.now }
    ensures { room.new ≡ encode_lower bytes.now }
{
    for i in 0..bytes.len() {
        room[2 * i] = digit_of(bytes[i] >> 4);
        room[2 * i + 1] = digit_of(bytes[i] & 15);
    }
}

/// The digit of a value, in lower case. The value may be a secret's, of a derived key: this form is compiled without a jump
/// that depends on it, which `make bench` looks at. Sums that have no comparison take a sixth longer at x86-64-v2.
fn digit_of(value: u8) -> u8
    requires { value < 16 }
    ensures { result ≡ slice_index lower_digits value }
{
    if value < 10 {
        b'0' + value
    } else {
        b'a' + (value - 10)
    }
}
