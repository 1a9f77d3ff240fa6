//! Numbers in a text, read from its front or from the whole of it.

ghost use Rattle.std.specs.Prelude.{◌≡◌, ◌<◌, ◌≤◌, ◌^◌, length, option_map, IfSome};
ghost use Rattle.std.specs.Char.{digit_value};
ghost use Rattle.bz_bytes.specs.Number.{alone, decimal_at, digits_at, hex_at, whole};

/// The number of the hexadecimal digits at the front, in either case, and the text after them.
/// None: there is no digit, or there are more than `most`.
pub fn read_hex(text: &[u8], most: usize) -> Option<(u64, &[u8])>
    requires { most ≤ 16 }
    ensures reads { option_map (λ read. (read.0, read.1.now)) result ≡ hex_at most text.now }
    ensures small { IfSome result (λ read. read.0 < 16 ^ most) }
{
    digits_at(text, 16, most)
}

/// The number of the decimal digits at the front, and the text after them. None: there is none, or
/// there are more than `most`, or the number is above `greatest`.
pub fn read_decimal(text: &[u8], most: usize, greatest: u64) -> Option<(u64, &[u8])>
    requires { most ≤ 19 }
    ensures reads { option_map (λ read. (read.0, read.1.now)) result ≡ decimal_at most greatest text.now }
    ensures small { IfSome result (λ read. read.0 ≤ greatest) }
{
    let (value, rest) = digits_at(text, 10, most)?;
    if value > greatest {
        return None;
    }
    Some((value, rest))
}

/// The number that the whole text is: one to `most` hexadecimal digits, in either case.
pub fn whole_hex(text: &[u8], most: usize) -> Option<u64>
    requires { most ≤ 16 }
    ensures reads { result ≡ whole (hex_at most text.now) }
    ensures small { IfSome result (λ value. value < 16 ^ most) }
{
    let (value, rest) = read_hex(text, most)?;
    alone(value, rest)
}

/// The number that the whole text is: one to `most` decimal digits, of a number of at most
/// `greatest`.
pub fn whole_decimal(text: &[u8], most: usize, greatest: u64) -> Option<u64>
    requires { most ≤ 19 }
    ensures reads { result ≡ whole (decimal_at most greatest text.now) }
    ensures small { IfSome result (λ value. value ≤ greatest) }
{
    let (value, rest) = read_decimal(text, most, greatest)?;
    alone(value, rest)
}

/// The number that the whole text is: one to ten decimal digits, of a number that 32 bits hold.
pub fn whole_u32(text: &[u8]) -> Option<u32>
    ensures { result ≡ whole (decimal_at 10 4294967295 text.now) }
{
    let value = whole_decimal(text, 10, u64::from(u32::MAX))?;
    Some(value as u32)
}

/// The value, if nothing stands after it.
fn alone(value: u64, rest: &[u8]) -> Option<u64>
    ensures reads { result ≡ alone value rest.now }
    ensures same { IfSome result (λ read. read ≡ value) }
{
    match rest {
        [] => Some(value),
        _ => None,
    }
}

/// The number of the one to `most` digits of the base at the front, and the text after them.
#[inline(always)]
#[tactic(auto, unfolding(crate::specs::Number::digits_at))]
fn digits_at(text: &[u8], base: u64, most: usize) -> Option<(u64, &[u8])>
    requires positive { 0 < base }
    requires fits { base ^ most ≤ 2 ^ 64 }
    ensures reads { option_map (λ read. (read.0, read.1.now)) result ≡ digits_at base most text.now }
    ensures small { IfSome result (λ read. read.0 < base ^ most) }
{
    let mut value = 0;
    let mut len = 0;
    for byte in text {
        let digit = u64::from(digit(*byte));
        if digit >= base {
            break;
        }
        if len == most {
            return None;
        }
        value = value * base + digit;
        len += 1;
    }
    if len == 0 {
        return None;
    }
    Some((value, &text[len..]))
}

/// The value of each byte as a digit, or 36 where it is no digit of any base.
static DIGITS: [u8; 256] = [
    36, 36, 36, 36, 36, 36, 36, 36, 36, 36, 36, 36, 36, 36, 36, 36, 36, 36, 36, 36, 36, 36, 36, 36,
    36, 36, 36, 36, 36, 36, 36, 36, 36, 36, 36, 36, 36, 36, 36, 36, 36, 36, 36, 36, 36, 36, 36, 36,
    0, 1, 2, 3, 4, 5, 6, 7, 8, 9, 36, 36, 36, 36, 36, 36, 36, 10, 11, 12, 13, 14, 15, 16, 17, 18,
    19, 20, 21, 22, 23, 24, 25, 26, 27, 28, 29, 30, 31, 32, 33, 34, 35, 36, 36, 36, 36, 36, 36, 10,
    11, 12, 13, 14, 15, 16, 17, 18, 19, 20, 21, 22, 23, 24, 25, 26, 27, 28, 29, 30, 31, 32, 33, 34,
    35, 36, 36, 36, 36, 36, 36, 36, 36, 36, 36, 36, 36, 36, 36, 36, 36, 36, 36, 36, 36, 36, 36, 36,
    36, 36, 36, 36, 36, 36, 36, 36, 36, 36, 36, 36, 36, 36, 36, 36, 36, 36, 36, 36, 36, 36, 36, 36,
    36, 36, 36, 36, 36, 36, 36, 36, 36, 36, 36, 36, 36, 36, 36, 36, 36, 36, 36, 36, 36, 36, 36, 36,
    36, 36, 36, 36, 36, 36, 36, 36, 36, 36, 36, 36, 36, 36, 36, 36, 36, 36, 36, 36, 36, 36, 36, 36,
    36, 36, 36, 36, 36, 36, 36, 36, 36, 36, 36, 36, 36, 36, 36, 36, 36, 36, 36, 36, 36, 36, 36, 36,
    36, 36, 36, 36, 36, 36, 36, 36, 36, 36, 36, 36, 36, 36,
];

/// The value of the byte as a digit, or 36 where it is no digit of any base.
#[inline(always)]
fn digit(byte: u8) -> u8
    ensures { result ≡ digit_value byte }
{
    DIGITS[byte as usize]
}
