//! The numbers of one to eight digits, with no loop over the digits.

ghost use Rattle.std.specs.Prelude.{◌≡◌, ◌+◌, ◌<◌, ◌≤◌, length, take};
ghost use Rattle.std.specs.Int.Digits.{number_from_digits};
ghost use Rattle.std.specs.Str.Parse.{digits_value};
ghost use Rattle.bz_base.specs.Number.{digits_len};
ghost use Rattle.bz_breakpad_lines.specs.Stops.{AreDigits, number_between};

/// So many bytes at the front as a number, the first one its greatest.
#[inline(always)]
fn bytes_front(text: &[u8], count: u32) -> u64
    requires room { 8 ≤ length text.now }
    requires positive { 0 < count }
    requires few { count ≤ 8 }
    ensures { result ≡ number_from_digits 256 (take count text.now) }
{
    let bytes = u64::from_be_bytes([
        text[0], text[1], text[2], text[3], text[4], text[5], text[6], text[7],
    ]);
    bytes >> (64 - 8 * count)
}

/// The same of at most four bytes.
#[inline(always)]
fn four_bytes_front(text: &[u8], count: u32) -> u32
    requires room { 4 ≤ length text.now }
    requires positive { 0 < count }
    requires few { count ≤ 4 }
    ensures { result ≡ number_from_digits 256 (take count text.now) }
{
    let bytes = u32::from_be_bytes([text[0], text[1], text[2], text[3]]);
    bytes >> (32 - 8 * count)
}

/// The number that the decimal digits between two places spell.
#[inline(always)]
pub(crate) fn dec_between(text: &[u8], from: u32, end: u32) -> u32
    requires room { from + 8 ≤ length text.now }
    requires digits { AreDigits 10 8 text.now from end }
    ensures { result ≡ number_between 10 text.now from end }
{
    short_dec_front(&text[from as usize..], end - from)
}

/// The number that the hexadecimal digits between two places spell.
#[inline(always)]
pub(crate) fn hex_between(text: &[u8], from: u32, end: u32) -> u32
    requires room { from + 8 ≤ length text.now }
    requires digits { AreDigits 16 8 text.now from end }
    ensures { result ≡ number_between 16 text.now from end }
{
    short_hex_front(&text[from as usize..], end - from)
}

/// The number that so many decimal digits at the front spell, where mostly there are four at most.
#[inline(always)]
fn short_dec_front(text: &[u8], digits: u32) -> u32
    requires room { 8 ≤ length text.now }
    requires positive { 0 < digits }
    requires few { digits ≤ 8 }
    requires digits { digits_len 10 text.now ≡ digits }
    ensures { result ≡ digits_value 10 (take digits text.now) }
{
    if digits > 4 {
        return dec_front(text, digits);
    }
    let values = four_bytes_front(text, digits) & 0x0f0f_0f0f;
    let pairs = (values + 10 * (values >> 8)) & 0x00ff_00ff;
    (pairs + 100 * (pairs >> 16)) & 0xffff
}

/// The number that so many hexadecimal digits at the front spell, where mostly there are four at most.
#[inline(always)]
fn short_hex_front(text: &[u8], digits: u32) -> u32
    requires room { 8 ≤ length text.now }
    requires positive { 0 < digits }
    requires few { digits ≤ 8 }
    requires digits { digits_len 16 text.now ≡ digits }
    ensures { result ≡ digits_value 16 (take digits text.now) }
{
    if digits > 4 {
        return hex_front(text, digits);
    }
    let bytes = four_bytes_front(text, digits);
    let letters = (bytes & 0x4040_4040) >> 6;
    let values = (bytes & 0x0f0f_0f0f) + 9 * letters;
    let pairs = (values + (values >> 4)) & 0x00ff_00ff;
    (pairs + (pairs >> 8)) & 0xffff
}

/// The number that so many decimal digits at the front spell.
pub fn dec_front(text: &[u8], digits: u32) -> u32
    requires room { 8 ≤ length text.now }
    requires positive { 0 < digits }
    requires few { digits ≤ 8 }
    requires digits { digits_len 10 text.now ≡ digits }
    ensures { result ≡ digits_value 10 (take digits text.now) }
{
    let values = bytes_front(text, digits) & 0x0f0f_0f0f_0f0f_0f0f;
    // Neighbours are put together: eight digits to four numbers, to two, to one.
    let pairs = (values + 10 * (values >> 8)) & 0x00ff_00ff_00ff_00ff;
    let fours = (pairs + 100 * (pairs >> 16)) & 0x0000_ffff_0000_ffff;
    ((fours + 10_000 * (fours >> 32)) & 0xffff_ffff) as u32
}

/// The number that so many hexadecimal digits at the front spell.
#[inline(always)]
pub fn hex_front(text: &[u8], digits: u32) -> u32
    requires room { 8 ≤ length text.now }
    requires positive { 0 < digits }
    requires few { digits ≤ 8 }
    requires digits { digits_len 16 text.now ≡ digits }
    ensures { result ≡ digits_value 16 (take digits text.now) }
{
    let bytes = bytes_front(text, digits);
    // A letter has this bit, and its low bits are nine below its value.
    let letters = (bytes & 0x4040_4040_4040_4040) >> 6;
    let values = (bytes & 0x0f0f_0f0f_0f0f_0f0f) + 9 * letters;
    let pairs = (values + (values >> 4)) & 0x00ff_00ff_00ff_00ff;
    let fours = (pairs + (pairs >> 8)) & 0x0000_ffff_0000_ffff;
    ((fours + (fours >> 16)) & 0xffff_ffff) as u32
}
