//! Where the digits of fields and the lines end, by loads of many bytes.

ghost use Rattle.std.specs.Prelude.{◌≡◌, ◌==◌, ◌<◌, ◌≤◌, ◌+◌, ◌*◌, ◌^◌, ℕ, List, not, length, map, take, drop, IfSome};
ghost use Rattle.bz_base.specs.Byte.{line_feed};
ghost use Rattle.bz_breakpad_lines.specs.Byte.{is_hex, is_decimal, is_past_space};
ghost use Rattle.bz_breakpad_lines.specs.Stops.{AreDigits, AreStops};
ghost use lib.Lanes.{mask_l};

use std::simd::prelude::*;

/// Bits for the bytes that one load shows and that haven't been read yet, one for each.
#[derive(Clone, Copy)]
pub struct Stops {
    /// Whether it is no hexadecimal digit.
    pub hex: u64,
    /// Whether it is no decimal digit.
    pub dec: u64,
    /// Whether it is a line feed.
    pub end: u64,
}

impl Stops {
    /// The bits of the first 64 bytes.
    #[inline(always)]
    pub fn at_front(text: &[u8]) -> Stops
        requires { 64 ≤ length text.now }
        ensures { AreStops text.now result }
    {
        let more = &text[32..];
        Stops {
            hex: joined(hex_stops(text), hex_stops(more)),
            dec: joined(dec_stops(text), dec_stops(more)),
            end: joined(line_feeds(text), line_feeds(more)),
        }
    }

    /// The bits of the first 32 bytes, which show nearly all line records.
    #[inline(always)]
    pub(crate) fn of_line(text: &[u8]) -> Stops
        requires { 32 ≤ length text.now }
        ensures { AreStops text.now result }
    {
        Stops {
            hex: hex_stops(text),
            dec: dec_stops(text),
            end: line_feeds(text),
        }
    }

    /// The bits that are left after so many bytes.
    #[inline(always)]
    pub fn after(self, len: usize) -> Stops
        requires { len < 64 }
        ensures { (text : List ℕ) → AreStops text self → AreStops (drop len text) result }
    {
        Stops {
            hex: self.hex >> len,
            dec: self.dec >> len,
            end: self.end >> len,
        }
    }
}

/// The bits of 32 bytes, and then those of the next 32.
#[inline(always)]
fn joined(front: u64, more: u64) -> u64
    requires front { front < 2 ^ 32 }
    requires more { more < 2 ^ 32 }
    ensures { result ≡ front + 2 ^ 32 * more }
{
    front | (more << 32)
}

/// How many hexadecimal digits stand at the front, if one to eight do.
#[inline(always)]
pub fn few_hex(text: &[u8]) -> Option<u32>
    requires { 32 ≤ length text.now }
    ensures { IfSome result (AreDigits 16 8 text.now 0) }
{
    let digits = hex_stops(text).trailing_zeros();
    if digits == 0 || digits > 8 {
        None
    } else {
        Some(digits)
    }
}

/// A bit for each of the first 32 bytes that is no hexadecimal digit.
#[inline(always)]
fn hex_stops(text: &[u8]) -> u64
    requires { 32 ≤ length text.now }
    ensures { result ≡ mask_l (map (λ b. not (is_hex b)) (take 32 text.now)) }
{
    let bytes = u8x32::from_slice(text);
    let no_digit = (bytes - u8x32::splat(b'0')).simd_ge(u8x32::splat(10));
    let no_letter = ((bytes | u8x32::splat(0x20)) - u8x32::splat(b'a')).simd_ge(u8x32::splat(6));
    (no_digit & no_letter).to_bitmask()
}

/// A bit for each of the first 32 bytes that is no decimal digit.
#[inline(always)]
fn dec_stops(text: &[u8]) -> u64
    requires { 32 ≤ length text.now }
    ensures { result ≡ mask_l (map (λ b. not (is_decimal b)) (take 32 text.now)) }
{
    let bytes = u8x32::from_slice(text);
    (bytes - u8x32::splat(b'0'))
        .simd_ge(u8x32::splat(10))
        .to_bitmask()
}

/// A bit for each of the first 32 bytes that isn't past space. Where a record is known to stand, the
/// fields of numbers end there.
#[inline(always)]
pub(crate) fn space_stops(text: &[u8]) -> u64
    requires { 32 ≤ length text.now }
    ensures { result ≡ mask_l (map (λ b. not (is_past_space b)) (take 32 text.now)) }
{
    u8x32::from_slice(text)
        .simd_le(u8x32::splat(b' '))
        .to_bitmask()
}

/// A bit for each of the first 32 bytes that is a line feed.
#[inline(always)]
pub fn line_feeds(text: &[u8]) -> u64
    requires { 32 ≤ length text.now }
    ensures { result ≡ mask_l (map (λ b. b == line_feed) (take 32 text.now)) }
{
    u8x32::from_slice(text)
        .simd_eq(u8x32::splat(b'\n'))
        .to_bitmask()
}
