//! The texts of a string table.

ghost use Rattle.std.specs.Prelude.{◌≡◌, option_map};
ghost use Rattle.bz_gsym.specs.Strings.{is_nonzero_ascii, string_at};

use bz_base::{ByteTest, run_len, text_before_zero};
use std::simd::prelude::*;

/// The string at a place of a string table.
#[inline(always)]
pub(crate) fn text_at(table: &[u8], place: usize) -> Option<&str>
    ensures { option_map (λ text. text.now) result ≡ string_at table.now place }
{
    if place > table.len() {
        return None;
    }
    let bytes = &table[place..];
    let len = run_len::<AsciiBytes>(bytes);
    if len < bytes.len() && bytes[len] == 0 {
        // ASCII is UTF-8.
        return Some(unsafe { std::str::from_utf8_unchecked(&bytes[..len]) });
    }
    checked_text(bytes)
}

/// The string in front of the bytes.
#[cold]
#[inline(never)]
fn checked_text(bytes: &[u8]) -> Option<&str>
    ensures { option_map (λ text. text.now) result ≡ string_at bytes.now 0 }
{
    let text = text_before_zero(bytes)?;
    std::str::from_utf8(text).ok()
}

/// The test of the bytes of a text in ASCII.
struct AsciiBytes;

impl ByteTest for AsciiBytes {
    ghost passes = { is_nonzero_ascii };

    #[inline(always)]
    fn stops(text: &[u8]) -> u64 {
        (u8x32::from_slice(text) - u8x32::splat(1))
            .simd_ge(u8x32::splat(127))
            .to_bitmask()
    }
}
