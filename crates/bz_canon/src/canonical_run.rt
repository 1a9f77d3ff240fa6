//! Texts of line records that are canonical as they stand.

ghost use Rattle.std.specs.Prelude.{◌≡◌, ◌≤◌, ◌==◌, ◌||◌, ◌+◌, ◌<◌, ℕ, true, false, not, length, map, slice_index, take};
ghost use Rattle.bz_base.specs.Byte.{space};
ghost use Rattle.bz_canon.specs.CanonicalRun.{AreCanonical, IsCanonicalRun, is_excess, is_gap, is_lower, zero_digit};
ghost use lib.Lanes.{mask_l};

use std::simd::prelude::*;

/// How many bytes one load shows.
const SHOWN: usize = 32;

/// Whether line records are spelled in a text as a canonical text spells them. It may say no where they
/// are: of a short text.
pub(crate) fn is_canonical_run(text: &[u8]) -> bool
    ensures { result ≡ true → IsCanonicalRun text.now }
{
    if text.len() < SHOWN || text[text.len() - 1] != b'\n' || is_excess(b'\n', text[0], text[1]) {
        return false;
    }
    are_canonical(text)
}

/// Whether a byte is too much between two others.
fn is_excess(before: u8, byte: u8, after: u8) -> bool
    ensures { result ≡ is_excess before byte after }
{
    before <= b' ' && (byte == b' ' || byte == b'0') && after > b' '
}

/// Whether each byte of the text may stand in a canonical one, and none is too much.
fn are_canonical(text: &[u8]) -> bool
    requires { 32 ≤ length text.now }
    ensures { result ≡ true → AreCanonical text.now (length text.now) }
{
    let mut place = 0;
    while text.len() - place >= SHOWN {
        if !shows_canonical(&text[place..]) {
            return false;
        }
        // The next load shows the last two bytes again, in front of those that follow.
        place += SHOWN - 2;
    }
    shows_canonical(&text[text.len() - SHOWN..])
}

/// The same of the first 32 bytes.
#[inline(always)]
fn shows_canonical(text: &[u8]) -> bool
    requires { 32 ≤ length text.now }
    ensures { result ≡ true → AreCanonical text.now 32 }
{
    let excess = gaps(text) & (spares(text) >> 1) & (solids(text) >> 2);
    (excess | uppers(text)) == 0
}

/// A bit for each of the first 32 bytes that is a space or below it.
#[inline(always)]
fn gaps(text: &[u8]) -> u64
    requires { 32 ≤ length text.now }
    ensures { result ≡ mask_l (map is_gap (take 32 text.now)) }
{
    u8x32::from_slice(text)
        .simd_le(u8x32::splat(b' '))
        .to_bitmask()
}

/// A bit for each of the first 32 bytes that is above the space.
#[inline(always)]
fn solids(text: &[u8]) -> u64
    requires { 32 ≤ length text.now }
    ensures { result ≡ mask_l (map (λ b. not (is_gap b)) (take 32 text.now)) }
{
    u8x32::from_slice(text)
        .simd_gt(u8x32::splat(b' '))
        .to_bitmask()
}

/// A bit for each of the first 32 bytes that is a space or a zero.
#[inline(always)]
fn spares(text: &[u8]) -> u64
    requires { 32 ≤ length text.now }
    ensures { result ≡ mask_l (map (λ b. b == space || b == zero_digit) (take 32 text.now)) }
{
    let bytes = u8x32::from_slice(text);
    let spaces = bytes.simd_eq(u8x32::splat(b' '));
    let zeros = bytes.simd_eq(u8x32::splat(b'0'));
    (spaces | zeros).to_bitmask()
}

/// A bit for each of the first 32 bytes that isn't in lower case.
#[inline(always)]
fn uppers(text: &[u8]) -> u64
    requires { 32 ≤ length text.now }
    ensures { result ≡ mask_l (map (λ b. not (is_lower b)) (take 32 text.now)) }
{
    let bytes = u8x32::from_slice(text);
    let unset = (bytes & u8x32::splat(0x20)).simd_eq(u8x32::splat(0));
    let others = bytes.simd_ne(u8x32::splat(b'\n'));
    (unset & others).to_bitmask()
}
