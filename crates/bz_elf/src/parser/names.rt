//! The names of symbols in the strings of an ELF file.

ghost use Rattle.std.specs.Prelude.{◌≡◌, ◌↔◌, ℕ, ◌<◌, ◌≤◌, length, drop, take, false, true, IfNone, IfOk, IfSome, IsOkUnless};
ghost use Rattle.std.specs.List.{list_all};
ghost use Rattle.std.specs.List.Sorted.{IsNonDecreasing};
ghost use Rattle.std.specs.Str.{IsCharBoundary, IsUtf8};
ghost use Rattle.bz_base.specs.declared.error.Error.{Error};
ghost use Rattle.bz_base.specs.ZeroEnded.{before_zero, zero_ended};
ghost use Rattle.bz_elf.specs.Names.{IsText, is_name_at};
ghost use Rattle.bz_elf.specs.Symbols.{is_name, is_named};

use crate::types::SymbolEntry;
use bz_base::{Result, text_before_zero};
use memchr::memrchr;
use std::alloc::Global;

/// Whether each symbol's name stands in the strings. However many names share a byte, it is looked at
/// a few times only.
pub(crate) fn are_named(alloc: Global, strings: &[u8], symbols: &[SymbolEntry]) -> Result<bool>
    ensures ok { IfOk result (λ named. named ≡ list_all (is_named strings.now) symbols.now) }
    ensures memory { IsOkUnless result Error.OutOfMemory }
{
    // In most files this text holds all names, and none is left to be looked at by itself.
    let end = text_end(strings, 0).unwrap_or(0);
    let Some(mut places) = places_behind(alloc, strings, end, symbols)? else {
        return Ok(false);
    };
    places.sort_unstable();
    Ok(are_names(strings, places.as_slice()))
}

/// The places of those names that don't stand in the text up to `end`. None: one of the others begins
/// inside a character.
fn places_behind(
    alloc: Global,
    strings: &[u8],
    end: usize,
    symbols: &[SymbolEntry],
) -> Result<Option<Vec<u32>>>
    requires { IsText strings.now 0 end }
    ensures some { IfOk result (λ found. IfSome found (λ places. list_all (is_name_at strings.now) places.items ≡ list_all (is_named strings.now) symbols.now)) }
    ensures none { IfOk result (λ found. IfNone found (list_all (is_named strings.now) symbols.now ≡ false)) }
    ensures memory { IsOkUnless result Error.OutOfMemory }
{
    let mut places = Vec::new(alloc);
    for symbol in symbols {
        let place = symbol.name as usize;
        if place >= end {
            places.push(symbol.name)?;
        } else if !is_boundary(strings, place) {
            return Ok(None);
        }
    }
    Ok(Some(places))
}

/// Whether a name stands at each of the places, which don't descend.
fn are_names(strings: &[u8], places: &[u32]) -> bool
    requires { IsNonDecreasing places.now }
    ensures { result ≡ list_all (is_name_at strings.now) places.now }
{
    // The end of the text that the name before stands in.
    let mut end = 0;
    for place in places {
        let place = *place as usize;
        if place >= end {
            let Some(next) = text_end(strings, place) else {
                return false;
            };
            end = next;
        } else if !is_boundary(strings, place) {
            return false;
        }
    }
    true
}

/// Where the text ends that begins with the name at a place: behind the last zero byte in front of
/// which it is UTF-8. None: no name stands at the place.
fn text_end(strings: &[u8], place: usize) -> Option<usize>
    ensures text { IfSome result (IsText strings.now place) }
    ensures name { IfSome result (λ _. is_name_at strings.now place ≡ true) }
    ensures none { IfNone result (is_name_at strings.now place ≡ false) }
{
    let rest = strings.get(place..)?;
    let last = memrchr(0, &rest[..utf8_len(rest)])?;
    Some(place + last + 1)
}

/// How many bytes in front are UTF-8.
fn utf8_len(bytes: &[u8]) -> usize
    ensures within { result ≤ length bytes.now }
    ensures utf8 { IsUtf8 (take result bytes.now) }
    ensures longest { (len : ℕ) → result < len → len ≤ length bytes.now → ¬ (IsUtf8 (take len bytes.now)) }
{
    match std::str::from_utf8(bytes) {
        Ok(text) => text.len(),
        Err(error) => error.valid_up_to(),
    }
}

/// Whether a character begins at a place. A zero byte is a character too.
fn is_boundary(strings: &[u8], place: usize) -> bool
    requires { place < length strings.now }
    ensures { (result ≡ true) ↔ IsCharBoundary strings.now place }
{
    !(0x80..0xc0).contains(&strings[place])
}

/// The name in front of the bytes, where one stands.
fn text_of(bytes: &[u8]) -> &str
    requires { is_name bytes.now ≡ true }
    ensures { result.now ≡ before_zero bytes.now }
{
    match text_before_zero(bytes) {
        // The names were found to be UTF-8 when the file was read.
        Some(text) => unsafe { std::str::from_utf8_unchecked(text) },
        None => unreachable!(),
    }
}

/// The symbol's name, which stands in the strings.
pub(crate) fn name_of<'a>(strings: &'a [u8], symbol: &SymbolEntry) -> &'a str
    requires { is_named strings.now symbol.now ≡ true }
    ensures { result.now ≡ before_zero (drop symbol.now.name strings.now) }
{
    text_of(&strings[symbol.name as usize..])
}
