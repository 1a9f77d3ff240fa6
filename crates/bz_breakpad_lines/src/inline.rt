//! INLINE records, the quick way.

ghost use Rattle.std.specs.Prelude.{◌≡◌, ◌<◌, ◌∷◌, Some, length, IfSome, IfOk};
ghost use Rattle.bz_base.specs.Byte.{line_feed};
ghost use Rattle.bz_breakpad_lines.specs.Contexts.Context.{InFunc};
ghost use Rattle.bz_breakpad_lines.specs.Contexts.Record.{OfFunc};
ghost use Rattle.bz_breakpad_lines.specs.Quick.{AreInTurn, IsQuick};
ghost use Rattle.bz_breakpad_lines.specs.Reads.{reads};
ghost use Rattle.bz_breakpad_lines.specs.Records.{CALL, RANGE};
ghost use Rattle.bz_breakpad_lines.specs.Stops.{AreStops};
ghost use Rattle.bz_breakpad_lines.specs.Told.{call_told, inner_told, range_told, ranges_told};
ghost use Rattle.bz_breakpad_lines.specs.declared.record.InnerLine.TheVariants as inners;

use crate::field::tag;
use crate::quick::Shown;
use crate::record::{InlineCall, Range};
use std::alloc::AllocError;

/// The call of the INLINE record at the front, and what comes after it.
#[inline(always)]
pub fn call_line(text: &[u8]) -> Option<(InlineCall, Shown<'_>)>
    ensures reads { IfSome result (λ read. reads CALL text.now ≡ Some (call_told read.0, read.1.text.now)) }
    ensures stops { IfSome result (λ read. AreStops read.1.text.now read.1.stops) }
{
    let fields = tag(text, b"INLINE ")?;
    let shown = Shown::at_front(fields)?;
    let depth = shown.dec_end(0)?;
    let line = shown.dec_after(depth)?;
    let file = shown.dec_after(line)?;
    let origin = shown.dec_after(file)?;
    let call = InlineCall {
        depth: shown.dec(0, depth),
        line: shown.dec(depth + 1, line),
        file: shown.dec(line + 1, file),
        origin: shown.dec(file + 1, origin),
    };
    Some((call, shown.after(origin)))
}

/// The range at the front, if all its bytes are shown, and what comes after it.
#[inline(always)]
fn shown_range(shown: Shown<'_>) -> Option<(Range, Shown<'_>)>
    requires { AreStops shown.text.now shown.stops }
    ensures reads { IfSome result (λ read. reads RANGE shown.entry.text.now ≡ Some (range_told read.0, read.1.text.now)) }
    ensures stops { IfSome result (λ read. AreStops read.1.text.now read.1.stops) }
{
    if shown.text.len() < 72 {
        return None;
    }
    let addr = shown.hex_after(0)?;
    let size = shown.hex_after(addr)?;
    let range = Range {
        addr: u64::from(shown.hex(1, addr)),
        size: shown.hex(addr + 1, size),
    };
    Some((range, shown.after(size)))
}

/// The range at the front, and what comes after it.
#[inline(always)]
fn next_range(shown: Shown<'_>) -> Option<(Range, Shown<'_>)>
    requires { AreStops shown.text.now shown.stops }
    ensures reads { IfSome result (λ read. reads RANGE shown.entry.text.now ≡ Some (range_told read.0, read.1.text.now)) }
    ensures stops { IfSome result (λ read. AreStops read.1.text.now read.1.stops) }
{
    if let Some(read) = shown_range(shown) {
        return Some(read);
    }
    // The load before may have shown only a part of it.
    shown_range(Shown::at_front(shown.text)?)
}

/// The text after the line feed, if it begins with one.
#[inline(always)]
fn after_line_feed(text: &[u8]) -> Option<&[u8]>
    ensures { IfSome result (λ rest. text.now ≡ line_feed ∷ rest.now) }
{
    match text {
        [b'\n', rest @ ..] => Some(rest),
        _ => None,
    }
}

/// Reads the ranges up to the line feed at their end, and returns the text after it.
#[inline(always)]
fn shown_ranges<'a>(
    ranges: &mut Vec<Range>,
    shown: Shown<'a>,
) -> Result<Option<&'a [u8]>, AllocError>
    requires { AreStops shown.text.now shown.stops }
    ensures ranges { IfOk result (λ found. IfSome found (λ rest. AreInTurn RANGE shown.entry.text.now (ranges_told ranges.new.items) (line_feed ∷ rest.now))) }
    ensures positive { IfOk result (λ found. IfSome found (λ _. 0 < length ranges.new.items)) }
{
    ranges.clear();
    let mut left = shown;
    while let Some((range, after)) = next_range(left) {
        ranges.push(range)?;
        if let Some(rest) = after_line_feed(after.text) {
            return Ok(Some(rest));
        }
        left = after;
    }
    Ok(None)
}

/// The INLINE record at the front with no white space at its end, and the text after its line. Its
/// ranges are read beside it.
#[inline(always)]
pub fn inline_line<'a>(
    ranges: &mut Vec<Range>,
    text: &'a [u8],
) -> Result<Option<(InlineCall, &'a [u8])>, AllocError>
    ensures { IfOk result (λ found. IfSome found (λ read. IsQuick InFunc text.now (OfFunc (inner_told (inners.Inline read.0) ranges.new.items)) read.1.now)) }
{
    let Some((call, shown)) = call_line(text) else {
        return Ok(None);
    };
    match shown_ranges(ranges, shown)? {
        Some(rest) => Ok(Some((call, rest))),
        None => Ok(None),
    }
}
