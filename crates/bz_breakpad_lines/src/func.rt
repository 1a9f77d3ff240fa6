//! FUNC and STACK CFI records, the quick way.

ghost use Rattle.std.specs.Prelude.{◌<◌, length, IfSome};
ghost use Rattle.bz_breakpad_lines.specs.Byte.{is_ascii_in_line};
ghost use Rattle.bz_breakpad_lines.specs.Contexts.{Context};
ghost use Rattle.bz_breakpad_lines.specs.Contexts.Context.{InCfi};
ghost use Rattle.bz_breakpad_lines.specs.Contexts.Record.{OfCfi, Top};
ghost use Rattle.bz_breakpad_lines.specs.Quick.{IsAsciiLine, IsQuick};
ghost use Rattle.bz_breakpad_lines.specs.Told.{top_told};
ghost use Rattle.bz_breakpad_lines.specs.declared.record.TopLine.TheVariants as tops;

use crate::field::{begins_blank, tag};
use crate::quick::Shown;
use crate::record::FuncLine;
use bz_base::{ByteTest, run_len};
use std::simd::prelude::*;

/// The FUNC record with a name in ASCII at the front, and the text after its line.
pub fn func_line(text: &[u8]) -> Option<(FuncLine<'_>, &[u8])>
    ensures quick { IfSome result (λ read. (c : Context) → IsQuick c text.now (Top (top_told (tops.Func read.0))) read.1.now) }
    ensures shorter { IfSome result (λ read. length read.1.now < length text.now) }
{
    let fields = tag(text, b"FUNC ")?;
    let shown = Shown::at_front(fields)?;
    let start = shown.hex_end(0, 8)?;
    let size = shown.hex_after(start)?;
    let parameter_size = shown.hex_after(size)?;
    if shown.text[parameter_size as usize] != b' ' {
        return None;
    }
    let (line, rest) = ascii_line(&shown.text[parameter_size as usize + 1..])?;
    if begins_blank(line) {
        return None;
    }
    // ASCII is UTF-8.
    let name = unsafe { std::str::from_utf8_unchecked(line) };
    let func = FuncLine {
        start: u64::from(shown.hex(0, start)),
        size: shown.hex(start + 1, size),
        parameter_size: shown.hex(size + 1, parameter_size),
        name,
    };
    Some((func, rest))
}

/// The text after the line of the STACK CFI record in ASCII at the front.
pub fn cfi_line(text: &[u8]) -> Option<&[u8]>
    ensures { IfSome result (λ rest. IsQuick InCfi text.now OfCfi rest.now) }
{
    let more = tag(text, b"STACK CFI ")?;
    let (_line, rest) = ascii_line(more)?;
    Some(rest)
}

/// The line in ASCII at the front that a line feed ends, and the text after the line feed.
#[inline(always)]
fn ascii_line(text: &[u8]) -> Option<(&[u8], &[u8])>
    ensures { IfSome result (λ read. IsAsciiLine text.now read.0.now read.1.now) }
{
    let len = run_len::<AsciiBytes>(text);
    if len == text.len() || text[len] != b'\n' {
        return None;
    }
    Some((&text[..len], &text[len + 1..]))
}

/// The test of the bytes in ASCII that end no line.
struct AsciiBytes;

impl ByteTest for AsciiBytes {
    ghost passes = { is_ascii_in_line };

    #[inline(always)]
    fn stops(text: &[u8]) -> u64 {
        let bytes = u8x32::from_slice(text);
        let beyond = bytes.simd_ge(u8x32::splat(128));
        let feeds = bytes.simd_eq(u8x32::splat(b'\n'));
        let returns = bytes.simd_eq(u8x32::splat(b'\r'));
        (beyond | feeds | returns).to_bitmask()
    }
}
