//! Line records and inlined calls at places in a file's bytes.

ghost use Rattle.std.specs.Prelude.{◌≡◌, ◌<◌, ◌≤◌, ◌==◌, not, Some, drop, length, option_map, unwrap_or, IfSome};
ghost use Rattle.std.specs.List.{prefix_len};
ghost use Rattle.bz_base.specs.Byte.{line_feed};
ghost use Rattle.bz_breakpad_lines.specs.Calls.{call_in, call_read};
ghost use Rattle.bz_breakpad_lines.specs.Form.Piece.{Hex};
ghost use Rattle.bz_breakpad_lines.specs.Line.{line_in, source_line};
ghost use Rattle.bz_breakpad_lines.specs.LineStarts.{ReadsLine, line_read, line_start};
ghost use Rattle.bz_breakpad_lines.specs.QuickLine.{AreLineEnds, line_between};
ghost use Rattle.bz_breakpad_lines.specs.Reads.{piece_at};
ghost use Rattle.bz_breakpad_lines.specs.Told.{line_seen, call_told};

use crate::field::{body, hex_field};
use crate::inline::call_line;
use crate::lanes::{few_hex, line_feeds};
use crate::line::{LineEnds, line_ends};
use crate::quick::Shown;
use crate::record::{InlineCall, SourceLine, call_front, line_record};
use crate::values::{dec_between, hex_between, hex_front};
use memchr::memchr;

/// How many bytes stand before the line's end.
pub fn line_len(text: &[u8]) -> usize
    ensures value { result ≡ prefix_len (λ b. not (b == line_feed)) text.now }
    ensures within { result ≤ length text.now }
{
    match quick_len(text) {
        Some(len) => len,
        None => any_len(text),
    }
}

/// The same, if one load shows the line's end.
#[inline(always)]
fn quick_len(text: &[u8]) -> Option<usize>
    ensures value { IfSome result (λ len. len ≡ prefix_len (λ b. not (b == line_feed)) text.now) }
    ensures within { IfSome result (λ len. len < length text.now) }
{
    if text.len() < 32 {
        return None;
    }
    let len = line_feeds(text).trailing_zeros() as usize;
    if len < 32 { Some(len) } else { None }
}

/// The same for any text.
fn any_len(text: &[u8]) -> usize
    ensures value { result ≡ prefix_len (λ b. not (b == line_feed)) text.now }
    ensures within { result ≤ length text.now }
{
    match memchr(b'\n', text) {
        Some(len) => len,
        None => text.len(),
    }
}

/// The line record at a place in the bytes, if one begins there.
pub fn line_record_at(bytes: &[u8], place: usize) -> Option<SourceLine>
    ensures { option_map line_seen result ≡ line_in (drop place bytes.now) }
{
    let text = bytes.get(place..)?;
    match shown_line(text) {
        Some(line) => Some(line),
        None => any_line(text),
    }
}

/// The line record that the first line of the text is, if one load shows the whole line.
#[inline(always)]
fn shown_line(text: &[u8]) -> Option<SourceLine>
    ensures { IfSome result (λ line. line_in text.now ≡ Some (line_seen line)) }
{
    let shown = Shown::of_line(text)?;
    let start = shown.hex_end(0, 8)?;
    let ends = line_ends(shown, start)?;
    Some(line_by(shown.text, start, ends))
}

/// The line record at the front whose fields end there.
#[inline(always)]
pub(crate) fn line_by(text: &[u8], start: u32, ends: LineEnds) -> SourceLine
    requires room { 40 ≤ length text.now }
    requires ends { AreLineEnds text.now start ends }
    ensures { line_seen result ≡ source_line (line_between text.now start ends) }
{
    SourceLine {
        addr: u64::from(hex_front(text, start)),
        size: hex_between(text, start + 1, ends.size),
        line: dec_between(text, ends.size + 1, ends.line),
        file: dec_between(text, ends.line + 1, ends.file),
    }
}

/// The line record that the first line of the text is.
fn any_line(text: &[u8]) -> Option<SourceLine>
    ensures { option_map line_seen result ≡ line_in text.now }
{
    line_record(body(&text[..line_len(text)])?)
}

/// The line record at a place in the bytes; one of zeros where none is.
pub fn line_or_zeros(bytes: &[u8], place: usize) -> SourceLine
    ensures { line_seen result ≡ line_read bytes.now place }
{
    match line_record_at(bytes, place) {
        Some(line) => line,
        None => SourceLine {
            addr: 0,
            size: 0,
            line: 0,
            file: 0,
        },
    }
}

/// Where the code of the line record at a place starts, relative to the module's base.
#[inline(always)]
pub fn start_at(bytes: &[u8], place: usize) -> u64
    requires { ReadsLine bytes.now place }
    ensures { result ≡ line_start bytes.now place }
{
    start_of(&bytes[place..])
}

/// The number that the hexadecimal digits at the front spell; 0 if there are none, or more than 16.
#[inline(always)]
pub fn start_of(text: &[u8]) -> u64
    ensures { result ≡ unwrap_or (option_map (λ read. read.0) (piece_at (Hex 16) text.now)) 0 }
{
    match quick_start(text) {
        Some(start) => start,
        None => any_start(text),
    }
}

/// The number that the digits at the front spell, the quick way, if there are one to eight.
#[inline(always)]
fn quick_start(text: &[u8]) -> Option<u64>
    ensures { IfSome result (λ start. option_map (λ read. read.0) (piece_at (Hex 16) text.now) ≡ Some start) }
{
    if text.len() < 32 {
        return None;
    }
    let digits = few_hex(text)?;
    Some(u64::from(hex_front(text, digits)))
}

/// The same of any text.
fn any_start(text: &[u8]) -> u64
    ensures { result ≡ unwrap_or (option_map (λ read. read.0) (piece_at (Hex 16) text.now)) 0 }
{
    match hex_field(text, 16) {
        Some((start, _)) => start,
        None => 0,
    }
}

/// The call of the INLINE record at a place in the bytes; one of zeros where none is.
pub fn call_at(bytes: &[u8], place: usize) -> InlineCall
    ensures { call_told result ≡ call_read bytes.now place }
{
    match call_from(bytes, place) {
        Some(call) => call,
        None => InlineCall {
            depth: 0,
            line: 0,
            file: 0,
            origin: 0,
        },
    }
}

/// The call of the INLINE record at a place in the bytes, if one begins there.
fn call_from(bytes: &[u8], place: usize) -> Option<InlineCall>
    ensures { option_map call_told result ≡ call_in (drop place bytes.now) }
{
    let text = bytes.get(place..)?;
    if let Some((call, _after)) = call_line(text) {
        return Some(call);
    }
    let (call, _after) = call_front(text)?;
    Some(call)
}
