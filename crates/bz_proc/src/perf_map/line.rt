//! The lines of a perf map.

ghost use Rattle.std.specs.Prelude.{◌≡◌, ◌≤◌, length, option_map, IfSome};
ghost use Rattle.bz_proc.specs.PerfLine.{field_at, perf_function_in, perf_number, utf8_in};
ghost use Rattle.bz_proc.specs.PerfLines.{line_len};
ghost use Rattle.bz_proc.specs.PerfKept.{line_told};

use crate::status::FORM_FEED;
use memchr::{memchr2, memchr3};

/// What a line tells of a function.
#[derive(Clone, Copy)]
pub(super) struct PerfLine<'a> {
    /// The first address.
    pub start: u64,
    /// The size, in bytes.
    pub size: u64,
    /// The name.
    pub name: &'a str,
}

/// How many bytes stand before the first end of a line.
pub(super) fn line_len(text: &[u8]) -> usize
    ensures value { result ≡ line_len text.now }
    ensures within { result ≤ length text.now }
{
    match memchr2(b'\n', b'\r', text) {
        Some(len) => len,
        None => text.len(),
    }
}

/// The function of a line. None: the line has another form.
#[tactic(auto, unfolding(crate::specs::PerfLine::perf_function_in))]
pub(super) fn read_line(line: &[u8]) -> Option<PerfLine<'_>>
    ensures reads { option_map line_told result ≡ perf_function_in line.now }
    ensures within { IfSome result (λ f. length f.name.now ≤ length line.now) }
{
    let (start, rest) = field(line)?;
    let (size, name) = field(rest)?;
    let start = number(start)?;
    let size = number(size)?;
    let name = utf8(name)?;
    Some(PerfLine { start, size, name })
}

/// The text before the first byte that separates, and the text after it.
fn field(text: &[u8]) -> Option<(&[u8], &[u8])>
    ensures reads { option_map (λ parts. (parts.0.now, parts.1.now)) result ≡ field_at text.now }
    ensures within { IfSome result (λ parts. length parts.1.now ≤ length text.now) }
{
    let len = memchr3(b' ', b'\t', FORM_FEED, text)?;
    Some((&text[..len], &text[len + 1..]))
}

/// The number that the whole text is: an optional plus sign and hexadecimal digits.
fn number(text: &[u8]) -> Option<u64>
    ensures { result ≡ perf_number text.now }
{
    let text = utf8(text)?;
    u64::from_str_radix(text, 16).ok()
}

/// The bytes, if they are a text.
fn utf8(bytes: &[u8]) -> Option<&str>
    ensures { option_map (λ text. text.now) result ≡ utf8_in bytes.now }
{
    std::str::from_utf8(bytes).ok()
}
