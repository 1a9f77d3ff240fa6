//! The pieces of a record's line, read from its front.

ghost use Rattle.std.specs.Prelude.{◌≡◌, not, ◌<◌, ◌≤◌, ◌^◌, [], Some, length, option_map, IfSome};
ghost use Rattle.std.specs.List.{list_all, prefix_len};
ghost use Rattle.bz_base.specs.Byte.{begins_with, is_blank};
ghost use Rattle.bz_breakpad_lines.specs.Byte.{is_carriage_return, is_word_byte};
ghost use Rattle.bz_breakpad_lines.specs.Choice.{body_at};
ghost use Rattle.bz_breakpad_lines.specs.Form.Form.{◌·◌, End, Name, SeparatorText};
ghost use Rattle.bz_breakpad_lines.specs.Form.Piece.{Tag, Mark, Separator, ModuleSeparator, Gap, Word, Hex, Decimal};
ghost use Rattle.bz_breakpad_lines.specs.Reads.{piece_at, name_at, end_at, reads};

use bz_base::read_decimal;
use memchr::memchr;

/// The text after the tag, if the text begins with it.
#[inline(always)]
#[tactic(auto, unfolding(crate::specs::Reads::piece_at))]
pub fn tag<'a>(text: &'a [u8], tag: &[u8]) -> Option<&'a [u8]>
    ensures { option_map (λ rest. (tt, rest.now)) result ≡ piece_at (Tag tag.now) text.now }
{
    if text.starts_with(tag) {
        Some(&text[tag.len()..])
    } else {
        None
    }
}

fn is_blank(byte: u8) -> bool
    ensures { result ≡ is_blank byte }
{
    byte == b' ' || byte == b'\t'
}

/// How many spaces and tabs stand in front.
fn blank_len(text: &[u8]) -> usize
    ensures value { result ≡ prefix_len is_blank text.now }
    ensures within { result ≤ length text.now }
{
    text.iter().take_while(|b| is_blank(**b)).count()
}

/// Whether a space or a tab stands in front.
pub fn begins_blank(text: &[u8]) -> bool
    ensures { result ≡ begins_with is_blank text.now }
{
    match text {
        [] => false,
        [first, ..] => is_blank(*first),
    }
}

/// The text after a separator, if the text begins with one.
#[inline(always)]
#[tactic(auto, unfolding(crate::specs::Reads::piece_at, crate::specs::Reads::run_at))]
pub fn separator(text: &[u8]) -> Option<&[u8]>
    ensures { option_map (λ rest. (tt, rest.now)) result ≡ piece_at Separator text.now }
{
    let len = blank_len(text);
    if len == 0 {
        return None;
    }
    Some(&text[len..])
}

/// The text after a space and any blanks, if the text begins with a space.
#[tactic(auto, unfolding(crate::specs::Reads::piece_at, crate::specs::Reads::run_at))]
pub fn module_separator(text: &[u8]) -> Option<&[u8]>
    ensures { option_map (λ rest. (tt, rest.now)) result ≡ piece_at ModuleSeparator text.now }
{
    if text.is_empty() || text[0] != b' ' {
        return None;
    }
    Some(&text[blank_len(text)..])
}

/// The text after any blanks.
#[tactic(auto, unfolding(crate::specs::Reads::piece_at, crate::specs::Reads::run_at))]
pub fn gap(text: &[u8]) -> &[u8]
    ensures { Some (tt, result.now) ≡ piece_at Gap text.now }
{
    &text[blank_len(text)..]
}

/// The text after the byte and a separator, and else the text.
#[tactic(auto, unfolding(crate::specs::Reads::piece_at, crate::specs::Reads::mark_at))]
pub fn marked(text: &[u8], byte: u8) -> &[u8]
    ensures { Some (tt, result.now) ≡ piece_at (Mark byte) text.now }
{
    match text {
        [first, rest @ ..] if *first == byte && begins_blank(rest) => &rest[blank_len(rest)..],
        _ => text,
    }
}

/// How many bytes that are no spaces stand in front.
fn word_len(text: &[u8]) -> usize
    ensures value { result ≡ prefix_len is_word_byte text.now }
    ensures within { result ≤ length text.now }
{
    text.iter().take_while(|b| **b != b' ').count()
}

/// The text after a word, if the text begins with one.
#[tactic(auto, unfolding(crate::specs::Reads::piece_at, crate::specs::Reads::run_at))]
pub fn word(text: &[u8]) -> Option<&[u8]>
    ensures { option_map (λ rest. (tt, rest.now)) result ≡ piece_at Word text.now }
{
    let len = word_len(text);
    if len == 0 || text[0] == b'\t' {
        return None;
    }
    Some(&text[len..])
}

/// A field of one to `most` hexadecimal digits at the front: its number, and the text after it.
#[inline(always)]
#[tactic(auto, unfolding(crate::specs::Reads::piece_at))]
pub fn hex_field(text: &[u8], most: usize) -> Option<(u64, &[u8])>
    requires { most ≤ 16 }
    ensures reads { option_map (λ read. (read.0, read.1.now)) result ≡ piece_at (Hex most) text.now }
    ensures small { IfSome result (λ read. read.0 < 16 ^ most) }
{
    bz_base::read_hex(text, most)
}

/// A field of one to ten decimal digits at the front: its number, and the text after it.
#[inline(always)]
#[tactic(auto, unfolding(crate::specs::Reads::piece_at))]
pub fn decimal_field(text: &[u8]) -> Option<(u32, &[u8])>
    ensures { option_map (λ read. (read.0, read.1.now)) result ≡ piece_at Decimal text.now }
{
    let (value, rest) = read_decimal(text, 10, u64::from(u32::MAX))?;
    Some((value as u32, rest))
}

/// The decimal field after a separator: its number, and the text after it.
#[inline(always)]
pub fn next_decimal(text: &[u8]) -> Option<(u32, &[u8])>
    ensures { option_map (λ read. ((read.0, tt), read.1.now)) result ≡ reads (Separator · Decimal · End) text.now }
{
    decimal_field(separator(text)?)
}

/// The size after a separator, of one to eight hexadecimal digits, and the text after it.
#[inline(always)]
pub fn next_size(text: &[u8]) -> Option<(u32, &[u8])>
    ensures { option_map (λ read. ((read.0, tt), read.1.now)) result ≡ reads (Separator · Hex 8 · End) text.now }
{
    let (size, rest) = hex_field(separator(text)?, 8)?;
    Some((size as u32, rest))
}

/// The whole text, if it is a name.
#[tactic(auto, unfolding(crate::specs::Reads::name_at))]
pub fn name(text: &[u8]) -> Option<&str>
    ensures { option_map (λ name. (name.now, [])) result ≡ name_at text.now }
{
    if begins_blank(text) {
        return None;
    }
    match std::str::from_utf8(text) {
        Ok(name) => Some(name),
        Err(_) => None,
    }
}

/// The whole text after a separator, if it is a name.
#[inline(always)]
pub fn next_name(text: &[u8]) -> Option<&str>
    ensures { option_map (λ name. (name.now, [])) result ≡ reads (Separator · Name) text.now }
{
    name(separator(text)?)
}

/// That nothing is left.
pub fn end(text: &[u8]) -> Option<()>
    ensures { option_map (λ _. tt) result ≡ end_at text.now }
{
    match text {
        [] => Some(()),
        _ => None,
    }
}

/// That the text is a separator and any text.
pub fn separator_text(text: &[u8]) -> Option<()>
    ensures { option_map (λ _. (tt, [])) result ≡ reads SeparatorText text.now }
{
    if begins_blank(text) { Some(()) } else { None }
}

/// How many bytes stand before the first carriage return.
fn body_len(line: &[u8]) -> usize
    ensures value { result ≡ prefix_len (λ b. not (is_carriage_return b)) line.now }
    ensures within { result ≤ length line.now }
{
    match memchr(b'\r', line) {
        Some(len) => len,
        None => line.len(),
    }
}

/// Whether the text has nothing but carriage returns.
fn are_carriage_returns(text: &[u8]) -> bool
    ensures { result ≡ list_all is_carriage_return text.now }
{
    text.iter().all(|b| *b == b'\r')
}

/// The line without the carriage returns that end it, if there is no other.
#[tactic(auto, unfolding(crate::specs::Choice::body_at))]
pub fn body(line: &[u8]) -> Option<&[u8]>
    ensures { option_map (λ body. body.now) result ≡ body_at line.now }
{
    let len = body_len(line);
    if are_carriage_returns(&line[len..]) {
        Some(&line[..len])
    } else {
        None
    }
}
