//! The fields of a line of mappings, read from its front.

ghost use Rattle.std.specs.Prelude.{◌≡◌, ◌≤◌, length, option_map};
ghost use Rattle.std.specs.List.{prefix_len};
ghost use Rattle.bz_proc.specs.MappingLine.{after_dash, after_run, at_least_one, end_text, exactly_four, is_decimal, is_solid, is_space, last_at, line_in, offset_at, one_to_twenty, span_at};
ghost use Rattle.bz_proc.specs.Maps.{line_of};

use bz_base::{Addr, read_hex};

/// How many hexadecimal digits a number of a line has at most.
const MOST_HEX_DIGITS: usize = 16;

/// How many bytes the permissions have.
const PERMISSIONS_LEN: usize = 4;

/// How many decimal digits an inode has at most.
const MOST_INODE_DIGITS: usize = 20;

/// What a line of mappings tells.
#[derive(Drop)]
pub(super) struct MappingLine<'a> {
    /// The first address.
    pub start: Addr,
    /// The address after the last one.
    pub end: Addr,
    /// The offset of the first byte in the file.
    pub offset: u64,
    /// What stands after the other fields.
    pub text: &'a [u8],
}

/// The addresses that begin a line, and the text after them.
#[derive(Drop)]
struct AddressRange<'a> {
    /// The first address.
    start: Addr,
    /// The address after the last one.
    end: Addr,
    /// The text after the addresses.
    rest: &'a [u8],
}

/// What the line tells, if it is one of a mapping.
pub(super) fn mapping_line(line: &[u8]) -> Option<MappingLine<'_>>
    ensures { option_map line_of result ≡ line_in line.now }
{
    let range = address_range(line)?;
    let (offset, rest) = offset(range.rest)?;
    let text = last_text(rest)?;
    if range.end < range.start {
        return None;
    }
    Some(MappingLine {
        start: range.start,
        end: range.end,
        offset,
        text,
    })
}

/// The addresses where the mapping begins and ends.
fn address_range(line: &[u8]) -> Option<AddressRange<'_>>
    ensures { option_map (λ range. ((range.start, range.«end»), range.rest.now)) result ≡ span_at line.now }
{
    let (start, rest) = read_hex(line, MOST_HEX_DIGITS)?;
    let (end, rest) = read_hex(after_dash(rest)?, MOST_HEX_DIGITS)?;
    Some(AddressRange { start, end, rest })
}

/// The offset behind the permissions, and the text after it.
fn offset(text: &[u8]) -> Option<(u64, &[u8])>
    ensures { option_map (λ read. (read.0, read.1.now)) result ≡ offset_at text.now }
{
    let rest = after_permissions(after_spaces(text)?)?;
    read_hex(after_spaces(rest)?, MOST_HEX_DIGITS)
}

/// The text that stands last, behind device and inode.
fn last_text(text: &[u8]) -> Option<&[u8]>
    ensures { option_map (λ last. last.now) result ≡ last_at text.now }
{
    let rest = after_device(after_spaces(text)?)?;
    let rest = after_inode(after_spaces(rest)?)?;
    end_text(rest)
}

/// The text after the dash in front.
#[tactic(auto, unfolding(crate::specs::MappingLine::after_dash))]
fn after_dash(text: &[u8]) -> Option<&[u8]>
    ensures { option_map (λ rest. rest.now) result ≡ after_dash text.now }
{
    match text {
        [b'-', rest @ ..] => Some(rest),
        _ => None,
    }
}

/// How many spaces stand in front.
fn space_len(text: &[u8]) -> usize
    ensures value { result ≡ prefix_len is_space text.now }
    ensures within { result ≤ length text.now }
{
    text.iter().take_while(|b| **b == b' ').count()
}

/// How many bytes other than space stand in front.
fn solid_len(text: &[u8]) -> usize
    ensures value { result ≡ prefix_len is_solid text.now }
    ensures within { result ≤ length text.now }
{
    text.iter().take_while(|b| **b != b' ').count()
}

/// How many decimal digits stand in front.
fn digit_len(text: &[u8]) -> usize
    ensures value { result ≡ prefix_len is_decimal text.now }
    ensures within { result ≤ length text.now }
{
    text.iter().take_while(|b| b.is_ascii_digit()).count()
}

/// The text after one or more spaces.
#[tactic(auto, unfolding(crate::specs::MappingLine::after_run))]
fn after_spaces(text: &[u8]) -> Option<&[u8]>
    ensures { option_map (λ rest. rest.now) result ≡ after_run is_space at_least_one text.now }
{
    let len = space_len(text);
    if len == 0 {
        return None;
    }
    Some(&text[len..])
}

/// The text after four bytes other than space.
#[tactic(auto, unfolding(crate::specs::MappingLine::after_run))]
fn after_permissions(text: &[u8]) -> Option<&[u8]>
    ensures { option_map (λ rest. rest.now) result ≡ after_run is_solid exactly_four text.now }
{
    let len = solid_len(text);
    if len != PERMISSIONS_LEN {
        return None;
    }
    Some(&text[len..])
}

/// The text after one or more bytes other than space.
#[tactic(auto, unfolding(crate::specs::MappingLine::after_run))]
fn after_device(text: &[u8]) -> Option<&[u8]>
    ensures { option_map (λ rest. rest.now) result ≡ after_run is_solid at_least_one text.now }
{
    let len = solid_len(text);
    if len == 0 {
        return None;
    }
    Some(&text[len..])
}

/// The text after one to twenty decimal digits.
#[tactic(auto, unfolding(crate::specs::MappingLine::after_run))]
fn after_inode(text: &[u8]) -> Option<&[u8]>
    ensures { option_map (λ rest. rest.now) result ≡ after_run is_decimal one_to_twenty text.now }
{
    let len = digit_len(text);
    if len == 0 || len > MOST_INODE_DIGITS {
        return None;
    }
    Some(&text[len..])
}

/// The text that stands last, behind at least one space; it is empty where nothing but spaces does.
#[tactic(auto, unfolding(crate::specs::MappingLine::end_text))]
fn end_text(rest: &[u8]) -> Option<&[u8]>
    ensures { option_map (λ text. text.now) result ≡ end_text rest.now }
{
    match rest {
        [] => Some(rest),
        [b' ', more @ ..] => Some(&more[space_len(more)..]),
        _ => None,
    }
}
