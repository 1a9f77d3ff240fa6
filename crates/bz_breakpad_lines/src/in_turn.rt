//! Line records that stand one after another.

ghost use Rattle.std.specs.Prelude.{◌+◌, ◌<◌, ◌≤◌, ℕ, List, IfSome};
ghost use Rattle.bz_breakpad_lines.specs.LineStarts.{ReadsLine};
ghost use Rattle.bz_breakpad_lines.specs.NextLine.{IsNextLine};
ghost use Rattle.bz_breakpad_lines.specs.Stops.{AreFieldStops, IsField};

use crate::at_place::{line_by, line_len, line_or_zeros};
use crate::lanes::space_stops;
use crate::line::LineEnds;
use crate::record::SourceLine;

/// The line record at the front of a text, and where its line ends.
#[derive(Clone, Copy)]
pub struct NextLine {
    /// The record; one of zeros where none is.
    pub line: SourceLine,
    /// How many bytes stand before its line's end.
    pub end: usize,
}

/// The line record that the first line of the text is known to be. Only where its fields end is
/// looked for.
#[inline(always)]
pub fn known_line_record(text: &[u8]) -> NextLine
    requires { ReadsLine text.now 0 }
    ensures { IsNextLine text.now result }
{
    match plain_next(text) {
        Some(next) => next,
        None => any_next(text),
    }
}

/// The same, if one load shows the line, and single blanks divide its fields of at most 8 digits.
#[inline(always)]
fn plain_next(text: &[u8]) -> Option<NextLine>
    requires { ReadsLine text.now 0 }
    ensures { IfSome result (IsNextLine text.now) }
{
    if text.len() < 40 {
        return None;
    }
    let start = field_end(space_stops(text), 0)?;
    let size = field_end(start.later, start.at + 1)?;
    let line = field_end(size.later, size.at + 1)?;
    let file = field_end(line.later, line.at + 1)?;
    if text[file.at as usize] != b'\n' {
        return None;
    }
    let ends = LineEnds {
        size: size.at,
        line: line.at,
        file: file.at,
    };
    Some(NextLine {
        line: line_by(text, start.at, ends),
        end: file.at as usize,
    })
}

/// Where a field ends.
#[derive(Drop)]
struct FieldEnd {
    /// The place of the byte that ends it.
    at: u32,
    /// The bits of the bytes after that one.
    later: u64,
}

/// Where the one to eight bytes past space from a place on end, by the bits of the others from there.
#[inline(always)]
fn field_end(stops: u64, from: u32) -> Option<FieldEnd>
    requires { from < 56 }
    ensures near { IfSome result (λ end. end.at ≤ from + 8) }
    ensures field { IfSome result (λ end. (text : List ℕ) → AreFieldStops text from stops → IsField text from end.at) }
    ensures later { IfSome result (λ end. (text : List ℕ) → AreFieldStops text from stops → AreFieldStops text (end.at + 1) end.later) }
{
    let at = stops.trailing_zeros();
    if at <= from || at > from + 8 {
        return None;
    }
    Some(FieldEnd {
        at,
        later: stops & (stops - 1),
    })
}

/// The same of any text.
fn any_next(text: &[u8]) -> NextLine
    ensures { IsNextLine text.now result }
{
    NextLine {
        line: line_or_zeros(text, 0),
        end: line_len(text),
    }
}
