//! Line records, the quick way.

ghost use Rattle.std.specs.Prelude.{◌≡◌, ◌∷◌, ◌+◌, ◌<◌, ◌≤◌, Option, Some, length, take, drop, IfSome};
ghost use Rattle.std.specs.Str.Parse.{digits_value};
ghost use Rattle.bz_base.specs.Byte.{line_feed};
ghost use Rattle.bz_breakpad_lines.specs.LineStarts.{IsStartText};
ghost use Rattle.bz_breakpad_lines.specs.QuickLine.{IsQuickLine, line_between};
ghost use Rattle.bz_breakpad_lines.specs.Reads.{reads};
ghost use Rattle.bz_breakpad_lines.specs.Records.{LINE};
ghost use Rattle.bz_breakpad_lines.specs.Stops.{AreDigits, AreStops};
ghost use Rattle.bz_breakpad_lines.specs.declared.start_text.StartText.{StartText};

use crate::quick::Shown;
use crate::start_text::StartText;

/// A line record that is read quickly.
#[derive(Clone, Copy)]
pub struct QuickLine {
    /// Its length, with its line feed.
    pub len: usize,
    /// The text of its start, if that has at most eight digits.
    pub start: Option<StartText>,
}

/// The line record at the front.
#[inline(always)]
pub fn quick_line(shown: Shown<'_>) -> Option<QuickLine>
    requires { AreStops shown.text.now shown.stops }
    ensures quick { IfSome result (IsQuickLine shown.entry.text.now) }
    ensures within { IfSome result (λ line. (0 < line.len) × (line.len < 64) × (line.len ≤ length shown.entry.text.now)) }
{
    let start = shown.hex_end(0, 16)?;
    let len = record_len(shown, start)?;
    Some(QuickLine {
        len,
        start: StartText::at_front(shown.text, start),
    })
}

/// The length, with its line feed, of the line record at the front whose start ends at a place.
#[inline(always)]
pub fn record_len(shown: Shown<'_>, start: u32) -> Option<usize>
    requires stops { AreStops shown.text.now shown.stops }
    requires start { AreDigits 16 16 shown.text.now 0 start }
    ensures quick { IfSome result (λ len. (told : Option StartText) → IfSome told (IsStartText (digits_value 16 (take start shown.entry.text.now))) →
        IsQuickLine shown.entry.text.now (record { len = len; start = told })) }
    ensures within { IfSome result (λ len. (8 ≤ len) × (len < 64) × (len ≤ length shown.entry.text.now)) }
{
    // The next line's place hangs on this alone, and not on the fields one after another.
    let end = shown.stops.end.trailing_zeros();
    let ends = line_ends(shown, start)?;
    if ends.file != end {
        return None;
    }
    Some(end as usize + 1)
}

/// Where the fields of a line record after its start end.
#[derive(Clone, Copy)]
pub struct LineEnds {
    /// The size.
    pub size: u32,
    /// The line.
    pub line: u32,
    /// The id of the file.
    pub file: u32,
}

/// Where the fields of the line record at the front end, whose start ends at a place.
#[inline(always)]
pub fn line_ends(shown: Shown<'_>, start: u32) -> Option<LineEnds>
    requires stops { AreStops shown.text.now shown.stops }
    requires start { AreDigits 16 16 shown.text.now 0 start }
    ensures size { IfSome result (λ ends. AreDigits 16 8 shown.entry.text.now (start + 1) ends.size) }
    ensures line { IfSome result (λ ends. AreDigits 10 8 shown.entry.text.now (ends.size + 1) ends.line) }
    ensures file { IfSome result (λ ends. AreDigits 10 8 shown.entry.text.now (ends.line + 1) ends.file) }
    ensures reads { IfSome result (λ ends. reads LINE shown.entry.text.now ≡ Some (line_between shown.entry.text.now start ends, line_feed ∷ drop (ends.file + 1) shown.entry.text.now)) }
{
    let size = shown.hex_after(start)?;
    let line = shown.dec_after(size)?;
    let file = shown.dec_after(line)?;
    if shown.text[file as usize] != b'\n' {
        return None;
    }
    Some(LineEnds { size, line, file })
}
