//! Line records that go on a run.

ghost use Rattle.std.specs.Prelude.{◌<◌, ◌≤◌, IfSome};
ghost use Rattle.bz_breakpad_lines.specs.QuickLine.{IsOnRun};
ghost use Rattle.bz_breakpad_lines.specs.Stops.{AreStops};

use crate::lanes::Stops;
use crate::line::record_len;
use crate::quick::Shown;
use crate::start_text::StartText;

/// A line record that goes on a run.
#[derive(Clone, Copy)]
pub struct RunLine {
    /// Its length, with its line feed.
    pub len: usize,
    /// The text of its start.
    pub start: StartText,
    /// What is shown of the bytes after it.
    pub stops: Stops,
}

/// The line record at the front, if it goes on a run with this last start.
#[inline(always)]
pub fn next_on_run(shown: Shown<'_>, last: StartText) -> Option<RunLine>
    requires stops { AreStops shown.text.now shown.stops }
    requires positive { 0 < last.digits }
    requires few { last.digits ≤ 8 }
    ensures { IfSome result (IsOnRun shown.entry.text.now last) }
{
    if shown.stops.end != 0 {
        return shown_on_run(shown, last);
    }
    let text = shown.text;
    if text.len() < 64 {
        return None;
    }
    let stops = Stops::at_front(text);
    shown_on_run(Shown { text, stops }, last)
}

/// The same, if all its bytes are shown.
#[inline(always)]
fn shown_on_run(shown: Shown<'_>, last: StartText) -> Option<RunLine>
    requires stops { AreStops shown.text.now shown.stops }
    requires positive { 0 < last.digits }
    requires few { last.digits ≤ 8 }
    ensures { IfSome result (IsOnRun shown.entry.text.now last) }
{
    if shown.stops.end == 0 || !shown.has_hex(last.digits) {
        return None;
    }
    let len = record_len(shown, last.digits)?;
    let start = StartText::of_front(shown.text, last.digits);
    if !last.is_below(start) {
        return None;
    }
    Some(RunLine {
        len,
        start,
        stops: shown.stops.after(len),
    })
}
