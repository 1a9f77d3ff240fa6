//! The line records of a function, one after another.

ghost use Rattle.std.specs.Prelude.{◌≡◌, ◌≤◌, ◌<◌, ◌-◌, ◌∷◌, drop, take};
ghost use Rattle.std.specs.Iterator.{YieldsFirstBy, item_count};
ghost use Rattle.std.specs.List.{AllByRecursion};
ghost use Rattle.bz_breakpad_lines.specs.LineStarts.{ReadsLine};
ghost use Rattle.bz_breakpad_lines.specs.Told.{line_seen};
ghost use Rattle.bz_breakpad_table.specs.Kept.{IsRunAt, kept_lines, text_at};
ghost use Rattle.bz_breakpad_table.specs.LineRun.{IsRunFront, lines_in};

use crate::line_run::run_front;
use bz_breakpad_lines::{SourceLine, known_line_record, line_or_zeros};
use bz_breakpad_table::Part;
use std::marker::Model;

/// The line records of a function, one after another. Contracts see those that are still to come.
#[derive(Drop)]
pub struct LineIter<'a> {
    left: LinesLeft<'a>,
}

/// Where the line records that are still to come stand.
#[derive(Clone, Copy)]
enum LinesLeft<'a> {
    /// One after another, each starting after the one before it.
    Run {
        /// The rest of the bytes, from the next record on.
        text: &'a [u8],
        /// How many of those bytes the records take.
        len: usize,
    },
    /// At places in the bytes.
    Listed {
        /// The bytes of the file.
        bytes: &'a [u8],
        /// Where the records begin.
        places: &'a [usize],
    },
}

impl<'a> Model for LineIter<'a> {
    ghost use Rattle.std.specs.Prelude.{List};
    ghost use Rattle.bz_breakpad_function.specs.LinesLeft.{AreLeft, lines_left};
    ghost use Rattle.bz_breakpad_lines.specs.Table as tables;

    ghost Value = { List tables.SourceLine };

    ghost view = { λ s. lines_left s.left };

    ghost invariant = { λ s. AreLeft s.left };
}

impl<'a> LineIter<'a> {
    /// Those of a run in a part of the bytes.
    pub(crate) fn of_run(bytes: &'a [u8], run: &Part) -> LineIter<'a>
        requires { IsRunAt bytes.now run.now }
        ensures { result ≡ lines_in (text_at bytes.now run.now) }
    {
        LineIter {
            left: LinesLeft::Run {
                text: run_front(bytes, run),
                len: (run.to - run.from) as usize,
            },
        }
    }

    /// Those that begin at places in the bytes.
    pub(crate) fn of_places(bytes: &'a [u8], places: &'a [usize]) -> LineIter<'a>
        requires { AllByRecursion (ReadsLine bytes.now) places.now }
        ensures { result ≡ kept_lines bytes.now places.now }
    {
        LineIter {
            left: LinesLeft::Listed { bytes, places },
        }
    }
}

impl<'a> Iterator for LineIter<'a> {
    type Item = SourceLine;

    ghost next_gives = { YieldsFirstBy line_seen (λ lines. lines) };

    ghost remaining = { item_count (λ lines. lines) };

    #[inline]
    fn next(&mut self) -> Option<SourceLine> {
        match self.left {
            LinesLeft::Run { text, len } => {
                if len == 0 {
                    return None;
                }
                let first = first_of_run(text, len);
                self.left = LinesLeft::Run {
                    text: &text[first.len..],
                    len: len - first.len,
                };
                Some(first.line)
            }
            LinesLeft::Listed { bytes, places } => {
                let (place, others) = places.split_first()?;
                self.left = LinesLeft::Listed {
                    bytes,
                    places: others,
                };
                Some(line_or_zeros(bytes, *place))
            }
        }
    }
}

/// The first line of a run.
#[derive(Clone, Copy)]
struct FirstOfRun {
    /// Its record.
    line: SourceLine,
    /// How many bytes it takes, with its end.
    len: usize,
}

/// The first line of a run that is so many bytes of the text.
#[inline(always)]
fn first_of_run(text: &[u8], len: usize) -> FirstOfRun
    requires run { IsRunFront text.now len }
    requires positive { 0 < len }
    ensures lines { lines_in (take len text.now) ≡ line_seen result.line ∷ lines_in (take (len - result.len) (drop result.len text.now)) }
    ensures rest { IsRunFront (drop result.len text.now) (len - result.len) }
    ensures positive { 0 < result.len }
    ensures within { result.len ≤ len }
{
    let next = known_line_record(text);
    let end = next.end + 1;
    if end < len {
        FirstOfRun {
            line: next.line,
            len: end,
        }
    } else {
        FirstOfRun {
            line: next.line,
            len,
        }
    }
}
