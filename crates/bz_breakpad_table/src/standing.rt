//! The line records of a function as they are read. They are a run, as long as the texts of their
//! starts tell that they stand in order.

ghost use Rattle.std.specs.Prelude.{◌≡◌, ◌+◌, ℕ, List, drop, IfSome};
ghost use Rattle.bz_breakpad_lines.specs.Line.{source_line};
ghost use Rattle.bz_breakpad_lines.specs.QuickLine.{IsQuickLine};
ghost use Rattle.bz_breakpad_lines.specs.declared.line.QuickLine.{QuickLine};
ghost use Rattle.bz_breakpad_table.specs.Kept.{IsLonger, LinesFitSoFar};
ghost use Rattle.bz_breakpad_table.specs.declared.standing.LinesSoFar.{LinesSoFar};
ghost use Rattle.bz_breakpad_table.specs.declared.types.LineKey.{LineKey};

use crate::types::Part;
use bz_breakpad_lines::StartText;

/// The line records of a function that have been read.
#[derive(Clone, Copy)]
pub enum LinesSoFar {
    /// There are none.
    Empty,
    /// They stand one after another in this part of the file's bytes, each starting after the one
    /// before it. The text is that of the last start.
    Run(Part, StartText),
    /// Their keys are listed.
    Listed,
}

impl LinesSoFar {
    /// With the line record in a part of the bytes, if they are a run with it.
    /// None if that isn't known.
    #[inline(always)]
    pub fn run_with(self, part: Part, start: Option<StartText>) -> Option<LinesSoFar>
        ensures { IfSome result (λ more. (bytes : List ℕ) (keys : List LineKey) (rest : List ℕ) (line : QuickLine) (is : IsQuickLine rest line) → drop part.from bytes ≡ rest →
            part.to ≡ part.from + line.len → start ≡ line.start → LinesFitSoFar bytes keys self → IsLonger bytes keys keys self more (source_line is.value)) }
    {
        let start = start?;
        match self {
            LinesSoFar::Empty => Some(LinesSoFar::Run(part, start)),
            LinesSoFar::Run(run, last) if run.to == part.from && last.is_below(start) => {
                let whole = Part {
                    from: run.from,
                    to: part.to,
                };
                Some(LinesSoFar::Run(whole, start))
            }
            LinesSoFar::Run(_, _) => None,
            LinesSoFar::Listed => None,
        }
    }

    /// The run and the text of its last start, if it ends at this place.
    #[inline(always)]
    pub fn run_up_to(self, place: usize) -> Option<(Part, StartText)>
        ensures run { IfSome result (λ found. self ≡ LinesSoFar.Run found.0 found.1) }
        ensures ends { IfSome result (λ found. found.0.to ≡ place) }
    {
        let LinesSoFar::Run(run, last) = self else {
            return None;
        };
        if run.to as usize == place {
            Some((run, last))
        } else {
            None
        }
    }
}
