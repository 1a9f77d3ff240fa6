//! What is counted of answers.

ghost use Rattle.std.specs.Prelude.{◌≡◌, IfOk, IsOkUnless};
ghost use Rattle.bz_base.specs.Answer.{reading};
ghost use Rattle.bz_base.specs.declared.error.Error.{Error};
ghost use Rattle.bz_run.specs.GeneratedSummary.{Fits, tally_of, with_answer};

use bz_base::{Result, Symbolized};
use bz_symbolize::Lookups;
use std::alloc::Global;

/// What was counted of answers.
#[derive(Clone, Copy)]
pub(crate) struct Tally {
    /// How many are known.
    pub(crate) known: u64,
    /// How many aren't.
    pub(crate) unknown: u64,
    /// The inlined calls of all of them.
    pub(crate) inlined: u64,
    /// The sum of the offsets of those that are known, in bytes.
    pub(crate) offsets: u64,
}

/// What is counted of the answers, each of which is made and let go again.
pub(crate) fn tally_of(alloc: Global, lookups: &Lookups<'_>) -> Result<Tally>
    requires { Fits (tally_of lookups.now.answers) }
    ensures ok { IfOk result (λ tally. tally ≡ tally_of lookups.now.answers) }
    ensures memory { IsOkUnless result Error.OutOfMemory }
{
    let mut tally = Tally {
        known: 0,
        unknown: 0,
        inlined: 0,
        offsets: 0,
    };
    for index in 0..lookups.len() {
        let answer = lookups.answer(alloc, index)?;
        tally = tally.with(&answer);
    }
    Ok(tally)
}

impl Tally {
    // The tally of one answer more.
    fn with(self, answer: &Symbolized<'_>) -> Tally
        requires { Fits (with_answer (reading answer.now) self) }
        ensures { result ≡ with_answer (reading answer.now) self }
    {
        match answer {
            Symbolized::Sym(symbol) => Tally {
                known: self.known + 1,
                unknown: self.unknown,
                inlined: self.inlined + symbol.inlined.len() as u64,
                offsets: self.offsets + symbol.offset as u64,
            },
            Symbolized::Unknown(_) => Tally {
                known: self.known,
                unknown: self.unknown + 1,
                inlined: self.inlined,
                offsets: self.offsets,
            },
        }
    }
}
