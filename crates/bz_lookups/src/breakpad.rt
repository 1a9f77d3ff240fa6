//! A Breakpad file as one that answers.

ghost use Rattle.std.specs.Prelude.{◌≡◌, ◌<◌, IfOk, IfErr};
ghost use Rattle.bz_base.specs.Answer.{Gives, reading};
ghost use Rattle.bz_base.specs.InputKind.{address_kind};
ghost use Rattle.bz_base.specs.Lent.{IsLent};
ghost use Rattle.bz_base.specs.Refusals.{MayRefuse, WantsMemory};
ghost use Rattle.bz_base.specs.declared.types.FindSymOpts.{FindSymOpts};
ghost use Rattle.bz_breakpad.specs.Reader.{table_in};
ghost use Rattle.bz_cache.specs.FileCall.{each_of, query_given};
ghost use Rattle.bz_lookups.specs.Batch.{held_singles, version_of};
ghost use Rattle.bz_lookups.specs.Counted.{TakesSteps, breakpad_steps};
ghost use Rattle.bz_lookups.specs.Formats.{breakpad_answering, breakpad_single};

use crate::answering::Answers;
use crate::held::Held;
use bz_base::{Addr, Error, FindSymOpts, Input, Result, Steps, Symbolized};
use bz_breakpad::SymbolFile;
use std::alloc::Global;
use std::rc::Rc;
use std::sync::ledger::{Blank, Ledger};

impl Answers for SymbolFile {
    ghost answering = { breakpad_answering };

    ghost few_steps = { breakpad_steps };

    fn takes<A>(input: &Input<A>) -> bool {
        match input {
            Input::FileOffset(_) => true,
            Input::AbsAddr(_) | Input::VirtOffset(_) => false,
        }
    }

    fn hold<'d, A>(
        _alloc: Global,
        version: Rc<SymbolFile>,
        path: &str,
        input: &Input<A>,
    ) -> Result<Held<'d>>
        ensures held { (opts : FindSymOpts) → Gives (held_singles opts) (query_given breakpad_answering opts path.now (each_of (address_kind input.now)) version.value) result }
        ensures steps { IfOk result (λ held. TakesSteps (version_of held) (breakpad_steps version.value)) }
        ensures refusal { IfErr result MayRefuse }
    {
        // A Breakpad answer names no path.
        let _path = path;
        match input {
            Input::FileOffset(_) => Ok(Held::Breakpad(version)),
            Input::AbsAddr(_) | Input::VirtOffset(_) => Err(Error::Unsupported),
        }
    }
}

/// The answer at an address alone, whose texts are lent. The steps of its search are counted in the
/// blank, which nobody reads.
pub(crate) fn answer_blank<'a, L: Ledger>(
    alloc: Global,
    file: &'a SymbolFile,
    opts: &FindSymOpts,
    addr: Addr,
    blank: Blank,
) -> Result<Symbolized<'a>>
    requires name { blank.name ≡ L.name }
    requires parts { blank.parts ≡ L.parts }
    requires positive { 0 < L.parts }
    ensures answer { Gives reading (breakpad_single opts.now (table_in file.now) addr) result }
    ensures lent { IfOk result IsLent }
    ensures refusal { IfErr result MayRefuse }
    ensures memory { IfErr result (WantsMemory (opts.now ≡ FindSymOpts.CodeInfoAndInlined)) }
{
    let mut steps = Steps::<L>::new(blank);
    file.answer(alloc, addr, opts, &mut steps)
}
