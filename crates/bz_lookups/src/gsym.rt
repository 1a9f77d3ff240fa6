//! GSYM as what answers, in a file or handed in.

ghost use Rattle.std.specs.Prelude.{IfOk, IfErr, IsErrOf};
ghost use Rattle.bz_base.specs.Answer.{Gives, reading};
ghost use Rattle.bz_base.specs.InputKind.{address_kind};
ghost use Rattle.bz_base.specs.Lent.{IsLent};
ghost use Rattle.bz_base.specs.Refusals.{MayRefuse};
ghost use Rattle.bz_base.specs.declared.error.Error.{Error};
ghost use Rattle.bz_base.specs.declared.types.FindSymOpts.{FindSymOpts};
ghost use Rattle.bz_cache.specs.FileCall.{each_of, query_given};
ghost use Rattle.bz_gsym.specs.Refusal.{IsAnswerRefusal};
ghost use Rattle.bz_lookups.specs.Batch.{held_singles, version_of};
ghost use Rattle.bz_lookups.specs.Counted.{TakesSteps, no_steps};
ghost use Rattle.bz_lookups.specs.Formats.{gsym_answering, gsym_handed, gsym_single, handed_answer};

use crate::answering::Answers;
use crate::held::Held;
use bz_base::{Addr, Error, FindSymOpts, Input, Result, Symbolized};
use bz_gsym::{GsymContext, GsymTable};
use std::alloc::Global;
use std::rc::Rc;

impl Answers for GsymTable {
    ghost answering = { gsym_answering };

    ghost few_steps = { no_steps };

    fn takes<A>(input: &Input<A>) -> bool {
        match input {
            Input::VirtOffset(_) => true,
            Input::AbsAddr(_) | Input::FileOffset(_) => false,
        }
    }

    fn hold<'d, A>(
        _alloc: Global,
        version: Rc<GsymTable>,
        path: &str,
        input: &Input<A>,
    ) -> Result<Held<'d>>
        ensures held { (opts : FindSymOpts) → Gives (held_singles opts) (query_given gsym_answering opts path.now (each_of (address_kind input.now)) version.value) result }
        ensures steps { IfOk result (λ held. TakesSteps (version_of held) (no_steps version.value)) }
        ensures refusal { IfErr result MayRefuse }
    {
        // A GSYM answer names no path.
        let _path = path;
        match input {
            Input::VirtOffset(_) => Ok(Held::Gsym(version)),
            Input::AbsAddr(_) | Input::FileOffset(_) => Err(Error::Unsupported),
        }
    }
}

/// Bytes that are handed in, held to answer addresses of the input's kind. Unsupported: GSYM answers
/// none of that kind. InvalidData: they aren't GSYM.
pub fn hold_data<'d, A>(bytes: &'d [u8], input: &Input<A>) -> Result<Held<'d>>
    ensures held { (opts : FindSymOpts) → Gives (held_singles opts) (handed_answer (gsym_handed bytes.now) opts (each_of (address_kind input.now))) result }
    ensures steps { IfOk result (λ held. TakesSteps (version_of held) (no_steps bytes.now)) }
    ensures refusal { IfErr result MayRefuse }
    ensures no_memory { IsErrOf result Error.OutOfMemory → ⊥ }
{
    match input {
        Input::VirtOffset(_) => {
            let context = GsymContext::parse_header(bytes)?;
            Ok(Held::GsymData(context))
        }
        Input::AbsAddr(_) | Input::FileOffset(_) => Err(Error::Unsupported),
    }
}

/// The answer at an address, whose texts are lent.
pub(crate) fn answer_at<'a>(
    alloc: Global,
    context: &GsymContext<'a>,
    opts: &FindSymOpts,
    addr: Addr,
) -> Result<Symbolized<'a>>
    ensures answer { Gives reading (gsym_single opts.now context.now addr) result }
    ensures lent { IfOk result IsLent }
    ensures refusal { IfErr result (IsAnswerRefusal opts.now) }
{
    match context.find_sym(alloc, addr, opts)? {
        Ok(symbol) => Ok(Symbolized::Sym(symbol.into_sym(addr))),
        Err(reason) => Ok(Symbolized::Unknown(reason)),
    }
}
