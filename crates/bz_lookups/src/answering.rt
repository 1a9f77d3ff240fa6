//! How a parsed file is held, whatever its format, and the call on one file in one cache.

ghost use Rattle.std.specs.Prelude.{◌≡◌, ℕ, List, IfOk, IfErr};
ghost use Rattle.bz_base.specs.Answer.{Gives};
ghost use Rattle.bz_base.specs.InputKind.{address_kind};
ghost use Rattle.bz_base.specs.Refusals.{MayRefuse};
ghost use Rattle.bz_base.specs.declared.types.FindSymOpts.{FindSymOpts};
ghost use Rattle.bz_cache.specs.FileCall.{Answering, CallsFile, each_of, query_asked, query_given};
ghost use Rattle.bz_lookups.specs.Batch.{held_singles, version_of};
ghost use Rattle.bz_lookups.specs.Counted.{FileSteps, TakesSteps};

use crate::held::Held;
use bz_base::{Error, Input, Result};
use bz_cache::{FileCache, Version};
use bz_files::Files;
use std::alloc::Global;
use std::rc::Rc;

/// A parsed file that answers addresses.
pub trait Answers: Version {
    /// Which kinds of address are taken before a look, which ones are answered, and how.
    ghost answering: { Answering };

    /// Whether a batch of so many addresses may take, on these bytes, the steps from one count to
    /// another.
    ghost few_steps: { List ℕ → ℕ → ℕ → ℕ → Type 0 };

    /// Whether the kind of address is taken before the file is looked at.
    fn takes<A>(input: &Input<A>) -> bool
        ensures { result ≡ answering.takes (address_kind input.now) };

    /// The version, held to answer addresses of the input's kind. Unsupported: it answers none of that
    /// kind.
    fn hold<'d, A>(
        alloc: Global,
        version: Rc<Self>,
        path: &str,
        input: &Input<A>,
    ) -> Result<Held<'d>>
        ensures held { (opts : FindSymOpts) → Gives (held_singles opts) (query_given answering opts path.now (each_of (address_kind input.now)) (Self.bytes_of version.value)) result }
        ensures steps { IfOk result (λ held. TakesSteps (version_of held) (few_steps (Self.bytes_of version.value))) }
        ensures refusal { IfErr result MayRefuse };
}

/// The version of the file at the path, held to answer addresses of the input's kind. It is refused by
/// `Unsupported` where the format doesn't take the kind, before any look, or doesn't answer it. Else it
/// is refused as the look is.
pub fn hold_file<'d, T: Answers + Drop, F: Files, A>(
    cache: &mut FileCache<T>,
    alloc: Global,
    files: &mut F,
    path: &str,
    input: &Input<A>,
) -> Result<Held<'d>>
    ensures called { (opts : FindSymOpts) → CallsFile F.Files (held_singles opts) (query_asked T.test T.answering opts path.now (each_of (address_kind input.now))) path.now result cache.old cache.new files.old files.new }
    ensures steps { IfOk result (λ held. TakesSteps (version_of held) (FileSteps T.few_steps cache.new path.now)) }
{
    if !T::takes(input) {
        return Err(Error::Unsupported);
    }
    let version = cache.shared(alloc, files, path)?;
    T::hold(alloc, version, path, input)
}
