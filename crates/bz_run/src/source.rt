//! The source that a Breakpad file is.

ghost use Rattle.std.specs.Prelude.{◌≡◌, IfOk, IsOkUnless};
ghost use Rattle.bz_base.specs.declared.error.Error.{Error};
ghost use Rattle.bz_symbolize.specs.Sources.{OneFile, form_of};
ghost use Rattle.bz_symq.specs.Command.{Breakpad as BreakpadAt};
ghost use Rattle.bz_symq.specs.FileSources.{breakpad_file};
ghost use Rattle.bz_symq.specs.Targets.{IsSourceOf};

use bz_base::Result;
use bz_symbolize::source::{Breakpad, Source};
use std::alloc::Global;

/// The Breakpad file at a path, as a source.
pub(crate) fn breakpad_source(alloc: Global, path: &str) -> Result<Source<'static>>
    ensures source { IfOk result (λ src. IsSourceOf (BreakpadAt path.now) src) }
    ensures form { IfOk result (λ src. form_of src ≡ OneFile (breakpad_file path.now)) }
    ensures memory { IsOkUnless result Error.OutOfMemory }
{
    let path = String::from_str(alloc, path)?;
    Ok(Source::from(Breakpad::new(path)))
}
