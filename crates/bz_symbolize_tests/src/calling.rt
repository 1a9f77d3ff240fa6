//! A caller: the answers of a Breakpad file to some addresses.

ghost use Rattle.std.specs.Prelude.{ℕ, List, map, IfOk};
ghost use Rattle.bz_base.specs.Answer.{reading};
ghost use Rattle.bz_symbolize.specs.Promise.{IsBreakpadBatch};
ghost use Rattle.bz_symbolize.specs.State.{default_settings, opts_of};

use bz_base::{Input, Result, Symbolized};
use bz_files::Files;
use bz_symbolize::Symbolizer;
use bz_symbolize::source::{Breakpad, Source};
use std::alloc::Global;

/// The answers of the Breakpad file at a path to addresses relative to the module's base. Whatever
/// the files tell, they are the plain answers of the bytes of a Breakpad file, in every field.
pub(crate) fn answers_at<F: Files>(
    alloc: Global,
    files: &mut F,
    path: &str,
    addrs: &[u64],
) -> Result<Vec<Symbolized<'static>>>
    ensures { IfOk result (λ answers. (bytes : List ℕ) × IsBreakpadBatch (opts_of default_settings) bytes addrs.now (map reading answers.items)) }
{
    let src = Source::from(Breakpad::new(String::from_str(alloc, path)?));
    let mut symbolizer = Symbolizer::new(alloc);
    symbolizer.symbolize(alloc, files, &src, Input::FileOffset(addrs))
}
