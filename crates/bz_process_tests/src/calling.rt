//! A caller: the answers of a process to some addresses.

ghost use Rattle.std.specs.Prelude.{◌≡◌, [], None, map, true};
ghost use Rattle.bz_base.specs.Answer.{reading};
ghost use Rattle.bz_cache.specs.Cache.{new_cache};
ghost use Rattle.bz_cache.specs.Format.{GivesOrFaults};
ghost use Rattle.bz_files.specs.World.{Told, in_view};
ghost use Rattle.bz_process.specs.Mapped.{asks_process};
ghost use Rattle.bz_process.specs.Process.{unsaid};

use bz_base::{Input, Result, Symbolized};
use bz_files::Files;
use bz_symbolize::source::{Process, Source};
use bz_symbolize::{Pid, Symbolizer};
use std::alloc::Global;

/// The answers of a process to absolute addresses. Where worlds are told, the mappings, the files and
/// the perf map that lie there tell each answer and each refusal.
pub(crate) fn answers_in<F: Files>(
    alloc: Global,
    files: &mut F,
    pid: Pid,
    addrs: &[u64],
) -> Result<Vec<Symbolized<'static>>>
    ensures { Told (in_view (F.worlds files.old)) (λ world. GivesOrFaults (λ answers. map reading answers.items) (asks_process (record { pid = pid; own = F.pid files.old; perf_map = true; map_files = true }) None (map unsaid addrs.now) world (record { elf = new_cache true; perf_maps = new_cache true; ids = [] })).answer result) }
{
    let src = Source::from(Process::new(pid));
    let mut symbolizer = Symbolizer::new(alloc);
    symbolizer.symbolize(alloc, files, &src, Input::AbsAddr(addrs))
}
