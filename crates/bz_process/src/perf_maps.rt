//! The perf maps of processes, and what is remembered of processes to find them.

ghost use Rattle.std.specs.Prelude.{◌≡◌, None, false, IfErr, IfOk, IsOkUnless, OnErr};
ghost use Rattle.bz_base.specs.Answer.{reading};
ghost use Rattle.bz_base.specs.Resolution as resolution;
ghost use Rattle.bz_base.specs.declared.error.Error.{Error};
ghost use Rattle.bz_cache.specs.Cache.{Cache};
ghost use Rattle.bz_cache.specs.Format.{GivesOrFaults};
ghost use Rattle.bz_cache.specs.InsertMap.{value_at, with_absent};
ghost use Rattle.bz_cache.specs.FileCall.{CallsFile};
ghost use Rattle.bz_files.specs.Looked.{Faulted, Looked, ReadsOne};
ghost use Rattle.bz_files.specs.World.{Told, entry_at, has_file, in_view};
ghost use Rattle.bz_proc.specs.PerfId.{IsOfStatus, ns_tgid_of, status_path};
ghost use Rattle.bz_proc.specs.SystemText.{IsReadRefusal};
ghost use Rattle.bz_proc.specs.PerfMap as perf;
ghost use Rattle.bz_process.specs.Asked.{asked_of};
ghost use Rattle.bz_process.specs.Caches.{caches};
ghost use Rattle.bz_process.specs.Process.{and_then, asks_perf_map, by_asked, by_perf_map, of_perf_map, pid_cmp, remember, remembered};
ghost use Rattle.bz_process.specs.ProcessCall.{StepsPerfMaps, softened};
ghost use Rattle.bz_process.specs.Untold.{IsKnown, LooksAtPerfMap, LooksSoftly, MayLackId, SomeByAsked, as_read};

use crate::query::ProcessQuery;
use crate::remembered::RememberedProcess;
use bz_base::{Addr, Error, FindSymOpts, Pid, Reason, Result, Symbolize, Symbolized};
use bz_cache::{FileCache, InsertMap};
use bz_files::Files;
use bz_proc::PerfMap;
use std::alloc::Global;

/// The perf maps that are kept, and what is remembered of processes.
#[derive(Drop)]
pub(crate) struct PerfMaps {
    /// The perf maps.
    pub(crate) files: FileCache<PerfMap>,
    /// What is remembered of each process.
    pub(crate) ids: InsertMap<Pid, RememberedProcess>,
}

impl PerfMaps {
    /// The answer to an address of a mapping without a name.
    pub(crate) fn answer_without_name<F: Files>(
        &mut self,
        alloc: Global,
        files: &mut F,
        query: &ProcessQuery,
        addr: Addr,
    ) -> Result<Symbolized<'static>>
        ensures step { StepsPerfMaps F.Files (F.pid files.old) reading (by_asked query.now.perf_map (asked_of (F.pid files.old) query.now) addr) result self.old self.new files.old files.new }
        ensures untold { (elf : Cache) → SomeByAsked (asked_of (F.pid files.old) query.now) (as_read reading result) (caches elf self.old) (caches elf self.new) query.now.perf_map addr }
    {
        if query.perf_map {
            self.in_perf_map(alloc, files, query.pid, addr)
        } else {
            Ok(Symbolized::Unknown(Reason::UnknownAddr))
        }
    }

    // The answer of the process's perf map, where one that is absent knows no address.
    fn in_perf_map<F: Files>(
        &mut self,
        alloc: Global,
        files: &mut F,
        pid: Pid,
        addr: Addr,
    ) -> Result<Symbolized<'static>>
        ensures step { StepsPerfMaps F.Files (F.pid files.old) reading (by_perf_map pid (F.pid files.old) addr) result self.old self.new files.old files.new }
        ensures untold { (elf : Cache) → LooksSoftly (as_read reading result) (caches elf self.old) (caches elf self.new) pid (F.pid files.old) addr }
    {
        softened(self.look_in_perf_map(alloc, files, pid, addr))
    }

    // The answer of the process's perf map.
    fn look_in_perf_map<F: Files>(
        &mut self,
        alloc: Global,
        files: &mut F,
        pid: Pid,
        addr: Addr,
    ) -> Result<Symbolized<'static>>
        ensures step { StepsPerfMaps F.Files (F.pid files.old) reading (and_then (remember pid (F.pid files.old)) (λ known. of_perf_map (asks_perf_map addr) known.perf_map)) result self.old self.new files.old files.new }
        ensures untold { (elf : Cache) → LooksAtPerfMap (as_read reading result) (caches elf self.old) (caches elf self.new) pid (F.pid files.old) addr }
    {
        let known = self.known(alloc, files, pid)?;
        perf_map_answer(&mut self.files, alloc, files, known.perf_map(), addr)
    }

    /// What is remembered of the process; if nothing is, what its status tells, which is then
    /// remembered.
    pub(crate) fn known<F: Files>(
        &mut self,
        alloc: Global,
        files: &mut F,
        pid: Pid,
    ) -> Result<RememberedProcess>
        ensures step { StepsPerfMaps F.Files (F.pid files.old) (λ known. known) (remember pid (F.pid files.old)) result self.old self.new files.old files.new }
        ensures ok { IfOk result (λ known. self.new ≡ record self.old { ids = with_absent pid_cmp self.old.ids pid known }) }
        ensures err { OnErr result (self.new ≡ self.old) }
        ensures untold { IfOk result (IsKnown pid (F.pid files.old) (value_at pid_cmp self.old.ids pid)) }
        ensures refusal { IfErr result (MayLackId (value_at pid_cmp self.old.ids pid)) }
    {
        match self.ids.get(&pid) {
            Some(known) => known.share(),
            None => self.remember(alloc, files, pid),
        }
    }

    // Remembers a process by its status.
    fn remember<F: Files>(
        &mut self,
        alloc: Global,
        files: &mut F,
        pid: Pid,
    ) -> Result<RememberedProcess>
        requires { value_at pid_cmp self.old.ids pid ≡ None }
        ensures step { StepsPerfMaps F.Files (F.pid files.old) (λ known. known) (remember pid (F.pid files.old)) result self.old self.new files.old files.new }
        ensures ok { IfOk result (λ known. self.new ≡ record self.old { ids = with_absent pid_cmp self.old.ids pid known }) }
        ensures err { OnErr result (self.new ≡ self.old) }
        ensures untold { IfOk result (IsKnown pid (F.pid files.old) None) }
        ensures refusal { IfErr result IsReadRefusal }
    {
        let known = read_known(alloc, files, pid)?;
        let shared = known.share()?;
        self.ids.get_or_insert(alloc, pid, || known)?;
        Ok(shared)
    }
}

// What the status of a process tells to be remembered.
fn read_known<F: Files>(alloc: Global, files: &mut F, pid: Pid) -> Result<RememberedProcess>
    ensures answer { Told (in_view (F.worlds files.old)) (λ world. GivesOrFaults (λ known. known.id) (ns_tgid_of pid (F.pid files.old) (entry_at world (status_path pid))) result) }
    ensures known { IfOk result (λ known. known ≡ remembered pid (F.pid files.old) known.id) }
    ensures untold { IfOk result (λ known. IsOfStatus pid (F.pid files.old) known.id) }
    ensures refusal { IfErr result IsReadRefusal }
    ensures spared { Told (in_view (F.worlds files.old)) (λ world. has_file (entry_at world (status_path pid)) ≡ false → F.opens files.new ≡ F.opens files.old) }
    ensures most { ReadsOne F.Files files.old files.new }
    ensures files { Looked F.Files files.old files.new (Faulted result) }
{
    let own = files.own_pid();
    let id = PerfMap::ns_tgid(alloc, files, pid)?;
    let path = PerfMap::path(alloc, pid, own, id)?;
    RememberedProcess::new(alloc, id, path)
}

// The answer of the perf map at the path.
fn perf_map_answer<F: Files>(
    cache: &mut FileCache<PerfMap>,
    alloc: Global,
    files: &mut F,
    path: &str,
    addr: Addr,
) -> Result<Symbolized<'static>>
    ensures { CallsFile F.Files reading (asks_perf_map addr) path.now result cache.old cache.new files.old files.new }
{
    let map = cache.entry(alloc, files, path)?;
    in_map(alloc, map, addr)
}

// What a perf map says of an address.
fn in_map(alloc: Global, map: &PerfMap, addr: Addr) -> Result<Symbolized<'static>>
    ensures answer { IfOk result (λ answer. reading answer ≡ resolution.answer_at addr (perf.plain map.now addr)) }
    ensures memory { IsOkUnless result Error.OutOfMemory }
{
    match map.find_sym(alloc, addr, &FindSymOpts::Basic)? {
        Ok(symbol) => Symbolized::Sym(symbol.into_sym(addr)).into_owned(alloc),
        Err(reason) => Ok(Symbolized::Unknown(reason)),
    }
}

// The answer, where a file that is absent makes the address unknown.
fn softened(answer: Result<Symbolized<'static>>) -> Result<Symbolized<'static>>
    ensures { result ≡ softened answer.entry }
{
    match answer {
        Ok(answer) => Ok(answer),
        Err(Error::NotFound) => Ok(Symbolized::Unknown(Reason::UnknownAddr)),
        Err(error) => Err(error),
    }
}
