//! Keeping what answers for a process ahead of its addresses.

ghost use Rattle.std.specs.Prelude.{◌≡◌, ℕ, cond, List, IfErr, IfOk, IsOk, IsOkUnless, OnErr, OnOk, is_some, true, false};
ghost use Rattle.bz_base.specs.declared.error.Error.{Error};
ghost use Rattle.bz_base.specs.declared.pid.Pid.{Pid};
ghost use Rattle.bz_cache.specs.Cache.{Cache};
ghost use Rattle.bz_cache.specs.InsertMap.{value_at, without};
ghost use Rattle.bz_cache.specs.Pinning.{IsLeft};
ghost use Rattle.bz_files.specs.World.{Told, entry_at, in_view};
ghost use Rattle.bz_proc.specs.Maps.{Mapping};
ghost use Rattle.bz_proc.specs.MapsFile.{AreOfText, maps_path, maps_told};
ghost use Rattle.bz_proc.specs.SystemText.{IsReadRefusal};
ghost use Rattle.bz_process.specs.Caches.{ProcessCaches, caches};
ghost use Rattle.bz_process.specs.Caching.{after_mappings, caches_perf_map, caches_process, caching_of, mappings_after, perf_map_pinning, pins_perf_map, with_former, with_mappings, with_told};
ghost use Rattle.bz_process.specs.CachingCall.{MayKeep, MayPin, PinsKnown, StepsPerfMapsWhole, TakesWhole};
ghost use Rattle.bz_process.specs.Process.{and_then, pid_cmp, remember};

use crate::mapped::{Mapped, read_mapped};
use crate::perf_maps::PerfMaps;
use bz_base::{Error, Pid, Result};
use bz_cache::{FileCache, InsertMap, pin_file};
use bz_files::Files;
use bz_proc::PerfMap;
use std::alloc::Global;

/// What of a process is kept ahead of its addresses.
#[derive(Clone, Copy)]
pub struct ProcessCaching {
    /// The process.
    pub pid: Pid,
    /// Whether its mappings are read and kept.
    pub cache_vmas: bool,
    /// Whether its id is remembered and its perf map pinned.
    pub cache_perf_map: bool,
}

/// Reads and keeps the mappings of a process, and then pins its perf map, each where it is asked for.
/// After a refusal mappings, perf maps and ids are as before.
pub(crate) fn cache_process<F: Files>(
    perf_maps: &mut PerfMaps,
    mappings: &mut InsertMap<Pid, Mapped>,
    alloc: Global,
    files: &mut F,
    request: &ProcessCaching,
) -> Result<()>
    ensures step { StepsPerfMapsWhole F.Files (F.pid files.old) (caches_process (caching_of (F.pid files.old) request.now)) result perf_maps.old perf_maps.new files.old files.new }
    ensures mappings { Told (in_view (F.worlds files.old)) (λ world. OnOk result (mappings.new ≡ mappings_after (caching_of (F.pid files.old) request.now) world mappings.old)) }
    ensures untold { OnOk result (MayKeep (caching_of (F.pid files.old) request.now) mappings.old mappings.new) }
    ensures pinned { (elf : Cache) → OnOk result (MayPin request.now.cache_perf_map request.now.pid (F.pid files.old) (in_view (F.worlds files.old)) (caches elf perf_maps.old) (caches elf perf_maps.new)) }
    ensures err { OnErr result (mappings.new ≡ mappings.old) }
    ensures refusal { IfErr result IsReadRefusal }
    ensures sure { request.now.cache_vmas ≡ false → request.now.cache_perf_map ≡ false → IsOk result }
{
    if request.cache_vmas {
        cache_mapped(perf_maps, mappings, alloc, files, request)
    } else {
        perf_maps.cache(alloc, files, request)
    }
}

// Reads and keeps the mappings of a process, and then pins its perf map where that is asked for.
fn cache_mapped<F: Files>(
    perf_maps: &mut PerfMaps,
    mappings: &mut InsertMap<Pid, Mapped>,
    alloc: Global,
    files: &mut F,
    request: &ProcessCaching,
) -> Result<()>
    ensures step { StepsPerfMapsWhole F.Files (F.pid files.old) (after_mappings true request.now.pid (caches_perf_map request.now.cache_perf_map request.now.pid (F.pid files.old))) result perf_maps.old perf_maps.new files.old files.new }
    ensures mappings { Told (in_view (F.worlds files.old)) (λ world. OnOk result (mappings.new ≡ with_told request.now.pid mappings.old (maps_told request.now.pid (entry_at world (maps_path request.now.pid))))) }
    ensures untold { OnOk result ((told : List Mapping) × AreOfText request.now.pid told × (mappings.new ≡ with_mappings request.now.pid mappings.old told)) }
    ensures pinned { (elf : Cache) → OnOk result (MayPin request.now.cache_perf_map request.now.pid (F.pid files.old) (in_view (F.worlds files.old)) (caches elf perf_maps.old) (caches elf perf_maps.new)) }
    ensures err { OnErr result (mappings.new ≡ mappings.old) }
    ensures refusal { IfErr result IsReadRefusal }
{
    let mapped = read_mapped(alloc, files, request.pid)?;
    // The place for the mappings is made first: once the perf map is pinned, nothing may fail any more.
    let former = put(mappings, alloc, request.pid, mapped)?;
    match perf_maps.cache(alloc, files, request) {
        Ok(()) => Ok(()),
        Err(error) => {
            put_back(mappings, request.pid, former);
            Err(error)
        }
    }
}

// Keeps the mappings of a process, and returns those that were kept before.
fn put(
    mappings: &mut InsertMap<Pid, Mapped>,
    alloc: Global,
    pid: Pid,
    mapped: Mapped,
) -> Result<Option<Mapped>>
    ensures former { IfOk result (λ former. former ≡ value_at pid_cmp mappings.old pid) }
    ensures ok { OnOk result (mappings.new ≡ with_mappings pid mappings.old mapped) }
    ensures err { OnErr result (mappings.new ≡ mappings.old) }
    ensures memory { IsOkUnless result Error.OutOfMemory }
{
    match mappings.replace(&pid, mapped) {
        Ok(former) => Ok(Some(former)),
        Err(mapped) => {
            mappings.get_or_insert(alloc, pid, || mapped)?;
            Ok(None)
        }
    }
}

// Gives a process the mappings back that were kept before, if some were.
fn put_back(mappings: &mut InsertMap<Pid, Mapped>, pid: Pid, former: Option<Mapped>)
    ensures { mappings.new ≡ with_former pid mappings.old former }
{
    match former {
        Some(mapped) => {
            let _latter = mappings.replace(&pid, mapped);
        }
        None => {
            let _latter = mappings.remove(&pid);
        }
    }
}

impl PerfMaps {
    // Remembers a process and pins its perf map, where that is asked for.
    fn cache<F: Files>(
        &mut self,
        alloc: Global,
        files: &mut F,
        request: &ProcessCaching,
    ) -> Result<()>
        ensures step { StepsPerfMapsWhole F.Files (F.pid files.old) (caches_perf_map request.now.cache_perf_map request.now.pid (F.pid files.old)) result self.old self.new files.old files.new }
        ensures pinned { (elf : Cache) → OnOk result (MayPin request.now.cache_perf_map request.now.pid (F.pid files.old) (in_view (F.worlds files.old)) (caches elf self.old) (caches elf self.new)) }
        ensures refusal { IfErr result IsReadRefusal }
        ensures sure { request.now.cache_perf_map ≡ false → IsOk result }
    {
        if request.cache_perf_map {
            self.pin(alloc, files, request.pid)
        } else {
            Ok(())
        }
    }

    // Remembers a process and pins its perf map.
    fn pin<F: Files>(&mut self, alloc: Global, files: &mut F, pid: Pid) -> Result<()>
        ensures step { StepsPerfMapsWhole F.Files (F.pid files.old) (and_then (remember pid (F.pid files.old)) (λ known. pins_perf_map known.perf_map)) result self.old self.new files.old files.new }
        ensures pinned { (elf : Cache) → OnOk result (PinsKnown pid (F.pid files.old) (in_view (F.worlds files.old)) (caches elf self.old) (caches elf self.new)) }
        ensures refusal { IfErr result IsReadRefusal }
    {
        let remembered = self.remembers(&pid);
        let known = self.known(alloc, files, pid)?;
        match pin_perf_map(&mut self.files, alloc, files, known.perf_map()) {
            Ok(()) => Ok(()),
            Err(error) => {
                self.take_back(&pid, remembered);
                Err(error)
            }
        }
    }

    // Forgets a process that wasn't remembered before.
    fn take_back(&mut self, pid: &Pid, remembered: bool)
        ensures files { self.new.files ≡ self.old.files }
        ensures ids { self.new.ids ≡ cond remembered self.old.ids (without pid_cmp self.old.ids pid.now) }
    {
        if !remembered {
            let _forgotten = self.ids.remove(pid);
        }
    }

    // Whether the process is remembered.
    fn remembers(&mut self, pid: &Pid) -> bool
        ensures known { result ≡ is_some (value_at pid_cmp self.old.ids pid.now) }
        ensures same { self.new ≡ self.old }
    {
        self.ids.get(pid).is_some()
    }
}

// Pins the perf map at the path. One that is absent is pinned at the version that is held, if one is.
fn pin_perf_map<F: Files>(
    cache: &mut FileCache<PerfMap>,
    alloc: Global,
    files: &mut F,
    path: &str,
) -> Result<()>
    ensures step { (own : ℕ) (kept : ProcessCaches) → TakesWhole F.Files own (λ (done : Unit {0}). done) (pins_perf_map path.now) result (record kept { perf_maps = cache.old }) (record kept { perf_maps = cache.new }) files.old files.new }
    ensures left { OnOk result (IsLeft (perf_map_pinning cache.old path.now) path.now (in_view (F.worlds files.old)) cache.new) }
    ensures refusal { IfErr result IsReadRefusal }
{
    match pin_file(cache, alloc, files, path) {
        Ok(()) => Ok(()),
        Err(Error::NotFound) => {
            let _held = cache.pin(path);
            Ok(())
        }
        Err(error) => Err(error),
    }
}
