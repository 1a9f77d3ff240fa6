//! What a symbolizer may be asked to keep ahead of addresses.

ghost use Rattle.std.specs.Prelude.{◌≡◌, true, string_bytes, Ok, IfOk, IsOkUnless};
ghost use Rattle.bz_base.specs.declared.error.Error.{Error};
ghost use Rattle.bz_symbolize.specs.Requests.{cache_read, process_caching};
ghost use Rattle.bz_symbolize.specs.declared.cache.Cache.TheVariants as caches;

use bz_base::{Error, Pid, Result};
use bz_process::ProcessCaching;
use std::alloc::Global;
use std::fmt;

/// An ELF file. It is looked at, and its path is pinned: it is answered by that version from then on.
#[derive(Drop)]
pub struct Elf {
    /// The path of the file.
    pub path: String,
}

impl Elf {
    /// The ELF file at a path.
    pub fn new(path: String) -> Elf
        ensures { result.path ≡ path }
    {
        Elf { path }
    }

    /// The same file, by a path of its own.
    pub fn try_clone(&self, alloc: Global) -> Result<Elf>
        ensures same { IfOk result (λ copy. string_bytes copy.path ≡ string_bytes self.now.path) }
        ensures memory { IsOkUnless result Error.OutOfMemory }
    {
        let path = String::from_str(alloc, self.path.as_str())?;
        Ok(Elf { path })
    }
}

impl fmt::Debug for Elf {
    fn fmt<W: fmt::Write>(&self, f: &mut fmt::Formatter<W>) -> fmt::Result {
        let path = &self.path;
        write!(f, "Elf({path:?})")
    }
}

/// A process. What is kept of it answers also once the process is gone. The files that it has mapped
/// aren't kept. They answer then only at their own paths, with `map_files` off, or where the ELF path
/// that is looked at is pinned.
#[derive(Drop)]
pub struct Process {
    /// The process.
    pub pid: Pid,
    /// Whether its mappings are read and kept. They aren't read anew then, unless they are asked for
    /// again.
    pub cache_vmas: bool,
    /// Whether its id is remembered and its perf map pinned, if it has one.
    pub cache_perf_map: bool,
}

impl Process {
    /// The process, with all that may be kept of it.
    pub fn new(pid: Pid) -> Process
        ensures { result ≡ record { pid = pid; cache_vmas = true; cache_perf_map = true } }
    {
        Process {
            pid,
            cache_vmas: true,
            cache_perf_map: true,
        }
    }

    /// The same request. It takes no memory.
    pub fn try_clone(&self, _alloc: Global) -> Result<Process>
        ensures { result ≡ Ok self.now }
    {
        Ok(Process {
            pid: self.pid,
            cache_vmas: self.cache_vmas,
            cache_perf_map: self.cache_perf_map,
        })
    }

    // What of it is kept.
    pub(crate) fn caching(&self) -> ProcessCaching
        ensures { result ≡ process_caching self.now }
    {
        ProcessCaching {
            pid: self.pid,
            cache_vmas: self.cache_vmas,
            cache_perf_map: self.cache_perf_map,
        }
    }
}

impl fmt::Debug for Process {
    fn fmt<W: fmt::Write>(&self, f: &mut fmt::Formatter<W>) -> fmt::Result {
        let pid = &self.pid;
        write!(f, "Process({pid})")
    }
}

/// Anything that may be kept ahead of addresses.
#[derive(Drop)]
pub enum Cache {
    /// An ELF file.
    Elf(Elf),
    /// A process.
    Process(Process),
}

impl Cache {
    /// The same request, with a path of its own.
    pub fn try_clone(&self, alloc: Global) -> Result<Cache>
        ensures same { IfOk result (λ copy. cache_read copy ≡ cache_read self.now) }
        ensures memory { IsOkUnless result Error.OutOfMemory }
    {
        match self {
            Cache::Elf(file) => Ok(Cache::Elf(file.try_clone(alloc)?)),
            Cache::Process(process) => Ok(Cache::Process(process.try_clone(alloc)?)),
        }
    }
}

impl fmt::Debug for Cache {
    fn fmt<W: fmt::Write>(&self, f: &mut fmt::Formatter<W>) -> fmt::Result {
        match self {
            Cache::Elf(file) => fmt::Debug::fmt(file, f),
            Cache::Process(process) => fmt::Debug::fmt(process, f),
        }
    }
}

impl From<Elf> for Cache {
    ghost from_gives = { λ file given. given ≡ caches.Elf file };

    fn from(file: Elf) -> Cache {
        Cache::Elf(file)
    }
}

impl From<Process> for Cache {
    ghost from_gives = { λ process given. given ≡ caches.Process process };

    fn from(process: Process) -> Cache {
        Cache::Process(process)
    }
}
