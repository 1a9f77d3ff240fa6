//! What a symbolizer may be asked to forget.

ghost use Rattle.std.specs.Prelude.{◌≡◌, string_bytes, Ok, IfOk, IsOkUnless};
ghost use Rattle.bz_base.specs.declared.error.Error.{Error};
ghost use Rattle.bz_symbolize.specs.Requests.{evict_read};
ghost use Rattle.bz_symbolize.specs.declared.evict.Evict.TheVariants as evicts;

use bz_base::{Error, Pid, Result};
use std::alloc::Global;
use std::fmt;

/// An ELF file, and what a dispatcher said of the files that processes have mapped from its path.
#[derive(Drop)]
pub struct Elf {
    /// The path of the file.
    pub path: String,
}

impl Elf {
    /// The ELF file at a path.
    pub fn new(path: String) -> Elf
        ensures { result.path ≡ path }
    {
        Elf { path }
    }

    /// The same file, by a path of its own.
    pub fn try_clone(&self, alloc: Global) -> Result<Elf>
        ensures same { IfOk result (λ copy. string_bytes copy.path ≡ string_bytes self.now.path) }
        ensures memory { IsOkUnless result Error.OutOfMemory }
    {
        let path = String::from_str(alloc, self.path.as_str())?;
        Ok(Elf { path })
    }
}

impl fmt::Debug for Elf {
    fn fmt<W: fmt::Write>(&self, f: &mut fmt::Formatter<W>) -> fmt::Result {
        let path = &self.path;
        write!(f, "Elf({path:?})")
    }
}

/// A process: its mappings, its id and its perf map.
#[derive(Drop)]
pub struct Process {
    /// The process.
    pub pid: Pid,
}

impl Process {
    /// The process.
    pub fn new(pid: Pid) -> Process
        ensures { result.pid ≡ pid }
    {
        Process { pid }
    }

    /// The same process. It takes no memory.
    pub fn try_clone(&self, _alloc: Global) -> Result<Process>
        ensures { result ≡ Ok self.now }
    {
        Ok(Process { pid: self.pid })
    }
}

impl fmt::Debug for Process {
    fn fmt<W: fmt::Write>(&self, f: &mut fmt::Formatter<W>) -> fmt::Result {
        let pid = &self.pid;
        write!(f, "Process({pid})")
    }
}

/// Anything that may be forgotten.
#[derive(Drop)]
pub enum Evict {
    /// An ELF file.
    Elf(Elf),
    /// A process.
    Process(Process),
}

impl Evict {
    /// The same request, with a path of its own.
    pub fn try_clone(&self, alloc: Global) -> Result<Evict>
        ensures same { IfOk result (λ copy. evict_read copy ≡ evict_read self.now) }
        ensures memory { IsOkUnless result Error.OutOfMemory }
    {
        match self {
            Evict::Elf(file) => Ok(Evict::Elf(file.try_clone(alloc)?)),
            Evict::Process(process) => Ok(Evict::Process(process.try_clone(alloc)?)),
        }
    }
}

impl fmt::Debug for Evict {
    fn fmt<W: fmt::Write>(&self, f: &mut fmt::Formatter<W>) -> fmt::Result {
        match self {
            Evict::Elf(file) => fmt::Debug::fmt(file, f),
            Evict::Process(process) => fmt::Debug::fmt(process, f),
        }
    }
}

impl From<Elf> for Evict {
    ghost from_gives = { λ file given. given ≡ evicts.Elf file };

    fn from(file: Elf) -> Evict {
        Evict::Elf(file)
    }
}

impl From<Process> for Evict {
    ghost from_gives = { λ process given. given ≡ evicts.Process process };

    fn from(process: Process) -> Evict {
        Evict::Process(process)
    }
}
