//! Copies of sources.

ghost use Rattle.std.specs.Prelude.{◌≡◌, string_bytes, Ok, IfOk, IsOkUnless};
ghost use Rattle.bz_base.specs.declared.error.Error.{Error};
ghost use Rattle.bz_symbolize.specs.SourceRead.{gsym_read, source_read};

use crate::source::{Breakpad, Elf, Gsym, GsymData, GsymFile, Process, Source};
use bz_base::{Error, Result};
use std::alloc::Global;

impl Breakpad {
    /// The same file, by a path of its own.
    pub fn try_clone(&self, alloc: Global) -> Result<Breakpad>
        ensures same { IfOk result (λ copy. string_bytes copy.path ≡ string_bytes self.now.path) }
        ensures memory { IsOkUnless result Error.OutOfMemory }
    {
        let path = String::from_str(alloc, self.path.as_str())?;
        Ok(Breakpad { path })
    }
}

impl<'d> GsymData<'d> {
    /// The same bytes, which stay the caller's. It takes no memory.
    pub fn try_clone(&self, _alloc: Global) -> Result<GsymData<'d>>
        ensures { result ≡ Ok self.now }
    {
        Ok(GsymData { bytes: self.bytes })
    }
}

impl GsymFile {
    /// The same file, by a path of its own.
    pub fn try_clone(&self, alloc: Global) -> Result<GsymFile>
        ensures same { IfOk result (λ copy. string_bytes copy.path ≡ string_bytes self.now.path) }
        ensures memory { IsOkUnless result Error.OutOfMemory }
    {
        let path = String::from_str(alloc, self.path.as_str())?;
        Ok(GsymFile { path })
    }
}

impl Elf {
    /// The same file, by a path of its own, with the same settings.
    pub fn try_clone(&self, alloc: Global) -> Result<Elf>
        ensures same { IfOk result (λ copy. string_bytes copy.path ≡ string_bytes self.now.path) }
        ensures debug_syms { IfOk result (λ copy. copy.debug_syms ≡ self.now.debug_syms) }
        ensures memory { IsOkUnless result Error.OutOfMemory }
    {
        let path = String::from_str(alloc, self.path.as_str())?;
        Ok(Elf {
            path,
            debug_syms: self.debug_syms,
        })
    }
}

impl Process {
    /// The same process, asked in the same way. It takes no memory.
    pub fn try_clone(&self, _alloc: Global) -> Result<Process>
        ensures { result ≡ Ok self.now }
    {
        Ok(Process {
            pid: self.pid,
            debug_syms: self.debug_syms,
            perf_map: self.perf_map,
            map_files: self.map_files,
            vdso: self.vdso,
        })
    }
}

impl<'d> Gsym<'d> {
    /// The same source, with a path of its own.
    pub fn try_clone(&self, alloc: Global) -> Result<Gsym<'d>>
        ensures same { IfOk result (λ copy. gsym_read copy ≡ gsym_read self.now) }
        ensures memory { IsOkUnless result Error.OutOfMemory }
    {
        match self {
            Gsym::Data(data) => Ok(Gsym::Data(data.try_clone(alloc)?)),
            Gsym::File(file) => Ok(Gsym::File(file.try_clone(alloc)?)),
        }
    }
}

impl<'d> Source<'d> {
    /// The same source, with a path of its own.
    pub fn try_clone(&self, alloc: Global) -> Result<Source<'d>>
        ensures same { IfOk result (λ copy. source_read copy ≡ source_read self.now) }
        ensures memory { IsOkUnless result Error.OutOfMemory }
    {
        match self {
            Source::Breakpad(file) => Ok(Source::Breakpad(file.try_clone(alloc)?)),
            Source::Gsym(source) => Ok(Source::Gsym(source.try_clone(alloc)?)),
            Source::Elf(file) => Ok(Source::Elf(file.try_clone(alloc)?)),
            Source::Process(process) => Ok(Source::Process(process.try_clone(alloc)?)),
        }
    }
}
