//! What is kept ahead of addresses, and what is forgotten.

ghost use Rattle.bz_symbolize.specs.Caching.{Caches};
ghost use Rattle.bz_symbolize.specs.Evicting.{Evicts};
ghost use Rattle.bz_symbolize.specs.Requests.{cache_read, evict_read};

use super::Symbolizer;
use crate::cache::Cache;
use crate::evict::Evict;
use bz_base::Result;
use bz_files::Files;
use bz_process::ProcessDispatch;
use std::alloc::Global;

impl<D: ProcessDispatch + Drop> Symbolizer<D> {
    /// Keeps what answers ahead of addresses, so that it answers also once its files have changed or
    /// are gone. It is an ELF file, or of a process its mappings, id and perf map. The files that a
    /// process has mapped aren't kept by that.
    ///
    /// An ELF file is looked at as if its path weren't pinned, and the path is pinned at the version
    /// that this look gives. Where files aren't looked at anew, a held path is pinned as it is. The call
    /// is refused as the look is: by `NotFound`, `PermissionDenied`, `Unsupported` or `InvalidData`.
    ///
    /// Of a process, where they are asked for, the mappings are read and kept. Then its id is
    /// remembered, for which its status is read unless it is remembered already. Then its perf map
    /// is looked at as if it weren't pinned, and pinned. An absent perf map is no refusal: a
    /// version that is held is pinned then. Absent mappings or an absent status refuse it by
    /// `NotFound`. Any of the three files refuses it by `PermissionDenied` where it may not be
    /// read, and by `InvalidData` where it isn't in its format. The first that can't be had
    /// refuses.
    ///
    /// Either may be refused by `ReadFault` and `OutOfMemory` too. After a refusal, whichever it is,
    /// the symbolizer is as before.
    pub fn cache<F: Files>(&mut self, alloc: Global, files: &mut F, cache: &Cache) -> Result<()>
        ensures { Caches F.Files (cache_read cache.now) result self.old self.new files.old files.new }
    {
        match cache {
            Cache::Elf(file) => self.files.pin_elf(alloc, files, file.path.as_str()),
            Cache::Process(process) => {
                let request = process.caching();
                self.processes.cache(alloc, files, &request)
            }
        }
    }

    /// Forgets an ELF file: its path, pinned or not, with the versions that no other path names. What a
    /// dispatcher said of mapped files with this path, their own or the one that stands for the
    /// mapping, is forgotten too. Or forgets a process: its mappings, its id and its perf map. What a
    /// dispatcher said stays then, as what it said of parts of the system always does. The call is always
    /// answered, and takes no memory.
    pub fn evict(&mut self, evict: &Evict) -> Result<()>
        ensures { Evicts (evict_read evict.now) result self.old self.new }
    {
        match evict {
            Evict::Elf(file) => {
                let path = file.path.as_str();
                self.files.forget_elf(path);
                self.processes.forget_path(path);
                Ok(())
            }
            Evict::Process(process) => {
                self.processes.evict_process(process.pid);
                Ok(())
            }
        }
    }
}
