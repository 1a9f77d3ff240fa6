//! What is kept of processes ahead of their addresses, and what is forgotten.

ghost use Rattle.std.specs.Prelude.{◌≡◌};
ghost use Rattle.bz_process.specs.Caching.{caching_of};
ghost use Rattle.bz_process.specs.CachingCall.{CachesProcess};
ghost use Rattle.bz_process.specs.Forgetting.{without_path, without_process};

use super::Processes;
use crate::caching::{ProcessCaching, cache_process};
use crate::dispatch::ProcessDispatch;
use bz_base::{Pid, Result};
use bz_files::Files;
use std::alloc::Global;

impl<D: ProcessDispatch + Drop> Processes<D> {
    /// Keeps what answers for a process ahead of its addresses. Where its mappings are asked for, those
    /// that lie there are kept. Where its perf map is asked for, its id is remembered. The perf map is
    /// then looked at as if it weren't pinned, and pinned. One that is absent is pinned at the version
    /// that is held, if one is. NotFound: the mappings or the status are absent. PermissionDenied,
    /// InvalidData: the mappings, the status or the perf map may not be read, or isn't in its format.
    /// ReadFault: a file failed. OutOfMemory: memory ran out. Mappings come first, then the status,
    /// then the perf map, and the first that can't be had refuses. After a refusal all that is kept is
    /// as before.
    pub fn cache<F: Files>(
        &mut self,
        alloc: Global,
        files: &mut F,
        request: &ProcessCaching,
    ) -> Result<()>
        ensures { CachesProcess F.Files (caching_of (F.pid files.old) request.now) result self.old self.new files.old files.new }
    {
        cache_process(
            &mut self.answering.perf_maps,
            &mut self.mappings,
            alloc,
            files,
            request,
        )
    }

    /// Forgets a process: its kept mappings, its id, and the perf map at the path kept beside the id.
    /// It takes no memory.
    pub fn evict_process(&mut self, pid: Pid)
        ensures { self.new ≡ without_process pid self.old }
    {
        let _mapped = self.mappings.remove(&pid);
        self.answering.perf_maps.forget(&pid);
    }

    /// Forgets the dispatcher's answers for files with the path, their own or the one that stands for
    /// their mapping. It takes no memory.
    pub fn forget_path(&mut self, path: &str)
        ensures { self.new ≡ without_path path.now self.old }
    {
        self.answering.dispatching.forget(path);
    }
}
