//! Forgetting processes, and what a dispatcher said of files.

ghost use Rattle.std.specs.Prelude.{◌≡◌};
ghost use Rattle.bz_cache.specs.InsertMap.{value_at, without};
ghost use Rattle.bz_proc.specs.Maps.{name_of};
ghost use Rattle.bz_process.specs.Forgetting.{answers_without, has_path, without_perf_map};
ghost use Rattle.bz_process.specs.Process.{pid_cmp};

use crate::dispatch::ProcessDispatch;
use crate::dispatching::Dispatching;
use crate::perf_maps::PerfMaps;
use bz_base::Pid;
use bz_proc::PathName;

impl PerfMaps {
    /// Forgets what is remembered of a process, and its perf map.
    pub(crate) fn forget(&mut self, pid: &Pid)
        ensures files { self.new.files ≡ without_perf_map self.old.files (value_at pid_cmp self.old.ids pid.now) }
        ensures ids { self.new.ids ≡ without pid_cmp self.old.ids pid.now }
    {
        match self.ids.remove(pid) {
            Some(known) => {
                let _dropped = self.files.evict(known.perf_map());
            }
            None => {}
        }
    }
}

impl<D: ProcessDispatch + Drop> Dispatching<D> {
    /// Forgets the answers that are for a file with the path.
    pub(crate) fn forget(&mut self, path: &str)
        ensures answers { self.new.answers ≡ answers_without path.now self.old.answers }
        ensures dispatch { self.new.dispatch ≡ self.old.dispatch }
    {
        self.answers.retain(|name, _answer| !has_path(name, path));
    }
}

// Whether it is a mapped file with the path: its own, or the one that stands for the mapping.
fn has_path(name: &PathName, path: &str) -> bool
    ensures { result ≡ has_path path.now (name_of name.now) }
{
    match name {
        PathName::Path(file) => file.maps_file.as_str() == path
            || file.symbolic_path.as_str() == path,
        PathName::Component(_) => false,
    }
}
