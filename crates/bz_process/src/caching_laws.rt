//! What holds of caching and forgetting processes.

ghost use Rattle.std.specs.Prelude.{ℕ, List, Some, Contains};
ghost use Rattle.bz_base.specs.declared.pid.Pid.{Pid};
ghost use Rattle.bz_cache.specs.Coherence.{CoherentWithAll};
ghost use Rattle.bz_files.specs.Agreement.{Agree};
ghost use Rattle.bz_files.specs.World.{World};
ghost use Rattle.bz_process.specs.Caches.{ProcessCaches};
ghost use Rattle.bz_process.specs.CachingCall.{CachingReaches};
ghost use Rattle.bz_process.specs.Forgetting.{without_process};
ghost use Rattle.bz_process.specs.Processes.{KeptProcesses};
ghost use Rattle.bz_process.specs.Reached.{CohereWithAll};

/// Where kept versions cohere with all of some worlds that agree, they still do after a process was
/// cached in one of them, or forgotten.
pub fn caching_stays_coherent<D, R>()
    ensures cached { (own : ℕ) (worlds : List World) (world : World) (old now : ProcessCaches) →
        Agree worlds → Contains worlds world → CachingReaches own (Some world) old now →
        CohereWithAll old worlds → CohereWithAll now worlds }
    ensures forgotten { (worlds : List World) (pid : Pid) (kept : KeptProcesses D R) →
        CoherentWithAll kept.perf_maps.kept worlds → CoherentWithAll (without_process pid kept).perf_maps.kept worlds }
{}
