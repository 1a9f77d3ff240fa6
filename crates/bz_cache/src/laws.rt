//! Laws of the cache's definitions, for the crates above.

ghost use Rattle.std.specs.Prelude.{◌≡◌, ℕ, Bool, List, Option, Result, Ok, Contains};
ghost use Rattle.bz_base.specs.declared.error.Error.{Error};
ghost use Rattle.bz_files.specs.World.{World, entry_at};
ghost use Rattle.bz_cache.specs.Cache.{Cache, Consistent, new_cache, with_pin};
ghost use Rattle.bz_files.specs.Agreement.{Agree};
ghost use Rattle.bz_cache.specs.Coherence.{Coherent, CoherentWithAll, HasBytes};
ghost use Rattle.bz_cache.specs.Eviction.{evicted};
ghost use Rattle.bz_cache.specs.Insertion.{insertion};
ghost use Rattle.bz_cache.specs.Look.{look};
ghost use Rattle.bz_cache.specs.View.{Shown, view, bytes_of_view};

/// Where the kept versions cohere with the world in view, a look answers by the version in view.
pub fn look_answers_by_view()
    ensures answer { (test : List ℕ → Option Error) (cache : Cache) (world : World) (path : List ℕ) → Consistent test cache → Coherent cache.kept world → (look test cache path (entry_at world path)).0 ≡ bytes_of_view test (view cache world path) }
    ensures shown { (test : List ℕ → Option Error) (cache : Cache) (world : World) (path version : List ℕ) → Coherent cache.kept world → (look test cache path (entry_at world path)).0 ≡ Ok version → view cache world path ≡ Shown version }
{}

/// Over worlds that agree, kept versions cohere with all of them from a new cache on. Looks at any of
/// the worlds, evictions and pins keep that. So do versions that are taken in with the bytes of their
/// files.
pub fn stays_coherent()
    ensures new { (reload : Bool) (worlds : List World) → CoherentWithAll (new_cache reload).kept worlds }
    ensures look { (test : List ℕ → Option Error) (cache : Cache) (worlds : List World) (world : World) (path : List ℕ) → Agree worlds → Contains worlds world → CoherentWithAll cache.kept worlds → CoherentWithAll (look test cache path (entry_at world path)).1.kept worlds }
    ensures inserted { (cache : Cache) (worlds : List World) (world : World) (path version : List ℕ) → Agree worlds → Contains worlds world → HasBytes (entry_at world path) version → CoherentWithAll cache.kept worlds → CoherentWithAll (insertion cache path version (entry_at world path)).1.kept worlds }
    ensures evicted { (cache : Cache) (worlds : List World) (path : List ℕ) → CoherentWithAll cache.kept worlds → CoherentWithAll (evicted cache path).kept worlds }
    ensures pinned { (pinned : Bool) (cache : Cache) (worlds : List World) (path : List ℕ) → CoherentWithAll cache.kept worlds → CoherentWithAll (with_pin pinned cache path).kept worlds }
{}
