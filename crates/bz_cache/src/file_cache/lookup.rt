//! Looks at files, whose refusals are those of a symbolizer.

ghost use Rattle.std.specs.Prelude.{◌≡◌, ◌⊎◌, ◌≤◌, OnOk, OnErr, IfErr, IsErrOf};
ghost use Rattle.bz_files.specs.World.{Told, in_view, entry_at};
ghost use Rattle.bz_files.specs.Count.{counted};
ghost use Rattle.bz_files.specs.Looked.{Faulted, Looked};
ghost use Rattle.bz_cache.specs.Format.{IsLookAnswer, MayMiss};

use bz_base::{Error, Result};
use bz_files::{Files, Stamp, StampedBytes};
use std::alloc::Global;

/// The stamp of the file at the path.
pub fn present<F: Files>(files: &mut F, path: &str) -> Result<Stamp>
    ensures answer { Told (in_view (F.worlds files.old)) (λ w. IsLookAnswer (λ given stamp bytes. given ≡ stamp) (entry_at w path.now) result) }
    ensures opens { F.opens files.new ≡ F.opens files.old }
    ensures files { Looked F.Files files.old files.new (Faulted result) }
    ensures no_memory { IsErrOf result Error.OutOfMemory → ⊥ }
    ensures refusal { IfErr result MayMiss }
{
    Ok(files.stat(path)?)
}

/// The bytes of the file at the path, with the stamp that the file had when it was opened.
pub fn contents<F: Files>(files: &mut F, alloc: Global, path: &str) -> Result<StampedBytes>
    ensures answer { Told (in_view (F.worlds files.old)) (λ w. IsLookAnswer (λ given stamp bytes. (given.stamp ≡ stamp) × (given.bytes.items ≡ bytes)) (entry_at w path.now) result) }
    ensures opened { OnOk result (F.opens files.new ≡ counted (F.opens files.old)) }
    ensures unopened { OnErr result (F.opens files.new ≡ F.opens files.old) }
    ensures files { Looked F.Files files.old files.new (Faulted result) }
    ensures refusal { IfErr result MayMiss }
{
    Ok(files.read_stamped(alloc, path)?)
}
