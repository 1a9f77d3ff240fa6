//! The mappings of a process, read from its files.

ghost use Rattle.std.specs.Prelude.{◌≡◌, false, map, string_bytes, IfOk, IfErr, IsOkUnless, OnOk};
ghost use Rattle.bz_base.specs.declared.error.Error.{Error};
ghost use Rattle.bz_cache.specs.Format.{GivesOrFaults};
ghost use Rattle.bz_files.specs.Count.{counted};
ghost use Rattle.bz_files.specs.Looked.{Faulted, Looked, ReadsOne};
ghost use Rattle.bz_files.specs.World.{Told, entry_at, has_file, in_view};
ghost use Rattle.bz_proc.specs.Maps.{mapping_of};
ghost use Rattle.bz_proc.specs.MapsFile.{AreOfText, maps_path, maps_told};
ghost use Rattle.bz_proc.specs.SystemText.{IsReadRefusal};

use crate::maps::{MapsEntry, parse_maps};
use bz_base::{Error, Pid, Result};
use bz_files::Files;
use std::alloc::Global;

/// The mappings of a process, by the text at `/proc/PID/maps`. NotFound: it is absent.
/// PermissionDenied: it may not be read. InvalidData: it isn't a text of mappings. ReadFault: reading
/// failed.
pub fn read_maps<F: Files>(alloc: Global, files: &mut F, pid: Pid) -> Result<Vec<MapsEntry>>
    ensures answer { Told (in_view (F.worlds files.old)) (λ world. GivesOrFaults (λ entries. map mapping_of entries.items) (maps_told pid (entry_at world (maps_path pid))) result) }
    ensures opened { OnOk result (F.opens files.new ≡ counted (F.opens files.old)) }
    ensures spared { Told (in_view (F.worlds files.old)) (λ world. has_file (entry_at world (maps_path pid)) ≡ false → F.opens files.new ≡ F.opens files.old) }
    ensures most { ReadsOne F.Files files.old files.new }
    ensures files { Looked F.Files files.old files.new (Faulted result) }
    ensures untold { IfOk result (λ entries. AreOfText pid (map mapping_of entries.items)) }
    ensures refusal { IfErr result IsReadRefusal }
{
    let path = maps_path(alloc, pid)?;
    let text = files.read(alloc, path.as_str())?;
    parse_maps(alloc, pid, text.as_slice())
}

/// The path of the mappings.
fn maps_path(alloc: Global, pid: Pid) -> Result<String>
    ensures path { IfOk result (λ path. string_bytes path ≡ maps_path pid) }
    ensures memory { IsOkUnless result Error.OutOfMemory }
{
    let path = format!(in alloc; "/proc/{pid}/maps")?;
    Ok(path)
}
