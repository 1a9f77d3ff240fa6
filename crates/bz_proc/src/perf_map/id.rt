//! The id by which a process knows itself.

ghost use Rattle.std.specs.Prelude.{◌≡◌, false, string_bytes, IfOk, IfErr, IsOkUnless, OnOk};
ghost use Rattle.bz_base.specs.declared.error.Error.{Error};
ghost use Rattle.bz_cache.specs.Format.{GivesOrFaults};
ghost use Rattle.bz_files.specs.Count.{counted};
ghost use Rattle.bz_files.specs.Looked.{Faulted, Looked, ReadsOne};
ghost use Rattle.bz_files.specs.World.{Told, entry_at, has_file, in_view};
ghost use Rattle.bz_proc.specs.PerfId.{IsOfStatus, ns_tgid_of, status_path};
ghost use Rattle.bz_proc.specs.SystemText.{IsReadRefusal};

use crate::status::parse_ns_tgid;
use bz_base::{Pid, Result};
use bz_files::Files;
use std::alloc::Global;

/// The id by which a process knows itself, where the own process has the id `own`.
pub(crate) fn ns_tgid_of<F: Files>(alloc: Global, files: &mut F, pid: Pid, own: u32) -> Result<u32>
    ensures answer { Told (in_view (F.worlds files.old)) (λ world. GivesOrFaults (λ id. id) (ns_tgid_of pid own (entry_at world (status_path pid))) result) }
    ensures opened { OnOk result (F.opens files.new ≡ counted (F.opens files.old)) }
    ensures spared { Told (in_view (F.worlds files.old)) (λ world. has_file (entry_at world (status_path pid)) ≡ false → F.opens files.new ≡ F.opens files.old) }
    ensures most { ReadsOne F.Files files.old files.new }
    ensures files { Looked F.Files files.old files.new (Faulted result) }
    ensures untold { IfOk result (IsOfStatus pid own) }
    ensures refusal { IfErr result IsReadRefusal }
{
    let path = status_path(alloc, pid)?;
    let status = files.read(alloc, path.as_str())?;
    let told = parse_ns_tgid(status.as_slice())?;
    Ok(told.unwrap_or(pid.resolve(own)))
}

/// The path of a process's status.
fn status_path(alloc: Global, pid: Pid) -> Result<String>
    ensures path { IfOk result (λ path. string_bytes path ≡ status_path pid) }
    ensures memory { IsOkUnless result Error.OutOfMemory }
{
    let path = format!(in alloc; "/proc/{pid}/status")?;
    Ok(path)
}
