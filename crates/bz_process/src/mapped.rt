//! The mappings that processes are answered by.

ghost use Rattle.std.specs.Prelude.{◌≡◌, false, ℕ, List, IfErr, IfOk, IsOkUnless};
ghost use Rattle.bz_base.specs.declared.error.Error.{Error};
ghost use Rattle.bz_cache.specs.Format.{GivesOrFaults};
ghost use Rattle.bz_cache.specs.InsertMap.{value_at};
ghost use Rattle.bz_files.specs.Looked.{Faulted, Looked, ReadsOne};
ghost use Rattle.bz_files.specs.World.{Told, entry_at, has_file, in_view};
ghost use Rattle.bz_proc.specs.Maps.{Mapping};
ghost use Rattle.bz_process.specs.Caches.{ProcessCaches};
ghost use Rattle.bz_process.specs.Mapped.{AreFrom, AreUsed, LacksMappings, if_some, mappings_of, of_text, some_mappings};
ghost use Rattle.bz_proc.specs.MapsFile.{AreOfText, maps_path, maps_told};
ghost use Rattle.bz_proc.specs.SystemText.{IsReadRefusal};
ghost use Rattle.bz_process.specs.Process.{pid_cmp};
ghost use Rattle.bz_process.specs.ProcessCall.{TakesStep};

use bz_base::{Error, Pid, Result};
use bz_cache::InsertMap;
use bz_files::Files;
use bz_proc::{Mappings, read_maps};
use std::alloc::Global;
use std::marker::Model;
use std::rc::Rc;

/// The mappings of a process, which may be shared.
#[derive(Drop)]
pub(crate) struct Mapped {
    mappings: Rc<Mappings>,
}

impl Model for Mapped {
    ghost use Rattle.std.specs.Prelude.{List};
    ghost use Rattle.bz_proc.specs.Maps.{Mapping};

    ghost Value = { List Mapping };

    ghost view = { λ mapped. mapped.mappings.value };
}

impl Mapped {
    /// A further handle to the same mappings.
    pub(crate) fn share(&self) -> Result<Mapped>
        ensures mapped { IfOk result (λ mapped. mapped ≡ self.now) }
        ensures memory { IsOkUnless result Error.OutOfMemory }
    {
        let mappings = self.mappings.clone()?;
        Ok(Mapped { mappings })
    }

    // These mappings, if there are any.
    fn if_some(self) -> Result<Mapped>
        ensures { result ≡ if_some self }
    {
        if self.mappings.as_ref().is_empty() {
            Err(Error::UnexpectedEof)
        } else {
            Ok(self)
        }
    }

    /// The mappings, in the order of their text, with a search among them.
    pub(crate) fn mappings(&self) -> &Mappings
        ensures { result.now ≡ self.now }
    {
        self.mappings.as_ref()
    }
}

/// The mappings of the process, of which there are some: the kept ones, else those of the text that
/// lies there. UnexpectedEof: there are none.
pub(crate) fn some_mappings<F: Files>(
    mappings: &mut InsertMap<Pid, Mapped>,
    alloc: Global,
    files: &mut F,
    pid: Pid,
) -> Result<Mapped>
    ensures step { (own : ℕ) (kept : ProcessCaches) → TakesStep F.Files own (λ (mapped : List Mapping). mapped) (some_mappings pid (value_at pid_cmp mappings.old pid)) result kept kept files.old files.new }
    ensures untold { IfOk result (AreUsed pid (value_at pid_cmp mappings.old pid)) }
    ensures refusal { IfErr result (LacksMappings (value_at pid_cmp mappings.old pid)) }
    ensures mappings { mappings.new ≡ mappings.old }
{
    let mapped = known_or_read(mappings, alloc, files, pid)?;
    mapped.if_some()
}

// The kept mappings, else those of the text that lies there.
fn known_or_read<F: Files>(
    mappings: &mut InsertMap<Pid, Mapped>,
    alloc: Global,
    files: &mut F,
    pid: Pid,
) -> Result<Mapped>
    ensures step { (own : ℕ) (kept : ProcessCaches) → TakesStep F.Files own (λ (mapped : List Mapping). mapped) (mappings_of pid (value_at pid_cmp mappings.old pid)) result kept kept files.old files.new }
    ensures untold { IfOk result (AreFrom pid (value_at pid_cmp mappings.old pid)) }
    ensures refusal { IfErr result (LacksMappings (value_at pid_cmp mappings.old pid)) }
    ensures mappings { mappings.new ≡ mappings.old }
{
    match mappings.get(&pid) {
        Some(mapped) => mapped.share(),
        None => read_mapped(alloc, files, pid),
    }
}

/// The mappings of the text that lies there.
pub(crate) fn read_mapped<F: Files>(alloc: Global, files: &mut F, pid: Pid) -> Result<Mapped>
    ensures step { (own : ℕ) (kept : ProcessCaches) → TakesStep F.Files own (λ (mapped : List Mapping). mapped) (of_text (maps_told pid) (maps_path pid)) result kept kept files.old files.new }
    ensures untold { IfOk result (AreOfText pid) }
    ensures refusal { IfErr result IsReadRefusal }
{
    let mappings = read_mappings(alloc, files, pid)?;
    let mappings = Rc::new(alloc, mappings)?;
    Ok(Mapped { mappings })
}

// The mappings that the text tells.
fn read_mappings<F: Files>(alloc: Global, files: &mut F, pid: Pid) -> Result<Mappings>
    ensures answer { Told (in_view (F.worlds files.old)) (λ world. GivesOrFaults (λ mappings. mappings) (maps_told pid (entry_at world (maps_path pid))) result) }
    ensures spared { Told (in_view (F.worlds files.old)) (λ world. has_file (entry_at world (maps_path pid)) ≡ false → F.opens files.new ≡ F.opens files.old) }
    ensures most { ReadsOne F.Files files.old files.new }
    ensures files { Looked F.Files files.old files.new (Faulted result) }
    ensures untold { IfOk result (AreOfText pid) }
    ensures refusal { IfErr result IsReadRefusal }
{
    let entries = read_maps(alloc, files, pid)?;
    Mappings::new(alloc, entries)
}
