//! What is found at the path of a symbol file.

ghost use Rattle.std.specs.Prelude.{◌≡◌, IfOk, IfErr};
ghost use Rattle.bz_base.specs.Refusals.{IsFailure};
ghost use Rattle.bz_cache.specs.Look.{opens_after};
ghost use Rattle.bz_files.specs.Looked.{Faulted, Looked, ReadsOne};
ghost use Rattle.bz_files.specs.World.{Told, in_view};
ghost use Rattle.bz_store.specs.Finding.{found_of};
ghost use Rattle.bz_store.specs.Frames.{key_of};
ghost use Rattle.bz_store.specs.Visits.{found_at, is_read};

use crate::frame::FileKey;
use crate::path::symbol_path;
use bz_base::{Error, Result};
use bz_files::{FileError, Files};
use std::alloc::Global;

/// What was found at a path.
#[derive(Drop)]
pub(crate) enum FoundFile {
    /// Nothing.
    Absent,
    /// A file that may not be read.
    Denied,
    /// A file with these bytes.
    Holds(Vec<u8>),
}

/// What is found at the path of a symbol file, in a store that lies at the root. ReadFault: reading
/// failed. OutOfMemory: memory ran out.
pub(crate) fn find_file<F: Files>(
    alloc: Global,
    files: &mut F,
    root: &str,
    key: &FileKey,
) -> Result<FoundFile>
    ensures found { Told (in_view (F.worlds files.old)) (λ world. IfOk result (λ found. found_of found ≡ found_at world root.now (key_of key.now))) }
    ensures opens { IfOk result (λ found. F.opens files.new ≡ opens_after (is_read (found_of found)) (F.opens files.old)) }
    ensures most { ReadsOne F.Files files.old files.new }
    ensures files { Looked F.Files files.old files.new (Faulted result) }
    ensures failure { IfErr result IsFailure }
{
    let path = symbol_path(alloc, root, key)?;
    match files.read(alloc, path.as_str()) {
        Ok(bytes) => Ok(FoundFile::Holds(bytes)),
        Err(FileError::NotFound) => Ok(FoundFile::Absent),
        Err(FileError::Denied) => Ok(FoundFile::Denied),
        Err(FileError::Fault) => Err(Error::ReadFault),
        Err(FileError::OutOfMemory) => Err(Error::OutOfMemory),
    }
}
