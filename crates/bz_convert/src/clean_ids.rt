//! Which ids of a file are known to name texts without a zero byte.

ghost use Rattle.std.specs.Prelude.{◌≡◌, ℕ, true, is_none, Some, slice_get, IfOk};
ghost use Rattle.bz_breakpad_lines.specs.Names.{name_for};
ghost use Rattle.bz_breakpad_lines.specs.Reader.{table_in};
ghost use Rattle.bz_breakpad_lines.specs.Table.{Table};
ghost use Rattle.bz_convert.specs.Fault.{has_zero};
ghost use Rattle.bz_convert.specs.Ids.{AreClean, IsCleanFile, IsCleanOrigin, file_has_zero};
ghost use Rattle.bz_convert.specs.Plan.{located, origin_named};

use crate::ids::{file_has_zero, has_zero, located};
use bz_breakpad::SymbolFile;
use std::alloc::{AllocError, Global};
use std::marker::Model;

/// A file, of whose ids some are known to name texts without a zero byte. Contracts see the file.
#[derive(Drop)]
pub(crate) struct CleanIds<'a> {
    file: &'a SymbolFile,
    /// Whether this is known of each id of FILE records from 0 on.
    files: Vec<bool>,
    /// Whether it is known of each id of INLINE_ORIGIN records from 0 on.
    origins: Vec<bool>,
}

impl<'a> Model for CleanIds<'a> {
    ghost use Rattle.std.specs.Prelude.{ℕ, List};
    ghost use Rattle.bz_convert.specs.Ids.{AreClean};

    ghost Value = { List ℕ };

    ghost view = { λ ids. ids.file.now };

    ghost invariant = { λ ids. AreClean ids.file.now ids.files.items ids.origins.items };
}

impl<'a> CleanIds<'a> {
    /// The ids of a file, after a look at those from 0 on, as many as the file has.
    pub(crate) fn new(alloc: Global, file: &'a SymbolFile) -> Result<CleanIds<'a>, AllocError>
        ensures { IfOk result (λ ids. ids ≡ file.now) }
    {
        let files = clean_files(alloc, file)?;
        let origins = clean_origins(alloc, file)?;
        Ok(CleanIds {
            file,
            files,
            origins,
        })
    }

    /// Whether no source file of an id is known.
    pub(crate) fn lacks_file(&self, id: u32) -> bool
        ensures { (table : Table) → table_in self.now ≡ Some table → result ≡ is_none (located table id) }
    {
        !is_set(&self.files, id) && located(self.file, id).is_none()
    }

    /// Whether no origin of an id is known.
    pub(crate) fn lacks_origin(&self, id: u32) -> bool
        ensures { (table : Table) → table_in self.now ≡ Some table → result ≡ is_none (name_for id table.origins) }
    {
        !is_set(&self.origins, id) && self.file.origin(id).is_none()
    }

    /// Whether the directory or name of an id's file holds a zero byte.
    pub(crate) fn file_has_zero(&self, id: u32) -> bool
        ensures { (table : Table) → table_in self.now ≡ Some table → result ≡ file_has_zero table id }
    {
        !is_set(&self.files, id) && file_has_zero(self.file, id)
    }

    /// Whether the name of an origin holds a zero byte.
    pub(crate) fn origin_has_zero(&self, id: u32) -> bool
        ensures { (table : Table) → table_in self.now ≡ Some table → result ≡ has_zero (origin_named table id) }
    {
        !is_set(&self.origins, id) && self.file.origin(id).is_some_and(has_zero)
    }
}

/// Whether the flag of an id is set, where the flags are those of the ids from 0 on.
fn is_set(flags: &[bool], id: u32) -> bool
    ensures { result ≡ true → slice_get flags.now id ≡ Some true }
{
    flags.get(id as usize).copied().unwrap_or(false)
}

/// Which ids of FILE records, from 0 on, name a source file without a zero byte.
fn clean_files(alloc: Global, file: &SymbolFile) -> Result<Vec<bool>, AllocError>
    ensures { IfOk result (λ flags. (table : Table) → table_in file.now ≡ Some table → (id : ℕ) → slice_get flags.items id ≡ Some true → IsCleanFile table id) }
{
    let count = file.file_count().min(u32::MAX as usize) as u32;
    let mut flags = Vec::with_capacity(alloc, count as usize)?;
    for id in 0..count {
        flags.push(is_clean_file(file, id))?;
    }
    Ok(flags)
}

/// Which ids of INLINE_ORIGIN records, from 0 on, name a text without a zero byte.
fn clean_origins(alloc: Global, file: &SymbolFile) -> Result<Vec<bool>, AllocError>
    ensures { IfOk result (λ flags. (table : Table) → table_in file.now ≡ Some table → (id : ℕ) → slice_get flags.items id ≡ Some true → IsCleanOrigin table id) }
{
    let count = file.origin_count().min(u32::MAX as usize) as u32;
    let mut flags = Vec::with_capacity(alloc, count as usize)?;
    for id in 0..count {
        flags.push(is_clean_origin(file, id))?;
    }
    Ok(flags)
}

/// Whether an id names a source file without a zero byte.
fn is_clean_file(file: &SymbolFile, id: u32) -> bool
    ensures { result ≡ true → (table : Table) → table_in file.now ≡ Some table → IsCleanFile table id }
{
    located(file, id).is_some() && !file_has_zero(file, id)
}

/// Whether an id names a text without a zero byte.
fn is_clean_origin(file: &SymbolFile, id: u32) -> bool
    ensures { result ≡ true → (table : Table) → table_in file.now ≡ Some table → IsCleanOrigin table id }
{
    file.origin(id).is_some_and(|name| !has_zero(name))
}
