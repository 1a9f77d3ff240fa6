//! Files that processes have mapped.

ghost use Rattle.std.specs.Prelude.{◌≡◌, ℕ, Some, cond, option_and_then, string_bytes, IfOk, IsOkUnless};
ghost use Rattle.bz_base.specs.Answer.{reading};
ghost use Rattle.bz_base.specs.Lent.{IsLent};
ghost use Rattle.bz_base.specs.declared.error.Error.{Error};
ghost use Rattle.bz_cache.specs.FileCall.{CallsFile};
ghost use Rattle.bz_elf.specs.Segments.{segments, translated};
ghost use Rattle.bz_proc.specs.Maps.{mapping_of, name_of};
ghost use Rattle.bz_process.specs.Asked.{asked_of};
ghost use Rattle.bz_process.specs.Caches.{caches};
ghost use Rattle.bz_process.specs.Process.{asks_elf, by_name, elf_at, elf_by_table, offset_in};
ghost use Rattle.bz_process.specs.ProcessCall.{TakesStep};
ghost use Rattle.bz_process.specs.Untold.{SomeByName, as_read};
ghost use Rattle.bz_process.specs.declared.perf_maps.PerfMaps.{PerfMaps};

use crate::query::ProcessQuery;
use bz_base::{Addr, Error, Reason, Result, Symbolized};
use bz_cache::FileCache;
use bz_elf::ElfFile;
use bz_files::Files;
use bz_proc::{EntryPath, MapsEntry, PathName};
use std::alloc::Global;

/// The answer to an address of a mapping with this name, where no resolver is in charge.
pub(crate) fn answer_by_name<F: Files>(
    elf: &mut FileCache<ElfFile>,
    alloc: Global,
    files: &mut F,
    query: &ProcessQuery,
    entry: &MapsEntry,
    name: &PathName,
    addr: Addr,
) -> Result<Symbolized<'static>>
    ensures step { (own : ℕ) (kept : PerfMaps) → TakesStep F.Files own reading (by_name (asked_of own query.now) (mapping_of entry.now) addr (name_of name.now)) result (caches elf.old kept) (caches elf.new kept) files.old files.new }
    ensures untold { (own : ℕ) (kept : PerfMaps) → SomeByName (asked_of own query.now) (as_read reading result) (caches elf.old kept) (caches elf.new kept) (mapping_of entry.now) addr (name_of name.now) }
{
    match name {
        PathName::Component(_) => Ok(Symbolized::Unknown(Reason::Unsupported)),
        PathName::Path(path) => {
            let file = file_of(query, path);
            let offset = offset_in(entry, addr);
            elf_answer(elf, alloc, files, file, path.symbolic_path.as_str(), offset)
        }
    }
}

// The path at which a mapped file is looked at.
fn file_of<'p>(query: &ProcessQuery, path: &'p EntryPath) -> &'p str
    ensures { result.now ≡ cond query.now.map_files (string_bytes path.now.maps_file) (string_bytes path.now.symbolic_path) }
{
    if query.map_files {
        path.maps_file.as_str()
    } else {
        path.symbolic_path.as_str()
    }
}

/// The offset of an address in the file that is mapped there; none where it is past 64 bits.
pub(crate) fn offset_in(entry: &MapsEntry, addr: Addr) -> Option<u64>
    ensures { result ≡ offset_in (mapping_of entry.now) addr }
{
    addr.saturating_sub(entry.range.start)
        .checked_add(entry.offset)
}

// The answer of the ELF file at the path to an offset in it.
fn elf_answer<F: Files>(
    cache: &mut FileCache<ElfFile>,
    alloc: Global,
    files: &mut F,
    path: &str,
    module_path: &str,
    offset: Option<u64>,
) -> Result<Symbolized<'static>>
    ensures { CallsFile F.Files reading (asks_elf module_path.now offset) path.now result cache.old cache.new files.old files.new }
{
    let file = cache.entry(alloc, files, path)?;
    at_offset(alloc, file, module_path, offset)
}

// What an ELF file says of an offset in it, if there is one.
fn at_offset(
    alloc: Global,
    file: &ElfFile,
    module_path: &str,
    offset: Option<u64>,
) -> Result<Symbolized<'static>>
    ensures answer { IfOk result (λ answer. reading answer ≡ elf_at module_path.now offset file.now) }
    ensures memory { IsOkUnless result Error.OutOfMemory }
{
    match loaded_at(file, offset) {
        Some(addr) => elf_answer_at(alloc, file, module_path, addr).into_owned(alloc),
        None => Ok(Symbolized::Unknown(Reason::InvalidFileOffset)),
    }
}

// The address at which the file's byte at an offset is loaded, if there is one.
fn loaded_at(file: &ElfFile, offset: Option<u64>) -> Option<Addr>
    ensures { result ≡ option_and_then (translated (segments file.now)) offset }
{
    match offset {
        Some(offset) => file.addr_of(offset),
        None => None,
    }
}

/// What an ELF file says of an address as its symbol table has it. A symbol's module is the path. The
/// answer's texts are lent.
pub fn elf_answer_at<'a>(
    alloc: Global,
    file: &'a ElfFile,
    module_path: &'a str,
    addr: Addr,
) -> Symbolized<'a>
    ensures answer { reading result ≡ elf_by_table module_path.now file.now (Some addr) }
    ensures lent { IsLent result }
{
    match file.symbol(alloc, Some(module_path), addr) {
        Ok(symbol) => Symbolized::Sym(symbol.into_sym(addr)),
        Err(reason) => Symbolized::Unknown(reason),
    }
}
