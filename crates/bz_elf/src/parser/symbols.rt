//! The symbols of an ELF file.

ghost use Rattle.std.specs.Prelude.{◌≡◌, ◌+◌, ◌*◌, ◌<◌, ◌≤◌, length, true, Some, None, IfOk, IfErr, IsOkUnless, if◌then◌else◌};
ghost use Rattle.bz_base.specs.declared.error.Error.{Error};
ghost use Rattle.bz_cache.specs.Format.{IsRefusalBy};
ghost use Rattle.bz_elf.specs.Checks.{has_names};
ghost use Rattle.bz_elf.specs.Kept.{IsPart, IsSymbolTable};
ghost use Rattle.bz_elf.specs.Parts.{bytes_at};
ghost use Rattle.bz_elf.specs.Symbols.{counted_at, entries, st_type, symbol_len};

use super::layout::{
    SHN_UNDEF, ST_INFO, ST_SHNDX, ST_SIZE, ST_VALUE, STT_FUNC, STT_GNU_IFUNC, SYMBOL_LEN,
};
use super::names::are_named;
use crate::types::{Part, SymbolEntry, SymbolTable};
use bz_base::{Error, Result, u8_at, u16_at, u32_at, u64_at};
use std::alloc::Global;

/// The symbols that count, in the order of the file. InvalidData: one of them has no name.
pub(crate) fn counted(alloc: Global, bytes: &[u8], table: &SymbolTable) -> Result<Vec<SymbolEntry>>
    requires { IsSymbolTable bytes.now table.now }
    ensures ok { IfOk result (λ found. found.items ≡ entries bytes.now) }
    ensures named { IfOk result (λ found. has_names bytes.now ≡ true) }
    ensures refusal { IfErr result (IsRefusalBy (if has_names bytes.now then None else Some Error.InvalidData)) }
{
    let found = all_counted(alloc, bytes, table)?;
    if !are_named(alloc, part_of(bytes, &table.strings), found.as_slice())? {
        return Err(Error::InvalidData);
    }
    Ok(found)
}

/// The symbols that count, in the order of the file, with or without names.
fn all_counted(alloc: Global, bytes: &[u8], table: &SymbolTable) -> Result<Vec<SymbolEntry>>
    requires { IsSymbolTable bytes.now table.now }
    ensures ok { IfOk result (λ found. found.items ≡ entries bytes.now) }
    ensures memory { IsOkUnless result Error.OutOfMemory }
{
    let mut found = Vec::new(alloc);
    for index in 0..table.count {
        let Some(symbol) = counted_at(bytes, table.offset + index * SYMBOL_LEN) else {
            continue;
        };
        found.push(symbol)?;
    }
    Ok(found)
}

/// A part of the bytes.
pub(crate) fn part_of<'a>(bytes: &'a [u8], part: &Part) -> &'a [u8]
    requires { IsPart bytes.now part.now }
    ensures { result.now ≡ bytes_at bytes.now part.now.offset part.now.size }
{
    &bytes[part.offset..part.offset + part.size]
}

/// The symbol at a place, if it counts: a function that lies in a section.
fn counted_at(bytes: &[u8], place: usize) -> Option<SymbolEntry>
    requires { place + symbol_len ≤ length bytes.now }
    ensures { result ≡ counted_at bytes.now place }
{
    let kind = st_type(u8_at(bytes, place + ST_INFO));
    if (kind != STT_FUNC && kind != STT_GNU_IFUNC) || u16_at(bytes, place + ST_SHNDX) == SHN_UNDEF {
        return None;
    }
    Some(SymbolEntry {
        start: u64_at(bytes, place + ST_VALUE),
        size: u64_at(bytes, place + ST_SIZE),
        name: u32_at(bytes, place),
    })
}

/// The type of a symbol, which `st_info` has in its lower four bits: `ELF64_ST_TYPE`.
fn st_type(info: u8) -> u8
    ensures { result ≡ st_type info }
{
    info % 16
}
