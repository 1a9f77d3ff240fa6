//! The section headers of an ELF file, and where its symbols and their names lie.

ghost use Rattle.std.specs.Prelude.{◌≡◌, ◌+◌, ◌*◌, ◌<◌, ◌&&◌, ◌≤◌, length, slice_get, true, false, IfNone, IfSome};
ghost use Rattle.bz_elf.specs.Checks.{has_strings, has_symbols, is_symbol_table, section_lies};
ghost use Rattle.bz_elf.specs.Head.{section_count, section_place};
ghost use Rattle.bz_elf.specs.Kept.{IsSymbolTable, TablesLie};
ghost use Rattle.bz_elf.specs.Sections.{first_of_kind, section_at, section_header_len, sections, symbol_table};

use super::head::{section_count, section_place};
use super::layout::{
    SECTION_HEADER_LEN, SH_ENTSIZE, SH_LINK, SH_OFFSET, SH_SIZE, SH_TYPE, SHT_DYNSYM, SHT_SYMTAB,
    SYMBOL_LEN,
};
use super::parts::lies;
use crate::types::{Part, Section, SymbolTable};
use bz_base::{u32_at, u64_at};

/// Where the symbols and their names lie. A file without a symbol table has no symbols. None: the
/// table isn't one, or its strings aren't there.
pub(crate) fn symbols_in(bytes: &[u8]) -> Option<SymbolTable>
    requires { TablesLie bytes.now }
    ensures table { IfSome result (IsSymbolTable bytes.now) }
    ensures passed { IfSome result (λ _. (has_symbols bytes.now ≡ true) × (has_strings bytes.now ≡ true)) }
    ensures none { IfNone result ((has_symbols bytes.now && has_strings bytes.now) ≡ false) }
{
    let Some(table) = symbol_table(bytes) else {
        return Some(NO_SYMBOLS);
    };
    if !is_symbol_table(bytes, &table) {
        return None;
    }
    let strings = section(bytes, table.link)?;
    if !section_lies(bytes, &strings) {
        return None;
    }
    Some(SymbolTable {
        offset: table.offset as usize,
        count: table.size as usize / SYMBOL_LEN,
        strings: Part {
            offset: strings.offset as usize,
            size: strings.size as usize,
        },
    })
}

/// What a file without a symbol table has.
const NO_SYMBOLS: SymbolTable = SymbolTable {
    offset: 0,
    count: 0,
    strings: Part { offset: 0, size: 0 },
};

/// The section that is the symbol table.
#[tactic(auto, unfolding(crate::specs::Sections::symbol_table))]
fn symbol_table(bytes: &[u8]) -> Option<Section>
    requires { TablesLie bytes.now }
    ensures { result ≡ symbol_table bytes.now }
{
    match first_of_kind(bytes, SHT_SYMTAB) {
        Some(table) => Some(table),
        None => first_of_kind(bytes, SHT_DYNSYM),
    }
}

/// The first section of a type.
fn first_of_kind(bytes: &[u8], kind: u32) -> Option<Section>
    requires { TablesLie bytes.now }
    ensures { result ≡ first_of_kind kind bytes.now }
{
    for index in 0..section_count(bytes) {
        let section = section_of(bytes, index);
        if section.kind == kind {
            return Some(section);
        }
    }
    None
}

/// The section of an index. None: there is none of that index.
fn section(bytes: &[u8], index: u32) -> Option<Section>
    requires { TablesLie bytes.now }
    ensures { result ≡ slice_get (sections bytes.now) index }
{
    if index < u32::from(section_count(bytes)) {
        Some(section_of(bytes, index as u16))
    } else {
        None
    }
}

/// The section of an index that there is.
fn section_of(bytes: &[u8], index: u16) -> Section
    requires tables { TablesLie bytes.now }
    requires within { index < section_count bytes.now }
    ensures { result ≡ section_at bytes.now (section_place bytes.now + index * section_header_len) }
{
    section_at(
        bytes,
        section_place(bytes) as usize + usize::from(index) * SECTION_HEADER_LEN,
    )
}

/// The section header at a place.
fn section_at(bytes: &[u8], place: usize) -> Section
    requires { place + section_header_len ≤ length bytes.now }
    ensures { result ≡ section_at bytes.now place }
{
    Section {
        kind: u32_at(bytes, place + SH_TYPE),
        offset: u64_at(bytes, place + SH_OFFSET),
        size: u64_at(bytes, place + SH_SIZE),
        link: u32_at(bytes, place + SH_LINK),
        entry_size: u64_at(bytes, place + SH_ENTSIZE),
    }
}

/// Whether a section lies in the bytes.
fn section_lies(bytes: &[u8], section: &Section) -> bool
    ensures { result ≡ section_lies bytes.now section.now }
{
    lies(bytes, section.offset, section.size)
}

/// Whether a section lies in the bytes, and is entries of a symbol table side by side.
fn is_symbol_table(bytes: &[u8], table: &Section) -> bool
    ensures { result ≡ is_symbol_table bytes.now table.now }
{
    section_lies(bytes, table)
        && table.entry_size as usize == SYMBOL_LEN
        && table.size as usize % SYMBOL_LEN == 0
}
