//! An ELF file that owns its bytes.

ghost use Rattle.std.specs.Prelude.{◌≡◌, None, Ok, Option, option_map, IfOk, IfErr};
ghost use Rattle.bz_base.specs.Lent.{IsLentResolved};
ghost use Rattle.bz_base.specs.Refusals.{IsFormatRefusal, MayRefuse};
ghost use Rattle.bz_base.specs.Resolution.{MayGive, StartsBefore, answer_seen, found_of};
ghost use Rattle.bz_base.specs.declared.error.Error.{Error};
ghost use Rattle.bz_cache.specs.Format.{IsRefusalBy};
ghost use Rattle.bz_elf.specs.Format.{format_test};
ghost use Rattle.bz_elf.specs.Plain.{plain, told_size};
ghost use Rattle.bz_elf.specs.Profile.{IsElf};
ghost use Rattle.bz_elf.specs.Segments.{holds, segments, translated};
ghost use Rattle.bz_elf.specs.Version.{format_refusals};

use crate::parser::{self, name_of, part_of};
use crate::types::{KeptFile, Segment};
use bz_base::{
    Addr, FindSymOpts, Reason, ResolvedSym, Result, SrcLang, Symbolize, TranslateFileOffset,
    covering_in,
};
use bz_cache::Version;
use std::alloc::Global;
use std::marker::Model;

/// An ELF file that owns its bytes. Beside them only numbers and places are kept. Contracts see the
/// bytes.
#[derive(Drop)]
pub struct ElfFile {
    bytes: Vec<u8>,
    kept: KeptFile,
}

impl Model for ElfFile {
    ghost use Rattle.std.specs.Prelude.{ℕ, List};
    ghost use Rattle.bz_elf.specs.Kept.{IsKept};

    ghost Value = { List ℕ };

    ghost view = { λ file. file.bytes.items };

    ghost invariant = { λ file. IsKept file.bytes.items file.kept };
}

impl ElfFile {
    /// Takes the bytes of an ELF file. Unsupported: the file isn't of 64 bits and little-endian.
    /// InvalidData: the bytes don't begin as an ELF file's. Or its headers, its symbol table or a
    /// function's name don't lie in them as the format says.
    pub fn from_bytes(alloc: Global, bytes: Vec<u8>) -> Result<ElfFile>
        ensures ok { IfOk result (λ file. file ≡ bytes.items) }
        ensures accepted { IfOk result (λ file. IsElf bytes.items) }
        ensures refusal { IfErr result (IsRefusalBy (format_test bytes.items)) }
    {
        let kept = parser::read(alloc, bytes.as_slice())?;
        Ok(ElfFile { bytes, kept })
    }

    /// The symbol at an address, of a module, or why there is none. It takes no memory.
    pub fn symbol<'f>(
        &'f self,
        alloc: Global,
        module_name: Option<&'f str>,
        addr: Addr,
    ) -> std::result::Result<ResolvedSym<'f>, Reason>
        ensures answer { found_of result ≡ plain (option_map (λ name. name.now) module_name.entry) self.now addr }
        ensures starts { StartsBefore addr (found_of result) }
        ensures lent { IfOk result IsLentResolved }
    {
        if self.kept.symbols.is_empty() {
            return Err(Reason::MissingSyms);
        }
        let Some(symbol) = covering_in(self.kept.symbols.as_slice(), addr) else {
            return Err(Reason::UnknownAddr);
        };
        let strings = part_of(self.bytes.as_slice(), &self.kept.strings);
        Ok(ResolvedSym {
            name: name_of(strings, symbol),
            module: module_name,
            addr: symbol.start,
            size: told_size(symbol.size),
            lang: SrcLang::Unknown,
            code_info: None,
            inlined: Vec::new(alloc),
        })
    }

    /// The address at which the file's byte at an offset is loaded, if it is.
    pub fn addr_of(&self, file_offset: u64) -> Option<Addr>
        ensures { result ≡ translated (segments self.now) file_offset }
    {
        translated(self.kept.segments.as_slice(), file_offset)
    }
}

impl Version for ElfFile {
    ghost bytes_of = { λ file. file };

    ghost test = { format_test };

    fn parse(alloc: Global, bytes: Vec<u8>) -> Result<ElfFile> {
        ElfFile::from_bytes(alloc, bytes)
    }

    fn formed(&self) {
        let _kept = &self.kept;
    }

    ghost refusals = { format_refusals };
}

impl Symbolize for ElfFile {
    ghost may_find = { λ file opts addr answer. answer ≡ Ok (plain None file addr) };

    fn find_sym(
        &self,
        alloc: Global,
        addr: Addr,
        _opts: &FindSymOpts,
    ) -> Result<std::result::Result<ResolvedSym<'_>, Reason>>
        ensures answer { MayGive found_of (λ answer. answer ≡ Ok (plain None self.now addr)) result }
        ensures starts { IfOk result (λ found. StartsBefore addr (found_of found)) }
        ensures lent { IfOk result (λ found. IfOk found IsLentResolved) }
        ensures refusal { IfErr result MayRefuse }
        ensures exact { answer_seen result ≡ Ok (plain None self.now addr) }
    {
        Ok(self.symbol(alloc, None, addr))
    }
}

impl TranslateFileOffset for ElfFile {
    ghost may_translate = { λ file file_offset answer. answer ≡ Ok (translated (segments file) file_offset) };

    fn file_offset_to_virt_offset(&self, file_offset: u64) -> Result<Option<Addr>>
        ensures answer { result ≡ Ok (translated (segments self.now) file_offset) }
        ensures refusal { IfErr result IsFormatRefusal }
    {
        Ok(self.addr_of(file_offset))
    }
}

/// The size that is told of a symbol, in bytes. 0 says that it isn't known.
fn told_size(size: u64) -> Option<usize>
    ensures { result ≡ told_size size }
{
    if size == 0 { None } else { Some(size as usize) }
}

/// The address of the file's byte at an offset, by the first of the segments that holds it.
fn translated(segments: &[Segment], offset: u64) -> Option<Addr>
    ensures { result ≡ translated segments.now offset }
{
    for segment in segments {
        if holds(segment, offset) {
            return segment.addr.checked_add(offset - segment.offset);
        }
    }
    None
}

/// Whether a segment holds the file's byte at an offset.
fn holds(segment: &Segment, offset: u64) -> bool
    ensures { result ≡ holds offset segment.now }
{
    segment.offset <= offset && offset - segment.offset < segment.size
}
