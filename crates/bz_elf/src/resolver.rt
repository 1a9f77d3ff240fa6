//! What answers addresses by an ELF file.

ghost use Rattle.std.specs.Prelude.{◌≡◌, None, Some, Ok, false, IfOk, IfErr, OnOk};
ghost use Rattle.bz_base.specs.Lent.{IsLentResolved};
ghost use Rattle.bz_base.specs.Refusals.{IsFormatRefusal, MayRefuse};
ghost use Rattle.bz_base.specs.Resolution.{MayGive, StartsBefore, answer_seen, found_of};
ghost use Rattle.bz_cache.specs.Format.{GivesOrFaults, IsRefusalBy, MayFail};
ghost use Rattle.bz_elf.specs.Format.{format_test};
ghost use Rattle.bz_elf.specs.Plain.{plain};
ghost use Rattle.bz_elf.specs.Profile.{IsElf};
ghost use Rattle.bz_elf.specs.Resolver.{opened};
ghost use Rattle.bz_elf.specs.Segments.{segments, translated};
ghost use Rattle.bz_files.specs.Count.{counted};
ghost use Rattle.bz_files.specs.Looked.{Faulted, Looked, ReadsOne};
ghost use Rattle.bz_files.specs.World.{Told, entry_at, has_file, in_view};

use crate::file::ElfFile;
use bz_base::{Addr, FindSymOpts, Reason, ResolvedSym, Result, Symbolize, TranslateFileOffset};
use bz_files::Files;
use std::alloc::Global;
use std::marker::Model;
use std::rc::Rc;

/// Answers addresses by an ELF file that it holds, with the path as the module. Contracts see the
/// file's bytes and the path.
#[derive(Drop)]
pub struct ElfResolver {
    file: Rc<ElfFile>,
    path: String,
}

impl Model for ElfResolver {
    ghost use Rattle.std.specs.Prelude.{string_bytes};
    ghost use Rattle.bz_elf.specs.Resolver.{Resolver};

    ghost Value = { Resolver };

    ghost view = { λ r. record { bytes = r.file.value; path = string_bytes r.path } };
}

impl ElfResolver {
    /// Reads the file at the path. It is refused by `NotFound`, `PermissionDenied` and `ReadFault` as a
    /// look is, by `Unsupported` and `InvalidData` as `from_bytes` is, and by `OutOfMemory`.
    pub fn open<F: Files>(alloc: Global, files: &mut F, path: &str) -> Result<ElfResolver>
        ensures answer { Told (in_view (F.worlds files.old)) (λ world. GivesOrFaults (λ r. r.bytes) (opened (entry_at world path.now)) result) }
        ensures path { IfOk result (λ r. r.path ≡ path.now) }
        ensures accepted { IfOk result (λ r. IsElf r.bytes) }
        ensures opened { OnOk result (F.opens files.new ≡ counted (F.opens files.old)) }
        ensures spared { Told (in_view (F.worlds files.old)) (λ world. has_file (entry_at world path.now) ≡ false → F.opens files.new ≡ F.opens files.old) }
        ensures most { ReadsOne F.Files files.old files.new }
        ensures files { Looked F.Files files.old files.new (Faulted result) }
        ensures refusal { IfErr result (MayFail format_test) }
    {
        let bytes = files.read(alloc, path)?;
        ElfResolver::from_bytes(alloc, path, bytes)
    }

    /// Takes the bytes of a file. The path names the module, and isn't looked at. Unsupported and
    /// InvalidData: as `ElfFile::from_bytes` refuses them.
    pub fn from_bytes(alloc: Global, path: &str, bytes: Vec<u8>) -> Result<ElfResolver>
        ensures ok { IfOk result (λ r. r ≡ record { bytes = bytes.items; path = path.now }) }
        ensures accepted { IfOk result (λ r. IsElf bytes.items) }
        ensures refusal { IfErr result (IsRefusalBy (format_test bytes.items)) }
    {
        let file = ElfFile::from_bytes(alloc, bytes)?;
        let file = Rc::new(alloc, file)?;
        let path = String::from_str(alloc, path)?;
        Ok(ElfResolver { file, path })
    }

    /// The file, which may be shared.
    pub fn file(&self) -> &Rc<ElfFile>
        ensures { result.now.value ≡ self.now.bytes }
    {
        &self.file
    }
}

impl Symbolize for ElfResolver {
    ghost may_find = { λ resolver opts addr answer. answer ≡ Ok (plain (Some resolver.path) resolver.bytes addr) };

    fn find_sym(
        &self,
        alloc: Global,
        addr: Addr,
        _opts: &FindSymOpts,
    ) -> Result<std::result::Result<ResolvedSym<'_>, Reason>>
        ensures answer { MayGive found_of (λ answer. answer ≡ Ok (plain (Some self.now.path) self.now.bytes addr)) result }
        ensures starts { IfOk result (λ found. StartsBefore addr (found_of found)) }
        ensures lent { IfOk result (λ found. IfOk found IsLentResolved) }
        ensures refusal { IfErr result MayRefuse }
        ensures exact { answer_seen result ≡ Ok (plain (Some self.now.path) self.now.bytes addr) }
    {
        let file = self.file.as_ref();
        Ok(file.symbol(alloc, Some(self.path.as_str()), addr))
    }
}

impl TranslateFileOffset for ElfResolver {
    ghost may_translate = { λ resolver file_offset answer. answer ≡ Ok (translated (segments resolver.bytes) file_offset) };

    fn file_offset_to_virt_offset(&self, file_offset: u64) -> Result<Option<Addr>>
        ensures answer { result ≡ Ok (translated (segments self.now.bytes) file_offset) }
        ensures refusal { IfErr result IsFormatRefusal }
    {
        let file = self.file.as_ref();
        Ok(file.addr_of(file_offset))
    }
}
