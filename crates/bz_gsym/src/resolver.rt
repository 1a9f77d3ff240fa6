//! What answers addresses by a GSYM file.

ghost use Rattle.std.specs.Prelude.{◌≡◌, false, Some, None, IfOk, IfErr, OnOk};
ghost use Rattle.bz_base.specs.Lent.{IsLentResolved};
ghost use Rattle.bz_base.specs.Resolution.{MayGive, StartsBefore, found_of};
ghost use Rattle.bz_cache.specs.Format.{GivesOrFaults, IsRefusalBy, MayFail};
ghost use Rattle.bz_files.specs.Count.{counted};
ghost use Rattle.bz_files.specs.Looked.{Faulted, Looked, ReadsOne};
ghost use Rattle.bz_files.specs.World.{Told, entry_at, has_file, in_view};
ghost use Rattle.bz_gsym.specs.Plain.{plain};
ghost use Rattle.bz_gsym.specs.Refusal.{IsAnswerRefusal};
ghost use Rattle.bz_gsym.specs.Resolver.{opened};
ghost use Rattle.bz_gsym.specs.Tables.{IsGsym};
ghost use Rattle.bz_gsym.specs.Version.{format_test};

use crate::table::GsymTable;
use bz_base::{Addr, FindSymOpts, Reason, ResolvedSym, Result, Symbolize};
use bz_files::Files;
use std::alloc::Global;
use std::fmt;
use std::marker::Model;

/// Answers addresses by a GSYM file that it holds. Contracts see the file's bytes and its path.
#[derive(Drop)]
pub struct GsymResolver {
    table: GsymTable,
    path: Option<String>,
}

impl Model for GsymResolver {
    ghost use Rattle.std.specs.Prelude.{option_map, string_bytes};
    ghost use Rattle.bz_gsym.specs.Resolver.{Resolver};

    ghost Value = { Resolver };

    ghost view = { λ r. record { bytes = r.table; path = option_map string_bytes r.path } };
}

impl GsymResolver {
    /// Reads the file at the path. It is refused by `NotFound`, `PermissionDenied` and `ReadFault` as a
    /// look is, by `InvalidData` where it is no GSYM file, and by `OutOfMemory`.
    pub fn open<F: Files>(alloc: Global, files: &mut F, path: &str) -> Result<GsymResolver>
        ensures answer { Told (in_view (F.worlds files.old)) (λ world. GivesOrFaults (λ r. r.bytes) (opened (entry_at world path.now)) result) }
        ensures path { IfOk result (λ r. r.path ≡ Some path.now) }
        ensures accepted { IfOk result (λ r. IsGsym r.bytes) }
        ensures opened { OnOk result (F.opens files.new ≡ counted (F.opens files.old)) }
        ensures spared { Told (in_view (F.worlds files.old)) (λ world. has_file (entry_at world path.now) ≡ false → F.opens files.new ≡ F.opens files.old) }
        ensures most { ReadsOne F.Files files.old files.new }
        ensures files { Looked F.Files files.old files.new (Faulted result) }
        ensures refusal { IfErr result (MayFail format_test) }
    {
        let bytes = files.read(alloc, path)?;
        let table = GsymTable::from_bytes(bytes)?;
        let path = String::from_str(alloc, path)?;
        Ok(GsymResolver {
            table,
            path: Some(path),
        })
    }

    /// Takes a copy of the bytes of a GSYM file. InvalidData: they aren't one.
    pub fn with_data(alloc: Global, bytes: &[u8]) -> Result<GsymResolver>
        ensures ok { IfOk result (λ r. r ≡ record { bytes = bytes.now; path = None }) }
        ensures accepted { IfOk result (λ r. IsGsym bytes.now) }
        ensures refusal { IfErr result (IsRefusalBy (format_test bytes.now)) }
    {
        let bytes = Vec::from_slice(alloc, bytes)?;
        let table = GsymTable::from_bytes(bytes)?;
        Ok(GsymResolver { table, path: None })
    }
}

impl Symbolize for GsymResolver {
    ghost may_find = { λ resolver opts addr answer. answer ≡ plain resolver.bytes opts addr };

    fn find_sym(
        &self,
        alloc: Global,
        addr: Addr,
        opts: &FindSymOpts,
    ) -> Result<std::result::Result<ResolvedSym<'_>, Reason>>
        ensures answer { MayGive found_of (λ answer. answer ≡ plain self.now.bytes opts.now addr) result }
        ensures starts { IfOk result (λ found. StartsBefore addr (found_of found)) }
        ensures lent { IfOk result (λ found. IfOk found IsLentResolved) }
        ensures refusal { IfErr result (IsAnswerRefusal opts.now) }
    {
        self.table.find_sym(alloc, addr, opts)
    }
}

impl fmt::Debug for GsymResolver {
    fn fmt<W: fmt::Write>(&self, f: &mut fmt::Formatter<W>) -> fmt::Result {
        match &self.path {
            Some(path) => write!(f, "GSYM {path}"),
            None => f.write_str("GSYM <unknown-file>"),
        }
    }
}
