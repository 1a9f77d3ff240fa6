//! What answers addresses by a Breakpad file.

ghost use Rattle.std.specs.Prelude.{◌≡◌, ◌<◌, false, Some, IfOk, IfErr, OnOk};
ghost use Rattle.bz_base.specs.Lent.{IsLentResolved};
ghost use Rattle.bz_base.specs.Refusals.{WantsMemory};
ghost use Rattle.bz_base.specs.Resolution.{MayGive, StartsBefore, found_of};
ghost use Rattle.bz_base.specs.declared.types.FindSymOpts.{FindSymOpts};
ghost use Rattle.bz_breakpad.specs.Inspect.{infos_in, told_of};
ghost use Rattle.bz_breakpad.specs.Resolver.{IsPlain, opened};
ghost use Rattle.bz_breakpad.specs.Version.{format_test};
ghost use Rattle.bz_breakpad_function.specs.Locations.{IsAnswerRefusal};
ghost use Rattle.bz_breakpad_lines.specs.Grammar.{IsFile};
ghost use Rattle.bz_breakpad_lines.specs.Reader.{table_in};
ghost use Rattle.bz_breakpad_lines.specs.Table.{Table};
ghost use Rattle.bz_cache.specs.Format.{GivesOrFaults, MayFail};
ghost use Rattle.bz_files.specs.Count.{counted};
ghost use Rattle.bz_files.specs.Looked.{Faulted, Looked, ReadsOne};
ghost use Rattle.bz_files.specs.World.{Told, entry_at, has_file, in_view};

use crate::file::SymbolFile;
use crate::inspect::{FindAddrOpts, Inspect, SymInfo};
use bz_base::{Addr, FindSymOpts, Reason, ResolvedSym, Result, Steps, Symbolize};
use bz_files::Files;
use std::alloc::Global;
use std::fmt;
use std::marker::{Brand, Model};
use std::sync::ledger::{Blank, Ledger};

/// Answers addresses, which are relative to the module's base, by a Breakpad file that it holds.
/// Contracts see the file's bytes and its path.
#[derive(Drop)]
pub struct BreakpadResolver {
    file: SymbolFile,
    path: String,
}

impl Model for BreakpadResolver {
    ghost use Rattle.std.specs.Prelude.{string_bytes};
    ghost use Rattle.bz_breakpad.specs.Resolver.{Resolver};

    ghost Value = { Resolver };

    ghost view = { λ r. record { bytes = r.file; path = string_bytes r.path } };
}

impl BreakpadResolver {
    /// Reads the file at the path. It is refused by `NotFound`, `PermissionDenied` and `ReadFault` as a
    /// look is, by `InvalidInput` where the file is no Breakpad file, and by `OutOfMemory`.
    pub fn open<F: Files>(alloc: Global, files: &mut F, path: &str) -> Result<BreakpadResolver>
        ensures answer { Told (in_view (F.worlds files.old)) (λ world. GivesOrFaults (λ r. r.bytes) (opened (entry_at world path.now)) result) }
        ensures path { IfOk result (λ r. r.path ≡ path.now) }
        ensures accepted { IfOk result (λ r. (table : Table) × (table_in r.bytes ≡ Some table) × IsFile r.bytes table) }
        ensures opened { OnOk result (F.opens files.new ≡ counted (F.opens files.old)) }
        ensures spared { Told (in_view (F.worlds files.old)) (λ world. has_file (entry_at world path.now) ≡ false → F.opens files.new ≡ F.opens files.old) }
        ensures most { ReadsOne F.Files files.old files.new }
        ensures files { Looked F.Files files.old files.new (Faulted result) }
        ensures refusal { IfErr result (MayFail format_test) }
    {
        let bytes = files.read(alloc, path)?;
        let file = SymbolFile::from_bytes(alloc, bytes)?;
        let path = String::from_str(alloc, path)?;
        Ok(BreakpadResolver { file, path })
    }
}

impl Symbolize for BreakpadResolver {
    ghost may_find = { λ resolver opts addr answer. IsPlain resolver.bytes opts addr answer };

    fn find_sym(
        &self,
        alloc: Global,
        addr: Addr,
        opts: &FindSymOpts,
    ) -> Result<std::result::Result<ResolvedSym<'_>, Reason>>
        ensures answer { MayGive found_of (IsPlain self.now.bytes opts.now addr) result }
        ensures starts { IfOk result (λ found. StartsBefore addr (found_of found)) }
        ensures lent { IfOk result (λ found. IfOk found IsLentResolved) }
        ensures refusal { IfErr result IsAnswerRefusal }
        ensures memory { IfErr result (WantsMemory (opts.now ≡ FindSymOpts.CodeInfoAndInlined)) }
    {
        symbol_blank::<Brand>(&self.file, alloc, addr, opts, Blank::new(1))
    }
}

impl Inspect for BreakpadResolver {
    ghost told = { λ resolver kind. told_of kind (infos_in resolver.bytes) };

    fn find_addr(
        &self,
        alloc: Global,
        name: &str,
        opts: &FindAddrOpts,
    ) -> Result<Vec<SymInfo<'_>>> {
        self.file.find_addr(alloc, name, opts)
    }

    fn for_each<F: FnMut(&SymInfo<'_>) -> bool>(&self, opts: &FindAddrOpts, f: F) -> Result<()> {
        self.file.for_each(opts, f)
    }
}

impl fmt::Debug for BreakpadResolver {
    fn fmt<W: fmt::Write>(&self, f: &mut fmt::Formatter<W>) -> fmt::Result {
        let path = &self.path;
        write!(f, "Breakpad {path}")
    }
}

/// The symbol of a file's answer at an address alone, or why there is none. Its probes are counted in
/// the blank, which nobody reads.
fn symbol_blank<'a, L: Ledger>(
    file: &'a SymbolFile,
    alloc: Global,
    addr: Addr,
    opts: &FindSymOpts,
    blank: Blank,
) -> Result<std::result::Result<ResolvedSym<'a>, Reason>>
    requires name { blank.name ≡ L.name }
    requires parts { blank.parts ≡ L.parts }
    requires positive { 0 < L.parts }
    ensures answer { MayGive found_of (IsPlain file.now opts.now addr) result }
    ensures starts { IfOk result (λ found. StartsBefore addr (found_of found)) }
    ensures lent { IfOk result (λ found. IfOk found IsLentResolved) }
    ensures refusal { IfErr result IsAnswerRefusal }
    ensures memory { IfErr result (WantsMemory (opts.now ≡ FindSymOpts.CodeInfoAndInlined)) }
{
    let mut steps = Steps::<L>::new(blank);
    file.symbol(alloc, addr, opts, &mut steps)
}
