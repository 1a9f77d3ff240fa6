//! A parsed Breakpad file.

ghost use Rattle.std.specs.Prelude.{◌≡◌, ◌≤◌, ◌<◌, ◌+◌, ◌-◌, ℕ, List, map, length, option_map, Option, Some, Ok, slice_get, IfOk, IfErr, IsOkUnless};
ghost use Rattle.std.specs.List.{AllByRecursion};
ghost use Rattle.std.specs.Map.{keys_of};
ghost use Rattle.bz_base.specs.Answer.{Gives, reading};
ghost use Rattle.bz_base.specs.Lent.{IsLent, IsLentResolved};
ghost use Rattle.bz_base.specs.Refusals.{WantsMemory};
ghost use Rattle.bz_base.specs.Resolution.{MayGive, StartsBefore, found_of};
ghost use Rattle.bz_base.specs.Starts.{AreFew};
ghost use Rattle.bz_base.specs.declared.error.Error.{Error};
ghost use Rattle.bz_base.specs.declared.types.FindSymOpts.{FindSymOpts};
ghost use Rattle.bz_breakpad.specs.Found.{AreRecordsFor, IsRecordFor};
ghost use Rattle.bz_breakpad.specs.Inspect.{CalledInTurn, info_of, infos_in, named};
ghost use Rattle.bz_breakpad.specs.Listed.{files_in, lent_public, origins_in, publics_in, publics_in_order};
ghost use Rattle.bz_breakpad.specs.Plain.{batch, function_at, plain};
ghost use Rattle.bz_breakpad.specs.Probes.{AreFewProbes, AreFewSteps};
ghost use Rattle.bz_breakpad.specs.Resolver.{IsPlain};
ghost use Rattle.bz_breakpad.specs.Searched.{IsSearched};
ghost use Rattle.bz_breakpad_function.specs.InOrder.{functions_in_order};
ghost use Rattle.bz_breakpad_function.specs.Indexed.{functions_in};
ghost use Rattle.bz_breakpad_function.specs.Locations.{IsAnswerRefusal};
ghost use Rattle.bz_breakpad_lines.specs.Grammar.{Accepted, IsFile};
ghost use Rattle.bz_breakpad_lines.specs.Names.{name_for};
ghost use Rattle.bz_breakpad_lines.specs.Reader.{counted_in, table_in};
ghost use Rattle.bz_breakpad_lines.specs.Table.{Table};
ghost use Rattle.bz_breakpad_table.specs.Refusal.{Refuses};
ghost use Rattle.bz_breakpad_table.specs.Sorted.{IsKept, StandsFor};

use crate::find::{Searched, function_index};
use crate::found::{FoundAddr, FoundRecord};
use crate::inspect::{SymInfo, each_info, infos_named};
use crate::lookups::{FoundAddrs, answer_from};
use crate::publics::{lend_public, lend_publics};
use crate::symbol::{module_name, symbol_from};
use crate::types::PublicSymbol;
use bz_base::{
    Addr, Error, FindSymOpts, Reason, ResolvedSym, Result, Starts, Steps, Symbolized, nearest,
    place_found,
};
use bz_breakpad_function::{Cuts, Function};
use bz_breakpad_table::{KeptTable, PublicTable, name_of, names_of, read_table, sorted_publics};
use std::alloc::Global;
use std::marker::Model;
use std::sync::ledger::Ledger;

/// A Breakpad file that was read. It keeps the bytes that it was read from, which contracts see.
#[derive(Drop)]
pub struct SymbolFile {
    bytes: Vec<u8>,
    /// What is kept of its records.
    table: KeptTable,
    /// The starts of its functions, in their order.
    starts: Starts,
    /// By what its PUBLIC records are found.
    publics: PublicTable,
}

impl Model for SymbolFile {
    ghost use Rattle.std.specs.Prelude.{ℕ, List};
    ghost use Rattle.bz_breakpad_table.specs.Sorted.{IsKept};

    ghost Value = { List ℕ };

    ghost view = { λ file. file.bytes.items };

    ghost invariant = { λ file. IsKept file.bytes.items file.table file.starts file.publics };
}

/// Reads Breakpad files.
pub struct SymbolParser;

impl SymbolParser {
    /// Reads a Breakpad file, and tells how many records it has. InvalidInput: it is no Breakpad file.
    /// OutOfMemory: memory ran out, or the file has 4 GiB or more, and places that far can't be kept.
    pub fn run(alloc: Global, bytes: Vec<u8>) -> Result<(SymbolFile, u64)>
        ensures ok { IfOk result (λ read. read.0 ≡ bytes.items) }
        ensures accepted { IfOk result (λ read. (table : Table) × (counted_in bytes.items ≡ Some (table, read.1)) × Accepted bytes.items table read.1) }
        ensures refusal { IfErr result (Refuses (table_in bytes.items)) }
    {
        let read = read_table(alloc, bytes.as_slice())?;
        let file = SymbolFile {
            bytes,
            table: read.table,
            starts: read.starts,
            publics: read.publics,
        };
        Ok((file, read.count))
    }
}

impl SymbolFile {
    /// Reads a Breakpad file. InvalidInput: it is no Breakpad file. OutOfMemory: memory ran out, or the
    /// file has 4 GiB or more, and places that far can't be kept.
    pub fn from_bytes(alloc: Global, bytes: Vec<u8>) -> Result<SymbolFile>
        ensures ok { IfOk result (λ file. file ≡ bytes.items) }
        ensures accepted { IfOk result (λ file. (table : Table) × (table_in bytes.items ≡ Some table) × IsFile bytes.items table) }
        ensures refusal { IfErr result (Refuses (table_in bytes.items)) }
    {
        let (file, _count) = SymbolParser::run(alloc, bytes)?;
        Ok(file)
    }

    /// The name in the MODULE record, if the file has one.
    pub fn module(&self) -> Option<&str>
        ensures { option_map (λ table. table.«module») (table_in self.now) ≡ Some (option_map (λ name. name.now) result) }
    {
        module_name(self.bytes.as_slice(), &self.table)
    }

    /// The name in the last FILE record of the id.
    pub fn file(&self, id: u32) -> Option<&str>
        ensures { option_map (λ table. name_for id table.files) (table_in self.now) ≡ Some (option_map (λ name. name.now) result) }
    {
        name_of(self.bytes.as_slice(), &self.table.files, id)
    }

    /// The name in the last INLINE_ORIGIN record of the id.
    pub fn origin(&self, id: u32) -> Option<&str>
        ensures { option_map (λ table. name_for id table.origins) (table_in self.now) ≡ Some (option_map (λ name. name.now) result) }
    {
        name_of(self.bytes.as_slice(), &self.table.origins, id)
    }

    /// How many ids the FILE records have.
    pub fn file_count(&self) -> usize
        ensures table { option_map (λ table. length table.files) (table_in self.now) ≡ Some result }
        ensures count { result ≡ length (files_in self.now) }
    {
        self.table.files.len()
    }

    /// The id at an index, in the order of the ids of FILE records. Where they don't come one after
    /// another from 0 on, finding it takes a walk over those before it.
    pub fn file_id(&self, index: usize) -> u32
        requires { index < length (files_in self.now) }
        ensures { slice_get (keys_of (files_in self.now)) index ≡ Some result }
    {
        self.table.files.id_at(index)
    }

    /// The ids of FILE records, each with the name in the last record of it, in the order of the ids.
    pub fn files(&self, alloc: Global) -> Result<Vec<(u32, &str)>>
        ensures files { IfOk result (λ files. map (λ file. (file.0, file.1.now)) files.items ≡ files_in self.now) }
        ensures memory { IsOkUnless result Error.OutOfMemory }
    {
        let files = names_of(alloc, self.bytes.as_slice(), &self.table.files)?;
        Ok(files)
    }

    /// How many ids the INLINE_ORIGIN records have.
    pub fn origin_count(&self) -> usize
        ensures { result ≡ length (origins_in self.now) }
    {
        self.table.origins.len()
    }

    /// The id at an index, in the order of the ids of INLINE_ORIGIN records. Where they don't come one
    /// after another from 0 on, finding it takes a walk over those before it.
    pub fn origin_id(&self, index: usize) -> u32
        requires { index < length (origins_in self.now) }
        ensures { slice_get (keys_of (origins_in self.now)) index ≡ Some result }
    {
        self.table.origins.id_at(index)
    }

    /// The ids of INLINE_ORIGIN records, each with the name in the last record of it, in the order of
    /// the ids.
    pub fn origins(&self, alloc: Global) -> Result<Vec<(u32, &str)>>
        ensures origins { IfOk result (λ origins. map (λ origin. (origin.0, origin.1.now)) origins.items ≡ origins_in self.now) }
        ensures memory { IsOkUnless result Error.OutOfMemory }
    {
        let origins = names_of(alloc, self.bytes.as_slice(), &self.table.origins)?;
        Ok(origins)
    }

    /// How many functions the file has.
    pub fn function_count(&self) -> usize
        ensures table { option_map (λ table. length table.functions) (table_in self.now) ≡ Some result }
        ensures count { result ≡ length (functions_in self.now) }
    {
        self.table.code.functions.len()
    }

    /// The function at an index, in the order of start and size; those that are alike in both stand as
    /// in the file.
    pub fn function<L: Ledger>(&self, index: usize, steps: &mut Steps<L>) -> Function<'_>
        requires { index < length (functions_in self.now) }
        ensures function { slice_get (functions_in_order self.now) index ≡ Some result }
        ensures step { steps.new ≡ steps.old + 1 }
    {
        steps.tick();
        self.function_in_file(self.table.code.keys[index].index as usize)
    }

    /// The function at an index, in the order of the file.
    pub fn function_in_file(&self, index: usize) -> Function<'_>
        requires { index < length (functions_in self.now) }
        ensures { slice_get (functions_in self.now) index ≡ Some result }
    {
        Function::new(self.bytes.as_slice(), &self.table, index)
    }

    /// How many PUBLIC records the file has.
    pub fn public_count(&self) -> usize
        ensures { result ≡ length (publics_in self.now) }
    {
        self.table.publics.len()
    }

    /// The PUBLIC record at an index, in the order of the file.
    pub fn public(&self, index: usize) -> PublicSymbol<'_>
        requires { index < length (publics_in self.now) }
        ensures { slice_get (publics_in self.now) index ≡ Some (lent_public result) }
    {
        lend_public(self.bytes.as_slice(), &self.table.publics[index])
    }

    /// The PUBLIC records in the order of their addresses; those of one address stand as in the file.
    pub fn publics(&self, alloc: Global) -> Result<Vec<PublicSymbol<'_>>>
        ensures publics { IfOk result (λ publics. map lent_public publics.items ≡ publics_in_order self.now) }
        ensures memory { IsOkUnless result Error.OutOfMemory }
    {
        let sorted = sorted_publics(alloc, &self.table.publics)?;
        let publics = lend_publics(alloc, self.bytes.as_slice(), &sorted)?;
        Ok(publics)
    }

    /// The function that answers for an address, which is relative to the module's base.
    pub fn find_function<L: Ledger>(&self, addr: Addr, steps: &mut Steps<L>) -> Option<Function<'_>>
        ensures found { (table : Table) → table_in self.now ≡ Some table → result ≡ function_at addr table.functions }
        ensures more { steps.old ≤ steps.new }
        ensures few { (table : Table) → table_in self.now ≡ Some table → AreFew (steps.new - steps.old) (length table.functions) }
    {
        let place = place_found(nearest(&self.starts, addr, steps));
        let index = function_index(&self.table, place, addr)?;
        Some(self.function_in_file(index as usize))
    }

    /// What is searched for addresses.
    fn searched(&self) -> Searched<'_>
        ensures searched { IsSearched result }
        ensures stands { (table : Table) → table_in self.now ≡ Some table → StandsFor self.now table result.kept.now }
    {
        Searched {
            kept: &self.table,
            starts: &self.starts,
            publics: &self.publics,
        }
    }

    /// Which record answers for each of the addresses, which are relative to the module's base.
    pub fn find_records<L: Ledger>(
        &self,
        alloc: Global,
        addrs: &[u64],
        steps: &mut Steps<L>,
    ) -> Result<Vec<FoundRecord>>
        ensures records { IfOk result (λ found. (table : Table) → table_in self.now ≡ Some table → AreRecordsFor table addrs.now found.items) }
        ensures count { IfOk result (λ found. length found.items ≡ length addrs.now) }
        ensures more { steps.old ≤ steps.new }
        ensures probes { (table : Table) → table_in self.now ≡ Some table → AreFewSteps table (length addrs.now) (steps.new - steps.old) }
        ensures memory { IsOkUnless result Error.OutOfMemory }
    {
        self.searched().find_records(alloc, addrs, steps)
    }

    /// The answers to addresses whose records were found, in their order, each the file's answer at
    /// that address alone. An address that is refused is an ignored error.
    /// Addresses are relative to the module's base.
    /// Nothing is searched for among functions and PUBLIC records.
    pub fn answers_by(
        &self,
        alloc: Global,
        addrs: &[u64],
        found: &[FoundRecord],
        opts: &FindSymOpts,
    ) -> Result<Vec<Symbolized<'_>>>
        requires records { (table : Table) → table_in self.now ≡ Some table → AreRecordsFor table addrs.now found.now }
        requires count { length found.now ≡ length addrs.now }
        ensures answers { IfOk result (λ answers. (table : Table) × (table_in self.now ≡ Some table) × (map reading answers.items ≡ batch table opts.now addrs.now)) }
        ensures lent { IfOk result (λ answers. AllByRecursion IsLent answers.items) }
        ensures memory { IsOkUnless result Error.OutOfMemory }
    {
        let batch = FoundAddrs {
            bytes: self.bytes.as_slice(),
            kept: &self.table,
            addrs,
            found,
        };
        batch.answers(alloc, opts)
    }

    /// The answer at an address alone, relative to the module's base, for which a record was found.
    /// InvalidInput: an id of a file or of an origin there names nothing,
    /// or a source name has no component.
    pub fn answer_by(
        &self,
        alloc: Global,
        addr: Addr,
        found: FoundRecord,
        opts: &FindSymOpts,
    ) -> Result<Symbolized<'_>>
        requires record { (table : Table) → table_in self.now ≡ Some table → IsRecordFor table addr found }
        ensures answer { (table : Table) × (table_in self.now ≡ Some table) × Gives reading (plain table opts.now addr) result }
        ensures lent { IfOk result IsLent }
        ensures refusal { IfErr result IsAnswerRefusal }
        ensures memory { IfErr result (WantsMemory (opts.now ≡ FindSymOpts.CodeInfoAndInlined)) }
    {
        let at = FoundAddr {
            addr,
            found,
            hints: Cuts::unknown(),
        };
        answer_from(alloc, self.bytes.as_slice(), &self.table, opts, &at)
    }

    /// The answers to the addresses, in their order, each the file's answer at that address alone.
    /// An address that is refused is an ignored error. Addresses are relative to the module's base.
    pub fn answer_batch<L: Ledger>(
        &self,
        alloc: Global,
        addrs: &[u64],
        opts: &FindSymOpts,
        steps: &mut Steps<L>,
    ) -> Result<Vec<Symbolized<'_>>>
        ensures answers { IfOk result (λ answers. (table : Table) × (table_in self.now ≡ Some table) × (map reading answers.items ≡ batch table opts.now addrs.now)) }
        ensures lent { IfOk result (λ answers. AllByRecursion IsLent answers.items) }
        ensures count { IfOk result (λ answers. length answers.items ≡ length addrs.now) }
        ensures more { steps.old ≤ steps.new }
        ensures probes { (table : Table) → table_in self.now ≡ Some table → AreFewSteps table (length addrs.now) (steps.new - steps.old) }
        ensures memory { IsOkUnless result Error.OutOfMemory }
    {
        let found = self.find_records(alloc, addrs, steps)?;
        self.answers_by(alloc, addrs, &found, opts)
    }

    /// The answer at an address alone, which is relative to the module's base. InvalidInput: an id of a
    /// file or of an origin there names nothing, or a source name has no component.
    pub fn answer<L: Ledger>(
        &self,
        alloc: Global,
        addr: Addr,
        opts: &FindSymOpts,
        steps: &mut Steps<L>,
    ) -> Result<Symbolized<'_>>
        ensures answer { (table : Table) × (table_in self.now ≡ Some table) × Gives reading (plain table opts.now addr) result }
        ensures lent { IfOk result IsLent }
        ensures refusal { IfErr result IsAnswerRefusal }
        ensures memory { IfErr result (WantsMemory (opts.now ≡ FindSymOpts.CodeInfoAndInlined)) }
        ensures more { steps.old ≤ steps.new }
        ensures probes { (table : Table) → table_in self.now ≡ Some table → AreFewProbes table (steps.new - steps.old) }
    {
        let found = self.searched().record_at(addr, steps);
        self.answer_by(alloc, addr, found, opts)
    }

    /// The symbol of the file's answer at an address alone, which is relative to the module's base,
    /// or why there is none.
    pub(crate) fn symbol<L: Ledger>(
        &self,
        alloc: Global,
        addr: Addr,
        opts: &FindSymOpts,
        steps: &mut Steps<L>,
    ) -> Result<std::result::Result<ResolvedSym<'_>, Reason>>
        ensures answer { MayGive found_of (IsPlain self.now opts.now addr) result }
        ensures starts { IfOk result (λ found. StartsBefore addr (found_of found)) }
        ensures lent { IfOk result (λ found. IfOk found IsLentResolved) }
        ensures refusal { IfErr result IsAnswerRefusal }
        ensures memory { IfErr result (WantsMemory (opts.now ≡ FindSymOpts.CodeInfoAndInlined)) }
    {
        let found = self.searched().record_at(addr, steps);
        let at = FoundAddr {
            addr,
            found,
            hints: Cuts::unknown(),
        };
        symbol_from(alloc, self.bytes.as_slice(), &self.table, opts, &at)
    }

    /// What is told of the functions of a name, in their order.
    pub(crate) fn infos_named(&self, alloc: Global, name: &str) -> Result<Vec<SymInfo<'_>>>
        ensures infos { Gives (λ infos. map info_of infos.items) (Ok (named name.now (infos_in self.now))) result }
        ensures memory { IsOkUnless result Error.OutOfMemory }
    {
        infos_named(alloc, self.bytes.as_slice(), &self.table, name)
    }

    /// Calls the closure at what is told of each function, in their order, until it answers false.
    pub(crate) fn each_info<F: FnMut(&SymInfo<'_>) -> bool>(&self, f: F)
        requires { F.IsAlwaysCallable f }
        ensures { (last : F) × CalledInTurn F.FnMut f (infos_in self.now) last }
    {
        each_info(self.bytes.as_slice(), &self.table, f);
    }
}
