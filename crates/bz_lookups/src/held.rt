//! The version that answers, held.

ghost use Rattle.std.specs.Prelude.{◌≡◌, ◌<◌, length, map, slice_index_or, IfOk, IfErr, IsOkUnless};
ghost use Rattle.std.specs.List.{AllByRecursion};
ghost use Rattle.bz_base.specs.Answer.{Gives, reading};
ghost use Rattle.bz_base.specs.Lent.{IsLent};
ghost use Rattle.bz_base.specs.Refusals.{MayRefuse, WantsMemory};
ghost use Rattle.bz_base.specs.declared.error.Error.{Error};
ghost use Rattle.bz_breakpad.specs.declared.found.FoundRecord.{FoundRecord};
ghost use Rattle.bz_lookups.specs.Batch.{MayWantMemory, entry_by, single_by, version_of};
ghost use Rattle.bz_lookups.specs.Counted.{VersionSteps};
ghost use Rattle.bz_lookups.specs.Found.{AreFoundIn, IsFoundIn};

use crate::{breakpad, elf, gsym};
use bz_base::{Addr, FindSymOpts, Result, Steps, Symbolized, in_batch};
use bz_breakpad::{FoundRecord, SymbolFile};
use bz_elf::ElfFile;
use bz_gsym::{GsymContext, GsymTable};
use std::alloc::Global;
use std::marker::Brand;
use std::rc::Rc;
use std::sync::ledger::{Blank, Ledger};

/// A version of a source, held as long as it answers.
#[derive(Drop)]
pub enum Held<'d> {
    /// A Breakpad file. Its addresses are relative to the module's base.
    Breakpad(Rc<SymbolFile>),
    /// A GSYM file. Its addresses are those of its tables.
    Gsym(Rc<GsymTable>),
    /// GSYM bytes that were handed in. Their addresses are those of their tables.
    GsymData(GsymContext<'d>),
    /// An ELF file.
    Elf(HeldElf),
}

/// An ELF file, and what is asked of it.
#[derive(Drop)]
pub struct HeldElf {
    /// The file.
    pub file: Rc<ElfFile>,
    /// The path that names it in the call.
    pub path: String,
    /// What its addresses are.
    pub kind: ElfAddressKind,
}

/// What the addresses that an ELF file is asked for are.
#[derive(Clone, Copy)]
pub enum ElfAddressKind {
    /// Addresses as the symbol table has them.
    Table,
    /// Offsets in the file.
    File,
}

impl<'d> Held<'d> {
    /// The answer at an address alone, or its refusal. Its texts are lent. InvalidInput: an id of a
    /// file or of an origin there names nothing in the Breakpad file, or a source name has no
    /// component. InvalidData: what the GSYM bytes tell of the address isn't in the format.
    /// OutOfMemory: memory ran out for inlined calls.
    pub fn single(&self, alloc: Global, opts: &FindSymOpts, addr: Addr) -> Result<Symbolized<'_>>
        ensures answer { Gives reading (single_by (version_of self.now) opts.now addr) result }
        ensures lent { IfOk result IsLent }
        ensures refusal { IfErr result MayRefuse }
        ensures memory { IfErr result (WantsMemory (MayWantMemory (version_of self.now) opts.now)) }
    {
        match self {
            Held::Breakpad(file) => {
                breakpad::answer_blank::<Brand>(alloc, file.as_ref(), opts, addr, Blank::new(1))
            }
            Held::Gsym(_) | Held::GsymData(_) | Held::Elf(_) => {
                self.answer_by(alloc, opts, addr, FoundRecord::Absent)
            }
        }
    }

    /// Which records answer for the addresses. A Breakpad file has one for each; of other formats none
    /// are found beforehand.
    pub(crate) fn find_records<L: Ledger>(
        &self,
        alloc: Global,
        addrs: &[u64],
        steps: &mut Steps<L>,
    ) -> Result<Vec<FoundRecord>>
        ensures found { IfOk result (λ records. AreFoundIn (version_of self.now) addrs.now records.items) }
        ensures steps { VersionSteps (version_of self.now) (length addrs.now) steps.old steps.new }
        ensures memory { IsOkUnless result Error.OutOfMemory }
    {
        match self {
            Held::Breakpad(file) => file.as_ref().find_records(alloc, addrs, steps),
            Held::Gsym(_) | Held::GsymData(_) | Held::Elf(_) => Ok(Vec::new(alloc)),
        }
    }

    /// The same records, with no count of the steps.
    pub(crate) fn find_uncounted(&self, alloc: Global, addrs: &[u64]) -> Result<Vec<FoundRecord>>
        ensures found { IfOk result (λ records. AreFoundIn (version_of self.now) addrs.now records.items) }
        ensures memory { IsOkUnless result Error.OutOfMemory }
    {
        self.find_blank::<Brand>(alloc, addrs, Blank::new(1))
    }

    // The same, with a count that nobody reads, which is made of the blank.
    fn find_blank<L: Ledger>(
        &self,
        alloc: Global,
        addrs: &[u64],
        blank: Blank,
    ) -> Result<Vec<FoundRecord>>
        requires name { blank.name ≡ L.name }
        requires parts { blank.parts ≡ L.parts }
        requires positive { 0 < L.parts }
        ensures found { IfOk result (λ records. AreFoundIn (version_of self.now) addrs.now records.items) }
        ensures memory { IsOkUnless result Error.OutOfMemory }
    {
        let mut steps = Steps::<L>::new(blank);
        self.find_records(alloc, addrs, &mut steps)
    }

    /// The answer at an address alone, or its refusal, by the record that was found for it. Its texts
    /// are lent.
    pub(crate) fn answer_by(
        &self,
        alloc: Global,
        opts: &FindSymOpts,
        addr: Addr,
        found: FoundRecord,
    ) -> Result<Symbolized<'_>>
        requires { IsFoundIn (version_of self.now) addr found }
        ensures answer { Gives reading (single_by (version_of self.now) opts.now addr) result }
        ensures lent { IfOk result IsLent }
        ensures refusal { IfErr result MayRefuse }
        ensures memory { IfErr result (WantsMemory (MayWantMemory (version_of self.now) opts.now)) }
    {
        match self {
            Held::Breakpad(file) => file.as_ref().answer_by(alloc, addr, found, opts),
            Held::Gsym(table) => gsym::answer_at(alloc, &table.context(), opts, addr),
            Held::GsymData(context) => gsym::answer_at(alloc, context, opts, addr),
            Held::Elf(elf) => Ok(elf::answer_at(alloc, elf, addr)),
        }
    }

    /// The answers at addresses, in their order, by the records that were found for them. A refused
    /// address is an ignored error. What a Breakpad file says is read together.
    pub(crate) fn answers_by(
        &self,
        alloc: Global,
        opts: &FindSymOpts,
        addrs: &[Addr],
        records: &[FoundRecord],
    ) -> Result<Vec<Symbolized<'_>>>
        requires found { AreFoundIn (version_of self.now) addrs.now records.now }
        ensures answers { IfOk result (λ answers. map reading answers.items ≡ map (λ addr. entry_by (version_of self.now) opts.now addr) addrs.now) }
        ensures lent { IfOk result (λ answers. AllByRecursion IsLent answers.items) }
        ensures memory { IsOkUnless result Error.OutOfMemory }
    {
        match self {
            Held::Breakpad(file) => file.as_ref().answers_by(alloc, addrs, records, opts),
            Held::Gsym(_) | Held::GsymData(_) | Held::Elf(_) => {
                self.answers_each(alloc, opts, addrs, records)
            }
        }
    }

    // The same, one by one.
    fn answers_each(
        &self,
        alloc: Global,
        opts: &FindSymOpts,
        addrs: &[Addr],
        records: &[FoundRecord],
    ) -> Result<Vec<Symbolized<'_>>>
        requires found { AreFoundIn (version_of self.now) addrs.now records.now }
        ensures answers { IfOk result (λ answers. map reading answers.items ≡ map (λ addr. entry_by (version_of self.now) opts.now addr) addrs.now) }
        ensures lent { IfOk result (λ answers. AllByRecursion IsLent answers.items) }
        ensures memory { IsOkUnless result Error.OutOfMemory }
    {
        let mut answers = Vec::with_capacity(alloc, addrs.len())?;
        for index in 0..addrs.len() {
            let found = record_at(records, index);
            let answer = self.answer_by(alloc, opts, addrs[index], found);
            answers.push(in_batch(answer)?)?;
        }
        Ok(answers)
    }
}

/// The record that was found at an index. Where none were found beforehand, it is `Absent`.
pub(crate) fn record_at(records: &[FoundRecord], index: usize) -> FoundRecord
    ensures { result ≡ slice_index_or records.now index FoundRecord.Absent }
{
    match records.get(index) {
        Some(record) => *record,
        None => FoundRecord::Absent,
    }
}
