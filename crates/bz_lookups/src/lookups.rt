//! Batches whose answers are made one by one, or some at a time.

ghost use Rattle.std.specs.Prelude.{◌≡◌, ◌<◌, All, length, map, slice_index, IfOk, IfErr, IsOkUnless};
ghost use Rattle.std.specs.List.{AllByRecursion};
ghost use Rattle.bz_base.specs.Answer.{Gives, reading};
ghost use Rattle.bz_base.specs.Lent.{IsLent};
ghost use Rattle.bz_base.specs.Refusals.{MayRefuse, WantsMemory};
ghost use Rattle.bz_base.specs.declared.error.Error.{Error};
ghost use Rattle.bz_lookups.specs.Batch.{MayWantMemory, answer_at, answers_there, answers_to, batch_by, heeds_order, single_by, version_of};
ghost use Rattle.bz_lookups.specs.Counted.{VersionSteps};
ghost use Rattle.bz_lookups.specs.Found.{AreFoundIn, IsFoundIn};

use crate::held::{Held, record_at};
use bz_base::{Addr, FindSymOpts, Result, Steps, Symbolized, in_batch};
use bz_breakpad::FoundRecord;
use std::alloc::Global;
use std::marker::Model;
use std::sync::ledger::Ledger;

/// Addresses whose source was looked at. Their answers are made one by one or some at a time. In a
/// Breakpad file the addresses were searched for already. GSYM and ELF are searched as each answer
/// is made. Answers lend their texts from the version that the look gave. It stays as long as this
/// does, whatever becomes of the file and of the symbolizer. Contracts see the addresses, the
/// version, and its answers.
#[derive(Drop)]
pub struct Lookups<'d> {
    held: Held<'d>,
    opts: FindSymOpts,
    addrs: Vec<u64>,
    // Which records were found for the addresses, where the format finds them beforehand.
    records: Vec<FoundRecord>,
}

impl<'d> Model for Lookups<'d> {
    ghost use Rattle.bz_lookups.specs.Batch.{Batch, batch_by, version_of};
    ghost use Rattle.bz_lookups.specs.Found.{AreFoundIn};

    ghost Value = { Batch };

    ghost view = { λ l. batch_by (version_of l.held) l.opts l.addrs.items };

    ghost invariant = { λ l. AreFoundIn (version_of l.held) l.addrs.items l.records.items };
}

impl<'d> Lookups<'d> {
    /// The addresses, with what is held to answer them. In a Breakpad file they are searched for at
    /// this call.
    pub fn find<L: Ledger>(
        alloc: Global,
        held: Held<'d>,
        opts: FindSymOpts,
        addrs: Vec<u64>,
        steps: &mut Steps<L>,
    ) -> Result<Lookups<'d>>
        ensures batch { IfOk result (λ lookups. lookups ≡ batch_by (version_of held.entry) opts addrs.items) }
        ensures steps { VersionSteps (version_of held.entry) (length addrs.items) steps.old steps.new }
        ensures memory { IsOkUnless result Error.OutOfMemory }
    {
        let records = held.find_records(alloc, &addrs, steps)?;
        Ok(Lookups {
            held,
            opts,
            addrs,
            records,
        })
    }

    /// The same, with no count of the steps.
    pub fn find_uncounted(
        alloc: Global,
        held: Held<'d>,
        opts: FindSymOpts,
        addrs: Vec<u64>,
    ) -> Result<Lookups<'d>>
        ensures batch { IfOk result (λ lookups. lookups ≡ batch_by (version_of held.entry) opts addrs.items) }
        ensures memory { IsOkUnless result Error.OutOfMemory }
    {
        let records = held.find_uncounted(alloc, &addrs)?;
        Ok(Lookups {
            held,
            opts,
            addrs,
            records,
        })
    }

    /// How many addresses there are.
    pub fn len(&self) -> usize
        ensures { result ≡ length self.now.addrs }
    {
        self.addrs.len()
    }

    /// Whether answers that are asked for together are found faster in the order of their addresses.
    pub fn heeds_order(&self) -> bool
        ensures { result ≡ heeds_order self.now.version }
    {
        match self.held {
            Held::Breakpad(_) => false,
            Held::Gsym(_) | Held::GsymData(_) | Held::Elf(_) => true,
        }
    }

    /// The address of an index.
    pub fn addr(&self, index: usize) -> Addr
        requires { index < length self.now.addrs }
        ensures { result ≡ slice_index self.now.addrs index }
    {
        self.addrs[index]
    }

    /// The answer at the address of an index, as a call on that address alone has it, or its refusal.
    pub fn single(&self, alloc: Global, index: usize) -> Result<Symbolized<'_>>
        requires { index < length self.now.addrs }
        ensures answer { Gives reading (single_by self.now.version self.now.opts (slice_index self.now.addrs index)) result }
        ensures lent { IfOk result IsLent }
        ensures refusal { IfErr result MayRefuse }
        ensures memory { IfErr result (WantsMemory (MayWantMemory self.now.version self.now.opts)) }
    {
        let found = record_at(&self.records, index);
        self.held
            .answer_by(alloc, &self.opts, self.addrs[index], found)
    }

    /// The answer at the address of an index; a refused address is an ignored error.
    pub fn answer(&self, alloc: Global, index: usize) -> Result<Symbolized<'_>>
        requires { index < length self.now.addrs }
        ensures answer { IfOk result (λ answer. reading answer ≡ answer_at self.now (slice_index self.now.addrs index)) }
        ensures lent { IfOk result IsLent }
        ensures memory { IsOkUnless result Error.OutOfMemory }
        ensures wants { IfErr result (WantsMemory (MayWantMemory self.now.version self.now.opts)) }
    {
        in_batch(self.single(alloc, index))
    }

    /// The answers at the addresses of some indices, in their order. What a Breakpad file says of them
    /// is read together, which is faster than one by one. A refused address is an ignored error.
    pub fn answers_of(&self, alloc: Global, indices: &[usize]) -> Result<Vec<Symbolized<'_>>>
        requires { All (λ index. index < length self.now.addrs) indices.now }
        ensures answers { IfOk result (λ answers. map reading answers.items ≡ answers_there indices.now self.now) }
        ensures lent { IfOk result (λ answers. AllByRecursion IsLent answers.items) }
        ensures memory { IsOkUnless result Error.OutOfMemory }
    {
        let some = self.found_at(alloc, indices)?;
        self.held
            .answers_by(alloc, &self.opts, &some.addrs, &some.records)
    }

    /// The answers at any addresses, in their order, which are searched for at this call. A refused
    /// address is an ignored error.
    pub fn answers_at(&self, alloc: Global, addrs: &[Addr]) -> Result<Vec<Symbolized<'_>>>
        ensures answers { IfOk result (λ answers. map reading answers.items ≡ answers_to addrs.now self.now) }
        ensures lent { IfOk result (λ answers. AllByRecursion IsLent answers.items) }
        ensures memory { IsOkUnless result Error.OutOfMemory }
    {
        let records = self.held.find_uncounted(alloc, addrs)?;
        self.held.answers_by(alloc, &self.opts, addrs, &records)
    }

    // The addresses of some indices, in their order, with the records that were found for them.
    fn found_at(&self, alloc: Global, indices: &[usize]) -> Result<Found>
        requires { All (λ index. index < length self.now.addrs) indices.now }
        ensures addrs { IfOk result (λ some. some.addrs.items ≡ map (λ index. slice_index self.now.addrs index) indices.now) }
        ensures found { IfOk result (λ some. AreFoundIn self.now.version some.addrs.items some.records.items) }
        ensures memory { IsOkUnless result Error.OutOfMemory }
    {
        let mut some = Found {
            addrs: Vec::with_capacity(alloc, indices.len())?,
            records: Vec::with_capacity(alloc, indices.len())?,
        };
        for index in indices {
            some.addrs.push(self.addr(*index))?;
            some.records.push(self.record(*index))?;
        }
        Ok(some)
    }

    // The record that was found for the address of an index.
    fn record(&self, index: usize) -> FoundRecord
        requires { index < length self.now.addrs }
        ensures { IsFoundIn self.now.version (slice_index self.now.addrs index) result }
    {
        record_at(&self.records, index)
    }
}

// Addresses of a batch, and what was found for them.
#[derive(Drop)]
struct Found {
    addrs: Vec<u64>,
    records: Vec<FoundRecord>,
}
