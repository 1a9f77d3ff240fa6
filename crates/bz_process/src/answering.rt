//! What answers addresses by the mappings of their process.

ghost use Rattle.std.specs.Prelude.{◌≡◌, ◌∷◌, []};
ghost use Rattle.bz_proc.specs.Maps.{mapping_of};
ghost use Rattle.bz_process.specs.Dispatch.{Keeps};
ghost use Rattle.bz_process.specs.Mapped.{AsksBatch, AsksSingle};
ghost use Rattle.bz_process.specs.ProcessAsk.{AddsAmong, AddsIn, AsksAddress, AsksAll, AsksMapping};
ghost use Rattle.bz_process.specs.Terms.{kept_by, terms_of};

use crate::dispatch::ProcessDispatch;
use crate::dispatching::Dispatching;
use crate::mapped::{Mapped, some_mappings};
use crate::mapped_file::answer_by_name;
use crate::perf_maps::PerfMaps;
use crate::query::ProcessQuestion;
use bz_base::{Addr, Pid, Reason, Result, Symbolized, in_batch};
use bz_cache::{FileCache, InsertMap};
use bz_elf::ElfFile;
use bz_files::Files;
use bz_proc::{Mappings, MapsEntry};
use std::alloc::Global;

/// What answers for processes beside the ELF files.
#[derive(Drop)]
pub(crate) struct Answerer<D: ProcessDispatch + Drop> {
    /// The perf maps, and what is remembered of processes.
    pub(crate) perf_maps: PerfMaps,
    /// A dispatcher with its answers.
    pub(crate) dispatching: Dispatching<D>,
}

impl<D: ProcessDispatch + Drop> Answerer<D> {
    /// The answers to addresses by the mappings that are kept, or else by those of the text that lies
    /// there.
    pub(crate) fn ask_batch<F: Files>(
        &mut self,
        mappings: &mut InsertMap<Pid, Mapped>,
        elf: &mut FileCache<ElfFile>,
        alloc: Global,
        files: &mut F,
        question: &ProcessQuestion<'_>,
        addrs: &[Addr],
    ) -> Result<Vec<Symbolized<'static>>>
        ensures asks { AsksBatch F.Files (terms_of D.ProcessDispatch D.Resolver.TranslateFileOffset D.Resolver.Symbolize self.old question.now (F.pid files.old)) mappings.old addrs.now result (kept_by elf.old self.old) (kept_by elf.new self.new) files.old files.new }
        ensures dispatch { self.new.dispatching.dispatch ≡ self.old.dispatching.dispatch }
        ensures mappings { mappings.new ≡ mappings.old }
    {
        let mapped = some_mappings(mappings, alloc, files, question.query.pid)?;
        self.answers_at(elf, alloc, files, question, mapped.mappings(), addrs)
    }

    /// The same for an address alone.
    pub(crate) fn ask_single<F: Files>(
        &mut self,
        mappings: &mut InsertMap<Pid, Mapped>,
        elf: &mut FileCache<ElfFile>,
        alloc: Global,
        files: &mut F,
        question: &ProcessQuestion<'_>,
        addr: Addr,
    ) -> Result<Symbolized<'static>>
        ensures asks { AsksSingle F.Files (terms_of D.ProcessDispatch D.Resolver.TranslateFileOffset D.Resolver.Symbolize self.old question.now (F.pid files.old)) mappings.old addr result (kept_by elf.old self.old) (kept_by elf.new self.new) files.old files.new }
        ensures dispatch { self.new.dispatching.dispatch ≡ self.old.dispatching.dispatch }
        ensures mappings { mappings.new ≡ mappings.old }
    {
        let mapped = some_mappings(mappings, alloc, files, question.query.pid)?;
        self.answer_at(elf, alloc, files, question, mapped.mappings(), addr)
    }

    // The answers to addresses by the mappings of their process, in their order; an address that is
    // refused is an ignored error. Where one fails, none after it is asked.
    fn answers_at<F: Files>(
        &mut self,
        elf: &mut FileCache<ElfFile>,
        alloc: Global,
        files: &mut F,
        question: &ProcessQuestion<'_>,
        mappings: &Mappings,
        addrs: &[Addr],
    ) -> Result<Vec<Symbolized<'static>>>
        ensures asks { AsksAll F.Files (terms_of D.ProcessDispatch D.Resolver.TranslateFileOffset D.Resolver.Symbolize self.old question.now (F.pid files.old)) mappings.now addrs.now result (kept_by elf.old self.old) (kept_by elf.new self.new) files.old files.new }
        ensures keeps { Keeps self.old.dispatching.answers self.new.dispatching.answers }
        ensures dispatch { self.new.dispatching.dispatch ≡ self.old.dispatching.dispatch }
    {
        let mut answers = Vec::with_capacity(alloc, addrs.len())?;
        for addr in addrs {
            let answer = self.answer_at(elf, alloc, files, question, mappings, *addr);
            let entry = in_batch(answer)?;
            answers.push(entry)?;
        }
        Ok(answers)
    }

    // The answer to an address by the mappings of its process.
    fn answer_at<F: Files>(
        &mut self,
        elf: &mut FileCache<ElfFile>,
        alloc: Global,
        files: &mut F,
        question: &ProcessQuestion<'_>,
        mappings: &Mappings,
        addr: Addr,
    ) -> Result<Symbolized<'static>>
        ensures asks { AsksAddress F.Files (terms_of D.ProcessDispatch D.Resolver.TranslateFileOffset D.Resolver.Symbolize self.old question.now (F.pid files.old)) mappings.now addr result (kept_by elf.old self.old) (kept_by elf.new self.new) files.old files.new }
        ensures keeps { Keeps self.old.dispatching.answers self.new.dispatching.answers }
        ensures adds { AddsAmong (D.may_dispatch self.old.dispatching.dispatch) mappings.now (addr ∷ []) self.old.dispatching.answers self.new.dispatching.answers }
        ensures dispatch { self.new.dispatching.dispatch ≡ self.old.dispatching.dispatch }
    {
        match mappings.owner_entry(addr) {
            None => Ok(Symbolized::Unknown(Reason::Unmapped)),
            Some(entry) => self.in_mapping(elf, alloc, files, question, entry, addr),
        }
    }

    // The answer to an address of a mapping. The resolver that is in charge of its name answers, or
    // else the mapped file itself; without a name the perf map does.
    fn in_mapping<F: Files>(
        &mut self,
        elf: &mut FileCache<ElfFile>,
        alloc: Global,
        files: &mut F,
        question: &ProcessQuestion<'_>,
        entry: &MapsEntry,
        addr: Addr,
    ) -> Result<Symbolized<'static>>
        ensures asks { AsksMapping F.Files (terms_of D.ProcessDispatch D.Resolver.TranslateFileOffset D.Resolver.Symbolize self.old question.now (F.pid files.old)) (mapping_of entry.now) addr result (kept_by elf.old self.old) (kept_by elf.new self.new) files.old files.new }
        ensures keeps { Keeps self.old.dispatching.answers self.new.dispatching.answers }
        ensures adds { AddsIn (D.may_dispatch self.old.dispatching.dispatch) (mapping_of entry.now) self.old.dispatching.answers self.new.dispatching.answers }
        ensures dispatch { self.new.dispatching.dispatch ≡ self.old.dispatching.dispatch }
    {
        match &entry.path_name {
            None => self
                .perf_maps
                .answer_without_name(alloc, files, question.query, addr),
            Some(name) => match self
                .dispatching
                .say(alloc, question.opts, entry, name, addr)?
            {
                Some(answer) => Ok(answer),
                None => answer_by_name(elf, alloc, files, question.query, entry, name, addr),
            },
        }
    }
}
