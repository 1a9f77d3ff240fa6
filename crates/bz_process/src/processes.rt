//! All that is kept to answer for processes, beside the ELF files.

ghost use Rattle.std.specs.Prelude.{◌≡◌};
ghost use Rattle.bz_base.specs.InputKind.{address_kind, payload};
ghost use Rattle.bz_process.specs.Asked.{asked_of};
ghost use Rattle.bz_process.specs.Processes.{PromisesBatch, PromisesSingle, new_processes};
ghost use Rattle.bz_process.specs.Terms.{terms_by};

use crate::answering::Answerer;
use crate::dispatch::ProcessDispatch;
use crate::dispatching::Dispatching;
use crate::mapped::Mapped;
use crate::perf_maps::PerfMaps;
use crate::query::{ProcessQuery, ProcessQuestion};
use bz_base::{Addr, Error, FindSymOpts, Input, Pid, Result, Symbolized};
use bz_cache::{FileCache, InsertMap};
use bz_elf::ElfFile;
use bz_files::Files;
use std::alloc::Global;
use std::marker::Model;

mod keeping;

/// What is kept to answer for processes: perf maps, what is remembered of processes, mappings, and a
/// dispatcher with its answers. The ELF files are handed in at each call, so that sources may share
/// them.
#[derive(Drop)]
pub struct Processes<D: ProcessDispatch + Drop> {
    answering: Answerer<D>,
    mappings: InsertMap<Pid, Mapped>,
}

impl<D: ProcessDispatch + Drop> Model for Processes<D> {
    ghost use Rattle.bz_process.specs.Processes.{AreWellKept, KeptProcesses, coded_processes};

    ghost Value = { KeptProcesses D D.Resolver };

    ghost coded = { coded_processes D.code D.Resolver.code };

    ghost view = { λ p. record { perf_maps = p.answering.perf_maps.files; ids = p.answering.perf_maps.ids; mappings = p.mappings; dispatcher = p.answering.dispatching.dispatch; answers = p.answering.dispatching.answers } };

    ghost invariant = { λ p. AreWellKept (D.may_dispatch p.answering.dispatching.dispatch) (record { perf_maps = p.answering.perf_maps.files; ids = p.answering.perf_maps.ids; mappings = p.mappings; dispatcher = p.answering.dispatching.dispatch; answers = p.answering.dispatching.answers }) };
}

impl<D: ProcessDispatch + Drop> Processes<D> {
    /// Nothing is kept yet. `reload` says whether perf maps are looked at anew at each call.
    pub fn new(alloc: Global, reload: bool, dispatch: D) -> Processes<D>
        ensures { result ≡ new_processes reload dispatch }
    {
        let files = FileCache::builder().enable_auto_reload(reload).build(alloc);
        Processes {
            answering: Answerer {
                perf_maps: PerfMaps {
                    files,
                    ids: InsertMap::new(alloc),
                },
                dispatching: Dispatching {
                    dispatch,
                    answers: InsertMap::new(alloc),
                },
            },
            mappings: InsertMap::new(alloc),
        }
    }

    /// The answers to addresses of a process, in their order; an address that is refused is an ignored
    /// error. Unsupported: the addresses aren't absolute. NotFound, PermissionDenied, InvalidData: no
    /// mappings are kept, and their text is absent, may not be read or isn't one of mappings.
    /// UnexpectedEof: there are no mappings. ReadFault: a file failed. OutOfMemory: memory ran out.
    /// Where an address fails, none after it is asked.
    pub fn symbolize<F: Files>(
        &mut self,
        elf: &mut FileCache<ElfFile>,
        alloc: Global,
        files: &mut F,
        query: &ProcessQuery,
        opts: &FindSymOpts,
        input: Input<&[Addr]>,
    ) -> Result<Vec<Symbolized<'static>>>
        ensures { PromisesBatch F.Files (terms_by D.ProcessDispatch D.Resolver.TranslateFileOffset D.Resolver.Symbolize self.old.dispatcher opts.now (asked_of (F.pid files.old) query.now)) (address_kind input.entry) (payload input.entry).now result elf.old elf.new self.old self.new files.old files.new }
    {
        match input {
            Input::AbsAddr(addrs) => {
                let question = ProcessQuestion { query, opts };
                self.answering
                    .ask_batch(&mut self.mappings, elf, alloc, files, &question, addrs)
            }
            Input::VirtOffset(_) | Input::FileOffset(_) => Err(Error::Unsupported),
        }
    }

    /// The answer to an address of a process alone, or its refusal. It is refused as a batch is, and
    /// then by what is looked at for the address. NotFound, PermissionDenied, InvalidData, Unsupported:
    /// the mapped file is absent, may not be read, or isn't an ELF file that is read. PermissionDenied,
    /// InvalidData: the status or the perf map may not be read, or isn't in its format. A dispatcher
    /// refuses as `dispatch` says, and a resolver by Unsupported, InvalidInput or InvalidData.
    pub fn symbolize_single<F: Files>(
        &mut self,
        elf: &mut FileCache<ElfFile>,
        alloc: Global,
        files: &mut F,
        query: &ProcessQuery,
        opts: &FindSymOpts,
        input: Input<Addr>,
    ) -> Result<Symbolized<'static>>
        ensures { PromisesSingle F.Files (terms_by D.ProcessDispatch D.Resolver.TranslateFileOffset D.Resolver.Symbolize self.old.dispatcher opts.now (asked_of (F.pid files.old) query.now)) (address_kind input) (payload input) result elf.old elf.new self.old self.new files.old files.new }
    {
        match input {
            Input::AbsAddr(addr) => {
                let question = ProcessQuestion { query, opts };
                self.answering
                    .ask_single(&mut self.mappings, elf, alloc, files, &question, addr)
            }
            Input::VirtOffset(_) | Input::FileOffset(_) => Err(Error::Unsupported),
        }
    }
}
