//! The symbolizer.

ghost use Rattle.std.specs.Prelude.{◌≡◌, ℕ, List, length, map, IfOk, IsErrOf};
ghost use Rattle.bz_base.specs.Answer.{reading};
ghost use Rattle.bz_base.specs.InputKind.{address_kind, payload};
ghost use Rattle.bz_base.specs.declared.error.Error.{Error};
ghost use Rattle.bz_lookups.specs.Batch.{answers_to};
ghost use Rattle.bz_process.specs.Processes.{new_processes};
ghost use Rattle.bz_symbolize.specs.Counted.{SourceSteps};
ghost use Rattle.bz_symbolize.specs.FileCall.{batch_of, batch_query, single_query};
ghost use Rattle.bz_symbolize.specs.OfProcess.{AddressOfProcess, BatchOfProcess};
ghost use Rattle.bz_symbolize.specs.Promise.{Symbolizes};
ghost use Rattle.bz_symbolize.specs.Registration.{Registers};
ghost use Rattle.bz_symbolize.specs.Sources.{OnProcess};
ghost use Rattle.bz_symbolize.specs.State.{default_settings, new_state, new_whole};

use crate::builder::Builder;
use crate::kept_files::KeptFiles;
use crate::settings::Settings;
use crate::source::Source;
use bz_base::{Input, Result, Steps, Symbolized};
use bz_elf::ElfResolver;
use bz_files::Files;
use bz_lookups::Lookups;
use bz_process::{NoDispatch, ProcessDispatch, Processes};
use std::alloc::Global;
use std::marker::Model;
use std::rc::Rc;
use std::sync::ledger::Ledger;

mod keeping;

/// Answers addresses, alone or in batches, and keeps the files that it has read. Of what processes
/// have mapped, the resolvers that its dispatcher gives answer too.
#[derive(Drop)]
pub struct Symbolizer<D: ProcessDispatch + Drop = NoDispatch> {
    files: KeptFiles,
    processes: Processes<D>,
}

impl<D: ProcessDispatch + Drop> Model for Symbolizer<D> {
    ghost use Rattle.bz_symbolize.specs.State.{IsSetAlike, WholeState, coded_whole};

    ghost Value = { WholeState D D.Resolver };

    ghost coded = { coded_whole D.code D.Resolver.code };

    ghost view = { λ s. record { files = s.files; processes = s.processes } };

    ghost invariant = { λ s. IsSetAlike (record { files = s.files; processes = s.processes }) };
}

impl Symbolizer<NoDispatch> {
    /// A symbolizer that keeps nothing yet, with all features on.
    pub fn new(alloc: Global) -> Symbolizer<NoDispatch>
        ensures files { result.files ≡ new_state default_settings }
        ensures processes { result.processes ≡ new_processes default_settings.reload result.processes.dispatcher }
    {
        Builder::new().build(alloc)
    }

    /// A builder with all features on.
    pub fn builder() -> Builder<NoDispatch>
        ensures { result.settings ≡ default_settings }
    {
        Builder::new()
    }
}

impl<D: ProcessDispatch + Drop> Symbolizer<D> {
    // A symbolizer that keeps nothing yet, with these settings and this dispatcher.
    pub(crate) fn with_settings(alloc: Global, settings: Settings, dispatcher: D) -> Symbolizer<D>
        ensures { result ≡ new_whole settings dispatcher }
    {
        let processes = Processes::new(alloc, settings.reload, dispatcher);
        let files = KeptFiles::new(alloc, settings);
        Symbolizer { files, processes }
    }

    /// The answers of the source to the addresses, in their order; an address that is refused is an
    /// ignored error. An empty batch looks at its file too. A call is refused by `Unsupported` where
    /// the source doesn't take the kind of address. It is refused by `NotFound`, `PermissionDenied` and
    /// `ReadFault` where its file is absent, may not be read or can't be. Bytes outside the format are
    /// refused as the format says, and `OutOfMemory` may come. A refused call on a file leaves the
    /// symbolizer as it was, with two exceptions. Where memory ran out, the file may have been taken
    /// in. An ELF file that is asked for addresses of a process is taken in, since it refuses them
    /// after the look.
    ///
    /// The file of a process is the text of its mappings. Where there are none, the call is refused by
    /// `UnexpectedEof`. A mapped file that can't be read refuses its addresses alone, but `ReadFault`
    /// and `OutOfMemory` refuse the call. What was looked at before such a refusal stays looked at.
    pub fn symbolize<F: Files>(
        &mut self,
        alloc: Global,
        files: &mut F,
        src: &Source<'_>,
        input: Input<&[u64]>,
    ) -> Result<Vec<Symbolized<'static>>>
        ensures call { Symbolizes F.Files (λ answers. map reading answers.items) src.now (batch_query input.entry) result self.old.files self.new.files files.old files.new }
        ensures process { BatchOfProcess F.Files (λ answers. map reading answers.items) (D.may_dispatch self.old.processes.dispatcher) D.Resolver.TranslateFileOffset D.Resolver.Symbolize src.now (address_kind input.entry) (payload input.entry).now result self.old self.new files.old files.new }
    {
        match src.query() {
            Some(query) => {
                self.files
                    .symbolize_process(&mut self.processes, alloc, files, &query, input)
            }
            None => self.files.symbolize(alloc, files, src, input),
        }
    }

    /// The answer of the source to an address alone. Beside the refusals of a batch its address may be
    /// refused, as one is whose line record names no file. The file is then taken in as by an answered
    /// call. An address in a process may be refused by the mapped file, the status, the perf map, the
    /// dispatcher or its resolver.
    pub fn symbolize_single<F: Files>(
        &mut self,
        alloc: Global,
        files: &mut F,
        src: &Source<'_>,
        input: Input<u64>,
    ) -> Result<Symbolized<'static>>
        ensures call { Symbolizes F.Files reading src.now (single_query input) result self.old.files self.new.files files.old files.new }
        ensures process { AddressOfProcess F.Files reading (D.may_dispatch self.old.processes.dispatcher) D.Resolver.TranslateFileOffset D.Resolver.Symbolize src.now (address_kind input) (payload input) result self.old self.new files.old files.new }
    {
        match src.query() {
            Some(query) => {
                self.files
                    .symbolize_process_single(&mut self.processes, alloc, files, &query, input)
            }
            None => self.files.symbolize_single(alloc, files, src, input),
        }
    }

    /// The same answers as `symbolize`, made one by one or some at a time. They lend their texts
    /// from the version of the file that the call found. So neither a list of them nor texts of
    /// their own are in memory. In a Breakpad file the addresses are searched for at this call, and
    /// the steps are counted. Making the answers then searches no more. GSYM and ELF are searched
    /// as each answer is made, with no count. A process, whose answers are of many files, is
    /// refused by `Unsupported`.
    pub fn look_up<'d, F: Files, L: Ledger>(
        &mut self,
        alloc: Global,
        files: &mut F,
        src: &Source<'d>,
        input: Input<Vec<u64>>,
        steps: &mut Steps<L>,
    ) -> Result<Lookups<'d>>
        ensures call { Symbolizes F.Files (λ lookups. lookups.answers) src.now (batch_of (address_kind input) (payload input).items) result self.old.files self.new.files files.old files.new }
        // At any other addresses it answers as the same call with these would have.
        ensures every { (others : List ℕ) → Symbolizes F.Files (answers_to others) src.now (batch_of (address_kind input) others) result self.old.files self.new.files files.old files.new }
        ensures process { OnProcess src.now (λ _. IsErrOf result Error.Unsupported × (self.new ≡ self.old) × (files.new ≡ files.old)) }
        ensures processes { self.new.processes ≡ self.old.processes }
        ensures addrs { IfOk result (λ lookups. lookups.addrs ≡ (payload input).items) }
        ensures steps { SourceSteps src.now self.new.files (length (payload input).items) steps.old steps.new }
    {
        self.files.look_up(alloc, files, src, input, steps)
    }

    /// The same answers as `symbolize`, with a count of the steps of their searches. Only searches in
    /// Breakpad files are counted.
    pub fn symbolize_counted<F: Files, L: Ledger>(
        &mut self,
        alloc: Global,
        files: &mut F,
        src: &Source<'_>,
        input: Input<&[u64]>,
        steps: &mut Steps<L>,
    ) -> Result<Vec<Symbolized<'static>>>
        ensures call { Symbolizes F.Files (λ answers. map reading answers.items) src.now (batch_query input.entry) result self.old.files self.new.files files.old files.new }
        ensures process { BatchOfProcess F.Files (λ answers. map reading answers.items) (D.may_dispatch self.old.processes.dispatcher) D.Resolver.TranslateFileOffset D.Resolver.Symbolize src.now (address_kind input.entry) (payload input.entry).now result self.old self.new files.old files.new }
        ensures steps { SourceSteps src.now self.new.files (length (payload input.entry).now) steps.old steps.new }
    {
        match src.query() {
            Some(query) => {
                self.files
                    .symbolize_process(&mut self.processes, alloc, files, &query, input)
            }
            None => {
                self.files
                    .symbolize_counted(alloc, files, src, input, steps)
            }
        }
    }

    /// Takes in the file of a resolver as the ELF file at the path, under the path's present stamp,
    /// without reading the file there. ELF sources at the path are then answered by the resolver's
    /// file, while the path is at that stamp and this stamp stays kept. It is refused by
    /// `AlreadyExists` where a version with the present stamp is kept, or where the path is held
    /// and isn't looked at anew. It is refused by `NotFound`, `PermissionDenied` and `ReadFault` as
    /// a look at the path is, and by `OutOfMemory`. After a refusal the symbolizer is as before.
    pub fn register_elf_resolver<F: Files>(
        &mut self,
        alloc: Global,
        files: &mut F,
        path: &str,
        resolver: Rc<ElfResolver>,
    ) -> Result<()>
        ensures call { Registers F.Files path.now resolver.value.bytes result self.old.files self.new.files files.old files.new }
        ensures processes { self.new.processes ≡ self.old.processes }
    {
        self.files
            .register_elf_resolver(alloc, files, path, resolver)
    }
}
