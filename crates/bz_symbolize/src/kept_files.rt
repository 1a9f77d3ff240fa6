//! The files that a symbolizer keeps, and what they answer.

ghost use Rattle.std.specs.Prelude.{◌≡◌, ◌⊎◌, ℕ, List, length, map, IfOk, IfErr, IsErrOf, IsOkUnless};
ghost use Rattle.bz_base.specs.Answer.{Gives, reading};
ghost use Rattle.bz_base.specs.InputKind.{address_kind, payload};
ghost use Rattle.bz_base.specs.Refusals.{MayRefuse};
ghost use Rattle.bz_base.specs.declared.error.Error.{Error};
ghost use Rattle.bz_base.specs.declared.types.FindSymOpts.{FindSymOpts};
ghost use Rattle.bz_cache.specs.Cache.{Consistent, new_cache};
ghost use Rattle.bz_cache.specs.Eviction.{evicted};
ghost use Rattle.bz_cache.specs.Pinning.{PinsFile};
ghost use Rattle.bz_elf.specs.Format as elf_format;
ghost use Rattle.bz_lookups.specs.Batch.{answers_to, entry_by, held_singles, single_by, version_of};
ghost use Rattle.bz_lookups.specs.Counted.{TakesSteps, VersionSteps};
ghost use Rattle.bz_process.specs.Asked.{asked_of};
ghost use Rattle.bz_process.specs.Processes.{SymbolizesAddress, SymbolizesProcess};
ghost use Rattle.bz_symbolize.specs.Counted.{SourceSteps};
ghost use Rattle.bz_symbolize.specs.FileCall.{batch_of, batch_query, each_of, single_query};
ghost use Rattle.bz_symbolize.specs.Promise.{AsksSource, Symbolizes};
ghost use Rattle.bz_symbolize.specs.Registration.{Registers};
ghost use Rattle.bz_symbolize.specs.Sources.{OnProcess};
ghost use Rattle.bz_symbolize.specs.State.{WellKept, new_state, opts_of};

use crate::settings::Settings;
use crate::source::{Gsym, Source};
use bz_base::{Addr, Error, FindSymOpts, Input, Result, Steps, Symbolized};
use bz_breakpad::SymbolFile;
use bz_cache::{FileCache, Version, pin_file};
use bz_elf::{ElfFile, ElfResolver};
use bz_files::Files;
use bz_gsym::GsymTable;
use bz_lookups::{Held, Lookups, hold_data, hold_file};
use bz_process::{ProcessDispatch, ProcessQuery, Processes};
use std::alloc::Global;
use std::marker::Model;
use std::rc::Rc;
use std::sync::ledger::Ledger;

/// The settings of a symbolizer, and the files of sources that it keeps, of each format. Here sources
/// that are files are answered, and bytes that are handed in.
#[derive(Drop)]
pub(crate) struct KeptFiles {
    settings: Settings,
    breakpad: FileCache<SymbolFile>,
    gsym: FileCache<GsymTable>,
    elf: FileCache<ElfFile>,
}

impl Model for KeptFiles {
    ghost use Rattle.bz_symbolize.specs.State.{State, WellKept, coded_state};

    ghost Value = { State };

    ghost coded = { coded_state };

    ghost view = { λ s. record { settings = s.settings; breakpad = s.breakpad; gsym = s.gsym; elf = s.elf } };

    ghost invariant = { λ s. WellKept (record { settings = s.settings; breakpad = s.breakpad; gsym = s.gsym; elf = s.elf }) };
}

impl KeptFiles {
    /// Nothing is kept yet, with these settings.
    pub(crate) fn new(alloc: Global, settings: Settings) -> KeptFiles
        ensures { result ≡ new_state settings }
    {
        let breakpad = empty_cache(alloc, settings.reload);
        let gsym = empty_cache(alloc, settings.reload);
        let elf = empty_cache(alloc, settings.reload);
        KeptFiles {
            settings,
            breakpad,
            gsym,
            elf,
        }
    }

    /// The answers of the source to the addresses, in their order; an address that is refused is an
    /// ignored error. A process has no version here, and is refused by `Unsupported`.
    pub(crate) fn symbolize<F: Files>(
        &mut self,
        alloc: Global,
        files: &mut F,
        src: &Source<'_>,
        input: Input<&[u64]>,
    ) -> Result<Vec<Symbolized<'static>>>
        ensures { Symbolizes F.Files (λ answers. map reading answers.items) src.now (batch_query input.entry) result self.old self.new files.old files.new }
    {
        let opts = self.settings.opts();
        let held = self.hold(alloc, files, src, &input)?;
        answer_batch(alloc, held, opts, input.into_inner())
    }

    /// The answer of the source to an address alone.
    pub(crate) fn symbolize_single<F: Files>(
        &mut self,
        alloc: Global,
        files: &mut F,
        src: &Source<'_>,
        input: Input<u64>,
    ) -> Result<Symbolized<'static>>
        ensures { Symbolizes F.Files reading src.now (single_query input) result self.old self.new files.old files.new }
    {
        let opts = self.settings.opts();
        let held = self.hold(alloc, files, src, &input)?;
        answer_alone(alloc, held, opts, input.into_inner())
    }

    /// The addresses, with the version that answers them. In a Breakpad file they are searched for
    /// at this call, with a count of the steps.
    pub(crate) fn look_up<'d, F: Files, L: Ledger>(
        &mut self,
        alloc: Global,
        files: &mut F,
        src: &Source<'d>,
        input: Input<Vec<u64>>,
        steps: &mut Steps<L>,
    ) -> Result<Lookups<'d>>
        ensures call { Symbolizes F.Files (λ lookups. lookups.answers) src.now (batch_of (address_kind input) (payload input).items) result self.old self.new files.old files.new }
        // At any other addresses it answers as the same call with these would have.
        ensures every { (others : List ℕ) → Symbolizes F.Files (answers_to others) src.now (batch_of (address_kind input) others) result self.old self.new files.old files.new }
        ensures process { OnProcess src.now (λ _. IsErrOf result Error.Unsupported × (self.new ≡ self.old) × (files.new ≡ files.old)) }
        ensures addrs { IfOk result (λ lookups. lookups.addrs ≡ (payload input).items) }
        ensures steps { SourceSteps src.now self.new (length (payload input).items) steps.old steps.new }
    {
        let opts = self.settings.opts();
        let held = self.hold(alloc, files, src, &input)?;
        Lookups::find(alloc, held, opts, input.into_inner(), steps)
    }

    /// The same answers as `symbolize`, with a count of the steps of their searches.
    pub(crate) fn symbolize_counted<F: Files, L: Ledger>(
        &mut self,
        alloc: Global,
        files: &mut F,
        src: &Source<'_>,
        input: Input<&[u64]>,
        steps: &mut Steps<L>,
    ) -> Result<Vec<Symbolized<'static>>>
        ensures call { Symbolizes F.Files (λ answers. map reading answers.items) src.now (batch_query input.entry) result self.old self.new files.old files.new }
        ensures steps { SourceSteps src.now self.new (length (payload input.entry).now) steps.old steps.new }
    {
        let opts = self.settings.opts();
        let held = self.hold(alloc, files, src, &input)?;
        count_batch(alloc, held, opts, input.into_inner(), steps)
    }

    /// Takes in the file of a resolver as the ELF file at the path.
    pub(crate) fn register_elf_resolver<F: Files>(
        &mut self,
        alloc: Global,
        files: &mut F,
        path: &str,
        resolver: Rc<ElfResolver>,
    ) -> Result<()>
        ensures { Registers F.Files path.now resolver.value.bytes result self.old self.new files.old files.new }
    {
        let cache = &mut self.elf;
        let file = resolver.as_ref().file().clone()?;
        cache.insert_value(alloc, files, path, file)
    }

    /// Looks at the ELF file at the path as if the path weren't pinned, and pins it.
    pub(crate) fn pin_elf<F: Files>(
        &mut self,
        alloc: Global,
        files: &mut F,
        path: &str,
    ) -> Result<()>
        ensures pins { PinsFile F.Files elf_format.format_test path.now result self.old.elf self.new.elf files.old files.new }
        ensures rest { self.new ≡ record self.old { elf = self.new.elf } }
        ensures found { Consistent elf_format.format_test self.old.elf }
    {
        pin_file(&mut self.elf, alloc, files, path)
    }

    /// Forgets the ELF file at the path.
    pub(crate) fn forget_elf(&mut self, path: &str)
        ensures { self.new ≡ record self.old { elf = evicted self.old.elf path.now } }
    {
        let _dropped = self.elf.evict(path);
    }

    /// The answers of a process, which may look at ELF files.
    pub(crate) fn symbolize_process<D: ProcessDispatch + Drop, F: Files>(
        &mut self,
        processes: &mut Processes<D>,
        alloc: Global,
        files: &mut F,
        query: &ProcessQuery,
        input: Input<&[u64]>,
    ) -> Result<Vec<Symbolized<'static>>>
        ensures asked { SymbolizesProcess F.Files (λ answers. map reading answers.items) (D.may_dispatch processes.old.dispatcher) D.Resolver.TranslateFileOffset D.Resolver.Symbolize (opts_of self.old.settings) (asked_of (F.pid files.old) query.now) (address_kind input.entry) (payload input.entry).now result self.old.elf self.new.elf processes.old processes.new files.old files.new }
        ensures rest { self.new ≡ record self.old { elf = self.new.elf } }
        ensures caches { WellKept self.new }
    {
        let opts = self.settings.opts();
        processes.symbolize(&mut self.elf, alloc, files, query, &opts, input)
    }

    /// The answer of a process to an address alone.
    pub(crate) fn symbolize_process_single<D: ProcessDispatch + Drop, F: Files>(
        &mut self,
        processes: &mut Processes<D>,
        alloc: Global,
        files: &mut F,
        query: &ProcessQuery,
        input: Input<u64>,
    ) -> Result<Symbolized<'static>>
        ensures asked { SymbolizesAddress F.Files reading (D.may_dispatch processes.old.dispatcher) D.Resolver.TranslateFileOffset D.Resolver.Symbolize (opts_of self.old.settings) (asked_of (F.pid files.old) query.now) (address_kind input) (payload input) result self.old.elf self.new.elf processes.old processes.new files.old files.new }
        ensures rest { self.new ≡ record self.old { elf = self.new.elf } }
        ensures caches { WellKept self.new }
    {
        let opts = self.settings.opts();
        processes.symbolize_single(&mut self.elf, alloc, files, query, &opts, input)
    }

    // The version of the source that answers at this call, held to answer addresses of the input's
    // kind. Here each source is matched to the cache of its format. A process has no version.
    fn hold<'d, F: Files, A>(
        &mut self,
        alloc: Global,
        files: &mut F,
        src: &Source<'d>,
        input: &Input<A>,
    ) -> Result<Held<'d>>
        ensures asked { (opts : FindSymOpts) → AsksSource F.Files (held_singles opts) src.now opts (each_of (address_kind input.now)) result self.old self.new files.old files.new }
        ensures process { OnProcess src.now (λ _. IsErrOf result Error.Unsupported × (self.new ≡ self.old) × (files.new ≡ files.old)) }
        ensures steps { IfOk result (λ held. TakesSteps (version_of held) (SourceSteps src.now self.new)) }
    {
        match src {
            Source::Breakpad(source) => {
                let path = source.path.as_str();
                hold_file(&mut self.breakpad, alloc, files, path, input)
            }
            Source::Gsym(Gsym::File(source)) => {
                let path = source.path.as_str();
                hold_file(&mut self.gsym, alloc, files, path, input)
            }
            Source::Elf(source) => {
                let path = source.path.as_str();
                hold_file(&mut self.elf, alloc, files, path, input)
            }
            Source::Gsym(Gsym::Data(source)) => hold_data(source.bytes, input),
            Source::Process(_) => Err(Error::Unsupported),
        }
    }
}

// The answers of what is held to addresses, with texts of their own.
fn answer_batch(
    alloc: Global,
    held: Held<'_>,
    opts: FindSymOpts,
    addrs: &[u64],
) -> Result<Vec<Symbolized<'static>>>
    ensures answers { IfOk result (λ answers. map reading answers.items ≡ map (λ addr. entry_by (version_of held.entry) opts addr) addrs.now) }
    ensures memory { IsOkUnless result Error.OutOfMemory }
{
    let addrs = Vec::from_slice(alloc, addrs)?;
    let lookups = Lookups::find_uncounted(alloc, held, opts, addrs)?;
    lookups.owned_answers(alloc)
}

// The same, with a count of the steps of their searches.
fn count_batch<L: Ledger>(
    alloc: Global,
    held: Held<'_>,
    opts: FindSymOpts,
    addrs: &[u64],
    steps: &mut Steps<L>,
) -> Result<Vec<Symbolized<'static>>>
    ensures answers { IfOk result (λ answers. map reading answers.items ≡ map (λ addr. entry_by (version_of held.entry) opts addr) addrs.now) }
    ensures steps { (steps.new ≡ steps.old) ⊎ VersionSteps (version_of held.entry) (length addrs.now) steps.old steps.new }
    ensures memory { IsOkUnless result Error.OutOfMemory }
{
    let addrs = Vec::from_slice(alloc, addrs)?;
    let lookups = Lookups::find(alloc, held, opts, addrs, steps)?;
    lookups.owned_answers(alloc)
}

// The answer of what is held to an address alone, or its refusal, with texts of its own.
fn answer_alone(
    alloc: Global,
    held: Held<'_>,
    opts: FindSymOpts,
    addr: Addr,
) -> Result<Symbolized<'static>>
    ensures answer { Gives reading (single_by (version_of held.entry) opts addr) result }
    ensures refusal { IfErr result MayRefuse }
{
    let answer = held.single(alloc, &opts, addr)?;
    answer.into_owned(alloc)
}

// A cache that keeps nothing.
fn empty_cache<T: Version + Drop>(alloc: Global, reload: bool) -> FileCache<T>
    ensures { result ≡ new_cache reload }
{
    FileCache::builder().enable_auto_reload(reload).build(alloc)
}
