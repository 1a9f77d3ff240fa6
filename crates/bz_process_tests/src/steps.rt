//! Stories: steps that follow one another over the same files and processes.

use crate::files::{File, put, replace};
use bz_base::{Addr, Error, FindSymOpts, Input, Pid, Reason, Sym, Symbolized};
use bz_cache::{FileCache, pin_file};
use bz_elf::ElfFile;
use bz_files::MemFiles;
use bz_process::{ProcessCaching, ProcessDispatch, ProcessQuery, Processes};
use std::alloc::Global;

/// What is told of an address, or of a batch that is refused.
pub(crate) enum Told {
    /// The symbol of this name starts there and has 16 bytes, of which the address is the ninth. It is
    /// of this module; an empty text is none.
    Symbol(&'static str, Addr, &'static str),
    /// There is no symbol, for this reason.
    Unknown(Reason),
    /// The call is refused.
    Refused(Error),
}

/// What is done, or what a call has to answer.
pub(crate) enum Step {
    /// These are the only files, and nobody looked at them yet.
    Files(&'static [File]),
    /// The bytes are put at the path.
    Put(&'static str, &'static [u8]),
    /// What lies at the path is taken away.
    Remove(&'static str),
    /// The file at the path may not be read.
    Deny(&'static str),
    /// The look of this number fails.
    Fail(u64),
    /// So many files were read.
    Opens(u64),
    /// So many looks failed.
    Faults(u64),
    /// Whether the mappings and the perf map of process 7 are cached, and the answer.
    Cache(bool, bool, Result<(), Error>),
    /// Process 7 is evicted.
    Evict,
    /// The dispatcher's answers for the path are forgotten.
    ForgetPath(&'static str),
    /// This is told of an address of process 7 alone.
    Alone(Addr, Told),
    /// The same, where its perf map isn't asked.
    AloneWithoutPerfMap(Addr, Told),
    /// The same, where mapped files are looked at by their own paths.
    AloneByOwnPath(Addr, Told),
    /// This is told of a batch of addresses of process 7. A refusal stands by itself.
    Batch(Input<&'static [Addr]>, &'static [Told]),
    /// The file at the path is pinned among the ELF files, and the answer.
    PinFile(&'static str, Result<(), Error>),
    /// Whether the file at the path answers that it is an ELF file.
    IsElf(&'static str, bool),
    /// The path is evicted from the ELF files.
    EvictFile(&'static str),
}

/// Whether the symbol has this name, this start and this module.
fn is_symbol(symbol: &Sym<'_>, name: &str, start: Addr, module: &str) -> bool {
    symbol.name.as_str() == name
        && symbol.addr == start
        && symbol.offset == 8
        && symbol.size == Some(16)
        && match &symbol.module {
            Some(found) => found.as_str() == module,
            None => module.is_empty(),
        }
}

/// Whether an answer tells this.
fn is_told(answer: &Symbolized<'_>, told: &Told) -> bool {
    match told {
        Told::Symbol(name, start, module) => match answer {
            Symbolized::Sym(symbol) => is_symbol(symbol, name, *start, module),
            Symbolized::Unknown(_) => false,
        },
        Told::Unknown(want) => match answer {
            Symbolized::Sym(_) => false,
            Symbolized::Unknown(reason) => reason == want,
        },
        Told::Refused(_) => false,
    }
}

/// Whether all answers tell this, in this order.
fn are_told(answers: &[Symbolized<'_>], all: &[Told]) -> bool {
    if answers.len() != all.len() {
        return false;
    }
    for index in 0..all.len() {
        if !is_told(&answers[index], &all[index]) {
            return false;
        }
    }
    true
}

/// Whether this is the refusal.
fn is_refusal(error: Error, told: &Told) -> bool {
    match told {
        Told::Refused(want) => error == *want,
        _ => false,
    }
}

/// Whether an address alone is answered or refused so.
pub(crate) fn is_given(answer: Result<Symbolized<'_>, Error>, told: &Told) -> bool {
    match answer {
        Ok(answer) => is_told(&answer, told),
        Err(error) => is_refusal(error, told),
    }
}

/// Whether a batch is answered so, or its refusal is all that is told.
pub(crate) fn are_given(answers: Result<Vec<Symbolized<'_>>, Error>, told: &[Told]) -> bool {
    match answers {
        Ok(answers) => are_told(&answers, told),
        Err(error) => told.len() == 1 && is_refusal(error, &told[0]),
    }
}

/// How process 7 is asked: whether its perf map answers, and whether mapped files are looked at by the
/// paths that stand for their mappings.
type Asked = (bool, bool);

/// What asks process 7 so.
fn query((perf_map, map_files): Asked) -> ProcessQuery {
    ProcessQuery {
        pid: Pid::from(7),
        perf_map,
        map_files,
    }
}

/// Whether this is told of an address alone.
fn alone_tells<D: ProcessDispatch + Drop>(
    alloc: Global,
    files: &mut MemFiles,
    elf: &mut FileCache<ElfFile>,
    processes: &mut Processes<D>,
    asked: Asked,
    addr: Addr,
    told: &Told,
) -> bool {
    let query = query(asked);
    let input = Input::AbsAddr(addr);
    is_given(
        processes.symbolize_single(elf, alloc, files, &query, &FindSymOpts::Basic, input),
        told,
    )
}

/// Whether this is told of a batch.
fn batch_tells<D: ProcessDispatch + Drop>(
    alloc: Global,
    files: &mut MemFiles,
    elf: &mut FileCache<ElfFile>,
    processes: &mut Processes<D>,
    input: Input<&[Addr]>,
    told: &[Told],
) -> bool {
    let query = query((true, true));
    are_given(
        processes.symbolize(elf, alloc, files, &query, &FindSymOpts::Basic, input),
        told,
    )
}

/// Caches the mappings and the perf map of process 7, as far as is asked.
fn cache<D: ProcessDispatch + Drop>(
    alloc: Global,
    files: &mut MemFiles,
    processes: &mut Processes<D>,
    cache_vmas: bool,
    cache_perf_map: bool,
) -> Result<(), Error> {
    let caching = ProcessCaching {
        pid: Pid::from(7),
        cache_vmas,
        cache_perf_map,
    };
    processes.cache(alloc, files, &caching)
}

/// Takes a step that asks for nothing but the files. Says whether what it says is so.
fn files_step_holds(alloc: Global, files: &mut MemFiles, step: &Step) -> bool {
    match step {
        Step::Files(all) => replace(alloc, files, all),
        Step::Put(path, bytes) => put(alloc, files, path, bytes),
        Step::Remove(path) => files.remove(path),
        Step::Deny(path) => files.deny(alloc, path).is_ok(),
        Step::Fail(look) => files.fail_call(alloc, *look).is_ok(),
        Step::Opens(count) => files.opens() == *count,
        Step::Faults(count) => files.faults() == *count,
        _ => false,
    }
}

/// The same of one that asks for ELF files too.
fn elf_step_holds(
    alloc: Global,
    files: &mut MemFiles,
    elf: &mut FileCache<ElfFile>,
    step: &Step,
) -> bool {
    match step {
        Step::PinFile(path, want) => pin_file(elf, alloc, files, path) == *want,
        Step::IsElf(path, want) => elf.entry(alloc, files, path).is_ok() == *want,
        Step::EvictFile(path) => {
            elf.evict(path);
            true
        }
        _ => files_step_holds(alloc, files, step),
    }
}

/// Takes a step. Says whether what it says is so.
fn step_holds<D: ProcessDispatch + Drop>(
    alloc: Global,
    files: &mut MemFiles,
    elf: &mut FileCache<ElfFile>,
    processes: &mut Processes<D>,
    step: &Step,
) -> bool {
    match step {
        Step::Cache(mappings, perf_map, want) => {
            cache(alloc, files, processes, *mappings, *perf_map) == *want
        }
        Step::Evict => {
            processes.evict_process(Pid::from(7));
            true
        }
        Step::ForgetPath(path) => {
            processes.forget_path(path);
            true
        }
        Step::Alone(addr, told) => {
            alone_tells(alloc, files, elf, processes, (true, true), *addr, told)
        }
        Step::AloneWithoutPerfMap(addr, told) => {
            alone_tells(alloc, files, elf, processes, (false, true), *addr, told)
        }
        Step::AloneByOwnPath(addr, told) => {
            alone_tells(alloc, files, elf, processes, (true, false), *addr, told)
        }
        Step::Batch(input, told) => batch_tells(alloc, files, elf, processes, *input, told),
        _ => elf_step_holds(alloc, files, elf, step),
    }
}

/// Whether all steps of a story hold, one after another. At first there are no files and nothing is
/// kept.
pub(crate) fn holds<D: ProcessDispatch + Drop>(
    alloc: Global,
    dispatch: D,
    story: &[&[Step]],
) -> bool {
    let mut files = MemFiles::new(alloc, 0);
    let mut elf = FileCache::builder().build(alloc);
    let mut processes = Processes::new(alloc, true, dispatch);
    all_hold(alloc, &mut files, &mut elf, &mut processes, story)
}

/// Takes the steps of a story, up to one that doesn't hold. Says whether all hold.
fn all_hold<D: ProcessDispatch + Drop>(
    alloc: Global,
    files: &mut MemFiles,
    elf: &mut FileCache<ElfFile>,
    processes: &mut Processes<D>,
    story: &[&[Step]],
) -> bool {
    for part in story {
        for step in *part {
            if !step_holds(alloc, files, elf, processes, step) {
                return false;
            }
        }
    }
    true
}
