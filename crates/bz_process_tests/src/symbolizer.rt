//! Processes, asked through a symbolizer.

ghost use Rattle.std.specs.Prelude.{◌≡◌, ◌<◌};

use crate::answers::{ADDRS, MAPPED_FILE, TOLD};
use crate::calling::answers_in;
use crate::files::{File, replace};
use crate::steps::{Told, are_given, is_given};
use bz_base::Input::{AbsAddr, VirtOffset};
use bz_base::{Addr, Error, Input, Pid, Steps};
use bz_files::MemFiles;
use bz_process::ProcessDispatch;
use bz_samples::PROCESS_FILES;
use bz_symbolize::Symbolizer;
use bz_symbolize::source::{Elf, Process, Source};
use std::alloc::Global;
use std::marker::Brand;
use std::sync::ledger::{Blank, Ledger};

/// What is done, or what a symbolizer has to answer.
pub(crate) enum Step {
    /// These are the only files, and nobody looked at them yet.
    Files(&'static [File]),
    /// So many files were read.
    Opens(u64),
    /// This is told of an address of process 7 alone.
    Alone(Input<Addr>, Told),
    /// The same, where mapped files are looked at by their own paths.
    AloneByOwnPath(Input<Addr>, Told),
    /// This is told of an address of the ELF file at `/bin/e` alone.
    OfFile(Input<Addr>, Told),
    /// This is told of a batch of addresses of process 7.
    Batch(&'static [Addr], &'static [Told]),
    /// The same, with a count of its steps.
    Counted(&'static [Addr], &'static [Told]),
    /// A caller with a symbolizer of its own is told this of them.
    Called(&'static [Addr], &'static [Told]),
    /// Looking up a batch of them is refused so.
    LookedUp(&'static [Addr], Error),
}

/// Process 7, whose mapped files are looked at by their mappings' paths in `/proc`, or by their own.
fn process(map_files: bool) -> Source<'static> {
    let mut process = Process::new(Pid::from(7));
    process.map_files = map_files;
    Source::from(process)
}

/// Whether this is told of an address alone.
fn alone_tells<D: ProcessDispatch + Drop>(
    alloc: Global,
    symbolizer: &mut Symbolizer<D>,
    files: &mut MemFiles,
    src: &Source<'_>,
    input: Input<Addr>,
    told: &Told,
) -> bool {
    is_given(symbolizer.symbolize_single(alloc, files, src, input), told)
}

/// Whether this is told of an address of the file alone.
fn file_tells<D: ProcessDispatch + Drop>(
    alloc: Global,
    symbolizer: &mut Symbolizer<D>,
    files: &mut MemFiles,
    input: Input<Addr>,
    told: &Told,
) -> bool {
    match String::from_str(alloc, "/bin/e") {
        Ok(path) => {
            let src = Source::from(Elf::new(path));
            alone_tells(alloc, symbolizer, files, &src, input, told)
        }
        Err(_) => false,
    }
}

/// Whether this is told of a batch.
fn batch_tells<D: ProcessDispatch + Drop>(
    alloc: Global,
    symbolizer: &mut Symbolizer<D>,
    files: &mut MemFiles,
    addrs: &[Addr],
    told: &[Told],
) -> bool {
    are_given(
        symbolizer.symbolize(alloc, files, &process(true), AbsAddr(addrs)),
        told,
    )
}

/// Whether it is, with a count of its steps.
fn counted_tells<D: ProcessDispatch + Drop, L: Ledger>(
    alloc: Global,
    symbolizer: &mut Symbolizer<D>,
    files: &mut MemFiles,
    addrs: &[Addr],
    told: &[Told],
    blank: Blank,
) -> bool
    requires name { blank.name ≡ L.name }
    requires parts { blank.parts ≡ L.parts }
    requires positive { 0 < L.parts }
{
    let mut steps = Steps::<L>::new(blank);
    are_given(
        symbolizer.symbolize_counted(alloc, files, &process(true), AbsAddr(addrs), &mut steps),
        told,
    )
}

/// Whether looking up a batch is refused so.
fn refuses_to_look_up<D: ProcessDispatch + Drop, L: Ledger>(
    alloc: Global,
    symbolizer: &mut Symbolizer<D>,
    files: &mut MemFiles,
    addrs: &[Addr],
    refusal: Error,
    blank: Blank,
) -> bool
    requires name { blank.name ≡ L.name }
    requires parts { blank.parts ≡ L.parts }
    requires positive { 0 < L.parts }
{
    let Ok(addrs) = Vec::from_slice(alloc, addrs) else {
        return false;
    };
    let mut steps = Steps::<L>::new(blank);
    match symbolizer.look_up(alloc, files, &process(true), AbsAddr(addrs), &mut steps) {
        Ok(_) => false,
        Err(error) => error == refusal,
    }
}

/// Takes a step. Says whether what it says is so.
fn step_holds<D: ProcessDispatch + Drop>(
    alloc: Global,
    symbolizer: &mut Symbolizer<D>,
    files: &mut MemFiles,
    step: &Step,
) -> bool {
    match step {
        Step::Files(all) => replace(alloc, files, all),
        Step::Opens(count) => files.opens() == *count,
        Step::Alone(input, told) => {
            alone_tells(alloc, symbolizer, files, &process(true), *input, told)
        }
        Step::AloneByOwnPath(input, told) => {
            alone_tells(alloc, symbolizer, files, &process(false), *input, told)
        }
        Step::OfFile(input, told) => file_tells(alloc, symbolizer, files, *input, told),
        Step::Batch(addrs, told) => batch_tells(alloc, symbolizer, files, addrs, told),
        Step::Counted(addrs, told) => {
            let blank = Blank::new(1);
            counted_tells::<D, Brand>(alloc, symbolizer, files, addrs, told, blank)
        }
        Step::Called(addrs, told) => {
            are_given(answers_in(alloc, files, Pid::from(7), addrs), told)
        }
        Step::LookedUp(addrs, refusal) => {
            let blank = Blank::new(1);
            refuses_to_look_up::<D, Brand>(alloc, symbolizer, files, addrs, *refusal, blank)
        }
    }
}

/// Takes the steps of a story, up to one that doesn't hold. Says whether all hold. At first there are
/// no files.
pub(crate) fn all_hold<D: ProcessDispatch + Drop>(
    alloc: Global,
    symbolizer: &mut Symbolizer<D>,
    story: &[Step],
) -> bool {
    let mut files = MemFiles::new(alloc, 0);
    for step in story {
        if !step_holds(alloc, symbolizer, &mut files, step) {
            return false;
        }
    }
    true
}

/// Whether all steps of a story hold over a new symbolizer without a dispatcher.
fn holds(alloc: Global, story: &[Step]) -> bool {
    let mut symbolizer = Symbolizer::new(alloc);
    all_hold(alloc, &mut symbolizer, story)
}

/// Stories of a new symbolizer.
static STORIES: [&[Step]; 5] = [
    // A batch is answered twice, and the second time status and perf map aren't read again. Of two
    // addresses alone one is answered and one refused. Another kind of address is refused.
    &[
        Step::Files(PROCESS_FILES),
        Step::Batch(ADDRS, TOLD),
        Step::Opens(4),
        Step::Batch(ADDRS, TOLD),
        Step::Opens(6),
        Step::Alone(AbsAddr(0x3008), Told::Symbol("jit", 0x3000, "")),
        Step::Alone(AbsAddr(0x1004), Told::Refused(Error::InvalidData)),
        Step::Alone(VirtOffset(0x3008), Told::Refused(Error::Unsupported)),
    ],
    // A caller gets the same answers.
    &[Step::Files(PROCESS_FILES), Step::Called(ADDRS, TOLD)],
    // They are the same with a count of the steps.
    &[Step::Files(PROCESS_FILES), Step::Counted(ADDRS, TOLD)],
    // Looking addresses of the process up is refused, though its files are there.
    &[
        Step::Files(PROCESS_FILES),
        Step::LookedUp(ADDRS, Error::Unsupported),
        Step::Opens(0),
    ],
    // A file answers by itself, and then for the process without being read again.
    &[
        Step::Files(MAPPED_FILE),
        Step::OfFile(VirtOffset(0x400088), Told::Symbol("f", 0x400080, "/bin/e")),
        Step::Opens(1),
        Step::AloneByOwnPath(AbsAddr(0x400088), Told::Symbol("f", 0x400080, "/bin/e")),
        Step::Opens(2),
        Step::Alone(AbsAddr(0x400088), Told::Refused(Error::NotFound)),
    ],
];

#[test]
fn calls_on_processes_answer_or_are_refused(rt: HostRuntime) {
    let stories = &STORIES;
    for index in 0..stories.len() {
        assert!(rt; holds(rt.alloc(), stories[index]), "story {index}");
    }
}
