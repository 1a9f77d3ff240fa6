//! What is done step by step, each time over new files in memory and a new symbolizer.

use crate::failing::asking::{CALLS, Call, ask};
use crate::failing::sources::{Asked, Kind, Question, source};
use crate::files::{File, put_all};
use bz_base::{Error, Input, Result};
use bz_elf::ElfResolver;
use bz_files::MemFiles;
use bz_samples::ELF_FUNCTION;
use bz_symbolize::Symbolizer;
use bz_symbolize::cache::{Cache, Elf};
use bz_symbolize::source::Source;
use std::alloc::Global;
use std::rc::Rc;

/// What is at the path of a source.
pub(crate) enum There {
    Nothing,
    Denied,
    Bytes,
}

/// Why calls are refused: the kind of addresses that they ask for, what is at the source's path, and
/// with which bytes. How they are refused then comes last.
pub(crate) type Cause = (Input<()>, There, &'static [u8], Error);

/// What is there where no cause is told.
pub(crate) const NO_CAUSE: &Cause = &(Input::AbsAddr(()), There::Nothing, b"", Error::ReadFault);

/// What steps are about: a source, a call, a number of a look, and why calls are refused.
pub(crate) type Case = (&'static Asked, &'static Call, u64, &'static Cause);

/// What is done, or what holds.
pub(crate) enum Step {
    /// The source's good files are put.
    PutGood,
    /// What the cause says is put.
    PutCause,
    Put(&'static [File]),
    /// What is at the source's path is taken away.
    Remove,
    /// The first path is given the file of the second one.
    Link(&'static str, &'static str),
    /// The look fails whose number is the sum of this one and of the case's.
    Fail(u64),
    /// The call answers the source's question, or is refused so.
    Answer(Result<bool>),
    /// The call answers this question, or is refused so.
    AnswerTo(&'static Question, Result<bool>),
    /// The call answers, and reads as many files as it has to.
    AnswerAnew,
    /// The call answers where no look fails in it, and else is refused by that.
    AnswerOrFail,
    /// Each call is refused by the cause.
    RefuseEach,
    /// The file is kept.
    Keep,
    /// Keeping the file is refused by the cause.
    RefuseToKeep,
    /// Registering a file is refused by the cause.
    RefuseToRegister,
    /// It is refused since the path has a version.
    RefuseAnother,
    /// So many looks have failed.
    Failed(u64),
    /// So many files were read.
    Read(u64),
}

/// Puts what the cause says. Says whether memory was left.
fn put_cause(alloc: Global, files: &mut MemFiles, path: &'static str, cause: &Cause) -> bool {
    match cause.1 {
        There::Nothing => true,
        There::Denied => files.deny(alloc, path).is_ok(),
        There::Bytes => put_all(alloc, files, &[(path, cause.2)]),
    }
}

/// Whether each call, and a batch without addresses, is refused by the cause. Addresses of processes
/// aren't looked up.
fn refuse_each(
    alloc: Global,
    symbolizer: &mut Symbolizer,
    files: &mut MemFiles,
    src: &Source<'_>,
    asked: &Asked,
    cause: &Cause,
) -> bool {
    let question = (cause.0, asked.question.1, asked.question.2);
    for call in &CALLS {
        let refusal = match (&asked.kind, call) {
            (Kind::Process, Call::LookedUp) => Error::Unsupported,
            _ => cause.3,
        };
        if ask(alloc, symbolizer, files, src, call, &question) != Err(refusal) {
            return false;
        }
    }
    ask(alloc, symbolizer, files, src, &Call::Empty, &question) == Err(cause.3)
}

/// Whether the call answers, and reads as many files as it has to.
fn answer_anew(
    alloc: Global,
    symbolizer: &mut Symbolizer,
    files: &mut MemFiles,
    src: &Source<'_>,
    asked: &Asked,
    call: &Call,
) -> bool {
    let opens = files.opens().wrapping_add(asked.reads);
    ask(alloc, symbolizer, files, src, call, &asked.question) == Ok(true) && files.opens() == opens
}

/// Whether the call answers where no look fails in it, and else is refused by that, as the only one.
fn answer_or_fail(
    alloc: Global,
    symbolizer: &mut Symbolizer,
    files: &mut MemFiles,
    src: &Source<'_>,
    asked: &Asked,
    call: &Call,
) -> bool {
    let faults = files.faults();
    let answered = ask(alloc, symbolizer, files, src, call, &asked.question);
    if files.faults() == faults {
        answered == Ok(true)
    } else {
        answered == Err(Error::ReadFault) && files.faults() == 1
    }
}

/// Keeps the ELF file at the path.
fn keep(
    alloc: Global,
    symbolizer: &mut Symbolizer,
    files: &mut MemFiles,
    path: &str,
) -> Result<()> {
    let request = Cache::from(Elf::new(String::from_str(alloc, path)?));
    symbolizer.cache(alloc, files, &request)
}

/// Registers an ELF file at the path.
fn register(
    alloc: Global,
    symbolizer: &mut Symbolizer,
    files: &mut MemFiles,
    path: &str,
) -> Result<()> {
    let bytes = Vec::from_slice(alloc, &ELF_FUNCTION)?;
    let resolver = Rc::new(alloc, ElfResolver::from_bytes(alloc, path, bytes)?)?;
    symbolizer.register_elf_resolver(alloc, files, path, resolver)
}

/// Whether the step can be done, or holds.
fn holds_step(
    alloc: Global,
    symbolizer: &mut Symbolizer,
    files: &mut MemFiles,
    src: &Source<'_>,
    case: Case,
    step: &Step,
) -> bool {
    let (asked, call, look, cause) = case;
    let path = asked.path;
    match step {
        Step::PutGood => put_all(alloc, files, asked.files),
        Step::PutCause => put_cause(alloc, files, path, cause),
        Step::Put(all) => put_all(alloc, files, all),
        Step::Remove => files.remove(path),
        Step::Link(new, old) => files.link(alloc, new, old) == Ok(true),
        Step::Fail(number) => files.fail_call(alloc, look.wrapping_add(*number)).is_ok(),
        Step::Answer(expected) => {
            ask(alloc, symbolizer, files, src, call, &asked.question) == *expected
        }
        Step::AnswerTo(question, expected) => {
            ask(alloc, symbolizer, files, src, call, question) == *expected
        }
        Step::AnswerAnew => answer_anew(alloc, symbolizer, files, src, asked, call),
        Step::AnswerOrFail => answer_or_fail(alloc, symbolizer, files, src, asked, call),
        Step::RefuseEach => refuse_each(alloc, symbolizer, files, src, asked, cause),
        Step::Keep => keep(alloc, symbolizer, files, path) == Ok(()),
        Step::RefuseToKeep => keep(alloc, symbolizer, files, path) == Err(cause.3),
        Step::RefuseToRegister => register(alloc, symbolizer, files, path) == Err(cause.3),
        Step::RefuseAnother => {
            register(alloc, symbolizer, files, path) == Err(Error::AlreadyExists)
        }
        Step::Failed(number) => files.faults() == *number,
        Step::Read(number) => files.opens() == *number,
    }
}

/// Whether each step can be done, or holds.
fn hold_over(
    alloc: Global,
    symbolizer: &mut Symbolizer,
    files: &mut MemFiles,
    src: &Source<'_>,
    case: Case,
    steps: &[Step],
) -> bool {
    for step in steps {
        if !holds_step(alloc, symbolizer, files, src, case, step) {
            return false;
        }
    }
    true
}

/// Whether they can be done, or hold, over a new symbolizer.
fn hold_with(
    alloc: Global,
    files: &mut MemFiles,
    src: &Source<'_>,
    case: Case,
    steps: &[Step],
) -> bool {
    let mut symbolizer = Symbolizer::new(alloc);
    hold_over(alloc, &mut symbolizer, files, src, case, steps)
}

/// Whether each step of the case can be done, or holds.
pub(crate) fn hold(alloc: Global, case: Case, steps: &[Step]) -> bool {
    let mut files = MemFiles::new(alloc, 0);
    match source(alloc, case.0) {
        Ok(src) => hold_with(alloc, &mut files, &src, case, steps),
        Err(_) => false,
    }
}
