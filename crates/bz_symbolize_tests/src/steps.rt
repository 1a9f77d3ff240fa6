//! What the tests do, step by step, over new files in memory and new symbolizers.

use crate::asking::{Asked, Subject, asks};
use crate::breakpad::asks_of_file;
use crate::elf::{Registration, registers_all};
use crate::keeping::{Kept, forgets, keeps};
use crate::many::put_generated;
use bz_base::Error;
use bz_files::{Files, MemFiles};
use bz_symbolize::{Builder, Symbolizer};
use std::alloc::Global;
use std::default::Default;

/// What a script starts with.
#[derive(Drop)]
pub(crate) struct Start<'d> {
    /// Whether the symbolizer's answers have code info.
    pub(crate) code_info: bool,
    /// Whether they have inlined calls.
    pub(crate) calls: bool,
    /// The bytes that are handed in: GSYM, or those of a file.
    pub(crate) bytes: &'d [u8],
}

/// All features are on, and nothing is handed in.
pub(crate) const ALL: Start<'static> = Start {
    code_info: true,
    calls: true,
    bytes: b"",
};

/// The same, but answers have no code info.
pub(crate) const CODE_INFO_OFF: Start<'static> = Start {
    code_info: false,
    ..ALL
};

/// What is done, or asked. A symbolizer is asked, and also another one, which has every feature off and
/// doesn't look at files anew.
pub(crate) enum Step {
    /// The bytes are put at the path.
    Put(&'static str, &'static [u8]),
    /// The bytes that are handed in are put at the path.
    PutHandedIn(&'static str),
    /// The bytes are put at the path under the stamp that it has.
    PutUnderItsStamp(&'static str, &'static [u8]),
    /// The generated file of so many functions is put at `/s.sym`.
    PutGenerated(u64),
    /// The path gets what is at the other one, under the same stamp.
    Link(&'static str, &'static str),
    /// What is at the path is taken away.
    Remove(&'static str),
    /// There are no files any more, and none has been read.
    NoFiles,
    /// The look of this number is to fail.
    Fail(u64),
    /// So many looks have failed.
    Faults(u64),
    /// So many files have been read.
    Opens(u64),
    /// The symbolizer answers as is told.
    Ask(Subject, Asked),
    /// The other symbolizer does.
    AskStill(Subject, Asked),
    /// A caller with a symbolizer of its own gets what is told of the file at `/app.sym`.
    CallOfFile,
    /// The symbolizer is asked to keep this, and refuses so, if it does.
    Keep(Kept, Option<Error>),
    /// The other symbolizer is.
    KeepStill(Kept, Option<Error>),
    /// The symbolizer is asked to forget this.
    Forget(Kept),
    /// A resolver is registered so, one registration after the other.
    Register(&'static [Registration]),
}

/// Steps, one after the other.
pub(crate) type Script = &'static [Step];

/// Puts the bytes at the path. Says whether memory was left.
pub(crate) fn put(alloc: Global, files: &mut MemFiles, path: &str, bytes: &[u8]) -> bool {
    bz_samples::put(alloc, files, path, bytes).is_ok()
}

/// Puts the bytes at the path under its stamp. Says whether it has one, and memory was left.
fn put_under_its_stamp(alloc: Global, files: &mut MemFiles, path: &str, bytes: &[u8]) -> bool {
    let Ok(stamp) = files.stat(path) else {
        return false;
    };
    match Vec::from_slice(alloc, bytes) {
        Ok(copy) => files.put_as(alloc, path, stamp, copy).is_ok(),
        Err(_) => false,
    }
}

/// A symbolizer that doesn't look at files anew, with every feature off.
fn without_features(alloc: Global) -> Symbolizer {
    Symbolizer::builder()
        .enable_auto_reload(false)
        .enable_code_info(false)
        .enable_inlined_fns(false)
        .enable_demangling(false)
        .set_debug_dirs(Some(Vec::new(alloc)))
        .build(alloc)
}

/// A symbolizer whose answers have code info or not, and inlined calls or not.
fn with_features(alloc: Global, code_info: bool, calls: bool) -> Symbolizer {
    Builder::default()
        .enable_code_info(code_info)
        .enable_inlined_fns(calls)
        .build(alloc)
}

/// Takes the step, which is about files alone. Says whether all is as it says.
fn holds_of_files(alloc: Global, files: &mut MemFiles, step: &Step) -> bool {
    match step {
        Step::Put(path, bytes) => put(alloc, files, path, bytes),
        Step::PutUnderItsStamp(path, bytes) => put_under_its_stamp(alloc, files, path, bytes),
        Step::PutGenerated(functions) => put_generated(alloc, files, *functions),
        Step::Link(path, old) => files.link(alloc, path, old).is_ok(),
        Step::Remove(path) => files.remove(path),
        Step::NoFiles => {
            *files = MemFiles::new(alloc, 0);
            true
        }
        Step::Fail(call) => files.fail_call(alloc, *call).is_ok(),
        Step::Faults(count) => files.faults() == *count,
        Step::Opens(count) => files.opens() == *count,
        Step::CallOfFile => asks_of_file(alloc, files),
        _ => false,
    }
}

/// Takes the step. Says whether all is as it says.
fn holds_of(
    alloc: Global,
    symbolizer: &mut Symbolizer,
    still: &mut Symbolizer,
    files: &mut MemFiles,
    bytes: &[u8],
    step: &Step,
) -> bool {
    match step {
        Step::Ask(subject, asked) => asks(alloc, symbolizer, files, bytes, subject, asked),
        Step::AskStill(subject, asked) => asks(alloc, still, files, bytes, subject, asked),
        Step::Keep(kept, refused) => keeps(alloc, symbolizer, files, kept, *refused),
        Step::KeepStill(kept, refused) => keeps(alloc, still, files, kept, *refused),
        Step::Forget(kept) => forgets(alloc, symbolizer, kept),
        Step::PutHandedIn(path) => put(alloc, files, path, bytes),
        Step::Register(rows) => registers_all(alloc, symbolizer, files, rows),
        _ => holds_of_files(alloc, files, step),
    }
}

/// Takes the steps, part after part. Says whether all is as they say.
fn all_hold_of(
    alloc: Global,
    symbolizer: &mut Symbolizer,
    still: &mut Symbolizer,
    files: &mut MemFiles,
    bytes: &[u8],
    parts: &[Script],
) -> bool {
    for steps in parts {
        for step in *steps {
            if !holds_of(alloc, symbolizer, still, files, bytes, step) {
                return false;
            }
        }
    }
    true
}

/// Whether all is as they say beside a new symbolizer that is the other one.
fn hold_beside(
    alloc: Global,
    symbolizer: &mut Symbolizer,
    files: &mut MemFiles,
    bytes: &[u8],
    parts: &[Script],
) -> bool {
    let mut still = without_features(alloc);
    all_hold_of(alloc, symbolizer, &mut still, files, bytes, parts)
}

/// Whether all is as they say over new symbolizers.
fn hold_over(alloc: Global, files: &mut MemFiles, start: &Start<'_>, parts: &[Script]) -> bool {
    let mut symbolizer = with_features(alloc, start.code_info, start.calls);
    hold_beside(alloc, &mut symbolizer, files, start.bytes, parts)
}

/// Whether all is as the steps say, part after part, over new files and new symbolizers.
pub(crate) fn hold(alloc: Global, start: &Start<'_>, parts: &[Script]) -> bool {
    let mut files = MemFiles::new(alloc, 0);
    hold_over(alloc, &mut files, start, parts)
}
