//! What a symbolizer is asked, and whether it answers as is told.

ghost use Rattle.std.specs.Prelude.{◌≡◌, ◌<◌};

use crate::lookups::{Then, looks_up};
use crate::many::{self, Batch};
use crate::told::{Told, are_given, is_given};
use bz_base::{Input, Result, Steps};
use bz_files::MemFiles;
use bz_symbolize::source::{Breakpad, Elf, Gsym, GsymData, GsymFile, Process, Source};
use bz_symbolize::{Pid, Symbolizer};
use std::alloc::Global;
use std::marker::Brand;
use std::sync::ledger::{Blank, Ledger};

/// What is asked for symbols.
pub(crate) enum Subject {
    /// The Breakpad file at the path.
    Breakpad(&'static str),
    /// The GSYM that is handed in.
    Bytes,
    /// The same, as GSYM of either kind.
    AnyGsym,
    /// The GSYM file at the path.
    Gsym(&'static str),
    /// The ELF file at the path.
    Elf(&'static str),
    /// The process of this number, which is the own one for 0.
    Process(u32),
}

/// What is asked of it, and what is told.
pub(crate) enum Asked {
    /// An address alone.
    Single(Input<u64>, Told),
    /// A batch of addresses.
    Batch(Input<&'static [u64]>, &'static [Told]),
    /// A batch of addresses, with a count of its steps.
    Counted(Input<&'static [u64]>, &'static [Told]),
    /// A batch that is looked up, and what comes then.
    LookedUp(Input<&'static [u64]>, &'static [Told], Then),
    /// A batch of a file of many functions, with code info or not, in its order and in ascending order.
    Many(Batch, bool),
}

/// What is asked, as a source, where these bytes are handed in.
pub(crate) fn source<'d>(alloc: Global, bytes: &'d [u8], subject: &Subject) -> Result<Source<'d>> {
    Ok(match subject {
        Subject::Breakpad(path) => Source::from(Breakpad::new(String::from_str(alloc, path)?)),
        Subject::Bytes => Source::from(GsymData::new(bytes)),
        Subject::AnyGsym => Source::from(Gsym::Data(GsymData::new(bytes))),
        Subject::Gsym(path) => Source::from(GsymFile::new(String::from_str(alloc, path)?)),
        Subject::Elf(path) => Source::from(Elf::new(String::from_str(alloc, path)?)),
        Subject::Process(number) => Source::from(Process::new(Pid::from(*number))),
    })
}

/// Whether the address alone is answered or refused as is told.
fn answers_single(
    alloc: Global,
    symbolizer: &mut Symbolizer,
    files: &mut MemFiles,
    src: &Source<'_>,
    input: Input<u64>,
    told: &Told,
) -> bool {
    is_given(symbolizer.symbolize_single(alloc, files, src, input), told)
}

/// Whether the batch is answered or refused as is told.
pub(crate) fn answers(
    alloc: Global,
    symbolizer: &mut Symbolizer,
    files: &mut MemFiles,
    src: &Source<'_>,
    input: Input<&[u64]>,
    told: &[Told],
) -> bool {
    are_given(symbolizer.symbolize(alloc, files, src, input), told)
}

/// Whether the batch is answered or refused as is told, with a count of its steps.
fn answers_counted<L: Ledger>(
    alloc: Global,
    symbolizer: &mut Symbolizer,
    files: &mut MemFiles,
    src: &Source<'_>,
    input: Input<&[u64]>,
    told: &[Told],
    blank: Blank,
) -> bool
    requires name { blank.name ≡ L.name }
    requires parts { blank.parts ≡ L.parts }
    requires positive { 0 < L.parts }
{
    let mut steps = Steps::<L>::new(blank);
    are_given(
        symbolizer.symbolize_counted(alloc, files, src, input, &mut steps),
        told,
    )
}

/// Whether the source answers as is told.
fn answers_asked(
    alloc: Global,
    symbolizer: &mut Symbolizer,
    files: &mut MemFiles,
    src: &Source<'_>,
    asked: &Asked,
) -> bool {
    match asked {
        Asked::Single(input, told) => answers_single(alloc, symbolizer, files, src, *input, told),
        Asked::Batch(input, told) => answers(alloc, symbolizer, files, src, *input, told),
        Asked::Counted(input, told) => {
            let blank = Blank::new(1);
            answers_counted::<Brand>(alloc, symbolizer, files, src, *input, told, blank)
        }
        Asked::LookedUp(input, told, then) => {
            let blank = Blank::new(1);
            looks_up::<Brand>(alloc, symbolizer, files, src, *input, told, then, blank)
        }
        Asked::Many(batch, code_info) => {
            many::answers_many(alloc, symbolizer, files, src, batch, *code_info)
        }
    }
}

/// Whether the subject answers as is told, where these bytes are handed in.
pub(crate) fn asks(
    alloc: Global,
    symbolizer: &mut Symbolizer,
    files: &mut MemFiles,
    bytes: &[u8],
    subject: &Subject,
    asked: &Asked,
) -> bool {
    match source(alloc, bytes, subject) {
        Ok(src) => answers_asked(alloc, symbolizer, files, &src, asked),
        Err(_) => false,
    }
}
