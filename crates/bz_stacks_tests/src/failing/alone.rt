//! A function with calls in calls, whose addresses are answered alone as in a batch. One is refused.

use crate::failing::asking::is_told;
use crate::failing::sources::{BREAKPAD, Told, source};
use bz_base::Input::FileOffset;
use bz_base::{Error, Reason, Result, Symbolized};
use bz_files::MemFiles;
use bz_samples::{BREAKPAD_CALLS, put};
use bz_symbolize::Symbolizer;
use bz_symbolize::source::Source;
use std::alloc::Global;

/// Addresses in the function. The last one's line record names a file that isn't there.
const ADDRESSES: &[u64] = &[0x1010, 0x1020, 0x1000];

/// What a batch tells of an address that is refused alone.
const IGNORED: &Told = &("", Some(Reason::IgnoredError), false);

/// Whether the answer of a batch is that of its address alone, and where that one is refused, which is
/// at 0x1000, an ignored error.
fn is_alone(answer: &Symbolized<'_>, addr: u64, alone: Result<Symbolized<'_>>) -> bool {
    match alone {
        Ok(single) => addr != 0x1000 && *answer == single,
        Err(refusal) => {
            addr == 0x1000 && refusal == Error::InvalidInput && is_told(answer, IGNORED)
        }
    }
}

/// Whether this is so of each answer of a batch.
fn are_alone(
    alloc: Global,
    symbolizer: &mut Symbolizer,
    files: &mut MemFiles,
    src: &Source<'_>,
    batch: &[Symbolized<'_>],
) -> bool {
    if batch.len() != ADDRESSES.len() {
        return false;
    }
    for index in 0..batch.len() {
        let addr = ADDRESSES[index];
        let alone = symbolizer.symbolize_single(alloc, files, src, FileOffset(addr));
        if !is_alone(&batch[index], addr, alone) {
            return false;
        }
    }
    true
}

/// Whether this is so of the batch of all addresses.
fn answers_each_alone(alloc: Global, files: &mut MemFiles, src: &Source<'_>) -> Result<bool> {
    let mut symbolizer = Symbolizer::new(alloc);
    let batch = symbolizer.symbolize(alloc, files, src, FileOffset(ADDRESSES))?;
    Ok(are_alone(alloc, &mut symbolizer, files, src, &batch))
}

/// Whether this is so where the file of the function is asked.
fn file_answers_each_alone(alloc: Global) -> Result<bool> {
    let src = source(alloc, BREAKPAD)?;
    let mut files = MemFiles::new(alloc, 0);
    put(alloc, &mut files, BREAKPAD.path, BREAKPAD_CALLS)?;
    answers_each_alone(alloc, &mut files, &src)
}

#[test]
fn addresses_answer_alike_alone_and_in_a_batch(rt: HostRuntime) {
    assert!(rt; file_answers_each_alone(rt.alloc()) == Ok(true));
}
