//! The answers of a symbol file.

ghost use Rattle.std.specs.Prelude.{◌≡◌, ◌<◌, ◌++◌, map, OnOk, IsOkUnless};
ghost use Rattle.bz_base.specs.Answer.{reading};
ghost use Rattle.bz_base.specs.declared.error.Error.{Error};
ghost use Rattle.bz_breakpad.specs.Reader.{table_in};
ghost use Rattle.bz_store.specs.Frames.{Known, frame_of, reading_of};
ghost use Rattle.bz_store.specs.Visits.{by_table};

use crate::frame::{CrashFrame, FrameAnswer, offsets};
use bz_base::{FindSymOpts, Result, Steps, Symbolized};
use bz_breakpad::SymbolFile;
use std::alloc::Global;
use std::marker::Brand;
use std::sync::ledger::{Blank, Ledger};

/// Puts the file's answers at the offsets of frames behind the answers, all of one batch.
pub(crate) fn push_known(
    alloc: Global,
    file: &SymbolFile,
    frames: &[CrashFrame],
    opts: &FindSymOpts,
    answers: &mut Vec<FrameAnswer>,
) -> Result<()>
    ensures ok { OnOk result (map reading_of answers.new.items ≡ map reading_of answers.old.items ++ map (λ frame. by_table opts.now frame.offset (table_in file.now)) (map frame_of frames.now)) }
    ensures memory { IsOkUnless result Error.OutOfMemory }
{
    let offsets = offsets(alloc, frames)?;
    push_batch_blank::<Brand>(alloc, file, &offsets, opts, answers, Blank::new(1))
}

// The same at offsets, with a count that nobody reads.
fn push_batch_blank<L: Ledger>(
    alloc: Global,
    file: &SymbolFile,
    offsets: &[u64],
    opts: &FindSymOpts,
    answers: &mut Vec<FrameAnswer>,
    blank: Blank,
) -> Result<()>
    requires name { blank.name ≡ L.name }
    requires parts { blank.parts ≡ L.parts }
    requires positive { 0 < L.parts }
    ensures ok { OnOk result (map reading_of answers.new.items ≡ map reading_of answers.old.items ++ map (λ offset. by_table opts.now offset (table_in file.now)) offsets.now) }
    ensures memory { IsOkUnless result Error.OutOfMemory }
{
    let mut steps = Steps::<L>::new(blank);
    let batch = file.answer_batch(alloc, offsets, opts, &mut steps)?;
    push_owned(alloc, batch, answers)
}

// Puts answers behind the answers, with texts of their own.
fn push_owned(
    alloc: Global,
    batch: Vec<Symbolized<'_>>,
    answers: &mut Vec<FrameAnswer>,
) -> Result<()>
    ensures ok { OnOk result (map reading_of answers.new.items ≡ map reading_of answers.old.items ++ map Known (map reading batch.entry.items)) }
    ensures memory { IsOkUnless result Error.OutOfMemory }
{
    for answer in batch {
        let answer = answer.into_owned(alloc)?;
        answers.push(FrameAnswer::Known(answer))?;
    }
    Ok(())
}
