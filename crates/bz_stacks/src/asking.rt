//! Stacks that are folded by what a source answers.

ghost use Rattle.std.specs.Prelude.{◌≡◌, ◌<◌, length, map, IfOk, IsOkUnless};
ghost use Rattle.bz_base.specs.Answer.{reading};
ghost use Rattle.bz_base.specs.InputKind.{address_kind};
ghost use Rattle.bz_base.specs.declared.error.Error.{Error};
ghost use Rattle.bz_lookups.specs.Batch.{answers_to};
ghost use Rattle.bz_process.specs.declared.query.ProcessQuery.{ProcessQuery};
ghost use Rattle.bz_stacks.specs.Fold.{Folds, addrs_of, seen_by};
ghost use Rattle.bz_stacks.specs.Text.{folded_text};
ghost use Rattle.bz_symbolize.specs.Sources.{OneProcess, form_of};
ghost use Rattle.bz_symbolize.specs.State.{WellKept};

use crate::folded::Folded;
use crate::stack::Stack;
use bz_base::{Error, Input, Result, Steps, Symbolized};
use bz_files::Files;
use bz_process::ProcessDispatch;
use bz_symbolize::source::Source;
use bz_symbolize::{Lookups, Symbolizer};
use std::alloc::Global;
use std::marker::Brand;
use std::sync::ledger::{Blank, Ledger};

/// The text that the stacks fold to by what one call over all their addresses, which are of this kind,
/// is answered. It is refused as this call is. Memory may run out after it too, and what the call left
/// stays then.
///
/// No list of all addresses and of all answers is kept, but for a process, whose answers are of many
/// files. There are fewer than 2^32 stacks, so that no sum passes 64 bits.
pub fn fold<D: ProcessDispatch + Drop, F: Files>(
    alloc: Global,
    symbolizer: &mut Symbolizer<D>,
    files: &mut F,
    src: &Source<'_>,
    kind: Input<()>,
    stacks: &[Stack],
) -> Result<Vec<u8>>
    requires { length stacks.now < 4294967296 }
    ensures { Folds F.Files (D.may_dispatch symbolizer.old.processes.dispatcher) D.Resolver.TranslateFileOffset D.Resolver.Symbolize src.now (address_kind kind) stacks.now result symbolizer.old symbolizer.new files.old files.new }
{
    fold_blank::<D, F, Brand>(alloc, symbolizer, files, src, kind, stacks, Blank::new(1))
}

// The same, with a count that no step raises: the look-up has no addresses.
fn fold_blank<D: ProcessDispatch + Drop, F: Files, L: Ledger>(
    alloc: Global,
    symbolizer: &mut Symbolizer<D>,
    files: &mut F,
    src: &Source<'_>,
    kind: Input<()>,
    stacks: &[Stack],
    blank: Blank,
) -> Result<Vec<u8>>
    requires count { length stacks.now < 4294967296 }
    requires name { blank.name ≡ L.name }
    requires parts { blank.parts ≡ L.parts }
    requires positive { 0 < L.parts }
    ensures { Folds F.Files (D.may_dispatch symbolizer.old.processes.dispatcher) D.Resolver.TranslateFileOffset D.Resolver.Symbolize src.now (address_kind kind) stacks.now result symbolizer.old symbolizer.new files.old files.new }
{
    let mut steps = Steps::<L>::new(blank);
    let none = kind.with(Vec::new(alloc));
    match symbolizer.look_up(alloc, files, src, none, &mut steps) {
        Ok(lookups) => fold_lookups(alloc, &lookups, stacks),
        Err(error) => {
            // A process isn't looked up. The refusal changed nothing, and shows
            // that caches are well kept.
            if src.is_process() {
                fold_process(alloc, symbolizer, files, src, kind, stacks)
            } else {
                Err(error)
            }
        }
    }
}

// The text by what a process is answered, whose answers are of many files.
fn fold_process<D: ProcessDispatch + Drop, F: Files>(
    alloc: Global,
    symbolizer: &mut Symbolizer<D>,
    files: &mut F,
    src: &Source<'_>,
    kind: Input<()>,
    stacks: &[Stack],
) -> Result<Vec<u8>>
    requires count { length stacks.now < 4294967296 }
    requires process { (query : ProcessQuery) × (form_of src.now ≡ OneProcess query) }
    requires caches { WellKept symbolizer.old.files }
    ensures { Folds F.Files (D.may_dispatch symbolizer.old.processes.dispatcher) D.Resolver.TranslateFileOffset D.Resolver.Symbolize src.now (address_kind kind) stacks.now result symbolizer.old symbolizer.new files.old files.new }
{
    match kind {
        Input::AbsAddr(_) => {
            let addrs = all_addrs(alloc, stacks)?;
            let answers = symbolizer.symbolize(
                alloc,
                files,
                src,
                Input::AbsAddr(addrs.as_slice()),
            )?;
            fold_answers(alloc, &answers, stacks)
        }
        Input::VirtOffset(_) | Input::FileOffset(_) => Err(Error::Unsupported),
    }
}

// The text by answers that are made for one stack after the other.
fn fold_lookups(alloc: Global, lookups: &Lookups<'_>, stacks: &[Stack]) -> Result<Vec<u8>>
    requires { length stacks.now < 4294967296 }
    ensures ok { IfOk result (λ text. text.items ≡ folded_text (seen_by stacks.now (answers_to (addrs_of stacks.now) lookups.now))) }
    ensures memory { IsOkUnless result Error.OutOfMemory }
{
    let mut folded = Folded::new(alloc);
    for stack in stacks {
        let answers = lookups.answers_at(alloc, stack.addrs())?;
        folded.add(stack, &answers)?;
    }
    folded.text(alloc)
}

// The text by answers that stand side by side.
fn fold_answers(alloc: Global, answers: &[Symbolized<'_>], stacks: &[Stack]) -> Result<Vec<u8>>
    requires count { length stacks.now < 4294967296 }
    requires answers { length answers.now ≡ length (addrs_of stacks.now) }
    ensures ok { IfOk result (λ text. text.items ≡ folded_text (seen_by stacks.now (map reading answers.now))) }
    ensures memory { IsOkUnless result Error.OutOfMemory }
{
    let mut folded = Folded::new(alloc);
    let mut from = 0;
    for stack in stacks {
        let to = from + stack.addrs().len();
        folded.add(stack, &answers[from..to])?;
        from = to;
    }
    folded.text(alloc)
}

// The addresses of all stacks, side by side.
fn all_addrs(alloc: Global, stacks: &[Stack]) -> Result<Vec<u64>>
    ensures ok { IfOk result (λ addrs. addrs.items ≡ addrs_of stacks.now) }
    ensures memory { IsOkUnless result Error.OutOfMemory }
{
    let mut addrs = Vec::new(alloc);
    for stack in stacks {
        addrs.extend_from_slice(stack.addrs())?;
    }
    Ok(addrs)
}
