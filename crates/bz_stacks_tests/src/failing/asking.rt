//! The calls that ask a source for addresses.

ghost use Rattle.std.specs.Prelude.{◌≡◌, ◌<◌};

use crate::failing::sources::{Question, Told};
use bz_base::{Input, Result, Steps, Sym, Symbolized};
use bz_files::MemFiles;
use bz_symbolize::source::Source;
use bz_symbolize::{Lookups, Symbolizer};
use std::alloc::Global;
use std::marker::Brand;
use std::sync::ledger::{Blank, Ledger};

/// A call that asks for addresses.
pub(crate) enum Call {
    Batch,
    Counted,
    LookedUp,
    Single,
    /// A batch without addresses.
    Empty,
}

/// The calls that ask for the addresses of a question, of which the last two take its first alone.
pub(crate) static CALLS: [Call; 4] = [Call::Batch, Call::Counted, Call::LookedUp, Call::Single];

/// Whether the symbol is what is told. It has no inlined calls.
fn is_symbol(symbol: &Sym<'_>, told: &Told) -> bool {
    told.1 == None
        && symbol.name.as_str() == told.0
        && symbol.code_info.is_some() == told.2
        && symbol.inlined.is_empty()
}

/// Whether the answer is what is told.
pub(crate) fn is_told(answer: &Symbolized<'_>, told: &Told) -> bool {
    match answer {
        Symbolized::Sym(symbol) => is_symbol(symbol, told),
        Symbolized::Unknown(reason) => told.1 == Some(*reason),
    }
}

/// Whether the answers are what is told.
fn are_told(answers: &[Symbolized<'_>], told: &[Told]) -> bool {
    if answers.len() != told.len() {
        return false;
    }
    for place in 0..told.len() {
        if !is_told(&answers[place], &told[place]) {
            return false;
        }
    }
    true
}

/// Whether the only address that was looked up is answered by what is told.
fn is_looked_up(alloc: Global, lookups: &Lookups<'_>, told: &[Told]) -> bool {
    if lookups.len() != 1 || told.is_empty() {
        return false;
    }
    match lookups.answer(alloc, 0) {
        Ok(answer) => is_told(&answer, &told[0]),
        Err(_) => false,
    }
}

/// Whether a batch is answered by what is told.
fn batch(
    alloc: Global,
    symbolizer: &mut Symbolizer,
    files: &mut MemFiles,
    src: &Source<'_>,
    input: Input<&[u64]>,
    told: &[Told],
) -> Result<bool> {
    let answers = symbolizer.symbolize(alloc, files, src, input)?;
    Ok(are_told(&answers, told))
}

/// Whether an address alone is.
fn single(
    alloc: Global,
    symbolizer: &mut Symbolizer,
    files: &mut MemFiles,
    src: &Source<'_>,
    input: Input<u64>,
    told: &[Told],
) -> Result<bool> {
    let answer = symbolizer.symbolize_single(alloc, files, src, input)?;
    Ok(!told.is_empty() && is_told(&answer, &told[0]))
}

/// Whether a batch is, with a count of its steps.
fn counted<L: Ledger>(
    alloc: Global,
    symbolizer: &mut Symbolizer,
    files: &mut MemFiles,
    src: &Source<'_>,
    input: Input<&[u64]>,
    told: &[Told],
    blank: Blank,
) -> Result<bool>
    requires name { blank.name ≡ L.name }
    requires parts { blank.parts ≡ L.parts }
    requires positive { 0 < L.parts }
{
    let mut steps = Steps::<L>::new(blank);
    let answers = symbolizer.symbolize_counted(alloc, files, src, input, &mut steps)?;
    Ok(are_told(&answers, told))
}

/// Whether an address that is looked up is.
fn looked_up<L: Ledger>(
    alloc: Global,
    symbolizer: &mut Symbolizer,
    files: &mut MemFiles,
    src: &Source<'_>,
    input: Input<Vec<u64>>,
    told: &[Told],
    blank: Blank,
) -> Result<bool>
    requires name { blank.name ≡ L.name }
    requires parts { blank.parts ≡ L.parts }
    requires positive { 0 < L.parts }
{
    let mut steps = Steps::<L>::new(blank);
    let lookups = symbolizer.look_up(alloc, files, src, input, &mut steps)?;
    Ok(is_looked_up(alloc, &lookups, told))
}

/// Whether the call answers the question by what is told, or why it is refused.
pub(crate) fn ask(
    alloc: Global,
    symbolizer: &mut Symbolizer,
    files: &mut MemFiles,
    src: &Source<'_>,
    call: &Call,
    question: &Question,
) -> Result<bool> {
    let (kind, addrs, told) = *question;
    let Some(first) = addrs.first() else {
        return Ok(false);
    };
    match call {
        Call::Batch => batch(alloc, symbolizer, files, src, kind.with(addrs), told),
        Call::Counted => counted::<Brand>(
            alloc,
            symbolizer,
            files,
            src,
            kind.with(addrs),
            told,
            Blank::new(1),
        ),
        Call::LookedUp => {
            let alone = Vec::from_slice(alloc, &[*first])?;
            looked_up::<Brand>(
                alloc,
                symbolizer,
                files,
                src,
                kind.with(alone),
                told,
                Blank::new(1),
            )
        }
        Call::Single => single(alloc, symbolizer, files, src, kind.with(*first), told),
        Call::Empty => batch(alloc, symbolizer, files, src, kind.with(&[]), &[]),
    }
}
