//! What is answered at addresses, in a batch and alone.

use crate::fact::{Answer, Call};
use bz_base::{CodeInfo, Error, FindSymOpts, InlinedFn, Reason, Steps, Symbolized};
use bz_breakpad::SymbolFile;
use std::alloc::Global;
use std::borrow::CowStr;
use std::sync::ledger::Ledger;

/// What is asked of a file at an address, and what it has to answer.
#[derive(Drop)]
pub(crate) struct Asked<'a> {
    pub(crate) addr: u64,
    pub(crate) opts: &'a FindSymOpts,
    pub(crate) answer: &'a Answer,
}

/// Whether the file answers so, in a batch and alone.
pub(crate) fn is_answered<L: Ledger>(
    alloc: Global,
    file: &SymbolFile,
    asked: &Asked<'_>,
    steps: &mut Steps<L>,
) -> bool {
    is_answered_in_batch(alloc, file, asked, steps) && is_answered_alone(alloc, file, asked, steps)
}

fn is_answered_in_batch<L: Ledger>(
    alloc: Global,
    file: &SymbolFile,
    asked: &Asked<'_>,
    steps: &mut Steps<L>,
) -> bool {
    match file.answer_batch(alloc, &[asked.addr], asked.opts, steps) {
        Ok(answers) => answers.len() == 1 && is_answer(&answers[0], asked.answer),
        Err(_) => false,
    }
}

/// Whether the file answers so alone. What a batch ignores is refused alone.
fn is_answered_alone<L: Ledger>(
    alloc: Global,
    file: &SymbolFile,
    asked: &Asked<'_>,
    steps: &mut Steps<L>,
) -> bool {
    match file.answer(alloc, asked.addr, asked.opts, steps) {
        Ok(answer) => is_answer(&answer, asked.answer),
        Err(error) => {
            error == Error::InvalidInput
                && matches!(asked.answer, Answer::Unknown(Reason::IgnoredError))
        }
    }
}

pub(crate) fn are_answers(answers: &[Symbolized<'_>], expected: &[Answer]) -> bool {
    if answers.len() != expected.len() {
        return false;
    }
    for index in 0..answers.len() {
        if !is_answer(&answers[index], &expected[index]) {
            return false;
        }
    }
    true
}

fn is_answer(answer: &Symbolized<'_>, expected: &Answer) -> bool {
    match (answer, expected) {
        (Symbolized::Sym(symbol), Answer::Symbol(name, start, offset, size, module, public)) => {
            symbol.name.as_str() == *name
                && is_text(&symbol.module, module)
                && (symbol.addr, symbol.offset, symbol.size, symbol.public)
                    == (*start, *offset, *size, *public)
        }
        (Symbolized::Sym(symbol), Answer::Located(site, calls)) => {
            is_call(symbol.name.as_str(), &symbol.code_info, site)
                && are_calls(&symbol.inlined, calls)
        }
        (Symbolized::Unknown(reason), Answer::Unknown(expected)) => reason == expected,
        _ => false,
    }
}

fn are_calls(calls: &[InlinedFn<'_>], expected: &[Call]) -> bool {
    if calls.len() != expected.len() {
        return false;
    }
    for index in 0..calls.len() {
        let call = &calls[index];
        if !is_call(call.name.as_str(), &call.code_info, &expected[index]) {
            return false;
        }
    }
    true
}

/// Whether the function of this name has the site. No site has a column.
pub(crate) fn is_call(name: &str, site: &Option<CodeInfo<'_>>, expected: &Call) -> bool {
    let (function, dir, file, line) = *expected;
    if name != function {
        return false;
    }
    match site {
        Some(site) => {
            !file.is_empty()
                && is_text(&site.dir, dir)
                && site.file.as_str() == file
                && site.line == Some(line)
                && site.column == None
        }
        None => file.is_empty(),
    }
}

/// Whether this is the text, which is empty where there is none.
fn is_text(text: &Option<CowStr<'_>>, expected: &str) -> bool {
    match text {
        Some(text) => !expected.is_empty() && text.as_str() == expected,
        None => expected.is_empty(),
    }
}
