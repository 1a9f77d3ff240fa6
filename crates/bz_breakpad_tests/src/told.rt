//! What a function shows.

use crate::fact::Told;
use crate::named::are_listed;
use bz_base::Steps;
use bz_breakpad::{Function, Inlinee, SourceLine, SymbolFile};
use std::alloc::Global;
use std::sync::ledger::Ledger;

/// Whether the function that answers for the address shows this.
pub(crate) fn is_told<L: Ledger>(
    alloc: Global,
    file: &SymbolFile,
    addr: u64,
    told: &Told,
    steps: &mut Steps<L>,
) -> bool {
    match file.find_function(addr, steps) {
        Some(function) => is_told_by(alloc, &function, told),
        None => matches!(told, Told::Nothing),
    }
}

fn is_told_by(alloc: Global, function: &Function<'_>, told: &Told) -> bool {
    match told {
        Told::Nothing => false,
        Told::Parts(name, start, size, parameter_size) => {
            function.name() == *name
                && (function.addr(), function.size(), function.parameter_size())
                    == (*start, *size, *parameter_size)
        }
        Told::Line(addr, line) => line_at(function, *addr) == *line,
        Told::LineRecord(addr, line) => function.find_line(*addr) == *line,
        Told::Lines(lines) => has_lines(alloc, function, lines),
        Told::OneByOne(lines) => gives_lines(function, lines),
        Told::CallAtDepth(depth, addr, call) => {
            function.find_inlinee_at_depth(*depth, *addr) == *call
        }
        Told::CallsAround(addr, calls) => are_listed(function.find_inlinees(alloc, *addr), calls),
        Told::Calls(calls) => has_calls(alloc, function, calls),
    }
}

/// The line of the record that answers for the address.
fn line_at(function: &Function<'_>, addr: u64) -> Option<u32> {
    match function.find_line(addr) {
        Some(found) => Some(found.line),
        None => None,
    }
}

fn has_lines(alloc: Global, function: &Function<'_>, numbers: &[u32]) -> bool {
    match function.lines(alloc) {
        Ok(lines) => are_lines(function, &lines, numbers),
        Err(_) => false,
    }
}

/// Whether each line is the one at its index, and has this number.
fn are_lines(function: &Function<'_>, lines: &[SourceLine], numbers: &[u32]) -> bool {
    if function.line_count() != numbers.len() || lines.len() != numbers.len() {
        return false;
    }
    for index in 0..numbers.len() {
        if function.line(index) != lines[index] || lines[index].line != numbers[index] {
            return false;
        }
    }
    true
}

/// Whether it gives these line records one after another.
fn gives_lines(function: &Function<'_>, expected: &[(u64, u32, u32, u32)]) -> bool {
    let mut met = 0usize;
    for line in function.iter_lines() {
        let Some((addr, size, number, file)) = expected.get(met) else {
            return false;
        };
        if line.addr != *addr || line.size != *size || line.line != *number || line.file != *file {
            return false;
        }
        met = met.saturating_add(1);
    }
    met == expected.len()
}

/// Whether these are the calls, and each is the one at its index.
fn has_calls(alloc: Global, function: &Function<'_>, calls: &[Inlinee]) -> bool {
    if function.inlinee_count() != calls.len() {
        return false;
    }
    for index in 0..calls.len() {
        if function.inlinee(index) != calls[index] {
            return false;
        }
    }
    are_listed(function.inlinees(alloc), calls)
}
