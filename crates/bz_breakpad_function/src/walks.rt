//! The records of a function, one after another in their order.

ghost use Rattle.std.specs.Prelude.{◌≡◌, ◌<◌, ◌-◌, Some, drop, length, map, slice_get, IfOk, IfSome};
ghost use Rattle.std.specs.List.{AllByRecursion};
ghost use Rattle.bz_base.specs.Line as base;
ghost use Rattle.bz_breakpad_function.specs.InOrder.{IsTextOfLines};
ghost use Rattle.bz_breakpad_function.specs.Lent.{inlinee_seen};
ghost use Rattle.bz_breakpad_lines.specs.LineStarts.{ReadsLine};
ghost use Rattle.bz_breakpad_lines.specs.Told.{line_seen};
ghost use Rattle.bz_breakpad_table.specs.Kept.{function_seen, kept_call, kept_lines};
ghost use Rattle.bz_breakpad_table.specs.LineRun.{AreLineRecords, lines_in};
ghost use Rattle.bz_breakpad_table.specs.Search.{IsFunction};

use crate::calls::inlinee_of;
use crate::line_iter::LineIter;
use crate::line_run::LINE_LEN;
use crate::types::Inlinee;
use bz_base::first_line;
use bz_breakpad_lines::{SourceLine, line_or_zeros};
use bz_breakpad_table::{CallRange, FunctionTable, KeptFunction, LineRecords};
use std::alloc::{AllocError, Global};

/// How many line records the function has.
pub(crate) fn line_count(bytes: &[u8], code: &FunctionTable, function: &KeptFunction) -> usize
    requires { IsFunction bytes.now code.now function.now }
    ensures { result ≡ length (function_seen bytes.now code.now function.now).lines }
{
    match function.lines {
        LineRecords::Run(part) => {
            let text = &bytes[part.from as usize..part.to as usize];
            count_lines(text)
        }
        LineRecords::Listed(part) => {
            let places = &code.lines[part.from as usize..part.to as usize];
            places.len()
        }
    }
}

/// The line record of the function at an index, in their order.
pub(crate) fn line_at_index(
    bytes: &[u8],
    code: &FunctionTable,
    function: &KeptFunction,
    index: usize,
) -> SourceLine
    requires function { IsFunction bytes.now code.now function.now }
    requires within { index < length (function_seen bytes.now code.now function.now).lines }
    ensures { slice_get (function_seen bytes.now code.now function.now).lines index ≡ Some (line_seen result) }
{
    match function.lines {
        LineRecords::Run(part) => {
            let text = &bytes[part.from as usize..part.to as usize];
            line_of_run(text, index)
        }
        LineRecords::Listed(part) => {
            let places = &code.lines[part.from as usize..part.to as usize];
            line_of_places(bytes, places, index)
        }
    }
}

/// The text of the function's line records, if they are kept as a run in the file's bytes.
pub(crate) fn line_text<'a>(
    bytes: &'a [u8],
    code: &FunctionTable,
    function: &KeptFunction,
) -> Option<&'a [u8]>
    requires { IsFunction bytes.now code.now function.now }
    ensures { IfSome result (λ text. IsTextOfLines text.now (function_seen bytes.now code.now function.now).lines) }
{
    match function.lines {
        LineRecords::Run(part) => Some(&bytes[part.from as usize..part.to as usize]),
        LineRecords::Listed(_part) => None,
    }
}

/// The line records of the function, one after another in their order.
pub(crate) fn line_iter<'a>(
    bytes: &'a [u8],
    code: &'a FunctionTable,
    function: &KeptFunction,
) -> LineIter<'a>
    requires { IsFunction bytes.now code.now function.now }
    ensures { result ≡ (function_seen bytes.now code.now function.now).lines }
{
    match function.lines {
        LineRecords::Run(part) => LineIter::of_run(bytes, &part),
        LineRecords::Listed(part) => {
            let places = &code.lines[part.from as usize..part.to as usize];
            LineIter::of_places(bytes, places)
        }
    }
}

/// The line records of the function, in their order.
pub(crate) fn all_lines(
    alloc: Global,
    bytes: &[u8],
    code: &FunctionTable,
    function: &KeptFunction,
) -> Result<Vec<SourceLine>, AllocError>
    requires { IsFunction bytes.now code.now function.now }
    ensures { IfOk result (λ lines. map line_seen lines.items ≡ (function_seen bytes.now code.now function.now).lines) }
{
    let mut lines = Vec::with_capacity(alloc, likely_line_count(function))?;
    for line in line_iter(bytes, code, function) {
        lines.push(line)?;
    }
    Ok(lines)
}

/// About how many line records the function has.
fn likely_line_count(function: &KeptFunction) -> usize {
    match function.lines {
        LineRecords::Run(part) => part.to.saturating_sub(part.from) as usize / LINE_LEN + 1,
        LineRecords::Listed(part) => part.to.saturating_sub(part.from) as usize,
    }
}

/// The inlined call of the function at an index, in their order.
pub(crate) fn inlinee_at_index(
    bytes: &[u8],
    code: &FunctionTable,
    function: &KeptFunction,
    index: usize,
) -> Inlinee
    requires function { IsFunction bytes.now code.now function.now }
    requires within { index < function.now.inlinees.to - function.now.inlinees.from }
    ensures { slice_get (function_seen bytes.now code.now function.now).inlinees index ≡ Some (inlinee_seen result) }
{
    let place = function.inlinees.from as usize + index;
    inlinee_of(bytes, &code.inlinees[place])
}

/// The inlined calls of ranges, with what their records say.
pub(crate) fn all_inlinees(
    alloc: Global,
    bytes: &[u8],
    ranges: &[CallRange],
) -> Result<Vec<Inlinee>, AllocError>
    ensures { IfOk result (λ calls. map inlinee_seen calls.items ≡ map (kept_call bytes.now) ranges.now) }
{
    let mut calls = Vec::with_capacity(alloc, ranges.len())?;
    for range in ranges {
        calls.push(inlinee_of(bytes, range))?;
    }
    Ok(calls)
}

/// The line record at an index of those that the lines of a text are.
fn line_of_run(text: &[u8], index: usize) -> SourceLine
    requires read { AreLineRecords text.now }
    requires within { index < length (lines_in text.now) }
    ensures { slice_get (lines_in text.now) index ≡ Some (line_seen result) }
{
    line_or_zeros(after_lines(text, index), 0)
}

/// The line record at an index of those that begin at places in the bytes.
fn line_of_places(bytes: &[u8], places: &[usize], index: usize) -> SourceLine
    requires read { AllByRecursion (ReadsLine bytes.now) places.now }
    requires within { index < length places.now }
    ensures { slice_get (kept_lines bytes.now places.now) index ≡ Some (line_seen result) }
{
    line_or_zeros(bytes, places[index])
}

/// How many lines a text has.
fn count_lines(text: &[u8]) -> usize
    ensures { result ≡ length (base.all_lines text.now) }
{
    let mut count = 0;
    let mut rest = text;
    while let Some((_line, after)) = first_line(rest) {
        count += 1;
        rest = after;
    }
    count
}

/// What is left of a text after so many of its lines.
fn after_lines(text: &[u8], count: usize) -> &[u8]
    ensures { base.all_lines result.now ≡ drop count (base.all_lines text.now) }
{
    let mut rest = text;
    for _index in 0..count {
        rest = after_line(rest);
    }
    rest
}

/// What is left of a text after its first line.
fn after_line(text: &[u8]) -> &[u8]
    ensures { base.all_lines result.now ≡ drop 1 (base.all_lines text.now) }
{
    match first_line(text) {
        Some((_line, after)) => after,
        None => text,
    }
}
