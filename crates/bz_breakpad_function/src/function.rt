//! A function of a Breakpad file.

ghost use Rattle.std.specs.Prelude.{◌≡◌, ◌<◌, List, Some, length, map, option_map, slice_get, IfOk, IfSome, IsOkUnless};
ghost use Rattle.bz_base.specs.Chain.{around, inner};
ghost use Rattle.bz_base.specs.Nearest.{IsTable};
ghost use Rattle.bz_base.specs.declared.error.Error.{Error};
ghost use Rattle.bz_breakpad_function.specs.InOrder.{IsTextOfLines, calls_in_order, lines_in_order};
ghost use Rattle.bz_breakpad_function.specs.Indexed.{function_in, functions_in};
ghost use Rattle.bz_breakpad_function.specs.Lent.{inlinee_seen};
ghost use Rattle.bz_breakpad_function.specs.Locations.{calls_around, inlinee_at, line_at};
ghost use Rattle.bz_breakpad_lines.specs.Reader.{table_in};
ghost use Rattle.bz_breakpad_lines.specs.Table.{Table};
ghost use Rattle.bz_breakpad_lines.specs.Told.{line_seen};
ghost use Rattle.bz_breakpad_table.specs.CallRanges.{call_start};
ghost use Rattle.bz_breakpad_table.specs.Kept.{kept_call};
ghost use Rattle.bz_breakpad_table.specs.Sorted.{StandsFor};
ghost use Rattle.bz_breakpad_table.specs.declared.types.CallRange.{CallRange};

use crate::calls::inlinee_of;
use crate::line_iter::LineIter;
use crate::line_run::Cuts;
use crate::locations::{calls_around, inlinees_of, line_of};
use crate::types::Inlinee;
use crate::walks::{
    all_inlinees, all_lines, inlinee_at_index, line_at_index, line_count, line_iter, line_text,
};
use bz_base::{Addr, Error, Result, around_in};
use bz_breakpad_lines::SourceLine;
use bz_breakpad_table::{CallRange, FunctionTable, KeptFunction, KeptTable, text_of};
use std::alloc::Global;
use std::marker::Model;

/// A function of a file, which lends its name. Contracts see the function with its lines and
/// inlined calls.
#[derive(Drop)]
pub struct Function<'a> {
    bytes: &'a [u8],
    code: &'a FunctionTable,
    kept: &'a KeptFunction,
    /// Its index in the order of the file, by which contracts know the function.
    index: usize,
}

impl<'a> Model for Function<'a> {
    ghost use Rattle.bz_breakpad_function.specs.Indexed.{IsKeptFunction, function_in};
    ghost use Rattle.bz_breakpad_lines.specs.Table as tables;

    ghost Value = { tables.Function };

    ghost view = { λ f. function_in f.bytes.now f.index };

    ghost invariant = { λ f. IsKeptFunction f.bytes.now f.code.now f.kept.now f.index };
}

impl<'a> Function<'a> {
    /// The function of an index in the order of a file, by the file's bytes and what is kept of them.
    pub fn new(bytes: &'a [u8], kept: &'a KeptTable, index: usize) -> Function<'a>
        requires stands { (table : Table) × (table_in bytes.now ≡ Some table) × StandsFor bytes.now table kept.now }
        requires within { index < length (functions_in bytes.now) }
        ensures { result ≡ function_in bytes.now index }
    {
        Function {
            bytes,
            code: &kept.code,
            kept: &kept.code.functions[index],
            index,
        }
    }

    /// Where the function starts, relative to the module's base.
    pub fn addr(&self) -> u64
        ensures { result ≡ self.now.start }
    {
        self.kept.start
    }

    /// Its size, in bytes.
    pub fn size(&self) -> u32
        ensures { result ≡ self.now.size }
    {
        self.kept.size
    }

    /// The size of its parameters, in bytes.
    pub fn parameter_size(&self) -> u32
        ensures { result ≡ self.now.parameter_size }
    {
        self.kept.parameter_size
    }

    /// Its name.
    pub fn name(&self) -> &'a str
        ensures { result.now ≡ self.now.name }
    {
        text_of(self.bytes, &self.kept.name)
    }

    /// How many line records it has.
    pub fn line_count(&self) -> usize
        ensures { result ≡ length self.now.lines }
    {
        line_count(self.bytes, self.code, self.kept)
    }

    /// The line record at an index, in the order of start and size; those that are alike in both stand
    /// as in the file. Finding it may take a walk over those before it.
    pub fn line(&self, index: usize) -> SourceLine
        requires { index < length self.now.lines }
        ensures { slice_get (lines_in_order self.now) index ≡ Some (line_seen result) }
    {
        line_at_index(self.bytes, self.code, self.kept, index)
    }

    /// The line records, in the order of start and size; those that are alike in both stand as in the
    /// file.
    pub fn lines(&self, alloc: Global) -> Result<Vec<SourceLine>>
        ensures lines { IfOk result (λ lines. map line_seen lines.items ≡ lines_in_order self.now) }
        ensures memory { IsOkUnless result Error.OutOfMemory }
    {
        let lines = all_lines(alloc, self.bytes, self.code, self.kept)?;
        Ok(lines)
    }

    /// The line records one after another, in the order of start and size; those that are alike in both
    /// stand as in the file.
    pub fn iter_lines(&self) -> LineIter<'a>
        ensures { result ≡ lines_in_order self.now }
    {
        line_iter(self.bytes, self.code, self.kept)
    }

    /// The text of its line records, if they are known to stand in the file one after another, each
    /// starting after the one before it. Its last line has its line feed.
    pub fn line_text(&self) -> Option<&'a [u8]>
        ensures { IfSome result (λ text. IsTextOfLines text.now (lines_in_order self.now)) }
    {
        line_text(self.bytes, self.code, self.kept)
    }

    /// How many inlined calls it has.
    pub fn inlinee_count(&self) -> usize
        ensures { result ≡ length self.now.inlinees }
    {
        inlinees_of(self.code, self.kept).len()
    }

    /// The inlined call at an index, in the order of depth and start;
    /// those that are alike in both stand as in the file.
    pub fn inlinee(&self, index: usize) -> Inlinee
        requires { index < length self.now.inlinees }
        ensures { slice_get (calls_in_order self.now) index ≡ Some (inlinee_seen result) }
    {
        inlinee_at_index(self.bytes, self.code, self.kept, index)
    }

    /// The inlined calls, in the order of depth and start; those that are alike in both stand as in the
    /// file.
    pub fn inlinees(&self, alloc: Global) -> Result<Vec<Inlinee>>
        ensures calls { IfOk result (λ calls. map inlinee_seen calls.items ≡ calls_in_order self.now) }
        ensures memory { IsOkUnless result Error.OutOfMemory }
    {
        let calls = all_inlinees(alloc, self.bytes, inlinees_of(self.code, self.kept))?;
        Ok(calls)
    }

    /// The line record that answers for an address, which is relative to the module's base.
    pub fn find_line(&self, addr: Addr) -> Option<SourceLine>
        ensures { option_map line_seen result ≡ line_at addr self.now.lines }
    {
        line_of(self.bytes, self.code, self.kept, Cuts::unknown(), addr)
    }

    /// The inlined call of a depth that has an address inside, which is relative to the module's
    /// base. Depth 0 is the outermost.
    pub fn find_inlinee_at_depth(&self, depth: u32, addr: Addr) -> Option<Inlinee>
        ensures { option_map inlinee_seen result ≡ inlinee_at depth addr self.now.inlinees }
    {
        inlinee_at(self.bytes, inlinees_of(self.code, self.kept), depth, addr)
    }

    /// The inlined calls around an address, which is relative to the module's base, the outermost
    /// first.
    pub fn find_inlinees(&self, alloc: Global, addr: Addr) -> Result<Vec<Inlinee>>
        ensures calls { IfOk result (λ calls. map inlinee_seen calls.items ≡ calls_around addr self.now.inlinees) }
        ensures memory { IsOkUnless result Error.OutOfMemory }
    {
        let ranges = calls_around(alloc, self.bytes, self.code, self.kept, addr)?;
        inlinees_at(alloc, self.bytes, &ranges)
    }
}

/// The inlined call of a depth that has the address inside, of ranges in order.
fn inlinee_at(bytes: &[u8], ranges: &[CallRange], depth: u32, addr: Addr) -> Option<Inlinee>
    ensures { (records : List CallRange) → IsTable (λ c. c.depth) call_start records ranges.now →
        option_map inlinee_seen result ≡ option_map (kept_call bytes.now) (around (λ c. c.depth) call_start (λ c. c.size) addr (inner (λ c. c.depth) call_start depth addr records)) }
{
    Some(inlinee_of(bytes, around_in(ranges, depth, addr)?))
}

/// The inlined calls of ranges, with what their records say.
fn inlinees_at(alloc: Global, bytes: &[u8], ranges: &[&CallRange]) -> Result<Vec<Inlinee>>
    ensures calls { IfOk result (λ calls. map inlinee_seen calls.items ≡ map (λ range. kept_call bytes.now range.now) ranges.now) }
    ensures memory { IsOkUnless result Error.OutOfMemory }
{
    let mut calls = Vec::with_capacity(alloc, ranges.len())?;
    for range in ranges {
        calls.push(inlinee_of(bytes, range))?;
    }
    Ok(calls)
}
