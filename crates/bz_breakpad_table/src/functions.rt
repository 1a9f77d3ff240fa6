//! The FUNC records that have been read, with what stands under them.

ghost use Rattle.std.specs.Prelude.{◌≡◌, ◌+◌, ◌≤◌, ◌∷◌, ◌++◌, [], ℕ, List, Option, None, Some, length, drop, map, option_map, IfOk, OnOk};
ghost use Rattle.bz_breakpad_lines.specs.Calls.{call_in};
ghost use Rattle.bz_breakpad_lines.specs.Line.{line_in, source_line};
ghost use Rattle.bz_breakpad_lines.specs.QuickLine.{IsQuickLine};
ghost use Rattle.bz_breakpad_lines.specs.Reader.{listed};
ghost use Rattle.bz_breakpad_lines.specs.Kinds.InnerRecord.{Inline, Line};
ghost use Rattle.bz_breakpad_lines.specs.Says.{with_inner};
ghost use Rattle.bz_breakpad_lines.specs.Table.{Function, SourceLine};
ghost use Rattle.bz_breakpad_lines.specs.Told.{call_told, function_told, inlinees_told};
ghost use Rattle.bz_breakpad_lines.specs.declared.start_text.StartText.{StartText};
ghost use Rattle.bz_breakpad_table.specs.CallRanges.{range_kept};
ghost use Rattle.bz_breakpad_table.specs.Kept.{AreEndedInOrder, AreListed, AreListedTo, FunctionsSoFar, IsLonger, IsNameAt, IsOpenRunAt, LinesFitSoFar};
ghost use Rattle.bz_breakpad_table.specs.LineKeys.{places_of};
ghost use Rattle.bz_breakpad_table.specs.declared.standing.LinesSoFar.{LinesSoFar};

use crate::line_key::line_key;
use crate::standing::LinesSoFar;
use crate::types::{CallRange, FunctionTable, KeptFunction, LineKey, LineRecords, Part};
use bz_base::{next_line, sort_nested, sort_table};
use bz_breakpad_lines::{FuncLine, InlineCall, QuickLine, Range};
use std::alloc::{AllocError, Global};

/// The functions that have been read, up to the end of a line.
#[derive(Drop)]
pub struct FunctionsReading {
    /// Those whose records are at their end.
    pub table: FunctionTable,
    /// The one whose records are being read, without its line records and inlined calls.
    pub current: Option<KeptFunction>,
    /// Its line records.
    pub lines: LinesSoFar,
    /// The keys of those that are listed, in the order of the file.
    pub listed: Vec<LineKey>,
    /// Its inlined calls.
    pub calls: Vec<CallRange>,
}

impl FunctionsReading {
    /// No functions.
    pub fn new(alloc: Global) -> FunctionsReading
        ensures { (bytes : List ℕ) → FunctionsSoFar bytes result [] None }
    {
        FunctionsReading {
            table: FunctionTable {
                functions: Vec::new(alloc),
                keys: Vec::new(alloc),
                lines: Vec::new(alloc),
                inlinees: Vec::new(alloc),
            },
            current: None,
            lines: LinesSoFar::Empty,
            listed: Vec::new(alloc),
            calls: Vec::new(alloc),
        }
    }

    /// Those whose records are at their end.
    pub fn into_table(self) -> FunctionTable
        ensures { result ≡ self.table }
    {
        self.table
    }

    /// Ends the function whose records are being read.
    pub fn close(&mut self) -> Result<(), AllocError>
        ensures { OnOk result ((bytes : List ℕ) (closed : List Function) (current : Option Function) →
            FunctionsSoFar bytes self.old closed current → FunctionsSoFar bytes self.new (closed ++ listed current) None) }
    {
        if let Some(mut function) = self.current {
            let from = self.table.inlinees.len();
            let lines = ended_lines(self.lines, &mut self.listed, &mut self.table.lines)?;
            sort_nested(&mut self.calls)?;
            self.table.inlinees.extend_from_slice(&self.calls)?;
            let inlinees = Part::new(from, self.table.inlinees.len())?;
            function.lines = lines;
            function.inlinees = inlinees;
            self.table.functions.push(function)?;
            self.current = None;
        }
        Ok(())
    }

    /// Begins a function, where the one before is at its end.
    pub fn begin(&mut self, func: &FuncLine<'_>, name: Part)
        ensures { (bytes : List ℕ) (closed : List Function) → IsNameAt bytes name func.now.name.now → FunctionsSoFar bytes self.old closed None →
            FunctionsSoFar bytes self.new closed (Some (function_told func.now)) }
    {
        self.current = Some(KeptFunction {
            start: func.start,
            size: func.size,
            parameter_size: func.parameter_size,
            name,
            lines: LineRecords::Run(Part { from: 0, to: 0 }),
            inlinees: Part { from: 0, to: 0 },
        });
        self.lines = LinesSoFar::Empty;
        self.listed.clear();
        self.calls.clear();
    }

    /// Keeps the line record at a place in the bytes, which was read quickly.
    #[inline(always)]
    pub fn line(&mut self, bytes: &[u8], place: usize, line: QuickLine) -> Result<(), AllocError>
        requires within { place + line.len ≤ length bytes.now }
        requires fits { LinesFitSoFar bytes.now self.old.listed.items self.old.lines }
        ensures { OnOk result ((closed : List Function) (current : Option Function) (rest : List ℕ) (is : IsQuickLine rest line) →
            drop place bytes.now ≡ rest → FunctionsSoFar bytes.now self.old closed current →
            FunctionsSoFar bytes.now self.new closed (option_map (λ f. with_inner f (Line (source_line is.value) ∷ [])) current)) }
    {
        let part = Part::new(place, place + line.len)?;
        match self.lines.run_with(part, line.start) {
            Some(lines) => self.lines = lines,
            None => self.list(bytes, place)?,
        }
        Ok(())
    }

    /// Keeps the line record at a place in the bytes, in the list.
    #[inline(never)]
    pub fn list(&mut self, bytes: &[u8], place: usize) -> Result<(), AllocError>
        requires { LinesFitSoFar bytes.now self.old.listed.items self.old.lines }
        ensures { OnOk result ((closed : List Function) (current : Option Function) (line : SourceLine) → line_in (drop place bytes.now) ≡ Some line →
            FunctionsSoFar bytes.now self.old closed current →
            FunctionsSoFar bytes.now self.new closed (option_map (λ f. with_inner f (Line line ∷ [])) current)) }
    {
        list_with(self.lines, &mut self.listed, bytes, place)?;
        self.lines = LinesSoFar::Listed;
        Ok(())
    }

    /// Keeps an inlined call for each of the ranges of the INLINE record at a place in the bytes.
    pub fn inline(
        &mut self,
        call: &InlineCall,
        ranges: &[Range],
        place: usize,
    ) -> Result<(), AllocError>
        ensures { OnOk result ((bytes : List ℕ) (closed : List Function) (current : Option Function) → call_in (drop place bytes) ≡ Some (call_told call.now) →
            FunctionsSoFar bytes self.old closed current →
            FunctionsSoFar bytes self.new closed (option_map (λ f. with_inner f (Inline (inlinees_told call.now ranges.now) ∷ [])) current)) }
    {
        keep_ranges(&mut self.calls, call.depth, ranges, place)
    }
}

/// The line records of a function that ends. Those that are listed stand in the table of places then,
/// by start and size.
fn ended_lines(
    lines: LinesSoFar,
    keys: &mut Vec<LineKey>,
    places: &mut Vec<usize>,
) -> Result<LineRecords, AllocError>
    ensures more { OnOk result ((more : List ℕ) × (places.new.items ≡ places.old.items ++ more)) }
    ensures fit { OnOk result ((bytes : List ℕ) → LinesFitSoFar bytes keys.old.items lines → LinesFitSoFar bytes keys.new.items lines) }
    ensures ended { IfOk result (λ records. (bytes : List ℕ) → LinesFitSoFar bytes keys.old.items lines →
        AreEndedInOrder bytes places.new.items keys.old.items lines records) }
{
    match lines {
        LinesSoFar::Empty => Ok(LineRecords::Run(Part { from: 0, to: 0 })),
        LinesSoFar::Run(run, _) => Ok(LineRecords::Run(run)),
        LinesSoFar::Listed => {
            sort_table(keys)?;
            let from = places.len();
            keep_places(places, keys)?;
            Ok(LineRecords::Listed(Part::new(from, places.len())?))
        }
    }
}

/// Adds the places of the keys' line records.
fn keep_places(places: &mut Vec<usize>, keys: &[LineKey]) -> Result<(), AllocError>
    ensures { OnOk result (places.new.items ≡ places.old.items ++ places_of keys.now) }
{
    for key in keys {
        places.push(key.place)?;
    }
    Ok(())
}

/// Lists the line records so far and the one at a place.
fn list_with(
    lines: LinesSoFar,
    keys: &mut Vec<LineKey>,
    bytes: &[u8],
    place: usize,
) -> Result<(), AllocError>
    requires { LinesFitSoFar bytes.now keys.old.items lines }
    ensures { OnOk result ((line : SourceLine) → line_in (drop place bytes.now) ≡ Some line →
        IsLonger bytes.now keys.old.items keys.new.items lines LinesSoFar.Listed line) }
{
    list_all(lines, keys, bytes)?;
    keys.push(line_key(bytes, place))?;
    Ok(())
}

/// Lists the line records so far, if they aren't.
fn list_all(lines: LinesSoFar, keys: &mut Vec<LineKey>, bytes: &[u8]) -> Result<(), AllocError>
    requires { LinesFitSoFar bytes.now keys.old.items lines }
    ensures { OnOk result (AreListed bytes.now keys.old.items keys.new.items lines) }
{
    match lines {
        LinesSoFar::Empty => Ok(()),
        LinesSoFar::Run(run, _) => list_run(keys, bytes, run),
        LinesSoFar::Listed => Ok(()),
    }
}

/// Lists a run's line records.
fn list_run(keys: &mut Vec<LineKey>, bytes: &[u8], run: Part) -> Result<(), AllocError>
    requires run { (last : StartText) × IsOpenRunAt bytes.now run last }
    requires none { keys.old.items ≡ [] }
    ensures { OnOk result (AreListedTo bytes.now run [] keys.new.items) }
{
    let mut rest = &bytes[run.from as usize..run.to as usize];
    while let Some((_line, after)) = next_line(rest) {
        keys.push(line_key(bytes, run.to as usize - rest.len()))?;
        rest = after;
    }
    Ok(())
}

/// Keeps an inlined call for each of the ranges of the INLINE record at a place. Want of memory also
/// where the place is 4 GiB or more, which can't be kept.
fn keep_ranges(
    calls: &mut Vec<CallRange>,
    depth: u32,
    ranges: &[Range],
    place: usize,
) -> Result<(), AllocError>
    ensures { OnOk result (calls.new.items ≡ calls.old.items ++ map (range_kept depth place) ranges.now) }
{
    if place > u32::MAX as usize {
        return Err(AllocError);
    }
    for range in ranges {
        calls.push(call_range(depth, range, place as u32))?;
    }
    Ok(())
}

/// What is kept of a range of the INLINE record at a place.
fn call_range(depth: u32, range: &Range, place: u32) -> CallRange
    ensures { result ≡ range_kept depth place range.now }
{
    CallRange {
        high: (range.addr / 4_294_967_296) as u32,
        low: (range.addr % 4_294_967_296) as u32,
        size: range.size,
        depth,
        place,
    }
}
