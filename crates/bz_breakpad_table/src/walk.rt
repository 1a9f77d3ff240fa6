//! The walk over a file's lines: what a line is depends on the record before it. Unlike `Before`, it
//! keeps what each line says, and reads runs of lines quickly.

ghost use Rattle.std.specs.Prelude.{◌≡◌, ◌<◌, ◌≤◌, ◌+◌, ◌^◌, ℕ, List, false, length, IfSome, IfNone, IfOk, IfErr, OnOk};
ghost use Rattle.bz_base.specs.declared.error.Error.{Error};
ghost use Rattle.bz_breakpad_lines.specs.Contexts.{Context};
ghost use Rattle.bz_breakpad_lines.specs.Contexts.Context.{InFunc, Outside};
ghost use Rattle.bz_breakpad_lines.specs.Reader.{Reading, nothing_read, reading_in};
ghost use Rattle.bz_breakpad_lines.specs.Stops.{AreStops};
ghost use Rattle.bz_breakpad_lines.specs.Told.{context_told};
ghost use Rattle.bz_breakpad_table.specs.Kept.{LinesFitSoFar};
ghost use Rattle.bz_breakpad_table.specs.Refusal.{Refuses};
ghost use Rattle.bz_breakpad_table.specs.Walked.{GoesOn, IsLineAt, IsMidway, IsRefused, IsStep, IsWalked};

use crate::before::{is_late_module, record_in};
use crate::reading::{KeptReading, name_part};
use crate::standing::LinesSoFar;
use crate::types::Part;
use bz_base::{Error, Result, next_line};
use bz_breakpad_lines::{
    Context, Range, Shown, StartText, Stops, after_white, cfi_line, func_line, inline_line,
    is_blank_line, next_on_run, quick_line,
};
use std::alloc::{AllocError, Global};

/// The walk, at the end of a line.
#[derive(Drop)]
pub struct Walk {
    /// What has been read.
    pub kept: KeptReading,
    /// The ranges of the last INLINE record.
    pub ranges: Vec<Range>,
    /// The record under which the next line may stand.
    pub context: Context,
    /// Whether white space may stand before the next line.
    pub white_allowed: bool,
    /// How many records there were.
    pub count: usize,
}

impl Walk {
    /// The walk at the front of a file.
    pub fn new(alloc: Global) -> Walk
        ensures walked { (bytes : List ℕ) → IsWalked bytes result nothing_read }
        ensures context { context_told result.context ≡ Outside }
        ensures white_allowed { result.white_allowed ≡ false }
    {
        Walk {
            kept: KeptReading::new(alloc),
            ranges: Vec::new(alloc),
            context: Context::Outside,
            white_allowed: false,
            count: 0,
        }
    }

    /// Reads the first line of the rest of a text, and maybe more, and returns the rest after them.
    #[inline(always)]
    pub fn next<'a>(&mut self, text: &[u8], rest: &'a [u8]) -> Result<&'a [u8]>
        requires midway { IsMidway text.now rest.now self.old }
        requires positive { 0 < length rest.now }
        ensures ok { IfOk result (λ after. IsMidway text.now after.now self.new) }
        ensures shorter { IfOk result (λ after. length after.now < length rest.now) }
        ensures refusal { IfErr result (Refuses (reading_in text.now)) }
    {
        let found = match rest {
            [b'I', ..] => self.inline(text, rest)?,
            [b'F', b'U', ..] => self.func(text, rest)?,
            [b'S', ..] => self.cfi(text, rest),
            _ => self.lines(text, rest)?,
        };
        match found {
            Some(after) => Ok(after),
            None => self.general(text, rest),
        }
    }

    /// Reads the first line of the rest of a text quickly, if it is an INLINE record, and returns the
    /// rest after it.
    fn inline<'a>(&mut self, text: &[u8], rest: &'a [u8]) -> Result<Option<&'a [u8]>>
        requires midway { IsMidway text.now rest.now self.old }
        ensures ok { IfOk result (λ found. IfSome found (λ after. IsMidway text.now after.now self.new)) }
        ensures shorter { IfOk result (λ found. IfSome found (λ after. length after.now < length rest.now)) }
        ensures none { IfOk result (λ found. IfNone found (IsMidway text.now rest.now self.new)) }
        ensures refusal { IfErr result (Refuses (reading_in text.now)) }
    {
        let Context::InFunc = self.context else {
            return Ok(None);
        };
        let Some((call, after)) = inline_line(&mut self.ranges, rest)? else {
            return Ok(None);
        };
        self.kept
            .functions
            .inline(&call, self.ranges.as_slice(), text.len() - rest.len())?;
        self.white_allowed = false;
        self.count += 1;
        Ok(Some(after))
    }

    /// Reads the first line of the rest of a text quickly, if it is a STACK CFI record under a
    /// STACK CFI INIT record. Returns the rest after it.
    #[inline(always)]
    fn cfi<'a>(&mut self, text: &[u8], rest: &'a [u8]) -> Option<&'a [u8]>
        requires midway { IsMidway text.now rest.now self.old }
        ensures ok { IfSome result (λ after. IsMidway text.now after.now self.new) }
        ensures shorter { IfSome result (λ after. length after.now < length rest.now) }
        ensures none { IfNone result (IsMidway text.now rest.now self.new) }
    {
        let Context::InCfi = self.context else {
            return None;
        };
        let after = cfi_line(rest)?;
        self.white_allowed = false;
        self.count += 1;
        Some(after)
    }

    /// Reads the first line of the rest of a text quickly, if it is a FUNC record, and returns the rest
    /// after it.
    fn func<'a>(&mut self, text: &[u8], rest: &'a [u8]) -> Result<Option<&'a [u8]>>
        requires midway { IsMidway text.now rest.now self.old }
        ensures ok { IfOk result (λ found. IfSome found (λ after. IsMidway text.now after.now self.new)) }
        ensures shorter { IfOk result (λ found. IfSome found (λ after. length after.now < length rest.now)) }
        ensures none { IfOk result (λ found. IfNone found (IsMidway text.now rest.now self.new)) }
        ensures refusal { IfErr result (Refuses (reading_in text.now)) }
    {
        let Some((func, after)) = func_line(rest) else {
            return Ok(None);
        };
        // A line feed stands between the name and the rest.
        let name = name_part(func.name, text.len() - after.len() - 1)?;
        self.kept.functions.close()?;
        self.kept.functions.begin(&func, name);
        self.context = Context::InFunc;
        self.white_allowed = true;
        self.count += 1;
        Ok(Some(after))
    }

    /// Reads the first line of the rest of a text quickly, if it is a line record, and those that go on
    /// its run. Returns the rest after them.
    #[inline(always)]
    fn lines<'a>(&mut self, text: &[u8], rest: &'a [u8]) -> Result<Option<&'a [u8]>>
        requires midway { IsMidway text.now rest.now self.old }
        ensures ok { IfOk result (λ found. IfSome found (λ after. IsMidway text.now after.now self.new)) }
        ensures shorter { IfOk result (λ found. IfSome found (λ after. length after.now < length rest.now)) }
        ensures none { IfOk result (λ found. IfNone found (IsMidway text.now rest.now self.new)) }
        ensures refusal { IfErr result (Refuses (reading_in text.now)) }
    {
        let Context::InFunc = self.context else {
            return Ok(None);
        };
        if rest.len() < 64 {
            return Ok(None);
        }
        let stops = Stops::at_front(rest);
        let Some(line) = quick_line(Shown { text: rest, stops }) else {
            return Ok(None);
        };
        self.kept
            .functions
            .line(text, text.len() - rest.len(), line)?;
        self.white_allowed = false;
        self.count += 1;
        let left = self.run_on(text, &rest[line.len..], stops.after(line.len))?;
        Ok(Some(left))
    }

    /// Reads the line records quickly that go on the run of the last one, of which bytes may be shown.
    /// Returns the rest after them.
    #[inline(always)]
    fn run_on<'a>(
        &mut self,
        text: &[u8],
        rest: &'a [u8],
        stops: Stops,
    ) -> std::result::Result<&'a [u8], AllocError>
        requires midway { IsMidway text.now rest.now self.old }
        requires stops { AreStops rest.now stops }
        requires in_func { context_told self.old.context ≡ InFunc }
        requires white_allowed { self.old.white_allowed ≡ false }
        ensures midway { IfOk result (λ after. IsMidway text.now after.now self.new) }
        ensures within { IfOk result (λ after. length after.now ≤ length rest.now) }
    {
        let place = text.len() - rest.len();
        let Some((run, start)) = self.kept.functions.lines.run_up_to(place) else {
            return Ok(rest);
        };
        let end = pass_run(rest, start, stops);
        let whole = Part::new(run.from as usize, text.len() - end.left.len())?;
        self.kept.functions.lines = LinesSoFar::Run(whole, end.last);
        self.count += end.count;
        Ok(end.left)
    }

    /// Reads the first line of the rest of a text, in any form, and returns the rest after it.
    #[inline(never)]
    fn general<'a>(&mut self, text: &[u8], rest: &'a [u8]) -> Result<&'a [u8]>
        requires midway { IsMidway text.now rest.now self.old }
        requires positive { 0 < length rest.now }
        ensures ok { IfOk result (λ after. IsMidway text.now after.now self.new) }
        ensures shorter { IfOk result (λ after. length after.now < length rest.now) }
        ensures refusal { IfErr result (Refuses (reading_in text.now)) }
    {
        let Some((line, after)) = next_line(rest) else {
            return Err(Error::InvalidInput);
        };
        self.line(text, text.len() - rest.len(), line)?;
        Ok(after)
    }

    /// Reads the line at a place in the bytes.
    fn line(&mut self, bytes: &[u8], start: usize, line: &[u8]) -> Result<()>
        requires room { start + length line.now < 2 ^ 63 }
        requires few { self.old.count ≤ start }
        requires fits { LinesFitSoFar bytes.now self.old.kept.functions.listed.items self.old.kept.functions.lines }
        ensures ok { OnOk result ((reading : Reading) → IsLineAt bytes.now start line.now → IsWalked bytes.now self.old reading →
            IsStep bytes.now self.old self.new line.now reading) }
        ensures refusal { IfErr result (IsRefused self.old line.now) }
        ensures few { OnOk result (self.new.count ≤ self.old.count + 1) }
    {
        let text = after_white(self.white_allowed, line);
        if is_blank_line(self.white_allowed, text) {
            return Ok(());
        }
        let Some((found, body)) = record_in(&mut self.ranges, self.context, text)? else {
            return Err(Error::InvalidInput);
        };
        if is_late_module(&found, self.count > 0) {
            return Err(Error::InvalidInput);
        }
        let place = start + (line.len() - text.len());
        self.context = found.context_after();
        self.white_allowed = found.white_allowed_after();
        self.kept.record(
            bytes,
            found,
            self.ranges.as_slice(),
            place,
            place + body.len(),
        )?;
        self.count += 1;
        Ok(())
    }
}

/// Where line records end that go on a run.
#[derive(Clone, Copy)]
struct RunEnd<'a> {
    /// What stands after them.
    left: &'a [u8],
    /// The text of the last start.
    last: StartText,
    /// How many they are.
    count: usize,
}

/// Passes the line records that go on a run with this last start, of which bytes may be shown. What it
/// finds is in registers, and not in the walk, until the run is at its end.
#[inline(always)]
fn pass_run<'a>(rest: &'a [u8], start: StartText, stops: Stops) -> RunEnd<'a>
    requires stops { AreStops rest.now stops }
    requires positive { 0 < start.digits }
    requires few { start.digits ≤ 8 }
    ensures goes_on { GoesOn rest.now start result.left.now result.last result.count }
    ensures few { result.count + length result.left.now ≤ length rest.now }
{
    let mut left = rest;
    let mut stops = stops;
    let mut last = start;
    let mut count = 0;
    while let Some(next) = next_on_run(Shown { text: left, stops }, last) {
        left = &left[next.len..];
        stops = next.stops;
        last = next.start;
        count += 1;
    }
    RunEnd { left, last, count }
}
