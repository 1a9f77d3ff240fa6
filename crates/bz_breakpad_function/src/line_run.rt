//! The search in a run: line records that stand one after another in a file, each starting after the
//! one before it. Hints say where a run is likely to be cut.

ghost use Rattle.std.specs.Prelude.{◌≡◌, ◌≤◌, ◌-◌, length, take, true, option_map, IfSome, IfNone};
ghost use Rattle.bz_base.specs.Line.{all_lines};
ghost use Rattle.bz_base.specs.Nearest.{nearest_covering};
ghost use Rattle.bz_breakpad_lines.specs.Told.{line_seen};
ghost use Rattle.bz_breakpad_table.specs.Kept.{IsRunAt, text_at};
ghost use Rattle.bz_breakpad_table.specs.LineRun.{IsCut, IsRunFront, lines_in};

use crate::lines::line_if_covers;
use bz_base::Addr;
use bz_breakpad_lines::{SourceLine, line_feeds, line_len, start_at, start_of};
use bz_breakpad_table::Part;

/// About how long a line record is, in bytes.
pub(crate) const LINE_LEN: usize = 16;

/// Two places where a run is likely to be cut, each where a line begins; 0 where none is known.
#[derive(Clone, Copy)]
pub struct Cuts {
    /// The first place, from the run's beginning.
    first: usize,
    /// The second one, from there too.
    second: usize,
}

impl Cuts {
    /// Nothing is known.
    pub fn unknown() -> Cuts {
        Cuts {
            first: 0,
            second: 0,
        }
    }
}

/// The line record of a run in a part of the bytes that answers for the address. It is the same
/// whatever the hints are.
pub(crate) fn line_in_run(bytes: &[u8], run: &Part, hints: Cuts, addr: Addr) -> Option<SourceLine>
    requires { IsRunAt bytes.now run.now }
    ensures { option_map line_seen result ≡ nearest_covering (λ l. l.start) (λ l. l.size) addr (lines_in (text_at bytes.now run.now)) }
{
    let len = (run.to - run.from) as usize;
    line_in_front(run_front(bytes, run), len, hints, addr)
}

/// A run with what stands after it in the bytes, since a load of its last line shows more bytes.
#[inline(always)]
pub(crate) fn run_front<'a>(bytes: &'a [u8], run: &Part) -> &'a [u8]
    requires { IsRunAt bytes.now run.now }
    ensures front { IsRunFront result.now (run.now.to - run.now.from) }
    ensures text { take (run.now.to - run.now.from) result.now ≡ text_at bytes.now run.now }
{
    &bytes[run.from as usize..]
}

/// The line record that answers for the address, of a run that is so many bytes of the text.
fn line_in_front(text: &[u8], len: usize, hints: Cuts, addr: Addr) -> Option<SourceLine>
    requires { IsRunFront text.now len }
    ensures { option_map line_seen result ≡ nearest_covering (λ l. l.start) (λ l. l.size) addr (lines_in (take len text.now)) }
{
    let mut rest = text;
    let mut len = len;
    let mut hint = hints.first;
    let mut next = hints.second;
    while let Some(cut) = cut_by(rest, len, hint) {
        hint = next;
        next = 0;
        if start_at(rest, cut) <= addr {
            rest = &rest[cut..];
            len -= cut;
            hint = hint.saturating_sub(cut);
        } else {
            len = cut;
        }
    }
    only_line(rest, len, addr)
}

/// Where the line record for an address is likely to stand in a run. Each byte of code is taken to
/// need as much text as any other.
#[derive(Clone, Copy)]
pub struct Guess {
    /// The run, in the file's bytes.
    run: Part,
    /// How many bytes of text 65536 bytes of code take.
    pace: u64,
    /// The place of the record, from the run's beginning.
    near: usize,
}

impl Guess {
    /// No record.
    pub fn none() -> Guess {
        Guess {
            run: Part { from: 0, to: 0 },
            pace: 0,
            near: 0,
        }
    }

    /// The record for the code that lies so far in the function, which has so many bytes.
    pub fn at(run: Part, offset: u64, size: u32) -> Guess {
        let len = run.to.saturating_sub(run.from);
        let pace = (u64::from(len) << 16) / (u64::from(size) + 1);
        Guess {
            run,
            pace,
            near: paced(offset, pace).min(len as usize),
        }
    }

    /// Where it is in the file's bytes.
    pub fn place(&self) -> usize {
        (self.run.from as usize).saturating_add(self.near)
    }

    /// Where the last byte of its run is in the file's bytes.
    pub fn last(&self) -> usize {
        (self.run.to as usize).saturating_sub(1)
    }

    /// Where its run is to be cut for the address. The first place is the line after a place a
    /// little before the guess. The second is guessed again, from that line and its start: a little
    /// past, or a little before where that line starts above the address.
    pub fn cuts(&self, bytes: &[u8], addr: Addr) -> Cuts {
        match bytes.get(self.run.from as usize..) {
            Some(text) => self.cuts_in(text, addr),
            None => Cuts::unknown(),
        }
    }

    /// The same, where the text begins as its run does.
    fn cuts_in(&self, text: &[u8], addr: Addr) -> Cuts {
        let len = self.run.to.saturating_sub(self.run.from) as usize;
        if len > text.len() {
            return Cuts::unknown();
        }
        let first = cut_if_near(text, len, self.near.saturating_sub(LINE_LEN));
        if first >= len {
            return Cuts::unknown();
        }
        let place = self.place_beside(first, start_of(&text[first..]), addr);
        Cuts {
            first,
            second: cut_if_near(text, len, place),
        }
    }

    /// A place near the record for the address, by a line at a place and that line's start.
    fn place_beside(&self, line: usize, start: u64, addr: Addr) -> usize {
        if start <= addr {
            line.saturating_add(paced(addr - start, self.pace))
                .saturating_add(LINE_LEN)
        } else {
            line.saturating_sub(paced(start - addr, self.pace))
                .saturating_sub(2 * LINE_LEN)
        }
    }
}

/// How many bytes of text so many bytes of code take.
fn paced(code: u64, pace: u64) -> usize {
    (code.saturating_mul(pace) >> 16) as usize
}

/// Where the next line after a place within so many bytes of the text begins; 0 if one load doesn't
/// show it.
fn cut_if_near(text: &[u8], len: usize, place: usize) -> usize
    requires { len ≤ length text.now }
{
    if place > len {
        return 0;
    }
    cut_near(text, len, place).unwrap_or(0)
}

/// Where so many bytes of the text are cut in two behind a line feed: by the hint if that is such a
/// place. Else they are cut near their middle, or behind their first line.
/// None if they have one line at most.
#[inline(always)]
fn cut_by(text: &[u8], len: usize, hint: usize) -> Option<usize>
    requires { len ≤ length text.now }
    ensures cut { IfSome result (IsCut (take len text.now)) }
    ensures none { IfNone result (length (all_lines (take len text.now)) ≤ 1) }
{
    if is_cut(&text[..len], hint) {
        Some(hint)
    } else {
        cut_of(text, len)
    }
}

/// True only where a line begins at a place within the text.
#[inline(always)]
fn is_cut(text: &[u8], place: usize) -> bool
    ensures { result ≡ true → IsCut text.now place }
{
    0 < place && place < text.len() && text[place - 1] == b'\n'
}

/// Where so many bytes are cut in two behind a line feed: near their middle, or else behind their
/// first line. None if they have one line at most.
fn cut_of(text: &[u8], len: usize) -> Option<usize>
    requires { len ≤ length text.now }
    ensures cut { IfSome result (IsCut (take len text.now)) }
    ensures none { IfNone result (length (all_lines (take len text.now)) ≤ 1) }
{
    match cut_near(text, len, len / 2) {
        Some(cut) => Some(cut),
        None => first_cut(text, len),
    }
}

/// Where the next line after a place begins, if one load shows it.
#[inline(always)]
fn cut_near(text: &[u8], len: usize, place: usize) -> Option<usize>
    requires len { len ≤ length text.now }
    requires place { place ≤ len }
    ensures { IfSome result (IsCut (take len text.now)) }
{
    if text.len() - place < 32 {
        return None;
    }
    let cut = place + line_feeds(&text[place..]).trailing_zeros() as usize + 1;
    if is_cut(&text[..len], cut) {
        Some(cut)
    } else {
        None
    }
}

/// Where the second line begins.
fn first_cut(text: &[u8], len: usize) -> Option<usize>
    requires { len ≤ length text.now }
    ensures cut { IfSome result (IsCut (take len text.now)) }
    ensures none { IfNone result (length (all_lines (take len text.now)) ≤ 1) }
{
    let cut = line_len(text) + 1;
    if cut < len { Some(cut) } else { None }
}

/// The only line record of a run that is so many bytes of the text, if it covers the address.
#[inline(always)]
fn only_line(text: &[u8], len: usize, addr: Addr) -> Option<SourceLine>
    requires run { IsRunFront text.now len }
    requires only { length (all_lines (take len text.now)) ≤ 1 }
    ensures { option_map line_seen result ≡ nearest_covering (λ l. l.start) (λ l. l.size) addr (lines_in (take len text.now)) }
{
    if len == 0 {
        None
    } else {
        line_if_covers(text, 0, addr)
    }
}
