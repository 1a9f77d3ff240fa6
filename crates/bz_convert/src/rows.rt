//! The rows of a function.

ghost use Rattle.std.specs.Prelude.{◌≡◌, ◌<◌, ◌≤◌, ◌+◌, ◌++◌, ℕ, min, true, None, map, option_map, IfOk, IfSome, OnOk};
ghost use Rattle.bz_breakpad_function.specs.InOrder.{lines_in_order};
ghost use Rattle.bz_breakpad_function.specs.Locations.{line_at};
ghost use Rattle.bz_breakpad_lines.specs.Told.{line_seen};
ghost use Rattle.bz_convert.specs.Apart.{LieApart, gap_between};
ghost use Rattle.bz_convert.specs.Plan.{changes, is_checked, same_line};
ghost use Rattle.bz_convert.specs.Points.{ArePoints, gap_of, point_within, row_seen};
ghost use Rattle.bz_convert.specs.Fault.{◌or◌};
ghost use Rattle.bz_convert.specs.Rows.{gap_from, row_by, rows_from};

use bz_base::{Spanned, sort_table};
use bz_breakpad::{Function, SourceLine};
use std::alloc::{AllocError, Global};

/// An address of a function at which another line record may answer than at the one before.
#[derive(Clone, Copy)]
pub(crate) struct Point {
    pub addr: u64,
}

impl Spanned for Point {
    ghost start = { λ p. p.addr };

    ghost size = { λ _. 0 };

    fn start(&self) -> u64 {
        self.addr
    }

    fn size(&self) -> u64 {
        0
    }
}

/// A row of a function: the line record that answers from an address on.
#[derive(Clone, Copy)]
pub(crate) struct LineRow {
    /// The address, relative to the module's base.
    pub addr: u64,
    /// The record.
    pub line: SourceLine,
}

/// The rows of a function, and the first address without a line above one that has a line.
#[derive(Drop)]
pub(crate) struct Walked {
    pub rows: Vec<LineRow>,
    pub gap: Option<u64>,
}

/// Walks over a function that has a size and these line records, and whose end fits 64 bits.
pub(crate) fn walk_records(
    alloc: Global,
    function: &Function<'_>,
    lines: &[SourceLine],
) -> Result<Walked, AllocError>
    requires checked { is_checked function.now ≡ true }
    requires lines { map line_seen lines.now ≡ lines_in_order function.now }
    ensures rows { IfOk result (λ walked. map row_seen walked.rows.items ≡ changes function.now) }
    ensures gap { IfOk result (λ walked. walked.gap ≡ gap_from (λ addr. line_at addr function.now.lines) None function.now.start function.now.size) }
{
    if lie_apart(lines) {
        return walk_apart(alloc, function, lines);
    }
    let points = points_of(alloc, function, lines)?;
    walk_points(alloc, function, &points)
}

/// Whether each line record has a size, and ends before the next one starts, or where it does.
fn lie_apart(lines: &[SourceLine]) -> bool
    ensures { result ≡ true → LieApart 0 (map line_seen lines.now) }
{
    let mut reached = 0;
    for line in lines {
        match end_behind(line, reached) {
            Some(end) => reached = end,
            None => return false,
        }
    }
    true
}

/// Where a line record ends that has a size and doesn't start before an address, if 64 bits count that.
fn end_behind(line: &SourceLine, reached: u64) -> Option<u64>
    ensures { IfSome result (λ end. (reached ≤ line.now.addr) × (0 < line.now.size) × (end ≡ line.now.addr + line.now.size)) }
{
    if line.size == 0 || line.addr < reached {
        return None;
    }
    line.addr.checked_add(u64::from(line.size))
}

/// Walks over the addresses of a function whose line records lie apart: each has one row at most, and
/// none answers between two of them.
fn walk_apart(
    alloc: Global,
    function: &Function<'_>,
    lines: &[SourceLine],
) -> Result<Walked, AllocError>
    requires checked { is_checked function.now ≡ true }
    requires lines { map line_seen lines.now ≡ lines_in_order function.now }
    requires apart { LieApart 0 (map line_seen lines.now) }
    ensures rows { IfOk result (λ walked. map row_seen walked.rows.items ≡ changes function.now) }
    ensures gap { IfOk result (λ walked. walked.gap ≡ gap_from (λ addr. line_at addr function.now.lines) None function.now.start function.now.size) }
{
    let start = function.addr();
    let end = start + u64::from(function.size());
    let mut rows = Vec::with_capacity(alloc, lines.len())?;
    let mut gap = None;
    let mut reached = start;
    for line in lines {
        let from = line.addr.max(start);
        let to = end_within(line, end);
        if from < to {
            gap = gap_before(gap, start, reached, from);
            rows.push(LineRow {
                addr: from,
                line: *line,
            })?;
            reached = to;
        }
    }
    gap = gap_before(gap, start, reached, end);
    Ok(Walked { rows, gap })
}

/// Where a line record ends before the end of a function, or that end.
fn end_within(line: &SourceLine, end: u64) -> u64
    ensures { result ≡ min (line.now.addr + line.now.size) end }
{
    line.addr.saturating_add(u64::from(line.size)).min(end)
}

/// A gap, or else the one from an address on up to the next line record or the function's end. No gap
/// begins at the function's start.
fn gap_before(gap: Option<u64>, start: u64, reached: u64, next: u64) -> Option<u64>
    ensures { result ≡ (gap or gap_between start reached next) }
{
    if gap.is_none() && start < reached && reached < next {
        return Some(reached);
    }
    gap
}

/// Walks over the points of a function.
fn walk_points(
    alloc: Global,
    function: &Function<'_>,
    points: &[Point],
) -> Result<Walked, AllocError>
    ensures rows { IfOk result (λ walked. ArePoints function.now (map (λ p. p.addr) points.now) →
        map row_seen walked.rows.items ≡ rows_from same_line (λ addr. line_at addr function.now.lines) None function.now.start function.now.size) }
    ensures gap { IfOk result (λ walked. ArePoints function.now (map (λ p. p.addr) points.now) →
        walked.gap ≡ gap_from (λ addr. line_at addr function.now.lines) None function.now.start function.now.size) }
{
    let mut rows = Vec::new(alloc);
    let mut gap = None;
    let mut before = None;
    for point in points {
        let line = function.find_line(point.addr);
        gap = first_gap(gap, point.addr, before, line);
        push_row(&mut rows, point.addr, before, line)?;
        before = line;
    }
    Ok(Walked { rows, gap })
}

/// A gap, or else the one at an address, by the records that answer before it and there.
fn first_gap(
    gap: Option<u64>,
    addr: u64,
    before: Option<SourceLine>,
    line: Option<SourceLine>,
) -> Option<u64>
    ensures { result ≡ (gap or gap_of addr (option_map line_seen before) (option_map line_seen line)) }
{
    if gap.is_none() && before.is_some() && line.is_none() {
        return Some(addr);
    }
    gap
}

/// Adds the row at an address, if another record answers there than before.
fn push_row(
    rows: &mut Vec<LineRow>,
    addr: u64,
    before: Option<SourceLine>,
    line: Option<SourceLine>,
) -> Result<(), AllocError>
    ensures { OnOk result (map row_seen rows.new.items ≡ map row_seen rows.old.items ++ row_by same_line addr (option_map line_seen before) (option_map line_seen line)) }
{
    let Some(line) = line else {
        return Ok(());
    };
    if let Some(former) = before {
        if former == line {
            return Ok(());
        }
    }
    rows.push(LineRow { addr, line })?;
    Ok(())
}

/// The points of a function, by address. They are its start, and of each line record the start, the
/// second address and the end, as far as they lie in the function. One may stand there several times.
fn points_of(
    alloc: Global,
    function: &Function<'_>,
    lines: &[SourceLine],
) -> Result<Vec<Point>, AllocError>
    requires checked { is_checked function.now ≡ true }
    requires lines { map line_seen lines.now ≡ lines_in_order function.now }
    ensures { IfOk result (λ points. ArePoints function.now (map (λ p. p.addr) points.items)) }
{
    let start = function.addr();
    let end = start + u64::from(function.size());
    let mut points = Vec::new(alloc);
    points.push(Point { addr: start })?;
    for line in lines {
        push_point(&mut points, start, end, line.addr, 0)?;
        push_point(&mut points, start, end, line.addr, 1)?;
        push_point(&mut points, start, end, line.addr, u64::from(line.size))?;
    }
    sort_table(&mut points)?;
    Ok(points)
}

/// Adds the address so far behind another one as a point, if it lies in a function.
fn push_point(
    points: &mut Vec<Point>,
    start: u64,
    end: u64,
    addr: u64,
    behind: u64,
) -> Result<(), AllocError>
    ensures { OnOk result (points.new.items ≡ points.old.items ++ point_within start end (addr + behind)) }
{
    if let Some(addr) = addr.checked_add(behind) {
        if start <= addr && addr < end {
            points.push(Point { addr })?;
        }
    }
    Ok(())
}
