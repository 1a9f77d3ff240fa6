//! The line table of a symbol.

ghost use Rattle.std.specs.Prelude.{◌≡◌, ◌+◌, ◌<◌, ◌/◌, ◌%◌, ◌+ℤ◌, ◌≤◌, pos, drop, false, length, option_map, Some, None, IfNone, IfSome, IsTrue};
ghost use Rattle.bz_base.specs.Cursor.{with_rest};
ghost use Rattle.bz_gsym.specs.LineTable.{behind_delta, first_state, header_at, line_in, low_half, operated, operator_at, picked, sought, special, states, wrapped};
ghost use Rattle.bz_gsym.specs.declared.linetab.RunResult.TheVariants.{NewRow};

use crate::format::{ADVANCE_LINE, ADVANCE_PC, END_SEQUENCE, FIRST_SPECIAL, SET_FILE};
use crate::short::{pass, read_sleb, read_uleb};
use bz_base::{Addr, Cursor};

/// The head of a line table.
#[derive(Debug, Drop)]
pub struct LineTableHeader {
    /// The least line delta of a special operator.
    pub min_delta: i64,
    /// The greatest line delta of a special operator.
    pub max_delta: i64,
    /// The line before the first operator.
    pub first_line: u32,
}

/// A state of a line table, which may be a row of it.
#[derive(Clone, Copy, Debug)]
pub struct LineTableRow {
    /// The address, relative to the same base as the symbol's.
    pub addr: Addr,
    /// The index of the source file in the file table.
    pub file_idx: u32,
    /// The line in that file.
    pub file_line: u32,
}

/// What an operator came to.
#[derive(Debug, Drop)]
pub enum RunResult {
    /// A state that is no row.
    Ok,
    /// A state that is a row.
    NewRow,
    /// The end of the table.
    End,
}

impl LineTableHeader {
    /// Reads the head of a line table. None: a number is missing, and the cursor stands behind those
    /// before it.
    pub fn parse(cursor: &mut Cursor<'_>) -> Option<LineTableHeader>
        ensures reads { IfSome result (λ header. header_at cursor.old.left ≡ Some (header, cursor.new.left)) }
        ensures none { IfNone result (header_at cursor.old.left ≡ None) }
        ensures stands { IfNone result (cursor.new.left ≡ behind_delta (behind_delta cursor.old.left)) }
        ensures all { cursor.new.all ≡ cursor.old.all }
    {
        let min_delta = cursor.read_sleb()?;
        let max_delta = cursor.read_sleb()?;
        let first_line = read_uleb(cursor)?;
        Some(LineTableHeader {
            min_delta,
            max_delta,
            first_line: low_half(first_line),
        })
    }
}

impl LineTableRow {
    /// The state before the first operator in the line table of a symbol.
    pub fn from_header(header: &LineTableHeader, symaddr: Addr) -> LineTableRow
        ensures { result ≡ first_state header.now symaddr }
    {
        LineTableRow {
            addr: symaddr,
            file_idx: 1,
            file_line: header.first_line,
        }
    }
}

/// Runs the operator in front of `ops`: the row takes the operator's state, and the cursor goes past
/// it. None: no operator is left, its operand is missing, or it is special and `max_delta` is below
/// `min_delta`. Then the row is unchanged, and the cursor stands after the operator's byte, if any.
#[tactic(auto, unfolding(crate::specs::LineTable::operator_at))]
pub fn run_op(
    row: &mut LineTableRow,
    header: &LineTableHeader,
    ops: &mut Cursor<'_>,
) -> Option<RunResult>
    ensures runs { with_rest (option_map (λ came. (came, row.new)) result) ops.new.left ≡ operator_at header.now row.old ops.old.left }
    ensures none { IfNone result (row.new ≡ row.old) }
    ensures stands { IfNone result (ops.new.left ≡ drop 1 ops.old.left) }
    ensures all { ops.new.all ≡ ops.old.all }
    ensures shorter { IfSome result (λ came. length ops.new.left < length ops.old.left) }
{
    let operator = ops.read_u8()?;
    let (came, state) = operated(*row, header, operator, ops)?;
    *row = state;
    Some(came)
}

/// What an operator does to a row, with its operand read.
#[inline(always)]
fn operated(
    row: LineTableRow,
    header: &LineTableHeader,
    operator: u8,
    ops: &mut Cursor<'_>,
) -> Option<(RunResult, LineTableRow)>
    ensures does { with_rest result ops.new.left ≡ operated header.now row operator ops.old.left }
    ensures none { IfNone result (ops.new ≡ ops.old) }
    ensures all { ops.new.all ≡ ops.old.all }
    ensures within { IfSome result (λ came. length ops.new.left ≤ length ops.old.left) }
{
    match operator {
        END_SEQUENCE => Some((RunResult::End, row)),
        SET_FILE => {
            let file_idx = low_half(read_uleb(ops)?);
            Some((RunResult::Ok, LineTableRow { file_idx, ..row }))
        }
        ADVANCE_PC => {
            let addr = row.addr.wrapping_add(read_uleb(ops)?);
            Some((RunResult::NewRow, LineTableRow { addr, ..row }))
        }
        ADVANCE_LINE => {
            let file_line = low_sum(row.file_line, read_sleb(ops)?);
            Some((RunResult::Ok, LineTableRow { file_line, ..row }))
        }
        _ => {
            let state = special(row, header, operator - FIRST_SPECIAL)?;
            Some((RunResult::NewRow, state))
        }
    }
}

/// The state of the special operator that lies so far past the first one. None: the range of line
/// deltas is below one.
fn special(row: LineTableRow, header: &LineTableHeader, past: u8) -> Option<LineTableRow>
    ensures { result ≡ special header.now row past }
{
    if header.max_delta < header.min_delta {
        return None;
    }
    let (addr_delta, line_delta) = deltas(past, header.max_delta.abs_diff(header.min_delta));
    Some(LineTableRow {
        addr: row.addr.wrapping_add(u64::from(addr_delta)),
        file_idx: row.file_idx,
        file_line: low_sum(row.file_line, header.min_delta + i64::from(line_delta)),
    })
}

/// The address delta of the special operator that lies so far past the first one, and how far its line
/// delta lies above the least. One line delta more than `above` goes with each address delta.
fn deltas(past: u8, above: u64) -> (u8, u8)
    ensures addr { result.0 ≡ past / (above + 1) }
    ensures line { result.1 ≡ past % (above + 1) }
    ensures within { result.1 ≤ above }
{
    if u64::from(past) <= above {
        return (0, past);
    }
    let range = above as u8 + 1;
    (past / range, past % range)
}

/// The low 32 bits of a number.
fn low_half(number: u64) -> u32
    ensures { result ≡ low_half (pos number) }
{
    (number % 4294967296) as u32
}

/// The low 32 bits of a line and a delta together.
fn low_sum(line: u32, delta: i64) -> u32
    ensures { result ≡ low_half (pos line +ℤ delta) }
{
    let delta = delta.rem_euclid(4294967296) as u32;
    line.wrapping_add(delta)
}

/// The state that answers for an address, in the line table of the symbol that begins at `start`.
/// None: the table's head isn't whole. None inside: no state answers for the address.
#[inline(never)]
pub(crate) fn line_in(bytes: &[u8], start: Addr, addr: Addr) -> Option<Option<LineTableRow>>
    ensures { result ≡ line_in start addr bytes.now }
{
    let mut ops = Cursor::new(bytes);
    let header = LineTableHeader::parse(&mut ops)?;
    let first = LineTableRow::from_header(&header, start);
    Some(picked(&header, first, &mut ops, addr))
}

/// The state that answers for an address. No operator is run past the first row above it.
fn picked(
    header: &LineTableHeader,
    first: LineTableRow,
    ops: &mut Cursor<'_>,
    addr: Addr,
) -> Option<LineTableRow>
    ensures { result ≡ picked addr (states header.now first ops.old.left) }
{
    let mut row = first;
    let mut last = None;
    while let Some(came) = run_op(&mut row, header, ops) {
        match came {
            RunResult::End => break,
            RunResult::Ok => {}
            RunResult::NewRow => {
                if addr < row.addr {
                    return last;
                }
                if run_rows(&mut row, header, ops, addr) {
                    return Some(row);
                }
                last = Some(row);
            }
        }
    }
    // At the table's end its state answers, if there was a row.
    last.and(Some(row))
}

/// Goes on from a row by the special operators in front. Whether the next one's row lies above the
/// address, so that this row is the last one up to it.
#[inline(always)]
fn run_rows(
    row: &mut LineTableRow,
    header: &LineTableHeader,
    ops: &mut Cursor<'_>,
    addr: Addr,
) -> bool
    ensures ends { IsTrue result → Some row.new ≡ sought addr (Some row.old) row.old (states header.now row.old ops.old.left) }
    ensures goes_on { result ≡ false → sought addr (Some row.new) row.new (states header.now row.new ops.new.left) ≡ sought addr (Some row.old) row.old (states header.now row.old ops.old.left) }
    ensures within { length ops.new.left ≤ length ops.old.left }
{
    while let Some(state) = next_row(*row, header, ops) {
        if addr < state.addr {
            return true;
        }
        *row = state;
        pass(ops, 1);
    }
    false
}

/// The row that the special operator in front of `ops` comes to. None: another one is in front, or
/// none, or it does nothing.
#[inline(always)]
fn next_row(row: LineTableRow, header: &LineTableHeader, ops: &Cursor<'_>) -> Option<LineTableRow>
    ensures row { IfSome result (λ state. operator_at header.now row ops.now.left ≡ Some ((NewRow, state), drop 1 ops.now.left)) }
    ensures some { IfSome result (λ state. 0 < length ops.now.left) }
{
    let operators = ops.rest();
    if operators.is_empty() || operators[0] < FIRST_SPECIAL {
        return None;
    }
    special(row, header, operators[0] - FIRST_SPECIAL)
}
