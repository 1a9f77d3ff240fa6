//! The operators of a line table.

ghost use Rattle.std.specs.Prelude.{◌≡◌, ◌≤◌, ◌+◌, ◌-ℤ◌, ◌++◌, ℕ, pos, List, IsOkUnless, OnOk};
ghost use Rattle.bz_gsym_layout.specs.declared.error.LayoutError.{LayoutError};
ghost use Rattle.bz_gsym_layout.specs.InOrder.{NeverBefore};
ghost use Rattle.bz_gsym_layout.specs.Layout.{Tables, line_table_bytes, row_numbers, rows_bytes};
ghost use Rattle.bz_gsym_layout.specs.Leb.{sleb};
ghost use Rattle.bz_gsym_layout.specs.Plan.{Line};
ghost use Rattle.bz_gsym_layout.specs.RowPass.{AreRowsOf};

use crate::error::Result;
use crate::format::{FIRST_LINE, MAX_DELTA, MIN_DELTA};
use crate::leb::{push_negative, push_positive, push_unsigned};
use crate::plan::Row;
use bz_gsym::format::{ADVANCE_LINE, ADVANCE_PC, END_SEQUENCE, SET_FILE};

/// Writes how far one line lies from another.
fn push_delta(out: &mut Vec<u8>, from: u32, to: u32) -> Result<()>
    ensures ok { OnOk result (out.new.items ≡ out.old.items ++ sleb (pos to -ℤ pos from)) }
    ensures memory { IsOkUnless result LayoutError.OutOfMemory }
{
    if to >= from {
        push_positive(out, u64::from(to - from))
    } else {
        push_negative(out, u64::from(from - to - 1))
    }
}

/// Writes a row, by the address and the line before it.
fn push_row(out: &mut Vec<u8>, addr: u64, line: u32, row: &Row) -> Result<()>
    requires { addr ≤ row.now.addr }
    ensures ok { OnOk result (out.new.items ≡ out.old.items ++ row_numbers addr line row.now.addr (row.now.source + 1) row.now.line) }
    ensures memory { IsOkUnless result LayoutError.OutOfMemory }
{
    out.push(SET_FILE)?;
    push_unsigned(out, u64::from(row.source) + 1)?;
    out.push(ADVANCE_LINE)?;
    push_delta(out, line, row.line)?;
    out.push(ADVANCE_PC)?;
    push_unsigned(out, row.addr - addr)?;
    Ok(())
}

/// Writes the rows of a function that starts there, and the end.
fn push_rows(out: &mut Vec<u8>, start: u64, rows: &[Row]) -> Result<()>
    requires { NeverBefore start rows.now }
    ensures ok { OnOk result ((t : Tables) (lines : List (ℕ × Line)) → AreRowsOf t lines rows.now → out.new.items ≡ out.old.items ++ rows_bytes t start 0 lines) }
    ensures memory { IsOkUnless result LayoutError.OutOfMemory }
{
    let mut addr = start;
    let mut line = 0;
    for row in rows {
        push_row(out, addr, line, row)?;
        addr = row.addr;
        line = row.line;
    }
    out.push(END_SEQUENCE)?;
    Ok(())
}

/// Writes the line table of a function that starts there: a head of zeros, the rows, and the end.
pub(crate) fn push_line_table(out: &mut Vec<u8>, start: u64, rows: &[Row]) -> Result<()>
    requires { NeverBefore start rows.now }
    ensures ok { OnOk result ((t : Tables) (lines : List (ℕ × Line)) → AreRowsOf t lines rows.now → out.new.items ≡ out.old.items ++ line_table_bytes t start lines) }
    ensures memory { IsOkUnless result LayoutError.OutOfMemory }
{
    out.push(MIN_DELTA)?;
    out.push(MAX_DELTA)?;
    out.push(FIRST_LINE)?;
    push_rows(out, start, rows)
}
