//! The rows of a function, as a plan has them.

ghost use Rattle.std.specs.Prelude.{◌≡◌, flat_map, map, Some, IfOk, OnOk};
ghost use Rattle.std.specs.List.{AllZip};
ghost use Rattle.bz_breakpad_lines.specs.Reader.{table_in};
ghost use Rattle.bz_breakpad_lines.specs.Table.{Table};
ghost use Rattle.bz_convert.specs.Laid.{IsRowFor, sources_of_row, texts_of_row};
ghost use Rattle.bz_convert.specs.Numbered.{IsNumbered, Uses, listed_sources};
ghost use Rattle.bz_convert.specs.Points.{row_seen};

use crate::conversion::numbering::Numbering;
use crate::rows::LineRow;
use bz_breakpad::SymbolFile;
use bz_gsym_layout::Row;
use std::alloc::{AllocError, Global};

/// The row of a plan for a row of the file.
fn row_of<'a>(
    numbering: &mut Numbering<'a>,
    file: &'a SymbolFile,
    row: &LineRow,
) -> Result<Row, AllocError>
    ensures numbering { OnOk result ((table : Table) → table_in file.now ≡ Some table →
        Uses table (texts_of_row table (row_seen row.now)) (sources_of_row table (row_seen row.now)) numbering.old numbering.new) }
    ensures row { IfOk result (λ planned. (table : Table) → table_in file.now ≡ Some table → IsNumbered table numbering.old →
        IsRowFor table (listed_sources numbering.new) (row_seen row.now) planned) }
{
    let source = numbering.file_source(file, row.line.file)?;
    Ok(Row {
        addr: row.addr,
        source,
        line: row.line.line,
    })
}

/// The rows of a plan for rows of the file.
pub(crate) fn rows_of<'a>(
    alloc: Global,
    numbering: &mut Numbering<'a>,
    file: &'a SymbolFile,
    line_rows: &[LineRow],
) -> Result<Vec<Row>, AllocError>
    ensures numbering { OnOk result ((table : Table) → table_in file.now ≡ Some table →
        Uses table (flat_map (texts_of_row table) (map row_seen line_rows.now)) (flat_map (sources_of_row table) (map row_seen line_rows.now)) numbering.old numbering.new) }
    ensures rows { IfOk result (λ rows. (table : Table) → table_in file.now ≡ Some table → IsNumbered table numbering.old →
        AllZip (IsRowFor table (listed_sources numbering.new)) (map row_seen line_rows.now) rows.items) }
{
    let mut rows = Vec::with_capacity(alloc, line_rows.len())?;
    for line_row in line_rows {
        rows.push(row_of(numbering, file, line_row)?)?;
    }
    Ok(rows)
}
