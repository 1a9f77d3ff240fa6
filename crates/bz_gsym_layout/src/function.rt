//! What stands at a function's data place: its size, its name, and its entries.

ghost use Rattle.std.specs.Prelude.{◌≡◌, ◌++◌, ℕ, List, length, IsOkUnless, OnOk};
ghost use Rattle.bz_gsym.specs.Entries.{entry_head_len};
ghost use Rattle.bz_gsym_layout.specs.Indexed.{IsFunction};
ghost use Rattle.bz_gsym_layout.specs.InOrder.{NeverBefore};
ghost use Rattle.bz_gsym_layout.specs.Layout.{Tables, code_bytes, entry_bytes, inline_entry, line_entry, zeros};
ghost use Rattle.bz_gsym_layout.specs.Plan.{Code, Line};
ghost use Rattle.bz_gsym_layout.specs.Pass.{IsCodeOf};
ghost use Rattle.bz_gsym_layout.specs.RowPass.{AreRowsOf};
ghost use Rattle.bz_gsym_layout.specs.declared.error.LayoutError.{LayoutError};

use crate::calls::{NodeNumbers, push_calls, push_numbers};
use crate::error::Result;
use crate::format::{NO_FILE, NO_LINE, ROOT_OFFSET};
use crate::plan::{Function, Row};
use crate::rows::push_line_table;
use crate::words::{push_low_word, push_word};
use bz_gsym::format::{INFO_TYPE_END_OF_LIST, INFO_TYPE_INLINE_INFO, INFO_TYPE_LINE_TABLE_INFO};
use std::alloc::Global;

/// About how many bytes a row takes.
const ROW_LEN: usize = 9;

/// About how many bytes an inlined call takes.
const CALL_LEN: usize = 16;

/// About how many bytes the rest of a function's data has.
const REST_LEN: usize = 64;

/// About how many bytes a function's data have.
pub(crate) fn usual_function_len(function: &Function) -> usize {
    let rows = function.rows.len().saturating_mul(ROW_LEN);
    let calls = function.calls.len().saturating_mul(CALL_LEN);
    rows.saturating_add(calls).saturating_add(REST_LEN)
}

/// Writes a data entry of a type.
fn push_entry(out: &mut Vec<u8>, typ: u32, text: &[u8]) -> Result<()>
    ensures ok { OnOk result (out.new.items ≡ out.old.items ++ entry_bytes typ text.now) }
    ensures memory { IsOkUnless result LayoutError.OutOfMemory }
{
    push_word(out, typ)?;
    push_low_word(out, text.len() as u64)?;
    out.extend_from_slice(text)?;
    Ok(())
}

/// Ends a list of data entries, by one without bytes.
fn push_end(out: &mut Vec<u8>) -> Result<()>
    ensures ok { OnOk result (out.new.items ≡ out.old.items ++ zeros entry_head_len) }
    ensures memory { IsOkUnless result LayoutError.OutOfMemory }
{
    push_word(out, INFO_TYPE_END_OF_LIST)?;
    push_word(out, 0)
}

/// Writes the line table of a function that starts there, if it has rows.
fn push_line_entry(alloc: Global, out: &mut Vec<u8>, start: u64, rows: &[Row]) -> Result<()>
    requires { NeverBefore start rows.now }
    ensures ok { OnOk result ((t : Tables) (lines : List (ℕ × Line)) → AreRowsOf t lines rows.now → out.new.items ≡ out.old.items ++ line_entry t start lines) }
    ensures memory { IsOkUnless result LayoutError.OutOfMemory }
{
    if rows.is_empty() {
        return Ok(());
    }
    let mut text = Vec::with_capacity(alloc, rows.len().saturating_mul(ROW_LEN))?;
    push_line_table(&mut text, start, rows)?;
    push_entry(out, INFO_TYPE_LINE_TABLE_INFO, &text)
}

/// Writes the inline tree of a function, if it has calls; texts have these places in the string table.
fn push_inline_entry(
    alloc: Global,
    out: &mut Vec<u8>,
    function: &Function,
    places: &[u64],
) -> Result<()>
    requires { (sources : ℕ) × IsFunction (length places.now) sources function.now }
    ensures ok { OnOk result ((t : Tables) (c : Code) → IsCodeOf t places.now c function.now → out.new.items ≡ out.old.items ++ inline_entry t c c.calls) }
    ensures memory { IsOkUnless result LayoutError.OutOfMemory }
{
    if function.calls.is_empty() {
        return Ok(());
    }
    let mut text = Vec::with_capacity(alloc, function.calls.len().saturating_mul(CALL_LEN))?;
    let root = NodeNumbers {
        offset: ROOT_OFFSET,
        size: u64::from(function.size),
        name: places[function.name],
        file: NO_FILE,
        line: NO_LINE,
    };
    push_numbers(&mut text, root, true)?;
    push_calls(alloc, &mut text, function.start, &function.calls, places)?;
    push_entry(out, INFO_TYPE_INLINE_INFO, &text)
}

/// Writes a function's data; texts have these places in the string table.
pub(crate) fn push_function(
    alloc: Global,
    out: &mut Vec<u8>,
    function: &Function,
    places: &[u64],
) -> Result<()>
    requires { (sources : ℕ) × IsFunction (length places.now) sources function.now }
    ensures ok { OnOk result ((t : Tables) (c : Code) → IsCodeOf t places.now c function.now → out.new.items ≡ out.old.items ++ code_bytes t c) }
    ensures memory { IsOkUnless result LayoutError.OutOfMemory }
{
    push_word(out, function.size)?;
    push_low_word(out, places[function.name])?;
    push_line_entry(alloc, out, function.start, &function.rows)?;
    push_inline_entry(alloc, out, function, places)?;
    push_end(out)
}
