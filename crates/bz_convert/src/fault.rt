//! The rows and inlined calls of a function, or its first fault.

ghost use Rattle.std.specs.Prelude.{◌≡◌, ◌≢◌, ◌<◌, true, None, Some, IfErr, IfOk};
ghost use Rattle.bz_breakpad_lines.specs.Reader.{table_in};
ghost use Rattle.bz_breakpad_lines.specs.Table.{Table};
ghost use Rattle.bz_convert.specs.Fault.{checked_fault, fault_of, zero_in, ◌or◌};
ghost use Rattle.bz_convert.specs.Plan.{is_checked};
ghost use Rattle.bz_convert.specs.RowsAndCalls.{AreRowsAndCalls};
ghost use Rattle.bz_convert.specs.declared.error.ConvertError.{ConvertError};

use crate::calls::calls_fault;
use crate::clean_ids::CleanIds;
use crate::error::ConvertError;
use crate::ids::{has_zero, ids_fault, texts_have_zero};
use crate::rows::{LineRow, Walked, walk_records};
use bz_breakpad::{Function, Inlinee};
use std::alloc::Global;

/// The rows and inlined calls of a function without a fault. One whose end passes 64 bits has neither.
#[derive(Drop)]
pub(crate) struct RowsAndCalls {
    /// The rows, in the order of their addresses.
    pub rows: Vec<LineRow>,
    /// The inlined calls, in the order of depth and start.
    pub calls: Vec<Inlinee>,
}

/// The rows and inlined calls of a function of the file that the ids are of. `before` is where the
/// function before it starts, by start and size, if there is one. OutOfMemory: memory ran out. Any
/// other refusal is the first fault of the function.
pub(crate) fn rows_and_calls(
    alloc: Global,
    ids: &CleanIds<'_>,
    before: Option<u64>,
    function: &Function<'_>,
) -> Result<RowsAndCalls, ConvertError>
    ensures found { IfOk result (AreRowsAndCalls function.now) }
    ensures clean { IfOk result (λ _. (table : Table) → table_in ids.now ≡ Some table → fault_of table before function.now ≡ None) }
    ensures fault { IfErr result (λ e. e ≢ ConvertError.OutOfMemory → (table : Table) → table_in ids.now ≡ Some table → fault_of table before function.now ≡ Some e) }
{
    let addr = function.addr();
    if function.size() == 0 {
        return Err(ConvertError::ZeroSize { addr });
    }
    if before == Some(addr) {
        return Err(ConvertError::EqualStarts { addr });
    }
    if is_checked(function) {
        return checked_rows_and_calls(alloc, ids, function);
    }
    if has_zero(function.name()) {
        return Err(ConvertError::ZeroByte { func: addr });
    }
    Ok(RowsAndCalls {
        rows: Vec::new(alloc),
        calls: Vec::new(alloc),
    })
}

/// Whether the end of a function that has a size fits 64 bits.
fn is_checked(function: &Function<'_>) -> bool
    requires { 0 < function.now.size }
    ensures { result ≡ is_checked function.now }
{
    function
        .addr()
        .checked_add(u64::from(function.size()))
        .is_some()
}

/// The rows and inlined calls of a function that has a size, and whose end fits 64 bits. OutOfMemory:
/// memory ran out. Any other refusal is the first fault of the function, EqualStarts aside.
fn checked_rows_and_calls(
    alloc: Global,
    ids: &CleanIds<'_>,
    function: &Function<'_>,
) -> Result<RowsAndCalls, ConvertError>
    requires { is_checked function.now ≡ true }
    ensures found { IfOk result (AreRowsAndCalls function.now) }
    ensures clean { IfOk result (λ _. (table : Table) → table_in ids.now ≡ Some table → (checked_fault table function.now or zero_in table function.now) ≡ None) }
    ensures fault { IfErr result (λ e. e ≢ ConvertError.OutOfMemory → (table : Table) → table_in ids.now ≡ Some table →
        (checked_fault table function.now or zero_in table function.now) ≡ Some e) }
{
    let func = function.addr();
    let Ok(lines) = function.lines(alloc) else {
        return Err(ConvertError::OutOfMemory);
    };
    let Walked { rows, gap } = walk_records(alloc, function, &lines)?;
    if let Some(addr) = gap {
        return Err(ConvertError::LineGap { func, addr });
    }
    let Ok(calls) = function.inlinees(alloc) else {
        return Err(ConvertError::OutOfMemory);
    };
    if let Some(fault) = calls_fault(alloc, function, &calls)? {
        return Err(fault);
    }
    if let Some(fault) = ids_fault(ids, func, &lines, &calls) {
        return Err(fault);
    }
    if texts_have_zero(ids, function, &rows, &calls) {
        return Err(ConvertError::ZeroByte { func });
    }
    Ok(RowsAndCalls { rows, calls })
}
