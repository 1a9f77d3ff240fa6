//! A function, as a plan has it.

ghost use Rattle.std.specs.Prelude.{◌≡◌, true, Some, IfOk, OnOk};
ghost use Rattle.bz_breakpad_lines.specs.Reader.{table_in};
ghost use Rattle.bz_breakpad_lines.specs.Table.{Table};
ghost use Rattle.bz_convert.specs.Laid.{AreApart, IsFunctionFor, sources_used, texts_used};
ghost use Rattle.bz_convert.specs.Numbered.{IsNumbered, Uses, listed_sources};
ghost use Rattle.bz_gsym_layout.specs.Listing.{listed_texts};
ghost use Rattle.bz_convert.specs.Plan.{is_checked};
ghost use Rattle.bz_convert.specs.RowsAndCalls.{AreRowsAndCalls};

use crate::conversion::calls::{calls_of, nodes_of};
use crate::conversion::numbering::Numbering;
use crate::conversion::rows::rows_of;
use crate::fault::RowsAndCalls;
use bz_breakpad::{Function, SymbolFile};
use bz_gsym_layout::Function as PlannedFunction;
use std::alloc::{AllocError, Global};

/// The function of a plan for a function of the file, which has these rows and inlined calls.
pub(crate) fn function_of<'a>(
    alloc: Global,
    numbering: &mut Numbering<'a>,
    file: &'a SymbolFile,
    function: &Function<'a>,
    found: &RowsAndCalls,
) -> Result<PlannedFunction, AllocError>
    requires apart { is_checked function.now ≡ true → AreApart function.now }
    requires found { AreRowsAndCalls function.now found.now }
    ensures numbering { OnOk result ((table : Table) → table_in file.now ≡ Some table →
        Uses table (texts_used table function.now) (sources_used table function.now) numbering.old numbering.new) }
    ensures function { IfOk result (λ planned. (table : Table) → table_in file.now ≡ Some table → IsNumbered table numbering.old →
        IsFunctionFor table (listed_texts numbering.new.texts) (listed_sources numbering.new) function.now planned) }
{
    let name = numbering.text(function.name())?;
    let rows = rows_of(alloc, numbering, file, &found.rows)?;
    let calls = calls_of(alloc, found)?;
    let calls = nodes_of(alloc, numbering, file, &calls)?;
    Ok(PlannedFunction {
        start: function.addr(),
        size: function.size(),
        name,
        rows,
        calls,
    })
}
