//! The plan of a file.

ghost use Rattle.std.specs.Prelude.{◌≡◌, ◌≢◌, ◌<◌, Some, IfErr, IfOk};
ghost use Rattle.bz_breakpad_lines.specs.Reader.{table_in};
ghost use Rattle.bz_breakpad_lines.specs.Table.{Table};
ghost use Rattle.bz_convert.specs.Fault.{fault_in};
ghost use Rattle.bz_convert.specs.FilePlan.{IsPlanOf};
ghost use Rattle.bz_convert.specs.declared.error.ConvertError.{ConvertError};

use crate::clean_ids::CleanIds;
use crate::conversion::function::function_of;
use crate::conversion::numbering::Numbering;
use crate::error::ConvertError;
use crate::fault::rows_and_calls;
use bz_base::Steps;
use bz_breakpad::SymbolFile;
use bz_gsym_layout::Plan;
use std::alloc::Global;
use std::marker::Brand;
use std::sync::ledger::{Blank, Ledger};

/// The plan of what is laid out of a file. OutOfMemory: memory ran out, or 32 bits don't count the
/// texts or source files. Any other refusal is the first fault of the file.
pub(crate) fn plan_of(alloc: Global, file: &SymbolFile) -> Result<Plan<'_>, ConvertError>
    ensures plan { IfOk result (λ plan. (table : Table) × (table_in file.now ≡ Some table) × IsPlanOf table plan) }
    ensures fault { IfErr result (λ e. e ≢ ConvertError.OutOfMemory → (table : Table) → table_in file.now ≡ Some table → fault_in table ≡ Some e) }
{
    plan_blank::<Brand>(alloc, file, Blank::new(1))
}

// The same, with a count that nobody reads.
fn plan_blank<L: Ledger>(
    alloc: Global,
    file: &SymbolFile,
    blank: Blank,
) -> Result<Plan<'_>, ConvertError>
    requires name { blank.name ≡ L.name }
    requires parts { blank.parts ≡ L.parts }
    requires positive { 0 < L.parts }
    ensures plan { IfOk result (λ plan. (table : Table) × (table_in file.now ≡ Some table) × IsPlanOf table plan) }
    ensures fault { IfErr result (λ e. e ≢ ConvertError.OutOfMemory → (table : Table) → table_in file.now ≡ Some table → fault_in table ≡ Some e) }
{
    let mut steps = Steps::<L>::new(blank);
    let ids = CleanIds::new(alloc, file)?;
    let mut numbering = Numbering::new(alloc, file)?;
    let mut functions = Vec::with_capacity(alloc, file.function_count())?;
    let mut before = None;
    for index in 0..file.function_count() {
        let function = file.function(index, &mut steps);
        let found = rows_and_calls(alloc, &ids, before, &function)?;
        functions.push(function_of(alloc, &mut numbering, file, &function, &found)?)?;
        before = Some(function.addr());
    }
    Ok(numbering.into_plan(functions))
}
