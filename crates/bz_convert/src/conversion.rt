//! The GSYM file of a Breakpad file.

ghost use Rattle.std.specs.Prelude.{◌≡◌, ℕ, Some, length, IfErr, IfOk};
ghost use Rattle.bz_base.specs.declared.types.FindSymOpts.TheVariants as asked;
ghost use Rattle.bz_breakpad.specs.Plain as breakpad;
ghost use Rattle.bz_breakpad_lines.specs.Reader.{table_in};
ghost use Rattle.bz_breakpad_lines.specs.Table.{Table};
ghost use Rattle.bz_convert.specs.Alike.{AnswersAlike};
ghost use Rattle.bz_convert.specs.Converted.{IsConversion, Refuses};
ghost use Rattle.bz_convert.specs.Fault.{fault_in};
ghost use Rattle.bz_convert.specs.Plan.{plan};
ghost use Rattle.bz_gsym.specs.Plain as gsym;
ghost use Rattle.bz_gsym_layout.specs.Layout.{layout};

mod calls;
mod function;
mod numbering;
mod plan;
mod rows;

use crate::conversion::plan::plan_of;
use crate::error::ConvertError;
use crate::laws::conversions_answer_alike;
use bz_breakpad::SymbolFile;
use bz_gsym_layout::{LayoutError, write};
use std::alloc::Global;

/// The bytes of the GSYM file of version 1 that answers as a Breakpad file does. Where a function
/// answers there, it answers with that function, its line and its inlined calls, and elsewhere with
/// nothing. TooLarge: the file has no fault, but 32 bits don't count the bytes of its GSYM file.
/// OutOfMemory: memory ran out, or 32 bits don't count the texts or source files, or 64 bits the
/// bytes. Any other refusal is the first fault of the file.
pub fn convert(alloc: Global, file: &SymbolFile) -> Result<Vec<u8>, ConvertError>
    ensures ok { IfOk result (λ bytes. (table : Table) → table_in file.now ≡ Some table → IsConversion table bytes.items) }
    ensures answers { IfOk result (λ bytes. (table : Table) → table_in file.now ≡ Some table → (addr : ℕ) →
        AnswersAlike (breakpad.function_at addr table.functions) (breakpad.plain table asked.CodeInfoAndInlined addr) (gsym.plain bytes.items asked.CodeInfoAndInlined addr)) }
    ensures refusal { IfErr result (λ e. (table : Table) → table_in file.now ≡ Some table → Refuses e (fault_in table) (length (layout (plan table)))) }
{
    conversions_answer_alike();
    let plan = plan_of(alloc, file)?;
    match write(alloc, &plan) {
        Ok(bytes) => Ok(bytes),
        Err(LayoutError::TooLarge { bytes }) => Err(ConvertError::TooLarge { bytes }),
        Err(LayoutError::OutOfMemory) => Err(ConvertError::OutOfMemory),
    }
}
