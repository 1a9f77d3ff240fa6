//! What holds of plans, and of converted files.

ghost use Rattle.std.specs.Prelude.{◌≡◌, ◌≢◌, ◌^◌, ◌<◌, List, ℕ, length, None, Some, slice_get};
ghost use Rattle.std.specs.List.{AllByRecursion};
ghost use Rattle.bz_base.specs.declared.types.FindSymOpts.TheVariants as asked;
ghost use Rattle.bz_breakpad.specs.Plain as breakpad;
ghost use Rattle.bz_breakpad_lines.specs.Reader.{table_in};
ghost use Rattle.bz_breakpad_lines.specs.Table.{Table};
ghost use Rattle.bz_convert.specs.Alike.{AnswersAlike};
ghost use Rattle.bz_convert.specs.Fault.{fault_in};
ghost use Rattle.bz_convert.specs.Plan.{plan};
ghost use Rattle.bz_gsym.specs.InlineSpelling.{IsTree};
ghost use Rattle.bz_gsym.specs.InlineTree.{Nodes};
ghost use Rattle.bz_gsym.specs.Plain as gsym;
ghost use Rattle.bz_gsym.specs.Tables.{IsGsym};
ghost use Rattle.bz_gsym_layout.specs.Layable.{IsLayable, StartsAscend};
ghost use Rattle.bz_gsym_layout.specs.Layout.{layout, tables_of, tree_bytes};
ghost use Rattle.bz_gsym_layout.specs.Nesting.Forest.{NoCalls};
ghost use Rattle.bz_gsym_layout.specs.Plan.{Code};
ghost use Rattle.bz_gsym_layout.specs.Planned.{planned};

use bz_gsym_layout::laws::layouts_answer_as_planned;

/// The plan of a file without a fault can be laid out. Where a function answers in the file, the plan
/// answers as that file does, with lines and inlined calls. At every other address it knows nothing.
pub fn plans_answer_alike()
    ensures layable { (bytes : List ℕ) (table : Table) → table_in bytes ≡ Some table → fault_in table ≡ None → AllByRecursion IsLayable (plan table) }
    ensures ascend { (table : Table) → StartsAscend (plan table) }
    ensures answers { (bytes : List ℕ) (table : Table) → table_in bytes ≡ Some table → fault_in table ≡ None → (addr : ℕ) →
        AnswersAlike (breakpad.function_at addr table.functions) (breakpad.plain table asked.CodeInfoAndInlined addr) (planned (plan table) addr) }
{}

/// The bytes of a converted file are a GSYM file. Where a function answers in the Breakpad file, it
/// answers as that file does, with lines and inlined calls. At every other address it knows nothing.
/// Each function with calls has an inline tree.
pub fn conversions_answer_alike()
    ensures format { (bytes : List ℕ) (table : Table) → table_in bytes ≡ Some table → fault_in table ≡ None → length (layout (plan table)) < 2 ^ 32 → IsGsym (layout (plan table)) }
    ensures answers { (bytes : List ℕ) (table : Table) → table_in bytes ≡ Some table → fault_in table ≡ None → length (layout (plan table)) < 2 ^ 32 → (addr : ℕ) →
        AnswersAlike (breakpad.function_at addr table.functions) (breakpad.plain table asked.CodeInfoAndInlined addr) (gsym.plain (layout (plan table)) asked.CodeInfoAndInlined addr) }
    ensures trees { (bytes : List ℕ) (table : Table) → table_in bytes ≡ Some table → fault_in table ≡ None → length (layout (plan table)) < 2 ^ 32 →
        (i : ℕ) (c : Code) → slice_get (plan table) i ≡ Some c → c.calls ≢ NoCalls → (tree : Nodes) × IsTree (tree_bytes (tables_of (plan table)) c) tree }
{
    layouts_answer_as_planned();
}
