//! What holds of the definitions that the contracts cite.

ghost use Rattle.std.specs.Prelude.{◌≡◌, ◌^◌, ◌+◌, ◌<◌, ◌≤◌, ◌++◌, List, ℕ, ℤ, pos, negsuc, length, Some, slice_get};
ghost use Rattle.std.specs.List.{AllByRecursion};
ghost use Rattle.bz_base.specs.Leb128.{sleb_at, uleb_at};
ghost use Rattle.bz_base.specs.Span.{last_address};
ghost use Rattle.bz_base.specs.declared.types.FindSymOpts.TheVariants as asked;
ghost use Rattle.bz_gsym.specs.InlineSpelling.{IsTree};
ghost use Rattle.bz_gsym.specs.InlineTree.{Nodes};
ghost use Rattle.bz_gsym.specs.Plain.{plain};
ghost use Rattle.bz_gsym.specs.Tables.{IsGsym};
ghost use Rattle.bz_gsym_layout.specs.Layable.{IsLayable, StartsAscend};
ghost use Rattle.bz_gsym_layout.specs.Layout.{inline_entry, layout, line_entry, tables_of, tree_bytes};
ghost use Rattle.bz_gsym_layout.specs.Leb.{sleb, uleb};
ghost use Rattle.bz_gsym_layout.specs.Plan.{Code};
ghost use Rattle.bz_gsym_layout.specs.Planned.{planned};

/// A number that is written is read again, whatever follows.
pub fn numbers_are_read()
    ensures unsigned { (number : ℕ) (rest : List ℕ) → number < 2 ^ 64 → uleb_at (uleb number ++ rest) ≡ Some (number, rest) }
    ensures positive { (number : ℕ) (rest : List ℕ) → number < 2 ^ 63 → sleb_at (sleb (pos number) ++ rest) ≡ Some (pos number, rest) }
    ensures negative { (below : ℕ) (rest : List ℕ) → below < 2 ^ 63 → sleb_at (sleb (negsuc below) ++ rest) ≡ Some (negsuc below, rest) }
{}

/// Where 32 bits count the bytes of functions that can be laid out, their plain answer at each
/// address is that of the functions. The inline entry of each whose end fits 64 bits has a tree.
/// Where the starts ascend too, the bytes are a GSYM file.
pub fn layouts_answer_as_planned()
    ensures format { (codes : List Code) → AllByRecursion IsLayable codes → StartsAscend codes → length (layout codes) < 2 ^ 32 → IsGsym (layout codes) }
    ensures answers { (codes : List Code) → AllByRecursion IsLayable codes → length (layout codes) < 2 ^ 32 → (addr : ℕ) →
        plain (layout codes) asked.CodeInfoAndInlined addr ≡ planned codes addr }
    ensures trees { (codes : List Code) → AllByRecursion IsLayable codes → length (layout codes) < 2 ^ 32 →
        (i : ℕ) (c : Code) → slice_get codes i ≡ Some c → c.start + c.size ≤ last_address → (tree : Nodes) × IsTree (tree_bytes (tables_of codes) c) tree }
{}

/// A function's entries aren't longer than the whole.
pub fn entries_are_within()
    ensures { (codes : List Code) (i : ℕ) (c : Code) → slice_get codes i ≡ Some c →
        length (line_entry (tables_of codes) c.start c.rows) + length (inline_entry (tables_of codes) c c.calls) ≤ length (layout codes) }
{}
