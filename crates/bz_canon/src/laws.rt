//! What holds of canonical forms and their texts, and of generated texts.

ghost use Rattle.std.specs.Prelude.{◌≡◌, ◌↔◌, ◌≤◌, ℕ, List};
ghost use Rattle.bz_base.specs.declared.types.FindSymOpts.{FindSymOpts};
ghost use Rattle.bz_breakpad.specs.Grammar.{IsFile};
ghost use Rattle.bz_breakpad.specs.Plain.{plain};
ghost use Rattle.bz_breakpad.specs.Table.{Table};
ghost use Rattle.bz_canon.specs.Canon.{canon, canonical_text};
ghost use Rattle.bz_canon.specs.Generated.{generated_text};
ghost use Rattle.bz_canon.specs.GeneratedTable.{generated_table};

/// The canonical text of a file's table is a file that says the table's canonical form.
pub fn canonical_texts_are_files()
    ensures { (bytes : List ℕ) (table : Table) → IsFile bytes table → IsFile (canonical_text table) (canon table) }
{}

/// The canonical form answers as the table does, at every address and under every option.
pub fn canonical_forms_answer_alike()
    ensures { (table : Table) (opts : FindSymOpts) (addr : ℕ) → plain (canon table) opts addr ≡ plain table opts addr }
{}

/// The canonical form of a canonical form is itself, and its text is the same.
pub fn canonical_forms_stay()
    ensures form { (table : Table) → canon (canon table) ≡ canon table }
    ensures text { (table : Table) → canonical_text (canon table) ≡ canonical_text table }
{}

/// Tables of files have equal texts exactly where their canonical forms are equal.
pub fn canonical_texts_tell_forms()
    ensures { (x y : List ℕ) (a b : Table) → IsFile x a → IsFile y b → (canonical_text a ≡ canonical_text b) ↔ (canon a ≡ canon b) }
{}

/// The generated text is a Breakpad file, and says the table of its functions.
pub fn generated_texts_are_files()
    ensures { (functions : ℕ) → functions ≤ 100000 → IsFile (generated_text functions) (generated_table functions) }
{}
