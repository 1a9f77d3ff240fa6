//! What holds of this crate's definitions.

ghost use Rattle.std.specs.Prelude.{◌≡◌, ◌↔◌, ℕ, List, Some};
ghost use Rattle.bz_breakpad_lines.specs.Choice.{AreReadExactly};
ghost use Rattle.bz_breakpad_lines.specs.Grammar.{Accepted, IsFile};
ghost use Rattle.bz_breakpad_lines.specs.Names.{AreLastNames, names_in};
ghost use Rattle.bz_breakpad_lines.specs.Printed.{IsPrintable, printed};
ghost use Rattle.bz_breakpad_lines.specs.Reader.{counted_in};
ghost use Rattle.bz_breakpad_lines.specs.Records.{AreFormsRead, TOP, INNER};
ghost use Rattle.bz_breakpad_lines.specs.Table.{Named, Table};

/// Each form is read from exactly the lines that have it.
pub fn records_are_read()
    ensures { AreFormsRead }
{}

/// A line is read as the one record whose form it has.
pub fn lines_are_read()
    ensures top { AreReadExactly TOP }
    ensures inner { AreReadExactly INNER }
{}

/// What is read of the bytes is what the grammar says of them, wherever they are a Breakpad file.
pub fn reading_accepts()
    ensures { (bytes : List ℕ) (table : Table) (count : ℕ) → (counted_in bytes ≡ Some (table, count)) ↔ Accepted bytes table count }
{}

/// The names of ids are those of the last records, and there are as many as ids.
pub fn last_names_count()
    ensures { (records : List Named) → AreLastNames records (names_in records) }
{}

/// The text of a table is a file that says the table, where its numbers and names can stand in
/// lines and its ids ascend.
pub fn printed_tables_are_files()
    ensures { (table : Table) → IsPrintable table → IsFile (printed table) table }
{}

/// In the table that a file says, numbers and names can stand in lines, and ids ascend.
pub fn tables_of_files_are_printable()
    ensures { (bytes : List ℕ) (table : Table) → IsFile bytes table → IsPrintable table }
{}
