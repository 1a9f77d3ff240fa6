//! What holds of the definitions that the contracts cite.

ghost use Rattle.std.specs.Prelude.{◌≡◌, ◌≤◌, ◌↔◌, true, ℕ, List, None, Some, Ok, slice_get};
ghost use Rattle.bz_base.specs.Answer.{Call, Resolved, Site};
ghost use Rattle.bz_base.specs.declared.types.FindSymOpts.{FindSymOpts};
ghost use Rattle.bz_gsym.specs.Plain.{nearest_symbol, plain};
ghost use Rattle.bz_base.specs.ZeroEnded.{IsString};
ghost use Rattle.bz_gsym.specs.Entries.{AreEntries, Entry, entries_in};
ghost use Rattle.bz_gsym.specs.Joining.{IsSeen, seen_from};
ghost use Rattle.bz_gsym.specs.LineTable.{followed, operator_at, picked, sought, states};
ghost use Rattle.bz_gsym.specs.InlineReader.{frames_at, tree_at};
ghost use Rattle.bz_gsym.specs.InlineSpelling.{IsTree};
ghost use Rattle.bz_gsym.specs.InlineTree.{Frame, Nodes, frames};
ghost use Rattle.bz_gsym.specs.Strings.{string_at};
ghost use Rattle.bz_gsym.specs.Tables.{IsGsym, IsTried, data_places, is_gsym};
ghost use Rattle.bz_gsym.specs.declared.linetab.LineTableHeader.{LineTableHeader};
ghost use Rattle.bz_gsym.specs.declared.linetab.LineTableRow.{LineTableRow};
ghost use Rattle.bz_gsym.specs.declared.types.FileInfo.{FileInfo};

use crate::linetab::LineTableRow;
use crate::types::FileInfo;

/// The test of a GSYM file says what the relation says.
pub fn files_are_exact()
    ensures { (bytes : List ℕ) → (is_gsym bytes ≡ true) ↔ IsGsym bytes }
{}

/// The data entries that are read of bytes are those that make them up side by side, as far as there
/// are any.
pub fn entries_are_exact()
    ensures { (bytes : List ℕ) (entries : List Entry) → (entries_in bytes ≡ entries) ↔ AreEntries bytes entries }
{}

/// The string that is read at a place of a table is the one that stands there.
pub fn strings_are_exact()
    ensures { (table : List ℕ) (place : ℕ) (text : List ℕ) → (string_at table place ≡ Some text) ↔ IsString table place text }
{}

/// The symbol whose index is found for an address is the one that the plain answer tries.
pub fn the_symbol_that_is_found_is_tried()
    ensures { (bytes : List ℕ) (addr index at place : ℕ) → IsGsym bytes → IsTried bytes addr index at → slice_get (data_places bytes) index ≡ Some place →
        nearest_symbol bytes addr ≡ Some (at, place) }
{}

/// The states of a line table, over whatever bytes its operators are: that of the operator in front,
/// and those that follow it.
pub fn line_states_go_on()
    ensures { (header : LineTableHeader) (row : LineTableRow) (operators : List ℕ) →
        states header row operators ≡ followed (states header) (operator_at header row operators) }
{}

/// Of all states of a line table one is picked for an address. It is known at the first row above the
/// address, whatever bytes the operators are.
pub fn lines_are_known_early()
    ensures { (header : LineTableHeader) (row : LineTableRow) (operators : List ℕ) (addr : ℕ) →
        sought addr None row (states header row operators) ≡ picked addr (states header row operators) }
{}

/// The inline tree that is read of bytes is the one that they begin with.
pub fn trees_are_exact()
    ensures { (bytes : List ℕ) (tree : Nodes) → (tree_at bytes ≡ Some tree) ↔ IsTree bytes tree }
{}

/// The frames of bytes are those of the one tree that they begin with.
pub fn frames_are_the_trees()
    ensures some { (addr base : ℕ) (bytes : List ℕ) (found : List Frame) → frames_at addr base bytes ≡ Some found →
        (tree : Nodes) × IsTree bytes tree × (frames addr base tree ≡ Some found) }
    ensures all { (addr base : ℕ) (bytes : List ℕ) (tree : Nodes) → IsTree bytes tree → frames_at addr base bytes ≡ frames addr base tree }
{}

/// What is seen from outside inlined calls. The symbol has the first call's site, each call that of the
/// call inside it, and the innermost call the line.
pub fn calls_are_rotated()
    ensures { (bytes : List ℕ) (row : LineTableRow) (calls : List Frame) (seen : Site × List Call) →
        (seen_from bytes row calls ≡ Some seen) ↔ IsSeen bytes row calls seen }
{}

/// A symbol that answers an address starts there or before it.
pub fn answers_start_before()
    ensures { (bytes : List ℕ) (opts : FindSymOpts) (addr : ℕ) (r : Resolved) → plain bytes opts addr ≡ Ok (Ok r) → r.addr ≤ addr }
{}

/// A clone of a file or of a row has its fields.
pub fn clones_are_equal()
    ensures files { (a b : FileInfo) → ⟦<FileInfo as Clone>⟧.is_clone a b ↔ (a ≡ b) }
    ensures rows { (a b : LineTableRow) → ⟦<LineTableRow as Clone>⟧.is_clone a b ↔ (a ≡ b) }
{}
