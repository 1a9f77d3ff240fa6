//! What holds of this crate's definitions.

ghost use Rattle.std.specs.Prelude.{◌≡◌, ◌↔◌, ℕ, List, Option, Some, IsTrue, string_bytes};
ghost use Rattle.std.specs.declared.cmp.Ordering.TheVariants.{Equal};
ghost use Rattle.bz_base.specs.declared.pid.Pid.{Pid};
ghost use Rattle.bz_proc.specs.Maps.{Mapping, AreMappings, maps_in, name_of};
ghost use Rattle.bz_proc.specs.MappingLine.{Line, IsLine, line_in};
ghost use Rattle.bz_proc.specs.NameOrder.{path_order, order_of_names};
ghost use Rattle.bz_proc.specs.Status.{Tells, ns_tgid_in};
ghost use Rattle.bz_proc.specs.declared.maps.EntryPath.{EntryPath};
ghost use Rattle.bz_proc.specs.declared.maps.PathName.{PathName};

use crate::maps::{EntryPath, PathName};
use std::hash::Hash;

/// What is read of a line of mappings is what its fields tell, side by side. The mappings that are
/// read of a text are those that its lines say, so that a text has one list of them at most.
pub fn mappings_are_exact()
    ensures line { (line : List ℕ) (told : Line) → (line_in line ≡ Some told) ↔ IsLine line told }
    ensures maps { (pid : Pid) (text : List ℕ) (mappings : List Mapping) → (maps_in pid text ≡ Some mappings) ↔ AreMappings pid text mappings }
{}

/// What is read of a status is what it tells. That is the id which the last word behind the first label
/// spells, or that no line has the label.
pub fn statuses_are_exact()
    ensures { (status : List ℕ) (told : Option ℕ) → (ns_tgid_in status ≡ Some told) ↔ Tells status told }
{}

/// Paths of mapped files, and names of mappings, are equal exactly where their texts are.
pub fn names_are_equal_by_text()
    ensures paths { (a b : EntryPath) → IsTrue (⟦<EntryPath as PartialEq>⟧.eq a b) ↔ ((string_bytes a.maps_file ≡ string_bytes b.maps_file) × (string_bytes a.symbolic_path ≡ string_bytes b.symbolic_path)) }
    ensures names { (a b : PathName) → IsTrue (⟦<PathName as PartialEq>⟧.eq a b) ↔ (name_of a ≡ name_of b) }
{}

/// Paths of mapped files go by the path in `/proc`, and then by their own, byte by byte. The order ties
/// exactly where they are equal.
pub fn path_order_agrees()
    ensures order { (a b : EntryPath) → ⟦<EntryPath as Ord>⟧.cmp a b ≡ path_order (string_bytes a.maps_file) (string_bytes a.symbolic_path) (string_bytes b.maps_file) (string_bytes b.symbolic_path) }
    ensures tie { (a b : EntryPath) → (⟦<EntryPath as Ord>⟧.cmp a b ≡ Equal) ↔ IsTrue (⟦<EntryPath as PartialEq>⟧.eq a b) }
    ensures partial { (a b : EntryPath) → ⟦<EntryPath as PartialOrd>⟧.partial_cmp a b ≡ Some (⟦<EntryPath as Ord>⟧.cmp a b) }
{}

/// Names of files come before those of parts of the system, and each kind goes by its texts. The order
/// ties exactly where names are equal.
pub fn name_order_agrees()
    ensures order { (a b : PathName) → ⟦<PathName as Ord>⟧.cmp a b ≡ order_of_names (name_of a) (name_of b) }
    ensures tie { (a b : PathName) → (⟦<PathName as Ord>⟧.cmp a b ≡ Equal) ↔ IsTrue (⟦<PathName as PartialEq>⟧.eq a b) }
    ensures partial { (a b : PathName) → ⟦<PathName as PartialOrd>⟧.partial_cmp a b ≡ Some (⟦<PathName as Ord>⟧.cmp a b) }
{}

/// Paths of mapped files, and names of mappings, are fed to a hasher alike exactly where they are
/// equal.
pub fn name_hashes_agree()
    ensures paths { (a b : EntryPath) → IsTrue (⟦<EntryPath as PartialEq>⟧.eq a b) ↔ (⟦<EntryPath as Hash>⟧.hash_input a ≡ ⟦<EntryPath as Hash>⟧.hash_input b) }
    ensures names { (a b : PathName) → IsTrue (⟦<PathName as PartialEq>⟧.eq a b) ↔ (⟦<PathName as Hash>⟧.hash_input a ≡ ⟦<PathName as Hash>⟧.hash_input b) }
{}
