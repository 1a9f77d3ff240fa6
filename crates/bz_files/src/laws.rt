//! Laws of what a symbolizer knows of files.

ghost use Rattle.std.specs.Prelude.{◌≡◌, ◌↔◌, ℕ, List, [], ◌∷◌, ◌++◌, Some, Result, IsTrue};
ghost use Rattle.std.specs.declared.cmp.Ordering.TheVariants.{Equal};
ghost use Rattle.bz_files.specs.declared.files.FileError.{FileError};
ghost use Rattle.bz_files.specs.declared.stamp.Stamp.{Stamp};
ghost use Rattle.bz_files.specs.declared.text.IoFault.{IoFault};
ghost use Rattle.bz_files.specs.Agreement.{Agree};
ghost use Rattle.bz_files.specs.Edits.{Agreeing, Edit, after_edit, worlds_seen};
ghost use Rattle.bz_files.specs.MemWorlds.{MemWorlds, after_look, after_read, new_worlds};
ghost use Rattle.bz_files.specs.StampOrder.{SameFields, FieldsFit, by_fields};
ghost use Rattle.bz_files.specs.World.{World, next_worlds};

use crate::files::FileError;
use crate::stamp::Stamp;
use crate::text::IoFault;
use std::hash::Hash;

/// Stamps are equal exactly where every field is. Their order goes by the fields as they stand, and
/// ties exactly there.
pub fn stamp_order_agrees()
    ensures equal { (a b : Stamp) → IsTrue (⟦<Stamp as PartialEq>⟧.eq a b) ↔ SameFields a b }
    ensures order { (a b : Stamp) → ⟦<Stamp as Ord>⟧.cmp a b ≡ by_fields a b }
    ensures tie { (a b : Stamp) → (⟦<Stamp as Ord>⟧.cmp a b ≡ Equal) ↔ SameFields a b }
    ensures partial { (a b : Stamp) → ⟦<Stamp as PartialOrd>⟧.partial_cmp a b ≡ Some (⟦<Stamp as Ord>⟧.cmp a b) }
{}

/// Stamps are fed to a hasher alike exactly where every field is equal.
pub fn stamp_hash_agrees()
    ensures alike { (a b : Stamp) → SameFields a b → ⟦<Stamp as Hash>⟧.hash_input a ≡ ⟦<Stamp as Hash>⟧.hash_input b }
    ensures apart { (a b : Stamp) → FieldsFit a → FieldsFit b → ⟦<Stamp as Hash>⟧.hash_input a ≡ ⟦<Stamp as Hash>⟧.hash_input b → SameFields a b }
{}

/// Failures of looks and of ends of texts are equal exactly where they are the same variant.
pub fn variants_are_equal_alone()
    ensures files { (a b : FileError) → IsTrue (⟦<FileError as PartialEq>⟧.eq a b) ↔ (a ≡ b) }
    ensures texts { (a b : IoFault) → IsTrue (⟦<IoFault as PartialEq>⟧.eq a b) ↔ (a ≡ b) }
{}

/// A clone of a stamp or of a failure is equal to it.
pub fn clones_are_equal()
    ensures stamps { (a b : Stamp) → ⟦<Stamp as Clone>⟧.is_clone a b ↔ (a ≡ b) }
    ensures files { (a b : FileError) → ⟦<FileError as Clone>⟧.is_clone a b ↔ (a ≡ b) }
    ensures texts { (a b : IoFault) → ⟦<IoFault as Clone>⟧.is_clone a b ↔ (a ≡ b) }
{}

/// Cloning a stamp or a failure takes no memory.
pub fn clones_never_fail()
    ensures stamps { (a : Stamp) → ⟦<Stamp as Clone>⟧.is_infallible a }
    ensures files { (a : FileError) → ⟦<FileError as Clone>⟧.is_infallible a }
    ensures texts { (a : IoFault) → ⟦<IoFault as Clone>⟧.is_infallible a }
{}

/// New files in memory agree, and each edit that chooses no stamp keeps that. Then all worlds agree
/// that stand in their list or stood there before. `MemFiles::put_as` doesn't keep it.
pub fn edits_keep_agreement()
    ensures new { (pid : ℕ) → Agreeing (new_worlds pid).worlds (new_worlds pid) }
    ensures edit { (seen : List World) (files : MemWorlds) (edit : Edit) → Agreeing seen files → Agreeing (seen ++ (after_edit edit files).worlds) (after_edit edit files) }
    ensures agree { (seen : List World) (files : MemWorlds) → Agreeing seen files → Agree (seen ++ files.worlds) }
{}

/// Files in memory that agree still do after the next world came into view, after a look, and after
/// a look was made to fail. So they do after such calls and edits in any order.
pub fn looks_keep_agreement<T>()
    ensures begin { (seen : List World) (files : MemWorlds) → Agreeing seen files → Agreeing seen (record files { worlds = next_worlds files.worlds }) }
    ensures stat { (seen : List World) (files : MemWorlds) → Agreeing seen files → Agreeing seen (after_look files) }
    ensures read { (seen : List World) (files : MemWorlds) (result : Result T FileError) → Agreeing seen files → Agreeing seen (after_read result files) }
    ensures fail_call { (seen : List World) (files : MemWorlds) (n : ℕ) → Agreeing seen files → Agreeing seen (record files { failing = files.failing ++ n ∷ [] }) }
{}

/// Worlds agree that are made of an empty one by edits that choose no stamp. Equal stamps have equal
/// bytes within each of them and between any two.
pub fn edited_worlds_agree()
    ensures { (pid : ℕ) (edits : List Edit) → Agree (worlds_seen (new_worlds pid) edits) }
{}
