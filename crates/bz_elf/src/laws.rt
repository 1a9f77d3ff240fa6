//! What holds of the definitions that the contracts cite.

ghost use Rattle.std.specs.Prelude.{◌≡◌, ◌≤◌, ◌↔◌, ℕ, List, Option, None, Some, Ok, true, drop};
ghost use Rattle.bz_base.specs.Answer.{Resolved};
ghost use Rattle.bz_base.specs.ZeroEnded.{IsString, before_zero};
ghost use Rattle.bz_elf.specs.Plain.{plain};
ghost use Rattle.bz_base.specs.declared.error.Error.{Error};
ghost use Rattle.bz_elf.specs.Format.{IsFirstFailing, PassesChecks, checks, format_test};
ghost use Rattle.bz_elf.specs.Profile.{IsElf};
ghost use Rattle.bz_elf.specs.Symbols.{is_name};

/// The test of an ELF file says what the relation says, which is what the checks say together. Other
/// bytes are refused by the first check that they fail.
pub fn files_are_exact()
    ensures taken { (bytes : List ℕ) → (format_test bytes ≡ None) ↔ IsElf bytes }
    ensures passed { (bytes : List ℕ) → (format_test bytes ≡ None) ↔ PassesChecks bytes }
    ensures refused { (bytes : List ℕ) (e : Error) → (format_test bytes ≡ Some e) ↔ ((index : ℕ) × IsFirstFailing checks bytes index e) }
{}

/// A name stands at a place of the strings by the test exactly where a zero byte ends it and it is in
/// UTF-8. It is the one that stands there.
pub fn names_are_exact()
    ensures { (strings : List ℕ) (place : ℕ) (name : List ℕ) → ((is_name (drop place strings) ≡ true) × (before_zero (drop place strings) ≡ name)) ↔ IsString strings place name }
{}

/// A symbol that answers an address starts there or before it.
pub fn answers_start_before()
    ensures { (module_name : Option (List ℕ)) (bytes : List ℕ) (addr : ℕ) (r : Resolved) → plain module_name bytes addr ≡ Ok r → r.addr ≤ addr }
{}
