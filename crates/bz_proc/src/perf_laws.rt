//! What holds of the definitions of perf maps.

ghost use Rattle.std.specs.Prelude.{◌≡◌, ◌≤◌, ◌↔◌, ℕ, List, None, Some, Ok};
ghost use Rattle.bz_base.specs.Answer.{Resolved};
ghost use Rattle.bz_base.specs.declared.error.Error.{Error};
ghost use Rattle.bz_proc.specs.PerfLine.{IsPerfLine, IsPerfNumber, PerfFunction, perf_function_in, perf_number};
ghost use Rattle.bz_proc.specs.PerfLines.{AreParts, perf_functions_in, perf_parts};
ghost use Rattle.bz_proc.specs.PerfMap.{IsPerfMap, format_test, plain};

/// A perf map is cut into the parts that the relation tells.
pub fn perf_maps_are_cut()
    ensures { (bytes : List ℕ) (parts : List (List ℕ)) → (perf_parts bytes ≡ parts) ↔ AreParts bytes parts }
{}

/// What is read of a number, of a line and of a whole map is what the relations say. Bytes are taken
/// that are a perf map, and no others.
pub fn perf_maps_are_exact()
    ensures number { (text : List ℕ) (value : ℕ) → (perf_number text ≡ Some value) ↔ IsPerfNumber text value }
    ensures line { (line : List ℕ) (f : PerfFunction) → (perf_function_in line ≡ Some f) ↔ IsPerfLine line f }
    ensures map { (bytes : List ℕ) (functions : List PerfFunction) → (perf_functions_in bytes ≡ Some functions) ↔ IsPerfMap bytes functions }
    ensures taken { (bytes : List ℕ) → (format_test bytes ≡ None) ↔ ((functions : List PerfFunction) × IsPerfMap bytes functions) }
    ensures refused { (bytes : List ℕ) (e : Error) → format_test bytes ≡ Some e → e ≡ Error.InvalidData }
{}

/// A function that answers an address starts there or before it.
pub fn perf_answers_start_before()
    ensures { (bytes : List ℕ) (addr : ℕ) (r : Resolved) → plain bytes addr ≡ Ok r → r.addr ≤ addr }
{}
