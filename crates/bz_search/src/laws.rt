//! What holds of this crate's definitions.

ghost use Rattle.std.specs.Prelude.{◌≡◌, ◌↔◌, ℕ, ◌<◌, true, List, Option, Some, None, map, option_and_then, slice_get};
ghost use Rattle.bz_search.specs.Chain.{IsInner, IsChainTo, inner, chain, depths};
ghost use Rattle.bz_search.specs.Nearest.{IsCandidate, IsNearestCovering, IsTable, candidate, nearest_covering};
ghost use Rattle.bz_search.specs.Sorting.{Ascends, sorted};
ghost use Rattle.bz_search.specs.Span.{covers, Covers};
ghost use Rattle.bz_search.specs.Starts.{IsFound};

/// The test whether a record covers an address says what the relation says.
pub fn covers_is_exact()
    ensures { (start size addr : ℕ) → (covers start size addr ≡ true) ↔ Covers start size addr }
{}

/// Over records of any kind with a start and a size, `candidate` gives the record that is to be tried.
/// It gives none exactly where each starts above the address. `nearest_covering` gives that record if
/// it covers the address, and else none. No other answer is right.
pub fn nearest_is_exact<T>()
    ensures tried { (start size : T → ℕ) (records : List T) (addr : ℕ) (x : T) → (candidate start size addr records ≡ Some x) ↔ ((place : ℕ) × IsCandidate start size records addr place x) }
    ensures none { (start size : T → ℕ) (records : List T) (addr : ℕ) → (candidate start size addr records ≡ None) ↔ ((i : ℕ) (y : T) → slice_get records i ≡ Some y → addr < start y) }
    ensures is { (start size : T → ℕ) (records : List T) (addr : ℕ) → IsNearestCovering start size records addr (nearest_covering start size addr records) }
    ensures only { (start size : T → ℕ) (records : List T) (addr : ℕ) (answer : Option T) → IsNearestCovering start size records addr answer → answer ≡ nearest_covering start size addr records }
{}

/// In a table of a list's records by start and size, a search among the starts finds a place. The
/// record there is the one to be tried of the list in its own order.
pub fn tables_answer_alike<T>()
    ensures { (start size : T → ℕ) (records table : List T) → IsTable start size records table → (addr : ℕ) (found : Option (ℕ × ℕ)) → IsFound (map start table) addr found →
        option_and_then (λ p. slice_get table p.0) found ≡ candidate start size addr records }
{}

/// Sorting a list stably by two numbers gives a table of it in order, and each table of it is this
/// one. What is in order stays as it is.
pub fn sorted_tables_are_one<T>()
    ensures table { (first second : T → ℕ) (records : List T) → IsTable first second records (sorted first second records) }
    ensures ascends { (first second : T → ℕ) (records : List T) → Ascends first second (sorted first second records) }
    ensures only { (first second : T → ℕ) (records table : List T) → IsTable first second records table → table ≡ sorted first second records }
    ensures again { (first second : T → ℕ) (records : List T) → Ascends first second records → sorted first second records ≡ records }
{}

/// At a depth the search gives the record with the nearest start not above an address. It gives none
/// exactly where each of that depth starts above it. The chain has those around the address, depth by
/// depth.
pub fn inner_is_exact<T>()
    ensures tried { (depth start : T → ℕ) (records : List T) (at addr : ℕ) (x : T) → (inner depth start at addr records ≡ Some x) ↔ ((place : ℕ) × IsInner depth start records at addr place x) }
    ensures none { (depth start : T → ℕ) (records : List T) (at addr : ℕ) → (inner depth start at addr records ≡ None) ↔ ((i : ℕ) (y : T) → slice_get records i ≡ Some y → depth y ≡ at → addr < start y) }
    ensures chain { (depth start size : T → ℕ) (records : List T) (addr : ℕ) → IsChainTo depth start size depths records addr 0 (chain depth start size records addr) }
{}
