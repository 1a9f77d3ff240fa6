//! What holds of this crate's definitions.

ghost use Rattle.std.specs.Prelude.{◌≡◌, ◌↔◌, ◌+◌, ◌<◌, ℕ, List, Option, None, Some, Ok, Result, IsTrue, slice_get};
ghost use Rattle.bz_base.specs.Answer.{Call, Resolved, Site, Symbol};
ghost use Rattle.bz_base.specs.Answer.Answer.{Known};
ghost use Rattle.bz_base.specs.Nearest.{IsNearestCovering};
ghost use Rattle.bz_base.specs.Resolution.{answer_at};
ghost use Rattle.bz_base.specs.declared.types.FindSymOpts.{FindSymOpts};
ghost use Rattle.bz_base.specs.declared.types.Reason.{Reason};
ghost use Rattle.bz_base.specs.declared.types.SymType.{SymType};
ghost use Rattle.bz_breakpad.specs.Inspect.{info_of};
ghost use Rattle.bz_breakpad.specs.Listed.{lent_public};
ghost use Rattle.bz_breakpad.specs.Plain.{IsNearestPublic, function_at, plain, public_at};
ghost use Rattle.bz_breakpad.specs.Resolver.{found_in, unmarked};
ghost use Rattle.bz_breakpad.specs.declared.inspect.FindAddrOpts.{FindAddrOpts};
ghost use Rattle.bz_breakpad.specs.declared.inspect.SymInfo.{SymInfo};
ghost use Rattle.bz_breakpad.specs.declared.types.PublicSymbol.{PublicSymbol};
ghost use Rattle.bz_breakpad_function.specs.Locations.{IsSeen, seen_from};
ghost use Rattle.bz_breakpad_function.specs.declared.types.Inlinee.{Inlinee};
ghost use Rattle.bz_breakpad_lines.specs.Table.{Function, Table};
ghost use Rattle.bz_breakpad_lines.specs.Table as tables;
ghost use Rattle.bz_breakpad_lines.specs.declared.record.SourceLine.{SourceLine};

use crate::inspect::{FindAddrOpts, SymInfo};
use crate::types::PublicSymbol;
use bz_base::SymType;
use bz_breakpad_function::Inlinee;
use bz_breakpad_lines::SourceLine;

/// Line records and inlined calls are equal exactly where every field is.
pub fn records_are_equal_by_field()
    ensures lines { (a b : SourceLine) → IsTrue (⟦<SourceLine as PartialEq>⟧.eq a b) ↔ (a ≡ b) }
    ensures calls { (a b : Inlinee) → IsTrue (⟦<Inlinee as PartialEq>⟧.eq a b) ↔ (a ≡ b) }
{}

/// PUBLIC records are equal exactly where every field is.
pub fn public_symbols_are_equal_by_field()
    ensures { (a b : PublicSymbol) → IsTrue (⟦<PublicSymbol<'static> as PartialEq>⟧.eq a b) ↔ (lent_public a ≡ lent_public b) }
{}

/// What is told of symbols is equal exactly where every field is. A clone tells the same.
pub fn infos_are_equal_by_field()
    ensures equal { (a b : SymInfo) → IsTrue (⟦<SymInfo<'static> as PartialEq>⟧.eq a b) ↔ (info_of a ≡ info_of b) }
    ensures clone { (a b : SymInfo) → ⟦<SymInfo<'static> as Clone>⟧.is_clone a b → info_of a ≡ info_of b }
{}

/// By default symbols of any kind are looked for.
pub fn any_kind_is_looked_for()
    ensures { (opts : FindAddrOpts) → ⟦<FindAddrOpts as Default>⟧.is_default opts ↔ (opts.sym_type ≡ SymType.Undefined) }
{}

/// The function that answers for an address is the nearest one, and no other is.
pub fn nearest_function()
    ensures is { (functions : List Function) (addr : ℕ) →
        IsNearestCovering (λ f. f.start) (λ f. f.size) functions addr (function_at addr functions) }
    ensures only { (functions : List Function) (addr : ℕ) (answer : Option Function) →
        IsNearestCovering (λ f. f.start) (λ f. f.size) functions addr answer → answer ≡ function_at addr functions }
{}

/// The PUBLIC record that answers for an address is the nearest one, and the first of those that start
/// there. There is none exactly where each starts above the address.
pub fn nearest_public()
    ensures is { (publics : List tables.PublicSymbol) (addr : ℕ) (p : tables.PublicSymbol) →
        (public_at addr publics ≡ Some p) ↔ ((place : ℕ) × IsNearestPublic publics addr place p) }
    ensures none { (publics : List tables.PublicSymbol) (addr : ℕ) →
        (public_at addr publics ≡ None) ↔ ((i : ℕ) (q : tables.PublicSymbol) → slice_get publics i ≡ Some q → addr < q.start) }
{}

/// What is seen from outside all calls has their sites and names, each moved by one. The code lies at
/// the outermost call, each call at the next one, and the innermost at the line.
pub fn calls_are_rotated()
    ensures { (table : Table) (calls : List tables.Inlinee) (line : tables.SourceLine) (seen : Site × List Call) →
        (seen_from table calls line ≡ Some seen) ↔ IsSeen table calls line seen }
{}

/// A symbol's start and offset make up the address that it answers for.
pub fn answers_lie_at_their_addresses()
    ensures { (table : Table) (opts : FindSymOpts) (addr : ℕ) (s : Symbol) → plain table opts addr ≡ Ok (Known s) → s.addr + s.offset ≡ addr }
{}

/// What a resolver finds is the plain answer at the address, but for the field `public`.
pub fn found_symbols_are_plain()
    ensures { (table : Table) (opts : FindSymOpts) (addr : ℕ) (found : Result Resolved Reason) → found_in (plain table opts addr) ≡ Ok found →
        unmarked (plain table opts addr) ≡ Ok (answer_at addr found) }
{}
