//! What holds of this crate's definitions.

ghost use Rattle.std.specs.Prelude.{◌≡◌, ◌↔◌, ◌<◌, ◌^◌, ℕ, List, Option, Some, IsTrue};
ghost use Rattle.std.specs.declared.cmp.Ordering.TheVariants.{Equal};
ghost use Rattle.bz_base.specs.Answer.{Call, Site, site_of, call_of, symbol_of, resolved_of, reading};
ghost use Rattle.bz_base.specs.InputKind.{payload, MapsTo};
ghost use Rattle.bz_base.specs.Pid.{number_of, pid_order};
ghost use Rattle.bz_base.specs.SeenFrom.{IsSeen, seen_from};
ghost use Rattle.bz_base.specs.declared.error.Error.{Error};
ghost use Rattle.bz_base.specs.declared.error.ErrorKind.{ErrorKind};
ghost use Rattle.bz_base.specs.declared.input.Input.{Input};
ghost use Rattle.bz_base.specs.declared.pid.Pid.{Pid};
ghost use Rattle.bz_base.specs.declared.types.CodeInfo.{CodeInfo};
ghost use Rattle.bz_base.specs.declared.types.InlinedFn.{InlinedFn};
ghost use Rattle.bz_base.specs.declared.types.Reason.{Reason};
ghost use Rattle.bz_base.specs.declared.types.ResolvedSym.{ResolvedSym};
ghost use Rattle.bz_base.specs.declared.types.SrcLang.{SrcLang};
ghost use Rattle.bz_base.specs.declared.types.Sym.{Sym};
ghost use Rattle.bz_base.specs.declared.types.SymType.{SymType};
ghost use Rattle.bz_base.specs.declared.types.Symbolized.{Symbolized};

use crate::error::{Error, ErrorKind};
use crate::input::Input;
use crate::pid::Pid;
use crate::types::{CodeInfo, InlinedFn, Reason, ResolvedSym, SrcLang, Sym, SymType, Symbolized};
use std::hash::Hash;

/// Kinds, reasons and refusals are equal exactly where they are the same variant.
pub fn variants_are_equal_alone()
    ensures reasons { (a b : Reason) → IsTrue (⟦<Reason as PartialEq>⟧.eq a b) ↔ (a ≡ b) }
    ensures errors { (a b : Error) → IsTrue (⟦<Error as PartialEq>⟧.eq a b) ↔ (a ≡ b) }
    ensures error_kinds { (a b : ErrorKind) → IsTrue (⟦<ErrorKind as PartialEq>⟧.eq a b) ↔ (a ≡ b) }
    ensures symbol_types { (a b : SymType) → IsTrue (⟦<SymType as PartialEq>⟧.eq a b) ↔ (a ≡ b) }
    ensures languages { (a b : SrcLang) → IsTrue (⟦<SrcLang as PartialEq>⟧.eq a b) ↔ (a ≡ b) }
{}

/// Processes are equal exactly where they are the same, which is where they are made from the same
/// number. The own process comes before all others, which go by their ids, and the order ties
/// exactly where they are equal.
pub fn pid_order_agrees()
    ensures equal { (a b : Pid) → IsTrue (⟦<Pid as PartialEq>⟧.eq a b) ↔ (a ≡ b) }
    ensures numbers { (a b : Pid) → (number_of a ≡ number_of b) ↔ (a ≡ b) }
    ensures order { (a b : Pid) → ⟦<Pid as Ord>⟧.cmp a b ≡ pid_order a b }
    ensures tie { (a b : Pid) → (⟦<Pid as Ord>⟧.cmp a b ≡ Equal) ↔ (a ≡ b) }
    ensures partial { (a b : Pid) → ⟦<Pid as PartialOrd>⟧.partial_cmp a b ≡ Some (⟦<Pid as Ord>⟧.cmp a b) }
{}

/// Inputs are equal exactly where they are of one kind and their payloads are equal.
pub fn inputs_are_equal_by_payload<T: PartialEq>()
    ensures { (a b : Input T) → IsTrue (⟦<Input<T> as PartialEq>⟧.eq a b) ↔ MapsTo (λ x y. IsTrue (T.eq x y)) a b }
{}

/// By default it isn't known what a symbol names, nor which language its name is from.
pub fn defaults_are_unknown()
    ensures symbol_types { (kind : SymType) → ⟦<SymType as Default>⟧.is_default kind ↔ (kind ≡ SymType.Undefined) }
    ensures languages { (language : SrcLang) → ⟦<SrcLang as Default>⟧.is_default language ↔ (language ≡ SrcLang.Unknown) }
{}

/// Kinds and reasons are fed to a hasher alike exactly where they are equal.
pub fn hashes_agree()
    ensures symbol_types { (a b : SymType) → IsTrue (⟦<SymType as PartialEq>⟧.eq a b) ↔ (⟦<SymType as Hash>⟧.hash_input a ≡ ⟦<SymType as Hash>⟧.hash_input b) }
    ensures reasons { (a b : Reason) → IsTrue (⟦<Reason as PartialEq>⟧.eq a b) ↔ (⟦<Reason as Hash>⟧.hash_input a ≡ ⟦<Reason as Hash>⟧.hash_input b) }
{}

/// Processes are fed to a hasher alike exactly where they are equal.
pub fn pid_hash_agrees()
    ensures alike { (a b : Pid) → a ≡ b → ⟦<Pid as Hash>⟧.hash_input a ≡ ⟦<Pid as Hash>⟧.hash_input b }
    ensures apart { (a b : Pid) → number_of a < 2 ^ 32 → number_of b < 2 ^ 32 → ⟦<Pid as Hash>⟧.hash_input a ≡ ⟦<Pid as Hash>⟧.hash_input b → a ≡ b }
{}

/// A clone of a kind, a language, a reason, a refusal or a process is equal to it.
pub fn clones_are_equal()
    ensures reasons { (a b : Reason) → ⟦<Reason as Clone>⟧.is_clone a b ↔ (a ≡ b) }
    ensures errors { (a b : Error) → ⟦<Error as Clone>⟧.is_clone a b ↔ (a ≡ b) }
    ensures error_kinds { (a b : ErrorKind) → ⟦<ErrorKind as Clone>⟧.is_clone a b ↔ (a ≡ b) }
    ensures symbol_types { (a b : SymType) → ⟦<SymType as Clone>⟧.is_clone a b ↔ (a ≡ b) }
    ensures languages { (a b : SrcLang) → ⟦<SrcLang as Clone>⟧.is_clone a b ↔ (a ≡ b) }
    ensures processes { (a b : Pid) → ⟦<Pid as Clone>⟧.is_clone a b ↔ (a ≡ b) }
{}

/// Cloning a kind, a language, a reason, a refusal or a process takes no memory.
pub fn clones_never_fail()
    ensures reasons { (a : Reason) → ⟦<Reason as Clone>⟧.is_infallible a }
    ensures errors { (a : Error) → ⟦<Error as Clone>⟧.is_infallible a }
    ensures error_kinds { (a : ErrorKind) → ⟦<ErrorKind as Clone>⟧.is_infallible a }
    ensures symbol_types { (a : SymType) → ⟦<SymType as Clone>⟧.is_infallible a }
    ensures languages { (a : SrcLang) → ⟦<SrcLang as Clone>⟧.is_infallible a }
    ensures processes { (a : Pid) → ⟦<Pid as Clone>⟧.is_infallible a }
{}

/// A clone of an input is of its kind, with a clone of its payload, and fails only where cloning the
/// payload may fail.
pub fn clones_keep_the_kind<T: Clone>()
    ensures clone { (a b : Input T) → ⟦<Input<T> as Clone>⟧.is_clone a b ↔ MapsTo T.is_clone a b }
    ensures no_memory { (a : Input T) → T.is_infallible (payload a) → ⟦<Input<T> as Clone>⟧.is_infallible a }
{}

/// Answers and their parts are equal exactly where they read the same, whether borrowed or owned.
pub fn answers_are_equal_by_reading()
    ensures sites { (a b : CodeInfo) → IsTrue (⟦<CodeInfo<'static> as PartialEq>⟧.eq a b) ↔ (site_of a ≡ site_of b) }
    ensures calls { (a b : InlinedFn) → IsTrue (⟦<InlinedFn<'static> as PartialEq>⟧.eq a b) ↔ (call_of a ≡ call_of b) }
    ensures symbols { (a b : Sym) → IsTrue (⟦<Sym<'static> as PartialEq>⟧.eq a b) ↔ (symbol_of a ≡ symbol_of b) }
    ensures resolved { (a b : ResolvedSym) → IsTrue (⟦<ResolvedSym<'static> as PartialEq>⟧.eq a b) ↔ (resolved_of a ≡ resolved_of b) }
    ensures answers { (a b : Symbolized) → IsTrue (⟦<Symbolized<'static> as PartialEq>⟧.eq a b) ↔ (reading a ≡ reading b) }
{}

/// What is seen from outside calls of any kind has their names, and their sites moved by one. The
/// code lies at the outermost call, each call at the next one, and the innermost at the line.
pub fn calls_are_rotated<C>()
    ensures { (site : C → Option Site) (name : C → Option (List ℕ)) (line : Option Site) (calls : List C) (seen : Site × List Call) →
        (seen_from site name line calls ≡ Some seen) ↔ IsSeen site name line calls seen }
{}
