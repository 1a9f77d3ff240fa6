//! The symbol of the record that was found for an address, as a table of symbols gives it.

ghost use Rattle.std.specs.Prelude.{◌≡◌, ◌<◌, ◌+◌, ℕ, length, option_map, IfOk, IfErr, IfSome};
ghost use Rattle.bz_base.specs.Answer.{resolved_of};
ghost use Rattle.bz_base.specs.Lent.{IsLentResolved};
ghost use Rattle.bz_base.specs.Refusals.{WantsMemory};
ghost use Rattle.bz_base.specs.Resolution.{MayGive, StartsBefore, found_of};
ghost use Rattle.bz_base.specs.declared.types.FindSymOpts.{FindSymOpts};
ghost use Rattle.bz_base.specs.declared.types.Reason.{Reason};
ghost use Rattle.bz_breakpad.specs.Found.{IsRecordFor};
ghost use Rattle.bz_breakpad.specs.Plain.{plain, public_symbol_at, symbol_at};
ghost use Rattle.bz_breakpad.specs.Resolver.{found_in, resolved_in};
ghost use Rattle.bz_breakpad.specs.Stands.{OfItsTable, OfTableIn, StandsForSuch};
ghost use Rattle.bz_breakpad_function.specs.Lent.{IsLentLocation, location_seen};
ghost use Rattle.bz_breakpad_function.specs.Locations.{IsAnswerRefusal};
ghost use Rattle.bz_breakpad_lines.specs.Table.{Table};
ghost use Rattle.bz_breakpad_table.specs.Kept.{IsTextAt, function_seen, kept_public, text_at};

use crate::found::{FoundAddr, FoundRecord};
use bz_base::{FindSymOpts, Reason, ResolvedSym, Result, SrcLang};
use bz_breakpad_function::{Location, location_at};
use bz_breakpad_table::{KeptFunction, KeptPublic, KeptTable, text_of};
use std::alloc::Global;

/// The symbol at an address, from the record that was found for it, or why there is none.
#[inline(always)]
pub(crate) fn symbol_from<'a>(
    alloc: Global,
    bytes: &'a [u8],
    kept: &'a KeptTable,
    opts: &FindSymOpts,
    at: &FoundAddr,
) -> Result<std::result::Result<ResolvedSym<'a>, Reason>>
    requires { StandsForSuch bytes.now kept.now (λ table. IsRecordFor table at.now.addr at.now.found) }
    ensures answer { OfTableIn bytes.now kept.now (λ table. IsRecordFor table at.now.addr at.now.found →
        MayGive found_of (λ answer. answer ≡ found_in (plain table opts.now at.now.addr)) result) }
    ensures starts { IfOk result (λ symbol. StartsBefore at.now.addr (found_of symbol)) }
    ensures lent { IfOk result (λ symbol. IfOk symbol IsLentResolved) }
    ensures refusal { IfErr result IsAnswerRefusal }
    ensures memory { IfErr result (WantsMemory (opts.now ≡ FindSymOpts.CodeInfoAndInlined)) }
{
    match at.found {
        FoundRecord::Function(index) => {
            let function = &kept.code.functions[index as usize];
            let location = location_at(alloc, bytes, kept, opts, function, at.hints, at.addr)?;
            Ok(Ok(function_symbol(bytes, kept, function, location)))
        }
        FoundRecord::Public(index) => {
            let public = &kept.publics[index as usize];
            Ok(Ok(public_symbol(alloc, bytes, kept, public)))
        }
        FoundRecord::Absent => Ok(Err(unanswered(kept))),
    }
}

/// Why no record answers for an address.
fn unanswered(kept: &KeptTable) -> Reason
    ensures missing { OfItsTable kept.now (λ table. length table.functions ≡ 0 → length table.publics ≡ 0 → result ≡ Reason.MissingSyms) }
    ensures unknown { OfItsTable kept.now (λ table. 0 < length table.functions + length table.publics → result ≡ Reason.UnknownAddr) }
{
    if kept.code.functions.is_empty() && kept.publics.is_empty() {
        Reason::MissingSyms
    } else {
        Reason::UnknownAddr
    }
}

/// The function as the symbol at an address that lies there in the source code.
fn function_symbol<'a>(
    bytes: &'a [u8],
    kept: &'a KeptTable,
    function: &'a KeptFunction,
    location: Location<'a>,
) -> ResolvedSym<'a>
    requires module_fits { IfSome kept.now.«module» (IsTextAt bytes.now) }
    requires name_fits { IsTextAt bytes.now function.now.name }
    requires lent { IsLentLocation location }
    ensures symbol { (read : Table) (addr : ℕ) → read.«module» ≡ option_map (text_at bytes.now) kept.now.«module» →
        resolved_of result ≡ resolved_in (symbol_at read (function_seen bytes.now kept.now.code function.now) addr (location_seen location.entry)) }
    ensures start { result.addr ≡ function.now.start }
    ensures lent { IsLentResolved result }
{
    ResolvedSym {
        name: text_of(bytes, &function.name),
        module: module_name(bytes, kept),
        addr: function.start,
        size: Some(function.size as usize),
        lang: SrcLang::Unknown,
        code_info: location.code_info,
        inlined: location.inlined,
    }
}

/// The PUBLIC record as the symbol at an address.
fn public_symbol<'a>(
    alloc: Global,
    bytes: &'a [u8],
    kept: &'a KeptTable,
    public: &'a KeptPublic,
) -> ResolvedSym<'a>
    requires module_fits { IfSome kept.now.«module» (IsTextAt bytes.now) }
    requires name_fits { IsTextAt bytes.now public.now.name }
    ensures symbol { (read : Table) (addr : ℕ) → read.«module» ≡ option_map (text_at bytes.now) kept.now.«module» →
        resolved_of result ≡ resolved_in (public_symbol_at read (kept_public bytes.now public.now) addr) }
    ensures start { result.addr ≡ public.now.start }
    ensures lent { IsLentResolved result }
{
    ResolvedSym {
        name: text_of(bytes, &public.name),
        module: module_name(bytes, kept),
        addr: public.start,
        size: None,
        lang: SrcLang::Unknown,
        code_info: None,
        inlined: Vec::new(alloc),
    }
}

/// The module, lent.
pub(crate) fn module_name<'a>(bytes: &'a [u8], kept: &KeptTable) -> Option<&'a str>
    requires { IfSome kept.now.«module» (IsTextAt bytes.now) }
    ensures { option_map (λ name. name.now) result ≡ option_map (text_at bytes.now) kept.now.«module» }
{
    match &kept.module {
        Some(part) => Some(text_of(bytes, part)),
        None => None,
    }
}
