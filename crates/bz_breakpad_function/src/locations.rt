//! Where an address lies in the source code: the line record that answers for it, and the calls
//! that were inlined around it.

ghost use Rattle.std.specs.Prelude.{◌≡◌, ◌<◌, ◌∷◌, List, length, map, option_map, slice_range, IfOk, IfErr, IfSome};
ghost use Rattle.std.specs.Cow.{cow_str_bytes};
ghost use Rattle.bz_base.specs.Answer.{Call, Gives, call_of, site_of};
ghost use Rattle.bz_base.specs.Lent.{IsLentCall, IsLentSite, IsLentText};
ghost use Rattle.bz_base.specs.Refusals.{WantsMemory};
ghost use Rattle.bz_base.specs.declared.types.FindSymOpts.{FindSymOpts};
ghost use Rattle.bz_breakpad_function.specs.Lent.{IsLentLocation, location_seen};
ghost use Rattle.bz_breakpad_function.specs.Locations.{by_seen, calls_asked, calls_around, line_at, nowhere, location_at, seen_from, seen_outside, site_in, IsAnswerRefusal};
ghost use Rattle.bz_breakpad_lines.specs.Table.{Table};
ghost use Rattle.bz_breakpad_lines.specs.Told.{line_seen};
ghost use Rattle.bz_breakpad_table.specs.Kept.{AreCallsAt, NamesFit, kept_call, function_seen};
ghost use Rattle.bz_breakpad_table.specs.Search.{IsFunction};
ghost use Rattle.bz_breakpad_table.specs.Sorted.{StandsFor};

use crate::line_run::{Cuts, line_in_run};
use crate::lines::line_covering;
use bz_base::{Addr, CodeInfo, Error, FindSymOpts, InlinedFn, Result, chain_in, split_source};
use bz_breakpad_lines::{SourceLine, call_at};
use bz_breakpad_table::{CallRange, FunctionTable, KeptFunction, KeptTable, LineRecords, name_of};
use std::alloc::{AllocError, Global};
use std::borrow::CowStr;
use std::marker::Brand;
use std::sync::ledger::Blank;

/// Where an address lies in the source code.
#[derive(Drop)]
pub struct Location<'f> {
    /// The site in the function, if one is known.
    pub code_info: Option<CodeInfo<'f>>,
    /// The calls that were inlined there, the outermost first.
    pub inlined: Vec<InlinedFn<'f>>,
}

/// Where an address relative to the module's base lies, as the options ask. Hints change nothing.
pub fn location_at<'f>(
    alloc: Global,
    bytes: &'f [u8],
    kept: &'f KeptTable,
    opts: &FindSymOpts,
    function: &KeptFunction,
    hints: Cuts,
    addr: Addr,
) -> Result<Location<'f>>
    requires function { IsFunction bytes.now kept.now.code function.now }
    requires stands { (table : Table) × StandsFor bytes.now table kept.now }
    ensures location { (table : Table) → StandsFor bytes.now table kept.now →
        Gives location_seen (location_at table opts.now (function_seen bytes.now kept.now.code function.now) addr) result }
    ensures lent { IfOk result IsLentLocation }
    ensures refusal { IfErr result IsAnswerRefusal }
    ensures memory { IfErr result (WantsMemory (opts.now ≡ FindSymOpts.CodeInfoAndInlined)) }
{
    if matches!(opts, FindSymOpts::Basic) {
        return Ok(nowhere(alloc));
    }
    let Some(line) = line_of(bytes, &kept.code, function, hints, addr) else {
        return Ok(nowhere(alloc));
    };
    let calls = calls_asked(alloc, bytes, &kept.code, opts, function, addr)?;
    seen_from(alloc, bytes, kept, &calls, line)
}

/// No site, and no call.
fn nowhere<'f>(alloc: Global) -> Location<'f>
    ensures location { location_seen result ≡ nowhere }
    ensures lent { IsLentLocation result }
{
    Location {
        code_info: None,
        inlined: Vec::new(alloc),
    }
}

/// The line record of the function that answers for the address. The hints are for `line_in_run`.
pub(crate) fn line_of(
    bytes: &[u8],
    code: &FunctionTable,
    function: &KeptFunction,
    hints: Cuts,
    addr: Addr,
) -> Option<SourceLine>
    requires { IsFunction bytes.now code.now function.now }
    ensures { option_map line_seen result ≡ line_at addr (function_seen bytes.now code.now function.now).lines }
{
    match function.lines {
        LineRecords::Run(part) => line_in_run(bytes, &part, hints, addr),
        LineRecords::Listed(part) => {
            let places = &code.lines[part.from as usize..part.to as usize];
            line_covering::<Brand>(bytes, places, addr, Blank::new(1))
        }
    }
}

/// The calls that were inlined around the address, the outermost first, where they are asked for.
fn calls_asked<'f>(
    alloc: Global,
    bytes: &[u8],
    code: &'f FunctionTable,
    opts: &FindSymOpts,
    function: &KeptFunction,
    addr: Addr,
) -> std::result::Result<Vec<&'f CallRange>, AllocError>
    requires { IsFunction bytes.now code.now function.now }
    ensures calls { IfOk result (λ calls. map (λ call. kept_call bytes.now call.now) calls.items ≡ calls_asked opts.now addr (function_seen bytes.now code.now function.now).inlinees) }
    ensures asked { IfOk result (λ calls. 0 < length calls.items → opts.now ≡ FindSymOpts.CodeInfoAndInlined) }
    ensures memory { IfErr result (λ _. opts.now ≡ FindSymOpts.CodeInfoAndInlined) }
{
    match opts {
        FindSymOpts::CodeInfoAndInlined => calls_around(alloc, bytes, code, function, addr),
        FindSymOpts::Basic | FindSymOpts::CodeInfo => Ok(Vec::new(alloc)),
    }
}

/// The calls that were inlined around the address, the outermost first.
pub(crate) fn calls_around<'f>(
    alloc: Global,
    bytes: &[u8],
    code: &'f FunctionTable,
    function: &KeptFunction,
    addr: Addr,
) -> std::result::Result<Vec<&'f CallRange>, AllocError>
    requires { IsFunction bytes.now code.now function.now }
    ensures { IfOk result (λ calls. map (λ call. kept_call bytes.now call.now) calls.items ≡ calls_around addr (function_seen bytes.now code.now function.now).inlinees) }
{
    chain_in(alloc, inlinees_of(code, function), addr)
}

/// The inlined calls of a function, by depth and start.
pub(crate) fn inlinees_of<'f>(code: &'f FunctionTable, function: &KeptFunction) -> &'f [CallRange]
    requires { AreCallsAt code.now.inlinees.items function.now.inlinees }
    ensures { result.now ≡ slice_range code.now.inlinees.items function.now.inlinees.from function.now.inlinees.to }
{
    let part = function.inlinees;
    &code.inlinees[part.from as usize..part.to as usize]
}

/// A line of the file of an id; none if the id names nothing, or its name has no component.
fn site_in<'f>(bytes: &'f [u8], kept: &'f KeptTable, file: u32, line: u32) -> Option<CodeInfo<'f>>
    requires { NamesFit bytes.now kept.now.files }
    ensures site { (table : Table) → StandsFor bytes.now table kept.now → option_map site_of result ≡ site_in table file line }
    ensures lent { IfSome result IsLentSite }
{
    let (dir, file) = split_source(name_of(bytes, &kept.files, file)?)?;
    Some(CodeInfo {
        dir: lent(dir),
        file: CowStr::Borrowed(file),
        line: Some(line),
        column: None,
    })
}

/// A directory, lent.
fn lent(dir: Option<&str>) -> Option<CowStr<'_>>
    ensures text { option_map cow_str_bytes result ≡ option_map (λ text. text.now) dir.entry }
    ensures lent { IfSome result IsLentText }
{
    Some(CowStr::Borrowed(dir?))
}

/// Where the code of a line record lies, seen from outside the calls around it.
fn seen_from<'f>(
    alloc: Global,
    bytes: &'f [u8],
    kept: &'f KeptTable,
    calls: &[&CallRange],
    line: SourceLine,
) -> Result<Location<'f>>
    requires files { NamesFit bytes.now kept.now.files }
    requires origins { NamesFit bytes.now kept.now.origins }
    ensures location { (table : Table) → StandsFor bytes.now table kept.now →
        Gives location_seen (by_seen (seen_from table (map (λ call. kept_call bytes.now call.now) calls.now) (line_seen line))) result }
    ensures lent { IfOk result IsLentLocation }
    ensures refusal { IfErr result IsAnswerRefusal }
    ensures memory { IfErr result (WantsMemory (0 < length calls.now)) }
{
    let Some(inner) = site_in(bytes, kept, line.file, line.line) else {
        return Err(Error::InvalidInput);
    };
    let mut site = inner;
    let mut inlined = Vec::with_capacity(alloc, calls.len())?;
    let mut left = calls.len();
    while left > 0 {
        left -= 1;
        let Some((call, outer)) = seen_outside(bytes, kept, calls[left], site) else {
            return Err(Error::InvalidInput);
        };
        inlined.push(call)?;
        site = outer;
    }
    // The innermost call came first.
    inlined.reverse();
    Ok(Location {
        code_info: Some(site),
        inlined,
    })
}

/// Code at a site inside a call, seen from outside it: the call with the site, and where the call
/// stands. None if a name isn't known.
fn seen_outside<'f>(
    bytes: &'f [u8],
    kept: &'f KeptTable,
    range: &CallRange,
    inner: CodeInfo<'f>,
) -> Option<(InlinedFn<'f>, CodeInfo<'f>)>
    requires files { NamesFit bytes.now kept.now.files }
    requires origins { NamesFit bytes.now kept.now.origins }
    requires lent { IsLentSite inner }
    ensures seen { (table : Table) (calls : List Call) → StandsFor bytes.now table kept.now →
        option_map (λ seen. (site_of seen.1, call_of seen.0 ∷ calls)) result ≡ seen_outside table (kept_call bytes.now range.now) (site_of inner.entry, calls) }
    ensures lent_call { IfSome result (λ seen. IsLentCall seen.0) }
    ensures lent_site { IfSome result (λ seen. IsLentSite seen.1) }
{
    let record = call_at(bytes, range.place as usize);
    let name = name_of(bytes, &kept.origins, record.origin)?;
    let outer = site_in(bytes, kept, record.file, record.line)?;
    let call = InlinedFn {
        name: CowStr::Borrowed(name),
        code_info: Some(inner),
    };
    Some((call, outer))
}
