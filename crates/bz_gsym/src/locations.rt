//! Where an address lies in the source code: the line, and the calls that were inlined around it.

ghost use Rattle.std.specs.Prelude.{◌≡◌, ◌<◌, ◌∷◌, List, length, option_map, Some, IfOk, IfErr, IfSome};
ghost use Rattle.bz_base.specs.Answer.{Call, call_of, site_of};
ghost use Rattle.bz_base.specs.Lent.{IsLentCall, IsLentSite};
ghost use Rattle.bz_base.specs.Refusals.{WantsMemory};
ghost use Rattle.bz_base.specs.declared.types.FindSymOpts.{FindSymOpts};
ghost use Rattle.bz_gsym.specs.Joining.{at_site, location_by, seen_from, seen_outside, site_in};
ghost use Rattle.bz_gsym.specs.JoiningSeen.{IsLentLocation, line_seen, location_seen, facts_seen};
ghost use Rattle.bz_gsym.specs.Plain.{location_of};
ghost use Rattle.bz_gsym.specs.Refusal.{Refuses};
ghost use Rattle.bz_gsym.specs.Seen.{frame_seen, frames_seen, info_seen};
ghost use Rattle.bz_gsym.specs.Strings.{string_at};
ghost use Rattle.bz_gsym.specs.Tables.{strings};

use crate::entries::{Facts, facts_of};
use crate::linetab::LineTableRow;
use crate::parser::GsymContext;
use crate::types::{AddrInfo, InlineFrame};
use bz_base::{Addr, CodeInfo, Error, FindSymOpts, InlinedFn, Result};
use std::alloc::Global;
use std::borrow::CowStr;

/// The name that a symbol has at an address, and where that lies in the source code.
#[derive(Drop)]
pub(crate) struct Location<'a> {
    /// The name.
    pub name: &'a str,
    /// The site in the function of that name, if one is known.
    pub code_info: Option<CodeInfo<'a>>,
    /// The calls that were inlined there, the outermost first.
    pub inlined: Vec<InlinedFn<'a>>,
}

/// A line of a source file. It has a directory, even if that is empty.
#[derive(Clone, Copy)]
struct SourceLine<'a> {
    dir: &'a str,
    file: &'a str,
    line: u32,
}

/// The name and the site of an address in a symbol that begins at `start`, as far as they are asked
/// for. InvalidData: the name, or what is asked for, isn't in the format.
pub(crate) fn location_of<'a>(
    context: &GsymContext<'a>,
    alloc: Global,
    opts: &FindSymOpts,
    addr: Addr,
    start: Addr,
    info: &AddrInfo<'a>,
) -> Result<Location<'a>>
    ensures ok { IfOk result (λ location. location_of context.now opts.now addr start (info_seen info.now) ≡ Some (location_seen location)) }
    ensures lent { IfOk result IsLentLocation }
    ensures refusal { IfErr result (Refuses (location_of context.now opts.now addr start (info_seen info.now))) }
    ensures memory { IfErr result (WantsMemory (opts.now ≡ FindSymOpts.CodeInfoAndInlined)) }
{
    let Some(name) = context.get_str(info.name as usize) else {
        return Err(Error::InvalidData);
    };
    let facts = facts_of(alloc, opts, start, addr, info.bytes)?;
    location_by(context, alloc, info.name, name, &facts)
}

/// The name and the site by what is told of the address. Without a line nothing is known beside the
/// symbol's own name, which stands at a place of the string table.
fn location_by<'a>(
    context: &GsymContext<'a>,
    alloc: Global,
    own: u32,
    name: &'a str,
    facts: &Facts,
) -> Result<Location<'a>>
    requires { string_at (strings context.now) own ≡ Some name.now }
    ensures ok { IfOk result (λ location. location_by context.now name.now (facts_seen facts.now).row (facts_seen facts.now).frames ≡ Some (location_seen location)) }
    ensures lent { IfOk result IsLentLocation }
    ensures refusal { IfErr result (Refuses (location_by context.now name.now (facts_seen facts.now).row (facts_seen facts.now).frames)) }
    ensures memory { IfErr result (WantsMemory (0 < length facts.now.frames.items)) }
{
    let Some(row) = facts.row else {
        return Ok(Location {
            name,
            code_info: None,
            inlined: Vec::new(alloc),
        });
    };
    let Some((first, calls)) = facts.frames.split_first() else {
        return seen_from(context, alloc, name, row, &[]);
    };
    let Some(name) = name_at(context, own, name, first.name) else {
        return Err(Error::InvalidData);
    };
    seen_from(context, alloc, name, row, calls)
}

/// The name at a place of the string table, where one is known. Mostly it is that one.
#[inline(always)]
fn name_at<'a>(context: &GsymContext<'a>, known: u32, name: &'a str, place: u32) -> Option<&'a str>
    requires { string_at (strings context.now) known ≡ Some name.now }
    ensures { option_map (λ text. text.now) result ≡ string_at (strings context.now) place }
{
    if place == known {
        return Some(name);
    }
    context.get_str(place as usize)
}

/// The code of a line, seen from outside the calls around it.
fn seen_from<'a>(
    context: &GsymContext<'a>,
    alloc: Global,
    name: &'a str,
    row: LineTableRow,
    calls: &[InlineFrame],
) -> Result<Location<'a>>
    ensures ok { IfOk result (λ location. option_map (at_site name.now) (seen_from context.now row (frames_seen calls.now)) ≡ Some (location_seen location)) }
    ensures lent { IfOk result IsLentLocation }
    ensures refusal { IfErr result (Refuses (seen_from context.now row (frames_seen calls.now))) }
    ensures memory { IfErr result (WantsMemory (0 < length calls.now)) }
{
    let Some(mut site) = site_in(context, row.file_idx, row.file_line) else {
        return Err(Error::InvalidData);
    };
    let mut inlined = Vec::with_capacity(alloc, calls.len())?;
    for index in (0..calls.len()).rev() {
        let Some((call, outer)) = seen_outside(context, &calls[index], site) else {
            return Err(Error::InvalidData);
        };
        inlined.push(call)?;
        site = outer;
    }
    // The innermost call came first.
    inlined.reverse();
    Ok(Location {
        name,
        code_info: Some(code_info(site)),
        inlined,
    })
}

/// Code at a line inside a call, seen from outside it: the call with the line, and where the call
/// stands. None: a text isn't in the format, or there is no such file.
fn seen_outside<'a>(
    context: &GsymContext<'a>,
    call: &InlineFrame,
    inner: SourceLine<'a>,
) -> Option<(InlinedFn<'a>, SourceLine<'a>)>
    ensures seen { (calls : List Call) →
        option_map (λ seen. (line_seen seen.1, call_of seen.0 ∷ calls)) result ≡ seen_outside context.now (frame_seen call.now) (line_seen inner.entry, calls) }
    ensures lent { IfSome result (λ seen. IsLentCall seen.0) }
{
    let name = context.get_str(call.name as usize)?;
    let outer = site_in(context, call.call_file, call.call_line)?;
    let call = InlinedFn {
        name: CowStr::Borrowed(name),
        code_info: Some(code_info(inner)),
    };
    Some((call, outer))
}

/// A line of the source file of an index. None: there is no such file, or a text of it isn't in the
/// format.
fn site_in<'a>(context: &GsymContext<'a>, file: u32, line: u32) -> Option<SourceLine<'a>>
    ensures { option_map line_seen result ≡ site_in context.now file line }
{
    let file = context.file_info(file as usize)?;
    let dir = context.get_str(file.directory as usize)?;
    let name = context.get_str(file.filename as usize)?;
    Some(SourceLine {
        dir,
        file: name,
        line,
    })
}

/// A line of a source file as a site.
#[inline(always)]
fn code_info(at: SourceLine<'_>) -> CodeInfo<'_>
    ensures place { site_of result ≡ line_seen at.entry }
    ensures lent { IsLentSite result }
{
    CodeInfo {
        dir: Some(CowStr::Borrowed(at.dir)),
        file: CowStr::Borrowed(at.file),
        line: Some(at.line),
        column: None,
    }
}
