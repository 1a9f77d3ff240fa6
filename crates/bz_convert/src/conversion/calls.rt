//! The inlined calls of a function, as a plan has them. One is an `Inlinee` of the file, a `PlacedCall`
//! while calls are sorted, and a `Node` of the plan.

ghost use Rattle.std.specs.Prelude.{◌≡◌, true, flat_map, map, option_map, None, Some, IfOk, OnOk};
ghost use Rattle.std.specs.List.{AllZip, filter};
ghost use Rattle.bz_breakpad.specs.Lent.{inlinee_seen};
ghost use Rattle.bz_breakpad_function.specs.InOrder.{calls_in_order};
ghost use Rattle.bz_breakpad_lines.specs.Reader.{table_in};
ghost use Rattle.bz_breakpad_lines.specs.Table.{Function, Table};
ghost use Rattle.bz_convert.specs.Laid.{AreApart, IsNodeFor, sources_of_call, texts_of_call};
ghost use Rattle.bz_convert.specs.Numbered.{IsNumbered, Uses, listed_sources};
ghost use Rattle.bz_gsym_layout.specs.Listing.{listed_texts};
ghost use Rattle.bz_convert.specs.Plan.{has_size, is_checked, laid_calls, sized_calls};
ghost use Rattle.bz_convert.specs.RowsAndCalls.{AreRowsAndCalls};
ghost use Rattle.bz_convert.specs.Sized.{is_repeated, placed_inlinees, without_repeats};

use crate::conversion::numbering::Numbering;
use crate::fault::RowsAndCalls;
use bz_base::{Spanned, sort_table};
use bz_breakpad::{Inlinee, SymbolFile};
use bz_gsym_layout::Node;
use std::alloc::{AllocError, Global};

/// An inlined call that is sorted for a plan, by start and depth. A file's come by depth and start.
/// `sort_table` goes by start and size, so the depth stands for the size here.
#[derive(Clone, Copy)]
pub(crate) struct PlacedCall {
    pub call: Inlinee,
}

impl Spanned for PlacedCall {
    ghost start = { λ p. p.call.addr };

    ghost size = { λ p. p.call.depth };

    fn start(&self) -> u64 {
        self.call.addr
    }

    fn size(&self) -> u64 {
        u64::from(self.call.depth)
    }
}

/// The inlined calls that are laid out for a function which has these rows and calls.
pub(crate) fn calls_of(alloc: Global, found: &RowsAndCalls) -> Result<Vec<Inlinee>, AllocError>
    ensures { IfOk result (λ calls. (f : Function) → (is_checked f ≡ true → AreApart f) → AreRowsAndCalls f found.now → map inlinee_seen calls.items ≡ laid_calls f) }
{
    if found.rows.is_empty() {
        return Ok(Vec::new(alloc));
    }
    sized_calls(alloc, &found.calls)
}

/// The inlined calls that have a size, each once, by start and depth.
fn sized_calls(alloc: Global, calls: &[Inlinee]) -> Result<Vec<Inlinee>, AllocError>
    ensures { IfOk result (λ sized. (f : Function) → AreApart f → map inlinee_seen calls.now ≡ calls_in_order f → map inlinee_seen sized.items ≡ sized_calls f) }
{
    let mut placed = placed_calls(alloc, calls)?;
    sort_table(&mut placed)?;
    without_repeats(alloc, &placed)
}

/// The calls that have a size.
fn placed_calls(alloc: Global, calls: &[Inlinee]) -> Result<Vec<PlacedCall>, AllocError>
    ensures { IfOk result (λ placed. placed_inlinees placed.items ≡ filter has_size (map inlinee_seen calls.now)) }
{
    let mut placed = Vec::with_capacity(alloc, calls.len())?;
    for call in calls {
        if call.size > 0 {
            placed.push(PlacedCall { call: *call })?;
        }
    }
    Ok(placed)
}

/// The calls without those that say the same as the one before.
fn without_repeats(alloc: Global, placed: &[PlacedCall]) -> Result<Vec<Inlinee>, AllocError>
    ensures { IfOk result (λ calls. map inlinee_seen calls.items ≡ without_repeats None (placed_inlinees placed.now)) }
{
    let mut calls = Vec::with_capacity(alloc, placed.len())?;
    let mut before = None;
    for place in placed {
        if !is_repeated(before, &place.call) {
            calls.push(place.call)?;
        }
        before = Some(place.call);
    }
    Ok(calls)
}

/// Whether a call says the same as the one before it.
fn is_repeated(before: Option<Inlinee>, call: &Inlinee) -> bool
    ensures { result ≡ is_repeated (option_map inlinee_seen before) (inlinee_seen call.now) }
{
    match before {
        Some(before) => before == *call,
        None => false,
    }
}

/// The node of an inlined call.
fn node_of<'a>(
    numbering: &mut Numbering<'a>,
    file: &'a SymbolFile,
    call: &Inlinee,
) -> Result<Node, AllocError>
    ensures numbering { OnOk result ((table : Table) → table_in file.now ≡ Some table →
        Uses table (texts_of_call table (inlinee_seen call.now)) (sources_of_call table (inlinee_seen call.now)) numbering.old numbering.new) }
    ensures node { IfOk result (λ node. (table : Table) → table_in file.now ≡ Some table → IsNumbered table numbering.old →
        IsNodeFor table (listed_texts numbering.new.texts) (listed_sources numbering.new) (inlinee_seen call.now) node) }
{
    let name = numbering.origin_text(file, call.origin_id)?;
    let source = numbering.file_source(file, call.call_file)?;
    Ok(Node {
        depth: call.depth,
        start: call.addr,
        size: call.size,
        name,
        source,
        line: call.call_line,
    })
}

/// The nodes of inlined calls.
pub(crate) fn nodes_of<'a>(
    alloc: Global,
    numbering: &mut Numbering<'a>,
    file: &'a SymbolFile,
    calls: &[Inlinee],
) -> Result<Vec<Node>, AllocError>
    ensures numbering { OnOk result ((table : Table) → table_in file.now ≡ Some table →
        Uses table (flat_map (texts_of_call table) (map inlinee_seen calls.now)) (flat_map (sources_of_call table) (map inlinee_seen calls.now)) numbering.old numbering.new) }
    ensures nodes { IfOk result (λ nodes. (table : Table) → table_in file.now ≡ Some table → IsNumbered table numbering.old →
        AllZip (IsNodeFor table (listed_texts numbering.new.texts) (listed_sources numbering.new)) (map inlinee_seen calls.now) nodes.items) }
{
    let mut nodes = Vec::with_capacity(alloc, calls.len())?;
    for call in calls {
        nodes.push(node_of(numbering, file, call)?)?;
    }
    Ok(nodes)
}
