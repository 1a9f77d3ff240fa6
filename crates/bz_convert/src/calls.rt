//! Whether inlined calls are nested and apart.

ghost use Rattle.std.specs.Prelude.{◌≡◌, ◌+◌, map, option_map, IfOk};
ghost use Rattle.std.specs.List.{find};
ghost use Rattle.bz_breakpad.specs.Lent.{inlinee_seen};
ghost use Rattle.bz_breakpad_function.specs.InOrder.{calls_in_order};
ghost use Rattle.bz_convert.specs.Fault.{is_over, lies_inside, not_nested, overlap, ◌or◌};
ghost use Rattle.bz_convert.specs.Reach.{AreByDepth, AreReaches, reach_after};

use crate::error::ConvertError;
use bz_base::{Nested, Spanned, inner_in, inside};
use bz_breakpad::{Function, Inlinee};
use std::alloc::{AllocError, Global};

/// How far an inlined call and those of its depth in front of it reach.
#[derive(Clone, Copy)]
pub(crate) struct Reach {
    pub depth: u32,
    /// Where the call starts.
    pub start: u64,
    /// The greatest of their ends.
    pub end: u128,
}

impl Spanned for Reach {
    ghost start = { λ r. r.start };

    ghost size = { λ _. 0 };

    fn start(&self) -> u64 {
        self.start
    }

    fn size(&self) -> u64 {
        0
    }
}

impl Nested for Reach {
    ghost depth = { λ r. r.depth };

    fn depth(&self) -> u32 {
        self.depth
    }
}

/// The first fault of a function's inlined calls, which stand by depth and start: one that isn't
/// nested, or else one that overlaps.
pub(crate) fn calls_fault(
    alloc: Global,
    function: &Function<'_>,
    calls: &[Inlinee],
) -> Result<Option<ConvertError>, AllocError>
    requires { map inlinee_seen calls.now ≡ calls_in_order function.now }
    ensures { IfOk result (λ fault. fault ≡ (not_nested function.now or overlap function.now)) }
{
    let reaches = reaches_of(alloc, calls)?;
    if let Some(fault) = not_nested(function, &reaches, calls) {
        return Ok(Some(fault));
    }
    Ok(overlap(function, calls))
}

/// Where a call's code ends.
fn end_of(call: &Inlinee) -> u128
    ensures { result ≡ call.now.addr + call.now.size }
{
    u128::from(call.addr) + u128::from(call.size)
}

/// How far a call reaches with those in front of it, by the one before it.
fn reach_after(last: Option<Reach>, call: &Inlinee) -> Reach
    ensures { result ≡ reach_after last (inlinee_seen call.now) }
{
    let mut end = end_of(call);
    if let Some(last) = last {
        if last.depth == call.depth && last.end > end {
            end = last.end;
        }
    }
    Reach {
        depth: call.depth,
        start: call.addr,
        end,
    }
}

/// How far calls reach that stand by depth and start.
fn reaches_of(alloc: Global, calls: &[Inlinee]) -> Result<Vec<Reach>, AllocError>
    requires { AreByDepth (map inlinee_seen calls.now) }
    ensures { IfOk result (λ reaches. AreReaches (map inlinee_seen calls.now) reaches.items) }
{
    let mut reaches = Vec::with_capacity(alloc, calls.len())?;
    let mut last = None;
    for call in calls {
        let reach = reach_after(last, call);
        reaches.push(reach)?;
        last = Some(reach);
    }
    Ok(reaches)
}

/// Whether a call lies inside its function, or inside a call of the depth before its own.
fn lies_inside(function: &Function<'_>, reaches: &[Reach], call: &Inlinee) -> bool
    requires { AreReaches (calls_in_order function.now) reaches.now }
    ensures { result ≡ lies_inside function.now (inlinee_seen call.now) }
{
    if call.depth == 0 {
        let end = u128::from(function.addr()) + u128::from(function.size());
        return function.addr() <= call.addr && end_of(call) <= end;
    }
    match inner_in(reaches, call.depth - 1, call.addr) {
        Some(outer) => end_of(call) <= outer.end,
        None => false,
    }
}

/// The fault of the first call that isn't nested.
fn not_nested(function: &Function<'_>, reaches: &[Reach], calls: &[Inlinee]) -> Option<ConvertError>
    requires reaches { AreReaches (calls_in_order function.now) reaches.now }
    requires calls { map inlinee_seen calls.now ≡ calls_in_order function.now }
    ensures { result ≡ not_nested function.now }
{
    for call in calls {
        if call.size > 0 && !lies_inside(function, reaches, call) {
            return Some(ConvertError::NotNested {
                func: function.addr(),
                depth: call.depth,
                addr: call.addr,
            });
        }
    }
    None
}

/// The fault of the first call that starts where another of its depth does, or inside one.
fn overlap(function: &Function<'_>, calls: &[Inlinee]) -> Option<ConvertError>
    requires { map inlinee_seen calls.now ≡ calls_in_order function.now }
    ensures { result ≡ overlap function.now }
{
    for index in 1..calls.len() {
        let call = &calls[index];
        if is_over(call, &calls[index - 1]) {
            return Some(ConvertError::Overlap {
                func: function.addr(),
                depth: call.depth,
                addr: call.addr,
            });
        }
    }
    None
}

/// Whether another call, of the same depth, starts where a call does, or has that start inside.
fn is_over(call: &Inlinee, other: &Inlinee) -> bool
    ensures { result ≡ is_over (inlinee_seen call.now) (inlinee_seen other.now) }
{
    other.depth == call.depth
        && *other != *call
        && (other.addr == call.addr || inside(other.addr, u64::from(other.size), call.addr))
}
