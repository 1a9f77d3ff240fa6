//! The parts of a node, read from the front of what is left.

ghost use Rattle.std.specs.Prelude.{◌≡◌, Some, None, IfSome, IfNone, ◌==◌, ◌||◌, ◌&&◌, nat_le, nat_lt, if◌then◌else◌};
ghost use Rattle.bz_gsym.specs.InlineRanges.{after_ranges, span_at};
ghost use Rattle.bz_gsym.specs.InlineReader.{range_at, tail_at};
ghost use Rattle.bz_gsym.specs.InlineSeen.{span_seen, tail_seen};

use super::node::{Span, Tail};
use crate::format::NO_CHILDREN;
use crate::short::read_uleb;
use bz_base::Cursor;

/// A range: its offset and its size.
#[tactic(auto, unfolding(crate::specs::InlineReader::range_at))]
#[inline(always)]
fn range(cursor: &mut Cursor<'_>) -> Option<(u64, u64)>
    ensures some { IfSome result (λ range. range_at cursor.old.left ≡ Some (range, cursor.new.left)) }
    ensures none { IfNone result (range_at cursor.old.left ≡ None) }
{
    let offset = read_uleb(cursor)?;
    let size = read_uleb(cursor)?;
    Some((offset, size))
}

/// Leaves so many ranges behind.
#[inline(always)]
pub(crate) fn skip_ranges(cursor: &mut Cursor<'_>, count: u64) -> Option<()>
    ensures some { IfSome result (λ _. after_ranges count cursor.old.left ≡ Some cursor.new.left) }
    ensures none { IfNone result (after_ranges count cursor.old.left ≡ None) }
{
    for _seen in 0..count {
        range(cursor)?;
    }
    Some(())
}

/// What so many ranges say of the address. None: one of them isn't whole, or passes 64 bits.
#[inline(always)]
pub(crate) fn read_ranges(cursor: &mut Cursor<'_>, count: u64, base: u64, addr: u64) -> Option<Span>
    ensures some { IfSome result (λ span. span_at addr base count cursor.old.left ≡ Some (span_seen span, cursor.new.left)) }
    ensures none { IfNone result (span_at addr base count cursor.old.left ≡ None) }
{
    let mut span = Span {
        covers: false,
        start: base,
    };
    for seen in 0..count {
        let (offset, size) = range(cursor)?;
        let start = base.checked_add(offset)?;
        let end = start.checked_add(size)?;
        add_range(&mut span, seen, start, end, addr);
    }
    Some(span)
}

/// Adds a range after so many others.
#[inline(always)]
fn add_range(span: &mut Span, seen: u64, start: u64, end: u64, addr: u64)
    ensures covers { span.new.covers ≡ (span.old.covers || (nat_le start addr && nat_lt addr end)) }
    ensures start { span.new.start ≡ (if seen == 0 then start else span.old.start) }
{
    if seen == 0 {
        span.start = start;
    }
    if start <= addr && addr < end {
        span.covers = true;
    }
}

/// What stands after the ranges.
#[tactic(auto, unfolding(crate::specs::InlineReader::tail_at))]
#[inline(always)]
pub(crate) fn tail(cursor: &mut Cursor<'_>) -> Option<Tail>
    ensures some { IfSome result (λ tail. tail_at cursor.old.left ≡ Some (tail_seen tail, cursor.new.left)) }
    ensures none { IfNone result (tail_at cursor.old.left ≡ None) }
{
    let flag = cursor.read_u8()?;
    let name = cursor.read_u32()?;
    let call_file = read_uleb(cursor)?;
    let call_line = read_uleb(cursor)?;
    Some(Tail {
        has_children: flag != NO_CHILDREN,
        name,
        call_file,
        call_line,
    })
}
