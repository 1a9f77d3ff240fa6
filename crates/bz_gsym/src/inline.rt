//! The walk over an inline tree.

ghost use Rattle.std.specs.Prelude.{◌≡◌, ◌<◌, ◌++◌, ◌∷◌, [], Some, None, if◌then◌else◌, length, reverse, option_map, IfSome, IfNone, IfOk, IfErr, OnOk, IsOkUnless};
ghost use Rattle.bz_base.specs.declared.error.Error.{Error};
ghost use Rattle.bz_gsym.specs.InlineRanges.{read_at};
ghost use Rattle.bz_gsym.specs.InlineReader.{frames_at};
ghost use Rattle.bz_gsym.specs.InlineSeen.{visit_seen};
ghost use Rattle.bz_gsym.specs.InlineTree.{frame_by, with_frame};
ghost use Rattle.bz_gsym.specs.InlineWalk.{after_front, open_frames, entered, passed_at, visit_at};
ghost use Rattle.bz_gsym.specs.Refusal.{Refuses};
ghost use Rattle.bz_gsym.specs.Seen.{frame_seen, frames_seen};
ghost use Rattle.bz_gsym.specs.declared.inline.node.Level.TheVariants.{PassedOver, Read};

mod node;
mod reader;

use crate::format::NO_RANGES;
use crate::types::InlineFrame;
use bz_base::{Addr, Cursor, Error, Result};
use node::{Level, Span, Tail, Visit};
use reader::{read_ranges, skip_ranges, tail};
use std::alloc::Global;

/// The reader of inline trees.
pub struct InlineInfo;

impl InlineInfo {
    /// The frames at `lookup_addr` of the tree that the bytes of a data entry begin with, outermost
    /// first. A node has a frame if it and all nodes around it have the address inside, unless its name
    /// is 0. The root's offsets count from `base_addr`, the symbol's address.
    /// InvalidData: the tree isn't whole, or a node that is read has a range past 64 bits or a call
    /// file past 32 bits. The root is read, and so are the children of each node that is read and has
    /// the address inside.
    #[inline(never)]
    pub fn parse_inline_stack(
        alloc: Global,
        bytes: &[u8],
        base_addr: Addr,
        lookup_addr: Addr,
    ) -> Result<Vec<InlineFrame>>
        ensures ok { IfOk result (λ frames. frames_at lookup_addr base_addr bytes.now ≡ Some (frames_seen frames.items)) }
        ensures refusal { IfErr result (Refuses (frames_at lookup_addr base_addr bytes.now)) }
    {
        let mut cursor = Cursor::new(bytes);
        let Some(root) = visit(&mut cursor, Level::Read(base_addr), lookup_addr) else {
            return Err(Error::InvalidData);
        };
        let mut frames = Vec::new(alloc);
        let Some(found) = root else {
            return Ok(frames);
        };
        keep_frame(&mut frames, found.frame)?;
        let Some(children) = found.inside else {
            return Ok(frames);
        };
        keep_inside(alloc, &mut cursor, &mut frames, children, lookup_addr)?;
        Ok(frames)
    }
}

/// Keeps the frames at an address of the siblings in front and of all below them. `siblings` tells how
/// the former are taken. InvalidData: they aren't whole, or a node that is read isn't sound.
#[inline(always)]
fn keep_inside(
    alloc: Global,
    cursor: &mut Cursor<'_>,
    frames: &mut Vec<InlineFrame>,
    siblings: Level,
    addr: Addr,
) -> Result<()>
    ensures ok { OnOk result (after_front (frames_seen frames.old.items) (open_frames addr (siblings ∷ []) cursor.old.left) ≡ Some (frames_seen frames.new.items)) }
    ensures refusal { IfErr result (Refuses (after_front (frames_seen frames.old.items) (open_frames addr (siblings ∷ []) cursor.old.left))) }
{
    let mut level = siblings;
    let mut outer = Vec::new(alloc);
    loop {
        let Some(next) = visit(cursor, level, addr) else {
            return Err(Error::InvalidData);
        };
        if let Some(found) = next {
            level = keep(frames, &mut outer, level, found)?;
        } else {
            let Some(around) = outer.pop() else {
                return Ok(());
            };
            level = around;
        }
    }
}

/// Keeps what a node among these siblings gave. The answer tells how the next nodes are taken: its
/// children, if it has some, or else its further siblings.
#[inline(always)]
fn keep(
    frames: &mut Vec<InlineFrame>,
    outer: &mut Vec<Level>,
    siblings: Level,
    found: Visit,
) -> Result<Level>
    ensures frames { OnOk result (frames_seen frames.new.items ≡ frames_seen frames.old.items ++ with_frame (option_map frame_seen found.frame) []) }
    ensures outer { IfOk result (λ next. next ∷ reverse outer.new.items ≡ entered found.inside (siblings ∷ reverse outer.old.items)) }
    ensures memory { IsOkUnless result Error.OutOfMemory }
{
    keep_frame(frames, found.frame)?;
    let Some(children) = found.inside else {
        return Ok(siblings);
    };
    outer.push(siblings)?;
    Ok(children)
}

/// Keeps a node's frame, if it has one.
#[inline(always)]
fn keep_frame(frames: &mut Vec<InlineFrame>, frame: Option<InlineFrame>) -> Result<()>
    ensures frames { OnOk result (frames_seen frames.new.items ≡ frames_seen frames.old.items ++ with_frame (option_map frame_seen frame) []) }
    ensures memory { IsOkUnless result Error.OutOfMemory }
{
    if let Some(frame) = frame {
        frames.push(frame)?;
    }
    Ok(())
}

/// What the next node gives, None inside at the end of siblings. None: it isn't whole, or is refused.
#[inline(always)]
fn visit(cursor: &mut Cursor<'_>, level: Level, addr: u64) -> Option<Option<Visit>>
    ensures some { IfSome result (λ found. visit_at addr level cursor.old.left ≡ Some (option_map visit_seen found, cursor.new.left)) }
    ensures none { IfNone result (visit_at addr level cursor.old.left ≡ None) }
{
    let count = cursor.read_uleb()?;
    if count == NO_RANGES {
        return Some(None);
    }
    match level {
        Level::PassedOver => Some(Some(pass_over(cursor, count)?)),
        Level::Read(base) => Some(Some(read_node(cursor, count, base, addr)?)),
    }
}

/// What a node that is passed over gives.
#[tactic(auto, unfolding(crate::specs::InlineWalk::passed_at, crate::specs::InlineReader::filled_at))]
#[inline(always)]
fn pass_over(cursor: &mut Cursor<'_>, count: u64) -> Option<Visit>
    ensures some { IfSome result (λ found. passed_at count cursor.old.left ≡ Some (visit_seen found, cursor.new.left)) }
    ensures none { IfNone result (passed_at count cursor.old.left ≡ None) }
{
    skip_ranges(cursor, count)?;
    let tail = tail(cursor)?;
    Some(Visit {
        frame: None,
        inside: tail.has_children.then_some(Level::PassedOver),
    })
}

/// What a node that is read gives.
#[tactic(auto, unfolding(crate::specs::InlineRanges::read_at))]
#[inline(always)]
fn read_node(cursor: &mut Cursor<'_>, count: u64, base: u64, addr: u64) -> Option<Visit>
    ensures some { IfSome result (λ found. read_at addr base count cursor.old.left ≡ Some (visit_seen found, cursor.new.left)) }
    ensures none { IfNone result (read_at addr base count cursor.old.left ≡ None) }
{
    let span = read_ranges(cursor, count, base, addr)?;
    let tail = tail(cursor)?;
    if tail.call_file > u32::MAX as u64 {
        return None;
    }
    Some(Visit {
        frame: frame(&tail, span.covers),
        inside: inside(&tail, &span),
    })
}

/// A node's frame, where it matches and has a name.
#[tactic(auto, unfolding(crate::specs::InlineTree::frame_by))]
#[inline(always)]
fn frame(tail: &Tail, matches: bool) -> Option<InlineFrame>
    requires { tail.now.call_file < 4294967296 }
    ensures { option_map frame_seen result ≡ (if matches then frame_by tail.now.name tail.now.call_file tail.now.call_line else None) }
{
    if !matches || tail.name == 0 {
        return None;
    }
    Some(InlineFrame {
        name: tail.name,
        call_file: tail.call_file as u32,
        call_line: tail.call_line.min(u32::MAX as u64) as u32,
    })
}

/// How the children of a node are taken, if it has some.
#[inline(always)]
fn inside(tail: &Tail, span: &Span) -> Option<Level>
    ensures { result ≡ (if tail.now.has_children then Some (if span.now.covers then Read span.now.start else PassedOver) else None) }
{
    if !tail.has_children {
        return None;
    }
    if span.covers {
        Some(Level::Read(span.start))
    } else {
        Some(Level::PassedOver)
    }
}
