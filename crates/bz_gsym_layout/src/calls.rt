//! The lists of inlined calls of an inline tree.

ghost use Rattle.std.specs.Prelude.{◌≡◌, ◌≤◌, ◌<◌, ◌+◌, ◌++◌, ◌∷◌, ℕ, suc, true, false, List, Some, length, reverse, drop, slice_get, if◌then◌else◌, IfOk, IsOkUnless, OnOk};
ghost use Rattle.bz_gsym.specs.InlineTree.{no_children};
ghost use Rattle.bz_gsym_layout.specs.Format.{some_children};
ghost use Rattle.bz_gsym_layout.specs.InOrder.{AreInOrder, depth_of};
ghost use Rattle.bz_gsym_layout.specs.Layout.{Tables, calls_bytes, numbers_bytes, zeros};
ghost use Rattle.bz_gsym_layout.specs.Nesting.{map_forest, nested};
ghost use Rattle.bz_gsym_layout.specs.Pass.{AreAtMost, AreNodesOf, AreWithin, GoesInside, left_bytes, place_at};
ghost use Rattle.bz_gsym_layout.specs.Plan.{Called};
ghost use Rattle.bz_gsym_layout.specs.declared.error.LayoutError.{LayoutError};
ghost use Rattle.bz_gsym_layout.specs.declared.plan.Node.{Node};

use crate::error::Result;
use crate::format::{ONE_RANGE, SOME_CHILDREN};
use crate::leb::push_unsigned;
use crate::plan::Node;
use crate::words::{push_low_word, push_zeros};
use bz_gsym::format::{NO_CHILDREN, NO_RANGES};
use std::alloc::Global;

/// The numbers of a node.
#[derive(Clone, Copy)]
pub(crate) struct NodeNumbers {
    /// How far behind a base its code begins.
    pub offset: u64,
    /// How many bytes its code has.
    pub size: u64,
    /// The place of its name in the string table.
    pub name: u64,
    /// The index of the file that it is called in.
    pub file: u64,
    /// The line that it is called at.
    pub line: u32,
}

/// Writes a node up to its children.
pub(crate) fn push_numbers(out: &mut Vec<u8>, node: NodeNumbers, has_children: bool) -> Result<()>
    ensures ok { OnOk result (out.new.items ≡ out.old.items ++ numbers_bytes node.offset node.size node.name (if has_children then some_children else no_children) node.file node.line) }
    ensures memory { IsOkUnless result LayoutError.OutOfMemory }
{
    out.push(ONE_RANGE)?;
    push_unsigned(out, node.offset)?;
    push_unsigned(out, node.size)?;
    out.push(if has_children {
        SOME_CHILDREN
    } else {
        NO_CHILDREN
    })?;
    push_low_word(out, node.name)?;
    push_unsigned(out, node.file)?;
    push_unsigned(out, u64::from(node.line))?;
    Ok(())
}

/// Ends the innermost lists until so many are open outside the one that is then the innermost. The
/// answer is its base.
fn end_lists(out: &mut Vec<u8>, outer: &mut Vec<u64>, innermost: u64, depth: usize) -> Result<u64>
    requires { depth ≤ length outer.old.items }
    ensures count { OnOk result (length outer.new.items ≡ depth) }
    ensures low { IfOk result (λ base. (limit : ℕ) → innermost ≤ limit → AreAtMost limit outer.old.items → (base ≤ limit) × AreAtMost limit outer.new.items) }
    ensures left { IfOk result (λ base. (t : Tables) (view : Node → Called) (x : Node) (xs : List Node) → x.depth ≡ depth →
        out.new.items ++ left_bytes t view depth_of (base ∷ reverse outer.new.items) (x ∷ xs) ≡ out.old.items ++ left_bytes t view depth_of (innermost ∷ reverse outer.old.items) (x ∷ xs)) }
    ensures memory { IsOkUnless result LayoutError.OutOfMemory }
{
    let mut base = innermost;
    while outer.len() > depth {
        out.push(NO_RANGES as u8)?;
        let last = outer.len() - 1;
        base = outer[last];
        outer.truncate(last);
    }
    Ok(base)
}

/// Ends the innermost list and so many outside it.
fn end_all(out: &mut Vec<u8>, outer: usize) -> Result<()>
    ensures ok { OnOk result (out.new.items ≡ out.old.items ++ zeros (suc outer)) }
    ensures memory { IsOkUnless result LayoutError.OutOfMemory }
{
    out.push(NO_RANGES as u8)?;
    push_zeros(out, outer)
}

/// Whether the call behind the one at an index lies inside it.
fn next_is_inside(nodes: &[Node], index: usize) -> bool
    requires { index < length nodes.now }
    ensures inside { result ≡ true → (x : Node) → slice_get nodes.now index ≡ Some x → (y : Node) × (slice_get nodes.now (index + 1) ≡ Some y) × (x.depth < y.depth) }
    ensures outside { result ≡ false → (x y : Node) → slice_get nodes.now index ≡ Some x → slice_get nodes.now (index + 1) ≡ Some y → y.depth ≤ x.depth }
{
    index + 1 < nodes.len() && nodes[index + 1].depth > nodes[index].depth
}

/// Writes a call whose name lies at a place, after the lists that end before it; one with calls inside
/// opens their list. The answer is the base of the list that is then the innermost.
fn push_call(
    out: &mut Vec<u8>,
    outer: &mut Vec<u64>,
    innermost: u64,
    node: &Node,
    name: u64,
    inside: bool,
) -> Result<u64>
    requires deep { node.now.depth ≤ length outer.old.items }
    requires low { innermost ≤ node.now.start }
    requires lower { AreAtMost node.now.start outer.old.items }
    ensures count { OnOk result (length outer.new.items ≡ node.now.depth + (if inside then 1 else 0)) }
    ensures low { IfOk result (λ base. (base ≤ node.now.start) × AreAtMost node.now.start outer.new.items) }
    ensures left { IfOk result (λ base. (t : Tables) (places : List ℕ) (view : Node → Called) (nodes : List Node) (index : ℕ) (whole : List ℕ) →
        AreNodesOf t places view nodes → slice_get nodes index ≡ Some node.now → name ≡ place_at places node.now.name → GoesInside inside nodes index node.now →
        out.old.items ++ left_bytes t view depth_of (innermost ∷ reverse outer.old.items) (drop index nodes) ≡ whole →
        out.new.items ++ left_bytes t view depth_of (base ∷ reverse outer.new.items) (drop (index + 1) nodes) ≡ whole) }
    ensures memory { IsOkUnless result LayoutError.OutOfMemory }
{
    let base = end_lists(out, outer, innermost, node.depth as usize)?;
    let numbers = NodeNumbers {
        offset: node.start - base,
        size: node.size as u64,
        name,
        file: node.source as u64 + 1,
        line: node.line,
    };
    push_numbers(out, numbers, inside)?;
    if inside {
        outer.push(base)?;
        return Ok(node.start);
    }
    Ok(base)
}

/// Writes the lists of the calls inside a function that starts there, whose calls are these; texts have
/// these places in the string table.
pub(crate) fn push_calls(
    alloc: Global,
    out: &mut Vec<u8>,
    start: u64,
    nodes: &[Node],
    places: &[u64],
) -> Result<()>
    requires order { AreInOrder start nodes.now }
    requires within { (sources : ℕ) × AreWithin (length places.now) sources nodes.now }
    ensures ok { OnOk result ((t : Tables) (view : Node → Called) → AreNodesOf t places.now view nodes.now →
        out.new.items ≡ out.old.items ++ calls_bytes t start (map_forest view (nested depth_of 0 nodes.now))) }
    ensures memory { IsOkUnless result LayoutError.OutOfMemory }
{
    let mut outer: Vec<u64> = Vec::new(alloc);
    let mut base = start;
    for index in 0..nodes.len() {
        let inside = next_is_inside(nodes, index);
        let name = places[nodes[index].name as usize];
        base = push_call(out, &mut outer, base, &nodes[index], name, inside)?;
    }
    end_all(out, outer.len())
}
