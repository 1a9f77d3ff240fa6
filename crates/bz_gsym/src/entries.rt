//! What a symbol's data entries say of an address.

ghost use Rattle.std.specs.Prelude.{◌≡◌, Some, IfOk, IfErr, IsTrue, OnOk};
ghost use Rattle.bz_base.specs.Refusals.{WantsMemory};
ghost use Rattle.bz_base.specs.declared.types.FindSymOpts.{FindSymOpts};
ghost use Rattle.bz_gsym.specs.Entries.{entries_in};
ghost use Rattle.bz_gsym.specs.Joining.{gives_frames, gives_row, facts_of, facts_with};
ghost use Rattle.bz_gsym.specs.JoiningSeen.{HasAskedFrames, facts_seen};
ghost use Rattle.bz_gsym.specs.Refusal.{Refuses};
ghost use Rattle.bz_gsym.specs.Seen.{entry_seen};

use crate::format::{INFO_TYPE_INLINE_INFO, INFO_TYPE_LINE_TABLE_INFO};
use crate::inline::InlineInfo;
use crate::linetab::{LineTableRow, line_in};
use crate::parser::parse_address_data;
use crate::types::{AddrData, InlineFrame};
use bz_base::{Addr, Error, FindSymOpts, Result};
use std::alloc::Global;

/// What a symbol's data entries say of an address.
#[derive(Drop)]
pub(crate) struct Facts {
    /// The state of a line table that answers for it.
    pub row: Option<LineTableRow>,
    /// The functions around it, the outermost first.
    pub frames: Vec<InlineFrame>,
}

/// What the entries of a symbol that begins at `start` say of an address, as far as it is asked for.
/// InvalidData: an entry that is read isn't in the format.
pub(crate) fn facts_of(
    alloc: Global,
    opts: &FindSymOpts,
    start: Addr,
    addr: Addr,
    bytes: &[u8],
) -> Result<Facts>
    ensures ok { IfOk result (λ facts. facts_of opts.now start addr (entries_in bytes.now) ≡ Some (facts_seen facts)) }
    ensures refusal { IfErr result (Refuses (facts_of opts.now start addr (entries_in bytes.now))) }
    ensures memory { IfErr result (WantsMemory (opts.now ≡ FindSymOpts.CodeInfoAndInlined)) }
    ensures asked { IfOk result (λ facts. HasAskedFrames opts.now facts.frames.items) }
{
    let mut facts = Facts {
        row: None,
        frames: Vec::new(alloc),
    };
    if matches!(opts, FindSymOpts::Basic) {
        return Ok(facts);
    }
    for entry in parse_address_data(bytes) {
        tell(alloc, &mut facts, opts, start, addr, &entry)?;
    }
    Ok(facts)
}

/// Adds what one entry more says. An entry of another type is passed over.
fn tell(
    alloc: Global,
    facts: &mut Facts,
    opts: &FindSymOpts,
    start: Addr,
    addr: Addr,
    entry: &AddrData<'_>,
) -> Result<()>
    ensures ok { OnOk result (facts_with opts.now start addr (facts_seen facts.old) (entry_seen entry.now) ≡ Some (facts_seen facts.new)) }
    ensures refusal { IfErr result (Refuses (facts_with opts.now start addr (facts_seen facts.old) (entry_seen entry.now))) }
    ensures memory { IfErr result (WantsMemory (opts.now ≡ FindSymOpts.CodeInfoAndInlined)) }
    ensures asked { OnOk result (HasAskedFrames opts.now facts.old.frames.items → HasAskedFrames opts.now facts.new.frames.items) }
{
    if gives_row(facts, entry) {
        let Some(row) = line_in(entry.bytes, start, addr) else {
            return Err(Error::InvalidData);
        };
        facts.row = row;
    } else if gives_frames(opts, facts, entry) {
        facts.frames = InlineInfo::parse_inline_stack(alloc, entry.bytes, start, addr)?;
    }
    Ok(())
}

/// Whether an entry is read as a line table.
fn gives_row(facts: &Facts, entry: &AddrData<'_>) -> bool
    ensures { result ≡ gives_row (facts_seen facts.now) (entry_seen entry.now) }
{
    facts.row.is_none() && entry.typ == INFO_TYPE_LINE_TABLE_INFO
}

/// Whether an entry is read as an inline tree.
fn gives_frames(opts: &FindSymOpts, facts: &Facts, entry: &AddrData<'_>) -> bool
    ensures asked { IsTrue result → opts.now ≡ FindSymOpts.CodeInfoAndInlined }
    ensures gives { result ≡ gives_frames opts.now (facts_seen facts.now) (entry_seen entry.now) }
{
    matches!(opts, FindSymOpts::CodeInfoAndInlined)
        && facts.frames.is_empty()
        && entry.typ == INFO_TYPE_INLINE_INFO
}
