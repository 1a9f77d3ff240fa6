//! The load segments of an ELF file.

ghost use Rattle.std.specs.Prelude.{◌≡◌, ◌+◌, ◌*◌, ◌<◌, ◌≤◌, length, option_map, IfOk, IsOkUnless};
ghost use Rattle.bz_base.specs.declared.error.Error.{Error};
ghost use Rattle.bz_elf.specs.Head.{program_count, program_place};
ghost use Rattle.bz_elf.specs.Kept.{TablesLie};
ghost use Rattle.bz_elf.specs.Segments.{loaded_at, program_header_len, segments};

use super::head::{program_count, program_place};
use super::layout::{P_FILESZ, P_OFFSET, P_VADDR, PROGRAM_HEADER_LEN, PT_LOAD};
use crate::types::Segment;
use bz_base::{Result, u32_at, u64_at};
use std::alloc::Global;

/// The load segments, in the order of the file.
#[tactic(auto, using(crate::proofs::SymbolLemmas::all_segments))]
pub(crate) fn segments(alloc: Global, bytes: &[u8]) -> Result<Vec<Segment>>
    requires { TablesLie bytes.now }
    ensures ok { IfOk result (λ found. found.items ≡ segments bytes.now) }
    ensures memory { IsOkUnless result Error.OutOfMemory }
{
    let mut found = Vec::new(alloc);
    for index in 0..program_count(bytes) {
        let Some(segment) = loaded_of(bytes, index) else {
            continue;
        };
        found.push(segment)?;
    }
    Ok(found)
}

/// The segment of an index, if it is loaded.
fn loaded_of(bytes: &[u8], index: u16) -> Option<Segment>
    requires tables { TablesLie bytes.now }
    requires within { index < program_count bytes.now }
    ensures { result ≡ loaded_at bytes.now (program_place bytes.now + index * program_header_len) }
{
    loaded_at(
        bytes,
        program_place(bytes) as usize + usize::from(index) * PROGRAM_HEADER_LEN,
    )
}

/// The segment of the program header at a place, if it is loaded.
fn loaded_at(bytes: &[u8], place: usize) -> Option<Segment>
    requires { place + program_header_len ≤ length bytes.now }
    ensures { result ≡ loaded_at bytes.now place }
{
    if u32_at(bytes, place) != PT_LOAD {
        return None;
    }
    Some(Segment {
        offset: u64_at(bytes, place + P_OFFSET),
        addr: u64_at(bytes, place + P_VADDR),
        size: u64_at(bytes, place + P_FILESZ),
    })
}
