//! What is read of an ELF file, and how bytes are refused that aren't one.

ghost use Rattle.std.specs.Prelude.{◌≡◌, IfOk, IfErr};
ghost use Rattle.bz_cache.specs.Format.{IsRefusalBy};
ghost use Rattle.bz_elf.specs.Format.{format_test};
ghost use Rattle.bz_elf.specs.Kept.{IsKept};

mod head;
mod layout;
mod names;
mod parts;
mod sections;
mod segments;
mod symbols;

use crate::types::KeptFile;
use bz_base::{Error, Result, sort_table};
pub(crate) use names::name_of;
use std::alloc::Global;
pub(crate) use symbols::part_of;

/// Reads an ELF file, and refuses other bytes by the first check that they fail.
pub(crate) fn read(alloc: Global, bytes: &[u8]) -> Result<KeptFile>
    ensures ok { IfOk result (IsKept bytes.now) }
    ensures refusal { IfErr result (IsRefusalBy (format_test bytes.now)) }
{
    if let Some(refusal) = head::head_refusal(bytes) {
        return Err(refusal);
    }
    let Some(table) = sections::symbols_in(bytes) else {
        return Err(Error::InvalidData);
    };
    let mut symbols = symbols::counted(alloc, bytes, &table)?;
    sort_table(&mut symbols)?;
    let segments = segments::segments(alloc, bytes)?;
    Ok(KeptFile {
        strings: table.strings,
        symbols,
        segments,
    })
}
