//! Reads a Breakpad text, line by line.

ghost use Rattle.std.specs.Prelude.{IfOk, IfErr};
ghost use Rattle.bz_breakpad_lines.specs.Reader.{reading_in};
ghost use Rattle.bz_breakpad_table.specs.Refusal.{Refuses};
ghost use Rattle.bz_breakpad_table.specs.Walked.{HasRead};

use crate::walk::Walk;
use bz_base::{Error, Result};
use std::alloc::Global;

/// Reads a Breakpad text. InvalidInput: it is no Breakpad file.
/// OutOfMemory: memory ran out, or the text has 4 GiB or more.
pub fn read(alloc: Global, text: &[u8]) -> Result<Walk>
    ensures ok { IfOk result (HasRead text.now) }
    ensures refusal { IfErr result (Refuses (reading_in text.now)) }
{
    if text.is_empty() {
        return Err(Error::InvalidInput);
    }
    // Places in the text are kept in four bytes.
    if text.len() > u32::MAX as usize {
        return Err(Error::OutOfMemory);
    }
    let mut walk = Walk::new(alloc);
    let mut rest = text;
    while !rest.is_empty() {
        rest = walk.next(text, rest)?;
    }
    Ok(walk)
}
