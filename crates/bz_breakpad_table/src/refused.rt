//! Where bytes are refused.

ghost use Rattle.std.specs.Prelude.{◌≡◌, ◌↔◌, ◌<◌, Option, length, is_some, IfOk};
ghost use Rattle.bz_base.specs.Line.{all_lines, ended_lines};
ghost use Rattle.bz_breakpad_table.specs.Admitted.{at_front, refused_from};
ghost use Rattle.bz_breakpad_table.specs.Refusals.{IsRefusal, refusal_in};
ghost use Rattle.bz_breakpad_table.specs.declared.refused.Refused.{Refused};

use crate::before::Before;
use crate::laws;
use bz_base::first_line;
use std::alloc::{AllocError, Global};

/// Why and where bytes are refused as a Breakpad file.
#[derive(Clone, Copy, Debug, PartialEq, Eq)]
pub enum Refused {
    /// The number, from 1, of the first line that isn't admitted after those before it.
    Line(u64),
    /// Every line is admitted, but the last one has no end.
    NoEnd,
    /// There is no line at all.
    Empty,
}

/// Where the bytes are refused as a Breakpad file; none where they are one. The ranges of INLINE
/// records need memory.
pub fn first_refused(alloc: Global, bytes: &[u8]) -> Result<Option<Refused>, AllocError>
    ensures { IfOk result (λ found. (why : Option Refused) → (found ≡ why) ↔ IsRefusal bytes.now why) }
{
    laws::refusals_are_found();
    found(alloc, bytes)
}

/// The same, found line by line.
#[tactic(auto, unfolding(crate::specs::Refusals::refusal_in))]
fn found(alloc: Global, bytes: &[u8]) -> Result<Option<Refused>, AllocError>
    ensures { IfOk result (λ found. found ≡ refusal_in bytes.now) }
{
    if bytes.is_empty() {
        return Ok(Some(Refused::Empty));
    }
    match line_refused(alloc, bytes)? {
        Some(number) => Ok(Some(Refused::Line(number))),
        None if has_end(bytes) => Ok(None),
        None => Ok(Some(Refused::NoEnd)),
    }
}

/// The number of the first line that isn't admitted.
fn line_refused(alloc: Global, bytes: &[u8]) -> Result<Option<u64>, AllocError>
    ensures { IfOk result (λ number. number ≡ refused_from at_front 1 (all_lines bytes.now)) }
{
    let mut ranges = Vec::new(alloc);
    let mut before = Before::at_front();
    let mut rest = bytes;
    let mut number = 0;
    while let Some((line, after)) = first_line(rest) {
        number += 1;
        let Some(told) = before.after_line(&mut ranges, line)? else {
            return Ok(Some(number));
        };
        before = told;
        rest = after;
    }
    Ok(None)
}

/// Whether the last line has its end.
fn has_end(bytes: &[u8]) -> bool
    requires { 0 < length bytes.now }
    ensures { result ≡ is_some (ended_lines bytes.now) }
{
    bytes[bytes.len() - 1] == b'\n'
}
