//! The text of folded stacks.

ghost use Rattle.std.specs.Prelude.{◌≡◌, ◌++◌, IfOk, OnOk, IsOkUnless};
ghost use Rattle.std.specs.BTreeMap.{IsOrdered};
ghost use Rattle.std.specs.Cmp.Lexicographic.{slice_cmp};
ghost use Rattle.bz_base.specs.declared.error.Error.{Error};
ghost use Rattle.bz_stacks.specs.Text.{line_of, lines_of};

use bz_base::{Error, Result};
use itoa::Buffer;
use std::alloc::Global;
use std::collections::BTreeMap;

/// A line for each path, in the order of the map.
pub(crate) fn text_of(alloc: Global, sums: &BTreeMap<Vec<u8>, u64>) -> Result<Vec<u8>>
    ensures ok { IfOk result (λ text. text.items ≡ lines_of sums.now.entries) }
    ensures memory { IsOkUnless result Error.OutOfMemory }
{
    let mut text = Vec::new(alloc);
    for (path, sum) in sums {
        push_line(&mut text, path.as_slice(), *sum)?;
    }
    Ok(text)
}

// Puts the line of a path behind the text.
fn push_line(text: &mut Vec<u8>, path: &[u8], sum: u64) -> Result<()>
    ensures ok { OnOk result (text.new.items ≡ text.old.items ++ line_of (path.now, sum)) }
    ensures memory { IsOkUnless result Error.OutOfMemory }
{
    let mut digits = Buffer::new();
    text.extend_from_slice(path)?;
    text.push(b' ')?;
    text.extend_from_slice(digits.format(sum).as_bytes())?;
    text.push(b'\n')?;
    Ok(())
}
