//! Numbers of fixed width, and zero bytes.

ghost use Rattle.std.specs.Prelude.{◌≡◌, ◌++◌, IsOkUnless, OnOk};
ghost use Rattle.bz_gsym_layout.specs.Layout.{word, zeros};
ghost use Rattle.bz_gsym_layout.specs.declared.error.LayoutError.{LayoutError};

use crate::error::Result;

/// Writes a number in two bytes.
pub(crate) fn push_short(out: &mut Vec<u8>, number: u16) -> Result<()>
    ensures ok { OnOk result (out.new.items ≡ out.old.items ++ word 2 number) }
    ensures memory { IsOkUnless result LayoutError.OutOfMemory }
{
    out.extend_from_slice(&number.to_le_bytes())?;
    Ok(())
}

/// Writes a number in four bytes.
pub(crate) fn push_word(out: &mut Vec<u8>, number: u32) -> Result<()>
    ensures ok { OnOk result (out.new.items ≡ out.old.items ++ word 4 number) }
    ensures memory { IsOkUnless result LayoutError.OutOfMemory }
{
    out.extend_from_slice(&number.to_le_bytes())?;
    Ok(())
}

/// Writes the low 32 bits of a number in four bytes, and drops the rest. A place, a length or a count
/// with more bits stands only in a file that is refused as too large.
pub(crate) fn push_low_word(out: &mut Vec<u8>, number: u64) -> Result<()>
    ensures ok { OnOk result (out.new.items ≡ out.old.items ++ word 4 number) }
    ensures memory { IsOkUnless result LayoutError.OutOfMemory }
{
    push_word(out, (number % 4294967296) as u32)
}

/// Writes a number in eight bytes.
pub(crate) fn push_long(out: &mut Vec<u8>, number: u64) -> Result<()>
    ensures ok { OnOk result (out.new.items ≡ out.old.items ++ word 8 number) }
    ensures memory { IsOkUnless result LayoutError.OutOfMemory }
{
    out.extend_from_slice(&number.to_le_bytes())?;
    Ok(())
}

/// Writes so many zero bytes.
pub(crate) fn push_zeros(out: &mut Vec<u8>, count: usize) -> Result<()>
    ensures ok { OnOk result (out.new.items ≡ out.old.items ++ zeros count) }
    ensures memory { IsOkUnless result LayoutError.OutOfMemory }
{
    for _ in 0..count {
        out.push(0)?;
    }
    Ok(())
}
