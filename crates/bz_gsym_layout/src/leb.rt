//! LEB128 numbers at the end of bytes.

ghost use Rattle.std.specs.Prelude.{◌≡◌, ◌^◌, ◌<◌, ◌++◌, pos, negsuc, IsOkUnless, OnOk};
ghost use Rattle.bz_gsym_layout.specs.declared.error.LayoutError.{LayoutError};
ghost use Rattle.bz_gsym_layout.specs.Leb.{sleb, uleb};

use crate::error::Result;

/// Writes an unsigned number.
pub(crate) fn push_unsigned(out: &mut Vec<u8>, number: u64) -> Result<()>
    ensures ok { OnOk result (out.new.items ≡ out.old.items ++ uleb number) }
    ensures memory { IsOkUnless result LayoutError.OutOfMemory }
{
    let mut rest = number;
    while rest >= 128 {
        let low = (rest % 128) as u8;
        out.push(128 + low)?;
        rest /= 128;
    }
    out.push(rest as u8)?;
    Ok(())
}

/// Writes a signed number that isn't below 0.
pub(crate) fn push_positive(out: &mut Vec<u8>, number: u64) -> Result<()>
    requires { number < 2 ^ 63 }
    ensures ok { OnOk result (out.new.items ≡ out.old.items ++ sleb (pos number)) }
    ensures memory { IsOkUnless result LayoutError.OutOfMemory }
{
    let mut rest = number;
    while rest >= 64 {
        let low = (rest % 128) as u8;
        out.push(128 + low)?;
        rest /= 128;
    }
    out.push(rest as u8)?;
    Ok(())
}

/// Writes a signed number that lies so far below -1.
pub(crate) fn push_negative(out: &mut Vec<u8>, below: u64) -> Result<()>
    requires { below < 2 ^ 63 }
    ensures ok { OnOk result (out.new.items ≡ out.old.items ++ sleb (negsuc below)) }
    ensures memory { IsOkUnless result LayoutError.OutOfMemory }
{
    let mut rest = below;
    while rest >= 64 {
        let low = (rest % 128) as u8;
        out.push(255 - low)?;
        rest /= 128;
    }
    out.push(127 - rest as u8)?;
    Ok(())
}
