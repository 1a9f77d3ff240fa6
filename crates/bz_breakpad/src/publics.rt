//! PUBLIC records, which lend their names.

ghost use Rattle.std.specs.Prelude.{◌≡◌, map, IfOk};
ghost use Rattle.bz_breakpad.specs.Listed.{lent_public};
ghost use Rattle.bz_breakpad_table.specs.Kept.{IsTextAt, PublicsFit, kept_public};

use crate::types::PublicSymbol;
use bz_breakpad_table::{KeptPublic, text_of};
use std::alloc::{AllocError, Global};

/// PUBLIC records, which lend their names.
pub(crate) fn lend_publics<'a>(
    alloc: Global,
    bytes: &'a [u8],
    publics: &[KeptPublic],
) -> Result<Vec<PublicSymbol<'a>>, AllocError>
    requires { PublicsFit bytes.now publics.now }
    ensures { IfOk result (λ lent. map lent_public lent.items ≡ map (kept_public bytes.now) publics.now) }
{
    let mut lent = Vec::with_capacity(alloc, publics.len())?;
    for public in publics {
        lent.push(lend_public(bytes, public))?;
    }
    Ok(lent)
}

/// A PUBLIC record, which lends its name.
pub(crate) fn lend_public<'a>(bytes: &'a [u8], public: &KeptPublic) -> PublicSymbol<'a>
    requires { IsTextAt bytes.now public.now.name }
    ensures { lent_public result ≡ kept_public bytes.now public.now }
{
    PublicSymbol {
        addr: public.start,
        parameter_size: public.parameter_size,
        name: text_of(bytes, &public.name),
    }
}
