//! The symbol at an address.

ghost use Rattle.std.specs.Prelude.{◌≡◌, IfOk, IfErr};
ghost use Rattle.bz_base.specs.Lent.{IsLentResolved};
ghost use Rattle.bz_base.specs.Resolution.{MayGive, StartsBefore, found_of};
ghost use Rattle.bz_gsym.specs.Plain.{plain, reaches};
ghost use Rattle.bz_gsym.specs.Refusal.{IsAnswerRefusal};

use crate::locations::location_of;
use crate::parser::GsymContext;
use bz_base::{Addr, Error, FindSymOpts, Reason, ResolvedSym, Result, SrcLang, inside};
use std::alloc::Global;

impl<'a> GsymContext<'a> {
    /// The symbol at an address as far as the options ask, or why there is none. InvalidData: what is
    /// asked of it isn't in the format.
    pub fn find_sym(
        &self,
        alloc: Global,
        addr: Addr,
        opts: &FindSymOpts,
    ) -> Result<std::result::Result<ResolvedSym<'a>, Reason>>
        ensures answer { MayGive found_of (λ answer. answer ≡ plain self.now opts.now addr) result }
        ensures starts { IfOk result (λ found. StartsBefore addr (found_of found)) }
        ensures lent { IfOk result (λ found. IfOk found IsLentResolved) }
        ensures refusal { IfErr result (IsAnswerRefusal opts.now) }
    {
        let Some((index, start)) = self.nearest(addr) else {
            return Ok(Err(Reason::UnknownAddr));
        };
        let Some(info) = self.addr_info(index) else {
            return Err(Error::InvalidData);
        };
        if !reaches(start, info.size, addr) {
            return Ok(Err(Reason::UnknownAddr));
        }
        let location = location_of(self, alloc, opts, addr, start, &info)?;
        Ok(Ok(ResolvedSym {
            name: location.name,
            module: None,
            addr: start,
            size: Some(info.size as usize),
            lang: SrcLang::Unknown,
            code_info: location.code_info,
            inlined: location.inlined,
        }))
    }
}

/// Whether a symbol with this start and size (in bytes) reaches an address from its start on. One of
/// size 0 does.
fn reaches(start: u64, size: u32, addr: Addr) -> bool
    ensures { result ≡ reaches start size addr }
{
    size == 0 || inside(start, u64::from(size), addr)
}
