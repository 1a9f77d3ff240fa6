//! A GSYM file that owns its bytes.

ghost use Rattle.std.specs.Prelude.{◌≡◌, None, IfOk, IfErr, IsErrOf};
ghost use Rattle.bz_base.specs.Lent.{IsLentResolved};
ghost use Rattle.bz_base.specs.Resolution.{MayGive, StartsBefore, found_of};
ghost use Rattle.bz_base.specs.declared.error.Error.{Error};
ghost use Rattle.bz_cache.specs.Format.{IsRefusalBy};
ghost use Rattle.bz_gsym.specs.Plain.{plain};
ghost use Rattle.bz_gsym.specs.Refusal.{IsAnswerRefusal};
ghost use Rattle.bz_gsym.specs.Tables.{IsGsym};
ghost use Rattle.bz_gsym.specs.Version.{format_test, format_refusals};

use crate::parser::{GsymContext, checked_header};
use crate::types::Header;
use bz_base::{Addr, FindSymOpts, Reason, ResolvedSym, Result, Symbolize};
use bz_cache::Version;
use std::alloc::Global;
use std::marker::Model;

/// A GSYM file that owns its bytes. Beside them only the head is kept. Contracts see the bytes.
#[derive(Drop)]
pub struct GsymTable {
    bytes: Vec<u8>,
    header: Header,
}

impl Model for GsymTable {
    ghost use Rattle.std.specs.Prelude.{ℕ, List};
    ghost use Rattle.bz_gsym.specs.Tables.{IsHeaded};

    ghost Value = { List ℕ };

    ghost view = { λ table. table.bytes.items };

    ghost invariant = { λ table. IsHeaded table.bytes.items table.header };
}

impl GsymTable {
    /// Takes the bytes of a GSYM file. InvalidData: they aren't one.
    pub fn from_bytes(bytes: Vec<u8>) -> Result<GsymTable>
        ensures ok { IfOk result (λ table. table ≡ bytes.items) }
        ensures accepted { IfOk result (λ table. IsGsym bytes.items) }
        ensures refusal { IfErr result (λ e. (e ≡ Error.InvalidData) × ¬ (IsGsym bytes.items)) }
    {
        let header = checked_header(bytes.as_slice())?;
        Ok(GsymTable { bytes, header })
    }

    /// The tables of the file, read in place.
    pub fn context(&self) -> GsymContext<'_>
        ensures file { result ≡ self.now }
        ensures formed { IsGsym self.now }
    {
        GsymContext::of_header(self.bytes.as_slice(), self.header)
    }
}

impl Version for GsymTable {
    ghost bytes_of = { λ table. table };

    ghost test = { format_test };

    fn parse(_alloc: Global, bytes: Vec<u8>) -> Result<GsymTable>
        ensures ok { IfOk result (λ table. table ≡ bytes.items) }
        ensures formed { IfOk result (λ table. format_test bytes.items ≡ None) }
        ensures refusal { IfErr result (IsRefusalBy (format_test bytes.items)) }
        ensures no_memory { IsErrOf result Error.OutOfMemory → ⊥ }
    {
        GsymTable::from_bytes(bytes)
    }

    fn formed(&self) {
        let _context = self.context();
    }

    ghost refusals = { format_refusals };
}

impl Symbolize for GsymTable {
    ghost may_find = { λ table opts addr answer. answer ≡ plain table opts addr };

    fn find_sym(
        &self,
        alloc: Global,
        addr: Addr,
        opts: &FindSymOpts,
    ) -> Result<std::result::Result<ResolvedSym<'_>, Reason>>
        ensures answer { MayGive found_of (λ answer. answer ≡ plain self.now opts.now addr) result }
        ensures starts { IfOk result (λ found. StartsBefore addr (found_of found)) }
        ensures lent { IfOk result (λ found. IfOk found IsLentResolved) }
        ensures refusal { IfErr result (IsAnswerRefusal opts.now) }
    {
        self.context().find_sym(alloc, addr, opts)
    }
}
