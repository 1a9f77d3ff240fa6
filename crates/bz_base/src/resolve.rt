//! What finds the symbol of an address.

ghost use Rattle.std.specs.Prelude.{ℕ, Option, Result, IfOk, IfErr};
ghost use Rattle.bz_base.specs.Answer.{Resolved};
ghost use Rattle.bz_base.specs.Refusals.{IsFormatRefusal, MayRefuse};
ghost use Rattle.bz_base.specs.Resolution.{MayGive, StartsBefore, found_of};
ghost use Rattle.bz_base.specs.declared.error.Error.{Error};
ghost use Rattle.bz_base.specs.declared.types.FindSymOpts.{FindSymOpts};
ghost use Rattle.bz_base.specs.declared.types.Reason.{Reason};

use crate::error::Result;
use crate::types::{FindSymOpts, Reason, ResolvedSym};
use bz_search::Addr;
use std::alloc::Global;

/// A table of symbols.
pub trait Symbolize {
    /// What it may answer for an address, as far as the options ask; want of memory may come beside
    /// that.
    ghost may_find: { Self → FindSymOpts → ℕ → Result (Result Resolved Reason) Error → Type 0 };

    /// The symbol at the address, or why there is none. The address is relative to what the table
    /// counts from.
    fn find_sym(
        &self,
        alloc: Global,
        addr: Addr,
        opts: &FindSymOpts,
    ) -> Result<std::result::Result<ResolvedSym<'_>, Reason>>
        ensures answer { MayGive found_of (may_find self.now opts.now addr) result }
        ensures starts { IfOk result (λ found. StartsBefore addr (found_of found)) }
        ensures refusal { IfErr result MayRefuse };
}

/// A file that translates its offsets into addresses, as its table of symbols has them.
pub trait TranslateFileOffset {
    /// What it may answer for a file offset.
    ghost may_translate: { Self → ℕ → Result (Option ℕ) Error → Type 0 };

    /// The address at which the file's byte at the offset lies, if it lies anywhere.
    fn file_offset_to_virt_offset(&self, file_offset: u64) -> Result<Option<Addr>>
        ensures answer { may_translate self.now file_offset result }
        ensures refusal { IfErr result IsFormatRefusal };
}

/// A table of symbols that translates file offsets too.
pub trait Resolve: Symbolize + TranslateFileOffset {}

impl<T: Symbolize + TranslateFileOffset> Resolve for T {}
