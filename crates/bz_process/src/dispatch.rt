//! Who else may answer for what a process has mapped.

ghost use Rattle.std.specs.Prelude.{◌≡◌, None, Ok, IfErr, Option, Result};
ghost use Rattle.bz_base.specs.Resolution.{MayGive};
ghost use Rattle.bz_base.specs.declared.error.Error.{Error};
ghost use Rattle.bz_process.specs.Member.{Member, MayRefuseMember, member_of};

use bz_base::{Addr, Resolve, Result};
use bz_elf::ElfResolver;
use bz_proc::PathName;
use std::alloc::Global;
use std::ops::Range;

/// What a process has mapped: the addresses, and what is mapped there.
#[derive(Clone, Debug, Drop)]
pub struct ProcessMemberInfo<'a> {
    /// The addresses of the mapping that is asked for first, absolute in its process.
    pub range: Range<Addr>,
    /// What is mapped.
    pub member_entry: &'a PathName,
}

/// What says which resolver answers for what a process has mapped.
pub trait ProcessDispatch {
    /// What answers addresses, by their offsets in what is mapped.
    type Resolver: Resolve + Drop;

    /// Which answers it may give for a member: a resolver, none, or a refusal; want of memory may come
    /// beside that.
    ghost may_dispatch: { Self → Member → Result (Option Self.Resolver) Error → Type 0 };

    /// The resolver for a member; none where the mapped file itself is to answer. It is asked where
    /// no answer is kept for the name of what is mapped. What it gave, a resolver or none, is kept
    /// for all mappings with an equal name. A file's name tells process and addresses, by its path
    /// in `/proc`. So a file is asked for at each of its mappings. The name of a part of the
    /// system, as `[vdso]`, is equal in each process. What was given stays until one of the name's
    /// paths is forgotten. A refusal isn't kept. It refuses a member by Unsupported, NotFound,
    /// PermissionDenied, InvalidInput, InvalidData or UnexpectedEof alone, or by OutOfMemory.
    fn dispatch(&self, alloc: Global, info: ProcessMemberInfo<'_>) -> Result<Option<Self::Resolver>>
        ensures answer { MayGive (λ given. given) (may_dispatch self.now (member_of info.entry)) result }
        ensures refusal { IfErr result MayRefuseMember };
}

/// Gives no resolver, and refuses nothing.
#[derive(Drop)]
pub struct NoDispatch;

impl ProcessDispatch for NoDispatch {
    type Resolver = ElfResolver;

    ghost may_dispatch = { λ _ member answer. answer ≡ Ok None };

    fn dispatch(&self, _alloc: Global, _info: ProcessMemberInfo<'_>) -> Result<Option<ElfResolver>>
        ensures answer { MayGive (λ given. given) (λ answer. answer ≡ Ok None) result }
        ensures refusal { IfErr result MayRefuseMember }
        ensures exact { result ≡ Ok None }
    {
        Ok(None)
    }
}
