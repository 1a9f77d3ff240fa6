//! A dispatcher, and what it said of what processes have mapped.

ghost use Rattle.std.specs.Prelude.{◌≡◌, ◌⊎◌, Err, None, Ok, Some, IfErr, IsErrOf, IsOkUnless, OnErr, OnOk, Option, Result, ℕ};
ghost use Rattle.bz_base.specs.Answer.{reading};
ghost use Rattle.bz_base.specs.Refusals.{MayRefuse};
ghost use Rattle.bz_base.specs.declared.error.Error.{Error};
ghost use Rattle.bz_files.specs.Looked.{Faulted};
ghost use Rattle.bz_proc.specs.Maps.{mapping_of, name_of};
ghost use Rattle.bz_process.specs.Dispatch.{Adds, Asks, IsSaid, Keeps, MaySay, kept_for, said_of};
ghost use Rattle.bz_process.specs.Member.{MayRefuseMember};
ghost use Rattle.bz_process.specs.Process.{offset_in};
ghost use Rattle.bz_process.specs.ProcessCall.{UnlessFailed};
ghost use Rattle.bz_process.specs.Untold.{as_read};

use crate::dispatch::{ProcessDispatch, ProcessMemberInfo};
use crate::mapped_file::offset_in;
use bz_base::{Addr, Error, FindSymOpts, Reason, Resolve, Result, Symbolized};
use bz_cache::InsertMap;
use bz_proc::{MapsEntry, PathName};
use std::alloc::Global;

/// A dispatcher, and those of its answers that are kept.
#[derive(Drop)]
pub(crate) struct Dispatching<D: ProcessDispatch + Drop> {
    /// The dispatcher.
    pub(crate) dispatch: D,
    /// Its answers, by what they are for.
    pub(crate) answers: InsertMap<PathName, Option<D::Resolver>>,
}

impl<D: ProcessDispatch + Drop> Dispatching<D> {
    /// What the resolver says that is in charge of a mapping with this name; none where none is.
    pub(crate) fn say(
        &mut self,
        alloc: Global,
        opts: &FindSymOpts,
        entry: &MapsEntry,
        name: &PathName,
        addr: Addr,
    ) -> Result<Option<Symbolized<'static>>>
        ensures said { UnlessFailed result (IsSaid (D.may_dispatch self.old.dispatch) D.Resolver.TranslateFileOffset D.Resolver.Symbolize opts.now (mapping_of entry.now) name.now addr self.old.answers self.new.answers (said_of result)) }
        ensures keeps { Keeps self.old.answers self.new.answers }
        ensures adds { Adds (D.may_dispatch self.old.dispatch) (mapping_of entry.now) name.now self.old.answers self.new.answers }
        ensures dispatch { self.new.dispatch ≡ self.old.dispatch }
        ensures faultless { Faulted result → ⊥ }
    {
        self.ask(alloc, entry, name)?;
        match self.answers.get(name) {
            Some(Some(resolver)) => {
                let answer = say_by(alloc, resolver, opts, offset_in(entry, addr))?;
                Ok(Some(answer))
            }
            Some(None) => Ok(None),
            // What was asked for is kept.
            None => unreachable!(),
        }
    }

    // Asks the dispatcher for a mapping with this name, where none of its answers is kept.
    fn ask(&mut self, alloc: Global, entry: &MapsEntry, name: &PathName) -> Result<()>
        ensures asked { Asks (D.may_dispatch self.old.dispatch) (mapping_of entry.now) name.now result self.old.answers self.new.answers }
        ensures dispatch { self.new.dispatch ≡ self.old.dispatch }
    {
        match self.answers.get(name) {
            Some(_) => Ok(()),
            None => self.dispatch(alloc, entry, name),
        }
    }

    // Asks the dispatcher, and keeps its answer.
    fn dispatch(&mut self, alloc: Global, entry: &MapsEntry, name: &PathName) -> Result<()>
        requires { kept_for self.old.answers name.now ≡ None }
        ensures asked { Asks (D.may_dispatch self.old.dispatch) (mapping_of entry.now) name.now result self.old.answers self.new.answers }
        ensures dispatch { self.new.dispatch ≡ self.old.dispatch }
    {
        let info = ProcessMemberInfo {
            range: entry.range.start..entry.range.end,
            member_entry: name,
        };
        let given = self.dispatch.dispatch(alloc, info)?;
        let key = name.try_clone(alloc)?;
        self.answers.get_or_insert(alloc, key, || given)?;
        Ok(())
    }
}

// What a resolver says of an offset in what is mapped, if there is one.
fn say_by<R: Resolve>(
    alloc: Global,
    resolver: &R,
    opts: &FindSymOpts,
    offset: Option<u64>,
) -> Result<Symbolized<'static>>
    ensures said { UnlessFailed result (MaySay R.TranslateFileOffset R.Symbolize opts.now resolver.now offset (as_read reading result)) }
    ensures refusal { IfErr result MayRefuse }
{
    let Some(offset) = offset else {
        return Ok(Symbolized::Unknown(Reason::InvalidFileOffset));
    };
    let Some(addr) = resolver.file_offset_to_virt_offset(offset)? else {
        return Ok(Symbolized::Unknown(Reason::InvalidFileOffset));
    };
    match resolver.find_sym(alloc, addr, opts)? {
        Ok(symbol) => Symbolized::Sym(symbol.into_sym(addr)).into_owned(alloc),
        Err(reason) => Ok(Symbolized::Unknown(reason)),
    }
}
