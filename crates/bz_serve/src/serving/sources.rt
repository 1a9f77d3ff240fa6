//! What is asked for a request.

ghost use Rattle.std.specs.Prelude.{◌≡◌, IfOk, IsOkUnless};
ghost use Rattle.bz_base.specs.InputKind.{address_kind, payload};
ghost use Rattle.bz_base.specs.declared.error.Error.{Error};
ghost use Rattle.bz_requests.specs.Requests.{target_of, usual_kind};
ghost use Rattle.bz_serve.specs.RequestSteps.{process_by, target_form};
ghost use Rattle.bz_serve.specs.SomeReplies.{IsSourceFor};
ghost use Rattle.bz_symbolize.specs.Requests.{CacheElf, EvictElf, EvictProcess, cache_read, evict_read};
ghost use Rattle.bz_symbolize.specs.Sources.{form_of};
ghost use Rattle.bz_symq.specs.Processes.{pid_of};

use bz_base::{Error, Input, Result};
use bz_requests::Target;
use bz_symbolize::Pid;
use bz_symbolize::cache::{self, Cache};
use bz_symbolize::evict::{self, Evict};
use bz_symbolize::source::{Breakpad, Elf, GsymFile, Process, Source};
use std::alloc::Global;

/// The source that the target is. Mapped files of a process are looked at by the paths that stand for
/// their mappings, or by their own.
pub(crate) fn source_of(alloc: Global, map_files: bool, target: &Target) -> Result<Source<'static>>
    ensures ok { IfOk result (λ src. form_of src ≡ target_form map_files (target_of target.now)) }
    ensures source { IfOk result (λ src. IsSourceFor (target_of target.now) src) }
    ensures memory { IsOkUnless result Error.OutOfMemory }
{
    match target {
        Target::Breakpad(path) => {
            let path = String::from_str(alloc, path.as_str())?;
            Ok(Source::from(Breakpad::new(path)))
        }
        Target::Gsym(path) => {
            let path = String::from_str(alloc, path.as_str())?;
            Ok(Source::from(GsymFile::new(path)))
        }
        Target::Elf(path) => {
            let path = String::from_str(alloc, path.as_str())?;
            Ok(Source::from(Elf::new(path)))
        }
        Target::Process(number) => {
            let mut process = Process::new(pid_of(*number));
            process.map_files = map_files;
            Ok(Source::from(process))
        }
    }
}

/// The process with this id; 0 is the own one.
pub(crate) fn pid_of(number: u32) -> Pid
    ensures { result ≡ pid_of number }
{
    Pid::from(number)
}

/// Addresses, or one, of the kind that the target's usually are.
pub(crate) fn input_of<T>(target: &Target, addrs: T) -> Input<T>
    ensures kind { address_kind result ≡ usual_kind (target_of target.now) }
    ensures addrs { payload result ≡ addrs }
{
    target.usual_kind().with(addrs)
}

/// The ELF file at a path, as what is to be kept.
pub(crate) fn elf_to_cache(alloc: Global, path: &str) -> Result<Cache>
    ensures ok { IfOk result (λ cache. cache_read cache ≡ CacheElf path.now) }
    ensures memory { IsOkUnless result Error.OutOfMemory }
{
    let path = String::from_str(alloc, path)?;
    Ok(Cache::from(cache::Elf::new(path)))
}

/// The process with this id, as what is to be kept.
pub(crate) fn process_to_cache(number: u32) -> Cache
    ensures { cache_read result ≡ process_by number }
{
    Cache::from(cache::Process::new(pid_of(number)))
}

/// The ELF file at a path, as what is to be forgotten.
pub(crate) fn elf_to_evict(alloc: Global, path: &str) -> Result<Evict>
    ensures ok { IfOk result (λ evict. evict_read evict ≡ EvictElf path.now) }
    ensures memory { IsOkUnless result Error.OutOfMemory }
{
    let path = String::from_str(alloc, path)?;
    Ok(Evict::from(evict::Elf::new(path)))
}

/// The process with this id, as what is to be forgotten.
pub(crate) fn process_to_evict(number: u32) -> Evict
    ensures { evict_read result ≡ EvictProcess (pid_of number) }
{
    Evict::from(evict::Process::new(pid_of(number)))
}
