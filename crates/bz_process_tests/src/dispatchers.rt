//! What a dispatcher's resolver answers in place of what is mapped, and what a dispatcher refuses.

ghost use Rattle.std.specs.Prelude.{◌≡◌, Some, Ok, IfErr};
ghost use Rattle.bz_base.specs.Resolution.{MayGive};
ghost use Rattle.bz_process.specs.Member.{MayRefuseMember};
ghost use Rattle.bz_process_tests.specs.Dispatchers.{given_for_vdso, vdso_resolver};

use crate::files::File;
use crate::steps::{Step, Told, holds};
use crate::symbolizer::{self, all_hold};
use bz_base::{Error, Input, Reason, Result};
use bz_elf::ElfResolver;
use bz_proc::PathName;
use bz_process::{ProcessDispatch, ProcessMemberInfo};
use bz_samples::{ELF_FUNCTION, PROCESS_FILES};
use bz_symbolize::Builder;
use std::alloc::Global;

/// Gives a resolver for the part of the system that is called `[vdso]`, and none for a file.
#[derive(Drop)]
struct ForVdso {
    /// Whether every other part of the system is refused, or has no resolver.
    refuses: bool,
}

impl ProcessDispatch for ForVdso {
    type Resolver = ElfResolver;

    ghost may_dispatch = { λ dispatcher member answer. answer ≡ given_for_vdso dispatcher.refuses member.name };

    fn dispatch(&self, alloc: Global, info: ProcessMemberInfo<'_>) -> Result<Option<ElfResolver>> {
        match info.member_entry {
            PathName::Component(part) => if part.as_str() == "[vdso]" {
                vdso(alloc)
            } else if self.refuses {
                Err(Error::NotFound)
            } else {
                Ok(None)
            },
            PathName::Path(_) => Ok(None),
        }
    }
}

/// The resolver of an ELF file, which want of memory alone can refuse.
fn vdso(alloc: Global) -> Result<Option<ElfResolver>>
    ensures answer { MayGive (λ given. given) (λ answer. answer ≡ Ok (Some vdso_resolver)) result }
    ensures refusal { IfErr result MayRefuseMember }
{
    let bytes = Vec::from_slice(alloc, &ELF_FUNCTION)?;
    match ElfResolver::from_bytes(alloc, "/vdso.so", bytes) {
        Ok(resolver) => Ok(Some(resolver)),
        Err(_) => Err(Error::OutOfMemory),
    }
}

/// The resolver answers for the part of the system, and for a mapped file no one does. Where the
/// mappings may not be read, the batch is refused.
static RESOLVED: [Step; 4] = [
    Step::Files(PROCESS_FILES),
    Step::Batch(
        Input::AbsAddr(&[0x5088, 0x1004]),
        &[
            Told::Symbol("f", 0x400080, "/vdso.so"),
            Told::Unknown(Reason::IgnoredError),
        ],
    ),
    Step::Deny("/proc/7/maps"),
    Step::Batch(
        Input::AbsAddr(&[0x5088]),
        &[Told::Refused(Error::PermissionDenied)],
    ),
];

#[test]
fn a_dispatcher_answers_for_parts_of_the_system_alone(rt: HostRuntime) {
    let dispatcher = ForVdso { refuses: false };
    assert!(rt; holds(rt.alloc(), dispatcher, &[&RESOLVED]));
}

/// The files of a process that maps two parts of the system, and a file that isn't an ELF file.
const TWO_PARTS: &[File] = &[
    (
        "/proc/7/maps",
        b"1000-2000 r-xp 00000000 08:01 11 /bin/bad\n5000-6000 r-xp 00000000 00:00 0 [vdso]\n7000-8000 rw-p 00000000 00:00 0 [stack]\n",
    ),
    ("/proc/7/map_files/1000-2000", b"\x7fELF"),
];

/// In the part with a resolver, in the other one, and in the file. An address in the part without a
/// resolver is refused alone.
static REFUSED: [symbolizer::Step; 3] = [
    symbolizer::Step::Files(TWO_PARTS),
    symbolizer::Step::Batch(
        &[0x5088, 0x7008, 0x1004],
        &[
            Told::Symbol("f", 0x400080, "/vdso.so"),
            Told::Unknown(Reason::IgnoredError),
            Told::Unknown(Reason::IgnoredError),
        ],
    ),
    symbolizer::Step::Alone(Input::AbsAddr(0x7008), Told::Refused(Error::NotFound)),
];

/// Whether all this holds of a symbolizer whose dispatcher refuses.
fn refusing_answers(alloc: Global) -> bool {
    let mut symbolizer = Builder::new()
        .set_process_dispatcher(ForVdso { refuses: true })
        .build(alloc);
    all_hold(alloc, &mut symbolizer, &REFUSED)
}

#[test]
fn dispatchers_answer_for_parts_of_the_system_or_refuse_them(rt: HostRuntime) {
    assert!(rt; refusing_answers(rt.alloc()));
}
