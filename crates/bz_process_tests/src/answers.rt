//! What addresses of a process answer, where no dispatcher is in charge.

use crate::files::File;
use crate::steps::{Step, Told, holds};
use bz_base::{Addr, Error, Input, Reason};
use bz_process::NoDispatch;
use bz_samples::{ELF_FUNCTION, PROCESS_FILES};

/// Addresses, in this order:
/// - outside the mappings;
/// - in a part of the system;
/// - in memory with a perf map;
/// - past the first mapping's end and before the next;
/// - in a mapped file that isn't an ELF file.
pub(crate) const ADDRS: &[Addr] = &[0x7000, 0x5000, 0x3008, 0x2800, 0x1004];

/// What is told of these addresses.
pub(crate) const TOLD: &[Told] = &[
    Told::Unknown(Reason::Unmapped),
    Told::Unknown(Reason::Unsupported),
    Told::Symbol("jit", 0x3000, ""),
    Told::Unknown(Reason::Unmapped),
    Told::Unknown(Reason::IgnoredError),
];

/// The mapping of an ELF file, which is there by its own path alone.
pub(crate) const MAPPED_FILE: &[File] = &[
    (
        "/proc/7/maps",
        b"400000-401000 r-xp 00000000 08:01 11 /bin/e\n",
    ),
    ("/bin/e", &ELF_FUNCTION),
];

/// Stories in which one call asks process 7.
static STORIES: [&[Step]; 12] = [
    // Each address is answered by its mapping.
    &[
        Step::Files(PROCESS_FILES),
        Step::Batch(Input::AbsAddr(ADDRS), TOLD),
    ],
    &[
        Step::Files(PROCESS_FILES),
        Step::Alone(0x1004, Told::Refused(Error::InvalidData)),
    ],
    // Memory without a perf map is unknown.
    &[
        Step::Files(PROCESS_FILES),
        Step::AloneWithoutPerfMap(0x3008, Told::Unknown(Reason::UnknownAddr)),
    ],
    &[
        Step::Files(PROCESS_FILES),
        Step::Remove("/proc/7/root/tmp/perf-7.map"),
        Step::Alone(0x3008, Told::Unknown(Reason::UnknownAddr)),
    ],
    &[
        Step::Files(PROCESS_FILES),
        Step::Remove("/proc/7/root/tmp/perf-7.map"),
        Step::Remove("/proc/7/status"),
        Step::Alone(0x3008, Told::Unknown(Reason::UnknownAddr)),
    ],
    // A mapped file answers by its path.
    &[
        Step::Files(MAPPED_FILE),
        Step::AloneByOwnPath(0x400088, Told::Symbol("f", 0x400080, "/bin/e")),
    ],
    &[
        Step::Files(MAPPED_FILE),
        Step::Alone(0x400088, Told::Refused(Error::NotFound)),
    ],
    // A batch is refused by its mappings.
    &[Step::Batch(Input::AbsAddr(&[]), &[Told::Refused(Error::NotFound)])],
    &[Step::Batch(Input::VirtOffset(&[]), &[Told::Refused(Error::Unsupported)])],
    &[
        Step::Put("/proc/7/maps", b""),
        Step::Batch(Input::AbsAddr(&[]), &[Told::Refused(Error::UnexpectedEof)]),
    ],
    &[
        Step::Put("/proc/7/maps", b"x\n"),
        Step::Batch(Input::AbsAddr(&[]), &[Told::Refused(Error::InvalidData)]),
    ],
    &[
        Step::Put("/proc/7/maps", b"x\n"),
        Step::Deny("/proc/7/maps"),
        Step::Batch(
            Input::AbsAddr(&[]),
            &[Told::Refused(Error::PermissionDenied)],
        ),
    ],
];

#[test]
fn addresses_are_answered_or_refused_by_their_mappings(rt: HostRuntime) {
    let stories = &STORIES;
    for index in 0..stories.len() {
        assert!(rt;
            holds(rt.alloc(), NoDispatch, &[stories[index]]),
            "story {index}"
        );
    }
}
