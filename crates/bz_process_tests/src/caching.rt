//! What is kept of a process ahead of its addresses, and what an evict leaves of it.

use crate::files::LATER;
use crate::steps::{Step, Told, holds};
use bz_base::{Error, Reason};
use bz_process::NoDispatch;
use bz_samples::{ELF_FUNCTION, PROCESS_FILES};

/// All is cached of the first files.
pub(crate) const CACHED: &[Step] = &[Step::Files(PROCESS_FILES), Step::Cache(true, true, Ok(()))];

/// All that was cached of the first files answers, though no file is there: the mappings, the id and
/// the perf map.
pub(crate) const STANDS_ALONE: &[Step] = &[
    Step::Files(&[]),
    Step::Alone(0x3008, Told::Symbol("jit", 0x3000, "")),
    Step::Alone(0x4008, Told::Unknown(Reason::Unmapped)),
];

/// The later mappings and perf map answer, though no file is there.
pub(crate) const IS_LATER: &[Step] = &[
    Step::Files(&[]),
    Step::Alone(0x3008, Told::Symbol("later", 0x3000, "")),
    Step::Alone(0x4008, Told::Unknown(Reason::UnknownAddr)),
];

/// Nothing is kept of process 7: its mappings are read, it isn't remembered, and its perf map isn't
/// held.
pub(crate) const IS_UNKEPT: &[Step] = &[
    Step::Files(&[]),
    Step::Alone(0x3008, Told::Refused(Error::NotFound)),
    Step::Put("/proc/7/maps", b"3000-5000 rw-p 00000000 00:00 0\n"),
    Step::Put("/proc/7/root/tmp/perf-7.map", b"3000 10 unseen\n"),
    Step::Alone(0x3008, Told::Unknown(Reason::UnknownAddr)),
    Step::Remove("/proc/7/root/tmp/perf-7.map"),
    Step::Put("/proc/7/status", b"Name:\tx\n"),
    Step::Alone(0x3008, Told::Unknown(Reason::UnknownAddr)),
];

/// Stories of what is kept.
static STORIES: [&[&[Step]]; 6] = [
    // A cached process answers without its files until it is evicted.
    &[CACHED, STANDS_ALONE, &[Step::Evict], IS_UNKEPT],
    // A cached process is cached anew. It is remembered, so its status isn't read.
    &[
        CACHED,
        &[
            Step::Files(LATER),
            Step::Deny("/proc/7/status"),
            Step::Cache(true, true, Ok(())),
            Step::Opens(2),
        ],
        IS_LATER,
    ],
    // Mappings and perf map are cached as asked for.
    &[
        &[
            Step::Files(PROCESS_FILES),
            Step::Cache(false, false, Ok(())),
            Step::Opens(0),
        ],
        IS_UNKEPT,
        &[
            Step::Files(PROCESS_FILES),
            Step::Cache(false, true, Ok(())),
            Step::Remove("/proc/7/root/tmp/perf-7.map"),
            Step::Alone(0x3008, Told::Symbol("jit", 0x3000, "")),
            Step::Files(&[]),
            Step::Alone(0x3008, Told::Refused(Error::NotFound)),
        ],
    ],
    // A perf map that is gone is pinned as it is held.
    &[
        &[
            Step::Files(PROCESS_FILES),
            Step::Alone(0x3008, Told::Symbol("jit", 0x3000, "")),
            Step::Remove("/proc/7/root/tmp/perf-7.map"),
            Step::Alone(0x3008, Told::Unknown(Reason::UnknownAddr)),
            Step::Cache(true, true, Ok(())),
        ],
        STANDS_ALONE,
    ],
    // A process without mappings is cached.
    &[&[
        Step::Put("/proc/7/maps", b""),
        Step::Put("/proc/7/status", b"Name:\tx\n"),
        Step::Cache(true, true, Ok(())),
        Step::Files(&[]),
        Step::Alone(0x3008, Told::Refused(Error::UnexpectedEof)),
    ]],
    // A path is forgotten without its process.
    &[CACHED, &[Step::ForgetPath("/bin/bad")], STANDS_ALONE],
];

/// A refused file isn't pinned. A pinned one stays so where it is refused, until it is evicted.
static PINNED_FILE: [Step; 14] = [
    Step::Put("/e", &ELF_FUNCTION),
    Step::IsElf("/e", true),
    Step::Put("/e", b"\x7fELF"),
    Step::PinFile("/e", Err(Error::InvalidData)),
    Step::Remove("/e"),
    Step::IsElf("/e", false),
    Step::Put("/e", &ELF_FUNCTION),
    Step::PinFile("/e", Ok(())),
    Step::Put("/e", b"\x7fELF"),
    Step::PinFile("/e", Err(Error::InvalidData)),
    Step::Remove("/e"),
    Step::IsElf("/e", true),
    Step::EvictFile("/e"),
    Step::IsElf("/e", false),
];

#[test]
fn processes_and_files_are_kept_until_they_are_evicted(rt: HostRuntime) {
    let stories = &STORIES;
    for index in 0..stories.len() {
        assert!(rt;
            holds(rt.alloc(), NoDispatch, stories[index]),
            "story {index}"
        );
    }
    assert!(rt;
        holds(rt.alloc(), NoDispatch, &[&PINNED_FILE]),
        "a pinned file"
    );
}
