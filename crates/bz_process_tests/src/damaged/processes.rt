//! Mappings of a process that lie at the end of what a file's offsets reach.

use crate::files::File;
use crate::steps::{Step, Told, holds};
use bz_base::{Input, Reason};
use bz_process::NoDispatch;
use bz_samples::ELF_FUNCTION;

/// Mappings of an ELF file from the last offset on, from one that no segment has, and from `f` on.
const MAPS: &[u8] =
    b"1000-2000 r-xp ffffffffffffffff 00:00 1 /e\n3000-4000 r-xp 200 00:00 1 /e\n5000-6000 r-xp 80 00:00 1 /e\n";

/// The mappings of process 7, and its mapped file at each of the paths that stand for them.
const FILES: &[File] = &[
    ("/proc/7/maps", MAPS),
    ("/proc/7/map_files/1000-2000", &ELF_FUNCTION),
    ("/proc/7/map_files/3000-4000", &ELF_FUNCTION),
    ("/proc/7/map_files/5000-6000", &ELF_FUNCTION),
];

/// The first of them alone.
const FIRST: &[File] = &[
    (
        "/proc/7/maps",
        b"1000-2000 r-xp ffffffffffffffff 00:00 1 /e\n",
    ),
    ("/proc/7/map_files/1000-2000", &ELF_FUNCTION),
];

/// Nothing is told at an offset past 64 bits, at the last one, and at one that no segment has. The
/// function answers.
static OFFSETS: [Step; 6] = [
    Step::Files(FILES),
    Step::Batch(
        Input::AbsAddr(&[0x1001, 0x1000, 0x3000, 0x5008]),
        &[
            Told::Unknown(Reason::InvalidFileOffset),
            Told::Unknown(Reason::InvalidFileOffset),
            Told::Unknown(Reason::InvalidFileOffset),
            Told::Symbol("f", 0x400080, "/e"),
        ],
    ),
    Step::Alone(0x1001, Told::Unknown(Reason::InvalidFileOffset)),
    Step::Alone(0x1000, Told::Unknown(Reason::InvalidFileOffset)),
    Step::Files(FIRST),
    Step::Batch(
        Input::AbsAddr(&[0x1001]),
        &[Told::Unknown(Reason::InvalidFileOffset)],
    ),
];

#[test]
fn an_offset_past_its_segment_is_invalid(rt: HostRuntime) {
    assert!(rt; holds(rt.alloc(), NoDispatch, &[&OFFSETS]));
}
