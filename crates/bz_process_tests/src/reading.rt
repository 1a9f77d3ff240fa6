//! What is read of processes: their mappings, and the ids by which they know themselves.

use crate::files::put;
use bz_base::{Error, ErrorKind, Pid};
use bz_files::MemFiles;
use bz_proc::{PerfMap, read_maps};
use bz_samples::THREE_MAPPINGS;
use std::alloc::Global;

/// What is done to the files, or what is read of a process; process 0 is the own one.
enum Step {
    /// The bytes are put at the path.
    Put(&'static str, &'static [u8]),
    /// The file at the path may not be read.
    Deny(&'static str),
    /// The look of this number fails.
    Fail(u64),
    /// So many files were read.
    Opens(u64),
    /// How many mappings of the process are read, or how that is refused.
    Maps(u32, Result<usize, Error>),
    /// The id by which the process knows itself, or how that is refused.
    Id(u32, Result<u32, ErrorKind>),
}

/// Whether so many mappings of the process are read, or reading is refused so.
fn reads(alloc: Global, files: &mut MemFiles, pid: Pid, want: &Result<usize, Error>) -> bool {
    match read_maps(alloc, files, pid) {
        Ok(entries) => *want == Ok(entries.len()),
        Err(error) => *want == Err(error),
    }
}

/// Whether the process knows itself by this id, or its status is refused so.
fn knows(alloc: Global, files: &mut MemFiles, pid: Pid, want: &Result<u32, ErrorKind>) -> bool {
    match PerfMap::ns_tgid(alloc, files, pid) {
        Ok(id) => *want == Ok(id),
        Err(error) => *want == Err(error.kind()),
    }
}

/// Takes a step. Says whether what it says is so.
fn step_holds(alloc: Global, files: &mut MemFiles, step: &Step) -> bool {
    match step {
        Step::Put(path, bytes) => put(alloc, files, path, bytes),
        Step::Deny(path) => files.deny(alloc, path).is_ok(),
        Step::Fail(look) => files.fail_call(alloc, *look).is_ok(),
        Step::Opens(count) => files.opens() == *count,
        Step::Maps(process, want) => reads(alloc, files, Pid::from(*process), want),
        Step::Id(process, want) => knows(alloc, files, Pid::from(*process), want),
    }
}

/// Takes the steps of a story, up to one that doesn't hold. Says whether all hold.
fn all_hold(alloc: Global, files: &mut MemFiles, story: &[&[Step]]) -> bool {
    for part in story {
        for step in *part {
            if !step_holds(alloc, files, step) {
                return false;
            }
        }
    }
    true
}

/// Whether all steps of a story hold, where the own process has this id. At first there are no files.
fn holds(alloc: Global, own: u32, story: &[&[Step]]) -> bool {
    let mut files = MemFiles::new(alloc, own);
    all_hold(alloc, &mut files, story)
}

/// Each process is answered by the mappings at its path.
static MAPPINGS: [Step; 10] = [
    Step::Put("/proc/7/maps", THREE_MAPPINGS),
    Step::Put("/proc/self/maps", b"x\n"),
    Step::Deny("/proc/8/maps"),
    // Of the calls that follow one fails: the fifth.
    Step::Fail(5),
    Step::Maps(7, Ok(3)),
    Step::Maps(0, Err(Error::InvalidData)),
    Step::Maps(8, Err(Error::PermissionDenied)),
    Step::Maps(9, Err(Error::NotFound)),
    Step::Maps(7, Err(Error::ReadFault)),
    Step::Opens(2),
];

#[test]
fn mappings_are_read_at_their_path(rt: HostRuntime) {
    assert!(rt; holds(rt.alloc(), 0, &[&MAPPINGS]));
}

/// Statuses, beside one that is denied.
static STATUSES: [Step; 9] = [
    Step::Put("/proc/self/status", b"Name:\tx\n"),
    Step::Put("/proc/7/status", b"Name:\tx\nNStgid:\t7\t3\n"),
    Step::Put("/proc/1337/status", b"Name:\tcat\nNStgid:\t1337\t1\n"),
    Step::Put("/proc/8/status", b"Name:\tcat\n"),
    Step::Put("/proc/9/status", b""),
    Step::Put("/proc/10/status", b"NStgid:\n"),
    Step::Put("/proc/11/status", b"Name:\tx\nNStgid:\tx\n"),
    Step::Put("/proc/12/status", b"Name:\t\xff\n"),
    Step::Deny("/proc/13/status"),
];

/// A process knows itself by the last id or, without one, by its own. One file is read for each.
static IDS: [Step; 6] = [
    Step::Id(0, Ok(7)),
    Step::Id(7, Ok(3)),
    Step::Id(1337, Ok(1)),
    Step::Id(8, Ok(8)),
    Step::Id(9, Ok(9)),
    Step::Opens(5),
];

/// Statuses are refused one after another, with a fault at the last one.
static REFUSED: [Step; 7] = [
    Step::Fail(6),
    Step::Id(10, Err(ErrorKind::InvalidData)),
    Step::Id(11, Err(ErrorKind::InvalidData)),
    Step::Id(12, Err(ErrorKind::InvalidData)),
    Step::Id(13, Err(ErrorKind::PermissionDenied)),
    Step::Id(14, Err(ErrorKind::NotFound)),
    Step::Id(8, Err(ErrorKind::ReadFault)),
];

#[test]
fn a_process_knows_itself_by_its_status(rt: HostRuntime) {
    assert!(rt; holds(rt.alloc(), 7, &[&STATUSES, &IDS]), "ids");
    assert!(rt; holds(rt.alloc(), 7, &[&STATUSES, &REFUSED]), "refusals");
}
