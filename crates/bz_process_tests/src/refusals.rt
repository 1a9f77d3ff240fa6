//! What a refusal leaves of what is kept of a process.

use crate::caching::{CACHED, IS_LATER, IS_UNKEPT, STANDS_ALONE};
use crate::files::LATER;
use crate::steps::{Step, holds};
use bz_base::Error;
use bz_process::NoDispatch;
use std::alloc::Global;

/// Steps by which process 7 isn't cached of the later files: a file is absent, denied or damaged, or a
/// look fails.
static REFUSED: [&[Step]; 8] = [
    &[
        Step::Files(LATER),
        Step::Remove("/proc/7/maps"),
        Step::Cache(true, true, Err(Error::NotFound)),
    ],
    &[
        Step::Files(LATER),
        Step::Deny("/proc/7/maps"),
        Step::Cache(true, true, Err(Error::PermissionDenied)),
    ],
    &[
        Step::Files(LATER),
        Step::Put("/proc/7/maps", b"x\n"),
        Step::Cache(true, true, Err(Error::InvalidData)),
    ],
    &[
        Step::Files(LATER),
        Step::Deny("/proc/7/root/tmp/perf-7.map"),
        Step::Cache(true, true, Err(Error::PermissionDenied)),
    ],
    &[
        Step::Files(LATER),
        Step::Put("/proc/7/root/tmp/perf-7.map", b"123\n"),
        Step::Cache(true, true, Err(Error::InvalidData)),
    ],
    // One of the first three looks fails: at mappings, perf map, or status where it isn't remembered.
    &[
        Step::Files(LATER),
        Step::Fail(1),
        Step::Cache(true, true, Err(Error::ReadFault)),
        Step::Faults(1),
    ],
    &[
        Step::Files(LATER),
        Step::Fail(2),
        Step::Cache(true, true, Err(Error::ReadFault)),
        Step::Faults(1),
    ],
    &[
        Step::Files(LATER),
        Step::Fail(3),
        Step::Cache(true, true, Err(Error::ReadFault)),
        Step::Faults(1),
    ],
];

/// The same where the process isn't remembered, so that its status is read too.
static REFUSED_UNKNOWN: [&[Step]; 4] = [
    &[
        Step::Files(LATER),
        Step::Remove("/proc/7/status"),
        Step::Cache(true, true, Err(Error::NotFound)),
    ],
    &[
        Step::Files(LATER),
        Step::Deny("/proc/7/status"),
        Step::Cache(true, true, Err(Error::PermissionDenied)),
    ],
    &[
        Step::Files(LATER),
        Step::Put("/proc/7/status", b"NStgid:\n"),
        Step::Cache(true, true, Err(Error::InvalidData)),
    ],
    &[
        Step::Files(LATER),
        Step::Fail(4),
        Step::Cache(true, true, Err(Error::ReadFault)),
        Step::Faults(1),
    ],
];

/// The first of the rows whose steps don't hold between what comes before them and after them.
fn first_wrong(
    alloc: Global,
    before: &'static [Step],
    rows: &[&'static [Step]],
    after: &'static [Step],
) -> Option<usize> {
    for index in 0..rows.len() {
        if !holds(alloc, NoDispatch, &[before, rows[index], after]) {
            return Some(index);
        }
    }
    None
}

#[test]
fn a_refusal_keeps_nothing(rt: HostRuntime) {
    let refused = first_wrong(rt.alloc(), &[], &REFUSED, IS_UNKEPT);
    assert!(rt; refused == None, "refused, row {refused:?}");
    let unknown = first_wrong(rt.alloc(), &[], &REFUSED_UNKNOWN, IS_UNKEPT);
    assert!(rt; unknown == None, "not remembered, row {unknown:?}");
}

/// Steps by which process 7 is cached anew, though its status is absent, denied or damaged.
static CACHED_ANEW: [&[Step]; 3] = [
    &[
        Step::Files(LATER),
        Step::Remove("/proc/7/status"),
        Step::Cache(true, true, Ok(())),
    ],
    &[
        Step::Files(LATER),
        Step::Deny("/proc/7/status"),
        Step::Cache(true, true, Ok(())),
    ],
    &[
        Step::Files(LATER),
        Step::Put("/proc/7/status", b"NStgid:\n"),
        Step::Cache(true, true, Ok(())),
    ],
];

#[test]
fn a_cached_process_stays_or_is_cached_anew(rt: HostRuntime) {
    let refused = first_wrong(rt.alloc(), CACHED, &REFUSED, STANDS_ALONE);
    assert!(rt; refused == None, "refused, row {refused:?}");
    let anew = first_wrong(rt.alloc(), CACHED, &CACHED_ANEW, IS_LATER);
    assert!(rt; anew == None, "cached anew, row {anew:?}");
}
