//! Texts of the system that are cut: mappings, perf maps and a status.

use crate::perf_maps::PYTHON;
use bz_base::{Error, Pid};
use bz_proc::{PerfMap, parse_maps, parse_ns_tgid};
use bz_samples::THREE_MAPPINGS;
use std::alloc::Global;

/// From how many bytes on, up to how many, and how many mappings a text of three tells then. It is
/// refused where its last line doesn't reach to its inode.
static MAPPINGS: [(usize, usize, Option<usize>); 7] = [
    (0, 0, Some(0)),
    (1, 30, None),
    (31, 42, Some(1)),
    (43, 72, None),
    (73, 74, Some(2)),
    (75, 104, None),
    (105, 113, Some(3)),
];

/// Whether the text, cut to this length, tells so many mappings, or else is refused.
fn tells_mappings(alloc: Global, len: usize, expected: Option<usize>) -> bool {
    let Some(front) = THREE_MAPPINGS.get(..len) else {
        return false;
    };
    match parse_maps(alloc, Pid::Slf, front) {
        Ok(entries) => expected == Some(entries.len()),
        Err(error) => expected == None && error == Error::InvalidData,
    }
}

/// From how many bytes on, up to how many, and whether a perf map of three functions is taken then. It
/// isn't where its last line doesn't reach to its name.
static PERF_MAPS: [(usize, usize, bool); 7] = [
    (0, 0, true),
    (1, 14, false),
    (15, 61, true),
    (62, 75, false),
    (76, 108, true),
    (109, 122, false),
    (123, 220, true),
];

/// Whether the perf map, cut to this length, is taken as is expected, or else refused as no perf map.
fn is_taken_as(alloc: Global, len: usize, expected: bool) -> bool {
    let Some(front) = PYTHON.get(..len) else {
        return false;
    };
    let Ok(bytes) = Vec::from_slice(alloc, front) else {
        return false;
    };
    match PerfMap::parse(alloc, bytes) {
        Ok(_) => expected,
        Err(error) => !expected && error == Error::InvalidData,
    }
}

/// A status with three ids.
const STATUS: &[u8] = b"Name:\tcat\nNStgid:\t1337\t12\t5\n";

/// From how many bytes on, up to how many, and what the status tells then: an id, none, or a refusal.
static IDS: [(usize, usize, Result<Option<u32>, Error>); 9] = [
    (0, 16, Ok(None)),
    // The label alone, and with a blank behind it.
    (17, 18, Err(Error::InvalidData)),
    (19, 19, Ok(Some(1))),
    (20, 20, Ok(Some(13))),
    (21, 21, Ok(Some(133))),
    (22, 23, Ok(Some(1337))),
    (24, 24, Ok(Some(1))),
    (25, 26, Ok(Some(12))),
    (27, 28, Ok(Some(5))),
];

/// Whether the text, cut to this length, tells this.
fn tells_id(len: usize, expected: &Result<Option<u32>, Error>) -> bool {
    match STATUS.get(..len) {
        Some(front) => parse_ns_tgid(front) == *expected,
        None => false,
    }
}

#[test]
fn cut_texts_are_told_or_refused(rt: HostRuntime) {
    let mappings = &MAPPINGS;
    for index in 0..mappings.len() {
        let (from, to, count) = mappings[index];
        for len in from..=to {
            assert!(rt;
                tells_mappings(rt.alloc(), len, count),
                "{len} bytes of mappings"
            );
        }
    }
    let perf_maps = &PERF_MAPS;
    for index in 0..perf_maps.len() {
        let (from, to, is_taken) = perf_maps[index];
        for len in from..=to {
            assert!(rt;
                is_taken_as(rt.alloc(), len, is_taken),
                "{len} bytes of a perf map"
            );
        }
    }
    let ids = &IDS;
    for index in 0..ids.len() {
        let (from, to, id) = ids[index];
        for len in from..=to {
            assert!(rt; tells_id(len, &id), "{len} bytes of a status");
        }
    }
}
