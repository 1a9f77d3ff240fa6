//! The files of processes that are asked.

use bz_files::MemFiles;
use std::alloc::Global;

/// A path, and the bytes that lie there.
pub(crate) type File = (&'static str, &'static [u8]);

/// Other files of process 7 than those that all tests know.
pub(crate) const LATER: &[File] = &[
    ("/proc/7/maps", b"3000-5000 rw-p 00000000 00:00 0\n"),
    ("/proc/7/status", b"Name:\ty\n"),
    ("/proc/7/root/tmp/perf-7.map", b"3000 10 later\n"),
];

/// Puts bytes at a path. Says whether there was memory.
pub(crate) fn put(alloc: Global, files: &mut MemFiles, path: &str, bytes: &[u8]) -> bool {
    bz_samples::put(alloc, files, path, bytes).is_ok()
}

/// Lets these be the only files, at which nobody looked yet. Says whether there was memory.
pub(crate) fn replace(alloc: Global, files: &mut MemFiles, all: &[File]) -> bool {
    *files = MemFiles::new(alloc, 0);
    for (path, bytes) in all {
        if !put(alloc, files, path, bytes) {
            return false;
        }
    }
    true
}
