//! Files in memory.

use bz_files::MemFiles;
use bz_samples::put;
use std::alloc::Global;

/// A path, and the bytes of the file that is put there.
pub(crate) type File = (&'static str, &'static [u8]);

/// Puts the files. Says whether memory was left.
pub(crate) fn put_all(alloc: Global, files: &mut MemFiles, all: &[File]) -> bool {
    for (path, bytes) in all {
        if put(alloc, files, path, bytes).is_err() {
            return false;
        }
    }
    true
}
