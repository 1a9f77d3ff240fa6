//! How a process is asked.

use bz_base::{FindSymOpts, Pid};

/// How a process is asked.
#[derive(Clone, Copy)]
pub struct ProcessQuery {
    /// The process.
    pub pid: Pid,
    /// Whether its perf map answers for addresses of mappings without a name.
    pub perf_map: bool,
    /// Whether mapped files are looked at by the paths that stand for their mappings. Only a privileged
    /// caller may read these, but at a file's own path another file may lie by now.
    pub map_files: bool,
}

/// What a call asks: of which process and how, and what of each symbol.
#[derive(Clone, Copy)]
pub(crate) struct ProcessQuestion<'a> {
    /// Of which process, and how.
    pub(crate) query: &'a ProcessQuery,
    /// What of each symbol.
    pub(crate) opts: &'a FindSymOpts,
}
