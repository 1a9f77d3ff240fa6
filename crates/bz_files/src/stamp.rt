//! What tells two versions of a file apart.

/// The stamp of a file's version: equal stamps are taken to mean equal bytes.
#[derive(Clone, Copy, Debug, PartialEq, Eq, PartialOrd, Ord, Hash)]
pub struct Stamp {
    /// The device that the file is on.
    pub dev: u64,
    /// The file's number on its device.
    pub inode: u64,
    /// The file's length, in bytes.
    pub size: u64,
    /// When the file was last modified: seconds since the Unix epoch.
    pub mtime_sec: i64,
    /// The nanoseconds past that second.
    pub mtime_nsec: i64,
}
