//! What failures of the system answer.

use bz_files::{FileError, Files, RealFiles};
use std::alloc::Global;
use std::cell::Cell;
use std::fs;
use std::io::{self, ErrorKind};

/// A runtime whose first look fails in one way, if it is at `/a`. Any further look finds nothing, and
/// a look at another path is refused.
#[derive(Drop)]
struct Failing {
    kind: Cell<ErrorKind>,
}

impl Failing {
    fn look<T>(&self, path: &str) -> io::Result<T> {
        let kind = if path == "/a" {
            self.kind.replace(ErrorKind::NotFound)
        } else {
            ErrorKind::Unsupported
        };
        Err(io::Error::from(kind))
    }
}

impl std::rt::Files for Failing {
    type File = fs::File;

    type Dir = &'static [u8];

    fn open_file(&self, _how: &fs::OpenOptions, path: &str) -> io::Result<fs::File> {
        self.look(path)
    }

    fn open_dir(&self, path: &str) -> io::Result<&'static [u8]> {
        self.look(path)
    }

    fn metadata(&self, path: &str) -> io::Result<fs::Metadata> {
        self.look(path)
    }

    fn symlink_metadata(&self, path: &str) -> io::Result<fs::Metadata> {
        self.look(path)
    }

    fn copy(&self, _from: &str, to: &str) -> io::Result<u64> {
        self.look(to)
    }

    fn rename(&self, _from: &str, to: &str) -> io::Result<()> {
        self.look(to)
    }

    fn remove_file(&self, path: &str) -> io::Result<()> {
        self.look(path)
    }

    fn create_dir(&self, path: &str) -> io::Result<()> {
        self.look(path)
    }

    fn remove_dir(&self, path: &str) -> io::Result<()> {
        self.look(path)
    }

    fn remove_dir_all<B: std::alloc::Allocator>(&self, _alloc: B, path: &str) -> io::Result<()> {
        self.look(path)
    }
}

/// Failures, with their answers at a look and at a read.
static ANSWERS: [(ErrorKind, FileError, FileError); 4] = [
    (
        ErrorKind::NotFound,
        FileError::NotFound,
        FileError::NotFound,
    ),
    (
        ErrorKind::PermissionDenied,
        FileError::Denied,
        FileError::Denied,
    ),
    (
        ErrorKind::OutOfMemory,
        FileError::Fault,
        FileError::OutOfMemory,
    ),
    (ErrorKind::Other, FileError::Fault, FileError::Fault),
];

/// Files over a runtime whose first look fails so.
fn first_fails(kind: ErrorKind) -> RealFiles<Failing> {
    let kind = Cell::new(kind);
    RealFiles::new(Failing { kind }, 0)
}

/// Whether only a fault is counted.
fn is_counted(files: &RealFiles<Failing>, answer: FileError) -> bool {
    files.faults() == u64::from(answer == FileError::Fault)
}

/// Whether a failure has these answers at a look and at a read, each the first one.
fn fails_as(alloc: Global, kind: ErrorKind, stat: FileError, read: FileError) -> bool {
    let mut looked = first_fails(kind);
    let mut opened = first_fails(kind);
    looked.stat("/a") == Err(stat)
        && is_counted(&looked, stat)
        && opened.read(alloc, "/a").err() == Some(read)
        && is_counted(&opened, read)
}

#[test]
fn each_failure_of_the_system_has_its_answer(rt: HostRuntime) {
    let answers = &ANSWERS;
    for index in 0..answers.len() {
        let (kind, stat, read) = answers[index];
        assert!(rt; fails_as(rt.alloc(), kind, stat, read), "row {index}");
    }
}
