//! A file that is replaced between a look at it and its being read.

ghost use Rattle.std.specs.Prelude.{◌≡◌};

use crate::file_cache::{Note, answers, put};
use bz_cache::FileCache;
use bz_files::{FileError, Files, MemFiles, Stamp, StampedBytes};
use std::alloc::Global;
use std::marker::Model;

/// Files in memory that tell nothing. The next world comes into view before each read.
#[derive(Drop)]
struct ReplacedFiles {
    files: MemFiles,
}

impl Model for ReplacedFiles {
    ghost use Rattle.bz_files.specs.MemWorlds.{MemWorlds, coded_mem_worlds};

    ghost Value = { MemWorlds };

    ghost coded = { coded_mem_worlds };

    ghost view = { λ a. a.files };
}

impl Files for ReplacedFiles {
    ghost use Rattle.std.specs.Prelude.{None};

    ghost worlds = { λ _. None };

    ghost faults = { λ a. a.faults };

    ghost opens = { λ a. a.opens };

    ghost pid = { λ a. a.pid };

    fn begin(&mut self) {
        self.files.begin();
    }

    fn own_pid(&self) -> u32 {
        self.files.own_pid()
    }

    fn stat(&mut self, path: &str) -> Result<Stamp, FileError> {
        self.files.stat(path)
    }

    fn read(&mut self, alloc: Global, path: &str) -> Result<Vec<u8>, FileError> {
        self.files.begin();
        self.files.read(alloc, path)
    }

    fn read_stamped(&mut self, alloc: Global, path: &str) -> Result<StampedBytes, FileError> {
        self.files.begin();
        self.files.read_stamped(alloc, path)
    }
}

/// The stamps of a file at `/s` and of the one that replaces it.
fn replace(alloc: Global, files: &mut MemFiles) -> Option<(Stamp, Stamp)> {
    let looked = put(alloc, files, b"V1")?;
    files.schedule(alloc).ok()?;
    let opened = put(alloc, files, b"V2")?;
    Some((looked, opened))
}

/// Whether a replaced file is read once, and kept under its own stamp alone.
fn is_kept_as_opened(alloc: Global) -> bool {
    let mut files = ReplacedFiles {
        files: MemFiles::new(alloc, 0),
    };
    let Some((looked, opened)) = replace(alloc, &mut files.files) else {
        return false;
    };
    let mut cache = FileCache::<Note>::builder().build(alloc);
    answers(&mut cache, alloc, &mut files, "/s", b"V2")
        && cache.is_kept(&opened)
        && !cache.is_kept(&looked)
        && answers(&mut cache, alloc, &mut files, "/s", b"V2")
        && files.files.opens() == 1
}

#[test]
fn a_replaced_file_is_kept_under_its_own_stamp(rt: HostRuntime) {
    assert!(rt; is_kept_as_opened(rt.alloc()));
}
