//! Files in memory of which no look fails.

ghost use Rattle.std.specs.Prelude.{◌≡◌, IfOk, IsOkUnless};
ghost use Rattle.bz_base.specs.declared.error.Error.{Error};
ghost use Rattle.bz_files.specs.MemWorlds.{after_put, new_worlds};

use bz_base::Error;
use bz_files::{FileError, Files, MemFiles, Stamp, StampedBytes};
use std::alloc::Global;
use std::marker::Model;

/// Files in memory of which no look fails.
#[derive(Drop)]
pub(crate) struct SteadyFiles {
    files: MemFiles,
}

impl Model for SteadyFiles {
    ghost use Rattle.std.specs.Prelude.{◌≡◌, []};
    ghost use Rattle.bz_files.specs.MemWorlds.{MemWorlds, coded_mem_worlds};

    ghost Value = { MemWorlds };

    ghost coded = { coded_mem_worlds };

    ghost view = { λ a. a.files };

    ghost invariant = { λ a. a.files.failing ≡ [] };
}

impl SteadyFiles {
    /// The file with these bytes at the path, and nothing else.
    pub(crate) fn of_file(alloc: Global, path: &str, bytes: Vec<u8>) -> Result<SteadyFiles, Error>
        ensures ok { IfOk result (λ files. files ≡ after_put path.now bytes.items (new_worlds 0)) }
        ensures memory { IsOkUnless result Error.OutOfMemory }
    {
        let mut files = MemFiles::new(alloc, 0);
        files.put(alloc, path, bytes)?;
        Ok(SteadyFiles { files })
    }
}

impl Files for SteadyFiles {
    ghost use Rattle.std.specs.Prelude.{Some};

    ghost worlds = { λ a. Some a.worlds };

    ghost faults = { λ _. 0 };

    ghost opens = { λ a. a.opens };

    ghost pid = { λ a. a.pid };

    fn begin(&mut self) {
        self.files.begin();
    }

    fn own_pid(&self) -> u32 {
        self.files.own_pid()
    }

    fn stat(&mut self, path: &str) -> Result<Stamp, FileError> {
        self.files.stat(path)
    }

    fn read(&mut self, alloc: Global, path: &str) -> Result<Vec<u8>, FileError> {
        self.files.read(alloc, path)
    }

    fn read_stamped(&mut self, alloc: Global, path: &str) -> Result<StampedBytes, FileError> {
        self.files.read_stamped(alloc, path)
    }
}
