//! What a symbolizer asks of files.

ghost use Rattle.std.specs.Prelude.{◌≡◌, ℕ, List, Option, option_map, OnOk, OnErr, IsErrOf};
ghost use Rattle.bz_files.specs.World.{World, Told, in_view, next_worlds, entry_at, IsAnswer};
ghost use Rattle.bz_files.specs.Count.{CountsFaults, counted};
ghost use Rattle.bz_files.specs.Refusal.{error_of};

use crate::stamp::Stamp;
use bz_base::Error;
use std::alloc::Global;

/// Why a look at a file failed.
#[derive(Clone, Copy, PartialEq, Eq)]
pub enum FileError {
    /// There is no file at the path.
    NotFound,
    /// The file may not be read.
    Denied,
    /// Looking failed, and the count of faults rose.
    Fault,
    /// Memory ran out.
    OutOfMemory,
}

/// The bytes of a file that was opened, and its stamp.
#[derive(Drop)]
pub struct StampedBytes {
    /// The stamp that it had when it was opened.
    pub stamp: Stamp,
    /// All its bytes.
    pub bytes: Vec<u8>,
}

/// Files by their paths, one world of them in view. What a world holds may be told or not.
pub trait Files {
    /// The world in view, and after it those to come; none where nothing is told.
    ghost worlds: { Self → Option (List World) };

    /// How many looks ended in a `Fault`. It rises by one at each, unless it is at its last value,
    /// and at no other answer.
    ghost faults: { Self → ℕ };

    /// How many files were read.
    ghost opens: { Self → ℕ };

    /// The id of the own process.
    ghost pid: { Self → ℕ };

    /// Brings the next world into view, if there is one.
    fn begin(&mut self)
        ensures worlds { worlds self.new ≡ option_map next_worlds (worlds self.old) }
        ensures faults { faults self.new ≡ faults self.old }
        ensures opens { opens self.new ≡ opens self.old }
        ensures pid { pid self.new ≡ pid self.old };

    /// The id of the own process.
    fn own_pid(&self) -> u32
        ensures { result ≡ pid self.now };

    /// The stamp of the file at the path.
    fn stat(&mut self, path: &str) -> Result<Stamp, FileError>
        ensures answer { Told (in_view (worlds self.old)) (λ world. IsAnswer (λ given stamp bytes. given ≡ stamp) (entry_at world path.now) result) }
        ensures worlds { worlds self.new ≡ worlds self.old }
        ensures opens { opens self.new ≡ opens self.old }
        ensures pid { pid self.new ≡ pid self.old }
        ensures faults { CountsFaults (faults self.old) (faults self.new) (IsErrOf result FileError.Fault) }
        ensures no_memory { IsErrOf result FileError.OutOfMemory → ⊥ };

    /// The bytes of the file at the path.
    fn read(&mut self, alloc: Global, path: &str) -> Result<Vec<u8>, FileError>
        ensures answer { Told (in_view (worlds self.old)) (λ world. IsAnswer (λ given stamp bytes. given.items ≡ bytes) (entry_at world path.now) result) }
        ensures worlds { worlds self.new ≡ worlds self.old }
        ensures opened { OnOk result (opens self.new ≡ counted (opens self.old)) }
        ensures unopened { OnErr result (opens self.new ≡ opens self.old) }
        ensures pid { pid self.new ≡ pid self.old }
        ensures faults { CountsFaults (faults self.old) (faults self.new) (IsErrOf result FileError.Fault) };

    /// The bytes of the file at the path, with the stamp that the file had when it was opened.
    fn read_stamped(&mut self, alloc: Global, path: &str) -> Result<StampedBytes, FileError>
        ensures answer { Told (in_view (worlds self.old)) (λ world. IsAnswer (λ given stamp bytes. (given.stamp ≡ stamp) × (given.bytes.items ≡ bytes)) (entry_at world path.now) result) }
        ensures worlds { worlds self.new ≡ worlds self.old }
        ensures opened { OnOk result (opens self.new ≡ counted (opens self.old)) }
        ensures unopened { OnErr result (opens self.new ≡ opens self.old) }
        ensures pid { pid self.new ≡ pid self.old }
        ensures faults { CountsFaults (faults self.old) (faults self.new) (IsErrOf result FileError.Fault) };
}

impl From<FileError> for Error {
    ghost from_gives = { λ failed refusal. refusal ≡ error_of failed };

    fn from(failed: FileError) -> Error {
        match failed {
            FileError::NotFound => Error::NotFound,
            FileError::Denied => Error::PermissionDenied,
            FileError::Fault => Error::ReadFault,
            FileError::OutOfMemory => Error::OutOfMemory,
        }
    }
}
