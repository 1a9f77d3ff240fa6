//! The files of the system, of whose worlds nothing is told.

ghost use Rattle.std.specs.Prelude.{◌≡◌, ◌==◌, ◌≤◌, length, option_map, IfOk, IfSome, IsErrOf};
ghost use Rattle.bz_files.specs.Count.{CountsFaults};
ghost use Rattle.bz_files.specs.Looks.{most_bytes, after_failure, after_look, after_read};
ghost use Rattle.bz_files.specs.Whole.{readable, IsWholeFile};
ghost use Rattle.bz_files.specs.World.{Told};
ghost use Rattle.bz_files.specs.Cause.{failure_of};
ghost use Rattle.std.specs.Fs.{metadata_len};
ghost use Rattle.std.specs.IoError.{error_kind};
ghost use Rattle.std.specs.List.{list_any};

use crate::counter::Counter;
use crate::files::{FileError, Files, StampedBytes};
use crate::stamp::Stamp;
use std::alloc::Global;
use std::fs::{File, Metadata, OpenFile};
use std::io::{self, ErrorKind, Read};
use std::marker::Model;
use std::os::unix::fs::MetadataExt;
use std::{fs, rt};

/// The greatest length of a file that is read, in bytes.
const MOST_BYTES: u64 = 1073741824;

/// The files that a runtime reaches. Reading one of more than 1 GiB is a fault.
#[derive(Drop)]
pub struct RealFiles<R: Drop> {
    rt: R,
    pid: u32,
    faults: Counter,
    opens: Counter,
}

impl<R: Drop> Model for RealFiles<R> {
    ghost use Rattle.bz_files.specs.Looks.{Looks};

    ghost Value = { Looks };

    ghost view = { λ a. record { faults = a.faults; opens = a.opens; pid = a.pid } };
}

impl<R: rt::Files + Drop> RealFiles<R> {
    /// The files of the runtime, of which none was looked at yet.
    pub fn new(rt: R, own_pid: u32) -> RealFiles<R>
        ensures { result ≡ record { faults = 0; opens = 0; pid = own_pid } }
    {
        RealFiles {
            rt,
            pid: own_pid,
            faults: Counter::new(),
            opens: Counter::new(),
        }
    }

    /// How many looks ended in a `Fault`.
    pub fn faults(&self) -> u64
        ensures { result ≡ self.now.faults }
    {
        self.faults.get()
    }

    /// How many files were read.
    pub fn opens(&self) -> u64
        ensures { result ≡ self.now.opens }
    {
        self.opens.get()
    }

    /// Counts the fault, if this is one.
    fn count_fault(&mut self, failed: FileError) -> FileError
        ensures same { result ≡ failed }
        ensures after { self.new ≡ after_failure failed self.old }
        ensures faults { CountsFaults self.old.faults self.new.faults (failed ≡ FileError.Fault) }
    {
        if failed == FileError::Fault {
            self.faults.add_one();
        }
        failed
    }
}

impl<R: rt::Files + Drop> Files for RealFiles<R> {
    ghost use Rattle.std.specs.Prelude.{None};

    ghost worlds = { λ _. None };

    ghost faults = { λ files. files.faults };

    ghost opens = { λ files. files.opens };

    ghost pid = { λ files. files.pid };

    fn begin(&mut self)
        ensures { self.new ≡ self.old }
    {}

    fn own_pid(&self) -> u32 {
        self.pid
    }

    fn stat(&mut self, path: &str) -> Result<Stamp, FileError>
        ensures state { self.new ≡ after_look result self.old }
        ensures faults { CountsFaults self.old.faults self.new.faults (IsErrOf result FileError.Fault) }
        ensures no_memory { IsErrOf result FileError.OutOfMemory → ⊥ }
    {
        match stamp_at(&self.rt, path) {
            Ok(stamp) => Ok(stamp),
            Err(failed) => Err(self.count_fault(failed)),
        }
    }

    fn read(&mut self, alloc: Global, path: &str) -> Result<Vec<u8>, FileError>
        ensures whole { IfOk result (λ bytes. IsWholeFile R.File.remaining bytes.items) }
        ensures within { IfOk result (λ bytes. length bytes.items ≤ most_bytes) }
        ensures state { self.new ≡ after_read result self.old }
        ensures faults { CountsFaults self.old.faults self.new.faults (IsErrOf result FileError.Fault) }
    {
        let read = self.read_stamped(alloc, path)?;
        Ok(read.bytes)
    }

    fn read_stamped(&mut self, alloc: Global, path: &str) -> Result<StampedBytes, FileError>
        ensures whole { IfOk result (λ read. IsWholeFile R.File.remaining read.bytes.items) }
        ensures within { IfOk result (λ read. length read.bytes.items ≤ most_bytes) }
        ensures state { self.new ≡ after_read result self.old }
        ensures faults { CountsFaults self.old.faults self.new.faults (IsErrOf result FileError.Fault) }
    {
        match bytes_at(&self.rt, alloc, path) {
            Ok(read) => {
                self.opens.add_one();
                Ok(read)
            }
            Err(failed) => Err(self.count_fault(failed)),
        }
    }
}

/// The stamp of the file at the path, from what the system says of it.
fn stamp_at<R: rt::Files>(rt: &R, path: &str) -> Result<Stamp, FileError>
    ensures no_memory { IsErrOf result FileError.OutOfMemory → ⊥ }
{
    match fs::metadata(rt, path) {
        Ok(found) => Ok(stamp_of(&found)),
        Err(failed) => match cause_of(path, failed) {
            FileError::NotFound => Err(FileError::NotFound),
            FileError::Denied => Err(FileError::Denied),
            // A look takes no memory of its own, so this is the system's trouble.
            FileError::Fault | FileError::OutOfMemory => Err(FileError::Fault),
        },
    }
}

/// The stamp of a file of which the system says this.
fn stamp_of(found: &Metadata) -> Stamp
    ensures { result.size ≡ metadata_len found.now }
{
    Stamp {
        dev: found.dev(),
        inode: found.ino(),
        size: found.size(),
        mtime_sec: found.mtime(),
        mtime_nsec: found.mtime_nsec(),
    }
}

/// The bytes of the file at the path, with its stamp. A file longer than `MOST_BYTES` is a fault.
fn bytes_at<R: rt::Files>(rt: &R, alloc: Global, path: &str) -> Result<StampedBytes, FileError>
    ensures whole { IfOk result (λ read. IsWholeFile R.File.remaining read.bytes.items) }
    ensures within { IfOk result (λ read. length read.bytes.items ≤ most_bytes) }
{
    match read_file(rt, alloc, path) {
        Ok(read) => Ok(read),
        Err(failed) => Err(cause_of(path, failed)),
    }
}

/// The bytes of the file at the path, with its stamp. Both are those of the file that was opened, also
/// where the path names another meanwhile.
fn read_file<R: rt::Files>(rt: &R, alloc: Global, path: &str) -> io::Result<StampedBytes>
    ensures whole { IfOk result (λ read. IsWholeFile R.File.remaining read.bytes.items) }
    ensures within { IfOk result (λ read. length read.bytes.items ≤ most_bytes) }
{
    let file = File::open(rt, path)?;
    let stamp = stamp_of(&file.metadata()?);
    if stamp.size > MOST_BYTES {
        return Err(io::Error::from(ErrorKind::FileTooLarge));
    }
    // What the system says of the length binds no file: it may grow, or have none to tell. So the
    // length only makes room, with one byte more, so that the end is seen without the bytes being
    // moved.
    match read_whole(alloc, file, stamp.size as usize + 1)? {
        Some(bytes) => Ok(StampedBytes { stamp, bytes }),
        None => Err(io::Error::from(ErrorKind::FileTooLarge)),
    }
}

/// All bytes that the reader has left, in one pass, unless they are too many.
fn read_whole<R: Read + Drop>(alloc: Global, reader: R, room: usize) -> io::Result<Option<Vec<u8>>>
    ensures whole { Told (R.remaining reader) (λ left. IfOk result (λ read. option_map (λ bytes. bytes.items) read ≡ readable left)) }
    ensures within { IfOk result (λ read. IfSome read (λ bytes. length bytes.items ≤ most_bytes)) }
{
    let mut bytes = Vec::with_capacity(alloc, room)?;
    // One byte past the limit is enough to see that there are too many.
    reader.take(MOST_BYTES + 1).read_to_end(&mut bytes)?;
    if bytes.len() as u64 > MOST_BYTES {
        Ok(None)
    } else {
        Ok(Some(bytes))
    }
}

/// Why a look at the path failed. A path at which no file can be is absent.
fn cause_of(path: &str, failed: io::Error) -> FileError
    ensures { result ≡ failure_of (list_any (λ byte. byte == 0) path.now) (error_kind failed) }
{
    match failed.kind() {
        ErrorKind::NotFound | ErrorKind::NotADirectory | ErrorKind::InvalidFilename => {
            FileError::NotFound
        }
        ErrorKind::InvalidInput if path.as_bytes().contains(&0) => FileError::NotFound,
        ErrorKind::PermissionDenied => FileError::Denied,
        ErrorKind::OutOfMemory => FileError::OutOfMemory,
        _ => FileError::Fault,
    }
}
