//! Files of the system.

use bz_files::{FileError, Files, RealFiles};
use std::alloc::Global;
use std::fs::{FileTimes, OpenFile};
use std::os::unix::fs::symlink;
use std::time::{Duration, SystemTime};
use std::{fs, io};

/// Whether a look at the file of seven bytes tells its stamp, and the same by another path.
fn has_stamp<F: Files>(files: &mut F) -> bool {
    match files.stat("bz_files_real") {
        Ok(stamp) => stamp.size == 7
            && stamp.inode > 0
            && stamp.mtime_sec > 1_600_000_000
            && files.stat("./bz_files_real") == Ok(stamp),
        Err(_) => false,
    }
}

/// Whether the file of seven bytes comes with the stamp that a look at it tells.
fn comes_with_its_stamp<F: Files>(files: &mut F, alloc: Global) -> bool {
    match files.read_stamped(alloc, "bz_files_real") {
        Ok(read) => read.bytes.len() == 7 && files.stat("bz_files_real") == Ok(read.stamp),
        Err(_) => false,
    }
}

/// Whether the file at the path tells no length.
fn tells_no_length<F: Files>(files: &mut F, path: &str) -> bool {
    match files.stat(path) {
        Ok(stamp) => stamp.size == 0,
        Err(_) => false,
    }
}

/// Whether the file at the path is read, and has this text: all of it, or at its start.
fn has_text<F: Files>(files: &mut F, alloc: Global, path: &str, text: &[u8], whole: bool) -> bool {
    match files.read(alloc, path) {
        Ok(bytes) => bytes.starts_with(text) && (bytes.len() == text.len() || !whole),
        Err(_) => false,
    }
}

/// Whether the file at the path isn't read, for this reason.
fn is_refused<F: Files>(files: &mut F, alloc: Global, path: &str, reason: FileError) -> bool {
    files.read(alloc, path).err() == Some(reason)
}

/// What comes of a path.
enum Outcome {
    /// All of this text, at a read.
    Text,
    /// A text that begins so, at a read.
    Beginning,
    /// No length, at a look.
    NoLength,
    /// No file, at a look and at a read.
    NoFile,
    /// A fault, at a look.
    NoLook,
    /// A fault, at a read.
    NoRead,
}

/// An outcome, with its path and its text, and how many faults and reads are counted after it.
type Row = (Outcome, &'static str, &'static [u8], u64, u64);

/// Files, and paths at which no file can be, of which the last one is too long.
static LOOKED_AT: [Row; 8] = [
    (Outcome::Text, "bz_files_real", b"one two", 0, 2),
    (Outcome::NoFile, "bz_files_absent", b"", 0, 2),
    (Outcome::NoFile, "bz_files_real/inside", b"", 0, 2),
    (Outcome::NoFile, "", b"", 0, 2),
    (Outcome::NoFile, "bz_files\0real", b"", 0, 2),
    (
        Outcome::NoFile,
        "xxxxxxxxxxxxxxxxxxxxxxxxxxxxxxxxxxxxxxxxxxxxxxxxxxxxxxxxxxxxxxxxxxxxxxxxxxxxxxxxxxxxxxxxxxxxxxxxxxxxxxxxxxxxxxxxxxxxxxxxxxxxxxxxxxxxxxxxxxxxxxxxxxxxxxxxxxxxxxxxxxxxxxxxxxxxxxxxxxxxxxxxxxxxxxxxxxxxxxxxxxxxxxxxxxxxxxxxxxxxxxxxxxxxxxxxxxxxxxxxxxxxxxxxxxxxxxxxxxxxxxxxxxxxxxxxxxxxxxxxxxxxxxxxxxxxxxxxxxxx",
        b"",
        0,
        2,
    ),
    (Outcome::NoLength, "/proc/version", b"", 0, 2),
    (Outcome::Beginning, "/proc/version", b"Linux version ", 0, 3),
];

/// A folder, a link to itself and a file that is too long.
static FAILING: [Row; 3] = [
    (Outcome::NoRead, ".", b"", 1, 0),
    (Outcome::NoLook, "bz_files_loop", b"", 2, 0),
    (Outcome::NoRead, "bz_files_long", b"", 3, 0),
];

/// Whether this comes of the path.
fn is_answered<F: Files>(
    files: &mut F,
    alloc: Global,
    outcome: &Outcome,
    path: &str,
    text: &[u8],
) -> bool {
    match outcome {
        Outcome::Text => has_text(files, alloc, path, text, true),
        Outcome::Beginning => has_text(files, alloc, path, text, false),
        Outcome::NoLength => tells_no_length(files, path),
        Outcome::NoFile => files.stat(path) == Err(FileError::NotFound)
            && is_refused(files, alloc, path, FileError::NotFound),
        Outcome::NoLook => files.stat(path) == Err(FileError::Fault),
        Outcome::NoRead => is_refused(files, alloc, path, FileError::Fault),
    }
}

/// Whether all rows are answered and counted so.
fn are_answered<R: std::rt::Files + Drop>(
    files: &mut RealFiles<R>,
    alloc: Global,
    rows: &[Row],
) -> bool {
    for (outcome, path, text, faults, opens) in rows {
        if !is_answered(files, alloc, outcome, path, text)
            || files.faults() != *faults
            || files.opens() != *opens
        {
            return false;
        }
    }
    true
}

/// Whether the files are looked at, and the stamp of one is told.
fn are_looked_at<R: std::rt::Files + Drop>(files: &mut RealFiles<R>, alloc: Global) -> bool {
    files.begin();
    has_stamp(files)
        && comes_with_its_stamp(files, alloc)
        && are_answered(files, alloc, &LOOKED_AT)
        && files.own_pid() == 7
}

/// Whether the stamps of two files are told apart, and the time of the first is told whole.
fn are_told_apart<F: Files>(files: &mut F) -> Result<bool, FileError> {
    let one = files.stat("bz_files_one")?;
    let two = files.stat("bz_files_two")?;
    let timed = one.mtime_sec == 1_234_567_890 && one.mtime_nsec == 987_654_321;
    Ok(timed && one.dev == two.dev && one.dev > 0 && one.inode != two.inode)
}

/// The files that are made.
static MADE: [&str; 5] = [
    "bz_files_real",
    "bz_files_one",
    "bz_files_two",
    "bz_files_loop",
    "bz_files_long",
];

/// Makes the two empty ones. Only the first one's time is set.
fn make_two<R: std::rt::Files>(rt: &R) -> io::Result<()> {
    let changed = Duration::new(1_234_567_890, 987_654_321);
    if let Some(changed) = SystemTime::UNIX_EPOCH.checked_add(changed) {
        let times = FileTimes::new().set_modified(changed);
        fs::create(rt, "bz_files_one")?.set_times(times)?;
    }
    fs::create(rt, "bz_files_two")?;
    Ok(())
}

/// Makes the link, and the file with a hole: one byte too long, and no byte is stored.
fn make_failing<R: std::rt::Files>(rt: &R) -> io::Result<()> {
    symlink(rt, "bz_files_loop", "bz_files_loop")?;
    fs::create(rt, "bz_files_long")?.set_len(1_073_741_825)
}

/// Makes all of them.
fn make<R: std::rt::Files>(rt: &R) -> bool {
    fs::write(rt, "bz_files_real", b"one two".as_slice()).is_ok()
        && make_two(rt).is_ok()
        && make_failing(rt).is_ok()
}

/// Takes them away. Says whether each was there.
fn remove<R: std::rt::Files>(rt: &R) -> bool {
    let mut removed = true;
    for path in &MADE {
        removed = fs::remove_file(rt, *path).is_ok() && removed;
    }
    removed
}

/// The first thing that the files don't answer so; nothing where they answer all.
fn first_to_fail<R: std::rt::Files + Copy + Drop>(rt: &R, alloc: Global) -> &'static str {
    if !are_looked_at(&mut RealFiles::new(*rt, 7), alloc) {
        return "looks and reads";
    }
    if are_told_apart(&mut RealFiles::new(rt, 0)) != Ok(true) {
        return "stamps of two files";
    }
    if !are_answered(&mut RealFiles::new(*rt, 0), alloc, &FAILING) {
        return "failures";
    }
    ""
}

#[test]
fn real_files_are_looked_at_told_apart_and_fail(rt: HostRuntime) {
    let made = make(&rt);
    let failed = first_to_fail(&rt, rt.alloc());
    let removed = remove(&rt);
    assert!(rt; made, "files are made");
    assert!(rt; failed.is_empty(), "{failed}");
    assert!(rt; removed, "files are removed");
}
