//! Files in memory.

ghost use Rattle.std.specs.Prelude.{◌≡◌, None, IsTrue};
ghost use Rattle.bz_files.specs.MemWorlds.{first_world};
ghost use Rattle.bz_files.specs.World.{entry_at};

use bz_base::Error;
use bz_files::{FileError, Files, MemFiles, Stamp};
use std::alloc::Global;

/// Whether the file at `/a` has this text.
fn has_text(alloc: Global, files: &mut MemFiles, text: &str) -> bool {
    match files.read(alloc, "/a") {
        Ok(bytes) => bytes.as_slice() == text.as_bytes(),
        Err(_) => false,
    }
}

/// Whether the file at `/a` comes with this stamp and this text.
fn has_version(alloc: Global, files: &mut MemFiles, stamp: Stamp, text: &str) -> bool {
    match files.read_stamped(alloc, "/a") {
        Ok(read) => read.stamp == stamp && read.bytes.as_slice() == text.as_bytes(),
        Err(_) => false,
    }
}

/// Puts a text at `/a`. Gives its stamp, where the file is seen.
fn put(alloc: Global, files: &mut MemFiles, text: &str) -> Result<Option<Stamp>, Error> {
    files.put(alloc, "/a", text.as_bytes().to_vec(alloc)?)
}

/// Puts a text at `/a`, the same file at `/b`, and then another text at `/a` under the same stamp.
/// Gives this stamp.
fn put_two(alloc: Global, files: &mut MemFiles) -> Result<Option<Stamp>, Error> {
    let Some(stamp) = put(alloc, files, "one")? else {
        return Ok(None);
    };
    let linked = files.link(alloc, "/b", "/a")?;
    files.put_as(alloc, "/a", stamp, b"two".to_vec(alloc)?)?;
    Ok(if linked { Some(stamp) } else { None })
}

/// Whether the looks answer by what was put, and the fourth one fails.
fn answers_in_turn(alloc: Global, files: &mut MemFiles, stamp: Stamp) -> bool {
    files.stat("/b") == Ok(stamp)
        && has_version(alloc, files, stamp, "two")
        && files.stat("/c") == Err(FileError::Denied)
        && files.stat("/b") == Err(FileError::Fault)
}

/// Whether what is at a path is taken away once, and all that happened is counted.
fn removes_and_counts(files: &mut MemFiles) -> bool {
    let removed = files.remove("/b") && !files.remove("/b");
    removed && files.faults() == 1 && files.opens() == 1 && files.own_pid() == 7
}

/// Whether files hold what is put, one that may not be read, and a look that fails.
fn holds(alloc: Global, files: &mut MemFiles) -> Result<bool, Error> {
    files.begin();
    let Some(stamp) = put_two(alloc, files)? else {
        return Ok(false);
    };
    files.deny(alloc, "/c")?;
    files.fail_call(alloc, 4)?;
    Ok(answers_in_turn(alloc, files, stamp) && removes_and_counts(files))
}

#[test]
fn memory_files_answer_as_they_were_edited(rt: HostRuntime) {
    let held = holds(rt.alloc(), &mut MemFiles::new(rt.alloc(), 7)) == Ok(true);
    assert!(rt; held);
}

/// What the file at `/a` holds in each world that is scheduled.
static TEXTS: [&str; 3] = ["one", "two", "three"];

/// Schedules these worlds, behind a first one that is empty.
fn schedule(alloc: Global, files: &mut MemFiles) -> Result<(), Error> {
    for text in &TEXTS {
        files.schedule(alloc)?;
        put(alloc, files, text)?;
    }
    Ok(())
}

/// Whether the scheduled worlds come into view one by one, and the last one stays.
fn come_in_turn(alloc: Global, files: &mut MemFiles) -> bool {
    for text in &TEXTS {
        files.begin();
        if !has_text(alloc, files, text) {
            return false;
        }
    }
    files.begin();
    has_text(alloc, files, "three")
}

/// Whether nothing is at the path in the world in view. Files in memory always have one.
fn is_absent(files: &mut MemFiles, path: &str) -> bool
    ensures { IsTrue result → entry_at (first_world files.old.worlds) path.now ≡ None }
{
    matches!(files.stat(path), Err(FileError::NotFound))
}

/// Whether the worlds are seen in turn, and an edit of the last one too.
fn are_seen(alloc: Global, files: &mut MemFiles) -> Result<bool, Error> {
    schedule(alloc, files)?;
    // The last world is in view once all have come, and it is the one that edits change.
    Ok(
        is_absent(files, "/a")
            && come_in_turn(alloc, files)
            && files.remove("/a")
            && is_absent(files, "/a"),
    )
}

#[test]
fn memory_worlds_come_in_turn_and_the_last_is_edited(rt: HostRuntime) {
    let seen = are_seen(rt.alloc(), &mut MemFiles::new(rt.alloc(), 7)) == Ok(true);
    assert!(rt; seen);
}
