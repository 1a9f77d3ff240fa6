//! Files in memory, whose worlds are told.

ghost use Rattle.std.specs.Prelude.{◌≡◌, ◌<◌, ◌≤◌, ◌↔◌, [], ◌∷◌, ◌++◌, length, is_some, option_map, IsTrue, IfOk, OnOk, OnErr, IfSome, IsErrOf, IsOkUnless};
ghost use Rattle.bz_files.specs.Count.{CountsFaults};
ghost use Rattle.bz_files.specs.World.{Denied, Present, entry_at, has_file, with_entry, without_entry, in_view, next_worlds, Told, IsAnswer};
ghost use Rattle.bz_files.specs.MemWorlds.{new_worlds, last_world, on_last, fresh_stamp, after_put, after_link, after_schedule, fails_next, after_look, after_read};
ghost use Rattle.bz_files.specs.Held.{entry_of};

use crate::counter::Counter;
use crate::files::{FileError, Files, StampedBytes};
use crate::stamp::Stamp;
use crate::worlds::{Held, Worlds};
use bz_base::Error;
use std::alloc::Global;
use std::marker::Model;

/// The number of the last fresh stamp.
const LAST_STAMP: u64 = 9223372036854775807;

/// Files in memory: a list of worlds, with looks that can be made to fail. The first world is in view,
/// and edits change the last.
#[derive(Drop)]
pub struct MemFiles {
    worlds: Worlds,
    stamps: u64,
    calls: Counter,
    failing: Vec<u64>,
    faults: Counter,
    opens: Counter,
    pid: u32,
}

impl Model for MemFiles {
    ghost use Rattle.std.specs.Prelude.{◌<◌, ◌≤◌, length};
    ghost use Rattle.bz_files.specs.MemWorlds.{MemWorlds, coded_mem_worlds, last_stamp};

    ghost Value = { MemWorlds };

    ghost coded = { coded_mem_worlds };

    ghost view = { λ a. record { worlds = a.worlds; stamps = a.stamps; calls = a.calls; failing = a.failing.items; faults = a.faults; opens = a.opens; pid = a.pid } };

    ghost invariant = { λ a. (0 < length a.worlds) × (a.stamps ≤ last_stamp) };
}

impl MemFiles {
    /// One empty world, in which nothing failed yet.
    pub fn new(alloc: Global, own_pid: u32) -> MemFiles
        ensures { result ≡ new_worlds own_pid }
    {
        MemFiles {
            worlds: Worlds::new(alloc),
            stamps: 0,
            calls: Counter::new(),
            failing: Vec::new(alloc),
            faults: Counter::new(),
            opens: Counter::new(),
            pid: own_pid,
        }
    }

    /// Puts the bytes at the path under a fresh stamp, and gives this. Where no fresh stamp is left it
    /// gives none, and nothing changes.
    pub fn put(&mut self, alloc: Global, path: &str, bytes: Vec<u8>) -> Result<Option<Stamp>, Error>
        ensures stamp { IfOk result (λ given. given ≡ fresh_stamp self.old.stamps (length bytes.items)) }
        ensures ok { OnOk result (self.new ≡ after_put path.now bytes.items self.old) }
        ensures err { OnErr result (self.new ≡ self.old) }
        ensures memory { IsOkUnless result Error.OutOfMemory }
    {
        let Some(stamp) = fresh(self.stamps, bytes.len()) else {
            return Ok(None);
        };
        self.worlds.hold(alloc, path, Held::Version(stamp, bytes))?;
        self.stamps += 1;
        Ok(Some(stamp))
    }

    /// Puts the bytes at the path under this stamp, which other bytes may have or be given too.
    pub fn put_as(
        &mut self,
        alloc: Global,
        path: &str,
        stamp: Stamp,
        bytes: Vec<u8>,
    ) -> Result<(), Error>
        ensures ok { OnOk result (self.new ≡ record self.old { worlds = on_last (with_entry path.now (Present stamp bytes.items)) self.old.worlds }) }
        ensures err { OnErr result (self.new ≡ self.old) }
        ensures memory { IsOkUnless result Error.OutOfMemory }
    {
        self.worlds.hold(alloc, path, Held::Version(stamp, bytes))
    }

    /// Gives the path the stamp and the bytes that are at `old`. Says whether there was such a file.
    pub fn link(&mut self, alloc: Global, path: &str, old: &str) -> Result<bool, Error>
        ensures linked { IfOk result (λ linked. linked ≡ has_file (entry_at (last_world self.old.worlds) old.now)) }
        ensures ok { OnOk result (self.new ≡ after_link path.now old.now self.old) }
        ensures err { OnErr result (self.new ≡ self.old) }
        ensures memory { IsOkUnless result Error.OutOfMemory }
    {
        let (stamp, bytes) = match self.worlds.look_last(old) {
            Some(Held::Version(stamp, bytes)) => (*stamp, Vec::from_slice(alloc, bytes)?),
            Some(Held::Denied) => return Ok(false),
            None => return Ok(false),
        };
        self.worlds.hold(alloc, path, Held::Version(stamp, bytes))?;
        Ok(true)
    }

    /// Takes away what is at the path. Says whether anything was.
    pub fn remove(&mut self, path: &str) -> bool
        ensures removed { result ≡ is_some (entry_at (last_world self.old.worlds) path.now) }
        ensures after { self.new ≡ record self.old { worlds = on_last (without_entry path.now) self.old.worlds } }
    {
        self.worlds.clear(path)
    }

    /// Lets a file be at the path that may not be read.
    pub fn deny(&mut self, alloc: Global, path: &str) -> Result<(), Error>
        ensures ok { OnOk result (self.new ≡ record self.old { worlds = on_last (with_entry path.now Denied) self.old.worlds }) }
        ensures err { OnErr result (self.new ≡ self.old) }
        ensures memory { IsOkUnless result Error.OutOfMemory }
    {
        self.worlds.hold(alloc, path, Held::Denied)
    }

    /// Puts a copy of the last world at the end of the list, and edits act on that from now on. Each
    /// `begin` goes one world further.
    pub fn schedule(&mut self, alloc: Global) -> Result<(), Error>
        ensures ok { OnOk result (self.new ≡ after_schedule self.old) }
        ensures err { OnErr result (self.new ≡ self.old) }
        ensures memory { IsOkUnless result Error.OutOfMemory }
    {
        self.worlds.schedule()
    }

    /// Makes look number `n` fail. Each `stat` and each read is a look, counted from 1.
    pub fn fail_call(&mut self, alloc: Global, n: u64) -> Result<(), Error>
        ensures ok { OnOk result (self.new ≡ record self.old { failing = self.old.failing ++ n ∷ [] }) }
        ensures err { OnErr result (self.new ≡ self.old) }
        ensures memory { IsOkUnless result Error.OutOfMemory }
    {
        self.failing.push(n)?;
        Ok(())
    }

    /// How many looks ended in a `Fault`.
    pub fn faults(&self) -> u64
        ensures count { result ≡ self.now.faults }
        ensures tells { 0 < length self.now.worlds }
    {
        self.faults.get()
    }

    /// How many files were read.
    pub fn opens(&self) -> u64
        ensures count { result ≡ self.now.opens }
        ensures tells { 0 < length self.now.worlds }
    {
        self.opens.get()
    }

    /// Counts one more look, and says whether it is one of those that fail.
    fn begin_look(&mut self) -> bool
        ensures state { self.new ≡ after_look self.old }
        ensures failing { result ≡ fails_next self.old }
        ensures faults { CountsFaults self.old.faults self.new.faults (IsTrue result) }
        ensures tells { 0 < length self.old.worlds }
    {
        self.calls.add_one();
        let fails = self.failing.contains(&self.calls.get());
        if fails {
            self.faults.add_one();
        }
        fails
    }
}

impl Files for MemFiles {
    ghost use Rattle.std.specs.Prelude.{Some};

    ghost worlds = { λ files. Some files.worlds };

    ghost faults = { λ files. files.faults };

    ghost opens = { λ files. files.opens };

    ghost pid = { λ files. files.pid };

    fn begin(&mut self)
        ensures state { self.new ≡ record self.old { worlds = next_worlds self.old.worlds } }
        ensures tells { 0 < length self.old.worlds }
    {
        self.worlds.next();
    }

    fn own_pid(&self) -> u32 {
        self.pid
    }

    fn stat(&mut self, path: &str) -> Result<Stamp, FileError>
        ensures answer { Told (in_view (Some self.old.worlds)) (λ world. IsAnswer (λ given stamp bytes. given ≡ stamp) (entry_at world path.now) result) }
        ensures state { self.new ≡ after_look self.old }
        ensures failing { IsErrOf result FileError.Fault ↔ IsTrue (fails_next self.old) }
        ensures faults { CountsFaults self.old.faults self.new.faults (IsErrOf result FileError.Fault) }
        ensures no_memory { IsErrOf result FileError.OutOfMemory → ⊥ }
        ensures tells { 0 < length self.old.worlds }
    {
        if self.begin_look() {
            return Err(FileError::Fault);
        }
        match self.worlds.look(path) {
            Some(Held::Version(stamp, _)) => Ok(*stamp),
            Some(Held::Denied) => Err(FileError::Denied),
            None => Err(FileError::NotFound),
        }
    }

    fn read(&mut self, alloc: Global, path: &str) -> Result<Vec<u8>, FileError>
        ensures answer { Told (in_view (Some self.old.worlds)) (λ world. IsAnswer (λ given stamp bytes. given.items ≡ bytes) (entry_at world path.now) result) }
        ensures state { self.new ≡ after_read result self.old }
        ensures failing { IsErrOf result FileError.Fault ↔ IsTrue (fails_next self.old) }
        ensures faults { CountsFaults self.old.faults self.new.faults (IsErrOf result FileError.Fault) }
        ensures tells { 0 < length self.old.worlds }
    {
        let read = self.read_stamped(alloc, path)?;
        Ok(read.bytes)
    }

    fn read_stamped(&mut self, alloc: Global, path: &str) -> Result<StampedBytes, FileError>
        ensures answer { Told (in_view (Some self.old.worlds)) (λ world. IsAnswer (λ given stamp bytes. (given.stamp ≡ stamp) × (given.bytes.items ≡ bytes)) (entry_at world path.now) result) }
        ensures state { self.new ≡ after_read result self.old }
        ensures failing { IsErrOf result FileError.Fault ↔ IsTrue (fails_next self.old) }
        ensures faults { CountsFaults self.old.faults self.new.faults (IsErrOf result FileError.Fault) }
        ensures tells { 0 < length self.old.worlds }
    {
        if self.begin_look() {
            return Err(FileError::Fault);
        }
        let read = copy_of(self.worlds.look(path), alloc)?;
        self.opens.add_one();
        Ok(read)
    }
}

/// The stamp after so many others, for a file of this size, if there is one left.
fn fresh(stamps: u64, size: usize) -> Option<Stamp>
    requires { stamps ≤ LAST_STAMP }
    ensures stamp { result ≡ fresh_stamp stamps size }
    ensures left { IfSome result (λ _. stamps < LAST_STAMP) }
{
    if stamps == LAST_STAMP {
        return None;
    }
    let number = stamps + 1;
    Some(Stamp {
        dev: 1,
        inode: number,
        size: size as u64,
        mtime_sec: number as i64,
        mtime_nsec: 0,
    })
}

/// The bytes of what is held, with their stamp, if they may be read.
fn copy_of(held: Option<&Held>, alloc: Global) -> Result<StampedBytes, FileError>
    ensures answer { IsAnswer (λ given stamp bytes. (given.stamp ≡ stamp) × (given.bytes.items ≡ bytes)) (option_map (λ held. entry_of held.now) held.entry) result }
    ensures fault { IsErrOf result FileError.Fault → ⊥ }
{
    match held {
        Some(Held::Version(stamp, bytes)) => match Vec::from_slice(alloc, bytes) {
            Ok(copy) => Ok(StampedBytes {
                stamp: *stamp,
                bytes: copy,
            }),
            Err(_) => Err(FileError::OutOfMemory),
        },
        Some(Held::Denied) => Err(FileError::Denied),
        None => Err(FileError::NotFound),
    }
}
