//! The worlds of files in memory: what is held at each path, now and later.

ghost use Rattle.std.specs.Prelude.{◌≡◌, ◌∷◌, ◌++◌, [], length, is_some, option_map, OnOk, OnErr, IsOkUnless};
ghost use Rattle.std.specs.FinMap as map;
ghost use Rattle.bz_files.specs.World.{entry_at, next_worlds, with_entry, without_entry};
ghost use Rattle.bz_files.specs.MemWorlds.{first_world, last_world, on_last};
ghost use Rattle.bz_files.specs.Held.{entry_of};

use crate::stamp::Stamp;
use bz_base::Error;
use std::alloc::{AllocError, Global};
use std::collections::BTreeMap;
use std::marker::Model;

/// What is held at a path.
#[derive(Drop)]
pub(crate) enum Held {
    /// A file that may not be read.
    Denied,
    /// A version of a file.
    Version(Stamp, Vec<u8>),
}

impl Clone for Held {
    ghost use Rattle.std.specs.Prelude.{◌≡◌};
    ghost use Rattle.bz_files.specs.Held.{entry_of};

    ghost is_clone = { λ held copy. entry_of copy ≡ entry_of held };

    fn clone(&self) -> std::result::Result<Held, AllocError> {
        match self {
            Held::Denied => Ok(Held::Denied),
            Held::Version(stamp, bytes) => Ok(Held::Version(*stamp, bytes.clone()?)),
        }
    }
}

/// A list of worlds that is never empty. The first is in view, and edits act on the last.
#[derive(Drop)]
pub(crate) struct Worlds {
    /// All but the last.
    earlier: Vec<BTreeMap<String, Held>>,
    last: BTreeMap<String, Held>,
}

impl Model for Worlds {
    ghost use Rattle.std.specs.Prelude.{[], ◌∷◌, ◌++◌, List, map};
    ghost use Rattle.std.specs.Coded.{coded_list};
    ghost use Rattle.bz_files.specs.World.{World, coded_world};

    ghost Value = { List World };

    ghost coded = { coded_list coded_world };

    ghost use Rattle.bz_files.specs.Held.{world_of};

    ghost view = { λ a. map world_of a.earlier.items ++ world_of a.last ∷ [] };
}

impl Worlds {
    /// One empty world.
    pub(crate) fn new(alloc: Global) -> Worlds
        ensures { result ≡ map.empty ∷ [] }
    {
        Worlds {
            earlier: Vec::new(alloc),
            last: BTreeMap::new(alloc),
        }
    }

    /// What is held at the path in the world in view.
    pub(crate) fn look(&self, path: &str) -> Option<&Held>
        ensures { option_map (λ held. entry_of held.now) result ≡ entry_at (first_world self.now) path.now }
    {
        match self.earlier.first() {
            Some(world) => world.get(path),
            None => self.last.get(path),
        }
    }

    /// What is held at the path in the world that edits act on.
    pub(crate) fn look_last(&self, path: &str) -> Option<&Held>
        ensures { option_map (λ held. entry_of held.now) result ≡ entry_at (last_world self.now) path.now }
    {
        self.last.get(path)
    }

    /// Holds this at the path in the last world, in place of what was there.
    pub(crate) fn hold(&mut self, alloc: Global, path: &str, held: Held) -> Result<(), Error>
        ensures ok { OnOk result (self.new ≡ on_last (with_entry path.now (entry_of held)) self.old) }
        ensures err { OnErr result (self.new ≡ self.old) }
        ensures count { length self.new ≡ length self.old }
        ensures memory { IsOkUnless result Error.OutOfMemory }
    {
        let key = String::from_str(alloc, path)?;
        self.last.insert(key, held)?;
        Ok(())
    }

    /// Takes away what is held at the path in the last world, and says whether anything was.
    pub(crate) fn clear(&mut self, path: &str) -> bool
        ensures removed { result ≡ is_some (entry_at (last_world self.old) path.now) }
        ensures after { self.new ≡ on_last (without_entry path.now) self.old }
        ensures count { length self.new ≡ length self.old }
    {
        self.last.remove(path).is_some()
    }

    /// Brings the next world into view, if there is one.
    pub(crate) fn next(&mut self)
        ensures { self.new ≡ next_worlds self.old }
    {
        if !self.earlier.is_empty() {
            let _passed = self.earlier.remove(0);
        }
    }

    /// Puts a copy of the last world at the end.
    pub(crate) fn schedule(&mut self) -> Result<(), Error>
        ensures ok { OnOk result (self.new ≡ self.old ++ last_world self.old ∷ []) }
        ensures err { OnErr result (self.new ≡ self.old) }
        ensures memory { IsOkUnless result Error.OutOfMemory }
    {
        let copy = self.last.clone()?;
        self.earlier.push(copy)?;
        Ok(())
    }
}
