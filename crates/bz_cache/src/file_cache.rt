//! A cache of parsed files.

ghost use Rattle.std.specs.Prelude.{◌≡◌, ◌≤◌, ◌⊎◌, Option, None, OnOk, OnErr, IfOk, IfErr, IsOk, IsOkUnless, IsErrOf, IsSome, is_some, Some, Bool, true, false};
ghost use Rattle.std.specs.FinMap as map;
ghost use Rattle.bz_cache.specs.Cache.{Cache, PathState, Consistent, new_cache, stamp_eq, current_of, is_held, is_pinned, with_pin};
ghost use Rattle.bz_cache.specs.Eviction.{evicted, evicts};
ghost use Rattle.bz_files.specs.Looked.{Faulted, Looked};
ghost use Rattle.bz_files.specs.World.{Present, Told, in_view, entry_at};
ghost use Rattle.bz_cache.specs.Format.{GivesOrFaults, MayFail};
ghost use Rattle.bz_cache.specs.Insertion.{insertion, Inserts, MayKeepOut};
ghost use Rattle.bz_cache.specs.Look.{named, look, by_entry, is_new, will_open, IsUnmoved, Lends, Shares};
ghost use Rattle.bz_cache.specs.Steps.{LeavesCache, ReadsAt, ReadsFile};
ghost use Rattle.bz_cache.specs.View.{fixed, bytes_at};

use crate::version::Version;
use bz_base::{Error, Result};
use bz_files::{Files, Stamp, StampedBytes};
use std::alloc::Global;
use std::collections::BTreeMap;
use std::marker::Model;
use std::rc::Rc;

mod lookup;
mod paths;
mod versions;

use paths::HeldPath;
use versions::KeptVersion;

/// Parsed files, kept by their stamps, each with the number of paths that name it, and these paths.
#[derive(Drop)]
pub struct FileCache<T: Version + Drop> {
    versions: BTreeMap<Stamp, KeptVersion<T>>,
    paths: BTreeMap<String, HeldPath>,
    reload: bool,
}

impl<T: Version + Drop> Model for FileCache<T> {
    ghost use Rattle.bz_cache.specs.Cache.{Cache, coded_cache, Consistent};

    ghost Value = { Cache };

    ghost coded = { coded_cache };

    ghost use Rattle.bz_cache.specs.Counts.{HasCounts};
    ghost use Rattle.bz_cache.specs.Store.{kept_of, counted_of, paths_of};

    ghost view = { λ a. record { reload = a.reload; kept = kept_of T.bytes_of a.versions; paths = paths_of a.paths } };

    // The count of a kept version is that of the paths that name its stamp.
    ghost invariant = { λ a. Consistent T.test (record { reload = a.reload; kept = kept_of T.bytes_of a.versions; paths = paths_of a.paths }) × HasCounts (paths_of a.paths) (counted_of T.bytes_of a.versions) };
}

impl<T: Version + Drop> FileCache<T> {
    // A cache that keeps nothing.
    pub(crate) fn empty(alloc: Global, reload: bool) -> FileCache<T>
        ensures new { result ≡ new_cache reload }
        ensures consistent { Consistent T.test result }
    {
        FileCache {
            versions: BTreeMap::new(alloc),
            paths: BTreeMap::new(alloc),
            reload,
        }
    }

    /// Whether a version with the stamp is kept. A stamp is kept exactly while some path names it.
    pub fn is_kept(&self, stamp: &Stamp) -> bool
        ensures kept { result ≡ is_some (map.get self.now.kept stamp.now) }
        ensures consistent { Consistent T.test self.now }
    {
        versions::is_kept(&self.versions, stamp)
    }

    /// Keeps a held path at its current version, also where its file changes. None: the path isn't
    /// held.
    pub fn pin(&mut self, path: &str) -> Option<()>
        ensures held { is_some result ≡ is_held self.old path.now }
        ensures state { self.new ≡ with_pin true self.old path.now }
    {
        paths::set_pinned(&mut self.paths, path, true)
    }

    /// Takes the pin off a held path. A cache that reloads looks at it anew from the next look on; any
    /// other still answers by the version that it has. None: the path isn't held.
    pub fn unpin(&mut self, path: &str) -> Option<()>
        ensures held { is_some result ≡ is_held self.old path.now }
        ensures state { self.new ≡ with_pin false self.old path.now }
    {
        paths::set_pinned(&mut self.paths, path, false)
    }

    /// Whether a path is held and pinned.
    pub fn is_pinned(&self, path: &str) -> bool
        ensures { result ≡ is_pinned self.now path.now }
    {
        match paths::get(&self.paths, path) {
            Some((_current, pinned)) => pinned,
            None => false,
        }
    }

    /// Forgets a path, and with it the versions that no other path names. Says whether a version
    /// was dropped.
    pub fn evict(&mut self, path: &str) -> bool
        ensures dropped { result ≡ evicts self.old path.now }
        ensures state { self.new ≡ evicted self.old path.now }
        ensures unheld { is_held self.old path.now ≡ false → (result ≡ false) × (self.new ≡ self.old) }
    {
        match paths::remove(&mut self.paths, path) {
            Some(held) => versions::release(&mut self.versions, held),
            None => false,
        }
    }

    /// How many versions are kept.
    pub fn entry_count(&self) -> usize
        ensures { result ≡ map.len self.now.kept }
    {
        versions::len(&self.versions)
    }

    /// How many paths are held.
    pub fn path_count(&self) -> usize
        ensures { result ≡ map.len self.now.paths }
    {
        paths::len(&self.paths)
    }

    // The path's current stamp, if it is answered without a look.
    fn fixed(&self, path: &str) -> Option<Stamp>
        ensures stamp { result ≡ fixed self.now path.now }
        ensures consistent { Consistent T.test self.now }
    {
        match paths::get(&self.paths, path) {
            Some((current, pinned)) if pinned || !self.reload => Some(current),
            _ => None,
        }
    }

    // The kept version with the stamp.
    fn version(&self, stamp: &Stamp) -> &T
        requires { IsSome (map.get self.now.kept stamp.now) }
        ensures { map.get self.now.kept stamp.now ≡ Some (T.bytes_of result.now) }
    {
        versions::get(&self.versions, stamp)
    }

    // The kept version with the stamp, with one owner more.
    fn share(&self, stamp: &Stamp) -> Result<Rc<T>>
        requires { IsSome (map.get self.now.kept stamp.now) }
        ensures ok { IfOk result (λ version. map.get self.now.kept stamp.now ≡ Some (T.bytes_of version.value)) }
        ensures memory { IsOkUnless result Error.OutOfMemory }
    {
        versions::share(&self.versions, stamp)
    }

    // Makes the kept version with the stamp the path's current one.
    fn update_path(&mut self, alloc: Global, path: &str, stamp: Stamp) -> Result<()>
        requires { IsSome (map.get self.old.kept stamp) }
        ensures ok { OnOk result (self.new ≡ named self.old path.now stamp (bytes_at self.old stamp)) }
        ensures err { OnErr result (self.new ≡ self.old) }
        ensures memory { IsOkUnless result Error.OutOfMemory }
        ensures consistent { OnOk result (Consistent T.test self.new) }
        ensures sure { (e : PathState) → map.get self.old.paths path.now ≡ Some e → stamp_eq e.current stamp ≡ true → IsOk result }
    {
        let was_named = paths::path_names(&self.paths, path, &stamp);
        paths::update(&mut self.paths, alloc, path, stamp)?;
        if was_named {
            return Ok(());
        }
        // No count is greater than that of the paths, so one more fits.
        let _paths = paths::len(&self.paths);
        versions::raise(&mut self.versions, &stamp);
        Ok(())
    }

    // Takes in a version that wasn't kept, as the path's current one.
    fn insert_version(
        &mut self,
        alloc: Global,
        path: &str,
        stamp: Stamp,
        version: Rc<T>,
    ) -> Result<()>
        requires absent { map.get self.old.kept stamp ≡ None }
        requires formed { T.test (T.bytes_of version.value) ≡ None }
        ensures ok { OnOk result (self.new ≡ named self.old path.now stamp (T.bytes_of version.value)) }
        ensures consistent { OnOk result (Consistent T.test self.new) }
        ensures err { OnErr result (self.new ≡ self.old) }
        ensures memory { IsOkUnless result Error.OutOfMemory }
    {
        versions::insert(&mut self.versions, stamp, version)?;
        if let Err(error) = paths::update(&mut self.paths, alloc, path, stamp) {
            versions::remove(&mut self.versions, &stamp);
            return Err(error);
        }
        Ok(())
    }
}

impl<T: Version + Drop> FileCache<T> {
    ghost use Rattle.std.specs.Prelude.{⊤, MatchResult, ◌≡◌, ◌≤◌, ◌⊎◌, Option, None, OnOk, OnErr, IfOk, IfErr, IsOk, IsOkUnless, IsErrOf, IsSome, is_some, Some, Bool, true, false};
    ghost use Rattle.std.specs.Borrow.{sem, follows_so};
    ghost use mathlib.Core.Option.{none};
    ghost use Rattle.bz_cache.specs.contracts.file_cache.FileCache.{the_row};

    /// The version of the file at the path. A path that is pinned, or that is held where the cache
    /// doesn't reload, answers by the version that it has. Any other is looked at, and read where no
    /// version with its stamp is kept. It is refused by `NotFound`, `PermissionDenied` and `ReadFault`
    /// as a look is, and by `OutOfMemory`. It is also refused as the format refuses the file's bytes.
    /// After a refusal the cache is as before.
    pub fn entry<F: Files>(&mut self, alloc: Global, files: &mut F, path: &str) -> Result<&T>
        ensures* after { sem 𝓛 (follows_so (the_row T.row T.Version) (the_row T.row T.Version) self.entry.ghost_name none (λ _ _. ⊤) (λ n. MatchResult result (λ v. Lends T.test self.old n path.now (T.bytes_of v.now) (in_view (F.worlds files.old))) (λ _. n ≡ self.old))) }
        ensures answer { Told (in_view (F.worlds files.old)) (λ w. GivesOrFaults (λ v. T.bytes_of v.now) (look T.test self.old path.now (entry_at w path.now)).0 result) }
        ensures sure { IsSome (fixed self.old path.now) → IsOk result }
        ensures unseen { IsSome (fixed self.old path.now) → files.new ≡ files.old }
        // No memory is taken where the present stamp is the path's current one.
        ensures unmoved { Told (in_view (F.worlds files.old)) (λ w. IsUnmoved self.old path.now (entry_at w path.now) → IsOkUnless result Error.ReadFault) }
        ensures reads { ReadsAt F.Files (will_open self.old path.now) path.now result files.old files.new }
        ensures files { Looked F.Files files.old files.new (Faulted result) }
        ensures refusal { IfErr result (MayFail T.test) }
    {
        let stamp = self.look(alloc, files, path)?;
        Ok(self.version(&stamp))
    }

    /// The version that `entry` gives, shared: the caller keeps it also where the cache lets it go. It
    /// is refused as `entry` is. After a refusal the cache is as before; where memory ran out, the file
    /// may have been taken in.
    pub fn shared<F: Files>(&mut self, alloc: Global, files: &mut F, path: &str) -> Result<Rc<T>>
        ensures after { Shares (λ v. T.bytes_of v.value) T.test result self.old self.new path.now (in_view (F.worlds files.old)) }
        ensures answer { Told (in_view (F.worlds files.old)) (λ w. GivesOrFaults (λ v. T.bytes_of v.value) (look T.test self.old path.now (entry_at w path.now)).0 result) }
        ensures unseen { IsSome (fixed self.old path.now) → (files.new ≡ files.old) × (self.new ≡ self.old) }
        ensures reads { ReadsAt F.Files (will_open self.old path.now) path.now result files.old files.new }
        ensures files { Looked F.Files files.old files.new (Faulted result) }
        ensures refusal { IfErr result (MayFail T.test) }
    {
        let stamp = self.look(alloc, files, path)?;
        self.share(&stamp)
    }

    /// Takes in a version that the caller has, as that of the file at the path, under the file's
    /// present stamp. The file isn't read, and not looked at where the path is pinned, or held in a
    /// cache that doesn't reload. There, and where a version with the present stamp is kept, it is
    /// refused by `AlreadyExists`. It is also refused by `NotFound`, `PermissionDenied` and `ReadFault`
    /// as a look is, and by `OutOfMemory`. After a refusal the cache is as before.
    pub fn insert_value<F: Files>(
        &mut self,
        alloc: Global,
        files: &mut F,
        path: &str,
        value: Rc<T>,
    ) -> Result<()>
        ensures answer { Told (in_view (F.worlds files.old)) (λ w. GivesOrFaults (λ _. tt) (insertion self.old path.now (T.bytes_of value.value) (entry_at w path.now)).0 result) }
        ensures after { OnOk result (Inserts T.test self.old self.new path.now (T.bytes_of value.value) (in_view (F.worlds files.old))) }
        ensures err { OnErr result (self.new ≡ self.old) }
        ensures fixed { IsSome (fixed self.old path.now) → IsErrOf result Error.AlreadyExists × (files.new ≡ files.old) }
        // No memory is taken where a version is there already.
        ensures no_memory { Told (in_view (F.worlds files.old)) (λ w. is_new self.old (entry_at w path.now) ≡ false → IsErrOf result Error.OutOfMemory → ⊥) }
        ensures unopened { F.opens files.new ≡ F.opens files.old }
        ensures files { Looked F.Files files.old files.new (Faulted result) }
        ensures refusal { IfErr result (MayKeepOut self.old path.now) }
    {
        if self.fixed(path).is_some() {
            return Err(Error::AlreadyExists);
        }
        let stamp = lookup::present(files, path)?;
        if self.is_kept(&stamp) {
            return Err(Error::AlreadyExists);
        }
        value.as_ref().formed();
        self.insert_version(alloc, path, stamp, value)
    }

    // The stamp of the version that the path answers by.
    fn look<F: Files>(&mut self, alloc: Global, files: &mut F, path: &str) -> Result<Stamp>
        ensures answer { Told (in_view (F.worlds files.old)) (λ w. GivesOrFaults (bytes_at self.new) (look T.test self.old path.now (entry_at w path.now)).0 result) }
        ensures cache { LeavesCache T.test (look T.test self.old path.now) path.now result self.old self.new (in_view (F.worlds files.old)) }
        ensures fixed { IsSome (fixed self.old path.now) → IsOk result × (self.new ≡ self.old) × (files.new ≡ files.old) }
        ensures unmoved { Told (in_view (F.worlds files.old)) (λ w. IsUnmoved self.old path.now (entry_at w path.now) → IsOkUnless result Error.ReadFault) }
        ensures files { ReadsFile F.Files (will_open self.old path.now) path.now result files.old files.new }
        ensures refusal { IfErr result (MayFail T.test) }
    {
        match self.fixed(path) {
            Some(stamp) => Ok(stamp),
            None => self.refresh(alloc, files, path),
        }
    }

    // The present stamp of a path that isn't fixed, whose version is taken in if it wasn't kept.
    fn refresh<F: Files>(&mut self, alloc: Global, files: &mut F, path: &str) -> Result<Stamp>
        ensures answer { Told (in_view (F.worlds files.old)) (λ w. GivesOrFaults (bytes_at self.new) (by_entry T.test self.old path.now (entry_at w path.now)).0 result) }
        ensures cache { LeavesCache T.test (by_entry T.test self.old path.now) path.now result self.old self.new (in_view (F.worlds files.old)) }
        ensures unmoved { Told (in_view (F.worlds files.old)) (λ w. IsUnmoved self.old path.now (entry_at w path.now) → IsOkUnless result Error.ReadFault) }
        ensures files { ReadsFile F.Files (is_new self.old) path.now result files.old files.new }
        ensures refusal { IfErr result (MayFail T.test) }
    {
        // This stamp serves to find a kept version alone: the file may be replaced before it is read.
        // So bytes are kept under the stamp that their own file had when it was opened. Were that taken
        // after them, a file that changed in between would keep its older bytes under its newer stamp.
        let stamp = lookup::present(files, path)?;
        if self.is_kept(&stamp) {
            self.update_path(alloc, path, stamp)?;
            return Ok(stamp);
        }
        let read = lookup::contents(files, alloc, path)?;
        self.take_in(alloc, path, read)
    }

    // The stamp of a file that was read, as the path's current one. Its version is taken in if none was
    // kept under that stamp.
    fn take_in(&mut self, alloc: Global, path: &str, read: StampedBytes) -> Result<Stamp>
        ensures stamp { IfOk result (λ stamp. stamp ≡ read.stamp) }
        ensures answer { GivesOrFaults (bytes_at self.new) (by_entry T.test self.old path.now (Some (Present read.stamp read.bytes.items))).0 result }
        ensures state { OnOk result (self.new ≡ (by_entry T.test self.old path.now (Some (Present read.stamp read.bytes.items))).1) }
        ensures err { OnErr result (self.new ≡ self.old) }
        ensures current { IfOk result (λ stamp. current_of self.new path.now ≡ Some stamp) }
        ensures consistent { OnOk result (Consistent T.test self.new) }
        ensures no_fault { Faulted result → ⊥ }
        ensures refusal { IfErr result (MayFail T.test) }
    {
        let opened = read.stamp;
        if self.is_kept(&opened) {
            self.update_path(alloc, path, opened)?;
            return Ok(opened);
        }
        let version = T::parse(alloc, read.bytes)?;
        let shared = Rc::new(alloc, version)?;
        self.insert_version(alloc, path, opened, shared)?;
        Ok(opened)
    }
}
