//! The held paths, and the stamps that each names.

ghost use Rattle.std.specs.Prelude.{◌≡◌, ◌<◌, ◌^◌, OnOk, OnErr, IsOk, IsOkUnless, Option, Some, None, option_map, is_some, true};
ghost use Rattle.std.specs.FinMap as map;
ghost use Rattle.bz_files.specs.declared.stamp.Stamp.{Stamp};
ghost use Rattle.bz_cache.specs.Cache.{stamp_eq, is_among, names, with_pinned, PathState};
ghost use Rattle.bz_cache.specs.Counts.{names_at};
ghost use Rattle.bz_cache.specs.Look.{with_earlier, moved};
ghost use Rattle.bz_cache.specs.Store.{paths_of, path_state};

use bz_base::{Error, Result};
use bz_files::Stamp;
use std::alloc::Global;
use std::collections::BTreeMap;

/// What is known of a held path.
#[derive(Drop)]
pub struct HeldPath {
    /// The stamp that it was last seen with.
    pub current: Stamp,
    /// Whether it stays at that stamp.
    pub pinned: bool,
    /// The stamps that it was seen with before.
    pub earlier: Vec<Stamp>,
}

/// The path's current stamp, and whether it is pinned.
pub fn get(paths: &BTreeMap<String, HeldPath>, path: &str) -> Option<(Stamp, bool)>
    ensures { result ≡ option_map (λ e. (e.current, e.pinned)) (map.get (paths_of paths.now) path.now) }
{
    match paths.get(path) {
        Some(held) => Some((held.current, held.pinned)),
        None => None,
    }
}

/// Makes the stamp the path's current one, and unpins the path.
pub fn update(
    paths: &mut BTreeMap<String, HeldPath>,
    alloc: Global,
    path: &str,
    stamp: Stamp,
) -> Result<()>
    ensures ok { OnOk result (paths_of paths.new ≡ map.insert (paths_of paths.old) path.now (moved stamp (map.get (paths_of paths.old) path.now))) }
    ensures err { OnErr result (paths_of paths.new ≡ paths_of paths.old) }
    ensures memory { IsOkUnless result Error.OutOfMemory }
    ensures sure { (e : PathState) → map.get (paths_of paths.old) path.now ≡ Some e → stamp_eq e.current stamp ≡ true → IsOk result }
{
    match paths.get_mut(path) {
        Some(held) => replace(held, stamp),
        None => insert(paths, alloc, path, stamp),
    }
}

fn insert(
    paths: &mut BTreeMap<String, HeldPath>,
    alloc: Global,
    path: &str,
    stamp: Stamp,
) -> Result<()>
    ensures ok { OnOk result (paths_of paths.new ≡ map.insert (paths_of paths.old) path.now (moved stamp None)) }
    ensures err { OnErr result (paths_of paths.new ≡ paths_of paths.old) }
    ensures memory { IsOkUnless result Error.OutOfMemory }
{
    let name = String::from_str(alloc, path)?;
    let held = HeldPath {
        current: stamp,
        pinned: false,
        earlier: Vec::new(alloc),
    };
    paths.insert(name, held)?;
    Ok(())
}

fn replace(held: &mut HeldPath, stamp: Stamp) -> Result<()>
    ensures ok { OnOk result (path_state held.new ≡ moved stamp (Some (path_state held.old))) }
    ensures err { OnErr result (path_state held.new ≡ path_state held.old) }
    ensures memory { IsOkUnless result Error.OutOfMemory }
    ensures sure { stamp_eq held.old.current stamp ≡ true → IsOk result }
{
    if held.current == stamp {
        held.pinned = false;
        return Ok(());
    }
    remember(&mut held.earlier, held.current)?;
    held.current = stamp;
    held.pinned = false;
    Ok(())
}

fn remember(earlier: &mut Vec<Stamp>, stamp: Stamp) -> Result<()>
    ensures ok { OnOk result (earlier.new.items ≡ with_earlier earlier.old.items stamp) }
    ensures err { OnErr result (earlier.new.items ≡ earlier.old.items) }
    ensures memory { IsOkUnless result Error.OutOfMemory }
{
    if !earlier.contains(&stamp) {
        earlier.push(stamp)?;
    }
    Ok(())
}

/// Pins a held path, or unpins it.
pub fn set_pinned(paths: &mut BTreeMap<String, HeldPath>, path: &str, pinned: bool) -> Option<()>
    ensures some { is_some result ≡ is_some (map.get (paths_of paths.old) path.now) }
    ensures paths { paths_of paths.new ≡ with_pinned pinned (paths_of paths.old) path.now }
{
    let held = paths.get_mut(path)?;
    held.pinned = pinned;
    Some(())
}

/// Forgets a path, and returns what was known of it.
pub fn remove(paths: &mut BTreeMap<String, HeldPath>, path: &str) -> Option<HeldPath>
    ensures value { option_map path_state result ≡ map.get (paths_of paths.old) path.now }
    ensures paths { paths_of paths.new ≡ map.remove (paths_of paths.old) path.now }
{
    paths.remove(path)
}

/// Whether the path names the stamp.
pub fn path_names(paths: &BTreeMap<String, HeldPath>, path: &str, stamp: &Stamp) -> bool
    ensures { result ≡ names_at (map.get (paths_of paths.now) path.now) stamp.now }
{
    match paths.get(path) {
        Some(held) => names(held, stamp),
        None => false,
    }
}

/// Whether a path that is held so names the stamp.
pub fn names(held: &HeldPath, stamp: &Stamp) -> bool
    ensures { result ≡ names (path_state held.now) stamp.now }
{
    held.current == *stamp || held.earlier.contains(stamp)
}

/// How many paths are held.
pub fn len(paths: &BTreeMap<String, HeldPath>) -> usize
    ensures count { result ≡ map.len (paths_of paths.now) }
    ensures small { result < 2 ^ 63 }
{
    paths.len()
}
