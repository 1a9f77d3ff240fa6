//! The kept versions, by their stamps, and how many paths name each.

ghost use Rattle.std.specs.Prelude.{◌≡◌, ◌<◌, ◌^◌, nat_lt, nat_le, true, false, cond, option_map, IfOk, OnOk, OnErr, IsOkUnless, IsSome, is_some, Some};
ghost use Rattle.std.specs.Option.{option_map_or};
ghost use Rattle.std.specs.FinMap as map;
ghost use Rattle.bz_files.specs.declared.stamp.Stamp.{Stamp};
ghost use Rattle.bz_cache.specs.Cache.{stamp_eq, names};
ghost use Rattle.bz_cache.specs.Counts.{one_more, one_fewer, released};
ghost use Rattle.bz_cache.specs.Store.{kept_of, counted_of, path_state};

use super::paths::{HeldPath, names};
use crate::version::Version;
use bz_base::{Error, Result};
use bz_files::Stamp;
use std::collections::BTreeMap;
use std::rc::Rc;

/// A kept version.
#[derive(Drop)]
pub struct KeptVersion<T: Version + Drop> {
    /// The version, which callers may share.
    pub version: Rc<T>,
    /// How many paths name its stamp, each counted once.
    pub paths: usize,
}

/// Whether a version with the stamp is kept.
pub fn is_kept<T: Version + Drop>(versions: &BTreeMap<Stamp, KeptVersion<T>>, stamp: &Stamp) -> bool
    ensures { result ≡ is_some (map.get (kept_of T.bytes_of versions.now) stamp.now) }
{
    versions.contains_key(stamp)
}

/// The kept version with the stamp.
pub fn get<'v, T: Version + Drop>(
    versions: &'v BTreeMap<Stamp, KeptVersion<T>>,
    stamp: &Stamp,
) -> &'v T
    requires { IsSome (map.get (kept_of T.bytes_of versions.now) stamp.now) }
    ensures { map.get (kept_of T.bytes_of versions.now) stamp.now ≡ Some (T.bytes_of result.now) }
{
    match versions.get(stamp) {
        Some(kept) => kept.version.as_ref(),
        None => unreachable!(),
    }
}

/// The kept version with the stamp, with one owner more.
pub fn share<T: Version + Drop>(
    versions: &BTreeMap<Stamp, KeptVersion<T>>,
    stamp: &Stamp,
) -> Result<Rc<T>>
    requires { IsSome (map.get (kept_of T.bytes_of versions.now) stamp.now) }
    ensures ok { IfOk result (λ version. map.get (kept_of T.bytes_of versions.now) stamp.now ≡ Some (T.bytes_of version.value)) }
    ensures memory { IsOkUnless result Error.OutOfMemory }
{
    match versions.get(stamp) {
        Some(kept) => Ok(kept.version.clone()?),
        None => unreachable!(),
    }
}

/// Keeps a version under the stamp, which one path names.
pub fn insert<T: Version + Drop>(
    versions: &mut BTreeMap<Stamp, KeptVersion<T>>,
    stamp: Stamp,
    version: Rc<T>,
) -> Result<()>
    ensures ok { OnOk result (kept_of T.bytes_of versions.new ≡ map.insert (kept_of T.bytes_of versions.old) stamp (T.bytes_of version.value)) }
    ensures counted { OnOk result (counted_of T.bytes_of versions.new ≡ map.insert (counted_of T.bytes_of versions.old) stamp (record { bytes = T.bytes_of version.value; paths = 1 })) }
    ensures err { OnErr result (kept_of T.bytes_of versions.new ≡ kept_of T.bytes_of versions.old) }
    ensures uncounted { OnErr result (counted_of T.bytes_of versions.new ≡ counted_of T.bytes_of versions.old) }
    ensures memory { IsOkUnless result Error.OutOfMemory }
{
    versions.insert(stamp, KeptVersion { version, paths: 1 })?;
    Ok(())
}

/// Takes out the version with the stamp.
pub fn remove<T: Version + Drop>(versions: &mut BTreeMap<Stamp, KeptVersion<T>>, stamp: &Stamp)
    ensures kept { kept_of T.bytes_of versions.new ≡ map.remove (kept_of T.bytes_of versions.old) stamp.now }
    ensures counted { counted_of T.bytes_of versions.new ≡ map.remove (counted_of T.bytes_of versions.old) stamp.now }
{
    versions.remove(stamp);
}

/// Counts one path more that names the stamp of a kept version.
pub fn raise<T: Version + Drop>(versions: &mut BTreeMap<Stamp, KeptVersion<T>>, stamp: &Stamp)
    requires kept { IsSome (map.get (kept_of T.bytes_of versions.old) stamp.now) }
    requires few { option_map_or (λ version. version.paths) (map.get (counted_of T.bytes_of versions.old) stamp.now) 0 < 2 ^ 63 }
    ensures counted { (s : Stamp) → map.get (counted_of T.bytes_of versions.new) s ≡ cond (stamp_eq stamp.now s) (option_map one_more (map.get (counted_of T.bytes_of versions.old) s)) (map.get (counted_of T.bytes_of versions.old) s) }
    ensures kept { kept_of T.bytes_of versions.new ≡ kept_of T.bytes_of versions.old }
{
    match versions.get_mut(stamp) {
        Some(kept) => kept.paths += 1,
        None => unreachable!(),
    }
}

/// Counts a path no more at the stamps that it named, each of them once, and lets the versions go
/// that no other path names. Says whether one was dropped.
pub fn release<T: Version + Drop>(
    versions: &mut BTreeMap<Stamp, KeptVersion<T>>,
    held: HeldPath,
) -> bool
    requires { (s : Stamp) → names (path_state held) s ≡ true → IsSome (map.get (counted_of T.bytes_of versions.old) s) }
    ensures dropped { result ≡ nat_lt (map.len (kept_of T.bytes_of versions.new)) (map.len (kept_of T.bytes_of versions.old)) }
    ensures counted { (s : Stamp) → map.get (counted_of T.bytes_of versions.new) s ≡ released (names (path_state held) s) (map.get (counted_of T.bytes_of versions.old) s) }
{
    let before = len(versions);
    release_all(versions, held);
    len(versions) < before
}

fn release_all<T: Version + Drop>(
    versions: &mut BTreeMap<Stamp, KeptVersion<T>>,
    mut held: HeldPath,
)
    requires { (s : Stamp) → names (path_state held) s ≡ true → IsSome (map.get (counted_of T.bytes_of versions.old) s) }
    ensures { (s : Stamp) → map.get (counted_of T.bytes_of versions.new) s ≡ released (names (path_state held) s) (map.get (counted_of T.bytes_of versions.old) s) }
{
    while let Some(stamp) = held.earlier.pop() {
        // A path may name a stamp more than once.
        if !names(&held, &stamp) {
            release_one(versions, &stamp);
        }
    }
    release_one(versions, &held.current);
}

fn release_one<T: Version + Drop>(versions: &mut BTreeMap<Stamp, KeptVersion<T>>, stamp: &Stamp)
    requires { IsSome (map.get (counted_of T.bytes_of versions.old) stamp.now) }
    ensures { (s : Stamp) → map.get (counted_of T.bytes_of versions.new) s ≡ released (stamp_eq stamp.now s) (map.get (counted_of T.bytes_of versions.old) s) }
{
    if lower(versions, stamp) {
        remove(versions, stamp);
    }
}

// Counts one path fewer. Says whether it was the last.
fn lower<T: Version + Drop>(versions: &mut BTreeMap<Stamp, KeptVersion<T>>, stamp: &Stamp) -> bool
    requires { IsSome (map.get (counted_of T.bytes_of versions.old) stamp.now) }
    ensures last { result ≡ option_map_or (λ version. nat_le version.paths 1) (map.get (counted_of T.bytes_of versions.old) stamp.now) false }
    ensures counted { (s : Stamp) → map.get (counted_of T.bytes_of versions.new) s ≡ cond (stamp_eq stamp.now s) (option_map one_fewer (map.get (counted_of T.bytes_of versions.old) s)) (map.get (counted_of T.bytes_of versions.old) s) }
{
    match versions.get_mut(stamp) {
        Some(kept) => {
            kept.paths = kept.paths.saturating_sub(1);
            kept.paths == 0
        }
        None => unreachable!(),
    }
}

/// How many versions are kept.
pub fn len<T: Version + Drop>(versions: &BTreeMap<Stamp, KeptVersion<T>>) -> usize
    ensures { result ≡ map.len (kept_of T.bytes_of versions.now) }
{
    versions.len()
}
