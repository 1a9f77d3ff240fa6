//! Pinning files.

ghost use Rattle.bz_cache.specs.Pinning.{LooksAt, PinsFile};

use crate::file_cache::FileCache;
use crate::version::Version;
use bz_base::Result;
use bz_files::Files;
use std::alloc::Global;

/// Looks at the file at the path as if the path weren't pinned, and pins it at the version that the
/// look gives. It is refused as that look is. After a refusal, whichever it is, the cache is as before.
pub fn pin_file<T: Version + Drop, F: Files>(
    cache: &mut FileCache<T>,
    alloc: Global,
    files: &mut F,
    path: &str,
) -> Result<()>
    ensures { PinsFile F.Files T.test path.now result cache.old cache.new files.old files.new }
{
    let pinned = cache.is_pinned(path);
    let _unpinned = cache.unpin(path);
    match look_at(cache, alloc, files, path) {
        Ok(()) => {
            let _pinned = cache.pin(path);
            Ok(())
        }
        Err(error) => {
            if pinned {
                let _again = cache.pin(path);
            }
            Err(error)
        }
    }
}

// Looks at the file at the path, and asks nothing of its version.
fn look_at<T: Version + Drop, F: Files>(
    cache: &mut FileCache<T>,
    alloc: Global,
    files: &mut F,
    path: &str,
) -> Result<()>
    ensures { LooksAt F.Files T.test path.now result cache.old cache.new files.old files.new }
{
    let _version = cache.entry(alloc, files, path)?;
    Ok(())
}
