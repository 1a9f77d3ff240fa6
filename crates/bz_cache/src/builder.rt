//! How a cache is made.

ghost use Rattle.std.specs.Prelude.{◌≡◌, true};
ghost use Rattle.bz_cache.specs.Cache.{Consistent, new_cache};

use crate::file_cache::FileCache;
use crate::version::Version;
use std::alloc::Global;
use std::marker::{Model, PhantomData};

/// How a cache is made.
#[derive(Drop)]
pub struct CacheBuilder<T: Version + Drop> {
    reload: bool,
    versions: PhantomData<T>,
}

impl<T: Version + Drop> Model for CacheBuilder<T> {
    ghost use Rattle.std.specs.Prelude.{Bool};

    ghost Value = { Bool };

    ghost view = { λ a. a.reload };
}

impl<T: Version + Drop> FileCache<T> {
    /// A builder of caches that look at their paths anew.
    pub fn builder() -> CacheBuilder<T>
        ensures { result ≡ true }
    {
        CacheBuilder {
            reload: true,
            versions: PhantomData,
        }
    }
}

impl<T: Version + Drop> CacheBuilder<T> {
    /// Whether the cache looks at a held path anew. Else it answers by the version that it has.
    pub fn enable_auto_reload(mut self, enable: bool) -> Self
        ensures { result ≡ enable }
    {
        self.reload = enable;
        self
    }

    /// A cache that keeps nothing.
    pub fn build(self, alloc: Global) -> FileCache<T>
        ensures new { result ≡ new_cache self }
        ensures consistent { Consistent T.test result }
    {
        FileCache::empty(alloc, self.reload)
    }
}
