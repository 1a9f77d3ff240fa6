//! Source files, each with the index that it is listed at.

ghost use Rattle.std.specs.Prelude.{◌≡◌, ℕ, List, [], Some, slice_get, IfOk, OnErr, OnOk};
ghost use Rattle.bz_gsym_layout.specs.Listed.{with_one};
ghost use Rattle.bz_gsym_layout.specs.Listing.{HasFileIndexes, same_file};

use crate::plan::SourceFile;
use std::alloc::{AllocError, Global};
use std::collections::BTreeMap;

/// Source files that were used, by the indexes of the texts of their directories and names.
#[derive(Drop)]
pub struct Sources {
    /// The source files, each listed where it was first used.
    pub listed: Vec<SourceFile>,
    /// The index of each source file in the list.
    pub indexes: BTreeMap<(usize, usize), usize>,
}

impl Sources {
    /// No source files.
    pub fn new(alloc: Global) -> Sources
        ensures empty { result.listed.items ≡ [] }
        ensures files { HasFileIndexes result }
    {
        Sources {
            listed: Vec::new(alloc),
            indexes: BTreeMap::new(alloc),
        }
    }

    /// The index of a source file, which is listed if it wasn't used before.
    pub fn index_of(&mut self, file: SourceFile) -> Result<usize, AllocError>
        ensures listed { OnOk result (HasFileIndexes self.old → self.new.listed.items ≡ with_one same_file self.old.listed.items file) }
        ensures files { HasFileIndexes self.old → HasFileIndexes self.new }
        ensures index { IfOk result (λ index. HasFileIndexes self.old → slice_get self.new.listed.items index ≡ Some file) }
        ensures err { OnErr result (self.new.listed.items ≡ self.old.listed.items) }
    {
        let key = (file.dir, file.name);
        if let Some(index) = self.indexes.get(&key) {
            return Ok(*index);
        }
        let index = self.listed.len();
        self.listed.reserve(1)?;
        self.indexes.insert(key, index)?;
        self.listed.push(file)?;
        Ok(index)
    }
}
