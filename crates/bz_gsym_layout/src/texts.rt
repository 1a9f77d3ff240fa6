//! Texts, each with the index that it is listed at.

ghost use Rattle.std.specs.Prelude.{◌≡◌, ◌++◌, ◌∷◌, ℕ, List, [], Some, slice_get, IfOk, OnErr, OnOk};
ghost use Rattle.bz_gsym_layout.specs.Listing.{AreTexts, listed_texts};

use std::alloc::{AllocError, Global};
use std::collections::HashMap;

/// Texts that were used.
#[derive(Drop)]
pub struct Texts<'a> {
    /// The texts, each listed where it was first used.
    pub listed: Vec<&'a str>,
    /// The index of each text in the list.
    pub indexes: HashMap<&'a str, usize>,
}

impl<'a> Texts<'a> {
    /// No texts.
    pub fn new(alloc: Global) -> Texts<'a>
        ensures { AreTexts [] result }
    {
        Texts {
            listed: Vec::new(alloc),
            indexes: HashMap::new(alloc),
        }
    }

    /// The index of a text, which is listed if it wasn't used before.
    pub fn index_of(&mut self, text: &'a str) -> Result<usize, AllocError>
        ensures texts { OnOk result ((used : List (List ℕ)) → AreTexts used self.old → AreTexts (used ++ text.now ∷ []) self.new) }
        ensures index { IfOk result (λ index. (used : List (List ℕ)) → AreTexts used self.old → slice_get (listed_texts self.new) index ≡ Some text.now) }
        ensures err { OnErr result ((used : List (List ℕ)) → AreTexts used self.old → AreTexts used self.new) }
    {
        if let Some(index) = self.indexes.get(&text) {
            return Ok(*index);
        }
        let index = self.listed.len();
        self.listed.reserve(1)?;
        self.indexes.insert(text, index)?;
        self.listed.push(text)?;
        Ok(index)
    }
}
