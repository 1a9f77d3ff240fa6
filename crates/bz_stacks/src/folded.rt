//! Folded stacks: at each path the sum of the counts of the stacks with that path.

ghost use Rattle.std.specs.Prelude.{◌≡◌, ◌<◌, ◌≤◌, ◌*◌, length, map, OnOk, OnErr, IsOkUnless, IfOk};
ghost use Rattle.bz_base.specs.Answer.{reading};
ghost use Rattle.bz_base.specs.declared.error.Error.{Error};
ghost use Rattle.bz_stacks.specs.Folding.{added, nothing_folded, sum_at};
ghost use Rattle.bz_stacks.specs.Path.{path_of};
ghost use Rattle.bz_stacks.specs.Text.{text_of};

use crate::path::path_of;
use crate::stack::Stack;
use crate::text::text_of;
use bz_base::{Error, Result, Symbolized};
use std::alloc::Global;
use std::collections::BTreeMap;
use std::marker::Model;

/// The sum of the counts of the stacks of each path.
#[derive(Drop)]
pub struct Folded {
    sums: BTreeMap<Vec<u8>, u64>,
    stacks: u32,
    alloc: Global,
}

impl Model for Folded {
    ghost use Rattle.std.specs.Prelude.{◌≤◌, ◌*◌};
    ghost use Rattle.std.specs.List.{All};
    ghost use Rattle.std.specs.BTreeMap.{values};
    ghost use Rattle.bz_stacks.specs.Folding.{Folding, coded_folding};
    ghost use Rattle.bz_stacks.specs.Stored.{kept_sums};

    ghost Value = { Folding };

    ghost coded = { coded_folding };

    ghost view = { λ f. record { sums = kept_sums f.sums; stacks = f.stacks } };

    ghost invariant = { λ f. All (λ sum. sum ≤ f.stacks * 4294967295) (values f.sums) };
}

impl Folded {
    /// Nothing folded yet.
    pub fn new(alloc: Global) -> Folded
        ensures { result ≡ nothing_folded }
    {
        Folded {
            sums: BTreeMap::new(alloc),
            stacks: 0,
            alloc,
        }
    }

    /// How many stacks were added.
    pub fn stacks(&self) -> u32
        ensures { result ≡ self.now.stacks }
    {
        self.stacks
    }

    /// Adds a stack, with one answer for each of its addresses, in their order, where fewer than
    /// 2^32 - 1 were added before. Nothing has changed where memory ran out.
    pub fn add(&mut self, stack: &Stack, answers: &[Symbolized<'_>]) -> Result<()>
        requires answers { length answers.now ≡ length stack.now.addrs }
        requires stacks { self.old.stacks < 4294967295 }
        ensures ok { OnOk result (self.new ≡ added (path_of (map reading answers.now)) stack.now.count self.old) }
        ensures err { OnErr result (self.new ≡ self.old) }
        ensures memory { IsOkUnless result Error.OutOfMemory }
    {
        let path = path_of(self.alloc, answers)?;
        let sum = self.sum(path.as_slice());
        self.sums.insert(path, sum + u64::from(stack.count()))?;
        self.stacks += 1;
        Ok(())
    }

    /// The text: the line `PATH SUM` for each path, in the order of the paths' bytes.
    /// OutOfMemory: memory ran out.
    pub fn text(&self, alloc: Global) -> Result<Vec<u8>>
        ensures ok { IfOk result (λ text. text.items ≡ text_of self.now.sums) }
        ensures memory { IsOkUnless result Error.OutOfMemory }
    {
        // The map's own facts are known once it was asked for its length.
        let _count = self.sums.len();
        text_of(alloc, &self.sums)
    }

    // The sum at a path.
    fn sum(&self, path: &[u8]) -> u64
        ensures sum { result ≡ sum_at path.now self.now.sums }
        ensures bounded { result ≤ self.now.stacks * 4294967295 }
    {
        match self.sums.get(path) {
            Some(sum) => *sum,
            None => 0,
        }
    }
}
