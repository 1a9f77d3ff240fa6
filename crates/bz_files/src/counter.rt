//! Counts that stand still at their last value.

ghost use Rattle.std.specs.Prelude.{◌≡◌, ◌≤◌};
ghost use Rattle.bz_files.specs.Count.{counted};

use std::marker::Model;

/// A count, which stands still at its last value.
#[derive(Drop)]
pub struct Counter {
    count: u64,
}

impl Model for Counter {
    ghost use Rattle.std.specs.Prelude.{ℕ};

    ghost Value = { ℕ };

    ghost view = { λ a. a.count };
}

impl Counter {
    /// Nothing is counted yet.
    pub fn new() -> Counter
        ensures { result ≡ 0 }
    {
        Counter { count: 0 }
    }

    /// Counts one more.
    pub fn add_one(&mut self)
        ensures counted { self.new ≡ counted self.old }
        ensures grows { self.old ≤ self.new }
    {
        self.count = self.count.saturating_add(1);
    }

    /// How many were counted.
    pub fn get(&self) -> u64
        ensures { result ≡ self.now }
    {
        self.count
    }
}
