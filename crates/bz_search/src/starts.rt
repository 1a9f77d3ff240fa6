//! Starts that never descend, and the search among them.

ghost use Rattle.std.specs.Prelude.{◌≡◌, ℕ, ◌+◌, ◌-◌, ◌*◌, ◌^◌, ◌<◌, ◌≤◌, List, length, slice_index};
ghost use Rattle.bz_search.specs.Starts.{NeverDescends, IsFound, AreFew};

use crate::span::Addr;
use crate::steps::Steps;
use std::marker::Model;
use std::sync::ledger::Ledger;

/// Starts that never descend, of which one is told at a time, by one step.
pub trait Probe {
    /// The starts.
    ghost starts: { Self → List ℕ };

    /// How many starts there are.
    fn len(&self) -> usize
        ensures value { result ≡ length (starts self.now) }
        ensures never_descends { NeverDescends (starts self.now) };

    /// The start at a place, by one step.
    fn probe<L: Ledger>(&self, i: usize, steps: &mut Steps<L>) -> u64
        requires { i < length (starts self.now) }
        ensures value { result ≡ slice_index (starts self.now) i }
        ensures step { steps.new ≡ steps.old + 1 };
}

/// A list of starts that never descends. Only `probe` gives one of them.
#[derive(Drop)]
pub struct Starts {
    starts: Vec<u64>,
}

impl Model for Starts {
    ghost use Rattle.std.specs.Prelude.{ℕ, List};
    ghost use Rattle.bz_search.specs.Starts.{NeverDescends};

    ghost Value = { List ℕ };

    ghost view = { λ s. s.starts.items };

    ghost invariant = { λ s. NeverDescends s.starts.items };
}

impl Starts {
    /// The starts, which never descend.
    pub fn from_sorted(starts: Vec<u64>) -> Starts
        requires { NeverDescends starts.items }
        ensures { result ≡ starts.items }
    {
        Starts { starts }
    }

    /// How many starts there are.
    pub fn len(&self) -> usize
        ensures value { result ≡ length self.now }
        ensures never_descends { NeverDescends self.now }
    {
        self.starts.len()
    }

    /// The start at a place, by one step.
    pub fn probe<L: Ledger>(&self, i: usize, steps: &mut Steps<L>) -> u64
        requires { i < length self.now }
        ensures value { result ≡ slice_index self.now i }
        ensures step { steps.new ≡ steps.old + 1 }
    {
        steps.tick();
        self.starts[i]
    }
}

impl Probe for Starts {
    ghost starts = { λ s. s };

    fn len(&self) -> usize {
        Starts::len(self)
    }

    fn probe<L: Ledger>(&self, i: usize, steps: &mut Steps<L>) -> u64 {
        Starts::probe(self, i, steps)
    }
}

/// Place and start of the first start that equals the address, else of the last one below it.
pub fn nearest<T: Probe, L: Ledger>(
    table: &T,
    addr: Addr,
    steps: &mut Steps<L>,
) -> Option<(usize, Addr)>
    ensures found { IsFound (T.starts table.now) addr result }
    ensures more { steps.old ≤ steps.new }
    ensures few { AreFew (steps.new - steps.old) (length (T.starts table.now)) }
{
    let mut low = 0;
    let mut high = table.len();
    let mut below = 0;
    let mut above = 0;
    while low < high {
        let middle = low + (high - low) / 2;
        let start = table.probe(middle, steps);
        if start < addr {
            low = middle + 1;
            below = start;
        } else {
            high = middle;
            above = start;
        }
    }
    if high < table.len() && above == addr {
        Some((high, above))
    } else if low > 0 {
        Some((low - 1, below))
    } else {
        None
    }
}
