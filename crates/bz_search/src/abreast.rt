//! Searches among the starts for many addresses in step.

ghost use Rattle.std.specs.Prelude.{◌≡◌, ℕ, ◌+◌, ◌-◌, ◌*◌, ◌^◌, ◌<◌, ◌≤◌, length, slice_index, slice_index_or, All, IfOk, OnOk, None};
ghost use Rattle.bz_search.specs.Abreast.{IsSearch, Halves, IsAtEnd, Ends, EachBy};
ghost use Rattle.bz_search.specs.declared.abreast.Search.{Search};
ghost use Rattle.bz_search.specs.Starts.{IsAt, AreFoundSoFar, HaveShortPlaces};

use crate::place::Place;
use crate::span::Addr;
use crate::starts::Starts;
use crate::steps::Steps;
use crate::sweep::{Gap, most_probes, placed};
use std::alloc::{AllocError, Global};
use std::sync::ledger::Ledger;

/// How many searches go in step. They are enough to hide each other's waiting, and few enough to stay
/// in the nearest cache.
const ABREAST: usize = 32;

/// A search that goes on.
#[derive(Clone, Copy)]
struct Search {
    addr: Addr,
    /// High, then low: every start before low is below the address, and none from high on is.
    ends: [usize; 2],
    /// The start at high, then the one before low, where these were probed. The second is never
    /// read: it is there so that a probe needs no condition to be written.
    beside: [Addr; 2],
}

/// Puts the places of the next addresses, at most `ABREAST` of them, after the places found so far.
pub(crate) fn search_group<L: Ledger>(
    alloc: Global,
    table: &Starts,
    addrs: &[Addr],
    places: &mut Vec<Place>,
    steps: &mut Steps<L>,
) -> Result<(), AllocError>
    requires so_far { AreFoundSoFar table.now addrs.now places.old.items }
    requires left { length places.old.items < length addrs.now }
    requires short { HaveShortPlaces table.now }
    ensures so_far { OnOk result (AreFoundSoFar table.now addrs.now places.new.items) }
    ensures further { OnOk result (length places.old.items < length places.new.items) }
    ensures within { OnOk result (length places.new.items ≤ length addrs.now) }
    ensures more { steps.old ≤ steps.new }
    ensures cost { OnOk result ((most : ℕ) → length table.now < 2 ^ most → steps.new ≤ steps.old + (length places.new.items - length places.old.items) * most) }
    ensures cost_within { (most : ℕ) → length table.now < 2 ^ most → steps.new ≤ steps.old + (length addrs.now - length places.old.items) * most }
{
    let from = places.len();
    let to = addrs.len().min(from.saturating_add(ABREAST));
    let mut searches = begun(alloc, table, addrs, from, to)?;
    search_all(&mut searches, table, steps);
    push_found(table, &searches, places)?;
    Ok(())
}

/// A search for each of the addresses between the two indices.
fn begun(
    alloc: Global,
    table: &Starts,
    addrs: &[Addr],
    from: usize,
    to: usize,
) -> Result<Vec<Search>, AllocError>
    requires ordered { from ≤ to }
    requires within { to ≤ length addrs.now }
    ensures searches { IfOk result (λ searches. All (IsSearch table.now) searches.items) }
    ensures addrs { IfOk result (λ searches. (k : ℕ) (default : Search) → k < to - from → (slice_index_or searches.items k default).addr ≡ slice_index addrs.now (from + k)) }
    ensures count { IfOk result (λ searches. length searches.items ≡ to - from) }
{
    let count = table.len();
    let mut searches = Vec::with_capacity(alloc, to - from)?;
    for index in from..to {
        searches.push(Search {
            addr: addrs[index],
            ends: [count, 0],
            beside: [0, 0],
        })?;
    }
    Ok(searches)
}

/// Puts what each search found at the end of the places.
fn push_found(
    table: &Starts,
    searches: &[Search],
    places: &mut Vec<Place>,
) -> Result<(), AllocError>
    requires ends { All (IsAtEnd table.now) searches.now }
    requires short { HaveShortPlaces table.now }
    ensures count { OnOk result (length places.new.items ≡ length places.old.items + length searches.now) }
    ensures kept { OnOk result ((k : ℕ) → k < length places.old.items → slice_index_or places.new.items k None ≡ slice_index_or places.old.items k None) }
    ensures found { OnOk result ((k : ℕ) (default : Search) → k < length searches.now → IsAt table.now (slice_index_or searches.now k default).addr (slice_index_or places.new.items (length places.old.items + k) None)) }
{
    for search in searches {
        let gap = Gap {
            place: search.ends[0],
            above: search.beside[0],
        };
        places.push(placed(table, gap, search.addr))?;
    }
    Ok(())
}

/// One probe of a search, if there is anything left to tell apart. The comparison's result is an
/// index and no condition: which half goes on can't be guessed, and a wrong guess costs more than
/// the probe.
#[inline(always)]
fn halve<L: Ledger>(search: &mut Search, table: &Starts, steps: &mut Steps<L>)
    requires { IsSearch table.now search.old }
    ensures halves { Halves table.now search.old search.new }
    ensures more { steps.old ≤ steps.new }
    ensures cost { steps.new ≤ steps.old + 1 }
{
    let [high, low] = search.ends;
    if low < high {
        let middle = low + (high - low) / 2;
        let start = table.probe(middle, steps);
        let below = usize::from(start < search.addr);
        search.ends[below] = middle + below;
        search.beside[below] = start;
    }
}

/// One probe of each search.
fn halve_each<L: Ledger>(searches: &mut [Search], table: &Starts, steps: &mut Steps<L>)
    requires { All (IsSearch table.now) searches.old }
    ensures halves { EachBy (Halves table.now) searches.old searches.new }
    ensures count { length searches.new ≡ length searches.old }
    ensures more { steps.old ≤ steps.new }
    ensures cost { steps.new ≤ steps.old + length searches.old }
{
    for search in searches.iter_mut() {
        halve(search, table, steps);
    }
}

/// All searches to their ends, probe by probe in turn: the probes of one wait for memory together.
fn search_all<L: Ledger>(searches: &mut [Search], table: &Starts, steps: &mut Steps<L>)
    requires { All (IsSearch table.now) searches.old }
    ensures ends { EachBy (Ends table.now) searches.old searches.new }
    ensures count { length searches.new ≡ length searches.old }
    ensures more { steps.old ≤ steps.new }
    ensures cost { (most : ℕ) → length table.now < 2 ^ most → steps.new ≤ steps.old + length searches.old * most }
{
    for _round in 0..most_probes(table.len()) {
        halve_each(searches, table, steps);
    }
}
