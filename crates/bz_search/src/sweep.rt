//! The places of a whole batch of addresses, by one pass along the starts or by a search for each.

ghost use Rattle.std.specs.Prelude.{◌≡◌, ℕ, ◌+◌, ◌-◌, ◌*◌, ◌^◌, ◌<◌, ◌≤◌, length, slice_index, slice_index_or, All, Contains, IfOk};
ghost use Rattle.std.specs.List.Sorted.{IsNonDecreasingBy};
ghost use Rattle.bz_search.specs.Starts.{IsAt, AreFound, HaveShortPlaces};
ghost use Rattle.bz_search.specs.Sweep.{IsGap, IsEntry};

use crate::abreast::search_group;
use crate::place::Place;
use crate::span::Addr;
use crate::starts::Starts;
use crate::steps::Steps;
use std::alloc::{AllocError, Global};
use std::sync::ledger::Ledger;

/// For each address of the batch the place that `nearest` gives for it. They are found by a pass along
/// the starts or by a search for each, whichever has the lesser bound. Want of memory comes also from
/// 2^32 starts on, since a place is kept in four bytes.
pub fn nearest_each<L: Ledger>(
    alloc: Global,
    table: &Starts,
    addrs: &[Addr],
    steps: &mut Steps<L>,
) -> Result<Vec<Place>, AllocError>
    ensures found { IfOk result (λ places. AreFound table.now addrs.now places.items) }
    ensures count { IfOk result (λ places. length places.items ≡ length addrs.now) }
    ensures more { steps.old ≤ steps.new }
    ensures swept { steps.new - steps.old ≤ length addrs.now + length table.now }
    ensures searched { (p : ℕ) → length table.now < 2 ^ p → steps.new - steps.old ≤ length addrs.now * p }
{
    let count = table.len();
    if count > u32::MAX as usize {
        return Err(AllocError);
    }
    let most = most_probes(count);
    let swept = addrs.len() as u128 + count as u128;
    let searched = addrs.len() as u128 * most as u128;
    if swept <= searched {
        sweep(alloc, table, addrs, steps)
    } else {
        search_each(alloc, table, addrs, steps)
    }
}

/// How many probes a search among so many starts takes at most.
pub(crate) fn most_probes(count: usize) -> u32
    ensures enough { count < 2 ^ result }
    ensures needed { 2 ^ result ≤ 2 * count + 1 }
{
    let mut most: u32 = 0;
    let mut left = count;
    while left > 0 {
        left /= 2;
        most += 1;
    }
    most
}

/// The places by a search for each address, many in step.
fn search_each<L: Ledger>(
    alloc: Global,
    table: &Starts,
    addrs: &[Addr],
    steps: &mut Steps<L>,
) -> Result<Vec<Place>, AllocError>
    requires short { HaveShortPlaces table.now }
    ensures found { IfOk result (λ places. AreFound table.now addrs.now places.items) }
    ensures count { IfOk result (λ places. length places.items ≡ length addrs.now) }
    ensures more { steps.old ≤ steps.new }
    ensures cost { (most : ℕ) → length table.now < 2 ^ most → steps.new ≤ steps.old + length addrs.now * most }
{
    let mut places = Vec::with_capacity(alloc, addrs.len())?;
    while places.len() < addrs.len() {
        search_group(alloc, table, addrs, &mut places, steps)?;
    }
    Ok(places)
}

/// The places by one pass along the starts.
fn sweep<L: Ledger>(
    alloc: Global,
    table: &Starts,
    addrs: &[Addr],
    steps: &mut Steps<L>,
) -> Result<Vec<Place>, AllocError>
    requires short { HaveShortPlaces table.now }
    ensures found { IfOk result (λ places. AreFound table.now addrs.now places.items) }
    ensures count { IfOk result (λ places. length places.items ≡ length addrs.now) }
    ensures more { steps.old ≤ steps.new }
    ensures cost { steps.new ≤ steps.old + length addrs.now + length table.now }
{
    let order = ordered(alloc, addrs)?;
    let mut places = Vec::new(alloc);
    places.resize(addrs.len(), Place::none())?;
    sweep_along(table, addrs, &order, &mut places, steps);
    Ok(places)
}

/// Writes the places of addresses that ascend, each at the index of its address.
fn sweep_along<L: Ledger>(
    table: &Starts,
    addrs: &[Addr],
    order: &[(Addr, usize)],
    places: &mut [Place],
    steps: &mut Steps<L>,
)
    requires entries { All (IsEntry addrs.now) order.now }
    requires ascending { IsNonDecreasingBy (λ e. e.0) order.now }
    requires count { length places.old ≡ length addrs.now }
    requires short { HaveShortPlaces table.now }
    ensures found { (j : ℕ) → j < length order.now → IsAt table.now (slice_index_or order.now j (0, 0)).0 (slice_index_or places.new (slice_index_or order.now j (0, 0)).1 None) }
    ensures more { steps.old ≤ steps.new }
    ensures cost { steps.new ≤ steps.old + length order.now + length table.now }
{
    let mut gap = Gap { place: 0, above: 0 };
    for (_, index) in order {
        let addr = addrs[*index];
        gap = advance(table, gap, addr, steps);
        places[*index] = placed(table, gap, addr);
    }
}

/// The addresses with their indices, in the order of the addresses.
fn ordered(alloc: Global, addrs: &[Addr]) -> Result<Vec<(Addr, usize)>, AllocError>
    ensures entries { IfOk result (λ order. All (IsEntry addrs.now) order.items) }
    ensures each { IfOk result (λ order. (k : ℕ) → k < length addrs.now → Contains order.items (slice_index addrs.now k, k)) }
    ensures ascending { IfOk result (λ order. IsNonDecreasingBy (λ e. e.0) order.items) }
    ensures count { IfOk result (λ order. length order.items ≡ length addrs.now) }
{
    let mut order = entries(alloc, addrs)?;
    order.sort_unstable_by_key(|entry| entry.0);
    Ok(order)
}

/// The addresses with their indices.
fn entries(alloc: Global, addrs: &[Addr]) -> Result<Vec<(Addr, usize)>, AllocError>
    ensures entries { IfOk result (λ order. (k : ℕ) → k < length addrs.now → slice_index_or order.items k (0, 0) ≡ (slice_index addrs.now k, k)) }
    ensures count { IfOk result (λ order. length order.items ≡ length addrs.now) }
{
    let mut order = Vec::new(alloc);
    for (index, addr) in addrs.iter().enumerate() {
        order.push((*addr, index))?;
    }
    Ok(order)
}

/// A place among the starts or after the last, with the start at it where there is one.
#[derive(Clone, Copy)]
pub(crate) struct Gap {
    pub(crate) place: usize,
    pub(crate) above: u64,
}

/// The gap for an address, onwards from the one for an address that isn't greater.
fn advance<L: Ledger>(table: &Starts, from: Gap, addr: Addr, steps: &mut Steps<L>) -> Gap
    requires within { from.place ≤ length table.now }
    requires lower { (k : ℕ) → k < from.place → slice_index table.now k < addr }
    ensures gap { IsGap table.now addr result.place result.above }
    ensures more { steps.old ≤ steps.new }
    ensures cost { steps.new + from.place ≤ steps.old + result.place + 1 }
{
    let mut gap = from;
    while gap.place < table.len() {
        let start = table.probe(gap.place, steps);
        if start >= addr {
            gap.above = start;
            return gap;
        }
        gap.place += 1;
    }
    gap
}

/// The place that answers for the address.
pub(crate) fn placed(table: &Starts, gap: Gap, addr: Addr) -> Place
    requires gap { IsGap table.now addr gap.place gap.above }
    requires short { HaveShortPlaces table.now }
    ensures { IsAt table.now addr result }
{
    if gap.place < table.len() && gap.above == addr {
        Place::at(gap.place)
    } else if gap.place > 0 {
        Place::at(gap.place - 1)
    } else {
        Place::none()
    }
}
