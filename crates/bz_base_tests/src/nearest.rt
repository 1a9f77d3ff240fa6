//! Which record answers for an address, and which are around it, of small tables.

ghost use Rattle.std.specs.Prelude.{◌≡◌, ◌<◌, map};
ghost use Rattle.bz_search.specs.Starts.{NeverDescends};

use bz_base::{
    Nested, Place, Spanned, Starts, Steps, around_in, chain_in, covering_at, covering_in, covers,
    inner_in, inside, nearest, nearest_each, place_found, sort_nested, sort_table, starts_of,
};
use std::alloc::{AllocError, Global};
use std::marker::Brand;
use std::sync::ledger::{Blank, Ledger};

/// A record with the number of its place in the file.
#[derive(Drop)]
struct Entry {
    start: u64,
    size: u64,
    depth: u32,
    id: u8,
}

impl Spanned for Entry {
    ghost start = { λ e. e.start };

    ghost size = { λ e. e.size };

    fn start(&self) -> u64 {
        self.start
    }

    fn size(&self) -> u64 {
        self.size
    }
}

impl Nested for Entry {
    ghost depth = { λ e. e.depth };

    fn depth(&self) -> u32 {
        self.depth
    }
}

/// Records of these starts, sizes and depths, in the order of their file.
fn entries(alloc: Global, spans: &[(u64, u64, u32)]) -> Result<Vec<Entry>, AllocError> {
    let mut entries = Vec::new(alloc);
    let mut id: u8 = 0;
    for (start, size, depth) in spans {
        entries.push(Entry {
            start: *start,
            size: *size,
            depth: *depth,
            id,
        })?;
        id = id.wrapping_add(1);
    }
    Ok(entries)
}

/// The number of the record, or 99 where there is none.
fn id_of(entry: Option<&Entry>) -> u8 {
    match entry {
        Some(entry) => entry.id,
        None => 99,
    }
}

/// Starts, sizes and depths in the order of a file, of which two are equal.
static NESTED: [(u64, u64, u32); 5] = [(4, 9, 1), (0, 20, 0), (4, 9, 1), (5, 2, 2), (6, 0, 3)];

/// Whether a chain has the records around 6, from the outermost on.
fn is_around(chain: &[&Entry]) -> bool {
    chain.len() == 3 && chain[0].id == 1 && chain[1].id == 2 && chain[2].id == 3
}

/// Whether the last record of a depth that begins before an address is found where it is around it.
fn has_inner(table: &[Entry]) -> bool {
    id_of(inner_in(table, 1, 6)) == 2
        && id_of(inner_in(table, 3, 6)) == 4
        && id_of(around_in(table, 1, 6)) == 2
        && id_of(around_in(table, 3, 6)) == 99
}

/// Whether the records around 6 are found, in all and by their depths.
fn has_around(alloc: Global, table: &[Entry]) -> bool {
    match chain_in(alloc, table, 6) {
        Ok(chain) => is_around(&chain) && has_inner(table),
        Err(_) => false,
    }
}

/// Whether they are found once the records are sorted.
fn finds_around(alloc: Global) -> Result<bool, AllocError> {
    let mut table = entries(alloc, &NESTED)?;
    sort_nested(&mut table)?;
    Ok(has_around(alloc, &table))
}

/// Starts, sizes and depths of 0 in the order of a file, of which several are equal.
static SPANS: [(u64, u64, u32); 6] = [
    (16, 8, 0),
    (16, 4, 0),
    (32, 0, 0),
    (16, 4, 0),
    (16, 8, 0),
    (8, 100, 0),
];

/// Addresses, and the number of the record that answers for each.
static ANSWERS: [(u64, u8); 9] = [
    (17, 4),
    (16, 1),
    (40, 99),
    (7, 99),
    (32, 2),
    (8, 5),
    (15, 5),
    (23, 4),
    (24, 99),
];

/// Whether a search among the records of a sorted table finds the one that answers.
fn records_answer(table: &[Entry]) -> bool
    requires { NeverDescends (map (λ e. e.start) table.now) }
{
    for (addr, want) in &ANSWERS {
        if id_of(covering_in(table, *addr)) != *want {
            return false;
        }
    }
    true
}

/// The number of the record that answers, which a search among the starts of a table finds.
fn id_by_starts<L: Ledger>(table: &[Entry], starts: &Starts, addr: u64, steps: &mut Steps<L>) -> u8
    requires { starts.now ≡ map (λ e. e.start) table.now }
{
    let place = place_found(nearest(starts, addr, steps));
    id_of(covering_at(table, place, addr))
}

/// Whether searches among the starts of a sorted table find the records that answer, and the place of
/// the one for 17.
fn search_answers<L: Ledger>(table: &[Entry], starts: &Starts, steps: &mut Steps<L>) -> bool
    requires { starts.now ≡ map (λ e. e.start) table.now }
{
    for (addr, want) in &ANSWERS {
        if id_by_starts(table, starts, *addr, steps) != *want {
            return false;
        }
    }
    place_found(nearest(starts, 17, steps)) == Some(4)
}

/// Whether each address that is found with others has the place that it has by a search alone.
fn are_places<L: Ledger>(
    starts: &Starts,
    addrs: &[u64],
    places: &[Place],
    steps: &mut Steps<L>,
) -> bool {
    if places.len() != addrs.len() {
        return false;
    }
    for index in 0..addrs.len() {
        if places[index].get() != place_found(nearest(starts, addrs[index], steps)) {
            return false;
        }
    }
    true
}

/// Whether addresses that are found together have their places.
fn have_places<L: Ledger>(
    alloc: Global,
    starts: &Starts,
    addrs: &[u64],
    steps: &mut Steps<L>,
) -> bool {
    match nearest_each(alloc, starts, addrs, steps) {
        Ok(places) => are_places(starts, addrs, &places, steps),
        Err(_) => false,
    }
}

/// Addresses that are searched together.
static TOGETHER: [u64; 9] = [17, 16, 40, 7, 32, 8, 15, 23, 24];

/// Whether many addresses, which are found in one sweep, have their places, and so has one alone.
fn places_agree<L: Ledger>(alloc: Global, starts: &Starts, steps: &mut Steps<L>) -> bool {
    Place::none().get() == None
        && have_places(alloc, starts, &TOGETHER, steps)
        && have_places(alloc, starts, &TOGETHER[..1], steps)
}

/// Whether searches find the record that answers, in a table that is sorted.
fn finds_sorted<L: Ledger>(alloc: Global, table: &[Entry], steps: &mut Steps<L>) -> bool
    requires { NeverDescends (map (λ e. e.start) table.now) }
{
    match starts_of(alloc, table) {
        Ok(starts) => records_answer(table)
            && search_answers(table, &starts, steps)
            && places_agree(alloc, &starts, steps),
        Err(_) => false,
    }
}

/// Whether the record that answers is found by searches once the records are sorted.
fn finds_record<L: Ledger>(alloc: Global, steps: &mut Steps<L>) -> Result<bool, AllocError> {
    let mut table = entries(alloc, &SPANS)?;
    sort_table(&mut table)?;
    Ok(finds_sorted(alloc, &table, steps))
}

/// Addresses, and for each the place of its start among the sorted ones, and this start.
static PLACES: [(u64, usize, u64); 4] = [(10, 0, 10), (15, 1, 10), (20, 2, 20), (99, 3, 20)];

fn has_places<L: Ledger>(starts: &Starts, steps: &mut Steps<L>) -> bool {
    for (addr, place, start) in &PLACES {
        if nearest(starts, *addr, steps) != Some((*place, *start)) {
            return false;
        }
    }
    nearest(starts, 9, steps) == None
}

/// Whether places are found among starts that are put in order by std.
fn sorted_have_places<L: Ledger>(mut numbers: Vec<u64>, steps: &mut Steps<L>) -> bool {
    numbers.sort_unstable();
    let starts = Starts::from_sorted(numbers);
    has_places(&starts, steps)
}

/// Whether no place is found among no starts.
fn none_has_places<L: Ledger>(none: &Starts, steps: &mut Steps<L>) -> bool {
    none.len() == 0 && nearest(none, 9, steps) == None
}

/// Whether places are found among starts that were not in order, and none among none.
fn finds_places<L: Ledger>(alloc: Global, steps: &mut Steps<L>) -> Result<bool, AllocError> {
    let none = none_has_places(&Starts::from_sorted(Vec::new(alloc)), steps);
    let numbers = vec![in alloc; 20, 10, 20, 10]?;
    Ok(sorted_have_places(numbers, steps) && none)
}

/// Whether records and places are found, in counted steps.
fn finds<L: Ledger>(blank: Blank, alloc: Global) -> bool
    requires name { blank.name ≡ L.name }
    requires parts { blank.parts ≡ L.parts }
    requires positive { 0 < L.parts }
{
    let mut steps = Steps::<L>::new(blank);
    finds_record(alloc, &mut steps) == Ok(true) && finds_places(alloc, &mut steps) == Ok(true)
}

/// Whether a record covers the addresses up to its end, which may reach the last one and not pass it.
fn covers_up_to_its_end() -> bool {
    covers(5, 0, 5)
        && covers(16, 4, 19)
        && covers(u64::MAX - 4, 4, u64::MAX - 1)
        && !covers(16, 4, 20)
        && !covers(u64::MAX - 3, 4, u64::MAX - 3)
}

/// Whether it has the same addresses inside, but for the start where it has no size.
fn has_inside_up_to_its_end() -> bool {
    !inside(5, 0, 5)
        && inside(16, 4, 19)
        && inside(u64::MAX - 4, 4, u64::MAX - 1)
        && !inside(16, 4, 20)
        && !inside(u64::MAX - 3, 4, u64::MAX - 3)
}

#[test]
fn counted_steps_take_no_bytes_and_places_four(rt: HostRuntime) {
    assert!(rt; size_of::<Steps<Brand>>() == 0, "steps");
    assert!(rt; size_of::<Place>() == 4, "places");
}

#[test]
fn finds_records_and_places_of_addresses(rt: HostRuntime) {
    assert!(rt; covers_up_to_its_end(), "records up to their ends");
    assert!(rt; has_inside_up_to_its_end(), "addresses inside records");
    assert!(rt;
        finds_around(rt.alloc()) == Ok(true),
        "records around an address"
    );
    assert!(rt;
        finds::<Brand>(Blank::new(1), rt.alloc()),
        "the record of an address, and its place among starts"
    );
}
