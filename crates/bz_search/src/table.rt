//! Tables of records by start and size, and the record at a place of one, if it covers an address.

ghost use Rattle.std.specs.Prelude.{◌≡◌, ℕ, ◌≤◌, List, length, map, option_map, OnOk, OnErr, IfOk, IfSome};
ghost use Rattle.bz_search.specs.Nearest.{IsTable, if_covers, nearest_covering};
ghost use Rattle.bz_search.specs.Starts.{NeverDescends, IsFound, IsAt};

use crate::span::{Addr, covers};
use crate::starts::Starts;
use std::alloc::{AllocError, Global};

/// A record with a start and a size. Where records may cover addresses, the size is a number of bytes:
/// `covering_at`, `covering_in`, `around_in` and `chain_in` read it so. `sort_table` takes it as the
/// second key alone, which may count anything. Nothing else here reads it.
pub trait Spanned {
    /// The first address, as the source has it.
    ghost start: { Self → ℕ };

    /// The number of bytes, or a second key of records that are only sorted.
    ghost size: { Self → ℕ };

    /// The first address, as the source has it.
    fn start(&self) -> u64
        ensures { result ≡ start self.now };

    /// The number of bytes, or a second key of records that are only sorted.
    fn size(&self) -> u64
        ensures { result ≡ size self.now };
}

/// Puts records into the order of start and size, and leaves those that are alike in both as they
/// stand.
pub fn sort_table<T: Spanned>(records: &mut Vec<T>) -> Result<(), AllocError>
    ensures table { OnOk result (IsTable T.start T.size records.old.items records.new.items) }
    ensures count { length records.new.items ≡ length records.old.items }
    ensures ascending { OnOk result (NeverDescends (map T.start records.new.items)) }
    ensures err { OnErr result (records.new.items ≡ records.old.items) }
{
    records.sort_by_key(|r| (r.start(), r.size()))?;
    Ok(())
}

/// The starts of a table.
pub fn starts_of<T: Spanned>(alloc: Global, table: &[T]) -> Result<Starts, AllocError>
    requires { NeverDescends (map T.start table.now) }
    ensures { IfOk result (λ starts. starts ≡ map T.start table.now) }
{
    let mut starts = Vec::new(alloc);
    for record in table {
        starts.push(record.start())?;
    }
    Ok(Starts::from_sorted(starts))
}

/// The place alone of what a search found.
pub fn place_found(found: Option<(usize, Addr)>) -> Option<usize>
    ensures value { result ≡ option_map (λ place. place.0) found }
    ensures at { (starts : List ℕ) (addr : ℕ) → IsFound starts addr found → IsAt starts addr result }
{
    found.map(|place| place.0)
}

/// The record that answers for the address, of a table and the place that a search among its
/// starts found.
pub fn covering_at<T: Spanned>(table: &[T], place: Option<usize>, addr: Addr) -> Option<&T>
    requires { IsAt (map T.start table.now) addr place }
    ensures covering { (records : List T) → IsTable T.start T.size records table.now →
        option_map (λ r. r.now) result ≡ nearest_covering T.start T.size addr records }
    ensures below { IfSome result (λ r. T.start r.now ≤ addr) }
{
    match place {
        Some(place) => if_covers(&table[place], addr),
        None => None,
    }
}

/// The record, if it covers the address.
fn if_covers<T: Spanned>(entry: &T, addr: Addr) -> Option<&T>
    ensures same { IfSome result (λ r. r.now ≡ entry.now) }
    ensures value { option_map (λ r. r.now) result ≡ if_covers T.start T.size addr entry.now }
{
    if covers(entry.start(), entry.size(), addr) {
        Some(entry)
    } else {
        None
    }
}
