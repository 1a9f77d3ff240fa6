//! The search among records themselves, without a list of their starts.

ghost use Rattle.std.specs.Prelude.{◌≡◌, ◌<◌, ◌≤◌, List, length, map, option_map, slice_index, IfSome};
ghost use Rattle.bz_search.specs.Nearest.{IsTable, nearest_covering};
ghost use Rattle.bz_search.specs.Starts.{IsFound, NeverDescends};

use crate::span::Addr;
use crate::starts::{Probe, nearest};
use crate::steps::Steps;
use crate::table::{Spanned, covering_at, place_found};
use std::marker::{Brand, Model};
use std::sync::ledger::{Blank, Ledger};

/// The starts of records, which never descend. Contracts see the starts.
#[derive(Drop)]
struct RecordStarts<'t, T: Spanned> {
    records: &'t [T],
}

impl<'t, T: Spanned> Model for RecordStarts<'t, T> {
    ghost use Rattle.std.specs.Prelude.{ℕ, List, map};
    ghost use Rattle.bz_search.specs.Starts.{NeverDescends};

    ghost Value = { List ℕ };

    ghost view = { λ s. map T.start s.records.now };

    ghost invariant = { λ s. NeverDescends (map T.start s.records.now) };
}

impl<'t, T: Spanned> Probe for RecordStarts<'t, T> {
    ghost starts = { λ s. s };

    fn len(&self) -> usize {
        self.records.len()
    }

    fn probe<L: Ledger>(&self, i: usize, steps: &mut Steps<L>) -> u64 {
        steps.tick();
        start_of(self.records, i)
    }
}

/// The start of the record at a place.
#[inline(always)]
fn start_of<T: Spanned>(records: &[T], place: usize) -> u64
    requires { place < length records.now }
    ensures { result ≡ slice_index (map T.start records.now) place }
{
    records[place].start()
}

/// The record that answers for an address, of a table by start and size.
pub fn covering_in<T: Spanned>(table: &[T], addr: Addr) -> Option<&T>
    requires { NeverDescends (map T.start table.now) }
    ensures covering { (records : List T) → IsTable T.start T.size records table.now →
        option_map (λ r. r.now) result ≡ nearest_covering T.start T.size addr records }
    ensures below { IfSome result (λ r. T.start r.now ≤ addr) }
{
    covering_at(table, place_found(find(table, addr)), addr)
}

/// Place and start of the record that is to be tried at an address.
fn find<T: Spanned>(table: &[T], addr: Addr) -> Option<(usize, Addr)>
    requires { NeverDescends (map T.start table.now) }
    ensures { IsFound (map T.start table.now) addr result }
{
    find_blank::<T, Brand>(table, addr, Blank::new(1))
}

// The same, with a count that nobody reads.
fn find_blank<T: Spanned, L: Ledger>(table: &[T], addr: Addr, blank: Blank) -> Option<(usize, Addr)>
    requires name { blank.name ≡ L.name }
    requires parts { blank.parts ≡ L.parts }
    requires positive { 0 < L.parts }
    requires ascend { NeverDescends (map T.start table.now) }
    ensures { IsFound (map T.start table.now) addr result }
{
    let mut steps = Steps::<L>::new(blank);
    nearest(&RecordStarts { records: table }, addr, &mut steps)
}
