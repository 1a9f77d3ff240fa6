//! Which record answers for an address: the function that covers it, or else a PUBLIC record.

ghost use Rattle.std.specs.Prelude.{◌≡◌, ◌≤◌, ◌<◌, ◌-◌, ℕ, None, length, IfOk, IfSome, IsOkUnless};
ghost use Rattle.bz_base.specs.Starts.{AreFound, IsAt, NeverDescends};
ghost use Rattle.bz_base.specs.declared.error.Error.{Error};
ghost use Rattle.bz_breakpad.specs.Found.{AreRecordsFor, IsFunctionOr, IsRecordFor};
ghost use Rattle.bz_breakpad.specs.Plain.{any_between, function_at};
ghost use Rattle.bz_breakpad.specs.Probes.{AreFewProbes, AreFewSteps};
ghost use Rattle.bz_breakpad.specs.Searched.{AreFoundFunctions, IsSearched};
ghost use Rattle.bz_breakpad.specs.Stands.{OfItsTable};
ghost use Rattle.bz_breakpad_table.specs.Sorted.{starts_of};

use crate::found::FoundRecord;
use bz_base::{
    Addr, Place, Result, Starts, Steps, covering_at, nearest, nearest_each, place_found,
};
use bz_breakpad_table::{FunctionTable, KeptTable, PublicTable};
use std::alloc::{AllocError, Global};
use std::sync::ledger::Ledger;

/// What is searched for addresses: what is kept of a file's records, and their starts.
#[derive(Drop)]
pub(crate) struct Searched<'f> {
    /// What is kept of the records.
    pub kept: &'f KeptTable,
    /// The starts of the functions, in their order.
    pub starts: &'f Starts,
    /// By what the PUBLIC records are found.
    pub publics: &'f PublicTable,
}

/// The functions that answer for addresses, and the addresses that are left.
#[derive(Drop)]
struct FoundFunctions {
    /// For each address the function, if one answers.
    records: Vec<FoundRecord>,
    /// The indices of the addresses for which none does.
    left: Vec<usize>,
    /// Those addresses.
    left_addrs: Vec<Addr>,
}

impl Searched<'_> {
    /// The record that answers for an address alone.
    pub fn record_at<L: Ledger>(&self, addr: Addr, steps: &mut Steps<L>) -> FoundRecord
        requires searched { IsSearched self.now }
        ensures record { OfItsTable self.now.kept.now (λ table. IsRecordFor table addr result) }
        ensures more { steps.old ≤ steps.new }
        ensures probes { OfItsTable self.now.kept.now (λ table. AreFewProbes table (steps.new - steps.old)) }
    {
        let place = place_found(nearest(self.starts, addr, steps));
        if let Some(index) = function_index(self.kept, place, addr) {
            return FoundRecord::Function(index);
        }
        if self.kept.publics.is_empty() {
            return FoundRecord::Absent;
        }
        let public_place = place_found(nearest(&self.publics.starts, addr, steps));
        self.public_record(place, public_place, addr)
    }

    /// The records that answer for addresses. An address that a function covers isn't looked up among
    /// PUBLIC records.
    pub fn find_records<L: Ledger>(
        &self,
        alloc: Global,
        addrs: &[Addr],
        steps: &mut Steps<L>,
    ) -> Result<Vec<FoundRecord>>
        requires searched { IsSearched self.now }
        ensures records { IfOk result (λ found. OfItsTable self.now.kept.now (λ table. AreRecordsFor table addrs.now found.items)) }
        ensures count { IfOk result (λ found. length found.items ≡ length addrs.now) }
        ensures more { steps.old ≤ steps.new }
        ensures probes { OfItsTable self.now.kept.now (λ table. AreFewSteps table (length addrs.now) (steps.new - steps.old)) }
        ensures memory { IsOkUnless result Error.OutOfMemory }
    {
        let places = nearest_each(alloc, self.starts, addrs, steps)?;
        let found = functions_found(alloc, self.kept, addrs, &places)?;
        if self.kept.publics.is_empty() {
            return Ok(found.records);
        }
        let public_places = nearest_each(alloc, &self.publics.starts, &found.left_addrs, steps)?;
        let records = self.with_publics(addrs, &places, found, &public_places);
        Ok(records)
    }

    /// The records that answer for addresses, from the functions that do, and the places that searches
    /// among the starts of functions and PUBLIC records found.
    fn with_publics(
        &self,
        addrs: &[Addr],
        places: &[Place],
        found: FoundFunctions,
        public_places: &[Place],
    ) -> Vec<FoundRecord>
        requires searched { IsSearched self.now }
        requires places { AreFound (starts_of self.now.kept.now.code) addrs.now places.now }
        requires count { length places.now ≡ length addrs.now }
        requires functions { AreFoundFunctions self.now.kept.now addrs.now found }
        requires public_places { AreFound self.now.publics.now.starts found.left_addrs.items public_places.now }
        requires public_count { length public_places.now ≡ length found.left_addrs.items }
        ensures records { OfItsTable self.now.kept.now (λ table. AreRecordsFor table addrs.now result.items) }
        ensures count { length result.items ≡ length addrs.now }
    {
        let mut records = found.records;
        let left = found.left;
        for next in 0..left.len() {
            let index = left[next];
            records[index] = self.public_record(
                places[index].get(),
                public_places[next].get(),
                addrs[index],
            );
        }
        records
    }

    /// The PUBLIC record that answers for an address for which no function does.
    /// The places are those that searches among the starts of functions and PUBLIC records found.
    fn public_record(
        &self,
        place: Option<usize>,
        public_place: Option<usize>,
        addr: Addr,
    ) -> FoundRecord
        requires searched { IsSearched self.now }
        requires found { IsAt (starts_of self.now.kept.now.code) addr place }
        requires public_found { IsAt self.now.publics.now.starts addr public_place }
        ensures { OfItsTable self.now.kept.now (λ table. function_at addr table.functions ≡ None → IsRecordFor table addr result) }
    {
        let Some(public_place) = public_place else {
            return FoundRecord::Absent;
        };
        let index = self.publics.indices[public_place];
        let start = self.kept.publics[index as usize].start;
        if starts_between(&self.kept.code, start, place) {
            FoundRecord::Absent
        } else {
            FoundRecord::Public(index)
        }
    }
}

/// The functions that answer for addresses, from the places that searches among the functions' starts
/// found.
fn functions_found(
    alloc: Global,
    kept: &KeptTable,
    addrs: &[Addr],
    places: &[Place],
) -> std::result::Result<FoundFunctions, AllocError>
    requires places { AreFound (starts_of kept.now.code) addrs.now places.now }
    requires count { length places.now ≡ length addrs.now }
    ensures { IfOk result (AreFoundFunctions kept.now addrs.now) }
{
    let mut records = Vec::with_capacity(alloc, addrs.len())?;
    let mut left = Vec::new(alloc);
    let mut left_addrs = Vec::new(alloc);
    for index in 0..addrs.len() {
        match function_index(kept, places[index].get(), addrs[index]) {
            Some(function) => records.push(FoundRecord::Function(function))?,
            None => {
                records.push(FoundRecord::Absent)?;
                left.push(index)?;
                left_addrs.push(addrs[index])?;
            }
        }
    }
    Ok(FoundFunctions {
        records,
        left,
        left_addrs,
    })
}

/// The index of the function that answers for the address, from the place that a search among the
/// functions' starts found.
pub(crate) fn function_index(kept: &KeptTable, place: Option<usize>, addr: Addr) -> Option<u32>
    requires { IsAt (starts_of kept.now.code) addr place }
    ensures { OfItsTable kept.now (λ table. IsFunctionOr table addr result) }
{
    let key = covering_at(&kept.code.keys, place, addr)?;
    Some(key.index)
}

/// Whether a function starts between two addresses, or at one of them.
/// For the second one a search among the functions' starts found the place.
fn starts_between(code: &FunctionTable, from: u64, place: Option<usize>) -> bool
    requires within { IfSome place (λ p. p < length (starts_of code.now)) }
    ensures { (addr : ℕ) → NeverDescends (starts_of code.now) → IsAt (starts_of code.now) addr place → result ≡ any_between from addr (starts_of code.now) }
{
    match place {
        Some(place) => from <= code.keys[place].start,
        None => false,
    }
}
