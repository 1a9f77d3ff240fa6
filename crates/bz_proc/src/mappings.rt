//! Mappings, and a search among them.

ghost use Rattle.std.specs.Prelude.{◌≡◌, ◌<◌, ◌==◌, length, map, option_map, IfOk, IfSome, IsOkUnless};
ghost use Rattle.bz_base.specs.declared.error.Error.{Error};
ghost use Rattle.bz_proc.specs.Maps.{mapping_of, owner_in, owner_of};
ghost use Rattle.bz_proc.specs.Reach.{reached};

use crate::maps::{MapsEntry, if_begins};
use bz_base::{Addr, Error, Result};
use std::alloc::Global;
use std::marker::Model;

/// The mappings of a process, in any order, with a search by halving. Contracts see the mappings.
#[derive(Drop)]
pub struct Mappings {
    entries: Vec<MapsEntry>,
    // Of each mapping the greatest end of those up to it: these never descend.
    farthest_ends: Vec<Addr>,
}

impl Model for Mappings {
    ghost use Rattle.std.specs.Prelude.{◌≡◌, List, map};
    ghost use Rattle.bz_proc.specs.Maps.{Mapping, mapping_of};
    ghost use Rattle.bz_proc.specs.Reach.{reached};

    ghost Value = { List Mapping };

    ghost view = { λ m. map mapping_of m.entries.items };

    ghost invariant = { λ m. m.farthest_ends.items ≡ reached (map mapping_of m.entries.items) };
}

impl Mappings {
    /// The mappings, which stay in their order.
    pub fn new(alloc: Global, entries: Vec<MapsEntry>) -> Result<Mappings>
        ensures ok { IfOk result (λ mappings. mappings ≡ map mapping_of entries.items) }
        ensures memory { IsOkUnless result Error.OutOfMemory }
    {
        let farthest_ends = farthest_ends(alloc, entries.as_slice())?;
        Ok(Mappings {
            entries,
            farthest_ends,
        })
    }

    /// The mappings, in their order.
    pub fn entries(&self) -> &[MapsEntry]
        ensures { map mapping_of result.now ≡ self.now }
    {
        self.entries.as_slice()
    }

    /// Whether there is none.
    pub fn is_empty(&self) -> bool
        ensures { result ≡ (length self.now == 0) }
    {
        self.entries.is_empty()
    }

    /// The place of the mapping that answers for an address: the first that ends above it, if that
    /// begins at the address or before it. It halves what is left at each step.
    pub fn owner(&self, addr: Addr) -> Option<usize>
        ensures place { result ≡ owner_in self.now addr }
        ensures within { IfSome result (λ place. place < length self.now) }
    {
        let place = self.farthest_ends.partition_point(|end| *end <= addr);
        if_begins(self.entries.as_slice(), addr, place)
    }

    /// The mapping that answers for an address, by the same search.
    pub fn owner_entry(&self, addr: Addr) -> Option<&MapsEntry>
        ensures { option_map (λ entry. mapping_of entry.now) result ≡ owner_of self.now addr }
    {
        let place = self.owner(addr)?;
        self.entries.get(place)
    }
}

/// Of each mapping the greatest end of those up to it.
fn farthest_ends(alloc: Global, entries: &[MapsEntry]) -> Result<Vec<Addr>>
    ensures ok { IfOk result (λ ends. ends.items ≡ reached (map mapping_of entries.now)) }
    ensures memory { IsOkUnless result Error.OutOfMemory }
{
    let mut ends = Vec::with_capacity(alloc, entries.len())?;
    let mut greatest = 0;
    for entry in entries {
        if greatest < entry.range.end {
            greatest = entry.range.end;
        }
        ends.push(greatest)?;
    }
    Ok(ends)
}
