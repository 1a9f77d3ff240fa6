//! The addresses of PUBLIC records, and the first record of each.

ghost use Rattle.std.specs.Prelude.{◌≡◌, true, map, IfOk};
ghost use Rattle.bz_base.specs.Nearest.{IsTable};
ghost use Rattle.bz_base.specs.Starts.{NeverDescends};
ghost use Rattle.bz_breakpad_table.specs.Publics.{ArePublicKeys, IsPublicTable, public_keys_from, starts_kept};

use crate::types::KeptPublic;
use bz_base::{Spanned, Starts, sort_table};
use std::alloc::{AllocError, Global};

/// By what PUBLIC records are put in order: the start, and the index where others have a size.
#[derive(Clone, Copy)]
pub struct PublicKey {
    /// Where the symbol starts, relative to the module's base.
    pub start: u64,
    /// Its index in the list of PUBLIC records.
    pub index: u32,
}

/// The addresses of PUBLIC records, each with the first record there.
#[derive(Drop)]
pub struct PublicTable {
    /// The indices of those records in the list of PUBLIC records, in the order of their addresses.
    pub indices: Vec<u32>,
    /// The addresses.
    pub starts: Starts,
}

impl Spanned for PublicKey {
    ghost start = { λ k. k.start };

    ghost size = { λ k. k.index };

    fn start(&self) -> u64 {
        self.start
    }

    fn size(&self) -> u64 {
        u64::from(self.index)
    }
}

/// A PUBLIC record says no size: those of one address stand as they do in the file.
impl Spanned for KeptPublic {
    ghost start = { λ p. p.start };

    ghost size = { λ _. 0 };

    fn start(&self) -> u64 {
        self.start
    }

    fn size(&self) -> u64 {
        0
    }
}

/// The PUBLIC records in the order of their addresses; those of one address stand as they do in the
/// file.
pub fn sorted_publics(alloc: Global, publics: &[KeptPublic]) -> Result<Vec<KeptPublic>, AllocError>
    ensures { IfOk result (λ sorted. IsTable (λ p. p.start) (λ p. 0) publics.now sorted.items) }
{
    let mut sorted = Vec::from_slice(alloc, publics)?;
    sort_table(&mut sorted)?;
    Ok(sorted)
}

/// The table of PUBLIC records. Keys are made only where the records don't stand in the order of
/// their addresses, and are gone once the table is made.
pub fn public_table(alloc: Global, publics: &[KeptPublic]) -> Result<PublicTable, AllocError>
    ensures { IfOk result (IsPublicTable publics.now) }
{
    if ascend(publics) {
        return table_in_order(alloc, publics);
    }
    let keys = public_keys(alloc, publics)?;
    table_of(alloc, &keys)
}

/// True only where no record starts below the one before it.
fn ascend(publics: &[KeptPublic]) -> bool
    ensures { result ≡ true → NeverDescends (starts_kept publics.now) }
{
    let mut last = 0;
    for public in publics {
        if public.start < last {
            return false;
        }
        last = public.start;
    }
    true
}

/// The table of records that are in the order of their addresses. Want of memory also where there are
/// so many records that an index can't be kept in four bytes.
fn table_in_order(alloc: Global, publics: &[KeptPublic]) -> Result<PublicTable, AllocError>
    requires { NeverDescends (starts_kept publics.now) }
    ensures { IfOk result (IsPublicTable publics.now) }
{
    if publics.len() > u32::MAX as usize {
        return Err(AllocError);
    }
    let mut indices = Vec::with_capacity(alloc, publics.len())?;
    let mut starts = Vec::with_capacity(alloc, publics.len())?;
    let mut last = None;
    for index in 0..publics.len() {
        let start = publics[index].start;
        if last != Some(start) {
            indices.push(index as u32)?;
            starts.push(start)?;
            last = Some(start);
        }
    }
    Ok(PublicTable {
        indices,
        starts: Starts::from_sorted(starts),
    })
}

/// The keys of the first record at each address.
fn public_keys(alloc: Global, publics: &[KeptPublic]) -> Result<Vec<PublicKey>, AllocError>
    ensures keys { IfOk result (λ keys. ArePublicKeys (starts_kept publics.now) keys.items) }
    ensures ascending { IfOk result (λ keys. NeverDescends (map (λ k. k.start) keys.items)) }
{
    let mut keys = keys_of(alloc, publics)?;
    sort_table(&mut keys)?;
    keys.dedup_by_key(|key| key.start);
    Ok(keys)
}

/// The keys of all records, in their order. Want of memory also where there are so many records that
/// an index can't be kept in four bytes.
fn keys_of(alloc: Global, publics: &[KeptPublic]) -> Result<Vec<PublicKey>, AllocError>
    ensures { IfOk result (λ keys. keys.items ≡ public_keys_from 0 (starts_kept publics.now)) }
{
    if publics.len() > u32::MAX as usize {
        return Err(AllocError);
    }
    let mut keys = Vec::with_capacity(alloc, publics.len())?;
    for index in 0..publics.len() {
        keys.push(PublicKey {
            start: publics[index].start,
            index: index as u32,
        })?;
    }
    Ok(keys)
}

/// The starts and indices of keys.
fn table_of(alloc: Global, keys: &[PublicKey]) -> Result<PublicTable, AllocError>
    requires { NeverDescends (map (λ k. k.start) keys.now) }
    ensures indices { IfOk result (λ table. table.indices.items ≡ map (λ k. k.index) keys.now) }
    ensures starts { IfOk result (λ table. table.starts ≡ map (λ k. k.start) keys.now) }
{
    let mut indices = Vec::with_capacity(alloc, keys.len())?;
    let mut starts = Vec::with_capacity(alloc, keys.len())?;
    for key in keys {
        indices.push(key.index)?;
        starts.push(key.start)?;
    }
    Ok(PublicTable {
        indices,
        starts: Starts::from_sorted(starts),
    })
}
