//! Nested records, and those around an address.

ghost use Rattle.std.specs.Prelude.{◌≡◌, ℕ, List, map, option_map, OnOk, OnErr, IfOk};
ghost use Rattle.bz_search.specs.Chain.{inner, around, chain};
ghost use Rattle.bz_search.specs.Nearest.{IsTable};

use crate::span::{Addr, inside};
use crate::table::Spanned;
use std::alloc::{AllocError, Global};

/// How many depths there are, from 0 on.
const DEPTHS: u64 = 4_294_967_296;

/// A record with a depth. It need not have a record of a lesser depth around it.
pub trait Nested: Spanned {
    /// The depth, as the source has it; 0 is the outermost.
    ghost depth: { Self → ℕ };

    /// The depth, as the source has it; 0 is the outermost.
    fn depth(&self) -> u32
        ensures { result ≡ depth self.now };
}

/// Puts records into the order of depth and start, and leaves those that are alike in both as they
/// stand.
pub fn sort_nested<T: Nested>(records: &mut Vec<T>) -> Result<(), AllocError>
    ensures table { OnOk result (IsTable T.depth T.start records.old.items records.new.items) }
    ensures err { OnErr result (records.new.items ≡ records.old.items) }
{
    records.sort_by_key(|r| (r.depth(), r.start()))?;
    Ok(())
}

/// The record to be tried at a depth, of a table by depth and start.
pub fn inner_in<T: Nested>(table: &[T], depth: u32, addr: Addr) -> Option<&T>
    ensures { (records : List T) → IsTable T.depth T.start records table.now →
        option_map (λ r. r.now) result ≡ inner T.depth T.start depth addr records }
{
    let place = table.partition_point(|r| {
        r.depth() < depth || (r.depth() == depth && r.start() <= addr)
    });
    if place == 0 {
        return None;
    }
    let last = &table[place - 1];
    if last.depth() == depth {
        Some(last)
    } else {
        None
    }
}

/// The records around an address from the outermost on, of a table by depth and start.
pub fn chain_in<'t, T: Nested>(
    alloc: Global,
    table: &'t [T],
    addr: Addr,
) -> Result<Vec<&'t T>, AllocError>
    ensures { IfOk result (λ found. (records : List T) → IsTable T.depth T.start records table.now →
        map (λ r. r.now) found.items ≡ chain T.depth T.start T.size records addr) }
{
    let mut found = Vec::new(alloc);
    let mut depth: u64 = 0;
    while depth < DEPTHS {
        match around_in(table, depth as u32, addr) {
            Some(entry) => found.push(entry)?,
            None => return Ok(found),
        }
        depth += 1;
    }
    Ok(found)
}

/// The record at a depth that has the address inside, of a table by depth and start.
pub fn around_in<T: Nested>(table: &[T], depth: u32, addr: Addr) -> Option<&T>
    ensures { (records : List T) → IsTable T.depth T.start records table.now →
        option_map (λ r. r.now) result ≡ around T.depth T.start T.size addr (inner T.depth T.start depth addr records) }
{
    let entry = inner_in(table, depth, addr)?;
    if inside(entry.start(), entry.size(), addr) {
        Some(entry)
    } else {
        None
    }
}
