//! The names of ids.

ghost use Rattle.std.specs.Prelude.{◌≡◌, ◌<◌, ◌≤◌, ◌^◌, ◌++◌, [], length, map, option_map, slice_get, IfOk, OnOk, Some};
ghost use Rattle.std.specs.BTreeMap.{insert_entry, is_at};
ghost use Rattle.std.specs.List.{AllByRecursion, enumerate_from};
ghost use Rattle.std.specs.Map.{keys_of, lookup};
ghost use Rattle.std.specs.Ordering.{nat_cmp};
ghost use Rattle.bz_breakpad_lines.specs.Names.{name_for};
ghost use Rattle.bz_breakpad_table.specs.Kept.{IsTextAt, NamesFit, kept_names, text_at};

use crate::types::Part;
use std::alloc::{AllocError, Global};
use std::collections::BTreeMap;
use std::marker::Model;

/// The names of ids, as parts of a file's bytes. Contracts see the ids with their parts, in the
/// order of the ids.
#[derive(Drop)]
pub struct Names {
    /// The names of the ids from 0 on, as far as they came one after another.
    dense: Vec<Part>,
    /// The names of the other ids.
    sparse: BTreeMap<u32, Part>,
}

impl Model for Names {
    ghost use Rattle.std.specs.Prelude.{◌≤◌, ◌^◌, ◌++◌, ℕ, List, length};
    ghost use Rattle.std.specs.List.{enumerate_from};
    ghost use Rattle.bz_breakpad_table.specs.declared.types.Part.{Part};

    ghost Value = { List (ℕ × Part) };

    ghost view = { λ names. enumerate_from 0 names.dense.items ++ names.sparse.entries };

    ghost invariant = { λ names. length names.dense.items ≤ 2 ^ 32 };
}

impl Names {
    /// No names.
    pub fn new(alloc: Global) -> Names
        ensures { result ≡ [] }
    {
        Names {
            dense: Vec::new(alloc),
            sparse: BTreeMap::new(alloc),
        }
    }

    /// How many ids have a name.
    pub fn len(&self) -> usize
        ensures { result ≡ length self.now }
    {
        self.dense.len() + self.sparse.len()
    }

    /// The id at an index, in the order of the ids. Where they don't come one after another from 0 on,
    /// finding it takes a walk over those before it.
    pub fn id_at(&self, index: usize) -> u32
        requires { index < length self.now }
        ensures { slice_get (keys_of self.now) index ≡ Some result }
    {
        let count = self.dense.len();
        if index < count {
            index as u32
        } else {
            nth_id(&self.sparse, index - count)
        }
    }

    /// The ids with the parts of their names, in the order of the ids.
    fn entries(&self, alloc: Global) -> Result<Vec<(u32, Part)>, AllocError>
        ensures { IfOk result (λ entries. entries.items ≡ self.now) }
    {
        let mut entries = Vec::with_capacity(alloc, self.len())?;
        push_dense(&mut entries, &self.dense)?;
        push_sparse(&mut entries, &self.sparse)?;
        Ok(entries)
    }

    /// The part of the name of an id.
    fn get(&self, id: u32) -> Option<&Part>
        ensures { option_map (λ part. part.now) result ≡ lookup (is_at (nat_cmp id)) self.now }
    {
        match self.dense.get(id as usize) {
            Some(part) => Some(part),
            None => self.sparse.get(&id),
        }
    }

    /// Keeps the name of an id, in place of one that was kept before.
    pub fn insert(&mut self, id: u32, part: Part) -> Result<(), AllocError>
        ensures { OnOk result (self.new ≡ insert_entry nat_cmp self.old id part) }
    {
        let at = id as usize;
        let count = self.dense.len();
        if at < count {
            self.dense[at] = part;
        } else if at == count && self.sparse.is_empty() {
            self.dense.push(part)?;
        } else {
            self.sparse.insert(id, part)?;
        }
        Ok(())
    }
}

/// The id at an index.
fn nth_id(names: &BTreeMap<u32, Part>, index: usize) -> u32
    requires { index < length names.now.entries }
    ensures { slice_get (keys_of names.now.entries) index ≡ Some result }
{
    *names.keys().nth(index).unwrap()
}

/// Adds the names of the ids from 0 on.
fn push_dense(entries: &mut Vec<(u32, Part)>, names: &[Part]) -> Result<(), AllocError>
    requires { length names.now ≤ 2 ^ 32 }
    ensures { OnOk result (entries.new.items ≡ entries.old.items ++ enumerate_from 0 names.now) }
{
    for id in 0..names.len() {
        entries.push((id as u32, names[id]))?;
    }
    Ok(())
}

/// Adds the names of other ids.
fn push_sparse(
    entries: &mut Vec<(u32, Part)>,
    names: &BTreeMap<u32, Part>,
) -> Result<(), AllocError>
    ensures { OnOk result (entries.new.items ≡ entries.old.items ++ names.now.entries) }
{
    for (id, part) in names {
        entries.push((*id, *part))?;
    }
    Ok(())
}

/// The ids with their names, in the order of the ids.
pub fn names_of<'a>(
    alloc: Global,
    bytes: &'a [u8],
    names: &Names,
) -> Result<Vec<(u32, &'a str)>, AllocError>
    requires { NamesFit bytes.now names.now }
    ensures { IfOk result (λ named. map (λ n. (n.0, n.1.now)) named.items ≡ kept_names bytes.now names.now) }
{
    let entries = names.entries(alloc)?;
    lent_names(alloc, bytes, &entries)
}

/// Names as texts, with their ids.
fn lent_names<'a>(
    alloc: Global,
    bytes: &'a [u8],
    entries: &[(u32, Part)],
) -> Result<Vec<(u32, &'a str)>, AllocError>
    requires { AllByRecursion (λ e. IsTextAt bytes.now e.1) entries.now }
    ensures { IfOk result (λ named. map (λ n. (n.0, n.1.now)) named.items ≡ kept_names bytes.now entries.now) }
{
    let mut named = Vec::with_capacity(alloc, entries.len())?;
    for entry in entries {
        named.push((entry.0, text_of(bytes, &entry.1)))?;
    }
    Ok(named)
}

/// The name of an id.
pub fn name_of<'a>(bytes: &'a [u8], names: &Names, id: u32) -> Option<&'a str>
    requires { NamesFit bytes.now names.now }
    ensures { option_map (λ name. name.now) result ≡ name_for id (kept_names bytes.now names.now) }
{
    let part = names.get(id)?;
    Some(text_of(bytes, part))
}

/// The text at a part of the bytes.
pub fn text_of<'a>(bytes: &'a [u8], part: &Part) -> &'a str
    requires { IsTextAt bytes.now part.now }
    ensures { result.now ≡ text_at bytes.now part.now }
{
    // The names were found to be UTF-8 when the file was read.
    unsafe { std::str::from_utf8_unchecked(&bytes[part.from as usize..part.to as usize]) }
}
