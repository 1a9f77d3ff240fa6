//! The mappings of a process.

mod line;
mod name;

ghost use Rattle.std.specs.Prelude.{◌≡◌, ◌<◌, nat_le, Some, length, map, option_map, string_bytes, IfOk, IfErr, IfSome, IsOkUnless, IsUtf8};
ghost use Rattle.std.specs.List.{prefix_len};
ghost use Rattle.bz_base.specs.Line.{all_lines};
ghost use Rattle.bz_base.specs.declared.error.Error.{Error};
ghost use Rattle.bz_proc.specs.Maps.{if_begins, mapping_of, mappings_of, maps_in, name_of, owner_in, said_in, IsMapsRefusal};
ghost use Rattle.bz_proc.specs.declared.maps.MapsEntry.{MapsEntry};

use bz_base::{Addr, Error, Pid, Result, first_line};
use line::mapping_line;
use name::path_name;
use std::alloc::Global;
use std::ops::Range;

/// The paths of a mapped file.
#[derive(Debug, PartialEq, Eq, PartialOrd, Ord, Hash, Drop)]
pub struct EntryPath {
    /// The path in `/proc` that stands for the mapping: it leads to the file, also where that was
    /// deleted.
    pub maps_file: String,
    /// The file's own path, as the process sees it, without a mark of deletion.
    pub symbolic_path: String,
}

/// What a mapping is of.
#[derive(Debug, PartialEq, Eq, PartialOrd, Ord, Hash, Drop)]
pub enum PathName {
    /// A file.
    Path(EntryPath),
    /// Anything else, by the text that names it: mostly a part of the system, as `[vdso]` or `[stack]`.
    Component(String),
}

impl EntryPath {
    /// The same paths, in texts of their own.
    pub fn try_clone(&self, alloc: Global) -> Result<EntryPath>
        ensures maps_file { IfOk result (λ own. string_bytes own.maps_file ≡ string_bytes self.now.maps_file) }
        ensures symbolic_path { IfOk result (λ own. string_bytes own.symbolic_path ≡ string_bytes self.now.symbolic_path) }
        ensures memory { IsOkUnless result Error.OutOfMemory }
    {
        let maps_file = String::from_str(alloc, self.maps_file.as_str())?;
        let symbolic_path = String::from_str(alloc, self.symbolic_path.as_str())?;
        Ok(EntryPath {
            maps_file,
            symbolic_path,
        })
    }
}

impl PathName {
    /// The same, in texts of its own.
    pub fn try_clone(&self, alloc: Global) -> Result<PathName>
        ensures same { IfOk result (λ own. name_of own ≡ name_of self.now) }
        ensures memory { IsOkUnless result Error.OutOfMemory }
    {
        match self {
            PathName::Path(path) => {
                let path = path.try_clone(alloc)?;
                Ok(PathName::Path(path))
            }
            PathName::Component(text) => {
                let text = String::from_str(alloc, text.as_str())?;
                Ok(PathName::Component(text))
            }
        }
    }
}

/// A mapping of a process.
#[derive(Drop)]
pub struct MapsEntry {
    /// The addresses, absolute in the process.
    pub range: Range<Addr>,
    /// The offset in the file, in bytes, of what is mapped at the first address.
    pub offset: u64,
    /// What is mapped, if that is told.
    pub path_name: Option<PathName>,
}

/// The mappings that the text of `/proc/PID/maps` tells, in its order, where `pid` is the process that
/// it is of. InvalidData: the text isn't UTF-8, or a line is neither empty nor one of a mapping.
pub fn parse_maps(alloc: Global, pid: Pid, text: &[u8]) -> Result<Vec<MapsEntry>>
    ensures ok { IfOk result (λ entries. maps_in pid text.now ≡ Some (map mapping_of entries.items)) }
    ensures refusal { IfErr result (IsMapsRefusal (maps_in pid text.now)) }
{
    match std::str::from_utf8(text) {
        Ok(text) => entries(alloc, pid, text),
        Err(_) => Err(Error::InvalidData),
    }
}

/// The mappings that the lines of a text tell.
fn entries(alloc: Global, pid: Pid, text: &str) -> Result<Vec<MapsEntry>>
    ensures ok { IfOk result (λ entries. mappings_of pid (all_lines text.now) ≡ Some (map mapping_of entries.items)) }
    ensures refusal { IfErr result (IsMapsRefusal (mappings_of pid (all_lines text.now))) }
{
    let mut entries = Vec::new(alloc);
    let mut rest = text.as_bytes();
    while let Some((line, after)) = first_line(rest) {
        if let Some(entry) = said(alloc, pid, line)? {
            entries.push(entry)?;
        }
        rest = after;
    }
    Ok(entries)
}

/// What a line says: nothing where it is empty, and else its mapping.
fn said(alloc: Global, pid: Pid, line: &[u8]) -> Result<Option<MapsEntry>>
    requires { IsUtf8 line.now }
    ensures ok { IfOk result (λ said. said_in pid line.now ≡ Some (option_map mapping_of said)) }
    ensures refusal { IfErr result (IsMapsRefusal (said_in pid line.now)) }
{
    if line.is_empty() {
        return Ok(None);
    }
    let Some(told) = mapping_line(line) else {
        return Err(Error::InvalidData);
    };
    // What follows the spaces of a line in UTF-8 is UTF-8.
    let text = unsafe { std::str::from_utf8_unchecked(told.text) };
    let path_name = path_name(alloc, pid, told.start, told.end, text)?;
    Ok(Some(MapsEntry {
        range: told.start..told.end,
        offset: told.offset,
        path_name,
    }))
}

/// The place of the mapping that answers for an address: the first that ends above it, if that begins
/// at the address or before it. It goes through the mappings; `Mappings` has a search.
pub fn owner(entries: &[MapsEntry], addr: Addr) -> Option<usize>
    ensures place { result ≡ owner_in (map mapping_of entries.now) addr }
    ensures within { IfSome result (λ place. place < length entries.now) }
{
    if_begins(entries, addr, place_above(entries, addr))
}

/// The place of the first mapping that ends above the address, or their number.
fn place_above(entries: &[MapsEntry], addr: Addr) -> usize
    ensures { result ≡ prefix_len (λ (entry : MapsEntry). nat_le entry.range.«end» addr) entries.now }
{
    entries
        .iter()
        .take_while(|entry| entry.range.end <= addr)
        .count()
}

/// The place, if the mapping there begins at the address or before it.
pub(crate) fn if_begins(entries: &[MapsEntry], addr: Addr, place: usize) -> Option<usize>
    ensures place { result ≡ if_begins (map mapping_of entries.now) addr place }
    ensures within { IfSome result (λ found. found < length entries.now) }
{
    if place < entries.len() && entries[place].range.start <= addr {
        Some(place)
    } else {
        None
    }
}
