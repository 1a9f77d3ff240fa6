//! The functions of a perf map, as they are kept.

ghost use Rattle.std.specs.Prelude.{◌≡◌, ◌≤◌, List, length, drop, map, option_map, IfOk, IfErr, IsUtf8, Some};
ghost use Rattle.std.specs.List.{AllByRecursion};
ghost use Rattle.bz_cache.specs.Format.{IsRefusalBy};
ghost use Rattle.bz_proc.specs.PerfKept.{IsNamed, entry_to, function_at};
ghost use Rattle.bz_proc.specs.PerfLine.{perf_function_in};
ghost use Rattle.bz_proc.specs.PerfLines.{line_front, perf_functions_in};
ghost use Rattle.bz_proc.specs.PerfMap.{format_test};

use super::line::{line_len, read_line};
use bz_base::{Error, Result, Spanned};
use std::alloc::Global;

/// A function, whose name is left where it stands.
#[derive(Clone, Copy)]
pub(super) struct PerfEntry {
    /// The first address.
    pub start: u64,
    /// The size, in bytes.
    pub size: u64,
    /// The place of the name in the map's bytes. It goes on to the line's end.
    pub name: usize,
}

impl Spanned for PerfEntry {
    ghost start = { λ entry. entry.start };

    ghost size = { λ entry. entry.size };

    fn start(&self) -> u64 {
        self.start
    }

    fn size(&self) -> u64 {
        self.size
    }
}

/// The functions in the order of the map. InvalidData: a line has another form.
pub(super) fn entries_in(alloc: Global, bytes: &[u8]) -> Result<Vec<PerfEntry>>
    ensures ok { IfOk result (λ entries. perf_functions_in bytes.now ≡ Some (map (function_at bytes.now) entries.items)) }
    ensures named { IfOk result (λ entries. AllByRecursion (IsNamed bytes.now) entries.items) }
    ensures refusal { IfErr result (IsRefusalBy (format_test bytes.now)) }
{
    let mut entries = Vec::new(alloc);
    let mut place = 0;
    while place < bytes.len() {
        let end = place + line_len(&bytes[place..]);
        let line = &bytes[place..end];
        place = end + 1;
        if line.is_empty() {
            continue;
        }
        let Some(entry) = entry_in(line, end) else {
            return Err(Error::InvalidData);
        };
        entries.push(entry)?;
    }
    Ok(entries)
}

/// The function of a line that ends at a place. None: the line has another form.
fn entry_in(line: &[u8], end: usize) -> Option<PerfEntry>
    requires { length line.now ≤ end }
    ensures { result ≡ option_map (entry_to end) (perf_function_in line.now) }
{
    let function = read_line(line)?;
    Some(PerfEntry {
        start: function.start,
        size: function.size,
        name: end - function.name.len(),
    })
}

/// The name that stands at a place, up to the line's end.
pub(super) fn name_at(bytes: &[u8], place: usize) -> &str
    requires within { place ≤ length bytes.now }
    requires utf8 { IsUtf8 (line_front (drop place bytes.now)) }
    ensures { result.now ≡ line_front (drop place bytes.now) }
{
    let rest = &bytes[place..];
    // The names were found to be UTF-8 when the map was read.
    unsafe { std::str::from_utf8_unchecked(&rest[..line_len(rest)]) }
}
