//! The data entries of a symbol.

ghost use Rattle.std.specs.Prelude.{◌≡◌, ◌*◌, ◌≤◌, length};
ghost use Rattle.std.specs.Iterator.{YieldsFirstBy, item_count};
ghost use Rattle.bz_gsym.specs.Entries.{entries_in};
ghost use Rattle.bz_gsym.specs.Seen.{entry_seen};

use crate::format::INFO_TYPE_END_OF_LIST;
use crate::types::AddrData;
use bz_base::Cursor;
use std::marker::Model;

/// The data entries of a symbol, one after another. Contracts see the entries that are still to
/// come.
#[derive(Drop)]
pub struct AddrDataIter<'a> {
    rest: &'a [u8],
}

impl<'a> Model for AddrDataIter<'a> {
    ghost use Rattle.std.specs.Prelude.{List};
    ghost use Rattle.bz_gsym.specs.Entries.{Entry, entries_in};

    ghost Value = { List Entry };

    ghost view = { λ s. entries_in s.rest.now };
}

impl<'a> AddrDataIter<'a> {
    /// The entries in front of the bytes.
    pub(crate) fn new(bytes: &'a [u8]) -> AddrDataIter<'a>
        ensures { result ≡ entries_in bytes.now }
    {
        AddrDataIter { rest: bytes }
    }
}

impl<'a> Iterator for AddrDataIter<'a> {
    type Item = AddrData<'a>;

    ghost next_gives = { YieldsFirstBy entry_seen (λ entries. entries) };

    ghost remaining = { item_count (λ entries. entries) };

    fn next(&mut self) -> Option<AddrData<'a>> {
        let mut cursor = Cursor::new(self.rest);
        let typ = cursor.read_u32()?;
        if typ == INFO_TYPE_END_OF_LIST {
            return None;
        }
        let len = cursor.read_u32()?;
        let bytes = cursor.read_slice(len as usize)?;
        self.rest = cursor.rest();
        Some(AddrData { typ, bytes })
    }
}
