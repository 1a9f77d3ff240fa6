//! The tables of a GSYM file, read in place.

ghost use Rattle.std.specs.Prelude.{◌≡◌, ◌≤◌, ◌*◌, ℕ, List, length, option_and_then, option_map, slice_get, IfOk, IfErr};
ghost use Rattle.bz_base.specs.declared.error.Error.{Error};
ghost use Rattle.bz_gsym.specs.Entries.{entries_in, entry_head_len, info_at};
ghost use Rattle.bz_gsym.specs.Header.{header_of};
ghost use Rattle.bz_gsym.specs.Seen.{info_seen};
ghost use Rattle.bz_gsym.specs.Strings.{string_at};
ghost use Rattle.bz_gsym.specs.Tables.{IsGsym, IsHeaded, IsIndex, IsNearest, address_at, data_places, files, strings};

mod data;
mod head;
mod starts;
mod text;

use crate::format::{DATA_PLACE_LEN, FILE_COUNT_LEN, FILE_ENTRY_LEN, FUNCTION_INFO_LEN};
use crate::types::{AddrInfo, FileInfo, Header};
use bz_base::{Addr, Result, u32_at};
pub use data::AddrDataIter;
pub(crate) use head::checked_header;
use head::{data_table, file_count_place};
use starts::{find_start, is_address_size, start_at};
use std::marker::Model;
use text::text_at;

/// A GSYM file, of which each table is read where it lies. Contracts see the file's bytes.
#[derive(Drop)]
pub struct GsymContext<'a> {
    bytes: &'a [u8],
    header: Header,
}

impl<'a> Model for GsymContext<'a> {
    ghost use Rattle.std.specs.Prelude.{ℕ, List};
    ghost use Rattle.bz_gsym.specs.Tables.{IsHeaded};

    ghost Value = { List ℕ };

    ghost view = { λ c. c.bytes.now };

    ghost invariant = { λ c. IsHeaded c.bytes.now c.header };
}

impl<'a> GsymContext<'a> {
    /// Reads the head and looks whether the tables lie in the bytes and the starts never descend.
    /// InvalidData: the bytes aren't a GSYM file.
    pub fn parse_header(bytes: &'a [u8]) -> Result<GsymContext<'a>>
        ensures ok { IfOk result (λ context. context ≡ bytes.now) }
        ensures accepted { IfOk result (λ context. IsGsym bytes.now) }
        ensures refusal { IfErr result (λ e. (e ≡ Error.InvalidData) × ¬ (IsGsym bytes.now)) }
    {
        let header = checked_header(bytes)?;
        Ok(GsymContext { bytes, header })
    }

    /// A file whose head was read before.
    pub(crate) fn of_header(bytes: &'a [u8], header: Header) -> GsymContext<'a>
        requires { IsHeaded bytes.now header }
        ensures { result ≡ bytes.now }
    {
        GsymContext { bytes, header }
    }

    /// The head of the file.
    pub fn header(&self) -> Header
        ensures { result ≡ header_of self.now }
    {
        self.header
    }

    /// The index of the symbol that is to be tried at an address. None: the address lies below the
    /// base address, or below each symbol, or the size of addresses isn't 1, 2, 4 or 8.
    pub fn find_addr(&self, addr: Addr) -> Option<usize>
        ensures { IsIndex self.now addr result }
    {
        let (index, _) = self.nearest(addr)?;
        Some(index)
    }

    /// Index and address of the symbol that is to be tried at an address.
    pub(crate) fn nearest(&self, addr: Addr) -> Option<(usize, Addr)>
        ensures found { IsNearest self.now addr result }
        ensures formed { IsGsym self.now }
    {
        let base = self.header.base_address;
        if addr < base || !is_address_size(self.header.addr_off_size) {
            return None;
        }
        let (index, start) = find_start(self.bytes, &self.header, addr - base)?;
        Some((index, base + start))
    }

    /// The address that the symbol of an index begins at. None: the index is outside the address
    /// table, the size of addresses isn't 1, 2, 4 or 8, or the sum doesn't fit 64 bits.
    pub fn addr_at(&self, idx: usize) -> Option<Addr>
        ensures { result ≡ address_at self.now idx }
    {
        if idx >= self.header.num_addrs as usize || !is_address_size(self.header.addr_off_size) {
            return None;
        }
        let start = start_at(self.bytes, self.header.addr_off_size, idx);
        self.header.base_address.checked_add(start)
    }

    /// The data of the symbol of an index. None: the index is outside the table of data places, or
    /// no 8 bytes stand at the place.
    pub fn addr_info(&self, idx: usize) -> Option<AddrInfo<'a>>
        ensures { option_map info_seen result ≡ option_and_then (info_at self.now) (slice_get (data_places self.now) idx) }
    {
        if idx >= self.header.num_addrs as usize {
            return None;
        }
        let place = u32_at(self.bytes, data_table(&self.header) + idx * DATA_PLACE_LEN) as usize;
        info(self.bytes, place)
    }

    /// The string at a place of the string table. None: no zero byte ends it inside the table, or
    /// it isn't UTF-8.
    pub fn get_str(&self, offset: usize) -> Option<&'a str>
        ensures { option_map (λ text. text.now) result ≡ string_at (strings self.now) offset }
    {
        let from = self.header.strtab_offset as usize;
        let table = &self.bytes[from..from + self.header.strtab_size as usize];
        text_at(table, offset)
    }

    /// The source file of an index. None: the index is outside the table of files.
    pub fn file_info(&self, idx: usize) -> Option<FileInfo>
        ensures { result ≡ slice_get (files self.now) idx }
    {
        let count_place = file_count_place(&self.header);
        if idx >= u32_at(self.bytes, count_place) as usize {
            return None;
        }
        let place = count_place + FILE_COUNT_LEN + idx * FILE_ENTRY_LEN;
        Some(FileInfo {
            directory: u32_at(self.bytes, place),
            filename: u32_at(self.bytes, place + 4),
        })
    }
}

/// The data entries in front of the bytes, one after another, up to type 0 or to where the bytes
/// don't suffice.
pub fn parse_address_data<'a>(bytes: &'a [u8]) -> AddrDataIter<'a>
    ensures entries { result ≡ entries_in bytes.now }
    ensures few { entry_head_len * length (entries_in bytes.now) ≤ length bytes.now }
{
    AddrDataIter::new(bytes)
}

/// The data of a symbol at a place.
fn info(bytes: &[u8], place: usize) -> Option<AddrInfo<'_>>
    requires { place ≤ 4294967295 }
    ensures { option_map info_seen result ≡ info_at bytes.now place }
{
    if place + FUNCTION_INFO_LEN > bytes.len() {
        return None;
    }
    Some(AddrInfo {
        size: u32_at(bytes, place),
        name: u32_at(bytes, place + 4),
        bytes: &bytes[place + FUNCTION_INFO_LEN..],
    })
}
