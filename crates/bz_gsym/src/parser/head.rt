//! The head of a GSYM file, and whether its tables lie in the bytes.

ghost use Rattle.std.specs.Prelude.{◌≡◌, ◌≤◌, ◌<◌, ◌^◌, length, true, false, nat_le, IfOk, IfErr};
ghost use Rattle.bz_base.specs.declared.error.Error.{Error};
ghost use Rattle.bz_gsym.specs.Header.{header_of};
ghost use Rattle.bz_gsym.specs.Tables.{IsGsym, IsHeaded, addresses_end, data_table, file_count_place, files_end, header_len, strings_end};

use super::starts::starts_ascend;
use crate::format::{
    DATA_PLACE_LEN, FILE_COUNT_LEN, FILE_ENTRY_LEN, GSYM_MAGIC, GSYM_MAX_UUID_SIZE, GSYM_VERSION,
    HEADER_LEN,
};
use crate::types::Header;
use bz_base::{Error, Result, padding, u8_at, u16_at, u32_at, u64_at};

/// The head, if the bytes are a GSYM file. InvalidData: they aren't one.
pub(crate) fn checked_header(bytes: &[u8]) -> Result<Header>
    ensures ok { IfOk result (IsHeaded bytes.now) }
    ensures refusal { IfErr result (λ e. (e ≡ Error.InvalidData) × ¬ (IsGsym bytes.now)) }
{
    if bytes.len() < HEADER_LEN {
        return Err(Error::InvalidData);
    }
    let header = read_header(bytes);
    if header.magic != GSYM_MAGIC || header.version != GSYM_VERSION {
        return Err(Error::InvalidData);
    }
    if !tables_lie(bytes, &header) || !strings_lie(bytes, &header) {
        return Err(Error::InvalidData);
    }
    if !starts_ascend(bytes, &header) {
        return Err(Error::InvalidData);
    }
    Ok(header)
}

/// The head in front of the bytes.
fn read_header(bytes: &[u8]) -> Header
    requires { header_len ≤ length bytes.now }
    ensures { result ≡ header_of bytes.now }
{
    let mut uuid = [0; GSYM_MAX_UUID_SIZE];
    uuid.copy_from_slice(&bytes[28..HEADER_LEN]);
    Header {
        magic: u32_at(bytes, 0),
        version: u16_at(bytes, 4),
        addr_off_size: u8_at(bytes, 6),
        uuid_size: u8_at(bytes, 7),
        base_address: u64_at(bytes, 8),
        num_addrs: u32_at(bytes, 16),
        strtab_offset: u32_at(bytes, 20),
        strtab_size: u32_at(bytes, 24),
        uuid,
    }
}

/// The place behind the address table.
fn addresses_end(header: &Header) -> usize
    ensures place { result ≡ addresses_end header.now }
    ensures within { result < 2 ^ 41 }
{
    HEADER_LEN + header.num_addrs as usize * usize::from(header.addr_off_size)
}

/// The place of the table of data places.
pub(crate) fn data_table(header: &Header) -> usize
    ensures place { result ≡ data_table header.now }
    ensures within { result < 2 ^ 42 }
{
    let end = addresses_end(header);
    end + padding(end)
}

/// The place of the count of files.
pub(crate) fn file_count_place(header: &Header) -> usize
    ensures place { result ≡ file_count_place header.now }
    ensures within { result < 2 ^ 43 }
{
    data_table(header) + header.num_addrs as usize * DATA_PLACE_LEN
}

/// Whether the files, which are the last of the tables, end in the bytes.
fn tables_lie(bytes: &[u8], header: &Header) -> bool
    requires { header.now ≡ header_of bytes.now }
    ensures { result ≡ nat_le (files_end bytes.now) (length bytes.now) }
{
    let count_place = file_count_place(header);
    if count_place + FILE_COUNT_LEN > bytes.len() {
        return false;
    }
    let count = u32_at(bytes, count_place) as usize;
    count_place + FILE_COUNT_LEN + count * FILE_ENTRY_LEN <= bytes.len()
}

/// Whether the string table lies in the bytes.
fn strings_lie(bytes: &[u8], header: &Header) -> bool
    ensures { result ≡ nat_le (strings_end header.now) (length bytes.now) }
{
    header.strtab_offset as usize + header.strtab_size as usize <= bytes.len()
}
