//! What a GSYM file is made of.

use crate::format::GSYM_MAX_UUID_SIZE;

/// The head of a file.
#[derive(Clone, Copy)]
pub struct Header {
    /// The number that the file begins with.
    pub magic: u32,
    /// The version of the format.
    pub version: u16,
    /// The size of an entry of the address table, in bytes.
    pub addr_off_size: u8,
    /// The size of the build id, in bytes. It isn't looked at.
    pub uuid_size: u8,
    /// The address that the starts of the address table count from.
    pub base_address: u64,
    /// How many entries the address table has.
    pub num_addrs: u32,
    /// The place of the string table, from the first byte of the file.
    pub strtab_offset: u32,
    /// The size of the string table, in bytes.
    pub strtab_size: u32,
    /// The bytes that the head has for the build id, whatever they are. They aren't looked at.
    pub uuid: [u8; GSYM_MAX_UUID_SIZE],
}

/// A source file: where its texts begin in the string table.
#[derive(Clone, Debug, Drop)]
pub struct FileInfo {
    /// The place of the directory.
    pub directory: u32,
    /// The place of the file's name.
    pub filename: u32,
}

/// The data of a symbol.
#[derive(Drop)]
pub struct AddrInfo<'a> {
    /// The symbol's size, in bytes.
    pub size: u32,
    /// The place of its name in the string table.
    pub name: u32,
    /// The bytes from its data entries on, to the end of the file.
    pub bytes: &'a [u8],
}

/// A data entry of a symbol.
#[derive(Drop)]
pub struct AddrData<'a> {
    /// The entry's type: one of the `INFO_TYPE` constants, or another one.
    pub typ: u32,
    /// The bytes of the entry.
    pub bytes: &'a [u8],
}

/// A function around an address: a node of an inline tree that has the address inside.
#[derive(Clone, Copy, PartialEq, Eq)]
pub struct InlineFrame {
    /// The place of its name in the string table. It isn't 0.
    pub name: u32,
    /// The index of the file that it was called in.
    pub call_file: u32,
    /// The line that it was called at. One past 32 bits is 4294967295.
    pub call_line: u32,
}
