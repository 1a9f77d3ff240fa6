//! Texts, read.

use bz_base::Error;
use bz_breakpad::{SymbolFile, SymbolParser};
use bz_cache::Version;
use std::alloc::Global;

/// How a file is made of a text.
pub(crate) enum Way {
    /// As a file of bytes.
    Bytes,
    /// As a version that a cache keeps.
    Version,
}

/// The file of a text.
pub(crate) fn file_of(alloc: Global, text: &[u8], way: &Way) -> Result<SymbolFile, Error> {
    let bytes = Vec::from_slice(alloc, text)?;
    match way {
        Way::Bytes => SymbolFile::from_bytes(alloc, bytes),
        Way::Version => <SymbolFile as Version>::parse(alloc, bytes),
    }
}

/// How many records the file of a text has.
pub(crate) fn records_of(alloc: Global, text: &[u8]) -> Result<u64, Error> {
    let bytes = Vec::from_slice(alloc, text)?;
    let (_file, records) = SymbolParser::run(alloc, bytes)?;
    Ok(records)
}
