//! Texts of Breakpad files, read.

use bz_base::Error;
use bz_breakpad::SymbolFile;
use std::alloc::Global;

/// The Breakpad file of a text.
pub(crate) fn file_of(alloc: Global, text: &[u8]) -> Result<SymbolFile, Error> {
    SymbolFile::from_bytes(alloc, Vec::from_slice(alloc, text)?)
}
