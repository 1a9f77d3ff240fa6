//! A Breakpad file as a version that a cache keeps.

ghost use Rattle.bz_breakpad.specs.Version.{format_test, format_refusals};

use crate::file::SymbolFile;
use bz_base::Result;
use bz_cache::Version;
use std::alloc::Global;

impl Version for SymbolFile {
    ghost bytes_of = { λ file. file };

    ghost test = { format_test };

    fn parse(alloc: Global, bytes: Vec<u8>) -> Result<SymbolFile> {
        SymbolFile::from_bytes(alloc, bytes)
    }

    fn formed(&self) {
        // Only a file with a table has a count.
        let _count = self.function_count();
    }

    ghost refusals = { format_refusals };
}
