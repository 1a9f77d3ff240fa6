//! The names of a file, and its PUBLIC records.

use crate::fact::{ABSENT, Names};
use bz_base::{Error, Steps};
use bz_breakpad::{PublicSymbol, SymbolFile};
use std::alloc::Global;
use std::sync::ledger::Ledger;

/// Whether these are listed.
pub(crate) fn are_listed<T: PartialEq + Drop>(
    items: Result<Vec<T>, Error>,
    expected: &[T],
) -> bool {
    match items {
        Ok(items) => items.as_slice() == expected,
        Err(_) => false,
    }
}

/// Whether the file and the inlined function of the id have these names.
pub(crate) fn has_name(file: &SymbolFile, id: u32, name: &str, origin: &str) -> bool {
    file.file(id).unwrap_or(ABSENT) == name && file.origin(id).unwrap_or(ABSENT) == origin
}

/// Whether these are the ids of FILE records, in order.
fn has_file_ids(file: &SymbolFile, expected: &[(u32, &str)]) -> bool {
    if file.file_count() != expected.len() {
        return false;
    }
    for index in 0..expected.len() {
        if file.file_id(index) != expected[index].0 {
            return false;
        }
    }
    true
}

/// Whether these are the ids of INLINE_ORIGIN records, in order.
fn has_origin_ids(file: &SymbolFile, expected: &[(u32, &str)]) -> bool {
    if file.origin_count() != expected.len() {
        return false;
    }
    for index in 0..expected.len() {
        if file.origin_id(index) != expected[index].0 {
            return false;
        }
    }
    true
}

/// Whether these are the names of FILE records and of INLINE_ORIGIN records, and their ids, in order.
pub(crate) fn has_names(alloc: Global, file: &SymbolFile, files: &Names, origins: &Names) -> bool {
    are_listed(file.files(alloc), files)
        && has_file_ids(file, files)
        && are_listed(file.origins(alloc), origins)
        && has_origin_ids(file, origins)
}

/// Whether this is the PUBLIC record of the index.
pub(crate) fn has_public(file: &SymbolFile, index: usize, expected: &PublicSymbol<'_>) -> bool {
    index < file.public_count() && file.public(index) == *expected
}

/// Whether these are the functions' names, in the order of start and size.
pub(crate) fn has_function_names<L: Ledger>(
    file: &SymbolFile,
    expected: &[&str],
    steps: &mut Steps<L>,
) -> bool {
    if file.function_count() != expected.len() {
        return false;
    }
    for index in 0..expected.len() {
        if file.function(index, steps).name() != expected[index] {
            return false;
        }
    }
    true
}

/// Whether these are the functions' names, in the order of the file.
pub(crate) fn has_names_in_file(file: &SymbolFile, expected: &[&str]) -> bool {
    if file.function_count() != expected.len() {
        return false;
    }
    for index in 0..expected.len() {
        if file.function_in_file(index).name() != expected[index] {
            return false;
        }
    }
    true
}
